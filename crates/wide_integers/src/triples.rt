ghost use Rattle.std.specs.Prelude.{◌≤◌};
ghost use Rattle.wide_integers.specs.Triples.{TimesAdded, RowOf, Carries, Borrows, Doubled, Signed, Times};
ghost use Rattle.wide_integers.specs.Triples.{PairsMultiplied, PairSubtracted};

use crate::number::Wide;
use crate::words;
use crate::words::{Carried, Double};

// Six words, high · 2^192 + low, three of them each. A type of its own beside `Double`: a part's base is another, and one type would say
// neither.
#[derive(Clone, Copy, PartialEq, Eq, PartialOrd, Ord)]
pub struct Long {
    pub high: Wide,
    pub low: Wide,
}

// a · b + c + d, by halves of 32 digits.
pub fn times_add(a: u64, b: u64, c: u64, d: u64) -> Double
    ensures { TimesAdded a b c d result }
{
    let high = a / 4294967296;
    let low = a % 4294967296;
    let upper = b / 4294967296;
    let lower = b % 4294967296;
    let first = low * lower + c % 4294967296 + d % 4294967296;
    let second = high * lower + first / 4294967296 + c / 4294967296;
    let third = low * upper + second % 4294967296 + d / 4294967296;
    Double {
        high: high * upper + second / 4294967296 + third / 4294967296,
        low: third % 4294967296 * 4294967296 + first % 4294967296,
    }
}

// a · k + more.
pub fn row(a: Wide, k: u64, more: Wide) -> Carried<Wide>
    ensures { RowOf a k more result }
{
    let low = times_add(a.low, k, more.low, 0);
    let middle = times_add(a.middle, k, more.middle, low.high);
    let high = times_add(a.high, k, more.high, middle.high);
    Carried {
        words: Wide {
            high: high.low,
            middle: middle.low,
            low: low.low,
        },
        over: high.high,
    }
}

// a + b + carry.
#[tactic(auto, using(crate::proofs::Rows::add_words))]
pub fn add(a: Wide, b: Wide, carry: u64) -> Carried<Wide>
    requires { carry ≤ 1 }
    ensures { Carries a b carry result }
{
    let low = words::add_carry(a.low, b.low, carry);
    let middle = words::add_carry(a.middle, b.middle, low.over);
    let high = words::add_carry(a.high, b.high, middle.over);
    Carried {
        words: Wide {
            high: high.words,
            middle: middle.words,
            low: low.words,
        },
        over: high.over,
    }
}

// a - b - borrow. Not one function with `add`: their clauses differ by the side on which what passes stands.
#[tactic(auto, using(crate::proofs::Rows::subtract_words))]
pub fn subtract(a: Wide, b: Wide, borrow: u64) -> Carried<Wide>
    requires { borrow ≤ 1 }
    ensures { Borrows a b borrow result }
{
    let low = words::subtract(a.low, b.low, borrow);
    let middle = words::subtract(a.middle, b.middle, low.over);
    let high = words::subtract(a.high, b.high, middle.over);
    Carried {
        words: Wide {
            high: high.words,
            middle: middle.words,
            low: low.words,
        },
        over: high.over,
    }
}

// a · b.
pub fn multiply(a: Wide, b: Wide) -> Long
    ensures { Doubled a b result }
{
    let none = Wide {
        high: 0,
        middle: 0,
        low: 0,
    };
    let first = row(a, b.low, none);
    let one = Wide {
        high: first.over,
        middle: first.words.high,
        low: first.words.middle,
    };
    let second = row(a, b.middle, one);
    let two = Wide {
        high: second.over,
        middle: second.words.high,
        low: second.words.middle,
    };
    let third = row(a, b.high, two);
    Long {
        high: Wide {
            high: third.over,
            middle: third.words.high,
            low: third.words.middle,
        },
        low: Wide {
            high: third.words.low,
            middle: second.words.low,
            low: first.words.low,
        },
    }
}

// a - 2^191 as words - over · 2^192, where over is 1 or 0.
#[tactic(auto, using(crate::proofs::Rows::signed_words))]
pub fn signed(a: Wide) -> Carried<Wide>
    ensures { Signed a result }
{
    Carried {
        words: Wide {
            high: std::num::wrapping_add_u64(a.high, 9223372036854775808),
            middle: a.middle,
            low: a.low,
        },
        over: 1 - a.high / 9223372036854775808,
    }
}

// a, or 0.
pub fn chosen(s: u64, a: Wide) -> Wide
    requires { s ≤ 1 }
    ensures { Times s a result }
{
    Wide {
        high: s * a.high,
        middle: s * a.middle,
        low: s * a.low,
    }
}

// Four words.
#[derive(Clone, Copy)]
pub struct Quad {
    pub w3: u64,
    pub w2: u64,
    pub w1: u64,
    pub w0: u64,
}

// (a1 · 2^64 + a0) · (b1 · 2^64 + b0).
pub fn multiply_pairs(a1: u64, a0: u64, b1: u64, b0: u64) -> Quad
    ensures { PairsMultiplied a1 a0 b1 b0 result }
{
    let first = times_add(a0, b0, 0, 0);
    let second = times_add(a1, b0, first.high, 0);
    let third = times_add(a0, b1, second.low, 0);
    let fourth = times_add(a1, b1, second.high, third.high);
    Quad {
        w3: fourth.high,
        w2: fourth.low,
        w1: third.low,
        w0: first.low,
    }
}

// (h1 · 2^64 + h0) - (x1 · 2^64 + x0).
pub fn subtract_pair(h1: u64, h0: u64, x1: u64, x0: u64) -> Carried<Double>
    ensures { PairSubtracted h1 h0 x1 x0 result }
{
    let low = words::subtract(h0, x0, 0);
    let high = words::subtract(h1, x1, low.over);
    Carried {
        words: Double {
            high: high.words,
            low: low.words,
        },
        over: high.over,
    }
}
