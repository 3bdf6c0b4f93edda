ghost use Rattle.std.specs.Prelude.{◌≡◌, pos, ◌+ℤ◌, ◌-ℤ◌, ◌*ℤ◌, neg_ℤ, int_le, int_lt};
ghost use Rattle.wide_integers.specs.Determinant.{determinant, is_zero};
ghost use Rattle.wide_integers.specs.Value.{value, FitsWide, Middling, Weight};

use crate::words;

// A whole number from -2^191 to below 2^191: high · 2^128 + middle · 2^64 + low - 2^191. So numbers are in order as their words are.
#[derive(Clone, Copy, PartialEq, Eq, PartialOrd, Ord)]
pub struct Wide {
    pub high: u64,
    pub middle: u64,
    pub low: u64,
}

pub fn zero() -> Wide
    ensures { value result ≡ pos 0 }
{
    Wide {
        high: 9223372036854775808,
        middle: 0,
        low: 0,
    }
}

// x itself.
pub fn of_i64(x: i64) -> Wide
    ensures { value result ≡ x }
{
    let part = words::split_sign(x);
    Wide {
        high: 9223372036854775808 - part.below,
        middle: part.below * 18446744073709551615,
        low: part.word,
    }
}

// a · b, of any two numbers. It is at most 2^126, so that the middle word's highest digit is its sign.
pub fn product(a: i64, b: i64) -> Wide
    ensures { value result ≡ a *ℤ b }
{
    let x = words::split_sign(a);
    let y = words::split_sign(b);
    let whole = words::times(x.word, y.word);
    let once = words::subtract(whole.high, y.below * x.word, 0);
    let twice = words::subtract(once.words, x.below * y.word, 0);
    Wide {
        high: 9223372036854775808 - twice.words / 9223372036854775808,
        middle: twice.words,
        low: whole.low,
    }
}

// a + b.
#[tactic(auto, using(crate::proofs::OperationLaws::sum_told))]
pub fn sum(a: Wide, b: Wide) -> Wide
    requires { FitsWide (value a +ℤ value b) }
    ensures { value result ≡ value a +ℤ value b }
{
    let low = words::add_carry(a.low, b.low, 0);
    let middle = words::add_carry(a.middle, b.middle, low.over);
    let high = std::num::wrapping_add_u64(
        std::num::wrapping_add_u64(a.high, b.high),
        9223372036854775808 + middle.over,
    );
    Wide {
        high,
        middle: middle.words,
        low: low.words,
    }
}

// a - b.
#[tactic(auto, using(crate::proofs::OperationLaws::difference_told))]
pub fn difference(a: Wide, b: Wide) -> Wide
    requires { FitsWide (value a -ℤ value b) }
    ensures { value result ≡ value a -ℤ value b }
{
    let low = words::subtract(a.low, b.low, 0);
    let middle = words::subtract(a.middle, b.middle, low.over);
    let over = std::num::wrapping_add_u64(a.high, 9223372036854775808);
    let left = std::num::wrapping_sub_u64(over, b.high);
    let high = std::num::wrapping_sub_u64(left, middle.over);
    Wide {
        high,
        middle: middle.words,
        low: low.words,
    }
}

// -a.
pub fn negate(a: Wide) -> Wide
    requires { FitsWide (neg_ℤ (value a)) }
    ensures { value result ≡ neg_ℤ (value a) }
{
    difference(zero(), a)
}

// a d - b c, of any four numbers.
pub fn determinant(a: i64, b: i64, c: i64, d: i64) -> Wide
    ensures { value result ≡ determinant a b c d }
{
    difference(product(a, d), product(b, c))
}

// a · k.
pub fn times(a: Wide, k: i64) -> Wide
    requires { Middling (value a) }
    ensures { value result ≡ value a *ℤ k }
{
    let y = words::split_sign(k);
    let below = 9223372036854775808 - a.high;
    let lower = words::times(a.low, y.word);
    let upper = words::times(a.middle, y.word);
    let once = words::add_carry(lower.high, upper.low, 0);
    let twice = words::subtract(once.words, y.below * a.low, 0);
    let over = std::num::wrapping_add_u64(upper.high, 9223372036854775808 + once.over);
    let first = std::num::wrapping_sub_u64(over, twice.over);
    let second = std::num::wrapping_sub_u64(first, y.below * a.middle);
    Wide {
        high: std::num::wrapping_sub_u64(second, below * y.word),
        middle: twice.words,
        low: lower.low,
    }
}

// a + b + c.
#[tactic(auto, using(crate::proofs::Reading::sum_size, crate::proofs::OperationLaws::held))]
pub fn total(a: Wide, b: Wide, c: Wide) -> Wide
    requires { Weight (value a) × (Weight (value b) × Weight (value c)) }
    ensures { value result ≡ value a +ℤ value b +ℤ value c }
{
    sum(sum(a, b), c)
}

// a x + b y + c z.
pub fn weighted(a: Wide, x: i64, b: Wide, y: i64, c: Wide, z: i64) -> Wide
    requires { Weight (value a) × (Weight (value b) × Weight (value c)) }
    ensures { value result ≡ value a *ℤ x +ℤ value b *ℤ y +ℤ value c *ℤ z }
{
    sum(sum(times(a, x), times(b, y)), times(c, z))
}

// Whether a is less than b.
pub fn below(a: Wide, b: Wide) -> bool
    ensures { result ≡ int_lt (value a) (value b) }
{
    a < b
}

// Whether a is at most b.
pub fn at_most(a: Wide, b: Wide) -> bool
    ensures { result ≡ int_le (value a) (value b) }
{
    !below(b, a)
}

pub fn is_negative(a: Wide) -> bool
    ensures { result ≡ int_lt (value a) (pos 0) }
{
    a.high < 9223372036854775808
}

pub fn is_positive(a: Wide) -> bool
    ensures { result ≡ int_lt (pos 0) (value a) }
{
    below(zero(), a)
}

pub fn is_zero(a: Wide) -> bool
    ensures { result ≡ is_zero (value a) }
{
    !is_negative(a) && at_most(a, zero())
}
