ghost use Rattle.std.specs.Prelude.{◌≤◌};
ghost use Rattle.wide_integers.specs.Steps.{Added, Subtracted, Multiplied, SplitSign};

use crate::triples;

// What one word or some hold of a sum, a difference or a product, and what passes them.
#[derive(Clone, Copy)]
pub struct Carried<T> {
    pub words: T,
    pub over: u64,
}

// A product, high · 2^64 + low.
#[derive(Clone, Copy)]
pub struct Double {
    pub high: u64,
    pub low: u64,
}

// A number with a sign, word - below · 2^64. Below is 1 or 0.
#[derive(Clone, Copy)]
pub struct Part {
    pub word: u64,
    pub below: u64,
}

// a + b + carry.
#[tactic(auto, using(crate::proofs::WordLaws::flags_fit, crate::proofs::WordLaws::added))]
pub fn add_carry(a: u64, b: u64, carry: u64) -> Carried<u64>
    requires { carry ≤ 1 }
    ensures { Added a b carry result }
{
    let half = std::num::wrapping_add_u64(a, b);
    let words = std::num::wrapping_add_u64(half, carry);
    let over = (half < a) as u64 + (words < half) as u64;
    Carried { words, over }
}

// a - b - borrow.
#[tactic(auto, using(crate::proofs::WordLaws::flags_fit, crate::proofs::WordLaws::taken))]
pub fn subtract(a: u64, b: u64, borrow: u64) -> Carried<u64>
    requires { borrow ≤ 1 }
    ensures { Subtracted a b borrow result }
{
    let half = std::num::wrapping_sub_u64(a, b);
    let words = std::num::wrapping_sub_u64(half, borrow);
    let over = (a < b) as u64 + (half < borrow) as u64;
    Carried { words, over }
}

// a · b.
pub fn times(a: u64, b: u64) -> Double
    ensures { Multiplied a b result }
{
    triples::times_add(a, b, 0, 0)
}

// A whole number as its lowest 64 digits and its sign.
pub fn split_sign(x: i64) -> Part
    ensures { SplitSign x result }
{
    if x < 0 {
        return Part {
            word: 18446744073709551615 - (-1 - x) as u64,
            below: 1,
        };
    }
    Part {
        word: x as u64,
        below: 0,
    }
}
