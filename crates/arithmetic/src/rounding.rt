ghost use Rattle.std.specs.Prelude.{◌≡◌, true, false, pos};
ghost use Rattle.std.specs.Float.{binary64};
ghost use Rattle.std.specs.Float.Ieee.{of_int};
ghost use Rattle.std.specs.Float.Ieee.Positive.{num, den};
ghost use Rattle.arithmetic.specs.Rounding.{floor_of, round_of, whole_of, toward_negative, ties_away, BelowWhole};

// 2^52: from here on every float is whole.
const WHOLE: f64 = 4503599627370496.0;

// The whole part of a number between 0 and 2^52.
fn cut(a: f64) -> f64
    requires { BelowWhole a }
    ensures { result ≡ of_int binary64 (pos (toward_negative false (num a) (den a))) }
{
    std::num::truncating_f64_to_u64(a) as f64
}

// The least whole number at or above a number between 0 and 2^52.
fn raised(a: f64) -> f64
    requires { BelowWhole a }
    ensures { result ≡ of_int binary64 (pos (toward_negative true (num a) (den a))) }
{
    let whole = std::num::truncating_f64_to_u64(a);
    if (whole as f64) < a {
        return (whole + 1) as f64;
    }
    whole as f64
}

// The nearest whole number to a number between 0 and 2^52, half way the larger.
fn nearest(a: f64) -> f64
    requires { BelowWhole a }
    ensures { result ≡ of_int binary64 (pos (ties_away false (num a) (den a))) }
{
    // Doubling is exact, so the halves are counted.
    let halves = std::num::truncating_f64_to_u64(a * 2.0);
    ((halves + 1) / 2) as f64
}

// The greatest whole number at or below x. One test stands in the other: joined by `&&` they took a tenth longer in a loop of calls.
pub fn floor(x: f64) -> f64
    ensures { result ≡ floor_of x }
{
    if 0.0 < x {
        if x < WHOLE {
            return cut(x);
        }
        return x;
    }
    let a = -x;
    if 0.0 < a {
        if a < WHOLE {
            return -raised(a);
        }
        return x;
    }
    x
}

// The nearest whole number to x, half way the one farther from zero. A function over what `floor` and this call above and below zero would
// take two closures, and be no plainer.
pub fn round(x: f64) -> f64
    ensures { result ≡ round_of x }
{
    if 0.0 < x {
        if x < WHOLE {
            return nearest(x);
        }
        return x;
    }
    let a = -x;
    if 0.0 < a {
        if a < WHOLE {
            return -nearest(a);
        }
        return x;
    }
    x
}

// Rust's `x as u64`: x without its fraction, at least 0 and at most 2^64-1; NaN gives 0.
pub fn to_u64(x: f64) -> u64
    ensures { result ≡ whole_of x }
{
    std::num::saturating_f64_to_u64(x)
}
