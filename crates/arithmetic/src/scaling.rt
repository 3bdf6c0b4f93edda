ghost use Rattle.std.specs.Prelude.{◌≡◌, ◌*◌, ◌^◌, ◌≤◌, true, false, from_bits};
ghost use Rattle.std.specs.Float.{binary64};
ghost use Rattle.std.specs.Float.Ieee.{lt, le};
ghost use Rattle.std.specs.Float.Ieee.Exact.{HasValue};
ghost use Rattle.arithmetic.specs.Basic.{is_finite, absolute};
ghost use Rattle.arithmetic.specs.Scaling.{unit, digits_of, scaled_by};

// 2^537: times this the least float is a normal number, and no number below 1 overflows.
const LIFT: f64 = 4.4989137945431964e161;

// The power of two that brings a normal number x, as callers show that it is, to at least 1 and below 2: its exponent's field is 2046 less
// x's.
fn power_for(x: f64) -> f64
    requires { (lt (from_bits binary64 0) x ≡ true) × ((is_finite x ≡ true) × (53 ≤ digits_of x)) }
    ensures { HasValue result false (2 * unit) (2 ^ digits_of x) }
{
    let field = f64::to_bits(x) / 4503599627370496;
    if field < 2046 {
        return f64::from_bits((2046 - field) * 4503599627370496);
    }
    // 2^-1023 is subnormal
    f64::from_bits(2251799813685248)
}

// x times the power of two that brings largest to at least 1 and below 2, rounded once. Below 1 both are lifted first, which is exact,
// since 2^1074 is no float.
pub fn scaled(x: f64, largest: f64) -> f64
    requires { (lt (from_bits binary64 0) largest ≡ true) × ((is_finite largest ≡ true) × (le (absolute x) largest ≡ true)) }
    ensures { result ≡ scaled_by (digits_of largest) x }
{
    if largest < 1.0 {
        return x * LIFT * power_for(largest * LIFT);
    }
    x * power_for(largest)
}
