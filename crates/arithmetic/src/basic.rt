ghost use Rattle.std.specs.Prelude.{◌≡◌};
ghost use Rattle.arithmetic.specs.Basic.{is_finite, absolute, sign_positive, at_most, clamp_to};

// Whether x is neither an infinity nor NaN, by two comparisons: f64's own method subtracts first.
pub fn is_finite(x: f64) -> bool
    ensures { result ≡ is_finite x }
{
    x < f64::INFINITY && -f64::INFINITY < x
}

// x with its sign cleared.
pub fn abs(x: f64) -> f64
    ensures { result ≡ absolute x }
{
    if x.is_nan() {
        return x;
    }
    // without the highest bit, which is the sign's: no jump that depends on the sign
    f64::from_bits(f64::to_bits(x) % 0x8000_0000_0000_0000)
}

// Whether the sign is positive; NaN counts as positive.
pub fn is_sign_positive(x: f64) -> bool
    ensures { result ≡ sign_positive x }
{
    if x < 0.0 {
        return false;
    }
    if x == 0.0 {
        return 1.0 / x > 0.0;
    }
    true
}

// x, or max where x is above it.
fn at_most(x: f64, max: f64) -> f64
    ensures { result ≡ at_most x max }
{
    if x > max {
        return max;
    }
    x
}

// Rust's f64::clamp: below min gives min, then above max gives max. Where min is above max, or one is NaN, Rust panics, and f64's own
// method asks that it is not so; here the two steps decide.
#[tactic(auto, unfolding(crate::specs::Basic::clamp_to))]
pub fn clamp(x: f64, min: f64, max: f64) -> f64
    ensures { result ≡ clamp_to x min max }
{
    if x < min {
        return at_most(min, max);
    }
    at_most(x, max)
}
