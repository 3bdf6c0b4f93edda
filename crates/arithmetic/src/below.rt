ghost use Rattle.std.specs.Prelude.{◌≡◌};
ghost use Rattle.arithmetic.specs.Below.{just_below};

use crate::basic;

// The float just below x; an x that has none stays.
pub fn just_below(x: f64) -> f64
    ensures { result ≡ just_below x }
{
    if 0.0 < x {
        return f64::from_bits(f64::to_bits(x) - 1);
    }
    if basic::is_finite(x) {
        return -f64::from_bits(f64::to_bits(basic::abs(x)) + 1);
    }
    x
}
