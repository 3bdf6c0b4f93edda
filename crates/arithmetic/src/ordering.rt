ghost use Rattle.std.specs.Prelude.{◌≡◌};
ghost use Rattle.arithmetic.specs.Ordering.{total_order};

// Whether x stands at or before y in IEEE 754's totalOrder: -0 before +0, NaN after everything. f64's own `total_cmp` takes no NaN.
#[tactic(auto, unfolding(crate::specs::Ordering::total_order))]
pub fn total_order(x: f64, y: f64) -> bool
    ensures { result ≡ total_order x y }
{
    if x < y {
        return true;
    }
    if y < x {
        return false;
    }
    if y.is_nan() {
        return true;
    }
    if x.is_nan() {
        return false;
    }
    // Equal numbers have the same bits, but for -0, whose sign bit makes the larger pattern.
    f64::to_bits(y) <= f64::to_bits(x)
}
