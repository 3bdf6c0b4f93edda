ghost use Rattle.std.specs.Prelude.{◌≡◌, false, is_nan};
ghost use Rattle.arithmetic.specs.Extremes.{minimum_of, maximum_of};

// The lesser operand, the first if they are equal, the other if one is NaN.
#[tactic(auto, unfolding(crate::specs::Extremes::minimum_of))]
pub fn minimum(x: f64, y: f64) -> f64
    ensures { result ≡ minimum_of x y }
{
    if y < x {
        return y;
    }
    if x.is_nan() {
        return y;
    }
    x
}

// The greater operand, the first if they are equal, the other if one is NaN. A function over the comparison would be no plainer than these
// few lines twice.
#[tactic(auto, unfolding(crate::specs::Extremes::maximum_of))]
pub fn maximum(x: f64, y: f64) -> f64
    ensures { result ≡ maximum_of x y }
{
    if x < y {
        return y;
    }
    if x.is_nan() {
        return y;
    }
    x
}

// The minimum where the first operand is no NaN, as callers show, and again no NaN: one comparison, which the processor makes in one
// instruction, tells it.
pub fn lesser(x: f64, y: f64) -> f64
    requires { is_nan x ≡ false }
    ensures { (result ≡ minimum_of x y) × (is_nan result ≡ false) }
{
    if x > y {
        return y;
    }
    x
}

// The maximum where the first operand is no NaN, and again none.
pub fn greater(x: f64, y: f64) -> f64
    requires { is_nan x ≡ false }
    ensures { (result ≡ maximum_of x y) × (is_nan result ≡ false) }
{
    if y > x {
        return y;
    }
    x
}
