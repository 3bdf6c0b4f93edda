ghost use Rattle.std.specs.Prelude.{◌≡◌};
ghost use Rattle.distance_grid.specs.Steps.{checked, blend, lerp, checked_difference, over, lerp_face, value_on, slope_on};

use crate::faces::Face;
use arithmetic::basic;

// A number, unless it is not finite.
#[tactic(auto, unfolding(crate::specs::Steps::checked))]
fn checked(x: f64) -> Option<f64>
    ensures { result ≡ checked x }
{
    if basic::is_finite(x) {
        return Some(x);
    }
    None
}

// The number between a and b, whatever it is.
#[tactic(auto, unfolding(crate::specs::Steps::blend))]
pub fn blend(a: f64, b: f64, amount: f64) -> f64
    ensures { result ≡ blend a b amount }
{
    a * (1.0 - amount) + b * amount
}

// The number between two steps' numbers; what one of them refused stays refused.
#[tactic(auto, unfolding(crate::specs::Steps::lerp))]
pub fn lerp(a: Option<f64>, b: Option<f64>, amount: f64) -> Option<f64>
    ensures { result ≡ lerp a b amount }
{
    let first = a?;
    let second = b?;
    checked(blend(first, second, amount))
}

#[tactic(auto, unfolding(crate::specs::Steps::checked_difference))]
fn checked_difference(a: f64, b: f64) -> Option<f64>
    ensures { result ≡ checked_difference a b }
{
    checked(a - b)
}

// A step's number over a spacing. The quotient is not tested: the next step is.
#[tactic(auto, unfolding(crate::specs::Steps::over))]
fn over(a: Option<f64>, spacing: f64) -> Option<f64>
    ensures { result ≡ over a spacing }
{
    let number = a?;
    Some(number / spacing)
}

// The number between four: along the first axis, then along the second.
#[tactic(auto, unfolding(crate::specs::Steps::lerp_face))]
fn lerp_face(
    c00: Option<f64>,
    c10: Option<f64>,
    c01: Option<f64>,
    c11: Option<f64>,
    s: f64,
    t: f64,
) -> Option<f64>
    ensures { result ≡ lerp_face c00 c10 c01 c11 s t }
{
    lerp(lerp(c00, c10, s), lerp(c01, c11, s), t)
}

// The value on a face.
#[tactic(auto, unfolding(crate::specs::Steps::value_on))]
pub fn value_on(face: Face, s: f64, t: f64) -> Option<f64>
    ensures { result ≡ value_on face s t }
{
    lerp_face(
        Some(face.a00),
        Some(face.a10),
        Some(face.a01),
        Some(face.a11),
        s,
        t,
    )
}

// The rule of the gradient on one axis, from the cell's two faces across it.
#[tactic(auto, unfolding(crate::specs::Steps::slope_on))]
pub fn slope_on(low: Face, high: Face, spacing: f64, s: f64, t: f64) -> Option<f64>
    ensures { result ≡ slope_on low high spacing s t }
{
    lerp_face(
        over(checked_difference(high.a00, low.a00), spacing),
        over(checked_difference(high.a10, low.a10), spacing),
        over(checked_difference(high.a01, low.a01), spacing),
        over(checked_difference(high.a11, low.a11), spacing),
        s,
        t,
    )
}
