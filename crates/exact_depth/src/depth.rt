ghost use Rattle.exact_depth.specs.FirstPoint.{crossing, by_weights, first_point};
ghost use Rattle.wide_integers.specs.Value.{value, Weight};
ghost use Rattle.exact_depth.specs.Answer.{Finds};
ghost use Rattle.exact_depth.specs.Sizes.{Close};

use crate::projection::Projected;
use crate::wide_depth::WideDepth;
use crate::{coplanar_point, wide_depth};
use wide_integers::number;
use wide_integers::number::Wide;

// The line crosses the plane at the weights a, b and c of the corners, whose depths are x, y and z.
fn crossing(
    a: Wide,
    b: Wide,
    c: Wide,
    x: i64,
    y: i64,
    z: i64,
    near: i64,
    far: i64,
) -> Option<WideDepth>
    requires { Weight (value a) × (Weight (value b) × Weight (value c)) }
    ensures { Finds result (crossing (value a) (value b) (value c) x y z near far) }
{
    if number::is_negative(a) || number::is_negative(b) || number::is_negative(c) {
        return None;
    }
    let at = WideDepth {
        t: number::weighted(a, x, b, y, c, z),
        w: number::total(a, b, c),
    };
    wide_depth::kept(at, near, far)
}

// The same by the weights of the corners, with the sign by which their sum is not below 0.
fn by_weights(
    a: Projected,
    b: Projected,
    c: Projected,
    alpha: Wide,
    beta: Wide,
    gamma: Wide,
    near: i64,
    far: i64,
) -> Option<WideDepth>
    requires { (Close a × (Close b × Close c)) × (Weight (value alpha) × (Weight (value beta) × Weight (value gamma))) }
    ensures { Finds result (by_weights a b c (value alpha) (value beta) (value gamma) near far) }
{
    let signed = number::total(alpha, beta, gamma);
    if number::is_positive(signed) {
        return crossing(alpha, beta, gamma, a.depth, b.depth, c.depth, near, far);
    }
    if number::is_negative(signed) {
        let first = number::negate(alpha);
        let second = number::negate(beta);
        let third = number::negate(gamma);
        return crossing(first, second, third, a.depth, b.depth, c.depth, near, far);
    }
    if !number::is_zero(alpha) || !number::is_zero(beta) {
        return None;
    }
    coplanar_point::coplanar(a, b, c, near, far)
}

// The first depth from near to far at which the line is in the triangle, its sides and corners included.
pub fn first_point(
    a: Projected,
    b: Projected,
    c: Projected,
    near: i64,
    far: i64,
) -> Option<WideDepth>
    requires { Close a × (Close b × Close c) }
    ensures { Finds result (first_point a b c near far) }
{
    let alpha = number::determinant(b.across, b.up, c.across, c.up);
    let beta = number::determinant(c.across, c.up, a.across, a.up);
    let gamma = number::determinant(a.across, a.up, b.across, b.up);
    by_weights(a, b, c, alpha, beta, gamma, near, far)
}
