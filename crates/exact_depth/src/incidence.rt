ghost use Rattle.std.specs.Prelude.{◌≡◌};
ghost use Rattle.exact_depth.specs.Sizes.{Close};
ghost use Rattle.exact_depth.specs.Incidence.{any_negative, any_positive, BySigns, Incident};

use crate::projection::Projected;
use crate::{orientation, sides};

// Where a line passes a triangle: outside of it, through it at one point, or in its plane.
#[derive(Clone, Copy, Debug, PartialEq, Eq)]
pub enum Incidence {
    Outside,
    Crossing,
    Coplanar,
}

// Whether one of the three is below 0.
fn any_negative(x: i64, y: i64, z: i64) -> bool
    ensures { result ≡ any_negative x y z }
{
    x < 0 || y < 0 || z < 0
}

// Whether one of the three is above 0.
fn any_positive(x: i64, y: i64, z: i64) -> bool
    ensures { result ≡ any_positive x y z }
{
    0 < x || 0 < y || 0 < z
}

// By the signs of three weights.
fn by_signs(x: i64, y: i64, z: i64) -> Incidence
    ensures { BySigns x y z result }
{
    if any_negative(x, y, z) {
        if any_positive(x, y, z) {
            return Incidence::Outside;
        }
        return Incidence::Crossing;
    }
    if any_positive(x, y, z) {
        return Incidence::Crossing;
    }
    Incidence::Coplanar
}

// By the signs of the corners' determinants.
fn by_orientations(a: Projected, b: Projected, c: Projected) -> Incidence
    requires { Close a × (Close b × Close c) }
    ensures { Incident a b c result }
{
    let alpha = orientation::sign_of_determinant(b.across, b.up, c.across, c.up);
    let beta = orientation::sign_of_determinant(c.across, c.up, a.across, a.up);
    let gamma = orientation::sign_of_determinant(a.across, a.up, b.across, b.up);
    by_signs(alpha, beta, gamma)
}

// Where the line passes the triangle. Most triangles lie on one side of the line: no determinant is computed for them.
pub fn incidence_of(a: Projected, b: Projected, c: Projected) -> Incidence
    requires { Close a × (Close b × Close c) }
    ensures { Incident a b c result }
{
    if sides::one_side(a.across, b.across, c.across) || sides::one_side(a.up, b.up, c.up) {
        return Incidence::Outside;
    }
    by_orientations(a, b, c)
}
