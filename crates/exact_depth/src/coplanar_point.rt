ghost use Rattle.std.specs.Prelude.{◌≡◌};
ghost use Rattle.exact_depth.specs.FirstPoint.{across_point, up_point, side_of, height_of, enter_at, entering, inside, area, along_plane};
ghost use Rattle.exact_depth.specs.FirstPoint.{in_plane, coplanar};
ghost use Rattle.wide_integers.specs.Value.{value};
ghost use Rattle.exact_depth.specs.Answer.{side_as, plane_depth_of, answer_of, Finds, Narrow};
ghost use Rattle.exact_depth.specs.Sizes.{Close, Flat, Bounded, Shallow};

use crate::plane::PlanePoint;
use crate::projection::Projected;
use crate::wide_depth;
use crate::wide_depth::WideDepth;
use wide_integers::number;
use wide_integers::number::Wide;

// A side's own test of a depth t / w: level · w - fall · t is not below 0 on the triangle's side of it.
#[derive(Clone, Copy)]
pub struct Edge {
    pub level: Wide,
    pub fall: i64,
}

// The depth t / w, with w above 0. The theorems speak of a `Fraction`, and of a `Side`, over whole numbers: this and `Edge` hold them.
#[derive(Clone, Copy)]
pub struct PlaneDepth {
    pub t: Wide,
    pub w: i64,
}

// The side of the line from one corner to another.
fn side_of(p: PlanePoint, q: PlanePoint) -> Edge
    requires { Flat p × Flat q }
    ensures { side_as result ≡ side_of p q }
{
    Edge {
        level: number::determinant(p.u, p.depth, q.u, q.depth),
        fall: p.u - q.u,
    }
}

// A side's own test of a depth: below 0 is outside.
fn height(side: Edge, at: PlaneDepth) -> Wide
    requires { Bounded side × Shallow at }
    ensures { value result ≡ height_of (side_as side) (plane_depth_of at) }
{
    number::difference(
        number::times(side.level, at.w),
        number::times(at.t, side.fall),
    )
}

// The depth, or where it is outside a side, that at which the line comes over the side.
fn enter_at(at: PlaneDepth, side: Edge) -> PlaneDepth
    requires { Bounded side × Shallow at }
    ensures { plane_depth_of result ≡ enter_at (plane_depth_of at) (side_as side) }
{
    let over = height(side, at);
    if number::is_negative(over) {
        return PlaneDepth {
            t: number::negate(side.level),
            w: 0 - side.fall,
        };
    }
    at
}

// A depth before the line comes over a side becomes the depth there.
fn entering(at: PlaneDepth, side: Edge) -> PlaneDepth
    requires { Bounded side × Shallow at }
    ensures { plane_depth_of result ≡ entering (plane_depth_of at) (side_as side) }
{
    if side.fall < 0 {
        return enter_at(at, side);
    }
    at
}

// Whether a depth is outside of no side.
fn inside(first: Edge, second: Edge, third: Edge, at: PlaneDepth) -> bool
    requires { (Bounded first × (Bounded second × Bounded third)) × Shallow at }
    ensures { result ≡ inside (side_as first) (side_as second) (side_as third) (plane_depth_of at) }
{
    !number::is_negative(height(first, at))
        && !number::is_negative(height(second, at))
        && !number::is_negative(height(third, at))
}

// A triangle whose corners run counterclockwise.
fn along(a: PlanePoint, b: PlanePoint, c: PlanePoint, near: i64, far: i64) -> Option<WideDepth>
    requires { Flat a × (Flat b × Flat c) }
    ensures { Finds result (along_plane a b c near far) }
{
    let first = side_of(b, c);
    let second = side_of(c, a);
    let third = side_of(a, b);
    let start = PlaneDepth {
        t: number::of_i64(near),
        w: 1,
    };
    let once = entering(start, first);
    let twice = entering(once, second);
    let at = entering(twice, third);
    if !inside(first, second, third, at) {
        return None;
    }
    let deep = WideDepth {
        t: at.t,
        w: number::of_i64(at.w),
    };
    wide_depth::kept(deep, near, far)
}

// Twice the triangle's area, positive where the corners run counterclockwise.
fn area_of(a: PlanePoint, b: PlanePoint, c: PlanePoint) -> Wide
    requires { Flat a × (Flat b × Flat c) }
    ensures { value result ≡ area a b c }
{
    let first = number::determinant(b.u, b.depth, c.u, c.depth);
    let second = number::determinant(c.u, c.depth, a.u, a.depth);
    let third = number::determinant(a.u, a.depth, b.u, b.depth);
    number::total(first, second, third)
}

// A triangle whose corners run either way round; where they lie on one line the answer is another's.
fn in_plane(
    a: PlanePoint,
    b: PlanePoint,
    c: PlanePoint,
    near: i64,
    far: i64,
    other: Option<WideDepth>,
) -> Option<WideDepth>
    requires { (Flat a × (Flat b × Flat c)) × Narrow other }
    ensures { Finds result (in_plane a b c near far (answer_of other)) }
{
    let signed = area_of(a, b, c);
    if number::is_positive(signed) {
        return along(a, b, c, near, far);
    }
    if number::is_negative(signed) {
        return along(a, c, b, near, far);
    }
    other
}

fn across_point(s: Projected) -> PlanePoint
    ensures { result ≡ across_point s }
{
    PlanePoint {
        u: s.across,
        depth: s.depth,
    }
}

fn up_point(s: Projected) -> PlanePoint
    ensures { result ≡ up_point s }
{
    PlanePoint {
        u: s.up,
        depth: s.depth,
    }
}

// The line lies in the triangle's plane. A plane that is no wider across is looked at from the side.
pub fn coplanar(a: Projected, b: Projected, c: Projected, near: i64, far: i64) -> Option<WideDepth>
    requires { Close a × (Close b × Close c) }
    ensures { Finds result (coplanar a b c near far) }
{
    let upright = in_plane(up_point(a), up_point(b), up_point(c), near, far, None);
    in_plane(
        across_point(a),
        across_point(b),
        across_point(c),
        near,
        far,
        upright,
    )
}
