ghost use Rattle.wide_integers.specs.Value.{value};
ghost use Rattle.exact_depth.specs.Incidence.{Crosses};
ghost use Rattle.exact_triangle.specs.Line.{Line};
ghost use Rattle.exact_triangle.specs.Shear.{projected_of, depth_of};
ghost use Rattle.exact_triangle.specs.Sizes.{Near};
ghost use Rattle.exact_triangle.specs.View.{Sees, ViewSized};
ghost use Rattle.exact_triangle.specs.CrossingDistance.{AgainstEnds, Between, Decides};

use crate::view::View;
use crate::{axis_plane, normal, seen};
use exact_depth::projection::Point;
use wide_integers::number::Wide;
use wide_integers::{guess, number};

// The distance at which the line crosses a triangle, on the segment; or that it crosses it off the segment; or neither is decided.
// Three outcomes with names of their own, which an `Option` of an `Option` would not give them.
#[derive(Clone, Copy)]
pub enum CrossingDistance {
    At(f64),
    Miss,
    Undecided,
}

// A rounded distance, where it lies between the segment's rounded ends, and a miss where it lies outside of them: rounding keeps the order.
// At an end nothing is decided.
pub fn against_ends(x: f64, start: f64, finish: f64) -> CrossingDistance
    ensures { AgainstEnds x start finish result }
{
    if start < x {
        if x < finish {
            return CrossingDistance::At(x);
        }
        if finish < x {
            return CrossingDistance::Miss;
        }
        return CrossingDistance::Undecided;
    }
    if x < start {
        return CrossingDistance::Miss;
    }
    CrossingDistance::Undecided
}

// The distance t / w.
fn between_ends(t: Wide, w: Wide, start: f64, finish: f64) -> CrossingDistance
    ensures { Between (value t) (value w) start finish result }
{
    if number::is_negative(t) {
        return CrossingDistance::Miss;
    }
    against_ends(guess::nearest(t, w), start, finish)
}

// The distance of a triangle that the line crosses: 2^15 n · (a - o) / n · d with n the cross of the edges.
fn by_normal(line: View, a: Point, b: Point, c: Point) -> CrossingDistance
    requires { ViewSized line × (Near a × (Near b × Near c)) }
    ensures { (l : Line) → Sees line l → Crosses (projected_of l a) (projected_of l b) (projected_of l c)
        → Decides (depth_of l a b c) result }
{
    let n = normal::cross_of(a, b, c);
    let direction = line.direction;
    let origin = line.origin;
    let under = normal::dot(n, direction);
    let over = normal::dot(n, seen::from(origin, a));
    if number::is_positive(under) {
        return between_ends(number::times(over, 32768), under, line.start, line.finish);
    }
    if number::is_negative(under) {
        return between_ends(
            number::times(over, -32768),
            number::negate(under),
            line.start,
            line.finish,
        );
    }
    CrossingDistance::Undecided
}

// The same; a triangle in a plane at right angles to the x or y axis has that plane's distance.
fn by_x_or_y_plane(line: View, a: Point, b: Point, c: Point) -> CrossingDistance
    requires { ViewSized line × (Near a × (Near b × Near c)) }
    ensures { (l : Line) → Sees line l → Crosses (projected_of l a) (projected_of l b) (projected_of l c)
        → Decides (depth_of l a b c) result }
{
    let o = line.origin;
    let d = line.direction;
    let on_x = axis_plane::in_axis_plane(a.x, b.x, c.x, o.x, d.x, line.start, line.finish);
    let CrossingDistance::Undecided = on_x else {
        return on_x;
    };
    let on_y = axis_plane::in_axis_plane(a.y, b.y, c.y, o.y, d.y, line.start, line.finish);
    let CrossingDistance::Undecided = on_y else {
        return on_y;
    };
    by_normal(line, a, b, c)
}

// The same; a triangle in a plane at right angles to an axis, as most are, has that plane's distance.
pub fn crossing_distance(line: View, a: Point, b: Point, c: Point) -> CrossingDistance
    requires { ViewSized line × (Near a × (Near b × Near c)) }
    ensures { (l : Line) → Sees line l → Crosses (projected_of l a) (projected_of l b) (projected_of l c)
        → Decides (depth_of l a b c) result }
{
    let o = line.origin;
    let d = line.direction;
    let on_z = axis_plane::in_axis_plane(a.z, b.z, c.z, o.z, d.z, line.start, line.finish);
    let CrossingDistance::Undecided = on_z else {
        return on_z;
    };
    by_x_or_y_plane(line, a, b, c)
}
