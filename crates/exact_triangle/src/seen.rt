ghost use Rattle.std.specs.Prelude.{◌≡◌};
ghost use Rattle.exact_depth.specs.Answer.{answer_of, Narrow};
ghost use Rattle.exact_depth.specs.Incidence.{Incident};
ghost use Rattle.exact_triangle.specs.Line.{Line};
ghost use Rattle.exact_triangle.specs.Shear.{from, projected_of};
ghost use Rattle.exact_triangle.specs.Sizes.{Near, Apart, CornerSized, HeadingSized, ProjectedSize};
ghost use Rattle.exact_triangle.specs.View.{sheared_by, first_depth, Sees, ViewSized};

use crate::view;
use crate::view::View;
use exact_depth::incidence::Incidence;
use exact_depth::projection::{Point, Projected};
use exact_depth::wide_depth::WideDepth;
use exact_depth::{depth, incidence};

// What lies where p does, from the origin.
pub fn from(origin: Point, p: Point) -> Point
    requires { Near origin × Near p }
    ensures { (result ≡ from origin p) × Apart result }
{
    Point {
        x: p.x - origin.x,
        y: p.y - origin.y,
        z: p.z - origin.z,
    }
}

// The space sheared so that the line with the direction d is where across and up are 0.
fn sheared(d: Projected, ahead: i64, p: Projected) -> Projected
    requires { HeadingSized d ahead × CornerSized p }
    ensures { (result ≡ sheared_by d ahead p) × ProjectedSize result }
{
    Projected {
        across: p.across * d.depth - p.depth * d.across,
        up: p.up * d.depth - p.depth * d.up,
        depth: ahead * p.depth,
    }
}

// A corner as the line sees it.
fn projected_of(line: View, p: Point) -> Projected
    requires { ViewSized line × Near p }
    ensures { ProjectedSize result × ((l : Line) → Sees line l → result ≡ projected_of l p) }
{
    let axis = line.axis;
    let origin = line.origin;
    let heading = line.heading;
    sheared(heading, line.ahead, view::facing(axis, from(origin, p)))
}

// Where the line passes the triangle.
pub fn incidence_at(line: View, a: Point, b: Point, c: Point) -> Incidence
    requires { ViewSized line × (Near a × (Near b × Near c)) }
    ensures { (l : Line) → Sees line l → Incident (projected_of l a) (projected_of l b) (projected_of l c) result }
{
    let first = projected_of(line, a);
    let second = projected_of(line, b);
    let third = projected_of(line, c);
    incidence::incidence_of(first, second, third)
}

// The first depth of the line in the triangle.
pub fn depth_of(line: View, a: Point, b: Point, c: Point) -> Option<WideDepth>
    requires { ViewSized line × (Near a × (Near b × Near c)) }
    ensures { Narrow result × ((l : Line) → Sees line l → answer_of result ≡ first_depth l a b c) }
{
    let first = projected_of(line, a);
    let second = projected_of(line, b);
    let third = projected_of(line, c);
    depth::first_point(first, second, third, line.near, line.far)
}
