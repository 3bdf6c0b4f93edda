ghost use Rattle.std.specs.Prelude.{◌≡◌, true, ◌&&◌, pos, ◌*ℤ◌, int_le, unsigned_abs};
ghost use Rattle.wide_integers.specs.Sizes.{Sized};
ghost use Rattle.exact_triangle.specs.Shear.{main_of, facing, ahead};
ghost use Rattle.exact_triangle.specs.Grid.{units, nearest_to, within, longest, grid_admitted};
ghost use Rattle.exact_triangle.specs.Box.{in_millimetres};
ghost use Rattle.exact_triangle.specs.Sizes.{Near, DirectionSized};
ghost use Rattle.exact_triangle.specs.View.{main_as, line_from, Sees, ViewSized, Shown, Viewed};

use crate::grid;
use exact_depth::projection::{Point, Projected};
use geometry::ray::Ray;

// A unit of the grid in millimetres.
const UNIT: f64 = 0.000030517578125;

// The axis that the depth is measured along.
#[derive(Clone, Copy, Debug, PartialEq, Eq)]
pub enum Axis {
    X,
    Y,
    Z,
}

// A line on the grid: its origin, its direction, that with the depth last and 2^30 with the sign of that, how much depth there is to a
// unit along it, and the depths of its ends, and their distances in millimetres.
#[derive(Clone, Copy)]
pub struct View {
    pub axis: Axis,
    pub origin: Point,
    pub direction: Point,
    pub heading: Projected,
    pub ahead: i64,
    pub gain: i64,
    pub near: i64,
    pub far: i64,
    pub start: f64,
    pub finish: f64,
}

// |x|.
pub fn size(x: i64) -> i64
    requires { Sized 2147483648 x }
    ensures { result ≡ pos (unsigned_abs x) }
{
    if x < 0 {
        return 0 - x;
    }
    x
}

// Whether the first is the greatest.
fn leads(x: i64, y: i64, z: i64) -> bool
    ensures { result ≡ (int_le y x && int_le z x) }
{
    if y <= x {
        return z <= x;
    }
    false
}

// The axis along which a direction goes furthest.
fn main_of(d: Point) -> Axis
    requires { DirectionSized d }
    ensures { main_as result ≡ main_of d }
{
    let x = size(d.x);
    let y = size(d.y);
    let z = size(d.z);
    if leads(x, y, z) {
        return Axis::X;
    }
    if z <= y {
        return Axis::Y;
    }
    Axis::Z
}

// The coordinate on the axis is the depth, and the two others, in cyclic order, are across and up.
pub fn facing(axis: Axis, p: Point) -> Projected
    ensures { result ≡ facing (main_as axis) p }
{
    match axis {
        Axis::X => Projected {
            across: p.y,
            up: p.z,
            depth: p.x,
        },
        Axis::Y => Projected {
            across: p.z,
            up: p.x,
            depth: p.y,
        },
        Axis::Z => Projected {
            across: p.x,
            up: p.y,
            depth: p.z,
        },
    }
}

// 2^30 with the sign of a direction's depth.
fn ahead(depth: i64) -> i64
    ensures { result ≡ ahead depth }
{
    if depth < 0 {
        return -1073741824;
    }
    1073741824
}

// Whether a ray is read on the grid.
pub fn admitted(ray: Ray) -> bool
    ensures { result ≡ grid_admitted ray }
{
    if !grid::all_within(grid::FURTHEST, ray.origin) {
        return false;
    }
    if !grid::all_within(grid::TWO, ray.direction) {
        return false;
    }
    if !grid::within(grid::LONGEST, ray.near) {
        return false;
    }
    grid::within(grid::LONGEST, ray.max_distance)
}

// The depth of an end of the line: its distance on the grid, times the gain.
pub fn depth_at(x: f64, gain: i64) -> i64
    requires { (within longest x ≡ true) × Sized 2147483648 gain }
    ensures { (result ≡ pos (unsigned_abs (nearest_to units x)) *ℤ gain) × Sized 2305843009213693952 result }
{
    size(grid::distance(x)) * gain
}

// An end of the line in millimetres: its distance on the grid.
fn end_at(x: f64) -> f64
    requires { within longest x ≡ true }
    ensures { result ≡ in_millimetres (pos (unsigned_abs (nearest_to units x))) }
{
    size(grid::distance(x)) as f64 * UNIT
}

// The line with a direction.
fn looking(origin: Point, direction: Point, near: f64, far: f64) -> View
    requires { (Near origin × DirectionSized direction) × ((within longest near ≡ true) × (within longest far ≡ true)) }
    ensures { Sees result (line_from origin direction near far) × ViewSized result }
{
    let axis = main_of(direction);
    let heading = facing(axis, direction);
    let gain = size(heading.depth);
    View {
        axis,
        origin,
        direction,
        heading,
        ahead: ahead(heading.depth),
        gain,
        near: depth_at(near, gain),
        far: depth_at(far, gain),
        start: end_at(near),
        finish: end_at(far),
    }
}

// The line of a ray that is read on the grid.
pub fn line_of(ray: Ray) -> View
    requires { grid_admitted ray ≡ true }
    ensures { Shown ray result }
{
    let origin = grid::grid_point(ray.origin);
    let direction = grid::direction_of(ray.direction);
    looking(origin, direction, ray.near, ray.max_distance)
}

// A ray on the grid, where it is read on it.
pub fn view_of(ray: Ray) -> Option<View>
    ensures { Viewed ray result }
{
    if !admitted(ray) {
        return None;
    }
    Some(line_of(ray))
}
