ghost use Rattle.std.specs.Prelude.{◌≡◌, true, ℕ, ◌*◌, pos};
ghost use Rattle.wide_integers.specs.Sizes.{Sized};
ghost use Rattle.exact_triangle.specs.Line.{Line};
ghost use Rattle.exact_triangle.specs.Grid.{within, furthest};
ghost use Rattle.exact_triangle.specs.Shear.{gain};
ghost use Rattle.exact_triangle.specs.Box.{certain_box};
ghost use Rattle.exact_triangle.specs.View.{main_as, Sees, ViewSized};
ghost use Rattle.tree_exact.specs.Room.{side_on, facing_room, box_room, SideSized, RoomSized};
ghost use Rattle.tree_exact.specs.Opening.{box_read, line_met, short_segment, box_met};

use crate::room;
use crate::room::{Room, Span};
use exact_triangle::grid;
use exact_triangle::view::{Axis, View};
use geometry::aabb::Aabb;

// One side of a box on the grid, from a coordinate of the origin.
fn side_of(low: f64, high: f64, o: i64) -> Span
    requires { ((within furthest low ≡ true) × (within furthest high ≡ true)) × Sized 268435456 o }
    ensures { (result ≡ side_on o low high) × SideSized result }
{
    let first = grid::coordinate(low);
    let last = grid::coordinate(high);
    Span {
        low: first - o,
        high: last - o,
    }
}

// The side on the axis is the depth, and the two others, in cyclic order, are across and up. A point's `facing` is as short, and a function
// for both would be longer: it would have to be told how the record of three numbers and that of three spans are made.
fn facing_room(axis: Axis, x: Span, y: Span, z: Span) -> Room
    ensures { result ≡ facing_room (main_as axis) x y z }
{
    match axis {
        Axis::X => Room {
            across: y,
            up: z,
            depth: x,
        },
        Axis::Y => Room {
            across: z,
            up: x,
            depth: y,
        },
        Axis::Z => Room {
            across: x,
            up: y,
            depth: z,
        },
    }
}

// Whether a box is within the grid's range.
pub fn is_read(bounds: Aabb) -> bool
    ensures { result ≡ box_read bounds }
{
    if !grid::all_within(grid::FURTHEST, bounds.min) {
        return false;
    }
    grid::all_within(grid::FURTHEST, bounds.max)
}

// Such a box from the origin, as the line faces it.
fn room_of(line: View, bounds: Aabb) -> Room
    requires { ViewSized line × (box_read bounds ≡ true) }
    ensures { (result ≡ box_room (main_as line.axis) line.origin bounds) × RoomSized result }
{
    let axis = line.axis;
    let origin = line.origin;
    let x = side_of(bounds.min.x, bounds.max.x, origin.x);
    let y = side_of(bounds.min.y, bounds.max.y, origin.y);
    let z = side_of(bounds.min.z, bounds.max.z, origin.z);
    facing_room(axis, x, y, z)
}

// Whether the line can meet a box at a depth before past; a box out of range counts as one that it can meet.
pub fn line_met(line: View, past: i64, bounds: Aabb) -> bool
    requires { ViewSized line }
    ensures { (l : Line) (limit : ℕ) → Sees line l → past ≡ pos (limit * gain l) → result ≡ line_met l limit bounds }
{
    if !is_read(bounds) {
        return true;
    }
    let seen = room_of(line, bounds);
    room::passes(seen, line.heading, line.ahead, line.near, past)
}

// Whether the segment is at most 64 mm long.
pub fn is_short(line: View) -> bool
    requires { ViewSized line }
    ensures { (l : Line) → Sees line l → result ≡ short_segment l }
{
    let length = line.far - line.near;
    let most = line.gain * 2097152;
    length <= most
}

// Whether a node with such a box is opened: its box against the segment's, reach, decides most of them, and for a short segment all in
// range.
pub fn box_met(line: View, reach: Aabb, past: i64, bounds: Aabb) -> bool
    requires { ViewSized line }
    ensures { (l : Line) (limit : ℕ) → Sees line l → reach ≡ certain_box l → past ≡ pos (limit * gain l)
        → result ≡ box_met l limit bounds }
{
    if !bounds.touches(reach) {
        return !is_read(bounds);
    }
    if is_short(line) {
        return true;
    }
    line_met(line, past, bounds)
}
