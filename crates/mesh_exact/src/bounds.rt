ghost use Rattle.std.specs.Prelude.{◌≡◌, true, pos, nat_abs, ◌+ℤ◌, ◌*ℤ◌, ℕ};
ghost use Rattle.std.specs.Int.Signed.{shr_z};
ghost use Rattle.wide_integers.specs.Sizes.{Sized};
ghost use Rattle.exact_triangle.specs.Line.{parts};
ghost use Rattle.exact_triangle.specs.Grid.{units, nearest_to, within, longest, grid_admitted, grid_line};
ghost use Rattle.exact_triangle.specs.Box.{in_millimetres, certain_box};
ghost use Rattle.exact_triangle.specs.Sizes.{Near, DirectionSized};
ghost use Rattle.mesh_exact.specs.Bounds.{corner_by, low_by, high_by, box_by, AllWithin};

use exact_depth::projection::Point;
use exact_triangle::{grid, view};
use geometry::aabb::Aabb;
use geometry::ray::Ray;
use tree::layout;
use vectors::vec3::Vec3;

// A unit of the grid in millimetres.
const UNIT: f64 = 0.000030517578125;

// z units in millimetres.
pub fn in_millimetres(z: i64) -> f64
    requires { Sized 4299161602 z }
    ensures { result ≡ in_millimetres z }
{
    z as f64 * UNIT
}

// One coordinate of the segment's point at s units, rounded down.
fn floor_at(o: i64, d: i64, s: i64) -> i64
    requires { (Sized 268435456 o × Sized 2147483648 d) × Sized 1073741824 s }
    ensures { (result ≡ shr_z (pos parts *ℤ o +ℤ s *ℤ d) parts) × Sized 4294967297 result }
{
    (o * 1073741824 + s * d) >> 30
}

// The lower of a segment's two ends on one axis, lower by the width.
fn low_side(o: i64, d: i64, near: i64, far: i64, width: i64) -> f64
    requires { (Sized 268435456 o × Sized 2147483648 d) × (Sized 1073741824 near × (Sized 1073741824 far × Sized 4194305 width)) }
    ensures { (n f : ℕ) → near ≡ pos n → far ≡ pos f → result ≡ low_by width o d n f }
{
    let first = floor_at(o, d, near);
    let last = floor_at(o, d, far);
    in_millimetres(first.min(last) - width)
}

// The higher of the two, as much higher.
fn high_side(o: i64, d: i64, near: i64, far: i64, width: i64) -> f64
    requires { (Sized 268435456 o × Sized 2147483648 d) × (Sized 1073741824 near × (Sized 1073741824 far × Sized 4194305 width)) }
    ensures { (n f : ℕ) → near ≡ pos n → far ≡ pos f → result ≡ high_by width o d n f }
{
    let first = floor_at(o, d, near);
    let last = floor_at(o, d, far);
    in_millimetres(first.max(last) + width)
}

// A distance along the ray in units.
pub fn units_of(x: f64) -> i64
    requires { within longest x ≡ true }
    ensures { (result ≡ pos (nat_abs (nearest_to units x))) × Sized 1073741824 result }
{
    view::size(grid::distance(x))
}

// The lowest corner of the box.
fn low_corner(o: Point, d: Point, near: i64, far: i64, width: i64) -> Vec3
    requires { (Near o × DirectionSized d) × (Sized 1073741824 near × (Sized 1073741824 far × Sized 4194305 width)) }
    ensures { (n f : ℕ) → near ≡ pos n → far ≡ pos f → result ≡ corner_by (low_by width) o d n f }
{
    Vec3 {
        x: low_side(o.x, d.x, near, far, width),
        y: low_side(o.y, d.y, near, far, width),
        z: low_side(o.z, d.z, near, far, width),
    }
}

// The highest corner.
fn high_corner(o: Point, d: Point, near: i64, far: i64, width: i64) -> Vec3
    requires { (Near o × DirectionSized d) × (Sized 1073741824 near × (Sized 1073741824 far × Sized 4194305 width)) }
    ensures { (n f : ℕ) → near ≡ pos n → far ≡ pos f → result ≡ corner_by (high_by width) o d n f }
{
    Vec3 {
        x: high_side(o.x, d.x, near, far, width),
        y: high_side(o.y, d.y, near, far, width),
        z: high_side(o.z, d.z, near, far, width),
    }
}

// The box of a segment on the grid, wider by a width on each side: for the exact cast it is a unit, for a drill the radius and a unit.
// It is compiled into both.
#[inline(always)]
pub fn widened_box(o: Point, d: Point, near: i64, far: i64, width: i64) -> Aabb
    requires { (Near o × DirectionSized d) × (Sized 1073741824 near × (Sized 1073741824 far × Sized 4194305 width)) }
    ensures { (n f : ℕ) → near ≡ pos n → far ≡ pos f → result ≡ box_by width o d n f }
{
    Aabb {
        min: low_corner(o, d, near, far, width),
        max: high_corner(o, d, near, far, width),
    }
}

// The box of the segment on the grid, one unit wider on each side.
pub fn segment_box(ray: Ray) -> Aabb
    requires { grid_admitted ray ≡ true }
    ensures { result ≡ certain_box (grid_line ray) }
{
    let origin = grid::grid_point(ray.origin);
    let direction = grid::direction_of(ray.direction);
    let near = units_of(ray.near);
    let far = units_of(ray.max_distance);
    widened_box(origin, direction, near, far, 1)
}

// Whether each vertex is within 8,192 mm.
pub fn all_within(vertices: &[f64]) -> bool
    ensures { result ≡ true → AllWithin vertices.now }
{
    let limit = vertices.len() / 3;
    for i in 0..limit {
        if !grid::all_within(grid::FURTHEST, layout::vector_at(vertices, 3 * i)) {
            return false;
        }
    }
    true
}
