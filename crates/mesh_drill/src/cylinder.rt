ghost use Rattle.std.specs.Prelude.{◌≡◌, ℕ, true, pos};
ghost use Rattle.wide_integers.specs.Sizes.{Sized};
ghost use Rattle.exact_triangle.specs.Line.{Line};
ghost use Rattle.exact_triangle.specs.Grid.{within, grid_admitted, grid_line};
ghost use Rattle.drill.specs.Box.{drill_box};
ghost use Rattle.mesh_drill.specs.Radius.{widestᶠ, radius_admitted, radius_on};
ghost use Rattle.mesh_drill.specs.Code.{IsCylinder, CylinderSized};

use arithmetic::basic;
use exact_depth::projection::Point;
use exact_triangle::grid;
use geometry::aabb::Aabb;
use geometry::ray::Ray;
use mesh_exact::bounds;

// The widest radius in millimetres.
const WIDEST: f64 = 128.0;

// A drill on the grid: the origin and the direction of its axis, where it begins and ends on it, and its radius.
#[derive(Clone, Copy)]
pub struct Cylinder {
    pub origin: Point,
    pub direction: Point,
    pub near: i64,
    pub far: i64,
    pub radius: i64,
}

// Whether a radius is a number from 0 on.
pub fn radius_admitted(radius: f64) -> bool
    ensures { result ≡ radius_admitted radius }
{
    if !basic::is_finite(radius) {
        return false;
    }
    !(radius < 0.0)
}

// Whether a radius is up to 128 mm.
pub fn radius_read(radius: f64) -> bool
    ensures { result ≡ within widestᶠ radius }
{
    grid::within(WIDEST, radius)
}

// A radius in units, upward: the nearest, and one more where that is below it.
fn radius_of(radius: f64) -> i64
    requires { within widestᶠ radius ≡ true }
    ensures { (result ≡ pos (radius_on radius)) × Sized 4194304 result }
{
    let size = basic::abs(radius);
    let nearest = grid::coordinate(size);
    if bounds::in_millimetres(nearest) < size {
        return nearest + 1;
    }
    nearest
}

// The drill about a ray's segment, on the grid.
pub fn cylinder_of(ray: Ray, radius: f64) -> Cylinder
    requires { (grid_admitted ray ≡ true) × (within widestᶠ radius ≡ true) }
    ensures { IsCylinder result (grid_line ray) (radius_on radius) × CylinderSized result }
{
    Cylinder {
        origin: grid::grid_point(ray.origin),
        direction: grid::direction_of(ray.direction),
        near: bounds::units_of(ray.near),
        far: bounds::units_of(ray.max_distance),
        radius: radius_of(radius),
    }
}

// The box of the drill.
pub fn drill_box(cylinder: Cylinder) -> Aabb
    requires { CylinderSized cylinder }
    ensures { (l : Line) (ρ : ℕ) → IsCylinder cylinder l ρ → result ≡ drill_box l ρ }
{
    let Cylinder {
        origin,
        direction,
        near,
        far,
        radius,
    } = cylinder;
    bounds::widened_box(origin, direction, near, far, radius + 1)
}
