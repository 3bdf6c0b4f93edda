ghost use Rattle.std.specs.Prelude.{◌≡◌, ◌*◌, pos, ◌*ℤ◌};
ghost use Rattle.geometry.specs.declared.ray.Ray.{Ray as AnyRay};
ghost use Rattle.casts.specs.Answer.{says};
ghost use Rattle.casts.specs.Reach.{says_reach};
ghost use Rattle.wide_integers.specs.Value.{value, Middling};
ghost use Rattle.wide_integers.specs.Division.{fraction_of};
ghost use Rattle.wide_integers.specs.Sizes.{Sized};
ghost use Rattle.exact_triangle.specs.Line.{Line};
ghost use Rattle.exact_triangle.specs.Shear.{gain, depth_of};
ghost use Rattle.exact_triangle.specs.Grid.{grid_line};
ghost use Rattle.exact_triangle.specs.Sizes.{Near};
ghost use Rattle.exact_triangle.specs.View.{Sees, ViewSized};
ghost use Rattle.exact_triangle.specs.Reach.{corners_read, ReadOnGrid, reach_at, corners_reach, grid_reach};
ghost use Rattle.exact_triangle.specs.Cast.{grid_normal, grid_hit, grid_triangle};

use crate::crossing::CrossingDistance;
use crate::view::View;
use crate::{crossing, grid, normal, seen, view};
use casts::answer::{Cast, Hit, Reach, Refusal};
use casts::surface;
use exact_depth::incidence::Incidence;
use exact_depth::projection::Point;
use exact_depth::wide_depth::WideDepth;
use geometry::ray::Ray;
use vectors::vec3::Vec3;
use wide_integers::{guess, number};

// The three corners on the grid.
#[derive(Clone, Copy)]
pub struct GridCorners {
    pub a: Point,
    pub b: Point,
    pub c: Point,
}

// Whether every corner is within 8,192 mm. It is compiled into each of its users, since it runs once a triangle.
#[inline(always)]
pub fn corners_read(corners: [Vec3; 3]) -> bool
    ensures { result ≡ corners_read corners }
{
    if !grid::all_within(grid::FURTHEST, corners[0]) {
        return false;
    }
    if !grid::all_within(grid::FURTHEST, corners[1]) {
        return false;
    }
    grid::all_within(grid::FURTHEST, corners[2])
}

// The corners on the grid, where each is within 8,192 mm. It is compiled into each of its users: what it gives is read at once, and a call
// would hand it over in memory.
#[inline(always)]
fn grid_corners(corners: [Vec3; 3]) -> Option<GridCorners>
    ensures { ReadOnGrid corners result }
{
    if !corners_read(corners) {
        return None;
    }
    let a = grid::grid_point(corners[0]);
    let b = grid::grid_point(corners[1]);
    let c = grid::grid_point(corners[2]);
    Some(GridCorners { a, b, c })
}

// The distance in millimetres, rounded once.
fn distance(at: WideDepth, gain: i64) -> f64
    requires { Middling (value at.w) × Sized 2147483648 gain }
    ensures { result ≡ fraction_of (value at.t) (value at.w *ℤ gain *ℤ pos 32768) }
{
    let t = at.t;
    let w = at.w;
    guess::nearest(t, number::times(w, gain * 32768))
}

// What the corners are reached at, by numbers of 192 bits.
fn wide_reach(line: View, a: Point, b: Point, c: Point) -> Reach
    requires { ViewSized line × (Near a × (Near b × Near c)) }
    ensures { (l : Line) → Sees line l → says_reach result ≡ reach_at (depth_of l a b c) }
{
    let depth = seen::depth_of(line, a, b, c);
    let Some(at) = depth else {
        return Ok(None);
    };
    Ok(Some(distance(at, line.gain)))
}

// What the corners are reached at.
fn points_reach(line: View, a: Point, b: Point, c: Point) -> Reach
    requires { ViewSized line × (Near a × (Near b × Near c)) }
    ensures { (l : Line) → Sees line l → says_reach result ≡ reach_at (depth_of l a b c) }
{
    match seen::incidence_at(line, a, b, c) {
        Incidence::Outside => Ok(None),
        Incidence::Crossing => match crossing::crossing_distance(line, a, b, c) {
            CrossingDistance::At(x) => Ok(Some(x)),
            CrossingDistance::Miss => Ok(None),
            CrossingDistance::Undecided => wide_reach(line, a, b, c),
        },
        Incidence::Coplanar => wide_reach(line, a, b, c),
    }
}

// What a ray on the line reaches the corners at: the same for every ray on it.
pub fn reach_on(line: View, corners: [Vec3; 3]) -> Reach
    requires { ViewSized line }
    ensures { (ray : AnyRay) → Sees line (grid_line ray) → says_reach result ≡ corners_reach (grid_line ray) corners }
{
    let placed = grid_corners(corners);
    let Some(found) = placed else {
        return Err(Refusal::OutOfRange);
    };
    points_reach(line, found.a, found.b, found.c)
}

// What a ray reaches the corners at, without the normal.
pub fn exact_reach(ray: Ray, corners: [Vec3; 3]) -> Reach
    ensures { says_reach result ≡ grid_reach ray corners }
{
    let viewed = view::view_of(ray);
    let Some(line) = viewed else {
        return Err(Refusal::OutOfRange);
    };
    reach_on(line, corners)
}

// The hit at a distance: the cross's normal, flipped to face the ray.
fn normal_at(ray: Ray, n: Point, distance: f64) -> Cast
    ensures { says result ≡ grid_normal ray n distance }
{
    let unit = normal::unit_of(n);
    let Some(v) = unit else {
        return Err(Refusal::NoNormal);
    };
    Ok(Some(Hit {
        normal: surface::facing(v, ray.direction.dot(v)),
        distance,
    }))
}

// The hit of the corners at a distance, with the normal of the grid's edges.
pub fn hit_on(ray: Ray, corners: [Vec3; 3], distance: f64) -> Cast
    ensures { says result ≡ grid_hit ray corners distance }
{
    let placed = grid_corners(corners);
    let Some(found) = placed else {
        return Err(Refusal::OutOfRange);
    };
    normal_at(ray, normal::cross_of(found.a, found.b, found.c), distance)
}

// The cast of a ray at the corners.
pub fn exact_cast(ray: Ray, corners: [Vec3; 3]) -> Cast
    ensures { says result ≡ grid_triangle ray corners }
{
    let Some(distance) = exact_reach(ray, corners)? else {
        return Ok(None);
    };
    hit_on(ray, corners, distance)
}
