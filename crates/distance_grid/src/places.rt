ghost use Rattle.std.specs.Prelude.{◌≡◌, ◌-◌, ◌≤◌};
ghost use Rattle.distance_grid.specs.Grid.{SidesStand, last_node};
ghost use Rattle.distance_grid.specs.Places.{top_of, clamped, stays, in_box, clamped_point, up_to, floor_cell, guess_holds, place_at};
ghost use Rattle.distance_grid.specs.Places.{says_place, says_located, locate_axis, locate_inside, locate};

use crate::grid;
use crate::grid::{Axis, Grid};
use arithmetic::{basic, below, rounding};
use vectors::vec3::Vec3;

// A cell of one axis and where in it a point lies.
#[derive(Clone, Copy)]
pub struct Place {
    pub cell: u32,
    pub fraction: f64,
}

// A cell of the grid and where in it a point lies on each axis.
// Each fraction stands beside its cell: two fractions side by side are read as one pair right after they were stored one by one, and the
// processor waits for that.
#[derive(Clone, Copy)]
pub struct Located {
    pub x: Place,
    pub y: Place,
    pub z: Place,
}

impl Located {
    // The cell.
    pub fn cell(self) -> Cell
        ensures { result ≡ record { x = self.x.cell; y = self.y.cell; z = self.z.cell } }
    {
        Cell {
            x: self.x.cell,
            y: self.y.cell,
            z: self.z.cell,
        }
    }

    // Where in the cell the point lies.
    pub fn fractions(self) -> Vec3
        ensures { result ≡ record { x = self.x.fraction; y = self.y.fraction; z = self.z.fraction } }
    {
        Vec3 {
            x: self.x.fraction,
            y: self.y.fraction,
            z: self.z.fraction,
        }
    }
}

// A cell of the grid, by its lowest node on each axis.
#[derive(Clone, Copy)]
pub struct Cell {
    pub x: u32,
    pub y: u32,
    pub z: u32,
}

// The greatest coordinate of an axis that is admitted.
#[tactic(auto, unfolding(crate::specs::Places::top_of))]
fn top(origin: f64, spacing: f64, last: f64) -> f64
    ensures { result ≡ top_of origin spacing last }
{
    if basic::is_finite((last - origin) / spacing) {
        return last;
    }
    below::just_below(last)
}

// A coordinate clamped to the box on its axis; one inside stays.
#[tactic(auto, unfolding(crate::specs::Places::clamped, crate::specs::Places::clamped_to))]
fn clamp(point: f64, axis: Axis) -> f64
    requires { 2 ≤ axis.side }
    ensures { result ≡ clamped point axis.origin axis.spacing axis.side }
{
    if point < axis.origin {
        return axis.origin;
    }
    let last = grid::last_node(axis);
    if point > last {
        return top(axis.origin, axis.spacing, last);
    }
    point
}

// A point clamped to the box on each axis.
#[tactic(auto, unfolding(crate::specs::Places::clamped_point))]
fn clamp_each(grid: Grid, point: Vec3) -> Vec3
    requires { SidesStand grid.sides }
    ensures { result ≡ clamped_point grid point }
{
    Vec3 {
        x: clamp(point.x, grid.along_x()),
        y: clamp(point.y, grid.along_y()),
        z: clamp(point.z, grid.along_z()),
    }
}

// Whether a coordinate lies from the origin to the last node of its axis.
#[tactic(auto, unfolding(crate::specs::Places::stays))]
fn stays(point: f64, axis: Axis) -> bool
    requires { 2 ≤ axis.side }
    ensures { result ≡ stays point axis.origin (last_node axis.origin axis.spacing axis.side) }
{
    !(point < axis.origin) && !(point > grid::last_node(axis))
}

// Whether a point lies in the box.
#[tactic(auto, unfolding(crate::specs::Places::in_box))]
fn in_box(grid: Grid, point: Vec3) -> bool
    requires { SidesStand grid.sides }
    ensures { result ≡ in_box grid point }
{
    stays(point.x, grid.along_x())
        && stays(point.y, grid.along_y())
        && stays(point.z, grid.along_z())
}

// A point clamped to the box. One in the box, as most are, stays as it is.
#[tactic(auto, using(crate::proofs::PlaceLaws::in_box_stays))]
fn clamp_point(grid: Grid, point: Vec3) -> Vec3
    requires { SidesStand grid.sides }
    ensures { result ≡ clamped_point grid point }
{
    if in_box(grid, point) {
        return point;
    }
    clamp_each(grid, point)
}

// The cell with this number on an axis, or the last one.
#[tactic(auto, unfolding(crate::specs::Places::up_to))]
pub fn up_to_last(whole: u64, side: u32) -> u32
    requires { 2 ≤ side }
    ensures { result ≡ up_to (side - 2) whole }
{
    let last = side - 2;
    if whole < last as u64 {
        return whole as u32;
    }
    last
}

// The cell that holds a coordinate. The conversion cuts the fraction off by itself, and what is below 0 gives 0 with or without a floor.
#[tactic(auto, using(arithmetic::proofs::WholeNumbers::cast_of_floor), unfolding(crate::specs::Places::floor_cell))]
pub fn floor_cell(coordinate: f64) -> u64
    ensures { result ≡ floor_cell coordinate }
{
    rounding::to_u64(coordinate)
}

// Whether a coordinate lies in a cell that was guessed, and the cell in the grid.
#[tactic(auto, unfolding(crate::specs::Places::guess_holds))]
fn guess_holds(coordinate: f64, near: u32, side: u32) -> bool
    ensures { result ≡ guess_holds coordinate near side }
{
    near < 256 && near + 1 < side && near as f64 <= coordinate && coordinate < (near + 1) as f64
}

// The cell of one axis at a coordinate, and how far into the cell it lies.
#[tactic(auto, unfolding(crate::specs::Places::place_at, crate::specs::Places::place_of, crate::specs::Places::cell_below))]
fn place_at(raw: f64, side: u32) -> Option<Place>
    requires { 2 ≤ side }
    ensures { says_place result ≡ place_at raw side }
{
    if !basic::is_finite(raw) {
        return None;
    }
    let coordinate = basic::clamp(raw, 0.0, (side - 1) as f64);
    let cell = up_to_last(floor_cell(coordinate), side);
    Some(Place {
        cell,
        fraction: basic::clamp(coordinate - cell as f64, 0.0, 1.0),
    })
}

// The cell of one axis at a point, and how far into the cell the point lies. Where two comparisons show that the guess is right, nothing
// else is asked.
fn locate_axis(point: f64, axis: Axis, near: u32) -> Option<Place>
    requires { 2 ≤ axis.side }
    ensures { says_place result ≡ locate_axis point axis.origin axis.spacing axis.side }
{
    let raw = (point - axis.origin) / axis.spacing;
    if guess_holds(raw, near, axis.side) {
        return Some(Place {
            cell: near,
            fraction: basic::clamp(raw - near as f64, 0.0, 1.0),
        });
    }
    place_at(raw, axis.side)
}

// The cell at a point in the grid's box. It is looked for first in the cell `near`: the answer does not depend on it.
#[tactic(auto, unfolding(crate::specs::Places::locate_inside))]
fn locate_inside(grid: Grid, point: Vec3, near: Cell) -> Option<Located>
    requires { SidesStand grid.sides }
    ensures { says_located result ≡ locate_inside grid point }
{
    let x = locate_axis(point.x, grid.along_x(), near.x)?;
    let y = locate_axis(point.y, grid.along_y(), near.y)?;
    let z = locate_axis(point.z, grid.along_z(), near.z)?;
    Some(Located { x, y, z })
}

// The cell at any point that is finite, clamped to the box.
#[tactic(auto, unfolding(crate::specs::Places::locate))]
pub fn locate(grid: Grid, point: Vec3, near: Cell) -> Option<Located>
    requires { SidesStand grid.sides }
    ensures { says_located result ≡ locate grid point }
{
    if !point.is_finite() {
        return None;
    }
    locate_inside(grid, clamp_point(grid, point), near)
}
