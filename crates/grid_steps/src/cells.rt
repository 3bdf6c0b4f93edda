ghost use Rattle.std.specs.Prelude.{◌≡◌, ◌≤◌, Some};
ghost use Rattle.distance_grid.specs.Grid.{SidesStand};
ghost use Rattle.grid_steps.specs.Cells.{slack, whole_cell, cell_on_axis, ray_cell_indices, node_ahead, boundary_distance, axis_boundary};
ghost use Rattle.grid_steps.specs.Cells.{says_cells, next_cell_boundary};

use arithmetic::{basic, extremes, rounding};
use distance_grid::grid::{Axis, Grid};
use distance_grid::places;
use distance_grid::places::Cell;
use vectors::numbers;
use vectors::vec3::Vec3;

// How far apart two numbers of this size may be and count as one.
#[tactic(auto, unfolding(crate::specs::Cells::slack))]
fn slack(size: f64) -> f64
    ensures { result ≡ slack size }
{
    numbers::EPSILON * extremes::maximum(basic::abs(size), 1.0) * 16.0
}

// The cell at a coordinate. At a node a ray that goes down is in the cell below it.
#[tactic(auto, unfolding(crate::specs::Cells::whole_cell, crate::specs::Cells::leaves_node))]
fn whole_cell(coordinate: f64, direction: f64) -> u64
    ensures { result ≡ whole_cell coordinate direction }
{
    if direction < 0.0 {
        let nearest = rounding::round(coordinate);
        if basic::abs(coordinate - nearest) <= slack(coordinate) && nearest > 0.0 {
            return rounding::to_u64(nearest) - 1;
        }
    }
    places::floor_cell(coordinate)
}

// The cell of one axis, unless the coordinate is not finite.
#[tactic(auto, unfolding(crate::specs::Cells::cell_on_axis, crate::specs::Cells::cell_at))]
fn cell_on_axis(point: f64, direction: f64, axis: Axis) -> Option<u32>
    requires { 2 ≤ axis.side }
    ensures { result ≡ cell_on_axis point direction axis.origin axis.spacing axis.side }
{
    let coordinate = (point - axis.origin) / axis.spacing;
    if !basic::is_finite(coordinate) {
        return None;
    }
    Some(places::up_to_last(whole_cell(coordinate, direction), axis.side))
}

// The cell at a point of a ray, unless a coordinate is not finite.
#[tactic(auto, unfolding(crate::specs::Cells::ray_cell_indices))]
pub fn ray_cell_indices(grid: Grid, point: Vec3, direction: Vec3) -> Option<Cell>
    requires { SidesStand grid.sides }
    ensures { says_cells result ≡ ray_cell_indices grid point direction }
{
    let x = cell_on_axis(point.x, direction.x, grid.along_x())?;
    let y = cell_on_axis(point.y, direction.y, grid.along_y())?;
    let z = cell_on_axis(point.z, direction.z, grid.along_z())?;
    Some(Cell { x, y, z })
}

// The node of a cell that the ray goes to.
#[tactic(auto, unfolding(crate::specs::Cells::node_ahead))]
fn node_ahead(cell: u32, direction: f64) -> u64
    ensures { result ≡ node_ahead cell direction }
{
    if direction > 0.0 {
        return cell as u64 + 1;
    }
    cell as u64
}

// How far the ray goes from a point to the node ahead.
#[tactic(auto, unfolding(crate::specs::Cells::boundary_distance))]
fn boundary_distance(point: f64, direction: f64, axis: Axis, cell: u32) -> f64
    ensures { result ≡ boundary_distance record { point = point; direction = direction; origin = axis.origin; spacing = axis.spacing }
        cell }
{
    let node = std::num::nearest_u64_to_f64(node_ahead(cell, direction));
    (axis.origin + axis.spacing * node - point) / direction
}

// The least distance so far, or this axis' one, unless that is not finite.
#[tactic(auto, unfolding(crate::specs::Cells::axis_boundary, crate::specs::Cells::boundary_by))]
fn axis_boundary(
    least: f64,
    current: f64,
    point: f64,
    direction: f64,
    axis: Axis,
    cell: u32,
) -> Option<f64>
    ensures { result ≡ axis_boundary (Some least) current
        record { point = point; direction = direction; origin = axis.origin; spacing = axis.spacing } cell }
{
    if direction == 0.0 {
        return Some(least);
    }
    let distance = boundary_distance(point, direction, axis, cell);
    if !basic::is_finite(distance) {
        return None;
    }
    if distance > slack(point) {
        return Some(extremes::minimum(least, current + distance));
    }
    Some(least)
}

// Where the ray leaves its cell, at the latest at the exit; nowhere if the distance of an axis is not finite.
#[tactic(auto, unfolding(crate::specs::Cells::next_cell_boundary, crate::specs::Cells::axis_boundary))]
pub fn next_cell_boundary(
    grid: Grid,
    current: f64,
    point: Vec3,
    direction: Vec3,
    cell: Cell,
    exit: f64,
) -> Option<f64>
    ensures { result ≡ next_cell_boundary grid current point direction cell.x cell.y cell.z exit }
{
    let first = axis_boundary(exit, current, point.x, direction.x, grid.along_x(), cell.x)?;
    let second = axis_boundary(first, current, point.y, direction.y, grid.along_y(), cell.y)?;
    axis_boundary(
        second,
        current,
        point.z,
        direction.z,
        grid.along_z(),
        cell.z,
    )
}
