ghost use Rattle.std.specs.Prelude.{◌≡◌, true, map, ◌+◌, ◌-◌, ◌^◌, ◌<◌};
ghost use Rattle.nearest_hit.specs.Nearest.{no_hit, says_indexed};
ghost use Rattle.height_field.specs.Grid.{cell_at};
ghost use Rattle.height_field.specs.Cells.{run, grid_cells};
ghost use Rattle.height_field.specs.Listing.{all_finite, cell_finite, list_cell, list_all};
ghost use Rattle.height_field.specs.Cast.{answer_of};
ghost use Rattle.height_field.specs.Pass.{going, says_pass, pass_from, cell_touches, NearCorners, half_of, pass_triangle, pass_triangles};

use crate::cells::CellRange;
use crate::grid::Grid;
use crate::visited::Visited;
use crate::{apart, nearer};
use arithmetic::extremes;
use casts::answer::Refusal;
use geometry::aabb;
use geometry::aabb::Aabb;
use geometry::ray::Ray;
use nearest_hit::nearest;
use nearest_hit::nearest::IndexedCast;
use vectors::vec3::Vec3;

// What the cells so far came to: the nearest hit, none or a triangle's refusal, which later cells may still override;
// or the refusal of the listing, which ends the cast.
pub type Pass = Result<IndexedCast, Refusal>;

// Whether the four vertices of a cell are finite: nearly always their sum tells.
#[tactic(auto, unfolding(crate::specs::Listing::all_finite))]
fn all_finite(v00: Vec3, v10: Vec3, v01: Vec3, v11: Vec3) -> bool
    ensures { result ≡ all_finite v00 v10 v01 v11 }
{
    if apart::sum_finite(v00, v10, v01, v11) {
        return true;
    }
    v00.is_finite() && v10.is_finite() && v01.is_finite() && v11.is_finite()
}

// The corners of a cell's triangle 0, or else of its triangle 1.
#[tactic(auto, unfolding(crate::specs::Pass::half_of))]
fn half(lower: [Vec3; 3], upper: [Vec3; 3], triangle: u32) -> [Vec3; 3]
    ensures { result ≡ half_of lower upper triangle }
{
    if triangle == 0 {
        return lower;
    }
    upper
}

// One triangle, which counts where its box touches the segment's box.
#[tactic(auto, using(arithmetic::proofs::Numbers::finite_number, vectors::proofs::FiniteVectors::finite_z, crate::proofs::CellPass::nearer_next, crate::proofs::CellPass::z_decides), unfolding(crate::specs::Pass::pass_triangle))]
fn pass_triangle(
    ray: Ray,
    bounds: Aabb,
    corners: [Vec3; 3],
    feature: u32,
    best: IndexedCast,
) -> IndexedCast
    requires { NearCorners bounds corners }
    ensures { says_indexed result ≡ pass_triangle ray bounds corners feature (says_indexed best) }
{
    let first = corners[0];
    let second = corners[1];
    let third = corners[2];
    let low = extremes::lesser(extremes::lesser(first.z, second.z), third.z);
    let high = extremes::greater(extremes::greater(first.z, second.z), third.z);
    if aabb::touch_side(low, high, bounds.min.z, bounds.max.z) {
        let found = nearest::next_triangle(Ok(None), feature, ray, corners);
        return nearer::nearer(best, found);
    }
    best
}

// The two triangles of a cell in turn.
fn pass_triangles(
    ray: Ray,
    bounds: Aabb,
    lower: [Vec3; 3],
    upper: [Vec3; 3],
    feature: u32,
    best: IndexedCast,
) -> IndexedCast
    requires { (NearCorners bounds lower) × ((NearCorners bounds upper) × (feature + 1 < 2 ^ 32)) }
    ensures { says_indexed result ≡ pass_triangles ray bounds lower upper feature (says_indexed best) 2 }
{
    let mut found = best;
    for triangle in 0..2 {
        let corners = half(lower, upper, triangle);
        found = pass_triangle(ray, bounds, corners, feature + triangle, found);
    }
    found
}

// Whether the vertices of a cell are finite.
#[tactic(auto, unfolding(crate::specs::Listing::cell_finite))]
fn cell_finite(grid: Grid<'_>, row: usize, column: usize) -> bool
    requires { (row + 1 < grid.field.rows) × (column + 1 < grid.field.columns) }
    ensures { result ≡ cell_finite grid.entry.field grid.entry.heights.now row column }
{
    let v00 = grid.vertex(row, column);
    let v10 = grid.vertex(row, column + 1);
    let v01 = grid.vertex(row + 1, column);
    let v11 = grid.vertex(row + 1, column + 1);
    all_finite(v00, v10, v01, v11)
}

// One cell.
fn pass_cell(
    ray: Ray,
    bounds: Aabb,
    grid: Grid<'_>,
    row: usize,
    column: usize,
    best: IndexedCast,
) -> IndexedCast
    requires { (row + 1 < grid.field.rows) × ((column + 1 < grid.field.columns)
        × ((cell_finite grid.field grid.heights.now row column ≡ true)
        × (cell_touches grid.field grid.heights.now bounds row column ≡ true))) }
    ensures { going (says_indexed result) ≡ pass_from (answer_of ray grid.entry.field grid.entry.heights.now) (says_indexed best)
        (list_cell grid.entry.field grid.entry.heights.now bounds (cell_at grid.entry.field row column)) }
{
    let v00 = grid.vertex(row, column);
    let v10 = grid.vertex(row, column + 1);
    let v01 = grid.vertex(row + 1, column);
    let v11 = grid.vertex(row + 1, column + 1);
    let cell = row * (grid.field.columns - 1) + column;
    pass_triangles(
        ray,
        bounds,
        [v00, v10, v11],
        [v00, v11, v01],
        (cell * 2) as u32,
        best,
    )
}

// The cells of one row in some columns.
fn pass_row(
    ray: Ray,
    bounds: Aabb,
    grid: Grid<'_>,
    row: usize,
    columns: CellRange,
    start: IndexedCast,
) -> Pass
    requires { (row + 1 < grid.field.rows) × (columns.last + 1 < grid.field.columns) }
    ensures { says_pass result ≡ pass_from (answer_of ray grid.entry.field grid.entry.heights.now) (says_indexed start)
        (list_all (list_cell grid.entry.field grid.entry.heights.now bounds)
        (map (cell_at grid.entry.field row) (run columns.first (columns.last + 1 - columns.first)))) }
{
    let mut best = start;
    let mut column = columns.first;
    // A `for` keeps the next number beside this one through the cell, and the cast takes a thirtieth longer.
    while column <= columns.last {
        if !cell_finite(grid, row, column) {
            return Err(Refusal::Overflow);
        }
        if apart::cell_touches(bounds, grid, row, column) {
            best = pass_cell(ray, bounds, grid, row, column, best);
        }
        column += 1;
    }
    Ok(best)
}

// The cells of some rows and columns, row after row.
pub fn pass_rows(ray: Ray, bounds: Aabb, grid: Grid<'_>, cells: Visited) -> Pass
    requires { (cells.rows.last + 1 < grid.field.rows) × (cells.columns.last + 1 < grid.field.columns) }
    ensures { says_pass result ≡ pass_from (answer_of ray grid.entry.field grid.entry.heights.now) no_hit
        (list_all (list_cell grid.entry.field grid.entry.heights.now bounds)
        (grid_cells grid.entry.field (run cells.rows.first (cells.rows.last + 1 - cells.rows.first))
        (run cells.columns.first (cells.columns.last + 1 - cells.columns.first)))) }
{
    let Visited { rows, columns } = cells;
    let mut best = Ok(None);
    for row in rows.first..rows.last + 1 {
        best = pass_row(ray, bounds, grid, row, columns, best)?;
    }
    Ok(best)
}
