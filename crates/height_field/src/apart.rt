ghost use Rattle.std.specs.Prelude.{◌≡◌, true, ◌+◌, ◌<◌};
ghost use Rattle.height_field.specs.Listing.{all_finite, cell_finite};
ghost use Rattle.height_field.specs.Pass.{around_cell, cell_touches};

use crate::grid::Grid;
use arithmetic::basic;
use geometry::aabb::Aabb;
use vectors::vec3::Vec3;

// Whether the sum of all numbers of a cell's vertices is finite: then each of them is. Only a yes is promised to be right: after a no,
// which a sum that overflows gives too, each vertex is looked at.
#[tactic(auto, using(crate::proofs::ApartCells::sum_tells))]
pub fn sum_finite(v00: Vec3, v10: Vec3, v01: Vec3, v11: Vec3) -> bool
    ensures { result ≡ true → all_finite v00 v10 v01 v11 ≡ true }
{
    let sum = v00.add(v10).add(v01.add(v11));
    basic::is_finite(sum.x + sum.y + sum.z)
}

// The box around the vertices of a cell.
fn around_cell(v00: Vec3, v10: Vec3, v01: Vec3, v11: Vec3) -> Aabb
    requires { all_finite v00 v10 v01 v11 ≡ true }
    ensures { result ≡ around_cell v00 v10 v01 v11 }
{
    Aabb {
        min: v00.least(v10).least(v01.least(v11)),
        max: v00.greatest(v10).greatest(v01.greatest(v11)),
    }
}

// Whether the box around a cell's vertices touches; where it does not, neither triangle's does.
#[tactic(auto, unfolding(crate::specs::Listing::cell_finite, crate::specs::Pass::cell_touches))]
pub fn cell_touches(bounds: Aabb, grid: Grid<'_>, row: usize, column: usize) -> bool
    requires { (row + 1 < grid.field.rows) × ((column + 1 < grid.field.columns)
        × (cell_finite grid.field grid.heights.now row column ≡ true)) }
    ensures { result ≡ cell_touches grid.entry.field grid.entry.heights.now bounds row column }
{
    let v00 = grid.vertex(row, column);
    let v10 = grid.vertex(row, column + 1);
    let v01 = grid.vertex(row + 1, column);
    let v11 = grid.vertex(row + 1, column + 1);
    around_cell(v00, v10, v01, v11).touches(bounds)
}
