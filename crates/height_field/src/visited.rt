ghost use Rattle.std.specs.Prelude.{◌≡◌};
ghost use Rattle.height_field.specs.Cells.{visited_range};

use crate::cells;
use crate::cells::CellRange;
use crate::grid::Grid;
use geometry::aabb::Aabb;

// The cells that a box visits: some rows, and the same columns of each.
#[derive(Clone, Copy)]
pub struct Visited {
    pub rows: CellRange,
    pub columns: CellRange,
}

// The cells that a box visits; one outside the grid visits none.
#[tactic(auto, unfolding(crate::specs::Cells::visited_range, crate::specs::Cells::visited_by, crate::specs::Cells::column_range, crate::specs::Cells::row_range))]
pub fn visited_cells(bounds: Aabb, grid: Grid<'_>) -> Option<Visited>
    ensures { result ≡ visited_range grid.entry.field bounds }
{
    let columns = cells::cell_range(
        bounds.min.x,
        bounds.max.x,
        grid.field.spacing_x,
        grid.field.columns - 1,
    )?;
    let rows = cells::cell_range(
        bounds.min.y,
        bounds.max.y,
        grid.field.spacing_y,
        grid.field.rows - 1,
    )?;
    Some(Visited { rows, columns })
}
