ghost use Rattle.std.specs.Prelude.{◌≡◌, ◌-◌, ◌≤◌};
ghost use Rattle.height_field.specs.Cells.{span_of, scaled_range, cell_range};

use crate::field;
use arithmetic::{basic, rounding};

// The cells of one axis that a box covers: from the first to the last.
#[derive(Clone, Copy)]
pub struct CellRange {
    pub first: usize,
    pub last: usize,
}

// The range between two positions in cells, starting one cell early. The cast cuts the fraction off, so that no floor is taken before it.
#[tactic(auto, using(arithmetic::proofs::WholeNumbers::cast_of_floor), unfolding(crate::specs::Cells::scaled_range))]
fn scaled_range(low: f64, high: f64, last: usize) -> Option<CellRange>
    ensures { result ≡ scaled_range low high last }
{
    if !basic::is_finite(low) || !basic::is_finite(high) {
        return None;
    }
    let first = (rounding::to_u64(low) as usize).saturating_sub(1);
    let last = (rounding::to_u64(high) as usize).min(last);
    Some(CellRange {
        first: first.min(last),
        last,
    })
}

// The extent of some cells.
#[tactic(auto, unfolding(crate::specs::Cells::span_of))]
pub fn span(spacing: f64, count: usize) -> f64
    requires { count ≤ 1024 }
    ensures { result ≡ span_of spacing count }
{
    spacing * field::float_of(count)
}

// The range of one axis with `count` cells, of which callers show that there are some and few; none where the box lies outside the grid.
#[tactic(auto, unfolding(crate::specs::Cells::cell_range))]
pub fn cell_range(low: f64, high: f64, spacing: f64, count: usize) -> Option<CellRange>
    requires { (1 ≤ count) × (count ≤ 1024) }
    ensures { result ≡ cell_range low high spacing count }
{
    if high < 0.0 || low > span(spacing, count) {
        return None;
    }
    let last = count - 1;
    let top = field::float_of(last);
    scaled_range(
        basic::clamp(low / spacing, 0.0, top),
        basic::clamp(high / spacing, 0.0, top),
        last,
    )
}
