ghost use Rattle.std.specs.Prelude.{◌≡◌, ◌≤◌};
ghost use Rattle.height_field.specs.Grid.{side_admitted, field_admitted, float_of};

use geometry::spacing;

// A grid of heights in row order, which stand in a slice beside it: x runs along the columns, y along the rows.
#[derive(Clone, Copy)]
pub struct Field {
    pub rows: usize,
    pub columns: usize,
    pub spacing_x: f64,
    pub spacing_y: f64,
}

// Whether a number of rows or columns is 2 to 1,024.
#[tactic(auto, unfolding(crate::specs::Grid::side_admitted))]
fn side_admitted(count: usize) -> bool
    ensures { result ≡ side_admitted count }
{
    2 <= count && count <= 1024
}

// Whether refusal 2 lets the grid pass.
#[tactic(auto, using(crate::proofs::Sizes::side_bounds, crate::proofs::Sizes::product_small), unfolding(crate::specs::Grid::field_admitted))]
pub fn is_admitted(field: Field, heights: &[f64]) -> bool
    ensures { result ≡ field_admitted field heights.now }
{
    side_admitted(field.rows)
        && side_admitted(field.columns)
        && spacing::spacing_admitted(field.spacing_x)
        && spacing::spacing_admitted(field.spacing_y)
        && heights.len() == field.rows * field.columns
}

// A row, a column or a count of cells as a float, exactly. From the signed form it is one instruction, from the unsigned one six.
#[tactic(auto, unfolding(crate::specs::Grid::float_of))]
pub fn float_of(n: usize) -> f64
    requires { n ≤ 1024 }
    ensures { result ≡ float_of n }
{
    (n as i64) as f64
}
