ghost use Rattle.std.specs.Prelude.{◌≡◌, ◌<◌};
ghost use Rattle.height_field.specs.Grid.{Sized, vertex_at};

use crate::field;
use crate::field::Field;
use vectors::vec3::Vec3;

// A grid with its heights, whose sides and number of heights are admitted.
#[derive(Clone, Copy)]
pub struct Grid<'a> {
    pub field: Field,
    pub heights: &'a [f64],
    pub ghost sized: { Sized field heights.now },
}

impl Grid<'_> {
    // The vertex of a row and a column, finite or not.
    #[tactic(auto, unfolding(crate::specs::Grid::vertex_at))]
    pub fn vertex(self, row: usize, column: usize) -> Vec3
        requires { (row < self.field.rows) × (column < self.field.columns) }
        ensures { result ≡ vertex_at self.entry.field self.entry.heights.now row column }
    {
        let index = row * self.field.columns + column;
        let height = self.heights[index];
        Vec3 {
            x: field::float_of(column) * self.field.spacing_x,
            y: field::float_of(row) * self.field.spacing_y,
            z: height,
        }
    }
}
