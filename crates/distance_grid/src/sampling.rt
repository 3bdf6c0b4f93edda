ghost use Rattle.std.specs.Prelude.{◌≡◌, ◌+◌, ◌<◌};
ghost use Rattle.distance_grid.specs.Sampling.{says_sampled, gathered, sample_faces, sample_cell, sample};

use crate::faces::Face;
use crate::field::DistanceGrid;
use crate::places::Cell;
use crate::{faces, places, steps};
use vectors::vec3::Vec3;

// A value and its gradient.
#[derive(Clone, Copy)]
pub struct Sampled {
    pub value: f64,
    pub gradient: Vec3,
}

// A sample's value and slopes, unless a step refused one of them.
#[tactic(auto, unfolding(crate::specs::Sampling::gathered))]
fn gathered(
    value: Option<f64>,
    on_x: Option<f64>,
    on_y: Option<f64>,
    on_z: Option<f64>,
) -> Option<Sampled>
    ensures { says_sampled result ≡ gathered value on_x on_y on_z }
{
    let value = value?;
    let x = on_x?;
    let y = on_y?;
    let z = on_z?;
    let gradient = Vec3 { x, y, z };
    if !gradient.is_finite() {
        return None;
    }
    Some(Sampled { value, gradient })
}

// The sample in a cell, from its faces toward lower and higher z.
#[tactic(auto, unfolding(crate::specs::Sampling::sample_faces))]
pub fn sample_faces(low: Face, high: Face, spacing: Vec3, at: Vec3) -> Option<Sampled>
    ensures { says_sampled result ≡ sample_faces low high spacing at }
{
    let on_low = steps::value_on(low, at.x, at.y);
    let on_high = steps::value_on(high, at.x, at.y);
    gathered(
        steps::lerp(on_low, on_high, at.z),
        steps::slope_on(
            faces::low_x(low, high),
            faces::high_x(low, high),
            spacing.x,
            at.y,
            at.z,
        ),
        steps::slope_on(
            faces::low_y(low, high),
            faces::high_y(low, high),
            spacing.y,
            at.x,
            at.z,
        ),
        steps::slope_on(low, high, spacing.z, at.x, at.y),
    )
}

// The sample in a cell of the grid.
#[tactic(auto, unfolding(crate::specs::Sampling::sample_cell))]
fn sample_cell(field: &DistanceGrid, cell: Cell, at: Vec3) -> Option<Sampled>
    requires { (cell.x + 1 < field.now.grid.sides.x) × ((cell.y + 1 < field.now.grid.sides.y) × (cell.z + 1 < field.now.grid.sides.z)) }
    ensures { says_sampled result ≡ sample_cell field.now.grid field.now.values.now cell.x cell.y cell.z at }
{
    let low = faces::face_at(field, cell.x, cell.y, cell.z);
    let high = faces::face_at(field, cell.x, cell.y, cell.z + 1);
    sample_faces(low, high, field.grid.spacing, at)
}

// The sample at any point; one outside the box is clamped to it.
#[tactic(auto, unfolding(crate::specs::Sampling::sample))]
pub fn sample(field: &DistanceGrid, point: Vec3) -> Option<Sampled>
    ensures { says_sampled result ≡ sample field.now.grid field.now.values.now point }
{
    let place = places::locate(field.grid, point, Cell { x: 0, y: 0, z: 0 })?;
    sample_cell(field, place.cell(), place.fractions())
}
