ghost use Rattle.std.specs.Prelude.{◌≡◌, ◌+◌, ◌<◌};
ghost use Rattle.distance_grid.specs.Sampling.{sample_faces, sample_cell, sample};
ghost use Rattle.distance_grid.specs.Valued.{says_valued, value_of, across, cell_value, small_value, small_face, fair_side, fair_spacing};
ghost use Rattle.distance_grid.specs.Places.{Fractions};

use crate::faces::Face;
use crate::field::DistanceGrid;
use crate::places::Cell;
use crate::{faces, places, sampling, steps};
use vectors::vec3::Vec3;

// 2^500 and 2^-500
const MOST: f64 = 3.273390607896142e150;

const LEAST: f64 = 3.054936363499605e-151;

#[tactic(auto, unfolding(crate::specs::Valued::small_value))]
fn small_value(x: f64) -> bool
    ensures { result ≡ small_value x }
{
    x <= MOST && -MOST <= x
}

#[tactic(auto, unfolding(crate::specs::Valued::small_face))]
fn small_face(face: Face) -> bool
    ensures { result ≡ small_face face }
{
    small_value(face.a00) && small_value(face.a10) && small_value(face.a01) && small_value(face.a11)
}

#[tactic(auto, unfolding(crate::specs::Valued::fair_side))]
fn fair_side(spacing: f64) -> bool
    ensures { result ≡ fair_side spacing }
{
    LEAST <= spacing && spacing <= MOST
}

#[tactic(auto, unfolding(crate::specs::Valued::fair_spacing))]
fn fair_spacing(spacing: Vec3) -> bool
    ensures { result ≡ fair_spacing spacing }
{
    fair_side(spacing.x) && fair_side(spacing.y) && fair_side(spacing.z)
}

// The number between the four of a face, whatever it is.
#[tactic(auto, unfolding(crate::specs::Valued::across))]
fn across(face: Face, s: f64, t: f64) -> f64
    ensures { result ≡ across face s t }
{
    steps::blend(
        steps::blend(face.a00, face.a10, s),
        steps::blend(face.a01, face.a11, s),
        t,
    )
}

// The value in a cell, from its faces toward lower and higher z, whatever it is.
#[tactic(auto, unfolding(crate::specs::Valued::cell_value))]
fn cell_value(low: Face, high: Face, at: Vec3) -> f64
    ensures { result ≡ cell_value low high at }
{
    steps::blend(across(low, at.x, at.y), across(high, at.x, at.y), at.z)
}

// The value in a cell where any step may refuse.
fn value_by_steps(low: Face, high: Face, spacing: Vec3, at: Vec3) -> Option<f64>
    ensures { says_valued result ≡ value_of (sample_faces low high spacing at) }
{
    let sample = sampling::sample_faces(low, high, spacing, at)?;
    Some(sample.value)
}

// The value in a cell. Where no value is huge and no spacing huge or tiny no step overflows, and the gradient is not computed.
#[tactic(auto, using(crate::proofs::ValuedLaws::tested_value))]
fn value_of_faces(low: Face, high: Face, spacing: Vec3, at: Vec3) -> Option<f64>
    requires { Fractions at }
    ensures { says_valued result ≡ value_of (sample_faces low high spacing at) }
{
    if small_face(low) && small_face(high) && fair_spacing(spacing) {
        return Some(cell_value(low, high, at));
    }
    value_by_steps(low, high, spacing, at)
}

// The value in a cell of the grid.
#[tactic(auto, unfolding(crate::specs::Sampling::sample_cell))]
fn value_in_cell(field: &DistanceGrid, cell: Cell, at: Vec3) -> Option<f64>
    requires inside { (cell.x + 1 < field.now.grid.sides.x) × ((cell.y + 1 < field.now.grid.sides.y)
        × (cell.z + 1 < field.now.grid.sides.z)) }
    requires fractions { Fractions at }
    ensures { says_valued result ≡ value_of (sample_cell field.now.grid field.now.values.now cell.x cell.y cell.z at) }
{
    let low = faces::face_at(field, cell.x, cell.y, cell.z);
    let high = faces::face_at(field, cell.x, cell.y, cell.z + 1);
    value_of_faces(low, high, field.grid.spacing, at)
}

// The value at any point: the sample's, with all that the sample refuses.
#[tactic(auto, unfolding(crate::specs::Sampling::sample))]
pub fn value_of(field: &DistanceGrid, point: Vec3, near: Cell) -> Option<f64>
    ensures { says_valued result ≡ value_of (sample field.now.grid field.now.values.now point) }
{
    let place = places::locate(field.grid, point, near)?;
    value_in_cell(field, place.cell(), place.fractions())
}
