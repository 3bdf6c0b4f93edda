ghost use Rattle.std.specs.Prelude.{◌≡◌};
ghost use Rattle.height_ranges.specs.Answer.{says};
ghost use Rattle.height_ranges.specs.RangesCast.{ray_height_ranges};
ghost use Rattle.results.specs.Results.{ray_from, field_of};
ghost use Rattle.exports.specs.Ranges.{short_number, answered_cell, KeepsPromise};

use casts::answer::Refusal;
use height_field::field::Field;
use height_ranges::answer::Clearance;
use height_ranges::cast;

// No grid within the ranges is touched, or one may be.
pub const CLEAR: u32 = 261;

pub const POSSIBLE: u32 = 262;

// The number where the cell has no place: 3, but 1 and 2 are found before.
#[tactic(auto, unfolding(crate::specs::Ranges::short_number))]
fn short_number(answer: Clearance) -> u32
    ensures { result ≡ short_number (says answer) }
{
    match answer {
        Ok(_) => Refusal::NoRoom.into(),
        Err(refusal) => {
            let number = u32::from(refusal);
            if number <= u32::from(Refusal::BadShape) {
                return number;
            }
            Refusal::NoRoom.into()
        }
    }
}

// The answer as its number, the cell written where one may be touched.
#[tactic(auto, unfolding(crate::specs::Ranges::answered_cell, crate::specs::Ranges::returned_cell))]
fn put_cell(answer: Clearance, cell: &mut [u32]) -> u32
    ensures { record { number = result; cell = cell.new } ≡ answered_cell (says answer) cell.old }
{
    if cell.len() < 1 {
        return short_number(answer);
    }
    match answer {
        Ok(None) => CLEAR,
        Ok(Some(first)) => {
            cell[0] = first;
            POSSIBLE
        }
        Err(refusal) => refusal.into(),
    }
}

// The cast at a height grid with a low and a high for each node; both stand row after row.
// The second clause: what the number and the cell say keeps the promise about every grid within the ranges.
pub fn probe_ray_height_ranges(
    origin_x: f64,
    origin_y: f64,
    origin_z: f64,
    direction_x: f64,
    direction_y: f64,
    direction_z: f64,
    max_distance: f64,
    near_distance: f64,
    rows: usize,
    columns: usize,
    spacing_x: f64,
    spacing_y: f64,
    lows: &[f64],
    highs: &[f64],
    cell: &mut [u32],
) -> u32
    ensures cell_after { record { number = result; cell = cell.new }
        ≡ answered_cell (ray_height_ranges (ray_from origin_x origin_y origin_z direction_x direction_y direction_z max_distance
        near_distance) (field_of rows columns spacing_x spacing_y) lows.now highs.now) cell.old }
    ensures keeps_promise { KeepsPromise (ray_from origin_x origin_y origin_z direction_x direction_y direction_z max_distance
        near_distance) (field_of rows columns spacing_x spacing_y) lows.now highs.now cell.old
        (record { number = result; cell = cell.new }) }
{
    let ray = results::ray_from(
        origin_x,
        origin_y,
        origin_z,
        direction_x,
        direction_y,
        direction_z,
        max_distance,
        near_distance,
    );
    let field = Field {
        rows,
        columns,
        spacing_x,
        spacing_y,
    };
    put_cell(cast::ray_height_ranges(ray, field, lows, highs), cell)
}
