ghost use Rattle.std.specs.Prelude.{◌≡◌, true};
ghost use Rattle.geometry.specs.Segment.{ray_admitted, segment_box};
ghost use Rattle.height_ranges.specs.Answer.{says};
ghost use Rattle.height_ranges.specs.Ranges.{ranges_admitted};
ghost use Rattle.height_ranges.specs.RangesCast.{visited_answer, ranges_cast, ray_height_ranges};
ghost use Rattle.height_ranges.specs.Promise.{Tested, MeetsPromise};

use crate::answer::Clearance;
use crate::ranges::Ranges;
use crate::{order, touching};
use casts::answer::Refusal;
use geometry::aabb::Aabb;
use geometry::ray::Ray;
use height_field::field::Field;
use height_field::grid::Grid;
use height_field::{cast, field, visited};

// Whether refusal 2 lets the grid and both slices pass.
#[tactic(auto, using(height_field::proofs::Sizes::admitted_sized, height_field::proofs::Sizes::product_small), unfolding(crate::specs::Ranges::ranges_admitted))]
fn ranges_admitted(field: Field, lows: &[f64], highs: &[f64]) -> bool
    ensures { result ≡ ranges_admitted field lows.now highs.now }
{
    field::is_admitted(field, lows) && highs.len() == field.rows * field.columns
}

// The ranges of all visited cells first, then the first cell that touches.
fn visited_answer(ray: Ray, bounds: Aabb, field: Field, lows: &[f64], highs: &[f64]) -> Clearance
    requires { (Tested ray field lows.now highs.now) × (bounds ≡ segment_box ray) }
    ensures { says result ≡ visited_answer field lows.now highs.now bounds }
{
    let grid = Grid {
        field,
        heights: lows,
    };
    let Some(cells) = visited::visited_cells(bounds, grid) else {
        return Ok(None);
    };
    let ranges = Ranges { field, lows, highs };
    if !order::rows_in_order(ranges, cells) {
        return Err(Refusal::BadRange);
    }
    Ok(touching::first_in_rows(bounds, ranges, cells))
}

// The cast in the height cast's order.
#[tactic(auto, using(geometry::proofs::BoxLaws::origin_finite, crate::proofs::Tests::ranges_lows, crate::proofs::Tests::cast_of_finite_end), unfolding(crate::specs::RangesCast::ranges_cast))]
fn ranges_cast(ray: Ray, field: Field, lows: &[f64], highs: &[f64]) -> Clearance
    requires { (ray_admitted ray ≡ true) × (ranges_admitted field lows.now highs.now ≡ true) }
    ensures { says result ≡ ranges_cast ray field lows.now highs.now }
{
    let end = ray.segment_end();
    if !end.is_finite() {
        return Err(Refusal::Overflow);
    }
    // With both ends finite the box is valid, so that it needs no test.
    let bounds = ray.segment_box(end);
    let grid = Grid {
        field,
        heights: lows,
    };
    if !cast::span_finite(grid) {
        return Err(Refusal::Overflow);
    }
    visited_answer(ray, bounds, field, lows, highs)
}

// The cast of any ray at any height grid with a low and a high for each node.
pub fn ray_height_ranges(ray: Ray, field: Field, lows: &[f64], highs: &[f64]) -> Clearance
    ensures result_value { says result ≡ ray_height_ranges ray field lows.now highs.now }
    ensures meets_promise { MeetsPromise ray field lows.now highs.now (says result) }
{
    if !ray.validate() {
        return Err(Refusal::InvalidInput);
    }
    if !ranges_admitted(field, lows, highs) {
        return Err(Refusal::BadShape);
    }
    ranges_cast(ray, field, lows, highs)
}
