ghost use Rattle.std.specs.Prelude.{◌≡◌, true};
ghost use Rattle.geometry.specs.Segment.{ray_admitted};
ghost use Rattle.casts.specs.Answer.{says};
ghost use Rattle.height_field.specs.Pass.{says_pass, answer_of_pass, grid_pass};
ghost use Rattle.height_field.specs.Cast.{span_finite, height_cast, ray_height_field};

use crate::field::Field;
use crate::grid::Grid;
use crate::pass::Pass;
use crate::{cells, field, pass, visited};
use arithmetic::basic;
use casts::answer::{Cast, Refusal};
use geometry::aabb::Aabb;
use geometry::ray::Ray;
use nearest_hit::nearest;

// The pass over the cells that the box visits.
#[tactic(auto, using(crate::proofs::Ranges::visited_stands, crate::proofs::Ranges::pass_outside, crate::proofs::Ranges::pass_inside))]
fn grid_pass(ray: Ray, bounds: Aabb, grid: Grid<'_>) -> Pass
    ensures { says_pass result ≡ grid_pass ray bounds grid.entry.field grid.entry.heights.now }
{
    let Some(cells) = visited::visited_cells(bounds, grid) else {
        return Ok(Ok(None));
    };
    pass::pass_rows(ray, bounds, grid, cells)
}

// Whether the grid's extent is finite along both axes.
#[tactic(auto, unfolding(crate::specs::Cast::span_finite))]
pub fn span_finite(grid: Grid<'_>) -> bool
    ensures { result ≡ span_finite grid.entry.field }
{
    basic::is_finite(cells::span(grid.field.spacing_x, grid.field.columns - 1))
        && basic::is_finite(cells::span(grid.field.spacing_y, grid.field.rows - 1))
}

// The answer at the end of a pass.
#[tactic(auto, unfolding(crate::specs::Pass::answer_of_pass))]
fn pass_answer(pass: Pass) -> Cast
    ensures { says result ≡ answer_of_pass (says_pass pass) }
{
    nearest::without_index(pass?)
}

// The Rust's ray_height_field.
#[tactic(auto, using(geometry::proofs::BoxLaws::origin_finite, crate::proofs::ListingPass::answer_of_pass_lem, crate::proofs::ListingPass::cast_of_finite_end), unfolding(crate::specs::Cast::height_cast, crate::specs::Pass::grid_pass))]
fn height_cast(ray: Ray, grid: Grid<'_>) -> Cast
    requires { ray_admitted ray ≡ true }
    ensures { says result ≡ height_cast ray grid.entry.field grid.entry.heights.now }
{
    let end = ray.segment_end();
    if !end.is_finite() {
        return Err(Refusal::Overflow);
    }
    // With both ends finite the box is valid, so that it needs no test.
    let bounds = ray.segment_box(end);
    if !span_finite(grid) {
        return Err(Refusal::Overflow);
    }
    pass_answer(grid_pass(ray, bounds, grid))
}

// The cast of any ray at any height grid.
#[tactic(auto, using(crate::proofs::Sizes::admitted_sized), unfolding(crate::specs::Cast::ray_height_field))]
pub fn ray_height_field(ray: Ray, field: Field, heights: &[f64]) -> Cast
    ensures { says result ≡ ray_height_field ray field heights.now }
{
    if !ray.validate() {
        return Err(Refusal::InvalidInput);
    }
    if !field::is_admitted(field, heights) {
        return Err(Refusal::BadShape);
    }
    height_cast(ray, Grid { field, heights })
}
