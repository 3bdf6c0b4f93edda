ghost use Rattle.std.specs.Prelude.{◌≡◌};
ghost use Rattle.casts.specs.Answer.{says};
ghost use Rattle.distance_grid.specs.Grid.{SidesStand};
ghost use Rattle.level_set.specs.Hits.{Remembered};
ghost use Rattle.level_set.specs.Walk.{tells, Carries, Kept, goes_on, cell_by, cell_cast, goes_to, walk_step, walk_from, cell_limit};
ghost use Rattle.level_set.specs.Walk.{level_set_cast, ray_level_set};

use crate::hits;
use crate::hits::Known;
use arithmetic::extremes;
use casts::answer::{Cast, Refusal};
use cubic::roots;
use distance_grid::field::DistanceGrid;
use distance_grid::grid;
use distance_grid::grid::Grid;
use distance_grid::places::Cell;
use geometry::ray::Ray;
use grid_steps::{cells, interval};

// What a cell gives: the answer, or the distance from which the walk goes on and the value that was taken there.
// An enum of its own: going on is no refusal and no absence, so a Result or an Option would be no plainer.
#[derive(Clone, Copy)]
pub enum Step {
    Done(Cast),
    On { next: f64, known: Known },
}

// After a cell without a root: the walk ends at the exit.
#[tactic(auto, unfolding(crate::specs::Walk::goes_on))]
fn goes_on(end: f64, exit: f64, known: Known) -> Step
    ensures step { tells result ≡ goes_on end exit }
    ensures carries { Carries known result }
{
    if end >= exit {
        return Step::Done(Ok(None));
    }
    Step::On { next: end, known }
}

// What a cell gives by the values at 0, 1/3, 2/3 and 1 of the way through it.
#[tactic(auto, unfolding(crate::specs::Walk::cell_by))]
fn cell_by(
    ray: Ray,
    field: &DistanceGrid,
    current: f64,
    end: f64,
    exit: f64,
    samples: [f64; 4],
    known: Known,
) -> Step
    requires { Remembered ray field.now.grid field.now.values.now known }
    ensures step { tells result ≡ cell_by ray field.now.grid field.now.values.now current end exit samples }
    ensures kept { Kept ray field.now.grid field.now.values.now result }
{
    let root = roots::first_cubic_root(samples);
    match root {
        Err(_) => Step::Done(Err(Refusal::Overflow)),
        Ok(None) => goes_on(end, exit, known),
        Ok(Some(fraction)) => Step::Done(hits::hit_along(
            ray,
            field,
            hits::along(current, end, fraction),
        )),
    }
}

// A cell from one distance to another, by four samples.
#[tactic(auto, unfolding(crate::specs::Walk::cell_cast))]
fn cell_cast(
    ray: Ray,
    field: &DistanceGrid,
    near: Cell,
    current: f64,
    end: f64,
    exit: f64,
    known: Known,
) -> Step
    requires { Remembered ray field.now.grid field.now.values.now known }
    ensures step { tells result ≡ cell_cast ray field.now.grid field.now.values.now current end exit }
    ensures kept { Kept ray field.now.grid field.now.values.now result }
{
    let taken = hits::samples_along(ray, field, near, current, end, known);
    let Some(samples) = taken else {
        return Step::Done(Err(Refusal::Overflow));
    };
    let last = Known {
        distance: hits::along(current, end, 1.0),
        value: samples[3],
    };
    cell_by(ray, field, current, end, exit, samples, last)
}

// From a distance to the next boundary.
#[tactic(auto, unfolding(crate::specs::Walk::goes_to))]
fn goes_to(
    ray: Ray,
    field: &DistanceGrid,
    near: Cell,
    current: f64,
    exit: f64,
    next: f64,
    known: Known,
) -> Step
    requires { Remembered ray field.now.grid field.now.values.now known }
    ensures step { tells result ≡ goes_to ray field.now.grid field.now.values.now current exit next }
    ensures kept { Kept ray field.now.grid field.now.values.now result }
{
    if next <= current {
        return Step::Done(hits::touch_at(ray, field, current));
    }
    cell_cast(
        ray,
        field,
        near,
        current,
        extremes::minimum(next, exit),
        exit,
        known,
    )
}

// One cell of the walk.
#[tactic(auto, unfolding(crate::specs::Walk::walk_step))]
fn walk_step(ray: Ray, field: &DistanceGrid, current: f64, exit: f64, known: Known) -> Step
    requires { Remembered ray field.now.grid field.now.values.now known }
    ensures step { tells result ≡ walk_step ray field.now.grid field.now.values.now current exit }
    ensures kept { Kept ray field.now.grid field.now.values.now result }
{
    if current > exit {
        return Step::Done(Ok(None));
    }
    let point = hits::point_at(ray, current);
    let here = cells::ray_cell_indices(field.grid, point, ray.direction);
    let Some(cell) = here else {
        return Step::Done(Err(Refusal::Overflow));
    };
    let reached = cells::next_cell_boundary(field.grid, current, point, ray.direction, cell, exit);
    let Some(next) = reached else {
        return Step::Done(Err(Refusal::Overflow));
    };
    goes_to(ray, field, cell, current, exit, next, known)
}

// How many cells a walk may take.
#[tactic(auto, unfolding(crate::specs::Walk::cell_limit))]
fn cell_limit(grid: Grid) -> u32
    requires { SidesStand grid.sides }
    ensures { result ≡ cell_limit grid }
{
    grid.sides.x + grid.sides.y + grid.sides.z + 4
}

// The walk over the cells from the entry on.
fn walk_from(ray: Ray, field: &DistanceGrid, entry: f64, exit: f64) -> Cast
    ensures { says result ≡ walk_from ray field.now.grid field.now.values.now exit (cell_limit field.now.grid) entry }
{
    let mut current = entry;
    let mut known = Known {
        distance: 0.0 / 0.0,
        value: 0.0,
    };
    for taken in 0..cell_limit(field.grid) {
        match walk_step(ray, field, current, exit, known) {
            Step::Done(cast) => return cast,
            Step::On { next, known: last } => {
                current = next;
                known = last;
            }
        }
    }
    Err(Refusal::NotConvergent)
}

// The Rust's ray_level_set, with nothing tested before it.
#[tactic(auto, unfolding(crate::specs::Walk::level_set_cast))]
fn level_set_cast(ray: Ray, field: &DistanceGrid) -> Cast
    ensures { says result ≡ level_set_cast ray field.now.grid field.now.values.now }
{
    let bounds = grid::local_bounds(field.grid);
    if !bounds.is_valid() {
        return Err(Refusal::OutOfBounds);
    }
    let found = interval::ray_aabb_interval(ray, bounds);
    let Some(within) = found else {
        return Ok(None);
    };
    walk_from(ray, field, within.entry, within.exit)
}

// The cast of any ray at any distance grid; the values stand with x fastest.
#[tactic(auto, unfolding(crate::specs::Walk::ray_level_set))]
pub fn ray_level_set(ray: Ray, grid: Grid, values: &[f64]) -> Cast
    ensures { says result ≡ ray_level_set ray grid values.now }
{
    if !ray.validate() {
        return Err(Refusal::InvalidInput);
    }
    if !grid::is_admitted(grid, values.len()) {
        return Err(Refusal::BadShape);
    }
    level_set_cast(ray, &DistanceGrid { grid, values })
}
