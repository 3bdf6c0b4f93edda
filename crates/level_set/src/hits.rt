ghost use Rattle.std.specs.Prelude.{◌≡◌, true, false};
ghost use Rattle.std.specs.Float.Ieee.{is_nan};
ghost use Rattle.casts.specs.Answer.{says};
ghost use Rattle.distance_grid.specs.Valued.{says_valued};
ghost use Rattle.level_set.specs.Hits.{says_samples, point_at, hit_with, touch_at, along, value_along, fraction_of, samples_along};
ghost use Rattle.level_set.specs.Hits.{hit_along, Remembered};

use casts::answer::{Cast, Hit, Refusal};
use distance_grid::field::DistanceGrid;
use distance_grid::places::Cell;
use distance_grid::{sampling, valued};
use geometry::ray::Ray;
use vectors::vec3::Vec3;

// The value that was taken at a distance. The distance is NaN where none was.
#[derive(Clone, Copy)]
pub struct Known {
    pub distance: f64,
    pub value: f64,
}

// The point of a ray at a distance.
#[tactic(auto, unfolding(crate::specs::Hits::point_at))]
pub fn point_at(ray: Ray, distance: f64) -> Vec3
    ensures { result ≡ point_at ray distance }
{
    ray.origin.add(ray.direction.scale(distance))
}

// The hit at a distance: its normal is the gradient's direction.
#[tactic(auto, unfolding(crate::specs::Hits::hit_with))]
fn hit_with(gradient: Vec3, distance: f64) -> Cast
    ensures { says result ≡ hit_with gradient distance }
{
    let unit = gradient.try_normalize();
    let Some(normal) = unit else {
        return Err(Refusal::NotConvergent);
    };
    Ok(Some(Hit { normal, distance }))
}

// The answer where the cell has no length: a hit only at a value of exactly zero.
#[tactic(auto, unfolding(crate::specs::Hits::touch_at))]
pub fn touch_at(ray: Ray, field: &DistanceGrid, distance: f64) -> Cast
    ensures { says result ≡ touch_at ray field.now.grid field.now.values.now distance }
{
    let found = sampling::sample(field, point_at(ray, distance));
    let Some(sample) = found else {
        return Err(Refusal::Overflow);
    };
    if sample.value == 0.0 {
        return hit_with(sample.gradient, distance);
    }
    Ok(None)
}

// The distance at a part of the way from one distance to another.
#[tactic(auto, unfolding(crate::specs::Hits::along))]
pub fn along(current: f64, end: f64, fraction: f64) -> f64
    ensures { result ≡ along current end fraction }
{
    current + (end - current) * fraction
}

// The value at a distance. What its gradient refuses is refused with it.
#[tactic(auto, unfolding(crate::specs::Hits::value_along))]
fn value_along(ray: Ray, field: &DistanceGrid, near: Cell, distance: f64) -> Option<f64>
    ensures { says_valued result ≡ value_along ray field.now.grid field.now.values.now distance }
{
    valued::value_of(field, point_at(ray, distance), near)
}

// Whether two numbers are the same: `==` excludes NaN, and equal bits exclude zeros of two signs. A no says nothing.
#[tactic(auto, using(arithmetic::proofs::Numbers::left_number, arithmetic::proofs::Numbers::right_number, arithmetic::proofs::Numbers::number_passes, arithmetic::proofs::Numbers::same_bits))]
fn is_same(x: f64, y: f64) -> bool
    ensures number { result ≡ true → is_nan x ≡ false }
    ensures same { result ≡ true → x ≡ y }
{
    x == y && f64::to_bits(x) == f64::to_bits(y)
}

// The value at a distance, remembered if it was taken there.
fn value_known(
    ray: Ray,
    field: &DistanceGrid,
    near: Cell,
    distance: f64,
    known: Known,
) -> Option<f64>
    requires { Remembered ray field.now.grid field.now.values.now known }
    ensures { says_valued result ≡ value_along ray field.now.grid field.now.values.now distance }
{
    if is_same(known.distance, distance) {
        return Some(known.value);
    }
    value_along(ray, field, near, distance)
}

// The parts of the way at which samples are taken. No match: what its last arm leaves open is not told to the proof.
fn fraction(index: usize) -> f64
    ensures { result ≡ fraction_of index }
{
    if index == 0 {
        return 0.0;
    }
    if index == 1 {
        return 0.3333333333333333;
    }
    if index == 2 {
        return 0.6666666666666666;
    }
    1.0
}

// The values at 0, 1/3, 2/3 and 1 of the way from one distance to another, unless one is refused.
pub fn samples_along(
    ray: Ray,
    field: &DistanceGrid,
    near: Cell,
    current: f64,
    end: f64,
    known: Known,
) -> Option<[f64; 4]>
    requires { Remembered ray field.now.grid field.now.values.now known }
    ensures { says_samples result ≡ samples_along ray field.now.grid field.now.values.now current end }
{
    let mut samples = [0.0; 4];
    for i in 0..4_usize {
        let distance = along(current, end, fraction(i));
        samples[i] = value_known(ray, field, near, distance, known)?;
    }
    Some(samples)
}

// The hit at a distance, with the gradient there.
#[tactic(auto, unfolding(crate::specs::Hits::hit_along))]
pub fn hit_along(ray: Ray, field: &DistanceGrid, distance: f64) -> Cast
    ensures { says result ≡ hit_along ray field.now.grid field.now.values.now distance }
{
    let found = sampling::sample(field, point_at(ray, distance));
    let Some(sample) = found else {
        return Err(Refusal::Overflow);
    };
    hit_with(sample.gradient, distance)
}
