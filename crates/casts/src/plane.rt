ghost use Rattle.std.specs.Prelude.{◌≡◌};
ghost use Rattle.casts.specs.Answer.{says};
ghost use Rattle.casts.specs.Plane.{plane_admitted, plane_at, plane_cast, ray_plane};

use crate::answer::{Cast, Hit, Refusal};
use crate::surface;
use arithmetic::basic;
use geometry::ray;
use geometry::ray::Ray;
use vectors::vec3::Vec3;

// All points whose dot with the normal is the distance.
#[derive(Clone, Copy)]
pub struct Plane {
    pub normal: Vec3,
    pub distance: f64,
}

// Whether the normal's length is within 1e-12 of 1 and the distance finite; a NaN length is not within.
#[tactic(auto, unfolding(crate::specs::Plane::plane_admitted))]
pub fn is_admitted(plane: Plane) -> bool
    ensures { result ≡ plane_admitted plane }
{
    ray::close_to_unit_length(plane.normal) && basic::is_finite(plane.distance)
}

// The answer at a distance.
#[tactic(auto, unfolding(crate::specs::Plane::plane_at))]
fn plane_at(plane: Plane, ray: Ray, denominator: f64, distance: f64) -> Cast
    ensures { says result ≡ plane_at plane ray denominator distance }
{
    if !basic::is_finite(distance) {
        return Err(Refusal::Overflow);
    }
    if surface::off_segment(ray, distance) {
        return Ok(None);
    }
    Ok(Some(Hit {
        normal: surface::facing(plane.normal, denominator),
        distance,
    }))
}

// The Rust's ray_plane, with nothing tested before it. Where the origin's dot is not finite the distance is not either, and refuses with
// the same number: the dot is not tested by itself.
#[tactic(auto, using(crate::proofs::LateTests::height_tested_late), unfolding(crate::specs::Plane::plane_cast))]
pub fn plane_cast(plane: Plane, ray: Ray) -> Cast
    ensures { says result ≡ plane_cast plane ray }
{
    let along = ray.direction.checked_dot(plane.normal);
    let Some(denominator) = along else {
        return Err(Refusal::Overflow);
    };
    // 32 · 2^-52
    if basic::abs(denominator) <= 7.105427357601002e-15 {
        return Ok(None);
    }
    let height = ray.origin.dot(plane.normal);
    plane_at(
        plane,
        ray,
        denominator,
        (plane.distance - height) / denominator,
    )
}

// The cast of any ray at any plane.
#[tactic(auto, unfolding(crate::specs::Plane::ray_plane))]
pub fn ray_plane(plane: Plane, ray: Ray) -> Cast
    ensures { says result ≡ ray_plane plane ray }
{
    if !ray.validate() {
        return Err(Refusal::InvalidInput);
    }
    if !is_admitted(plane) {
        return Err(Refusal::BadShape);
    }
    plane_cast(plane, ray)
}
