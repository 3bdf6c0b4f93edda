ghost use Rattle.std.specs.Prelude.{◌≡◌};
ghost use Rattle.casts.specs.Answer.{says};
ghost use Rattle.results.specs.Results.{answered};
ghost use Rattle.slice_casts.specs.Slices.{plane_of_slices};

use crate::numbers;
use casts::answer::{Cast, Refusal};
use casts::plane;

// The cast at the plane in a slice, of the ray in a slice. The tests of `ray_plane` stand here, between those of the lengths.
#[inline(always)]
#[tactic(auto, unfolding(crate::specs::Slices::plane_of_slices, crate::specs::Slices::of_slices, casts::specs::Plane::ray_plane))]
fn plane_of_slices(ray: &[f64], plane: &[f64]) -> Cast
    ensures { says result ≡ plane_of_slices ray.now plane.now }
{
    if ray.len() != 8 {
        return Err(Refusal::InvalidInput);
    }
    let start = numbers::ray_in(ray);
    if !start.validate() {
        return Err(Refusal::InvalidInput);
    }
    if plane.len() != 4 {
        return Err(Refusal::BadShape);
    }
    let shape = numbers::plane_in(plane);
    if !plane::is_admitted(shape) {
        return Err(Refusal::BadShape);
    }
    plane::plane_cast(shape, start)
}

// The same as its number, a hit's values written.
pub fn answer_plane(ray: &[f64], plane: &[f64], hit: &mut [f64]) -> u32
    ensures { record { number = result; hit = hit.new }
        ≡ answered (plane_of_slices ray.now plane.now) hit.old }
{
    results::put_answer(plane_of_slices(ray, plane), hit)
}
