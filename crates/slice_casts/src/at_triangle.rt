ghost use Rattle.std.specs.Prelude.{◌≡◌};
ghost use Rattle.casts.specs.Answer.{says};
ghost use Rattle.results.specs.Results.{answered};
ghost use Rattle.slice_casts.specs.Slices.{triangle_of_slices};

use crate::numbers;
use casts::answer::{Cast, Refusal};
use triangle_cast::triangle;

// The cast at the triangle in a slice, of the ray in a slice. The test of `ray_triangle` stands here, between those of the lengths.
#[inline(always)]
#[tactic(auto, unfolding(crate::specs::Slices::triangle_of_slices, crate::specs::Slices::of_slices, triangle_cast::specs::Triangle::ray_triangle))]
fn triangle_of_slices(ray: &[f64], triangle: &[f64]) -> Cast
    ensures { says result ≡ triangle_of_slices ray.now triangle.now }
{
    if ray.len() != 8 {
        return Err(Refusal::InvalidInput);
    }
    let start = numbers::ray_in(ray);
    if !start.validate() {
        return Err(Refusal::InvalidInput);
    }
    if triangle.len() != 9 {
        return Err(Refusal::BadShape);
    }
    triangle::triangle_cast(start, numbers::corners_in(triangle))
}

// The same as its number, a hit's values written.
pub fn answer_triangle(ray: &[f64], triangle: &[f64], hit: &mut [f64]) -> u32
    ensures { record { number = result; hit = hit.new }
        ≡ answered (triangle_of_slices ray.now triangle.now) hit.old }
{
    results::put_answer(triangle_of_slices(ray, triangle), hit)
}
