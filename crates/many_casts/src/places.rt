ghost use Rattle.std.specs.Prelude.{◌≡◌, ◌&&◌, ◌+◌, ◌*◌, ◌<◌, ◌≤◌, leb, length};
ghost use Rattle.nearest_hit.specs.Nearest.{says_indexed};
ghost use Rattle.many_casts.specs.Many.{ray_at, places, answer_at};

use geometry::ray::Ray;
use nearest_hit::nearest::IndexedCast;
use tree::layout;

// The ray at an index, of eight numbers a ray.
pub fn ray_at(rays: &[f64], index: usize) -> Ray
    requires { 8 * index + 8 ≤ length rays.now }
    ensures { result ≡ ray_at rays.now index }
{
    let place = 8 * index;
    Ray {
        origin: layout::vector_at(rays, place),
        direction: layout::vector_at(rays, place + 3),
        max_distance: rays[place + 6],
        near: rays[place + 7],
    }
}

// Whether result slices of these lengths hold the answers of so many rays.
pub fn places_fit(count: usize, codes: usize, hits: usize, indices: usize) -> bool
    requires { 4 * count < 18446744073709551616 }
    ensures { result ≡ (leb count codes && (leb (4 * count) hits && leb count indices)) }
{
    if codes < count {
        return false;
    }
    if hits < 4 * count {
        return false;
    }
    count <= indices
}

// An answer at its ray's places.
#[tactic(auto, unfolding(crate::specs::Many::answer_at))]
pub fn put_at(
    answer: IndexedCast,
    index: usize,
    codes: &mut [u32],
    hits: &mut [f64],
    indices: &mut [u32],
)
    requires { (index < length codes.old) × ((4 * index + 4 ≤ length hits.old) × (index < length indices.old)) }
    ensures { places codes.new hits.new indices.new
        ≡ answer_at (says_indexed answer) index (places codes.old hits.old indices.old) }
{
    match answer {
        Ok(Some(hit)) => {
            let place = 4 * index;
            codes[index] = results::HIT;
            hits[place] = hit.normal.x;
            hits[place + 1] = hit.normal.y;
            hits[place + 2] = hit.normal.z;
            hits[place + 3] = hit.distance;
            indices[index] = hit.index;
        }
        Ok(None) => {
            codes[index] = results::NONE;
        }
        Err(refusal) => {
            codes[index] = refusal.into();
        }
    }
}
