ghost use Rattle.std.specs.Prelude.{◌≡◌, ◌&&◌, ◌+◌, ◌*◌, ◌<◌, ◌≤◌, leb, length};
ghost use Rattle.mesh_drill.specs.Drilling.{says_drill};
ghost use Rattle.many_drills.specs.Many.{ray_at, radius_at, places, answer_at};

use geometry::ray::Ray;
use mesh_drill::answer::DrillCast;
use tree::layout;

// The ray of the drill at an index, of nine numbers a drill.
pub fn ray_at(drills: &[f64], index: usize) -> Ray
    requires { 9 * index + 9 ≤ length drills.now }
    ensures { result ≡ ray_at drills.now index }
{
    let place = 9 * index;
    Ray {
        origin: layout::vector_at(drills, place),
        direction: layout::vector_at(drills, place + 3),
        max_distance: drills[place + 6],
        near: drills[place + 7],
    }
}

// Its radius.
#[tactic(auto, unfolding(crate::specs::Many::radius_at))]
pub fn radius_at(drills: &[f64], index: usize) -> f64
    requires { 9 * index + 9 ≤ length drills.now }
    ensures { result ≡ radius_at drills.now index }
{
    drills[9 * index + 8]
}

// Whether result slices of these lengths hold the answers of so many drills.
pub fn places_fit(count: usize, codes: usize, indices: usize) -> bool
    ensures { result ≡ (leb count codes && leb count indices) }
{
    if codes < count {
        return false;
    }
    count <= indices
}

// An answer at its drill's places.
#[tactic(auto, unfolding(crate::specs::Many::answer_at))]
pub fn put_at(answer: DrillCast, index: usize, codes: &mut [u32], indices: &mut [u32])
    requires { (index < length codes.old) × (index < length indices.old) }
    ensures { places codes.new indices.new
        ≡ answer_at (says_drill answer) index (places codes.old indices.old) }
{
    match answer {
        Ok(None) => {
            codes[index] = results::NONE;
        }
        Ok(Some(triangle)) => {
            codes[index] = results::HIT;
            indices[index] = triangle;
        }
        Err(refusal) => {
            codes[index] = refusal.into();
        }
    }
}
