ghost use Rattle.std.specs.Prelude.{◌≡◌};
ghost use Rattle.casts.specs.Answer.{number_of};
ghost use Rattle.casts.specs.Reach.{says_reach};
ghost use Rattle.nearest_hit.specs.Summary.{keep_of, found, lower, nearer, nothing, note_of, winner, says_chosen_refusal};
ghost use Rattle.nearest_hit.specs.Summary.{says_chosen_hit, says_nearest_so_far, says_outcome};

use casts::answer::{Reach, Refusal};

// A triangle that refuses.
#[derive(Clone, Copy)]
pub struct IndexedRefusal {
    pub index: u32,
    pub refusal: Refusal,
}

// A triangle that is hit, with the distance.
#[derive(Clone, Copy)]
pub struct IndexedReach {
    pub index: u32,
    pub distance: f64,
}

// The answer of all, without a normal.
pub type Outcome = Result<Option<IndexedReach>, Refusal>;

// What of many triangles decides the nearest hit, in whatever order they come: the lowest that refuses, and the nearest that is hit.
#[derive(Clone, Copy)]
pub struct NearestSoFar {
    pub refuser: Option<IndexedRefusal>,
    pub least: Option<IndexedReach>,
}

// Before any triangle.
pub fn empty() -> NearestSoFar
    ensures { says_nearest_so_far result ≡ nothing }
{
    NearestSoFar {
        refuser: None,
        least: None,
    }
}

// The refusal of the lower index.
#[tactic(auto, unfolding(crate::specs::Summary::keep_of, crate::specs::Summary::lower))]
fn lower_refusal(
    chosen: Option<IndexedRefusal>,
    index: u32,
    refusal: Refusal,
) -> Option<IndexedRefusal>
    ensures { says_chosen_refusal result ≡ keep_of lower (says_chosen_refusal chosen) (found index (number_of refusal)) }
{
    let Some(lowest) = chosen else {
        return Some(IndexedRefusal { index, refusal });
    };
    if index < lowest.index {
        return Some(IndexedRefusal { index, refusal });
    }
    chosen
}

// Whether a hit is nearer than another, or as near and of a lower index.
#[tactic(auto, unfolding(crate::specs::Summary::nearer))]
fn is_nearer(index: u32, distance: f64, other: u32, reach: f64) -> bool
    ensures { result ≡ nearer (found index distance) (found other reach) }
{
    if distance < reach {
        return true;
    }
    if distance <= reach {
        return index < other;
    }
    false
}

// The nearer hit.
#[tactic(auto, unfolding(crate::specs::Summary::keep_of))]
fn nearer_hit(chosen: Option<IndexedReach>, index: u32, distance: f64) -> Option<IndexedReach>
    ensures { says_chosen_hit result ≡ keep_of nearer (says_chosen_hit chosen) (found index distance) }
{
    let Some(nearest) = chosen else {
        return Some(IndexedReach { index, distance });
    };
    if is_nearer(index, distance, nearest.index, nearest.distance) {
        return Some(IndexedReach { index, distance });
    }
    chosen
}

// One more triangle.
#[tactic(auto, unfolding(crate::specs::Summary::note_of))]
pub fn note(notes: NearestSoFar, index: u32, reach: Reach) -> NearestSoFar
    ensures { says_nearest_so_far result ≡ note_of (says_nearest_so_far notes) index (says_reach reach) }
{
    match reach {
        Ok(Some(distance)) => NearestSoFar {
            refuser: notes.refuser,
            least: nearer_hit(notes.least, index, distance),
        },
        Ok(None) => notes,
        Err(refusal) => NearestSoFar {
            refuser: lower_refusal(notes.refuser, index, refusal),
            least: notes.least,
        },
    }
}

// Whose answer is the answer of all.
#[tactic(auto, unfolding(crate::specs::Summary::winner_of))]
pub fn winner(notes: NearestSoFar) -> Outcome
    ensures { says_outcome result ≡ winner (says_nearest_so_far notes) }
{
    match notes.refuser {
        Some(refuser) => Err(refuser.refusal),
        None => Ok(notes.least),
    }
}
