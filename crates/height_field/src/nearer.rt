ghost use Rattle.std.specs.Prelude.{◌≡◌};
ghost use Rattle.nearest_hit.specs.Nearest.{says_indexed};
ghost use Rattle.height_field.specs.Pass.{nearer_of};

use nearest_hit::nearest;
use nearest_hit::nearest::IndexedCast;

// What was found so far and what one more triangle alone came to. A triangle is asked alone, and not on top of what was found, so that the
// compiler keeps its hit in registers: else it goes through memory, written in other pairs than it is read, and the reader waits.
#[tactic(auto, unfolding(crate::specs::Pass::nearer_of, crate::specs::Pass::is_stopped))]
pub fn nearer(best: IndexedCast, found: IndexedCast) -> IndexedCast
    ensures { says_indexed result ≡ nearer_of (says_indexed best) (says_indexed found) }
{
    match found {
        Ok(Some(hit)) => {
            if nearest::gives_way(best, hit.distance) {
                return Ok(Some(hit));
            }
            best
        }
        Ok(None) => best,
        Err(refusal) => {
            if best.is_err() {
                return best;
            }
            Err(refusal)
        }
    }
}
