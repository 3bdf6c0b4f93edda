ghost use Rattle.std.specs.Prelude.{◌≡◌};
ghost use Rattle.casts.specs.Answer.{number_of};
ghost use Rattle.cabinet.specs.Found.{refusal_number, says_state};
ghost use Rattle.cabinet.specs.Looks.{lower_number};
ghost use Rattle.cabinet.specs.Steps.{refuse_with, is_over};

use crate::part::{Progress, State};
use casts::answer::Refusal;

// The lower of two refusals stands: 1 before 2, and 2 of any part before 3 of any part.
#[tactic(auto, using(crate::proofs::Refusals::some_number), unfolding(crate::specs::Looks::lower_number))]
pub fn lower(refusal: Refusal, before: Option<Refusal>) -> Refusal
    ensures { number_of result ≡ lower_number (number_of refusal) (refusal_number before) }
{
    let Some(first) = before else {
        return refusal;
    };
    if refusal < first {
        return refusal;
    }
    first
}

#[tactic(auto, using(crate::proofs::Refusals::some_number), unfolding(crate::specs::Steps::refuse_with, crate::specs::Steps::lower_refusal, crate::specs::Looks::lower_number))]
pub fn refuse_with(refusal: Refusal, s: State) -> State
    ensures { says_state result ≡ refuse_with (number_of refusal) (says_state s) }
{
    let refused = Progress {
        found: Err(lower(refusal, s.at.found.err())),
        ..s.at
    };
    State { at: refused, ..s }
}

// Whether a refusal ended the casts.
#[tactic(auto, unfolding(crate::specs::Steps::is_over))]
pub fn is_over(s: State) -> bool
    ensures { result ≡ is_over (says_state s) }
{
    s.casting && s.at.found.is_err()
}
