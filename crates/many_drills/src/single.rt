ghost use Rattle.std.specs.Prelude.{◌≡◌, ◌≤◌, length};
ghost use Rattle.mesh_drill.specs.Drilling.{says_drill};
ghost use Rattle.many_drills.specs.Returned.{returned_drill};

use mesh_drill::answer::DrillCast;

// A drill's answer as its number, the index of a triangle that is touched written.
#[tactic(auto, unfolding(crate::specs::Returned::returned_drill))]
pub fn put_drill(answer: DrillCast, index: &mut [u32]) -> u32
    requires { 1 ≤ length index.old }
    ensures { record { number = result; index = index.new } ≡ returned_drill (says_drill answer) index.old }
{
    match answer {
        Ok(None) => results::NONE,
        Ok(Some(triangle)) => {
            index[0] = triangle;
            results::HIT
        }
        Err(refusal) => refusal.into(),
    }
}
