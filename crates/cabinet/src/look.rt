ghost use Rattle.std.specs.Prelude.{◌≡◌, ◌≤◌};
ghost use Rattle.tree.specs.Mesh.{thirds};
ghost use Rattle.casts.specs.Answer.{number_of};
ghost use Rattle.cabinet.specs.Found.{refusal_number, says_found, says_state, says_look};
ghost use Rattle.cabinet.specs.Looks.{lowered, look_shape, look_room, look_part, found_by, look_from, second_pass};

use crate::part::{Found, Lengths, Look, Part, Progress, State};
use crate::{ranges, refusing};
use casts::answer::Refusal;
use tree::layout;

#[tactic(auto, unfolding(crate::specs::Looks::lowered))]
fn lower(refusal: Refusal, s: Look) -> Look
    ensures { says_look result ≡ lowered (number_of refusal) (says_look s) }
{
    Look {
        refusal: Some(refusing::lower(refusal, s.refusal)),
        ..s
    }
}

// Refusal 2 of a part: its ranges in the lent areas, and then its lengths.
#[tactic(auto, unfolding(crate::specs::Looks::look_shape))]
fn shape_fits(p: Part, s: Look) -> bool
    ensures { result ≡ look_shape (says_look s) p }
{
    ranges::ranges_inside(p, s.areas)
        && ranges::shape_admitted(p.vertices.length, p.triangles.length, p.nodes)
}

// Refusal 3 of a part.
#[tactic(auto, using(crate::proofs::LookTests::stack_fits), unfolding(crate::specs::Looks::look_room))]
fn room_fits(p: Part, s: Look) -> bool
    requires { thirds p.triangles.length ≤ 65536 }
    ensures { result ≡ look_room (says_look s) p }
{
    let count = p.triangles.length / 3;
    layout::lengths_fit(
        count,
        p.node_boxes.length,
        p.triangle_boxes.length,
        p.node_words.length,
        p.order.length,
    ) && count <= s.list
        && p.nodes < s.stack
}

// One part of the first pass: by lengths alone, so that nothing of the areas is read.
#[tactic(auto, using(crate::proofs::LookTests::look_few), unfolding(crate::specs::Looks::look_part))]
pub fn look_part(p: Part, s: Look) -> Look
    ensures { says_look result ≡ look_part (says_look s) p }
{
    if !shape_fits(p, s) {
        return lower(Refusal::BadShape, s);
    }
    if !room_fits(p, s) {
        return lower(Refusal::NoRoom, s);
    }
    s
}

#[tactic(auto, using(crate::proofs::Refusals::some_number), unfolding(crate::specs::Looks::found_by))]
fn found_by(refusal: Option<Refusal>) -> Found
    ensures { says_found result ≡ found_by (refusal_number refusal) }
{
    match refusal {
        None => Ok(None),
        Some(refusal) => Err(refusal),
    }
}

// Before the first pass.
#[tactic(auto, unfolding(crate::specs::Looks::look_from))]
pub fn look_from(
    start: State,
    vertices: usize,
    triangles: usize,
    node_boxes: usize,
    triangle_boxes: usize,
    node_words: usize,
    order: usize,
    list: usize,
    stack: usize,
) -> Look
    ensures { says_look result ≡ look_from (says_state start) vertices triangles node_boxes triangle_boxes node_words order list
        stack }
{
    Look {
        areas: Lengths {
            vertices,
            triangles,
            node_boxes,
            triangle_boxes,
            node_words,
            order,
        },
        list,
        stack,
        refusal: start.at.found.err(),
    }
}

// Between the two passes: the second begins with what the first found.
#[tactic(auto, unfolding(crate::specs::Looks::second_pass))]
pub fn second_pass(start: State, s: Look) -> State
    ensures { says_state result ≡ second_pass (says_state start) (says_look s) }
{
    State {
        casting: true,
        at: Progress {
            part: 0,
            spent: 0,
            found: found_by(s.refusal),
        },
        ..start
    }
}
