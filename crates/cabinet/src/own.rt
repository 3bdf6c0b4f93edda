ghost use Rattle.std.specs.Prelude.{◌≡◌, false, length};
ghost use Rattle.cabinet.specs.Found.{says_state};
ghost use Rattle.cabinet.specs.Parts.{lent_mesh, lent_tree};
ghost use Rattle.cabinet.specs.Steps.{own_step};

use crate::part::{Areas, State};
use crate::{cast, found, ranges, refusing};
use casts::answer::Refusal;
use tree_query::query;
use vectors::vec3::Vec3;

// One part of a pass over its own areas: refusals 2 and 3, and then the cast where the pass casts.
pub fn own_step(
    origin: Vec3,
    nodes: usize,
    areas: Areas<'_>,
    list: &mut [u32],
    stack: &mut [u32],
    s: State,
) -> State
    ensures { (says_state result ≡ own_step origin (lent_mesh areas.entry) (lent_tree nodes areas.entry) (length list.old)
        (length stack.old) (says_state s))
        × (s.casting ≡ false → (list.new ≡ list.old) × (stack.new ≡ stack.old)) }
{
    if !ranges::shape_admitted(areas.vertices.len(), areas.triangles.len(), nodes) {
        return refusing::refuse_with(Refusal::BadShape, s);
    }
    let count = areas.triangles.len() / 3;
    if !query::walk_fits(
        count,
        nodes,
        areas.node_boxes,
        areas.triangle_boxes,
        areas.node_words,
        areas.order,
        list.len(),
        stack.len(),
    ) {
        return refusing::refuse_with(Refusal::NoRoom, s);
    }
    if !s.casting {
        return s;
    }
    let left = s.limit.saturating_sub(s.at.spent);
    let cost = cast::cast_moved(s.ray, origin, nodes, areas, list, stack, left);
    State {
        at: found::after_part(s.at, cost),
        ..s
    }
}
