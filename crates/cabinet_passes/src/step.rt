ghost use Rattle.std.specs.Prelude.{◌≡◌, length};
ghost use Rattle.cabinet.specs.Found.{says_state};
ghost use Rattle.cabinet.specs.Parts.{lent};
ghost use Rattle.cabinet.specs.Steps.{step_part, Kept};

use cabinet::part::{Areas, Part, State};
use cabinet::{own, ranges, refusing};
use casts::answer::Refusal;

// One part of a pass: its ranges in the lent areas, and then the step over its own areas. The list and the stack are work areas.
pub fn cast_part(p: Part, areas: Areas<'_>, list: &mut [u32], stack: &mut [u32], s: State) -> State
    ensures { (says_state result ≡ step_part (lent areas.entry) (length list.old) (length stack.old) (says_state s) p)
        × Kept (says_state s) list.old list.new stack.old stack.new }
{
    if refusing::is_over(s) {
        return s;
    }
    if !ranges::ranges_inside(p, areas.lengths()) {
        return refusing::refuse_with(Refusal::BadShape, s);
    }
    let own = Areas {
        vertices: p.vertices.of(areas.vertices),
        triangles: p.triangles.of(areas.triangles),
        node_boxes: p.node_boxes.of(areas.node_boxes),
        triangle_boxes: p.triangle_boxes.of(areas.triangle_boxes),
        node_words: p.node_words.of(areas.node_words),
        order: p.order.of(areas.order),
    };
    own::own_step(p.origin, p.nodes, own, list, stack, s)
}
