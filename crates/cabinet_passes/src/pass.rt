ghost use Rattle.std.specs.Prelude.{◌≡◌, length};
ghost use Rattle.cabinet.specs.Found.{says_state, says_look};
ghost use Rattle.cabinet.specs.Steps.{begun, step_parts, areas, Kept};
ghost use Rattle.cabinet.specs.Looks.{look_parts};

use crate::step::cast_part;
use cabinet::look::look_part;
use cabinet::part::{Areas, Look, Part, Progress, State};
use casts::answer::Refusal;
use geometry::ray::Ray;

// The first pass: all parts are looked at, in list order, before the first is cast at.
pub fn look_all(parts: &[Part], start: Look) -> Look
    ensures { says_look result ≡ look_parts (says_look start) parts.now }
{
    let mut s = start;
    for part in parts {
        s = look_part(*part, s);
    }
    s
}

// The second pass: all parts, in list order. The list and the stack are work areas; a pass that casts at no part leaves them as they were.
pub fn cast_all(
    parts: &[Part],
    vertices: &[f64],
    triangles: &[u32],
    node_boxes: &[f64],
    triangle_boxes: &[f64],
    node_words: &[u32],
    order: &[u32],
    list: &mut [u32],
    stack: &mut [u32],
    start: State,
) -> State
    ensures { (says_state result ≡ step_parts (areas vertices.now triangles.now node_boxes.now
        triangle_boxes.now node_words.now order.now) (length list.old)
        (length stack.old) (says_state start) parts.now)
        × Kept (says_state start) list.old list.new stack.old stack.new }
{
    let areas = Areas {
        vertices,
        triangles,
        node_boxes,
        triangle_boxes,
        node_words,
        order,
    };
    let mut s = start;
    for part in parts {
        s = cast_part(*part, areas, list, stack, s);
    }
    s
}

// Before the first pass: a ray that is not admitted is 1, and result slices that do not fit are 3.
#[tactic(auto, unfolding(cabinet::specs::Steps::begun))]
pub fn begin(ray: Ray, limit: usize, fits: bool) -> State
    ensures { says_state result ≡ begun ray limit fits }
{
    let found = if !ray.validate() {
        Err(Refusal::InvalidInput)
    } else if !fits {
        Err(Refusal::NoRoom)
    } else {
        Ok(None)
    };
    State {
        ray,
        limit,
        casting: false,
        at: Progress {
            part: 0,
            spent: 0,
            found,
        },
    }
}
