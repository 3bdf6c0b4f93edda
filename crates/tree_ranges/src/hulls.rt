ghost use Rattle.std.specs.Prelude.{◌≡◌, ◌+◌, ◌*◌, ◌<◌, ◌≤◌, length};
ghost use Rattle.std.proofs.lemmas.List.Edits.{sets};
ghost use Rattle.tree.specs.Layout.{box_numbers};
ghost use Rattle.tree_ranges.specs.Extents.{hull_of};

use crate::ranges;
use tree::writing;

// The box of a range as a node's box, whatever its numbers are.
fn put_hull_of_any(boxes: &[f64], order: &[u32], node_boxes: &mut [f64], node: usize)
    requires { (0 < length order.now) × (6 * node + 6 ≤ length node_boxes.old) }
    ensures { node_boxes.new ≡ sets node_boxes.old (6 * node)
        (box_numbers (hull_of boxes.now order.now)) }
{
    let bounds = ranges::hull_of_any(boxes, order);
    writing::put_box(node_boxes, 6 * node, bounds);
}

// The box of a range as a node's box. Each arm writes its own, so that the box stays out of memory until then.
pub fn put_hull(boxes: &[f64], order: &[u32], node_boxes: &mut [f64], node: usize)
    requires { (0 < length order.now) × (6 * node + 6 ≤ length node_boxes.old) }
    ensures { node_boxes.new ≡ sets node_boxes.old (6 * node)
        (box_numbers (hull_of boxes.now order.now)) }
{
    let first = ranges::box_of(boxes, order[0]);
    if !first.min.has_numbers() {
        put_hull_of_any(boxes, order, node_boxes, node);
        return;
    }
    if !first.max.has_numbers() {
        put_hull_of_any(boxes, order, node_boxes, node);
        return;
    }
    let bounds = ranges::hull_of_numbers(boxes, order, first);
    writing::put_box(node_boxes, 6 * node, bounds);
}
