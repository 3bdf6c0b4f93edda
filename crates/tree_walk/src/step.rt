ghost use Rattle.std.specs.Prelude.{◌≡◌, ◌+◌, ◌-◌, ◌*◌, ◌<◌, ◌≤◌, length, take, true, ◌&&◌, ltb};
ghost use Rattle.lists.specs.Lists.{range, all_below};
ghost use Rattle.tree.specs.Layout.{first_at, second_at, tree_of};
ghost use Rattle.tree_walk.specs.Walk.{walking, take_place, take_places, at_leaf};
ghost use Rattle.tree_walk.specs.Areas.{on_stack, popped, Room, Placed, Pushed, NodeRoom, NodeTaken};

use geometry::aabb::Aabb;
use tree::layout;

// The node that is taken next, how many stand on the stack below it and how many triangles in the list; or how many triangles the whole
// walk has listed, or that it met a 5.
#[derive(Clone, Copy)]
pub enum Stepped {
    Next {
        node: usize,
        top: usize,
        found: usize,
    },
    Ended(usize),
    Stopped,
}

// One place of the order: its triangle is listed if its box touches.
fn take_place(
    bounds: Aabb,
    count: usize,
    triangle_boxes: &[f64],
    order: &[u32],
    place: usize,
    list: &mut [u32],
    found: usize,
) -> Option<usize>
    requires { (place < count) × Room count order.now triangle_boxes.now list.old found }
    ensures { Placed (λ t stack. take_place t count bounds (walking stack (take found list.old)) place) count
        order.now triangle_boxes.now list.old found result list.new }
{
    let triangle = order[place];
    let index = triangle as usize;
    if index >= count {
        return None;
    }
    if !layout::box_at(triangle_boxes, index).touches(bounds) {
        return Some(found);
    }
    if found >= count {
        return None;
    }
    list[found] = triangle;
    Some(found + 1)
}

// The places of the order from start to below end.
pub fn take_places(
    bounds: Aabb,
    count: usize,
    triangle_boxes: &[f64],
    order: &[u32],
    start: usize,
    end: usize,
    list: &mut [u32],
    found: usize,
) -> Option<usize>
    requires { (start ≤ end) × ((end ≤ count) × Room count order.now triangle_boxes.now list.old found) }
    ensures { Placed (λ t stack. take_places t count bounds (walking stack (take found list.old))
        (range start (end - start))) count order.now triangle_boxes.now list.old found result
        list.new }
{
    let mut listed = found;
    for place in start..end {
        listed = take_place(bounds, count, triangle_boxes, order, place, list, listed)?;
    }
    Some(listed)
}

// A leaf: its places of the order, which must end within the triangles.
fn at_leaf(
    bounds: Aabb,
    count: usize,
    triangle_boxes: &[f64],
    node_words: &[u32],
    order: &[u32],
    node: usize,
    list: &mut [u32],
    found: usize,
) -> Option<usize>
    requires { (3 * node + 3 ≤ length node_words.now) × Room count order.now triangle_boxes.now list.old found }
    ensures { Placed (λ t stack. at_leaf t count bounds (first_at node_words.now node)
        (second_at node_words.now node) stack (take found list.old)) count order.now
        triangle_boxes.now list.old found result list.new }
{
    let start = layout::word_at(node_words, 3 * node + 1);
    let size = layout::word_at(node_words, 3 * node + 2);
    if start + size > count {
        return None;
    }
    take_places(
        bounds,
        count,
        triangle_boxes,
        order,
        start,
        start + size,
        list,
        found,
    )
}

// A child above its parent and below the node count.
pub fn child_fits(nodes: usize, node: usize, child: usize) -> bool
    ensures { result ≡ (ltb node child && ltb child nodes) }
{
    if node < child {
        return child < nodes;
    }
    false
}

// The next node taken from the stack; with none there the walk has ended. It is compiled into each of its users.
#[inline(always)]
pub fn pop(stack: &[u32], top: usize, found: usize) -> Stepped
    requires { top ≤ length stack.now }
    ensures { result ≡ popped stack.now top found }
{
    if top == 0 {
        return Stepped::Ended(found);
    }
    let below = top - 1;
    Stepped::Next {
        node: stack[below] as usize,
        top: below,
        found,
    }
}

// A branch: its left child is taken next, the right one goes on the stack.
fn at_branch(
    nodes: usize,
    node_words: &[u32],
    node: usize,
    stack: &mut [u32],
    top: usize,
    found: usize,
) -> Stepped
    requires { (3 * node + 3 ≤ length node_words.now)
        × ((top < length stack.old) × (all_below nodes (on_stack stack.old top) ≡ true)) }
    ensures { Pushed nodes node (first_at node_words.now node) (second_at node_words.now node)
        stack.old top found result stack.new }
{
    let left = node_words[3 * node + 1] as usize;
    let right = node_words[3 * node + 2];
    if !child_fits(nodes, node, left) {
        return Stepped::Stopped;
    }
    if !child_fits(nodes, node, right as usize) {
        return Stepped::Stopped;
    }
    stack[top] = right;
    Stepped::Next {
        node: left,
        top: top + 1,
        found,
    }
}

// One node: the rest is tested only where its box touches.
pub fn take_node(
    bounds: Aabb,
    count: usize,
    nodes: usize,
    node_boxes: &[f64],
    triangle_boxes: &[f64],
    node_words: &[u32],
    order: &[u32],
    list: &mut [u32],
    found: usize,
    stack: &mut [u32],
    node: usize,
    top: usize,
) -> Stepped
    requires { NodeRoom count (tree_of nodes node_boxes.now triangle_boxes.now node_words.now order.now) list.old found
        stack.old node top }
    ensures { NodeTaken count bounds (tree_of nodes node_boxes.now triangle_boxes.now
        node_words.now order.now) list.old found stack.old node top result list.new
        stack.new }
{
    if !layout::box_at(node_boxes, node).touches(bounds) {
        return pop(stack, top, found);
    }
    let kind = layout::word_at(node_words, 3 * node);
    if kind == 0 {
        let leaf = at_leaf(
            bounds,
            count,
            triangle_boxes,
            node_words,
            order,
            node,
            list,
            found,
        );
        let Some(listed) = leaf else {
            return Stepped::Stopped;
        };
        return pop(stack, top, listed);
    }
    if kind != 1 {
        return Stepped::Stopped;
    }
    at_branch(nodes, node_words, node, stack, top, found)
}
