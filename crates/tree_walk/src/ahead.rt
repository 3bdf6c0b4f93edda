ghost use Rattle.std.specs.Prelude.{◌≡◌, [], ◌+◌, ◌*◌, ◌<◌, ◌≤◌, length};
ghost use Rattle.tree.specs.Layout.{first_at, second_at, tree_of};
ghost use Rattle.tree_walk.specs.Walk.{ended, walk_of};
ghost use Rattle.tree_walk.specs.Areas.{listed, GrownTo, WalkRoom};
ghost use Rattle.tree_walk.specs.Opening.{open_next, Opens, Waiting, Tested, Branched, OpenRoom, NodeOpened};

use crate::{few, step};
use geometry::aabb::Aabb;
use tree::layout;

// The node that is opened next, how many stand on the stack below it, how many triangles in the list and how many nodes are counted; or how
// many triangles the whole walk has listed, or that it met a 5.
#[derive(Clone, Copy)]
pub enum Opened {
    Next {
        node: usize,
        top: usize,
        found: usize,
        spent: usize,
    },
    Ended(usize),
    Stopped,
}

// The next node of the stack; with none there the walk has ended.
fn next_open(stack: &[u32], top: usize, found: usize, spent: usize) -> Opened
    requires { top ≤ length stack.now }
    ensures { result ≡ open_next stack.now top found spent }
{
    if top == 0 {
        return Opened::Ended(found);
    }
    let below = top - 1;
    Opened::Next {
        node: stack[below] as usize,
        top: below,
        found,
        spent,
    }
}

// A branch whose children both fit and are counted: the left one is next where it touches, and the right one then waits on the stack; one
// that does not touch is not looked at again.
fn open_children(
    bounds: Aabb,
    nodes: usize,
    node_boxes: &[f64],
    left: usize,
    right: u32,
    stack: &mut [u32],
    top: usize,
    found: usize,
    spent: usize,
) -> Opened
    requires { (6 * nodes ≤ length node_boxes.now) × ((nodes < length stack.old)
        × Waiting nodes node_boxes.now bounds left right stack.old top spent) }
    ensures { Tested nodes node_boxes.now bounds left right stack.old top found spent result
        stack.new }
{
    let second = layout::box_at(node_boxes, right as usize).touches(bounds);
    if layout::box_at(node_boxes, left).touches(bounds) {
        if second {
            stack[top] = right;
            return Opened::Next {
                node: left,
                top: top + 1,
                found,
                spent,
            };
        }
        return Opened::Next {
            node: left,
            top,
            found,
            spent,
        };
    }
    if second {
        return Opened::Next {
            node: right as usize,
            top,
            found,
            spent,
        };
    }
    next_open(stack, top, found, spent)
}

// A branch: its children, where they fit and there are so many nodes.
fn open_branch(
    bounds: Aabb,
    nodes: usize,
    node_boxes: &[f64],
    node_words: &[u32],
    node: usize,
    stack: &mut [u32],
    top: usize,
    found: usize,
    spent: usize,
) -> Opened
    requires { (3 * node + 3 ≤ length node_words.now) × ((6 * nodes ≤ length node_boxes.now)
        × ((nodes < length stack.old) × Opens nodes node_boxes.now bounds stack.old node top spent)) }
    ensures { Branched nodes node_boxes.now bounds node (first_at node_words.now node)
        (second_at node_words.now node) stack.old top found spent result stack.new }
{
    let left = node_words[3 * node + 1] as usize;
    let right = node_words[3 * node + 2];
    if !step::child_fits(nodes, node, left) {
        return Opened::Stopped;
    }
    if !step::child_fits(nodes, node, right as usize) {
        return Opened::Stopped;
    }
    if nodes - spent < 2 {
        return Opened::Stopped;
    }
    open_children(
        bounds,
        nodes,
        node_boxes,
        left,
        right,
        stack,
        top,
        found,
        spent + 2,
    )
}

// One node that touches: the rest is tested as the walk's definition says.
fn open_node(
    bounds: Aabb,
    count: usize,
    nodes: usize,
    node_boxes: &[f64],
    triangle_boxes: &[f64],
    node_words: &[u32],
    order: &[u32],
    list: &mut [u32],
    found: usize,
    stack: &mut [u32],
    node: usize,
    top: usize,
    spent: usize,
) -> Opened
    requires { OpenRoom count (tree_of nodes node_boxes.now triangle_boxes.now node_words.now order.now) bounds list.old
        found stack.old node top spent }
    ensures { NodeOpened count (tree_of nodes node_boxes.now triangle_boxes.now
        node_words.now order.now) bounds list.old found stack.old node top spent result
        list.new stack.new }
{
    let kind = layout::word_at(node_words, 3 * node);
    if kind == 0 {
        let leaf = few::at_leaf(
            bounds,
            count,
            triangle_boxes,
            node_words,
            order,
            node,
            list,
            found,
        );
        let Some(listed) = leaf else {
            return Opened::Stopped;
        };
        return next_open(stack, top, listed, spent);
    }
    if kind != 1 {
        return Opened::Stopped;
    }
    open_branch(
        bounds, nodes, node_boxes, node_words, node, stack, top, found, spent,
    )
}

// The touching triangles in the walk's own order, in the first places of the list, whose rest is as it was; the stack may hold anything
// afterwards. The children of a branch are tested when it is opened: one that does not touch, which the walk would take from the stack and
// drop, does not go there. That no limit is asked makes this the same: nobody is told how many nodes were taken when a 5 was met.
// The tree's areas come one by one, here and wherever a tree is walked: not yet one struct.
pub fn gather_ahead(
    bounds: Aabb,
    count: usize,
    nodes: usize,
    node_boxes: &[f64],
    triangle_boxes: &[f64],
    node_words: &[u32],
    order: &[u32],
    list: &mut [u32],
    stack: &mut [u32],
) -> Option<usize>
    requires { WalkRoom count (tree_of nodes node_boxes.now triangle_boxes.now node_words.now order.now) list.old
        stack.old }
    ensures { (ended (tree_of nodes node_boxes.now triangle_boxes.now node_words.now
        order.now) count bounds (listed [] result list.new)
        ≡ walk_of (tree_of nodes node_boxes.now triangle_boxes.now node_words.now
        order.now) count bounds) × GrownTo count list.old 0 result list.new }
{
    if nodes == 0 {
        return Some(0);
    }
    if !layout::box_at(node_boxes, 0).touches(bounds) {
        return Some(0);
    }
    let mut next: usize = 0;
    let mut height: usize = 0;
    let mut among: usize = 0;
    let mut counted: usize = 1;
    while counted <= nodes {
        let step = open_node(
            bounds,
            count,
            nodes,
            node_boxes,
            triangle_boxes,
            node_words,
            order,
            list,
            among,
            stack,
            next,
            height,
            counted,
        );
        match step {
            Opened::Next {
                node,
                top,
                found,
                spent,
            } => {
                next = node;
                height = top;
                among = found;
                counted = spent;
            }
            Opened::Ended(found) => {
                return Some(found);
            }
            Opened::Stopped => {
                return None;
            }
        }
    }
    None
}
