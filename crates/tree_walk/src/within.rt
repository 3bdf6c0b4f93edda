ghost use Rattle.std.specs.Prelude.{◌≡◌};
ghost use Rattle.tree.specs.Layout.{tree_of};
ghost use Rattle.tree_walk.specs.Areas.{WalkRoom};
ghost use Rattle.tree_walk.specs.Looking.{ended_look, walk_within, allowed_of};
ghost use Rattle.tree_walk.specs.LookAreas.{looked_by, GrownBy};

use crate::step;
use crate::step::Stepped;
use geometry::aabb::Aabb;

// How many triangles are listed, that the walk met a 5, or that the limit was used up when a node was to be taken; each with the nodes
// spent.
#[derive(Clone, Copy)]
pub enum Limited {
    Count { found: usize, spent: usize },
    Broken(usize),
    UsedUp(usize),
}

// How many nodes may be opened: neither more than there are nor more than the limit.
fn allowed_of(nodes: usize, limit: usize) -> usize
    ensures { result ≡ allowed_of nodes limit }
{
    if limit < nodes {
        return limit;
    }
    nodes
}

// The touching triangles in the walk's own order, in the first places of the list, whose rest is as it was; the stack may hold anything
// afterwards. Each node taken from the stack costs one. The limit is tested first; a node past the node count is then 5.
pub fn gather_within(
    bounds: Aabb,
    count: usize,
    nodes: usize,
    node_boxes: &[f64],
    triangle_boxes: &[f64],
    node_words: &[u32],
    order: &[u32],
    list: &mut [u32],
    stack: &mut [u32],
    limit: usize,
) -> Limited
    requires { WalkRoom count (tree_of nodes node_boxes.now triangle_boxes.now node_words.now order.now) list.old
        stack.old }
    ensures { (ended_look (tree_of nodes node_boxes.now triangle_boxes.now node_words.now
        order.now) count bounds (looked_by result list.new)
        ≡ walk_within (tree_of nodes node_boxes.now triangle_boxes.now node_words.now
        order.now) count bounds limit) × GrownBy count list.old result list.new }
{
    if nodes == 0 {
        return Limited::Count { found: 0, spent: 0 };
    }
    let allowed = allowed_of(nodes, limit);
    let mut next: usize = 0;
    let mut height: usize = 0;
    let mut listed: usize = 0;
    let mut taken: usize = 0;
    while taken < allowed {
        let step = step::take_node(
            bounds,
            count,
            nodes,
            node_boxes,
            triangle_boxes,
            node_words,
            order,
            list,
            listed,
            stack,
            next,
            height,
        );
        match step {
            Stepped::Next { node, top, found } => {
                next = node;
                height = top;
                listed = found;
                taken += 1;
            }
            Stepped::Ended(found) => {
                return Limited::Count {
                    found,
                    spent: taken + 1,
                };
            }
            Stepped::Stopped => {
                return Limited::Broken(taken + 1);
            }
        }
    }
    if taken < limit {
        return Limited::Broken(taken + 1);
    }
    Limited::UsedUp(taken)
}
