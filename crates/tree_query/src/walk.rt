ghost use Rattle.std.specs.Prelude.{◌≡◌, [], ◌<◌};
ghost use Rattle.tree_walk.specs.Walk.{ended, walk_of};
ghost use Rattle.tree_walk.specs.Areas.{listed, GrownTo, WalkRoom};
ghost use Rattle.tree.specs.Layout.{tree_of};

use geometry::aabb::Aabb;
use index_sort::sort;
use tree::layout;
use tree_walk::ahead;

// The touching triangles in the walk's own order, in the first places of the list, whose rest is as it was; the stack may hold anything
// afterwards. A box far off the tree leaves at its first node, here, where the walk itself stays out of line.
pub fn gather(
    bounds: Aabb,
    count: usize,
    nodes: usize,
    node_boxes: &[f64],
    triangle_boxes: &[f64],
    node_words: &[u32],
    order: &[u32],
    list: &mut [u32],
    stack: &mut [u32],
) -> Option<usize>
    requires { WalkRoom count (tree_of nodes node_boxes.now triangle_boxes.now node_words.now order.now) list.old
        stack.old }
    ensures { (ended (tree_of nodes node_boxes.now triangle_boxes.now node_words.now
        order.now) count bounds (listed [] result list.new)
        ≡ walk_of (tree_of nodes node_boxes.now triangle_boxes.now node_words.now
        order.now) count bounds) × GrownTo count list.old 0 result list.new }
{
    if nodes == 0 {
        return Some(0);
    }
    if !layout::box_at(node_boxes, 0).touches(bounds) {
        return Some(0);
    }
    ahead::gather_ahead(
        bounds,
        count,
        nodes,
        node_boxes,
        triangle_boxes,
        node_words,
        order,
        list,
        stack,
    )
}

// The same triangles, ascending.
pub fn walk(
    bounds: Aabb,
    count: usize,
    nodes: usize,
    node_boxes: &[f64],
    triangle_boxes: &[f64],
    node_words: &[u32],
    order: &[u32],
    list: &mut [u32],
    stack: &mut [u32],
) -> Option<usize>
    requires { (count < 4294967296) × WalkRoom count
        (tree_of nodes node_boxes.now triangle_boxes.now node_words.now order.now) list.old stack.old }
    ensures { (listed [] result list.new
        ≡ walk_of (tree_of nodes node_boxes.now triangle_boxes.now node_words.now
        order.now) count bounds) × GrownTo count list.old 0 result list.new }
{
    let found = ahead::gather_ahead(
        bounds,
        count,
        nodes,
        node_boxes,
        triangle_boxes,
        node_words,
        order,
        list,
        stack,
    )?;
    sort::sort_in(&mut list[..found], 0, count as u32, stack);
    Some(found)
}
