ghost use Rattle.std.specs.Prelude.{◌≡◌, false, ◌≤◌};
ghost use Rattle.tree.specs.Layout.{tree_of};
ghost use Rattle.tree_query.specs.Query.{says_listed, counts_admitted, tree_fits, walk_fits, Queries};

use crate::walk;
use casts::answer::Refusal;
use geometry::aabb::Aabb;
use lists::fill;
use tree::layout;

// How many triangles are listed, or a refusal of document 01's table.
pub type Listed = Result<usize, Refusal>;

// Whether the counts of triangles and of nodes are admitted.
pub fn counts_admitted(count: usize, nodes: usize) -> bool
    ensures { result ≡ counts_admitted count nodes }
{
    if count > 65536 {
        return false;
    }
    nodes <= 2 * count
}

// Whether the areas of a tree are as long as its triangles ask.
pub fn tree_fits(
    count: usize,
    nodes: usize,
    node_boxes: &[f64],
    triangle_boxes: &[f64],
    node_words: &[u32],
    order: &[u32],
) -> bool
    requires { count ≤ 65536 }
    ensures { result ≡ tree_fits count (tree_of nodes node_boxes.now triangle_boxes.now
        node_words.now order.now) }
{
    layout::lengths_fit(
        count,
        node_boxes.len(),
        triangle_boxes.len(),
        node_words.len(),
        order.len(),
    )
}

// The same of a tree's areas and those that the walk takes.
pub fn walk_fits(
    count: usize,
    nodes: usize,
    node_boxes: &[f64],
    triangle_boxes: &[f64],
    node_words: &[u32],
    order: &[u32],
    list: usize,
    stack: usize,
) -> bool
    requires { count ≤ 65536 }
    ensures { result ≡ walk_fits count (tree_of nodes node_boxes.now triangle_boxes.now
        node_words.now order.now) list stack }
{
    if !tree_fits(count, nodes, node_boxes, triangle_boxes, node_words, order) {
        return false;
    }
    if list < count {
        return false;
    }
    nodes < stack
}

// The triangles of any tree whose boxes touch a box, ascending.
// The stack is a work area: unchanged after refusals 1 to 3, and past their tests nothing is promised of it.
pub fn query(
    bounds: Aabb,
    count: usize,
    nodes: usize,
    node_boxes: &[f64],
    triangle_boxes: &[f64],
    node_words: &[u32],
    order: &[u32],
    list: &mut [u32],
    stack: &mut [u32],
) -> Listed
    ensures { Queries bounds count
        (tree_of nodes node_boxes.now triangle_boxes.now node_words.now order.now)
        list.old stack.old stack.new (record { answer = says_listed result; list = list.new }) }
{
    if !bounds.is_valid() {
        return Err(Refusal::InvalidInput);
    }
    if !counts_admitted(count, nodes) {
        return Err(Refusal::BadShape);
    }
    if !walk_fits(
        count,
        nodes,
        node_boxes,
        triangle_boxes,
        node_words,
        order,
        list.len(),
        stack.len(),
    ) {
        return Err(Refusal::NoRoom);
    }
    let walked = walk::walk(
        bounds,
        count,
        nodes,
        node_boxes,
        triangle_boxes,
        node_words,
        order,
        list,
        stack,
    );
    let Some(found) = walked else {
        fill::zero_words(list);
        return Err(Refusal::OutOfBounds);
    };
    Ok(found)
}
