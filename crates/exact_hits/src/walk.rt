ghost use Rattle.std.specs.Prelude.{◌≡◌, ◌<◌, ◌≤◌, length};
ghost use Rattle.tree.specs.Layout.{tree_of};
ghost use Rattle.tree_walk.specs.Areas.{NodeRoom, WalkRoom};
ghost use Rattle.exact_triangle.specs.Line.{Line};
ghost use Rattle.exact_triangle.specs.Box.{certain_box};
ghost use Rattle.exact_triangle.specs.View.{Sees, ViewSized};
ghost use Rattle.exact_hits.specs.LineWalk.{line_meets, box_opens, walk_box};
ghost use Rattle.exact_hits.specs.Areas.{OpenedTaken, Gathered, LineGathered};

use exact_triangle::view::View;
use geometry::aabb::Aabb;
use tree::layout;
use tree_exact::boxes;
use tree_walk::step;
use tree_walk::step::Stepped;

// Whether the line can meet a box on the segment: any box, where the segment is short.
fn line_meets(line: View, bounds: Aabb) -> bool
    requires { ViewSized line }
    ensures { (l : Line) → Sees line l → result ≡ line_meets l bounds }
{
    if boxes::is_short(line) {
        return true;
    }
    boxes::line_met(line, line.far + line.gain, bounds)
}

// Whether a node with such a box is opened: it touches the box that the walk goes by, reach, and the line can meet it.
fn box_opens(line: View, reach: Aabb, bounds: Aabb) -> bool
    requires { ViewSized line }
    ensures { (l : Line) → Sees line l → result ≡ box_opens l reach bounds }
{
    if !bounds.touches(reach) {
        return false;
    }
    line_meets(line, bounds)
}

// One node: as the query takes it if it is opened.
fn take_opened(
    line: View,
    reach: Aabb,
    count: usize,
    nodes: usize,
    node_boxes: &[f64],
    triangle_boxes: &[f64],
    node_words: &[u32],
    order: &[u32],
    list: &mut [u32],
    found: usize,
    stack: &mut [u32],
    node: usize,
    top: usize,
) -> Stepped
    requires { ViewSized line × NodeRoom count
        (tree_of nodes node_boxes.now triangle_boxes.now node_words.now order.now) list.old found stack.old node top }
    ensures { OpenedTaken line count reach (tree_of nodes node_boxes.now triangle_boxes.now
        node_words.now order.now) list.old found stack.old node top result list.new
        stack.new }
{
    if !box_opens(line, reach, layout::box_at(node_boxes, node)) {
        return step::pop(stack, top, found);
    }
    step::take_node(
        reach,
        count,
        nodes,
        node_boxes,
        triangle_boxes,
        node_words,
        order,
        list,
        found,
        stack,
        node,
        top,
    )
}

// The triangles whose boxes touch reach, of the nodes that are opened, in the walk's own order, in the first places of the list, whose rest
// is as it was; the stack may hold anything afterwards.
fn gather_opened(
    line: View,
    reach: Aabb,
    count: usize,
    nodes: usize,
    node_boxes: &[f64],
    triangle_boxes: &[f64],
    node_words: &[u32],
    order: &[u32],
    list: &mut [u32],
    stack: &mut [u32],
) -> Option<usize>
    requires { (ViewSized line × (0 < nodes)) × WalkRoom count
        (tree_of nodes node_boxes.now triangle_boxes.now node_words.now order.now) list.old stack.old }
    ensures { Gathered line count reach (tree_of nodes node_boxes.now triangle_boxes.now
        node_words.now order.now) list.old result list.new }
{
    let mut next: usize = 0;
    let mut height: usize = 0;
    let mut listed: usize = 0;
    for _taken in 0..nodes {
        let step = take_opened(
            line,
            reach,
            count,
            nodes,
            node_boxes,
            triangle_boxes,
            node_words,
            order,
            list,
            listed,
            stack,
            next,
            height,
        );
        match step {
            Stepped::Next { node, top, found } => {
                next = node;
                height = top;
                listed = found;
            }
            Stepped::Ended(found) => {
                return Some(found);
            }
            Stepped::Stopped => {
                return None;
            }
        }
    }
    None
}

// The box that the walk goes by, given the segment's and the tree's first one: where the first one is out of the grid's range, itself.
fn walk_box(reach: Aabb, first: Aabb) -> Aabb
    ensures { (l : Line) → reach ≡ certain_box l → result ≡ walk_box l first }
{
    if boxes::is_read(first) {
        return reach;
    }
    first
}

// The triangles that the line may meet, in the walk's own order, given the segment's box.
pub fn gather_line(
    line: View,
    reach: Aabb,
    count: usize,
    nodes: usize,
    node_boxes: &[f64],
    triangle_boxes: &[f64],
    node_words: &[u32],
    order: &[u32],
    list: &mut [u32],
    stack: &mut [u32],
) -> Option<usize>
    requires { ViewSized line × WalkRoom count
        (tree_of nodes node_boxes.now triangle_boxes.now node_words.now order.now) list.old stack.old }
    ensures { LineGathered line reach count (tree_of nodes node_boxes.now triangle_boxes.now
        node_words.now order.now) list.old result list.new }
{
    if nodes == 0 {
        return Some(0);
    }
    let bounds = walk_box(reach, layout::box_at(node_boxes, 0));
    gather_opened(
        line,
        bounds,
        count,
        nodes,
        node_boxes,
        triangle_boxes,
        node_words,
        order,
        list,
        stack,
    )
}
