ghost use Rattle.std.specs.Prelude.{◌≡◌, true, ◌+◌, ◌*◌, ◌<◌, ◌≤◌, pos, length};
ghost use Rattle.geometry.specs.Segment.{ray_admitted};
ghost use Rattle.geometry.specs.declared.ray.Ray.{Ray as AnyRay};
ghost use Rattle.casts.specs.Reach.{reach_of, says_reach};
ghost use Rattle.nearest_hit.specs.Summary.{says_chosen_hit};
ghost use Rattle.tree.specs.Mesh.{thirds};
ghost use Rattle.wide_integers.specs.Sizes.{Sized};
ghost use Rattle.exact_triangle.specs.Line.{Line};
ghost use Rattle.exact_triangle.specs.Grid.{grid_admitted, grid_line};
ghost use Rattle.exact_triangle.specs.Box.{certain_box};
ghost use Rattle.exact_triangle.specs.Shear.{gain};
ghost use Rattle.exact_triangle.specs.View.{Sees, ViewSized};
ghost use Rattle.tree_exact.specs.Opening.{limit_of};
ghost use Rattle.mesh_exact.specs.GridCast.{exact_answer};
ghost use Rattle.mesh_exact.specs.Noted.{Casts};
ghost use Rattle.tree_exact.specs.Culling.{Culled};
ghost use Rattle.tree_exact.specs.Walking.{Limited, NearestSoFarLeaf, WalkRoom, OpensNode, TakesNode, Walks};
ghost use Rattle.tree_exact.specs.AtRoot.{WalksAlong};

use crate::node::Node;
use crate::{apart, boxes, node as nodes_read, order as children};
use casts::answer::{Reach, Refusal};
use exact_triangle::view::View;
use exact_triangle::{grid, view};
use geometry::aabb::Aabb;
use geometry::ray::Ray;
use mesh_exact::noted;
use nearest_hit::summary;
use nearest_hit::summary::{IndexedReach, NearestSoFar};
use tree::{layout, mesh as triangle_mesh};

// What was found so far, and the depth from which on nothing can take its place.
#[derive(Clone, Copy)]
pub struct Best {
    pub notes: NearestSoFar,
    pub past: i64,
}

// How many nodes stand on the stack after a node, and what was found so far if the node was a leaf; or a 5. Three outcomes, of which two
// carry on with different data.
#[derive(Clone, Copy)]
pub enum Step {
    NothingFound(usize),
    Next { top: usize, best: Best },
    Bad,
}

// The depth from which on nothing can take the place of the nearest hit so far.
fn past_of(line: View, least: Option<IndexedReach>) -> i64
    requires { ViewSized line }
    ensures { Sized 4611686018427387904 result × ((l : Line) → Sees line l → result ≡ pos (limit_of l (says_chosen_hit least) * gain l)) }
{
    let Some(nearest) = least else {
        return line.far + line.gain;
    };
    if !grid::within(grid::LONGEST, nearest.distance) {
        return line.far + line.gain;
    }
    view::depth_at(nearest.distance, line.gain) + line.gain
}

// What was found, with its limit.
fn best_of(line: View, notes: NearestSoFar) -> Best
    requires { ViewSized line }
    ensures { (result.notes ≡ notes) × Limited line result }
{
    Best {
        notes,
        past: past_of(line, notes.least),
    }
}

// Whether a triangle is culled: it is in range and its box is apart from the segment's, reach. What a yes means is the clause.
fn is_culled(reach: Aabb, pose: &[f64], triangles: &[u32], index: usize) -> bool
    requires { 3 * index + 3 ≤ length triangles.now }
    ensures { result ≡ true → Culled reach pose.now triangles.now index }
{
    if !triangle_mesh::corners_inside(pose.len() / 3, triangles, index) {
        return false;
    }
    apart::lies_apart(triangle_mesh::corners_of(pose, triangles, index), reach)
}

// The answer of one triangle without its normal: an index past the vertices is 5.
pub fn reach_at(line: View, pose: &[f64], triangles: &[u32], index: usize) -> Reach
    requires { ViewSized line × (3 * index + 3 ≤ length triangles.now) }
    ensures { (ray : AnyRay) → Casts ray line
        → says_reach result ≡ reach_of (exact_answer ray pose.now triangles.now index) }
{
    if !triangle_mesh::corners_inside(pose.len() / 3, triangles, index) {
        return Err(Refusal::OutOfBounds);
    }
    noted::reach_of(line, pose, triangles, index)
}

// The triangles of a leaf; nothing where a place of it is none, a 5.
fn note_leaf(
    line: View,
    reach: Aabb,
    pose: &[f64],
    triangles: &[u32],
    order: &[u32],
    start: usize,
    end: usize,
    notes: NearestSoFar,
) -> Option<NearestSoFar>
    requires { ViewSized line × (end ≤ length order.now) }
    ensures { NearestSoFarLeaf line reach pose.now triangles.now order.now start end notes result }
{
    let count = triangles.len() / 3;
    let mut found = notes;
    for place in start..end {
        let index = order[place];
        if index as usize >= count {
            return None;
        }
        if !is_culled(reach, pose, triangles, index as usize) {
            let reached = reach_at(line, pose, triangles, index as usize);
            found = summary::note(found, index, reached);
        }
    }
    Some(found)
}

// A node whose box is met: a leaf's triangles are noted, a branch's children go on the stack.
fn open_node(
    line: View,
    reach: Aabb,
    pose: &[f64],
    triangles: &[u32],
    nodes: usize,
    node_boxes: &[f64],
    node_words: &[u32],
    order: &[u32],
    stack: &mut [u32],
    node: usize,
    top: usize,
    best: Best,
) -> Step
    requires { (ViewSized line × Limited line best)
        × (WalkRoom (thirds (length triangles.now)) nodes node_boxes.now node_words.now order.now
        × ((node < nodes) × (top + 2 ≤ length stack.old))) }
    ensures { OpensNode line reach pose.now triangles.now nodes node_boxes.now
        node_words.now order.now stack.old node top best result stack.new }
{
    match nodes_read::node_at(triangles.len() / 3, node_words, node) {
        Node::Leaf { start, end } => {
            let leaf = note_leaf(line, reach, pose, triangles, order, start, end, best.notes);
            let Some(notes) = leaf else {
                return Step::Bad;
            };
            Step::Next {
                top,
                best: best_of(line, notes),
            }
        }
        Node::Branch { left, right } => {
            let left_first = children::taken_first(line, nodes, node_boxes, left, right);
            nodes_read::push(node_words, stack, node, top, left_first);
            Step::NothingFound(top + 2)
        }
        Node::Bad => Step::Bad,
    }
}

// The next node of the stack: passed over if its box cannot be met before the nearest hit so far, else opened.
fn take_node(
    line: View,
    reach: Aabb,
    pose: &[f64],
    triangles: &[u32],
    nodes: usize,
    node_boxes: &[f64],
    node_words: &[u32],
    order: &[u32],
    stack: &mut [u32],
    top: usize,
    best: Best,
) -> Step
    requires { (ViewSized line × Limited line best)
        × (WalkRoom (thirds (length triangles.now)) nodes node_boxes.now node_words.now order.now
        × ((0 < top) × (top + 1 ≤ length stack.old))) }
    ensures { TakesNode line reach pose.now triangles.now nodes node_boxes.now
        node_words.now order.now stack.old top best result stack.new }
{
    let below = top - 1;
    let node = layout::word_at(stack, below);
    if node >= nodes {
        return Step::Bad;
    }
    if !boxes::box_met(line, reach, best.past, layout::box_at(node_boxes, node)) {
        return Step::NothingFound(below);
    }
    open_node(
        line, reach, pose, triangles, nodes, node_boxes, node_words, order, stack, node, below,
        best,
    )
}

// The walk: what it found, or nothing where it met a 5. The stack may hold anything afterwards.
pub fn find_nearest(
    line: View,
    reach: Aabb,
    pose: &[f64],
    triangles: &[u32],
    nodes: usize,
    node_boxes: &[f64],
    node_words: &[u32],
    order: &[u32],
    stack: &mut [u32],
) -> Option<NearestSoFar>
    requires { ViewSized line × (WalkRoom (thirds (length triangles.now)) nodes node_boxes.now node_words.now order.now
        × (nodes < length stack.old)) }
    ensures { Walks line reach pose.now triangles.now nodes node_boxes.now
        node_words.now order.now result }
{
    if nodes == 0 {
        return Some(summary::empty());
    }
    stack[0] = 0;
    let mut best = best_of(line, summary::empty());
    let mut top: usize = 1;
    for _taken in 0..nodes {
        if top == 0 {
            return Some(best.notes);
        }
        let step = take_node(
            line, reach, pose, triangles, nodes, node_boxes, node_words, order, stack, top, best,
        );
        match step {
            Step::NothingFound(higher) => {
                top = higher;
            }
            Step::Next {
                top: higher,
                best: nearer,
            } => {
                top = higher;
                best = nearer;
            }
            Step::Bad => {
                return None;
            }
        }
    }
    if top == 0 {
        return Some(best.notes);
    }
    None
}

// The walk of a ray whose segment has the box reach. Its line is made here, so that it is not copied at a call.
pub fn nearest_along(
    ray: Ray,
    reach: Aabb,
    pose: &[f64],
    triangles: &[u32],
    nodes: usize,
    node_boxes: &[f64],
    node_words: &[u32],
    order: &[u32],
    stack: &mut [u32],
) -> Option<NearestSoFar>
    requires { (((ray_admitted ray ≡ true) × (grid_admitted ray ≡ true)) × (reach ≡ certain_box (grid_line ray)))
        × (WalkRoom (thirds (length triangles.now)) nodes node_boxes.now node_words.now order.now
        × (nodes < length stack.old)) }
    ensures { WalksAlong ray pose.now triangles.now nodes node_boxes.now
        node_words.now order.now result }
{
    find_nearest(
        view::line_of(ray),
        reach,
        pose,
        triangles,
        nodes,
        node_boxes,
        node_words,
        order,
        stack,
    )
}
