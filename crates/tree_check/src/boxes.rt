ghost use Rattle.std.specs.Prelude.{◌≡◌, ℕ, ◌+◌, ◌-◌, ◌*◌, ◌<◌, ◌≤◌, length, get_or};
ghost use Rattle.lists.specs.Lists.{range, every};
ghost use Rattle.tree_check.specs.Steps.{triangle_sound, place_enclosed, children_enclosed, node_holds, node_fits, Readable};

use geometry::aabb::Aabb;
use tree::{layout, mesh};

// Whether a triangle's indices lie below the vertex count, and its box in the tree is that of its vertices and valid.
#[tactic(auto, unfolding(crate::specs::Steps::triangle_sound))]
fn triangle_sound(vertices: &[f64], triangles: &[u32], boxes: &[f64], x: usize) -> bool
    requires { (3 * x + 3 ≤ length triangles.now) × (6 * x + 6 ≤ length boxes.now) }
    ensures { result ≡ triangle_sound vertices.now triangles.now boxes.now x }
{
    if !mesh::corners_inside(vertices.len() / 3, triangles, x) {
        return false;
    }
    let around = layout::box_at(boxes, x);
    if !around.same(mesh::triangle_box(vertices, triangles, x)) {
        return false;
    }
    around.is_valid()
}

// Whether all triangles are.
pub fn triangles_sound(n: usize, vertices: &[f64], triangles: &[u32], boxes: &[f64]) -> bool
    requires { (3 * n ≤ length triangles.now) × (6 * n ≤ length boxes.now) }
    ensures { result ≡ every (triangle_sound vertices.now triangles.now boxes.now) (range 0 n) }
{
    (0..n).all(|x| triangle_sound(vertices, triangles, boxes, x))
}

// Whether a box encloses the box of the triangle at an order place.
#[tactic(auto, unfolding(crate::specs::Steps::place_enclosed))]
fn place_enclosed(outer: Aabb, boxes: &[f64], order: &[u32], p: usize) -> bool
    requires { (p < length order.now) × (6 * get_or order.now p 0 + 6 ≤ length boxes.now) }
    ensures { result ≡ place_enclosed outer boxes.now order.now p }
{
    outer.encloses(layout::box_at(boxes, layout::word_at(order, p)))
}

// Whether it encloses those at all places from start on and below end.
fn places_enclosed(outer: Aabb, boxes: &[f64], order: &[u32], start: usize, end: usize) -> bool
    requires { (end ≤ length order.now) × ((p : ℕ) → p < end → 6 * get_or order.now p 0 + 6 ≤ length boxes.now) }
    ensures { result ≡ every (place_enclosed outer boxes.now order.now) (range start (end - start)) }
{
    (start..end).all(|p| place_enclosed(outer, boxes, order, p))
}

// Whether it encloses the boxes of two nodes.
#[tactic(auto, unfolding(crate::specs::Steps::children_enclosed))]
fn children_enclosed(outer: Aabb, boxes: &[f64], left: usize, right: usize) -> bool
    requires { (6 * left + 6 ≤ length boxes.now) × (6 * right + 6 ≤ length boxes.now) }
    ensures { result ≡ children_enclosed outer boxes.now left right }
{
    if !outer.encloses(layout::box_at(boxes, left)) {
        return false;
    }
    outer.encloses(layout::box_at(boxes, right))
}

// Whether a node's box encloses those of its children, or of its triangles.
fn node_holds(
    n: usize,
    nodes: usize,
    node_boxes: &[f64],
    triangle_boxes: &[f64],
    words: &[u32],
    order: &[u32],
    node: usize,
) -> bool
    requires { (node < nodes) × Readable n nodes node_boxes.now triangle_boxes.now words.now order.now }
    ensures { result ≡ node_holds node_boxes.now triangle_boxes.now words.now order.now
        node }
{
    let outer = layout::box_at(node_boxes, node);
    let first = layout::word_at(words, 3 * node + 1);
    let second = layout::word_at(words, 3 * node + 2);
    if layout::word_at(words, 3 * node) == 0 {
        return places_enclosed(outer, triangle_boxes, order, first, first + second);
    }
    children_enclosed(outer, node_boxes, first, second)
}

// Whether it is valid besides.
#[tactic(auto, unfolding(crate::specs::Steps::node_fits))]
fn node_fits(
    n: usize,
    nodes: usize,
    node_boxes: &[f64],
    triangle_boxes: &[f64],
    words: &[u32],
    order: &[u32],
    node: usize,
) -> bool
    requires { (node < nodes) × Readable n nodes node_boxes.now triangle_boxes.now words.now order.now }
    ensures { result ≡ node_fits node_boxes.now triangle_boxes.now words.now order.now
        node }
{
    if !layout::box_at(node_boxes, node).is_valid() {
        return false;
    }
    node_holds(n, nodes, node_boxes, triangle_boxes, words, order, node)
}

// Whether all nodes' boxes are and do.
pub fn nodes_fit(
    n: usize,
    nodes: usize,
    node_boxes: &[f64],
    triangle_boxes: &[f64],
    words: &[u32],
    order: &[u32],
) -> bool
    requires { Readable n nodes node_boxes.now triangle_boxes.now words.now order.now }
    ensures { result ≡ every (node_fits node_boxes.now triangle_boxes.now words.now
        order.now) (range 0 nodes) }
{
    (0..nodes).all(|node| node_fits(n, nodes, node_boxes, triangle_boxes, words, order, node))
}
