ghost use Rattle.std.specs.Prelude.{◌≡◌, true, false, ℕ, ◌≤◌, length, Ok};
ghost use Rattle.tree.specs.Mesh.{thirds, lengths_admitted, mesh};
ghost use Rattle.tree.specs.Layout.{areas};
ghost use Rattle.tree_build.specs.Build.{says, zeroed, room_for, tree_written, built_of, outcome, Builds};

use crate::nodes;
use casts::answer::Refusal;
use lists::fill;
use tree::{layout, mesh, writing};

// The node count, or a refusal of document 01's table.
pub type Built = Result<usize, Refusal>;

// Whether the areas are long enough for a number of triangles.
fn has_room(
    count: usize,
    node_boxes: &[f64],
    triangle_boxes: &[f64],
    node_words: &[u32],
    order: &[u32],
    work: &[u32],
) -> bool
    requires { count ≤ 65536 }
    ensures { result ≡ room_for count
        (areas node_boxes.now triangle_boxes.now node_words.now order.now)
        (length work.now) }
{
    if !layout::lengths_fit(
        count,
        node_boxes.len(),
        triangle_boxes.len(),
        node_words.len(),
        order.len(),
    ) {
        return false;
    }
    count <= work.len()
}

// Zeros in every place of the result areas.
fn zero_areas(
    node_boxes: &mut [f64],
    triangle_boxes: &mut [f64],
    node_words: &mut [u32],
    order: &mut [u32],
)
    ensures { areas node_boxes.new triangle_boxes.new node_words.new order.new ≡ zeroed
        (areas node_boxes.old triangle_boxes.old node_words.old order.old) }
{
    fill::zero_numbers(node_boxes);
    fill::zero_numbers(triangle_boxes);
    fill::zero_words(node_words);
    fill::zero_words(order);
}

// The build of an admitted mesh with room. The areas hold anything after a refusal.
fn grow(
    vertices: &[f64],
    triangles: &[u32],
    node_boxes: &mut [f64],
    triangle_boxes: &mut [f64],
    node_words: &mut [u32],
    order: &mut [u32],
    work: &mut [u32],
) -> Built
    requires { (lengths_admitted (length vertices.now) (length triangles.now) ≡ true)
        × (room_for (thirds (length triangles.now)) (areas node_boxes.old triangle_boxes.old node_words.old order.old)
        (length work.old) ≡ true) }
    ensures { (says result ≡ (built_of (mesh vertices.now triangles.now)
        (areas node_boxes.old triangle_boxes.old node_words.old order.old)).answer)
        × ((k : ℕ) → result ≡ Ok k → areas node_boxes.new triangle_boxes.new node_words.new
        order.new ≡ tree_written (mesh vertices.now triangles.now)
        (areas node_boxes.old triangle_boxes.old node_words.old order.old)) }
{
    let count = triangles.len() / 3;
    if count == 0 {
        return Err(Refusal::OutOfBounds);
    }
    if !writing::put_triangle_boxes(vertices, triangles, triangle_boxes) {
        return Err(Refusal::OutOfBounds);
    }
    fill::number(&mut order[..count]);
    let unseen = nodes::order_unseen(triangle_boxes, &order[..count]);
    nodes::build_node(
        triangle_boxes,
        &mut order[..count],
        0,
        0,
        node_boxes,
        node_words,
        work,
        unseen,
    )
}

// Builds a mesh's tree (document 01, 'Build').
// The work area is unchanged after refusals 2 and 3; past their tests nothing is promised of it.
pub fn build(
    vertices: &[f64],
    triangles: &[u32],
    node_boxes: &mut [f64],
    triangle_boxes: &mut [f64],
    node_words: &mut [u32],
    order: &mut [u32],
    work: &mut [u32],
) -> Built
    ensures { Builds (mesh vertices.now triangles.now)
        (areas node_boxes.old triangle_boxes.old node_words.old order.old)
        work.old work.new
        (outcome (says result)
        (areas node_boxes.new triangle_boxes.new node_words.new order.new)) }
{
    if !mesh::lengths_admitted(vertices.len(), triangles.len()) {
        return Err(Refusal::BadShape);
    }
    if !has_room(
        triangles.len() / 3,
        node_boxes,
        triangle_boxes,
        node_words,
        order,
        work,
    ) {
        return Err(Refusal::NoRoom);
    }
    let built = grow(
        vertices,
        triangles,
        node_boxes,
        triangle_boxes,
        node_words,
        order,
        work,
    );
    if built.is_err() {
        zero_areas(node_boxes, triangle_boxes, node_words, order);
    }
    built
}
