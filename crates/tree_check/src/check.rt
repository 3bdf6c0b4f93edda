ghost use Rattle.std.specs.Prelude.{◌≡◌, ◌*◌, ◌/◌, ◌≤◌, length};
ghost use Rattle.tree.specs.Layout.{tree_of};
ghost use Rattle.tree.specs.Mesh.{mesh};
ghost use Rattle.tree_check.specs.Check.{tree_passes};
ghost use Rattle.tree_check.specs.Steps.{words_pass, boxes_pass, Readable, Long};
ghost use Rattle.tree_check.specs.Verdict.{says, room_for, Checks};

use crate::{boxes, words};
use casts::answer::Refusal;
use tree::{layout, mesh};

// Yes, no, or a refusal of document 01's table.
pub type Verdict = Result<bool, Refusal>;

// Whether the nodes' words and the order pass.
#[tactic(auto, unfolding(crate::specs::Steps::words_pass))]
fn words_pass(n: usize, nodes: usize, words: &[u32], order: &[u32], marks: &mut [u32]) -> bool
    requires { (n ≤ 65536) × ((nodes ≤ 2 * n)
        × ((3 * nodes ≤ length words.now) × ((n ≤ length order.now) × (3 * n ≤ length marks.old)))) }
    ensures { result ≡ words_pass n nodes words.now order.now }
{
    if !words::nodes_sound(n, nodes, words) {
        return false;
    }
    if !words::named_once(n, nodes, words, marks) {
        return false;
    }
    if !words::placed_once(n, nodes, words, marks) {
        return false;
    }
    words::ordered_once(n, order, marks)
}

// Whether the triangles and all boxes pass.
#[tactic(auto, unfolding(crate::specs::Steps::boxes_pass))]
fn boxes_pass(
    n: usize,
    nodes: usize,
    vertices: &[f64],
    triangles: &[u32],
    node_boxes: &[f64],
    triangle_boxes: &[f64],
    words: &[u32],
    order: &[u32],
) -> bool
    requires { ((3 * n ≤ length triangles.now) × (6 * n ≤ length triangle_boxes.now))
        × (Readable n nodes node_boxes.now triangle_boxes.now words.now order.now) }
    ensures { result ≡ boxes_pass n nodes vertices.now triangles.now node_boxes.now
        triangle_boxes.now words.now order.now }
{
    if !boxes::triangles_sound(n, vertices, triangles, triangle_boxes) {
        return false;
    }
    boxes::nodes_fit(n, nodes, node_boxes, triangle_boxes, words, order)
}

// Whether the tree passes, its areas being as long as stated.
fn tree_passes(
    vertices: &[f64],
    triangles: &[u32],
    nodes: usize,
    node_boxes: &[f64],
    triangle_boxes: &[f64],
    words: &[u32],
    order: &[u32],
    marks: &mut [u32],
) -> bool
    requires { Long (length triangles.now / 3) node_boxes.now triangle_boxes.now words.now order.now marks.old }
    ensures { result ≡ tree_passes
        (record { vertices = vertices.entry.now; triangles = triangles.now })
        (record {
          node_count = nodes;
          node_boxes = node_boxes.now;
          triangle_boxes = triangle_boxes.now;
          node_words = words.now;
          order = order.now;
        }) }
{
    let n = triangles.len() / 3;
    if n == 0 {
        return nodes == 0;
    }
    if nodes > 2 * n {
        return false;
    }
    if !words_pass(n, nodes, words, order, marks) {
        return false;
    }
    boxes_pass(
        n,
        nodes,
        vertices,
        triangles,
        node_boxes,
        triangle_boxes,
        words,
        order,
    )
}

// Whether the areas of a tree of n triangles are as long as stated.
#[tactic(auto, using(tree::proofs::Lengths::room_failed, tree::proofs::Lengths::room_passed), unfolding(crate::specs::Verdict::room_for))]
fn room_for(
    n: usize,
    node_boxes: usize,
    triangle_boxes: usize,
    node_words: usize,
    order: usize,
    marks: usize,
) -> bool
    requires { n ≤ 65536 }
    ensures { result ≡ room_for n node_boxes triangle_boxes node_words order marks }
{
    if !layout::lengths_fit(n, node_boxes, triangle_boxes, node_words, order) {
        return false;
    }
    3 * n <= marks
}

// Whether a tree, from whatever builder, fits the mesh: yes exactly when document 01's clauses hold.
// The marks are a work area, left open after yes and no: they may hold anything then. A refusal leaves them unchanged.
pub fn check(
    vertices: &[f64],
    triangles: &[u32],
    nodes: usize,
    node_boxes: &[f64],
    triangle_boxes: &[f64],
    node_words: &[u32],
    order: &[u32],
    marks: &mut [u32],
) -> Verdict
    ensures { Checks (mesh vertices.now triangles.now)
        (tree_of nodes node_boxes.now triangle_boxes.now node_words.now order.now)
        marks.old marks.new (says result) }
{
    if !mesh::lengths_admitted(vertices.len(), triangles.len()) {
        return Err(Refusal::BadShape);
    }
    if !room_for(
        triangles.len() / 3,
        node_boxes.len(),
        triangle_boxes.len(),
        node_words.len(),
        order.len(),
        marks.len(),
    ) {
        return Err(Refusal::NoRoom);
    }
    let passes = tree_passes(
        vertices,
        triangles,
        nodes,
        node_boxes,
        triangle_boxes,
        node_words,
        order,
        marks,
    );
    Ok(passes)
}
