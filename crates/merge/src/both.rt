ghost use Rattle.std.specs.Prelude.{◌≡◌, true, length};
ghost use Rattle.merge.specs.Merge.{says_board, areas_of, shapes_admitted, areas_fit, trees_pass};
ghost use Rattle.merge.specs.Ready.{Checkable};

use crate::board::Board;
use crate::testing;
use tree_query::query;

// Whether the areas of both boards, of the result and of the marks are long enough, the lengths of the meshes being admitted: the merge
// tests them first.
pub fn areas_fit(
    first: Board,
    second: Board,
    vertices: &[f64],
    triangles: &[u32],
    node_boxes: &[f64],
    triangle_boxes: &[f64],
    node_words: &[u32],
    order: &[u32],
    marks: &[u32],
) -> bool
    requires { shapes_admitted (says_board first) (says_board second) ≡ true }
    ensures { result ≡ areas_fit (says_board first.entry) (says_board second.entry)
        (areas_of vertices.now triangles.now node_boxes.now triangle_boxes.now node_words.now order.now) (length marks.now) }
{
    let n = first.triangles.len() / 3;
    let m = second.triangles.len() / 3;
    if !query::tree_fits(
        n,
        first.nodes,
        first.node_boxes,
        first.triangle_boxes,
        first.node_words,
        first.order,
    ) {
        return false;
    }
    if !query::tree_fits(
        m,
        second.nodes,
        second.node_boxes,
        second.triangle_boxes,
        second.node_words,
        second.order,
    ) {
        return false;
    }
    testing::results_fit(
        first.vertices.len() + second.vertices.len(),
        first.triangles.len() + second.triangles.len(),
        n + m,
        vertices,
        triangles,
        node_boxes,
        triangle_boxes,
        node_words,
        order,
        marks,
    )
}

// Whether both trees pass their check, lengths and areas being as stated: the merge tests them first.
pub fn both_pass(first: Board, second: Board, marks: &mut [u32]) -> bool
    requires { (Checkable (says_board first) (length marks.old)) × (Checkable (says_board second) (length marks.old)) }
    ensures { result ≡ trees_pass (says_board first.entry) (says_board second.entry) }
{
    if !testing::passes(first, marks) {
        return false;
    }
    testing::passes(second, marks)
}
