ghost use Rattle.std.specs.Prelude.{◌≡◌, cond, ◌+◌, ◌≤◌};
ghost use Rattle.merge.specs.Merge.{says_board, areas_of, merged_count, merged_over};
ghost use Rattle.merge.specs.Ready.{Ready};

use crate::board::Board;
use tree_copy::{gluing, root};

// How many nodes the result has.
fn count_nodes(empty: bool, nodes: usize, others: usize) -> usize
    requires { (nodes ≤ 131072) × (others ≤ 131072) }
    ensures { result ≡ cond empty 0 1 + (nodes + others) }
{
    if empty {
        return nodes + others;
    }
    1 + (nodes + others)
}

// The result of two boards that passed the tests of the merge, and its node count.
pub fn glue(
    first: Board,
    second: Board,
    vertices: &mut [f64],
    triangles: &mut [u32],
    node_boxes: &mut [f64],
    triangle_boxes: &mut [f64],
    node_words: &mut [u32],
    order: &mut [u32],
) -> usize
    requires { Ready (says_board first) (says_board second)
        (areas_of vertices.old triangles.old node_boxes.old triangle_boxes.old node_words.old order.old) }
    ensures { (result ≡ merged_count (says_board first.entry) (says_board second.entry))
        × ((areas_of vertices.new triangles.new node_boxes.new triangle_boxes.new node_words.new order.new)
        ≡ merged_over (says_board first.entry) (says_board second.entry)
        (areas_of vertices.old triangles.old node_boxes.old triangle_boxes.old node_words.old order.old)) }
{
    let n = first.triangles.len() / 3;
    let m = second.triangles.len() / 3;
    let empty = root::one_empty(n, m);
    gluing::glue_mesh(
        first.vertices,
        first.triangles,
        second.vertices,
        second.triangles,
        vertices,
        triangles,
    );
    gluing::glue_boxes(
        empty,
        n,
        first.nodes,
        first.node_boxes,
        first.triangle_boxes,
        m,
        second.nodes,
        second.node_boxes,
        second.triangle_boxes,
        node_boxes,
        triangle_boxes,
    );
    gluing::glue_words(
        empty,
        n,
        first.nodes,
        first.node_words,
        first.order,
        m,
        second.nodes,
        second.node_words,
        second.order,
        node_words,
        order,
    );
    count_nodes(empty, first.nodes, second.nodes)
}
