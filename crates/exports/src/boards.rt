ghost use Rattle.std.specs.Prelude.{◌≡◌, false, ◌&&◌, ◌≤◌, leb, length};
ghost use Rattle.tree.specs.Layout.{word_at};
ghost use Rattle.merge.specs.Merge.{says, board_of, areas_of, tests_pass};
ghost use Rattle.merge.specs.Promises.{Glued};
ghost use Rattle.results.specs.Results.{done_code};
ghost use Rattle.exports.specs.Boards.{returned_merged, merge_returned};

use casts::answer::Refusal;
use merge::board::Board;
use merge::{merging, testing};

// Glues two boards, each a mesh with its tree, into one and writes its node count. The marks are a work area: unchanged after refusals 2
// and 3.
// The third clause: where it is done, the tree check says yes to the result, and a cast on it is the two boards' casts glued.
pub fn probe_merge(
    first_vertices: &[f64],
    first_triangles: &[u32],
    first_nodes: usize,
    first_node_boxes: &[f64],
    first_triangle_boxes: &[f64],
    first_node_words: &[u32],
    first_order: &[u32],
    second_vertices: &[f64],
    second_triangles: &[u32],
    second_nodes: usize,
    second_node_boxes: &[f64],
    second_triangle_boxes: &[f64],
    second_node_words: &[u32],
    second_order: &[u32],
    vertices: &mut [f64],
    triangles: &mut [u32],
    node_boxes: &mut [f64],
    triangle_boxes: &mut [f64],
    node_words: &mut [u32],
    order: &mut [u32],
    marks: &mut [u32],
    nodes: &mut [usize],
) -> u32
    ensures order_after { record {
      returned = record { number = result; count = nodes.new };
      after = (areas_of vertices.new triangles.new node_boxes.new triangle_boxes.new
          node_words.new order.new);
    }
        ≡ merge_returned (board_of first_vertices.now first_triangles.now first_nodes
        first_node_boxes.now first_triangle_boxes.now first_node_words.now
        first_order.now) (board_of second_vertices.now second_triangles.now second_nodes
        second_node_boxes.now second_triangle_boxes.now second_node_words.now
        second_order.now) (areas_of vertices.old triangles.old node_boxes.old
        triangle_boxes.old node_words.old order.old) (length marks.old)
        nodes.old }
    ensures marks_unchanged { (leb 1 (length nodes.old)
        && tests_pass (board_of first_vertices.now first_triangles.now first_nodes
        first_node_boxes.now first_triangle_boxes.now first_node_words.now
        first_order.now) (board_of second_vertices.now second_triangles.now second_nodes
        second_node_boxes.now second_triangle_boxes.now second_node_words.now
        second_order.now) (areas_of vertices.old triangles.old node_boxes.old
        triangle_boxes.old node_words.old order.old) (length marks.old)) ≡ false
        → marks.new ≡ marks.old }
    ensures glued { result ≡ done_code → Glued (board_of first_vertices.now first_triangles.now first_nodes
        first_node_boxes.now first_triangle_boxes.now first_node_words.now
        first_order.now) (board_of second_vertices.now second_triangles.now second_nodes
        second_node_boxes.now second_triangle_boxes.now second_node_words.now
        second_order.now) (word_at nodes.new 0)
        (areas_of vertices.new triangles.new node_boxes.new triangle_boxes.new
        node_words.new order.new) }
{
    if !testing::shapes_fit(
        first_vertices.len(),
        first_triangles.len(),
        second_vertices.len(),
        second_triangles.len(),
    ) {
        return Refusal::BadShape.into();
    }
    if nodes.len() < 1 {
        return Refusal::NoRoom.into();
    }
    let first = Board {
        vertices: first_vertices,
        triangles: first_triangles,
        nodes: first_nodes,
        node_boxes: first_node_boxes,
        triangle_boxes: first_triangle_boxes,
        node_words: first_node_words,
        order: first_order,
    };
    let second = Board {
        vertices: second_vertices,
        triangles: second_triangles,
        nodes: second_nodes,
        node_boxes: second_node_boxes,
        triangle_boxes: second_triangle_boxes,
        node_words: second_node_words,
        order: second_order,
    };
    let merged = merging::merge(
        first,
        second,
        vertices,
        triangles,
        node_boxes,
        triangle_boxes,
        node_words,
        order,
        marks,
    );
    results::put_count(merged, nodes)
}
