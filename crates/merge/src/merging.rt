ghost use Rattle.std.specs.Prelude.{◌≡◌, false, length};
ghost use Rattle.merge.specs.Merge.{says, says_board, areas_of, tests_pass, merge_of};

use crate::board::Board;
use crate::{both, result, testing};
use casts::answer::Refusal;

// Glues two boards into one (M-105): the node count of the result. The marks are unchanged after refusals 2 and 3; past their tests nothing
// is promised of them.
pub fn merge(
    first: Board,
    second: Board,
    vertices: &mut [f64],
    triangles: &mut [u32],
    node_boxes: &mut [f64],
    triangle_boxes: &mut [f64],
    node_words: &mut [u32],
    order: &mut [u32],
    marks: &mut [u32],
) -> Result<usize, Refusal>
    ensures order_after { record {
      answer = says result;
      after = (areas_of vertices.new triangles.new node_boxes.new
          triangle_boxes.new node_words.new order.new);
    }
        ≡ merge_of (says_board first.entry) (says_board second.entry)
        (areas_of vertices.old triangles.old node_boxes.old triangle_boxes.old
        node_words.old order.old) (length marks.old) }
    ensures marks_unchanged { tests_pass (says_board first.entry) (says_board second.entry)
        (areas_of vertices.old triangles.old node_boxes.old triangle_boxes.old
        node_words.old order.old) (length marks.old) ≡ false → marks.new
        ≡ marks.old }
{
    if !testing::shapes_fit(
        first.vertices.len(),
        first.triangles.len(),
        second.vertices.len(),
        second.triangles.len(),
    ) {
        return Err(Refusal::BadShape);
    }
    if !both::areas_fit(
        first,
        second,
        vertices,
        triangles,
        node_boxes,
        triangle_boxes,
        node_words,
        order,
        marks,
    ) {
        return Err(Refusal::NoRoom);
    }
    if !both::both_pass(first, second, marks) {
        return Err(Refusal::OutOfBounds);
    }
    let count = result::glue(
        first,
        second,
        vertices,
        triangles,
        node_boxes,
        triangle_boxes,
        node_words,
        order,
    );
    Ok(count)
}
