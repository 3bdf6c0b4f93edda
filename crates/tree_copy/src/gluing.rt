ghost use Rattle.std.specs.Prelude.{◌≡◌, false, cond, [], ◌∷◌, ◌++◌, ◌+◌, ◌*◌, ◌≤◌, length, take};
ghost use Rattle.geometry.specs.Box.{union_of};
ghost use Rattle.tree.specs.Layout.{box_at, box_numbers};
ghost use Rattle.tree.specs.Mesh.{thirds};
ghost use Rattle.lists.specs.Lists.{over};
ghost use Rattle.tree_copy.specs.Moved.{moved_up, moved_nodes};
ghost use Rattle.tree_copy.specs.Sizes.{SmallWords, SmallNodes};

use crate::joining;

// Vertices of the first then the second, and triangles likewise, the second's indices moved up.
pub fn glue_mesh(
    first_vertices: &[f64],
    first_triangles: &[u32],
    second_vertices: &[f64],
    second_triangles: &[u32],
    vertices: &mut [f64],
    triangles: &mut [u32],
)
    requires { ((length first_vertices.now + length second_vertices.now ≤ length vertices.old)
        × (length first_triangles.now + length second_triangles.now ≤ length triangles.old))
        × (SmallWords second_triangles.now (length second_triangles.now) (thirds (length first_vertices.now))) }
    ensures { (vertices.new ≡ over (first_vertices.now ++ second_vertices.now)
        vertices.old) × (triangles.new
        ≡ over (first_triangles.now ++ moved_up (thirds (length first_vertices.now))
        second_triangles.now) triangles.old) }
{
    joining::join_numbers(
        first_vertices,
        first_vertices.len(),
        second_vertices,
        second_vertices.len(),
        vertices,
    );
    joining::join_words(
        first_triangles,
        first_triangles.len(),
        second_triangles,
        second_triangles.len(),
        first_vertices.len() / 3,
        triangles,
    );
}

// The boxes of the nodes and of the triangles.
pub fn glue_boxes(
    empty: bool,
    n: usize,
    nodes: usize,
    first_boxes: &[f64],
    first_around: &[f64],
    m: usize,
    others: usize,
    second_boxes: &[f64],
    second_around: &[f64],
    boxes: &mut [f64],
    around: &mut [f64],
)
    requires { (((n ≤ 65536) × (m ≤ 65536)) × ((nodes ≤ 131072) × (others ≤ 131072))) × ((((6 * nodes ≤ length first_boxes.now)
        × (6 * others ≤ length second_boxes.now))
        × ((6 * n ≤ length first_around.now) × (6 * m ≤ length second_around.now)))
        × (((6 * (cond empty 0 1 + (nodes + others)) ≤ length boxes.old) × (6 * n + 6 * m ≤ length around.old))
        × (empty ≡ false → (1 ≤ nodes) × (1 ≤ others)))) }
    ensures { (boxes.new ≡ over (cond empty []
        (box_numbers (union_of (box_at first_boxes.now 0) (box_at second_boxes.now 0))) ++
        (take (6 * nodes) first_boxes.now ++ take (6 * others) second_boxes.now)) boxes.old)
        × (around.new ≡ over (take (6 * n) first_around.now ++ take (6 * m) second_around.now)
        around.old) }
{
    joining::join_boxes(empty, first_boxes, nodes, second_boxes, others, boxes);
    joining::join_numbers(first_around, 6 * n, second_around, 6 * m, around);
}

// The nodes' words and the order.
pub fn glue_words(
    empty: bool,
    n: usize,
    nodes: usize,
    first_words: &[u32],
    first_order: &[u32],
    m: usize,
    others: usize,
    second_words: &[u32],
    second_order: &[u32],
    words: &mut [u32],
    order: &mut [u32],
)
    requires { (((nodes ≤ 131072) × (others ≤ 131072))
        × (((3 * nodes ≤ length first_words.now) × (3 * others ≤ length second_words.now))
        × ((n ≤ length first_order.now) × (m ≤ length second_order.now))))
        × (((3 * (cond empty 0 1 + (nodes + others)) ≤ length words.old) × (n + m ≤ length order.old))
        × ((SmallNodes first_words.now (cond empty 0 1) 0 nodes
        × SmallNodes second_words.now (cond empty 0 1 + nodes) n others) × SmallWords second_order.now m n)) }
    ensures { (words.new ≡ over (cond empty [] (1 ∷ (1 ∷ ((1 + nodes) ∷ []))) ++
        (moved_nodes (cond empty 0 1) 0 first_words.now nodes ++ moved_nodes (cond empty 0 1 + nodes) n
        second_words.now others)) words.old)
        × (order.new ≡ over (take n first_order.now ++ moved_up n (take m second_order.now))
        order.old) }
{
    joining::join_nodes(empty, first_words, nodes, second_words, others, n, words);
    joining::join_words(first_order, n, second_order, m, n, order);
}
