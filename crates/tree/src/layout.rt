ghost use Rattle.std.specs.Prelude.{◌≡◌, ◌+◌, ◌*◌, ◌<◌, ◌≤◌, length};
ghost use Rattle.tree.specs.Layout.{word_at, vector_at, box_at, all_long, tree_lengths};

use geometry::aabb::Aabb;
use vectors::vec3::Vec3;

// The word at a place, as an index.
pub fn word_at(words: &[u32], place: usize) -> usize
    requires { place < length words.now }
    ensures { result ≡ word_at words.now place }
{
    words[place] as usize
}

// The vector whose three numbers begin at a place.
pub fn vector_at(numbers: &[f64], place: usize) -> Vec3
    requires { place + 3 ≤ length numbers.now }
    ensures { result ≡ vector_at numbers.now place }
{
    Vec3 {
        x: numbers[place],
        y: numbers[place + 1],
        z: numbers[place + 2],
    }
}

// The box at an index of an area of boxes.
pub fn box_at(boxes: &[f64], index: usize) -> Aabb
    requires { 6 * index + 6 ≤ length boxes.now }
    ensures { result ≡ box_at boxes.now index }
{
    let place = 6 * index;
    Aabb {
        min: vector_at(boxes, place),
        max: vector_at(boxes, place + 3),
    }
}

// Whether areas of these lengths are as long as stated for a tree of n triangles.
pub fn lengths_fit(
    n: usize,
    node_boxes: usize,
    triangle_boxes: usize,
    node_words: usize,
    order: usize,
) -> bool
    requires { n ≤ 65536 }
    ensures { result ≡ all_long (tree_lengths n node_boxes triangle_boxes node_words order) }
{
    if node_boxes < 12 * n {
        return false;
    }
    if triangle_boxes < 6 * n {
        return false;
    }
    if node_words < 6 * n {
        return false;
    }
    n <= order
}
