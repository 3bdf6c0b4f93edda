ghost use Rattle.std.specs.Prelude.{◌≡◌, true, [], ◌∷◌, ℕ, ◌+◌, ◌-◌, ◌*◌, ◌<◌, ◌≤◌, length, get_or, take};
ghost use Rattle.lists.specs.Lists.{range, count, every, flat_map};
ghost use Rattle.tree_check.specs.Sound.{leaf_sound, branch_sound, node_sound};
ghost use Rattle.tree_check.specs.Marks.{once, places, second_mark, marked, Inside};

use crate::marks;

// Whether a leaf is not empty and does not end past n.
#[tactic(auto, unfolding(crate::specs::Sound::leaf_sound))]
fn leaf_sound(n: usize, start: usize, count: usize) -> bool
    requires { (start < 4294967296) × (count < 4294967296) }
    ensures { result ≡ leaf_sound n start count }
{
    if count == 0 {
        return false;
    }
    start + count <= n
}

// Whether a branch's children differ, lie above it and below the node count.
#[tactic(auto, unfolding(crate::specs::Sound::branch_sound))]
fn branch_sound(nodes: usize, node: usize, left: usize, right: usize) -> bool
    ensures { result ≡ branch_sound nodes node left right }
{
    if left == right {
        return false;
    }
    if left <= node {
        return false;
    }
    if left >= nodes {
        return false;
    }
    if right <= node {
        return false;
    }
    right < nodes
}

// Whether a node is a sound leaf or a sound branch.
#[tactic(auto, unfolding(crate::specs::Sound::node_sound))]
fn node_sound(n: usize, nodes: usize, words: &[u32], node: usize) -> bool
    requires { 3 * node + 3 ≤ length words.now }
    ensures { result ≡ node_sound n nodes words.now node }
{
    let kind = words[3 * node];
    let first = words[3 * node + 1] as usize;
    let second = words[3 * node + 2] as usize;
    if kind == 0 {
        return leaf_sound(n, first, second);
    }
    if kind == 1 {
        return branch_sound(nodes, node, first, second);
    }
    false
}

// Whether all nodes are.
pub fn nodes_sound(n: usize, nodes: usize, words: &[u32]) -> bool
    requires { 3 * nodes ≤ length words.now }
    ensures { result ≡ every (node_sound n nodes words.now) (range 0 nodes) }
{
    (0..nodes).all(|node| node_sound(n, nodes, words, node))
}

// The second number that a node of a kind marks.
#[tactic(auto, unfolding(crate::specs::Marks::second_mark))]
fn second_mark(kind: usize, n: usize, first: usize, second: usize) -> usize
    requires { (n < 4294967296) × ((first < 4294967296) × (second < 4294967296)) }
    ensures { result ≡ second_mark kind n first second }
{
    if kind == 1 {
        return second;
    }
    n + (first + second)
}

// One more of each of two numbers.
fn mark_pair(first: usize, second: usize, marks: &mut [u32])
    requires { ((first < length marks.old) × (second < length marks.old)) × ((get_or marks.old first 0 < 4294967290)
        × (get_or marks.old second 0 < 4294967290)) }
    ensures { (x : ℕ) → get_or marks.new x 0 ≡ count x (first ∷ (second ∷ [])) + get_or marks.old x 0 }
{
    marks::bump(marks, first);
    marks::bump(marks, second);
}

// One more of each number that a node marks, if it is of the kind.
fn mark_node(kind: usize, n: usize, words: &[u32], node: usize, marks: &mut [u32])
    requires { ((3 * node + 3 ≤ length words.now) × ((n < 4294967296) × (3 * n ≤ length marks.old)))
        × ((Inside kind n words.now node) × ((x : ℕ) → x < 3 * n → get_or marks.old x 0 < 4294967290)) }
    ensures { (x : ℕ) → get_or marks.new x 0 ≡ count x (marked kind n words.now node) + get_or marks.old
        x 0 }
{
    if words[3 * node] as usize != kind {
        return;
    }
    let first = words[3 * node + 1] as usize;
    let second = words[3 * node + 2] as usize;
    mark_pair(first, second_mark(kind, n, first, second), marks);
}

// Counts what all nodes of the kind mark.
fn mark_nodes(kind: usize, n: usize, nodes: usize, words: &[u32], marks: &mut [u32])
    requires { ((3 * nodes ≤ length words.now) × ((n ≤ 65536) × ((nodes ≤ 2 * n) × (3 * n ≤ length marks.old))))
        × ((i : ℕ) → i < nodes → Inside kind n words.now i) }
    ensures { (x : ℕ) → x < 3 * n → get_or marks.new x 0 ≡ count x
        (flat_map (marked kind n words.now) (range 0 nodes)) }
{
    marks::clear(marks, 3 * n);
    for node in 0..nodes {
        mark_node(kind, n, words, node, marks);
    }
}

// Whether each node but the first is named once.
#[tactic(auto, using(crate::proofs::OnceEach::marked_once_is, crate::proofs::Sound::branches_inside))]
pub fn named_once(n: usize, nodes: usize, words: &[u32], marks: &mut [u32]) -> bool
    requires { ((3 * nodes ≤ length words.now) × ((n ≤ 65536) × ((nodes ≤ 2 * n) × (3 * n ≤ length marks.old))))
        × (every (node_sound n nodes words.now) (range 0 nodes) ≡ true) }
    ensures { result ≡ every (once (flat_map (marked 1 n words.now) (range 0 nodes))) (range 1 (nodes - 1)) }
{
    mark_nodes(1, n, nodes, words, marks);
    marks::all_once(marks, 1, nodes)
}

// Whether each order place lies in one leaf, with no leaf's places walked.
pub fn placed_once(n: usize, nodes: usize, words: &[u32], marks: &mut [u32]) -> bool
    requires { ((3 * nodes ≤ length words.now) × ((n ≤ 65536) × ((nodes ≤ 2 * n) × (3 * n ≤ length marks.old))))
        × (every (node_sound n nodes words.now) (range 0 nodes) ≡ true) }
    ensures { result ≡ every (once (flat_map (places words.now) (range 0 nodes))) (range 0 n) }
{
    mark_nodes(0, n, nodes, words, marks);
    marks::all_in_one_leaf(n, marks)
}

// One more of the triangle at an order place, if it is one.
fn mark_place(n: usize, order: &[u32], p: usize, marks: &mut [u32])
    requires { ((p < length order.now) × (n ≤ length marks.old)) × ((x : ℕ) → x < n → get_or marks.old x 0 < 4294967295) }
    ensures { (x : ℕ) → x < n → get_or marks.new x 0 ≡ count x (get_or order.now p 0 ∷ []) + get_or
        marks.old x 0 }
{
    let x = order[p] as usize;
    if x < n {
        marks::bump(marks, x);
    }
}

// Counts the triangles of the first n order places.
fn mark_places(n: usize, order: &[u32], marks: &mut [u32])
    requires { (n ≤ length order.now) × ((n ≤ 65536) × (n ≤ length marks.old)) }
    ensures { (x : ℕ) → x < n → get_or marks.new x 0 ≡ count x (take n order.now) }
{
    marks::clear(marks, n);
    for p in 0..n {
        mark_place(n, order, p, marks);
    }
}

// Whether each triangle stands in the order once.
#[tactic(auto, using(crate::proofs::OnceEach::marked_once_is, lists::proofs::EveryLaws::every_whole))]
pub fn ordered_once(n: usize, order: &[u32], marks: &mut [u32]) -> bool
    requires { (n ≤ length order.now) × ((n ≤ 65536) × (n ≤ length marks.old)) }
    ensures { result ≡ every (once (take n order.now)) (range 0 n) }
{
    mark_places(n, order, marks);
    marks::all_once(marks, 0, n)
}
