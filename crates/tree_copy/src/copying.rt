ghost use Rattle.std.specs.Prelude.{◌≡◌, ◌+◌, ◌*◌, ◌<◌, ◌≤◌, length, take};
ghost use Rattle.std.proofs.lemmas.List.Edits.{sets};
ghost use Rattle.tree_copy.specs.Moved.{moved_up, moved_node, moved_nodes};
ghost use Rattle.tree_copy.specs.Sizes.{SmallWords, SmallNode, SmallNodes};

use tree::{layout, writing};

// The first numbers of a slice, from a place of the area on.
pub fn copy_numbers(from: &[f64], count: usize, area: &mut [f64], place: usize)
    requires { (count ≤ length from.now) × (place + count ≤ length area.old) }
    ensures { area.new ≡ sets area.old place (take count from.now) }
{
    for i in 0..count {
        area[place + i] = from[i];
    }
}

// The first words of a slice, moved up, from a place of the area on.
pub fn copy_words(from: &[u32], count: usize, up: usize, area: &mut [u32], place: usize)
    requires { ((count ≤ length from.now) × (place + count ≤ length area.old)) × (SmallWords from.now count up) }
    ensures { area.new ≡ sets area.old place (moved_up up (take count from.now)) }
{
    for i in 0..count {
        let word = layout::word_at(from, i) + up;
        area[place + i] = word as u32;
    }
}

// A node's words, moved up: a leaf's start by the places before its tree, a branch's children by the nodes.
fn copy_node(
    words: &[u32],
    node: usize,
    nodes: usize,
    places: usize,
    area: &mut [u32],
    place: usize,
)
    requires { ((3 * node + 3 ≤ length words.now) × (place + 3 ≤ length area.old)) × (SmallNode words.now nodes places node) }
    ensures { area.new ≡ sets area.old place (moved_node nodes places words.now node) }
{
    let kind = words[3 * node];
    let first = layout::word_at(words, 3 * node + 1);
    let second = layout::word_at(words, 3 * node + 2);
    if kind == 0 {
        writing::put_words(area, place, kind, first + places, second);
        return;
    }
    writing::put_words(area, place, kind, first + nodes, second + nodes);
}

// Those of the first nodes, one after another.
pub fn copy_nodes(
    words: &[u32],
    count: usize,
    nodes: usize,
    places: usize,
    area: &mut [u32],
    place: usize,
)
    requires { ((3 * count ≤ length words.now) × (place + 3 * count ≤ length area.old)) × (SmallNodes words.now nodes places count) }
    ensures { area.new ≡ sets area.old place (moved_nodes nodes places words.now count) }
{
    for i in 0..count {
        copy_node(words, i, nodes, places, area, place + 3 * i);
    }
}
