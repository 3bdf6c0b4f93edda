ghost use Rattle.std.specs.Prelude.{◌≡◌, false, cond, [], ◌∷◌, ◌++◌, ◌+◌, ◌*◌, ◌≤◌, length, take};
ghost use Rattle.geometry.specs.Box.{union_of};
ghost use Rattle.tree.specs.Layout.{box_at, box_numbers};
ghost use Rattle.lists.specs.Lists.{over};
ghost use Rattle.tree_copy.specs.Moved.{moved_up, moved_nodes};
ghost use Rattle.tree_copy.specs.Sizes.{SmallWords, SmallNodes};

use crate::{copying, root};

// The first numbers of one slice and then of another, over the front of an area.
pub fn join_numbers(first: &[f64], m: usize, second: &[f64], n: usize, area: &mut [f64])
    requires { ((m ≤ length first.now) × (n ≤ length second.now)) × (m + n ≤ length area.old) }
    ensures { area.new ≡ over (take m first.now ++ take n second.now) area.old }
{
    copying::copy_numbers(first, m, area, 0);
    copying::copy_numbers(second, n, area, m);
}

// The first words of one slice and then of another, the second's moved up.
pub fn join_words(first: &[u32], m: usize, second: &[u32], n: usize, up: usize, area: &mut [u32])
    requires { (((m ≤ length first.now) × (n ≤ length second.now)) × (m + n ≤ length area.old)) × (SmallWords second.now n up) }
    ensures { area.new ≡ over (take m first.now ++ moved_up up (take n second.now))
        area.old }
{
    copying::copy_words(first, m, 0, area, 0);
    copying::copy_words(second, n, up, area, m);
}

// The boxes of the root, of the first tree's nodes and of the second's.
pub fn join_boxes(empty: bool, first: &[f64], m: usize, second: &[f64], n: usize, area: &mut [f64])
    requires { (((6 * m ≤ length first.now) × (6 * n ≤ length second.now)) × (6 * (cond empty 0 1 + (m + n)) ≤ length area.old))
        × (((m ≤ 131072) × (n ≤ 131072)) × (empty ≡ false → (1 ≤ m) × (1 ≤ n))) }
    ensures { area.new ≡ over (cond empty []
        (box_numbers (union_of (box_at first.now 0) (box_at second.now 0))) ++
        (take (6 * m) first.now ++ take (6 * n) second.now)) area.old }
{
    let roots = root::put_root_box(empty, first, second, area);
    copying::copy_numbers(first, 6 * m, area, 6 * roots);
    copying::copy_numbers(second, 6 * n, area, 6 * (roots + m));
}

// Their words, children and places moved up.
pub fn join_nodes(
    empty: bool,
    first: &[u32],
    m: usize,
    second: &[u32],
    n: usize,
    places: usize,
    area: &mut [u32],
)
    requires { (((3 * m ≤ length first.now) × (3 * n ≤ length second.now)) × (3 * (cond empty 0 1 + (m + n)) ≤ length area.old))
        × (((m ≤ 131072) × (n ≤ 131072)) × (SmallNodes first.now (cond empty 0 1) 0 m
        × SmallNodes second.now (cond empty 0 1 + m) places n)) }
    ensures { area.new ≡ over (cond empty [] (1 ∷ (1 ∷ ((1 + m) ∷ []))) ++
        (moved_nodes (cond empty 0 1) 0 first.now m ++ moved_nodes (cond empty 0 1 + m) places second.now n))
        area.old }
{
    let roots = root::put_root_words(empty, m, area);
    copying::copy_nodes(first, m, roots, 0, area, 3 * roots);
    copying::copy_nodes(second, n, roots + m, places, area, 3 * (roots + m));
}
