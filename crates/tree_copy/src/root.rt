ghost use Rattle.std.specs.Prelude.{◌≡◌, false, cond, ◌||◌, [], ◌∷◌, ◌+◌, ◌≤◌, eqb, length};
ghost use Rattle.std.proofs.lemmas.List.Edits.{sets};
ghost use Rattle.geometry.specs.Box.{union_of};
ghost use Rattle.tree.specs.Layout.{box_at, box_numbers};

use tree::{layout, writing};

// Whether one of two boards has no triangles.
pub fn one_empty(n: usize, m: usize) -> bool
    ensures { result ≡ (eqb n 0 || eqb m 0) }
{
    if n == 0 {
        return true;
    }
    m == 0
}

// The root's box, around both trees', and how many nodes it is: none where a board has no triangles.
pub fn put_root_box(empty: bool, first: &[f64], second: &[f64], area: &mut [f64]) -> usize
    requires { empty ≡ false → ((6 ≤ length first.now) × (6 ≤ length second.now)) × (6 ≤ length area.old) }
    ensures { (result ≡ cond empty 0 1) × (area.new
        ≡ sets area.old 0 (cond empty []
        (box_numbers (union_of (box_at first.now 0) (box_at second.now 0))))) }
{
    if empty {
        return 0;
    }
    let below = layout::box_at(first, 0);
    writing::put_box(area, 0, below.union(layout::box_at(second, 0)));
    1
}

// The root's words: a branch over both trees' first nodes.
pub fn put_root_words(empty: bool, m: usize, area: &mut [u32]) -> usize
    requires { (empty ≡ false → 3 ≤ length area.old) × (m ≤ 131072) }
    ensures { (result ≡ cond empty 0 1) × (area.new ≡ sets area.old 0 (cond empty [] (1 ∷ (1 ∷ ((1 + m) ∷ []))))) }
{
    if empty {
        return 0;
    }
    writing::put_words(area, 0, 1, 1, 1 + m);
    1
}
