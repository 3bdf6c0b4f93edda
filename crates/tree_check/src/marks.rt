ghost use Rattle.std.specs.Prelude.{◌≡◌, [], ◌∷◌, ℕ, ◌+◌, ◌-◌, ◌*◌, ◌<◌, ◌≤◌, length, get_or};
ghost use Rattle.lists.specs.Lists.{range, count, every};
ghost use Rattle.tree_check.specs.Marks.{marked_once, in_one_leaf};

use lists::fill;

// Zeros below end.
#[tactic(auto, using(crate::proofs::Counting::cleared_front))]
pub fn clear(marks: &mut [u32], end: usize)
    requires { end ≤ length marks.old }
    ensures { (x : ℕ) → x < end → get_or marks.new x 0 ≡ 0 }
{
    fill::zero_words(&mut marks[..end]);
}

// One more of x.
#[tactic(auto, using(crate::proofs::Counting::bumped))]
pub fn bump(marks: &mut [u32], x: usize)
    requires { (x < length marks.old) × (get_or marks.old x 0 < 4294967295) }
    ensures { (y : ℕ) → get_or marks.new y 0 ≡ count y (x ∷ []) + get_or marks.old y 0 }
{
    marks[x] += 1;
}

// Whether every mark from start on and below end is one.
pub fn all_once(marks: &[u32], start: usize, end: usize) -> bool
    requires { end ≤ length marks.now }
    ensures { result ≡ every (marked_once marks.now) (range start (end - start)) }
{
    (start..end).all(|x| marks[x] == 1)
}

// Whether one leaf holds each place below n, where the marks count how many begin at a place and, n further on, how many have ended before
// it.
pub fn all_in_one_leaf(n: usize, marks: &[u32]) -> bool
    requires { 2 * n ≤ length marks.now }
    ensures { result ≡ every (in_one_leaf n marks.now) (range 0 n) }
{
    let mut held: usize = 0;
    for p in 0..n {
        if held + marks[p] as usize != marks[n + p] as usize + 1 {
            return false;
        }
        held = 1;
    }
    true
}
