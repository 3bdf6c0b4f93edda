// What the crates above share of lists: ranges, counts, tests of all, gathered lists, sorting by a test, and areas filled from the front.

#![tactic(auto)]

// An area filled from its front: zeros, 0, 1, 2, .., or another list.
pub mod fill;
