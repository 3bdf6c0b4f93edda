// The first root of a cubic between 0 and 1.

#![tactic(auto)]

// A cubic through four values.
pub mod polynomial;
// Where a cubic turns.
pub mod turns;
// An interval halved.
pub mod halving;
// The search for the first root.
pub mod roots;
