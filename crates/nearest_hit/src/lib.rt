// The nearest of many triangles.

#![tactic(auto)]

// In ascending order, by the answers.
pub mod nearest;
// In whatever order they come, by what decides it.
pub mod summary;

// One more triangle, and the winner's normal.
pub mod deferred;
