// The cast at a distance grid.

#![tactic(auto)]

// The value and the hit at a distance of the ray.
pub mod hits;
// The walk over the cells, and the cast.
pub mod walk;
