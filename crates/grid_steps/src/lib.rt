// How a ray goes through a grid's box: the distances at which it lies in the box, and its steps from cell to cell.

#![tactic(auto)]

// The slab interval of a ray in a box.
pub mod interval;
// The cell at a point of the ray, and where the ray leaves it.
pub mod cells;
