// A distance grid: which are admitted, its box, and the cell at a point.

#![tactic(auto)]

// Grid, which are admitted, and its box.
pub mod grid;
// DistanceGrid, a grid and its values.
pub mod field;
// The cell at a point of the grid.
pub mod places;

// The values at a cell's nodes.
pub mod faces;
// The steps of a sample.
mod steps;
// The value and the gradient at a point.
pub mod sampling;
// The value alone.
pub mod valued;
