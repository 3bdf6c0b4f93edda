// The cast at a height grid (document 01, 'Grid hits').

#![tactic(auto)]

// Field, the grid without its heights: which are admitted, and the vertices.
pub mod field;
// Grid, an admitted grid with its heights.
pub mod grid;
// The range of cells that a box covers on one axis.
pub mod cells;
// The cells that a box visits.
pub mod visited;
// The cells that a pass goes over without looking at their triangles.
mod apart;
// What was found so far, and one more triangle.
mod nearer;
// The pass over the cells: what is listed, and the nearest hit so far.
pub mod pass;
// The public call.
pub mod cast;
