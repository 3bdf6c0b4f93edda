// A range of triangles, told by their boxes: its box, the longest axis of its centres' extent, and which of two triangles stands first on
// it.
// A function with a `requires` (a range that is not empty, a box that is at hand) is no public call, and each caller shows the demand.

#![tactic(auto)]

// The box of a range written as a node's box.
pub mod hulls;
// Boxes, centres, extents and keys.
pub mod ranges;

// Whether no box of the tree sees the order of a range.
pub mod plain;
