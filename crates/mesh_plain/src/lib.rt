// The cast of a ray at a mesh without a tree (document 02, M-100): for parts of few triangles.

#![tactic(auto)]

// Which triangles have valid boxes, and which boxes touch.
pub mod boxes;
// The public call.
pub mod cast;
