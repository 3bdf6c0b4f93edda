// The cast of a ray in any direction at a mesh within 8,192 mm, without a tree: a none is certain.

#![tactic(auto)]

// The segment's box.
pub mod bounds;
// The pass over the triangles, without a normal.
pub mod noted;
// The public call.
pub mod cast;
