// Many rays in one call: the mesh cast and the exact cast, each ray's answer at the ray's own places of the result slices.

#![tactic(auto)]

// A ray in the slice of rays, and the places of its answer.
pub mod places;
// The mesh cast of one ray, past the tests of the mesh and its tree.
mod admitted;
// The mesh cast.
pub mod at_mesh;
// The exact cast of one ray, past those tests.
mod admitted_exact;
// The exact cast.
pub mod at_exact;
