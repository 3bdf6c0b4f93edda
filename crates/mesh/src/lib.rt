// The cast of a ray at a mesh through its box tree (document 01, 'Mesh hit and its tree').

#![tactic(auto)]

// The nearest of the listed triangles.
pub mod candidates;
// The public call.
pub mod cast;
