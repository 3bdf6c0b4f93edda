// The build of a mesh's box tree in lent areas (document 01, 'Mesh hit and its tree').

#![tactic(auto)]

// The public call.
pub mod build;
// The recursion over a range of triangles.
mod nodes;
