// The query of a box over any tree: the touching triangles, ascending (document 01, 'Mesh hit and its tree').

#![tactic(auto)]

// The walk without a limit, and its triangles ascending.
pub mod walk;
// The public call.
pub mod query;
