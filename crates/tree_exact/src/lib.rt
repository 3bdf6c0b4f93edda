// The exact cast through a tree: the walk looks for the nearest hit and passes over what cannot change it.

#![tactic(auto)]

// A node that is opened.
pub mod node;

// Where a line can meet what lies in a box.
mod room;
// The test of a node's box.
pub mod boxes;
// Which child of a branch is taken first.
mod order;
// Whether a triangle's box is apart from the segment's.
mod apart;
// A ray far off a mesh.
pub mod root;
// The walk.
pub mod walk;
// The public call.
pub mod cast;
// Whether a mesh has numbers alone.
pub mod numbers;
