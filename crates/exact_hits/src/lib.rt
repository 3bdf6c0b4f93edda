// All exact hits of a ray at a mesh through a tree, in order of depth.

#![tactic(auto)]

// The public call.
pub mod listing;

// The hits of a list of triangles, stored as they come, and their normals.
pub mod rows;
// The walk of the nodes whose box the line can meet.
pub mod walk;
