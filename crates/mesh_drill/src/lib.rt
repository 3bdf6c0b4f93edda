// Whether a drill, a closed, flat-ended cylinder about a ray's segment, touches a mesh, and the first triangle that it touches.

#![tactic(auto)]

// What a drill answers.
pub mod answer;
// The radius, the numbers of a drill on the grid, and its box.
pub mod cylinder;
// What is asked of all triangles first.
pub mod whole;
// The pass over the triangles.
pub mod pass;
// The drill at a mesh without a tree.
pub mod plain;
// The same through a tree.
pub mod through;
