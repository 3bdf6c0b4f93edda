// One record of bytes to its line of bytes, on lent slices (document 01, 'Printed result').

#![tactic(auto)]

// The areas in which a record is answered.
pub mod areas;
// A ray and a shape from a record's numbers, and the cast at the shape.
mod shapes;
// The answer to a mesh.
mod meshes;
// The line that answers a record.
pub mod lines;
