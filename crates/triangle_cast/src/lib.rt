// The cast at a triangle.

#![tactic(auto)]

// What the parts of the cast hand on.
pub mod parts;
// The cast, whole and in the parts that loops over many triangles take.
pub mod triangle;
