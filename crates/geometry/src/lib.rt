// Boxes and rays as structs of f64 by value (document 01, 'Arithmetic under the geometry').

#![tactic(auto)]

// Aabb, the axis-aligned box.
pub mod aabb;
// Ray, its validation, and its segment.
pub mod ray;

// Which spacings are admitted.
pub mod spacing;
