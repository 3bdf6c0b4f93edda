// Vectors as structs of f64 by value (document 01, 'Arithmetic under the geometry').

#![tactic(auto)]

// The constant that the thresholds of the casts share.
pub mod numbers;

// Vec3 and its operations.
pub mod vec3;
