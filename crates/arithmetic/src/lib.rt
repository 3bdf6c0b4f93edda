// The arithmetic below all geometry, after IEEE 754 (document 01, 'Arithmetic under the geometry').

#![tactic(auto)]

// Finite, absolute value, sign, clamp.
pub mod basic;
// The float just below.
pub mod below;
// Minimum and maximum.
pub mod extremes;
// The square root.
pub mod square_root;
// Floor, round, and a whole number from a float.
pub mod rounding;
// totalOrder.
pub mod ordering;
// A float times the power of two that another one tells.
pub mod scaling;
