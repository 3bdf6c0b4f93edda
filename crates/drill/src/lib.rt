// Whether a drill touches a triangle, decided by the signs of whole numbers of up to 384 digits.

#![tactic(auto)]

// Crosses, dots and the forms that the tests compare.
pub mod forms;
// The drill, and a corner from its axis.
pub mod corner;
// Triangles that are clear at once: past a cap, or to one side of the axis.
pub mod reject;
// The tests of corners and sides.
pub mod sides;
// The tests of the axis and of the caps.
pub mod inside;
// The decision.
pub mod touch;
