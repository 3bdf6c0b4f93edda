// The answer of a cast, what casts share, and the cast at a plane.

#![tactic(auto)]

// Cast, the answer, and the numbers of the refusals.
pub mod answer;
// What the casts share: the range of a distance, and the side that a normal faces.
pub mod surface;
// The cast at a plane.
pub mod plane;
