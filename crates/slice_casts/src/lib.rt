// The casts at a plane and at a triangle whose ray and shape are slices of their numbers: a caller who has them in memory hands over
// addresses.

#![tactic(auto)]

// The ray, the plane and the corners in such slices.
pub mod numbers;
// The cast at a plane.
pub mod at_plane;
// The cast at a triangle.
pub mod at_triangle;
