// The exact cast at one triangle, in any direction, on a grid of 2^-15 mm.

#![tactic(auto)]

// Whole numbers from floats.
pub mod grid;
// The ray as a line on the grid.
pub mod view;
// A corner as the line sees it.
mod seen;
// The cross of a triangle's edges.
pub mod normal;
// The distance of a triangle in a plane at right angles to an axis.
mod axis_plane;
// The distance of a triangle that the line crosses.
mod crossing;
// The cast.
pub mod cast;
