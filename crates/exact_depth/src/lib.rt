// The first point of a segment that lies in a closed triangle, over whole numbers, as the segment's line sees the triangle.

#![tactic(auto)]

// A point, a triangle as the line sees it, and a depth on the line.
pub mod projection;
// A plane that the line lies in.
pub mod plane;

// A depth on the line, and what of it lies on the segment.
pub mod wide_depth;
// The first point in a plane that the line lies in.
mod coplanar_point;
// Corners on one side of the line.
mod sides;
// The sign of a determinant.
mod orientation;
// Where a line passes a triangle, by signs alone.
pub mod incidence;
// The public call.
pub mod depth;
