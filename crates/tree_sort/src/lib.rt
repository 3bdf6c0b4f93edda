// The sort of a range of triangles along an axis, in the lent order and a work area.
// A function with a `requires` (lengths of the areas) is no public call, and each caller shows the demand.

#![tactic(auto)]

// A merge sort that takes runs as they are.
pub mod sorting;

// At the half, or behind the keys below a middle one.
pub mod cutting;

// Two sorted parts merged, and a short list sorted by inserting.
pub mod merging;

// A range parted at a place.
pub mod selecting;
