// A drill's answer as a number and an index, and many drills in one call, each drill's answer at its own places of the result slices.

#![tactic(auto)]

// A drill's answer as the number and the index that a call leaves.
pub mod single;
// A drill in the slice of drills, and the places of its answer.
pub mod places;
// Many drills at one mesh, through its tree.
pub mod at_mesh;
