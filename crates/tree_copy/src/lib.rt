// What of two meshes and their trees is copied into one, the indices moved up, and the root over both (document 02, M-105).

#![tactic(auto)]

// Numbers, words and nodes from a place of an area on.
pub mod copying;
// Whether there is a root, its box and its words.
pub mod root;

// Each area over the front of a longer one, with a root before it.
mod joining;
// All areas of two boards.
pub mod gluing;
