// Hits along a ray sorted by depth, then by index (document 02, M-111).

#![tactic(auto)]

// The sort of two areas at once.
pub mod order;

// Which of two hits stands first.
pub mod ahead;
