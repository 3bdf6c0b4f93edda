// The passes over the parts of a cabinet (document 02, M-110).

#![tactic(auto)]

// One part of a pass.
mod step;
// A pass over all parts.
pub mod pass;
