// What holds of the casts at the grids beside their contracts: specs/ and proofs/. No code.

#![tactic(auto)]
