// The triangle cast on whole millimetres: specs/ and proofs/. No code.

#![tactic(auto)]
