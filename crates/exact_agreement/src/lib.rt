// The exact cast beside the mesh cast, where M-112 promises both: specs/ and proofs/. No code.

#![tactic(auto)]
