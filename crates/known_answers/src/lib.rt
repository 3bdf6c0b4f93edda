// Document 01's marked answers K1 to K15, a table over the definitions in specs/ and one check of it in proofs/; and beside it a computed
// example of each promise. No code.

#![tactic(auto)]
