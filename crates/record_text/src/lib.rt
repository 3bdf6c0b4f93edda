// The texts of a line, stored in a lent area (document 01, 'Printed result').

#![tactic(auto)]

// Numbers as text.
pub mod text;
// An answer as text.
pub mod answers;
