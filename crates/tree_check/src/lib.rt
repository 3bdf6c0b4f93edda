// The tree check (document 01, 'Mesh hit and its tree'): yes, no or a refusal for any tree, whoever built it, in time linear in the
// triangles.

#![tactic(auto)]

// The boxes: equal to the vertices', valid, enclosing.
mod boxes;
// The public call.
pub mod check;

// The mark area, in which is counted.
mod marks;
// The tests of the node words and of the order.
pub mod words;
