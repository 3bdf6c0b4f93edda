// The walk of a box over any tree (document 01, 'Mesh hit and its tree'), without a limit, and under a limit of nodes (document 02, M-110).

#![tactic(auto)]

// What is done at one node.
pub mod step;
// The triangles of a leaf, listed without a jump for each.
pub mod few;
// The walk over all nodes, which tells the nodes that it spent.
pub mod within;
// The walk without a limit, which tests both children of a branch when it opens it.
pub mod ahead;
