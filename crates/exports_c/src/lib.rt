// The symbols for C, C++, Rust and Python. Each calls the function of its name in `exports`, and has that function's clauses.
// tools/exports.py writes these files from crates/exports/src; edit those.
#![tactic(auto)]

// The version, and the casts at a plane, a triangle and the two grids.
pub mod shapes;
// The same casts of a ray with a near distance.
pub mod near;
// The casts at a plane and a triangle whose ray and shape are slices of numbers.
pub mod slices;
// All hits along a ray.
pub mod listings;
// The mesh cast, build, query and tree check.
pub mod meshes;
// The mesh cast without a tree.
pub mod plain;
// The exact cast at a mesh, without a tree and through one.
pub mod exact;
// Many rays at a mesh in one call: the mesh cast and the exact cast.
pub mod many;
// The drill at a mesh: without a tree, through one, and many drills in one call.
pub mod drills;
// The cast at heights known only within ranges.
pub mod ranges;
// The cast at a cabinet of many parts.
pub mod cabinets;
// The merge of two boards.
pub mod boards;
// Records of version 2 as version 3, and back.
pub mod conversions;
