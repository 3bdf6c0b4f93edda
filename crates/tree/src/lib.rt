// A mesh and its box tree in lent areas: the layout, readers of one vertex, box or node, and writers of boxes and of a node's words.
//
// For n triangles (document 01, 'Mesh hit and its tree'):
//
// | area           | element | length         | holds                                                        |
// |----------------|---------|----------------|--------------------------------------------------------------|
// | vertices       | f64     | 3 a vertex     | x, y, z                                                      |
// | triangles      | u32     | 3n             | three vertex indices                                         |
// | node boxes     | f64     | 12n            | six numbers a node: minimum x, y, z, then maximum x, y, z    |
// | triangle boxes | f64     | 6n             | six numbers a triangle, in the same order                    |
// | node words     | u32     | 6n             | three words a node: 0, start, count (leaf); 1, left, right   |
// | order          | u32     | n              | triangle indices; a leaf names a range of its places         |
// | work           | u32     | n              | the build's; holds anything afterwards                       |
// | list           | u32     | n              | the query's result; the mesh cast's work                     |
// | stack          | u32     | node count + 1 | the walk's; holds anything afterwards                        |
// | marks          | u32     | 3n             | the check's; holds anything afterwards                       |
//
// A longer area is admitted. A function of this crate with a `requires` (an index below a length) is no public call, and each caller shows
// the demand.

#![tactic(auto)]

// Readers of the areas.
pub mod layout;
// A mesh: which lengths are admitted, a triangle's corners and its box.
pub mod mesh;
// Boxes and a node's words written into areas, and the boxes of all triangles.
pub mod writing;
