// The bytes of a record, on lent slices (document 01, 'Printed result').
//
// A record is a u32, the length of the rest, and its fields. Their places, by version:
//
// | field                                      | version 1 | version 2 | version 3 |
// |--------------------------------------------|-----------|-----------|-----------|
// | bytes of a float                           | 8         | 8         | 4         |
// | length of the rest, a u32                  | 0         | 0         | 0         |
// | version, a byte                            | 4         | 4         | 4         |
// | kind, a byte                               | 5         | 5         | 5         |
// | origin, three floats                       | 6         | 6         | 6         |
// | direction, three floats                    | 30        | 30        | 18        |
// | maximum, a float                           | 54        | 54        | 30        |
// | near, a float                              | means 0   | 62        | 34        |
// | the shape's counts, each a u32             | 62        | 70        | 38        |
// | the shape's floats, then its u32 indices   | behind the counts     |||
//
// | kind              | counts                      | floats                 | indices |
// |-------------------|-----------------------------|------------------------|---------|
// | 1 plane           |                             | normal, distance       |         |
// | 2 triangle        |                             | three corners          |         |
// | 3 mesh            | vertices v, triangles t     | 3v                     | 3t      |
// | 4 height grid     | rows r, columns c           | two spacings, rc       |         |
// | 5 distance grid   | sides x, y, z               | origin, spacing, xyz   |         |

#![tactic(auto)]

// The kinds of shape.
pub mod kind;
// Which records are well formed, and how many numbers they have.
pub mod shape;
// Where a record ends in a stream.
pub mod stream;
