ghost use Rattle.std.specs.Prelude.{◌≡◌, true};
ghost use Rattle.tree_exact.specs.Culling.{LiesApart};

use exact_triangle::cast as triangle;
use geometry::aabb::Aabb;
use mesh_plain::boxes;
use vectors::vec3::Vec3;

// Whether a triangle is in range and its box apart from the segment's, reach: what a yes means is the clause.
pub fn lies_apart(corners: [Vec3; 3], reach: Aabb) -> bool
    ensures { result ≡ true → LiesApart corners reach }
{
    if boxes::corners_touch(corners, reach) {
        return false;
    }
    triangle::corners_read(corners)
}
