ghost use Rattle.std.specs.Prelude.{◌≡◌, true, ◌+◌, ◌*◌, ◌<◌, ◌≤◌, length};
ghost use Rattle.tree.specs.Mesh.{lengths_admitted, thirds, corner_index, corners_inside, corner_at, corners_of, triangle_box};

use crate::layout;
use geometry::aabb::Aabb;
use vectors::vec3::Vec3;

// Whether the lengths are three to a vertex and to a triangle, and not past 65,536 of either.
pub fn lengths_admitted(vertices: usize, triangles: usize) -> bool
    ensures { result ≡ lengths_admitted vertices triangles }
{
    if vertices % 3 != 0 {
        return false;
    }
    if vertices > 196608 {
        return false;
    }
    if triangles % 3 != 0 {
        return false;
    }
    triangles <= 196608
}

// The vertex index at a corner, 0, 1 or 2, of a triangle.
fn corner_index(triangles: &[u32], index: usize, corner: usize) -> usize
    requires { (3 * index + 3 ≤ length triangles.now) × (corner < 3) }
    ensures { result ≡ corner_index triangles.now index corner }
{
    layout::word_at(triangles, 3 * index + corner)
}

// Whether a triangle's three indices are below a vertex count.
pub fn corners_inside(count: usize, triangles: &[u32], index: usize) -> bool
    requires { 3 * index + 3 ≤ length triangles.now }
    ensures { result ≡ corners_inside count triangles.now index }
{
    let first = corner_index(triangles, index, 0);
    if first >= count {
        return false;
    }
    let second = corner_index(triangles, index, 1);
    if second >= count {
        return false;
    }
    let third = corner_index(triangles, index, 2);
    third < count
}

// A corner, 0, 1 or 2, of a triangle whose indices are below the vertex count.
fn corner_at(vertices: &[f64], triangles: &[u32], index: usize, corner: usize) -> Vec3
    requires { (3 * index + 3 ≤ length triangles.now)
        × ((corner < 3) × (3 * corner_index triangles.now index corner + 3 ≤ length vertices.now)) }
    ensures { result ≡ corner_at vertices.now triangles.now index corner }
{
    let vertex = corner_index(triangles, index, corner);
    layout::vector_at(vertices, 3 * vertex)
}

// The three corners of such a triangle.
pub fn corners_of(vertices: &[f64], triangles: &[u32], index: usize) -> [Vec3; 3]
    requires { (3 * index + 3 ≤ length triangles.now)
        × (corners_inside (thirds (length vertices.now)) triangles.now index ≡ true) }
    ensures { result ≡ corners_of vertices.now triangles.now index }
{
    [
        corner_at(vertices, triangles, index, 0),
        corner_at(vertices, triangles, index, 1),
        corner_at(vertices, triangles, index, 2),
    ]
}

// The box of such a triangle's corners, valid or not.
pub fn triangle_box(vertices: &[f64], triangles: &[u32], index: usize) -> Aabb
    requires { (3 * index + 3 ≤ length triangles.now)
        × (corners_inside (thirds (length vertices.now)) triangles.now index ≡ true) }
    ensures { result ≡ triangle_box vertices.now triangles.now index }
{
    Aabb::of_corners(corners_of(vertices, triangles, index))
}
