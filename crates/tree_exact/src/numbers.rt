ghost use Rattle.std.specs.Prelude.{◌≡◌, true, ◌+◌, ◌*◌, ◌≤◌, length};
ghost use Rattle.tree.specs.Mesh.{mesh};
ghost use Rattle.tree_exact.specs.Numbers.{NoNaN, numbers_in, corners_numbered, has_numbers};

use tree::mesh as triangle_mesh;
use vectors::vec3::Vec3;

// Whether the three are numbers.
fn numbers_in(v: Vec3) -> bool
    ensures { result ≡ numbers_in v }
{
    if v.x != v.x {
        return false;
    }
    if v.y != v.y {
        return false;
    }
    if v.z != v.z {
        return false;
    }
    true
}

// Whether the corners of a triangle are numbers.
fn corners_numbered(vertices: &[f64], triangles: &[u32], index: usize) -> bool
    requires { 3 * index + 3 ≤ length triangles.now }
    ensures { result ≡ corners_numbered (mesh vertices.now triangles.now) index }
{
    if !triangle_mesh::corners_inside(vertices.len() / 3, triangles, index) {
        return false;
    }
    let corners = triangle_mesh::corners_of(vertices, triangles, index);
    if !numbers_in(corners[0]) {
        return false;
    }
    if !numbers_in(corners[1]) {
        return false;
    }
    numbers_in(corners[2])
}

// Whether every corner of every triangle is three numbers: asked once for a mesh, as the check of its tree is. What a yes means is the
// second clause.
pub fn has_numbers(vertices: &[f64], triangles: &[u32]) -> bool
    ensures value { result ≡ has_numbers (mesh vertices.now triangles.now) }
    ensures no_nan { result ≡ true → NoNaN (mesh vertices.now triangles.now) }
{
    let count = triangles.len() / 3;
    for i in 0..count {
        if !corners_numbered(vertices, triangles, i) {
            return false;
        }
    }
    true
}
