ghost use Rattle.std.specs.Prelude.{◌≡◌, ◌≤◌, true, length};
ghost use Rattle.tree.specs.Mesh.{mesh, triangles_fit};
ghost use Rattle.mesh_exact.specs.Bounds.{AllWithin};
ghost use Rattle.mesh_drill.specs.MeshDrill.{mesh_read};

use exact_triangle::cast as triangle;
use mesh_plain::boxes;
use tree::mesh as triangle_mesh;

// Whether the indices of each triangle are below the vertex count: where all vertices are in range, its box is valid then.
fn all_inside(vertices: &[f64], triangles: &[u32]) -> bool
    requires { (length triangles.now ≤ 196608) × (AllWithin vertices.now) }
    ensures { result ≡ triangles_fit (mesh vertices.now triangles.now) }
{
    let limit = vertices.len() / 3;
    let count = triangles.len() / 3;
    for i in 0..count {
        if !triangle_mesh::corners_inside(limit, triangles, i) {
            return false;
        }
    }
    true
}

// Whether each triangle has a valid box: within says that all vertices are in range.
pub fn all_fit(within: bool, vertices: &[f64], triangles: &[u32]) -> bool
    requires { (length triangles.now ≤ 196608) × (within ≡ true → AllWithin vertices.now) }
    ensures { result ≡ triangles_fit (mesh vertices.now triangles.now) }
{
    if within {
        return all_inside(vertices, triangles);
    }
    boxes::all_fit(vertices, triangles)
}

// Whether every corner of every triangle is within 8,192 mm.
fn each_read(vertices: &[f64], triangles: &[u32]) -> bool
    requires { (length triangles.now ≤ 196608) × (triangles_fit (mesh vertices.now triangles.now) ≡ true) }
    ensures { result ≡ mesh_read (mesh vertices.now triangles.now) }
{
    let count = triangles.len() / 3;
    for i in 0..count {
        if !triangle::corners_read(triangle_mesh::corners_of(vertices, triangles, i)) {
            return false;
        }
    }
    true
}

// The same; where all vertices are in range, it is.
pub fn all_read(within: bool, vertices: &[f64], triangles: &[u32]) -> bool
    requires { (length triangles.now ≤ 196608) × ((within ≡ true → AllWithin vertices.now)
        × (triangles_fit (mesh vertices.now triangles.now) ≡ true)) }
    ensures { result ≡ mesh_read (mesh vertices.now triangles.now) }
{
    if within {
        return true;
    }
    each_read(vertices, triangles)
}
