ghost use Rattle.std.specs.Prelude.{◌≡◌, true, ◌≤◌, length, IfSome};
ghost use Rattle.geometry.specs.Segment.{ray_admitted};
ghost use Rattle.nearest_hit.specs.Nearest.{says_indexed};
ghost use Rattle.tree.specs.Mesh.{lengths_admitted, mesh};
ghost use Rattle.mesh_plain.specs.Boxes.{BoxesHold, Coded};
ghost use Rattle.mesh_plain.specs.PlainCast.{over_triangles, plain_cast, ray_mesh_plain, AgreesWithTrees};

use crate::boxes;
use casts::answer::Refusal;
use geometry::aabb::Aabb;
use geometry::ray::Ray;
use nearest_hit::deferred;
use nearest_hit::nearest::IndexedCast;
use tree::mesh as triangle_mesh;

// All triangles in one pass; the normal is the winner's alone. An index past the vertices ends it with 5, whatever was found before it.
fn cast_all(
    ray: Ray,
    bounds: Aabb,
    vertices: &[f64],
    triangles: &[u32],
    codes: Option<&[u64]>,
) -> IndexedCast
    requires { (length triangles.now ≤ 196608) × ((BoxesHold (mesh vertices.now triangles.now))
        × (IfSome codes (λ told. Coded bounds vertices.now told.now))) }
    ensures { says_indexed result ≡ over_triangles ray bounds (mesh vertices.now triangles.now) }
{
    let limit = vertices.len() / 3;
    let count = triangles.len() / 3;
    let mut best = Ok(None);
    for i in 0..count {
        if !triangle_mesh::corners_inside(limit, triangles, i) {
            return Err(Refusal::OutOfBounds);
        }
        if boxes::triangle_touches(codes, bounds, vertices, triangles, i) {
            let corners = triangle_mesh::corners_of(vertices, triangles, i);
            best = deferred::next_deferred(best, i as u32, ray, corners);
        }
    }
    deferred::with_normal(ray, best)
}

// The answer over all triangles. Of up to 32 vertices it is told first on which sides of the segment's box they lie.
fn over_triangles(ray: Ray, bounds: Aabb, vertices: &[f64], triangles: &[u32]) -> IndexedCast
    requires { length triangles.now ≤ 196608 }
    ensures { says_indexed result ≡ over_triangles ray bounds (mesh vertices.now triangles.now) }
{
    if !boxes::boxes_hold(vertices, triangles) {
        return Err(Refusal::OutOfBounds);
    }
    let mut codes = [0u64; 32];
    let told = boxes::coded(&mut codes, bounds, vertices);
    cast_all(ray, bounds, vertices, triangles, told)
}

// The cast once refusals 1 and 2 have let it pass.
pub fn plain_cast(ray: Ray, vertices: &[f64], triangles: &[u32]) -> IndexedCast
    requires { (ray_admitted ray ≡ true) × (lengths_admitted (length vertices.now) (length triangles.now) ≡ true) }
    ensures { says_indexed result ≡ plain_cast ray (mesh vertices.now triangles.now) }
{
    let end = ray.segment_end();
    if !end.is_finite() {
        return Err(Refusal::Overflow);
    }
    // With both ends finite the box is valid, so that it needs no test.
    let bounds = ray.segment_box(end);
    over_triangles(ray, bounds, vertices, triangles)
}

// The nearest triangle that a ray hits, of those whose box touches its segment's box. No area is lent.
// The second clause: the tree cast at the mesh's own vertices gives the same answer, with every tree that passes the check.
pub fn ray_mesh_plain(ray: Ray, vertices: &[f64], triangles: &[u32]) -> IndexedCast
    ensures result_value { says_indexed result ≡ ray_mesh_plain ray (mesh vertices.now triangles.now) }
    ensures agrees_with_trees { AgreesWithTrees ray (mesh vertices.now triangles.now) (says_indexed result) }
{
    if !ray.validate() {
        return Err(Refusal::InvalidInput);
    }
    if !triangle_mesh::lengths_admitted(vertices.len(), triangles.len()) {
        return Err(Refusal::BadShape);
    }
    plain_cast(ray, vertices, triangles)
}
