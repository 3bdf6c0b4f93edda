ghost use Rattle.std.specs.Prelude.{◌≡◌, true, ◌≤◌, length};
ghost use Rattle.nearest_hit.specs.Nearest.{says_indexed};
ghost use Rattle.tree.specs.Mesh.{lengths_admitted, mesh};
ghost use Rattle.mesh_exact.specs.GridCast.{over_triangles, ray_mesh_exact_plain};
ghost use Rattle.mesh_exact.specs.Noted.{Casts, Bounded};
ghost use Rattle.mesh_exact.specs.Certain.{CertainMesh};

use crate::{bounds, noted};
use casts::answer::Refusal;
use exact_triangle::view::View;
use exact_triangle::{cast as triangle, view};
use geometry::aabb::Aabb;
use geometry::ray::Ray;
use mesh_plain::boxes;
use nearest_hit::nearest;
use nearest_hit::nearest::IndexedCast;
use tree::mesh as triangle_mesh;

// The answer over all triangles; only the winner's normal is computed. Of up to 32 vertices it is computed first on which sides of the
// segment's box they lie.
fn over_triangles(
    ray: Ray,
    line: View,
    bounds: Aabb,
    vertices: &[f64],
    triangles: &[u32],
) -> IndexedCast
    requires { (length triangles.now ≤ 196608) × (Bounded ray line bounds) }
    ensures { says_indexed result ≡ over_triangles ray (mesh vertices.now triangles.now) }
{
    let within = bounds::all_within(vertices);
    if !noted::boxes_hold(within, vertices, triangles) {
        return Err(Refusal::OutOfBounds);
    }
    let mut codes = [0u64; 32];
    let coded = boxes::coded(&mut codes, bounds, vertices);
    let Some(winner) = noted::winner_of(line, bounds, vertices, triangles, within, coded)? else {
        return Ok(None);
    };
    let corners = triangle_mesh::corners_of(vertices, triangles, winner.index as usize);
    let hit = triangle::hit_on(ray, corners, winner.distance);
    nearest::next(Ok(None), winner.index, hit)
}

// The cast once refusals 1, 12 of the ray and 2 have let it pass.
pub fn exact_cast(ray: Ray, line: View, vertices: &[f64], triangles: &[u32]) -> IndexedCast
    requires { (Casts ray line) × (lengths_admitted (length vertices.now) (length triangles.now) ≡ true) }
    ensures { says_indexed result ≡ over_triangles ray (mesh vertices.now triangles.now) }
{
    over_triangles(ray, line, bounds::segment_box(ray), vertices, triangles)
}

// The first point of the segment that lies in a triangle of the mesh, sides and corners included, on the grid of 2^-15 mm.
// The second clause: a none is certain, and a hit's distance is the float nearest to the least depth of such a point.
pub fn ray_mesh_exact_plain(ray: Ray, vertices: &[f64], triangles: &[u32]) -> IndexedCast
    ensures result_value { says_indexed result ≡ ray_mesh_exact_plain ray (mesh vertices.now triangles.now) }
    ensures certain_mesh { CertainMesh ray (mesh vertices.now triangles.now) (says_indexed result) }
{
    if !ray.validate() {
        return Err(Refusal::InvalidInput);
    }
    let viewed = view::view_of(ray);
    let Some(line) = viewed else {
        return Err(Refusal::OutOfRange);
    };
    if !triangle_mesh::lengths_admitted(vertices.len(), triangles.len()) {
        return Err(Refusal::BadShape);
    }
    exact_cast(ray, line, vertices, triangles)
}
