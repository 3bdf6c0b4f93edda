ghost use Rattle.std.specs.Prelude.{◌≡◌};
ghost use Rattle.tree.specs.Mesh.{mesh};
ghost use Rattle.results.specs.Results.{ray_from};
ghost use Rattle.exports.specs.Plain.{plain_returned, ReturnedByTrees};

use casts::answer::Refusal;
use mesh_plain::cast;
use tree::mesh as triangle_mesh;

// The mesh cast without a tree, and without a work area.
// The second clause: what the mesh cast through any tree that passes the check would tell is the same.
pub fn probe_ray_mesh_plain(
    origin_x: f64,
    origin_y: f64,
    origin_z: f64,
    direction_x: f64,
    direction_y: f64,
    direction_z: f64,
    max_distance: f64,
    near_distance: f64,
    vertices: &[f64],
    triangles: &[u32],
    hit: &mut [f64],
    index: &mut [u32],
) -> u32
    ensures index_after { record { number = result; hit = hit.new; index = index.new }
        ≡ plain_returned (ray_from origin_x origin_y origin_z direction_x direction_y direction_z max_distance near_distance)
        (mesh vertices.now triangles.now) hit.old index.old }
    ensures returned_by_trees { ReturnedByTrees (ray_from origin_x origin_y origin_z direction_x direction_y direction_z max_distance
        near_distance) (mesh vertices.now triangles.now) hit.old index.old
        (record { number = result; hit = hit.new; index = index.new }) }
{
    let ray = results::ray_from(
        origin_x,
        origin_y,
        origin_z,
        direction_x,
        direction_y,
        direction_z,
        max_distance,
        near_distance,
    );
    if !ray.validate() {
        return Refusal::InvalidInput.into();
    }
    if !triangle_mesh::lengths_admitted(vertices.len(), triangles.len()) {
        return Refusal::BadShape.into();
    }
    if hit.len() < 4 {
        return Refusal::NoRoom.into();
    }
    if index.len() < 1 {
        return Refusal::NoRoom.into();
    }
    let found = cast::plain_cast(ray, vertices, triangles);
    results::put_indexed(found, hit, index)
}
