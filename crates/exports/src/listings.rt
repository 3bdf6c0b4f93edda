ghost use Rattle.tree.specs.Mesh.{mesh};
ghost use Rattle.tree.specs.Layout.{tree_of};
ghost use Rattle.mesh_hits.specs.HitArea.{hit_area};
ghost use Rattle.results.specs.Results.{ray_from};
ghost use Rattle.exports.specs.Calls.{ListingCall, listed_returned};

use geometry::ray::Ray;
use mesh_hits::listing;
use results::short;
use vectors::vec3::Vec3;

// Every hit of a ray at a mesh: indices and numbers are the hit area, and the count is written into found.
// The list and the stack are work areas: unchanged until the place of the count and refusals 1 to 4 have let the call pass, and then they
// may hold anything.
// What `ListingCall` says last is what a user finds, where the place of the count is there.
pub fn probe_ray_mesh_all(
    origin_x: f64,
    origin_y: f64,
    origin_z: f64,
    direction_x: f64,
    direction_y: f64,
    direction_z: f64,
    max_distance: f64,
    near_distance: f64,
    vertices: &[f64],
    triangles: &[u32],
    pose: &[f64],
    nodes: usize,
    node_boxes: &[f64],
    triangle_boxes: &[f64],
    node_words: &[u32],
    order: &[u32],
    list: &mut [u32],
    stack: &mut [u32],
    indices: &mut [u32],
    numbers: &mut [f64],
    found: &mut [usize],
) -> u32
    ensures { ListingCall (ray_from origin_x origin_y origin_z direction_x direction_y direction_z max_distance
        near_distance)
        (mesh vertices.now triangles.now) pose.now
        (tree_of nodes node_boxes.now triangle_boxes.now node_words.now order.now)
        list.old list.new stack.old stack.new
        (hit_area indices.old numbers.old) found.old
        (listed_returned result found.new (hit_area indices.new numbers.new)) }
{
    let ray = Ray {
        origin: Vec3 {
            x: origin_x,
            y: origin_y,
            z: origin_z,
        },
        direction: Vec3 {
            x: direction_x,
            y: direction_y,
            z: direction_z,
        },
        max_distance,
        near: near_distance,
    };
    if found.len() < 1 {
        return short::short_cast(ray, vertices.len(), triangles.len(), pose.len(), nodes);
    }
    let listed = listing::ray_mesh_all(
        ray,
        vertices,
        triangles,
        pose,
        nodes,
        node_boxes,
        triangle_boxes,
        node_words,
        order,
        list,
        stack,
        indices,
        numbers,
    );
    results::put_count(listed, found)
}
