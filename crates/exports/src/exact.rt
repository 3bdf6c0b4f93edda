ghost use Rattle.casts.specs.Answer.{number_of};
ghost use Rattle.std.specs.Prelude.{◌≡◌};
ghost use Rattle.tree.specs.Mesh.{mesh};
ghost use Rattle.tree.specs.Layout.{tree_of};
ghost use Rattle.mesh_hits.specs.HitArea.{hit_area};
ghost use Rattle.results.specs.Results.{ray_from};
ghost use Rattle.exports.specs.ExactResults.{short_exact, ExactPlainCall, NumbersCall};
ghost use Rattle.exports.specs.Calls.{ExactCall, ExactListingCall, listed_returned};

use casts::answer::Refusal;
use exact_hits::listing;
use exact_triangle::view;
use geometry::ray::Ray;
use mesh::cast as mesh_cast;
use mesh_exact::cast;
use tree::mesh as triangle_mesh;
use tree_exact::{cast as tree_cast, numbers};
use vectors::vec3::Vec3;

// The number where a result slice is too short: 1, 12 of the ray and 2, whose test is handed over, go before 3.
fn short_exact(ray: Ray, shape: bool) -> Refusal
    ensures { number_of result ≡ short_exact ray shape }
{
    if !ray.validate() {
        return Refusal::InvalidInput;
    }
    if !view::admitted(ray) {
        return Refusal::OutOfRange;
    }
    if !shape {
        return Refusal::BadShape;
    }
    Refusal::NoRoom
}

// The exact cast at a mesh, without a tree and without a work area: the first point of the segment in a triangle, on a grid of 2^-15 mm.
// Where the result slices are long enough, what is read back from the number and the slices is certain of the whole mesh.
pub fn probe_ray_mesh_exact_plain(
    origin_x: f64,
    origin_y: f64,
    origin_z: f64,
    direction_x: f64,
    direction_y: f64,
    direction_z: f64,
    max_distance: f64,
    near_distance: f64,
    vertices: &[f64],
    triangles: &[u32],
    hit: &mut [f64],
    index: &mut [u32],
) -> u32
    ensures { ExactPlainCall (ray_from origin_x origin_y origin_z direction_x direction_y direction_z max_distance
        near_distance)
        (mesh vertices.now triangles.now) hit.old index.old
        (record { number = result; hit = hit.new; index = index.new }) }
{
    let ray = Ray {
        origin: Vec3 {
            x: origin_x,
            y: origin_y,
            z: origin_z,
        },
        direction: Vec3 {
            x: direction_x,
            y: direction_y,
            z: direction_z,
        },
        max_distance,
        near: near_distance,
    };
    if hit.len() < 4 {
        return short_exact(
            ray,
            triangle_mesh::lengths_admitted(vertices.len(), triangles.len()),
        )
        .into();
    }
    if index.len() < 1 {
        return short_exact(
            ray,
            triangle_mesh::lengths_admitted(vertices.len(), triangles.len()),
        )
        .into();
    }
    let found = cast::ray_mesh_exact_plain(ray, vertices, triangles);
    results::put_indexed(found, hit, index)
}

// The same through a tree, by a walk that passes over what the line cannot meet.
// The stack is a work area: unchanged until the result slices and refusals 1, 12 of the ray and 2 to 4 have let the call pass, and then it
// may hold anything.
// The third clause: a hit, through any tree and at any vertices, is a true hit of its triangle there; and at the mesh's own vertices, with
// any tree that passes the check and no NaN at a corner of the mesh, the call promises what the one without a tree promises.
pub fn probe_ray_mesh_exact(
    origin_x: f64,
    origin_y: f64,
    origin_z: f64,
    direction_x: f64,
    direction_y: f64,
    direction_z: f64,
    max_distance: f64,
    near_distance: f64,
    vertices: &[f64],
    triangles: &[u32],
    pose: &[f64],
    nodes: usize,
    node_boxes: &[f64],
    triangle_boxes: &[f64],
    node_words: &[u32],
    order: &[u32],
    stack: &mut [u32],
    hit: &mut [f64],
    index: &mut [u32],
) -> u32
    ensures { ExactCall (ray_from origin_x origin_y origin_z direction_x direction_y direction_z max_distance
        near_distance)
        (mesh vertices.now triangles.now) pose.now
        (tree_of nodes node_boxes.now triangle_boxes.now node_words.now order.now)
        stack.old stack.new hit.old index.old
        (record { number = result; hit = hit.new; index = index.new }) }
{
    let ray = Ray {
        origin: Vec3 {
            x: origin_x,
            y: origin_y,
            z: origin_z,
        },
        direction: Vec3 {
            x: direction_x,
            y: direction_y,
            z: direction_z,
        },
        max_distance,
        near: near_distance,
    };
    if hit.len() < 4 {
        return short_exact(
            ray,
            mesh_cast::shape_admitted(vertices.len(), triangles.len(), pose.len(), nodes),
        )
        .into();
    }
    if index.len() < 1 {
        return short_exact(
            ray,
            mesh_cast::shape_admitted(vertices.len(), triangles.len(), pose.len(), nodes),
        )
        .into();
    }
    let found = tree_cast::ray_mesh_exact(
        ray,
        vertices,
        triangles,
        pose,
        nodes,
        node_boxes,
        triangle_boxes,
        node_words,
        order,
        stack,
    );
    results::put_indexed(found, hit, index)
}

// Every exact hit of a ray at a mesh, through a tree: indices and numbers are the hit area, and the count is written into found.
// The list and the stack are work areas: unchanged until the place of the count and refusals 1, 12 of the ray and 2 to 4 have let the call
// pass, and then they may hold anything.
// What `ExactListingCall` says last is what a user finds, where the place of the count is there.
pub fn probe_ray_mesh_exact_all(
    origin_x: f64,
    origin_y: f64,
    origin_z: f64,
    direction_x: f64,
    direction_y: f64,
    direction_z: f64,
    max_distance: f64,
    near_distance: f64,
    vertices: &[f64],
    triangles: &[u32],
    pose: &[f64],
    nodes: usize,
    node_boxes: &[f64],
    triangle_boxes: &[f64],
    node_words: &[u32],
    order: &[u32],
    list: &mut [u32],
    stack: &mut [u32],
    indices: &mut [u32],
    numbers: &mut [f64],
    found: &mut [usize],
) -> u32
    ensures { ExactListingCall (ray_from origin_x origin_y origin_z direction_x direction_y direction_z max_distance
        near_distance)
        (mesh vertices.now triangles.now) pose.now
        (tree_of nodes node_boxes.now triangle_boxes.now node_words.now order.now)
        list.old list.new stack.old stack.new
        (hit_area indices.old numbers.old) found.old
        (listed_returned result found.new (hit_area indices.new numbers.new)) }
{
    let ray = Ray {
        origin: Vec3 {
            x: origin_x,
            y: origin_y,
            z: origin_z,
        },
        direction: Vec3 {
            x: direction_x,
            y: direction_y,
            z: direction_z,
        },
        max_distance,
        near: near_distance,
    };
    if found.len() < 1 {
        return short_exact(
            ray,
            mesh_cast::shape_admitted(vertices.len(), triangles.len(), pose.len(), nodes),
        )
        .into();
    }
    let listed = listing::ray_mesh_exact_all(
        ray,
        vertices,
        triangles,
        pose,
        nodes,
        node_boxes,
        triangle_boxes,
        node_words,
        order,
        list,
        stack,
        indices,
        numbers,
    );
    results::put_count(listed, found)
}

// Whether every corner of every triangle is three numbers: 'yes' or 'no', as the tree check tells it. A mesh is asked once.
pub fn probe_mesh_has_numbers(vertices: &[f64], triangles: &[u32]) -> u32
    ensures { NumbersCall (mesh vertices.now triangles.now) result }
{
    if numbers::has_numbers(vertices, triangles) {
        return results::YES;
    }
    results::NO
}
