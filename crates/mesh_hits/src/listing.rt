ghost use Rattle.std.specs.Prelude.{◌≡◌, true, length};
ghost use Rattle.geometry.specs.Segment.{ray_admitted};
ghost use Rattle.tree.specs.Mesh.{thirds, mesh};
ghost use Rattle.tree.specs.Layout.{tree_of};
ghost use Rattle.tree_walk.specs.Areas.{WalkRoom};
ghost use Rattle.tree_query.specs.Query.{says_listed};
ghost use Rattle.mesh_hits.specs.HitArea.{hit_area};
ghost use Rattle.mesh_hits.specs.Listing.{mesh_listing};
ghost use Rattle.mesh_hits.specs.Promise.{Lists};

use crate::{places, sorted};
use casts::answer::Refusal;
use geometry::ray::Ray;
use mesh::cast;
use tree_query::query::Listed;
use tree_query::{query, walk};

// The listing once refusals 1 to 4 have let it pass; the list and the stack may hold anything afterwards.
fn mesh_listing(
    ray: Ray,
    triangles: &[u32],
    pose: &[f64],
    nodes: usize,
    node_boxes: &[f64],
    triangle_boxes: &[f64],
    node_words: &[u32],
    order: &[u32],
    list: &mut [u32],
    stack: &mut [u32],
    indices: &mut [u32],
    numbers: &mut [f64],
) -> Listed
    requires { (ray_admitted ray ≡ true) × (WalkRoom (thirds (length triangles.now))
        (tree_of nodes node_boxes.now triangle_boxes.now node_words.now order.now) list.old stack.old) }
    ensures { record { answer = says_listed result; area = hit_area indices.new numbers.new }
        ≡ mesh_listing ray triangles.now pose.now
        (tree_of nodes node_boxes.now triangle_boxes.now node_words.now order.now)
        (hit_area indices.old numbers.old) }
{
    let end = ray.segment_end();
    if !end.is_finite() {
        return places::refuse(Refusal::Overflow, indices, numbers);
    }
    // With both ends finite the box is valid, so that it needs no test.
    let bounds = ray.segment_box(end);
    let count = triangles.len() / 3;
    let walked = walk::gather(
        bounds,
        count,
        nodes,
        node_boxes,
        triangle_boxes,
        node_words,
        order,
        list,
        stack,
    );
    let Some(found) = walked else {
        return places::refuse(Refusal::OutOfBounds, indices, numbers);
    };
    sorted::list_hits(ray, pose, triangles, list, found, indices, numbers)
}

// Every triangle that a ray hits, of those that any tree lists for its segment's box, in order of depth: its index, and its distance and
// normal.
// The list and the stack are work areas: until refusals 1 to 4 have let the call pass they are unchanged, and then they may hold anything.
// The third clause is what a user finds: each hit once, in order of depth, the mesh cast's first, none exactly where that cast is none.
pub fn ray_mesh_all(
    ray: Ray,
    vertices: &[f64],
    triangles: &[u32],
    pose: &[f64],
    nodes: usize,
    node_boxes: &[f64],
    triangle_boxes: &[f64],
    node_words: &[u32],
    order: &[u32],
    list: &mut [u32],
    stack: &mut [u32],
    indices: &mut [u32],
    numbers: &mut [f64],
) -> Listed
    ensures { Lists ray (mesh vertices.now triangles.now) pose.now
        (tree_of nodes node_boxes.now triangle_boxes.now node_words.now order.now)
        list.old list.new stack.old stack.new
        (hit_area indices.old numbers.old)
        (record { answer = says_listed result; area = hit_area indices.new numbers.new }) }
{
    if !ray.validate() {
        return Err(Refusal::InvalidInput);
    }
    if !cast::shape_admitted(vertices.len(), triangles.len(), pose.len(), nodes) {
        return Err(Refusal::BadShape);
    }
    let count = triangles.len() / 3;
    if !query::walk_fits(
        count,
        nodes,
        node_boxes,
        triangle_boxes,
        node_words,
        order,
        list.len(),
        stack.len(),
    ) {
        return Err(Refusal::NoRoom);
    }
    if pose.len() != vertices.len() {
        return Err(Refusal::WrongPose);
    }
    mesh_listing(
        ray,
        triangles,
        pose,
        nodes,
        node_boxes,
        triangle_boxes,
        node_words,
        order,
        list,
        stack,
        indices,
        numbers,
    )
}
