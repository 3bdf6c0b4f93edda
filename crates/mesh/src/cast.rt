ghost use Rattle.std.specs.Prelude.{◌≡◌, true, false, ◌&&◌, ◌*◌, leb, length};
ghost use Rattle.geometry.specs.Segment.{ray_admitted};
ghost use Rattle.nearest_hit.specs.Nearest.{says_indexed};
ghost use Rattle.tree.specs.Mesh.{thirds, lengths_admitted, mesh};
ghost use Rattle.tree.specs.Layout.{tree_of};
ghost use Rattle.tree_walk.specs.Areas.{WalkRoom};
ghost use Rattle.mesh.specs.MeshCast.{mesh_cast};
ghost use Rattle.mesh.specs.Demand3.{Casts};

use crate::candidates;
use casts::answer::Refusal;
use geometry::ray::Ray;
use nearest_hit::nearest::IndexedCast;
use tree::mesh;
use tree_query::{query, walk};

// Whether the lengths of the mesh and of the vertices to cast at, and the node count, are admitted.
pub fn shape_admitted(vertices: usize, triangles: usize, pose: usize, nodes: usize) -> bool
    ensures { result ≡ (lengths_admitted vertices triangles && (lengths_admitted pose triangles && leb nodes (2 * thirds triangles))) }
{
    if !mesh::lengths_admitted(vertices, triangles) {
        return false;
    }
    if !mesh::lengths_admitted(pose, triangles) {
        return false;
    }
    nodes <= 2 * (triangles / 3)
}

// The cast once refusals 1 to 4 have let it pass; the list and the stack may hold anything afterwards. It is compiled into each of its
// users.
#[inline(always)]
pub fn mesh_cast(
    ray: Ray,
    triangles: &[u32],
    pose: &[f64],
    nodes: usize,
    node_boxes: &[f64],
    triangle_boxes: &[f64],
    node_words: &[u32],
    order: &[u32],
    list: &mut [u32],
    stack: &mut [u32],
) -> IndexedCast
    requires { (ray_admitted ray ≡ true) × (WalkRoom (thirds (length triangles.now))
        (tree_of nodes node_boxes.now triangle_boxes.now node_words.now order.now) list.old stack.old) }
    ensures { says_indexed result ≡ mesh_cast ray (record { vertices = pose.now; triangles = triangles.now })
        pose.now (tree_of nodes node_boxes.now triangle_boxes.now node_words.now
        order.now) }
{
    let end = ray.segment_end();
    if !end.is_finite() {
        return Err(Refusal::Overflow);
    }
    // With both ends finite the box is valid, so that it needs no test.
    let bounds = ray.segment_box(end);
    let count = triangles.len() / 3;
    let walked = walk::gather(
        bounds,
        count,
        nodes,
        node_boxes,
        triangle_boxes,
        node_words,
        order,
        list,
        stack,
    );
    let Some(found) = walked else {
        return Err(Refusal::OutOfBounds);
    };
    if found == 0 {
        return Ok(None);
    }
    candidates::nearest_of(ray, pose, triangles, list, found)
}

// The nearest triangle that a ray hits, of those that any tree lists for its segment's box.
// The list and the stack are work areas: until refusals 1 to 4 have let the call pass they are unchanged, and then they may hold anything.
// What `Casts` says last is demand 3: at the mesh's own vertices, with any tree that passes the check.
pub fn ray_mesh(
    ray: Ray,
    vertices: &[f64],
    triangles: &[u32],
    pose: &[f64],
    nodes: usize,
    node_boxes: &[f64],
    triangle_boxes: &[f64],
    node_words: &[u32],
    order: &[u32],
    list: &mut [u32],
    stack: &mut [u32],
) -> IndexedCast
    ensures { Casts ray (mesh vertices.now triangles.now) pose.now
        (tree_of nodes node_boxes.now triangle_boxes.now node_words.now order.now)
        list.old list.new stack.old stack.new (says_indexed result) }
{
    if !ray.validate() {
        return Err(Refusal::InvalidInput);
    }
    if !shape_admitted(vertices.len(), triangles.len(), pose.len(), nodes) {
        return Err(Refusal::BadShape);
    }
    let count = triangles.len() / 3;
    if !query::walk_fits(
        count,
        nodes,
        node_boxes,
        triangle_boxes,
        node_words,
        order,
        list.len(),
        stack.len(),
    ) {
        return Err(Refusal::NoRoom);
    }
    if pose.len() != vertices.len() {
        return Err(Refusal::WrongPose);
    }
    mesh_cast(
        ray,
        triangles,
        pose,
        nodes,
        node_boxes,
        triangle_boxes,
        node_words,
        order,
        list,
        stack,
    )
}
