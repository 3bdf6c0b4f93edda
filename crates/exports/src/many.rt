ghost use Rattle.tree.specs.Mesh.{mesh};
ghost use Rattle.tree.specs.Layout.{tree_of};
ghost use Rattle.many_casts.specs.Many.{places, returned_many};
ghost use Rattle.exports.specs.ManyRays.{MeshManyCall, ExactManyCall};

use many_casts::{at_exact, at_mesh};

// The mesh cast of many rays, eight numbers each, with a code, four numbers and an index a ray as result slices.
// Refusals 2 to 4 are tested once; until they have let the call pass every area is unchanged, and then the list and the stack may hold
// anything. A ray that is refused has its number as its code.
// What is read at a ray's places is what the single call tells, and demand 3 holds of it: `MeshManyCall` (specs/ManyRays.antt).
pub fn probe_ray_mesh_many(
    rays: &[f64],
    vertices: &[f64],
    triangles: &[u32],
    pose: &[f64],
    nodes: usize,
    node_boxes: &[f64],
    triangle_boxes: &[f64],
    node_words: &[u32],
    order: &[u32],
    list: &mut [u32],
    stack: &mut [u32],
    codes: &mut [u32],
    hits: &mut [f64],
    indices: &mut [u32],
) -> u32
    ensures { MeshManyCall rays.now (mesh vertices.now triangles.now) pose.now
        (tree_of nodes node_boxes.now triangle_boxes.now node_words.now order.now)
        list.old list.new stack.old stack.new
        (places codes.old hits.old indices.old)
        (returned_many result (places codes.new hits.new indices.new)) }
{
    at_mesh::ray_mesh_many(
        rays,
        vertices,
        triangles,
        pose,
        nodes,
        node_boxes,
        triangle_boxes,
        node_words,
        order,
        list,
        stack,
        codes,
        hits,
        indices,
    )
}

// The exact cast of many rays, in the same way, without a list.
// At the mesh's own vertices, with any tree that passes the check and no NaN at a corner of the mesh, what is read at a ray's places keeps
// what the call without a tree promises: `ExactManyCall` (specs/ManyRays.antt).
pub fn probe_ray_mesh_exact_many(
    rays: &[f64],
    vertices: &[f64],
    triangles: &[u32],
    pose: &[f64],
    nodes: usize,
    node_boxes: &[f64],
    triangle_boxes: &[f64],
    node_words: &[u32],
    order: &[u32],
    stack: &mut [u32],
    codes: &mut [u32],
    hits: &mut [f64],
    indices: &mut [u32],
) -> u32
    ensures { ExactManyCall rays.now (mesh vertices.now triangles.now) pose.now
        (tree_of nodes node_boxes.now triangle_boxes.now node_words.now order.now)
        stack.old stack.new
        (places codes.old hits.old indices.old)
        (returned_many result (places codes.new hits.new indices.new)) }
{
    at_exact::ray_mesh_exact_many(
        rays,
        vertices,
        triangles,
        pose,
        nodes,
        node_boxes,
        triangle_boxes,
        node_words,
        order,
        stack,
        codes,
        hits,
        indices,
    )
}
