ghost use Rattle.std.specs.Prelude.{◌≡◌, ◌+◌, ◌*◌, ◌<◌, ◌≤◌, length};
ghost use Rattle.tree.specs.Mesh.{thirds, mesh};
ghost use Rattle.tree.specs.Layout.{tree_of};
ghost use Rattle.tree_query.specs.Query.{walk_fits};
ghost use Rattle.many_casts.specs.Many.{ray_at, places, answer_at, answers_of, mesh_answer, returned_many, ManyCall};
ghost use Rattle.many_casts.specs.Ready.{Ready};

use crate::{admitted, places};
use casts::answer::Refusal;
use mesh::cast;
use tree_query::query;

// One ray's cast, its answer at its places.
fn cast_at(
    index: usize,
    rays: &[f64],
    vertices: &[f64],
    triangles: &[u32],
    pose: &[f64],
    nodes: usize,
    node_boxes: &[f64],
    triangle_boxes: &[f64],
    node_words: &[u32],
    order: &[u32],
    list: &mut [u32],
    stack: &mut [u32],
    codes: &mut [u32],
    hits: &mut [f64],
    indices: &mut [u32],
)
    requires { ((8 * index + 8 ≤ length rays.now)
        × ((index < length codes.old) × ((4 * index + 4 ≤ length hits.old) × (index < length indices.old))))
        × (Ready (mesh vertices.now triangles.now) pose.now
        (tree_of nodes node_boxes.now triangle_boxes.now node_words.now order.now)
        (walk_fits (thirds (length triangles.now))
        (tree_of nodes node_boxes.now triangle_boxes.now node_words.now order.now) (length list.old) (length
        stack.old))) }
    ensures { places codes.new hits.new indices.new
        ≡ answer_at (mesh_answer (mesh vertices.now triangles.now) pose.now
        (tree_of nodes node_boxes.now triangle_boxes.now node_words.now order.now)
        (length list.old) (length stack.old) (ray_at rays.now index)) index
        (places codes.old hits.old indices.old) }
{
    let ray = places::ray_at(rays, index);
    let found = admitted::cast_ray(
        ray,
        vertices,
        triangles,
        pose,
        nodes,
        node_boxes,
        triangle_boxes,
        node_words,
        order,
        list,
        stack,
    );
    places::put_at(found, index, codes, hits, indices);
}

// The first rays' casts.
fn cast_each(
    count: usize,
    rays: &[f64],
    vertices: &[f64],
    triangles: &[u32],
    pose: &[f64],
    nodes: usize,
    node_boxes: &[f64],
    triangle_boxes: &[f64],
    node_words: &[u32],
    order: &[u32],
    list: &mut [u32],
    stack: &mut [u32],
    codes: &mut [u32],
    hits: &mut [f64],
    indices: &mut [u32],
)
    requires { ((8 * count ≤ length rays.now)
        × ((count ≤ length codes.old) × ((4 * count ≤ length hits.old) × (count ≤ length indices.old))))
        × (Ready (mesh vertices.now triangles.now) pose.now
        (tree_of nodes node_boxes.now triangle_boxes.now node_words.now order.now)
        (walk_fits (thirds (length triangles.now))
        (tree_of nodes node_boxes.now triangle_boxes.now node_words.now order.now) (length list.old) (length
        stack.old))) }
    ensures { places codes.new hits.new indices.new
        ≡ answers_of (mesh_answer (mesh vertices.now triangles.now) pose.now
        (tree_of nodes node_boxes.now triangle_boxes.now node_words.now order.now)
        (length list.old) (length stack.old)) rays.now count
        (places codes.old hits.old indices.old) }
{
    for i in 0..count {
        cast_at(
            i,
            rays,
            vertices,
            triangles,
            pose,
            nodes,
            node_boxes,
            triangle_boxes,
            node_words,
            order,
            list,
            stack,
            codes,
            hits,
            indices,
        );
    }
}

// The mesh cast of many rays. Refusals 2 to 4 are tested once; until they have let the call pass every area is unchanged, and then the list
// and the stack may hold anything.
// What `ManyCall` says last: what is read at a ray's places is what the single call leaves there.
pub fn ray_mesh_many(
    rays: &[f64],
    vertices: &[f64],
    triangles: &[u32],
    pose: &[f64],
    nodes: usize,
    node_boxes: &[f64],
    triangle_boxes: &[f64],
    node_words: &[u32],
    order: &[u32],
    list: &mut [u32],
    stack: &mut [u32],
    codes: &mut [u32],
    hits: &mut [f64],
    indices: &mut [u32],
) -> u32
    ensures { ManyCall rays.now (mesh vertices.now triangles.now) pose.now
        (tree_of nodes node_boxes.now triangle_boxes.now node_words.now order.now)
        list.old list.new stack.old stack.new
        (places codes.old hits.old indices.old)
        (returned_many result (places codes.new hits.new indices.new)) }
{
    if rays.len() % 8 != 0 {
        return Refusal::BadShape.into();
    }
    if !cast::shape_admitted(vertices.len(), triangles.len(), pose.len(), nodes) {
        return Refusal::BadShape.into();
    }
    if !query::walk_fits(
        triangles.len() / 3,
        nodes,
        node_boxes,
        triangle_boxes,
        node_words,
        order,
        list.len(),
        stack.len(),
    ) {
        return Refusal::NoRoom.into();
    }
    let count = rays.len() / 8;
    if !places::places_fit(count, codes.len(), hits.len(), indices.len()) {
        return Refusal::NoRoom.into();
    }
    if pose.len() != vertices.len() {
        return Refusal::WrongPose.into();
    }
    cast_each(
        count,
        rays,
        vertices,
        triangles,
        pose,
        nodes,
        node_boxes,
        triangle_boxes,
        node_words,
        order,
        list,
        stack,
        codes,
        hits,
        indices,
    );
    results::DONE
}
