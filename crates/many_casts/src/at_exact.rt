ghost use Rattle.std.specs.Prelude.{◌≡◌, ◌+◌, ◌*◌, ◌<◌, ◌≤◌, ◌&&◌, leb, length};
ghost use Rattle.tree.specs.Mesh.{thirds, mesh};
ghost use Rattle.tree.specs.Layout.{tree_of};
ghost use Rattle.tree_query.specs.Query.{tree_fits};
ghost use Rattle.many_casts.specs.Many.{ray_at, places, answer_at, answers_of, exact_answer, returned_many, ManyExactCall};
ghost use Rattle.many_casts.specs.Ready.{Ready};

use crate::{admitted_exact, places};
use casts::answer::Refusal;
use mesh::cast;
use tree_exact::cast as exact_cast;

// One ray's cast, its answer at its places.
// `at_mesh` has the same shape with a list beside the stack and another promise: a function over both would carry both contracts.
fn cast_at(
    index: usize,
    rays: &[f64],
    vertices: &[f64],
    triangles: &[u32],
    pose: &[f64],
    nodes: usize,
    node_boxes: &[f64],
    triangle_boxes: &[f64],
    node_words: &[u32],
    order: &[u32],
    stack: &mut [u32],
    codes: &mut [u32],
    hits: &mut [f64],
    indices: &mut [u32],
)
    requires { ((8 * index + 8 ≤ length rays.now)
        × ((index < length codes.old) × ((4 * index + 4 ≤ length hits.old) × (index < length indices.old))))
        × (Ready (mesh vertices.now triangles.now) pose.now
        (tree_of nodes node_boxes.now triangle_boxes.now node_words.now order.now)
        (tree_fits (thirds (length triangles.now))
        (tree_of nodes node_boxes.now triangle_boxes.now node_words.now order.now)
        && leb (nodes + 1) (length stack.old))) }
    ensures { places codes.new hits.new indices.new
        ≡ answer_at (exact_answer (mesh vertices.now triangles.now) pose.now
        (tree_of nodes node_boxes.now triangle_boxes.now node_words.now order.now)
        (length stack.old) (ray_at rays.now index)) index
        (places codes.old hits.old indices.old) }
{
    let ray = places::ray_at(rays, index);
    let found = admitted_exact::cast_ray(
        ray,
        vertices,
        triangles,
        pose,
        nodes,
        node_boxes,
        triangle_boxes,
        node_words,
        order,
        stack,
    );
    places::put_at(found, index, codes, hits, indices);
}

// The first rays' casts.
fn cast_each(
    count: usize,
    rays: &[f64],
    vertices: &[f64],
    triangles: &[u32],
    pose: &[f64],
    nodes: usize,
    node_boxes: &[f64],
    triangle_boxes: &[f64],
    node_words: &[u32],
    order: &[u32],
    stack: &mut [u32],
    codes: &mut [u32],
    hits: &mut [f64],
    indices: &mut [u32],
)
    requires { ((8 * count ≤ length rays.now)
        × ((count ≤ length codes.old) × ((4 * count ≤ length hits.old) × (count ≤ length indices.old))))
        × (Ready (mesh vertices.now triangles.now) pose.now
        (tree_of nodes node_boxes.now triangle_boxes.now node_words.now order.now)
        (tree_fits (thirds (length triangles.now))
        (tree_of nodes node_boxes.now triangle_boxes.now node_words.now order.now)
        && leb (nodes + 1) (length stack.old))) }
    ensures { places codes.new hits.new indices.new
        ≡ answers_of (exact_answer (mesh vertices.now triangles.now) pose.now
        (tree_of nodes node_boxes.now triangle_boxes.now node_words.now order.now)
        (length stack.old)) rays.now count
        (places codes.old hits.old indices.old) }
{
    for i in 0..count {
        cast_at(
            i,
            rays,
            vertices,
            triangles,
            pose,
            nodes,
            node_boxes,
            triangle_boxes,
            node_words,
            order,
            stack,
            codes,
            hits,
            indices,
        );
    }
}

// The exact cast of many rays. Refusals 2 to 4 are tested once; until they have let the call pass every area is unchanged, and then the
// stack may hold anything.
// What `ManyExactCall` says last: what is read at a ray's places is what the single call leaves there.
pub fn ray_mesh_exact_many(
    rays: &[f64],
    vertices: &[f64],
    triangles: &[u32],
    pose: &[f64],
    nodes: usize,
    node_boxes: &[f64],
    triangle_boxes: &[f64],
    node_words: &[u32],
    order: &[u32],
    stack: &mut [u32],
    codes: &mut [u32],
    hits: &mut [f64],
    indices: &mut [u32],
) -> u32
    ensures { ManyExactCall rays.now (mesh vertices.now triangles.now) pose.now
        (tree_of nodes node_boxes.now triangle_boxes.now node_words.now order.now)
        stack.old stack.new
        (places codes.old hits.old indices.old)
        (returned_many result (places codes.new hits.new indices.new)) }
{
    if rays.len() % 8 != 0 {
        return Refusal::BadShape.into();
    }
    if !cast::shape_admitted(vertices.len(), triangles.len(), pose.len(), nodes) {
        return Refusal::BadShape.into();
    }
    if !exact_cast::room_fits(
        triangles.len() / 3,
        nodes,
        node_boxes,
        triangle_boxes,
        node_words,
        order,
        stack.len(),
    ) {
        return Refusal::NoRoom.into();
    }
    let count = rays.len() / 8;
    if !places::places_fit(count, codes.len(), hits.len(), indices.len()) {
        return Refusal::NoRoom.into();
    }
    if pose.len() != vertices.len() {
        return Refusal::WrongPose.into();
    }
    cast_each(
        count,
        rays,
        vertices,
        triangles,
        pose,
        nodes,
        node_boxes,
        triangle_boxes,
        node_words,
        order,
        stack,
        codes,
        hits,
        indices,
    );
    results::DONE
}
