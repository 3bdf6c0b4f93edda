ghost use Rattle.std.specs.Prelude.{◌≡◌, ◌+◌, ◌*◌, ◌<◌, ◌≤◌, length};
ghost use Rattle.tree.specs.Mesh.{mesh};
ghost use Rattle.tree.specs.Layout.{tree_of};
ghost use Rattle.many_drills.specs.Many.{ray_at, radius_at, places, answer_at, answers_of, tree_answer, returned_many, ManyCall};

use crate::places;
use casts::answer::Refusal;
use mesh::cast;
use mesh_drill::through;
use tree_query::query;

// One drill's answer at its places; the list and the stack may hold anything afterwards.
fn drill_at(
    index: usize,
    drills: &[f64],
    vertices: &[f64],
    triangles: &[u32],
    nodes: usize,
    node_boxes: &[f64],
    triangle_boxes: &[f64],
    node_words: &[u32],
    order: &[u32],
    list: &mut [u32],
    stack: &mut [u32],
    codes: &mut [u32],
    indices: &mut [u32],
)
    requires { (9 * index + 9 ≤ length drills.now) × ((index < length codes.old) × (index < length indices.old)) }
    ensures { places codes.new indices.new
        ≡ answer_at (tree_answer (mesh vertices.now triangles.now)
        (tree_of nodes node_boxes.now triangle_boxes.now node_words.now order.now)
        (length list.old) (length stack.old)
        (ray_at drills.now index) (radius_at drills.now index)) index
        (places codes.old indices.old) }
{
    let ray = places::ray_at(drills, index);
    let radius = places::radius_at(drills, index);
    let found = through::drill_through(
        ray,
        radius,
        vertices,
        triangles,
        nodes,
        node_boxes,
        triangle_boxes,
        node_words,
        order,
        list,
        stack,
    );
    places::put_at(found, index, codes, indices);
}

// The first drills' answers.
fn drill_each(
    count: usize,
    drills: &[f64],
    vertices: &[f64],
    triangles: &[u32],
    nodes: usize,
    node_boxes: &[f64],
    triangle_boxes: &[f64],
    node_words: &[u32],
    order: &[u32],
    list: &mut [u32],
    stack: &mut [u32],
    codes: &mut [u32],
    indices: &mut [u32],
)
    requires { (9 * count ≤ length drills.now) × ((count ≤ length codes.old) × (count ≤ length indices.old)) }
    ensures { places codes.new indices.new
        ≡ answers_of (tree_answer (mesh vertices.now triangles.now)
        (tree_of nodes node_boxes.now triangle_boxes.now node_words.now order.now)
        (length list.old) (length stack.old)) drills.now count
        (places codes.old indices.old) }
{
    for i in 0..count {
        drill_at(
            i,
            drills,
            vertices,
            triangles,
            nodes,
            node_boxes,
            triangle_boxes,
            node_words,
            order,
            list,
            stack,
            codes,
            indices,
        );
    }
}

// Many drills at one mesh, through its tree. Refusals 2 and 3 are tested once; until they have let the call pass every area is unchanged,
// and then the list and the stack may hold anything. A drill that is refused has its number as its code.
// What `ManyCall` says last: what is read at a drill's places is what the single call leaves there.
pub fn drill_many(
    drills: &[f64],
    vertices: &[f64],
    triangles: &[u32],
    nodes: usize,
    node_boxes: &[f64],
    triangle_boxes: &[f64],
    node_words: &[u32],
    order: &[u32],
    list: &mut [u32],
    stack: &mut [u32],
    codes: &mut [u32],
    indices: &mut [u32],
) -> u32
    ensures { ManyCall drills.now (mesh vertices.now triangles.now)
        (tree_of nodes node_boxes.now triangle_boxes.now node_words.now order.now)
        list.old list.new stack.old stack.new
        (places codes.old indices.old)
        (returned_many result (places codes.new indices.new)) }
{
    if drills.len() % 9 != 0 {
        return Refusal::BadShape.into();
    }
    if !cast::shape_admitted(vertices.len(), triangles.len(), vertices.len(), nodes) {
        return Refusal::BadShape.into();
    }
    if !query::walk_fits(
        triangles.len() / 3,
        nodes,
        node_boxes,
        triangle_boxes,
        node_words,
        order,
        list.len(),
        stack.len(),
    ) {
        return Refusal::NoRoom.into();
    }
    let count = drills.len() / 9;
    if !places::places_fit(count, codes.len(), indices.len()) {
        return Refusal::NoRoom.into();
    }
    drill_each(
        count,
        drills,
        vertices,
        triangles,
        nodes,
        node_boxes,
        triangle_boxes,
        node_words,
        order,
        list,
        stack,
        codes,
        indices,
    );
    results::DONE
}
