ghost use Rattle.casts.specs.Answer.{number_of};
ghost use Rattle.std.specs.Prelude.{◌≡◌, length};
ghost use Rattle.geometry.specs.Box.{valid_box};
ghost use Rattle.tree.specs.Mesh.{mesh};
ghost use Rattle.tree.specs.Layout.{areas, tree_of};
ghost use Rattle.tree_query.specs.Query.{counts_admitted};
ghost use Rattle.results.specs.Results.{ray_from, ray_of, box_of, short_of};
ghost use Rattle.exports.specs.Calls.{MeshCall, BuildCall, QueryCall, CheckCall, built_returned};

use casts::answer::Refusal;
use geometry::aabb::Aabb;
use mesh::cast;
use results::short;
use tree_build::build;
use tree_check::check;
use tree_query::query;
use vectors::vec3::Vec3;

// The mesh cast with its answer in the result slices. The list and the stack are unchanged until these and refusals 1 to 4 have let the
// call pass. One function for both calls: the ray by its numbers and each slice as a part of itself, so that all of them come in registers
// and on the stack as C hands them over. The number of places for the index stands where C has the address of the mesh's own vertices,
// which the cast does not read; so nothing moves, and either call is a jump.
fn answer_mesh(
    places: usize,
    origin_x: f64,
    origin_y: f64,
    origin_z: f64,
    direction_x: f64,
    direction_y: f64,
    direction_z: f64,
    max_distance: f64,
    near_distance: f64,
    vertices: &[f64],
    triangles: &[u32],
    pose: &[f64],
    nodes: usize,
    node_boxes: &[f64],
    triangle_boxes: &[f64],
    node_words: &[u32],
    order: &[u32],
    list: &mut [u32],
    stack: &mut [u32],
    hit: &mut [f64],
    index: &mut [u32],
) -> u32
    requires { places ≡ length index.old }
    ensures { MeshCall (ray_from origin_x origin_y origin_z direction_x direction_y direction_z max_distance
        near_distance)
        (mesh vertices.now triangles.now) pose.now
        (tree_of nodes node_boxes.now triangle_boxes.now node_words.now order.now)
        list.old list.new stack.old stack.new hit.old index.old
        (record { number = result; hit = hit.new; index = index.new }) }
{
    let ray = results::ray_from(
        origin_x,
        origin_y,
        origin_z,
        direction_x,
        direction_y,
        direction_z,
        max_distance,
        near_distance,
    );
    if hit.len() < 4 {
        return short::short_cast(ray, vertices.len(), triangles.len(), pose.len(), nodes);
    }
    if places < 1 {
        return short::short_cast(ray, vertices.len(), triangles.len(), pose.len(), nodes);
    }
    let found = cast::ray_mesh(
        ray,
        &vertices[0..],
        &triangles[0..],
        &pose[0..],
        nodes,
        &node_boxes[0..],
        &triangle_boxes[0..],
        &node_words[0..],
        &order[0..],
        list,
        stack,
    );
    results::put_indexed(found, hit, index)
}

// The mesh cast. The list and the stack are work areas: unchanged until the result slices and refusals 1 to 4 have let the call pass, and
// then they may hold anything.
// Demand 3 holds of what is read back from the number and the slices: the third clause, `DemandRead` (specs/Reading.antt).
pub fn probe_ray_mesh(
    origin_x: f64,
    origin_y: f64,
    origin_z: f64,
    direction_x: f64,
    direction_y: f64,
    direction_z: f64,
    max_distance: f64,
    vertices: &[f64],
    triangles: &[u32],
    pose: &[f64],
    nodes: usize,
    node_boxes: &[f64],
    triangle_boxes: &[f64],
    node_words: &[u32],
    order: &[u32],
    list: &mut [u32],
    stack: &mut [u32],
    hit: &mut [f64],
    index: &mut [u32],
) -> u32
    ensures { MeshCall (ray_of origin_x origin_y origin_z direction_x direction_y direction_z max_distance)
        (mesh vertices.now triangles.now) pose.now
        (tree_of nodes node_boxes.now triangle_boxes.now node_words.now order.now)
        list.old list.new stack.old stack.new hit.old index.old
        (record { number = result; hit = hit.new; index = index.new }) }
{
    answer_mesh(
        index.len(),
        origin_x,
        origin_y,
        origin_z,
        direction_x,
        direction_y,
        direction_z,
        max_distance,
        0.0,
        vertices,
        triangles,
        pose,
        nodes,
        node_boxes,
        triangle_boxes,
        node_words,
        order,
        list,
        stack,
        hit,
        index,
    )
}

// The same of a ray with a near distance.
pub fn probe_ray_mesh_near(
    origin_x: f64,
    origin_y: f64,
    origin_z: f64,
    direction_x: f64,
    direction_y: f64,
    direction_z: f64,
    max_distance: f64,
    near_distance: f64,
    vertices: &[f64],
    triangles: &[u32],
    pose: &[f64],
    nodes: usize,
    node_boxes: &[f64],
    triangle_boxes: &[f64],
    node_words: &[u32],
    order: &[u32],
    list: &mut [u32],
    stack: &mut [u32],
    hit: &mut [f64],
    index: &mut [u32],
) -> u32
    ensures { MeshCall (ray_from origin_x origin_y origin_z direction_x direction_y direction_z max_distance
        near_distance)
        (mesh vertices.now triangles.now) pose.now
        (tree_of nodes node_boxes.now triangle_boxes.now node_words.now order.now)
        list.old list.new stack.old stack.new hit.old index.old
        (record { number = result; hit = hit.new; index = index.new }) }
{
    answer_mesh(
        index.len(),
        origin_x,
        origin_y,
        origin_z,
        direction_x,
        direction_y,
        direction_z,
        max_distance,
        near_distance,
        vertices,
        triangles,
        pose,
        nodes,
        node_boxes,
        triangle_boxes,
        node_words,
        order,
        list,
        stack,
        hit,
        index,
    )
}

// Builds a mesh's tree into the result areas and writes its node count. The work area is unchanged after refusals 2 and 3; past their
// tests nothing is promised of it.
// Where the number is `DONE`, the tree in the areas passes the check: the third clause, `BuiltRead` (specs/Reading.antt).
pub fn probe_build(
    vertices: &[f64],
    triangles: &[u32],
    node_boxes: &mut [f64],
    triangle_boxes: &mut [f64],
    node_words: &mut [u32],
    order: &mut [u32],
    work: &mut [u32],
    nodes: &mut [usize],
) -> u32
    ensures { BuildCall (mesh vertices.now triangles.now)
        (areas node_boxes.old triangle_boxes.old node_words.old order.old)
        work.old work.new nodes.old
        (built_returned result nodes.new
        (areas node_boxes.new triangle_boxes.new node_words.new order.new)) }
{
    if nodes.len() < 1 {
        return results::short_build(vertices.len(), triangles.len());
    }
    let built = build::build(
        vertices,
        triangles,
        node_boxes,
        triangle_boxes,
        node_words,
        order,
        work,
    );
    results::put_count(built, nodes)
}

// The query's number where the place of the list's length is not there: 1 and 2 go before 3.
fn short_query(bounds: Aabb, triangles: usize, nodes: usize) -> Refusal
    ensures { number_of result ≡ short_of (valid_box bounds) (counts_admitted triangles nodes) }
{
    if !bounds.is_valid() {
        return Refusal::InvalidInput;
    }
    if !query::counts_admitted(triangles, nodes) {
        return Refusal::BadShape;
    }
    Refusal::NoRoom
}

// Lists the triangles of a tree whose boxes touch a box, ascending, and writes how many.
// The stack is a work area: unchanged after refusals 1 to 3, and past their tests nothing is promised of it.
// The third clause: for a mesh of so many triangles and a tree that passes the check, the list is each triangle whose box touches, once.
pub fn probe_query(
    min_x: f64,
    min_y: f64,
    min_z: f64,
    max_x: f64,
    max_y: f64,
    max_z: f64,
    triangles: usize,
    nodes: usize,
    node_boxes: &[f64],
    triangle_boxes: &[f64],
    node_words: &[u32],
    order: &[u32],
    list: &mut [u32],
    stack: &mut [u32],
    found: &mut [usize],
) -> u32
    ensures { QueryCall (box_of min_x min_y min_z max_x max_y max_z) triangles
        (tree_of nodes node_boxes.now triangle_boxes.now node_words.now order.now)
        list.old stack.old stack.new found.old
        (record { returned = record { number = result; count = found.new }; list = list.new }) }
{
    let bounds = Aabb {
        min: Vec3 {
            x: min_x,
            y: min_y,
            z: min_z,
        },
        max: Vec3 {
            x: max_x,
            y: max_y,
            z: max_z,
        },
    };
    if found.len() < 1 {
        return short_query(bounds, triangles, nodes).into();
    }
    let listed = query::query(
        bounds,
        triangles,
        nodes,
        node_boxes,
        triangle_boxes,
        node_words,
        order,
        list,
        stack,
    );
    results::put_count(listed, found)
}

// Whether a tree, from whatever builder, fits the mesh. The marks are a work area, unchanged after a refusal.
// Where the number is `YES`, the tree passes the check, as demand 3 asks it: the third clause.
pub fn probe_tree_check(
    vertices: &[f64],
    triangles: &[u32],
    nodes: usize,
    node_boxes: &[f64],
    triangle_boxes: &[f64],
    node_words: &[u32],
    order: &[u32],
    marks: &mut [u32],
) -> u32
    ensures { CheckCall (mesh vertices.now triangles.now)
        (tree_of nodes node_boxes.now triangle_boxes.now node_words.now order.now)
        marks.old marks.new result }
{
    results::verdict_number(check::check(
        vertices,
        triangles,
        nodes,
        node_boxes,
        triangle_boxes,
        node_words,
        order,
        marks,
    ))
}
