ghost use Rattle.casts.specs.Answer.{number_of};
ghost use Rattle.std.specs.Prelude.{◌≡◌};
ghost use Rattle.tree.specs.Mesh.{mesh};
ghost use Rattle.tree.specs.Layout.{tree_of};
ghost use Rattle.results.specs.Results.{ray_from};
ghost use Rattle.many_drills.specs.Many.{places, returned_many};
ghost use Rattle.exports.specs.Drills.{short_drill, DrillPlainCall, DrillCall, DrillManyCall};

use casts::answer::Refusal;
use exact_triangle::view;
use geometry::ray::Ray;
use many_drills::{at_mesh, single};
use mesh::cast as mesh_cast;
use mesh_drill::{cylinder, plain, through};
use tree::mesh as triangle_mesh;
use vectors::vec3::Vec3;

// The number where the index slice is too short: 1 and 12 of the ray and the radius and 2, whose test is handed over, go before 3.
fn short_drill(ray: Ray, radius: f64, shape: bool) -> Refusal
    ensures { number_of result ≡ short_drill ray radius shape }
{
    if !ray.validate() {
        return Refusal::InvalidInput;
    }
    if !cylinder::radius_admitted(radius) {
        return Refusal::InvalidInput;
    }
    if !view::admitted(ray) {
        return Refusal::OutOfRange;
    }
    if !cylinder::radius_read(radius) {
        return Refusal::OutOfRange;
    }
    if !shape {
        return Refusal::BadShape;
    }
    Refusal::NoRoom
}

// The drill about a ray's segment at a mesh, without a tree and without a work area: whether it touches a triangle, with area or without,
// and the lowest index of one, on a grid of 2^-15 mm.
// Where the index slice is long enough, what is read back from the number and the slice is certain of the whole mesh on the grid, and says
// of the part as drawn what `PartAsDrawn` says.
pub fn probe_drill_plain(
    origin_x: f64,
    origin_y: f64,
    origin_z: f64,
    direction_x: f64,
    direction_y: f64,
    direction_z: f64,
    max_distance: f64,
    near_distance: f64,
    radius: f64,
    vertices: &[f64],
    triangles: &[u32],
    index: &mut [u32],
) -> u32
    ensures { DrillPlainCall (ray_from origin_x origin_y origin_z direction_x direction_y direction_z max_distance
        near_distance) radius
        (mesh vertices.now triangles.now) index.old
        (record { number = result; index = index.new }) }
{
    let ray = Ray {
        origin: Vec3 {
            x: origin_x,
            y: origin_y,
            z: origin_z,
        },
        direction: Vec3 {
            x: direction_x,
            y: direction_y,
            z: direction_z,
        },
        max_distance,
        near: near_distance,
    };
    if index.len() < 1 {
        return short_drill(
            ray,
            radius,
            triangle_mesh::lengths_admitted(vertices.len(), triangles.len()),
        )
        .into();
    }
    let found = plain::drill_plain(ray, radius, vertices, triangles);
    single::put_drill(found, index)
}

// The same through a tree, of the triangles that the walk lists for the drill's box.
// The list and the stack are work areas: unchanged until the index slice and refusals 1, 12 of the ray and the radius, 2 and 3 have let the
// call pass, and then they may hold anything.
// The third clause: a triangle that is named, through any tree, has a point in the drill; and with any tree that passes the check, areas
// long enough and no NaN at a corner of the mesh, the call promises what the one without a tree promises.
pub fn probe_drill(
    origin_x: f64,
    origin_y: f64,
    origin_z: f64,
    direction_x: f64,
    direction_y: f64,
    direction_z: f64,
    max_distance: f64,
    near_distance: f64,
    radius: f64,
    vertices: &[f64],
    triangles: &[u32],
    nodes: usize,
    node_boxes: &[f64],
    triangle_boxes: &[f64],
    node_words: &[u32],
    order: &[u32],
    list: &mut [u32],
    stack: &mut [u32],
    index: &mut [u32],
) -> u32
    ensures { DrillCall (ray_from origin_x origin_y origin_z direction_x direction_y direction_z max_distance
        near_distance) radius
        (mesh vertices.now triangles.now)
        (tree_of nodes node_boxes.now triangle_boxes.now node_words.now order.now)
        list.old list.new stack.old stack.new index.old
        (record { number = result; index = index.new }) }
{
    let ray = Ray {
        origin: Vec3 {
            x: origin_x,
            y: origin_y,
            z: origin_z,
        },
        direction: Vec3 {
            x: direction_x,
            y: direction_y,
            z: direction_z,
        },
        max_distance,
        near: near_distance,
    };
    if index.len() < 1 {
        return short_drill(
            ray,
            radius,
            mesh_cast::shape_admitted(vertices.len(), triangles.len(), vertices.len(), nodes),
        )
        .into();
    }
    let found = through::drill_through(
        ray,
        radius,
        vertices,
        triangles,
        nodes,
        node_boxes,
        triangle_boxes,
        node_words,
        order,
        list,
        stack,
    );
    single::put_drill(found, index)
}

// The drill through a tree for many drills, nine numbers each, with a code and an index a drill as result slices.
// Refusals 2 and 3 are tested once; until they have let the call pass every area is unchanged, and then the list and the stack may hold
// anything. A drill that is refused has its number as its code.
// What is read at a drill's places is what the single call answers, and keeps its promises: `DrillManyCall` (specs/Drills.antt).
pub fn probe_drill_many(
    drills: &[f64],
    vertices: &[f64],
    triangles: &[u32],
    nodes: usize,
    node_boxes: &[f64],
    triangle_boxes: &[f64],
    node_words: &[u32],
    order: &[u32],
    list: &mut [u32],
    stack: &mut [u32],
    codes: &mut [u32],
    indices: &mut [u32],
) -> u32
    ensures { DrillManyCall drills.now (mesh vertices.now triangles.now)
        (tree_of nodes node_boxes.now triangle_boxes.now node_words.now order.now)
        list.old list.new stack.old stack.new
        (places codes.old indices.old)
        (returned_many result (places codes.new indices.new)) }
{
    at_mesh::drill_many(
        drills,
        vertices,
        triangles,
        nodes,
        node_boxes,
        triangle_boxes,
        node_words,
        order,
        list,
        stack,
        codes,
        indices,
    )
}
