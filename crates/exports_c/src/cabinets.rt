ghost use Rattle.cabinet.specs.Steps.{areas};
ghost use Rattle.results.specs.Results.{ray_from};
ghost use Rattle.exports.specs.CabinetResults.{cabinet_returned, CabinetCall};

use cabinet::part::Part;

// The cast at a cabinet of many parts under one limit of nodes. The list and the stack are work areas: unchanged until 1, 2 and 3 have let
// the call pass, and then they may hold anything.
// What `CabinetCall` says last is what is promised of the limit, and of the parts by the number and the slices.
#[unsafe(no_mangle)]
pub extern "C" fn probe_ray_cabinet(
    origin_x: f64,
    origin_y: f64,
    origin_z: f64,
    direction_x: f64,
    direction_y: f64,
    direction_z: f64,
    max_distance: f64,
    near_distance: f64,
    parts: &[Part],
    vertices: &[f64],
    triangles: &[u32],
    node_boxes: &[f64],
    triangle_boxes: &[f64],
    node_words: &[u32],
    order: &[u32],
    limit: usize,
    list: &mut [u32],
    stack: &mut [u32],
    hit: &mut [f64],
    index: &mut [u32],
    part: &mut [usize],
    spent: &mut [usize],
) -> u32
    ensures { CabinetCall
        (ray_from origin_x origin_y origin_z direction_x direction_y direction_z max_distance near_distance)
        (areas vertices.now triangles.now node_boxes.now triangle_boxes.now
        node_words.now order.now) limit parts.now
        list.old list.new stack.old stack.new
        hit.old index.old part.old spent.old
        (cabinet_returned result hit.new index.new part.new spent.new) }
{
    exports::cabinets::probe_ray_cabinet(
        origin_x,
        origin_y,
        origin_z,
        direction_x,
        direction_y,
        direction_z,
        max_distance,
        near_distance,
        parts,
        vertices,
        triangles,
        node_boxes,
        triangle_boxes,
        node_words,
        order,
        limit,
        list,
        stack,
        hit,
        index,
        part,
        spent,
    )
}
