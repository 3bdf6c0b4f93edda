ghost use Rattle.std.specs.Prelude.{◌≡◌, length};
ghost use Rattle.cabinet.specs.Cabinet.{with_results};
ghost use Rattle.cabinet.specs.Found.{says_progress, says_state};
ghost use Rattle.cabinet.specs.Steps.{areas, begun, last_answer};
ghost use Rattle.results.specs.Results.{ray_from};
ghost use Rattle.exports.specs.CabinetResults.{cabinet_fits, cabinet_returned, returned_cabinet, CabinetCall};

use cabinet::look;
use cabinet::part::{Part, State};
use cabinet_passes::pass;
use casts::answer::Refusal;
use geometry::ray::Ray;
use vectors::vec3::Vec3;

// Whether the result slices, by their lengths, hold an answer.
fn results_fit(hit: usize, index: usize, part: usize, spent: usize) -> bool
    ensures { result ≡ cabinet_fits hit index part spent }
{
    if hit < 4 {
        return false;
    }
    if index < 1 {
        return false;
    }
    if part < 1 {
        return false;
    }
    1 <= spent
}

// Before the first part: the ray from its eight numbers, and whether the result slices fit.
fn begin(
    origin_x: f64,
    origin_y: f64,
    origin_z: f64,
    direction_x: f64,
    direction_y: f64,
    direction_z: f64,
    max_distance: f64,
    near_distance: f64,
    limit: usize,
    hit: usize,
    index: usize,
    part: usize,
    spent: usize,
) -> State
    ensures { says_state result ≡ begun (ray_from origin_x origin_y origin_z direction_x direction_y direction_z max_distance
        near_distance) limit (cabinet_fits hit index part spent) }
{
    let ray = Ray {
        origin: Vec3 {
            x: origin_x,
            y: origin_y,
            z: origin_z,
        },
        direction: Vec3 {
            x: direction_x,
            y: direction_y,
            z: direction_z,
        },
        max_distance,
        near: near_distance,
    };
    let fits = results_fit(hit, index, part, spent);
    pass::begin(ray, limit, fits)
}

// The last state's answer as its number, its values and the nodes spent written. A refusal met before a part was begun writes nothing.
fn put_cabinet(
    end: State,
    hit: &mut [f64],
    index: &mut [u32],
    part: &mut [usize],
    spent: &mut [usize],
) -> u32
    ensures { cabinet_returned result hit.new index.new part.new spent.new
        ≡ returned_cabinet (with_results (cabinet_fits (length hit.old) (length index.old) (length part.old)
        (length spent.old)) (last_answer (says_progress end.at))) hit.old index.old part.old
        spent.old }
{
    let at = end.at;
    let fits = results_fit(hit.len(), index.len(), part.len(), spent.len());
    match at.found {
        Ok(nearest) => match nearest {
            None => {
                if !fits {
                    return Refusal::NoRoom.into();
                }
                spent[0] = at.spent;
                return results::NONE;
            }
            Some(found) => {
                if !fits {
                    return Refusal::NoRoom.into();
                }
                results::put_hit(hit, found.hit.normal, found.hit.distance);
                index[0] = found.hit.index;
                part[0] = found.part;
                spent[0] = at.spent;
                return results::HIT;
            }
        },
        Err(refusal) => {
            if at.part == 0 {
                return refusal.into();
            }
            if !fits {
                return Refusal::NoRoom.into();
            }
            spent[0] = at.spent;
            return refusal.into();
        }
    }
}

// The cast at a cabinet of many parts under one limit of nodes. The list and the stack are work areas: unchanged until 1, 2 and 3 have let
// the call pass, and then they may hold anything.
// What `CabinetCall` says last is what is promised of the limit, and of the parts by the number and the slices.
pub fn probe_ray_cabinet(
    origin_x: f64,
    origin_y: f64,
    origin_z: f64,
    direction_x: f64,
    direction_y: f64,
    direction_z: f64,
    max_distance: f64,
    near_distance: f64,
    parts: &[Part],
    vertices: &[f64],
    triangles: &[u32],
    node_boxes: &[f64],
    triangle_boxes: &[f64],
    node_words: &[u32],
    order: &[u32],
    limit: usize,
    list: &mut [u32],
    stack: &mut [u32],
    hit: &mut [f64],
    index: &mut [u32],
    part: &mut [usize],
    spent: &mut [usize],
) -> u32
    ensures { CabinetCall
        (ray_from origin_x origin_y origin_z direction_x direction_y direction_z max_distance near_distance)
        (areas vertices.now triangles.now node_boxes.now triangle_boxes.now
        node_words.now order.now) limit parts.now
        list.old list.new stack.old stack.new
        hit.old index.old part.old spent.old
        (cabinet_returned result hit.new index.new part.new spent.new) }
{
    let start = begin(
        origin_x,
        origin_y,
        origin_z,
        direction_x,
        direction_y,
        direction_z,
        max_distance,
        near_distance,
        limit,
        hit.len(),
        index.len(),
        part.len(),
        spent.len(),
    );
    let looking = look::look_from(
        start,
        vertices.len(),
        triangles.len(),
        node_boxes.len(),
        triangle_boxes.len(),
        node_words.len(),
        order.len(),
        list.len(),
        stack.len(),
    );
    let looked = pass::look_all(parts, looking);
    let between = look::second_pass(start, looked);
    let end = pass::cast_all(
        parts,
        vertices,
        triangles,
        node_boxes,
        triangle_boxes,
        node_words,
        order,
        list,
        stack,
        between,
    );
    put_cabinet(end, hit, index, part, spent)
}
