// The codes of the calls for C, C++ and Rust, and how an answer goes into the lent result slices.

#![tactic(auto)]

// The mesh cast's number where a result slice is too short.
pub mod short;

ghost use Rattle.std.specs.Prelude.{◌≡◌, cond, [], ◌∷◌, ◌≤◌, length, Ok};
ghost use Rattle.std.proofs.lemmas.List.Edits.{sets};
ghost use Rattle.casts.specs.Answer.{says, refused, number_of, bad_shape, no_room};
ghost use Rattle.nearest_hit.specs.Nearest.{says_indexed};
ghost use Rattle.tree.specs.Mesh.{lengths_admitted};
ghost use Rattle.tree_build.specs.Build.{says as saysBuilt};
ghost use Rattle.tree_check.specs.Verdict.{says as saysVerdict};
ghost use Rattle.tree_query.specs.Query.{says_listed};
ghost use Rattle.results.specs.Results.{ray_from, short_number, answered};
ghost use Rattle.results.specs.Results.{returned_indexed, returned_nodes, returned_found, returned_verdict};

use casts::answer::{Cast, Hit, Refusal};
use geometry::ray::Ray;
use nearest_hit::nearest::IndexedCast;
use tree::mesh as lengths;
use tree_check::check::Verdict;
use vectors::vec3::Vec3;

// What a call answers where it does not refuse. Refusals, document 02's among them, stay below 256.
pub const HIT: u32 = 256;

pub const NONE: u32 = 257;

pub const YES: u32 = 258;

pub const NO: u32 = 259;

// The build wrote a tree, or the query its list.
pub const DONE: u32 = 260;

// A ray from its eight numbers.
pub fn ray_from(
    origin_x: f64,
    origin_y: f64,
    origin_z: f64,
    direction_x: f64,
    direction_y: f64,
    direction_z: f64,
    max_distance: f64,
    near_distance: f64,
) -> Ray
    ensures { result ≡ ray_from origin_x origin_y origin_z direction_x direction_y direction_z max_distance
        near_distance }
{
    Ray {
        origin: Vec3 {
            x: origin_x,
            y: origin_y,
            z: origin_z,
        },
        direction: Vec3 {
            x: direction_x,
            y: direction_y,
            z: direction_z,
        },
        max_distance,
        near: near_distance,
    }
}

// A hit's normal and distance, into the first four places.
pub fn put_hit(hit: &mut [f64], normal: Vec3, distance: f64)
    requires { 4 ≤ length hit.old }
    ensures { hit.new ≡ sets hit.old 0 (normal.x ∷ normal.y ∷ normal.z ∷ distance ∷ []) }
{
    hit[0] = normal.x;
    hit[1] = normal.y;
    hit[2] = normal.z;
    hit[3] = distance;
}

// A refusal's number; where the hit slice is too short, 1 and 2 go before 3.
#[tactic(auto, unfolding(crate::specs::Results::answered, crate::specs::Results::returned, crate::specs::Results::short_number))]
fn put_refusal(refusal: Refusal, hit: &[f64]) -> u32
    ensures { record { number = result; hit = hit.now } ≡ answered (refused (number_of refusal)) hit.now }
{
    let number = u32::from(refusal);
    if hit.len() < 4 && number > u32::from(Refusal::BadShape) {
        return Refusal::NoRoom.into();
    }
    number
}

// A hit's values written, or none; a slice that is too short is refused.
#[tactic(auto, unfolding(crate::specs::Results::answered, crate::specs::Results::returned, crate::specs::Results::short_number))]
fn put_found(found: Option<Hit>, hit: &mut [f64]) -> u32
    ensures { record { number = result; hit = hit.new } ≡ answered (says (Ok found)) hit.old }
{
    if hit.len() < 4 {
        return Refusal::NoRoom.into();
    }
    let Some(surface) = found else {
        return NONE;
    };
    put_hit(hit, surface.normal, surface.distance);
    HIT
}

// An answer as its number, a hit's values written; a result slice that is too short is refused. The refusals go first: one of a cast's
// first tests leaves at once.
pub fn put_answer(answer: Cast, hit: &mut [f64]) -> u32
    ensures { record { number = result; hit = hit.new } ≡ answered (says answer) hit.old }
{
    match answer {
        Ok(found) => put_found(found, hit),
        Err(refusal) => put_refusal(refusal, hit),
    }
}

// The same with the triangle's index.
#[tactic(auto, unfolding(crate::specs::Results::returned_indexed))]
pub fn put_indexed(answer: IndexedCast, hit: &mut [f64], index: &mut [u32]) -> u32
    requires { (4 ≤ length hit.old) × (1 ≤ length index.old) }
    ensures { record { number = result; hit = hit.new; index = index.new }
        ≡ returned_indexed (says_indexed answer) hit.old index.old }
{
    match answer {
        Ok(Some(surface)) => {
            put_hit(hit, surface.normal, surface.distance);
            index[0] = surface.index;
            HIT
        }
        Ok(None) => NONE,
        Err(refusal) => refusal.into(),
    }
}

// The build's number where the place of the node count is not there: 2 goes before 3.
pub fn short_build(vertices: usize, triangles: usize) -> u32
    ensures { result ≡ cond (lengths_admitted vertices triangles) no_room bad_shape }
{
    if !lengths::lengths_admitted(vertices, triangles) {
        return Refusal::BadShape.into();
    }
    Refusal::NoRoom.into()
}

// A count, of a tree's nodes, of a list's numbers or of bytes, as a number, the count written.
#[tactic(auto, unfolding(crate::specs::Results::returned_nodes, crate::specs::Results::returned_found))]
pub fn put_count(counted: Result<usize, Refusal>, place: &mut [usize]) -> u32
    requires { 1 ≤ length place.old }
    ensures nodes { record { number = result; count = place.new } ≡ returned_nodes (saysBuilt counted) place.old }
    ensures found { record { number = result; count = place.new } ≡ returned_found (says_listed counted) place.old }
{
    match counted {
        Ok(count) => {
            place[0] = count;
            DONE
        }
        Err(refusal) => refusal.into(),
    }
}

// The tree check's answer as its number.
#[tactic(auto, unfolding(crate::specs::Results::returned_verdict))]
pub fn verdict_number(verdict: Verdict) -> u32
    ensures { result ≡ returned_verdict (saysVerdict verdict) }
{
    match verdict {
        Ok(true) => YES,
        Ok(false) => NO,
        Err(refusal) => refusal.into(),
    }
}
