ghost use Rattle.std.specs.Prelude.{◌≡◌, true, ◌+◌, ◌*◌, ◌≤◌, length, take};
ghost use Rattle.casts.specs.Reach.{says_reach, reach_of};
ghost use Rattle.nearest_hit.specs.Nearest.{says_indexed, nearest_of};
ghost use Rattle.nearest_hit.specs.Summary.{nothing, summary_from, says_nearest_so_far};
ghost use Rattle.lists.specs.Lists.{sorted, all_below};
ghost use Rattle.tree.specs.Mesh.{thirds, triangle_answer};

use casts::answer::{Reach, Refusal};
use geometry::ray::Ray;
use nearest_hit::nearest::IndexedCast;
use nearest_hit::summary::NearestSoFar;
use nearest_hit::{nearest, summary};
use tree::mesh;
use triangle_cast::triangle;

// The answer of one triangle without its normal, for an admitted ray: an index past the vertices is 5. A long ray spends a fifth of its
// instructions more where it is not compiled into the loop.
#[inline(always)]
pub fn triangle_reach(ray: Ray, pose: &[f64], triangles: &[u32], index: usize) -> Reach
    requires { 3 * index + 3 ≤ length triangles.now }
    ensures { says_reach result ≡ reach_of (triangle_answer ray pose.now triangles.now index) }
{
    if !mesh::corners_inside(pose.len() / 3, triangles, index) {
        return Err(Refusal::OutOfBounds);
    }
    let Some(within) = triangle::crossing(ray, mesh::corners_of(pose, triangles, index))? else {
        return Ok(None);
    };
    triangle::reach_within(ray, within)
}

// The notes of the triangles in the first places of a list, for an admitted ray. A refusal does not end them: one of a lower index may
// follow.
fn note_all(ray: Ray, pose: &[f64], triangles: &[u32], list: &[u32], found: usize) -> NearestSoFar
    requires { (found ≤ length list.now) × (all_below (thirds (length triangles.now)) (take found list.now) ≡ true) }
    ensures { says_nearest_so_far result ≡ summary_from (triangle_answer ray pose.now triangles.now) nothing
        (take found list.now) }
{
    let mut notes = summary::empty();
    for index in &list[..found] {
        let reach = triangle_reach(ray, pose, triangles, *index as usize);
        notes = summary::note(notes, *index, reach);
    }
    notes
}

// The nearest hit of the triangles in the first places of a list, for an admitted ray: as if they stood there ascending, in whatever order
// they do. The notes hold the winner's number or distance, so only its normal is left to compute.
pub fn nearest_of(
    ray: Ray,
    pose: &[f64],
    triangles: &[u32],
    list: &[u32],
    found: usize,
) -> IndexedCast
    requires { (found ≤ length list.now) × (all_below (thirds (length triangles.now)) (take found list.now) ≡ true) }
    ensures { says_indexed result ≡ nearest_of (triangle_answer ray pose.now triangles.now)
        (sorted (take found list.now)) }
{
    let notes = note_all(ray, pose, triangles, list, found);
    let Some(winner) = summary::winner(notes)? else {
        return Ok(None);
    };
    let corners = mesh::corners_of(pose, triangles, winner.index as usize);
    let hit = triangle::hit_at(ray, corners, winner.distance);
    nearest::next(Ok(None), winner.index, hit)
}
