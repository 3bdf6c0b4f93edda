ghost use Rattle.std.specs.Prelude.{◌≡◌, true, List, ℕ, ◌+◌, ◌*◌, ◌≤◌, length, take, Float};
ghost use Rattle.casts.specs.Answer.{Answer, says};
ghost use Rattle.casts.specs.Reach.{At, reach_of};
ghost use Rattle.lists.specs.Lists.{sorted, all_below};
ghost use Rattle.tree.specs.Mesh.{thirds, triangle_answer};
ghost use Rattle.tree_query.specs.Query.{says_listed};
ghost use Rattle.mesh_hits.specs.HitArea.{hit_area};
ghost use Rattle.mesh_hits.specs.HitListing.{listing_of};
ghost use Rattle.mesh_hits.specs.Rows.{Ready, SortRoom, HitsGathered, Arranged, fit_rows};

use crate::gathering::Gathered;
use crate::{gathering, places};
use casts::answer::{Cast, Refusal};
use depth_sort::order;
use geometry::ray::Ray;
use mesh::candidates;
use nearest_hit::summary;
use tree::mesh as triangle_mesh;
use tree_query::query::Listed;
use triangle_cast::triangle;

// The hits in the first places, sorted, where there is a place for each, and else refusal 3. The list is work.
fn fit(
    hits: usize,
    places: usize,
    list: &mut [u32],
    indices: &mut [u32],
    numbers: &mut [f64],
) -> Listed
    requires { hits ≤ places → SortRoom hits (length indices.old) (length numbers.old) (length list.old) }
    ensures { (answer : ℕ → Answer) (n : ℕ)
        → (hits ≤ places → Ready answer n hits indices.old numbers.old (length list.old))
        → Arranged answer n (fit_rows answer hits places (hit_area indices.old numbers.old)) result indices.new
        numbers.new }
{
    if hits > places {
        return places::refuse(Refusal::NoRoom, indices, numbers);
    }
    let end = 4 * hits;
    order::sort(&mut indices[..hits], &mut numbers[..end], list);
    Ok(hits)
}

// The listing of the hits that were gathered, but for their normals, over the answers of whichever cast: a triangle's refusal, or the hits
// sorted, or refusal 3.
pub fn arrange(
    gathered: Gathered,
    places: usize,
    list: &mut [u32],
    indices: &mut [u32],
    numbers: &mut [f64],
) -> Listed
    requires { gathered.hits ≤ places
        → SortRoom gathered.hits (length indices.old) (length numbers.old) (length list.old) }
    ensures { (answer : ℕ → Answer) (n : ℕ) (l indices₀ : List ℕ) (numbers₀ : List Float)
        → HitsGathered answer n l (length list.old) indices₀ numbers₀ gathered places indices.old
        numbers.old
        → Arranged answer n (listing_of answer (hit_area indices₀ numbers₀) (sorted l)) result indices.new numbers.new }
{
    match summary::winner(gathered.notes) {
        Ok(_) => fit(gathered.hits, places, list, indices, numbers),
        Err(refusal) => places::refuse(refusal, indices, numbers),
    }
}

// The hit of a triangle at the distance that it is reached at.
fn hit_of(ray: Ray, pose: &[f64], triangles: &[u32], index: usize, distance: f64) -> Cast
    requires { (3 * index + 3 ≤ length triangles.now)
        × (reach_of (triangle_answer ray pose.now triangles.now index) ≡ At distance) }
    ensures { says result ≡ triangle_answer ray pose.now triangles.now index }
{
    triangle::hit_at(
        ray,
        triangle_mesh::corners_of(pose, triangles, index),
        distance,
    )
}

// The listing of the triangles in the first places of a list, for an admitted ray: as if they stood there ascending, in whatever order they
// do.
// The exact listing makes the same calls with closures of its own: a function over both would have to require of the second what the first
// has answered, and be no plainer.
pub fn list_hits(
    ray: Ray,
    pose: &[f64],
    triangles: &[u32],
    list: &mut [u32],
    found: usize,
    indices: &mut [u32],
    numbers: &mut [f64],
) -> Listed
    requires { (found ≤ length list.old) × (all_below (thirds (length triangles.now)) (take found list.old) ≡ true) }
    ensures { record { answer = says_listed result; area = hit_area indices.new numbers.new }
        ≡ listing_of (triangle_answer ray pose.now triangles.now)
        (hit_area indices.old numbers.old) (sorted (take found list.old)) }
{
    let room = places::places_of(indices.len(), numbers.len());
    let gathered = gathering::gather(
        |index| candidates::triangle_reach(ray, pose, triangles, index as usize),
        &list[..found],
        room,
        indices,
        numbers,
    );
    let count = arrange(gathered, room, list, indices, numbers)?;
    places::put_normals(
        |index, distance| hit_of(ray, pose, triangles, index as usize, distance),
        indices,
        count,
        numbers,
    );
    Ok(count)
}
