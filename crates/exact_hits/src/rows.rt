ghost use Rattle.std.specs.Prelude.{◌≡◌, true, ◌+◌, ◌*◌, ◌≤◌, length, take};
ghost use Rattle.casts.specs.Answer.{says};
ghost use Rattle.casts.specs.Reach.{At, reach_of};
ghost use Rattle.lists.specs.Lists.{sorted, all_below};
ghost use Rattle.tree.specs.Mesh.{thirds};
ghost use Rattle.tree_query.specs.Query.{says_listed};
ghost use Rattle.mesh_hits.specs.HitArea.{hit_area};
ghost use Rattle.mesh_hits.specs.HitListing.{listing_of};
ghost use Rattle.geometry.specs.Segment.{ray_admitted};
ghost use Rattle.exact_triangle.specs.Grid.{grid_admitted};
ghost use Rattle.mesh_exact.specs.GridCast.{exact_answer};
ghost use Rattle.mesh_exact.specs.Noted.{Casts};

use casts::answer::Cast;
use exact_triangle::cast as triangle;
use exact_triangle::view::View;
use geometry::ray::Ray;
use mesh_hits::{gathering, places, sorted};
use tree::mesh as triangle_mesh;
use tree_exact::walk;
use tree_query::query::Listed;

// The hit of a triangle at the distance that it is reached at.
fn hit_of(ray: Ray, pose: &[f64], triangles: &[u32], index: usize, distance: f64) -> Cast
    requires { ((ray_admitted ray ≡ true) × (grid_admitted ray ≡ true)) × ((3 * index + 3 ≤ length triangles.now)
        × (reach_of (exact_answer ray pose.now triangles.now index) ≡ At distance)) }
    ensures { says result ≡ exact_answer ray pose.now triangles.now index }
{
    triangle::hit_on(
        ray,
        triangle_mesh::corners_of(pose, triangles, index),
        distance,
    )
}

// The listing of the triangles in the first places of a list: as if they stood there ascending, in whatever order they do.
pub fn list_met(
    ray: Ray,
    line: View,
    pose: &[f64],
    triangles: &[u32],
    list: &mut [u32],
    found: usize,
    indices: &mut [u32],
    numbers: &mut [f64],
) -> Listed
    requires { (Casts ray line) × ((found ≤ length list.old)
        × (all_below (thirds (length triangles.now)) (take found list.old) ≡ true)) }
    ensures { record { answer = says_listed result; area = hit_area indices.new numbers.new }
        ≡ listing_of (exact_answer ray pose.now triangles.now)
        (hit_area indices.old numbers.old) (sorted (take found list.old)) }
{
    let room = places::places_of(indices.len(), numbers.len());
    let gathered = gathering::gather(
        |index| walk::reach_at(line, pose, triangles, index as usize),
        &list[..found],
        room,
        indices,
        numbers,
    );
    let count = sorted::arrange(gathered, room, list, indices, numbers)?;
    places::put_normals(
        |index, distance| hit_of(ray, pose, triangles, index as usize, distance),
        indices,
        count,
        numbers,
    );
    Ok(count)
}
