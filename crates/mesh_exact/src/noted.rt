ghost use Rattle.std.specs.Prelude.{◌≡◌, true, false, ◌||◌, not, ◌+◌, ◌*◌, ◌≤◌, length, IfSome};
ghost use Rattle.geometry.specs.Box.{corners_box, touches};
ghost use Rattle.geometry.specs.declared.ray.Ray.{Ray as AnyRay};
ghost use Rattle.casts.specs.Reach.{reach_of, says_reach};
ghost use Rattle.nearest_hit.specs.Summary.{note_of, says_nearest_so_far, says_outcome};
ghost use Rattle.tree.specs.Mesh.{mesh, thirds, corners_inside, corners_of, triangles_fit};
ghost use Rattle.mesh_plain.specs.Boxes.{BoxesHold, Coded};
ghost use Rattle.exact_triangle.specs.View.{ViewSized};
ghost use Rattle.mesh_exact.specs.GridCast.{exact_answer};
ghost use Rattle.mesh_exact.specs.Bounds.{AllWithin};
ghost use Rattle.mesh_exact.specs.Noted.{Casts, Bounded, Won};

use casts::answer::{Reach, Refusal};
use exact_triangle::cast as triangle;
use exact_triangle::view::View;
use geometry::aabb::Aabb;
use mesh_plain::boxes;
use nearest_hit::summary;
use nearest_hit::summary::{NearestSoFar, Outcome};
use tree::mesh as triangle_mesh;

// What a triangle is reached at, without its normal.
pub fn reach_of(line: View, vertices: &[f64], triangles: &[u32], index: usize) -> Reach
    requires { ((3 * index + 3 ≤ length triangles.now)
        × (corners_inside (thirds (length vertices.now)) triangles.now index ≡ true)) × (ViewSized line) }
    ensures { (ray : AnyRay) → Casts ray line
        → says_reach result ≡ reach_of (exact_answer ray vertices.now triangles.now index) }
{
    triangle::reach_on(line, triangle_mesh::corners_of(vertices, triangles, index))
}

// Whether each triangle whose indices are below the vertex count has a valid box: of vertices in range, which callers show if they are told
// to be, it has.
pub fn boxes_hold(within: bool, vertices: &[f64], triangles: &[u32]) -> bool
    requires { (length triangles.now ≤ 196608) × (within ≡ true → AllWithin vertices.now) }
    ensures boxes_hold { result ≡ true → BoxesHold (mesh vertices.now triangles.now) }
    ensures triangles_value { result ≡ false → triangles_fit (mesh vertices.now triangles.now) ≡ false }
{
    if within {
        return true;
    }
    boxes::all_fit(vertices, triangles)
}

// Whether a triangle is looked at: where not all vertices are in range each is, else one whose box touches the segment's.
fn looked_at(
    within: bool,
    codes: Option<&[u64]>,
    bounds: Aabb,
    vertices: &[f64],
    triangles: &[u32],
    index: usize,
) -> bool
    requires { ((3 * index + 3 ≤ length triangles.now)
        × (corners_inside (thirds (length vertices.now)) triangles.now index ≡ true))
        × (IfSome codes (λ told. Coded bounds vertices.now told.now)) }
    ensures { result ≡ (not within
        || touches (corners_box (corners_of vertices.now triangles.now index)) bounds) }
{
    if !within {
        return true;
    }
    boxes::triangle_touches(codes, bounds, vertices, triangles, index)
}

// The note of a triangle that is hit or refuses. It is called, so that the loop over the triangles is small: that loop is then compiled
// once for each way in which a triangle is looked at.
#[inline(never)]
fn note_found(notes: &mut NearestSoFar, index: u32, reach: Reach)
    ensures { says_nearest_so_far notes.new ≡ note_of (says_nearest_so_far notes.old) index (says_reach reach) }
{
    *notes = summary::note(*notes, index, reach);
}

// One more triangle's note: a miss changes nothing.
#[tactic(auto, unfolding(nearest_hit::specs::Summary::note_of))]
fn note_reach(notes: &mut NearestSoFar, index: u32, reach: Reach)
    ensures { says_nearest_so_far notes.new ≡ note_of (says_nearest_so_far notes.old) index (says_reach reach) }
{
    if let Ok(None) = reach {
        return;
    }
    note_found(notes, index, reach);
}

// The winner of all triangles in one pass, without its normal. An index past the vertices ends it with 5, whatever was found before it.
pub fn winner_of(
    line: View,
    bounds: Aabb,
    vertices: &[f64],
    triangles: &[u32],
    within: bool,
    codes: Option<&[u64]>,
) -> Outcome
    requires { (length triangles.now ≤ 196608) × ((ViewSized line) × ((BoxesHold (mesh vertices.now triangles.now))
        × ((within ≡ true → AllWithin vertices.now) × (IfSome codes (λ told. Coded bounds vertices.now told.now))))) }
    ensures { (ray : AnyRay) → Bounded ray line bounds → Won ray (mesh vertices.now triangles.now) (says_outcome result) }
{
    let limit = vertices.len() / 3;
    let count = triangles.len() / 3;
    let mut notes = summary::empty();
    for i in 0..count {
        if !triangle_mesh::corners_inside(limit, triangles, i) {
            return Err(Refusal::OutOfBounds);
        }
        if looked_at(within, codes, bounds, vertices, triangles, i) {
            let reach = reach_of(line, vertices, triangles, i);
            note_reach(&mut notes, i as u32, reach);
        }
    }
    summary::winner(notes)
}
