ghost use Rattle.std.specs.Prelude.{◌≡◌, length};
ghost use Rattle.tree.specs.Mesh.{thirds, mesh};
ghost use Rattle.tree.specs.Layout.{tree_of};
ghost use Rattle.tree_walk.specs.Areas.{WalkRoom};
ghost use Rattle.tree_query.specs.Query.{says_listed};
ghost use Rattle.mesh_hits.specs.HitArea.{hit_area};
ghost use Rattle.mesh_exact.specs.Noted.{Casts};
ghost use Rattle.exact_hits.specs.ExactListing.{exact_listing};
ghost use Rattle.exact_hits.specs.Promise.{ListsExact};

use crate::{rows, walk};
use casts::answer::Refusal;
use exact_triangle::view;
use exact_triangle::view::View;
use geometry::ray::Ray;
use mesh::cast;
use mesh_exact::bounds;
use mesh_hits::places;
use tree_query::query;
use tree_query::query::Listed;

// The listing once refusals 1, 12 of the ray and 2 to 4 have let it pass; the list and the stack may hold anything afterwards.
fn exact_listing(
    ray: Ray,
    line: View,
    triangles: &[u32],
    pose: &[f64],
    nodes: usize,
    node_boxes: &[f64],
    triangle_boxes: &[f64],
    node_words: &[u32],
    order: &[u32],
    list: &mut [u32],
    stack: &mut [u32],
    indices: &mut [u32],
    numbers: &mut [f64],
) -> Listed
    requires { (Casts ray line) × (WalkRoom (thirds (length triangles.now))
        (tree_of nodes node_boxes.now triangle_boxes.now node_words.now order.now) list.old stack.old) }
    ensures { record { answer = says_listed result; area = hit_area indices.new numbers.new }
        ≡ exact_listing ray triangles.now pose.now
        (tree_of nodes node_boxes.now triangle_boxes.now node_words.now order.now)
        (hit_area indices.old numbers.old) }
{
    let walked = walk::gather_line(
        line,
        bounds::segment_box(ray),
        triangles.len() / 3,
        nodes,
        node_boxes,
        triangle_boxes,
        node_words,
        order,
        list,
        stack,
    );
    let Some(found) = walked else {
        return places::refuse(Refusal::OutOfBounds, indices, numbers);
    };
    rows::list_met(ray, line, pose, triangles, list, found, indices, numbers)
}

// Every triangle that the segment meets, sides and corners included, of those that any tree lists for the line, in order of depth: its
// index, and its distance and normal.
// The list and the stack are work areas: until refusals 1, 12 of the ray and 2 to 4 have let the call pass they are unchanged, and then
// they may hold anything.
// The third clause is what a user finds: each row is a true hit, in order of depth; at the mesh's own vertices, through a tree that passes
// the check and without a NaN at a corner, every triangle that is met stands in one row, the exact cast's hit in the first, and there is
// no row exactly where that cast is none.
pub fn ray_mesh_exact_all(
    ray: Ray,
    vertices: &[f64],
    triangles: &[u32],
    pose: &[f64],
    nodes: usize,
    node_boxes: &[f64],
    triangle_boxes: &[f64],
    node_words: &[u32],
    order: &[u32],
    list: &mut [u32],
    stack: &mut [u32],
    indices: &mut [u32],
    numbers: &mut [f64],
) -> Listed
    ensures { ListsExact ray (mesh vertices.now triangles.now) pose.now
        (tree_of nodes node_boxes.now triangle_boxes.now node_words.now order.now)
        list.old list.new stack.old stack.new
        (hit_area indices.old numbers.old)
        (record { answer = says_listed result; area = hit_area indices.new numbers.new }) }
{
    if !ray.validate() {
        return Err(Refusal::InvalidInput);
    }
    let viewed = view::view_of(ray);
    let Some(line) = viewed else {
        return Err(Refusal::OutOfRange);
    };
    if !cast::shape_admitted(vertices.len(), triangles.len(), pose.len(), nodes) {
        return Err(Refusal::BadShape);
    }
    if !query::walk_fits(
        triangles.len() / 3,
        nodes,
        node_boxes,
        triangle_boxes,
        node_words,
        order,
        list.len(),
        stack.len(),
    ) {
        return Err(Refusal::NoRoom);
    }
    if pose.len() != vertices.len() {
        return Err(Refusal::WrongPose);
    }
    exact_listing(
        ray,
        line,
        triangles,
        pose,
        nodes,
        node_boxes,
        triangle_boxes,
        node_words,
        order,
        list,
        stack,
        indices,
        numbers,
    )
}
