ghost use Rattle.std.specs.Prelude.{◌≡◌, true, ◌&&◌, leb, ◌+◌, ◌<◌, ◌≤◌, length};
ghost use Rattle.geometry.specs.Segment.{ray_admitted};
ghost use Rattle.nearest_hit.specs.Nearest.{says_indexed};
ghost use Rattle.tree.specs.Mesh.{thirds, mesh};
ghost use Rattle.tree.specs.Layout.{tree_of};
ghost use Rattle.tree_query.specs.Query.{tree_fits};
ghost use Rattle.exact_triangle.specs.Grid.{grid_admitted};
ghost use Rattle.tree_exact.specs.ExactMesh.{exact_through, CastsExact};
ghost use Rattle.tree_exact.specs.Walking.{WalkRoom};

use crate::{root, walk};
use casts::answer::Refusal;
use exact_triangle::{cast as triangle, view};
use geometry::ray::Ray;
use mesh::cast as mesh_cast;
use mesh_exact::bounds;
use nearest_hit::nearest::IndexedCast;
use nearest_hit::{nearest, summary};
use tree::mesh as triangle_mesh;
use tree_query::query;

// The cast once refusals 1, 12 of the ray and 2 to 4 have let it pass, as its caller, the public call, shows; the stack may hold anything
// afterwards. Only the winner's normal is computed. A ray far off the mesh is answered at the root's box.
// It is compiled into each of its two users, this cast and that of many rays.
#[inline(always)]
pub fn exact_through(
    ray: Ray,
    triangles: &[u32],
    pose: &[f64],
    nodes: usize,
    node_boxes: &[f64],
    triangle_boxes: &[f64],
    node_words: &[u32],
    order: &[u32],
    stack: &mut [u32],
) -> IndexedCast
    requires { ((ray_admitted ray ≡ true) × (grid_admitted ray ≡ true)) × (WalkRoom (thirds (length triangles.now)) nodes
        node_boxes.now node_words.now order.now × (nodes < length stack.old)) }
    ensures { says_indexed result ≡ exact_through ray pose.now triangles.now
        (tree_of nodes node_boxes.now triangle_boxes.now node_words.now order.now) }
{
    let reach = bounds::segment_box(ray);
    if root::misses_root(reach, nodes, node_boxes) {
        return Ok(None);
    }
    let walked = walk::nearest_along(
        ray, reach, pose, triangles, nodes, node_boxes, node_words, order, stack,
    );
    let Some(notes) = walked else {
        return Err(Refusal::OutOfBounds);
    };
    let Some(winner) = summary::winner(notes)? else {
        return Ok(None);
    };
    let corners = triangle_mesh::corners_of(pose, triangles, winner.index as usize);
    let hit = triangle::hit_on(ray, corners, winner.distance);
    nearest::next(Ok(None), winner.index, hit)
}

// Whether the tree's areas and the stack are long enough.
pub fn room_fits(
    count: usize,
    nodes: usize,
    node_boxes: &[f64],
    triangle_boxes: &[f64],
    node_words: &[u32],
    order: &[u32],
    stack: usize,
) -> bool
    requires { count ≤ 65536 }
    ensures { result ≡ (tree_fits count (tree_of nodes node_boxes.now triangle_boxes.now
        node_words.now order.now) && leb (nodes + 1) stack) }
{
    if !query::tree_fits(count, nodes, node_boxes, triangle_boxes, node_words, order) {
        return false;
    }
    nodes < stack
}

// The first point of the segment that lies in a triangle, sides and corners included, of those that the walk of any tree looks at.
// The stack is a work area: until refusals 1, 12 of the ray and 2 to 4 have let the call pass it is unchanged, and then it may hold
// anything.
// What `CastsExact` says last: at the mesh's own vertices, with any tree that passes the check and no NaN at a corner, the answer is the
// one without a tree.
pub fn ray_mesh_exact(
    ray: Ray,
    vertices: &[f64],
    triangles: &[u32],
    pose: &[f64],
    nodes: usize,
    node_boxes: &[f64],
    triangle_boxes: &[f64],
    node_words: &[u32],
    order: &[u32],
    stack: &mut [u32],
) -> IndexedCast
    ensures { CastsExact ray (mesh vertices.now triangles.now) pose.now
        (tree_of nodes node_boxes.now triangle_boxes.now node_words.now order.now)
        stack.old stack.new (says_indexed result) }
{
    if !ray.validate() {
        return Err(Refusal::InvalidInput);
    }
    if !view::admitted(ray) {
        return Err(Refusal::OutOfRange);
    }
    if !mesh_cast::shape_admitted(vertices.len(), triangles.len(), pose.len(), nodes) {
        return Err(Refusal::BadShape);
    }
    if !room_fits(
        triangles.len() / 3,
        nodes,
        node_boxes,
        triangle_boxes,
        node_words,
        order,
        stack.len(),
    ) {
        return Err(Refusal::NoRoom);
    }
    if pose.len() != vertices.len() {
        return Err(Refusal::WrongPose);
    }
    exact_through(
        ray,
        triangles,
        pose,
        nodes,
        node_boxes,
        triangle_boxes,
        node_words,
        order,
        stack,
    )
}
