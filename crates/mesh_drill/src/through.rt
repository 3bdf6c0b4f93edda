ghost use Rattle.std.specs.Prelude.{◌≡◌, ℕ, ◌+◌, ◌*◌, ◌≤◌, true, length, take};
ghost use Rattle.lists.specs.Lists.{all_below};
ghost use Rattle.tree.specs.Layout.{Tree, tree_of};
ghost use Rattle.tree.specs.Mesh.{mesh, thirds, lengths_admitted};
ghost use Rattle.tree_walk.specs.Areas.{WalkRoom};
ghost use Rattle.exact_triangle.specs.Line.{Line};
ghost use Rattle.drill.specs.Code.{Drills, DrillSized};
ghost use Rattle.mesh_drill.specs.Drilling.{says_drill, DrillAdmitted};
ghost use Rattle.mesh_drill.specs.Through.{drilled_at, first_answer, walked_by, root_read, over_tree, DrillsThrough};
ghost use Rattle.mesh_drill.specs.Code.{IsCylinder, Runs, CylinderSized};

use crate::answer::DrillCast;
use crate::cylinder::Cylinder;
use crate::{cylinder, pass, plain};
use casts::answer::Refusal;
use drill::corner;
use drill::corner::Drill;
use exact_triangle::{cast as triangle, grid, view};
use geometry::ray::Ray;
use mesh::cast as mesh_cast;
use tree::{layout, mesh as triangle_mesh};
use tree_query::{query, walk};

// The answer of one triangle.
fn drilled_at(drill: Drill, vertices: &[f64], triangles: &[u32], index: u32) -> DrillCast
    requires { (3 * index + 3 ≤ length triangles.now) × (DrillSized drill) }
    ensures { (l : Line) (ρ : ℕ) → Drills drill l ρ → Runs l
        → says_drill result ≡ drilled_at l ρ (mesh vertices.now triangles.now) index }
{
    let place = index as usize;
    if !triangle_mesh::corners_inside(vertices.len() / 3, triangles, place) {
        return Err(Refusal::OutOfBounds);
    }
    if !triangle::corners_read(triangle_mesh::corners_of(vertices, triangles, place)) {
        return Err(Refusal::OutOfRange);
    }
    if pass::is_touched(drill, vertices, triangles, place) {
        return Ok(Some(index));
    }
    Ok(None)
}

// The first answer that is not clear of the triangles in the first places of a list.
fn first_listed(
    drill: Drill,
    vertices: &[f64],
    triangles: &[u32],
    list: &[u32],
    found: usize,
) -> DrillCast
    requires { ((found ≤ length list.now) × (all_below (thirds (length triangles.now)) (take found list.now) ≡ true)) × (DrillSized drill) }
    ensures { (l : Line) (ρ : ℕ) → Drills drill l ρ → Runs l
        → says_drill result ≡ first_answer (drilled_at l ρ (mesh vertices.now triangles.now))
        (take found list.now) }
{
    for i in 0..found {
        if let Some(index) = drilled_at(drill, vertices, triangles, list[i])? {
            return Ok(Some(index));
        }
    }
    Ok(None)
}

// Whether the first node's box is within the range.
fn root_read(nodes: usize, node_boxes: &[f64]) -> bool
    requires { 6 * nodes ≤ length node_boxes.now }
    ensures { (t : Tree) → t.node_count ≡ nodes → t.node_boxes ≡ node_boxes.now → result ≡ root_read t }
{
    if nodes == 0 {
        return true;
    }
    let root = layout::box_at(node_boxes, 0);
    if !grid::all_within(grid::FURTHEST, root.min) {
        return false;
    }
    grid::all_within(grid::FURTHEST, root.max)
}

// The first answer that is not clear of the triangles in the first places of a list, for a drill on the grid.
fn over_list(
    body: Cylinder,
    vertices: &[f64],
    triangles: &[u32],
    list: &[u32],
    found: usize,
) -> DrillCast
    requires { ((found ≤ length list.now) × (all_below (thirds (length triangles.now)) (take found list.now) ≡ true))
        × (CylinderSized body) }
    ensures { (l : Line) (ρ : ℕ) → IsCylinder body l ρ → Runs l
        → says_drill result ≡ first_answer (drilled_at l ρ (mesh vertices.now triangles.now))
        (take found list.now) }
{
    let drill = corner::drill_of(
        body.origin,
        body.direction,
        body.near,
        body.far,
        body.radius,
    );
    first_listed(drill, vertices, triangles, list, found)
}

// The same of the triangles that the walk lists for the drill's box; the list and the stack may hold anything afterwards.
fn over_walk(
    body: Cylinder,
    vertices: &[f64],
    triangles: &[u32],
    nodes: usize,
    node_boxes: &[f64],
    triangle_boxes: &[f64],
    node_words: &[u32],
    order: &[u32],
    list: &mut [u32],
    stack: &mut [u32],
) -> DrillCast
    requires { (CylinderSized body) × ((length triangles.now ≤ 196608) × (WalkRoom (thirds (length triangles.now))
        (tree_of nodes node_boxes.now triangle_boxes.now node_words.now order.now) list.old stack.old)) }
    ensures { (l : Line) (ρ : ℕ) → IsCylinder body l ρ → Runs l
        → says_drill result ≡ walked_by l ρ (mesh vertices.now triangles.now)
        (tree_of nodes node_boxes.now triangle_boxes.now node_words.now order.now) }
{
    let count = triangles.len() / 3;
    let walked = walk::walk(
        cylinder::drill_box(body),
        count,
        nodes,
        node_boxes,
        triangle_boxes,
        node_words,
        order,
        list,
        stack,
    );
    let Some(found) = walked else {
        return Err(Refusal::OutOfBounds);
    };
    over_list(body, vertices, triangles, list, found)
}

// The drill once refusals 1, 12 of the ray and the radius, 2 and 3 have let it pass; the list and the stack may hold anything afterwards.
fn over_tree(
    ray: Ray,
    radius: f64,
    vertices: &[f64],
    triangles: &[u32],
    nodes: usize,
    node_boxes: &[f64],
    triangle_boxes: &[f64],
    node_words: &[u32],
    order: &[u32],
    list: &mut [u32],
    stack: &mut [u32],
) -> DrillCast
    requires { (DrillAdmitted ray radius) × ((lengths_admitted (length vertices.now) (length triangles.now) ≡ true)
        × (WalkRoom (thirds (length triangles.now))
        (tree_of nodes node_boxes.now triangle_boxes.now node_words.now order.now) list.old stack.old)) }
    ensures { says_drill result ≡ over_tree ray radius (mesh vertices.now triangles.now)
        (tree_of nodes node_boxes.now triangle_boxes.now node_words.now order.now) }
{
    if !root_read(nodes, node_boxes) {
        return plain::over_mesh(ray, radius, vertices, triangles);
    }
    over_walk(
        cylinder::cylinder_of(ray, radius),
        vertices,
        triangles,
        nodes,
        node_boxes,
        triangle_boxes,
        node_words,
        order,
        list,
        stack,
    )
}

// The same as the drill without a tree, of the triangles that the walk of any tree lists for the drill's box.
// The list, of as many places as there are triangles, and the stack are work areas: until refusals 1, 12 of the ray and the radius, 2 and 3
// have let the call pass they are unchanged, and then they may hold anything.
// What `DrillsThrough` says last: with any tree that passes the check and no NaN at a corner, the answer is the one without a tree.
pub fn drill_through(
    ray: Ray,
    radius: f64,
    vertices: &[f64],
    triangles: &[u32],
    nodes: usize,
    node_boxes: &[f64],
    triangle_boxes: &[f64],
    node_words: &[u32],
    order: &[u32],
    list: &mut [u32],
    stack: &mut [u32],
) -> DrillCast
    ensures { DrillsThrough ray radius (mesh vertices.now triangles.now)
        (tree_of nodes node_boxes.now triangle_boxes.now node_words.now order.now)
        list.old list.new stack.old stack.new (says_drill result) }
{
    if !ray.validate() {
        return Err(Refusal::InvalidInput);
    }
    if !cylinder::radius_admitted(radius) {
        return Err(Refusal::InvalidInput);
    }
    if !view::admitted(ray) {
        return Err(Refusal::OutOfRange);
    }
    if !cylinder::radius_read(radius) {
        return Err(Refusal::OutOfRange);
    }
    if !mesh_cast::shape_admitted(vertices.len(), triangles.len(), vertices.len(), nodes) {
        return Err(Refusal::BadShape);
    }
    if !query::walk_fits(
        triangles.len() / 3,
        nodes,
        node_boxes,
        triangle_boxes,
        node_words,
        order,
        list.len(),
        stack.len(),
    ) {
        return Err(Refusal::NoRoom);
    }
    over_tree(
        ray,
        radius,
        vertices,
        triangles,
        nodes,
        node_boxes,
        triangle_boxes,
        node_words,
        order,
        list,
        stack,
    )
}
