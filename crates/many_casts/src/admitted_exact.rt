ghost use Rattle.std.specs.Prelude.{◌≡◌, ◌+◌, ◌&&◌, leb, length};
ghost use Rattle.nearest_hit.specs.Nearest.{says_indexed};
ghost use Rattle.tree.specs.Mesh.{thirds, mesh};
ghost use Rattle.tree.specs.Layout.{tree_of};
ghost use Rattle.tree_query.specs.Query.{tree_fits};
ghost use Rattle.many_casts.specs.Many.{exact_answer};
ghost use Rattle.many_casts.specs.Ready.{Ready};

use casts::answer::Refusal;
use exact_triangle::view;
use geometry::ray::Ray;
use nearest_hit::nearest::IndexedCast;
use tree_exact::cast;

// The exact cast of one ray, where the mesh, its tree and the areas have passed refusals 2 to 4.
pub fn cast_ray(
    ray: Ray,
    vertices: &[f64],
    triangles: &[u32],
    pose: &[f64],
    nodes: usize,
    node_boxes: &[f64],
    triangle_boxes: &[f64],
    node_words: &[u32],
    order: &[u32],
    stack: &mut [u32],
) -> IndexedCast
    requires { Ready (mesh vertices.now triangles.now) pose.now
        (tree_of nodes node_boxes.now triangle_boxes.now node_words.now order.now)
        (tree_fits (thirds (length triangles.now))
        (tree_of nodes node_boxes.now triangle_boxes.now node_words.now order.now)
        && leb (nodes + 1) (length stack.old)) }
    ensures { says_indexed result ≡ exact_answer (mesh vertices.now triangles.now) pose.now
        (tree_of nodes node_boxes.now triangle_boxes.now node_words.now order.now)
        (length stack.old) ray }
{
    if !ray.validate() {
        return Err(Refusal::InvalidInput);
    }
    if !view::admitted(ray) {
        return Err(Refusal::OutOfRange);
    }
    cast::exact_through(
        ray,
        triangles,
        pose,
        nodes,
        node_boxes,
        triangle_boxes,
        node_words,
        order,
        stack,
    )
}
