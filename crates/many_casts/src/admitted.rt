ghost use Rattle.std.specs.Prelude.{◌≡◌, length};
ghost use Rattle.nearest_hit.specs.Nearest.{says_indexed};
ghost use Rattle.tree.specs.Mesh.{thirds, mesh};
ghost use Rattle.tree.specs.Layout.{tree_of};
ghost use Rattle.tree_query.specs.Query.{walk_fits};
ghost use Rattle.many_casts.specs.Many.{mesh_answer};
ghost use Rattle.many_casts.specs.Ready.{Ready};

use casts::answer::Refusal;
use geometry::ray::Ray;
use mesh::cast;
use nearest_hit::nearest::IndexedCast;

// The mesh cast of one ray, where the mesh, its tree and the areas have passed refusals 2 to 4.
pub fn cast_ray(
    ray: Ray,
    vertices: &[f64],
    triangles: &[u32],
    pose: &[f64],
    nodes: usize,
    node_boxes: &[f64],
    triangle_boxes: &[f64],
    node_words: &[u32],
    order: &[u32],
    list: &mut [u32],
    stack: &mut [u32],
) -> IndexedCast
    requires { Ready (mesh vertices.now triangles.now) pose.now
        (tree_of nodes node_boxes.now triangle_boxes.now node_words.now order.now)
        (walk_fits (thirds (length triangles.now))
        (tree_of nodes node_boxes.now triangle_boxes.now node_words.now order.now) (length list.old) (length
        stack.old)) }
    ensures { says_indexed result ≡ mesh_answer (mesh vertices.now triangles.now) pose.now
        (tree_of nodes node_boxes.now triangle_boxes.now node_words.now order.now)
        (length list.old) (length stack.old) ray }
{
    if !ray.validate() {
        return Err(Refusal::InvalidInput);
    }
    cast::mesh_cast(
        ray,
        triangles,
        pose,
        nodes,
        node_boxes,
        triangle_boxes,
        node_words,
        order,
        list,
        stack,
    )
}
