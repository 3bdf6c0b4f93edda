ghost use Rattle.std.specs.Prelude.{◌≡◌, ◌≤◌, length};
ghost use Rattle.nearest_hit.specs.Nearest.{says_indexed};
ghost use Rattle.tree.specs.Mesh.{thirds, mesh};
ghost use Rattle.tree.specs.Layout.{areas};
ghost use Rattle.tree_build.specs.Build.{build_of};
ghost use Rattle.mesh.specs.Through.{through_tree};
ghost use Rattle.records.specs.MeshAnswer.{mesh_answer};
ghost use Rattle.records.specs.Areas.{TreeRoom};

use crate::areas::TreeAreas;
use casts::answer::Refusal;
use geometry::ray::Ray;
use lists::fill;
use mesh::cast;
use nearest_hit::nearest::IndexedCast;
use tree_build::build;

// All areas but the vertices and triangles are work areas: they may hold anything afterwards.

// Builds the tree and casts through it. The build's work area is the list.
fn cast_built(
    ray: Ray,
    vertices: &[f64],
    triangles: &[u32],
    node_boxes: &mut [f64],
    triangle_boxes: &mut [f64],
    node_words: &mut [u32],
    order: &mut [u32],
    list: &mut [u32],
    stack: &mut [u32],
) -> IndexedCast
    ensures { says_indexed result ≡ through_tree ray (mesh vertices.now triangles.now) (length list.old)
        (length stack.old) (build_of (mesh vertices.now triangles.now)
        (areas node_boxes.old triangle_boxes.old node_words.old order.old)
        (length list.old)) }
{
    let nodes = build::build(
        vertices,
        triangles,
        node_boxes,
        triangle_boxes,
        node_words,
        order,
        list,
    )?;
    cast::ray_mesh(
        ray,
        vertices,
        triangles,
        vertices,
        nodes,
        node_boxes,
        triangle_boxes,
        node_words,
        order,
        list,
        stack,
    )
}

// Check 1, then the tree in areas filled with zeros.
fn cast_fresh(
    ray: Ray,
    vertices: &[f64],
    triangles: &[u32],
    node_boxes: &mut [f64],
    triangle_boxes: &mut [f64],
    node_words: &mut [u32],
    order: &mut [u32],
    list: &mut [u32],
    stack: &mut [u32],
) -> IndexedCast
    requires { TreeRoom (thirds (length triangles.now)) node_boxes.old triangle_boxes.old node_words.old order.old
        list.old stack.old }
    ensures { says_indexed result ≡ mesh_answer ray (mesh vertices.now triangles.now) }
{
    if !ray.validate() {
        return Err(Refusal::InvalidInput);
    }
    fill::zero_numbers(node_boxes);
    fill::zero_numbers(triangle_boxes);
    fill::zero_words(node_words);
    fill::zero_words(order);
    cast_built(
        ray,
        vertices,
        triangles,
        node_boxes,
        triangle_boxes,
        node_words,
        order,
        list,
        stack,
    )
}

// The tree is built in parts of the areas.
fn cast_cut(
    ray: Ray,
    vertices: &[f64],
    triangles: &[u32],
    node_boxes: &mut [f64; 8124],
    triangle_boxes: &mut [f64; 4062],
    node_words: &mut [u32; 4062],
    order: &mut [u32; 677],
    list: &mut [u32; 677],
    stack: &mut [u32; 1355],
) -> IndexedCast
    requires { length triangles.now ≤ 2031 }
    ensures { says_indexed result ≡ mesh_answer ray (mesh vertices.now triangles.now) }
{
    let count = triangles.len() / 3;
    let boxes = 12 * count;
    let words = 6 * count;
    let nodes = 2 * count + 1;
    cast_fresh(
        ray,
        vertices,
        triangles,
        &mut node_boxes[..boxes],
        &mut triangle_boxes[..words],
        &mut node_words[..words],
        &mut order[..count],
        &mut list[..count],
        &mut stack[..nodes],
    )
}

// The cast at a mesh.
pub fn mesh_answer(
    ray: Ray,
    vertices: &[f64],
    triangles: &[u32],
    areas: &mut TreeAreas,
) -> IndexedCast
    requires { length triangles.now ≤ 2031 }
    ensures { says_indexed result ≡ mesh_answer ray (mesh vertices.now triangles.now) }
{
    let TreeAreas {
        node_boxes,
        triangle_boxes,
        node_words,
        order,
        list,
        stack,
    } = areas;
    cast_cut(
        ray,
        vertices,
        triangles,
        node_boxes,
        triangle_boxes,
        node_words,
        order,
        list,
        stack,
    )
}
