ghost use Rattle.std.specs.Prelude.{◌≡◌, true, [], ◌∷◌, ◌+◌, ◌*◌, ◌<◌, ◌≤◌, length};
ghost use Rattle.std.proofs.lemmas.List.Edits.{sets};
ghost use Rattle.tree.specs.Layout.{box_numbers};
ghost use Rattle.tree.specs.Mesh.{mesh, thirds, triangle_box, triangle_fits, triangles_fit, boxes_written};

use crate::mesh;
use geometry::aabb::Aabb;

// A box's six numbers from a place on.
pub fn put_box(area: &mut [f64], place: usize, bounds: Aabb)
    requires { place + 6 ≤ length area.old }
    ensures { area.new ≡ sets area.old place (box_numbers bounds) }
{
    area[place] = bounds.min.x;
    area[place + 1] = bounds.min.y;
    area[place + 2] = bounds.min.z;
    area[place + 3] = bounds.max.x;
    area[place + 4] = bounds.max.y;
    area[place + 5] = bounds.max.z;
}

// A triangle's box in its place, or that an index is past the vertices or the box not valid.
fn put_triangle_box(vertices: &[f64], triangles: &[u32], index: usize, area: &mut [f64]) -> bool
    requires { (3 * index + 3 ≤ length triangles.now) × (6 * index + 6 ≤ length area.old) }
    ensures { (result ≡ triangle_fits (mesh vertices.now triangles.now) index)
        × (result ≡ true → area.new ≡ sets area.old (6 * index)
        (box_numbers (triangle_box vertices.now triangles.now index))) }
{
    if !mesh::corners_inside(vertices.len() / 3, triangles, index) {
        return false;
    }
    let bounds = mesh::triangle_box(vertices, triangles, index);
    if !bounds.is_valid() {
        return false;
    }
    put_box(area, 6 * index, bounds);
    true
}

// The boxes of all triangles in order, or that one does not fit; then the area holds anything.
pub fn put_triangle_boxes(vertices: &[f64], triangles: &[u32], area: &mut [f64]) -> bool
    requires { 6 * thirds (length triangles.now) ≤ length area.old }
    ensures { (result ≡ triangles_fit (mesh vertices.now triangles.now))
        × (result ≡ true → area.new ≡ boxes_written (mesh vertices.now triangles.now) area.old) }
{
    for i in 0..triangles.len() / 3 {
        if !put_triangle_box(vertices, triangles, i, area) {
            return false;
        }
    }
    true
}

// A node's three words from a place on.
pub fn put_words(area: &mut [u32], place: usize, kind: u32, first: usize, second: usize)
    requires { (place + 3 ≤ length area.old) × ((first < 4294967296) × (second < 4294967296)) }
    ensures { area.new ≡ sets area.old place (kind ∷ (first ∷ (second ∷ []))) }
{
    area[place] = kind;
    area[place + 1] = first as u32;
    area[place + 2] = second as u32;
}
