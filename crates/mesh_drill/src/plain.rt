ghost use Rattle.std.specs.Prelude.{◌≡◌, true, length};
ghost use Rattle.tree.specs.Mesh.{mesh, lengths_admitted, triangles_fit};
ghost use Rattle.exact_triangle.specs.Grid.{grid_line};
ghost use Rattle.mesh_drill.specs.MeshDrill.{drill_all, mesh_read};
ghost use Rattle.mesh_drill.specs.Radius.{radius_on};
ghost use Rattle.mesh_drill.specs.Drilling.{says_drill, drill_plain, over_mesh, CertainRayDrill, DrillAdmitted};

use crate::answer::DrillCast;
use crate::{cylinder, pass, whole};
use casts::answer::Refusal;
use drill::corner;
use exact_triangle::view;
use geometry::ray::Ray;
use mesh_exact::bounds;
use mesh_plain::boxes;
use tree::mesh as triangle_mesh;

// The drill at a mesh whose triangles all have valid boxes within the range.
fn over_triangles(ray: Ray, radius: f64, vertices: &[f64], triangles: &[u32]) -> DrillCast
    requires { (DrillAdmitted ray radius) × ((lengths_admitted (length vertices.now) (length triangles.now) ≡ true)
        × ((triangles_fit (mesh vertices.now triangles.now) ≡ true) × (mesh_read (mesh vertices.now triangles.now) ≡ true))) }
    ensures { says_drill result ≡ drill_all (grid_line ray) (radius_on radius)
        (mesh vertices.now triangles.now) }
{
    let body = cylinder::cylinder_of(ray, radius);
    let around = cylinder::drill_box(body);
    let drill = corner::drill_of(
        body.origin,
        body.direction,
        body.near,
        body.far,
        body.radius,
    );
    let mut codes = [0u64; 32];
    let coded = boxes::coded(&mut codes, around, vertices);
    pass::first_touched(drill, around, coded, vertices, triangles)
}

// The drill once refusals 1, 12 of the ray and the radius and 2 have let it pass.
pub fn over_mesh(ray: Ray, radius: f64, vertices: &[f64], triangles: &[u32]) -> DrillCast
    requires { (DrillAdmitted ray radius) × (lengths_admitted (length vertices.now) (length triangles.now) ≡ true) }
    ensures { says_drill result ≡ over_mesh ray radius (mesh vertices.now triangles.now) }
{
    let within = bounds::all_within(vertices);
    if !whole::all_fit(within, vertices, triangles) {
        return Err(Refusal::OutOfBounds);
    }
    if !whole::all_read(within, vertices, triangles) {
        return Err(Refusal::OutOfRange);
    }
    over_triangles(ray, radius, vertices, triangles)
}

// Whether a drill of a radius in millimetres about a ray's segment touches a triangle of the mesh, with area or without, and the lowest
// index of one; on the grid of 2^-15 mm, without a tree.
// The second clause: clear is certain, and so is a touched triangle.
pub fn drill_plain(ray: Ray, radius: f64, vertices: &[f64], triangles: &[u32]) -> DrillCast
    ensures result_value { says_drill result ≡ drill_plain ray radius (mesh vertices.now triangles.now) }
    ensures certain_ray_drill { CertainRayDrill ray radius (mesh vertices.now triangles.now) (says_drill result) }
{
    if !ray.validate() {
        return Err(Refusal::InvalidInput);
    }
    if !cylinder::radius_admitted(radius) {
        return Err(Refusal::InvalidInput);
    }
    if !view::admitted(ray) {
        return Err(Refusal::OutOfRange);
    }
    if !cylinder::radius_read(radius) {
        return Err(Refusal::OutOfRange);
    }
    if !triangle_mesh::lengths_admitted(vertices.len(), triangles.len()) {
        return Err(Refusal::BadShape);
    }
    over_mesh(ray, radius, vertices, triangles)
}
