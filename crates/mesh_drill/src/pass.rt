ghost use Rattle.std.specs.Prelude.{◌≡◌, ℕ, ◌+◌, ◌*◌, ◌≤◌, true, length, IfSome};
ghost use Rattle.tree.specs.Mesh.{mesh, thirds, corners_inside, corners_of, triangles_fit};
ghost use Rattle.mesh_plain.specs.Boxes.{Coded};
ghost use Rattle.exact_triangle.specs.Line.{Line};
ghost use Rattle.exact_triangle.specs.Reach.{corners_read};
ghost use Rattle.drill.specs.Box.{drill_box};
ghost use Rattle.mesh_drill.specs.MeshDrill.{touched_at, drill_boxed, mesh_read};
ghost use Rattle.drill.specs.Code.{Drills, DrillSized};
ghost use Rattle.mesh_drill.specs.Code.{Runs};
ghost use Rattle.mesh_drill.specs.Drilling.{says_drill, reached_at};

use crate::answer::DrillCast;
use drill::corner::Drill;
use drill::touch;
use exact_triangle::grid;
use geometry::aabb::Aabb;
use mesh_plain::boxes;
use tree::mesh as triangle_mesh;

// Whether the drill touches a triangle, whose corners are in range.
pub fn is_touched(drill: Drill, vertices: &[f64], triangles: &[u32], index: usize) -> bool
    requires { ((3 * index + 3 ≤ length triangles.now)
        × (corners_inside (thirds (length vertices.now)) triangles.now index ≡ true))
        × ((DrillSized drill) × (corners_read (corners_of vertices.now triangles.now index) ≡ true)) }
    ensures { (l : Line) (ρ : ℕ) → Drills drill l ρ → Runs l
        → result ≡ touched_at l ρ (mesh vertices.now triangles.now) index }
{
    let corners = triangle_mesh::corners_of(vertices, triangles, index);
    let a = grid::grid_point(corners[0]);
    let b = grid::grid_point(corners[1]);
    let c = grid::grid_point(corners[2]);
    touch::touches(drill, a, b, c)
}

// The same, asked only where its box touches the drill's, bounds.
fn is_reached(
    drill: Drill,
    bounds: Aabb,
    codes: Option<&[u64]>,
    vertices: &[f64],
    triangles: &[u32],
    index: usize,
) -> bool
    requires { ((3 * index + 3 ≤ length triangles.now)
        × (corners_inside (thirds (length vertices.now)) triangles.now index ≡ true))
        × ((DrillSized drill) × ((corners_read (corners_of vertices.now triangles.now index) ≡ true)
        × (IfSome codes (λ told. Coded bounds vertices.now told.now)))) }
    ensures { (l : Line) (ρ : ℕ) → Drills drill l ρ → Runs l → bounds ≡ drill_box l ρ
        → result ≡ reached_at l ρ (mesh vertices.now triangles.now) index }
{
    if !boxes::triangle_touches(codes, bounds, vertices, triangles, index) {
        return false;
    }
    is_touched(drill, vertices, triangles, index)
}

// The first triangle that is touched.
pub fn first_touched(
    drill: Drill,
    bounds: Aabb,
    codes: Option<&[u64]>,
    vertices: &[f64],
    triangles: &[u32],
) -> DrillCast
    requires { (length triangles.now ≤ 196608) × ((DrillSized drill) × (((triangles_fit (mesh vertices.now triangles.now) ≡ true)
        × (mesh_read (mesh vertices.now triangles.now) ≡ true)) × (IfSome codes (λ told. Coded bounds vertices.now told.now)))) }
    ensures { (l : Line) (ρ : ℕ) → Drills drill l ρ → Runs l → bounds ≡ drill_box l ρ
        → says_drill result ≡ drill_boxed l ρ (mesh vertices.now triangles.now) }
{
    let count = triangles.len() / 3;
    for i in 0..count {
        if is_reached(drill, bounds, codes, vertices, triangles, i) {
            return Ok(Some(i as u32));
        }
    }
    Ok(None)
}
