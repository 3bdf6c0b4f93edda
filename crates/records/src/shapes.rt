ghost use Rattle.std.specs.Prelude.{◌≡◌, [], ◌≤◌, length, drop};
ghost use Rattle.casts.specs.Answer.{says};
ghost use Rattle.height_field.specs.Cast.{ray_height_field};
ghost use Rattle.level_set.specs.Walk.{ray_level_set};
ghost use Rattle.record_bytes.specs.Kinds.{byte_of};
ghost use Rattle.record_text.specs.AnswerText.{answer_text};
ghost use Rattle.records.specs.Areas.{Sized};
ghost use Rattle.records.specs.Lines.{shape_text};
ghost use Rattle.records.specs.Shapes.{ray_by, plane_by, corners_by, field_by, grid_by, shape_from};

use casts::answer::Cast;
use casts::plane;
use casts::plane::Plane;
use distance_grid::grid::{Grid, Sides};
use geometry::ray::Ray;
use height_field::cast;
use height_field::field::Field;
use level_set::walk;
use record_bytes::kind::Kind;
use tree::layout;
use triangle_cast::triangle;
use vectors::vec3::Vec3;

// The ray of eight floats.
pub fn ray_by(numbers: &[f64]) -> Ray
    requires { 8 ≤ length numbers.now }
    ensures { result ≡ ray_by numbers.now }
{
    Ray {
        origin: layout::vector_at(numbers, 0),
        direction: layout::vector_at(numbers, 3),
        max_distance: numbers[6],
        near: numbers[7],
    }
}

// The plane.
#[tactic(auto, unfolding(crate::specs::Shapes::plane_by))]
fn plane_by(numbers: &[f64]) -> Plane
    requires { 4 ≤ length numbers.now }
    ensures { result ≡ plane_by numbers.now }
{
    Plane {
        normal: layout::vector_at(numbers, 0),
        distance: numbers[3],
    }
}

// The triangle.
#[tactic(auto, unfolding(crate::specs::Shapes::corners_by))]
fn corners_by(numbers: &[f64]) -> [Vec3; 3]
    requires { 9 ≤ length numbers.now }
    ensures { result ≡ corners_by numbers.now }
{
    [
        layout::vector_at(numbers, 0),
        layout::vector_at(numbers, 3),
        layout::vector_at(numbers, 6),
    ]
}

// The height grid, without its heights.
#[tactic(auto, unfolding(crate::specs::Shapes::field_by))]
fn field_by(counts: &[u32], numbers: &[f64]) -> Field
    requires { (2 ≤ length counts.now) × (2 ≤ length numbers.now) }
    ensures { result ≡ field_by counts.now numbers.now }
{
    Field {
        rows: counts[0] as usize,
        columns: counts[1] as usize,
        spacing_x: numbers[0],
        spacing_y: numbers[1],
    }
}

// The distance grid, without its values.
#[tactic(auto, unfolding(crate::specs::Shapes::grid_by))]
fn grid_by(counts: &[u32], numbers: &[f64]) -> Grid
    requires { (3 ≤ length counts.now) × (6 ≤ length numbers.now) }
    ensures { result ≡ grid_by counts.now numbers.now }
{
    Grid {
        sides: Sides {
            x: counts[0],
            y: counts[1],
            z: counts[2],
        },
        origin: layout::vector_at(numbers, 0),
        spacing: layout::vector_at(numbers, 3),
    }
}

// The cast at a height grid; its heights stand behind its two spacings.
fn heights_answer(ray: Ray, counts: &[u32], numbers: &[f64]) -> Cast
    requires { (2 ≤ length counts.now) × (2 ≤ length numbers.now) }
    ensures { says result ≡ ray_height_field ray (field_by counts.now numbers.now) (drop 2 numbers.now) }
{
    let field = field_by(counts, numbers);
    cast::ray_height_field(ray, field, &numbers[2..])
}

// The cast at a distance grid; its values stand behind its origin and its spacing.
fn values_answer(ray: Ray, counts: &[u32], numbers: &[f64]) -> Cast
    requires { (3 ≤ length counts.now) × (6 ≤ length numbers.now) }
    ensures { says result ≡ ray_level_set ray (grid_by counts.now numbers.now) (drop 6 numbers.now) }
{
    let grid = grid_by(counts, numbers);
    walk::ray_level_set(ray, grid, &numbers[6..])
}

// The cast at a shape that is no mesh.
pub fn shape_answer(kind: Kind, ray: Ray, counts: &[u32], numbers: &[f64]) -> Cast
    requires { Sized (byte_of kind) counts.now numbers.now × (byte_of kind ≡ 3 → ⊥) }
    ensures { answer_text (says result) ≡ shape_text ray (shape_from (byte_of kind) counts.now numbers.now []) }
{
    match kind {
        Kind::Plane => plane::ray_plane(plane_by(numbers), ray),
        Kind::Triangle => triangle::ray_triangle(ray, corners_by(numbers)),
        Kind::HeightGrid => heights_answer(ray, counts, numbers),
        _ => values_answer(ray, counts, numbers),
    }
}
