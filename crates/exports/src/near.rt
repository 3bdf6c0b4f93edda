ghost use Rattle.std.specs.Prelude.{◌≡◌};
ghost use Rattle.casts.specs.Plane.{ray_plane};
ghost use Rattle.triangle_cast.specs.Triangle.{ray_triangle};
ghost use Rattle.height_field.specs.Cast.{ray_height_field};
ghost use Rattle.level_set.specs.Walk.{ray_level_set};
ghost use Rattle.results.specs.Results.{ray_from, plane_of, corners_of, field_of, grid_of, answered};

use casts::plane;
use casts::plane::Plane;
use distance_grid::grid::{Grid, Sides};
use height_field::cast;
use height_field::field::Field;
use level_set::walk;
use triangle_cast::triangle;
use vectors::vec3::Vec3;

// The cast by its numbers, the near distance among them: one function for both calls, so that the cast is compiled into it.
// No two numbers stand side by side here that do so in the calls: they would be handed on by pairs, and a read of a pair waits for its two
// writes.
pub fn answer_plane(
    origin_x: f64,
    origin_y: f64,
    origin_z: f64,
    direction_x: f64,
    direction_y: f64,
    direction_z: f64,
    max_distance: f64,
    near_distance: f64,
    normal_x: f64,
    distance: f64,
    normal_z: f64,
    normal_y: f64,
    hit: &mut [f64],
) -> u32
    ensures { record { number = result; hit = hit.new }
        ≡ answered (ray_plane (plane_of normal_x normal_y normal_z distance)
        (ray_from origin_x origin_y origin_z direction_x direction_y direction_z max_distance near_distance))
        hit.old }
{
    let ray = results::ray_from(
        origin_x,
        origin_y,
        origin_z,
        direction_x,
        direction_y,
        direction_z,
        max_distance,
        near_distance,
    );
    let plane = Plane {
        normal: Vec3 {
            x: normal_x,
            y: normal_y,
            z: normal_z,
        },
        distance,
    };
    results::put_answer(plane::ray_plane(plane, ray), hit)
}

// The cast at a plane of a ray with a near distance.
pub fn probe_ray_plane_near(
    origin_x: f64,
    origin_y: f64,
    origin_z: f64,
    direction_x: f64,
    direction_y: f64,
    direction_z: f64,
    max_distance: f64,
    near_distance: f64,
    normal_x: f64,
    normal_y: f64,
    normal_z: f64,
    distance: f64,
    hit: &mut [f64],
) -> u32
    ensures { record { number = result; hit = hit.new }
        ≡ answered (ray_plane (plane_of normal_x normal_y normal_z distance)
        (ray_from origin_x origin_y origin_z direction_x direction_y direction_z max_distance near_distance))
        hit.old }
{
    answer_plane(
        origin_x,
        origin_y,
        origin_z,
        direction_x,
        direction_y,
        direction_z,
        max_distance,
        near_distance,
        normal_x,
        distance,
        normal_z,
        normal_y,
        hit,
    )
}

// The cast by its numbers, the near distance among them: one function for both calls, so that the cast is compiled into it.
// As in `answer_plane` no two numbers stand side by side that do so in the calls.
pub fn answer_triangle(
    origin_x: f64,
    origin_y: f64,
    origin_z: f64,
    direction_x: f64,
    direction_y: f64,
    direction_z: f64,
    max_distance: f64,
    near_distance: f64,
    a_x: f64,
    b_x: f64,
    c_x: f64,
    a_y: f64,
    b_y: f64,
    c_y: f64,
    a_z: f64,
    b_z: f64,
    c_z: f64,
    hit: &mut [f64],
) -> u32
    ensures { record { number = result; hit = hit.new }
        ≡ answered (ray_triangle (ray_from origin_x origin_y origin_z direction_x direction_y direction_z max_distance
        near_distance) (corners_of a_x a_y a_z b_x b_y b_z c_x c_y c_z)) hit.old }
{
    let ray = results::ray_from(
        origin_x,
        origin_y,
        origin_z,
        direction_x,
        direction_y,
        direction_z,
        max_distance,
        near_distance,
    );
    let a = Vec3 {
        x: a_x,
        y: a_y,
        z: a_z,
    };
    let b = Vec3 {
        x: b_x,
        y: b_y,
        z: b_z,
    };
    let c = Vec3 {
        x: c_x,
        y: c_y,
        z: c_z,
    };
    results::put_answer(triangle::ray_triangle(ray, [a, b, c]), hit)
}

// The cast at a triangle of corners a, b and c of a ray with a near distance.
pub fn probe_ray_triangle_near(
    origin_x: f64,
    origin_y: f64,
    origin_z: f64,
    direction_x: f64,
    direction_y: f64,
    direction_z: f64,
    max_distance: f64,
    near_distance: f64,
    a_x: f64,
    a_y: f64,
    a_z: f64,
    b_x: f64,
    b_y: f64,
    b_z: f64,
    c_x: f64,
    c_y: f64,
    c_z: f64,
    hit: &mut [f64],
) -> u32
    ensures { record { number = result; hit = hit.new }
        ≡ answered (ray_triangle (ray_from origin_x origin_y origin_z direction_x direction_y direction_z max_distance
        near_distance) (corners_of a_x a_y a_z b_x b_y b_z c_x c_y c_z)) hit.old }
{
    answer_triangle(
        origin_x,
        origin_y,
        origin_z,
        direction_x,
        direction_y,
        direction_z,
        max_distance,
        near_distance,
        a_x,
        b_x,
        c_x,
        a_y,
        b_y,
        c_y,
        a_z,
        b_z,
        c_z,
        hit,
    )
}

// The cast by its numbers, the near distance among them: one function for both calls, so that the cast is compiled into it.
pub fn answer_height_field(
    origin_x: f64,
    origin_y: f64,
    origin_z: f64,
    direction_x: f64,
    direction_y: f64,
    direction_z: f64,
    max_distance: f64,
    near_distance: f64,
    rows: usize,
    columns: usize,
    spacing_x: f64,
    spacing_y: f64,
    heights: &[f64],
    hit: &mut [f64],
) -> u32
    ensures { record { number = result; hit = hit.new }
        ≡ answered (ray_height_field (ray_from origin_x origin_y origin_z direction_x direction_y direction_z max_distance
        near_distance) (field_of rows columns spacing_x spacing_y) heights.now) hit.old }
{
    let ray = results::ray_from(
        origin_x,
        origin_y,
        origin_z,
        direction_x,
        direction_y,
        direction_z,
        max_distance,
        near_distance,
    );
    let field = Field {
        rows,
        columns,
        spacing_x,
        spacing_y,
    };
    results::put_answer(cast::ray_height_field(ray, field, heights), hit)
}

// The cast at a height grid of a ray with a near distance.
pub fn probe_ray_height_field_near(
    origin_x: f64,
    origin_y: f64,
    origin_z: f64,
    direction_x: f64,
    direction_y: f64,
    direction_z: f64,
    max_distance: f64,
    near_distance: f64,
    rows: usize,
    columns: usize,
    spacing_x: f64,
    spacing_y: f64,
    heights: &[f64],
    hit: &mut [f64],
) -> u32
    ensures { record { number = result; hit = hit.new }
        ≡ answered (ray_height_field (ray_from origin_x origin_y origin_z direction_x direction_y direction_z max_distance
        near_distance) (field_of rows columns spacing_x spacing_y) heights.now) hit.old }
{
    answer_height_field(
        origin_x,
        origin_y,
        origin_z,
        direction_x,
        direction_y,
        direction_z,
        max_distance,
        near_distance,
        rows,
        columns,
        spacing_x,
        spacing_y,
        heights,
        hit,
    )
}

// The cast by its numbers, the near distance among them: one function for both calls, so that the cast is compiled into it.
pub fn answer_level_set(
    origin_x: f64,
    origin_y: f64,
    origin_z: f64,
    direction_x: f64,
    direction_y: f64,
    direction_z: f64,
    max_distance: f64,
    near_distance: f64,
    side_x: u32,
    side_y: u32,
    side_z: u32,
    grid_x: f64,
    grid_y: f64,
    grid_z: f64,
    spacing_x: f64,
    spacing_y: f64,
    spacing_z: f64,
    values: &[f64],
    hit: &mut [f64],
) -> u32
    ensures { record { number = result; hit = hit.new }
        ≡ answered (ray_level_set (ray_from origin_x origin_y origin_z direction_x direction_y direction_z max_distance
        near_distance) (grid_of side_x side_y side_z grid_x grid_y grid_z spacing_x spacing_y spacing_z)
        values.now) hit.old }
{
    let ray = results::ray_from(
        origin_x,
        origin_y,
        origin_z,
        direction_x,
        direction_y,
        direction_z,
        max_distance,
        near_distance,
    );
    let grid = Grid {
        sides: Sides {
            x: side_x,
            y: side_y,
            z: side_z,
        },
        origin: Vec3 {
            x: grid_x,
            y: grid_y,
            z: grid_z,
        },
        spacing: Vec3 {
            x: spacing_x,
            y: spacing_y,
            z: spacing_z,
        },
    };
    results::put_answer(walk::ray_level_set(ray, grid, values), hit)
}

// The cast at a distance grid of a ray with a near distance.
pub fn probe_ray_level_set_near(
    origin_x: f64,
    origin_y: f64,
    origin_z: f64,
    direction_x: f64,
    direction_y: f64,
    direction_z: f64,
    max_distance: f64,
    near_distance: f64,
    side_x: u32,
    side_y: u32,
    side_z: u32,
    grid_x: f64,
    grid_y: f64,
    grid_z: f64,
    spacing_x: f64,
    spacing_y: f64,
    spacing_z: f64,
    values: &[f64],
    hit: &mut [f64],
) -> u32
    ensures { record { number = result; hit = hit.new }
        ≡ answered (ray_level_set (ray_from origin_x origin_y origin_z direction_x direction_y direction_z max_distance
        near_distance) (grid_of side_x side_y side_z grid_x grid_y grid_z spacing_x spacing_y spacing_z)
        values.now) hit.old }
{
    answer_level_set(
        origin_x,
        origin_y,
        origin_z,
        direction_x,
        direction_y,
        direction_z,
        max_distance,
        near_distance,
        side_x,
        side_y,
        side_z,
        grid_x,
        grid_y,
        grid_z,
        spacing_x,
        spacing_y,
        spacing_z,
        values,
        hit,
    )
}
