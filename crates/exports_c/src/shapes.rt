ghost use Rattle.std.specs.Prelude.{◌≡◌};
ghost use Rattle.casts.specs.Plane.{ray_plane};
ghost use Rattle.triangle_cast.specs.Triangle.{ray_triangle};
ghost use Rattle.height_field.specs.Cast.{ray_height_field};
ghost use Rattle.level_set.specs.Walk.{ray_level_set};
ghost use Rattle.results.specs.Results.{version, ray_of, plane_of, corners_of, field_of, grid_of, answered};

// The version of these calls: it changes when one of them does.
#[unsafe(no_mangle)]
pub extern "C" fn probe_version() -> u32
    ensures { result ≡ version }
{
    exports::shapes::probe_version()
}

// The cast at a plane.
#[unsafe(no_mangle)]
pub extern "C" fn probe_ray_plane(
    origin_x: f64,
    origin_y: f64,
    origin_z: f64,
    direction_x: f64,
    direction_y: f64,
    direction_z: f64,
    max_distance: f64,
    normal_x: f64,
    normal_y: f64,
    normal_z: f64,
    distance: f64,
    hit: &mut [f64],
) -> u32
    ensures { record { number = result; hit = hit.new }
        ≡ answered (ray_plane (plane_of normal_x normal_y normal_z distance)
        (ray_of origin_x origin_y origin_z direction_x direction_y direction_z max_distance)) hit.old }
{
    exports::shapes::probe_ray_plane(
        origin_x,
        origin_y,
        origin_z,
        direction_x,
        direction_y,
        direction_z,
        max_distance,
        normal_x,
        normal_y,
        normal_z,
        distance,
        hit,
    )
}

// The cast at a triangle of corners a, b and c. On whole millimetres `exact_on_whole_numbers` (whole_numbers/proofs/WholeTriangles.antt)
// says of `ray_triangle`, with which the contract is an equation, where it hits, where it does not, and at which distance.
#[unsafe(no_mangle)]
pub extern "C" fn probe_ray_triangle(
    origin_x: f64,
    origin_y: f64,
    origin_z: f64,
    direction_x: f64,
    direction_y: f64,
    direction_z: f64,
    max_distance: f64,
    a_x: f64,
    a_y: f64,
    a_z: f64,
    b_x: f64,
    b_y: f64,
    b_z: f64,
    c_x: f64,
    c_y: f64,
    c_z: f64,
    hit: &mut [f64],
) -> u32
    ensures { record { number = result; hit = hit.new }
        ≡ answered (ray_triangle (ray_of origin_x origin_y origin_z direction_x direction_y direction_z max_distance)
        (corners_of a_x a_y a_z b_x b_y b_z c_x c_y c_z)) hit.old }
{
    exports::shapes::probe_ray_triangle(
        origin_x,
        origin_y,
        origin_z,
        direction_x,
        direction_y,
        direction_z,
        max_distance,
        a_x,
        a_y,
        a_z,
        b_x,
        b_y,
        b_z,
        c_x,
        c_y,
        c_z,
        hit,
    )
}

// The cast at a height grid; the heights stand row after row.
#[unsafe(no_mangle)]
pub extern "C" fn probe_ray_height_field(
    origin_x: f64,
    origin_y: f64,
    origin_z: f64,
    direction_x: f64,
    direction_y: f64,
    direction_z: f64,
    max_distance: f64,
    rows: usize,
    columns: usize,
    spacing_x: f64,
    spacing_y: f64,
    heights: &[f64],
    hit: &mut [f64],
) -> u32
    ensures { record { number = result; hit = hit.new }
        ≡ answered (ray_height_field (ray_of origin_x origin_y origin_z direction_x direction_y direction_z max_distance)
        (field_of rows columns spacing_x spacing_y) heights.now) hit.old }
{
    exports::shapes::probe_ray_height_field(
        origin_x,
        origin_y,
        origin_z,
        direction_x,
        direction_y,
        direction_z,
        max_distance,
        rows,
        columns,
        spacing_x,
        spacing_y,
        heights,
        hit,
    )
}

// The cast at a distance grid; the values stand x fastest, then y.
#[unsafe(no_mangle)]
pub extern "C" fn probe_ray_level_set(
    origin_x: f64,
    origin_y: f64,
    origin_z: f64,
    direction_x: f64,
    direction_y: f64,
    direction_z: f64,
    max_distance: f64,
    side_x: u32,
    side_y: u32,
    side_z: u32,
    grid_x: f64,
    grid_y: f64,
    grid_z: f64,
    spacing_x: f64,
    spacing_y: f64,
    spacing_z: f64,
    values: &[f64],
    hit: &mut [f64],
) -> u32
    ensures { record { number = result; hit = hit.new }
        ≡ answered (ray_level_set (ray_of origin_x origin_y origin_z direction_x direction_y direction_z max_distance)
        (grid_of side_x side_y side_z grid_x grid_y grid_z spacing_x spacing_y spacing_z) values.now)
        hit.old }
{
    exports::shapes::probe_ray_level_set(
        origin_x,
        origin_y,
        origin_z,
        direction_x,
        direction_y,
        direction_z,
        max_distance,
        side_x,
        side_y,
        side_z,
        grid_x,
        grid_y,
        grid_z,
        spacing_x,
        spacing_y,
        spacing_z,
        values,
        hit,
    )
}
