ghost use Rattle.std.specs.Prelude.{◌≡◌};
ghost use Rattle.height_ranges.specs.RangesCast.{ray_height_ranges};
ghost use Rattle.results.specs.Results.{ray_from, field_of};
ghost use Rattle.exports.specs.Ranges.{answered_cell, KeepsPromise};

// The cast at a height grid with a low and a high for each node; both stand row after row.
// The second clause: what the number and the cell say keeps the promise about every grid within the ranges.
#[unsafe(no_mangle)]
pub extern "C" fn probe_ray_height_ranges(
    origin_x: f64,
    origin_y: f64,
    origin_z: f64,
    direction_x: f64,
    direction_y: f64,
    direction_z: f64,
    max_distance: f64,
    near_distance: f64,
    rows: usize,
    columns: usize,
    spacing_x: f64,
    spacing_y: f64,
    lows: &[f64],
    highs: &[f64],
    cell: &mut [u32],
) -> u32
    ensures cell_after { record { number = result; cell = cell.new }
        ≡ answered_cell (ray_height_ranges (ray_from origin_x origin_y origin_z direction_x direction_y direction_z max_distance
        near_distance) (field_of rows columns spacing_x spacing_y) lows.now highs.now) cell.old }
    ensures keeps_promise { KeepsPromise (ray_from origin_x origin_y origin_z direction_x direction_y direction_z max_distance
        near_distance) (field_of rows columns spacing_x spacing_y) lows.now highs.now cell.old
        (record { number = result; cell = cell.new }) }
{
    exports::ranges::probe_ray_height_ranges(
        origin_x,
        origin_y,
        origin_z,
        direction_x,
        direction_y,
        direction_z,
        max_distance,
        near_distance,
        rows,
        columns,
        spacing_x,
        spacing_y,
        lows,
        highs,
        cell,
    )
}
