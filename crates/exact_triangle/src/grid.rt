ghost use Rattle.std.specs.Prelude.{◌≡◌, true};
ghost use Rattle.wide_integers.specs.Sizes.{Sized};
ghost use Rattle.exact_triangle.specs.Line.{parts};
ghost use Rattle.exact_triangle.specs.Grid.{units, nearest_to, within, all_within, two, furthest, longest, grid_point, point_to};
ghost use Rattle.exact_triangle.specs.Sizes.{Near, DirectionSized};

use exact_depth::projection::Point;
use vectors::vec3::Vec3;

// Each component of a direction is up to here ..
pub const TWO: f64 = 2.0;

// .. each coordinate up to here ..
pub const FURTHEST: f64 = 8192.0;

// .. and each distance up to here.
pub const LONGEST: f64 = 32768.0;

// The units of a millimetre.
const UNITS: f64 = 32768.0;

// The parts of a direction's component.
const PARTS: f64 = 1073741824.0;

// 1.5 · 2^52: the floats about it are the whole numbers.
const ROUNDER: f64 = 6755399441055744.0;

// Whether x is from -b to b; a NaN is not.
pub fn within(b: f64, x: f64) -> bool
    ensures { result ≡ within b x }
{
    if x <= b {
        return -b <= x;
    }
    false
}

pub fn all_within(b: f64, v: Vec3) -> bool
    ensures { result ≡ all_within b v }
{
    if !within(b, v.x) {
        return false;
    }
    if !within(b, v.y) {
        return false;
    }
    within(b, v.z)
}

// The coordinate on the grid that is nearest.
pub fn coordinate(x: f64) -> i64
    requires { within furthest x ≡ true }
    ensures { (result ≡ nearest_to units x) × Sized 268435456 result }
{
    (x * UNITS + ROUNDER - ROUNDER) as i64
}

// The distance on the grid that is nearest.
pub fn distance(x: f64) -> i64
    requires { within longest x ≡ true }
    ensures { (result ≡ nearest_to units x) × Sized 1073741824 result }
{
    (x * UNITS + ROUNDER - ROUNDER) as i64
}

// A direction's component in parts of 2^-30.
pub fn component(x: f64) -> i64
    requires { within two x ≡ true }
    ensures { (result ≡ nearest_to parts x) × Sized 2147483648 result }
{
    (x * PARTS + ROUNDER - ROUNDER) as i64
}

// A point on the grid.
pub fn grid_point(v: Vec3) -> Point
    requires { all_within furthest v ≡ true }
    ensures { (result ≡ grid_point v) × Near result }
{
    Point {
        x: coordinate(v.x),
        y: coordinate(v.y),
        z: coordinate(v.z),
    }
}

// A direction in parts of 2^-30.
pub fn direction_of(v: Vec3) -> Point
    requires { all_within two v ≡ true }
    ensures { (result ≡ point_to parts v) × DirectionSized result }
{
    Point {
        x: component(v.x),
        y: component(v.y),
        z: component(v.z),
    }
}
