ghost use Rattle.std.specs.Prelude.{◌≡◌, pos, ◌^◌};
ghost use Rattle.wide_integers.specs.Sizes.{Sized};
ghost use Rattle.wide_integers.specs.Value.{value};
ghost use Rattle.drill.specs.Code.{from_axis_of, CornerSized, all_above, all_below, one_side_of, beyond};

use crate::corner::Corner;
use wide_integers::number;
use wide_integers::number::Wide;

// Whether all three are above m.
fn all_above(m: i64, x: i64, y: i64, z: i64) -> bool
    ensures { result ≡ all_above m x y z }
{
    m < x && m < y && m < z
}

// Whether all three are below m.
fn all_below(m: i64, x: i64, y: i64, z: i64) -> bool
    ensures { result ≡ all_below m x y z }
{
    x < m && y < m && z < m
}

// Whether all three are above the limit, or all below minus that.
fn one_side(limit: i64, x: i64, y: i64, z: i64) -> bool
    requires { Sized (2 ^ 54) limit }
    ensures { result ≡ one_side_of limit x y z }
{
    all_above(limit, x, y, z) || all_below(0 - limit, x, y, z)
}

// Whether all three are below 0.
fn all_negative(x: Wide, y: Wide, z: Wide) -> bool
    ensures { result ≡ all_below (pos 0) (value x) (value y) (value z) }
{
    number::is_negative(x) && number::is_negative(y) && number::is_negative(z)
}

// Whether the corners are all past a cap, or all on one side of the axis and further from it than the limit.
pub fn beyond(limit: i64, a: Corner, b: Corner, c: Corner) -> bool
    requires { Sized (2 ^ 54) limit × (CornerSized a × (CornerSized b × CornerSized c)) }
    ensures { result ≡ beyond limit (from_axis_of a) (from_axis_of b) (from_axis_of c) }
{
    all_negative(a.low, b.low, c.low)
        || all_negative(a.high, b.high, c.high)
        || one_side(limit, a.moment.x, b.moment.x, c.moment.x)
        || one_side(limit, a.moment.y, b.moment.y, c.moment.y)
        || one_side(limit, a.moment.z, b.moment.z, c.moment.z)
}
