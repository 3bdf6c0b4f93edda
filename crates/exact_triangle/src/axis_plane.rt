ghost use Rattle.std.specs.Prelude.{◌≡◌, true, pos, int_lt};
ghost use Rattle.wide_integers.specs.Sizes.{Sized};
ghost use Rattle.exact_triangle.specs.CrossingDistance.{Between, AtPlane, AxisPlane};

use crate::crossing;
use crate::crossing::CrossingDistance;

// The distance t / w of two numbers that are floats exactly, if it lies between the segment's ends: one division rounds it.
fn small_between_ends(t: i64, w: i64, start: f64, finish: f64) -> CrossingDistance
    requires { Sized 17592186044416 t × (Sized 2147483648 w × (int_lt (pos 0) w ≡ true)) }
    ensures { Between t w start finish result }
{
    if t < 0 {
        return CrossingDistance::Miss;
    }
    crossing::against_ends(t as f64 / w as f64, start, finish)
}

// The distance of the plane at p from the origin, at right angles to an axis, along which the direction is d.
fn at_plane(p: i64, d: i64, start: f64, finish: f64) -> CrossingDistance
    requires { Sized 536870912 p × Sized 2147483648 d }
    ensures { AtPlane p d start finish result }
{
    if 0 < d {
        return small_between_ends(p * 32768, d, start, finish);
    }
    if d < 0 {
        return small_between_ends(p * -32768, 0 - d, start, finish);
    }
    CrossingDistance::Undecided
}

// Three corners at a, b and c on an axis, the origin at o: where all three are equal, the distance of the plane there.
pub fn in_axis_plane(
    a: i64,
    b: i64,
    c: i64,
    o: i64,
    d: i64,
    start: f64,
    finish: f64,
) -> CrossingDistance
    requires { (Sized 268435456 a × (Sized 268435456 b × Sized 268435456 c)) × (Sized 268435456 o × Sized 2147483648 d) }
    ensures { AxisPlane a b c o d start finish result }
{
    if a == b {
        if a == c {
            return at_plane(a - o, d, start, finish);
        }
    }
    CrossingDistance::Undecided
}
