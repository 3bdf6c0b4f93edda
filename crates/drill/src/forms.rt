ghost use Rattle.std.specs.Prelude.{◌≡◌, ◌||◌, ◌+ℤ◌, ◌-ℤ◌, ◌*ℤ◌, ◌*◌, ◌^◌};
ghost use Rattle.wide_integers.specs.Sizes.{Sized};
ghost use Rattle.wide_integers.specs.Value.{value};
ghost use Rattle.wide_integers.specs.Determinant.{determinant};
ghost use Rattle.wide_integers.specs.LongValue.{long_value};
ghost use Rattle.exact_triangle.specs.Sizes.{SizedAt, Near};
ghost use Rattle.exact_triangle.specs.Shear.{from};
ghost use Rattle.drill.specs.Drill.{dot, square};
ghost use Rattle.drill.specs.Decision.{cross, scale, minus};
ghost use Rattle.drill.specs.Code.{outside, vector_of, AcrossSized};

use exact_depth::projection::Point;
use wide_integers::number::Wide;
use wide_integers::triples::Long;
use wide_integers::{long, number};

// What lies where p does, from the origin.
pub fn from(origin: Point, p: Point) -> Point
    requires { Near origin × Near p }
    ensures { (result ≡ from origin p) × SizedAt (2 ^ 29) result }
{
    Point {
        x: p.x - origin.x,
        y: p.y - origin.y,
        z: p.z - origin.z,
    }
}

// a d - b c.
fn minor(a: i64, b: i64, c: i64, d: i64) -> i64
    requires { (Sized (2 ^ 29) a × Sized (2 ^ 29) b) × (Sized (2 ^ 31) c × Sized (2 ^ 31) d) }
    ensures { (result ≡ determinant a b c d) × Sized (2 ^ 61) result }
{
    a * d - b * c
}

// p × q.
pub fn cross(p: Point, q: Point) -> Point
    requires { SizedAt (2 ^ 29) p × SizedAt (2 ^ 31) q }
    ensures { (result ≡ cross p q) × SizedAt (2 ^ 61) result }
{
    Point {
        x: minor(p.y, p.z, q.y, q.z),
        y: minor(p.z, p.x, q.z, q.x),
        z: minor(p.x, p.y, q.x, q.y),
    }
}

// p · q, as one word.
pub fn height(p: Point, q: Point) -> i64
    requires { SizedAt (2 ^ 29) p × SizedAt (2 ^ 31) q }
    ensures { (result ≡ dot p q) × Sized (3 * 2 ^ 60) result }
{
    p.x * q.x + p.y * q.y + p.z * q.z
}

// p - q.
pub fn minus(p: Point, q: Point) -> Point
    requires { SizedAt (2 ^ 61) p × SizedAt (2 ^ 61) q }
    ensures { (result ≡ minus p q) × SizedAt (2 ^ 62) result }
{
    Point {
        x: p.x - q.x,
        y: p.y - q.y,
        z: p.z - q.z,
    }
}

// f w - g v.
pub fn blend(f: Wide, w: i64, g: Wide, v: i64) -> Wide
    requires { Sized (2 ^ 94) (value f) × Sized (2 ^ 94) (value g) }
    ensures { (value result ≡ value f *ℤ w -ℤ value g *ℤ v) × Sized (2 ^ 158) (value result) }
{
    number::difference(number::times(f, w), number::times(g, v))
}

// a b + c d.
pub fn pair(a: Wide, b: Wide, c: Wide, d: Wide) -> Long
    requires { (Sized (2 ^ 126) (value a) × Sized (2 ^ 126) (value b)) × (Sized (2 ^ 126) (value c) × Sized (2 ^ 126) (value d)) }
    ensures { long_value result ≡ value a *ℤ value b +ℤ value c *ℤ value d }
{
    long::sum(long::pair_product(a, b), long::pair_product(c, d))
}

// x² + y² + z².
pub fn squares(x: Wide, y: Wide, z: Wide) -> Long
    requires { Sized (2 ^ 158) (value x) × (Sized (2 ^ 158) (value y) × Sized (2 ^ 158) (value z)) }
    ensures { long_value result ≡ value x *ℤ value x +ℤ value y *ℤ value y +ℤ value z *ℤ value z }
{
    long::sum(
        long::sum(long::product(x, x), long::product(y, y)),
        long::product(z, z),
    )
}

// A vector of three words each.
#[derive(Clone, Copy)]
pub struct Vector {
    pub x: Wide,
    pub y: Wide,
    pub z: Wide,
}

// f w - g v.
pub fn crossing_at(v: Point, w: Point, f: Wide, g: Wide) -> Vector
    requires { Sized (2 ^ 94) (value f) × Sized (2 ^ 94) (value g) }
    ensures { (vector_of result ≡ minus (scale (value f) w) (scale (value g) v)) × AcrossSized result }
{
    Vector {
        x: blend(f, w.x, g, v.x),
        y: blend(f, w.y, g, v.y),
        z: blend(f, w.z, g, v.z),
    }
}

// Whether x is further from 0 than m.
fn outside(m: Wide, x: Wide) -> bool
    requires { Sized (2 ^ 158) (value m) }
    ensures { result ≡ outside (value m) (value x) }
{
    let n = number::negate(m);
    if number::below(m, x) {
        return number::below(n, x);
    }
    if number::below(x, m) {
        return number::below(x, n);
    }
    false
}

// Whether a coordinate is further from 0 than m.
pub fn far_across(m: Wide, p: Vector) -> bool
    requires { Sized (2 ^ 158) (value m) }
    ensures { result ≡ (outside (value m) (value p.x)
        || (outside (value m) (value p.y) || outside (value m) (value p.z))) }
{
    outside(m, p.x) || outside(m, p.y) || outside(m, p.z)
}

// |p|².
pub fn square_across(p: Vector) -> Long
    requires { AcrossSized p }
    ensures { long_value result ≡ square (vector_of p) }
{
    squares(p.x, p.y, p.z)
}

// k (f - g).
pub fn crossing_bound(k: i64, f: Wide, g: Wide) -> Wide
    requires { Sized (2 ^ 94) (value f) × Sized (2 ^ 94) (value g) }
    ensures { (value result ≡ (value f -ℤ value g) *ℤ k) × Sized (2 ^ 158) (value result) }
{
    number::times(number::difference(f, g), k)
}

// k (f - g)².
pub fn crossing_limit(k: Wide, f: Wide, g: Wide) -> Long
    requires { Sized (2 ^ 94) (value f) × Sized (2 ^ 94) (value g) }
    ensures { long_value result ≡ value k *ℤ ((value f -ℤ value g) *ℤ (value f -ℤ value g)) }
{
    let step = number::difference(f, g);
    long::product(k, long::short_pair_product(step, step))
}
