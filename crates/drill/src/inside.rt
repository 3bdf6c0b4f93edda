ghost use Rattle.std.specs.Prelude.{◌≡◌, ◌&&◌, pos, ◌+ℤ◌, ◌-ℤ◌, ◌*ℤ◌, ℕ, ◌*◌, ◌^◌};
ghost use Rattle.std.specs.Int.Signed.{lt_z, le_z};
ghost use Rattle.wide_integers.specs.Sizes.{Sized};
ghost use Rattle.wide_integers.specs.Value.{value};
ghost use Rattle.wide_integers.specs.LongValue.{long_value};
ghost use Rattle.exact_triangle.specs.Line.{parts};
ghost use Rattle.exact_triangle.specs.Sizes.{SizedAt};
ghost use Rattle.drill.specs.Drill.{dot, square};
ghost use Rattle.drill.specs.Decision.{cross, cap_in, level};
ghost use Rattle.exact_depth.specs.declared.projection.Point.{Point as AnyPoint};
ghost use Rattle.drill.specs.Code.{vector_of, WaySized, steps_of, StepsSized, StepsOf, Reversed, between};

use crate::forms;
use crate::forms::Vector;
use exact_depth::projection::Point;
use exact_triangle::normal;
use wide_integers::number::Wide;
use wide_integers::triples::Long;
use wide_integers::{long, number};

// (p × q) · d.
pub fn weight(p: Point, q: Point, d: Point) -> Wide
    requires { (SizedAt (2 ^ 29) p × SizedAt (2 ^ 29) q) × SizedAt (2 ^ 31) d }
    ensures { (value result ≡ dot (cross p q) d) × Sized (3 * 2 ^ 92) (value result) }
{
    normal::dot(forms::cross(p, q), d)
}

// (q - r) a + (r - p) b + (p - q) c.
fn level_at(p: i64, q: i64, r: i64, a: i64, b: i64, c: i64) -> Wide
    requires { (Sized (3 * 2 ^ 60) p × (Sized (3 * 2 ^ 60) q × Sized (3 * 2 ^ 60) r))
        × (Sized (2 ^ 29) a × (Sized (2 ^ 29) b × Sized (2 ^ 29) c)) }
    ensures { (value result ≡ (q -ℤ r) *ℤ a +ℤ (r -ℤ p) *ℤ b +ℤ (p -ℤ q) *ℤ c) × Sized (2 ^ 94) (value result) }
{
    number::total(
        number::product(q - r, a),
        number::product(r - p, b),
        number::product(p - q, c),
    )
}

// The direction in which neither the heights p, q and r of a, b and c nor their plane are left.
pub fn level(p: i64, q: i64, r: i64, a: Point, b: Point, c: Point) -> Vector
    requires { (Sized (3 * 2 ^ 60) p × (Sized (3 * 2 ^ 60) q × Sized (3 * 2 ^ 60) r))
        × (SizedAt (2 ^ 29) a × (SizedAt (2 ^ 29) b × SizedAt (2 ^ 29) c)) }
    ensures { (vector_of result ≡ level p q r a b c) × WaySized result }
{
    Vector {
        x: level_at(p, q, r, a.x, b.x, c.x),
        y: level_at(p, q, r, a.y, b.y, c.y),
        z: level_at(p, q, r, a.z, b.z, c.z),
    }
}

// p · g.
fn along(p: Point, g: Vector) -> Wide
    requires { SizedAt (2 ^ 29) p × WaySized g }
    ensures { (value result ≡ dot p (vector_of g)) × Sized (3 * 2 ^ 123) (value result) }
{
    number::weighted(g.x, p.x, g.y, p.y, g.z, p.z)
}

// a b - c d.
fn turn(a: Wide, b: Wide, c: Wide, d: Wide) -> Long
    requires { (Sized (2 ^ 126) (value a) × Sized (2 ^ 126) (value b)) × (Sized (2 ^ 126) (value c) × Sized (2 ^ 126) (value d)) }
    ensures { long_value result ≡ value a *ℤ value b -ℤ value c *ℤ value d }
{
    long::difference(long::pair_product(a, b), long::pair_product(c, d))
}

// |g|².
pub fn square(g: Vector) -> Wide
    requires { WaySized g }
    ensures { value result ≡ square (vector_of g) }
{
    number::sum(
        number::sum(
            long::short_pair_product(g.x, g.x),
            long::short_pair_product(g.y, g.y),
        ),
        long::short_pair_product(g.z, g.z),
    )
}

// k² times the square of the direction's length.
fn cap_distance(k: Wide, length: Wide) -> Long
    requires { Sized (2 ^ 126) (value k) × Sized (2 ^ 64) (value length) }
    ensures { long_value result ≡ value k *ℤ value k *ℤ value length }
{
    long::product(long::short_pair_product(k, length), k)
}

// 2^60 times the radius' square times |g|².
fn cap_limit(area: i64, whole: Wide) -> Long
    ensures { long_value result ≡ area *ℤ (pos parts *ℤ pos parts) *ℤ value whole }
{
    long::product(number::product(area, 1152921504606846976), whole)
}

// Whether the line in which the triangle's plane crosses a cap's is within the radius of the cap's centre.
fn cap_near(area: i64, length: Wide, k: Wide, whole: Wide) -> bool
    requires { Sized (2 ^ 126) (value k) × Sized (2 ^ 64) (value length) }
    ensures { result ≡ (lt_z (pos 0) (value whole)
        && le_z (value k *ℤ value k *ℤ value length) (area *ℤ (pos parts *ℤ pos parts) *ℤ value whole)) }
{
    number::is_positive(whole) && long::at_most(cap_distance(k, length), cap_limit(area, whole))
}

// How far the corners are along a direction.
#[derive(Clone, Copy)]
pub struct Steps {
    pub a: Wide,
    pub b: Wide,
    pub c: Wide,
}

// .. from a cap.
pub fn steps_along(a: Point, b: Point, c: Point, g: Vector) -> Steps
    requires { (SizedAt (2 ^ 29) a × (SizedAt (2 ^ 29) b × SizedAt (2 ^ 29) c)) × WaySized g }
    ensures { StepsOf a b c (vector_of g) result }
{
    Steps {
        a: along(a, g),
        b: along(b, g),
        c: along(c, g),
    }
}

// .. the other way.
pub fn reversed(s: Steps) -> Steps
    requires { StepsSized s }
    ensures { Reversed s result }
{
    Steps {
        a: number::negate(s.a),
        b: number::negate(s.b),
        c: number::negate(s.c),
    }
}

// Whether the point nearest to a cap's centre, of the line in which the triangle's plane crosses the cap's, lies in the triangle: s is how
// far the corners are along that line, f how far they are from the cap.
fn cap_between(s: Steps, f: Steps) -> bool
    requires { StepsSized s × StepsSized f }
    ensures { result ≡ between (steps_of s) (steps_of f) }
{
    !long::is_negative(turn(s.b, f.c, s.c, f.b))
        && !long::is_negative(turn(s.c, f.a, s.a, f.c))
        && !long::is_negative(turn(s.a, f.b, s.b, f.a))
}

// Whether that point lies in the triangle and within the radius.
pub fn cap_in(area: i64, length: Wide, whole: Wide, k: Wide, s: Steps, f: Steps) -> bool
    requires { (Sized (2 ^ 126) (value k) × Sized (2 ^ 64) (value length)) × (StepsSized s × StepsSized f) }
    ensures { (ρ : ℕ) (d g a b c : AnyPoint) → area ≡ pos (ρ * ρ) → value length ≡ square d → value whole ≡ square g
        → steps_of s ≡ record { x = dot a g; y = dot b g; z = dot c g }
        → result ≡ cap_in ρ d g (value k) a b c (value f.a) (value f.b) (value f.c) }
{
    cap_between(s, f) && cap_near(area, length, k, whole)
}
