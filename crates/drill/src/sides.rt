ghost use Rattle.std.specs.Prelude.{◌≡◌, pos, ◌+ℤ◌, ◌*ℤ◌, ℕ, ◌*◌, ◌^◌};
ghost use Rattle.std.specs.Int.Signed.{le_z};
ghost use Rattle.wide_integers.specs.Sizes.{Sized};
ghost use Rattle.wide_integers.specs.Value.{value};
ghost use Rattle.exact_triangle.specs.Sizes.{SizedAt};
ghost use Rattle.drill.specs.Drill.{dot};
ghost use Rattle.drill.specs.Decision.{cross, corner_in, apart, crossing_in, foot_in, side_in};
ghost use Rattle.drill.specs.Code.{from_axis_of, CornerSized, FootOf, SideOf};

use crate::corner::Corner;
use crate::forms;
use exact_depth::projection::Point;
use exact_triangle::normal;
use wide_integers::number::Wide;
use wide_integers::{long, number};

// Whether a corner is in the drill.
pub fn corner_in(reach: Wide, p: Corner) -> bool
    ensures { result ≡ corner_in (value reach) (from_axis_of p) }
{
    !number::is_negative(p.low)
        && !number::is_negative(p.high)
        && number::at_most(normal::dot(p.moment, p.moment), reach)
}

// Whether one is below 0 and the other is not.
fn apart(f: Wide, g: Wide) -> bool
    ensures { result ≡ apart (value f) (value g) }
{
    number::is_negative(f) != number::is_negative(g)
}

// Whether a side crosses a cap within the radius.
fn crossing_in(reach: Wide, side: i64, v: Point, w: Point, f: Wide, g: Wide) -> bool
    requires { Sized (2 ^ 94) (value f) × Sized (2 ^ 94) (value g) }
    ensures { SideOf (value reach) side → result ≡ crossing_in (value reach) v w (value f) (value g) }
{
    if !apart(f, g) {
        return false;
    }
    let p = forms::crossing_at(v, w, f, g);
    if forms::far_across(forms::crossing_bound(side, f, g), p) {
        return false;
    }
    long::at_most(forms::square_across(p), forms::crossing_limit(reach, f, g))
}

// The weights of two corners.
#[derive(Clone, Copy)]
pub struct Weights {
    pub first: Wide,
    pub second: Wide,
}

// The weights of the point of a side's line that is nearest to the axis' line.
fn foot_of(v: Point, w: Point) -> Weights
    requires { SizedAt (2 ^ 61) v × SizedAt (2 ^ 61) w }
    ensures { FootOf v w result }
{
    let e = forms::minus(w, v);
    let first = normal::dot(w, e);
    let second = number::negate(normal::dot(v, e));
    Weights { first, second }
}

// Whether the distance of a side's line to the axis' is within the radius.
fn foot_near(area: i64, d: Point, p: Point, q: Point, i: Wide, j: Wide) -> bool
    requires { ((SizedAt (2 ^ 31) d × SizedAt (2 ^ 29) p) × SizedAt (2 ^ 29) q)
        × (Sized (2 ^ 125) (value i) × Sized (2 ^ 125) (value j)) }
    ensures { result ≡ le_z (dot (cross p q) d *ℤ dot (cross p q) d) (area *ℤ (value i +ℤ value j)) }
{
    let t = normal::dot(forms::cross(p, q), d);
    number::at_most(
        long::short_pair_product(t, t),
        number::times(number::sum(i, j), area),
    )
}

// Whether the point of a side's line that is nearest to the axis' lies inside the side, between the caps and within the radius.
fn foot_in(area: i64, d: Point, p: Corner, q: Corner) -> bool
    requires { SizedAt (2 ^ 31) d × (CornerSized p × CornerSized q) }
    ensures { (ρ : ℕ) → area ≡ pos (ρ * ρ) → result ≡ foot_in ρ d (from_axis_of p) (from_axis_of q) }
{
    let weights = foot_of(p.moment, q.moment);
    let i = weights.first;
    if !number::is_positive(i) {
        return false;
    }
    let j = weights.second;
    if !number::is_positive(j) {
        return false;
    }
    if !foot_near(area, d, p.at, q.at, i, j) {
        return false;
    }
    let low = forms::pair(i, p.low, j, q.low);
    if long::is_negative(low) {
        return false;
    }
    let high = forms::pair(i, p.high, j, q.high);
    !long::is_negative(high)
}

// Whether a side has a point in the drill, beside its corners.
pub fn side_in(area: i64, d: Point, reach: Wide, side: i64, p: Corner, q: Corner) -> bool
    requires { SizedAt (2 ^ 31) d × (CornerSized p × CornerSized q) }
    ensures { (ρ : ℕ) → area ≡ pos (ρ * ρ) → SideOf (value reach) side
        → result ≡ side_in ρ d (value reach) (from_axis_of p) (from_axis_of q) }
{
    crossing_in(reach, side, p.moment, q.moment, p.low, q.low)
        || crossing_in(reach, side, p.moment, q.moment, p.high, q.high)
        || foot_in(area, d, p, q)
}
