ghost use Rattle.std.specs.Prelude.{◌≡◌, ◌&&◌, pos, neg_ℤ, ◌-ℤ◌, ◌*ℤ◌, ℕ, ◌*◌, ◌^◌, ◌≤◌};
ghost use Rattle.std.specs.Int.Signed.{le_z};
ghost use Rattle.wide_integers.specs.Sizes.{Sized};
ghost use Rattle.wide_integers.specs.Value.{value};
ghost use Rattle.exact_triangle.specs.Line.{Line, Moves};
ghost use Rattle.exact_triangle.specs.Sizes.{SizedAt, Near};
ghost use Rattle.drill.specs.Drill.{Decides};
ghost use Rattle.drill.specs.Decision.{nearest_in, touched_by};
ghost use Rattle.drill.specs.Code.{Drills, DrillSized, from_axis_of, CornerSized, PierceOf, PierceSized};
ghost use Rattle.drill.specs.Code.{CandidateSized, StepsSized, steps_of, FrameOf};
ghost use Rattle.drill.specs.Code.{outline_of, low_of, high_of, near_of, far_of, plane_of};

use crate::corner::{Corner, Drill};
use crate::inside::Steps;
use crate::{corner, inside, reject, sides};
use exact_depth::projection::Point;
use wide_integers::number;
use wide_integers::number::Wide;

// A triangle that a drill may touch, by its corners from the axis.
#[derive(Clone, Copy)]
pub struct Candidate {
    pub drill: Drill,
    pub a: Corner,
    pub b: Corner,
    pub c: Corner,
}

// Where the axis' line crosses a triangle's plane: the weights of that point, their sum, and how far it is past near and before far.
#[derive(Clone, Copy)]
pub struct Pierce {
    pub i: Wide,
    pub j: Wide,
    pub k: Wide,
    pub whole: Wide,
    pub low: Wide,
    pub high: Wide,
}

// t - near w.
fn above_near(t: Wide, near: i64, w: Wide) -> Wide
    requires { Sized (3 * 2 ^ 122) (value t) × (Sized (2 ^ 30) near × Sized (9 * 2 ^ 92) (value w)) }
    ensures { (value result ≡ value t -ℤ near *ℤ value w) × Sized (2 ^ 126) (value result) }
{
    number::difference(t, number::times(w, near))
}

// far w - t.
fn below_far(t: Wide, far: i64, w: Wide) -> Wide
    requires { Sized (3 * 2 ^ 122) (value t) × (Sized (2 ^ 30) far × Sized (9 * 2 ^ 92) (value w)) }
    ensures { (value result ≡ far *ℤ value w -ℤ value t) × Sized (2 ^ 126) (value result) }
{
    number::difference(number::times(w, far), t)
}

// Where the axis' line crosses the plane.
fn crossing(a: Point, b: Point, c: Point, d: Point, near: i64, far: i64) -> Pierce
    requires { (SizedAt (2 ^ 29) a × (SizedAt (2 ^ 29) b × SizedAt (2 ^ 29) c))
        × (SizedAt (2 ^ 31) d × (Sized (2 ^ 30) near × Sized (2 ^ 30) far)) }
    ensures { PierceOf a b c d near far result × PierceSized result }
{
    let i = inside::weight(b, c, d);
    let j = inside::weight(c, a, d);
    let k = inside::weight(a, b, d);
    let t = number::times(inside::weight(a, b, c), 1073741824);
    let whole = number::total(i, j, k);
    let low = above_near(t, near, whole);
    let high = below_far(t, far, whole);
    Pierce {
        i,
        j,
        k,
        whole,
        low,
        high,
    }
}

// Whether no weight is below 0.
fn weights_in(i: Wide, j: Wide, k: Wide) -> bool
    ensures { result ≡ (le_z (pos 0) (value i) && (le_z (pos 0) (value j) && le_z (pos 0) (value k))) }
{
    !number::is_negative(i) && !number::is_negative(j) && !number::is_negative(k)
}

// How far the corners are above near.
fn lows(a: Corner, b: Corner, c: Corner) -> Steps
    requires { CornerSized a × (CornerSized b × CornerSized c) }
    ensures { (steps_of result ≡ record { x = value a.low; y = value b.low; z = value c.low }) × StepsSized result }
{
    Steps {
        a: a.low,
        b: b.low,
        c: c.low,
    }
}

// How far the corners are below far.
fn highs(a: Corner, b: Corner, c: Corner) -> Steps
    requires { CornerSized a × (CornerSized b × CornerSized c) }
    ensures { (steps_of result ≡ record { x = value a.high; y = value b.high; z = value c.high }) × StepsSized result }
{
    Steps {
        a: a.high,
        b: b.high,
        c: c.high,
    }
}

// The line in which a triangle's plane crosses the caps' planes: the square of its direction, and how far the corners are along it.
#[derive(Clone, Copy)]
pub struct Frame {
    pub whole: Wide,
    pub steps: Steps,
}

fn frame_of(a: Corner, b: Corner, c: Corner) -> Frame
    requires { CornerSized a × (CornerSized b × CornerSized c) }
    ensures { FrameOf (from_axis_of a) (from_axis_of b) (from_axis_of c) result }
{
    let g = inside::level(a.height, b.height, c.height, a.at, b.at, c.at);
    let whole = inside::square(g);
    let steps = inside::steps_along(a.at, b.at, c.at, g);
    Frame { whole, steps }
}

// Whether the plane's point nearest to the near cap's centre, in that cap's plane, lies in the triangle and within the radius.
fn near_cap(t: Candidate, low: Wide) -> bool
    requires { CandidateSized t × Sized (2 ^ 126) (value low) }
    ensures { (l : Line) (ρ : ℕ) → Drills t.drill l ρ → value low ≡ low_of l (from_axis_of t.a) (from_axis_of t.b) (from_axis_of t.c)
        → result ≡ near_of l ρ (from_axis_of t.a) (from_axis_of t.b) (from_axis_of t.c) }
{
    let frame = frame_of(t.a, t.b, t.c);
    inside::cap_in(
        t.drill.area,
        t.drill.length,
        frame.whole,
        low,
        frame.steps,
        lows(t.a, t.b, t.c),
    )
}

// .. and to the far cap's. Not one function with `near_cap`: the law is another, of the steps reversed, and one function would ask which.
fn far_cap(t: Candidate, high: Wide) -> bool
    requires { CandidateSized t × Sized (2 ^ 126) (value high) }
    ensures { (l : Line) (ρ : ℕ) → Drills t.drill l ρ → value high ≡ high_of l (from_axis_of t.a) (from_axis_of t.b) (from_axis_of t.c)
        → result ≡ far_of l ρ (from_axis_of t.a) (from_axis_of t.b) (from_axis_of t.c) }
{
    let frame = frame_of(t.a, t.b, t.c);
    let back = inside::reversed(frame.steps);
    inside::cap_in(
        t.drill.area,
        t.drill.length,
        frame.whole,
        high,
        back,
        highs(t.a, t.b, t.c),
    )
}

// Whether the plane's point nearest to the axis' segment lies in the triangle and the drill, where the weights' sum is above 0.
fn crossed_forward(t: Candidate, p: Pierce) -> bool
    requires { CandidateSized t × PierceSized p }
    ensures { (l : Line) (ρ : ℕ) → Drills t.drill l ρ → value p.low ≡ low_of l (from_axis_of t.a) (from_axis_of t.b) (from_axis_of t.c)
        → value p.high ≡ high_of l (from_axis_of t.a) (from_axis_of t.b) (from_axis_of t.c)
        → result ≡ nearest_in (near_of l ρ (from_axis_of t.a) (from_axis_of t.b) (from_axis_of t.c))
        (far_of l ρ (from_axis_of t.a) (from_axis_of t.b) (from_axis_of t.c))
        (value p.i) (value p.j) (value p.k) (value p.low) (value p.high) }
{
    if number::is_negative(p.low) {
        return near_cap(t, p.low);
    }
    if number::is_negative(p.high) {
        return far_cap(t, p.high);
    }
    weights_in(p.i, p.j, p.k)
}

// .. and where it is below 0: each sign is told the other way, and only the weights are negated, where they are needed.
fn crossed_backward(t: Candidate, p: Pierce) -> bool
    requires { CandidateSized t × PierceSized p }
    ensures { (l : Line) (ρ : ℕ) → Drills t.drill l ρ → value p.low ≡ low_of l (from_axis_of t.a) (from_axis_of t.b) (from_axis_of t.c)
        → value p.high ≡ high_of l (from_axis_of t.a) (from_axis_of t.b) (from_axis_of t.c)
        → result ≡ nearest_in (near_of l ρ (from_axis_of t.a) (from_axis_of t.b) (from_axis_of t.c))
        (far_of l ρ (from_axis_of t.a) (from_axis_of t.b) (from_axis_of t.c))
        (neg_ℤ (value p.i)) (neg_ℤ (value p.j)) (neg_ℤ (value p.k)) (neg_ℤ (value p.low)) (neg_ℤ (value p.high)) }
{
    if number::is_positive(p.low) {
        return near_cap(t, p.low);
    }
    if number::is_positive(p.high) {
        return far_cap(t, p.high);
    }
    let i = number::negate(p.i);
    let j = number::negate(p.j);
    let k = number::negate(p.k);
    weights_in(i, j, k)
}

// Whether the plane's point nearest to the axis' segment lies in the triangle and the drill.
fn plane_in(t: Candidate) -> bool
    requires { CandidateSized t }
    ensures { (l : Line) (ρ : ℕ) → Drills t.drill l ρ → result ≡ plane_of l ρ (from_axis_of t.a) (from_axis_of t.b) (from_axis_of t.c) }
{
    let p = crossing(
        t.a.at,
        t.b.at,
        t.c.at,
        t.drill.direction,
        t.drill.start,
        t.drill.end,
    );
    if number::is_positive(p.whole) {
        return crossed_forward(t, p);
    }
    if number::is_negative(p.whole) {
        return crossed_backward(t, p);
    }
    near_cap(t, p.low)
}

// Whether a corner or a side is in the drill.
fn outline_in(t: Candidate) -> bool
    requires { CandidateSized t }
    ensures { (l : Line) (ρ : ℕ) → Drills t.drill l ρ → result ≡ outline_of l ρ (from_axis_of t.a) (from_axis_of t.b) (from_axis_of t.c) }
{
    let reach = t.drill.reach;
    let d = t.drill.direction;
    let area = t.drill.area;
    let side = t.drill.side;
    sides::corner_in(reach, t.a)
        || sides::corner_in(reach, t.b)
        || sides::corner_in(reach, t.c)
        || sides::side_in(area, d, reach, side, t.a, t.b)
        || sides::side_in(area, d, reach, side, t.b, t.c)
        || sides::side_in(area, d, reach, side, t.c, t.a)
}

// Whether the drill touches the triangle, by its corners from the axis.
fn touched_by(t: Candidate) -> bool
    requires { CandidateSized t }
    ensures { (l : Line) (ρ : ℕ) → Drills t.drill l ρ → result ≡ touched_by l ρ (from_axis_of t.a) (from_axis_of t.b) (from_axis_of t.c) }
{
    outline_in(t) || plane_in(t)
}

// Whether the drill touches the triangle, by what it means: a triangle past a cap or to one side of the axis is clear at once.
pub fn touches(drill: Drill, a: Point, b: Point, c: Point) -> bool
    requires { DrillSized drill × (Near a × (Near b × Near c)) }
    ensures { (l : Line) (ρ : ℕ) → Drills drill l ρ → Moves l.direction → l.near ≤ l.far → Decides l ρ a b c result }
{
    let first = corner::corner_at(drill, a);
    let second = corner::corner_at(drill, b);
    let third = corner::corner_at(drill, c);
    !reject::beyond(drill.side, first, second, third)
        && touched_by(Candidate {
            drill,
            a: first,
            b: second,
            c: third,
        })
}
