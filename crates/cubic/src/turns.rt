ghost use Rattle.std.specs.Prelude.{◌≡◌};
ghost use Rattle.cubic.specs.Turns.{listed, between_ends, kept_points, vertex, turning_points, extrema};

use crate::polynomial::Cubic;
use arithmetic::{basic, extremes, square_root};
use vectors::numbers;

// The points strictly between 0 and 1 where a cubic may turn: a list of two at most, which needs no heap.
#[derive(Clone, Copy)]
pub enum Turns {
    None,
    One(f64),
    Two(f64, f64),
}

// Strictly between 0 and 1.
#[tactic(auto, unfolding(crate::specs::Turns::between_ends))]
fn between_ends(u: f64) -> bool
    ensures { result ≡ between_ends u }
{
    u > 0.0 && u < 1.0
}

// Those of two points that lie strictly between 0 and 1.
#[tactic(auto, unfolding(crate::specs::Turns::kept_points, crate::specs::Turns::kept_point))]
fn kept_points(first: f64, second: f64) -> Turns
    ensures { listed result ≡ kept_points first second }
{
    if between_ends(first) {
        if between_ends(second) {
            return Turns::Two(first, second);
        }
        return Turns::One(first);
    }
    if between_ends(second) {
        return Turns::One(second);
    }
    Turns::None
}

// The point where a parabola turns; a line has none.
#[tactic(auto, unfolding(crate::specs::Turns::vertex, crate::specs::Turns::kept_point))]
fn vertex(derivative_b: f64, c: f64) -> Turns
    ensures { listed result ≡ vertex derivative_b c }
{
    if derivative_b != 0.0 {
        let root = -c / derivative_b;
        if between_ends(root) {
            return Turns::One(root);
        }
    }
    Turns::None
}

// The points where a cubic turns: the roots of its derivative.
#[tactic(auto, unfolding(crate::specs::Turns::turning_points, crate::specs::Turns::turning_by))]
fn turning_points(derivative_a: f64, derivative_b: f64, c: f64) -> Turns
    ensures { listed result ≡ turning_points derivative_a derivative_b c }
{
    let discriminant = derivative_b * derivative_b - 4.0 * derivative_a * c;
    if discriminant >= 0.0 {
        let root = square_root::root(discriminant);
        return kept_points(
            (-derivative_b - root) / (2.0 * derivative_a),
            (-derivative_b + root) / (2.0 * derivative_a),
        );
    }
    Turns::None
}

// The points strictly between 0 and 1 where a cubic turns. One with hardly a cubic term counts as a parabola.
#[tactic(auto, unfolding(crate::specs::Turns::extrema))]
pub fn extrema(cubic: Cubic) -> Turns
    ensures { listed result ≡ extrema cubic }
{
    let derivative_a = 3.0 * cubic.a;
    let derivative_b = 2.0 * cubic.b;
    if basic::abs(derivative_a) <= numbers::EPSILON * extremes::maximum(basic::abs(cubic.b), 1.0) {
        return vertex(derivative_b, cubic.c);
    }
    turning_points(derivative_a, derivative_b, cubic.c)
}
