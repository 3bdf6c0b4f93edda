ghost use Rattle.std.specs.Prelude.{◌≡◌};
ghost use Rattle.cubic.specs.Polynomial.{cubic_of, finite_cubic, evaluate, root_tolerance};

use arithmetic::{basic, extremes};
use vectors::numbers;

// a·u³ + b·u² + c·u + d
#[derive(Clone, Copy)]
pub struct Cubic {
    pub a: f64,
    pub b: f64,
    pub c: f64,
    pub d: f64,
}

// The cubic through four values at 0, 1/3, 2/3 and 1.
#[tactic(auto, unfolding(crate::specs::Polynomial::cubic_of, crate::specs::Polynomial::cubic_by))]
pub fn cubic_of(y0: f64, y1: f64, y2: f64, y3: f64) -> Cubic
    ensures { result ≡ cubic_of y0 y1 y2 y3 }
{
    let delta1 = y1 - y0;
    let delta2 = y2 - 2.0 * y1 + y0;
    let delta3 = y3 - 3.0 * y2 + 3.0 * y1 - y0;
    Cubic {
        a: 4.5 * delta3,
        b: 4.5 * (delta2 - delta3),
        c: 3.0 * delta1 - 1.5 * delta2 + delta3,
        d: y0,
    }
}

#[tactic(auto, unfolding(crate::specs::Polynomial::finite_cubic))]
pub fn finite_cubic(cubic: Cubic) -> bool
    ensures { result ≡ finite_cubic cubic }
{
    basic::is_finite(cubic.a)
        && basic::is_finite(cubic.b)
        && basic::is_finite(cubic.c)
        && basic::is_finite(cubic.d)
}

#[tactic(auto, unfolding(crate::specs::Polynomial::evaluate))]
pub fn evaluate(cubic: Cubic, u: f64) -> f64
    ensures { result ≡ evaluate cubic u }
{
    ((cubic.a * u + cubic.b) * u + cubic.c) * u + cubic.d
}

// How small a value counts as zero.
#[tactic(auto, unfolding(crate::specs::Polynomial::root_tolerance))]
pub fn root_tolerance(cubic: Cubic) -> f64
    ensures { result ≡ root_tolerance cubic }
{
    let first = extremes::maximum(1.0, basic::abs(cubic.a));
    let second = extremes::maximum(first, basic::abs(cubic.b));
    let third = extremes::maximum(second, basic::abs(cubic.c));
    let scale = extremes::maximum(third, basic::abs(cubic.d));
    scale * numbers::EPSILON * 64.0
}
