ghost use Rattle.std.specs.Prelude.{◌≡◌, [], ◌∷◌};
ghost use Rattle.vectors.specs.Numbers.{zeroᶠ, oneᶠ};
ghost use Rattle.cubic.specs.Turns.{listed, AllBetween};
ghost use Rattle.cubic.specs.Roots.{says_found, says_root, root_between, search_on, points, search_list, root_of_cubic, first_cubic_root};

use crate::polynomial::Cubic;
use crate::turns::Turns;
use crate::{halving, polynomial, turns};
use arithmetic::{basic, ordering};

// A coefficient of the cubic is not finite.
#[derive(Clone, Copy, Debug, PartialEq, Eq)]
pub struct Overflow;

// Where between 0 and 1 a root lies, if one does.
pub type Root = Result<Option<f64>, Overflow>;

// The root between two points that no turn separates: the low end before the high end.
#[tactic(auto, unfolding(crate::specs::Roots::root_between))]
fn root_between(cubic: Cubic, tolerance: f64, low: f64, high: f64) -> Option<f64>
    ensures { says_found result ≡ root_between cubic tolerance low high }
{
    let low_value = polynomial::evaluate(cubic, low);
    let high_value = polynomial::evaluate(cubic, high);
    if basic::abs(low_value) <= tolerance {
        return Some(low);
    }
    if basic::abs(high_value) <= tolerance {
        return Some(high);
    }
    if basic::is_sign_positive(low_value) == basic::is_sign_positive(high_value) {
        return None;
    }
    Some(halving::halvings(cubic, tolerance, low, high, low_value))
}

// A root that was found, or else one between two points.
#[tactic(auto, unfolding(crate::specs::Roots::search_on))]
fn search_on(found: Option<f64>, cubic: Cubic, tolerance: f64, low: f64, high: f64) -> Option<f64>
    ensures { says_found result ≡ search_on (says_found found) cubic tolerance low high }
{
    if found.is_some() {
        return found;
    }
    root_between(cubic, tolerance, low, high)
}

// The first root between 0, two points in order, and 1.
#[tactic(auto, unfolding(crate::specs::Roots::search_list, crate::specs::Roots::search_from))]
fn search_two(cubic: Cubic, tolerance: f64, first: f64, second: f64) -> Option<f64>
    ensures { says_found result ≡ search_list cubic tolerance (zeroᶠ ∷ first ∷ second ∷ oneᶠ ∷ []) }
{
    let start = search_on(None, cubic, tolerance, 0.0, first);
    let middle = search_on(start, cubic, tolerance, first, second);
    search_on(middle, cubic, tolerance, second, 1.0)
}

// The first root between 0, the points where the cubic turns, and 1.
fn search_turns(cubic: Cubic, tolerance: f64, turns: Turns) -> Option<f64>
    requires { AllBetween (listed turns) }
    ensures { says_found result ≡ search_list cubic tolerance (points (listed turns)) }
{
    match turns {
        Turns::None => search_on(None, cubic, tolerance, 0.0, 1.0),
        Turns::One(u) => {
            let start = search_on(None, cubic, tolerance, 0.0, u);
            search_on(start, cubic, tolerance, u, 1.0)
        }
        Turns::Two(u, v) => {
            if ordering::total_order(u, v) {
                return search_two(cubic, tolerance, u, v);
            }
            search_two(cubic, tolerance, v, u)
        }
    }
}

#[tactic(auto, unfolding(crate::specs::Roots::root_of_cubic))]
fn root_of_cubic(cubic: Cubic) -> Root
    ensures { says_root result ≡ root_of_cubic cubic }
{
    if !polynomial::finite_cubic(cubic) {
        return Err(Overflow);
    }
    Ok(search_turns(
        cubic,
        polynomial::root_tolerance(cubic),
        turns::extrema(cubic),
    ))
}

// The first root of the cubic through four values at 0, 1/3, 2/3 and 1.
#[tactic(auto, unfolding(crate::specs::Roots::first_cubic_root))]
pub fn first_cubic_root(samples: [f64; 4]) -> Root
    ensures { says_root result ≡ first_cubic_root samples }
{
    let [y0, y1, y2, y3] = samples;
    root_of_cubic(polynomial::cubic_of(y0, y1, y2, y3))
}
