ghost use Rattle.std.specs.Prelude.{◌≡◌};
ghost use Rattle.cubic.specs.Halving.{middle_of, halve, halvings, settled};

use crate::polynomial;
use crate::polynomial::Cubic;
use arithmetic::basic;

// The interval after a halving, with the value at its low end, or a point within the tolerance: two states of a search, neither of which
// is a refusal.
#[derive(Clone, Copy)]
pub enum Halving {
    Open { low: f64, high: f64, low_value: f64 },
    Found(f64),
}

#[tactic(auto, unfolding(crate::specs::Halving::middle_of))]
fn middle_of(low: f64, high: f64) -> f64
    ensures { result ≡ middle_of low high }
{
    low * 0.5 + high * 0.5
}

// One halving: the half whose ends differ in sign, unless the middle is within the tolerance.
#[tactic(auto, unfolding(crate::specs::Halving::halve, crate::specs::Halving::halve_at))]
fn halve(cubic: Cubic, tolerance: f64, low: f64, high: f64, low_value: f64) -> Halving
    ensures { result ≡ halve cubic tolerance (Halving.Open low high low_value) }
{
    let middle = middle_of(low, high);
    let value = polynomial::evaluate(cubic, middle);
    if basic::abs(value) <= tolerance {
        return Halving::Found(middle);
    }
    if basic::is_sign_positive(value) == basic::is_sign_positive(low_value) {
        return Halving::Open {
            low: middle,
            high,
            low_value: value,
        };
    }
    Halving::Open {
        low,
        high: middle,
        low_value,
    }
}

// 64 halvings, or fewer where a middle is within the tolerance.
pub fn halvings(cubic: Cubic, tolerance: f64, start: f64, end: f64, start_value: f64) -> f64
    ensures { result ≡ settled (halvings cubic tolerance 64 (Halving.Open start end start_value)) }
{
    let mut low = start;
    let mut high = end;
    let mut low_value = start_value;
    for turn in 0..64_u32 {
        match halve(cubic, tolerance, low, high, low_value) {
            Halving::Found(u) => return u,
            Halving::Open {
                low: l,
                high: h,
                low_value: v,
            } => {
                low = l;
                high = h;
                low_value = v;
            }
        }
    }
    middle_of(low, high)
}
