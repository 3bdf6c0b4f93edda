ghost use Rattle.std.specs.Prelude.{◌≡◌};
ghost use Rattle.geometry.specs.Spacing.{spacing_admitted};

use arithmetic::basic;

// Whether refusal 2 lets a spacing pass.
#[tactic(auto, unfolding(crate::specs::Spacing::spacing_admitted))]
pub fn spacing_admitted(spacing: f64) -> bool
    ensures { result ≡ spacing_admitted spacing }
{
    basic::is_finite(spacing) && 0.0 < spacing
}
