ghost use Rattle.std.specs.Prelude.{◌≡◌, true, ◌*◌, ◌<◌};
ghost use Rattle.std.specs.Float.{nan};
ghost use Rattle.std.specs.Float.Ieee.{top, to_bits};
ghost use Rattle.float_forms.specs.Forms.{format_of};
ghost use Rattle.float_forms.specs.Representable.{representable, fits_in};
ghost use Rattle.float_forms.specs.Representable.{pattern_for};

use crate::forms::Form;
use crate::short;

// In eight bytes every number is representable.
#[tactic(auto, using(crate::proofs::RepresentableLaws::long_patterns))]
fn long_for(x: f64) -> Option<u64>
    ensures { result ≡ pattern_for Form.Long x }
{
    if x != x {
        return None;
    }
    Some(f64::to_bits(x))
}

#[tactic(auto, using(crate::proofs::RepresentableLaws::short_representable, crate::proofs::RepresentableLaws::short_unrepresentable))]
fn short_for(x: f64) -> Option<u64>
    ensures { result ≡ pattern_for Form.Short x }
{
    let bits = short::short_of(x)?;
    Some(u64::from(bits))
}

// The pattern that stands for a float exactly, if the form has one.
#[tactic(auto, using(crate::proofs::RepresentableLaws::first_pattern))]
pub fn pattern_for(form: Form, x: f64) -> Option<u64>
    ensures { result ≡ pattern_for form x }
{
    match form {
        Form::First | Form::Long => long_for(x),
        Form::Short => short_for(x),
    }
}

#[tactic(auto, using(crate::proofs::RepresentableLaws::by_pattern))]
pub fn is_representable(form: Form, x: f64) -> bool
    ensures { result ≡ representable form x }
{
    pattern_for(form, x).is_some()
}

// The pattern that stands for NaN.
#[tactic(auto, using(crate::proofs::RepresentableLaws::long_nan, crate::proofs::RepresentableLaws::short_nan))]
fn nan_bits(form: Form) -> u64
    ensures { result ≡ to_bits (format_of form) nan }
{
    match form {
        Form::First | Form::Long => 0x7ff8_0000_0000_0000,
        Form::Short => 0x7fc0_0000,
    }
}

// The pattern of a float of the form's format. One that no pattern stands for is NaN.
#[tactic(auto, using(crate::proofs::RepresentableLaws::number_stands))]
pub fn bits_for(form: Form, x: f64) -> u64
    requires { fits_in form x ≡ true }
    ensures { (result ≡ to_bits (format_of form) x) × (result < 2 * top (format_of form)) }
{
    match pattern_for(form, x) {
        Some(bits) => bits,
        None => nan_bits(form),
    }
}
