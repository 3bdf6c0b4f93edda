// Floats of 4 bytes that represent a float of 8 bytes exactly (document 02, M-113).
ghost use Rattle.std.specs.Prelude.{◌≡◌, ◌+◌, ◌*◌, ◌<◌};
ghost use Rattle.std.specs.Float.Ieee.{of_bits};
ghost use Rattle.std.specs.Float.{binary32};
ghost use Rattle.float_forms.specs.Short.{guess, short_of};

// The pattern of 4 bytes for a pattern of 8, if there is one; else any.
#[tactic(auto, unfolding(crate::specs::Short::guess, crate::specs::Short::guess_size))]
fn guess(bits: u64) -> u64
    ensures { (result ≡ guess bits) × (result < 4294967296) }
{
    let size = bits % 0x8000_0000_0000_0000;
    let sign = bits / 0x8000_0000_0000_0000 * 0x8000_0000;
    if size == 0x7ff0_0000_0000_0000 {
        return sign + 0x7f80_0000;
    }
    let exponent = size / 0x10_0000_0000_0000;
    if exponent >= 897 {
        return sign + (size / 0x2000_0000 - 0x1_c000_0000) % 0x8000_0000;
    }
    if exponent < 874 {
        return sign;
    }
    sign + ((0x10_0000_0000_0000 + size % 0x10_0000_0000_0000) >> (926 - exponent)) % 0x8000_0000
}

// The pattern of 4 bytes that stands for a float exactly, if there is one. A guess, which is tested: it is
// widened again, and its pattern compared.
#[tactic(auto, using(crate::proofs::Shorts::shorts))]
pub fn short_of(x: f64) -> Option<u32>
    ensures { result ≡ short_of x }
{
    if x != x {
        return None;
    }
    let bits = f64::to_bits(x);
    let pattern = guess(bits);
    if pattern % 0x8000_0000 > 0x7f80_0000 {
        return None;
    }
    let short = pattern as u32;
    let back = f32::from_bits(short) as f64;
    if f64::to_bits(back) != bits {
        return None;
    }
    Some(short)
}

// The float that a pattern of 4 bytes stands for.
#[tactic(auto, using(crate::proofs::Shorts::widening))]
pub fn float_of(short: u32) -> f64
    ensures { result ≡ of_bits binary32 short }
{
    if short % 0x8000_0000 > 0x7f80_0000 {
        return 0.0 / 0.0;
    }
    f32::from_bits(short) as f64
}
