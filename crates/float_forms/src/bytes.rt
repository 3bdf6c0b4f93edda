ghost use Rattle.std.specs.Prelude.{◌≡◌, ◌+◌, ◌*◌, ◌<◌, ◌≤◌, length, drop};
ghost use Rattle.std.proofs.lemmas.List.Edits.{sets};
ghost use Rattle.std.specs.Float.Ieee.{top};
ghost use Rattle.float_forms.specs.Forms.{size_of, format_of};
ghost use Rattle.float_forms.specs.Bytes.{word_of, word_bytes, pattern_bytes, number_of};

use crate::forms::Form;
use crate::{reader, short};

// The u32 whose four bytes begin at a place.
#[tactic(auto, using(crate::proofs::PlaceLaws::word_at_place))]
pub fn word_at(bytes: &[u8], place: usize) -> u64
    requires { place + 4 ≤ length bytes.now }
    ensures { (result ≡ word_of (drop place bytes.now)) × (result < 4294967296) }
{
    let high = reader::byte_at(bytes, place) * 256 + reader::byte_at(bytes, place + 1);
    let low = reader::byte_at(bytes, place + 2) * 256 + reader::byte_at(bytes, place + 3);
    high * 65536 + low
}

// The float whose eight bytes begin at a place. A NaN pattern has no from_bits: it is made by 0/0.
#[tactic(auto, using(crate::proofs::PlaceLaws::long_reads))]
fn long_at(bytes: &[u8], place: usize) -> f64
    requires { place + 8 ≤ length bytes.now }
    ensures { result ≡ number_of Form.Long (drop place bytes.now) }
{
    let Some(bits) = reader::word_at(bytes, place) else {
        return 0.0 / 0.0;
    };
    if bits % 0x8000_0000_0000_0000 > 0x7ff0_0000_0000_0000 {
        return 0.0 / 0.0;
    }
    f64::from_bits(bits)
}

// The float whose four bytes begin at a place.
#[tactic(auto, using(crate::proofs::PlaceLaws::short_number_lem))]
fn short_at(bytes: &[u8], place: usize) -> f64
    requires { place + 4 ≤ length bytes.now }
    ensures { result ≡ number_of Form.Short (drop place bytes.now) }
{
    let word = word_at(bytes, place);
    short::float_of(word as u32)
}

// The float that begins at a place.
#[tactic(auto, using(crate::proofs::PlaceLaws::first_number))]
pub fn number_at(form: Form, bytes: &[u8], place: usize) -> f64
    requires { place + size_of form ≤ length bytes.now }
    ensures { result ≡ number_of form (drop place bytes.now) }
{
    match form {
        Form::First | Form::Long => long_at(bytes, place),
        Form::Short => short_at(bytes, place),
    }
}

// A u32's four bytes from a place on; the rest stays as it was.
#[tactic(auto, unfolding(crate::specs::Bytes::word_bytes))]
pub fn put_word(out: &mut [u8], place: usize, word: u64)
    requires { (place + 4 ≤ length out.old) × (word < 4294967296) }
    ensures { out.new ≡ sets out.old place (word_bytes word) }
{
    out[place] = (word / 256 / 256 / 256 % 256) as u8;
    out[place + 1] = (word / 256 / 256 % 256) as u8;
    out[place + 2] = (word / 256 % 256) as u8;
    out[place + 3] = (word % 256) as u8;
}

// A float's eight bytes from a place on, from its pattern.
#[tactic(auto, using(crate::proofs::PlaceLaws::put_long))]
fn put_long(out: &mut [u8], place: usize, bits: u64)
    requires { place + 8 ≤ length out.old }
    ensures { out.new ≡ sets out.old place (pattern_bytes Form.Long bits) }
{
    put_word(out, place, bits / 4294967296);
    put_word(out, place + 4, bits % 4294967296);
}

// A float's bytes from a place on.
#[tactic(auto, using(crate::proofs::PlaceLaws::first_bytes, crate::proofs::PlaceLaws::put_short))]
pub fn put_pattern(form: Form, out: &mut [u8], place: usize, bits: u64)
    requires { (place + size_of form ≤ length out.old) × (bits < 2 * top (format_of form)) }
    ensures { out.new ≡ sets out.old place (pattern_bytes form bits) }
{
    match form {
        Form::First | Form::Long => put_long(out, place, bits),
        Form::Short => put_word(out, place, bits),
    }
}
