ghost use Rattle.std.specs.Prelude.{◌≡◌, true, ◌+◌, ◌*◌, ◌≤◌, length, drop};
ghost use Rattle.std.proofs.lemmas.List.Edits.{sets};
ghost use Rattle.float_forms.specs.Forms.{size_of};
ghost use Rattle.float_forms.specs.Bytes.{numbers_of, numbers_bytes, words_of, words_bytes};
ghost use Rattle.float_forms.specs.Representable.{every, representable, fits_in};

use crate::forms::Form;
use crate::{bytes, representable};

// So many floats from a place on, to the front of an area.
pub fn read_floats(form: Form, source: &[u8], place: usize, count: usize, out: &mut [f64])
    requires { (place + size_of form * count ≤ length source.now) × (count ≤ length out.old) }
    ensures { out.new ≡ sets out.old 0 (numbers_of form count (drop place source.now)) }
{
    let size = form.size_of();
    for i in 0..count {
        out[i] = bytes::number_at(form, source, place + size * i);
    }
}

// So many u32, in the same way. Not one function with the one above: the contract over a function that reads one number would be longer
// than this loop.
pub fn read_words(source: &[u8], place: usize, count: usize, out: &mut [u32])
    requires { (place + 4 * count ≤ length source.now) × (count ≤ length out.old) }
    ensures { out.new ≡ sets out.old 0 (words_of count (drop place source.now)) }
{
    for i in 0..count {
        out[i] = bytes::word_at(source, place + 4 * i) as u32;
    }
}

// Whether the form q represents each of so many floats of the form p, from a place on. The place moves on by a float's size, here and in
// the function below: by the product of the size and the index a converter took a quarter more of its time.
pub fn floats_representable(p: Form, q: Form, source: &[u8], place: usize, count: usize) -> bool
    requires { place + size_of p * count ≤ length source.now }
    ensures { result ≡ every (representable q) (numbers_of p count (drop place source.now)) }
{
    let size = p.size_of();
    let mut from = place;
    for i in 0..count {
        if !representable::is_representable(q, bytes::number_at(p, source, from)) {
            return false;
        }
        from += size;
    }
    true
}

// So many floats, each of the form q's format, from one record's place to another's.
pub fn put_floats(
    p: Form,
    q: Form,
    source: &[u8],
    place: usize,
    count: usize,
    out: &mut [u8],
    at: usize,
)
    requires { (place + size_of p * count ≤ length source.now) × ((at + size_of q * count ≤ length out.old)
        × (every (fits_in q) (numbers_of p count (drop place source.now)) ≡ true)) }
    ensures { out.new ≡ sets out.old at
        (numbers_bytes q (numbers_of p count (drop place source.now))) }
{
    let size = p.size_of();
    let step = q.size_of();
    let mut from = place;
    let mut to = at;
    for i in 0..count {
        let bits = representable::bits_for(q, bytes::number_at(p, source, from));
        bytes::put_pattern(q, out, to, bits);
        from += size;
        to += step;
    }
}

// So many u32, whose bytes are the same in every form.
pub fn put_words(source: &[u8], place: usize, count: usize, out: &mut [u8], at: usize)
    requires { (place + 4 * count ≤ length source.now) × (at + 4 * count ≤ length out.old) }
    ensures { out.new ≡ sets out.old at (words_bytes (words_of count (drop place source.now))) }
{
    for i in 0..count {
        bytes::put_word(out, at + 4 * i, bytes::word_at(source, place + 4 * i));
    }
}
