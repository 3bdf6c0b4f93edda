ghost use Rattle.std.specs.Prelude.{◌≡◌, true, [], ◌∷◌, ◌++◌, ◌+◌, ◌*◌, ◌<◌, ◌≤◌, length, drop};
ghost use Rattle.std.proofs.lemmas.List.Edits.{sets};
ghost use Rattle.float_forms.specs.Forms.{size_of, rays_of, version_of};
ghost use Rattle.float_forms.specs.Bytes.{word_bytes, numbers_of, numbers_bytes, words_of, words_bytes};
ghost use Rattle.float_forms.specs.Representable.{every, fits_in};
ghost use Rattle.record_bytes.specs.Records.{said_of, said_fits};
ghost use Rattle.record_bytes.specs.Kinds.{byte_of};
ghost use Rattle.record_bytes.specs.Plans.{Known, size_for};
ghost use Rattle.conversion.specs.Writing.{rewritten};

use float_forms::forms::Form;
use float_forms::{bytes, runs};
use record_bytes::kind::Kind;
use record_bytes::shape;
use record_bytes::shape::Plan;

// The length bytes, the version and the kind.
fn write_head(q: Form, kind: Kind, body: usize, out: &mut [u8])
    requires { (6 ≤ length out.old) × (body < 4294967296) }
    ensures { out.new ≡ sets out.old 0 (word_bytes body ++ (version_of q ∷ (byte_of kind ∷ []))) }
{
    bytes::put_word(out, 0, body as u64);
    out[4] = u8::from(q);
    out[5] = u8::from(kind);
}

// The ray's floats, and the counts.
fn write_ray(p: Form, q: Form, source: &[u8], counts: usize, out: &mut [u8])
    requires { ((counts ≤ 3) × (6 + size_of p * rays_of p + 4 * counts ≤ length source.now))
        × ((6 + size_of q * rays_of q + 4 * counts ≤ length out.old)
        × ((every (fits_in q) (numbers_of p (rays_of p) (drop 6 source.now)) ≡ true) × (rays_of p ≡ rays_of q))) }
    ensures { out.new ≡ sets out.old 6
        (numbers_bytes q (numbers_of p (rays_of p) (drop 6 source.now)) ++
        words_bytes (words_of counts (drop (6 + size_of p * rays_of p) source.now))) }
{
    let from = shape::numbers_place(p, 0);
    let to = shape::numbers_place(q, 0);
    runs::put_floats(p, q, source, 6, p.ray_count(), out, 6);
    runs::put_words(source, from, counts, out, to);
}

// The shape's floats and its indices.
fn write_shape(
    p: Form,
    q: Form,
    source: &[u8],
    place: usize,
    numbers: usize,
    indices: usize,
    out: &mut [u8],
    at: usize,
)
    requires { ((numbers ≤ 1025) × (place + size_of p * numbers + 4 * indices ≤ length source.now))
        × ((at + size_of q * numbers + 4 * indices ≤ length out.old)
        × (every (fits_in q) (numbers_of p numbers (drop place source.now)) ≡ true)) }
    ensures { out.new ≡ sets out.old at
        (numbers_bytes q (numbers_of p numbers (drop place source.now)) ++
        words_bytes (words_of indices (drop (place + size_of p * numbers) source.now))) }
{
    let from = place + shape::run_length(p, numbers);
    let to = at + shape::run_length(q, numbers);
    runs::put_floats(p, q, source, place, numbers, out, at);
    runs::put_words(source, from, indices, out, to);
}

// The whole record in the form q, whose rays have as many floats.
pub fn write(p: Form, q: Form, source: &[u8], plan: Plan, body: usize, out: &mut [u8])
    requires { (Known p source.now plan) × (((body ≡ size_for q plan) × (4 + body ≤ length out.old))
        × ((said_fits q (said_of p source.now) ≡ true) × (rays_of p ≡ rays_of q))) }
    ensures { out.new ≡ sets out.old 0 (rewritten p q source.now) }
{
    let from = shape::numbers_place(p, plan.counts);
    let to = shape::numbers_place(q, plan.counts);
    write_head(q, plan.kind, body, out);
    write_ray(p, q, source, plan.counts, out);
    write_shape(p, q, source, from, plan.numbers, plan.indices, out, to);
}
