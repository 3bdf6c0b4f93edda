ghost use Rattle.std.specs.Prelude.{◌≡◌, true, false, [], ◌∷◌, ◌+◌, ◌*◌, ◌<◌, ◌≤◌, length, get_or, MatchOption};
ghost use Rattle.float_forms.specs.Forms.{size_of, rays_of};
ghost use Rattle.record_bytes.specs.Records.{many_counts, many_numbers, many_indices, kind_of, counts_of, framed, form_at};
ghost use Rattle.record_bytes.specs.Kinds.{byte_of};
ghost use Rattle.record_bytes.specs.Plans.{capped, filling, planned};

use crate::kind::Kind;
use float_forms::forms::Form;
use float_forms::{bytes, forms};

// The largest length that a record may give, and that of its form with floats of 8 bytes.
pub const LONGEST: usize = 8192;

// How many u32, floats and u32 follow the ray's floats, in a well-formed record of a kind.
#[derive(Clone, Copy, Debug, PartialEq, Eq)]
pub struct Plan {
    pub kind: Kind,
    pub counts: usize,
    pub numbers: usize,
    pub indices: usize,
}

// How many u32 come first.
#[tactic(auto, unfolding(crate::specs::Records::many_counts))]
fn many_counts(kind: Kind) -> usize
    ensures { (result ≡ many_counts (byte_of kind)) × (result ≤ 3) }
{
    match kind {
        Kind::Plane => 0,
        Kind::Triangle => 0,
        Kind::Mesh => 2,
        Kind::HeightGrid => 2,
        Kind::DistanceGrid => 3,
    }
}

// A count, or 1,025 if it is more: no record holds so many floats, and its product with a u32 fits.
#[tactic(auto, using(crate::proofs::ShapeLaws::capped_more, crate::proofs::ShapeLaws::capped_few))]
fn capped(count: usize) -> usize
    ensures { result ≡ capped count }
{
    if count > 1024 {
        return 1025;
    }
    count
}

// The product of three u32, capped.
#[tactic(auto, using(crate::proofs::ShapeLaws::products))]
fn product(a: usize, b: usize, c: usize) -> usize
    requires { (a < 4294967296) × ((b < 4294967296) × (c < 4294967296)) }
    ensures { (result ≡ capped (a * b * c)) × (result ≤ 1025) }
{
    let face = capped(a * b);
    capped(face * c)
}

// How many floats follow the counts, capped.
fn many_numbers(kind: Kind, a: usize, b: usize, c: usize) -> usize
    requires { (a < 4294967296) × ((b < 4294967296) × (c < 4294967296)) }
    ensures { result ≡ capped (many_numbers (byte_of kind) (a ∷ (b ∷ (c ∷ [])))) }
{
    match kind {
        Kind::Plane => 4,
        Kind::Triangle => 9,
        Kind::Mesh => capped(3 * a),
        Kind::HeightGrid => capped(2 + product(a, b, 1)),
        Kind::DistanceGrid => capped(6 + product(a, b, c)),
    }
}

// How many u32 follow these.
#[tactic(auto, unfolding(crate::specs::Records::many_indices))]
fn many_indices(kind: Kind, b: usize) -> usize
    requires { b < 4294967296 }
    ensures { (result ≡ many_indices (byte_of kind) (0 ∷ (b ∷ []))) × (result < 12884901888) }
{
    match kind {
        Kind::Mesh => 3 * b,
        _ => 0,
    }
}

// The bytes of a ray.
fn ray_length(form: Form) -> usize
    ensures { (result ≡ size_of form * rays_of form) × (result ≤ 64) }
{
    match form {
        Form::First => 56,
        Form::Long => 64,
        Form::Short => 32,
    }
}

// The i-th count of a record, 0 if it has none.
fn count_at(form: Form, source: &[u8], kind: Kind, i: usize) -> usize
    requires { (byte_of kind ≡ kind_of source.now)
        × (6 + size_of form * rays_of form + 4 * many_counts (byte_of kind) ≤ length source.now) }
    ensures { (result ≡ get_or (counts_of form source.now) i 0) × (result < 4294967296) }
{
    if i < many_counts(kind) {
        return bytes::word_at(source, 6 + ray_length(form) + 4 * i) as usize;
    }
    0
}

// The bytes of so many floats.
pub fn run_length(form: Form, count: usize) -> usize
    requires { count ≤ 1025 }
    ensures { (result ≡ size_of form * count) × (result ≤ 8200) }
{
    match form {
        Form::First => 8 * count,
        Form::Long => 8 * count,
        Form::Short => 4 * count,
    }
}

// A body's length.
pub fn body_length(form: Form, counts: usize, numbers: usize, indices: usize) -> usize
    requires { (counts ≤ 3) × ((numbers ≤ 1025) × (indices < 12884901888)) }
    ensures { (result ≡ 2 + size_of form * rays_of form + 4 * counts + size_of form * numbers + 4 * indices) × (result < 1099511627776) }
{
    let ray = ray_length(form);
    let floats = run_length(form, numbers);
    2 + ray + 4 * counts + floats + 4 * indices
}

// Where a shape's floats begin in a record.
pub fn numbers_place(form: Form, counts: usize) -> usize
    requires { counts ≤ 3 }
    ensures { (result ≡ 6 + size_of form * rays_of form + 4 * counts) × (result ≤ 82) }
{
    6 + ray_length(form) + 4 * counts
}

// The kind of a record of a form, if its length bytes, its version and its kind are right.
fn framed_kind(form: Form, source: &[u8]) -> Option<Kind>
    ensures { MatchOption result (framed form source.now ≡ false)
        (λ kind. (framed form source.now ≡ true) × (byte_of kind ≡ kind_of source.now)) }
{
    let length = source.len();
    if length < 6 {
        return None;
    }
    if bytes::word_at(source, 0) + 4 != length as u64 {
        return None;
    }
    if source[4] != u8::from(form) {
        return None;
    }
    Kind::try_from(source[5]).ok()
}

// The plan of a record whose first six bytes are right.
fn filled_by(form: Form, source: &[u8], kind: Kind) -> Option<Plan>
    requires { byte_of kind ≡ kind_of source.now }
    ensures { result ≡ filling form source.now }
{
    let length = source.len();
    let counts = many_counts(kind);
    if length < 6 + ray_length(form) + 4 * counts {
        return None;
    }
    let a = count_at(form, source, kind, 0);
    let b = count_at(form, source, kind, 1);
    let c = count_at(form, source, kind, 2);
    let numbers = many_numbers(kind, a, b, c);
    let indices = many_indices(kind, b);
    if numbers > 1024 {
        return None;
    }
    if 4 + body_length(form, counts, numbers, indices) != length {
        return None;
    }
    let long = form.long_form();
    if body_length(long, counts, numbers, indices) > LONGEST {
        return None;
    }
    Some(Plan {
        kind,
        counts,
        numbers,
        indices,
    })
}

// The form that a record's version byte names.
#[tactic(auto, using(crate::proofs::ShapeLaws::no_version), unfolding(crate::specs::Records::form_at))]
pub fn form_at(source: &[u8]) -> Form
    ensures { result ≡ form_at source.now }
{
    if source.len() < 5 {
        return Form::Long;
    }
    forms::form_of(source[4])
}

// The plan of exactly one well-formed record of a form.
pub fn plan_of(form: Form, source: &[u8]) -> Option<Plan>
    ensures { result ≡ planned form source.now }
{
    let kind = framed_kind(form, source)?;
    filled_by(form, source, kind)
}
