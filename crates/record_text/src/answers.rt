ghost use Rattle.std.specs.Prelude.{[], ◌∷◌, ◌++◌, ◌+◌, ◌≤◌, length};
ghost use Rattle.casts.specs.Answer.{says, number_of};
ghost use Rattle.nearest_hit.specs.Nearest.{says_indexed};
ghost use Rattle.record_text.specs.Text.{Put, decimal};
ghost use Rattle.record_text.specs.AnswerText.{refused_word, float_text, hit_text, answer_text, indexed_text};

use crate::text;
use casts::answer::{Cast, Refusal};
use nearest_hit::nearest::IndexedCast;
use vectors::vec3::Vec3;

// A line's answer has at most 92 bytes: `hit` with four floats of 17 bytes, and a triangle's index after a space; 20 digits are set aside
// for each whole number.

// A space and a float's bits.
fn put_float(out: &mut [u8], at: usize, x: f64) -> usize
    requires { at + 17 ≤ length out.old }
    ensures { Put out.old at (float_text x) out.new result }
{
    let next = text::put_byte(out, at, b' ');
    text::put_hexadecimal(out, next, text::printed_bits(x))
}

// The word, the normal and the distance of a hit.
fn put_hit(out: &mut [u8], at: usize, normal: Vec3, distance: f64) -> usize
    requires { at + 71 ≤ length out.old }
    ensures { Put out.old at (hit_text normal distance) out.new result }
{
    let word = text::put_text(out, at, b"hit");
    let x = put_float(out, word, normal.x);
    let y = put_float(out, x, normal.y);
    let z = put_float(out, y, normal.z);
    put_float(out, z, distance)
}

// The word and the number of a refusal.
fn put_refused(out: &mut [u8], at: usize, refusal: Refusal) -> usize
    requires { at + 28 ≤ length out.old }
    ensures { Put out.old at (refused_word ++ decimal (number_of refusal)) out.new result }
{
    let word = text::put_text(out, at, b"refused ");
    text::put_decimal(out, word, u64::from(u32::from(refusal)))
}

// An answer's text.
pub fn put_answer(out: &mut [u8], at: usize, cast: Cast) -> usize
    requires { at + 71 ≤ length out.old }
    ensures { Put out.old at (answer_text (says cast)) out.new result }
{
    match cast {
        Ok(Some(hit)) => put_hit(out, at, hit.normal, hit.distance),
        Ok(None) => text::put_text(out, at, b"none"),
        Err(refusal) => put_refused(out, at, refusal),
    }
}

// A mesh's answer: a hit has its index behind it.
pub fn put_indexed(out: &mut [u8], at: usize, cast: IndexedCast) -> usize
    requires { at + 92 ≤ length out.old }
    ensures { Put out.old at (indexed_text (says_indexed cast)) out.new result }
{
    match cast {
        Ok(Some(hit)) => {
            let behind = put_hit(out, at, hit.normal, hit.distance);
            let next = text::put_byte(out, behind, b' ');
            text::put_decimal(out, next, u64::from(hit.index))
        }
        Ok(None) => text::put_text(out, at, b"none"),
        Err(refusal) => put_refused(out, at, refusal),
    }
}

// The record number and a space.
pub fn put_number(out: &mut [u8], at: usize, number: u64) -> usize
    requires { at + 21 ≤ length out.old }
    ensures { Put out.old at (decimal number ++ (32 ∷ [])) out.new result }
{
    let end = text::put_decimal(out, at, number);
    text::put_byte(out, end, b' ')
}
