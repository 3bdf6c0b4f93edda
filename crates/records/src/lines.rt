ghost use Rattle.std.specs.Prelude.{◌≡◌, not, ◌+◌, ◌*◌, ◌≤◌, length, drop};
ghost use Rattle.float_forms.specs.Forms.{size_of, rays_of};
ghost use Rattle.float_forms.specs.Bytes.{numbers_of};
ghost use Rattle.record_bytes.specs.Records.{said_of, is_record};
ghost use Rattle.record_bytes.specs.Kinds.{byte_of};
ghost use Rattle.record_bytes.specs.Plans.{Known};
ghost use Rattle.record_text.specs.Text.{Put};
ghost use Rattle.records.specs.Areas.{Sized};
ghost use Rattle.records.specs.Lines.{shape_text, record_text, line_of, bad_line};
ghost use Rattle.records.specs.Shapes.{ray_by, shape_from, shape_by};

use crate::areas::{TreeAreas, WorkAreas};
use crate::{meshes, shapes};
use float_forms::forms::Form;
use float_forms::runs;
use geometry::ray::Ray;
use record_bytes::kind::Kind;
use record_bytes::shape;
use record_bytes::shape::Plan;
use record_text::{answers, text};

// A line has at most 114 bytes: a number, a space, `hit` with four floats of 17 bytes, a triangle's index after a space, and its end; 20
// digits are set aside for each whole number.

// What was printed for a record: the place behind it, and whether the record is malformed.
#[derive(Clone, Copy)]
pub struct Printed {
    pub end: usize,
    pub malformed: bool,
}

// The answer to a ray and a shape.
fn put_shape(
    out: &mut [u8],
    at: usize,
    kind: Kind,
    ray: Ray,
    counts: &[u32],
    numbers: &[f64],
    indices: &[u32],
    areas: &mut TreeAreas,
) -> usize
    requires { (Sized (byte_of kind) counts.now numbers.now × (length indices.now ≤ 2031)) × (at + 92 ≤ length out.old) }
    ensures { Put out.old at
        (shape_text ray (shape_from (byte_of kind) counts.now numbers.now indices.now)) out.new result }
{
    match kind {
        Kind::Mesh => {
            let nearest = meshes::mesh_answer(ray, numbers, indices, areas);
            answers::put_indexed(out, at, nearest)
        }
        _ => {
            let cast = shapes::shape_answer(kind, ray, counts, numbers);
            answers::put_answer(out, at, cast)
        }
    }
}

// The ray at the front of a record. Version 1 has no near: it stays 0.
fn read_ray(form: Form, source: &[u8]) -> Ray
    requires { 6 + size_of form * rays_of form ≤ length source.now }
    ensures { result ≡ ray_by (numbers_of form (rays_of form) (drop 6 source.now)) }
{
    let mut numbers = [0.0; 8];
    runs::read_floats(form, source, 6, form.ray_count(), &mut numbers);
    shapes::ray_by(&numbers)
}

// The answer to a well-formed record: each of its numbers is read once.
fn put_planned(
    out: &mut [u8],
    at: usize,
    form: Form,
    source: &[u8],
    plan: Plan,
    areas: &mut WorkAreas,
) -> usize
    requires { Known form source.now plan × (at + 92 ≤ length out.old) }
    ensures { Put out.old at
        (shape_text (ray_by (said_of form source.now).ray) (shape_by (said_of form source.now))) out.new result }
{
    let many = plan.counts;
    let floats = plan.numbers;
    let words = plan.indices;
    let first = shape::numbers_place(form, 0);
    let place = shape::numbers_place(form, many);
    let behind = place + shape::run_length(form, floats);
    let mut counts = [0u32; 3];
    runs::read_words(source, first, many, &mut counts);
    runs::read_floats(form, source, place, floats, &mut areas.numbers);
    runs::read_words(source, behind, words, &mut areas.triangles);
    put_shape(
        out,
        at,
        plan.kind,
        read_ray(form, source),
        &counts[..many],
        &areas.numbers[..floats],
        &areas.triangles[..words],
        &mut areas.tree,
    )
}

// The answer to any record, of whichever version.
fn put_record(out: &mut [u8], at: usize, source: &[u8], areas: &mut WorkAreas) -> Printed
    requires { at + 92 ≤ length out.old }
    ensures put { Put out.old at (record_text source.now) out.new result.end }
    ensures malformed_value { result.malformed ≡ not (is_record source.now) }
{
    let form = shape::form_at(source);
    let Some(plan) = shape::plan_of(form, source) else {
        return Printed {
            end: text::put_text(out, at, b"bad"),
            malformed: true,
        };
    };
    let end = put_planned(out, at, form, source, plan, areas);
    Printed {
        end,
        malformed: false,
    }
}

// The line of a record, in the output area from `filled` on.
pub fn line(
    number: u64,
    source: &[u8],
    areas: &mut WorkAreas,
    output: &mut [u8],
    filled: usize,
) -> Printed
    requires { filled + 114 ≤ length output.old }
    ensures put { Put output.old filled (line_of number source.now) output.new result.end }
    ensures malformed_value { result.malformed ≡ not (is_record source.now) }
{
    let start = answers::put_number(output, filled, number);
    let printed = put_record(output, start, source, areas);
    Printed {
        end: text::put_byte(output, printed.end, b'\n'),
        malformed: printed.malformed,
    }
}

// The line of a record that is cut short or over length; returns the place behind it.
pub fn bad_line(number: u64, output: &mut [u8], filled: usize) -> usize
    requires { filled + 114 ≤ length output.old }
    ensures { Put output.old filled (bad_line number) output.new result }
{
    let start = answers::put_number(output, filled, number);
    let end = text::put_text(output, start, b"bad");
    text::put_byte(output, end, b'\n')
}
