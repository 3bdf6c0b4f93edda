ghost use Rattle.casts.specs.Answer.{number_of};
ghost use Rattle.std.specs.Prelude.{◌≡◌, ◌≤◌, length};
ghost use Rattle.conversion.specs.Convert.{says};
ghost use Rattle.exports.specs.Conversions.{without_place, returned_converted, convert_returned};

use casts::answer::Refusal;
use conversion::convert;
use float_forms::forms::Form;
use record_bytes::shape;

// The number where the place of the length is missing: 2 goes before 3.
fn without_place(form: Form, bytes: &[u8]) -> Refusal
    ensures { number_of result ≡ without_place form bytes.now }
{
    match shape::plan_of(form, bytes) {
        Some(_) => Refusal::NoRoom,
        None => Refusal::BadShape,
    }
}

// Writes a record of version 2 as version 3, and how many bytes it has. Nothing is written where it refuses.
pub fn probe_record_to_short(bytes: &[u8], out: &mut [u8], written: &mut [usize]) -> u32
    ensures { record { returned = record { number = result; count = written.new }; area = out.new }
        ≡ convert_returned Form.Long Form.Short bytes.now out.old written.old }
{
    if written.len() < 1 {
        return without_place(Form::Long, bytes).into();
    }
    let converted = convert::to_short(bytes, out);
    results::put_count(converted, written)
}

// Writes a record of version 3 as version 2, in the same way.
pub fn probe_record_to_long(bytes: &[u8], out: &mut [u8], written: &mut [usize]) -> u32
    ensures { record { returned = record { number = result; count = written.new }; area = out.new }
        ≡ convert_returned Form.Short Form.Long bytes.now out.old written.old }
{
    if written.len() < 1 {
        return without_place(Form::Short, bytes).into();
    }
    let converted = convert::to_long(bytes, out);
    results::put_count(converted, written)
}
