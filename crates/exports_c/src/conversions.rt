ghost use Rattle.std.specs.Prelude.{◌≡◌};
ghost use Rattle.exports.specs.Conversions.{convert_returned};

use float_forms::forms::Form;

// Writes a record of version 2 as version 3, and how many bytes it has. Nothing is written where it refuses.
#[unsafe(no_mangle)]
pub extern "C" fn probe_record_to_short(bytes: &[u8], out: &mut [u8], written: &mut [usize]) -> u32
    ensures { record { returned = record { number = result; count = written.new }; area = out.new }
        ≡ convert_returned Form.Long Form.Short bytes.now out.old written.old }
{
    exports::conversions::probe_record_to_short(bytes, out, written)
}

// Writes a record of version 3 as version 2, in the same way.
#[unsafe(no_mangle)]
pub extern "C" fn probe_record_to_long(bytes: &[u8], out: &mut [u8], written: &mut [usize]) -> u32
    ensures { record { returned = record { number = result; count = written.new }; area = out.new }
        ≡ convert_returned Form.Short Form.Long bytes.now out.old written.old }
{
    exports::conversions::probe_record_to_long(bytes, out, written)
}
