ghost use Rattle.std.specs.Prelude.{◌≡◌};
ghost use Rattle.record_bytes.specs.Stream.{next_of};

use crate::shape;
use float_forms::bytes;

// What stands at the front of a stream.
#[derive(Clone, Copy, Debug, PartialEq, Eq)]
pub enum Found {
    // A record of that many bytes, the four of its length among them.
    Record(usize),
    // A record that is cut short or over length.
    Cut,
    // Nothing.
    End,
}

// The first record of a stream. The stream's first 8,196 bytes are enough, since no record is longer.
#[tactic(auto, unfolding(crate::specs::Stream::next_of))]
pub fn next(bytes: &[u8]) -> Found
    ensures { result ≡ next_of bytes.now }
{
    if bytes.is_empty() {
        return Found::End;
    }
    if bytes.len() < 4 {
        return Found::Cut;
    }
    let length = bytes::word_at(bytes, 0) as usize;
    if length > shape::LONGEST {
        return Found::Cut;
    }
    let end = 4 + length;
    if bytes.len() < end {
        return Found::Cut;
    }
    Found::Record(end)
}
