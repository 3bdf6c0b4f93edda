ghost use Rattle.std.specs.Prelude.{◌≡◌, false, ◌+◌, ◌<◌, ◌≤◌, length, take, drop};
ghost use Rattle.record_bytes.specs.Stream.{next_of};
ghost use Rattle.record_stream.specs.Progress.{step_of, Stepped, Answered, goes_on};

use record_bytes::stream;
use record_bytes::stream::Found;
use records::areas::WorkAreas;
use records::lines;

// How far the input is answered.
#[derive(Clone, Copy, Debug, PartialEq, Eq)]
pub struct Progress {
    // How many bytes of the input are used.
    pub used: usize,
    // How many bytes of the output area are lines.
    pub filled: usize,
    // The next record's number.
    pub next: u64,
    // No record follows.
    pub over: bool,
}

// After the record of that many bytes at the front of what is left.
fn record_step(
    s: Progress,
    rest: &[u8],
    end: usize,
    areas: &mut WorkAreas,
    output: &mut [u8],
) -> Progress
    requires { ((end ≤ length rest.now) × (s.filled + 114 ≤ length output.old)) × ((s.next < 18446744073709551615)
        × (s.used + end < 18446744073709551616)) }
    ensures { Stepped (step_of s.next rest.now (Found.Record end)) s result output.old output.new }
{
    let printed = lines::line(s.next, &rest[..end], areas, output, s.filled);
    Progress {
        used: s.used + end,
        filled: printed.end,
        next: s.next + 1,
        over: printed.malformed,
    }
}

// After the record at the front of what is left, whatever stands there.
fn step(s: Progress, input: &[u8], areas: &mut WorkAreas, output: &mut [u8]) -> Progress
    requires { ((s.used ≤ length input.now) × (s.filled + 114 ≤ length output.old)) × (s.next < 18446744073709551615) }
    ensures { Stepped (step_of s.next (drop s.used input.now) (next_of (drop s.used input.now))) s result
        output.old output.new }
{
    let rest = &input[s.used..];
    match stream::next(rest) {
        Found::Record(end) => record_step(s, rest, end, areas, output),
        Found::Cut => Progress {
            filled: lines::bad_line(s.next, output, s.filled),
            over: true,
            ..s
        },
        Found::End => Progress { over: true, ..s },
    }
}

// Whether another record is answered: no malformed one or end was met, a line has room, and the input has a whole record left.
#[tactic(auto, unfolding(crate::specs::Progress::goes_on))]
fn goes_on(s: Progress, ended: bool, length: usize, room: usize) -> bool
    requires { (s.filled ≤ room) × (s.used ≤ length) }
    ensures { result ≡ goes_on s ended length room }
{
    !s.over && room - s.filled >= 114 && (ended || length - s.used >= 8196)
}

// The lines for the input, which goes on unless `ended`, at the front of the output area: as many as have room. No
// public call: the caller shows that record numbers do not run out.
pub fn answer_records(
    number: u64,
    ended: bool,
    input: &[u8],
    areas: &mut WorkAreas,
    output: &mut [u8],
) -> Progress
    requires { number + length input.now < 18446744073709551615 }
    ensures answered { Answered input.now ended number (length output.old) (take result.filled output.new)
        result.used result.next result.over }
    ensures output_value { goes_on result ended (length input.now) (length output.old) ≡ false }
    ensures filled_in_bounds { result.filled ≤ length output.old }
{
    let mut s = Progress {
        used: 0,
        filled: 0,
        next: number,
        over: false,
    };
    // How many records there are is known only as they are read.
    while goes_on(s, ended, input.len(), output.len()) {
        s = step(s, input, areas, output);
    }
    s
}
