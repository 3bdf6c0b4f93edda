// A run between two calls of the system, and what each call's result makes of it.
ghost use Rattle.std.specs.Prelude.{◌≡◌, ◌++◌, ◌+◌, ◌-◌, ◌<◌, ◌≤◌, length, take, drop};
ghost use Rattle.std.specs.Result.{result_ok};
ghost use Rattle.probe.specs.Runs.{start_run, reads_more, failed_run, after_read, next_run, after_write};

use record_stream::answers::Progress;
use std::io;

// input[..held] was read and is not used yet; output[..filled] are the lines that are written next.
#[derive(Clone, Copy, Debug, PartialEq, Eq)]
pub struct Run {
    pub held: usize,
    // The next record's number.
    pub next: u64,
    pub filled: usize,
    // Nothing follows what is held.
    pub ended: bool,
    // Nothing more is read or written.
    pub over: bool,
    // The run is over because a read or a write failed, or the record numbers ran out.
    pub failed: bool,
}

// Before the first read.
pub fn start() -> Run
    ensures { result ≡ start_run }
{
    Run {
        held: 0,
        next: 1,
        filled: 0,
        ended: false,
        over: false,
        failed: false,
    }
}

// Whether more is read: the input has not ended, and what is held may be less than a record of 4 + 8,192 bytes.
#[tactic(auto, unfolding(crate::specs::Runs::reads_more))]
pub fn reads_more(run: Run) -> bool
    ensures { result ≡ reads_more run }
{
    !run.ended && run.held < 8196
}

// After a call that failed.
pub fn failed_run(run: Run) -> Run
    ensures { result ≡ failed_run run }
{
    Run {
        filled: 0,
        over: true,
        failed: true,
        ..run
    }
}

// After a read, by what it answered: how many bytes of `rest` it gave, or that it failed.
#[tactic(auto, unfolding(crate::specs::Runs::after_read))]
pub fn after_read(run: Run, got: io::Result<usize>, rest: &[u8]) -> Run
    requires { run.held + length rest.now < 18446744073709551616 }
    ensures { result ≡ after_read run (result_ok got) (length rest.now) }
{
    let Ok(count) = got else {
        return failed_run(run);
    };
    let more = rest.len().min(count);
    Run {
        held: run.held + more,
        next: run.next,
        filled: 0,
        ended: more == 0,
        over: false,
        failed: false,
    }
}

// After an answer: what it did not use is held.
pub fn next_run(run: Run, done: Progress) -> Run
    requires { done.used ≤ run.held }
    ensures { result ≡ next_run run done }
{
    Run {
        held: run.held - done.used,
        next: done.next,
        filled: done.filled,
        ended: run.ended,
        over: done.over,
        failed: false,
    }
}

// After a write. After one that fails nothing more is written: a gap is worse than a stop.
pub fn after_write(run: Run, written: bool) -> Run
    ensures { result ≡ after_write run written }
{
    if written {
        return run;
    }
    failed_run(run)
}

// Moves input[from..to] to the front.
pub fn move_front(input: &mut [u8], from: usize, to: usize)
    requires { (from ≤ to) × (to ≤ length input.old) }
    ensures { input.new ≡ take (to - from) (drop from input.old) ++ drop (to - from) input.old }
{
    input.copy_within(from..to, 0);
}
