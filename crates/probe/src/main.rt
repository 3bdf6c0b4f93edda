// Records in, lines out (document 01, 'Printed result'): reads standard input, answers what is held and writes the lines, up to the
// end, to the first malformed record, or to a read or a write that fails.
//
// It is proved over any reader and any writer. `Finished` of `all_steps` says that the lines of a run are the output for what its reads
// gave, or its front, and `write_lines` requires the lines that an answer made. `PutsOut` of `all_steps` says that the writer took the
// output for all that the reader had, where their bytes are known and nothing failed. No contract can say that standard input and standard
// output are such a reader and such a writer, which of their calls failed, or that `main` makes one run: tests/pipes.sh runs that.

#![tactic(auto)]

// A run, and what each call's result makes of it.
mod runs;

ghost use Rattle.std.specs.Prelude.{◌≡◌, ◌≤◌, false, length, take};
ghost use Rattle.std.specs.Io.KnownBytes.{Consumes, Appends};
ghost use Rattle.probe.specs.Runs.{read_bytes, ReadOn, Answers, LinesOf, AfterWrite, Step, AtEnd, StepMoves, PutsOut, Finished};

use crate::runs::Run;
use record_stream::answers;
use records::areas::{TreeAreas, WorkAreas};
use std::io::{Eprint, Read, Write};

// Says on standard error that a read or a write failed, where it did. Nothing is to be done where that fails too.
fn say_if(rt: &impl Eprint, failed: bool, words: &str) {
    if failed {
        let _ = rt.eprintln(words);
    }
}

// Reads on where what is held may be less than a record. A read that fails is no end of the input: it ends the run, and standard error says
// so.
fn read_on<R: Read>(stdin: &mut R, rt: &impl Eprint, run: Run, input: &mut [u8]) -> Run
    requires { (run.held ≤ 65536) × (length input.old ≡ 65536) }
    ensures read_on { ReadOn run input.old result input.new }
    ensures held_bound { result.held ≤ 65536 }
    ensures bytes { Consumes (R.remaining stdin.old) (R.remaining stdin.new) (read_bytes run result input.new) }
    ensures end { AtEnd run (R.remaining stdin.old) → AtEnd result (R.remaining stdin.new) }
{
    if !runs::reads_more(run) {
        return run;
    }
    let held = run.held;
    let got = stdin.read(&mut input[held..]);
    let given = runs::after_read(run, got, &input[held..]);
    say_if(rt, given.failed, "probe: standard input cannot be read");
    given
}

// The lines for what is held, at the front of the output area, and what is left at the front of the input area. No run reaches the last
// record numbers.
fn answer(run: Run, input: &mut [u8], areas: &mut WorkAreas, output: &mut [u8]) -> Run
    requires { (run.held ≤ 65536) × ((length input.old ≡ 65536) × (length output.old ≡ 65536)) }
    ensures answers { Answers run input.old result input.new (take result.filled output.new) }
    ensures held_bound { (result.held ≤ 65536) × (result.filled ≤ 65536) }
{
    if run.next >= u64::MAX - 65536 {
        return runs::failed_run(run);
    }
    let held = run.held;
    let done = answers::answer_records(run.next, run.ended, &input[..held], areas, output);
    runs::move_front(input, done.used, held);
    runs::next_run(run, done)
}

// Writes the lines of a run: all that it answered, and nothing else. A write that fails ends the run, and standard error says so.
fn write_lines<W: Write>(stdout: &mut W, rt: &impl Eprint, run: Run, lines: &[u8]) -> Run
    requires { LinesOf run lines.now }
    ensures after_write { AfterWrite run result }
    ensures lines { result.failed ≡ false → Appends (W.contents stdout.old) (W.contents stdout.new) lines.now }
{
    let written = stdout.write_all(lines).is_ok();
    say_if(rt, !written, "probe: standard output cannot be written");
    runs::after_write(run, written)
}

// Reads, answers, writes; after a read that failed nothing is answered.
fn step<R: Read, W: Write>(
    stdin: &mut R,
    stdout: &mut W,
    rt: &impl Eprint,
    run: Run,
    input: &mut [u8],
    areas: &mut WorkAreas,
    output: &mut [u8],
) -> Run
    requires { (run.held ≤ 65536) × ((length input.old ≡ 65536) × (length output.old ≡ 65536)) }
    ensures step { Step run input.old result input.new }
    ensures held_bound { result.held ≤ 65536 }
    ensures moves { StepMoves run input.old result input.new (R.remaining stdin.old) (R.remaining stdin.new)
        (W.contents stdout.old) (W.contents stdout.new) }
    ensures end { AtEnd run (R.remaining stdin.old) → AtEnd result (R.remaining stdin.new) }
{
    let ready = read_on(stdin, rt, run, input);
    if ready.failed {
        return ready;
    }
    let answered = answer(ready, input, areas, output);
    let filled = answered.filled;
    write_lines(stdout, rt, answered, &output[..filled])
}

// Steps until the run is over. A proved loop ends: no run makes so many steps.
fn all_steps<R: Read, W: Write>(stdin: &mut R, stdout: &mut W, rt: &impl Eprint) -> Run
    ensures finished { Finished result }
    ensures output { PutsOut result (R.remaining stdin.old) (W.contents stdout.old) (W.contents stdout.new) }
{
    let mut input = [0u8; 65536];
    let mut areas = WorkAreas {
        numbers: [0.0; 1024],
        triangles: [0; 2031],
        tree: TreeAreas {
            node_boxes: [0.0; 8124],
            triangle_boxes: [0.0; 4062],
            node_words: [0; 4062],
            order: [0; 677],
            list: [0; 677],
            stack: [0; 1355],
        },
    };
    let mut output = [0u8; 65536];
    let mut run = runs::start();
    for steps in 0..u64::MAX {
        if run.over {
            return run;
        }
        run = step(stdin, stdout, rt, run, &mut input, &mut areas, &mut output);
    }
    run
}

fn main(rt: HostRuntime) {
    all_steps(&mut rt.stdin(), &mut rt.stdout(), &rt);
}
