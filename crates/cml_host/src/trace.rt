//! The command `trace`: the replies to the commands on the input.

ghost use Rattle.std.specs.Prelude.{◌≡◌, ◌≤◌, [], true, false};
ghost use Rattle.cml_host.specs.{Between.{between}, Replies.{passage, plain_of, plain_refusal, plain_reply, refusal}, Stores.{Shelf}};
ghost use Rattle.cml_host.specs.Traced.{LiveTraced, TraceOutcome, TracesSo, WholeTraced};
ghost use Rattle.cml_host.specs.Traced as spec;
ghost use Rattle.cml_stream.specs.Counts.{most_reads};
ghost use Rattle.cml_trace.specs.{Answers.{max_input}, Live.{max_turns}};

use crate::refusal::Refusal;
use crate::reply::{Reply, carry_out};
use crate::store::Store;
use cml_stream::Counting;
use cml_trace::{MAX_TURNS, TraceEnd, TraceFault, run_live, run_trace, run_trace_explained};
use std::alloc::Global;
use std::io::{Read, Write};

/// Answers the trace on the input: each line as soon as it was read, or the whole trace, and then what is wrong with it is told, where that
/// is explained.
pub fn trace<R: Read, O: Write, E: Write, S: Store>(
    alloc: Global,
    live: bool,
    explains: bool,
    input: &mut Counting<'_, R>,
    out: &mut Counting<'_, O>,
    err: &mut Counting<'_, E>,
    store: &mut S,
) -> u8
    requires given { (input.old.calls ≡ 0) × (input.old.failed ≡ 0) }
    requires fresh { (out.old.calls ≡ 0) × (out.old.failed ≡ 0) }
    ensures ran { let given = between R.remaining input.old input.new in
        let output = passage O.contents out.old out.new in
        let errors = passage E.contents err.old err.new in
        let shelf : Shelf = record { before = S.holds store.old; after = S.holds store.new } in
        TraceOutcome live explains given output errors shelf result }
    ensures most { input.new.calls ≤ max_turns }
    ensures same_in { input.new.stream.ghost_name ≡ input.old.stream.ghost_name }
    ensures same_out { out.new.stream.ghost_name ≡ out.old.stream.ghost_name }
    ensures same_err { err.new.stream.ghost_name ≡ err.old.stream.ghost_name }
{
    let made = traced(alloc, live, explains, input, out);
    carry_out(alloc, "", &made, out, err, store)
}

// Answers the trace, and returns what is left to say.
fn traced<R: Read, O: Write>(
    alloc: Global,
    live: bool,
    explains: bool,
    input: &mut Counting<'_, R>,
    out: &mut Counting<'_, O>,
) -> Result<Reply, Refusal>
    requires given { (input.old.calls ≡ 0) × (input.old.failed ≡ 0) }
    requires fresh { (out.old.calls ≡ 0) × (out.old.failed ≡ 0) }
    ensures told { TracesSo live explains (between R.remaining input.old input.new) (passage O.contents out.old out.new) (plain_reply [] result) }
    ensures most { input.new.calls ≤ max_turns }
    ensures same_in { input.new.stream.ghost_name ≡ input.old.stream.ghost_name }
    ensures same_out { out.new.stream.ghost_name ≡ out.old.stream.ghost_name }
{
    if live {
        trace_live(alloc, input, out)
    } else if explains {
        trace_explained(alloc, input, out)
    } else {
        trace_whole(alloc, input, out)
    }
}

// Answers each line as soon as it was read.
fn trace_live<R: Read, O: Write>(
    alloc: Global,
    input: &mut Counting<'_, R>,
    out: &mut Counting<'_, O>,
) -> Result<Reply, Refusal>
    requires given { (input.old.calls ≡ 0) × (input.old.failed ≡ 0) }
    requires fresh { (out.old.calls ≡ 0) × (out.old.failed ≡ 0) }
    ensures told { LiveTraced (between R.remaining input.old input.new) (passage O.contents out.old out.new) (plain_reply [] result) }
    ensures most { input.new.calls ≤ max_turns }
    ensures same_in { input.new.stream.ghost_name ≡ input.old.stream.ghost_name }
    ensures same_out { out.new.stream.ghost_name ≡ out.old.stream.ghost_name }
{
    match run_live(alloc, MAX_TURNS, input, out) {
        Ok(end) => Ok(ended(alloc, Vec::new(alloc), end)),
        Err(fault) => Err(faulted(fault)),
    }
}

// Answers the whole trace.
fn trace_whole<R: Read, O: Write>(
    alloc: Global,
    input: &mut Counting<'_, R>,
    out: &mut Counting<'_, O>,
) -> Result<Reply, Refusal>
    requires given { (input.old.calls ≡ 0) × (input.old.failed ≡ 0) }
    requires fresh { (out.old.calls ≡ 0) × (out.old.failed ≡ 0) }
    ensures told { WholeTraced false (between R.remaining input.old input.new) (passage O.contents out.old out.new) (plain_reply [] result) }
    ensures most { input.new.calls ≤ most_reads max_input }
    ensures same_in { input.new.stream.ghost_name ≡ input.old.stream.ghost_name }
    ensures same_out { out.new.stream.ghost_name ≡ out.old.stream.ghost_name }
{
    match run_trace(alloc, input, out) {
        Ok(end) => Ok(ended(alloc, Vec::new(alloc), end)),
        Err(fault) => Err(faulted(fault)),
    }
}

// Answers the whole trace, and returns what is wrong with it.
fn trace_explained<R: Read, O: Write>(
    alloc: Global,
    input: &mut Counting<'_, R>,
    out: &mut Counting<'_, O>,
) -> Result<Reply, Refusal>
    requires given { (input.old.calls ≡ 0) × (input.old.failed ≡ 0) }
    requires fresh { (out.old.calls ≡ 0) × (out.old.failed ≡ 0) }
    ensures told { WholeTraced true (between R.remaining input.old input.new) (passage O.contents out.old out.new) (plain_reply [] result) }
    ensures most { input.new.calls ≤ most_reads max_input }
    ensures same_in { input.new.stream.ghost_name ≡ input.old.stream.ghost_name }
    ensures same_out { out.new.stream.ghost_name ≡ out.old.stream.ghost_name }
{
    let mut told = String::new(alloc);
    match run_trace_explained(alloc, &mut told, input, out) {
        Ok(end) => Ok(ended(alloc, told.into_bytes(), end)),
        Err(fault) => {
            drop(told);
            Err(faulted(fault))
        }
    }
}

// What is said of a trace that ended so: these words.
fn ended(alloc: Global, words: Vec<u8>, end: TraceEnd) -> Reply
    ensures { plain_of result ≡ refusal words.items (spec.status_of end) }
{
    Reply {
        output: Vec::new(alloc),
        files: Vec::new(alloc),
        words,
        status: status_of(end),
    }
}

/// What is said of this fault.
pub fn faulted(fault: TraceFault) -> Refusal
    ensures { plain_refusal [] result ≡ spec.faulted fault }
{
    Refusal::Line(fault_line(fault), fault_status(fault))
}

fn status_of(end: TraceEnd) -> u8
    ensures { result ≡ spec.status_of end }
{
    match end {
        TraceEnd::Done => 0,
        TraceEnd::Bad(_) => 2,
        TraceEnd::TooLong => 2,
    }
}

fn fault_status(fault: TraceFault) -> u8
    ensures { result ≡ spec.fault_status fault }
{
    match fault {
        TraceFault::Read => 1,
        TraceFault::Turns => 1,
        TraceFault::Write => 1,
        TraceFault::Memory => 5,
    }
}

fn fault_line(fault: TraceFault) -> &'static str
    ensures { result.now ≡ spec.trace_fault_line fault }
{
    match fault {
        TraceFault::Read => "cannot read input\n",
        TraceFault::Turns => "cannot read input\n",
        TraceFault::Write => "cannot write output\n",
        TraceFault::Memory => "memory\n",
    }
}
