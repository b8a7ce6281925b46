//! Which command is done.

ghost use Rattle.std.specs.{Prelude.{◌≡◌, ◌≤◌, [], map}, String.{string_bytes}};
ghost use Rattle.cml_host.specs.{Behind.{plain_text}, Between.{between}, Replies.{passage, plain_reply}, Statuses.{HasCounts, Surroundings, Ran, RanOver, TaskOutcome}, Stores.{Shelf}};
ghost use Rattle.cml_stream.specs.Streams.{stream};
ghost use Rattle.cml_trace.specs.Live.{max_turns};

use crate::draw::draw_file;
use crate::explain::explain_file;
use crate::explore::explore_file;
use crate::output::say;
use crate::refusal::Refusal;
use crate::replay::replay_file;
use crate::reply::{Reply, carry_out, text_reply};
use crate::run::run_file;
use crate::script::{check_file, print_file};
use crate::shrink::shrink_file;
use crate::step::step_file;
use crate::store::Store;
use crate::trace::trace;
use crate::verify::verify_file;
use crate::workers::Open;
use cml_arguments::{Answer, Task, read_arguments};
use cml_stream::Counting;
use cml_work::Gate;
use std::alloc::{AllocError, Global};
use std::io::{Read, Write};
use std::sync::Wait;
use std::thread::Threads;

/// Runs the command that the arguments name, the first of which is the program's name, and returns the status of the process. The errors
/// are taken to go to no terminal.
///
/// It reads the input or files of the store, writes what the command says to the output, and reports and what went wrong to the errors.
/// The status is 0 where all was done; 1 where the arguments, the input, a file or the output are at fault, a write of reports failed, or
/// the reports that were written are not those of the run; 2 where a text is refused; 3 where a schedule is refused; 4 where a script did
/// not end within its steps, or has more states than may be kept; 5 where memory ran out or no thread could be started; and 6 where runs that
/// are judged did not end well.
pub fn run_command<R, I, O, E, S>(
    rt: &R,
    alloc: Global,
    words: &[String],
    input: &mut I,
    out: &mut O,
    err: &mut E,
    store: &mut S,
) -> u8
where
    R: Threads + Wait + Sync,
    I: Read,
    O: Write,
    E: Write + Send,
    S: Store,
    ensures { let given = stream (I.remaining input.old) (I.remaining input.new) in
        let output = stream (O.contents out.old) (O.contents out.new) in
        let errors = stream (E.contents err.old) (E.contents err.new) in
        let shelf : Shelf = record { before = S.holds store.old; after = S.holds store.new } in
        RanOver (map string_bytes words.now) given output errors shelf result }
{
    let mut input = Counting::new(input);
    let mut out = Counting::new(out);
    let mut err = Counting::new(err);
    run_command_counted(
        rt, alloc, &Open, words, &mut input, &mut out, &mut err, false, store,
    )
}

/// Runs the command as [`run_command`] does, over streams whose calls are counted, and of which none was called yet. A fault of the input
/// is told only where a read failed, or 2,097,152 reads came to no end (of a live trace and a run by hand 2^48); a fault of the output only where a write
/// failed or took nothing; and what is told is written to the errors whole, except where a write of it failed. More workers than one go
/// through the gate with each slice of a script's thread. Where the errors go to a terminal, what is wrong with a text or a script is
/// explained, and how a run ended, unless the arguments say otherwise.
pub fn run_command_counted<R, G, I, O, E, S>(
    rt: &R,
    alloc: Global,
    gate: &G,
    words: &[String],
    input: &mut Counting<'_, I>,
    out: &mut Counting<'_, O>,
    err: &mut Counting<'_, E>,
    terminal: bool,
    store: &mut S,
) -> u8
where
    R: Threads + Wait + Sync,
    G: Gate + Sync,
    I: Read,
    O: Write,
    E: Write + Send,
    S: Store,
    requires reads { (input.old.calls ≡ 0) × (input.old.failed ≡ 0) }
    requires writes { (out.old.calls ≡ 0) × (out.old.failed ≡ 0) }
    requires complaints { (err.old.calls ≡ 0) × (err.old.failed ≡ 0) }
    ensures ran { let around : Surroundings = record {
      input = between I.remaining input.old input.new;
      output = between O.contents out.old out.new;
      errors = between E.contents err.old err.new;
      terminal = terminal;
      store = record { before = S.holds store.old; after = S.holds store.new };
    } in
        Ran (map string_bytes words.now) around result }
    ensures most { input.new.calls ≤ max_turns }
    ensures same_in { input.new.stream.ghost_name ≡ input.old.stream.ghost_name }
    ensures same_out { out.new.stream.ghost_name ≡ out.old.stream.ghost_name }
    ensures same_err { err.new.stream.ghost_name ≡ err.old.stream.ghost_name }
{
    match read_arguments(alloc, words) {
        Ok(Answer::Task(task)) => {
            do_task(rt, alloc, gate, task, input, out, err, terminal, store)
        }
        Ok(Answer::Help(text)) => {
            let made = Ok(text_reply(alloc, text.into_bytes()));
            carry_out(alloc, "", &made, out, err, store)
        }
        Ok(Answer::Fault(text)) => {
            let made = Err(Refusal::Told(text.into_bytes(), 1));
            carry_out(alloc, "", &made, out, err, store)
        }
        Err(AllocError) => {
            say(err, b"memory\n");
            5
        }
    }
}

// Does what the arguments ask for.
fn do_task<R, G, I, O, E, S>(
    rt: &R,
    alloc: Global,
    gate: &G,
    task: Task<'_>,
    input: &mut Counting<'_, I>,
    out: &mut Counting<'_, O>,
    err: &mut Counting<'_, E>,
    terminal: bool,
    store: &mut S,
) -> u8
where
    R: Threads + Wait + Sync,
    G: Gate + Sync,
    I: Read,
    O: Write,
    E: Write + Send,
    S: Store,
    requires counts { HasCounts task }
    requires reads { (input.old.calls ≡ 0) × (input.old.failed ≡ 0) }
    requires writes { (out.old.calls ≡ 0) × (out.old.failed ≡ 0) }
    requires complaints { (err.old.calls ≡ 0) × (err.old.failed ≡ 0) }
    ensures ran { let given = between I.remaining input.old input.new in
        let output = passage O.contents out.old out.new in
        let errors = passage E.contents err.old err.new in
        let shelf : Shelf = record { before = S.holds store.old; after = S.holds store.new } in
        TaskOutcome task.entry terminal given output errors shelf result }
    ensures most { input.new.calls ≤ max_turns }
    ensures same_in { input.new.stream.ghost_name ≡ input.old.stream.ghost_name }
    ensures same_out { out.new.stream.ghost_name ≡ out.old.stream.ghost_name }
    ensures same_err { err.new.stream.ghost_name ≡ err.old.stream.ghost_name }
{
    match task {
        Task::Trace(options) => {
            let explains = options.explain.is_on(terminal);
            trace(alloc, options.live, explains, input, out, err, store)
        }
        Task::Check(options) => {
            let explains = options.explain.is_on(terminal);
            let made = text_made(alloc, check_file(alloc, options.file, explains, store));
            carry_out(alloc, "", &made, out, err, store)
        }
        Task::Fmt(options) => {
            let explains = options.explain.is_on(terminal);
            let made = text_made(alloc, print_file(alloc, options.file, explains, store));
            carry_out(alloc, "", &made, out, err, store)
        }
        Task::Run(options) => {
            let explains = options.explain.is_on(terminal);
            run_file(rt, alloc, gate, &options, explains, out, err, store)
        }
        Task::Replay(options) => {
            let explains = options.explain.is_on(terminal);
            replay_file(alloc, &options, explains, out, err, store)
        }
        Task::Explain(options) => explain_file(alloc, &options, out, err, store),
        Task::Explore(options) => explore_file(rt, alloc, &options, terminal, out, err, store),
        Task::Verify(options) => {
            let made = verify_file(alloc, &options, store);
            carry_out(alloc, "", &made, out, err, store)
        }
        Task::Shrink(options) => {
            let made = shrink_file(alloc, &options, store);
            carry_out(alloc, "", &made, out, err, store)
        }
        Task::Draw(options) => {
            let made = text_made(alloc, draw_file(alloc, &options, store));
            carry_out(alloc, "", &made, out, err, store)
        }
        Task::Step(options) => step_file(alloc, &options, input, out, err, store),
    }
}

// The reply that the text is, or why there is none.
fn text_made(alloc: Global, made: Result<Vec<u8>, Refusal>) -> Result<Reply, Refusal>
    ensures { plain_reply [] result ≡ plain_text made }
{
    match made {
        Ok(text) => Ok(text_reply(alloc, text)),
        Err(why) => Err(why),
    }
}
