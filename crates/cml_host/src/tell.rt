//! What is told of a run behind its reports: how it is closed, or why it was stopped.

ghost use Rattle.std.specs.{Prelude.{◌≡◌, ◌∷◌, [], IfOk, map, option_map}, String.{string_bytes}};
ghost use Rattle.cml_check.specs.Sizes.{size_of};
ghost use Rattle.cml_hub.specs.Courses.{run_of};
ghost use Rattle.cml_host.specs.Closed.{IsClosed, plain_asked};
ghost use Rattle.cml_host.specs.Replies.{IsCarriedOut, behind, passage, plain_file, plain_of, plain_refusal};
ghost use Rattle.cml_host.specs.{Running.{stop_reply}, Stores.{Shelf}, Told.{IsRunOf}};
ghost use Rattle.cml_host.specs.Closed as closed;
ghost use Rattle.cml_host.specs.Told as spec;
ghost use Rattle.cml_schedule.specs.Written.{schedule_text};

use crate::close::{Asked, close, is_explained};
use crate::refusal::Refusal;
use crate::reply::{File, Reply, carry_out, new_file};
use crate::store::Store;
use crate::workers::{Cause, Stopped};
use cml_hub::{End, Hub};
use cml_stream::Counting;
use std::alloc::{AllocError, Global};
use std::io::Write;

/// How the run of this hub is closed, which is over: the end line behind its output; its schedule, where it is asked for under a name; and what
/// is said of its end, where that is asked for.
///
/// # Errors
/// Out of memory.
pub fn close_reply(
    alloc: Global,
    hub: &Hub,
    asked: &Asked<'_>,
    save_as: Option<&str>,
) -> Result<Reply, AllocError>
    ensures { IfOk result (λ reply. IsClosed (plain_asked asked.now) (option_map (λ name. name.now) save_as.entry) hub.now.course.program hub.now.course.items hub.now.budget (run_of hub.now.course) (behind hub.now.course.output (plain_of reply))) }
{
    let files = schedule_file(alloc, hub, is_explained(asked), save_as)?;
    let closing = close(alloc, hub, asked)?;
    let end = end_line(alloc, hub.end(), hub.pending())?;
    Ok(Reply {
        output: end.into_bytes(),
        files,
        words: closing.words,
        status: closing.status,
    })
}

/// The schedule of the hub as a file, where it is asked for under a name.
///
/// # Errors
/// Out of memory.
pub fn schedule_file(
    alloc: Global,
    hub: &Hub,
    explains: bool,
    save_as: Option<&str>,
) -> Result<Vec<File>, AllocError>
    ensures { IfOk result (λ files. map plain_file files.items ≡ closed.schedule_file explains (option_map (λ name. name.now) save_as.entry) (schedule_text hub.now.budget (size_of hub.now.course.program) hub.now.course.items)) }
{
    match save_as {
        Some(name) => {
            let schedule = hub.write_schedule(alloc)?;
            one_file(alloc, new_file(alloc, explains, name, schedule)?)
        }
        None => Ok(Vec::new(alloc)),
    }
}

/// This file, and no other one.
///
/// # Errors
/// Out of memory.
pub fn one_file(alloc: Global, file: File) -> Result<Vec<File>, AllocError>
    ensures { IfOk result (λ files. files.items ≡ file ∷ []) }
{
    let mut files = Vec::new(alloc);
    files.push(file)?;
    Ok(files)
}

/// Tells why a run has not come to its end, behind what is written of its reports: that memory ran out, where its output so far is
/// written; that a write of the reports failed; or that the reports are not its own. It returns the status.
pub fn stop<O: Write, E: Write, S: Store>(
    alloc: Global,
    stopped: &Stopped,
    out: &mut Counting<'_, O>,
    err: &mut Counting<'_, E>,
    store: &mut S,
) -> u8
    ensures told { let output = passage O.contents out.old out.new in
        let errors = passage E.contents err.old err.new in
        let shelf : Shelf = record { before = S.holds store.old; after = S.holds store.new } in
        IsCarriedOut (stop_reply stopped.now.hub stopped.now.cause) output errors shelf result }
    ensures same_out { out.new.stream.ghost_name ≡ out.old.stream.ghost_name }
    ensures same_err { err.new.stream.ghost_name ≡ err.old.stream.ghost_name }
{
    let (so_far, why) = stopped_for(stopped);
    carry_out(alloc, so_far, &Err(why), out, err, store)
}

// What is told of a run that was stopped, behind what is told of its output.
fn stopped_for<'a>(stopped: &'a Stopped) -> (&'a str, Refusal)
    ensures { plain_refusal result.0.now result.1 ≡ stop_reply stopped.now.hub stopped.now.cause }
{
    match stopped.cause {
        Cause::Memory => (stopped.hub.out(), Refusal::Memory),
        Cause::Write => ("", Refusal::Line("cannot write output\n", 1)),
        Cause::Foreign => ("", Refusal::Line("foreign hub\n", 1)),
    }
}

/// A hub stands where a run of its program leads, and its reports are those of the run.
pub fn hub_is_a_run(hub: &Hub)
    ensures { IsRunOf hub.now.course.program hub.now.watch hub.now.course.items hub.now.reports (run_of hub.now.course) }
{
    // No effect: named here so that the prover knows what holds of it.
    let _items = hub.schedule();
    let _reports = hub.reports();
}

/// Lets the hub go, at the one place where that has to be proved.
pub fn let_go(hub: Hub) {
    drop(hub);
}

// The end line of a run that ends in this way, where this many threads wait.
fn end_line(alloc: Global, end: End, waiting: usize) -> Result<String, AllocError>
    ensures { IfOk result (λ line. string_bytes line ≡ spec.end_line end waiting) }
{
    let name = end_name(end);
    format!(in alloc; "end {name} pending {waiting}\n")
}

fn end_name(end: End) -> &'static str
    ensures { result.now ≡ spec.end_name end }
{
    match end {
        End::Quiet => "quiet",
        End::Budget => "budget",
        End::Partial => "partial",
    }
}
