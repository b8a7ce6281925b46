//! The watcher.

ghost use Rattle.std.specs.Prelude.{◌≡◌, Some, IfOk, OnErr};
ghost use Rattle.cml_schedule.specs.Reports.{report_text};
ghost use Rattle.cml_stream.specs.Streams.{stream, Takes};
ghost use Rattle.cml_work.specs.{Marks.{BeginsWith, WasShown, shown_of}, Seen.{texts_of, BreaksOff, IsShownText, IsWatched, failed_after, failed_watching}};

use crate::desk::Desk;
use crate::fault::WatchFault;
use crate::marks::Mark;
use crate::opening::Opening;
use crate::shared::Shared;
use cml_hub::Chooser;
use cml_schedule::{Report, render};
use cml_stream::Counting;
use cml_stream::input_output::write_out;
use std::alloc::{AllocError, Global};
use std::io::Write;
use std::sync::Wait;

// Writes the lines of a report.
fn show<W: Write>(
    alloc: Global,
    report: &Report,
    writer: &mut Counting<'_, W>,
) -> Result<(), WatchFault>
    ensures shown { let output = stream (W.contents writer.old.stream.now) (W.contents writer.new.stream.now) in
        IsShownText (report_text report.now) result output }
    ensures same_reference { writer.new.stream.ghost_name ≡ writer.old.stream.ghost_name }
    ensures failed { writer.new.failed ≡ failed_after result writer.old.failed }
{
    let text = render(alloc, report)?;
    match write_out(writer, text.as_bytes()) {
        Ok(()) => Ok(()),
        Err(_) => Err(WatchFault::Write),
    }
}

// What a watcher saw: the reports in their order, which were written, the last of them perhaps not whole where a write failed; why it gave
// up, if it did; and its mark.
#[derive(Drop)]
pub(crate) struct Watched {
    pub(crate) seen: Vec<Report>,
    pub(crate) fault: Option<WatchFault>,
    pub(crate) mark: Mark,
}

// What a watcher saw that gave up.
fn broken_off(seen: Vec<Report>, fault: WatchFault, mark: Mark) -> Watched
    ensures { (result.seen ≡ seen) × (result.fault ≡ Some fault) × (result.mark ≡ mark) }
{
    Watched {
        seen,
        fault: Some(fault),
        mark,
    }
}

// Writes each report as it is made, until the workers have ended and all are written.
fn watch_all<R: Wait, O: Opening, C: Chooser + Drop, W: Write>(
    rt: &R,
    alloc: Global,
    shared: &Shared<O, C>,
    writer: &mut Counting<'_, W>,
) -> Watched
    ensures watched { let output = stream (W.contents writer.old.stream.now) (W.contents writer.new.stream.now) in
        IsWatched output result.seen.items result.fault }
    ensures mark { WasShown O.board (shown_of result.mark) result.mark }
    ensures shown { BeginsWith (shown_of result.mark) result.seen.items }
    ensures same_reference { writer.new.stream.ghost_name ≡ writer.old.stream.ghost_name }
    ensures failed { writer.new.failed ≡ failed_watching result.fault writer.old.failed }
{
    let mut mark = shared.mark(rt);
    let mut seen = Vec::new(alloc);
    for _ in rt.forever() {
        let Ok(()) = seen.reserve(1) else {
            return broken_off(seen, WatchFault::Memory, mark);
        };
        let (told, now) = shared.report(rt, seen.len(), mark);
        mark = now;
        match told {
            Ok(Some(report)) => match show(alloc, &report, writer) {
                Ok(()) => seen.push_reserved(report),
                Err(WatchFault::Memory) => {
                    drop(report);
                    return broken_off(seen, WatchFault::Memory, mark);
                }
                Err(WatchFault::Write) => {
                    seen.push_reserved(report);
                    return broken_off(seen, WatchFault::Write, mark);
                }
            },
            Ok(None) => {
                return Watched {
                    seen,
                    fault: None,
                    mark,
                };
            }
            Err(_) => return broken_off(seen, WatchFault::Memory, mark),
        }
    }
    unreachable!()
}

// The same; where it gives up the workers are stopped.
pub(crate) fn watch_marked<R: Wait, O: Opening, C: Chooser + Drop, W: Write>(
    rt: &R,
    alloc: Global,
    shared: &Shared<O, C>,
    writer: &mut Counting<'_, W>,
) -> Watched
    ensures watched { let output = stream (W.contents writer.old.stream.now) (W.contents writer.new.stream.now) in
        IsWatched output result.seen.items result.fault }
    ensures mark { WasShown O.board (shown_of result.mark) result.mark }
    ensures shown { BeginsWith (shown_of result.mark) result.seen.items }
    ensures same_reference { writer.new.stream.ghost_name ≡ writer.old.stream.ghost_name }
    ensures failed { writer.new.failed ≡ failed_watching result.fault writer.old.failed }
{
    let watched = watch_all(rt, alloc, shared, writer);
    if watched.fault.is_some() {
        shared.stop(rt);
    }
    watched
}

/// Writes each report of the hub as soon as it is made, until the workers have ended and all are written, and returns what it wrote. It
/// writes while it does not hold the lock.
///
/// # Errors
/// A write that failed or took nothing; or out of memory. What was written are the lines of reports, and a prefix of those of one more.
/// The workers are stopped then.
pub fn watch<R: Wait, O: Opening, C: Chooser + Drop, W: Write>(
    rt: &R,
    alloc: Global,
    shared: &Shared<O, C>,
    writer: &mut Counting<'_, W>,
) -> Result<Vec<Report>, WatchFault>
    ensures ok { let output = stream (W.contents writer.old.stream.now) (W.contents writer.new.stream.now) in
        IfOk result (λ seen. Takes output (texts_of seen.items)) }
    ensures err { let output = stream (W.contents writer.old.stream.now) (W.contents writer.new.stream.now) in
        OnErr result (BreaksOff output) }
    ensures same_reference { writer.new.stream.ghost_name ≡ writer.old.stream.ghost_name }
    ensures failed { writer.new.failed ≡ failed_after result writer.old.failed }
{
    let Watched {
        seen,
        fault,
        mark: _,
    } = watch_marked(rt, alloc, shared, writer);
    match fault {
        None => Ok(seen),
        Some(fault) => {
            drop(seen);
            Err(fault)
        }
    }
}
