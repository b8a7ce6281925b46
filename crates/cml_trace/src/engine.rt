//! The engine that answers a trace.

ghost use Rattle.std.specs.{Prelude.{◌≡◌, ◌≤◌, ◌+◌, [], length, Ok, IfOk, IfErr, OnErr, OnOk}, List.{flat_map}};
ghost use Rattle.cml_scan.specs.Scan.{scan};
ghost use Rattle.cml_book.specs.Step.{replies_of, world_after};
ghost use Rattle.cml_trace.specs.{Answers.{max_input}, Faults.{HasCause, IsWriteFailure}};
ghost use Rattle.cml_trace.specs.{Pages.{Tells, TellsStart}, Replies.{reply_text, rows_text}};
ghost use Rattle.cml_trace.specs.Runs.{AreAnswered, AreBegun, AreWritten, AreWrittenTo, Came, IsAnswered, IsBegun, IsBroken};
ghost use Rattle.cml_stream.specs.{Counts.{Calls, most_reads}, Streams.{Stream, stream, Takes, TakesStart}};

use crate::batch::{Batch, Stop, gather};
use crate::explained::explain_trace;
use crate::fault::{TraceEnd, TraceFault};
use crate::line::Lines;
use crate::page::Page;
use crate::reply::{tell_bad, tell_replies, tell_rows};
use crate::said::write_told;
use cml_book::{Book, Command};
use cml_index::OfferIndex;
use cml_scan::Table;
use cml_stream::Counting;
use cml_stream::input_output::{WriteFault, read_all, write_out};
use cml_text::law::spelled_or_faulty;
use std::alloc::{AllocError, Global};
use std::io::{Read, Write};

/// The most bytes of a trace.
pub const MAX_INPUT: usize = 1_048_576;

/// Answers a trace. The whole input is read before the first line is answered.
///
/// # Errors
/// A failed read, no end in 2,097,152 reads, a failed write, or out of memory. What was written is nothing, or a prefix of the
/// answer.
pub fn run_trace<R: Read, W: Write>(
    alloc: Global,
    reader: &mut Counting<'_, R>,
    writer: &mut Counting<'_, W>,
) -> Result<TraceEnd, TraceFault>
    requires uncalled { (reader.old.calls ≡ 0) × (reader.old.failed ≡ 0) × (writer.old.calls ≡ 0) × (writer.old.failed ≡ 0) }
    ensures ok { let input = stream (R.remaining reader.old.stream.now) (R.remaining reader.new.stream.now) in
        let output = stream (W.contents writer.old.stream.now) (W.contents writer.new.stream.now) in
        IfOk result (IsAnswered input output) }
    ensures err { let input = stream (R.remaining reader.old.stream.now) (R.remaining reader.new.stream.now) in
        let output = stream (W.contents writer.old.stream.now) (W.contents writer.new.stream.now) in
        IfErr result (IsBroken input output) }
    ensures cause { let reads : Calls = record { calls = reader.new.calls; failed = reader.new.failed } in
        let writes : Calls = record { calls = writer.new.calls; failed = writer.new.failed } in
        HasCause result reads writes }
    ensures reads { reader.new.calls ≤ most_reads max_input }
    ensures same { (reader.new.stream.ghost_name ≡ reader.old.stream.ghost_name) × (writer.new.stream.ghost_name ≡ writer.old.stream.ghost_name) }
{
    run_trace_over(alloc, OfferIndex::new(alloc), reader, writer)
}

/// Answers a trace over this table, which was told nothing, as [`run_trace`] does: which table it is makes no difference to the answer.
///
/// # Errors
/// Those of [`run_trace`].
pub fn run_trace_over<T: Table + Drop, R: Read, W: Write>(
    alloc: Global,
    table: T,
    reader: &mut Counting<'_, R>,
    writer: &mut Counting<'_, W>,
) -> Result<TraceEnd, TraceFault>
    requires nothing_told { T.entries table ≡ [] }
    requires uncalled { (reader.old.calls ≡ 0) × (reader.old.failed ≡ 0) × (writer.old.calls ≡ 0) × (writer.old.failed ≡ 0) }
    ensures ok { let input = stream (R.remaining reader.old.stream.now) (R.remaining reader.new.stream.now) in
        let output = stream (W.contents writer.old.stream.now) (W.contents writer.new.stream.now) in
        IfOk result (IsAnswered input output) }
    ensures err { let input = stream (R.remaining reader.old.stream.now) (R.remaining reader.new.stream.now) in
        let output = stream (W.contents writer.old.stream.now) (W.contents writer.new.stream.now) in
        IfErr result (IsBroken input output) }
    ensures cause { let reads : Calls = record { calls = reader.new.calls; failed = reader.new.failed } in
        let writes : Calls = record { calls = writer.new.calls; failed = writer.new.failed } in
        HasCause result reads writes }
    ensures reads { reader.new.calls ≤ most_reads max_input }
    ensures same { (reader.new.stream.ghost_name ≡ reader.old.stream.ghost_name) × (writer.new.stream.ghost_name ≡ writer.old.stream.ghost_name) }
{
    let input = read_all(alloc, reader, MAX_INPUT)?;
    let result = answer(alloc, table, input.as_slice(), writer);
    drop(input);
    result
}

/// Answers a trace as [`run_trace`] does, and then appends what is told of it: why commands were refused, and why a line is bad.
///
/// # Errors
/// Those of [`run_trace`].
pub fn run_trace_explained<R: Read, W: Write>(
    alloc: Global,
    told: &mut String,
    reader: &mut Counting<'_, R>,
    writer: &mut Counting<'_, W>,
) -> Result<TraceEnd, TraceFault>
    requires uncalled { (reader.old.calls ≡ 0) × (reader.old.failed ≡ 0) × (writer.old.calls ≡ 0) × (writer.old.failed ≡ 0) }
    ensures ok { let input = stream (R.remaining reader.old.stream.now) (R.remaining reader.new.stream.now) in
        let output = stream (W.contents writer.old.stream.now) (W.contents writer.new.stream.now) in
        IfOk result (IsAnswered input output) }
    ensures err { let input = stream (R.remaining reader.old.stream.now) (R.remaining reader.new.stream.now) in
        let output = stream (W.contents writer.old.stream.now) (W.contents writer.new.stream.now) in
        IfErr result (IsBroken input output) }
    ensures cause { let reads : Calls = record { calls = reader.new.calls; failed = reader.new.failed } in
        let writes : Calls = record { calls = writer.new.calls; failed = writer.new.failed } in
        HasCause result reads writes }
    ensures reads { reader.new.calls ≤ most_reads max_input }
    ensures same { (reader.new.stream.ghost_name ≡ reader.old.stream.ghost_name) × (writer.new.stream.ghost_name ≡ writer.old.stream.ghost_name) }
{
    let input = read_all(alloc, reader, MAX_INPUT)?;
    let result = answer_and_tell(alloc, told, input.as_slice(), writer);
    drop(input);
    result
}

// Answers this trace, and appends what is told of it.
fn answer_and_tell<W: Write>(
    alloc: Global,
    told: &mut String,
    trace: &[u8],
    writer: &mut Counting<'_, W>,
) -> Result<TraceEnd, TraceFault>
    requires { writer.old.failed ≡ 0 }
    ensures ok { let output = stream (W.contents writer.old.stream.now) (W.contents writer.new.stream.now) in
        (input : Stream) → Came input trace.now → IfOk result (IsAnswered input output) }
    ensures err { let output = stream (W.contents writer.old.stream.now) (W.contents writer.new.stream.now) in
        (input : Stream) → Came input trace.now → OnErr result (IsBegun input output) }
    ensures same_reference { writer.new.stream.ghost_name ≡ writer.old.stream.ghost_name }
    ensures failed { IsWriteFailure result writer.new.failed }
{
    let end = answer(alloc, OfferIndex::new(alloc), trace, writer)?;
    tell(alloc, told, trace)?;
    Ok(end)
}

// Appends what is told of this trace.
fn tell(alloc: Global, text: &mut String, trace: &[u8]) -> Result<(), AllocError> {
    if trace.len() > MAX_INPUT {
        return text.push_str("a trace has at most 1048576 bytes; with --live there is no limit\n");
    }
    let told = explain_trace(alloc, trace)?;
    let result = write_told(text, told.as_slice());
    drop(told);
    result
}

// Answers this trace.
fn answer<T: Table + Drop, W: Write>(
    alloc: Global,
    table: T,
    trace: &[u8],
    writer: &mut Counting<'_, W>,
) -> Result<TraceEnd, TraceFault>
    requires nothing_told { T.entries table ≡ [] }
    requires fresh { writer.old.failed ≡ 0 }
    ensures ok { let output = stream (W.contents writer.old.stream.now) (W.contents writer.new.stream.now) in
        (input : Stream) → Came input trace.now → IfOk result (IsAnswered input output) }
    ensures err { let output = stream (W.contents writer.old.stream.now) (W.contents writer.new.stream.now) in
        (input : Stream) → Came input trace.now → OnErr result (IsBegun input output) }
    ensures same_reference { writer.new.stream.ghost_name ≡ writer.old.stream.ghost_name }
    ensures failed { IsWriteFailure result writer.new.failed }
{
    if trace.len() > MAX_INPUT {
        drop(table);
        write_out(writer, b"too long\n")?;
        return Ok(TraceEnd::TooLong);
    }
    let mut book = Book::new(alloc, table);
    let result = write_answer(alloc, &mut book, &mut Lines::new(1, trace), writer);
    drop(book);
    result
}

/// Answers these lines in the world of the book, and writes the text that answers them.
pub fn write_answer<T: Table, W: Write>(
    alloc: Global,
    book: &mut Book<T>,
    lines: &mut Lines<'_>,
    writer: &mut Counting<'_, W>,
) -> Result<TraceEnd, TraceFault>
    requires { writer.old.failed ≡ 0 }
    ensures ok { let output = stream (W.contents writer.old.stream.now) (W.contents writer.new.stream.now) in
        IfOk result (AreWritten lines.old book.old book.new output) }
    ensures counted { IfOk result (λ end. end ≡ TraceEnd.Done → lines.new.number ≡ lines.old.number + length lines.old.left) }
    ensures err { let output = stream (W.contents writer.old.stream.now) (W.contents writer.new.stream.now) in
        OnErr result (AreWrittenTo lines.old book.old output) }
    ensures same_reference { writer.new.stream.ghost_name ≡ writer.old.stream.ghost_name }
    ensures failed { IsWriteFailure result writer.new.failed }
{
    let mut page = Page::new(alloc);
    let end = answer_lines(alloc, book, lines, &mut page, writer);
    finish(end, page, writer)
}

// Writes what still waits, except where a write failed before.
fn finish<W: Write>(
    end: Result<TraceEnd, TraceFault>,
    mut page: Page,
    writer: &mut Counting<'_, W>,
) -> Result<TraceEnd, TraceFault>
    requires { IsWriteFailure end writer.old.failed }
    ensures ok { let output = stream (W.contents writer.old.stream.now) (W.contents writer.new.stream.now) in
        OnOk result (Takes output page) }
    ensures end { IfOk result (λ e. end ≡ Ok e) }
    ensures err { let output = stream (W.contents writer.old.stream.now) (W.contents writer.new.stream.now) in
        OnErr result (TakesStart output page) }
    ensures same_reference { writer.new.stream.ghost_name ≡ writer.old.stream.ghost_name }
    ensures failed { IsWriteFailure result writer.new.failed }
{
    if let Err(TraceFault::Write) = end {
        return end;
    }
    match page.send(writer) {
        Ok(()) => end,
        Err(WriteFault) => Err(TraceFault::Write),
    }
}

// Answers all lines.
fn answer_lines<T: Table, W: Write>(
    alloc: Global,
    book: &mut Book<T>,
    lines: &mut Lines<'_>,
    page: &mut Page,
    writer: &mut Counting<'_, W>,
) -> Result<TraceEnd, TraceFault>
    requires { writer.old.failed ≡ 0 }
    ensures ok { let output = stream (W.contents writer.old.stream.now) (W.contents writer.new.stream.now) in
        IfOk result (AreAnswered lines.old book.old book.new page.old page.new output) }
    ensures counted { IfOk result (λ end. end ≡ TraceEnd.Done → lines.new.number ≡ lines.old.number + length lines.old.left) }
    ensures err { let output = stream (W.contents writer.old.stream.now) (W.contents writer.new.stream.now) in
        OnErr result (AreBegun lines.old book.old page.old page.new output) }
    ensures same_reference { writer.new.stream.ghost_name ≡ writer.old.stream.ghost_name }
    ensures failed { IsWriteFailure result writer.new.failed }
{
    spelled_or_faulty();
    loop {
        let Batch { commands, stop } = gather(alloc, lines);
        do_commands(alloc, book, commands, page, writer)?;
        match stop {
            Stop::Rows => do_rows(alloc, book, page, writer)?,
            Stop::Bad(number) => {
                tell_bad(alloc, number, page, writer)?;
                return Ok(TraceEnd::Bad(number));
            }
            Stop::End => return Ok(TraceEnd::Done),
            Stop::Memory => return Err(TraceFault::Memory),
        }
    }
}

// Does the commands by one call, and tells their replies.
fn do_commands<T: Table, W: Write>(
    alloc: Global,
    book: &mut Book<T>,
    commands: Vec<Command>,
    page: &mut Page,
    writer: &mut Counting<'_, W>,
) -> Result<(), TraceFault>
    requires { writer.old.failed ≡ 0 }
    ensures world { OnOk result (book.new ≡ world_after commands.items book.old) }
    ensures ok { let output = stream (W.contents writer.old.stream.now) (W.contents writer.new.stream.now) in
        let text = flat_map reply_text (replies_of commands.items book.old) in
        OnOk result (Tells page.old page.new output text) }
    ensures err { let output = stream (W.contents writer.old.stream.now) (W.contents writer.new.stream.now) in
        let text = flat_map reply_text (replies_of commands.items book.old) in
        OnErr result (TellsStart page.old page.new output text) }
    ensures same_reference { writer.new.stream.ghost_name ≡ writer.old.stream.ghost_name }
    ensures failed { IsWriteFailure result writer.new.failed }
{
    match book.run(alloc, commands) {
        Ok(replies) => {
            let result = tell_replies(alloc, replies.as_slice(), page, writer);
            drop(replies);
            result
        }
        Err(stopped) => {
            let told = tell_replies(alloc, stopped.replies.as_slice(), page, writer);
            drop(stopped);
            told?;
            Err(TraceFault::Memory)
        }
    }
}

// Tells the rows that are enabled now.
fn do_rows<T: Table, W: Write>(
    alloc: Global,
    book: &Book<T>,
    page: &mut Page,
    writer: &mut Counting<'_, W>,
) -> Result<(), TraceFault>
    requires { writer.old.failed ≡ 0 }
    ensures ok { let output = stream (W.contents writer.old.stream.now) (W.contents writer.new.stream.now) in
        OnOk result (Tells page.old page.new output (rows_text (scan book.now))) }
    ensures err { let output = stream (W.contents writer.old.stream.now) (W.contents writer.new.stream.now) in
        OnErr result (TellsStart page.old page.new output (rows_text (scan book.now))) }
    ensures same_reference { writer.new.stream.ghost_name ≡ writer.old.stream.ghost_name }
    ensures failed { IsWriteFailure result writer.new.failed }
{
    let rows = book.table().rows(alloc)?;
    tell_rows(alloc, rows.as_slice(), page, writer)
}
