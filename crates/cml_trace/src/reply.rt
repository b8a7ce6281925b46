//! The lines that answer commands.

ghost use Rattle.std.specs.{Prelude.{◌≡◌, ◌++◌, map, OnOk, OnErr}, List.{flat_map}, String.{string_bytes}};
ghost use Rattle.cml_value.specs.{Show.{shown}, Value.{values}};
ghost use Rattle.cml_trace.specs.{Answers.{bad_line}, Faults.{IsWriteFailure}, Pages.{Tells, TellsStart}};
ghost use Rattle.cml_trace.specs.Replies as spec;
ghost use Rattle.cml_stream.specs.Streams.{stream};

use crate::fault::TraceFault;
use crate::page::Page;
use cml_book::{Committed, Refusal, Reply, Resume};
use cml_scan::Meet;
use cml_stream::Counting;
use cml_value::{FnRef, NackId, Value};
use std::alloc::{AllocError, Global};
use std::io::Write;

/// Tells the lines that answer with these replies.
pub fn tell_replies<W: Write>(
    alloc: Global,
    replies: &[Reply],
    page: &mut Page,
    writer: &mut Counting<'_, W>,
) -> Result<(), TraceFault>
    requires { writer.old.failed ≡ 0 }
    ensures ok { let output = stream (W.contents writer.old.stream.now) (W.contents writer.new.stream.now) in
        OnOk result (Tells page.old page.new output (flat_map spec.reply_text replies.now)) }
    ensures err { let output = stream (W.contents writer.old.stream.now) (W.contents writer.new.stream.now) in
        OnErr result (TellsStart page.old page.new output (flat_map spec.reply_text replies.now)) }
    ensures same_reference { writer.new.stream.ghost_name ≡ writer.old.stream.ghost_name }
    ensures failed { IsWriteFailure result writer.new.failed }
{
    let mut lines = String::new(alloc);
    for reply in replies {
        lines.clear();
        push_reply(alloc, &mut lines, reply)?;
        page.add(lines.as_str(), writer)?;
    }
    Ok(())
}

// The lines that answer with this reply.
fn push_reply(alloc: Global, text: &mut String, reply: &Reply) -> Result<(), AllocError>
    ensures { let lines = spec.reply_text reply.now in
        OnOk result (string_bytes text.new ≡ string_bytes text.old ++ lines) }
{
    match reply {
        Reply::Thread(thread) => push_made(text, "thread", thread.0),
        Reply::Chan(channel) => push_made(text, "chan", channel.0),
        Reply::Swap(channel) => push_made(text, "swapchan", channel.0),
        Reply::IVar(variable) => push_made(text, "ivar", variable.0),
        Reply::MVar(variable) => push_made(text, "mvar", variable.0),
        Reply::Mailbox(mailbox) => push_made(text, "mailbox", mailbox.0),
        Reply::Mchan(channel) => push_made(text, "mchan", channel.0),
        Reply::Port(port) => push_made(text, "port", port.0),
        Reply::Nack(nack) => push_made(text, "nack", nack.0),
        Reply::Done => text.push_str("ok\n"),
        Reply::Committed(committed) => push_committed(alloc, text, committed),
        Reply::Refused(why) => push_refusal(text, *why),
    }
}

// The line that answers where this was made, with this number.
fn push_made(text: &mut String, name: &str, number: u32) -> Result<(), AllocError>
    ensures { OnOk result (string_bytes text.new ≡ string_bytes text.old ++ spec.line (name.now ++ spec.spaced number)) }
{
    writeln!(text, "{name} {number}")
}

/// Tells the number of the rows, and each on a line.
pub fn tell_rows<W: Write>(
    alloc: Global,
    rows: &[Meet],
    page: &mut Page,
    writer: &mut Counting<'_, W>,
) -> Result<(), TraceFault>
    requires { writer.old.failed ≡ 0 }
    ensures ok { let output = stream (W.contents writer.old.stream.now) (W.contents writer.new.stream.now) in
        OnOk result (Tells page.old page.new output (spec.rows_text rows.now)) }
    ensures err { let output = stream (W.contents writer.old.stream.now) (W.contents writer.new.stream.now) in
        OnErr result (TellsStart page.old page.new output (spec.rows_text rows.now)) }
    ensures same_reference { writer.new.stream.ghost_name ≡ writer.old.stream.ghost_name }
    ensures failed { IsWriteFailure result writer.new.failed }
{
    let count = rows.len();
    let mut line = format!(in alloc; "rows {count}\n")?;
    page.add(line.as_str(), writer)?;
    for row in rows {
        line.clear();
        push_row(&mut line, row)?;
        page.add(line.as_str(), writer)?;
    }
    Ok(())
}

/// Tells that the line of this number is bad.
pub fn tell_bad<W: Write>(
    alloc: Global,
    number: u64,
    page: &mut Page,
    writer: &mut Counting<'_, W>,
) -> Result<(), TraceFault>
    requires { writer.old.failed ≡ 0 }
    ensures ok { let output = stream (W.contents writer.old.stream.now) (W.contents writer.new.stream.now) in
        OnOk result (Tells page.old page.new output (bad_line number)) }
    ensures err { let output = stream (W.contents writer.old.stream.now) (W.contents writer.new.stream.now) in
        OnErr result (TellsStart page.old page.new output (bad_line number)) }
    ensures same_reference { writer.new.stream.ghost_name ≡ writer.old.stream.ghost_name }
    ensures failed { IsWriteFailure result writer.new.failed }
{
    let line = format!(in alloc; "bad {number}\n")?;
    page.add(line.as_str(), writer)
}

fn push_row(text: &mut String, row: &Meet) -> Result<(), AllocError>
    ensures { let line = spec.row_line row.now in
        OnOk result (string_bytes text.new ≡ string_bytes text.old ++ line) }
{
    text.push_str("row")?;
    row.push_numbers(text)?;
    text.push_str("\n")
}

fn push_refusal(text: &mut String, why: Refusal) -> Result<(), AllocError>
    ensures { OnOk result (string_bytes text.new ≡ string_bytes text.old ++ spec.refused_line why) }
{
    let number = why.number();
    let name = why.name();
    writeln!(text, "refused {number} {name}")
}

// Both parties, and the nacks that fired.
fn push_committed(alloc: Global, text: &mut String, committed: &Committed) -> Result<(), AllocError>
    ensures { let lines = spec.committed_text committed.now in
        OnOk result (string_bytes text.new ≡ string_bytes text.old ++ lines) }
{
    push_resume(alloc, text, &committed.head)?;
    if let Some(partner) = &committed.partner {
        push_resume(alloc, text, partner)?;
    }
    text.push_str("fired")?;
    push_fired(text, &committed.head)?;
    if let Some(partner) = &committed.partner {
        push_fired(text, partner)?;
    }
    text.push_str("\n")
}

fn push_resume(alloc: Global, text: &mut String, resume: &Resume) -> Result<(), AllocError>
    ensures { let line = spec.resume_line resume.now in
        OnOk result (string_bytes text.new ≡ string_bytes text.old ++ line) }
{
    write!(text, "resume {} ", resume.tid.0)?;
    push_value(alloc, text, &resume.value)?;
    for function in &resume.wraps {
        push_function(alloc, text, function)?;
    }
    text.push_str("\n")
}

// The value as it is shown.
fn push_value(alloc: Global, text: &mut String, value: &Value) -> Result<(), AllocError>
    ensures { OnOk result (string_bytes text.new ≡ string_bytes text.old ++ shown value.now) }
{
    let shown = value.show(alloc)?;
    let result = text.push_str(shown.as_str());
    drop(shown);
    result
}

// The nacks that fired for this party.
fn push_fired(text: &mut String, resume: &Resume) -> Result<(), AllocError>
    ensures { let numbers = flat_map spec.spaced resume.now.fired in
        OnOk result (string_bytes text.new ≡ string_bytes text.old ++ numbers) }
{
    push_nacks(text, &resume.fired)
}

fn push_function(alloc: Global, text: &mut String, function: &FnRef) -> Result<(), AllocError>
    ensures { let shown = spec.shown_function function.now in
        OnOk result (string_bytes text.new ≡ string_bytes text.old ++ shown) }
{
    write!(text, " ({}", function.func())?;
    push_values(alloc, text, function.args())?;
    text.push_str(")")
}

fn push_values(alloc: Global, text: &mut String, captured: &[Value]) -> Result<(), AllocError>
    ensures { let shown = spec.shown_values (values captured.now) in
        OnOk result (string_bytes text.new ≡ string_bytes text.old ++ shown) }
{
    for value in captured {
        text.push_str(" ")?;
        push_value(alloc, text, value)?;
    }
    Ok(())
}

fn push_nacks(text: &mut String, nacks: &[NackId]) -> Result<(), AllocError>
    ensures { let numbers = flat_map spec.spaced (map (λ k. k.0) nacks.now) in
        OnOk result (string_bytes text.new ≡ string_bytes text.old ++ numbers) }
{
    for nack in nacks {
        write!(text, " {}", nack.0)?;
    }
    Ok(())
}
