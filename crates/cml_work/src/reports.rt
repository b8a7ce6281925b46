//! Reports written a line after another. It takes no memory.

ghost use Rattle.std.specs.{Prelude.{◌≡◌}, List.{flat_map}};
ghost use Rattle.cml_schedule.specs.Reports.{report_row_line, report_text};
ghost use Rattle.cml_stream.specs.Streams.{stream};
ghost use Rattle.cml_work.specs.{Lines.{waits_line}, Seen.{texts_of, IsSentOut, failed_with}};

use crate::lines::{head_line, row_line, wait_line};
use cml_scan::Meet;
use cml_schedule::Report;
use cml_stream::Counting;
use cml_stream::input_output::{WriteFault, write_out};
use cml_value::Tid;
use std::io::Write;

/// Writes the lines of the reports, one report after another.
///
/// # Errors
/// A write failed.
pub fn send_reports<W: Write>(
    reports: &[Report],
    writer: &mut Counting<'_, W>,
) -> Result<(), WriteFault>
    ensures sent { let output = stream (W.contents writer.old.stream.now) (W.contents writer.new.stream.now) in
        IsSentOut (texts_of reports.now) result output }
    ensures same_reference { writer.new.stream.ghost_name ≡ writer.old.stream.ghost_name }
    ensures failed { writer.new.failed ≡ failed_with result writer.old.failed }
{
    for report in reports {
        send_report(report, writer)?;
    }
    Ok(())
}

// Writes the lines of a report.
fn send_report<W: Write>(report: &Report, writer: &mut Counting<'_, W>) -> Result<(), WriteFault>
    ensures sent { let output = stream (W.contents writer.old.stream.now) (W.contents writer.new.stream.now) in
        IsSentOut (report_text report.now) result output }
    ensures same_reference { writer.new.stream.ghost_name ≡ writer.old.stream.ghost_name }
    ensures failed { writer.new.failed ≡ failed_with result writer.old.failed }
{
    send_line(head_line(report).as_str(), writer)?;
    send_rows(report.rows(), writer)?;
    send_waiting(report.waiting(), writer)
}

// Writes a line for each row.
fn send_rows<W: Write>(rows: &[Meet], writer: &mut Counting<'_, W>) -> Result<(), WriteFault>
    ensures sent { let output = stream (W.contents writer.old.stream.now) (W.contents writer.new.stream.now) in
        IsSentOut (flat_map report_row_line rows.now) result output }
    ensures same_reference { writer.new.stream.ghost_name ≡ writer.old.stream.ghost_name }
    ensures failed { writer.new.failed ≡ failed_with result writer.old.failed }
{
    for row in rows {
        send_line(row_line(row).as_str(), writer)?;
    }
    Ok(())
}

// Writes a line for each thread that waits.
fn send_waiting<W: Write>(threads: &[Tid], writer: &mut Counting<'_, W>) -> Result<(), WriteFault>
    ensures sent { let output = stream (W.contents writer.old.stream.now) (W.contents writer.new.stream.now) in
        IsSentOut (flat_map waits_line threads.now) result output }
    ensures same_reference { writer.new.stream.ghost_name ≡ writer.old.stream.ghost_name }
    ensures failed { writer.new.failed ≡ failed_with result writer.old.failed }
{
    for thread in threads {
        send_line(wait_line(*thread).as_str(), writer)?;
    }
    Ok(())
}

// Writes a line.
fn send_line<W: Write>(line: &str, writer: &mut Counting<'_, W>) -> Result<(), WriteFault>
    ensures sent { let output = stream (W.contents writer.old.stream.now) (W.contents writer.new.stream.now) in
        IsSentOut line.now result output }
    ensures same_reference { writer.new.stream.ghost_name ≡ writer.old.stream.ghost_name }
    ensures failed { writer.new.failed ≡ failed_with result writer.old.failed }
{
    write_out(writer, line.as_bytes())
}
