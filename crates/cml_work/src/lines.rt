//! The lines of a report, each in a text of fixed room, so that no memory is needed to write them.

ghost use Rattle.std.specs.Prelude.{◌≡◌, ◌+◌, ◌≤◌, ◌++◌};
ghost use Rattle.arrayvec.specs.ArrayString.{array_string_len};
ghost use Rattle.cml_work.specs.Lines.{report_head};
ghost use Rattle.cml_schedule.specs.Reports.{report_row_line, wait_line as wait_text};
ghost use Rattle.cml_scan.specs.Numbers.{spaced};

use arrayvec::ArrayString;
use cml_scan::Meet;
use cml_schedule::Report;
use cml_value::Tid;
use itoa::Buffer;

/// The most bytes of a line.
pub const ROOM: usize = 256;

/// The first line of a report.
pub fn head_line(report: &Report) -> ArrayString<ROOM>
    ensures { result.bytes ≡ report_head report.now }
{
    let mut line = ArrayString::new();
    line.push_str("report");
    push_number(&mut line, report.at());
    line.push_str(" rows");
    push_number(&mut line, report.rows().len() as u64);
    line.push_str(" waiting");
    push_number(&mut line, report.waiting().len() as u64);
    line.push_str("\n");
    line
}

/// The line of a row.
pub fn row_line(row: &Meet) -> ArrayString<ROOM>
    ensures { result.bytes ≡ report_row_line row.now }
{
    let mut line = ArrayString::new();
    line.push_str("row");
    match *row {
        Meet::Single { tid, leaf } => push_place(&mut line, tid, leaf),
        Meet::Pair {
            head,
            head_leaf,
            other,
            other_leaf,
        } => {
            push_place(&mut line, head, head_leaf);
            push_place(&mut line, other, other_leaf);
        }
    }
    line.push_str("\n");
    line
}

/// The line of a thread that waits.
pub fn wait_line(thread: Tid) -> ArrayString<ROOM>
    ensures { result.bytes ≡ wait_text thread.0 }
{
    let mut line = ArrayString::new();
    line.push_str("wait");
    push_number(&mut line, u64::from(thread.0));
    line.push_str("\n");
    line
}

// A thread and a leaf, each after a space.
fn push_place(line: &mut ArrayString<ROOM>, thread: Tid, leaf: u32)
    requires room { array_string_len line.old + 82 ≤ 256 }
    ensures text { line.new.bytes ≡ line.old.bytes ++ spaced thread.0 ++ spaced leaf }
    ensures short { array_string_len line.new ≤ array_string_len line.old + 82 }
{
    push_number(line, u64::from(thread.0));
    push_number(line, u64::from(leaf));
}

// A number in decimal, after a space.
fn push_number(line: &mut ArrayString<ROOM>, number: u64)
    requires room { array_string_len line.old + 41 ≤ 256 }
    ensures text { line.new.bytes ≡ line.old.bytes ++ spaced number }
    ensures short { array_string_len line.new ≤ array_string_len line.old + 41 }
{
    let mut buffer = Buffer::new();
    line.push_str(" ");
    line.push_str(buffer.format(number));
}
