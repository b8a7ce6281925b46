//! The words of the answer to a line.

use crate::fault_words::Run;
use crate::question_words::{
    push_ended, push_numbered_line, push_prompt, push_question, push_rows,
};
use crate::reply::{Reply, Stay};
use cml_facts::narrative::{push_happened, push_why};
use cml_hub::Item;
use std::alloc::{AllocError, Global};

// What can be answered.
const HELP: &[u8] =
    b"a number takes that row, t N gives thread N its turn, an empty line goes on, l N lists rows from number N on, w says who waits, u undoes the last item, q ends\n";

// Appends what was added to the output, behind a bar.
fn push_printed(out: &mut Vec<u8>, printed: &[u8]) -> Result<(), AllocError> {
    if printed.is_empty() {
        return Ok(());
    }
    out.extend_from_slice(b"| ")?;
    out.extend_from_slice(printed)
}

// Appends why nothing changes at a line, or what was asked by it.
fn push_stay(
    alloc: Global,
    out: &mut Vec<u8>,
    run: Run<'_>,
    stay: &Stay,
) -> Result<(), AllocError> {
    let forms = run.stepper.forms;
    match stay {
        Stay::NoItem => out.extend_from_slice(b"there is no item to undo\n"),
        Stay::Waits(ending) => push_ended(alloc, out, run, ending),
        Stay::Listed(rows) => push_rows(alloc, out, forms, rows),
        Stay::NoRow(number) => push_numbered_line(alloc, out, b"there is no row ", *number, b""),
        Stay::NoTurn(thread, why) => {
            push_why(alloc, out, forms, &Item::Turn(*thread), why)?;
            out.extend_from_slice(b"\n")
        }
        Stay::Nothing => {
            out.extend_from_slice(b"nothing can happen: u undoes the last item, q ends\n")
        }
        Stay::ManyRows => {
            out.extend_from_slice(b"more than one row can be taken: a number takes one\n")
        }
        Stay::Unknown => out.extend_from_slice(HELP),
    }
}

/// Appends the answer to a line, after which the run stands here.
///
/// # Errors
/// Out of memory.
pub fn push_reply(
    alloc: Global,
    out: &mut Vec<u8>,
    run: Run<'_>,
    reply: &Reply,
) -> Result<(), AllocError> {
    match reply {
        Reply::Quit => Ok(()),
        Reply::Gone {
            happened,
            printed,
            question,
        } => {
            push_happened(alloc, out, run.stepper.forms, 0, happened)?;
            push_printed(out, printed.as_slice())?;
            run.push_fault_of(alloc, out, happened, question)?;
            push_question(alloc, out, run, question)
        }
        Reply::Undone { number, question } => {
            push_numbered_line(alloc, out, b"item ", *number as u64, b" is undone")?;
            push_question(alloc, out, run, question)
        }
        Reply::Stays { stay, number } => {
            push_stay(alloc, out, run, stay)?;
            push_prompt(alloc, out, *number)
        }
    }
}
