//! The words of a question.

use crate::fault_words::Run;
use crate::offer::{Offer, Row, Rows};
use crate::question::{Next, Offers, Question, Ready};
use cml_facts::ending::{Ending, push_awaited_event, push_named, push_number, write_ending};
use cml_phrase::push_line;
use cml_text::Sexpr;
use std::alloc::{AllocError, Global};

// Appends a thread that runs.
fn push_ready(
    alloc: Global,
    out: &mut Vec<u8>,
    forms: &[Sexpr],
    ready: &Ready,
) -> Result<(), AllocError> {
    out.extend_from_slice(b"  t ")?;
    push_number(alloc, out, u64::from(ready.thread.thread))?;
    out.extend_from_slice(b"  ")?;
    push_named(alloc, out, forms, &ready.thread)?;
    if let Some(place) = ready.place {
        out.extend_from_slice(b" at ")?;
        push_line(alloc, out, place)?;
    }
    out.extend_from_slice(b"\n")
}

// Appends words, a number, and the end of a line.
pub(crate) fn push_numbered_line(
    alloc: Global,
    out: &mut Vec<u8>,
    words: &[u8],
    number: u64,
    behind: &[u8],
) -> Result<(), AllocError> {
    out.extend_from_slice(words)?;
    push_number(alloc, out, number)?;
    out.extend_from_slice(behind)?;
    out.extend_from_slice(b"\n")
}

// Appends a thread, and the event at one of its leaves.
fn push_offer(
    alloc: Global,
    out: &mut Vec<u8>,
    forms: &[Sexpr],
    offer: &Offer,
) -> Result<(), AllocError> {
    push_named(alloc, out, forms, &offer.thread)?;
    out.extend_from_slice(b": ")?;
    match &offer.event {
        Some(event) => push_awaited_event(alloc, out, forms, event),
        None => out.extend_from_slice(b"nothing"),
    }
}

// Appends a row, which has this number.
fn push_row(
    alloc: Global,
    out: &mut Vec<u8>,
    forms: &[Sexpr],
    number: u64,
    row: &Row,
) -> Result<(), AllocError> {
    out.extend_from_slice(b"  ")?;
    push_number(alloc, out, number)?;
    out.extend_from_slice(b"  ")?;
    push_offer(alloc, out, forms, &row.head)?;
    if let Some(other) = &row.other {
        out.extend_from_slice(b"; ")?;
        push_offer(alloc, out, forms, other)?;
    }
    out.extend_from_slice(b"\n")
}

/// Appends rows, each with its number, and that there are more, if there are.
pub(crate) fn push_rows(
    alloc: Global,
    out: &mut Vec<u8>,
    forms: &[Sexpr],
    rows: &Rows,
) -> Result<(), AllocError> {
    let mut number = rows.first;
    for row in &rows.rows {
        push_row(alloc, out, forms, number, row)?;
        number = number.saturating_add(1);
    }
    if !rows.more {
        return Ok(());
    }
    push_numbered_line(alloc, out, b"  and more rows: l ", number, b" lists them")
}

// Appends what can happen.
fn push_offers(
    alloc: Global,
    out: &mut Vec<u8>,
    forms: &[Sexpr],
    offers: &Offers,
) -> Result<(), AllocError> {
    for ready in &offers.ready {
        push_ready(alloc, out, forms, ready)?;
    }
    if offers.more_ready != 0 {
        let more = offers.more_ready as u64;
        push_numbered_line(alloc, out, b"  and ", more, b" more threads")?;
    }
    push_rows(alloc, out, forms, &offers.rows)?;
    match offers.tick {
        Some(tick) => push_numbered_line(
            alloc,
            out,
            b"  an empty line moves the time to tick ",
            tick,
            b"",
        ),
        None => Ok(()),
    }
}

/// Appends how the run has ended, or that no thread is left; and where and why threads ended at faults.
pub(crate) fn push_ended(
    alloc: Global,
    out: &mut Vec<u8>,
    run: Run<'_>,
    ending: &Ending,
) -> Result<(), AllocError> {
    let before = out.len();
    write_ending(alloc, out, run.name, run.stepper.forms, ending)?;
    if out.len() == before {
        out.extend_from_slice(b"all threads have ended\n")?;
    }
    run.push_faults(alloc, out)
}

/// Appends the number of the item that comes next; at the first item, how to learn what can be typed.
pub(crate) fn push_prompt(
    alloc: Global,
    out: &mut Vec<u8>,
    number: usize,
) -> Result<(), AllocError> {
    let behind: &[u8] = if number == 1 {
        b"? (? says what can be typed)"
    } else {
        b"?"
    };
    push_numbered_line(alloc, out, b"item ", number as u64, behind)
}

/// Appends a question, which was asked of this run.
///
/// # Errors
/// Out of memory.
pub fn push_question(
    alloc: Global,
    out: &mut Vec<u8>,
    run: Run<'_>,
    question: &Question,
) -> Result<(), AllocError> {
    match &question.next {
        Next::Offers(offers) => push_offers(alloc, out, run.stepper.forms, offers)?,
        Next::Ended(ending) => push_ended(alloc, out, run, ending)?,
    }
    push_prompt(alloc, out, question.number)
}
