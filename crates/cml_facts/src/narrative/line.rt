//! The line of an item that happened.

use crate::narrative::commit_words::{push_met, push_took};
use crate::narrative::deed::{Deed, Happened};
use crate::narrative::turn_words::push_turned;
use cml_phrase::push_numbered;
use cml_text::Sexpr;
use std::alloc::{AllocError, Global};

// Where a line says how much could happen.
const COULD_COLUMN: usize = 90;

// Appends so many spaces.
fn push_spaces(alloc: Global, out: &mut Vec<u8>, count: usize) -> Result<(), AllocError> {
    let spaces = " ".repeat(alloc, count)?;
    out.extend_from_slice(spaces.as_bytes())
}

// Appends the number of an item, right-aligned under those of so many, and two spaces.
fn push_number(
    alloc: Global,
    out: &mut Vec<u8>,
    count: usize,
    number: usize,
) -> Result<(), AllocError> {
    let widest = format!(in alloc; "{count}")?;
    let text = format!(in alloc; "{number}  ")?;
    push_spaces(
        alloc,
        out,
        (widest.len().saturating_add(2)).saturating_sub(text.len()),
    )?;
    out.extend_from_slice(text.as_bytes())
}

// Appends what an item did.
fn push_deed(
    alloc: Global,
    out: &mut Vec<u8>,
    forms: &[Sexpr],
    deed: &Deed,
) -> Result<(), AllocError> {
    match deed {
        Deed::Turned(turned) => push_turned(alloc, out, forms, turned),
        Deed::Took(took) => push_took(alloc, out, forms, took),
        Deed::Met(met) => push_met(alloc, out, forms, met),
        Deed::Moved(tick) => push_numbered(alloc, out, b"the time moves to tick ", *tick),
    }
}

// Appends how much could happen, behind so many bytes of a line.
fn push_could(
    alloc: Global,
    out: &mut Vec<u8>,
    width: usize,
    count: usize,
) -> Result<(), AllocError> {
    if count == 0 {
        return Ok(());
    }
    push_spaces(alloc, out, COULD_COLUMN.saturating_sub(width).max(2))?;
    push_numbered(alloc, out, b"", count as u64)?;
    out.extend_from_slice(b" could happen")
}

/// Appends the line of an item that happened, of so many: `12  thread 1 worker(2) at 4:5 prints 7`.
///
/// # Errors
/// Out of memory.
pub fn push_happened(
    alloc: Global,
    out: &mut Vec<u8>,
    forms: &[Sexpr],
    count: usize,
    happened: &Happened,
) -> Result<(), AllocError> {
    let begun = out.len();
    push_number(alloc, out, count, happened.number)?;
    push_deed(alloc, out, forms, &happened.deed)?;
    let width = out.len().saturating_sub(begun);
    push_could(alloc, out, width, happened.could)?;
    out.extend_from_slice(b"\n")
}
