//! The words for why an item can't happen.

use crate::narrative::why::{ThreadState, Why};
use cml_hub::Item;
use cml_phrase::{ObjectState, Told, push_event, push_numbered};
use cml_scan::Meet;
use cml_text::Sexpr;
use cml_value::{Base, Tid};
use std::alloc::{AllocError, Global};

// A row after its keyword.
fn row_text(alloc: Global, word: &str, row: &Meet) -> Result<String, AllocError> {
    let mut text = String::from_str(alloc, word)?;
    row.push_numbers(&mut text)?;
    Ok(text)
}

// An item, as a schedule has it.
fn item_text(alloc: Global, item: &Item) -> Result<String, AllocError> {
    match item {
        Item::Turn(thread) => format!(in alloc; "turn {}", thread.0),
        Item::Meet(row) => row_text(alloc, "commit", row),
        Item::Exchange(row) => row_text(alloc, "swap", row),
        Item::Clock(tick) => format!(in alloc; "clock {tick}"),
    }
}

// Appends what a thread does, and what follows from that.
fn push_thread_so(
    alloc: Global,
    out: &mut Vec<u8>,
    thread: Tid,
    state: ThreadState,
    so: &str,
) -> Result<(), AllocError> {
    let number = thread.0;
    let text = match state {
        ThreadState::Runs => format!(in alloc; "thread {number} runs, so {so}")?,
        ThreadState::Waits => format!(in alloc; "thread {number} waits, so {so}")?,
        ThreadState::Ended => format!(in alloc; "thread {number} has ended, so {so}")?,
        ThreadState::Missing => format!(in alloc; "there is no thread {number}")?,
    };
    out.extend_from_slice(text.as_bytes())
}

// Appends a thread by its number, and what is so of it.
fn push_thread_is(
    alloc: Global,
    out: &mut Vec<u8>,
    thread: Tid,
    is: &[u8],
) -> Result<(), AllocError> {
    push_numbered(alloc, out, b"thread ", u64::from(thread.0))?;
    out.extend_from_slice(is)
}

// Appends a base event, without the state of its object, and what is so of it.
fn push_event_is(
    alloc: Global,
    out: &mut Vec<u8>,
    forms: &[Sexpr],
    base: &Base,
    is: &[u8],
) -> Result<(), AllocError> {
    let told = Told {
        base,
        state: ObjectState::Unsaid,
        who: None,
    };
    push_event(alloc, out, forms, told)?;
    out.extend_from_slice(is)
}

// Appends the next tick for which a thread waits.
fn push_tick(alloc: Global, out: &mut Vec<u8>, next: Option<u64>) -> Result<(), AllocError> {
    match next {
        Some(tick) => push_numbered(
            alloc,
            out,
            b"the next tick for which a thread waits is ",
            tick,
        ),
        None => out.extend_from_slice(b"no thread waits for a tick to come"),
    }
}

// Appends why an item can't happen.
fn push_reason(
    alloc: Global,
    out: &mut Vec<u8>,
    forms: &[Sexpr],
    why: &Why,
) -> Result<(), AllocError> {
    match why {
        Why::NoTurn(thread, state) => {
            push_thread_so(alloc, out, *thread, *state, "it has no turn")
        }
        Why::NoParty(thread, state) => push_thread_so(
            alloc,
            out,
            *thread,
            *state,
            "none of its events can be taken",
        ),
        Why::NoLeaf(thread, leaf) => {
            push_thread_is(alloc, out, *thread, b" waits for no event of number ")?;
            push_numbered(alloc, out, b"", u64::from(*leaf))
        }
        Why::NotAlone(base) => push_event_is(alloc, out, forms, base, b" can't happen alone"),
        Why::NotNow(base) => push_event_is(alloc, out, forms, base, b" can't happen now"),
        Why::ComesFirst(thread) => {
            push_thread_is(alloc, out, *thread, b" comes first in this pair")
        }
        Why::MeetsItself(thread) => push_thread_is(alloc, out, *thread, b" can't meet itself"),
        Why::NoMatch(ours, theirs) => {
            push_event_is(alloc, out, forms, ours, b" does not meet ")?;
            push_event_is(alloc, out, forms, theirs, b"")
        }
        Why::NoSwap => out.extend_from_slice(b"it is no swap, and can happen as a commit"),
        Why::Runs(thread) => push_thread_so(
            alloc,
            out,
            *thread,
            ThreadState::Runs,
            "the time stands still",
        ),
        Why::Busy => {
            out.extend_from_slice(b"something else can happen, so the time stands still")
        }
        Why::NextTick(next) => push_tick(alloc, out, *next),
    }
}

/// Appends an item, and why it can't happen: `commit 2 0: thread 2 runs, so none of its events can be taken`.
///
/// # Errors
/// Out of memory.
pub fn push_why(
    alloc: Global,
    out: &mut Vec<u8>,
    forms: &[Sexpr],
    item: &Item,
    why: &Why,
) -> Result<(), AllocError> {
    let text = item_text(alloc, item)?;
    out.extend_from_slice(text.as_bytes())?;
    out.extend_from_slice(b": ")?;
    push_reason(alloc, out, forms, why)
}
