//! Words for numbers, threads, and what a thread waits for.

use crate::ending::awaited::{Awaited, AwaitedEvent, Named};
use cml_phrase::{Told, Who, push_event, push_events, push_thread};
use cml_text::Sexpr;
use cml_value::{Base, BaseKind};
use std::alloc::{AllocError, Global};

/// Appends a number.
///
/// # Errors
/// Out of memory.
pub fn push_number(alloc: Global, out: &mut Vec<u8>, number: u64) -> Result<(), AllocError> {
    let digits = format!(in alloc; "{number}")?;
    out.extend_from_slice(digits.as_bytes())
}

/// Appends how many there are of a thing, where one is called so, and more are.
///
/// # Errors
/// Out of memory.
pub fn push_many(
    alloc: Global,
    out: &mut Vec<u8>,
    one: &str,
    more: &str,
    count: u64,
) -> Result<(), AllocError> {
    push_number(alloc, out, count)?;
    if count == 1 {
        out.extend_from_slice(one.as_bytes())
    } else {
        out.extend_from_slice(more.as_bytes())
    }
}

/// Appends a thread with the function with which it began.
///
/// # Errors
/// Out of memory.
pub fn push_named(
    alloc: Global,
    out: &mut Vec<u8>,
    forms: &[Sexpr],
    named: &Named,
) -> Result<(), AllocError> {
    push_thread(alloc, out, forms, named.who())
}

// The thread behind a base event: of an M-variable by its number alone, since its own line says the rest.
fn who_behind<'a>(base: &Base, named: &'a Named) -> Who<'a> {
    let who = named.who();
    match base.kind() {
        BaseKind::Join(_) => who,
        _ => Who {
            thread: who.thread,
            began: None,
        },
    }
}

// What is said of a base event.
fn told(event: &AwaitedEvent) -> Told<'_> {
    let who = match &event.behind {
        Some(named) => Some(who_behind(&event.base, named)),
        None => None,
    };
    Told {
        base: &event.base,
        state: event.state,
        who,
    }
}

/// Appends a base event, with the state of what it waits for, and who took it last.
///
/// # Errors
/// Out of memory.
pub fn push_awaited_event(
    alloc: Global,
    out: &mut Vec<u8>,
    forms: &[Sexpr],
    event: &AwaitedEvent,
) -> Result<(), AllocError> {
    push_event(alloc, out, forms, told(event))
}

/// Appends what a thread waits for.
///
/// # Errors
/// Out of memory.
pub fn push_awaited(
    alloc: Global,
    out: &mut Vec<u8>,
    forms: &[Sexpr],
    awaited: &Awaited,
) -> Result<(), AllocError> {
    let mut all = Vec::new(alloc);
    for event in &awaited.events {
        all.push(told(event))?;
    }
    push_events(alloc, out, forms, all.as_slice(), awaited.count)
}
