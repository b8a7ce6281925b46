//! The words for what a turn did.

use crate::ending::{push_awaited, push_named};
use crate::narrative::deed::{Came, Turned};
use cml_phrase::{Who, push_giving, push_line, push_numbered, push_thread, push_value};
use cml_step::Ask;
use cml_text::Sexpr;
use cml_value::{FnRef, Tid, Value};
use std::alloc::{AllocError, Global};

// Appends what a new M-variable holds.
fn push_filled(alloc: Global, out: &mut Vec<u8>, value: &Option<Value>) -> Result<(), AllocError> {
    match value {
        None => out.extend_from_slice(b", which is empty"),
        Some(value) => {
            out.extend_from_slice(b", which holds ")?;
            push_value(alloc, out, value)
        }
    }
}

// Appends the thread of this number that begins with a call of the function.
fn push_spawns(
    alloc: Global,
    out: &mut Vec<u8>,
    forms: &[Sexpr],
    number: u64,
    function: &FnRef,
) -> Result<(), AllocError> {
    out.extend_from_slice(b"spawns ")?;
    let thread = Tid(u32::try_from(number).unwrap_or(u32::MAX));
    let who = Who {
        thread,
        began: Some(function),
    };
    push_thread(alloc, out, forms, who)
}

// Appends what was asked and done; the number is that of what was made, or the tick.
fn push_asked(
    alloc: Global,
    out: &mut Vec<u8>,
    forms: &[Sexpr],
    ask: &Ask,
    number: u64,
) -> Result<(), AllocError> {
    match ask {
        Ask::Yield => out.extend_from_slice(b"yields"),
        Ask::Spawn(function) => push_spawns(alloc, out, forms, number, function),
        Ask::MakeChan => push_numbered(alloc, out, b"makes channel ", number),
        Ask::MakeSwap => push_numbered(alloc, out, b"makes swap channel ", number),
        Ask::MakeIVar => push_numbered(alloc, out, b"makes I-variable ", number),
        Ask::MakeMVar(value) => {
            push_numbered(alloc, out, b"makes M-variable ", number)?;
            push_filled(alloc, out, value)
        }
        Ask::MakeMailbox => push_numbered(alloc, out, b"makes mailbox ", number),
        Ask::MakeMchan => push_numbered(alloc, out, b"makes multicast channel ", number),
        Ask::MakePort(x) => {
            push_numbered(alloc, out, b"makes port ", number)?;
            push_numbered(alloc, out, b" of multicast channel ", u64::from(x.0))
        }
        Ask::CopyPort(p) => {
            push_numbered(alloc, out, b"makes port ", number)?;
            push_numbered(alloc, out, b", a copy of port ", u64::from(p.0))
        }
        Ask::IPut(i, v) => push_giving(alloc, out, b"puts ", v, b" into I-variable ", i.0),
        Ask::MPut(m, v) => push_giving(alloc, out, b"puts ", v, b" into M-variable ", m.0),
        Ask::Mail(b, v) => push_giving(alloc, out, b"sends ", v, b" to mailbox ", b.0),
        Ask::Multicast(x, v) => {
            push_giving(alloc, out, b"sends ", v, b" to multicast channel ", x.0)
        }
        Ask::Print(v) => {
            out.extend_from_slice(b"prints ")?;
            push_value(alloc, out, v)
        }
        Ask::Now => push_numbered(alloc, out, b"reads the time, which is ", number),
        Ask::Nack => push_numbered(alloc, out, b"makes nack ", number),
        Ask::End => out.extend_from_slice(b"ends"),
        // A thread that synchronizes waits, and one at fault has failed.
        Ask::Nothing | Ask::Sync(_) | Ask::Fault(_) => out.extend_from_slice(b"goes on"),
    }
}

// Appends what the thread did.
fn push_did(
    alloc: Global,
    out: &mut Vec<u8>,
    forms: &[Sexpr],
    turned: &Turned,
) -> Result<(), AllocError> {
    match &turned.came {
        Came::Done(number) => push_asked(alloc, out, forms, &turned.ask, *number),
        Came::Waits(awaited) => {
            out.extend_from_slice(b"waits: ")?;
            push_awaited(alloc, out, forms, awaited)
        }
        Came::Failed(name) => {
            out.extend_from_slice(b"ends at a fault: ")?;
            out.extend_from_slice(name.as_slice())
        }
    }
}

/// Appends a turn: the thread, where it stood, and what it did.
pub(crate) fn push_turned(
    alloc: Global,
    out: &mut Vec<u8>,
    forms: &[Sexpr],
    turned: &Turned,
) -> Result<(), AllocError> {
    push_named(alloc, out, forms, &turned.thread)?;
    if let Some(place) = turned.place {
        out.extend_from_slice(b" at ")?;
        push_line(alloc, out, place)?;
    }
    out.extend_from_slice(b" ")?;
    push_did(alloc, out, forms, turned)
}
