//! Why a thread ended at a fault, in words.

use crate::fault::part::Part;
use crate::fault::reason::Reason;
use crate::fault::wanted::{
    binary_made, binary_sign, binary_wanted, fault_words, one_wanted, two_wanted, unary_wanted,
};
use cml_phrase::push_value;
use cml_step::Fault;
use cml_value::Value;
use std::alloc::{AllocError, Global};

/// Appends why a thread ended at a fault.
///
/// # Errors
/// Out of memory.
pub fn push_reason(alloc: Global, out: &mut Vec<u8>, reason: &Reason) -> Result<(), AllocError> {
    match reason {
        Reason::Step(why, part) => push_step(alloc, out, *why, part),
        Reason::FullIVar(i) => {
            let what = " is full: it can be put only once";
            push_object(alloc, out, "I-variable ", *i, what)
        }
        Reason::FullMVar(m) => {
            let what = " is full: it can be put only where it is empty";
            push_object(alloc, out, "M-variable ", *m, what)
        }
        Reason::Group => push_words(
            out,
            "the event has more than 256 base events, or waits for a tick that is too far away",
        ),
        Reason::FullMailbox(b) => push_object(alloc, out, "mailbox ", *b, " is full"),
        Reason::FullPort(x) => {
            push_object(alloc, out, "a port of multicast channel ", *x, " is full")
        }
        Reason::Thread => push_words(out, "there is no room for one more thread"),
        Reason::Nack => push_words(out, "there is no room for one more nack"),
        Reason::Object => push_words(out, "there is no room for one more"),
    }
}

fn push_words(out: &mut Vec<u8>, words: &str) -> Result<(), AllocError> {
    out.extend_from_slice(words.as_bytes())
}

// Appends what is said of an object, with its number.
fn push_object(
    alloc: Global,
    out: &mut Vec<u8>,
    kind: &str,
    number: u32,
    what: &str,
) -> Result<(), AllocError> {
    let words = format!(in alloc; "{kind}{number}{what}")?;
    push_words(out, words.as_str())
}

// Appends what is said of a fault of a step, at this part.
fn push_step(alloc: Global, out: &mut Vec<u8>, why: Fault, part: &Part) -> Result<(), AllocError> {
    if let Part::Choose(Some(value)) = part {
        return push_one(alloc, out, "choose takes events", value);
    }
    match why {
        Fault::Kind | Fault::Range => push_given(alloc, out, why, part),
        Fault::Overflow => push_overflow(alloc, out, part),
        Fault::Deep => push_deep(out, part),
        Fault::Stack | Fault::Put | Fault::Leaves | Fault::Far | Fault::Full => {
            push_words(out, fault_words(why))
        }
    }
}

// Appends what this part takes, and what it was given.
fn push_given(alloc: Global, out: &mut Vec<u8>, why: Fault, part: &Part) -> Result<(), AllocError> {
    match part {
        Part::Unary(operator, v) => push_one(alloc, out, unary_wanted(*operator), v),
        Part::Binary(operator, v, w) => push_both(alloc, out, binary_wanted(*operator), v, w),
        Part::Wrap(v) => push_one(alloc, out, "wrap takes an event and a function", v),
        Part::ActOnOne(act, v) => push_one(alloc, out, one_wanted(*act), v),
        Part::ActOnTwo(act, v, w) => push_both(alloc, out, two_wanted(*act), v, w),
        Part::If(v) => push_one(alloc, out, "if takes a truth value", v),
        Part::While(v) => push_one(alloc, out, "while takes a truth value", v),
        Part::Returned(v) => push_returned(alloc, out, v),
        Part::Choose(_) | Part::Made | Part::Other => push_words(out, fault_words(why)),
    }
}

// Appends what is wanted, and what was given.
fn push_one(
    alloc: Global,
    out: &mut Vec<u8>,
    wanted: &str,
    value: &Value,
) -> Result<(), AllocError> {
    push_words(out, wanted)?;
    push_words(out, ", and was given ")?;
    push_value(alloc, out, value)
}

// The same of two values.
fn push_both(
    alloc: Global,
    out: &mut Vec<u8>,
    wanted: &str,
    first: &Value,
    second: &Value,
) -> Result<(), AllocError> {
    push_one(alloc, out, wanted, first)?;
    push_words(out, " and ")?;
    push_value(alloc, out, second)
}

// Appends what a function returned where an event is wanted.
fn push_returned(alloc: Global, out: &mut Vec<u8>, value: &Value) -> Result<(), AllocError> {
    let wanted = "a guard's or withnack's function returns an event, and this one returned ";
    push_words(out, wanted)?;
    push_value(alloc, out, value)
}

// Appends that numbers are too much, with the operation between them.
fn push_overflow(alloc: Global, out: &mut Vec<u8>, part: &Part) -> Result<(), AllocError> {
    let Part::Binary(operator, first, second) = part else {
        return push_words(out, fault_words(Fault::Overflow));
    };
    push_value(alloc, out, first)?;
    push_words(out, binary_sign(*operator))?;
    push_value(alloc, out, second)?;
    push_words(out, " does not fit into 64 bits")
}

// Appends that what is made nests too deep.
fn push_deep(out: &mut Vec<u8>, part: &Part) -> Result<(), AllocError> {
    match part {
        Part::Binary(operator, _, _) => push_made(out, binary_made(*operator)),
        Part::Unary(_, _) | Part::Choose(_) | Part::Wrap(_) | Part::Made | Part::Returned(_) =>
            push_made(out, "the event"),
        _ => push_words(out, fault_words(Fault::Deep)),
    }
}

fn push_made(out: &mut Vec<u8>, made: &str) -> Result<(), AllocError> {
    push_words(out, made)?;
    push_words(out, " nests deeper than 64, or has more than 65536 parts")
}
