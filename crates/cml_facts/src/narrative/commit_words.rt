//! The words for what a commit did.

use crate::ending::push_named;
use crate::narrative::commit::handed_value;
use crate::narrative::deed::{Met, Party, Took};
use cml_group::Chosen;
use cml_phrase::{push_giving, push_numbered, push_value};
use cml_text::Sexpr;
use cml_value::{Base, BaseKind, NackId, Value};
use std::alloc::{AllocError, Global};

// Appends words and a value.
fn push_with(
    alloc: Global,
    out: &mut Vec<u8>,
    words: &[u8],
    value: &Value,
) -> Result<(), AllocError> {
    out.extend_from_slice(words)?;
    push_value(alloc, out, value)
}

// Appends a value that another is swapped for.
fn push_swap(
    alloc: Global,
    out: &mut Vec<u8>,
    given: &Value,
    got: &Value,
) -> Result<(), AllocError> {
    push_with(alloc, out, b" swaps ", given)?;
    push_with(alloc, out, b" for ", got)
}

// Appends that a thread goes on after the end of another.
fn push_joined(
    alloc: Global,
    out: &mut Vec<u8>,
    forms: &[Sexpr],
    took: &Took,
) -> Result<(), AllocError> {
    out.extend_from_slice(b" goes on")?;
    if let Some(joined) = &took.joined {
        out.extend_from_slice(b" after the end of ")?;
        push_named(alloc, out, forms, joined)?;
    }
    Ok(())
}

// Appends what a thread does with a base event that it takes alone.
fn push_alone(
    alloc: Global,
    out: &mut Vec<u8>,
    forms: &[Sexpr],
    base: &Base,
    took: &Took,
) -> Result<(), AllocError> {
    let value = &took.value;
    match base.kind() {
        BaseKind::Always(_) => {
            push_with(alloc, out, b" takes ", value)?;
            out.extend_from_slice(b", which is always ready")
        }
        BaseKind::IGet(i) => push_giving(alloc, out, b" reads ", value, b" from I-variable ", i.0),
        BaseKind::MTake(m) => push_giving(alloc, out, b" takes ", value, b" from M-variable ", m.0),
        BaseKind::MGet(m) => push_giving(alloc, out, b" reads ", value, b" from M-variable ", m.0),
        BaseKind::MSwap(m, own) => {
            push_swap(alloc, out, own, value)?;
            push_numbered(alloc, out, b" in M-variable ", u64::from(m.0))
        }
        BaseKind::MailRecv(b) => push_giving(
            alloc,
            out,
            b" receives ",
            value,
            b" from mailbox ",
            b.0,
        ),
        BaseKind::PortRecv(p) => {
            push_giving(alloc, out, b" receives ", value, b" from port ", p.0)
        }
        BaseKind::At(tick) => push_numbered(alloc, out, b" goes on at tick ", *tick),
        BaseKind::Nack(k) => push_numbered(alloc, out, b" is told of nack ", u64::from(k.0)),
        _ => push_joined(alloc, out, forms, took),
    }
}

// Appends the value that a thread hands over by this base event; of one that hands over none, unit.
fn push_handed(alloc: Global, out: &mut Vec<u8>, base: &Base) -> Result<(), AllocError> {
    match handed_value(base) {
        Some(value) => push_value(alloc, out, value),
        None => out.extend_from_slice(b"()"),
    }
}

// Appends what the head of a pair does, by the base events of both, up to the other thread.
fn push_meets(
    alloc: Global,
    out: &mut Vec<u8>,
    ours: &Base,
    theirs: &Base,
) -> Result<(), AllocError> {
    match ours.kind() {
        BaseKind::Send(c, v) => {
            push_giving(alloc, out, b" sends ", v, b" on channel ", c.0)?;
            out.extend_from_slice(b" to ")
        }
        BaseKind::Swap(s, v) => {
            push_with(alloc, out, b" swaps ", v)?;
            out.extend_from_slice(b" for ")?;
            push_handed(alloc, out, theirs)?;
            push_numbered(alloc, out, b" on swap channel ", u64::from(s.0))?;
            out.extend_from_slice(b" with ")
        }
        _ => out.extend_from_slice(b" meets "),
    }
}

// The nacks that fire where a party takes this.
fn fired(chosen: &Option<Chosen>) -> &[NackId] {
    match chosen {
        Some(chosen) => chosen.lost.as_slice(),
        None => &[],
    }
}

/// Appends these nacks, with a comma before each.
///
/// # Errors
/// Out of memory.
pub fn push_more_nacks(
    alloc: Global,
    out: &mut Vec<u8>,
    nacks: &[NackId],
) -> Result<(), AllocError> {
    for nack in nacks {
        push_numbered(alloc, out, b", ", u64::from(nack.0))?;
    }
    Ok(())
}

// Appends the nacks that fire.
fn push_fired(alloc: Global, out: &mut Vec<u8>, nacks: &[NackId]) -> Result<(), AllocError> {
    let [first, more @ ..] = nacks else {
        return out.extend_from_slice(b"; nacks fired: none");
    };
    push_numbered(alloc, out, b"; nacks fired: ", u64::from(first.0))?;
    push_more_nacks(alloc, out, more)
}

// Appends a party of a commit.
fn push_party(
    alloc: Global,
    out: &mut Vec<u8>,
    forms: &[Sexpr],
    words: &[u8],
    party: &Party,
) -> Result<(), AllocError> {
    out.extend_from_slice(words)?;
    push_named(alloc, out, forms, &party.thread)
}

/// Appends the commit of one leaf.
pub(crate) fn push_took(
    alloc: Global,
    out: &mut Vec<u8>,
    forms: &[Sexpr],
    took: &Took,
) -> Result<(), AllocError> {
    push_party(alloc, out, forms, b"commit: ", &took.taker)?;
    match &took.taker.chosen {
        Some(chosen) => push_alone(alloc, out, forms, &chosen.base, took)?,
        None => push_joined(alloc, out, forms, took)?,
    }
    push_fired(alloc, out, fired(&took.taker.chosen))
}

/// Appends the commit of two leaves.
pub(crate) fn push_met(
    alloc: Global,
    out: &mut Vec<u8>,
    forms: &[Sexpr],
    met: &Met,
) -> Result<(), AllocError> {
    push_party(alloc, out, forms, b"commit: ", &met.head)?;
    match (&met.head.chosen, &met.other.chosen) {
        (Some(ours), Some(theirs)) => push_meets(alloc, out, &ours.base, &theirs.base)?,
        _ => out.extend_from_slice(b" meets ")?,
    }
    push_named(alloc, out, forms, &met.other.thread)?;
    let mut nacks = Vec::from_slice(alloc, fired(&met.head.chosen))?;
    nacks.extend_from_slice(fired(&met.other.chosen))?;
    push_fired(alloc, out, nacks.as_slice())
}
