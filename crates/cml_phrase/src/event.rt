//! How base events are spoken of.
ghost use Rattle.std.specs.Prelude.{◌≡◌, take};
ghost use Rattle.cml_phrase.specs.Events.{event_limit};

use crate::thread::{Who, push_thread};
use crate::value::{push_giving, push_numbered};
use cml_text::Sexpr;
use cml_value::{Base, BaseKind, Tid};
use std::alloc::{AllocError, Global};

// How many base events are said of those that a thread waits for.
const EVENT_LIMIT: usize = 6;

/// The state of what a base event waits for, as far as it is said.
#[derive(Clone, Copy, PartialEq, Eq)]
pub enum ObjectState {
    /// Nothing is said of it.
    Unsaid,
    /// A variable without a value.
    Empty,
    /// A variable with a value.
    Full,
    /// A mailbox or a port with so many items.
    Holds(usize),
    /// A thread that waits.
    Waits,
    /// A thread that runs.
    Runs,
    /// A thread that has ended.
    Ended,
    /// A nack that is in no group yet.
    Fresh,
    /// A nack whose group is pending.
    Live,
    /// A nack whose branch was taken.
    Held,
    /// A nack whose branch has lost.
    Fired,
}

/// A base event, with what is said of what it waits for: the state of that; and of a join the thread that is waited for, of an M-variable
/// the thread that took it last, if one did.
#[derive(Clone, Copy)]
pub struct Told<'a> {
    pub base: &'a Base,
    pub state: ObjectState,
    pub who: Option<Who<'a>>,
}

/// Appends a base event in words: `take M-variable 1, which is empty; last taken by thread 2 phil(1)`.
///
/// # Errors
/// Out of memory.
pub fn push_event(
    alloc: Global,
    out: &mut Vec<u8>,
    forms: &[Sexpr],
    told: Told<'_>,
) -> Result<(), AllocError> {
    push_base(alloc, out, forms, told)?;
    push_state(alloc, out, told.state)?;
    push_taken(alloc, out, forms, told)
}

/// Appends the base events that a thread waits for, of which there are `count`: the first 6, and how many more there are. Only the
/// first 6 need to be given.
///
/// # Errors
/// Out of memory.
pub fn push_events(
    alloc: Global,
    out: &mut Vec<u8>,
    forms: &[Sexpr],
    told: &[Told<'_>],
    count: usize,
) -> Result<(), AllocError> {
    let said = first_of(told);
    match said {
        [] => out.extend_from_slice(b"nothing: it never happens")?,
        [first, more @ ..] => {
            push_event(alloc, out, forms, *first)?;
            push_others(alloc, out, forms, more)?;
        }
    }
    push_more(alloc, out, count.saturating_sub(said.len()))
}

// Those that are said.
fn first_of<'a, 'b>(told: &'b [Told<'a>]) -> &'b [Told<'a>]
    ensures { result.now ≡ take event_limit told.now }
{
    &told[..told.len().min(EVENT_LIMIT)]
}

// Appends these, with a word before each.
fn push_others(
    alloc: Global,
    out: &mut Vec<u8>,
    forms: &[Sexpr],
    told: &[Told<'_>],
) -> Result<(), AllocError> {
    for one in told {
        out.extend_from_slice(b", or ")?;
        push_event(alloc, out, forms, *one)?;
    }
    Ok(())
}

// Appends how many more there are.
fn push_more(alloc: Global, out: &mut Vec<u8>, count: usize) -> Result<(), AllocError> {
    if count == 0 {
        return Ok(());
    }
    let text = format!(in alloc; ", and {count} more")?;
    out.extend_from_slice(text.as_bytes())
}

// Appends what a base event does, and with which object.
fn push_base(
    alloc: Global,
    out: &mut Vec<u8>,
    forms: &[Sexpr],
    told: Told<'_>,
) -> Result<(), AllocError> {
    match told.base.kind() {
        BaseKind::Always(_) => out.extend_from_slice(b"nothing: it is always ready"),
        BaseKind::Send(c, v) => push_giving(alloc, out, b"send ", v, b" on channel ", c.0),
        BaseKind::Recv(c) => push_object(alloc, out, b"receive on channel ", c.0),
        BaseKind::Swap(s, v) => push_giving(alloc, out, b"swap ", v, b" on swap channel ", s.0),
        BaseKind::IGet(i) => push_object(alloc, out, b"read I-variable ", i.0),
        BaseKind::MTake(m) => push_object(alloc, out, b"take M-variable ", m.0),
        BaseKind::MGet(m) => push_object(alloc, out, b"read M-variable ", m.0),
        BaseKind::MSwap(m, v) => push_giving(alloc, out, b"swap ", v, b" into M-variable ", m.0),
        BaseKind::MailRecv(b) => push_object(alloc, out, b"receive from mailbox ", b.0),
        BaseKind::PortRecv(p) => push_object(alloc, out, b"receive from port ", p.0),
        BaseKind::Join(t) => push_joined(alloc, out, forms, told.who, *t),
        BaseKind::At(tick) => push_numbered(alloc, out, b"tick ", *tick),
        BaseKind::After(delay) => push_numbered(alloc, out, b"after ", *delay),
        BaseKind::Nack(k) => push_object(alloc, out, b"nack ", k.0),
    }
}

// Appends words, and the number of an object.
fn push_object(
    alloc: Global,
    out: &mut Vec<u8>,
    words: &[u8],
    number: u32,
) -> Result<(), AllocError> {
    push_numbered(alloc, out, words, u64::from(number))
}

// Appends the end of a thread.
fn push_joined(
    alloc: Global,
    out: &mut Vec<u8>,
    forms: &[Sexpr],
    who: Option<Who<'_>>,
    thread: Tid,
) -> Result<(), AllocError> {
    let began = match who {
        Some(w) => w.began,
        None => None,
    };
    out.extend_from_slice(b"the end of ")?;
    push_thread(alloc, out, forms, Who { thread, began })
}

// Appends the state of what is waited for.
fn push_state(alloc: Global, out: &mut Vec<u8>, state: ObjectState) -> Result<(), AllocError> {
    match state {
        ObjectState::Unsaid => Ok(()),
        ObjectState::Empty => out.extend_from_slice(b", which is empty"),
        ObjectState::Full => out.extend_from_slice(b", which is full"),
        ObjectState::Holds(0) => out.extend_from_slice(b", which is empty"),
        ObjectState::Holds(count) => push_numbered(alloc, out, b", which holds ", count as u64),
        ObjectState::Waits => out.extend_from_slice(b", which waits"),
        ObjectState::Runs => out.extend_from_slice(b", which runs"),
        ObjectState::Ended => out.extend_from_slice(b", which has ended"),
        ObjectState::Fresh => out.extend_from_slice(b", which is fresh"),
        ObjectState::Live => out.extend_from_slice(b", which is live"),
        ObjectState::Held => out.extend_from_slice(b", which is held"),
        ObjectState::Fired => out.extend_from_slice(b", which is fired"),
    }
}

// Appends who took an M-variable last, if someone did.
fn push_taken(
    alloc: Global,
    out: &mut Vec<u8>,
    forms: &[Sexpr],
    told: Told<'_>,
) -> Result<(), AllocError> {
    match (told.base.kind(), told.who) {
        (BaseKind::MTake(_) | BaseKind::MGet(_) | BaseKind::MSwap(_, _), Some(who)) => {
            out.extend_from_slice(b"; last taken by ")?;
            push_thread(alloc, out, forms, who)
        }
        _ => Ok(()),
    }
}
