//! The state of what a base event waits for, and the thread of which it speaks.

ghost use Rattle.std.specs.Prelude.{◌≡◌, if◌then◌else◌, List, Option, length, option_map, slice_get};
ghost use Rattle.cml_value.specs.Value.{PlainValue};
ghost use Rattle.cml_facts.specs.Takes.{taker_in};
ghost use Rattle.cml_facts.specs.Waits as spec;

use crate::ending::takers::Takers;
use cml_book::Book;
use cml_index::OfferIndex;
use cml_phrase::ObjectState;
use cml_scan::{Light, NackState};
use cml_value::{Base, BaseKind, NackId, Tid};

// Of a variable that is lit while it is full.
fn variable_state(is_full: bool) -> ObjectState
    ensures { result ≡ (if is_full then ObjectState.Full else ObjectState.Empty) }
{
    if is_full {
        ObjectState::Full
    } else {
        ObjectState::Empty
    }
}

// Of a mailbox or a port with so many items, if it is there.
fn queue_state(items: Option<usize>) -> ObjectState
    ensures { (queue : Option (List PlainValue)) → items ≡ option_map length queue → result ≡ spec.queue_state queue }
{
    match items {
        Some(count) => ObjectState::Holds(count),
        None => ObjectState::Unsaid,
    }
}

// Of a thread.
fn thread_state(book: &Book<OfferIndex>, thread: Tid) -> ObjectState
    ensures { result ≡ spec.thread_state (slice_get book.now.threads thread.0) }
{
    if book.is_running(thread) {
        return ObjectState::Runs;
    }
    if book.waiting(thread).is_some() {
        return ObjectState::Waits;
    }
    if book.is_lit(Light::Joined(thread)) {
        ObjectState::Ended
    } else {
        ObjectState::Unsaid
    }
}

// Of a nack.
fn nack_state(book: &Book<OfferIndex>, nack: NackId) -> ObjectState
    ensures { result ≡ spec.nack_state (slice_get book.now.nacks nack.0) }
{
    match book.nack_state(nack) {
        Some(NackState::Fresh(_)) => ObjectState::Fresh,
        Some(NackState::Live) => ObjectState::Live,
        Some(NackState::Fired) => ObjectState::Fired,
        Some(NackState::Held) => ObjectState::Held,
        None => ObjectState::Unsaid,
    }
}

/// Of what a base event waits for.
pub(crate) fn object_state(book: &Book<OfferIndex>, base: &Base) -> ObjectState
    ensures { result ≡ spec.object_state book.now base.now }
{
    match base.kind() {
        BaseKind::IGet(i) => variable_state(book.is_lit(Light::IVar(*i))),
        BaseKind::MTake(m) => variable_state(book.is_lit(Light::MVar(*m))),
        BaseKind::MGet(m) => variable_state(book.is_lit(Light::MVar(*m))),
        BaseKind::MSwap(m, _) => variable_state(book.is_lit(Light::MVar(*m))),
        BaseKind::MailRecv(b) => queue_state(book.mailbox_len(*b)),
        BaseKind::PortRecv(p) => queue_state(book.port_len(*p)),
        BaseKind::Join(t) => thread_state(book, *t),
        BaseKind::Nack(k) => nack_state(book, *k),
        BaseKind::Always(_)
        | BaseKind::Send(_, _)
        | BaseKind::Recv(_)
        | BaseKind::Swap(_, _)
        | BaseKind::At(_)
        | BaseKind::After(_) => ObjectState::Unsaid,
    }
}

/// The thread of which a base event speaks: the one that took last from its M-variable, or the one whose end it waits for.
pub(crate) fn thread_behind(takers: &Takers, base: &Base) -> Option<u32>
    ensures { result ≡ spec.thread_behind (taker_in takers.now) base.now }
{
    match base.kind() {
        BaseKind::MTake(m) => takers.last(*m),
        BaseKind::MGet(m) => takers.last(*m),
        BaseKind::MSwap(m, _) => takers.last(*m),
        BaseKind::Join(t) => Some(t.0),
        _ => None,
    }
}
