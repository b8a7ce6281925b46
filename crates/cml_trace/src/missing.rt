//! What a group names that does not exist, or that can't stand there.

ghost use Rattle.std.specs.Prelude.{◌≡◌, Some, slice_get};
ghost use Rattle.cml_book.specs.Sync.{base_exists};
ghost use Rattle.cml_trace.specs.Whys as spec;

use crate::why::{Kind, Stale, StaleNack, Thing};
use cml_book::Book;
use cml_scan::{NackState, Table};
use cml_value::{Base, BaseKind, Group, GroupKind, NackId, Tid};

/// What the group names first and does not exist.
pub fn missing_in<T: Table>(book: &Book<T>, group: &Group) -> Option<Thing>
    ensures { result ≡ spec.missing_in book.now group.now }
{
    match group.kind() {
        GroupKind::Never => None,
        GroupKind::Leaf(base) => {
            if exists(book, base) {
                None
            } else {
                named_by(base)
            }
        }
        GroupKind::Choose(groups) => {
            for member in groups.iter() {
                let found = missing_in(book, member);
                if found.is_some() {
                    return found;
                }
            }
            None
        }
        GroupKind::Wrap(inner, _) => missing_in(book, inner),
        GroupKind::Scope(nack, inner) => {
            if nack.0 < book.next_nack().0 {
                missing_in(book, inner)
            } else {
                thing(Kind::Nack, nack.0)
            }
        }
    }
}

// Whether what the base event names exists.
fn exists<T: Table>(book: &Book<T>, base: &Base) -> bool
    ensures { result ≡ base_exists book.now base.now }
{
    let next = book.next_objects();
    match base.kind() {
        BaseKind::Always(_) | BaseKind::At(_) | BaseKind::After(_) => true,
        BaseKind::Send(c, _) | BaseKind::Recv(c) => c.0 < next.channel.0,
        BaseKind::Swap(s, _) => s.0 < next.swap.0,
        BaseKind::IGet(i) => i.0 < next.ivar.0,
        BaseKind::MTake(m) | BaseKind::MGet(m) | BaseKind::MSwap(m, _) => m.0 < next.mvar.0,
        BaseKind::MailRecv(b) => b.0 < next.mailbox.0,
        BaseKind::PortRecv(p) => p.0 < next.port.0,
        BaseKind::Join(t) => t.0 < book.next_thread().0,
        BaseKind::Nack(k) => k.0 < book.next_nack().0,
    }
}

// What the base event names.
fn named_by(base: &Base) -> Option<Thing>
    ensures { result ≡ spec.named_by base.now }
{
    match base.kind() {
        BaseKind::Send(c, _) | BaseKind::Recv(c) => thing(Kind::Channel, c.0),
        BaseKind::Swap(s, _) => thing(Kind::SwapChannel, s.0),
        BaseKind::IGet(i) => thing(Kind::IVar, i.0),
        BaseKind::MTake(m) | BaseKind::MGet(m) | BaseKind::MSwap(m, _) => thing(Kind::MVar, m.0),
        BaseKind::MailRecv(b) => thing(Kind::Mailbox, b.0),
        BaseKind::PortRecv(p) => thing(Kind::Port, p.0),
        BaseKind::Join(t) => thing(Kind::Thread, t.0),
        BaseKind::Nack(k) => thing(Kind::Nack, k.0),
        BaseKind::Always(_) | BaseKind::At(_) | BaseKind::After(_) => None,
    }
}

fn thing(kind: Kind, number: u32) -> Option<Thing>
    ensures { result ≡ Some (spec.thing kind number) }
{
    Some(Thing { kind, number })
}

/// The first nack of a scope of the group that can't be one where this thread waits on it.
pub fn stale_in<T: Table>(book: &Book<T>, thread: Tid, group: &Group) -> Option<StaleNack>
    ensures { result ≡ spec.stale_in book.now thread.0 group.now }
{
    match group.kind() {
        GroupKind::Never | GroupKind::Leaf(_) => None,
        GroupKind::Choose(groups) => {
            for member in groups.iter() {
                let found = stale_in(book, thread, member);
                if found.is_some() {
                    return found;
                }
            }
            None
        }
        GroupKind::Wrap(inner, _) => stale_in(book, thread, inner),
        GroupKind::Scope(nack, inner) => match stale(book, thread, *nack) {
            Some(found) => Some(found),
            None => stale_in(book, thread, inner),
        },
    }
}

// The nack, where it can't be that of a scope on which this thread waits.
fn stale<T: Table>(book: &Book<T>, thread: Tid, nack: NackId) -> Option<StaleNack>
    ensures { result ≡ spec.stale_nack thread.0 nack.0 (slice_get book.now.nacks nack.0) }
{
    let state = match book.nack_state(nack)? {
        NackState::Fresh(owner) if owner.0 == thread.0 => return None,
        NackState::Fresh(owner) => Stale::OfThread(owner.0),
        NackState::Live => Stale::Live,
        NackState::Fired => Stale::Fired,
        NackState::Held => Stale::Held,
    };
    Some(StaleNack {
        nack: nack.0,
        state,
    })
}
