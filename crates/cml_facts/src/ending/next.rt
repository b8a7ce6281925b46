//! For which thread each thread waits.

ghost use Rattle.std.specs.Prelude.{◌≡◌, if◌then◌else◌, IfOk, slice_get};
ghost use Rattle.cml_scan.specs.{World.{PlainThread}, Light.{is_full, has_ended}};
ghost use Rattle.cml_value.specs.Group.{bases as bases_of};
ghost use Rattle.cml_facts.specs.Takes.{taker_in};
ghost use Rattle.cml_facts.specs.Rings as spec;

use crate::ending::takers::Takers;
use cml_book::Book;
use cml_hub::Hub;
use cml_index::OfferIndex;
use cml_scan::{Light, leaf_bases};
use cml_value::{Base, BaseKind, Group, MVarId, Tid};
use std::alloc::{AllocError, Global};

// The thread that took last from this M-variable, if that is empty.
fn taker_of_empty(book: &Book<OfferIndex>, takers: &Takers, variable: MVarId) -> Option<u32>
    ensures { result ≡ (if is_full (slice_get book.now.mvars variable.0) then None else taker_in takers.now variable.0) }
{
    if book.is_lit(Light::MVar(variable)) {
        None
    } else {
        takers.last(variable)
    }
}

// This thread, if it has not ended.
fn not_ended(book: &Book<OfferIndex>, thread: Tid) -> Option<u32>
    ensures { result ≡ (if has_ended (slice_get book.now.threads thread.0) then None else Some thread.0) }
{
    if book.is_lit(Light::Joined(thread)) {
        None
    } else {
        Some(thread.0)
    }
}

// For which thread a base event waits that can't be taken now.
fn blocked_by(book: &Book<OfferIndex>, takers: &Takers, base: &Base) -> Option<u32>
    ensures { result ≡ spec.blocked_by book.now (taker_in takers.now) base.now }
{
    match base.kind() {
        BaseKind::MTake(m) => taker_of_empty(book, takers, *m),
        BaseKind::MGet(m) => taker_of_empty(book, takers, *m),
        BaseKind::MSwap(m, _) => taker_of_empty(book, takers, *m),
        BaseKind::Join(t) => not_ended(book, *t),
        _ => None,
    }
}

// The same, of the only base event.
fn blocked_only(book: &Book<OfferIndex>, takers: &Takers, bases: &[Base]) -> Option<u32>
    ensures { result ≡ spec.blocked_only book.now (taker_in takers.now) bases.now }
{
    match bases {
        [base] => blocked_by(book, takers, base),
        _ => None,
    }
}

// For which thread a thread waits that waits on this group.
fn next_by_group(
    alloc: Global,
    book: &Book<OfferIndex>,
    takers: &Takers,
    group: &Group,
) -> Result<Option<u32>, AllocError>
    ensures { IfOk result (λ next. next ≡ spec.blocked_only book.now (taker_in takers.now) (bases_of group.now)) }
{
    let bases = leaf_bases(alloc, group)?;
    Ok(blocked_only(book, takers, bases.as_slice()))
}

// For which thread the thread of this number waits.
fn next_thread(
    alloc: Global,
    hub: &Hub,
    takers: &Takers,
    thread: Tid,
) -> Result<Option<u32>, AllocError>
    ensures { IfOk result (λ next. (t : PlainThread) →
        slice_get hub.now.course.world.threads thread.0 ≡ Some t → next ≡ spec.next_thread hub.now.course.world (taker_in takers.now) t) }
{
    let book = hub.book();
    match book.waiting(thread) {
        Some(group) => next_by_group(alloc, book, takers, group),
        None => Ok(None),
    }
}

/// For which thread each thread waits, if it waits for one event alone.
///
/// # Errors
/// Out of memory.
pub(crate) fn next_threads(
    alloc: Global,
    hub: &Hub,
    takers: &Takers,
) -> Result<Vec<Option<u32>>, AllocError>
    ensures { IfOk result (λ nexts. nexts.items
        ≡ spec.next_threads hub.now.course.world (taker_in takers.now) hub.now.course.world.threads) }
{
    let mut nexts = Vec::new(alloc);
    for t in 0..hub.book().next_thread().0 {
        nexts.push(next_thread(alloc, hub, takers, Tid(t))?)?;
    }
    Ok(nexts)
}
