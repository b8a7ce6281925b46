//! The threads that run.

ghost use Rattle.std.specs.Prelude.{◌≡◌, ◌++◌, ◌∷◌, [], if◌then◌else◌, IfOk, OnOk, drop};
ghost use Rattle.cml_facts.specs.Whys as whys;
ghost use Rattle.cml_stepper.specs.Questions.{running_from};
ghost use Rattle.cml_stepper.specs.Picks as spec;

use cml_book::Book;
use cml_facts::narrative::first_running;
use cml_hub::{Hub, Item};
use cml_index::OfferIndex;
use cml_value::Tid;
use std::alloc::{AllocError, Global};

// Appends the thread, where it runs.
fn push_if(ready: &mut Vec<u32>, thread: u32, runs: bool) -> Result<(), AllocError>
    ensures { OnOk result (ready.new.items ≡ ready.old.items ++ (if runs then thread ∷ [] else [])) }
{
    if !runs {
        return Ok(());
    }
    ready.push(thread)?;
    Ok(())
}

/// The numbers of the threads that run.
///
/// # Errors
/// Out of memory.
pub(crate) fn ready_threads(alloc: Global, book: &Book<OfferIndex>) -> Result<Vec<u32>, AllocError>
    ensures { IfOk result (λ ready. ready.items ≡ running_from 0 book.now.threads) }
{
    let mut ready = Vec::new(alloc);
    for t in 0..book.next_thread().0 {
        push_if(&mut ready, t, book.is_running(Tid(t)))?;
    }
    Ok(ready)
}

// The thread that had its turn by the item.
fn turned_by(item: &Item) -> Option<Tid>
    ensures { result ≡ spec.turn_had item.now }
{
    match item {
        Item::Turn(thread) => Some(*thread),
        Item::Meet(_) => None,
        Item::Exchange(_) => None,
        Item::Clock(_) => None,
    }
}

// The thread that had the last turn.
fn last_turned(items: &[Item]) -> Option<Tid>
    ensures { result ≡ spec.last_turned items.now }
{
    for k in 0..items.len() {
        let item = items[items.len() - 1 - k];
        match turned_by(&item) {
            Some(thread) => return Some(thread),
            None => {}
        }
    }
    None
}

// The first thread that runs and comes after this one, if there is one.
fn first_after(book: &Book<OfferIndex>, thread: Option<Tid>) -> Option<u32>
    ensures { let n = spec.number_past thread in result ≡ whys.first_running n (drop n book.now.threads) }
{
    match thread {
        Some(thread) => {
            if thread.0 < book.next_thread().0 {
                first_running(book, thread.0 + 1)
            } else {
                None
            }
        }
        None => first_running(book, 0),
    }
}

/// The thread that is next: the first that runs after the one that had the last turn, or, where none of those does, the first that runs.
pub(crate) fn next_ready(hub: &Hub) -> Option<u32>
    ensures { result ≡ spec.next_ready hub.now.course.world hub.now.course.items }
{
    match first_after(hub.book(), last_turned(hub.schedule())) {
        Some(thread) => Some(thread),
        None => first_running(hub.book(), 0),
    }
}
