//! The items that are allowed where a hub stands.

ghost use Rattle.std.specs.Prelude.{◌≡◌, ◌++◌, ◌&&◌, IfOk, filter, is_some, map, slice_get};
ghost use Rattle.cml_scan.specs.Scan.{scan, has_row};
ghost use Rattle.cml_book.specs.Walks.{is_running};
ghost use Rattle.cml_hub.specs.Runs as spec;
ghost use Rattle.cml_hub.specs.Courses.{run_of};
ghost use Rattle.cml_step.specs.Calls.{text_of};
ghost use Rattle.cml_verify.specs.Cores as core;
ghost use Rattle.cml_schedule.specs.declared.item.Item.TheVariants as item_of;

use cml_book::Book;
use cml_hub::{Hub, Item};
use cml_index::OfferIndex;
use cml_scan::law::no_head_where_no_row;
use cml_scan::{Meet, Table};
use cml_value::Tid;
use std::alloc::{AllocError, Global};

// Whether some thread runs.
fn any_runs(book: &Book<OfferIndex>) -> bool
    ensures { result ≡ spec.any_runs book.now }
{
    for t in 0..book.next_thread().0 {
        if book.is_running(Tid(t)) {
            return true;
        }
    }
    false
}

// The next alarm, if there is one.
fn alarm(book: &Book<OfferIndex>) -> Option<u64>
    ensures { result ≡ spec.next_alarm book.now }
{
    book.next_alarm()
}

// Whether no row can be taken.
fn is_still(book: &Book<OfferIndex>) -> bool
    ensures { result ≡ spec.is_empty (scan book.now) }
{
    no_head_where_no_row();
    book.table().head_count() == 0
}

// Whether the time may move to this tick.
fn may_tick(book: &Book<OfferIndex>, tick: u64) -> bool
    ensures { result ≡ spec.is_allowed book.now (item_of.Clock tick) }
{
    if alarm(book) != Some(tick) {
        return false;
    }
    if any_runs(book) {
        return false;
    }
    is_still(book)
}

// Whether the row can be taken.
fn has(book: &Book<OfferIndex>, row: &Meet) -> bool
    ensures { result ≡ has_row (scan book.now) row.now }
{
    book.table().has(row)
}

// The rows that can be taken.
fn rows(alloc: Global, book: &Book<OfferIndex>) -> Result<Vec<Meet>, AllocError>
    ensures { IfOk result (λ rows. rows.items ≡ scan book.now) }
{
    book.table().rows(alloc)
}

// Whether the thread has a machine.
fn has_machine(hub: &Hub, thread: Tid) -> bool
    ensures { result ≡ is_some (slice_get hub.now.course.machines thread.0) }
{
    match hub.machine(thread) {
        Some(_) => true,
        None => false,
    }
}

// Whether the thread runs, and has a machine.
fn can_turn(hub: &Hub, thread: Tid) -> bool
    ensures { result ≡ (is_running hub.now.course.world thread.0 && is_some (slice_get hub.now.course.machines thread.0)) }
{
    let runs = hub.book().is_running(thread);
    let has = has_machine(hub, thread);
    runs && has
}

// Whether the time may move to this tick.
fn can_tick(hub: &Hub, tick: u64) -> bool
    ensures { result ≡ spec.is_allowed hub.now.course.world (item_of.Clock tick) }
{
    may_tick(hub.book(), tick)
}

// Whether the item can come.
fn can(hub: &Hub, item: &Item) -> bool
    ensures { result ≡ core.can (text_of hub.now.course.program) (run_of hub.now.course) item.now }
{
    match item {
        Item::Turn(thread) => can_turn(hub, *thread),
        Item::Meet(row) => has(hub.book(), row),
        Item::Exchange(row) => hub.book().swaps(row),
        Item::Clock(tick) => can_tick(hub, *tick),
    }
}

// Appends a turn of each thread.
fn push_turns(items: &mut Vec<Item>, book: &Book<OfferIndex>) -> Result<(), AllocError>
    ensures { IfOk result (λ _. items.new.items ≡ items.old.items ++ core.turns book.now) }
{
    for t in 0..book.next_thread().0 {
        items.push(Item::Turn(Tid(t)))?;
    }
    Ok(())
}

// Appends a commit of each of these rows.
fn push_commits(items: &mut Vec<Item>, rows: &[Meet]) -> Result<(), AllocError>
    ensures { IfOk result (λ _. items.new.items ≡ items.old.items ++ map item_of.Meet rows.now) }
{
    for row in rows {
        items.push(Item::Meet(*row))?;
    }
    Ok(())
}

// Appends an exchange of each of these rows.
fn push_exchanges(items: &mut Vec<Item>, rows: &[Meet]) -> Result<(), AllocError>
    ensures { IfOk result (λ _. items.new.items ≡ items.old.items ++ map item_of.Exchange rows.now) }
{
    for row in rows {
        items.push(Item::Exchange(*row))?;
    }
    Ok(())
}

// Appends a move of the time to the next alarm, if there is one.
fn push_alarm(items: &mut Vec<Item>, book: &Book<OfferIndex>) -> Result<(), AllocError>
    ensures { IfOk result (λ _. items.new.items ≡ items.old.items ++ core.alarm_of (spec.next_alarm book.now)) }
{
    match alarm(book) {
        Some(tick) => {
            items.push(Item::Clock(tick))?;
            Ok(())
        }
        None => Ok(()),
    }
}

// The items of which some are allowed, and no others.
fn candidates(alloc: Global, book: &Book<OfferIndex>) -> Result<Vec<Item>, AllocError>
    ensures { IfOk result (λ items. items.items ≡ core.candidates book.now) }
{
    let found = rows(alloc, book)?;
    let taken = found.as_slice();
    let mut items = Vec::new(alloc);
    push_turns(&mut items, book)?;
    push_commits(&mut items, taken)?;
    push_exchanges(&mut items, taken)?;
    push_alarm(&mut items, book)?;
    Ok(items)
}

// Those of these items that can come.
fn those(alloc: Global, hub: &Hub, items: &[Item]) -> Result<Vec<Item>, AllocError>
    ensures { IfOk result (λ these. these.items ≡ filter (core.can (text_of hub.now.course.program) (run_of hub.now.course)) items.now) }
{
    let mut these = Vec::new(alloc);
    for item in items {
        if can(hub, item) {
            these.push(*item)?;
        }
    }
    Ok(these)
}

/// The items that are allowed where the hub stands.
pub(crate) fn allowed_here(alloc: Global, hub: &Hub) -> Result<Vec<Item>, AllocError>
    ensures { IfOk result (λ items. items.items ≡ core.allowed (text_of hub.now.course.program) (run_of hub.now.course)) }
{
    let all = candidates(alloc, hub.book())?;
    let items = all.as_slice();
    let these = those(alloc, hub, items)?;
    Ok(these)
}
