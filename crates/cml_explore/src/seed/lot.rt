//! Runs in which it is drawn by lot what happens next.

ghost use Rattle.std.specs.Prelude.{◌≡◌, ◌++◌, Some, OnOk, IfOk, option_map, slice_get};
ghost use Rattle.cml_scan.specs.{Scan.{scan, scan_of}, World.{PlainThread}};
ghost use Rattle.cml_hub.specs.{Courses.{run_of}, Kept.{NoneOut}, Playing.{picked, spent, taking}};
ghost use Rattle.cml_hub.specs.Runs as runs;
ghost use Rattle.cml_explore.specs.{Lots.{by_lot}, Draws.{GoesDrawn, RunsDrawn}, Generators.{by_generator}};
ghost use Rattle.cml_explore.specs.Lots as spec;

use cml_book::Book;
use cml_hub::{Chooser, End, Hub, Item, Seeded};
use cml_index::OfferIndex;
use cml_scan::law::{a_head_has_a_partner, no_head_where_no_row};
use cml_scan::{Meet, Table};
use cml_value::Tid;
use std::alloc::{AllocError, Global};

// Appends the thread, if it runs.
fn push_ready(ready: &mut Vec<Tid>, book: &Book<OfferIndex>, thread: Tid) -> Result<(), AllocError>
    ensures { OnOk result ((t : PlainThread) → slice_get book.now.threads thread.0 ≡ Some t →
        ready.new.items ≡ ready.old.items ++ spec.ready_of thread.0 t) }
{
    if !book.is_running(thread) {
        return Ok(());
    }
    ready.push(thread)?;
    Ok(())
}

/// The threads that run, ascending.
///
/// # Errors
/// Out of memory.
pub(crate) fn ready_threads(alloc: Global, hub: &Hub) -> Result<Vec<Tid>, AllocError>
    ensures { IfOk result (λ ready. ready.items ≡ spec.ready_from 0 hub.now.course.world.threads) }
{
    let mut ready = Vec::new(alloc);
    for t in 0..hub.book().next_thread().0 {
        push_ready(&mut ready, hub.book(), Tid(t))?;
    }
    Ok(ready)
}

// A row of the table, which the chooser picks, if there is one: a head, and then one of the head's rows. It picks both, also where there is only
// one.
fn pick_among<T: Table>(table: &T, chooser: &mut Seeded) -> Option<Meet>
    ensures picked { result ≡ picked by_generator chooser.old (scan_of (T.entries table.now) (T.is_lit table.now)) }
    ensures spent { chooser.new ≡ spent by_generator chooser.old result }
{
    no_head_where_no_row();
    a_head_has_a_partner();
    let heads = table.head_count();
    if heads == 0 {
        return None;
    }
    let head = table.head(chooser.pick(heads));
    let partners = table.partner_count(head);
    Some(table.partner(head, chooser.pick(partners)))
}

// A row that can be taken, which the chooser picks, if there is one.
fn pick_row(hub: &Hub, chooser: &mut Seeded) -> Option<Meet>
    ensures picked { result ≡ picked by_generator chooser.old (scan hub.now.course.world) }
    ensures spent { chooser.new ≡ spent by_generator chooser.old result }
{
    pick_among(hub.book().table(), chooser)
}

// The item that takes a row.
fn row_item(hub: &Hub, row: Meet) -> Item
    ensures { result ≡ taking hub.now.course.world row }
{
    if hub.book().swaps(&row) {
        Item::Exchange(row)
    } else {
        Item::Meet(row)
    }
}

/// The item that takes a row, which is picked, if there is one.
pub(crate) fn row_item_by_lot(hub: &Hub, chooser: &mut Seeded) -> Option<Item>
    ensures item { result ≡ (spec.row_by_lot by_generator hub.now.course.world chooser.old (picked by_generator chooser.old (scan hub.now.course.world))).0 }
    ensures state { chooser.new ≡ (spec.row_by_lot by_generator hub.now.course.world chooser.old (picked by_generator chooser.old (scan hub.now.course.world))).1 }
{
    match pick_row(hub, chooser) {
        Some(row) => Some(row_item(hub, row)),
        None => None,
    }
}

/// One where a row can be taken.
pub(crate) fn row_choices(hub: &Hub) -> usize
    ensures { result ≡ spec.row_choices (scan hub.now.course.world) }
{
    no_head_where_no_row();
    if hub.book().table().head_count() == 0 {
        0
    } else {
        1
    }
}

/// The next alarm is the item that comes next, if there is one.
pub(crate) fn alarm_item(hub: &Hub) -> Option<Item>
    ensures { result ≡ option_map Item.Clock (runs.next_alarm hub.now.course.world) }
{
    match hub.book().next_alarm() {
        Some(tick) => Some(Item::Clock(tick)),
        None => None,
    }
}

// The item that comes next is drawn, where these threads run.
fn next_item(hub: &Hub, ready: &[Tid], chooser: &mut Seeded) -> Option<Item>
    requires { ready.now ≡ spec.ready_from 0 hub.now.course.world.threads }
    ensures item { result ≡ (spec.next_by_lot by_generator hub.now.course.world chooser.old).0 }
    ensures state { chooser.new ≡ (spec.next_by_lot by_generator hub.now.course.world chooser.old).1 }
{
    let choices = ready.len() + row_choices(hub);
    if choices == 0 {
        return alarm_item(hub);
    }
    match ready.get(chooser.pick(choices)) {
        Some(thread) => Some(Item::Turn(*thread)),
        None => row_item_by_lot(hub, chooser),
    }
}

// One item more, as it was drawn.
fn go(alloc: Global, hub: &mut Hub, chooser: &mut Seeded) -> Result<(), AllocError>
    requires { NoneOut hub.old }
    ensures ok { OnOk result (GoesDrawn (by_lot by_generator) hub.old chooser.old hub.new chooser.new) }
    ensures none_out { NoneOut hub.new }
{
    let ready = ready_threads(alloc, hub)?;
    match next_item(hub, ready.as_slice(), chooser) {
        Some(item) => {
            let _came = hub.follow(alloc, item)?;
            Ok(())
        }
        None => Ok(()),
    }
}

/// Whether nothing is left to do, or the budget is used.
pub(crate) fn is_over(hub: &Hub) -> bool
    ensures { result ≡ runs.over hub.now.budget (run_of hub.now.course) }
{
    match hub.end() {
        End::Quiet => true,
        End::Budget => true,
        End::Partial => false,
    }
}

/// The hub runs to its end: each item is drawn by lot.
///
/// # Errors
/// Out of memory.
pub(crate) fn run_by_lot(
    alloc: Global,
    hub: &mut Hub,
    chooser: &mut Seeded,
) -> Result<(), AllocError>
    requires { NoneOut hub.old }
    ensures { OnOk result (RunsDrawn (by_lot by_generator) hub.old chooser.old hub.new chooser.new) }
{
    // Each item uses at least 1 of the budget, so `left` ends no run before `is_over` does; by it the prover sees that the loop ends.
    let mut left = hub.budget();
    'items: while left > 0 {
        if is_over(hub) {
            return Ok(());
        }
        go(alloc, hub, chooser)?;
        left -= 1;
    }
    Ok(())
}
