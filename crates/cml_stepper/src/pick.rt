//! Which item an answer names.

ghost use Rattle.std.specs.Prelude.{◌≡◌, [], IfOk};
ghost use Rattle.cml_hub.specs.Playing as playing;
ghost use Rattle.cml_scan.specs.Scan.{scan};
ghost use Rattle.cml_stepper.specs.Picks as spec;

use crate::line::Typed;
use crate::ready::next_ready;
use crate::rows::rows_in;
use cml_book::Book;
use cml_facts::narrative::next_tick;
use cml_hub::{Hub, Item};
use cml_index::OfferIndex;
use cml_scan::Meet;
use cml_value::Tid;
use std::alloc::{AllocError, Global};

// The row of this number, counted from 1, if there is one.
fn row_numbered(
    alloc: Global,
    book: &Book<OfferIndex>,
    number: u64,
) -> Result<Option<Meet>, AllocError>
    ensures { IfOk result (λ row. row ≡ spec.row_numbered book.now number) }
{
    if number == 0 {
        return Ok(None);
    }
    let rows = rows_in(alloc, book, number as usize - 1, 1)?;
    Ok(rows.first().copied())
}

// The item that takes the row.
fn taking(book: &Book<OfferIndex>, row: Meet) -> Item
    ensures { result ≡ playing.taking book.now row }
{
    if book.swaps(&row) {
        Item::Exchange(row)
    } else {
        Item::Meet(row)
    }
}

// The only row, or, where there is none, the next alarm.
fn only_row(alloc: Global, book: &Book<OfferIndex>) -> Result<Option<Item>, AllocError>
    ensures { IfOk result (λ item. item ≡ spec.only_row book.now (scan book.now)) }
{
    let rows = rows_in(alloc, book, 0, 2)?;
    match rows.as_slice() {
        [] => Ok(next_tick(book).map(Item::Clock)),
        [row] => Ok(Some(taking(book, *row))),
        _ => Ok(None),
    }
}

// What an empty line means.
fn next_item(alloc: Global, hub: &Hub) -> Result<Option<Item>, AllocError>
    ensures { IfOk result (λ item. item ≡ spec.next_item hub.now.course.world hub.now.course.items) }
{
    match next_ready(hub) {
        Some(thread) => Ok(Some(Item::Turn(Tid(thread)))),
        None => only_row(alloc, hub.book()),
    }
}

// The item that takes the row of this number, if there is one.
fn row_item(alloc: Global, book: &Book<OfferIndex>, number: u64) -> Result<Option<Item>, AllocError>
    ensures { IfOk result (λ item. item ≡ spec.item_typed book.now [] (Typed.Row number)) }
{
    match row_numbered(alloc, book, number)? {
        Some(row) => Ok(Some(taking(book, row))),
        None => Ok(None),
    }
}

/// The item that an answer names, if there is one.
///
/// # Errors
/// Out of memory.
pub(crate) fn item_typed(alloc: Global, hub: &Hub, what: Typed) -> Result<Option<Item>, AllocError>
    ensures { IfOk result (λ item. item ≡ spec.item_typed hub.now.course.world hub.now.course.items what) }
{
    match what {
        Typed::Row(number) => row_item(alloc, hub.book(), number),
        Typed::Turn(thread) => {
            if hub.book().is_running(thread) {
                Ok(Some(Item::Turn(thread)))
            } else {
                Ok(None)
            }
        }
        Typed::Next => next_item(alloc, hub),
        Typed::List(_) => Ok(None),
        Typed::Waits => Ok(None),
        Typed::Undo => Ok(None),
        Typed::Quit => Ok(None),
        Typed::Unknown => Ok(None),
    }
}
