//! Shorter lists of items.

ghost use Rattle.std.specs.Prelude.{◌≡◌, ◌<◌, ◌≤◌, ◌+◌, ◌++◌, ◌∷◌, [], IfOk, OnOk, Some, drop, filter, length, not, remove, slice_get, slice_range, take};
ghost use Rattle.cml_explore.specs.Cuts as spec;

use cml_hub::Item;
use cml_scan::Meet;
use cml_value::Tid;
use std::alloc::{AllocError, Global};

// Whether the thread is a party to the row.
fn is_in_row(thread: Tid, row: &Meet) -> bool
    ensures { result ≡ spec.is_in_row thread.0 row.now }
{
    match *row {
        Meet::Single { tid, .. } => tid.0 == thread.0,
        Meet::Pair { head, other, .. } => head.0 == thread.0 || other.0 == thread.0,
    }
}

/// Whether the thread takes part in the item.
pub(crate) fn acts_in(thread: Tid, item: &Item) -> bool
    ensures { result ≡ spec.acts_in thread.0 item.now }
{
    match item {
        Item::Turn(turn) => turn.0 == thread.0,
        Item::Meet(row) | Item::Exchange(row) => is_in_row(thread, row),
        Item::Clock(_) => false,
    }
}

/// The items without the one of this number.
///
/// # Errors
/// Out of memory.
pub(crate) fn without_item(
    alloc: Global,
    items: &[Item],
    number: usize,
) -> Result<Vec<Item>, AllocError>
    requires { number < length items.now }
    ensures { IfOk result (λ shorter. shorter.items ≡ remove items.now number) }
{
    let mut shorter = Vec::from_slice(alloc, items)?;
    shorter.remove(number);
    Ok(shorter)
}

// Appends the items in which the thread takes no part.
fn push_others(shorter: &mut Vec<Item>, thread: Tid, items: &[Item]) -> Result<(), AllocError>
    ensures { OnOk result (shorter.new.items ≡ shorter.old.items ++ filter (λ item. not (spec.acts_in thread.0 item)) items.now) }
{
    for item in items {
        if !acts_in(thread, item) {
            shorter.push(*item)?;
        }
    }
    Ok(())
}

/// The items without those in which the thread takes part, from the item of this number on.
///
/// # Errors
/// Out of memory.
pub(crate) fn without_rest(
    alloc: Global,
    items: &[Item],
    thread: Tid,
    number: usize,
) -> Result<Vec<Item>, AllocError>
    requires { number ≤ length items.now }
    ensures { IfOk result (λ shorter. shorter.items ≡ spec.without_rest items.now thread.0 number) }
{
    let mut shorter = Vec::from_slice(alloc, &items[..number])?;
    push_others(&mut shorter, thread, &items[number..])?;
    Ok(shorter)
}

/// The items without those from one number to another.
///
/// # Errors
/// Out of memory.
pub(crate) fn without_range(
    alloc: Global,
    items: &[Item],
    start: usize,
    end: usize,
) -> Result<Vec<Item>, AllocError>
    requires start { start ≤ end }
    requires end { end ≤ length items.now }
    ensures { IfOk result (λ shorter. shorter.items ≡ take start items.now ++ drop end items.now) }
{
    let mut shorter = Vec::from_slice(alloc, &items[..start])?;
    shorter.extend_from_slice(&items[end..])?;
    Ok(shorter)
}

// The items, with this one, which has a higher number, moved to a lower one.
fn moved_as(
    alloc: Global,
    items: &[Item],
    item: Item,
    from: usize,
    to: usize,
) -> Result<Vec<Item>, AllocError>
    requires to { to ≤ from }
    requires from { from < length items.now }
    requires item { slice_get items.now from ≡ Some item }
    ensures { IfOk result (λ moved. (slice_get items.now from ≡ Some item)
        × (moved.items ≡ take to items.now ++ item ∷ [] ++ slice_range items.now to from ++ drop (from + 1) items.now)) }
{
    let mut moved = Vec::from_slice(alloc, &items[..to])?;
    moved.push(item)?;
    moved.extend_from_slice(&items[to..from])?;
    moved.extend_from_slice(&items[from + 1..])?;
    Ok(moved)
}

/// The items, with the one of a higher number moved to a lower one.
///
/// # Errors
/// Out of memory.
pub(crate) fn with_moved(
    alloc: Global,
    items: &[Item],
    from: usize,
    to: usize,
) -> Result<Vec<Item>, AllocError>
    requires to { to ≤ from }
    requires from { from < length items.now }
    ensures { IfOk result (λ moved. spec.IsSelection items.now moved.items) }
{
    moved_as(alloc, items, items[from], from, to)
}
