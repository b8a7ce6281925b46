//! Larger cuts, and turns in another order.

ghost use Rattle.std.specs.Prelude.{◌+◌, ◌≤◌, ◌<◌, IfSome, OnOk, length};
ghost use Rattle.cml_hub.specs.Kept.{IsBudget};
ghost use Rattle.cml_explore.specs.Searching.{AlikeTo, Goes};

use crate::shrink::cut::{acts_in, with_moved, without_range};
use crate::shrink::replay::Goal;
use crate::shrink::search::Search;
use cml_hub::Item;
use cml_value::Tid;
use std::alloc::{AllocError, Global};

// Tries to leave out the items from one number to another, if there are so many.
fn cut_range(
    search: &mut Search,
    alloc: Global,
    goal: &Goal<'_>,
    start: usize,
    end: usize,
) -> Result<(), AllocError>
    requires budget { IsBudget goal.now.asked.budget }
    requires start { start ≤ end }
    requires alike { AlikeTo goal.now search.old.items }
    ensures { OnOk result (Goes goal.now search.old search.new) }
{
    let items = search.items.as_slice();
    if end > items.len() {
        return Ok(());
    }
    let shorter = without_range(alloc, items, start, end)?;
    search.offer(alloc, goal, shorter)
}

// Tries to leave out each so many items in a row, from the last to the first.
fn cut_ranges(
    search: &mut Search,
    alloc: Global,
    goal: &Goal<'_>,
    size: usize,
) -> Result<(), AllocError>
    requires budget { IsBudget goal.now.asked.budget }
    requires some { 1 ≤ size }
    requires alike { AlikeTo goal.now search.old.items }
    ensures { OnOk result (Goes goal.now search.old search.new) }
{
    let mut end = search.items.len();
    while end > 0 {
        let start = end.saturating_sub(size);
        cut_range(search, alloc, goal, start, end)?;
        end = start;
    }
    Ok(())
}

/// Tries to leave out halves of the items, then quarters, and so on, down to eight in a row.
///
/// # Errors
/// Out of memory.
pub(crate) fn halve(search: &mut Search, alloc: Global, goal: &Goal<'_>) -> Result<(), AllocError>
    requires budget { IsBudget goal.now.asked.budget }
    requires alike { AlikeTo goal.now search.old.items }
    ensures { OnOk result (Goes goal.now search.old search.new) }
{
    let mut size = search.items.len() / 2;
    while size > 7 {
        cut_ranges(search, alloc, goal, size)?;
        size /= 2;
    }
    Ok(())
}

/// Tries to leave out so many items in a row, for most numbers from half of them down to two: what comes round again and again can be left out by as many
/// items as one round has.
///
/// # Errors
/// Out of memory.
pub(crate) fn thin(search: &mut Search, alloc: Global, goal: &Goal<'_>) -> Result<(), AllocError>
    requires budget { IsBudget goal.now.asked.budget }
    requires alike { AlikeTo goal.now search.old.items }
    ensures { OnOk result (Goes goal.now search.old search.new) }
{
    let mut size = search.items.len() / 2;
    while size > 1 {
        cut_ranges(search, alloc, goal, size)?;
        size -= 1 + size / 16;
    }
    Ok(())
}

// The number of the first item from this number on in which the thread takes part, if there is one.
fn next_of(items: &[Item], thread: Tid, number: usize) -> Option<usize>
    requires { number ≤ length items.now }
    ensures at { IfSome result (λ next. number ≤ next) }
    ensures there { IfSome result (λ next. next < length items.now) }
{
    for i in number..items.len() {
        if acts_in(thread, &items[i]) {
            return Some(i);
        }
    }
    None
}

// The thread, if the item is a turn.
fn turn_of(item: Item) -> Option<Tid> {
    match item {
        Item::Turn(thread) => Some(thread),
        Item::Meet(_) | Item::Exchange(_) | Item::Clock(_) => None,
    }
}

// The number of the next turn of the thread that has its turn at this number, where others stand between them in which it takes no part.
fn apart(items: &[Item], number: usize) -> Option<usize>
    requires { number + 1 < length items.now }
    ensures at { IfSome result (λ next. number + 1 ≤ next) }
    ensures there { IfSome result (λ next. next < length items.now) }
{
    let thread = turn_of(items[number])?;
    let next = next_of(items, thread, number + 1)?;
    if next > number + 1 && turn_of(items[next]).is_some() {
        Some(next)
    } else {
        None
    }
}

// Tries to move the next turn of a thread to where it follows the one at this number, if that is not the last item.
fn draw_near(
    search: &mut Search,
    alloc: Global,
    goal: &Goal<'_>,
    number: usize,
) -> Result<(), AllocError>
    requires budget { IsBudget goal.now.asked.budget }
    requires alike { AlikeTo goal.now search.old.items }
    ensures { OnOk result (Goes goal.now search.old search.new) }
{
    let items = search.items.as_slice();
    if number >= items.len().saturating_sub(1) {
        return Ok(());
    }
    let Some(next) = apart(items, number) else {
        return Ok(());
    };
    let moved = with_moved(alloc, items, next, number + 1)?;
    search.offer(alloc, goal, moved)
}

/// Tries to put the turns of a thread together, where their order among others makes no difference to how the run ends.
///
/// # Errors
/// Out of memory.
pub(crate) fn gather(search: &mut Search, alloc: Global, goal: &Goal<'_>) -> Result<(), AllocError>
    requires budget { IsBudget goal.now.asked.budget }
    requires alike { AlikeTo goal.now search.old.items }
    ensures { OnOk result (Goes goal.now search.old search.new) }
{
    for number in 0..search.items.len() {
        draw_near(search, alloc, goal, number)?;
    }
    Ok(())
}
