//! Which items are shown, and what they show.

ghost use Rattle.std.specs.Prelude.{◌≡◌, ◌+◌, ◌∷◌, [], IfOk, IfErr, OnOk, drop, length, take};
ghost use Rattle.cml_hub.specs.{Courses.{Adds}, Kept.{NoneOut}};
ghost use Rattle.cml_facts.specs.Narrators.{Knows, places_of};
ghost use Rattle.cml_picture.specs.{Draws.{IsRangeShown, ItemsLead, IsNotDrawn, Shows}, Stacks.{no_rows}, Stops.{Halts, HaltsOf, Stops, StopsOf}};
ghost use Rattle.cml_picture.specs.Views.{plain_stack};
ghost use Rattle.cml_picture.specs.Draws as spec;

use super::stack::Stack;
use crate::fault::DrawFault;
use cml_facts::narrative::Narrator;
use cml_hub::{Hub, Item};
use std::alloc::Global;

// The first `count` of these.
fn first_of(items: &[Item], count: usize) -> &[Item]
    ensures { result.now ≡ take count items.now }
{
    &items[..count.min(items.len())]
}

// Those after the first `count`.
fn behind(items: &[Item], count: usize) -> &[Item]
    ensures { result.now ≡ drop count items.now }
{
    &items[count.min(items.len())..]
}

// The items before the first that is shown.
fn items_before(items: &[Item], from: usize, to: usize) -> &[Item]
    ensures { result.now ≡ spec.items_before from to items.now }
{
    first_of(first_of(items, to), from.saturating_sub(1))
}

/// The items that are shown.
pub(crate) fn items_within(items: &[Item], from: usize, to: usize) -> &[Item]
    ensures { result.now ≡ spec.items_within from to items.now }
{
    behind(first_of(items, to), from.saturating_sub(1))
}

// The number of the item that comes next, which can't happen.
fn unfit(hub: &Hub) -> DrawFault
    ensures { result ≡ DrawFault.BadItem (length hub.now.course.items + 1) }
{
    let done = hub.schedule().len();
    DrawFault::BadItem(done + 1)
}

// Follows an item, which is not shown.
fn follow_item(
    alloc: Global,
    narrator: &mut Narrator,
    hub: &mut Hub,
    item: Item,
) -> Result<(), DrawFault>
    requires none_out { NoneOut hub.old }
    requires knows { Knows hub.old.course narrator.old }
    ensures leads { OnOk result (Adds hub.old.course item hub.new.course) }
    ensures halts { IfErr result (λ why. Halts hub.old.course item hub.new.course why) }
    ensures knows { OnOk result (Knows hub.new.course narrator.new) }
    ensures places { places_of narrator.new ≡ places_of narrator.old }
    ensures none_out { NoneOut hub.new }
{
    if !narrator.follow(alloc, hub, item)? {
        return Err(unfit(hub));
    }
    Ok(())
}

// Follows these items, of which none is shown.
fn follow_all(
    alloc: Global,
    narrator: &mut Narrator,
    hub: &mut Hub,
    items: &[Item],
) -> Result<(), DrawFault>
    requires none_out { NoneOut hub.old }
    requires knows { Knows hub.old.course narrator.old }
    ensures leads { OnOk result (ItemsLead hub.old.course items.now hub.new.course) }
    ensures halts { IfErr result (λ why. HaltsOf hub.old.course items.now hub.new.course why) }
    ensures knows { OnOk result (Knows hub.new.course narrator.new) }
    ensures places { places_of narrator.new ≡ places_of narrator.old }
    ensures none_out { NoneOut hub.new }
{
    for item in items {
        follow_item(alloc, narrator, hub, *item)?;
    }
    Ok(())
}

// Follows an item, and adds what it shows.
fn show_item(
    alloc: Global,
    narrator: &mut Narrator,
    hub: &mut Hub,
    stack: &mut Stack,
    item: Item,
) -> Result<(), DrawFault>
    requires none_out { NoneOut hub.old }
    requires knows { Knows hub.old.course narrator.old }
    ensures shows { OnOk result (Shows (places_of narrator.old) hub.old.course (plain_stack stack.old) (item ∷ []) hub.new.course (plain_stack stack.new)) }
    ensures stops { IfErr result (λ why. Stops (places_of narrator.old) hub.old.course (plain_stack stack.old) item hub.new.course why) }
    ensures knows { OnOk result (Knows hub.new.course narrator.new) }
    ensures places { places_of narrator.new ≡ places_of narrator.old }
    ensures none_out { NoneOut hub.new }
{
    match narrator.tell(alloc, hub, item)? {
        Some(happened) => stack.add(alloc, hub, happened),
        None => Err(unfit(hub)),
    }
}

// Follows these items, and adds what they show.
fn show_all(
    alloc: Global,
    narrator: &mut Narrator,
    hub: &mut Hub,
    stack: &mut Stack,
    items: &[Item],
) -> Result<(), DrawFault>
    requires none_out { NoneOut hub.old }
    requires knows { Knows hub.old.course narrator.old }
    ensures shows { OnOk result (Shows (places_of narrator.old) hub.old.course (plain_stack stack.old) items.now hub.new.course (plain_stack stack.new)) }
    ensures stops { IfErr result (λ why. StopsOf (places_of narrator.old) hub.old.course (plain_stack stack.old) items.now hub.new.course why) }
    ensures none_out { NoneOut hub.new }
{
    for item in items {
        show_item(alloc, narrator, hub, stack, *item)?;
    }
    Ok(())
}

/// Follows the items up to number `to`, and adds what those from number `from` on show. Returns how many threads there were before item
/// `from`.
pub(crate) fn show_range(
    alloc: Global,
    narrator: &mut Narrator,
    hub: &mut Hub,
    stack: &mut Stack,
    items: &[Item],
    from: usize,
    to: usize,
) -> Result<u32, DrawFault>
    requires none_out { NoneOut hub.old }
    requires knows { Knows hub.old.course narrator.old }
    requires blank { plain_stack stack.old ≡ no_rows }
    ensures shown { IfOk result (λ before. IsRangeShown (places_of narrator.old) hub.old.course items.now from to before hub.new.course (plain_stack stack.new)) }
    ensures refused { IfErr result (λ why. IsNotDrawn hub.old.course items.now from to hub.new.course why) }
    ensures none_out { NoneOut hub.new }
{
    follow_all(alloc, narrator, hub, items_before(items, from, to))?;
    let before = hub.book().next_thread().0;
    show_all(alloc, narrator, hub, stack, items_within(items, from, to))?;
    Ok(before)
}
