//! By which item of a run a line was printed.

ghost use Rattle.std.specs.Prelude.{◌≡◌, ◌<◌, ◌≤◌, IfOk, MatchOption, length};
ghost use Rattle.cml_facts.specs.Again.{RunsAgain};
ghost use Rattle.cml_judge.specs.Spots.{IsSpotOfByte, IsSpotOfLine, IsTurnSpot};
ghost use Rattle.cml_judge.specs.Spots as spec;
ghost use Rattle.cml_schedule.specs.declared.item.Item.TheVariants.{Turn};
ghost use Rattle.cml_step.specs.Calls.{text_of};
ghost use Rattle.cml_text.specs.Lines as text;
ghost use Rattle.cml_value.specs.declared.number.Tid.{Tid};

use cml_facts::ending::{begin_again, come, let_go};
use cml_hub::{Hub, Item};
use cml_text::Lines;
use cml_value::Tid;
use std::alloc::{AllocError, Global};

/// Where a line was printed.
#[derive(Clone, Copy, PartialEq, Eq)]
pub struct Spot {
    /// The item of the schedule, counted from 1.
    pub item: usize,
    /// The thread whose turn it was.
    pub thread: Tid,
}

/// The byte at which the line of this number begins, if there are so many lines.
pub(crate) fn start_of(output: &[u8], number: usize) -> Option<usize>
    ensures { MatchOption result
        (length (text.lines output.now) ≤ number)
        (λ at. (number < length (text.lines output.now)) × (at ≡ spec.line_start (text.lines output.now) number)) }
{
    let mut lines = Lines::new(output);
    let mut count = 0;
    let mut at = 0;
    while let Some((_, line)) = lines.next() {
        if count == number {
            return Some(at);
        }
        count += 1;
        at += line.len() + 1;
    }
    None
}

// Where a turn of a thread is told, if the item, which has this number, is one.
fn turn_spot(item: Item, number: usize) -> Option<Spot>
    ensures { MatchOption result ((thread : Tid) → item ≡ Turn thread → ⊥) (IsTurnSpot item number) }
{
    match item {
        Item::Turn(thread) => Some(Spot {
            item: number,
            thread,
        }),
        Item::Meet(_) => None,
        Item::Exchange(_) => None,
        Item::Clock(_) => None,
    }
}

// Where the byte of this number was printed by an item of the hub's schedule, if it was. The items come in the second hub.
fn spot_in(
    alloc: Global,
    hub: &Hub,
    second: &mut Hub,
    at: usize,
) -> Result<Option<Spot>, AllocError>
    requires begun { RunsAgain hub.now second.old 0 }
    ensures { IfOk result (λ spot. MatchOption spot
        (length hub.now.course.output ≤ at)
        (IsSpotOfByte (text_of hub.now.course.program) hub.now.course.items at)) }
{
    let items = hub.schedule();
    for i in 0..items.len() {
        // No effect: named here so that the prover knows what holds of it.
        let _so_far = second.schedule();
        let item = items[i];
        come(alloc, second, item)?;
        let _by_now = second.schedule();
        let printed = second.out().len();
        if printed > at {
            return Ok(turn_spot(item, i + 1));
        }
    }
    Ok(None)
}

// The same, by a second hub that is let go.
fn spot_of_byte(alloc: Global, hub: &Hub, at: usize) -> Result<Option<Spot>, AllocError>
    ensures { IfOk result (λ spot. MatchOption spot
        (length hub.now.course.output ≤ at)
        (IsSpotOfByte (text_of hub.now.course.program) hub.now.course.items at)) }
{
    let mut second = begin_again(alloc, hub)?;
    let spot = spot_in(alloc, hub, &mut second, at);
    let_go(second);
    spot
}

/// Where the line of this number was printed in the run of the hub, which is made once more; nowhere, if it has not so many lines.
///
/// # Errors
/// Out of memory.
pub(crate) fn spot_of(alloc: Global, hub: &Hub, number: usize) -> Result<Option<Spot>, AllocError>
    ensures { IfOk result (IsSpotOfLine hub.now number) }
{
    match start_of(hub.out().as_bytes(), number) {
        Some(at) => spot_of_byte(alloc, hub, at),
        None => Ok(None),
    }
}
