//! Where a run is stopped.

ghost use Rattle.std.specs.Prelude.{◌≡◌, None, IfOk};
ghost use Rattle.cml_facts.specs.Again.{RunsAgain};
ghost use Rattle.cml_hub.specs.{Courses.{run_of}, Kept.{IsReplayed}, Runs.{stands}};
ghost use Rattle.cml_judge.specs.Stops.{ComesAfter, IsStoppedThere, StopsAfter, TellsBreaks};
ghost use Rattle.cml_judge.specs.Stops as spec;
ghost use Rattle.cml_step.specs.Calls.{text_of};

use crate::spot::start_of;
use cml_facts::ending::{begin_again, come, let_go};
use cml_hub::{Hub, Item, ReplayFault};
use cml_properties::{Finish, Property, Run, judge};
use cml_text::law::spells_one_at_most;
use std::alloc::{AllocError, Global};

// Of two lines, each of which may be none, the first.
fn earlier(one: Option<usize>, other: Option<usize>) -> Option<usize>
    ensures { result ≡ spec.earlier one other }
{
    match one {
        Some(one) => match other {
            Some(other) => Some(one.min(other)),
            None => Some(one),
        },
        None => other,
    }
}

// The first of these lines.
fn earliest(lines: &[Option<usize>]) -> Option<usize>
    ensures { result ≡ spec.earliest lines.now }
{
    let mut first = None;
    for line in lines {
        first = earlier(first, *line);
    }
    first
}

// The byte of the hub's output at which the first line begins that breaks a property, however the run goes on.
fn broken_at(alloc: Global, properties: &[Property], hub: &Hub) -> Result<Option<usize>, AllocError>
    ensures { IfOk result (TellsBreaks properties.now (text_of hub.now.course.program) hub.now.course.items) }
{
    // No effect: named here so that the prover knows what holds of it.
    let _items = hub.schedule();
    spells_one_at_most();
    let output = hub.out().as_bytes();
    let run = Run {
        output,
        finish: Finish::GoesOn,
    };
    let judged = judge(alloc, properties, output, &run)?;
    match earliest(judged.as_slice()) {
        Some(line) => Ok(start_of(output, line)),
        None => Ok(None),
    }
}

// Whether the place of this number is within so many.
fn is_place_within(place: Option<usize>, count: usize) -> bool
    ensures { result ≡ spec.is_place_within place count }
{
    match place {
        Some(place) => place < count,
        None => false,
    }
}

// Whether the hub's run has printed the byte of this number, or a thread of it has ended at a fault.
fn has_come(hub: &Hub, at: Option<usize>) -> bool
    ensures { result ≡ spec.has_come at (text_of hub.now.course.program) hub.now.course.items (run_of hub.now.course) }
{
    is_place_within(at, hub.out().len()) || hub.faults() > 0
}

// Behind how many items of the hub's schedule the byte of this number was printed, or a thread has ended at a fault. The items come in the second hub.
fn stop_in(
    alloc: Global,
    hub: &Hub,
    second: &mut Hub,
    at: Option<usize>,
) -> Result<Option<usize>, AllocError>
    requires begun { RunsAgain hub.now second.old 0 }
    ensures { IfOk result (ComesAfter at (text_of hub.now.course.program) hub.now.course.items) }
{
    let items = hub.schedule();
    for i in 0..items.len() {
        // No effect: named here so that the prover knows what holds of it.
        let _so_far = second.schedule();
        come(alloc, second, items[i])?;
        let _by_now = second.schedule();
        let stops = has_come(second, at);
        if stops {
            return Ok(Some(i + 1));
        }
    }
    Ok(None)
}

/// Behind how many items of its schedule the run of the hub is stopped, if it is: the first behind which a property is broken, however the run goes
/// on, or a thread has ended at a fault. The run is made once more.
///
/// # Errors
/// Out of memory.
pub fn stop_of(
    alloc: Global,
    properties: &[Property],
    hub: &Hub,
) -> Result<Option<usize>, AllocError>
    ensures { IfOk result (StopsAfter properties.now (text_of hub.now.course.program) hub.now.course.items) }
{
    let at = broken_at(alloc, properties, hub)?;
    let mut second = begin_again(alloc, hub)?;
    let stops = stop_in(alloc, hub, &mut second, at);
    let_go(second);
    stops
}

// A hub of the same program and budget that has gone through these items, which lead somewhere.
fn hub_after(alloc: Global, hub: &Hub, items: &[Item]) -> Result<Hub, AllocError>
    requires { stands (text_of hub.now.course.program) items.now ≡ None → ⊥ }
    ensures { IfOk result (IsReplayed hub.now.course.program hub.now.budget None items.now) }
{
    let again = hub.program().copy()?;
    match Hub::replay(alloc, again, hub.budget(), None, items) {
        Ok(other) => Ok(other),
        Err(ReplayFault::BadItem(_, _)) => unreachable!(),
        Err(ReplayFault::Memory(_)) => Err(AllocError),
    }
}

/// A hub that stands where the run of this one is stopped, if it is.
///
/// # Errors
/// Out of memory.
pub fn stopped_hub(
    alloc: Global,
    properties: &[Property],
    hub: &Hub,
) -> Result<Option<Hub>, AllocError>
    ensures { IfOk result (IsStoppedThere properties.now hub.now) }
{
    let items = hub.schedule();
    match stop_of(alloc, properties, hub)? {
        Some(count) => {
            let other = hub_after(alloc, hub, &items[..count])?;
            Ok(Some(other))
        }
        None => Ok(None),
    }
}
