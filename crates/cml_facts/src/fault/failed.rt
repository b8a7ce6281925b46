//! The thread that ends at a fault by an item, as the item comes.

ghost use Rattle.std.specs.Prelude.{◌≡◌, true, IfOk, OnOk, None, Some, slice_get};
ghost use Rattle.cml_step.specs.Calls.{text_of};
ghost use Rattle.cml_hub.specs.{Courses.{run_of}, Kept.{NoneOut}, Runs.{is_allowed}, Dones.{GoesOn}};
ghost use Rattle.cml_schedule.specs.declared.item.Item.TheVariants as item_of;
ghost use Rattle.cml_facts.specs.Again.{AddsAlone};
ghost use Rattle.cml_facts.specs.{Failures.{failure_by}, Failed.{FailsSo}};

use crate::ending::come;
use cml_hub::{Hub, Item};
use cml_step::Machine;
use cml_value::Tid;
use std::alloc::{AllocError, Global};

// The machine of a thread that runs, once more.
fn running_machine(alloc: Global, hub: &Hub, thread: Tid) -> Result<Machine, AllocError>
    requires { is_allowed hub.now.course.world (item_of.Turn thread) ≡ true }
    ensures machine { IfOk result (λ m. slice_get hub.now.course.machines thread.0 ≡ Some m) }
    ensures thread { IfOk result (λ m. m.thread ≡ thread.0) }
    ensures goes { IfOk result (λ m. GoesOn hub.now.course.program m) }
{
    match hub.machine(thread) {
        Some(machine) => machine.copy(alloc),
        None => unreachable!(),
    }
}

// The thread has its turn, which is allowed now. Where it ends at a fault by that, its machine is returned as it was before.
fn failed_by_turn(alloc: Global, hub: &mut Hub, thread: Tid) -> Result<Option<Machine>, AllocError>
    requires out { NoneOut hub.old }
    requires allowed { is_allowed hub.old.course.world (item_of.Turn thread) ≡ true }
    ensures came { OnOk result (AddsAlone hub.old (item_of.Turn thread) hub.new) }
    ensures failed { IfOk result (λ machine. FailsSo hub.old.course (item_of.Turn thread) machine) }
{
    // No effect: named here so that the prover knows what holds of it.
    let _so_far = hub.schedule();
    let before = hub.faults();
    let machine = running_machine(alloc, hub, thread)?;
    come(alloc, hub, Item::Turn(thread))?;
    let after = hub.faults();
    if after == before {
        return Ok(None);
    }
    Ok(Some(machine))
}

// The item comes, which is allowed now, and by which no thread ends at a fault.
fn failed_by_none(alloc: Global, hub: &mut Hub, item: Item) -> Result<Option<Machine>, AllocError>
    requires out { NoneOut hub.old }
    requires allowed { is_allowed hub.old.course.world item ≡ true }
    requires none { failure_by (text_of hub.old.course.program) (run_of hub.old.course) item ≡ None }
    ensures came { OnOk result (AddsAlone hub.old item hub.new) }
    ensures failed { IfOk result (λ machine. FailsSo hub.old.course item machine) }
{
    // No effect: named here so that the prover knows what holds of it.
    let _so_far = hub.schedule();
    come(alloc, hub, item)?;
    Ok(None)
}

/// The item comes, which is allowed now. Where a thread ends at a fault by it, its machine is returned as it was before.
///
/// # Errors
/// Out of memory.
pub fn failed_by(alloc: Global, hub: &mut Hub, item: Item) -> Result<Option<Machine>, AllocError>
    requires out { NoneOut hub.old }
    requires allowed { is_allowed hub.old.course.world item ≡ true }
    ensures came { OnOk result (AddsAlone hub.old item hub.new) }
    ensures failed { IfOk result (λ machine. FailsSo hub.old.course item machine) }
{
    match item {
        Item::Turn(thread) => failed_by_turn(alloc, hub, thread),
        Item::Meet(_) => failed_by_none(alloc, hub, item),
        Item::Exchange(_) => failed_by_none(alloc, hub, item),
        Item::Clock(_) => failed_by_none(alloc, hub, item),
    }
}
