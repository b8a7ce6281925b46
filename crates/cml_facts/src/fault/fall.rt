//! Where the threads of a run stood that ended at faults, and who took from M-variables last: for both the schedule is gone through once more.

ghost use Rattle.std.specs.Prelude.{◌≡◌, ◌==◌, ◌++◌, ◌∷◌, ℕ, [], None, Some, true, if◌then◌else◌, MatchOption, IfOk, OnOk};
ghost use Rattle.cml_step.specs.{Answers.{top_await}, Calls.{text_of}, Machines.{machine_term, Fits}};
ghost use Rattle.cml_step.specs.Answers as answers;
ghost use Rattle.cml_hub.specs.{Kept.{NoneOut}, Runs.{is_allowed}};
ghost use Rattle.cml_facts.specs.{Again.{RunsAgain, AddsAlone}, Takes.{taker_in, KnowsTakers}};
ghost use Rattle.cml_facts.specs.Failures.{failure_of};
ghost use Rattle.cml_facts.specs.{Falls.{IsFall, AreFalls}, FallViews.{plain_fall, fall_in}};

use crate::ending::{Takers, begin_again, let_go, make_room};
use crate::fault::failed::failed_by;
use cml_check::Prog;
use cml_hub::{Hub, Item};
use cml_step::{Ask, Machine, Slice, run_slice};
use cml_value::Tid;
use std::alloc::{AllocError, Global};

/// A thread that ended at a fault: where it stood before its last step, and what it asked for by that.
#[derive(Drop)]
pub struct Fall {
    pub machine: Machine,
    pub ask: Ask,
}

/// The threads of a run that ended at faults, by their numbers.
#[derive(Drop)]
pub struct Falls {
    by_thread: Vec<Option<Fall>>,
}

impl Falls {
    /// None has.
    pub(crate) fn new(alloc: Global) -> Falls
        ensures { (t : ℕ) → fall_in result t ≡ None }
    {
        Falls {
            by_thread: Vec::new(alloc),
        }
    }

    /// That of the thread of this number, if it ended at a fault.
    pub fn of(&self, thread: u32) -> Option<&Fall>
        ensures { MatchOption result (fall_in self.now thread ≡ None) (λ fall. fall_in self.now thread ≡ Some (plain_fall fall.now)) }
    {
        match self.by_thread.get(thread as usize) {
            Some(fall) => fall.as_ref(),
            None => None,
        }
    }

    // Keeps that of this thread.
    fn keep(&mut self, thread: Tid, fall: Fall) -> Result<(), AllocError>
        ensures { OnOk result ((t : ℕ) → fall_in self.new t ≡ (if thread.0 == t then Some (plain_fall fall) else fall_in self.old t)) }
    {
        let place = thread.0 as usize;
        make_room(&mut self.by_thread, place)?;
        self.by_thread[place] = Some(fall);
        Ok(())
    }
}

// Where a thread stands before the last step of its next turn, and what it asks for by that.
pub(crate) fn fall_of(alloc: Global, program: &Prog, machine: &Machine) -> Result<Fall, AllocError>
    requires fits { Fits program.now machine.now }
    requires awaits { top_await (machine_term program.now machine.now) ≡ answers.nothing }
    ensures { let p = program.now in let m = machine.now in
        IfOk result (λ fall. IsFall p (failure_of (text_of p) m.thread (machine_term p m)) (plain_fall fall)) }
{
    let Slice { end, ask, steps } = run_slice(alloc, program, machine)?;
    drop(end);
    let machine = machine.stepped(alloc, program, steps - 1)?;
    Ok(Fall { machine, ask })
}

// The item comes, which is allowed now. Where a thread ends at a fault by it, that is kept.
fn follow_item(
    alloc: Global,
    second: &mut Hub,
    falls: &mut Falls,
    item: Item,
) -> Result<(), AllocError>
    requires out { NoneOut second.old }
    requires allowed { is_allowed second.old.course.world item ≡ true }
    ensures came { OnOk result (AddsAlone second.old item second.new) }
    ensures falls { let p = second.old.course.program in let items = second.old.course.items in
        OnOk result (AreFalls p items (fall_in falls.old) → AreFalls p (items ++ item ∷ []) (fall_in falls.new)) }
{
    let failed = failed_by(alloc, second, item)?;
    match failed {
        Some(machine) => {
            let fall = fall_of(alloc, second.program(), &machine)?;
            falls.keep(machine.thread(), fall)
        }
        None => Ok(()),
    }
}

// The other hub's items come one after another in this hub, which stands at its beginning.
fn follow_all(
    alloc: Global,
    hub: &Hub,
    second: &mut Hub,
    takers: &mut Takers,
    falls: &mut Falls,
) -> Result<(), AllocError>
    requires begun { RunsAgain hub.now second.old 0 }
    requires none_taken { (m : ℕ) → taker_in takers.old m ≡ None }
    requires none_fallen { (t : ℕ) → fall_in falls.old t ≡ None }
    ensures takers { OnOk result (KnowsTakers (text_of hub.now.course.program) hub.now.course.items takers.new) }
    ensures falls { OnOk result (AreFalls hub.now.course.program hub.now.course.items (fall_in falls.new)) }
{
    let items = hub.schedule();
    for i in 0..items.len() {
        let item = items[i];
        // No effect: named here so that the prover knows what holds of it.
        let _so_far = second.schedule();
        takers.follow(alloc, second, &item)?;
        follow_item(alloc, second, falls, item)?;
    }
    Ok(())
}

/// What is known of a schedule once it was gone through again: who took from each M-variable last, and where the threads stood that ended at
/// faults.
#[derive(Drop)]
pub struct Retold {
    pub takers: Takers,
    pub falls: Falls,
}

/// That of the schedule of a hub.
///
/// # Errors
/// Out of memory.
pub fn retell(alloc: Global, hub: &Hub) -> Result<Retold, AllocError>
    ensures takers { IfOk result (λ retold. KnowsTakers (text_of hub.now.course.program) hub.now.course.items retold.takers) }
    ensures falls { IfOk result (λ retold. AreFalls hub.now.course.program hub.now.course.items (fall_in retold.falls)) }
{
    let mut second = begin_again(alloc, hub)?;
    let mut takers = Takers::new(alloc);
    let mut falls = Falls::new(alloc);
    let followed = follow_all(alloc, hub, &mut second, &mut takers, &mut falls);
    let_go(second);
    followed?;
    Ok(Retold { takers, falls })
}

/// The threads of a hub's run that ended at faults. Where none has, the schedule is not gone through again.
///
/// # Errors
/// Out of memory.
pub fn falls_of(alloc: Global, hub: &Hub) -> Result<Falls, AllocError>
    ensures { IfOk result (λ falls. AreFalls hub.now.course.program hub.now.course.items (fall_in falls)) }
{
    if hub.faults() == 0 {
        return Ok(Falls::new(alloc));
    }
    let Retold { takers, falls } = retell(alloc, hub)?;
    drop(takers);
    Ok(falls)
}
