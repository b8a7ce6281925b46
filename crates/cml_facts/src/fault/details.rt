//! The details of how the run of a hub ended.

ghost use Rattle.std.specs.{Prelude.{◌≡◌, ◌++◌, ◌∷◌, Some, OnOk, IfOk, map, slice_get}, Option.{option_and_then, option_copied}};
ghost use Rattle.cml_scan.specs.World.{PlainThread};
ghost use Rattle.cml_value.specs.Group.{bases as bases_of};
ghost use Rattle.cml_step.specs.Machines.{plain_held};
ghost use Rattle.cml_step.specs.declared.entry.Entry.TheVariants as entry;
ghost use Rattle.cml_facts.specs.Standings.{call_of_machine};
ghost use Rattle.cml_facts.specs.{FallViews.{fall_in}, Details.{AreDetails, AreFallenDetails}};
ghost use Rattle.cml_facts.specs.Details as spec;

use crate::ending::top_call;
use crate::fault::detail::{Detail, ask_detail, end_detail, kind_detail};
use crate::fault::fall::{Falls, falls_of};
use cml_hub::Hub;
use cml_scan::leaf_bases;
use cml_step::{Call, Machine};
use cml_value::{Base, FnRef, Group, Tid};
use std::alloc::{AllocError, Global};

// Appends where a call is.
fn push_call(details: &mut Vec<Detail>, call: &Call) -> Result<(), AllocError>
    ensures { OnOk result (details.new.items ≡ details.old.items ++ spec.call_details (Some (plain_held (entry.Call call.now)))) }
{
    details.push(Detail::In(call.function()))?;
    details.push(Detail::At(call.at()))?;
    Ok(())
}

// Appends where the top call of a machine is.
fn push_top(details: &mut Vec<Detail>, machine: &Machine) -> Result<(), AllocError>
    ensures { OnOk result (details.new.items ≡ details.old.items ++ spec.call_details (call_of_machine machine.now)) }
{
    match top_call(machine) {
        Some(call) => push_call(details, call),
        None => Ok(()),
    }
}

// The same of a thread's machine, if it has one.
fn push_place(details: &mut Vec<Detail>, machine: Option<&Machine>) -> Result<(), AllocError>
    ensures { OnOk result (details.new.items ≡ details.old.items
        ++ spec.call_details (option_and_then call_of_machine (option_copied machine.entry))) }
{
    match machine {
        Some(machine) => push_top(details, machine),
        None => Ok(()),
    }
}

// Appends the function with which a thread began.
fn push_began(details: &mut Vec<Detail>, began: Option<&FnRef>) -> Result<(), AllocError>
    ensures { OnOk result (details.new.items ≡ details.old.items ++ spec.began_details (option_copied began.entry)) }
{
    match began {
        Some(function) => {
            details.push(Detail::Began(function.func()))?;
            Ok(())
        }
        None => Ok(()),
    }
}

// Appends what kinds of events these are.
fn push_kinds(details: &mut Vec<Detail>, bases: &[Base]) -> Result<(), AllocError>
    ensures { OnOk result (details.new.items ≡ details.old.items ++ map spec.kind_detail bases.now) }
{
    for base in bases {
        details.push(kind_detail(base))?;
    }
    Ok(())
}

/// A run, and how its threads ended.
#[derive(Clone, Copy)]
struct Ended<'a> {
    alloc: Global,
    hub: &'a Hub,
    /// The threads that ended at faults.
    falls: &'a Falls,
}

impl Ended<'_> {
    // Appends with which function the thread of this number began, and where it stands.
    fn push_standing(&self, details: &mut Vec<Detail>, thread: Tid) -> Result<(), AllocError>
        ensures { OnOk result (details.new.items ≡ details.old.items ++ spec.standing_details self.now.hub.now.course thread.0) }
    {
        push_began(details, self.hub.origin(thread))?;
        push_place(details, self.hub.machine(thread))
    }

    // Appends what is said of a thread that runs.
    fn push_running(&self, details: &mut Vec<Detail>, thread: Tid) -> Result<(), AllocError>
        ensures { OnOk result (details.new.items ≡ details.old.items
            ++ Detail.Runs ∷ spec.standing_details self.now.hub.now.course thread.0) }
    {
        details.push(Detail::Runs)?;
        self.push_standing(details, thread)
    }

    // Appends what is said of a thread that waits on this group.
    fn push_waiting(
        &self,
        details: &mut Vec<Detail>,
        thread: Tid,
        group: &Group,
    ) -> Result<(), AllocError>
        ensures { OnOk result (details.new.items ≡ details.old.items
            ++ Detail.Waits ∷ (spec.standing_details self.now.hub.now.course thread.0 ++ map spec.kind_detail (bases_of group.now))) }
    {
        details.push(Detail::Waits)?;
        self.push_standing(details, thread)?;
        let bases = leaf_bases(self.alloc, group)?;
        push_kinds(details, bases.as_slice())
    }

    // Appends what is said of a thread that has ended: where it stood, and what it asked for, if it ended at a fault.
    fn push_ended(&self, details: &mut Vec<Detail>, thread: Tid) -> Result<(), AllocError>
        ensures { OnOk result (details.new.items ≡ details.old.items
            ++ spec.fall_details self.now.hub.now.course thread.0 (fall_in self.now.falls.now thread.0)) }
    {
        match self.falls.of(thread.0) {
            Some(fall) => {
                details.push(Detail::Fell)?;
                push_began(details, self.hub.origin(thread))?;
                push_top(details, &fall.machine)?;
                details.push(ask_detail(&fall.ask))?;
                Ok(())
            }
            None => Ok(()),
        }
    }

    // Appends what is said of the thread of this number.
    fn push_thread(&self, details: &mut Vec<Detail>, thread: Tid) -> Result<(), AllocError>
        ensures { OnOk result ((t : PlainThread) → slice_get self.now.hub.now.course.world.threads thread.0 ≡ Some t →
            details.new.items ≡ details.old.items ++ spec.thread_details self.now.hub.now.course (fall_in self.now.falls.now) thread.0 t) }
    {
        let book = self.hub.book();
        if book.is_running(thread) {
            return self.push_running(details, thread);
        }
        match book.waiting(thread) {
            Some(group) => self.push_waiting(details, thread, group),
            None => self.push_ended(details, thread),
        }
    }

    // Appends what is said of all threads.
    fn push_threads(&self, details: &mut Vec<Detail>) -> Result<(), AllocError>
        ensures { OnOk result (details.new.items ≡ details.old.items
            ++ spec.threads_details self.now.hub.now.course (fall_in self.now.falls.now) 0 self.now.hub.now.course.world.threads) }
    {
        for t in 0..self.hub.book().next_thread().0 {
            self.push_thread(details, Tid(t))?;
        }
        Ok(())
    }

    // What is said of the threads that ended at faults.
    fn fallen(&self) -> Result<Vec<Detail>, AllocError>
        ensures { IfOk result (λ details. details.items
            ≡ spec.fallen_details self.now.hub.now.course (fall_in self.now.falls.now) 0 self.now.hub.now.course.world.threads) }
    {
        let mut details = Vec::new(self.alloc);
        for t in 0..self.hub.book().next_thread().0 {
            self.push_ended(&mut details, Tid(t))?;
        }
        Ok(details)
    }

    // How the run ended.
    fn details(&self) -> Result<Vec<Detail>, AllocError>
        ensures { IfOk result (λ details. details.items ≡ spec.details_with self.now.hub.now (fall_in self.now.falls.now)) }
    {
        let mut details = Vec::new(self.alloc);
        details.push(end_detail(self.hub.end()))?;
        self.push_threads(&mut details)?;
        details.push(Detail::Faults(self.hub.faults()))?;
        Ok(details)
    }
}

/// How the run of a hub ended. Two runs ended alike where these are the same, in the same order. Only where a thread ended at a fault the
/// schedule is gone through once more.
///
/// # Errors
/// Out of memory.
pub fn details_of(alloc: Global, hub: &Hub) -> Result<Vec<Detail>, AllocError>
    ensures { IfOk result (λ details. AreDetails hub.now details.items) }
{
    let falls = falls_of(alloc, hub)?;
    let ended = Ended {
        alloc,
        hub,
        falls: &falls,
    };
    ended.details()
}

/// The threads of the run of a hub that ended at faults: how each did. Of the others nothing is said.
///
/// # Errors
/// Out of memory.
pub fn fallen_details_of(alloc: Global, hub: &Hub) -> Result<Vec<Detail>, AllocError>
    ensures { IfOk result (λ details. AreFallenDetails hub.now details.items) }
{
    let falls = falls_of(alloc, hub)?;
    let ended = Ended {
        alloc,
        hub,
        falls: &falls,
    };
    ended.fallen()
}
