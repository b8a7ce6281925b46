//! How the threads of a run are left, and where and why threads of it ended at faults.

ghost use Rattle.std.specs.{Prelude.{◌≡◌, ◌++◌, ◌<◌, OnOk, IfOk, Some, length, option_map, slice_get}, Option.{option_to_list}};
ghost use Rattle.cml_scan.specs.World.{PlainThread};
ghost use Rattle.cml_facts.specs.Standings.{IsSpotOf};
ghost use Rattle.cml_facts.specs.{FallViews.{plain_fall, fall_in}};
ghost use Rattle.cml_explore.specs.{SightViews.{plain_sight}, Sights.{AreSpotsToTell}};
ghost use Rattle.cml_explore.specs.Sights as spec;

use crate::told::{ThreadLeft, ThreadState};
use cml_facts::ending::{Spot, Takers, machine_spot, place_of, stands_of, thread_spot, who_is};
use cml_facts::fault::{Falls, reason_of};
use cml_hub::Hub;
use cml_phrase::Place;
use cml_value::Tid;
use std::alloc::{AllocError, Global};

/// A run that has ended, and what is known of its threads.
#[derive(Clone, Copy)]
pub(crate) struct Sighted<'a> {
    /// Where memory comes from.
    pub(crate) alloc: Global,
    /// Where the statements of each function stand in the text.
    pub(crate) places: &'a [Vec<Place>],
    /// The run.
    pub(crate) hub: &'a Hub,
    /// The thread that took from each M-variable last.
    pub(crate) takers: &'a Takers,
    /// The threads that ended at faults.
    pub(crate) falls: &'a Falls,
    /// Where each thread stands; of one that ended at a fault, where it stood before its last step.
    pub(crate) spots: &'a [Option<Spot>],
    /// Of each thread that ended at a fault, where the call below its top call stood before its last step.
    pub(crate) below: &'a [Option<Spot>],
}

// Where the thread of this number stands; where it ended at a fault, where it stood before its last step.
fn spot_to_tell(hub: &Hub, falls: &Falls, thread: Tid) -> Option<Spot>
    requires { thread.0 < length hub.now.course.world.threads }
    ensures { IsSpotOf hub.now.course.program (spec.call_of_thread hub.now.course (fall_in falls.now) thread.0) result }
{
    match falls.of(thread.0) {
        Some(fall) => machine_spot(hub.program(), &fall.machine),
        None => thread_spot(hub, thread),
    }
}

/// Where each thread stands; of one that ended at a fault, where it stood before its last step.
///
/// # Errors
/// Out of memory.
pub(crate) fn spots_of(
    alloc: Global,
    hub: &Hub,
    falls: &Falls,
) -> Result<Vec<Option<Spot>>, AllocError>
    ensures spots { IfOk result (λ spots. AreSpotsToTell hub.now.course (fall_in falls.now) spots.items) }
    ensures count { IfOk result (λ spots. length spots.items ≡ length hub.now.course.world.threads) }
{
    let mut spots = Vec::new(alloc);
    for t in 0..hub.book().next_thread().0 {
        spots.push(spot_to_tell(hub, falls, Tid(t)))?;
    }
    Ok(spots)
}

impl Sighted<'_> {
    // Why the thread of this number ended at a fault, if it did.
    fn fault_state(&self, thread: u32) -> Result<Option<ThreadState>, AllocError>
        ensures { IfOk result (λ state. state ≡ spec.fault_state (plain_sight self.now) (fall_in self.now.falls.now thread)) }
    {
        match self.falls.of(thread) {
            Some(fall) => {
                let reason = reason_of(self.alloc, self.hub.program(), &fall.machine, &fall.ask)?;
                Ok(Some(ThreadState::AtFault(reason)))
            }
            None => Ok(None),
        }
    }

    // How the thread of this number is left, if it is, or ended at a fault.
    fn state(&self, thread: u32) -> Result<Option<ThreadState>, AllocError>
        ensures { IfOk result (λ state. (t : PlainThread) → slice_get self.now.hub.now.course.world.threads thread ≡ Some t →
            state ≡ spec.state_told (plain_sight self.now) thread t) }
    {
        let stands = stands_of(self.alloc, self.hub, self.takers, thread)?;
        match stands {
            Some(stands) => Ok(Some(ThreadState::Stands(stands))),
            None => self.fault_state(thread),
        }
    }

    // Where the thread of this number stands in the text; where its top call is at no statement there, where the call below it is.
    fn place(&self, thread: u32) -> Option<Place>
        ensures { result ≡ spec.place_told (plain_sight self.now) thread }
    {
        match place_of(self.places, self.spots, thread) {
            Some(place) => Some(place),
            None => place_of(self.places, self.below, thread),
        }
    }

    // The thread of this number, which is left so.
    fn thread_left(&self, thread: u32, state: ThreadState) -> Result<ThreadLeft, AllocError>
        ensures { IfOk result (λ left. left ≡ spec.thread_left (plain_sight self.now) thread state) }
    {
        Ok(ThreadLeft {
            thread: who_is(self.hub, thread)?,
            place: self.place(thread),
            state,
        })
    }

    // Appends the thread of this number, if it is left so.
    fn push_so(
        &self,
        threads: &mut Vec<ThreadLeft>,
        thread: u32,
        state: Option<ThreadState>,
    ) -> Result<(), AllocError>
        ensures { OnOk result (threads.new.items ≡ threads.old.items ++ option_to_list (option_map (spec.thread_left (plain_sight self.now) thread) state)) }
    {
        match state {
            Some(state) => {
                let left = self.thread_left(thread, state)?;
                threads.push(left)?;
                Ok(())
            }
            None => Ok(()),
        }
    }

    // Appends the thread of this number, if it is left or ended at a fault.
    fn push_thread(&self, threads: &mut Vec<ThreadLeft>, thread: u32) -> Result<(), AllocError>
        ensures { OnOk result ((t : PlainThread) → slice_get self.now.hub.now.course.world.threads thread ≡ Some t →
            threads.new.items ≡ threads.old.items ++ option_to_list (spec.thread_told (plain_sight self.now) thread t)) }
    {
        let state = self.state(thread)?;
        self.push_so(threads, thread, state)
    }

    /// All threads that are left or ended at a fault.
    ///
    /// # Errors
    /// Out of memory.
    pub(crate) fn threads(&self) -> Result<Vec<ThreadLeft>, AllocError>
        ensures { IfOk result (λ threads. threads.items ≡ spec.threads_told (plain_sight self.now) 0 self.now.hub.now.course.world.threads) }
    {
        let mut threads = Vec::new(self.alloc);
        for t in 0..self.hub.book().next_thread().0 {
            self.push_thread(&mut threads, t)?;
        }
        Ok(threads)
    }
}
