//! The threads that are left when a run has ended.

ghost use Rattle.std.specs.{Prelude.{◌≡◌, ◌++◌, ◌<◌, ◌≤◌, IfOk, OnOk, Some, length, slice_get}, Option.{option_to_list}};
ghost use Rattle.cml_hub.specs.Deeds.{origins};
ghost use Rattle.cml_step.specs.Calls.{text_of};
ghost use Rattle.cml_scan.specs.World.{PlainThread};
ghost use Rattle.cml_facts.specs.{Takes.{taker_in}, EndingViews.{plain_stage}};
ghost use Rattle.cml_facts.specs.Lefts as spec;

use crate::ending::awaited::{Awaited, Named, awaited_of, who_is};
use crate::ending::standing::{Spot, place_of, spot_at};
use crate::ending::takers::Takers;
use cml_hub::Hub;
use cml_phrase::Place;
use cml_value::Tid;
use std::alloc::{AllocError, Global};

/// How a thread is left.
#[derive(Drop)]
pub enum Stands {
    /// It waits for one of these events.
    Waits(Awaited),
    /// It runs.
    Runs,
}

/// A thread that is left: how many turns it had, where it stands, where that is in the text, and how it is left.
#[derive(Drop)]
pub struct Left {
    pub thread: Named,
    pub turns: usize,
    pub spot: Option<Spot>,
    pub place: Option<Place>,
    pub stands: Stands,
}

/// A run that has ended.
#[derive(Clone, Copy)]
pub(crate) struct Stage<'a> {
    /// Where memory comes from.
    pub(crate) alloc: Global,
    /// Where the statements of each function stand in the text.
    pub(crate) places: &'a [Vec<Place>],
    /// The run.
    pub(crate) hub: &'a Hub,
    /// The thread that took from each M-variable last.
    pub(crate) takers: &'a Takers,
    /// Where each thread stands.
    pub(crate) spots: &'a [Option<Spot>],
    /// How many turns each thread had.
    pub(crate) turns: &'a [usize],
}

/// How the thread of this number is left; nothing, where it has ended or there is none.
///
/// # Errors
/// Out of memory.
pub fn stands_of(
    alloc: Global,
    hub: &Hub,
    takers: &Takers,
    thread: u32,
) -> Result<Option<Stands>, AllocError>
    ensures { IfOk result (λ stands. (t : PlainThread) → slice_get hub.now.course.world.threads thread ≡ Some t →
        stands ≡ spec.stands_of hub.now.course.world (origins (text_of hub.now.course.program) hub.now.course.items) (taker_in takers.now) t) }
{
    let book = hub.book();
    if book.is_running(Tid(thread)) {
        return Ok(Some(Stands::Runs));
    }
    match book.waiting(Tid(thread)) {
        Some(group) => Ok(Some(Stands::Waits(awaited_of(alloc, hub, takers, group)?))),
        None => Ok(None),
    }
}

impl Stage<'_> {
    // The thread of this number, which is left so.
    fn left_with(&self, thread: u32, stands: Stands) -> Result<Left, AllocError>
        requires { thread < length self.now.turns.now }
        ensures { IfOk result (λ left. left ≡ spec.left_with (plain_stage self.now) thread stands) }
    {
        let turns = self.turns[thread as usize];
        let spot = spot_at(self.spots, thread);
        let place = place_of(self.places, self.spots, thread);
        Ok(Left {
            thread: who_is(self.hub, thread)?,
            turns,
            spot,
            place,
            stands,
        })
    }

    // Appends the thread of this number, if it is left.
    fn push_left(&self, all: &mut Vec<Left>, thread: u32) -> Result<(), AllocError>
        requires { thread < length self.now.turns.now }
        ensures { OnOk result ((t : PlainThread) → slice_get self.now.hub.now.course.world.threads thread ≡ Some t →
            all.new.items ≡ all.old.items ++ option_to_list (spec.left_thread (plain_stage self.now) thread t)) }
    {
        match stands_of(self.alloc, self.hub, self.takers, thread)? {
            Some(stands) => {
                all.push(self.left_with(thread, stands)?)?;
                Ok(())
            }
            None => Ok(()),
        }
    }

    /// All threads that are left, by number.
    ///
    /// # Errors
    /// Out of memory.
    pub(crate) fn all_left(&self) -> Result<Vec<Left>, AllocError>
        requires { length self.now.hub.now.course.world.threads ≤ length self.now.turns.now }
        ensures { IfOk result (λ all. all.items ≡ spec.all_left (plain_stage self.now) 0 self.now.hub.now.course.world.threads) }
    {
        let mut all = Vec::new(self.alloc);
        for t in 0..self.hub.book().next_thread().0 {
            self.push_left(&mut all, t)?;
        }
        Ok(all)
    }
}
