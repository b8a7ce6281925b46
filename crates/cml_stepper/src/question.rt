//! The question before each answer.

ghost use Rattle.std.specs.Prelude.{◌≡◌, ◌+◌, IfOk, length, map, take};
ghost use Rattle.cml_facts.specs.Ends.{IsEnding};
ghost use Rattle.cml_hub.specs.Runs.{terminal};
ghost use Rattle.cml_facts.specs.Turns.{began_in};
ghost use Rattle.cml_scan.specs.Scan.{scan};
ghost use Rattle.cml_stepper.specs.{Questions.{AreOffers, ComesNext, IsQuestion}, Steppers.{places_known}};
ghost use Rattle.cml_stepper.specs.Questions as spec;
ghost use Rattle.cml_stepper.specs.Offers as offers;

use crate::offer::{LISTED, Rows, rows_of};
use crate::ready::ready_threads;
use crate::rows::rows_in;
use crate::stepper::Stepper;
use cml_book::Book;
use cml_facts::ending::{Ending, Named, Spot, ending_of, place_of, spots_of, who_is};
use cml_facts::narrative::next_tick;
use cml_hub::{End, Hub};
use cml_index::OfferIndex;
use cml_phrase::Place;
use cml_scan::Meet;
use std::alloc::{AllocError, Global};

/// A thread that runs, and where it stands, if that is known.
#[derive(Drop)]
pub struct Ready {
    pub thread: Named,
    pub place: Option<Place>,
}

/// What can happen next: the first 20 of the threads that run, and how many more there are; the first rows that can be taken; and the tick to
/// which the time can move, if nothing else can happen.
#[derive(Drop)]
pub struct Offers {
    pub ready: Vec<Ready>,
    pub more_ready: usize,
    pub rows: Rows,
    pub tick: Option<u64>,
}

/// What can happen next, or how the run has ended.
#[derive(Drop)]
pub enum Next {
    Offers(Offers),
    Ended(Ending),
}

/// What can happen next, and the number of the item that does.
#[derive(Drop)]
pub struct Question {
    pub next: Next,
    pub number: usize,
}

// Those of these threads that are listed.
fn listed(ready: &[u32]) -> &[u32]
    ensures { result.now ≡ take offers.listed_limit ready.now }
{
    if ready.len() > LISTED {
        &ready[..LISTED]
    } else {
        ready
    }
}

// Whether no thread of these runs, and none of these rows can be taken.
fn is_still(ready: &[u32], rows: &[Meet]) -> bool
    ensures { result ≡ spec.is_still ready.now rows.now }
{
    ready.is_empty() && rows.is_empty()
}

// The next tick for which a thread waits, where nothing else can happen.
fn tick_to_come(book: &Book<OfferIndex>, still: bool) -> Option<u64>
    ensures { result ≡ spec.tick_next book.now still }
{
    if still { next_tick(book) } else { None }
}

/// The number of the item that comes next in this hub.
pub(crate) fn next_number(hub: &Hub) -> usize
    ensures { result ≡ length hub.now.course.items + 1 }
{
    hub.schedule().len() + 1
}

impl Stepper<'_> {
    // A thread that runs, where these are the spots of all.
    fn ready_thread(
        &self,
        hub: &Hub,
        spots: &[Option<Spot>],
        thread: u32,
    ) -> Result<Ready, AllocError>
        ensures { IfOk result (λ ready. ready ≡ spec.ready_thread (places_known self.now) (began_in hub.now.course) spots.now thread) }
    {
        let place = place_of(self.narrator.places(), spots, thread);
        let thread = who_is(hub, thread)?;
        Ok(Ready { thread, place })
    }

    // These threads as values.
    fn each_ready(
        &self,
        alloc: Global,
        hub: &Hub,
        spots: &[Option<Spot>],
        threads: &[u32],
    ) -> Result<Vec<Ready>, AllocError>
        ensures { IfOk result (λ all. all.items ≡ map (spec.ready_thread (places_known self.now) (began_in hub.now.course) spots.now) threads.now) }
    {
        let mut all = Vec::new(alloc);
        for thread in threads {
            all.push(self.ready_thread(hub, spots, *thread)?)?;
        }
        Ok(all)
    }

    // All that can happen, where these threads run, and these are the first of the rows.
    fn offers_by(
        &self,
        alloc: Global,
        hub: &Hub,
        ready: &[u32],
        rows: &[Meet],
    ) -> Result<Offers, AllocError>
        requires ready { ready.now ≡ spec.running_from 0 hub.now.course.world.threads }
        requires rows { rows.now ≡ take 21 (scan hub.now.course.world) }
        ensures { IfOk result (AreOffers (places_known self.now) hub.now.course) }
    {
        let spots = spots_of(alloc, hub)?;
        let listed_ready = self.each_ready(alloc, hub, spots.as_slice(), listed(ready))?;
        drop(spots);
        let listed_rows = rows_of(alloc, hub, 1, rows)?;
        Ok(Offers {
            ready: listed_ready,
            more_ready: ready.len().saturating_sub(LISTED),
            rows: listed_rows,
            tick: tick_to_come(hub.book(), is_still(ready, rows)),
        })
    }

    // All that can happen.
    fn offers(&self, alloc: Global, hub: &Hub) -> Result<Offers, AllocError>
        ensures { IfOk result (AreOffers (places_known self.now) hub.now.course) }
    {
        let book = hub.book();
        let ready = ready_threads(alloc, book)?;
        let rows = rows_in(alloc, book, 0, LISTED + 1)?;
        let first = rows.as_slice();
        self.offers_by(alloc, hub, ready.as_slice(), first)
    }

    /// How the run has ended.
    pub(crate) fn ended(&self, alloc: Global, hub: &Hub) -> Result<Ending, AllocError>
        ensures { IfOk result (IsEnding (places_known self.now) hub.now) }
    {
        ending_of(alloc, hub, self.narrator.places())
    }

    // What can happen; or, where nothing can, how the run has ended.
    fn next(&self, alloc: Global, hub: &Hub) -> Result<Next, AllocError>
        ensures { IfOk result (ComesNext (terminal hub.now.course.world) (places_known self.now) hub.now) }
    {
        match hub.end() {
            End::Quiet => {
                let ending = self.ended(alloc, hub)?;
                Ok(Next::Ended(ending))
            }
            End::Budget => {
                let spent = self.offers(alloc, hub)?;
                Ok(Next::Offers(spent))
            }
            End::Partial => {
                let left = self.offers(alloc, hub)?;
                Ok(Next::Offers(left))
            }
        }
    }

    /// The question: what can happen next in this hub, or how the run has ended, and the number of the item that comes next.
    ///
    /// # Errors
    /// Out of memory.
    pub fn ask(&self, alloc: Global, hub: &Hub) -> Result<Question, AllocError>
        ensures { IfOk result (IsQuestion (places_known self.now) hub.now) }
    {
        let next = self.next(alloc, hub)?;
        Ok(Question {
            next,
            number: next_number(hub),
        })
    }
}
