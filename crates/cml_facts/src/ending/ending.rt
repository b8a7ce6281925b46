//! How a run ended.

ghost use Rattle.std.specs.Prelude.{◌≡◌, ◌-◌, ◌≤◌, if◌then◌else◌, IfOk, option_map, length, map, slice_get};
ghost use Rattle.cml_hub.specs.Runs.{terminal};
ghost use Rattle.cml_facts.specs.{Ends.{IsEnding, AreLeft}, Takes.{taker_in}};
ghost use Rattle.cml_facts.specs.Ends as spec;
ghost use Rattle.cml_facts.specs.Rings as rings;

use crate::ending::left::{Left, Stage};
use crate::ending::next::next_threads;
use crate::ending::replay::takers_of;
use crate::ending::ring::ring_among;
use crate::ending::standing::spots_of;
use crate::ending::takers::Takers;
use crate::ending::turns::turn_counts;
use cml_hub::{End, Hub, Item};
use cml_phrase::Place;
use cml_value::Tid;
use std::alloc::{AllocError, Global};

/// How a run ended: how; its budget; of how many items its schedule is, and the last of them; how many threads wait, and how many run; each
/// of these; where nothing is left to do, the ring in which threads wait for one another, if they do: from its least thread on, and back to
/// that; and how many threads ended at a fault.
#[derive(Drop)]
pub struct Ending {
    pub end: End,
    pub budget: u64,
    pub items: usize,
    pub last: Option<Item>,
    pub waits: usize,
    pub runs: usize,
    pub left: Vec<Left>,
    pub ring: Option<Vec<u32>>,
    pub faults: usize,
}

// One, or none.
fn one_if(holds: bool) -> usize
    ensures one { result ≡ (if holds then 1 else 0) }
    ensures few { result ≤ 1 }
{
    if holds { 1 } else { 0 }
}

// How many threads run.
fn run_count(hub: &Hub) -> usize
    ensures { result ≡ spec.run_count hub.now.course.world }
{
    let book = hub.book();
    let mut count = 0;
    for t in 0..book.next_thread().0 {
        count += one_if(book.is_running(Tid(t)));
    }
    count
}

// The threads that are left.
fn left_threads(
    alloc: Global,
    hub: &Hub,
    takers: &Takers,
    places: &[Vec<Place>],
) -> Result<Vec<Left>, AllocError>
    ensures { IfOk result (λ left. AreLeft (map (λ own. own.items) places.now) hub.now.course (taker_in takers.now) left.items) }
{
    let spots = spots_of(alloc, hub)?;
    let turns = turn_counts(alloc, hub.schedule(), spots.len())?;
    let stage = Stage {
        alloc,
        places,
        hub,
        takers,
        spots: spots.as_slice(),
        turns: turns.as_slice(),
    };
    let left = stage.all_left()?;
    Ok(left)
}

// Whether nothing is left to do.
fn is_quiet(hub: &Hub) -> bool
    ensures { result ≡ terminal hub.now.course.world }
{
    match hub.end() {
        End::Quiet => true,
        End::Budget | End::Partial => false,
    }
}

// The ring that is told.
fn told_ring(alloc: Global, hub: &Hub, takers: &Takers) -> Result<Option<Vec<u32>>, AllocError>
    ensures { IfOk result (λ ring. option_map (λ r. r.items) ring ≡ rings.told_ring hub.now.course.world (taker_in takers.now)) }
{
    if !is_quiet(hub) {
        return Ok(None);
    }
    let nexts = next_threads(alloc, hub, takers)?;
    ring_among(alloc, nexts.as_slice())
}

// The last of these items.
fn last_of(items: &[Item]) -> Option<Item>
    ensures { result ≡ slice_get items.now (length items.now - 1) }
{
    match items {
        [] => None,
        [.., last] => Some(*last),
    }
}

/// How the run of this hub ended; these are the places of the statements of its program's functions.
///
/// # Errors
/// Out of memory.
pub fn ending_of(alloc: Global, hub: &Hub, places: &[Vec<Place>]) -> Result<Ending, AllocError>
    ensures { IfOk result (λ ending. IsEnding (map (λ own. own.items) places.now) hub.now ending) }
{
    let takers = takers_of(alloc, hub)?;
    let left = left_threads(alloc, hub, &takers, places)?;
    let ring = told_ring(alloc, hub, &takers)?;
    let items = hub.schedule();
    Ok(Ending {
        end: hub.end(),
        budget: hub.budget(),
        items: items.len(),
        last: last_of(items),
        waits: hub.pending(),
        runs: run_count(hub),
        left,
        ring,
        faults: hub.faults(),
    })
}
