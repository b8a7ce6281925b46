//! All rows: those of the leaves that can be taken alone, and then those of each leaf that meets a lane.

ghost use Rattle.std.specs.{Prelude.{◌≡◌, ◌≤◌, ◌<◌, ◌+◌, ◌++◌, length, map, filter, slice_index_or, IfOk}, List.{flat_map}};
ghost use Rattle.cml_value.specs.{Group.{bases}, Value.{PlainBase}};
ghost use Rattle.cml_scan.specs.{Light.{lit_by}, Order.{Ascends, before}, Scan.{single, pairs_with, offers_of, leaves_from, scan_of}};
ghost use Rattle.cml_objects.specs.Lanes.{those};
ghost use Rattle.cml_index.specs.{Heads.{pair_of, offer_at}, Slots.{lane_of}, Waits.{leaf_wait}, Cores.{IsIndexed}};
ghost use Rattle.cml_index.specs.Posts as spec;

use crate::entry::Entry;
use crate::flags::is_lit_by;
use crate::heads::head_count;
use crate::slot::{Slot, Wait, met_by};
use crate::state::IndexState;
use cml_objects::{Lane, PartnerThreads, Tally};
use cml_scan::{Meet, Place};
use std::alloc::{AllocError, Global};

// The offer at this place among those in the lane that are of threads that are meant, where this many are not: two looks.
pub(crate) fn other_in(
    lane: &Lane,
    partner_threads: PartnerThreads,
    own: usize,
    j: usize,
    tally: &mut Tally,
) -> Place
    requires sorted { Ascends before lane.now.places }
    requires own { own + length (those partner_threads lane.now.places) ≡ length lane.now.places }
    requires within { j < length (those partner_threads lane.now.places) }
    ensures value { result ≡ slice_index_or (those partner_threads lane.now.places) j result }
    ensures cost { tally.new ≤ tally.old + 2 }
{
    // No effect: named here so that the prover knows what holds of it.
    let _len = lane.len();
    match partner_threads {
        PartnerThreads::Others(tid) => {
            let place = lane.look(j, tally);
            if place.tid.0 < tid.0 {
                place
            } else {
                lane.look(j + own, tally)
            }
        }
        PartnerThreads::Above(_) => lane.look(own + j, tally),
    }
}

// Appends the rows of the head with the offers in the lane that are of threads that are meant.
fn push_lane(
    rows: &mut Vec<Meet>,
    head: Place,
    lane: &Lane,
    partner_threads: PartnerThreads,
    tally: &mut Tally,
) -> Result<(), AllocError>
    requires { Ascends before lane.now.places }
    ensures { IfOk result (λ _. rows.new.items
        ≡ rows.old.items ++ map (pair_of head) (those partner_threads lane.now.places)) }
{
    let count = lane.others_count(partner_threads, tally);
    let own = lane.len() - count;
    for j in 0..count {
        let other = other_in(lane, partner_threads, own, j, tally);
        rows.push(Meet::Pair {
            head: head.tid,
            head_leaf: head.leaf,
            other: other.tid,
            other_leaf: other.leaf,
        })?;
    }
    Ok(())
}

// The same, where the lane is that of this slot.
fn push_slot(
    rows: &mut Vec<Meet>,
    core: &IndexState,
    slot: Slot,
    partner_threads: PartnerThreads,
    head: Place,
    tally: &mut Tally,
) -> Result<(), AllocError>
    requires { IsIndexed core.now }
    ensures { IfOk result (λ _. rows.new.items ≡ rows.old.items
        ++ map (pair_of head) (those partner_threads (lane_of spec.slot_of slot (offers_of core.now.entries.items)))) }
{
    match core.lanes.lane(slot) {
        Some(lane) => push_lane(rows, head, lane, partner_threads, tally),
        None => Ok(()),
    }
}

// Appends the rows of two that begin with the leaf, which waits for this, whatever its base event is.
fn push_pairs(
    rows: &mut Vec<Meet>,
    core: &IndexState,
    head: Place,
    wait: Wait,
    tally: &mut Tally,
) -> Result<(), AllocError>
    requires { IsIndexed core.now }
    ensures { (b : PlainBase) → leaf_wait b ≡ wait → IfOk result (λ _. rows.new.items
        ≡ rows.old.items ++ pairs_with (offers_of core.now.entries.items) (offer_at head b)) }
{
    match met_by(wait, head.tid) {
        Some((slot, partner_threads)) => push_slot(rows, core, slot, partner_threads, head, tally),
        None => Ok(()),
    }
}

// Appends the rows of two that begin with the thread's leaves.
fn push_pairs_of(
    rows: &mut Vec<Meet>,
    core: &IndexState,
    entry: &Entry,
    tally: &mut Tally,
) -> Result<(), AllocError>
    requires { IsIndexed core.now }
    ensures { IfOk result (λ _. rows.new.items ≡ rows.old.items
        ++ flat_map (pairs_with (offers_of core.now.entries.items))
        (leaves_from entry.now.thread 0 (bases entry.now.group))) }
{
    for (leaf, wait) in entry.waits().iter().enumerate() {
        tally.add();
        push_pairs(rows, core, entry.place(leaf), *wait, tally)?;
    }
    Ok(())
}

// Appends the rows of those of the thread's leaves that can be taken alone.
fn push_singles_of(
    rows: &mut Vec<Meet>,
    core: &IndexState,
    entry: &Entry,
    tally: &mut Tally,
) -> Result<(), AllocError>
    ensures { IfOk result (λ _. rows.new.items ≡ rows.old.items
        ++ map single (filter (λ o. lit_by (spec.told core.now.flags.entries) o.base)
        (leaves_from entry.now.thread 0 (bases entry.now.group)))) }
{
    for (leaf, wait) in entry.waits().iter().enumerate() {
        tally.add();
        if is_lit_by(&core.flags, *wait, tally) {
            let place = entry.place(leaf);
            rows.push(Meet::Single {
                tid: place.tid,
                leaf: place.leaf,
            })?;
        }
    }
    Ok(())
}

// All rows, in order. Where there is no head, no leaf is looked at except two offers of each object over which two threads may meet.
pub(crate) fn all_rows(
    alloc: Global,
    core: &IndexState,
    tally: &mut Tally,
) -> Result<Vec<Meet>, AllocError>
    requires { IsIndexed core.now }
    ensures { IfOk result (λ rows. rows.items
        ≡ scan_of core.now.entries.items (spec.told core.now.flags.entries)) }
{
    // No effect: named here so that the prover knows what holds of it.
    let _leaves = core.leaves;
    if head_count(core, tally) == 0 {
        return Ok(Vec::new(alloc));
    }
    let mut rows = Vec::new(alloc);
    let seats = core.entries.seats();
    for seat in seats {
        let Some(entry) = seat.entry() else { continue };
        push_singles_of(&mut rows, core, entry, tally)?;
    }
    for seat in seats {
        let Some(head) = seat.entry() else { continue };
        push_pairs_of(&mut rows, core, head, tally)?;
    }
    Ok(rows)
}
