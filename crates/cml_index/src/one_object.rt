//! The head at a place, where all that have a partner stand on one object.

ghost use Rattle.std.specs.Prelude.{◌≡◌, ◌≤◌, ◌<◌, ◌+◌, true, false, length, filter, slice_get, Some};
ghost use Rattle.cml_scan.specs.{Order.{Ascends, before}, Scan.{offers_of}};
ghost use Rattle.cml_objects.specs.{Lanes.{is_own, others as of_others}, declared.lane.PartnerThreads.TheVariants.{Others, Above}};
ghost use Rattle.cml_index.specs.{declared.slot.Slot.TheVariants.{Side}, Slots.{lane_at, lane_of}, Heads.{IsFoundEarly, met_among, heads_on}};
ghost use Rattle.cml_index.specs.Cores.{IsIndexed};
ghost use Rattle.cml_index.specs.Posts as spec;

use crate::counts::only_thread;
use crate::entries::Entries;
use crate::slot::{Slot, count_in};
use crate::state::IndexState;
use cml_objects::{Lane, PairedId, Tally};
use cml_scan::Place;
use cml_value::Tid;

// How many leaves of the thread stand in the lane of the slot, if it is one of these threads. No offer is looked at.
fn own_len(entries: &Entries, slot: Slot, tid: Tid) -> usize
    ensures { result ≡ length (filter (is_own tid)
        (lane_of spec.slot_of slot (offers_of entries.now.items))) }
{
    match entries.get(tid) {
        Some(entry) => count_in(entry.waits(), slot),
        None => 0,
    }
}

// The offer number j in the lane when the thread's own offers are left out; it has `own` of them there. One look, and a second one where
// the thread's own offers come before that place.
fn other_at(lane: &Lane, tid: Tid, own: usize, j: usize, tally: &mut Tally) -> Place
    requires sorted { Ascends before lane.now.places }
    requires own { own + length (of_others tid lane.now.places) ≡ length lane.now.places }
    requires within { j < length (of_others tid lane.now.places) }
    ensures value { slice_get (of_others tid lane.now.places) j ≡ Some result }
    ensures cost { tally.new + length (filter (before result) lane.now.places)
        ≤ tally.old + length lane.now.places }
    ensures ahead { length (filter (before result) lane.now.places) < length lane.now.places }
{
    // No effect: named here so that the prover knows what holds of it.
    let _len = lane.len();
    let place = lane.look(j, tally);
    if own == 0 {
        return place;
    }
    if place.tid.0 < tid.0 {
        return place;
    }
    lane.look(j + own, tally)
}

// The first offer in the lane that is not the thread's: one look, and a second one where the thread's offers stand before it.
fn first_other(core: &IndexState, slot: Slot, lane: &Lane, tid: Tid, tally: &mut Tally) -> Place
    requires there { lane.now.places
        ≡ lane_of spec.slot_of slot (offers_of core.now.entries.items) }
    requires sorted { Ascends before lane.now.places }
    requires some { 0 < length (of_others tid lane.now.places) }
    ensures value { slice_get (of_others tid lane.now.places) 0 ≡ Some result }
    ensures cost { tally.new + length (filter (before result) lane.now.places)
        ≤ tally.old + length lane.now.places }
    ensures ahead { length (filter (before result) lane.now.places) < length lane.now.places }
{
    // No effect: named here so that the prover knows what holds of it.
    let _len = lane.len();
    let place = lane.look(0, tally);
    if place.tid.0 != tid.0 {
        return place;
    }
    let own = own_len(&core.entries, slot, tid);
    lane.look(own, tally)
}

// The head number k among those that can meet an offer of another thread on the other side.
fn head_beside(
    core: &IndexState,
    slot: Slot,
    heads: &Lane,
    others: &Lane,
    k: usize,
    tally: &mut Tally,
) -> Place
    requires indexed { IsIndexed core.now }
    requires there { heads.now.places
        ≡ lane_of spec.slot_of slot (offers_of core.now.entries.items) }
    requires heads { Ascends before heads.now.places }
    requires sorted { Ascends before others.now.places }
    requires some { 0 < length others.now.places }
    requires within { k < length (met_among Others others.now.places heads.now.places) }
    ensures found { IsFoundEarly (met_among Others others.now.places heads.now.places) k
        heads.now.places result tally.old tally.new }
{
    // No effect: named here so that the prover knows what holds of it.
    let _len = heads.len();
    match only_thread(others, tally) {
        Some(tid) => {
            if k == 0 {
                return first_other(core, slot, heads, tid, tally);
            }
            let own = own_len(&core.entries, slot, tid);
            other_at(heads, tid, own, k, tally)
        }
        None => heads.look(k, tally),
    }
}

// The head at this place among those of the lane, on an object with two sides.
fn head_in(core: &IndexState, object: PairedId, heads: &Lane, k: usize, tally: &mut Tally) -> Place
    requires indexed { IsIndexed core.now }
    requires there { heads.now.places
        ≡ lane_of spec.slot_of (Side true object) (offers_of core.now.entries.items) }
    requires within { k < length (met_among Others
        (lane_at core.now.lanes (Side false object)) heads.now.places) }
    ensures found { IsFoundEarly
        (met_among Others (lane_at core.now.lanes (Side false object)) heads.now.places) k
        heads.now.places result tally.old tally.new }
{
    let slot = Slot::Side {
        heads: true,
        object,
    };
    let other = Slot::Side {
        heads: false,
        object,
    };
    match core.lanes.lane(other) {
        Some(others) => head_beside(core, slot, heads, others, k, tally),
        None => unreachable!(),
    }
}

// The head number k on a swap channel: an offer is a head if the lane also has one of a higher thread. One look.
fn head_below(lane: &Lane, k: usize, tally: &mut Tally) -> Place
    requires sorted { Ascends before lane.now.places }
    requires within { k < length (met_among Above lane.now.places lane.now.places) }
    ensures found { IsFoundEarly (met_among Above lane.now.places lane.now.places) k
        lane.now.places result tally.old tally.new }
{
    // No effect: named here so that the prover knows what holds of it.
    let _len = lane.len();
    lane.look(k, tally)
}

// The head at this place among those on the object.
pub(crate) fn head_on(core: &IndexState, object: PairedId, k: usize, tally: &mut Tally) -> Place
    requires indexed { IsIndexed core.now }
    requires within { k < length (heads_on (offers_of core.now.entries.items) object) }
    ensures found { IsFoundEarly (heads_on (offers_of core.now.entries.items) object) k
        (lane_at core.now.lanes (Side true object)) result tally.old tally.new }
{
    let slot = Slot::Side {
        heads: true,
        object,
    };
    match core.lanes.lane(slot) {
        Some(heads) => {
            if object.kind.one_lane() {
                head_below(heads, k, tally)
            } else {
                head_in(core, object, heads, k, tally)
            }
        }
        None => unreachable!(),
    }
}
