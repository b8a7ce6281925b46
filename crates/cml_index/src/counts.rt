//! How many leaves have a partner, object by object.

ghost use Rattle.std.specs.{Prelude.{◌≡◌, ◌≤◌, ◌<◌, ◌+◌, ◌*◌, true, false, length, filter, drop, slice_get, Some}, List.{list_any}};
ghost use Rattle.cml_scan.specs.{declared.meet.Place.{Place}, Order.{Ascends, before}, Scan.{offers_of}};
ghost use Rattle.cml_objects.specs.{Lanes.{is_others}, declared.lane.PartnerThreads.TheVariants.{Others, Above}};
ghost use Rattle.cml_index.specs.{declared.heads.HeadKind.TheVariants.{Met}, declared.slot.Slot.TheVariants.{Side}, Slots.{lane_at}};
ghost use Rattle.cml_index.specs.{Heads.{is_sought, is_beside, met_among, heads_on, head_total}, Live.{objects}, Cores.{IsIndexed}};
ghost use Rattle.cml_index.specs.Posts as spec;

use crate::slot::Slot;
use crate::state::IndexState;
use cml_objects::{Lane, PairedId, PartnerThreads, Tally};
use cml_value::Tid;

// The thread of all offers in the lane, if they are of one thread alone: two looks.
pub(crate) fn only_thread(lane: &Lane, tally: &mut Tally) -> Option<Tid>
    requires sorted { Ascends before lane.now.places }
    requires some { 0 < length lane.now.places }
    ensures value { (q : Place) → list_any (is_others q.tid) lane.now.places ≡ is_beside result q }
    ensures cost { tally.new ≤ tally.old + 2 }
{
    let len = lane.len();
    let first = lane.look(0, tally);
    let last = lane.look(len - 1, tally);
    if first.tid.0 == last.tid.0 {
        Some(first.tid)
    } else {
        None
    }
}

// How many offers in the lane of heads can meet an offer of another thread in the other lane.
fn count_among(heads: &Lane, others: &Lane, tally: &mut Tally) -> usize
    requires sorted { Ascends before others.now.places }
    ensures count { result ≡ length (met_among Others others.now.places heads.now.places) }
    ensures cost { tally.new ≤ tally.old
        + 3 * (length heads.now.places + length others.now.places) }
{
    if others.len() == 0 {
        return 0;
    }
    match only_thread(others, tally) {
        Some(tid) => heads.others_count(PartnerThreads::Others(tid), tally),
        None => heads.len(),
    }
}

// The same, where the other lane is that of this slot.
fn count_beside(core: &IndexState, heads: &Lane, slot: Slot, tally: &mut Tally) -> usize
    requires { Ascends before (lane_at core.now.lanes slot) }
    ensures count { result
        ≡ length (met_among Others (lane_at core.now.lanes slot) heads.now.places) }
    ensures cost { tally.new ≤ tally.old
        + 3 * (length heads.now.places + length (lane_at core.now.lanes slot)) }
{
    match core.lanes.lane(slot) {
        Some(others) => count_among(heads, others, tally),
        None => 0,
    }
}

// How many offers on a swap channel are heads. (An offer is one if a higher thread has one there too.) One look at the last, and a search.
fn count_below(lane: &Lane, tally: &mut Tally) -> usize
    requires { Ascends before lane.now.places }
    ensures count { result ≡ length (met_among Above lane.now.places lane.now.places) }
    ensures cost { tally.new ≤ tally.old + 3 * length lane.now.places }
{
    let len = lane.len();
    if len == 0 {
        return 0;
    }
    let last = lane.look(len - 1, tally);
    lane.below_count(last.tid, tally)
}

// How many leaves on the object begin a row of two.
fn count_on(core: &IndexState, object: PairedId, tally: &mut Tally) -> usize
    requires { IsIndexed core.now }
    ensures count { result ≡ length (heads_on (offers_of core.now.entries.items) object) }
    ensures cost { tally.new ≤ tally.old
        + 3 * (length (lane_at core.now.lanes (Side true object))
        + length (lane_at core.now.lanes (Side false object))) }
{
    let slot = Slot::Side {
        heads: true,
        object,
    };
    match core.lanes.lane(slot) {
        Some(heads) => {
            if object.kind.one_lane() {
                count_below(heads, tally)
            } else {
                let others = Slot::Side {
                    heads: false,
                    object,
                };
                count_beside(core, heads, others, tally)
            }
        }
        None => 0,
    }
}

// How many leaves begin a row of two, as far as that is known without going through objects; and the place in the list of live objects from
// which on they are gone through for the rest. Where no thread may stand on both sides of one channel, each offer that can stand first on a
// live channel begins one, and how many these are is kept; the channels come first in the list.
fn kept_count(core: &IndexState) -> (usize, usize)
    requires { IsIndexed core.now }
    ensures { result.0 + head_total (offers_of core.now.entries.items) (drop result.1 (objects core.now.live))
        ≡ head_total (offers_of core.now.entries.items) (objects core.now.live) }
{
    // No effect: named here so that the prover knows what holds of them.
    let (_leaves, _live) = (core.leaves, core.live.len());
    let crossing = core.crossing;
    if crossing == 0 {
        (core.live.head_sum(), core.live.channel_len())
    } else {
        (0, 0)
    }
}

// How many leaves begin a row of two.
pub(crate) fn count_met(core: &IndexState, tally: &mut Tally) -> usize
    requires { IsIndexed core.now }
    ensures count { result
        ≡ length (filter (is_sought Met core.now.flags.entries (offers_of core.now.entries.items))
        (offers_of core.now.entries.items)) }
    ensures cost { tally.new ≤ tally.old + 3 * length (offers_of core.now.entries.items) }
{
    // No effect: named here so that the prover knows what holds of it.
    let _leaves = core.leaves;
    let (mut count, first) = kept_count(core);
    for i in first..core.live.len() {
        count += count_on(core, core.live.at(i), tally);
    }
    count
}
