//! The leaves that begin a row: those that can be taken alone, and then those that have a partner.

ghost use Rattle.std.specs.{Prelude.{◌≡◌, ◌≤◌, ◌<◌, ◌+◌, ◌*◌, ℕ, length, filter, map, slice_get, Some}, List.{list_any}};
ghost use Rattle.cml_value.specs.{Group.{bases}, Value.{PlainBase}};
ghost use Rattle.cml_scan.specs.{Order.{before, place, has_partner}, Scan.{PlainOffer, scan_of, heads_of, offers_of, leaves_from}};
ghost use Rattle.cml_objects.specs.Lanes.{is_of};
ghost use Rattle.cml_index.specs.{declared.heads.HeadKind.TheVariants.{Met}, Slots.{lane_of}, Heads.{is_sought, IsSought, EndsThere}, Waits.{leaf_wait}};
ghost use Rattle.cml_index.specs.Cores.{IsIndexed};
ghost use Rattle.cml_index.specs.Posts as spec;

use crate::counts::count_met;
use crate::entry::Entry;
use crate::flags::is_lit_by;
use crate::one_object::head_on;
use crate::slot::{Slot, Wait, met_by};
use crate::state::IndexState;
use cml_objects::{PartnerThreads, Tally};
use cml_scan::Place;
use cml_value::Tid;

// Which leaves are sought.
#[derive(Clone, Copy)]
pub(crate) enum HeadKind {
    // Those that can be taken alone.
    Alone,
    // Those that have a partner.
    Met,
}

// The result of a search among some leaves.
#[derive(Clone, Copy)]
enum Sought {
    // The leaf at this place.
    Found(Place),
    // It is none of these leaves: this many more are to be passed over.
    Left(usize),
}

// Whether the lane has an offer of a thread that is meant (`partner_threads`).
fn has_other(
    core: &IndexState,
    slot: Slot,
    partner_threads: PartnerThreads,
    tally: &mut Tally,
) -> bool
    requires { IsIndexed core.now }
    ensures value { result ≡ list_any (is_of partner_threads)
        (lane_of spec.slot_of slot (offers_of core.now.entries.items)) }
    ensures cost { tally.new ≤ tally.old + 2 }
{
    match core.lanes.lane(slot) {
        Some(lane) => lane.has_other(partner_threads, tally),
        None => false,
    }
}

// Whether a leaf of the thread that waits for this has a partner, whatever its base event is.
fn is_met(core: &IndexState, tid: Tid, wait: Wait, tally: &mut Tally) -> bool
    requires { IsIndexed core.now }
    ensures value { (b : PlainBase) → leaf_wait b ≡ wait → (leaf : ℕ) → result
        ≡ has_partner (offers_of core.now.entries.items)
        (record { thread = tid.0; leaf = leaf; base = b }) }
    ensures cost { tally.new ≤ tally.old + 2 }
{
    match met_by(wait, tid) {
        Some((slot, partner_threads)) => has_other(core, slot, partner_threads, tally),
        None => false,
    }
}

// Whether a leaf of the thread that waits for this is one of those that are sought: it is looked at, and its light or two offers.
fn is_head(core: &IndexState, kind: HeadKind, tid: Tid, wait: Wait, tally: &mut Tally) -> bool
    requires { IsIndexed core.now }
    ensures value { (b : PlainBase) → leaf_wait b ≡ wait → (leaf : ℕ) → result
        ≡ is_sought kind core.now.flags.entries (offers_of core.now.entries.items)
        (record { thread = tid.0; leaf = leaf; base = b }) }
    ensures cost { tally.new ≤ tally.old + 3 }
{
    tally.add();
    match kind {
        HeadKind::Alone => is_lit_by(&core.flags, wait, tally),
        HeadKind::Met => is_met(core, tid, wait, tally),
    }
}

// Passes over this many of the leaves of the thread that are sought.
fn seek_in(core: &IndexState, kind: HeadKind, entry: &Entry, k: usize, tally: &mut Tally) -> Sought
    requires { IsIndexed core.now }
    ensures value { IsSought result k
        (filter (is_sought kind core.now.flags.entries (offers_of core.now.entries.items))
        (leaves_from entry.now.thread 0 (bases entry.now.group))) }
    ensures cost { tally.new ≤ tally.old + 3 * length (bases entry.now.group) }
    ensures early { EndsThere result entry.now tally.old tally.new }
{
    let mut left = k;
    for (leaf, wait) in entry.waits().iter().enumerate() {
        if is_head(core, kind, entry.tid(), *wait, tally) {
            if left == 0 {
                return Sought::Found(entry.place(leaf));
            }
            left -= 1;
        }
    }
    Sought::Left(left)
}

// The leaf at this place among those that are sought.
fn seek(core: &IndexState, kind: HeadKind, k: usize, tally: &mut Tally) -> Place
    requires indexed { IsIndexed core.now }
    requires within { k < length (filter
        (is_sought kind core.now.flags.entries (offers_of core.now.entries.items))
        (offers_of core.now.entries.items)) }
    ensures value { slice_get (map place (filter
        (is_sought kind core.now.flags.entries (offers_of core.now.entries.items))
        (offers_of core.now.entries.items))) k ≡ Some result }
    ensures cost { tally.new ≤ tally.old + 3 * length (offers_of core.now.entries.items) }
    ensures early { tally.new
        + 3 * length (filter (λ o. before result (place o)) (offers_of core.now.entries.items))
        ≤ tally.old + 3 * length (offers_of core.now.entries.items) }
{
    let mut left = k;
    let seats = core.entries.seats();
    for seat in seats {
        let Some(entry) = seat.entry() else { continue };
        match seek_in(core, kind, entry, left, tally) {
            Sought::Found(place) => return place,
            Sought::Left(more) => left = more,
        }
    }
    unreachable!()
}

// The leaf at this place among those that have a partner. Where all stand on one object, it is found in its lane.
fn head_met(core: &IndexState, k: usize, tally: &mut Tally) -> Place
    requires indexed { IsIndexed core.now }
    requires within { k < length (filter
        (is_sought Met core.now.flags.entries (offers_of core.now.entries.items))
        (offers_of core.now.entries.items)) }
    ensures value { slice_get (map place (filter
        (is_sought Met core.now.flags.entries (offers_of core.now.entries.items))
        (offers_of core.now.entries.items))) k ≡ Some result }
    ensures early { tally.new
        + 3 * length (filter (λ o. before result (place o)) (offers_of core.now.entries.items))
        ≤ tally.old + 3 * length (offers_of core.now.entries.items) }
{
    if core.live.len() == 1 {
        head_on(core, core.live.at(0), k, tally)
    } else {
        seek(core, HeadKind::Met, k, tally)
    }
}

// How many heads there are.
pub(crate) fn head_count(core: &IndexState, tally: &mut Tally) -> usize
    requires { IsIndexed core.now }
    ensures count { result ≡ length (heads_of
        (scan_of core.now.entries.items (spec.told core.now.flags.entries))) }
    ensures cost { tally.new ≤ tally.old + 3 * length (offers_of core.now.entries.items) }
{
    // No effect: named here so that the prover knows what holds of it.
    let _leaves = core.leaves;
    core.lit + count_met(core, tally)
}

// The head at this place in their order.
pub(crate) fn head(core: &IndexState, k: usize, tally: &mut Tally) -> Place
    requires indexed { IsIndexed core.now }
    requires within { k < length (heads_of
        (scan_of core.now.entries.items (spec.told core.now.flags.entries))) }
    ensures value { slice_get (heads_of
        (scan_of core.now.entries.items (spec.told core.now.flags.entries))) k ≡ Some result }
    ensures cost { tally.new ≤ tally.old + 3 * length (offers_of core.now.entries.items) }
    ensures early { tally.new
        + 3 * length (filter (λ o. before result (place o)) (offers_of core.now.entries.items))
        ≤ tally.old + 3 * length (offers_of core.now.entries.items) }
{
    if k < core.lit {
        seek(core, HeadKind::Alone, k, tally)
    } else {
        head_met(core, k - core.lit, tally)
    }
}
