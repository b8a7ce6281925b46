//! The rows that one leaf begins, by the lane of those whom it meets.

ghost use Rattle.std.specs.Prelude.{◌≡◌, ◌≤◌, ◌<◌, ◌+◌, ◌*◌, ◌^◌, ℕ, [], ◌∷◌, map, length, slice_get, slice_index_or, Some, None, IfSome};
ghost use Rattle.cml_scan.specs.Scan.{scan_of, partners_of, offers_of, place_of};
ghost use Rattle.cml_objects.specs.Lanes.{those};
ghost use Rattle.cml_index.specs.{Heads.{pair_of}, Slots.{lane_of}, Waits.{rows_wait}, Cores.{IsIndexed}};
ghost use Rattle.cml_index.specs.Posts as spec;

use crate::flags::is_lit_by;
use crate::slot::{Slot, Wait, met_by};
use crate::state::{IndexState, wait_at};
use cml_objects::{Lane, PartnerThreads, Tally};
use cml_scan::{Meet, Place};

// How many offers in the lane are of threads that are meant (`partner_threads`).
fn others_count(
    core: &IndexState,
    slot: Slot,
    partner_threads: PartnerThreads,
    tally: &mut Tally,
) -> usize
    requires { IsIndexed core.now }
    ensures count { result ≡ length (those partner_threads
        (lane_of spec.slot_of slot (offers_of core.now.entries.items))) }
    ensures cost { (digits : ℕ) → spec.HasDigits core.now.entries.items digits →
        tally.new ≤ tally.old + 2 * digits }
{
    match core.lanes.lane(slot) {
        Some(lane) => lane.others_count(partner_threads, tally),
        None => 0,
    }
}

// The offer at this place among those in the lane that are of threads that are meant.
fn other_at(
    core: &IndexState,
    slot: Slot,
    partner_threads: PartnerThreads,
    j: usize,
    tally: &mut Tally,
) -> Place
    requires indexed { IsIndexed core.now }
    requires within { j < length (those partner_threads
        (lane_of spec.slot_of slot (offers_of core.now.entries.items))) }
    ensures value { slice_get (those partner_threads (lane_of spec.slot_of slot
        (offers_of core.now.entries.items))) j ≡ Some result }
    ensures cost { (digits : ℕ) → spec.HasDigits core.now.entries.items digits →
        tally.new ≤ tally.old + (2 * digits + 1) }
{
    match core.lanes.lane(slot) {
        Some(lane) => lane.other(partner_threads, j, tally),
        None => unreachable!(),
    }
}

// How many rows begin with the leaf, which waits for this.
fn count_at(core: &IndexState, head: Place, wait: Wait, tally: &mut Tally) -> usize
    requires { IsIndexed core.now }
    ensures count { result ≡ length (rows_wait (spec.told core.now.flags.entries)
        (offers_of core.now.entries.items) head wait) }
    ensures cost { (digits : ℕ) → spec.HasDigits core.now.entries.items digits →
        tally.new ≤ tally.old + (2 * digits + 1) }
{
    match met_by(wait, head.tid) {
        Some((slot, partner_threads)) => others_count(core, slot, partner_threads, tally),
        None => {
            if is_lit_by(&core.flags, wait, tally) {
                1
            } else {
                0
            }
        }
    }
}

// The row at this place among those that begin with the leaf, which waits for this.
fn row_at(core: &IndexState, head: Place, wait: Wait, j: usize, tally: &mut Tally) -> Meet
    requires indexed { IsIndexed core.now }
    requires within { j < length (rows_wait (spec.told core.now.flags.entries)
        (offers_of core.now.entries.items) head wait) }
    ensures value { slice_get (rows_wait (spec.told core.now.flags.entries)
        (offers_of core.now.entries.items) head wait) j ≡ Some result }
    ensures cost { (digits : ℕ) → spec.HasDigits core.now.entries.items digits →
        tally.new ≤ tally.old + (2 * digits + 1) }
{
    match met_by(wait, head.tid) {
        Some((slot, partner_threads)) => {
            let other = other_at(core, slot, partner_threads, j, tally);
            Meet::Pair {
                head: head.tid,
                head_leaf: head.leaf,
                other: other.tid,
                other_leaf: other.leaf,
            }
        }
        None => Meet::Single {
            tid: head.tid,
            leaf: head.leaf,
        },
    }
}

// The row of the leaf with this offer, if it is of a thread that is meant (`partner_threads`).
#[inline(always)]
fn row_with(head: Place, other: Place, partner_threads: PartnerThreads) -> Option<Meet>
    ensures place { IfSome result (λ row. place_of row ≡ head) }
    ensures only { IfSome result (λ row. map (pair_of head) (those partner_threads (other ∷ [])) ≡ row ∷ []) }
{
    if partner_threads.is(other.tid) {
        Some(Meet::Pair {
            head: head.tid,
            head_leaf: head.leaf,
            other: other.tid,
            other_leaf: other.leaf,
        })
    } else {
        None
    }
}

// The row of the leaf with the only offer in the lane, where there is only one and its thread is meant: one look.
#[inline(always)]
fn row_in(
    lane: &Lane,
    head: Place,
    partner_threads: PartnerThreads,
    tally: &mut Tally,
) -> Option<Meet>
    ensures place { IfSome result (λ row. place_of row ≡ head) }
    ensures only { IfSome result (λ row. map (pair_of head) (those partner_threads lane.now.places) ≡ row ∷ []) }
    ensures cost { tally.new ≤ tally.old + 1 }
{
    if lane.len() == 1 {
        let other = lane.look(0, tally);
        row_with(head, other, partner_threads)
    } else {
        None
    }
}

// The same in the lane of this slot.
#[inline(always)]
fn row_at_slot(
    core: &IndexState,
    head: Place,
    slot: Slot,
    partner_threads: PartnerThreads,
    tally: &mut Tally,
) -> Option<Meet>
    requires { IsIndexed core.now }
    ensures place { IfSome result (λ row. place_of row ≡ head) }
    ensures only { IfSome result (λ row. map (pair_of head) (those partner_threads
        (lane_of spec.slot_of slot (offers_of core.now.entries.items))) ≡ row ∷ []) }
    ensures cost { tally.new ≤ tally.old + 1 }
{
    match core.lanes.lane(slot) {
        Some(lane) => row_in(lane, head, partner_threads, tally),
        None => None,
    }
}

// The only row that begins with the leaf, which waits for this, where that is known by one look.
#[inline(always)]
fn only_row(core: &IndexState, head: Place, wait: Wait, tally: &mut Tally) -> Option<Meet>
    requires { IsIndexed core.now }
    ensures place { IfSome result (λ row. place_of row ≡ head) }
    ensures only { IfSome result (λ row. rows_wait (spec.told core.now.flags.entries)
        (offers_of core.now.entries.items) head wait ≡ row ∷ []) }
    ensures cost { tally.new ≤ tally.old + 1 }
{
    match met_by(wait, head.tid) {
        Some((slot, partner_threads)) => row_at_slot(core, head, slot, partner_threads, tally),
        None => {
            if is_lit_by(&core.flags, wait, tally) {
                Some(Meet::Single {
                    tid: head.tid,
                    leaf: head.leaf,
                })
            } else {
                None
            }
        }
    }
}

// The only row that begins with the head, where that is known by two looks.
pub(crate) fn only_row_of(core: &IndexState, head: Place, tally: &mut Tally) -> Option<Meet>
    requires { IsIndexed core.now }
    ensures place { IfSome result (λ row. place_of row ≡ head) }
    ensures only { IfSome result (λ row. partners_of
        (scan_of core.now.entries.items (spec.told core.now.flags.entries)) head ≡ row ∷ []) }
    ensures cost { tally.new ≤ tally.old + 2 }
{
    match wait_at(&core.entries, head, tally) {
        Some(wait) => only_row(core, head, wait, tally),
        None => None,
    }
}

// How many rows begin with the head.
pub(crate) fn partner_count(core: &IndexState, head: Place, tally: &mut Tally) -> usize
    requires { IsIndexed core.now }
    ensures count { result ≡ length (partners_of
        (scan_of core.now.entries.items (spec.told core.now.flags.entries)) head) }
    ensures cost { (digits : ℕ) → spec.HasDigits core.now.entries.items digits →
        tally.new ≤ tally.old + (2 * digits + 2) }
{
    match wait_at(&core.entries, head, tally) {
        Some(wait) => count_at(core, head, wait, tally),
        None => 0,
    }
}

// The row at this place among those that begin with the head.
pub(crate) fn partner(core: &IndexState, head: Place, j: usize, tally: &mut Tally) -> Meet
    requires indexed { IsIndexed core.now }
    requires within { j < length (partners_of
        (scan_of core.now.entries.items (spec.told core.now.flags.entries)) head) }
    ensures value { slice_get (partners_of
        (scan_of core.now.entries.items (spec.told core.now.flags.entries)) head) j ≡ Some result }
    ensures cost { (digits : ℕ) → spec.HasDigits core.now.entries.items digits →
        tally.new ≤ tally.old + (2 * digits + 2) }
{
    match wait_at(&core.entries, head, tally) {
        Some(wait) => row_at(core, head, wait, j, tally),
        None => unreachable!(),
    }
}
