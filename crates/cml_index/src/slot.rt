//! The lanes in which offers stand.

ghost use Rattle.std.specs.{Prelude.{◌≡◌, ℕ, length, map}, Option.{option_copied}};
ghost use Rattle.cml_index.specs.{Posts.{slot_of}, Stands.{side_row, light_spot, spot_of}, Slots.{is_slot, slot_leaves, slot_in}};
ghost use Rattle.cml_index.specs.Waits.{leaf_wait, met_slot, met_wait, meets_in};

use cml_objects::{PairedId, PairedKind, PartnerThreads, place};
use cml_scan::{Light, light};
use cml_value::{Base, BaseKind, Tid};

// A lane.
#[derive(Clone, Copy, PartialEq, Eq)]
pub(crate) enum Slot {
    // The offers on one object over which two threads meet: those that can be the head there, or those that cannot.
    Side { heads: bool, object: PairedId },
    // The offers that wait for the light.
    Waiters(Light),
}

// What a leaf waits for: it can always be taken, or never, or it stands in a lane.
#[derive(Clone, Copy)]
pub(crate) enum Wait {
    Always,
    Never,
    In(Slot),
}

impl Wait {
    // What a leaf of the base event waits for.
    pub(crate) fn of(base: &Base) -> Wait
        ensures { result ≡ leaf_wait base.now }
    {
        match Slot::of(base) {
            Some(slot) => Wait::In(slot),
            None => match base.kind() {
                BaseKind::Always(_) => Wait::Always,
                _ => Wait::Never,
            },
        }
    }

    // The lane in which the leaf stands, if it stands in one.
    pub(crate) fn slot(self) -> Option<Slot>
        ensures { result ≡ slot_in self }
    {
        match self {
            Wait::In(slot) => Some(slot),
            _ => None,
        }
    }

    // The same, where it is kept: no part of it is read before it is needed.
    #[inline(always)]
    pub(crate) fn slot_ref(&self) -> Option<&Slot>
        ensures { option_copied result ≡ slot_in self.now }
    {
        match self {
            Wait::In(slot) => Some(slot),
            _ => None,
        }
    }
}

// The kinds of lanes that are kept by a number. (The field `row` of `Spot`, and `row` and `row_mut` of `Lanes`, mean the list of the lanes
// of one kind, and no row of a table.)
#[derive(Clone, Copy)]
pub(crate) enum LaneKind {
    Senders,
    Receivers,
    Swappers,
    // The second list of swap channels: nobody ever stands in it, since all sides are alike.
    Swapped,
    IVars,
    MVars,
    Mailboxes,
    Ports,
    Joins,
    Nacks,
}

// Where a lane is kept: at a number among those of its kind, or under its tick.
#[derive(Clone, Copy)]
pub(crate) enum Spot {
    Listed { row: LaneKind, number: u32 },
    Tick(u64),
}

// In which list the lanes of one side of the objects of this kind are.
fn lane_kind_of(kind: PairedKind, heads: bool) -> LaneKind
    ensures { result ≡ side_row kind heads }
{
    match kind {
        PairedKind::Channel => {
            if heads {
                LaneKind::Senders
            } else {
                LaneKind::Receivers
            }
        }
        PairedKind::Swap => {
            if heads {
                LaneKind::Swappers
            } else {
                LaneKind::Swapped
            }
        }
    }
}

// Where the lane of those who wait for the light is kept.
pub(crate) fn spot_of_light(light: Light) -> Spot
    ensures { result ≡ light_spot light }
{
    let (row, number) = match light {
        Light::IVar(ivar) => (LaneKind::IVars, ivar.0),
        Light::MVar(mvar) => (LaneKind::MVars, mvar.0),
        Light::Mbox(mailbox) => (LaneKind::Mailboxes, mailbox.0),
        Light::Port(port) => (LaneKind::Ports, port.0),
        Light::Joined(thread) => (LaneKind::Joins, thread.0),
        Light::Nack(nack) => (LaneKind::Nacks, nack.0),
        Light::Alarm(tick) => return Spot::Tick(tick),
    };
    Spot::Listed { row, number }
}

impl Slot {
    // Where the lane is kept.
    pub(crate) fn spot(self) -> Spot
        ensures { result ≡ spot_of self }
    {
        match self {
            Slot::Side { heads, object } => Spot::Listed {
                row: lane_kind_of(object.kind, heads),
                number: object.number,
            },
            Slot::Waiters(light) => spot_of_light(light),
        }
    }

    // The lane in which an offer of the base event stands. One that is always enabled, or never, stands in none.
    pub(crate) fn of(base: &Base) -> Option<Slot>
        ensures { result ≡ slot_of base.now }
    {
        match place(base) {
            Some(side) => Some(Slot::Side {
                heads: side.heads,
                object: side.object,
            }),
            None => match light(base) {
                Some(light) => Some(Slot::Waiters(light)),
                None => None,
            },
        }
    }
}

// Whether the leaf stands in the slot.
fn stands_in(wait: Wait, slot: Slot) -> bool
    ensures { result ≡ is_slot slot (slot_in wait) }
{
    match wait.slot() {
        Some(own) => slot == own,
        None => false,
    }
}

// How many of these leaves stand in the slot.
pub(crate) fn count_in(waits: &[Wait], slot: Slot) -> usize
    ensures { result ≡ length (slot_leaves slot 0 (map slot_in waits.now)) }
{
    let mut count = 0;
    for wait in waits {
        if stands_in(*wait, slot) {
            count += 1;
        }
    }
    count
}

// If an offer of this thread in this lane can be a head: the lane in which its partners stand, and which threads' offers
// of that lane they are. On a channel it is the receivers' lane, and no receiver is a head. A swap channel has one lane
// for all, and each swap in it can be a head.
fn met_from(slot: Slot, tid: Tid) -> Option<(Slot, PartnerThreads)>
    ensures { result ≡ met_slot slot tid }
{
    match slot {
        Slot::Side { heads, object } => {
            if heads {
                let slot = Slot::Side {
                    heads: object.kind.one_lane(),
                    object,
                };
                Some((slot, object.kind.partner_threads(tid)))
            } else {
                None
            }
        }
        Slot::Waiters(_) => None,
    }
}

// The same for a leaf of this thread that waits for this. By this the rows are found among which a run picks.
pub(crate) fn met_by(wait: Wait, tid: Tid) -> Option<(Slot, PartnerThreads)>
    ensures { result ≡ met_wait wait tid }
{
    match wait {
        Wait::Always => None,
        Wait::Never => None,
        Wait::In(slot) => met_from(slot, tid),
    }
}

// Whether leaves of the two threads that wait for these communicate, the first as the head.
pub(crate) fn do_meet(head: Tid, first: Wait, other: Tid, second: Wait) -> bool
    ensures { (leaf : ℕ) → result
        ≡ meets_in (met_wait first head) (slot_in second) (record { tid = other; leaf = leaf }) }
{
    match met_by(first, head) {
        Some((slot, partner_threads)) => stands_in(second, slot) && partner_threads.is(other),
        None => false,
    }
}
