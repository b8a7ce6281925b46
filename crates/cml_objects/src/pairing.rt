//! The kinds of objects over which two threads meet: channels and swap channels. What each kind decides stands in its `Paired`.

ghost use Rattle.std.specs.Prelude.{◌≡◌, true, if◌then◌else◌, option_map};
ghost use Rattle.cml_scan.specs.Scan.{meets, do_meet as do_meet_in_scan};
ghost use Rattle.cml_objects.specs.Handed.{handed};
ghost use Rattle.cml_objects.specs.Pairings as spec;

use crate::Paired;
use crate::channel::Channels;
use crate::lane::PartnerThreads;
use crate::swap::SwapChannels;
use cml_value::{Base, Tid, Value};

/// A kind of object over which two threads meet.
#[derive(Clone, Copy, PartialEq, Eq, Hash)]
pub enum PairedKind {
    /// A channel: a sender and a receiver meet.
    Channel,
    /// A swap channel: any two swaps meet.
    Swap,
}

/// An object over which two threads meet.
#[derive(Clone, Copy, PartialEq, Eq, Hash)]
pub struct PairedId {
    /// Its kind.
    pub kind: PairedKind,
    /// Its number among those of its kind.
    pub number: u32,
}

/// The place of an offer that can meet another one: an object, and one of its lanes.
#[derive(Clone, Copy)]
pub struct SidePlace {
    /// The object.
    pub object: PairedId,
    /// Whether the offer can be the head.
    pub heads: bool,
}

impl PairedKind {
    /// Whether all sides on an object of this kind are alike, so that any two of them meet.
    pub fn one_lane(self) -> bool
        ensures { result ≡ spec.one_lane self }
    {
        match self {
            PairedKind::Channel => Channels::ONE_LANE,
            PairedKind::Swap => SwapChannels::ONE_LANE,
        }
    }

    /// Whose offers can be partners of an offer of this thread that is the head. On a channel, those of all other
    /// threads. Where all sides are alike, only those of threads with a higher number: so each pair stands once, with
    /// the lower thread first.
    pub fn partner_threads(self, tid: Tid) -> PartnerThreads
        ensures { result ≡ spec.partner_threads self tid }
    {
        if self.one_lane() {
            PartnerThreads::Above(tid)
        } else {
            PartnerThreads::Others(tid)
        }
    }
}

// Where an offer of this base event stands, if the base event is one of this kind.
fn place_in<P: Paired>(kind: PairedKind, base: &Base) -> Option<SidePlace>
    ensures { result ≡ spec.placed kind P.key_of P.is_head (P.side_of base.now) }
{
    match P::place(base) {
        Some((number, heads)) => Some(SidePlace {
            object: PairedId { kind, number },
            heads,
        }),
        None => None,
    }
}

/// Where an offer of this base event stands. `None`: it is neither a send or a receive on a channel, nor a swap.
pub fn place(base: &Base) -> Option<SidePlace>
    ensures { result ≡ spec.side_place base.now }
{
    match place_in::<Channels>(PairedKind::Channel, base) {
        Some(place) => Some(place),
        None => place_in::<SwapChannels>(PairedKind::Swap, base),
    }
}

impl SidePlace {
    // Whether an offer here can meet one at the other place, as the head: it can be a head, both are on one object, and
    // the other stands where partners stand. On a channel partners are receivers, which are no heads. On a swap channel
    // all stand in one lane, and each can be a head.
    fn leads(&self, other: &SidePlace) -> bool
        ensures { result ≡ spec.leads self.now other.now }
    {
        self.heads && self.object == other.object && self.object.kind.one_lane() == other.heads
    }
}

/// Whether two leaves communicate, the first as the head: leaves of these threads that wait for these base events. The program does not call
/// this. For two given leaves it calls `do_meet` of `cml_index`, and it finds partners in lanes.
#[tactic(auto, using(crate::proofs::Pairs::do_meet_by_place))]
pub fn do_meet(head: Tid, first: &Base, other: Tid, second: &Base) -> bool
    ensures { result ≡ do_meet_in_scan head.0 first.now other.0 second.now }
{
    match (place(first), place(second)) {
        (Some(s), Some(t)) => s.leads(&t) && s.object.kind.partner_threads(head).is(other),
        _ => false,
    }
}

// What the two threads that meet over an object of this kind are given.
fn hands_in<P: Paired>(head: Base, other: Base) -> (Value, Value)
    requires { spec.do_meet_in P.do_meet (P.side_of head) (P.side_of other) ≡ true }
    ensures { spec.HandedIn P.handed (P.side_of head) (P.side_of other) result }
{
    match (P::side(head), P::side(other)) {
        (Some(first), Some(second)) => P::hands(first, second),
        _ => unreachable!(),
    }
}

/// What the threads of two base events that meet are given, the head's first: each gets what the other hands over.
pub fn hands(head: Base, other: Base) -> (Value, Value)
    requires { meets head other ≡ true }
    ensures { result ≡ (handed other, handed head) }
{
    match place(&head) {
        Some(place) => match place.object.kind {
            PairedKind::Channel => hands_in::<Channels>(head, other),
            PairedKind::Swap => hands_in::<SwapChannels>(head, other),
        },
        None => unreachable!(),
    }
}
