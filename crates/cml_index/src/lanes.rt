//! The lanes in which the offers of pending threads stand, by the numbers of what they stand on.

ghost use Rattle.std.specs.Prelude.{◌≡◌, ◌≤◌, ◌<◌, ◌+◌, ◌*◌, ◌^◌, ℕ, [], ◌∷◌, ◌++◌, true, false, None, is_some, length, map, filter, OnOk, OnErr};
ghost use Rattle.std.specs.{Borrow.{sem}, Option.{option_copied}};
ghost use Rattle.cml_scan.specs.Order.{Every, Ascends, before};
ghost use Rattle.cml_objects.specs.{Lanes.{is_own, is_others, others, with_run}, declared.pairing.PairedKind.TheVariants.{Swap}};
ghost use Rattle.cml_index.specs.{declared.slot.Slot.{Slot}, declared.slot.Slot.TheVariants.{Side, Waiters}, Slot.{same_slot}, Slots.{slot_in}};
ghost use Rattle.cml_index.specs.Slots as spec;
ghost use Rattle.cml_index.specs.Stands as stands;

use crate::slot::{LaneKind, Slot, Spot, Wait, spot_of_light};
use crate::stand::{
    LaneState, Ticks, come_in, come_lone_in, come_lone_tick, come_tick, count_in, count_tick,
    forget_tick, forgo_in, forgo_tick, go_in, go_lone_in, go_lone_tick, go_tick, note_in,
    note_tick,
};
use cml_objects::{Lane, PairedId, PairedKind, Tally};
use cml_scan::Light;
use cml_value::Tid;
use indexmap::IndexMap;
use std::alloc::{AllocError, Global};

// The lanes: for each kind of object a list of them by the number of the object, two lists where two threads meet over it; and those of
// the ticks, of which there is no end, in a map. All sides of a swap channel are alike, so nobody stands in its second list.
pub(crate) struct Lanes {
    pub(crate) senders: Vec<LaneState>,
    pub(crate) receivers: Vec<LaneState>,
    pub(crate) swappers: Vec<LaneState>,
    pub(crate) swapped: Vec<LaneState>,
    pub(crate) ivars: Vec<LaneState>,
    pub(crate) mvars: Vec<LaneState>,
    pub(crate) mailboxes: Vec<LaneState>,
    pub(crate) ports: Vec<LaneState>,
    pub(crate) joins: Vec<LaneState>,
    pub(crate) nacks: Vec<LaneState>,
    pub(crate) ticks: Ticks,
}

// Written out, so that how the parts are dropped is proved once, and whoever drops one calls this.
impl Drop for Lanes {
    fn drop(self) {
        let Lanes {
            senders,
            receivers,
            swappers,
            swapped,
            ivars,
            mvars,
            mailboxes,
            ports,
            joins,
            nacks,
            ticks,
        } = self;
        drop(senders);
        drop(receivers);
        drop(swappers);
        drop(swapped);
        drop(ivars);
        drop(mvars);
        drop(mailboxes);
        drop(ports);
        drop(joins);
        drop(nacks);
        drop(ticks);
    }
}

impl Lanes {
    ghost use Rattle.cml_index.specs.Stands.{LendsRow};

    // No lane was made yet.
    pub(crate) fn new(alloc: Global) -> Lanes
        ensures { (k : Slot) → stands.stand_at result k ≡ None }
    {
        Lanes {
            senders: Vec::new(alloc),
            receivers: Vec::new(alloc),
            swappers: Vec::new(alloc),
            swapped: Vec::new(alloc),
            ivars: Vec::new(alloc),
            mvars: Vec::new(alloc),
            mailboxes: Vec::new(alloc),
            ports: Vec::new(alloc),
            joins: Vec::new(alloc),
            nacks: Vec::new(alloc),
            ticks: IndexMap::new(alloc),
        }
    }

    // The lanes of one kind.
    fn row(&self, row: LaneKind) -> &Vec<LaneState>
        ensures { result.now ≡ stands.lanes_in self.now row }
    {
        match row {
            LaneKind::Senders => &self.senders,
            LaneKind::Receivers => &self.receivers,
            LaneKind::Swappers => &self.swappers,
            LaneKind::Swapped => &self.swapped,
            LaneKind::IVars => &self.ivars,
            LaneKind::MVars => &self.mvars,
            LaneKind::Mailboxes => &self.mailboxes,
            LaneKind::Ports => &self.ports,
            LaneKind::Joins => &self.joins,
            LaneKind::Nacks => &self.nacks,
        }
    }

    // The lanes of one kind, to change them.
    #[inline(always)]
    fn row_mut(&mut self, row: LaneKind) -> &mut Vec<LaneState>
        ensures* writes_back { sem 𝓛 (LendsRow self.entry row result) }
        ensures value { result.now ≡ stands.lanes_in self.old row }
    {
        match row {
            LaneKind::Senders => &mut self.senders,
            LaneKind::Receivers => &mut self.receivers,
            LaneKind::Swappers => &mut self.swappers,
            LaneKind::Swapped => &mut self.swapped,
            LaneKind::IVars => &mut self.ivars,
            LaneKind::MVars => &mut self.mvars,
            LaneKind::Mailboxes => &mut self.mailboxes,
            LaneKind::Ports => &mut self.ports,
            LaneKind::Joins => &mut self.joins,
            LaneKind::Nacks => &mut self.nacks,
        }
    }

    // The lanes of one side of the objects of one kind.
    #[inline(always)]
    fn side(&self, kind: PairedKind, heads: bool) -> &Vec<LaneState>
        ensures { result.now ≡ stands.lanes_in self.now (stands.side_row kind heads) }
    {
        match kind {
            PairedKind::Channel => {
                if heads {
                    &self.senders
                } else {
                    &self.receivers
                }
            }
            PairedKind::Swap => { if heads { &self.swappers } else { &self.swapped } }
        }
    }

    // The lanes of one side of the objects of one kind, to change them. Most are those of channels.
    #[inline(always)]
    fn side_mut(&mut self, kind: PairedKind, heads: bool) -> &mut Vec<LaneState>
        ensures* writes_back { sem 𝓛 (LendsRow self.entry (stands.side_row kind heads) result) }
        ensures value { result.now ≡ stands.lanes_in self.old (stands.side_row kind heads) }
    {
        match kind {
            PairedKind::Channel => {
                if heads {
                    &mut self.senders
                } else {
                    &mut self.receivers
                }
            }
            PairedKind::Swap => self.swap_mut(heads),
        }
    }

    // Those of the swap channels, in a function of its own.
    #[inline(never)]
    fn swap_mut(&mut self, heads: bool) -> &mut Vec<LaneState>
        ensures* writes_back { sem 𝓛 (LendsRow self.entry (stands.side_row Swap heads) result) }
        ensures value { result.now ≡ stands.lanes_in self.old (stands.side_row Swap heads) }
    {
        if heads {
            &mut self.swappers
        } else {
            &mut self.swapped
        }
    }

    // What stands in the slot, if it was made.
    #[inline(always)]
    pub(crate) fn stand(&self, slot: Slot) -> Option<&LaneState>
        ensures { option_copied result ≡ stands.stand_at self.now slot }
    {
        match slot {
            Slot::Side { heads, object } => {
                self.side(object.kind, heads).get(object.number as usize)
            }
            Slot::Waiters(light) => self.stand_of(light),
        }
    }

    // The same for those who wait for the light, in a function of its own, since most leaves wait at channels.
    #[inline(never)]
    fn stand_of(&self, light: Light) -> Option<&LaneState>
        ensures { option_copied result ≡ stands.stand_at self.now (Waiters light) }
    {
        match spot_of_light(light) {
            Spot::Listed { row, number } => self.row(row).get(number as usize),
            Spot::Tick(tick) => self.ticks.get(&tick),
        }
    }

    // The lane of the slot, if it was made.
    #[inline(always)]
    pub(crate) fn lane(&self, slot: Slot) -> Option<&Lane>
        ensures { stands.of_lane (option_copied result) ≡ spec.lane_at self.now slot }
    {
        match self.stand(slot) {
            Some(stand) => Some(&stand.lane),
            None => None,
        }
    }

    // How many offers stand on one side of the object.
    #[inline(always)]
    pub(crate) fn side_len(&self, object: PairedId, heads: bool) -> usize
        ensures { result ≡ length (spec.lane_at self.now (Side heads object)) }
    {
        match self.side(object.kind, heads).get(object.number as usize) {
            Some(stand) => stand.lane.len(),
            None => 0,
        }
    }

    // How many offers stand in the lane.
    #[inline(always)]
    pub(crate) fn len(&self, slot: Slot) -> usize
        ensures { result ≡ length (spec.lane_at self.now slot) }
    {
        match self.stand(slot) {
            Some(stand) => stand.lane.len(),
            None => 0,
        }
    }

    // Notes at the lane that the leaf is to come. The lane is made, if it is not there yet.
    fn note(&mut self, alloc: Global, slot: &Slot, leaf: u32) -> Result<(), AllocError>
        ensures here { stands.IsNoted result leaf (stands.stand_at self.old slot.now) (stands.stand_at self.new slot.now) }
        ensures elsewhere { (k : Slot) → same_slot k slot.now ≡ false →
            stands.IsAlike (stands.stand_at self.new k) (stands.stand_at self.old k) }
    {
        match slot {
            Slot::Side { heads, object } => note_in(
                self.side_mut(object.kind, *heads),
                alloc,
                object.number as usize,
                leaf,
            ),
            Slot::Waiters(light) => self.note_waiter(alloc, light, leaf),
        }
    }

    // The same at the lane of those who wait for the light.
    #[inline(never)]
    fn note_waiter(&mut self, alloc: Global, light: &Light, leaf: u32) -> Result<(), AllocError>
        ensures here { stands.IsNoted result leaf (stands.stand_at self.old (Waiters light.now))
            (stands.stand_at self.new (Waiters light.now)) }
        ensures elsewhere { (k : Slot) → same_slot k (Waiters light.now) ≡ false →
            stands.IsAlike (stands.stand_at self.new k) (stands.stand_at self.old k) }
    {
        match spot_of_light(*light) {
            Spot::Listed { row, number } => {
                note_in(self.row_mut(row), alloc, number as usize, leaf)
            }
            Spot::Tick(tick) => note_tick(&mut self.ticks, alloc, tick, leaf),
        }
    }

    // Notes that the leaf is to come to the lane, if it waits in one.
    fn note_of(&mut self, alloc: Global, slot: Option<&Slot>, leaf: u32) -> Result<(), AllocError>
        ensures same { (k : Slot) → spec.lane_at self.new k ≡ spec.lane_at self.old k }
        ensures going { (k : Slot) → spec.going_at self.new k ≡ spec.going_at self.old k }
        ensures kept { (k : Slot) → spec.room_at self.old k ≤ spec.room_at self.new k }
        ensures here { OnOk result ((k : Slot) → spec.is_slot k (option_copied slot.entry) ≡ true →
            (spec.late_at self.new k ≡ spec.late_at self.old k ++ leaf ∷ [])
            × (length (spec.late_at self.new k) ≤ spec.room_at self.new k)) }
        ensures elsewhere { (k : Slot) → spec.is_slot k (option_copied slot.entry) ≡ false →
            spec.late_at self.new k ≡ spec.late_at self.old k }
        ensures none { OnErr result ((k : Slot) → spec.late_at self.new k ≡ spec.late_at self.old k) }
    {
        match slot {
            Some(slot) => self.note(alloc, slot, leaf),
            None => Ok(()),
        }
    }

    // Puts into the lane the leaves that were noted there.
    fn come_at(&mut self, slot: &Slot, tid: Tid, tally: &mut Tally)
        requires { stands.CanCome tid (stands.stand_at self.old slot.now) }
        ensures here { stands.HasCome tid (stands.stand_at self.old slot.now) (stands.stand_at self.new slot.now) }
        ensures elsewhere { (k : Slot) → same_slot k slot.now ≡ false →
            stands.stand_at self.new k ≡ stands.stand_at self.old k }
        ensures cost { (digits : ℕ) → stands.ComesWithin digits (stands.stand_at self.old slot.now) →
            tally.new ≤ tally.old + digits }
    {
        match slot {
            Slot::Side { heads, object } => come_in(
                self.side_mut(object.kind, *heads),
                object.number as usize,
                tid,
                tally,
            ),
            Slot::Waiters(light) => self.come_waiter(light, tid, tally),
        }
    }

    // The same at the lane of those who wait for the light.
    #[inline(never)]
    fn come_waiter(&mut self, light: &Light, tid: Tid, tally: &mut Tally)
        requires { stands.CanCome tid (stands.stand_at self.old (Waiters light.now)) }
        ensures here { stands.HasCome tid (stands.stand_at self.old (Waiters light.now))
            (stands.stand_at self.new (Waiters light.now)) }
        ensures elsewhere { (k : Slot) → same_slot k (Waiters light.now) ≡ false →
            stands.stand_at self.new k ≡ stands.stand_at self.old k }
        ensures cost { (digits : ℕ) → stands.ComesWithin digits (stands.stand_at self.old (Waiters light.now)) →
            tally.new ≤ tally.old + digits }
    {
        match spot_of_light(*light) {
            Spot::Listed { row, number } => {
                come_in(self.row_mut(row), number as usize, tid, tally)
            }
            Spot::Tick(tick) => come_tick(&mut self.ticks, tick, tid, tally),
        }
    }

    // Forgets the leaves that were noted at the lane.
    fn forgo_at(&mut self, slot: Slot)
        ensures here { stands.HasForgone (stands.stand_at self.old slot) (stands.stand_at self.new slot) }
        ensures elsewhere { (k : Slot) → same_slot k slot ≡ false →
            stands.stand_at self.new k ≡ stands.stand_at self.old k }
    {
        match slot.spot() {
            Spot::Listed { row, number } => forgo_in(self.row_mut(row), number as usize),
            Spot::Tick(tick) => forgo_tick(&mut self.ticks, tick),
        }
    }

    // Counts at the lane, if it was made, one more leaf that is to go.
    fn count_at(&mut self, slot: &Slot)
        requires { stands.going_in (stands.stand_at self.old slot.now) < 18446744073709551615 }
        ensures here { stands.CountsOneMore (stands.stand_at self.old slot.now) (stands.stand_at self.new slot.now) }
        ensures elsewhere { (k : Slot) → same_slot k slot.now ≡ false →
            stands.stand_at self.new k ≡ stands.stand_at self.old k }
    {
        match slot {
            Slot::Side { heads, object } => {
                count_in(self.side_mut(object.kind, *heads), object.number as usize)
            }
            Slot::Waiters(light) => self.count_waiter(light),
        }
    }

    // The same at the lane of those who wait for the light.
    #[inline(never)]
    fn count_waiter(&mut self, light: &Light)
        requires { stands.going_in (stands.stand_at self.old (Waiters light.now)) < 18446744073709551615 }
        ensures here { stands.CountsOneMore (stands.stand_at self.old (Waiters light.now))
            (stands.stand_at self.new (Waiters light.now)) }
        ensures elsewhere { (k : Slot) → same_slot k (Waiters light.now) ≡ false →
            stands.stand_at self.new k ≡ stands.stand_at self.old k }
    {
        match spot_of_light(*light) {
            Spot::Listed { row, number } => count_in(self.row_mut(row), number as usize),
            Spot::Tick(tick) => count_tick(&mut self.ticks, tick),
        }
    }

    // Takes out of the lane the leaves that were counted there.
    fn go_at(&mut self, slot: &Slot, tid: Tid, tally: &mut Tally)
        requires { stands.CanGo tid (stands.stand_at self.old slot.now) }
        ensures here { stands.HasGone tid (stands.stand_at self.old slot.now) (stands.stand_at self.new slot.now) }
        ensures elsewhere { (k : Slot) → same_slot k slot.now ≡ false →
            stands.stand_at self.new k ≡ stands.stand_at self.old k }
        ensures cost { (digits : ℕ) → stands.GoesWithin digits (stands.stand_at self.old slot.now) →
            tally.new ≤ tally.old + digits }
    {
        match slot {
            Slot::Side { heads, object } => go_in(
                self.side_mut(object.kind, *heads),
                object.number as usize,
                tid,
                tally,
            ),
            Slot::Waiters(light) => self.go_waiter(light, tid, tally),
        }
    }

    // The same at the lane of those who wait for the light.
    #[inline(never)]
    fn go_waiter(&mut self, light: &Light, tid: Tid, tally: &mut Tally)
        requires { stands.CanGo tid (stands.stand_at self.old (Waiters light.now)) }
        ensures here { stands.HasGone tid (stands.stand_at self.old (Waiters light.now))
            (stands.stand_at self.new (Waiters light.now)) }
        ensures elsewhere { (k : Slot) → same_slot k (Waiters light.now) ≡ false →
            stands.stand_at self.new k ≡ stands.stand_at self.old k }
        ensures cost { (digits : ℕ) → stands.GoesWithin digits (stands.stand_at self.old (Waiters light.now)) →
            tally.new ≤ tally.old + digits }
    {
        match spot_of_light(*light) {
            Spot::Listed { row, number } => go_in(self.row_mut(row), number as usize, tid, tally),
            Spot::Tick(tick) => go_tick(&mut self.ticks, tick, tid, tally),
        }
    }

    // Puts the only leaf of the thread into the lane, which is made if it is not there yet. Out of memory: no offer is there that was not.
    #[inline(always)]
    fn come_lone_at(
        &mut self,
        alloc: Global,
        slot: &Slot,
        tid: Tid,
        tally: &mut Tally,
    ) -> Result<(), AllocError>
        requires { Every (is_others tid) (spec.lane_at self.old slot.now) }
        ensures here { stands.ComesLone result tid (stands.stand_at self.old slot.now) (stands.stand_at self.new slot.now) }
        ensures elsewhere { (k : Slot) → same_slot k slot.now ≡ false →
            stands.IsAlike (stands.stand_at self.new k) (stands.stand_at self.old k) }
        ensures cost { (digits : ℕ) → length (spec.lane_at self.old slot.now) < 2 ^ digits →
            tally.new ≤ tally.old + digits }
        ensures still { OnErr result (tally.new ≡ tally.old) }
    {
        match slot {
            Slot::Side { heads, object } => come_lone_in(
                self.side_mut(object.kind, *heads),
                alloc,
                object.number as usize,
                tid,
                tally,
            ),
            Slot::Waiters(light) => self.come_lone_waiter(alloc, light, tid, tally),
        }
    }

    // The same at the lane of those who wait for the light.
    #[inline(never)]
    fn come_lone_waiter(
        &mut self,
        alloc: Global,
        light: &Light,
        tid: Tid,
        tally: &mut Tally,
    ) -> Result<(), AllocError>
        requires { Every (is_others tid) (spec.lane_at self.old (Waiters light.now)) }
        ensures here { stands.ComesLone result tid (stands.stand_at self.old (Waiters light.now))
            (stands.stand_at self.new (Waiters light.now)) }
        ensures elsewhere { (k : Slot) → same_slot k (Waiters light.now) ≡ false →
            stands.IsAlike (stands.stand_at self.new k) (stands.stand_at self.old k) }
        ensures cost { (digits : ℕ) → length (spec.lane_at self.old (Waiters light.now)) < 2 ^ digits →
            tally.new ≤ tally.old + digits }
        ensures still { OnErr result (tally.new ≡ tally.old) }
    {
        match spot_of_light(*light) {
            Spot::Listed { row, number } => {
                come_lone_in(self.row_mut(row), alloc, number as usize, tid, tally)
            }
            Spot::Tick(tick) => come_lone_tick(&mut self.ticks, alloc, tick, tid, tally),
        }
    }

    // Takes the only leaf of the thread out of the lane.
    #[inline(always)]
    fn go_lone_at(&mut self, slot: &Slot, tid: Tid, tally: &mut Tally)
        requires { length (filter (is_own tid) (spec.lane_at self.old slot.now)) ≡ 1 }
        ensures here { stands.GoesLone tid (stands.stand_at self.old slot.now) (stands.stand_at self.new slot.now) }
        ensures elsewhere { (k : Slot) → same_slot k slot.now ≡ false →
            stands.stand_at self.new k ≡ stands.stand_at self.old k }
        ensures cost { (digits : ℕ) → length (spec.lane_at self.old slot.now) < 2 ^ digits → tally.new ≤ tally.old + digits }
    {
        match slot {
            Slot::Side { heads, object } => go_lone_in(
                self.side_mut(object.kind, *heads),
                object.number as usize,
                tid,
                tally,
            ),
            Slot::Waiters(light) => self.go_lone_waiter(light, tid, tally),
        }
    }

    // The same at the lane of those who wait for the light.
    #[inline(never)]
    fn go_lone_waiter(&mut self, light: &Light, tid: Tid, tally: &mut Tally)
        requires { length (filter (is_own tid) (spec.lane_at self.old (Waiters light.now))) ≡ 1 }
        ensures here { stands.GoesLone tid (stands.stand_at self.old (Waiters light.now))
            (stands.stand_at self.new (Waiters light.now)) }
        ensures elsewhere { (k : Slot) → same_slot k (Waiters light.now) ≡ false →
            stands.stand_at self.new k ≡ stands.stand_at self.old k }
        ensures cost { (digits : ℕ) → length (spec.lane_at self.old (Waiters light.now)) < 2 ^ digits →
            tally.new ≤ tally.old + digits }
    {
        match spot_of_light(*light) {
            Spot::Listed { row, number } => go_lone_in(
                self.row_mut(row),
                number as usize,
                tid,
                tally,
            ),
            Spot::Tick(tick) => go_lone_tick(&mut self.ticks, tick, tid, tally),
        }
    }

    // Puts the noted leaves into the lane, if there is one.
    fn come_of(&mut self, slot: Option<&Slot>, tid: Tid, tally: &mut Tally)
        requires { (k : Slot) → spec.is_slot k (option_copied slot) ≡ true → stands.CanCome tid (stands.stand_at self.old k) }
        ensures here { (k : Slot) → spec.is_slot k (option_copied slot.entry) ≡ true →
            stands.HasCome tid (stands.stand_at self.old k) (stands.stand_at self.new k) }
        ensures elsewhere { (k : Slot) → spec.is_slot k (option_copied slot.entry) ≡ false →
            stands.stand_at self.new k ≡ stands.stand_at self.old k }
        ensures cost { (digits : ℕ) → ((k : Slot) → spec.is_slot k (option_copied slot.entry) ≡ true →
            stands.ComesWithin digits (stands.stand_at self.old k)) → tally.new ≤ tally.old + digits }
    {
        if let Some(slot) = slot {
            self.come_at(slot, tid, tally);
        }
    }

    // Forgets the noted leaves of the lane, if there is one.
    fn forgo_of(&mut self, slot: Option<Slot>)
        ensures here { (k : Slot) → spec.is_slot k slot ≡ true →
            stands.HasForgone (stands.stand_at self.old k) (stands.stand_at self.new k) }
        ensures elsewhere { (k : Slot) → spec.is_slot k slot ≡ false →
            stands.stand_at self.new k ≡ stands.stand_at self.old k }
    {
        if let Some(slot) = slot {
            self.forgo_at(slot);
        }
    }

    // Counts one more leaf that is to go from the lane, if there is one.
    fn count_of(&mut self, slot: Option<&Slot>)
        requires { (k : Slot) → spec.is_slot k (option_copied slot) ≡ true → stands.going_in (stands.stand_at self.old k) < 18446744073709551615 }
        ensures here { (k : Slot) → spec.is_slot k (option_copied slot.entry) ≡ true →
            stands.CountsOneMore (stands.stand_at self.old k) (stands.stand_at self.new k) }
        ensures elsewhere { (k : Slot) → spec.is_slot k (option_copied slot.entry) ≡ false →
            stands.stand_at self.new k ≡ stands.stand_at self.old k }
    {
        if let Some(slot) = slot {
            self.count_at(slot);
        }
    }

    // Takes the counted leaves out of the lane, if there is one.
    fn go_of(&mut self, slot: Option<&Slot>, tid: Tid, tally: &mut Tally)
        requires { (k : Slot) → spec.is_slot k (option_copied slot) ≡ true → stands.CanGo tid (stands.stand_at self.old k) }
        ensures here { (k : Slot) → spec.is_slot k (option_copied slot.entry) ≡ true →
            stands.HasGone tid (stands.stand_at self.old k) (stands.stand_at self.new k) }
        ensures elsewhere { (k : Slot) → spec.is_slot k (option_copied slot.entry) ≡ false →
            stands.stand_at self.new k ≡ stands.stand_at self.old k }
        ensures cost { (digits : ℕ) → ((k : Slot) → spec.is_slot k (option_copied slot.entry) ≡ true →
            stands.GoesWithin digits (stands.stand_at self.old k)) → tally.new ≤ tally.old + digits }
    {
        if let Some(slot) = slot {
            self.go_at(slot, tid, tally);
        }
    }

    // Removes the lane of a tick, if nobody stands in it.
    pub(crate) fn forget(&mut self, tick: u64)
        requires idle { (k : Slot) → spec.late_at self.old k ≡ [] }
        requires still { (k : Slot) → spec.going_at self.old k ≡ 0 }
        ensures { (k : Slot) → stands.IsLike (stands.stand_at self.new k) (stands.stand_at self.old k) }
    {
        if self.len(Slot::Waiters(Light::Alarm(tick))) == 0 {
            forget_tick(&mut self.ticks, tick);
        }
    }

    // Notes these leaves, which are to come, at their lanes, and makes room for them.
    fn note_all(&mut self, alloc: Global, waits: &[Wait]) -> Result<(), AllocError>
        requires small { length waits.now < 4294967296 }
        requires idle { (k : Slot) → spec.late_at self.old k ≡ [] }
        ensures same { (k : Slot) → spec.lane_at self.new k ≡ spec.lane_at self.old k }
        ensures going { (k : Slot) → spec.going_at self.new k ≡ spec.going_at self.old k }
        ensures kept { (k : Slot) → spec.room_at self.old k ≤ spec.room_at self.new k }
        ensures late { OnOk result ((k : Slot) → spec.late_at self.new k
            ≡ spec.slot_leaves k 0 (map slot_in waits.now)) }
        ensures room { OnOk result ((k : Slot) →
            length (spec.late_at self.new k) ≤ spec.room_at self.new k) }
        ensures only { (k : Slot) → spec.has_slot k (map slot_in waits.now) ≡ false →
            spec.late_at self.new k ≡ [] }
    {
        for (leaf, wait) in waits.iter().enumerate() {
            self.note_of(alloc, wait.slot_ref(), leaf as u32)?;
        }
        Ok(())
    }

    // Puts these leaves of the thread, which were noted, into their lanes.
    pub(crate) fn come(&mut self, tid: Tid, waits: &[Wait], tally: &mut Tally)
        requires late { (k : Slot) → spec.late_at self.old k
            ≡ spec.slot_leaves k 0 (map slot_in waits.now) }
        requires room { (k : Slot) → length (spec.late_at self.old k) ≤ spec.room_at self.old k }
        requires sorted { (k : Slot) → Ascends before (spec.lane_at self.old k) }
        requires new { (k : Slot) → Every (is_others tid) (spec.lane_at self.old k) }
        ensures lanes { (k : Slot) → spec.lane_at self.new k
            ≡ with_run tid (spec.slot_leaves k 0 (map slot_in waits.now)) (spec.lane_at self.old k) }
        ensures late { (k : Slot) → spec.late_at self.new k ≡ [] }
        ensures going { (k : Slot) → spec.going_at self.new k ≡ spec.going_at self.old k }
        ensures cost { (digits : ℕ) → spec.HaveDigits self.old digits →
            tally.new ≤ tally.old + length waits.now * digits }
    {
        for wait in waits {
            self.come_of(wait.slot_ref(), tid, tally);
        }
    }

    // Forgets these leaves, which were noted.
    fn forgo(&mut self, waits: &[Wait])
        requires { (k : Slot) → spec.has_slot k (map slot_in waits.now) ≡ false → spec.late_at self.old k ≡ [] }
        ensures same { (k : Slot) → spec.lane_at self.new k ≡ spec.lane_at self.old k }
        ensures late { (k : Slot) → spec.late_at self.new k ≡ [] }
        ensures going { (k : Slot) → spec.going_at self.new k ≡ spec.going_at self.old k }
    {
        for wait in waits {
            self.forgo_of(wait.slot());
        }
    }

    // Makes room for these leaves, and notes that they are to come. Out of memory: none is noted.
    pub(crate) fn make_room(&mut self, alloc: Global, waits: &[Wait]) -> Result<(), AllocError>
        requires small { length waits.now < 4294967296 }
        requires idle { (k : Slot) → spec.late_at self.old k ≡ [] }
        ensures same { (k : Slot) → spec.lane_at self.new k ≡ spec.lane_at self.old k }
        ensures going { (k : Slot) → spec.going_at self.new k ≡ spec.going_at self.old k }
        ensures late { OnOk result ((k : Slot) → spec.late_at self.new k
            ≡ spec.slot_leaves k 0 (map slot_in waits.now)) }
        ensures room { OnOk result ((k : Slot) →
            length (spec.late_at self.new k) ≤ spec.room_at self.new k) }
        ensures none { OnErr result ((k : Slot) → spec.late_at self.new k ≡ []) }
    {
        match self.note_all(alloc, waits) {
            Ok(()) => Ok(()),
            Err(error) => {
                self.forgo(waits);
                Err(error)
            }
        }
    }

    // Counts these leaves, which are to go, at their lanes, as far as these were made.
    fn count(&mut self, waits: &[Wait])
        requires idle { (k : Slot) → spec.going_at self.old k ≡ 0 }
        ensures same { (k : Slot) → spec.lane_at self.new k ≡ spec.lane_at self.old k }
        ensures late { (k : Slot) → spec.late_at self.new k ≡ spec.late_at self.old k }
        ensures room { (k : Slot) → spec.room_at self.new k ≡ spec.room_at self.old k }
        ensures going { (k : Slot) → 0 < spec.going_at self.new k →
            spec.going_at self.new k ≡ length (spec.slot_leaves k 0 (map slot_in waits.now)) }
        ensures made { (k : Slot) → 0 < length (spec.lane_at self.old k) →
            spec.going_at self.new k ≡ length (spec.slot_leaves k 0 (map slot_in waits.now)) }
    {
        for wait in waits {
            self.count_of(wait.slot_ref());
        }
    }

    // Puts the only leaf of the thread, which waits for this, into its lane, if it waits in one. Out of memory: no offer is there that was not.
    #[inline(always)]
    pub(crate) fn come_lone(
        &mut self,
        alloc: Global,
        tid: Tid,
        wait: &Wait,
        tally: &mut Tally,
    ) -> Result<(), AllocError>
        requires sorted { (k : Slot) → Ascends before (spec.lane_at self.old k) }
        requires new { (k : Slot) → Every (is_others tid) (spec.lane_at self.old k) }
        ensures lanes { OnOk result ((k : Slot) → spec.lane_at self.new k
            ≡ with_run tid (spec.slot_leaves k 0 (slot_in wait.now ∷ [])) (spec.lane_at self.old k)) }
        ensures none { OnErr result ((k : Slot) → spec.lane_at self.new k ≡ spec.lane_at self.old k) }
        ensures late { (k : Slot) → spec.late_at self.new k ≡ spec.late_at self.old k }
        ensures going { (k : Slot) → spec.going_at self.new k ≡ spec.going_at self.old k }
        ensures cost { (digits : ℕ) → spec.HaveDigits self.old digits → tally.new ≤ tally.old + digits }
        ensures still { OnErr result (tally.new ≡ tally.old) }
    {
        match wait.slot_ref() {
            Some(slot) => self.come_lone_at(alloc, slot, tid, tally),
            None => Ok(()),
        }
    }

    // Takes the only leaf of the thread, which waits for this, out of its lane, if it stands in one.
    #[inline(always)]
    fn go_lone(&mut self, tid: Tid, wait: &Wait, tally: &mut Tally)
        requires idle { (k : Slot) → spec.going_at self.old k ≡ 0 }
        requires all { (k : Slot) → length (spec.slot_leaves k 0 (slot_in wait.now ∷ []))
            ≡ length (filter (is_own tid) (spec.lane_at self.old k)) }
        ensures lanes { (k : Slot) → spec.lane_at self.new k
            ≡ others tid (spec.lane_at self.old k) }
        ensures late { (k : Slot) → spec.late_at self.new k ≡ spec.late_at self.old k }
        ensures room { (k : Slot) → spec.room_at self.old k ≤ spec.room_at self.new k }
        ensures going { (k : Slot) → spec.going_at self.new k ≡ 0 }
        ensures cost { (digits : ℕ) → spec.HaveDigits self.old digits → tally.new ≤ tally.old + digits }
    {
        match wait.slot_ref() {
            Some(slot) => self.go_lone_at(slot, tid, tally),
            None => {}
        }
    }

    // Takes these leaves of the thread, which are all its offers, out of their lanes.
    pub(crate) fn go(&mut self, tid: Tid, waits: &[Wait], tally: &mut Tally)
        requires idle { (k : Slot) → spec.going_at self.old k ≡ 0 }
        requires all { (k : Slot) → length (spec.slot_leaves k 0 (map slot_in waits.now))
            ≡ length (filter (is_own tid) (spec.lane_at self.old k)) }
        ensures lanes { (k : Slot) → spec.lane_at self.new k
            ≡ others tid (spec.lane_at self.old k) }
        ensures late { (k : Slot) → spec.late_at self.new k ≡ spec.late_at self.old k }
        ensures room { (k : Slot) → spec.room_at self.old k ≤ spec.room_at self.new k }
        ensures going { (k : Slot) → spec.going_at self.new k ≡ 0 }
        ensures cost { (digits : ℕ) → spec.HaveDigits self.old digits →
            tally.new ≤ tally.old + length waits.now * digits }
    {
        match waits {
            [wait] => self.go_lone(tid, wait, tally),
            _ => self.go_many(tid, waits, tally),
        }
    }

    // The same, however many they are.
    #[inline(never)]
    fn go_many(&mut self, tid: Tid, waits: &[Wait], tally: &mut Tally)
        requires idle { (k : Slot) → spec.going_at self.old k ≡ 0 }
        requires all { (k : Slot) → length (spec.slot_leaves k 0 (map slot_in waits.now))
            ≡ length (filter (is_own tid) (spec.lane_at self.old k)) }
        ensures lanes { (k : Slot) → spec.lane_at self.new k
            ≡ others tid (spec.lane_at self.old k) }
        ensures late { (k : Slot) → spec.late_at self.new k ≡ spec.late_at self.old k }
        ensures room { (k : Slot) → spec.room_at self.old k ≤ spec.room_at self.new k }
        ensures going { (k : Slot) → spec.going_at self.new k ≡ 0 }
        ensures cost { (digits : ℕ) → spec.HaveDigits self.old digits →
            tally.new ≤ tally.old + length waits.now * digits }
    {
        self.count(waits);
        for wait in waits {
            self.go_of(wait.slot_ref(), tid, tally);
        }
    }
}
