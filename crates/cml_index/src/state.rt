//! The fields of the index, and the steps of a change.

ghost use Rattle.std.specs.Prelude.{◌≡◌, ◌≢◌, ◌≤◌, ◌<◌, ◌+◌, ◌*◌, [], ◌∷◌, ℕ, true, if◌then◌else◌, length, map, All, slice_get, option_map, OnOk, OnErr, IfOk};
ghost use Rattle.cml_value.specs.{Group.{bases}, Group.{scopes, nacks_of}};
ghost use Rattle.cml_scan.specs.{declared.object.Light.{Light}, Scan.{offers_of}, Order.{base_at}, Table.{without, IsThere, same_light}, Order.{Every}};
ghost use Rattle.cml_index.specs.{Cores.{IsIndexed, IsAtRest, AreThere, IsSame, IsStill, HasCome, HasFreed, HasRoom}, Live.{have_side, HasPlace}};
ghost use Rattle.cml_index.specs.{declared.slot.Slot.{Slot}, declared.slot.Slot.TheVariants.{Waiters}, Slots.{HaveDigits, late_at, slot_in}, Waits.{leaf_wait, IsLone}};
ghost use Rattle.cml_index.specs.Posts as spec;
ghost use Rattle.cml_objects.specs.declared.pairing.PairedId.{PairedId};

use crate::crossing::{crossers, crossers_within};
use crate::entries::Entries;
use crate::entry::{Entry, Spare};
use crate::flags::{Flags, count_lit, count_lit_within, count_lone, flip};
use crate::lanes::Lanes;
use crate::live::Live;
use crate::nacks::reserve_nacks;
use crate::slot::{Slot, Wait};
use cml_objects::Tally;
use cml_scan::{Light, Place};
use cml_value::{Group, Tid};
use std::alloc::{AllocError, Global};

// The pending threads, ascending; the lanes of their offers; the objects over which two threads may meet; what was told of lights;
// and how many leaves there are, and how many of them can be taken alone.
pub(crate) struct IndexState {
    pub(crate) entries: Entries,
    pub(crate) lanes: Lanes,
    pub(crate) live: Live,
    pub(crate) flags: Flags,
    pub(crate) leaves: usize,
    pub(crate) lit: usize,
    // how many threads may stand on both sides of one channel
    pub(crate) crossing: usize,
    // lists of threads that have gone, which serve the next that come
    pub(crate) spares: Vec<Spare>,
}

// Written out, so that how the parts are dropped is proved once, and whoever drops one calls this.
impl Drop for IndexState {
    fn drop(self) {
        let IndexState {
            entries,
            lanes,
            live,
            flags,
            leaves: _,
            lit: _,
            crossing: _,
            spares,
        } = self;
        drop(entries);
        drop(lanes);
        drop(live);
        drop(flags);
        drop(spares);
    }
}

// Of how many threads that have gone the lists are kept.
const SPARES: usize = 64;

impl IndexState {
    // The thread goes, and its offers with it. It takes no memory.
    pub(crate) fn leave(&mut self, tid: Tid, tally: &mut Tally)
        requires indexed { IsIndexed self.old }
        requires there { IsThere self.old.entries.items tid }
        ensures entries { self.new.entries.items ≡ without (tid ∷ []) self.old.entries.items }
        ensures indexed { IsIndexed self.new }
        ensures flags { self.new.flags ≡ self.old.flags }
        ensures cost { (digits : ℕ) → HaveDigits self.old.lanes digits →
            tally.new + self.new.leaves * (digits + 2)
            ≤ tally.old + self.old.leaves * (digits + 2) }
        ensures freed { HasFreed self.old self.new }
    {
        let Some(entry) = self.entries.get(tid) else {
            unreachable!();
        };
        let lit = count_lit_within(self.lit, &self.flags, entry.waits(), tally);
        self.lit -= lit;
        self.leaves -= entry.waits().len();
        self.lanes.go(tid, entry.waits(), tally);
        self.live.cut_all(&self.lanes, entry.waits());
        self.crossing -= crossers_within(self.crossing, entry.waits());
        // read where it lies until then
        let gone = self.entries.take(tid);
        gone.rest_in(&mut self.spares);
    }

    // These threads go. It takes no memory.
    pub(crate) fn leave_all(&mut self, gone: &[Tid], tally: &mut Tally)
        requires indexed { IsIndexed self.old }
        requires there { AreThere self.old.entries.items gone.now }
        ensures entries { self.new.entries.items ≡ without gone.now self.old.entries.items }
        ensures indexed { IsIndexed self.new }
        ensures flags { self.new.flags ≡ self.old.flags }
        ensures cost { (digits : ℕ) → HaveDigits self.old.lanes digits →
            tally.new + self.new.leaves * (digits + 2)
            ≤ tally.old + self.old.leaves * (digits + 2) }
        ensures freed { HasFreed self.old self.new }
    {
        for tid in gone {
            self.leave(*tid, tally);
        }
    }

    // The entry of the thread and the group, in the lists of one that has gone, if such are kept.
    pub(crate) fn entry(
        &mut self,
        alloc: Global,
        tid: Tid,
        group: &Group,
    ) -> Result<Entry, AllocError>
        requires { IsIndexed self.old }
        ensures entry { IfOk result (λ e. e ≡ record { thread = tid.0; group = group.now }) }
        ensures indexed { IsIndexed self.new }
        ensures same { IsSame self.old self.new }
        ensures lanes { self.new.lanes ≡ self.old.lanes }
        ensures flags { self.new.flags ≡ self.old.flags }
    {
        if self.spares.capacity() == 0 {
            self.spares.reserve(SPARES)?;
        }
        match self.spares.pop() {
            Some(spare) => spare.renew(tid, group),
            None => Entry::new(alloc, tid, group),
        }
    }

    // Makes room for a thread that will come: its seat, the places of its objects, and a place among the lights for each nack of its
    // scopes. Nothing was told.
    fn make_places(&mut self, entry: &Entry) -> Result<(), AllocError>
        requires indexed { IsIndexed self.old }
        ensures indexed { IsIndexed self.new }
        ensures same { IsSame self.old self.new }
        ensures kept { spec.KeepsPlaces self.old.flags.entries self.new.flags.entries }
        ensures lanes { self.new.lanes ≡ self.old.lanes }
        ensures seat { OnOk result (0 < self.new.entries.room) }
        ensures places { OnOk result ((n : PairedId) →
            have_side n (map spec.slot_of (bases entry.now.group)) ≡ true → HasPlace self.new.live n) }
        ensures small { OnOk result (self.new.leaves + length (bases entry.now.group)
            ≤ 18446744073709551615) }
        ensures named { OnOk result (Every (λ k. spec.is_named self.new.flags.entries (spec.slot_of_nack k))
            (nacks_of (scopes entry.now.group))) }
    {
        if self.leaves.checked_add(entry.waits().len()).is_none() {
            return Err(AllocError);
        }
        self.entries.reserve()?;
        self.live.make_all(entry.waits())?;
        reserve_nacks(&mut self.flags, entry.nacks())
    }

    // Makes room for a thread that will come with one leaf, which waits for this: its seat, and the place of its object. Nothing was told.
    #[inline(always)]
    pub(crate) fn make_place(&mut self, wait: Wait) -> Result<(), AllocError>
        requires indexed { IsIndexed self.old }
        ensures indexed { IsIndexed self.new }
        ensures same { IsSame self.old self.new }
        ensures lanes { self.new.lanes ≡ self.old.lanes }
        ensures flags { self.new.flags ≡ self.old.flags }
        ensures seat { OnOk result (0 < self.new.entries.room) }
        ensures places { OnOk result ((n : PairedId) → have_side n (slot_in wait ∷ []) ≡ true → HasPlace self.new.live n) }
        ensures small { OnOk result (self.new.leaves + 1 ≤ 18446744073709551615) }
    {
        if self.leaves.checked_add(1).is_none() {
            return Err(AllocError);
        }
        self.entries.reserve()?;
        self.live.make_lone(&wait)
    }

    // Makes room for a thread that will come, and notes which leaves are to come to which lanes. Out of memory (or too many leaves to
    // count): no leaf is noted, and nothing was told.
    pub(crate) fn make_room(&mut self, alloc: Global, entry: &Entry) -> Result<(), AllocError>
        requires indexed { IsIndexed self.old }
        requires idle { IsAtRest self.old }
        ensures indexed { IsIndexed self.new }
        ensures same { IsSame self.old self.new }
        ensures kept { spec.KeepsPlaces self.old.flags.entries self.new.flags.entries }
        ensures room { OnOk result (HasRoom self.new entry.now.group) }
        ensures idle { OnErr result (IsAtRest self.new) }
    {
        self.make_places(entry)?;
        self.lanes.make_room(alloc, entry.waits())
    }

    // Tells of the light: one is examined. One that is told to be lit has its place. It takes no memory.
    #[inline(never)]
    pub(crate) fn tell(&mut self, light: Light, lit: bool, tally: &mut Tally)
        requires indexed { IsIndexed self.old }
        requires there { lit ≡ true →
            spec.is_named self.old.flags.entries (Waiters light) ≡ true }
        ensures told { (m : Light) → spec.told self.new.flags.entries m
            ≡ (if same_light light m then lit else spec.told self.old.flags.entries m) }
        ensures indexed { IsIndexed self.new }
        ensures still { IsStill self.old self.new }
        ensures kept { spec.KeepsPlaces self.old.flags.entries self.new.flags.entries }
        ensures cost { tally.new ≤ tally.old + 1 }
    {
        tally.add();
        if flip(&mut self.flags, light, lit) {
            let waiters = self.lanes.len(Slot::Waiters(light));
            if lit {
                self.lit += waiters;
            } else {
                self.lit -= waiters;
            }
        }
    }

    // The thread comes, and its offers with it. There is room for it, and the nacks of its scopes have their places.
    pub(crate) fn enter(&mut self, entry: Entry, tally: &mut Tally)
        requires indexed { IsIndexed self.old }
        requires new { All (λ e. e.thread ≢ entry.thread) self.old.entries.items }
        requires room { HasRoom self.old entry.group }
        ensures came { HasCome entry self.old self.new }
        ensures indexed { IsIndexed self.new }
        ensures idle { IsAtRest self.new }
        ensures cost { (digits : ℕ) → HaveDigits self.old.lanes digits →
            tally.new ≤ tally.old + length (bases entry.group) * (digits + 2) }
    {
        let lit = count_lit(&self.flags, entry.waits(), tally);
        self.leaves += entry.waits().len();
        self.lit += lit;
        self.lanes.come(entry.tid(), entry.waits(), tally);
        self.live.add_all(&self.lanes, entry.waits());
        self.crossing += crossers(entry.waits());
        self.entries.put(entry);
    }
}

impl IndexState {
    // The thread comes with its only leaf, which waits for this, and its offer with it: room is made for it in its lane. A seat and a place of
    // its object are there. Out of memory: nothing was told, and nothing was looked at.
    #[inline(always)]
    pub(crate) fn enter_lone(
        &mut self,
        alloc: Global,
        tid: Tid,
        group: &Group,
        wait: Wait,
        tally: &mut Tally,
    ) -> Result<(), AllocError>
        requires indexed { IsIndexed self.old }
        requires idle { IsAtRest self.old }
        requires new { All (λ e. e.thread ≢ tid.0) self.old.entries.items }
        requires lone { IsLone group.now wait }
        requires seat { 0 < self.old.entries.room }
        requires places { (n : PairedId) → have_side n (slot_in wait ∷ []) ≡ true → HasPlace self.old.live n }
        requires small { self.old.leaves + 1 ≤ 18446744073709551615 }
        ensures came { OnOk result (HasCome (record { thread = tid.0; group = group.now }) self.old self.new) }
        ensures same { OnErr result (IsSame self.old self.new) }
        ensures flags { self.new.flags ≡ self.old.flags }
        ensures indexed { IsIndexed self.new }
        ensures idle { IsAtRest self.new }
        ensures cost { (digits : ℕ) → HaveDigits self.old.lanes digits → tally.new ≤ tally.old + (digits + 2) }
        ensures still { OnErr result (tally.new ≡ tally.old) }
    {
        self.lanes.come_lone(alloc, tid, &wait, tally)?;
        let lit = count_lone(&self.flags, &wait, tally);
        self.leaves += 1;
        self.lit += lit;
        self.live.add_lone(&self.lanes, &wait);
        self.entries.put(Entry::lone(tid, group, wait));
        Ok(())
    }
}

// What the leaf at the place waits for, if one of these threads has it: one look.
pub(crate) fn wait_at(entries: &Entries, place: Place, tally: &mut Tally) -> Option<Wait>
    ensures value { result ≡ option_map leaf_wait (base_at place (offers_of entries.now.items)) }
    ensures cost { tally.new ≤ tally.old + 1 }
{
    let entry = entries.get(place.tid)?;
    tally.add();
    nth(entry.waits(), place.leaf)
}

fn nth(waits: &[Wait], leaf: u32) -> Option<Wait>
    ensures { result ≡ slice_get waits.now leaf }
{
    match waits.get(leaf as usize) {
        Some(wait) => Some(*wait),
        None => None,
    }
}
