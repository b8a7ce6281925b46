//! The offers that wait on one side of one object.

ghost use Rattle.std.specs.Prelude.{◌≡◌, ◌≤◌, ◌<◌, ◌+◌, ◌-◌, ◌*◌, ◌^◌, ℕ, List, [], nat_lt, ◌++◌, length, filter, take, drop, OnOk, slice_index_or, vec_len};
ghost use Rattle.std.specs.{List.{list_any}, Vec.{vec_capacity}};
ghost use Rattle.cml_scan.specs.{declared.meet.Place.{Place}, Order.{Every, Ascends, before}};
ghost use Rattle.cml_objects.specs.declared.lane.Bound.TheVariants.{Below};
ghost use Rattle.cml_objects.specs.Lanes as spec;

use crate::tally::Tally;
use cml_scan::Place;
use cml_value::Tid;
use std::alloc::{AllocError, Global};
use std::marker::Model;

/// Which threads' offers in a lane are looked for.
#[derive(Clone, Copy)]
pub enum PartnerThreads {
    /// Those of other threads than this one.
    Others(Tid),
    /// Those of the threads above this one.
    Above(Tid),
}

impl PartnerThreads {
    /// Whether the offers of this thread are looked for.
    pub fn is(self, other: Tid) -> bool
        ensures { (leaf : ℕ) → result ≡ spec.is_of self (record { tid = other; leaf = leaf }) }
    {
        match self {
            PartnerThreads::Others(tid) => tid.0 != other.0,
            PartnerThreads::Above(tid) => tid.0 < other.0,
        }
    }
}

// Where a search in a lane ends.
#[derive(Clone, Copy)]
enum Bound {
    // After the offers of the threads below this one.
    Below(Tid),
    // After the offers of this thread and of those below it.
    UpTo(Tid),
}

/// Offers of leaves by thread and leaf, as those of one side of one channel. The offers of one thread
/// are put in and taken out together. An offer can be read only by [`Lane::look`], which counts the look.
#[derive(Drop)]
pub struct Lane {
    // The offers, after free places: an offer that goes from the front leaves its place free.
    places: Vec<Place>,
    // How many free places there are at the front.
    free: usize,
}

impl Model for Lane {
    ghost use Rattle.std.specs.{Prelude.{◌≤◌, ◌-◌, drop, vec_len}, Vec.{vec_capacity}};
    ghost use Rattle.cml_scan.specs.Order.{Ascends, before};
    ghost use Rattle.cml_objects.specs.Lanes.{PlainLane};

    ghost Value = { PlainLane };

    ghost view = { λ l. record { places = drop l.free l.places.items; room = vec_capacity l.places - vec_len l.places } };

    ghost invariant = { λ l. (l.free ≤ vec_len l.places) × Ascends before (drop l.free l.places.items) };
}

impl Lane {
    /// A lane without offers.
    pub fn new(alloc: Global) -> Lane
        ensures { result.places ≡ [] }
    {
        Lane {
            places: Vec::new(alloc),
            free: 0,
        }
    }

    /// How many offers there are.
    pub fn len(&self) -> usize
        ensures { result ≡ length self.now.places }
    {
        self.places.len() - self.free
    }

    /// The offer at this place in the order.
    #[inline(always)]
    pub fn look(&self, k: usize, tally: &mut Tally) -> Place
        requires { k < length self.now.places }
        ensures value { result ≡ slice_index_or self.now.places k result }
        ensures more { tally.old < u64.MAX → tally.new ≡ tally.old + 1 }
        ensures stays { tally.old ≡ u64.MAX → tally.new ≡ tally.old }
        ensures most { tally.new ≤ tally.old + 1 }
    {
        tally.add();
        self.places[self.free + k]
    }

    // How many offers stand below the bound.
    fn count_under(&self, bound: Bound, tally: &mut Tally) -> usize
        ensures count { result ≡ length (filter (spec.under bound) self.now.places) }
        ensures cost { (digits : ℕ) → length self.now.places < 2 ^ digits → tally.new ≤ tally.old + digits }
    {
        // No effect: named here so that the prover knows what holds of it.
        let _ = &self.places;
        let mut low = 0;
        let mut high = self.len();
        while low < high {
            let middle = low + (high - low) / 2;
            let seen = self.look(middle, tally);
            if is_under(bound, seen) {
                low = middle + 1;
            } else {
                high = middle;
            }
        }
        low
    }

    /// How many offers are of threads below this one.
    pub fn below_count(&self, tid: Tid, tally: &mut Tally) -> usize
        ensures count { result ≡ length (filter (λ q. nat_lt q.tid.0 tid.0) self.now.places) }
        ensures cost { (digits : ℕ) → length self.now.places < 2 ^ digits → tally.new ≤ tally.old + digits }
    {
        self.count_under(Bound::Below(tid), tally)
    }

    /// How many offers are of the threads that `partner_threads` names.
    #[inline(always)]
    pub fn others_count(&self, partner_threads: PartnerThreads, tally: &mut Tally) -> usize
        ensures count { result ≡ length (spec.those partner_threads self.now.places) }
        ensures cost { (digits : ℕ) → length self.now.places < 2 ^ digits →
            tally.new ≤ tally.old + 2 * digits }
    {
        // No effect: named here so that the prover knows what holds of it.
        let _ = &self.places;
        match partner_threads {
            PartnerThreads::Others(tid) => {
                let low = self.count_under(Bound::Below(tid), tally);
                let high = self.count_under(Bound::UpTo(tid), tally);
                low + (self.len() - high)
            }
            PartnerThreads::Above(tid) => self.len() - self.count_under(Bound::UpTo(tid), tally),
        }
    }

    /// The offer at this place among those of the threads that `partner_threads` names.
    pub fn other(&self, partner_threads: PartnerThreads, j: usize, tally: &mut Tally) -> Place
        requires { j < length (spec.those partner_threads self.now.places) }
        ensures value { result ≡ slice_index_or (spec.those partner_threads self.now.places) j result }
        ensures cost { (digits : ℕ) → length self.now.places < 2 ^ digits →
            tally.new ≤ tally.old + (2 * digits + 1) }
    {
        // No effect: named here so that the prover knows what holds of it.
        let _ = &self.places;
        let _len = self.len();
        match partner_threads {
            PartnerThreads::Others(tid) => {
                let low = self.count_under(Bound::Below(tid), tally);
                let high = self.count_under(Bound::UpTo(tid), tally);
                let k = if j < low { j } else { high + (j - low) };
                self.look(k, tally)
            }
            PartnerThreads::Above(tid) => {
                let high = self.count_under(Bound::UpTo(tid), tally);
                self.look(high + j, tally)
            }
        }
    }

    /// Whether there is an offer of a thread that `partner_threads` names.
    pub fn has_other(&self, partner_threads: PartnerThreads, tally: &mut Tally) -> bool
        ensures value { result ≡ list_any (spec.is_of partner_threads) self.now.places }
        ensures cost { tally.new ≤ tally.old + 2 }
    {
        // No effect: named here so that the prover knows what holds of it.
        let _ = &self.places;
        let len = self.len();
        if len == 0 {
            return false;
        }
        let last = self.look(len - 1, tally);
        match partner_threads {
            PartnerThreads::Others(tid) => {
                let first = self.look(0, tally);
                if first.tid.0 != tid.0 {
                    return true;
                }
                last.tid.0 != tid.0
            }
            PartnerThreads::Above(tid) => tid.0 < last.tid.0,
        }
    }

    /// Makes room for this many more offers.
    ///
    /// # Errors
    /// Out of memory. The offers are as they were.
    #[inline(always)]
    pub fn reserve(&mut self, additional: usize) -> Result<(), AllocError>
        ensures same { self.new.places ≡ self.old.places }
        ensures ok { OnOk result (additional ≤ self.new.room) }
        ensures kept { self.old.room ≤ self.new.room }
    {
        if self.free > self.len() {
            self.close_up();
        }
        self.places.reserve(additional)
    }

    // Takes the free places away from the front.
    #[inline(never)]
    fn close_up(&mut self)
        ensures same { self.new.places ≡ self.old.places }
        ensures kept { self.old.room ≤ self.new.room }
    {
        let free = self.free;
        remove_run(&mut self.places, 0, free);
        self.free = 0;
    }

    /// Adds the offers of these leaves of the thread, for which there is room. It takes no memory.
    pub fn come(&mut self, tid: Tid, leaves: &[u32], tally: &mut Tally)
        requires room { length leaves.now ≤ self.old.room }
        requires new { Every (spec.is_others tid) self.old.places }
        requires ascend { Ascends nat_lt leaves.now }
        ensures places { self.new.places ≡ spec.with_run tid leaves.now self.old.places }
        ensures sorted { Ascends before self.new.places }
        ensures room { self.old.room ≤ self.new.room + length leaves.now }
        ensures cost { (digits : ℕ) → length self.old.places < 2 ^ digits → tally.new ≤ tally.old + digits }
    {
        let at = self.count_under(Bound::Below(tid), tally);
        if at == self.len() {
            push_run(&mut self.places, tid, leaves);
        } else {
            self.come_before(at, tid, leaves);
        }
    }

    // Adds the offers of these leaves before others, behind this many.
    #[inline(never)]
    fn come_before(&mut self, at: usize, tid: Tid, leaves: &[u32])
        requires at { at ≡ length (filter (spec.under (Below tid)) self.old.places) }
        requires room { length leaves.now ≤ self.old.room }
        requires new { Every (spec.is_others tid) self.old.places }
        requires ascend { Ascends nat_lt leaves.now }
        ensures places { self.new.places ≡ spec.with_run tid leaves.now self.old.places }
        ensures sorted { Ascends before self.new.places }
        ensures room { self.old.room ≤ self.new.room + length leaves.now }
    {
        if at == 0 && leaves.len() <= self.free {
            self.free -= leaves.len();
            write_run(&mut self.places, self.free, tid, leaves);
        } else {
            let tail = self.places.len();
            push_run(&mut self.places, tid, leaves);
            move_tail_to(&mut self.places, tail, self.free + at);
        }
    }

    /// Removes all offers of the thread, of which there are this many. It takes no memory.
    pub fn go(&mut self, tid: Tid, count: usize, tally: &mut Tally)
        requires { count ≡ length (filter (spec.is_own tid) self.old.places) }
        ensures places { self.new.places ≡ spec.others tid self.old.places }
        ensures sorted { Ascends before self.new.places }
        ensures room { self.old.room ≤ self.new.room }
        ensures cost { (digits : ℕ) → length self.old.places < 2 ^ digits → tally.new ≤ tally.old + digits }
    {
        let at = self.count_under(Bound::Below(tid), tally);
        if at + count == self.len() {
            self.places.truncate(self.free + at);
        } else {
            self.go_before(at, tid, count);
        }
    }

    // Removes all offers of the thread, which stand before others, behind this many.
    #[inline(never)]
    fn go_before(&mut self, at: usize, tid: Tid, count: usize)
        requires at { at ≡ length (filter (spec.under (Below tid)) self.old.places) }
        requires count { count ≡ length (filter (spec.is_own tid) self.old.places) }
        ensures places { self.new.places ≡ spec.others tid self.old.places }
        ensures sorted { Ascends before self.new.places }
        ensures room { self.old.room ≤ self.new.room }
    {
        // No effect: named here so that the prover knows what holds of it.
        let _ = &self.places;
        if at == 0 {
            self.free += count;
        } else {
            remove_run(&mut self.places, self.free + at, count);
        }
    }
}

fn is_under(bound: Bound, place: Place) -> bool
    ensures { result ≡ spec.under bound place }
{
    match bound {
        Bound::Below(tid) => place.tid.0 < tid.0,
        Bound::UpTo(tid) => place.tid.0 <= tid.0,
    }
}

// Appends the offers of these leaves of one thread, which stand side by side (a run). It takes no memory.
fn push_run(places: &mut Vec<Place>, tid: Tid, leaves: &[u32])
    requires { length leaves.now ≤ vec_capacity places.old - vec_len places.old }
    ensures items { places.new.items ≡ places.old.items ++ spec.run tid leaves.now }
    ensures len { vec_len places.new ≡ vec_len places.old + length leaves.now }
    ensures capacity { vec_capacity places.new ≡ vec_capacity places.old }
{
    for leaf in leaves {
        places.push_reserved(Place { tid, leaf: *leaf });
    }
}

// Writes the offers of these leaves of one thread from the place `at` on. It takes no memory.
fn write_run(places: &mut [Place], at: usize, tid: Tid, leaves: &[u32])
    requires { at + length leaves.now ≤ length places.old }
    ensures len { length places.new ≡ length places.old }
    ensures items { drop at places.new ≡ spec.run tid leaves.now ++ drop (at + length leaves.now) places.old }
{
    let mut left = leaves.len();
    while left > 0 {
        left -= 1;
        places[at + left] = Place {
            tid,
            leaf: leaves[left],
        };
    }
}

// Moves the last offers, those after the first `tail`, to the place `at`.
fn move_tail_to(places: &mut [Place], tail: usize, at: usize)
    requires before { at ≤ tail }
    requires within { tail ≤ length places.old }
    ensures len { length places.new ≡ length places.old }
    ensures after { (front back : List Place) → places.old ≡ front ++ back → length front ≡ tail →
        places.new ≡ take at front ++ (back ++ drop at front) }
{
    if at < tail {
        places[at..].rotate_left(tail - at);
    }
}

// Takes a run of this many offers away from the place `at` on.
fn remove_run(places: &mut Vec<Place>, at: usize, count: usize)
    requires { at + count ≤ length places.old.items }
    ensures items { places.new.items ≡ take at places.old.items ++ drop (at + count) places.old.items }
    ensures len { vec_len places.new + count ≡ vec_len places.old }
    ensures capacity { vec_capacity places.new ≡ vec_capacity places.old }
{
    let len = places.len();
    if at + count < len {
        places[at..].rotate_left(count);
    }
    places.truncate(len - count);
}
