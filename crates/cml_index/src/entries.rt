//! The pending threads.

ghost use Rattle.std.specs.Prelude.{◌≡◌, ◌≢◌, ◌≤◌, ◌<◌, ◌↔◌, [], ◌∷◌, Some, None, length, filter, is_some, get_or, slice_set, All, OnOk, IsTrue, vec_len};
ghost use Rattle.std.specs.{List.{insert}, Option.{option_copied}, Vec.{vec_capacity}};
ghost use Rattle.cml_scan.specs.{Order.{Ascends}, Table.{without, with_entry, IsThere}};
ghost use Rattle.cml_index.specs.declared.entries.Seat.{Seat};
ghost use Rattle.cml_index.specs.Seats as spec;

use crate::entry::Entry;
use cml_value::Tid;
use std::alloc::{AllocError, Global};
use std::marker::Model;

// How many seats without an entry there may be, beyond the number of entries.
const SPARE: usize = 64;

// The seat of a thread that is pending, or was: one that comes back moves no other.
#[derive(Drop)]
pub(crate) struct Seat {
    tid: Tid,
    entry: Option<Entry>,
}

impl Seat {
    // The thread with its group, if it is pending.
    pub(crate) fn entry(&self) -> Option<&Entry>
        ensures { option_copied result ≡ self.now.entry }
    {
        self.entry.as_ref()
    }

    // Puts the entry in. Only where one is there is there anything to be given up, and that is done apart.
    #[inline(always)]
    fn put(&mut self, entry: Entry)
        ensures { self.new ≡ record self.old { entry = Some entry } }
    {
        match &self.entry {
            Some(_) => self.give_up(entry),
            None => {
                self.entry = Some(entry);
            }
        }
    }

    // Puts the entry in, and gives up the one that was there.
    #[inline(never)]
    fn give_up(&mut self, entry: Entry)
        ensures { self.new ≡ record self.old { entry = Some entry } }
    {
        self.entry = Some(entry);
    }
}

// The pending threads, ascending, each in its seat. Seats of threads that have gone are kept while they are not too many.
pub(crate) struct Entries {
    seats: Vec<Seat>,
    pending: usize,
}

// Written out, so that how the parts are dropped is proved once, and whoever drops one calls this.
impl Drop for Entries {
    fn drop(self) {
        let Entries { seats, pending: _ } = self;
        drop(seats);
    }
}

impl Model for Entries {
    ghost use Rattle.std.specs.{Prelude.{◌-◌, vec_len}, Vec.{vec_capacity}};
    ghost use Rattle.cml_index.specs.Seats.{PlainEntries, seated, AreSeats, entries_code};

    ghost Value = { PlainEntries };

    ghost coded = { entries_code };

    ghost view = { λ x. record { items = seated x.seats.items; room = vec_capacity x.seats - vec_len x.seats } };

    ghost invariant = { λ x. AreSeats x.seats.items x.pending };
}

// How many of these seats are of threads below this one. Where each thread below it has a seat, its own is at its number.
fn seats_below(seats: &[Seat], tid: Tid) -> usize
    requires { Ascends spec.seat_before seats.now }
    ensures { result ≡ spec.count_seats tid.0 seats.now }
{
    let own = tid.0 as usize;
    if has_seat(seats, own, tid) {
        return own;
    }
    let mut low = 0;
    let mut high = seats.len();
    while low < high {
        let middle = low + (high - low) / 2;
        if seats[middle].tid.0 < tid.0 {
            low = middle + 1;
        } else {
            high = middle;
        }
    }
    low
}

impl Entries {
    // No thread is pending.
    pub(crate) fn new(alloc: Global) -> Entries
        ensures { result.items ≡ [] }
    {
        Entries {
            seats: Vec::new(alloc),
            pending: 0,
        }
    }

    // The seats, ascending.
    pub(crate) fn seats(&self) -> &[Seat]
        ensures { spec.seated result.now ≡ self.now.items }
    {
        // No effect: named here so that the prover knows what holds of it.
        let _pending = self.pending;
        self.seats.as_slice()
    }

    // The thread with its group, if it is pending.
    #[inline(always)]
    pub(crate) fn get(&self, tid: Tid) -> Option<&Entry>
        ensures { spec.IsEntryOf tid self.now.items result }
    {
        // No effect: named here so that the prover knows what holds of it.
        let _pending = self.pending;
        let at = seats_below(&self.seats, tid);
        if at >= self.seats.len() {
            return None;
        }
        let seat = &self.seats[at];
        if seat.tid.0 != tid.0 {
            return None;
        }
        seat.entry()
    }

    // Makes room for one more.
    #[inline(always)]
    pub(crate) fn reserve(&mut self) -> Result<(), AllocError>
        ensures items { self.new.items ≡ self.old.items }
        ensures room { OnOk result (0 < self.new.room) }
    {
        self.seats.reserve(1)
    }

    // Adds the thread. It takes no memory.
    #[inline(always)]
    pub(crate) fn put(&mut self, entry: Entry)
        requires new { All (λ e. e.thread ≢ entry.thread) self.old.items }
        requires room { 0 < self.old.room }
        ensures { self.new.items ≡ with_entry entry self.old.items }
    {
        let tid = entry.tid();
        let at = seats_below(&self.seats, tid);
        self.pending += 1;
        if has_seat(&self.seats, at, tid) {
            fill(&mut self.seats, at, entry);
        } else {
            let entry = Some(entry);
            insert_in_room(&mut self.seats, at, Seat { tid, entry });
        }
    }

    // Takes the thread out.
    #[inline(always)]
    pub(crate) fn take(&mut self, tid: Tid) -> Entry
        requires { IsThere self.old.items tid }
        ensures items { self.new.items ≡ without (tid ∷ []) self.old.items }
        ensures own { spec.own_entries tid self.old.items ≡ result ∷ [] }
        ensures thread { result.thread ≡ tid.0 }
        ensures room { self.old.room ≤ self.new.room }
    {
        let at = seats_below(&self.seats, tid);
        let Some(entry) = vacate(&mut self.seats, at) else {
            unreachable!()
        };
        self.pending -= 1;
        self.tidy();
        entry
    }

    // Removes the seats without an entry, where there are many.
    fn tidy(&mut self)
        ensures items { self.new.items ≡ self.old.items }
        ensures room { self.old.room ≤ self.new.room }
    {
        if self.seats.len() / 2 > self.pending.saturating_add(SPARE) {
            remove_empty(&mut self.seats);
        }
    }
}

// Whether the seat at this place is the thread's.
fn has_seat(seats: &[Seat], at: usize, tid: Tid) -> bool
    ensures { IsTrue result ↔ ((at < length seats.now) × ((d : Seat) → (get_or seats.now at d).tid.0 ≡ tid.0)) }
{
    at < seats.len() && seats[at].tid.0 == tid.0
}

// Puts the entry in the seat at this place, in which there is none.
#[inline(always)]
fn fill(seats: &mut Vec<Seat>, at: usize, entry: Entry)
    requires { at < length seats.old.items }
    ensures seats { (d : Seat) → seats.new.items ≡ slice_set seats.old.items at
        (record { tid = (get_or seats.old.items at d).tid; entry = Some entry }) }
{
    let seat = &mut seats[at];
    seat.put(entry);
}

// Takes the entry from the seat at this place, if there is one.
#[inline(always)]
fn vacate(seats: &mut Vec<Seat>, at: usize) -> Option<Entry>
    requires { at < length seats.old.items }
    ensures seats { (d : Seat) → seats.new.items ≡ slice_set seats.old.items at
        (record { tid = (get_or seats.old.items at d).tid; entry = None }) }
    ensures entry { (d : Seat) → result ≡ (get_or seats.old.items at d).entry }
    ensures len { vec_len seats.new ≡ vec_len seats.old }
    ensures capacity { vec_capacity seats.new ≡ vec_capacity seats.old }
{
    seats[at].entry.take()
}

// Removes the seats without an entry.
fn remove_empty(seats: &mut Vec<Seat>)
    ensures seats { seats.new.items ≡ filter (λ s. is_some s.entry) seats.old.items }
    ensures len { vec_len seats.new ≤ vec_len seats.old }
    ensures capacity { vec_capacity seats.new ≡ vec_capacity seats.old }
{
    seats.retain(|seat| seat.entry.is_some());
}

// Puts the seat in its place. It takes no memory.
#[inline(never)]
fn insert_in_room(seats: &mut Vec<Seat>, at: usize, seat: Seat)
    requires within { at ≤ length seats.old.items }
    requires room { vec_len seats.old < vec_capacity seats.old }
    ensures { seats.new.items ≡ insert seats.old.items at seat }
{
    match seats.insert(at, seat) {
        Ok(()) => {}
        Err(_) => unreachable!(),
    }
}
