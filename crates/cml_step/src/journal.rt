//! What a slice notes of the call on top, so that it can be undone.

ghost use Rattle.std.specs.Prelude.{◌≡◌, ◌<◌, length, true, false, None, [], slice_set};
ghost use Rattle.cml_step.specs.{Calls.{slots_with, WaitFits}, Machines.{plain_held}, Shared.{HasNoCall}};
ghost use Rattle.cml_step.specs.Undone.{unset as plain_unset, call_before, wrapped, HasHead, HasNotes};

use crate::call::{Call, Wait};
use crate::entry::{Entry, Wraps};
use cml_group::Forced;
use cml_value::Value;
use std::alloc::Global;
use std::mem::replace;

// The most sets that are noted: a long run of steps is better made without notes.
const MAX_NOTED: usize = 16;

/// A slot that was set, and what it had.
#[derive(Drop)]
pub(crate) struct Noted {
    pub(crate) slot: usize,
    pub(crate) value: Value,
}

/// What is noted of a call: where it stood, what it waited for, where it had asked last, how many slots it had, what each had that was set
/// (the last set comes last), and the wraps that stood over it, if there were such.
#[derive(Drop)]
pub(crate) struct Journal {
    pub(crate) at: usize,
    pub(crate) wait: Wait,
    pub(crate) asked: usize,
    pub(crate) count: usize,
    pub(crate) sets: Vec<Noted>,
    pub(crate) over: Option<Wraps>,
    // the choices that were forced before, by any slice: they hold no value
    pub(crate) forced: Forced,
}

// Sets a slot, if it is there.
#[tactic(auto, using(crate::proofs::UndoLemmas::set_past))]
fn put_at(slots: &mut Vec<Value>, slot: usize, value: Value)
    ensures { slots.new.items ≡ slice_set slots.old.items slot value }
{
    if slot >= slots.len() {
        drop(value);
        return;
    }
    slots[slot] = value;
}

// Gives each slot that was set what it had, the last set first.
fn unset(slots: &mut Vec<Value>, sets: &mut Vec<Noted>)
    ensures { slots.new.items ≡ plain_unset sets.old.items slots.old.items }
{
    while let Some(noted) = sets.pop() {
        let Noted { slot, value } = noted;
        put_at(slots, slot, value);
    }
}

/// Puts the value into the slot, and notes what that had. Without memory, or where enough is noted, nothing has changed.
#[inline(always)]
pub(crate) fn set_slot(
    slots: &mut Vec<Value>,
    slot: usize,
    value: Value,
    sets: &mut Vec<Noted>,
) -> bool
    requires { slot < length slots.old.items }
    ensures set { result ≡ true → slots.new.items ≡ slice_set slots.old.items slot value }
    ensures noted { plain_unset sets.new.items slots.new.items
        ≡ plain_unset sets.old.items slots.old.items }
    ensures count { length slots.new.items ≡ length slots.old.items }
    ensures stays { result ≡ false → slots.new ≡ slots.old }
{
    if sets.len() >= MAX_NOTED {
        drop(value);
        return false;
    }
    let Ok(()) = sets.reserve(1) else {
        drop(value);
        return false;
    };
    let had = replace(&mut slots[slot], value);
    sets.push_reserved(Noted { slot, value: had });
    true
}

/// The same, where the slots are seen as a slice: so they are for many sets, one after another.
#[inline(always)]
pub(crate) fn set_in(slots: &mut [Value], slot: usize, value: Value, sets: &mut Vec<Noted>) -> bool
    requires { slot < length slots.old }
    ensures set { result ≡ true → slots.new ≡ slice_set slots.old slot value }
    ensures noted { plain_unset sets.new.items slots.new ≡ plain_unset sets.old.items slots.old }
    ensures stays { result ≡ false → slots.new ≡ slots.old }
{
    if sets.len() >= MAX_NOTED {
        drop(value);
        return false;
    }
    let Ok(()) = sets.reserve(1) else {
        drop(value);
        return false;
    };
    let had = replace(&mut slots[slot], value);
    sets.push_reserved(Noted { slot, value: had });
    true
}

// Lets go what was noted of slots.
#[inline(never)]
fn forget_sets(sets: &mut Vec<Noted>)
    ensures { sets.new.items ≡ [] }
{
    sets.clear();
}

// Lets go the wraps.
#[inline(never)]
fn forget_over(over: &mut Option<Wraps>)
    ensures { over.new ≡ None }
{
    *over = None;
}

impl Journal {
    /// Nothing is noted.
    pub(crate) fn new(alloc: Global) -> Journal
        ensures sets { result.sets.items ≡ [] }
        ensures over { result.over ≡ None }
    {
        Journal {
            at: 0,
            wait: Wait::Runs,
            asked: 0,
            count: 0,
            sets: Vec::new(alloc),
            over: None,
            forced: Forced::new(alloc),
        }
    }

    /// Lets go what is noted.
    #[inline(always)]
    pub(crate) fn clear(&mut self)
        ensures sets { self.new.sets.items ≡ [] }
        ensures over { self.new.over ≡ None }
    {
        if !self.sets.is_empty() {
            forget_sets(&mut self.sets);
        }
        if self.over.is_some() {
            forget_over(&mut self.over);
        }
    }

    /// Begins with this call, of which nothing was set yet.
    pub(crate) fn begin(&mut self, call: &Call)
        ensures head { HasHead self.new call.now }
        ensures sets { self.new.sets.items ≡ [] }
        ensures over { self.new.over ≡ None }
    {
        self.clear();
        self.at = call.at;
        self.wait = call.wait;
        self.asked = call.asked;
        self.count = call.slots.len();
    }

    /// Puts back into the call, and over it, what is noted. It takes no memory.
    pub(crate) fn put_back(&mut self, over: &mut Option<Entry>, call: &mut Call)
        ensures over { over.new ≡ wrapped self.old.over }
        ensures no_call { HasNoCall over.new }
        ensures call { plain_held (Entry.Call call.new) ≡ call_before self.old call.old }
    {
        *over = as_entry(self.over.take());
        call.at = self.at;
        call.wait = self.wait;
        call.asked = self.asked;
        call.slots.truncate(self.count);
        unset(&mut call.slots, &mut self.sets);
    }
}

// The wraps as an entry, if they are there.
fn as_entry(over: Option<Wraps>) -> Option<Entry>
    ensures same { result ≡ wrapped over }
    ensures no_call { HasNoCall result }
{
    match over {
        Some(wraps) => Some(Entry::Wraps(wraps)),
        None => None,
    }
}

/// Gives the call a copy of the value for which it waits, and notes what its slot had. Without memory nothing has changed.
pub(crate) fn fill_noted(call: &mut Call, value: &Value, sets: &mut Vec<Noted>) -> bool
    requires waits { WaitFits call.old.wait (length call.old.slots.items)
        (length call.old.slots.items) }
    ensures slots { result ≡ true → call.new.slots.items
        ≡ slots_with call.old.wait value.now call.old.slots.items }
    ensures runs { result ≡ true → call.new.wait ≡ Wait.Runs }
    ensures place { (call.new.func ≡ call.old.func) × (call.new.at ≡ call.old.at) }
    ensures noted { HasNotes sets.old.items call.old sets.new.items call.new }
    ensures stays { result ≡ false → call.new ≡ call.old }
{
    match call.wait {
        Wait::Gives(slot) => {
            let Ok(copy) = value.copy() else {
                return false;
            };
            if !set_slot(&mut call.slots, slot, copy, sets) {
                return false;
            }
            call.wait = Wait::Runs;
            true
        }
        Wait::Runs | Wait::Drops => {
            call.wait = Wait::Runs;
            true
        }
    }
}
