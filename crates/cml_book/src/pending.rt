//! Pending threads: how a thread begins to wait on a group, is withdrawn, and goes on from one of its leaves.

ghost use Rattle.std.specs.{Prelude.{◌≡◌, ℕ, ◌<◌, ◌≤◌, ◌+◌, ◌^◌, Some, IsSome, OnOk, OnErr, slice_get, slice_set}, Option.{option_copied, option_and_then}};
ghost use Rattle.cml_value.specs.Group.{bases, leaf_count, scopes, nacks_of, lost};
ghost use Rattle.cml_objects.specs.Clocks.{leaves_at};
ghost use Rattle.cml_group.specs.{LaidOut.{max_leaves}, Leaves.{pick, numbers}};
ghost use Rattle.cml_scan.specs.World.{running, pending_on, live};
ghost use Rattle.cml_book.specs.{Outcomes.{with_thread}, Sync.{with_each}, Commit.{awaited, group_awaited, released, settled}};
ghost use Rattle.cml_book.specs.{Keeping.{AreFresh, AreLiveNacks, Counts, times_awaited}, Parties.{WaitsOn}, Threads.{flat_of}};

use crate::counted::Counted;
use crate::nacks::{enter, settle};
use crate::state::{State, put};
use crate::thread::Thread;
use cml_group::{Chosen, Flat};
use cml_objects::{Clock, NackCell, Register};
use cml_value::Tid;
use std::alloc::AllocError;

impl State {
    /// Has the thread, which runs, wait on the group from now on. The nacks of its scopes are as they were.
    ///
    /// # Errors
    /// Out of memory: nothing changes.
    pub fn wait(&mut self, thread: Tid, flat: Counted) -> Result<(), AllocError>
        requires { slice_get self.old.threads thread.0 ≡ Some running }
        ensures ok { OnOk result (self.new ≡ with_thread self.old thread.0 (pending_on flat)) }
        ensures err { OnErr result (self.new ≡ self.old) }
    {
        // counted where it stands from now on: so the group is moved once
        put(&mut self.threads, thread, Thread::pending(flat));
        let Ok(()) = count_all(&mut self.clock, &self.threads, thread) else {
            put(&mut self.threads, thread, Thread::running());
            return Err(AllocError);
        };
        Ok(())
    }

    /// Has the thread, which waits, run from now on. The nacks of its scopes are as they were.
    pub fn withdraw(&mut self, thread: Tid)
        requires { IsSome (option_and_then flat_of (slice_get self.old.threads thread.0)) }
        ensures { self.new ≡ with_thread self.old thread.0 running }
    {
        let flat = release(&mut self.threads, &mut self.clock, thread);
        drop(flat);
    }

    /// Makes the nacks live that the scopes name of the group on which the thread waits.
    pub fn enter_nacks(&mut self, thread: Tid)
        requires { AreFresh (nacks_of (scopes (group_awaited self.old thread.0))) self.old.nacks }
        ensures { self.new ≡ record self.old { nacks = with_each (nacks_of (scopes (group_awaited self.old thread.0))) live self.old.nacks } }
    {
        enter_all(&mut self.nacks, &self.threads, thread);
    }

    /// The group that the thread waits on, if it does.
    pub fn waiting(&self, thread: Tid) -> Option<&Counted>
        ensures { option_copied result ≡ option_and_then flat_of (slice_get self.now.threads thread.0) }
    {
        match self.threads.get(thread.0 as usize) {
            Some(found) => found.flat(),
            None => None,
        }
    }

    /// Has the thread go on from this leaf of its group, and settles the group's nacks: each fires or is held.
    #[inline(always)]
    pub fn go_on(&mut self, thread: Tid, leaf: u32) -> Chosen
        requires { WaitsOn self.old.threads self.old.nacks thread.0 leaf (group_awaited self.old thread.0) }
        ensures world { self.new ≡ released self.old thread.0 leaf }
        ensures leaf { pick (group_awaited self.old thread.0) leaf
            ≡ Some (record { base = result.base; wraps = result.wraps.items }) }
        ensures lost { numbers result.lost.items ≡ lost (group_awaited self.old thread.0) leaf }
    {
        // settled and uncounted where it stands: so the group is moved once
        settle_all(&mut self.nacks, &self.threads, thread, leaf as usize);
        let flat = release(&mut self.threads, &mut self.clock, thread);
        flat.choose(leaf as usize)
    }
}

// Has the thread run from now on. Returns the group that it waited on, whose ticks are counted no more.
#[inline(always)]
fn release(threads: &mut Vec<Thread>, clock: &mut Clock, thread: Tid) -> Flat
    requires waits { IsSome (option_and_then flat_of (slice_get threads.old.items thread.0)) }
    requires counts { Counts threads.old.items clock.old.waited }
    ensures group { option_and_then flat_of (slice_get threads.old.items thread.0) ≡ Some result }
    ensures threads { threads.new.items ≡ slice_set threads.old.items thread.0 running }
    ensures counts { Counts threads.new.items clock.new.waited }
    ensures now { clock.new.tick ≡ clock.old.tick }
{
    let place = thread.0 as usize;
    if place >= threads.len() {
        unreachable!();
    }
    let Some(counted) = threads[place].flat() else {
        unreachable!();
    };
    counted.uncount_ticks(clock);
    let Some(flat) = threads[place].release() else {
        unreachable!();
    };
    flat
}

// Counts the leaves that wait for a tick of the group that the thread waits on, if it waits: all or none.
fn count_all(clock: &mut Clock, threads: &Vec<Thread>, thread: Tid) -> Result<(), AllocError>
    requires { (t : ℕ) → leaves_at clock.old.waited t < 2 ^ 63 }
    ensures ok { OnOk result ((t : ℕ) → leaves_at clock.new.waited t
        ≡ leaves_at clock.old.waited t + times_awaited t (bases (awaited (slice_get threads.now.items thread.0)))) }
    ensures err { OnErr result ((t : ℕ) → leaves_at clock.new.waited t ≡ leaves_at clock.old.waited t) }
    ensures now { clock.new.tick ≡ clock.old.tick }
    ensures few { leaf_count (awaited (slice_get threads.now.items thread.0)) ≤ max_leaves }
{
    let Some(found) = threads.get(thread.0 as usize) else {
        return Ok(());
    };
    match found.flat() {
        Some(flat) => flat.count_ticks(clock),
        None => Ok(()),
    }
}

// Settles the nacks of the group that the thread waits on, which goes on from this leaf.
fn settle_all(cells: &mut Register<NackCell>, threads: &Vec<Thread>, thread: Tid, leaf: usize)
    requires leaf { leaf < leaf_count (awaited (slice_get threads.now.items thread.0)) }
    requires alive { AreLiveNacks (nacks_of (scopes (awaited (slice_get threads.now.items thread.0)))) cells.old.objects }
    ensures objects { cells.new.objects ≡ settled leaf (awaited (slice_get threads.now.items thread.0)) cells.old.objects }
    ensures waits { cells.new.waits ≡ cells.old.waits }
{
    let Some(found) = threads.get(thread.0 as usize) else {
        unreachable!();
    };
    let Some(flat) = found.flat() else {
        unreachable!();
    };
    settle(cells, flat.flat(), leaf);
}

// Makes the nacks of the group that the thread waits on live, if it waits.
fn enter_all(cells: &mut Register<NackCell>, threads: &Vec<Thread>, thread: Tid)
    requires { AreFresh (nacks_of (scopes (awaited (slice_get threads.now.items thread.0)))) cells.old.objects }
    ensures objects { cells.new.objects
        ≡ with_each (nacks_of (scopes (awaited (slice_get threads.now.items thread.0)))) live cells.old.objects }
    ensures waits { cells.new.waits ≡ cells.old.waits }
{
    let Some(found) = threads.get(thread.0 as usize) else {
        return;
    };
    if let Some(flat) = found.flat() {
        enter(cells, flat.flat().scopes());
    }
}
