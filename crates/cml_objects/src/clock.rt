//! The time, and the ticks that threads wait for.

ghost use Rattle.std.specs.Prelude.{◌≡◌, ◌↔◌, ◌<◌, ◌≤◌, ◌+◌, ◌^◌, ℕ, [], IsTrue, IsOk, IfSome, IfNone, IfOk, OnOk, OnErr, Contains, AllPairs};
ghost use Rattle.cml_objects.specs.Clocks.{leaves_at, IsWaited, AddsLeaf, RemovesLeaf, LightsTick};

use std::alloc::{AllocError, Global};
use std::collections::BTreeMap;
use std::marker::Model;
use std::ops::Bound;

/// The time now, and for each tick that a leaf of a pending thread waits for, how many do.
///
/// Each call except `ticks_until` takes time logarithmic in the number of waited ticks, however many leaves wait.
#[derive(Drop)]
pub struct Clock {
    tick: u64,
    waited: BTreeMap<u64, u64>,
}

impl Model for Clock {
    ghost use Rattle.std.specs.{Prelude.{◌<◌, All}, Map.{values_of}};
    ghost use Rattle.cml_objects.specs.Clocks.{PlainClock, clock_code};

    ghost Value = { PlainClock };

    ghost coded = { clock_code };

    ghost view = { λ clock. record { tick = clock.tick; waited = clock.waited.entries } };

    ghost invariant = { λ clock. All (λ leaves. 0 < leaves) (values_of clock.waited.entries) };
}

impl Clock {
    /// A clock at tick 0, for which nobody waits.
    pub fn new(alloc: Global) -> Clock
        ensures { result ≡ record { tick = 0; waited = [] } }
    {
        Clock {
            tick: 0,
            waited: BTreeMap::new(alloc),
        }
    }

    /// The time.
    pub fn now(&self) -> u64
        ensures { result ≡ self.now.tick }
    {
        self.tick
    }

    /// Whether the tick has come, so that a wait for it is enabled.
    pub fn has_come(&self, tick: u64) -> bool
        ensures { IsTrue result ↔ (tick ≤ self.now.tick) }
    {
        tick <= self.tick
    }

    /// How many leaves wait for the tick.
    pub fn leaves(&self, tick: u64) -> u64
        ensures { result ≡ leaves_at self.now.waited tick }
    {
        self.waited.get(&tick).copied().unwrap_or(0)
    }

    /// Counts one more leaf that waits for the tick.
    ///
    /// # Errors
    /// Out of memory, where no leaf waited for it: nothing changes.
    pub fn wait(&mut self, tick: u64) -> Result<(), AllocError>
        requires { leaves_at self.old.waited tick + 1 < 2 ^ 64 }
        ensures ok { OnOk result (AddsLeaf tick self.old.waited self.new.waited) }
        ensures err { OnErr result (self.new ≡ self.old) }
        ensures sure { 0 < leaves_at self.old.waited tick → IsOk result }
        ensures now { self.new.tick ≡ self.old.tick }
    {
        let leaves = self.leaves(tick);
        self.waited.insert(tick, leaves + 1)?;
        Ok(())
    }

    /// Counts one leaf less that waits for the tick. It takes no memory.
    pub fn leave(&mut self, tick: u64)
        ensures waited { RemovesLeaf tick self.old.waited self.new.waited }
        ensures now { self.new.tick ≡ self.old.tick }
    {
        let leaves = self.leaves(tick);
        if leaves > 1 {
            // The tick is there, so this takes no memory.
            let _ = self.waited.insert(tick, leaves - 1);
        } else {
            let _ = self.waited.remove(&tick);
        }
    }

    /// The ticks that come when the clock moves to this time, ascending: those for which leaves wait, after the time now, and up to the new
    /// one and with it.
    ///
    /// # Errors
    /// Out of memory.
    pub fn ticks_until(&self, alloc: Global, to: u64) -> Result<Vec<u64>, AllocError>
        requires { self.now.tick ≤ to }
        ensures exact { IfOk result (λ ticks.
            (t : ℕ) → Contains ticks.items t ↔ LightsTick self.now to t) }
        ensures order { IfOk result (λ ticks. AllPairs (λ a b. a < b) ticks.items) }
    {
        let mut ticks = Vec::new(alloc);
        for (tick, _) in self
            .waited
            .range((Bound::Excluded(self.tick), Bound::Included(to)))
        {
            ticks.push(*tick)?;
        }
        Ok(ticks)
    }

    /// Moves the clock on. It takes no memory.
    pub fn advance(&mut self, to: u64)
        requires { self.old.tick ≤ to }
        ensures now { self.new.tick ≡ to }
        ensures waited { self.new.waited ≡ self.old.waited }
    {
        self.tick = to;
    }

    /// The next alarm: the least waited tick that has not come.
    pub fn next_alarm(&self) -> Option<u64>
        ensures waited { IfSome result (IsWaited self.now) }
        ensures above { IfSome result (λ alarm. self.now.tick < alarm) }
        ensures least { IfSome result (λ alarm.
            (t : ℕ) → IsWaited self.now t → self.now.tick < t → alarm ≤ t) }
        ensures none { IfNone result ((t : ℕ) → IsWaited self.now t → t ≤ self.now.tick) }
    {
        match self
            .waited
            .range((Bound::Excluded(self.tick), Bound::Unbounded))
            .next()
        {
            Some((tick, _)) => Some(*tick),
            None => None,
        }
    }
}
