//! A group that a thread waits on, with its ticks counted.

ghost use Rattle.std.specs.{Prelude.{◌≡◌, true, ◌≤◌, ◌<◌, ◌+◌, ◌^◌, ◌++◌, ℕ, length, map, slice_get, Some, IfOk, OnOk, OnErr}, Vec.{vec_capacity}};
ghost use Rattle.cml_value.specs.Group.{bases, leaf_count, scopes, lost};
ghost use Rattle.cml_objects.specs.Clocks.{leaves_at};
ghost use Rattle.cml_group.specs.{LaidOut.{max_leaves}, Leaves.{leaf_base}};
ghost use Rattle.cml_book.specs.Keeping.{nack_light, times_awaited, has_no_tick, is_tickless, is_lightless};

use crate::nacks::push_lights;
use crate::ticks::{count_ticks, leaves_for, uncount_ticks};
use crate::walk::{BaseTest, all_bases};
use cml_group::Flat;
use cml_objects::Clock;
use cml_scan::Light;
use cml_value::{Base, BaseKind, Group};
use std::alloc::{AllocError, Global};
use std::marker::Model;

/// Up to so many leaves are gone through each time to find those that wait for a tick; where there are more, they are counted once, in a
/// clock.
const FEW_LEAVES: usize = 16;

// That a base event waits for no tick.
#[derive(Drop)]
struct Tickless {}

impl BaseTest for Tickless {
    ghost passes = { λ s b. has_no_tick b };

    fn passes(&self, base: &Base) -> bool {
        !matches!(base.kind(), BaseKind::At(_))
    }
}

// Whether no leaf of the group waits for a tick. Where it is known that none looks at a light, they are not gone through.
fn has_no_ticks(flat: &Flat, lightless: bool) -> bool
    requires { lightless ≡ true → is_lightless flat.now ≡ true }
    ensures { result ≡ true → is_tickless flat.now ≡ true }
{
    if lightless {
        return true;
    }
    all_bases(&Tickless {}, flat.group())
}

/// A group laid flat. How many of its leaves wait for a tick is found in a time logarithmic in the number of its leaves.
#[derive(Drop)]
pub struct Counted {
    flat: Flat,
    // that it is known that no leaf waits for a tick: then there is nothing to count
    tickless: bool,
    // that it is known that no leaf looks at a light
    lightless: bool,
    // how many leaves wait for each tick, where there are more than a few
    ticks: Option<Box<Clock>>,
}

impl Model for Counted {
    ghost use Rattle.std.specs.Prelude.{◌≡◌, true, ◌≤◌, IfSome};
    ghost use Rattle.cml_value.specs.{Group.{PlainGroup, leaf_count}, GroupCodes.{group_code}};
    ghost use Rattle.cml_group.specs.LaidOut.{max_leaves};
    ghost use Rattle.cml_book.specs.Keeping.{CountsLeaves, is_tickless, is_lightless};

    ghost Value = { PlainGroup };

    ghost coded = { group_code };

    ghost view = { λ c. c.flat };

    ghost invariant = { λ c. (leaf_count c.flat ≤ max_leaves) × IfSome c.ticks (λ clock. CountsLeaves clock.value.waited c.flat)
        × (c.tickless ≡ true → is_tickless c.flat ≡ true) × (c.lightless ≡ true → is_lightless c.flat ≡ true) };
}

impl Counted {
    /// Counts the ticks of the group. That takes no memory where it has at most 16 leaves, or none that waits for a tick. Of one of which
    /// it is known that no leaf looks at a light, the leaves are not gone through.
    ///
    /// # Errors
    /// Out of memory.
    pub fn new(alloc: Global, flat: Flat, lightless: bool) -> Result<Counted, AllocError>
        requires { lightless ≡ true → is_lightless flat ≡ true }
        ensures { IfOk result (λ c. c ≡ flat) }
    {
        let tickless = has_no_ticks(&flat, lightless);
        if flat.len() <= FEW_LEAVES || tickless {
            return Ok(Counted {
                flat,
                tickless,
                lightless,
                ticks: None,
            });
        }
        let mut ticks = Clock::new(alloc);
        let Ok(()) = count_ticks(&mut ticks, &flat) else {
            drop(ticks);
            drop(flat);
            return Err(AllocError);
        };
        let Ok(ticks) = Box::new(alloc, ticks) else {
            drop(flat);
            return Err(AllocError);
        };
        Ok(Counted {
            flat,
            tickless,
            lightless,
            ticks: Some(ticks),
        })
    }

    /// How many leaves of the group wait for the tick.
    pub fn leaves_for(&self, tick: u64) -> u64
        ensures leaves { result ≡ times_awaited tick (bases self.now) }
        ensures few { result ≤ max_leaves }
    {
        if self.tickless {
            return 0;
        }
        match &self.ticks {
            Some(ticks) => ticks.leaves(tick),
            None => leaves_for(&self.flat, tick),
        }
    }

    /// Counts the leaves of the group that wait for a tick, all or none.
    pub fn count_ticks(&self, clock: &mut Clock) -> Result<(), AllocError>
        requires { (t : ℕ) → leaves_at clock.old.waited t < 2 ^ 63 }
        ensures ok { OnOk result ((t : ℕ) →
            leaves_at clock.new.waited t ≡ leaves_at clock.old.waited t + times_awaited t (bases self.now)) }
        ensures err { OnErr result ((t : ℕ) → leaves_at clock.new.waited t ≡ leaves_at clock.old.waited t) }
        ensures now { clock.new.tick ≡ clock.old.tick }
        ensures few { leaf_count self.now ≤ max_leaves }
    {
        if self.tickless {
            return Ok(());
        }
        count_ticks(clock, &self.flat)
    }

    /// Takes the leaves of the group, which were counted, out of the count. It takes no memory.
    pub fn uncount_ticks(&self, clock: &mut Clock)
        requires { (t : ℕ) → times_awaited t (bases self.now) ≤ leaves_at clock.old.waited t }
        ensures left { (t : ℕ) → leaves_at clock.new.waited t + times_awaited t (bases self.now) ≡ leaves_at clock.old.waited t }
        ensures now { clock.new.tick ≡ clock.old.tick }
    {
        if self.tickless {
            return;
        }
        uncount_ticks(clock, &self.flat, self.flat.len());
    }

    /// Whether it is known that no leaf of the group waits for a tick.
    pub fn is_tickless(&self) -> bool
        ensures { result ≡ true → is_tickless self.now ≡ true }
    {
        self.tickless
    }

    /// Whether it is known that no leaf of the group looks at a light.
    pub fn is_lightless(&self) -> bool
        ensures { result ≡ true → is_lightless self.now ≡ true }
    {
        self.lightless
    }

    /// Appends the lights of the nacks that choosing the leaf fires. There is room for them.
    pub fn push_lights(&self, lights: &mut Vec<Light>, leaf: usize)
        requires leaf { leaf < leaf_count self.now }
        requires room { length lights.old.items + length (scopes self.now) ≤ vec_capacity lights.old }
        ensures lights { lights.new.items ≡ lights.old.items ++ map nack_light (lost self.now leaf) }
        ensures room { vec_capacity lights.new ≡ vec_capacity lights.old }
    {
        push_lights(lights, &self.flat, leaf);
    }

    /// The group laid flat.
    pub fn flat(&self) -> &Flat
        ensures { result.now ≡ self.now }
    {
        &self.flat
    }

    pub fn into_flat(self) -> Flat
        ensures { result ≡ self }
    {
        self.flat
    }

    pub fn group(&self) -> &Group
        ensures { result.now ≡ self.now }
    {
        self.flat.group()
    }

    /// How many leaves there are.
    pub fn len(&self) -> usize
        ensures { result ≡ leaf_count self.now }
    {
        self.flat.len()
    }

    /// What the leaf of this number waits for.
    pub fn leaf(&self, n: usize) -> &Base
        requires { n < leaf_count self.now }
        ensures { leaf_base self.now n ≡ Some result.now }
    {
        self.flat.leaf(n)
    }
}
