//! The ticks that the leaves of a group wait for, counted in the clock.

ghost use Rattle.std.specs.{Prelude.{◌≡◌, ◌≤◌, ◌<◌, ◌+◌, ◌^◌, ◌++◌, ℕ, [], ◌∷◌, true, length, map, take, IfOk, OnOk, OnErr}, List.{filter}};
ghost use Rattle.std.specs.Vec.{vec_capacity};
ghost use Rattle.cml_value.specs.Group.{bases, leaf_count};
ghost use Rattle.cml_objects.specs.Clocks.{leaves_at};
ghost use Rattle.cml_group.specs.LaidOut.{max_leaves};
ghost use Rattle.cml_scan.specs.{World.{pending}, Table.{has_light}, declared.object.Light.{Light}};
ghost use Rattle.cml_scan.specs.declared.object.Light.TheVariants as of;
ghost use Rattle.cml_book.specs.{Clock.{bases_awaited}, Keeping.{lights_in, awaits_tick, times_awaited}, Leaving.{comes, is_left, bases_of}};

use crate::counted::Counted;
use crate::state::State;
use cml_group::Flat;
use cml_objects::Clock;
use cml_scan::Light;
use cml_value::{Base, BaseKind};
use std::alloc::{AllocError, Global};

/// Counts the leaves of the group that wait for a tick, all or none.
pub fn count_ticks(clock: &mut Clock, flat: &Flat) -> Result<(), AllocError>
    requires { (t : ℕ) → leaves_at clock.old.waited t < 2 ^ 63 }
    ensures ok { OnOk result ((t : ℕ) →
        leaves_at clock.new.waited t ≡ leaves_at clock.old.waited t + times_awaited t (bases flat.now)) }
    ensures err { OnErr result ((t : ℕ) → leaves_at clock.new.waited t ≡ leaves_at clock.old.waited t) }
    ensures now { clock.new.tick ≡ clock.old.tick }
    ensures few { leaf_count flat.now ≤ max_leaves }
{
    for n in 0..flat.len() {
        let Ok(()) = count_tick(clock, flat.leaf(n)) else {
            uncount_ticks(clock, flat, n);
            return Err(AllocError);
        };
    }
    Ok(())
}

fn count_tick(clock: &mut Clock, base: &Base) -> Result<(), AllocError>
    requires { (t : ℕ) → leaves_at clock.old.waited t + 1 < 2 ^ 64 }
    ensures ok { OnOk result ((t : ℕ) →
        leaves_at clock.new.waited t ≡ leaves_at clock.old.waited t + times_awaited t (base.now ∷ [])) }
    ensures err { OnErr result ((t : ℕ) → leaves_at clock.new.waited t ≡ leaves_at clock.old.waited t) }
    ensures now { clock.new.tick ≡ clock.old.tick }
{
    match base.kind() {
        BaseKind::At(tick) => clock.wait(*tick),
        _ => Ok(()),
    }
}

/// Takes the leaves of the group below this number, which were counted, out of the count. It takes no memory.
pub fn uncount_ticks(clock: &mut Clock, flat: &Flat, past: usize)
    requires past { past ≤ leaf_count flat.now }
    requires counted { (t : ℕ) → times_awaited t (take past (bases flat.now)) ≤ leaves_at clock.old.waited t }
    ensures left { (t : ℕ) →
        leaves_at clock.new.waited t + times_awaited t (take past (bases flat.now)) ≡ leaves_at clock.old.waited t }
    ensures now { clock.new.tick ≡ clock.old.tick }
{
    for n in 0..past {
        uncount_tick(clock, flat.leaf(n));
    }
}

fn uncount_tick(clock: &mut Clock, base: &Base)
    requires { (t : ℕ) → times_awaited t (base.now ∷ []) ≤ leaves_at clock.old.waited t }
    ensures left { (t : ℕ) →
        leaves_at clock.new.waited t + times_awaited t (base.now ∷ []) ≡ leaves_at clock.old.waited t }
    ensures now { clock.new.tick ≡ clock.old.tick }
{
    if let BaseKind::At(tick) = base.kind() {
        clock.leave(*tick);
    }
}

/// How many leaves of the group wait for the tick, found by looking at each.
pub fn leaves_for(flat: &Flat, tick: u64) -> u64
    ensures leaves { result ≡ times_awaited tick (bases flat.now) }
    ensures few { result ≤ max_leaves }
{
    let mut leaves = 0;
    for n in 0..flat.len() {
        if awaits(flat.leaf(n), tick) {
            leaves += 1;
        }
    }
    leaves
}

fn awaits(base: &Base, tick: u64) -> bool
    ensures { result ≡ awaits_tick tick base.now }
{
    match base.kind() {
        BaseKind::At(t) => *t == tick,
        _ => false,
    }
}

// How many leaves of the group wait for the tick, if there is a group.
fn leaves_for_other(flat: Option<&Counted>, tick: u64) -> u64
    ensures leaves { result ≡ times_awaited tick (bases_of flat.entry) }
    ensures few { result ≤ max_leaves }
{
    match flat {
        Some(flat) => flat.leaves_for(tick),
        None => 0,
    }
}

impl State {
    /// The lights of the ticks that come when the clock moves to this one: those for which leaves of pending threads wait.
    ///
    /// # Errors
    /// Out of memory.
    pub fn ticks_until(&self, alloc: Global, to: u64) -> Result<Vec<Light>, AllocError>
        requires { self.now.tick ≤ to }
        ensures only { IfOk result (λ lights. (l : Light) → has_light lights.items l ≡ true → comes (self.now.tick) to l ≡ true) }
        ensures all { IfOk result (λ lights. (t : ℕ) → 1 ≤ times_awaited t (bases_awaited (pending self.now)) →
            self.now.tick < t → t ≤ to → has_light lights.items (of.Alarm t) ≡ true) }
    {
        let ticks = self.clock.ticks_until(alloc, to)?;
        alarms_at(alloc, &ticks)
    }

    /// Appends the lights of the ticks of this group for which nobody else waits: each leaf that waits for them is in this group or in the
    /// other one. There is room for them.
    pub fn push_left_ticks(&self, lights: &mut Vec<Light>, flat: &Counted, other: Option<&Counted>)
        requires { length lights.old.items + leaf_count flat.now ≤ vec_capacity lights.old }
        ensures lights { lights.new.items ≡ lights.old.items
            ++ lights_in (filter (is_left (bases_awaited (pending self.now)) (bases flat.now) (bases_of other.entry)) (bases flat.now)) }
        ensures room { vec_capacity lights.new ≡ vec_capacity lights.old }
    {
        if flat.is_tickless() {
            return;
        }
        self.push_each_left(lights, flat, other);
    }

    // The same, where it is not known that no leaf of the group waits for a tick.
    #[inline(never)]
    fn push_each_left(&self, lights: &mut Vec<Light>, flat: &Counted, other: Option<&Counted>)
        requires { length lights.old.items + leaf_count flat.now ≤ vec_capacity lights.old }
        ensures lights { lights.new.items ≡ lights.old.items
            ++ lights_in (filter (is_left (bases_awaited (pending self.now)) (bases flat.now) (bases_of other.entry)) (bases flat.now)) }
        ensures room { vec_capacity lights.new ≡ vec_capacity lights.old }
    {
        for n in 0..flat.len() {
            self.push_left_tick(lights, flat, other, flat.leaf(n));
        }
    }

    fn push_left_tick(
        &self,
        lights: &mut Vec<Light>,
        flat: &Counted,
        other: Option<&Counted>,
        base: &Base,
    )
        requires { length lights.old.items + 1 ≤ vec_capacity lights.old }
        ensures lights { lights.new.items ≡ lights.old.items
            ++ lights_in (filter (is_left (bases_awaited (pending self.now)) (bases flat.now) (bases_of other.entry)) (base.now ∷ [])) }
        ensures room { vec_capacity lights.new ≡ vec_capacity lights.old }
    {
        if let BaseKind::At(tick) = base.kind() {
            if self.clock.leaves(*tick) == flat.leaves_for(*tick) + leaves_for_other(other, *tick) {
                lights.push_reserved(Light::Alarm(*tick));
            }
        }
    }
}

// The lights of these ticks.
fn alarms_at(alloc: Global, ticks: &[u64]) -> Result<Vec<Light>, AllocError>
    ensures { IfOk result (λ lights. lights.items ≡ map of.Alarm ticks.now) }
{
    let mut lights = Vec::new(alloc);
    for tick in ticks {
        lights.push(Light::Alarm(*tick))?;
    }
    Ok(lights)
}
