//! Equality of worlds and of machines.

ghost use Rattle.std.specs.Prelude.{◌≡◌, ◌↔◌, IsTrue, ℕ, List, Option, map, option_map};
ghost use Rattle.cml_value.specs.Value.{PlainValue, PlainFunction};
ghost use Rattle.cml_scan.specs.World.{PlainThread, PlainNack};
ghost use Rattle.cml_scan.specs.Views.{thread_of, nack_of};
ghost use Rattle.cml_step.specs.Machines.{PlainMachine};

use cml_scan::{NackState, ThreadState, World};
use cml_step::Machine;
use cml_value::{FnRef, PortId, Value};

/// What can be compared with another of its kind.
pub(crate) trait Same {
    /// What it is, as plain data.
    ghost Plain: { Type 0 };

    ghost plain: { Self → Plain };

    /// Whether the two are the same.
    fn same(&self, other: &Self) -> bool
        ensures { IsTrue result ↔ (plain self.now ≡ plain other.now) };
}

/// Whether the two lists are the same, one by one.
pub(crate) fn same_all<T: Same>(these: &[T], others: &[T]) -> bool
    ensures { IsTrue result ↔ (map T.plain these.now ≡ map T.plain others.now) }
{
    if these.len() != others.len() {
        return false;
    }
    for i in 0..these.len() {
        if !these[i].same(&others[i]) {
            return false;
        }
    }
    true
}

impl Same for Value {
    ghost Plain = { PlainValue };

    ghost plain = { λ v. v };

    fn same(&self, other: &Value) -> bool {
        Value::same(self, other)
    }
}

impl Same for FnRef {
    ghost Plain = { PlainFunction };

    ghost plain = { λ f. f };

    fn same(&self, other: &FnRef) -> bool {
        FnRef::same(self, other)
    }
}

impl Same for PortId {
    ghost Plain = { ℕ };

    ghost plain = { λ p. p.0 };

    fn same(&self, other: &PortId) -> bool {
        self.0 == other.0
    }
}

impl Same for Option<Value> {
    ghost Plain = { Option PlainValue };

    ghost plain = { λ o. o };

    fn same(&self, other: &Option<Value>) -> bool {
        match (self, other) {
            (None, None) => true,
            (Some(value), Some(second)) => Value::same(value, second),
            _ => false,
        }
    }
}

impl Same for Vec<Value> {
    ghost Plain = { List PlainValue };

    ghost plain = { λ v. v.items };

    fn same(&self, other: &Vec<Value>) -> bool {
        same_all(self.as_slice(), other.as_slice())
    }
}

impl Same for Vec<PortId> {
    ghost Plain = { List ℕ };

    ghost plain = { λ v. map (λ p. p.0) v.items };

    fn same(&self, other: &Vec<PortId>) -> bool {
        same_all(self.as_slice(), other.as_slice())
    }
}

impl Same for Option<Vec<u8>> {
    ghost Plain = { Option (List ℕ) };

    ghost plain = { λ o. option_map (λ bytes. bytes.items) o };

    fn same(&self, other: &Option<Vec<u8>>) -> bool {
        match (self, other) {
            (None, None) => true,
            (Some(bytes), Some(others)) => bytes.as_slice() == others.as_slice(),
            _ => false,
        }
    }
}

impl Same for ThreadState {
    ghost Plain = { PlainThread };

    ghost plain = { thread_of };

    fn same(&self, other: &ThreadState) -> bool {
        match (self, other) {
            (ThreadState::Running, ThreadState::Running) => true,
            (ThreadState::Pending(group), ThreadState::Pending(second)) => group.same(second),
            (ThreadState::Ended, ThreadState::Ended) => true,
            _ => false,
        }
    }
}

impl Same for NackState {
    ghost Plain = { PlainNack };

    ghost plain = { nack_of };

    fn same(&self, other: &NackState) -> bool {
        match (self, other) {
            (NackState::Fresh(thread), NackState::Fresh(second)) => thread.0 == second.0,
            (NackState::Live, NackState::Live) => true,
            (NackState::Fired, NackState::Fired) => true,
            (NackState::Held, NackState::Held) => true,
            _ => false,
        }
    }
}

impl Same for Machine {
    ghost Plain = { PlainMachine };

    ghost plain = { λ m. m };

    fn same(&self, other: &Machine) -> bool {
        Machine::same(self, other)
    }
}

// Whether the time is the same, and how many channels there are.
fn same_counts(world: &World, other: &World) -> bool
    ensures { IsTrue result ↔ ((world.now.channels ≡ other.now.channels) × (world.now.swaps ≡ other.now.swaps) × (world.now.tick ≡ other.now.tick)) }
{
    world.channels == other.channels && world.swaps == other.swaps && world.tick == other.tick
}

// Whether the threads and the nacks are the same.
fn same_threads(world: &World, other: &World) -> bool
    ensures { IsTrue result ↔ ((world.now.threads ≡ other.now.threads) × (world.now.nacks ≡ other.now.nacks)) }
{
    same_all(world.threads.as_slice(), other.threads.as_slice())
        && same_all(world.nacks.as_slice(), other.nacks.as_slice())
}

// Whether the variables hold the same.
fn same_variables(world: &World, other: &World) -> bool
    ensures { IsTrue result ↔ ((world.now.ivars ≡ other.now.ivars) × (world.now.mvars ≡ other.now.mvars)) }
{
    same_all(world.ivars.as_slice(), other.ivars.as_slice())
        && same_all(world.mvars.as_slice(), other.mvars.as_slice())
}

// Whether the queues hold the same.
fn same_queues(world: &World, other: &World) -> bool
    ensures { IsTrue result ↔ ((world.now.mailboxes ≡ other.now.mailboxes) × (world.now.mchans ≡ other.now.mchans) × (world.now.ports ≡ other.now.ports)) }
{
    same_all(world.mailboxes.as_slice(), other.mailboxes.as_slice())
        && same_all(world.mchans.as_slice(), other.mchans.as_slice())
        && same_all(world.ports.as_slice(), other.ports.as_slice())
}

/// Whether the two are the same world.
pub(crate) fn same_world(world: &World, other: &World) -> bool
    ensures { IsTrue result ↔ (world.now ≡ other.now) }
{
    same_counts(world, other)
        && same_threads(world, other)
        && same_variables(world, other)
        && same_queues(world, other)
}
