//! A system whose schedules can be searched.

ghost use Rattle.std.specs.Prelude.{◌≡◌, true, IsSome, IfSome, IfOk};
ghost use Rattle.cml_verify.specs.Systems as spec;
ghost use Rattle.cml_verify.specs.Systems.{IsLawful, IsSchedule, LeadsTo};

use std::alloc::{AllocError, AllocFailed, Global};
use std::hash::Hash;

/// Why a search gave up.
#[derive(Clone, Copy, Debug, PartialEq, Eq)]
pub enum Gap {
    /// Out of memory.
    Memory,
    /// The system can't keep a state.
    Unkept,
}

impl From<AllocError> for Gap {
    fn from(_error: AllocError) -> Gap {
        Gap::Memory
    }
}

impl<T: Drop> From<AllocFailed<T>> for Gap {
    fn from(_failed: AllocFailed<T>) -> Gap {
        Gap::Memory
    }
}

/// A system of threads, of which each item is at hand, and something is kept of each state.
pub trait System {
    /// What is kept of a state. It says which state it is.
    type Kept: Eq + Hash + Drop;

    type Item: Copy;

    /// A state of the system.
    ghost State: { Type 0 };

    /// What it does.
    ghost rules: { Self → spec.System State Self.Item };

    /// The state of which this is kept.
    ghost state_of: { Self → Self.Kept → State };

    /// Where it begins.
    ///
    /// # Errors
    /// Out of memory, or the state can't be kept.
    fn start(&self, alloc: Global) -> Result<Self::Kept, Gap>
        ensures { IfOk result (λ kept. state_of self.now kept ≡ (rules self.now).start) };

    /// The items that can be taken where this schedule leads.
    ///
    /// # Errors
    /// Out of memory, or a state can't be kept.
    fn allowed(&self, alloc: Global, schedule: &[Self::Item]) -> Result<Vec<Self::Item>, Gap>
        requires { IsSchedule (rules self.now) schedule.now }
        ensures { IfOk result (λ items. LeadsTo (rules self.now) schedule.now (λ s. items.items ≡ (rules self.now).allowed s)) };

    /// A quiet turn where this schedule leads, if it finds one.
    ///
    /// # Errors
    /// Out of memory, or a state can't be kept.
    fn quiet(&self, alloc: Global, schedule: &[Self::Item]) -> Result<Option<Self::Item>, Gap>
        requires { IsSchedule (rules self.now) schedule.now }
        ensures { IfOk result (λ found. IfSome found (λ turn. LeadsTo (rules self.now) schedule.now (λ s. (rules self.now).quiet s turn ≡ true))) };

    /// The state after this schedule and then an item that can be taken there.
    ///
    /// # Errors
    /// Out of memory, or the state can't be kept.
    fn step(
        &self,
        alloc: Global,
        schedule: &[Self::Item],
        item: Self::Item,
    ) -> Result<Self::Kept, Gap>
        requires { LeadsTo (rules self.now) schedule.now (λ s. IsSome ((rules self.now).step s item)) }
        ensures { IfOk result (λ next. LeadsTo (rules self.now) schedule.now (λ s. (rules self.now).step s item ≡ Some (state_of self.now next))) };

    /// What is equal is kept of one state.
    ghost same: { (a b : Self.Kept) → Self.Kept.eq a b ≡ true → a ≡ b };

    /// It does what is promised of a system.
    ghost lawful: { (y : Self) → IsLawful (rules y) };
}
