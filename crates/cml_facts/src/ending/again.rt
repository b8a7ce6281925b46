//! A run is made again, by a second hub.

ghost use Rattle.std.specs.Prelude.{◌≡◌, true, IfOk, OnOk};
ghost use Rattle.cml_hub.specs.{Kept.{NoneOut}, Runs.{is_allowed}};
ghost use Rattle.cml_facts.specs.Again.{RunsAgain, AddsAlone};

use cml_hub::{Hub, Item};
use std::alloc::{AllocError, AllocFailed, Global};

/// A hub at the beginning of the other's program, with the same budget.
///
/// # Errors
/// Out of memory.
pub fn begin_again(alloc: Global, hub: &Hub) -> Result<Hub, AllocError>
    ensures gone { IfOk result (λ second. RunsAgain hub.now second 0) }
    ensures budget { IfOk result (λ second. second.budget ≡ hub.now.budget) }
{
    match Hub::begin(alloc, hub.program().copy()?, hub.budget(), None) {
        Ok(second) => Ok(second),
        Err(AllocFailed { value }) => {
            drop(value);
            Err(AllocError)
        }
    }
}

/// The item comes, which is allowed now.
///
/// # Errors
/// Out of memory.
pub fn come(alloc: Global, hub: &mut Hub, item: Item) -> Result<(), AllocError>
    requires out { NoneOut hub.old }
    requires allowed { is_allowed hub.old.course.world item ≡ true }
    ensures { OnOk result (AddsAlone hub.old item hub.new) }
{
    match hub.follow(alloc, item)? {
        true => Ok(()),
        false => unreachable!(),
    }
}

/// The hub is used no more.
#[inline(never)]
pub fn let_go(hub: Hub) {
    drop(hub);
}
