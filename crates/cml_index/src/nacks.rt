//! The nacks of a group's scopes, and their places among the lights.

ghost use Rattle.std.specs.Prelude.{◌≡◌, ◌++◌, OnOk, IfOk, IsOk};
ghost use Rattle.cml_value.specs.Group.{scopes, nacks_of};
ghost use Rattle.cml_scan.specs.Order.{Every};
ghost use Rattle.cml_index.specs.Posts as spec;

use crate::flags::{Flags, reserve};
use cml_scan::Light;
use cml_value::NackId;
use std::alloc::AllocError;

// Reserves the places of these nacks, so that they can be turned on when their group goes. What was told of any light stays.
pub(crate) fn reserve_nacks(flags: &mut Flags, nacks: &[u32]) -> Result<(), AllocError>
    ensures kept { spec.OnlyReserves flags.old.entries flags.new.entries }
    ensures there { OnOk result
        (Every (λ k. spec.is_named flags.new.entries (spec.slot_of_nack k)) nacks.now) }
{
    for nack in nacks {
        reserve(flags, Light::Nack(NackId(*nack)))?;
    }
    Ok(())
}

// Reserves the places of these lights. What was told of any light stays.
pub(crate) fn reserve_lights(flags: &mut Flags, lights: &[Light]) -> Result<(), AllocError>
    ensures kept { spec.OnlyReserves flags.old.entries flags.new.entries }
    ensures there { OnOk result (spec.HavePlaces flags.new.entries lights.now) }
    ensures sure { spec.HavePlaces flags.old.entries lights.now → IsOk result }
{
    for light in lights {
        reserve(flags, *light)?;
    }
    Ok(())
}
