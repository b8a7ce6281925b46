//! What was told of lights.

ghost use Rattle.std.specs.Prelude.{◌≡◌, ◌≤◌, ◌+◌, ◌*◌, [], ◌∷◌, true, false, not, if◌then◌else◌, length, filter, OnOk, IsOk};
ghost use Rattle.cml_scan.specs.{declared.object.Light.{Light}, Table.{same_light}};
ghost use Rattle.cml_index.specs.{declared.slot.Slot.{Slot}, Slot.{same_slot}, Waits.{lit_wait}, declared.slot.Slot.TheVariants.{Waiters}};
ghost use Rattle.cml_index.specs.Posts as spec;

use crate::slot::{Slot, Wait};
use crate::told::Told;
use cml_objects::Tally;
use cml_scan::Light;
use std::alloc::{AllocError, Global};
use std::marker::Model;

// For each light that was told of, or for which a place is reserved: what was told last.
#[derive(Drop)]
pub(crate) struct Flags {
    told: Told,
}

impl Model for Flags {
    ghost use Rattle.cml_index.specs.Told.{PlainFlags, all_told, flags_code};

    ghost Value = { PlainFlags };

    ghost coded = { flags_code };

    ghost view = { λ x. record { entries = all_told x.told } };
}

impl Flags {
    // Nothing was told.
    pub(crate) fn new(alloc: Global) -> Flags
        ensures { result.entries ≡ [] }
    {
        Flags {
            told: Told::new(alloc),
        }
    }
}

// Whether the light is lit.
pub(crate) fn is_lit(flags: &Flags, light: Light) -> bool
    ensures { result ≡ spec.told flags.now.entries light }
{
    flags.told.is_lit(light)
}

// Whether a leaf that waits for this can be taken alone: the light is examined, where it waits for one.
#[inline(always)]
pub(crate) fn is_lit_by(flags: &Flags, wait: Wait, tally: &mut Tally) -> bool
    ensures value { result ≡ lit_wait (spec.told flags.now.entries) wait }
    ensures cost { tally.new ≤ tally.old + 1 }
{
    match wait {
        Wait::Always => true,
        Wait::Never => false,
        Wait::In(slot) => match slot {
            Slot::Side { .. } => false,
            Slot::Waiters(light) => {
                tally.add();
                is_lit(flags, light)
            }
        },
    }
}

// How many of these leaves can be taken alone: each is looked at, and its light.
pub(crate) fn count_lit(flags: &Flags, waits: &[Wait], tally: &mut Tally) -> usize
    ensures count { result ≡ length (filter (lit_wait (spec.told flags.now.entries)) waits.now) }
    ensures cost { tally.new ≤ tally.old + 2 * length waits.now }
{
    let mut count = 0;
    for wait in waits {
        tally.add();
        if is_lit_by(flags, *wait, tally) {
            count += 1;
        }
    }
    count
}

// The same, of the one leaf of a group.
#[inline(always)]
pub(crate) fn count_lone(flags: &Flags, wait: &Wait, tally: &mut Tally) -> usize
    ensures count { result ≡ length (filter (lit_wait (spec.told flags.now.entries)) (wait.now ∷ [])) }
    ensures cost { tally.new ≤ tally.old + 2 }
{
    tally.add();
    if is_lit_by(flags, *wait, tally) { 1 } else { 0 }
}

// The same as `count_lit`, where it is known that not more than this many can be: where that is 0, no leaf is looked at.
#[inline(always)]
pub(crate) fn count_lit_within(
    most: usize,
    flags: &Flags,
    waits: &[Wait],
    tally: &mut Tally,
) -> usize
    requires { length (filter (lit_wait (spec.told flags.now.entries)) waits.now) ≤ most }
    ensures count { result ≡ length (filter (lit_wait (spec.told flags.now.entries)) waits.now) }
    ensures cost { tally.new ≤ tally.old + 2 * length waits.now }
{
    if most == 0 {
        return 0;
    }
    count_lit(flags, waits, tally)
}

// Reserves the place of a light of which nothing was told. What was told of any light stays.
pub(crate) fn reserve(flags: &mut Flags, light: Light) -> Result<(), AllocError>
    ensures kept { spec.OnlyReserves flags.old.entries flags.new.entries }
    ensures there { OnOk result (spec.is_named flags.new.entries (Waiters light) ≡ true) }
    ensures sure { spec.is_named flags.old.entries (Waiters light) ≡ true → IsOk result }
{
    flags.told.reserve(light)
}

// Tells of the light, and returns whether that was new. A light that is told to be lit has its place.
pub(crate) fn flip(flags: &mut Flags, light: Light, lit: bool) -> bool
    requires { lit ≡ true → spec.is_named flags.old.entries (Waiters light) ≡ true }
    ensures told { (m : Light) → spec.told flags.new.entries m
        ≡ (if same_light light m then lit else spec.told flags.old.entries m) }
    ensures changed { result ≡ (if lit then not (spec.told flags.old.entries light)
        else spec.told flags.old.entries light) }
    ensures kept { spec.KeepsPlaces flags.old.entries flags.new.entries }
{
    flags.told.flip(light, lit)
}

// Forgets what was told of the light, which is not lit, if it is a tick. Those of other lights are no more than there are objects, and they
// stay.
pub(crate) fn forget_light(flags: &mut Flags, light: Light)
    requires { spec.told flags.old.entries light ≡ false }
    ensures told { (m : Light) →
        spec.told flags.new.entries m ≡ spec.told flags.old.entries m }
    ensures kept { (k : Slot) → same_slot (Waiters light) k ≡ false →
        spec.is_named flags.new.entries k ≡ spec.is_named flags.old.entries k }
{
    if let Light::Alarm(tick) = light {
        flags.told.forget(tick);
    }
}
