//! What becomes of the nacks of a group.

ghost use Rattle.std.specs.Prelude.{◌≡◌, ◌<◌, ◌≤◌, ◌+◌, ◌++◌, [], ◌∷◌, length, map, slice_get, slice_set, Some, true, if◌then◌else◌, OnOk};
ghost use Rattle.std.specs.Vec.{vec_capacity};
ghost use Rattle.cml_value.specs.{Group.{leaf_count, scopes, nacks_of, lost}, Nack.{live, fired, held}};
ghost use Rattle.cml_group.specs.Leaves.{numbers};
ghost use Rattle.cml_book.specs.{Commit.{settled}, Sync.{with_each}, Keeping.{nack_light, AreLiveNacks, AreFresh, is_fresh, FitsIn, RoomGrows}};

use crate::counted::Counted;
use cml_group::Flat;
use cml_objects::{NackCell, NackFeed, Register};
use cml_scan::Light;
use cml_value::NackId;
use std::alloc::AllocError;

/// Makes room for the lights that a commit of the group and of another such group turns on and off, and for those that its leaves wait for.
///
/// # Errors
/// Out of memory. What there was room for before, there still is.
pub fn make_room(
    lit: &mut Vec<Light>,
    unlit: &mut Vec<Light>,
    flat: &Counted,
) -> Result<(), AllocError>
    ensures lit { lit.new.items ≡ lit.old.items }
    ensures unlit { unlit.new.items ≡ unlit.old.items }
    ensures fits { OnOk result (lit.old.items ≡ [] → unlit.old.items ≡ [] →
        FitsIn flat.now (record { lit = vec_capacity lit.new; unlit = vec_capacity unlit.new })) }
    ensures awaited { OnOk result (lit.old.items ≡ [] → unlit.old.items ≡ [] →
        (leaf_count flat.now ≤ vec_capacity lit.new) × (leaf_count flat.now ≤ vec_capacity unlit.new)) }
    ensures grows { RoomGrows (record { lit = vec_capacity lit.old; unlit = vec_capacity unlit.old })
        (record { lit = vec_capacity lit.new; unlit = vec_capacity unlit.new }) }
{
    lit.reserve(2 * flat.flat().scopes().len() + flat.flat().len())?;
    unlit.reserve(2 * flat.flat().len() + 1)
}

/// Appends the lights of the nacks that choosing the leaf fires. There is room for them.
pub fn push_lights(lights: &mut Vec<Light>, flat: &Flat, leaf: usize)
    requires leaf { leaf < leaf_count flat.now }
    requires room { length lights.old.items + length (scopes flat.now) ≤ vec_capacity lights.old }
    ensures lights { lights.new.items ≡ lights.old.items ++ map nack_light (lost flat.now leaf) }
    ensures room { vec_capacity lights.new ≡ vec_capacity lights.old }
{
    let nacks = flat.scopes();
    for i in 0..nacks.len() {
        push_light(lights, nacks[i], flat.loses(leaf, i));
    }
}

fn push_light(lights: &mut Vec<Light>, nack: NackId, is_lost: bool)
    requires { length lights.old.items + 1 ≤ vec_capacity lights.old }
    ensures lights { lights.new.items ≡ (if is_lost then lights.old.items ++ nack_light nack.0 ∷ [] else lights.old.items) }
    ensures room { vec_capacity lights.new ≡ vec_capacity lights.old }
{
    if is_lost {
        lights.push_reserved(Light::Nack(nack));
    }
}

/// Fires the nacks in whose branches the leaf does not lie, and holds the others.
pub fn settle(cells: &mut Register<NackCell>, flat: &Flat, leaf: usize)
    requires leaf { leaf < leaf_count flat.now }
    requires alive { AreLiveNacks (nacks_of (scopes flat.now)) cells.old.objects }
    ensures objects { cells.new.objects ≡ settled leaf flat.now cells.old.objects }
    ensures waits { cells.new.waits ≡ cells.old.waits }
{
    let nacks = flat.scopes();
    for i in 0..nacks.len() {
        settle_one(cells, nacks[i], flat.loses(leaf, i));
    }
}

fn settle_one(cells: &mut Register<NackCell>, nack: NackId, is_lost: bool)
    requires { slice_get cells.old.objects nack.0 ≡ Some live }
    ensures objects { cells.new.objects ≡ slice_set cells.old.objects nack.0 (if is_lost then fired else held) }
    ensures waits { cells.new.waits ≡ cells.old.waits }
{
    if (nack.0 as usize) < cells.len() {
        let fate = if is_lost {
            NackFeed::Fire
        } else {
            NackFeed::Hold
        };
        let _ = cells.feed(nack.0, fate);
    }
}

/// Makes these nacks live.
pub fn enter(cells: &mut Register<NackCell>, nacks: &[NackId])
    requires { AreFresh (numbers nacks.now) cells.old.objects }
    ensures objects { cells.new.objects ≡ with_each (numbers nacks.now) live cells.old.objects }
    ensures waits { cells.new.waits ≡ cells.old.waits }
{
    for nack in nacks {
        enter_one(cells, *nack);
    }
}

fn enter_one(cells: &mut Register<NackCell>, nack: NackId)
    requires { is_fresh (slice_get cells.old.objects nack.0) ≡ true }
    ensures objects { cells.new.objects ≡ slice_set cells.old.objects nack.0 live }
    ensures waits { cells.new.waits ≡ cells.old.waits }
{
    if (nack.0 as usize) < cells.len() {
        let _ = cells.feed(nack.0, NackFeed::Enter);
    }
}
