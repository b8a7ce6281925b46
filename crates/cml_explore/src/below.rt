//! Where the call below the top one stood of a thread that ended at a fault.

ghost use Rattle.std.specs.Prelude.{◌≡◌, ◌∷◌, IfOk, MatchOption, None, Some, [], slice_get};
ghost use Rattle.cml_step.specs.{Machines.{plain_held}, Shared.{left_of}};
ghost use Rattle.cml_step.specs.declared.entry.Entry.TheVariants as entry;
ghost use Rattle.cml_facts.specs.{FallViews.{fall_in}, FaultViews.{held_call}, Frames.{calls_down}, Standings.{IsSpotOf}};
ghost use Rattle.cml_explore.specs.Sights.{AreSpotsBelow};
ghost use Rattle.cml_explore.specs.Sights as spec;

use cml_check::Prog;
use cml_facts::ending::{Spot, as_call};
use cml_facts::fault::Falls;
use cml_hub::Hub;
use cml_step::{Call, Machine, Walk};
use std::alloc::{AllocError, Global};

// The next call down, if there is one.
fn next_call<'a>(walk: &mut Walk<'a>) -> Option<&'a Call>
    ensures { MatchOption result (calls_down (left_of walk.old) ≡ [])
        (λ call. calls_down (left_of walk.old) ≡ held_call call.now ∷ calls_down (left_of walk.new)) }
{
    'entries: while let Some(seen) = walk.step() {
        match as_call(seen) {
            Some(call) => return Some(call),
            None => {}
        }
    }
    None
}

// The call below the top one, if there is one.
fn second_call(machine: &Machine) -> Option<&Call>
    ensures { MatchOption result (slice_get (calls_down machine.now.stack) 1 ≡ None)
        (λ call. slice_get (calls_down machine.now.stack) 1 ≡ Some (held_call call.now)) }
{
    let mut walk = machine.entries();
    match next_call(&mut walk) {
        Some(_top) => next_call(&mut walk),
        None => None,
    }
}

// Where a call stands.
fn spot_of(program: &Prog, call: &Call) -> Spot
    ensures { IsSpotOf program.now (Some (plain_held (entry.Call call.now))) (Some result) }
{
    Spot {
        function: call.function(),
        statement: call.place(program),
    }
}

// Where the call below the top one stood of the thread of this number, if it ended at a fault.
fn spot_below(program: &Prog, falls: &Falls, thread: u32) -> Option<Spot>
    ensures { IsSpotOf program.now (spec.call_below (fall_in falls.now thread)) result }
{
    let fall = falls.of(thread)?;
    let call = second_call(&fall.machine)?;
    Some(spot_of(program, call))
}

/// Where the call below the top one stood of each thread that ended at a fault, before its last step.
///
/// # Errors
/// Out of memory.
pub(crate) fn spots_below(
    alloc: Global,
    hub: &Hub,
    falls: &Falls,
) -> Result<Vec<Option<Spot>>, AllocError>
    ensures { IfOk result (λ spots. AreSpotsBelow hub.now.course (fall_in falls.now) spots.items) }
{
    let mut spots = Vec::new(alloc);
    for t in 0..hub.book().next_thread().0 {
        spots.push(spot_below(hub.program(), falls, t))?;
    }
    Ok(spots)
}
