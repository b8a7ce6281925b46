//! Where a thread stands.

ghost use Rattle.std.specs.{Prelude.{◌≡◌, ◌<◌, ℕ, None, Some, IfOk, MatchOption, length, map, slice_get}, Option.{option_and_then}};
ghost use Rattle.cml_check.specs.Syntax.{PlainItem};
ghost use Rattle.cml_step.specs.{Machines.{plain_held}, Shared.{plain_seen}};
ghost use Rattle.cml_step.specs.declared.entry.Entry.TheVariants as entry;
ghost use Rattle.cml_facts.specs.Standings.{AreSpots, IsSpotOf, spot_place};
ghost use Rattle.cml_facts.specs.Standings as spec;

use cml_check::Prog;
use cml_hub::Hub;
use cml_phrase::{Place, statement_place};
use cml_step::{Call, Machine, Seen};
use cml_value::Tid;
use std::alloc::{AllocError, Global};

/// Where a thread stands: the function of its top call, and there the number of a statement, if one is known.
#[derive(Clone, Copy, PartialEq, Eq)]
pub struct Spot {
    pub function: u32,
    pub statement: Option<usize>,
}

/// The entry, if it is a call.
pub fn as_call(seen: Seen<'_>) -> Option<&Call>
    ensures { MatchOption result (spec.as_call (plain_seen seen.entry) ≡ None)
        (λ call. spec.as_call (plain_seen seen.entry) ≡ Some (plain_held (entry.Call call.now))) }
{
    match seen {
        Seen::Call(call) => Some(call),
        Seen::Force(_, _) => None,
        Seen::Wraps(_) => None,
    }
}

/// The top call on the stack of a thread.
pub fn top_call(machine: &Machine) -> Option<&Call>
    ensures { MatchOption result (spec.top_call machine.now.stack ≡ None)
        (λ call. spec.top_call machine.now.stack ≡ Some (plain_held (entry.Call call.now))) }
{
    let mut walk = machine.entries();
    'entries: while let Some(seen) = walk.step() {
        match as_call(seen) {
            Some(call) => return Some(call),
            None => {}
        }
    }
    None
}

// Where a call stands.
fn spot_of(program: &Prog, call: &Call) -> Spot
    ensures { IsSpotOf program.now (Some (plain_held (entry.Call call.now))) (Some result) }
{
    Spot {
        function: call.function(),
        statement: call.place(program),
    }
}

/// Where a thread stands, which has this machine.
pub fn machine_spot(program: &Prog, machine: &Machine) -> Option<Spot>
    ensures { IsSpotOf program.now (spec.call_of_machine machine.now) result }
{
    match top_call(machine) {
        Some(call) => Some(spot_of(program, call)),
        None => None,
    }
}

/// Where the thread of this number stands.
pub fn thread_spot(hub: &Hub, thread: Tid) -> Option<Spot>
    requires { thread.0 < length hub.now.course.world.threads }
    ensures { IsSpotOf hub.now.course.program
        (option_and_then spec.call_of_machine (slice_get hub.now.course.machines thread.0)) result }
{
    match hub.machine(thread) {
        Some(machine) => machine_spot(hub.program(), machine),
        None => None,
    }
}

/// Where each thread stands.
///
/// # Errors
/// Out of memory.
pub fn spots_of(alloc: Global, hub: &Hub) -> Result<Vec<Option<Spot>>, AllocError>
    ensures spots { IfOk result (λ spots. AreSpots hub.now.course spots.items) }
    ensures count { IfOk result (λ spots. length spots.items ≡ length hub.now.course.world.threads) }
{
    let mut spots = Vec::new(alloc);
    for t in 0..hub.book().next_thread().0 {
        spots.push(thread_spot(hub, Tid(t)))?;
    }
    Ok(spots)
}

/// The spot of a thread, among those of all.
pub(crate) fn spot_at(spots: &[Option<Spot>], thread: u32) -> Option<Spot>
    ensures { result ≡ spec.spot_at spots.now thread }
{
    match spots.get(thread as usize) {
        Some(spot) => *spot,
        None => None,
    }
}

/// Where a thread stands in the text: these are the spots of all threads, and where the statements of each function begin.
pub fn place_of(places: &[Vec<Place>], spots: &[Option<Spot>], thread: u32) -> Option<Place>
    ensures { result ≡ option_and_then (spot_place (map (λ own. own.items) places.now)) (spec.spot_at spots.now thread) }
{
    let spot = spot_at(spots, thread)?;
    let statement = spot.statement?;
    statement_place(places, spot.function, statement)
}
