//! Where the lines of threads begin and end, of those that take part.

ghost use Rattle.std.specs.{Prelude.{◌≡◌, ◌++◌, ◌||◌, nat_le, IfOk, OnOk, map, slice_get}, Option.{option_map}};
ghost use Rattle.cml_hub.specs.Runs.{terminal};
ghost use Rattle.cml_facts.specs.Turns.{began_in};
ghost use Rattle.cml_picture.specs.{Parts.{flag_at}, Stacks.{thread_count}, Views.{plain_left}};
ghost use Rattle.cml_picture.specs.Lives as spec;

use super::flags::is_set;
use cml_facts::ending::{Named, who_is};
use cml_hub::{End, Hub};
use cml_scan::leaf_bases;
use cml_value::{Base, Tid};
use std::alloc::{AllocError, Global};

/// A thread that has not ended, and for what it waits; nothing where it runs.
#[derive(Drop)]
pub struct Left {
    pub named: Named,
    pub awaits: Option<Vec<Base>>,
}

/// The threads that were there before, of which the flags are set: their lines begin at the top.
#[tactic(auto, using(crate::proofs::Below::beginnings_none, crate::proofs::Below::beginnings_on))]
pub(crate) fn beginnings_of(
    alloc: Global,
    hub: &Hub,
    flags: &[bool],
    before: u32,
) -> Result<Vec<Named>, AllocError>
    ensures { IfOk result (λ all. all.items
        ≡ spec.beginnings (began_in hub.now.course) (flag_at flags.now) before) }
{
    let mut all = Vec::new(alloc);
    for thread in 0..before {
        if is_set(flags, thread) {
            let named = who_is(hub, thread)?;
            all.push(named)?;
        }
    }
    Ok(all)
}

/// Whether nothing can happen any more.
pub(crate) fn is_quiet(hub: &Hub) -> bool
    ensures { result ≡ terminal hub.now.course.world }
{
    match hub.end() {
        End::Quiet => true,
        End::Budget | End::Partial => false,
    }
}

// For what a thread waits, or that it runs; or nothing, where it has ended.
#[tactic(auto, using(crate::proofs::LeftLemmas::awaits_runs, crate::proofs::LeftLemmas::awaits_waits, crate::proofs::LeftLemmas::awaits_ended))]
fn awaits_of(alloc: Global, hub: &Hub, thread: u32) -> Result<Option<Option<Vec<Base>>>, AllocError>
    ensures { IfOk result (λ awaits. option_map (option_map (λ all. all.items)) awaits
        ≡ spec.awaits_of (slice_get hub.now.course.world.threads thread)) }
{
    if hub.book().is_running(Tid(thread)) {
        return Ok(Some(None));
    }
    match hub.book().waiting(Tid(thread)) {
        Some(group) => {
            let bases = leaf_bases(alloc, group)?;
            Ok(Some(Some(bases)))
        }
        None => Ok(None),
    }
}

// Adds a thread, if it has not ended.
fn add_left(alloc: Global, all: &mut Vec<Left>, hub: &Hub, thread: u32) -> Result<(), AllocError>
    ensures { OnOk result (map plain_left all.new.items ≡ map plain_left all.old.items
        ++ spec.left_at (began_in hub.now.course) thread (spec.awaits_of (slice_get hub.now.course.world.threads thread))) }
{
    if let Some(awaits) = awaits_of(alloc, hub, thread)? {
        let named = who_is(hub, thread)?;
        all.push(Left { named, awaits })?;
    }
    Ok(())
}

/// The threads that have not ended, of those that were not there before or of which the flags are set.
#[tactic(auto, using(crate::proofs::Below::lefts_none, crate::proofs::Below::lefts_on))]
pub(crate) fn lefts_of(
    alloc: Global,
    hub: &Hub,
    flags: &[bool],
    before: u32,
) -> Result<Vec<Left>, AllocError>
    ensures { IfOk result (λ all. map plain_left all.items
        ≡ spec.lefts (began_in hub.now.course) (λ t. nat_le before t || flag_at flags.now t) hub.now.course.world.threads (thread_count hub.now.course)) }
{
    let mut all = Vec::new(alloc);
    for thread in 0..hub.book().next_thread().0 {
        if before <= thread || is_set(flags, thread) {
            add_left(alloc, &mut all, hub, thread)?;
        }
    }
    Ok(all)
}
