//! The calls on a thread's stack, and where they stand.

ghost use Rattle.std.specs.{Prelude.{◌≡◌, Some, IfOk, map}, Option.{option_and_then}};
ghost use Rattle.cml_phrase.specs.Spots.{statement_place};
ghost use Rattle.cml_facts.specs.{Frames.{AreFrames, IsFrame}, FaultViews.{held_call, plain_places}};
ghost use Rattle.cml_facts.specs.Frames as spec;

use crate::ending::as_call;
use crate::fault::fact::Sources;
use cml_phrase::{Place, statement_place};
use cml_step::{Call, Machine};
use cml_value::Value;
use std::alloc::{AllocError, Global};

/// Where a call stands: its function, there the number of a statement, if one is known, and where that begins.
#[derive(Clone, Copy, PartialEq, Eq)]
pub struct Frame {
    pub function: u32,
    pub statement: Option<usize>,
    pub place: Option<Place>,
}

/// The calls on the stack of a thread, from the top.
///
/// # Errors
/// Out of memory.
#[tactic(auto, using(crate::proofs::FrameLemmas::is_call, crate::proofs::FrameLemmas::no_call, crate::proofs::FrameLemmas::through, crate::proofs::FrameLemmas::falls))]
pub(crate) fn calls_down(alloc: Global, machine: &Machine) -> Result<Vec<&Call>, AllocError>
    ensures { IfOk result (λ calls. map (λ call. held_call call.now) calls.items
        ≡ spec.calls_down machine.now.stack) }
{
    let mut calls = Vec::new(alloc);
    let mut walk = machine.entries();
    'entries: while let Some(seen) = walk.step() {
        match as_call(seen) {
            Some(call) => calls.push(call)?,
            None => {}
        }
    }
    Ok(calls)
}

// Where a statement of a function begins, if one is known.
fn place_in(sources: &Sources<'_>, function: u32, statement: Option<usize>) -> Option<Place>
    ensures { result ≡ option_and_then (statement_place (plain_places sources.now.places.now) function) statement }
{
    statement_place(sources.places, function, statement?)
}

// Where a call stands.
fn frame_of(sources: &Sources<'_>, call: &Call) -> Frame
    ensures { IsFrame (plain_places sources.now.places.now) sources.now.hub.now.course.program (Some (held_call call.now)) (Some result) }
{
    let function = call.function();
    let statement = call.place(sources.hub.program());
    Frame {
        function,
        statement,
        place: place_in(sources, function, statement),
    }
}

/// Where these calls stand.
///
/// # Errors
/// Out of memory.
#[tactic(auto, using(crate::proofs::FrameLemmas::each_more))]
pub(crate) fn frames_of(sources: &Sources<'_>, calls: &[&Call]) -> Result<Vec<Frame>, AllocError>
    ensures { IfOk result (λ frames. AreFrames (plain_places sources.now.places.now) sources.now.hub.now.course.program
        (map (λ call. held_call call.now) calls.now) frames.items) }
{
    let mut frames = Vec::new(sources.alloc);
    for i in 0..calls.len() {
        frames.push(frame_of(sources, calls[i]))?;
    }
    Ok(frames)
}

/// The values of the first call.
pub(crate) fn first_values<'a>(calls: &[&'a Call]) -> &'a [Value]
    ensures { result.now ≡ spec.first_values (map (λ call. held_call call.now) calls.now) }
{
    match calls {
        [] => &[],
        [call, ..] => call.values(),
    }
}
