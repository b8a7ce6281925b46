//! What is known of a thread that ended at a fault.

ghost use Rattle.std.specs.{Prelude.{◌≡◌, IfOk, slice_get}, Option.{option_and_then}};
ghost use Rattle.cml_hub.specs.Deeds.{origins};
ghost use Rattle.cml_step.specs.{Answers.{top_await}, Calls.{text_of}, Machines.{machine_term, Fits}};
ghost use Rattle.cml_step.specs.Answers as answers;
ghost use Rattle.cml_facts.specs.{Failures.{failure_of}, FallViews.{plain_fall}, ThreadFaults.{IsKnownOf, IsThreadFault}, FaultViews.{plain_sources}};
ghost use Rattle.cml_facts.specs.ThreadFaults as spec;

use crate::fault::fall::{Fall, fall_of};
use crate::fault::frame::{Frame, calls_down, first_values, frames_of};
use crate::fault::reason::{Reason, reason_of};
use cml_hub::Hub;
use cml_phrase::{Place, statement_spans};
use cml_step::Machine;
use cml_text::{Sexpr, Span};
use cml_value::{FnRef, Tid, Value};
use std::alloc::{AllocError, Global};

/// A thread that ended at a fault: where it stood before its last step, and why that was at fault.
#[derive(Drop)]
pub struct ThreadFault {
    /// The thread.
    pub thread: Tid,
    /// The function with which it began, and what that was given.
    pub began: Option<FnRef>,
    /// Why it is at fault.
    pub reason: Reason,
    /// The calls on its stack, from the top.
    pub calls: Vec<Frame>,
    /// The values of the variables of the top call.
    pub variables: Vec<Value>,
    /// Where the statement stands at which the top call is; where that is at none, the one at which the call below it is.
    pub statement: Option<Span>,
}

/// What is known.
#[derive(Clone, Copy)]
pub(crate) struct Sources<'a> {
    /// Where memory comes from.
    pub(crate) alloc: Global,
    /// The script's forms.
    pub(crate) forms: &'a [Sexpr],
    /// Where the statements of each function begin.
    pub(crate) places: &'a [Vec<Place>],
    /// The run.
    pub(crate) hub: &'a Hub,
}

// Where the statement of a frame stands.
fn frame_span(sources: &Sources<'_>, frame: Frame) -> Result<Option<Span>, AllocError>
    ensures { IfOk result (λ span. span ≡ spec.frame_span sources.now.forms.now frame) }
{
    let Some(statement) = frame.statement else {
        return Ok(None);
    };
    let spans = statement_spans(sources.alloc, sources.forms, frame.function)?;
    Ok(spans.get(statement).copied())
}

// Where the statement of frame number `at` stands, if there is such a frame.
fn span_at(sources: &Sources<'_>, frames: &[Frame], at: usize) -> Result<Option<Span>, AllocError>
    ensures { IfOk result (λ span. span
        ≡ option_and_then (spec.frame_span sources.now.forms.now) (slice_get frames.now at)) }
{
    match frames.get(at) {
        Some(frame) => frame_span(sources, *frame),
        None => Ok(None),
    }
}

// The statement of the first frame, or where it has none, of the one below it, which called it.
fn first_span(sources: &Sources<'_>, frames: &[Frame]) -> Result<Option<Span>, AllocError>
    ensures { IfOk result (λ span. span ≡ spec.first_span sources.now.forms.now frames.now) }
{
    match span_at(sources, frames, 0)? {
        Some(span) => Ok(Some(span)),
        None => span_at(sources, frames, 1),
    }
}

// The function with which a thread began, and what that was given.
fn began_with(hub: &Hub, thread: Tid) -> Result<Option<FnRef>, AllocError>
    ensures { IfOk result (λ began. began ≡ slice_get (origins (text_of hub.now.course.program) hub.now.course.items) thread.0) }
{
    match hub.origin(thread) {
        Some(began) => Ok(Some(began.copy()?)),
        None => Ok(None),
    }
}

// Copies of these values, which share their parts with them.
fn copies(alloc: Global, values: &[Value]) -> Result<Vec<Value>, AllocError>
    ensures { IfOk result (λ copies. copies.items ≡ values.now) }
{
    let mut copies = Vec::new(alloc);
    for value in values {
        copies.push(value.copy()?)?;
    }
    Ok(copies)
}

// What is known of a thread that ended at a fault so.
fn fault_of(sources: &Sources<'_>, fall: &Fall) -> Result<ThreadFault, AllocError>
    ensures { IfOk result (λ fault. IsKnownOf (plain_sources sources.now) sources.now.hub.now.course.program (plain_fall fall.now) fault) }
{
    let alloc = sources.alloc;
    let thread = fall.machine.thread();
    let held = calls_down(alloc, &fall.machine)?;
    let variables = copies(alloc, first_values(held.as_slice()))?;
    let calls = frames_of(sources, held.as_slice())?;
    drop(held);
    let statement = first_span(sources, calls.as_slice())?;
    let began = began_with(sources.hub, thread)?;
    let reason = reason_of(alloc, sources.hub.program(), &fall.machine, &fall.ask)?;
    Ok(ThreadFault {
        thread,
        began,
        reason,
        calls,
        variables,
        statement,
    })
}

/// What is known of a thread that is to end at a fault in its next turn.
///
/// # Errors
/// Out of memory.
pub(crate) fn next_fault(
    sources: &Sources<'_>,
    machine: &Machine,
) -> Result<ThreadFault, AllocError>
    requires fits { Fits sources.now.hub.now.course.program machine.now }
    requires awaits { top_await (machine_term sources.now.hub.now.course.program machine.now) ≡ answers.nothing }
    ensures { let p = sources.now.hub.now.course.program in
        IfOk result (λ fault. IsThreadFault (plain_sources sources.now) p (failure_of (text_of p) machine.now.thread (machine_term p machine.now)) fault) }
{
    let fall = fall_of(sources.alloc, sources.hub.program(), machine)?;
    fault_of(sources, &fall)
}
