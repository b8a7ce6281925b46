//! What a thread comes to at the end of its next turn.

ghost use Rattle.std.specs.Prelude.{◌≡◌, IfOk, MatchOption, Some, false, slice_get};
ghost use Rattle.cml_book.specs.Walks.{is_running};
ghost use Rattle.cml_step.specs.{AskViews.{plain_ask}, Answers.{top_await}, Machines.{machine_term, Fits}};
ghost use Rattle.cml_step.specs.Answers as answers;
ghost use Rattle.cml_facts.specs.{Turns.{Plans}, Narrators.{StandsAsking}};
ghost use Rattle.cml_facts.specs.Turns as spec;

use crate::ending::{Spot, machine_spot};
use cml_book::Book;
use cml_check::Prog;
use cml_hub::Hub;
use cml_index::OfferIndex;
use cml_step::{Ask, Machine, Slice, run_slice};
use cml_value::Tid;
use std::alloc::{AllocError, Global};

/// What a turn comes to, before it happens: where the thread stands as it asks, what it asks, and the number of what is made, or the tick.
#[derive(Drop)]
pub(crate) struct Planned {
    pub(crate) spot: Option<Spot>,
    pub(crate) ask: Ask,
    pub(crate) number: u64,
}

// Whether the thread is at fault.
fn is_fault(ask: &Ask) -> bool
    ensures { result ≡ spec.is_fault_ask (plain_ask ask.now) }
{
    match ask {
        Ask::Fault(_) => true,
        _ => false,
    }
}

// The number of what the ask makes that comes next in this book; or the tick that it reads.
fn number_asked(book: &Book<OfferIndex>, ask: &Ask) -> u64
    ensures { result ≡ spec.number_asked book.now (plain_ask ask.now) }
{
    let next = book.next_objects();
    match ask {
        Ask::Spawn(_) => u64::from(book.next_thread().0),
        Ask::MakeChan => u64::from(next.channel.0),
        Ask::MakeSwap => u64::from(next.swap.0),
        Ask::MakeIVar => u64::from(next.ivar.0),
        Ask::MakeMVar(_) => u64::from(next.mvar.0),
        Ask::MakeMailbox => u64::from(next.mailbox.0),
        Ask::MakeMchan => u64::from(next.mchan.0),
        Ask::MakePort(_) | Ask::CopyPort(_) => u64::from(next.port.0),
        Ask::Now => book.now(),
        Ask::Nack => u64::from(book.next_nack().0),
        _ => 0,
    }
}

// Where a thread stands as it asks: at the end of a slice, or at a fault before its last step.
#[tactic(auto, using(crate::proofs::ToldTurnLemmas::fault_stands, crate::proofs::ToldTurnLemmas::end_stands))]
fn slice_spot(
    alloc: Global,
    program: &Prog,
    start: &Machine,
    slice: &Slice,
) -> Result<Option<Spot>, AllocError>
    requires { Fits program.now start.now }
    ensures { IfOk result (λ spot. StandsAsking program.now start.now (plain_ask slice.now.ask) slice.now.end slice.now.steps spot) }
{
    if is_fault(&slice.ask) {
        let before = start.stepped(alloc, program, slice.steps.saturating_sub(1))?;
        Ok(machine_spot(program, &before))
    } else {
        Ok(machine_spot(program, &slice.end))
    }
}

// What a slice asks.
fn asked(slice: Slice) -> Ask
    ensures { result ≡ slice.ask }
{
    let Slice { end, ask, steps } = slice;
    let _steps = steps;
    drop(end);
    ask
}

// What a thread that runs asks at the end of its next turn.
fn plan_of(alloc: Global, hub: &Hub, thread: Tid, machine: &Machine) -> Result<Planned, AllocError>
    requires at { slice_get hub.now.course.machines thread.0 ≡ Some machine.now }
    requires thread { machine.now.thread ≡ thread.0 }
    requires fits { Fits hub.now.course.program machine.now }
    requires awaits { top_await (machine_term hub.now.course.program machine.now) ≡ answers.nothing }
    ensures { IfOk result (λ plan. Plans hub.now.course thread.0 plan) }
{
    let slice = run_slice(alloc, hub.program(), machine)?;
    let spot = slice_spot(alloc, hub.program(), machine, &slice)?;
    let number = number_asked(hub.book(), &slice.ask);
    let ask = asked(slice);
    Ok(Planned { spot, ask, number })
}

/// What a thread asks at the end of its next turn, if it runs.
///
/// # Errors
/// Out of memory.
pub(crate) fn next_plan(
    alloc: Global,
    hub: &Hub,
    thread: Tid,
) -> Result<Option<Planned>, AllocError>
    ensures { IfOk result (λ found. MatchOption found
        (is_running hub.now.course.world thread.0 ≡ false)
        (Plans hub.now.course thread.0)) }
{
    if !hub.book().is_running(thread) {
        return Ok(None);
    }
    match hub.machine(thread) {
        Some(machine) => {
            let plan = plan_of(alloc, hub, thread, machine)?;
            Ok(Some(plan))
        }
        None => unreachable!(),
    }
}
