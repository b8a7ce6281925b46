//! What a schedule gives: what is printed, and how each thread ends.

ghost use Rattle.std.specs.{Prelude.{◌≡◌, IfOk, Some, is_some, if◌then◌else◌, slice_get}};
ghost use Rattle.cml_facts.specs.FallViews.{fall_in};
ghost use Rattle.cml_scan.specs.World.{PlainThread};
ghost use Rattle.cml_explore.specs.Outcomes.{GivesOutcome, plain_outcome};
ghost use Rattle.cml_explore.specs.Outcomes as spec;

use crate::ends::hub_by;
use cml_check::Prog;
use cml_facts::ending::let_go;
use cml_facts::fault::{Falls, falls_of};
use cml_hub::{Hub, Item};
use cml_value::Tid;
use std::alloc::{AllocError, Global};

/// How a thread is left where nothing is left to do.
#[derive(Clone, Copy, PartialEq, Eq)]
pub enum ThreadEnd {
    /// It came to its end.
    Ended,
    /// It waits.
    Waits,
    /// It ended at a fault.
    Fault,
}

/// What a schedule gives.
#[derive(Drop)]
pub struct Outcome {
    /// What was printed, with the lines of faults.
    pub output: Vec<u8>,
    /// How each thread is left, by number.
    pub threads: Vec<ThreadEnd>,
}

// How a thread is left that does not wait.
fn end_if(fell: bool) -> ThreadEnd
    ensures { result ≡ (if fell then ThreadEnd.Fault else ThreadEnd.Ended) }
{
    if fell {
        ThreadEnd::Fault
    } else {
        ThreadEnd::Ended
    }
}

// Whether the thread ended at a fault.
fn fell(falls: &Falls, thread: Tid) -> bool
    ensures { result ≡ is_some (fall_in falls.now thread.0) }
{
    falls.of(thread.0).is_some()
}

// How the thread of this number is left.
fn thread_end(hub: &Hub, falls: &Falls, thread: Tid) -> ThreadEnd
    ensures { (t : PlainThread) → slice_get hub.now.course.world.threads thread.0 ≡ Some t →
        result ≡ spec.thread_end (is_some (fall_in falls.now thread.0)) t }
{
    match hub.book().waiting(thread) {
        Some(_) => ThreadEnd::Waits,
        None => end_if(fell(falls, thread)),
    }
}

// How each thread is left.
fn thread_ends(alloc: Global, hub: &Hub, falls: &Falls) -> Result<Vec<ThreadEnd>, AllocError>
    ensures { IfOk result (λ ends. ends.items ≡ spec.ends_from (λ t. is_some (fall_in falls.now t)) 0 hub.now.course.world.threads) }
{
    let mut ends = Vec::new(alloc);
    for t in 0..hub.book().next_thread().0 {
        ends.push(thread_end(hub, falls, Tid(t)))?;
    }
    Ok(ends)
}

// What the schedule of a hub gives.
fn outcome_at(alloc: Global, hub: &Hub) -> Result<Outcome, AllocError>
    ensures { IfOk result (λ o. GivesOutcome hub.now.course.program hub.now.course.items (plain_outcome o)) }
{
    let falls = falls_of(alloc, hub)?;
    let threads = thread_ends(alloc, hub, &falls)?;
    // No effect: named here so that the prover knows where the schedule leads.
    let _items = hub.schedule();
    let output = Vec::from_slice(alloc, hub.out().as_bytes())?;
    Ok(Outcome { output, threads })
}

/// What this schedule of the program gives, where it leads to a run in which nothing is left to do. What the run takes of memory is given back.
///
/// # Errors
/// Out of memory; or the schedule leads nowhere.
pub fn outcome_by(alloc: Global, program: &Prog, items: &[Item]) -> Result<Outcome, AllocError>
    ensures { IfOk result (λ o. GivesOutcome program.now items.now (plain_outcome o)) }
{
    let hub = hub_by(alloc, program, items)?;
    let outcome = outcome_at(alloc, &hub);
    let_go(hub);
    outcome
}
