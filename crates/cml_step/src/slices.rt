//! Slices of a thread.

ghost use Rattle.std.specs.Prelude.{◌≡◌, IfOk};
ghost use Rattle.cml_step.specs.{Answers.{top_await}, AskViews.{plain_ask}, Machines.{machine_term, Fits}, Rans.{IsSlice}};
ghost use Rattle.cml_step.specs.Answers as answers;

use crate::ask::Ask;
use crate::machine::Machine;
use cml_check::Prog;
use std::alloc::{AllocError, Global};

/// What a slice of a thread comes to: the machine after it, what it asks in the end, and how many steps it took.
#[derive(Drop)]
pub struct Slice {
    /// The machine after the slice.
    pub end: Machine,
    /// What the thread asks in the end.
    pub ask: Ask,
    /// How many steps the slice took.
    pub steps: u32,
}

/// Runs a slice of the thread: its steps up to the first that asks, ends or is at fault, and at most [`MAX_STEPS`](crate::MAX_STEPS).
/// The machine stays as it is.
///
/// # Errors
/// Out of memory.
pub fn run_slice(alloc: Global, program: &Prog, machine: &Machine) -> Result<Slice, AllocError>
    requires fits { Fits program.now machine.now }
    requires awaits { top_await (machine_term program.now machine.now) ≡ answers.nothing }
    ensures { IfOk result (λ s. IsSlice (record {
      program = program.now;
      start = machine.now;
      end = s.end;
      ask = plain_ask s.ask;
      steps = s.steps;
    })) }
{
    let mut end = machine.copy(alloc)?;
    let mut ask = Ask::Nothing;
    let steps = end.run(alloc, program, &mut ask)?;
    Ok(Slice { end, ask, steps })
}
