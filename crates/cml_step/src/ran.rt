//! Slices that were run.

ghost use Rattle.std.specs.Prelude.{◌≡◌, IfOk, IfErr, true};
ghost use Rattle.cml_check.specs.InOrder.{arities};
ghost use Rattle.cml_step.specs.{Agrees.{ask_agrees}, Answers.{top_await}, AskViews.{plain_ask}, Machines.{machine_term, Fits}, Rans.{IsSlice}};
ghost use Rattle.cml_step.specs.Answers as answers;
ghost use Rattle.cml_step.specs.declared.ran.SliceFault.TheVariants as slice_fault;

use crate::ask::Ask;
use crate::machine::Machine;
use crate::slices::{Slice, run_slice};
use cml_check::Prog;
use std::alloc::{AllocError, Global};
use std::fmt;
use std::marker::Model;
use thiserror::Error;

/// Why a slice is not run. It hands the machine back.
#[derive(Drop, Error)]
pub enum SliceFault {
    /// Out of memory.
    #[error("out of memory")]
    Memory(Machine),
}

// The machine itself is not shown.
impl fmt::Debug for SliceFault {
    fn fmt<W: fmt::Write>(&self, f: &mut fmt::Formatter<W>) -> fmt::Result {
        write!(f, "{self}")
    }
}

/// A slice that was run: the program, the machine before and after it, what it asks in the end, and how many steps it took.
#[derive(Drop)]
pub struct Ran {
    program: Prog,
    start: Machine,
    end: Machine,
    ask: Ask,
    steps: u32,
}

impl Model for Ran {
    ghost use Rattle.cml_step.specs.{AskViews.{plain_ask}, Rans.{PlainRan, IsSlice, ran_code}};

    ghost Value = { PlainRan };

    ghost coded = { ran_code };

    ghost view = { λ a. record {
      program = a.program;
      start = a.start;
      end = a.end;
      ask = plain_ask a.ask;
      steps = a.steps;
    } };

    ghost invariant = { λ a. IsSlice (record {
      program = a.program;
      start = a.start;
      end = a.end;
      ask = plain_ask a.ask;
      steps = a.steps;
    }) };
}

// A slice of the machine, and the program once more.
fn slice_with(alloc: Global, program: &Prog, machine: &Machine) -> Result<(Prog, Slice), AllocError>
    requires fits { Fits program.now machine.now }
    requires awaits { top_await (machine_term program.now machine.now) ≡ answers.nothing }
    ensures program { IfOk result (λ r. r.0 ≡ program.now) }
    ensures slice { IfOk result (λ r. IsSlice (record {
      program = program.now;
      start = machine.now;
      end = r.1.end;
      ask = plain_ask r.1.ask;
      steps = r.1.steps;
    })) }
{
    let slice = run_slice(alloc, program, machine)?;
    let shared = program.copy()?;
    Ok((shared, slice))
}

/// Runs a slice of the thread as [`run_slice`] does, and keeps with it what it was a slice of.
///
/// # Errors
/// Out of memory; the machine comes back.
pub fn slice(alloc: Global, program: &Prog, machine: Machine) -> Result<Ran, SliceFault>
    requires fits { Fits program.now machine }
    requires awaits { top_await (machine_term program.now machine) ≡ answers.nothing }
    ensures program { IfOk result (λ ran. ran.program ≡ program.now) }
    ensures start { IfOk result (λ ran. ran.start ≡ machine) }
    ensures meant { IfOk result (λ ran. IsSlice ran) }
    ensures err { IfErr result (λ fault. fault ≡ slice_fault.Memory machine) }
{
    match slice_with(alloc, program, &machine) {
        Ok((program, Slice { end, ask, steps })) => Ok(Ran {
            program,
            start: machine,
            end,
            ask,
            steps,
        }),
        Err(_) => Err(SliceFault::Memory(machine)),
    }
}

impl Ran {
    /// The program.
    pub fn program(&self) -> &Prog
        ensures { result.now ≡ self.now.program }
    {
        &self.program
    }

    /// The machine before the slice.
    pub fn start(&self) -> &Machine
        ensures { result.now ≡ self.now.start }
    {
        &self.start
    }

    /// The machine after the slice.
    pub fn end(&self) -> &Machine
        ensures { result.now ≡ self.now.end }
    {
        &self.end
    }

    /// What the thread asks in the end.
    pub fn ask(&self) -> &Ask
        ensures { plain_ask result.now ≡ self.now.ask }
    {
        &self.ask
    }

    /// How many steps the slice took.
    pub fn steps(&self) -> u32
        ensures steps { result ≡ self.now.steps }
        ensures meant { IsSlice self.now }
    {
        self.steps
    }

    /// The machine after the slice and what it asks, taken out.
    pub fn into_end(self) -> (Machine, Ask)
        ensures end { result.0 ≡ self.end }
        ensures ask { plain_ask result.1 ≡ self.ask }
    {
        (self.end, self.ask)
    }
}
