//! A turn of a thread, where its machine stands.

ghost use Rattle.std.specs.{Prelude.{◌≡◌, ◌+◌, ◌≤◌, length, Some, IfOk, OnErr, slice_get}, String.{string_bytes, string_len, string_capacity}};
ghost use Rattle.cml_scan.specs.World.{running};
ghost use Rattle.cml_step.specs.{AskViews.{plain_ask}, Rans.{IsSlice}};
ghost use Rattle.cml_hub.specs.{Dones.{GoesOn}, Asking.{IsPrepared}};

use crate::done::Prepared;
use crate::perform::{RunBook, prepare};
use cml_check::Prog;
use cml_step::{Ask, Machine, Undo};
use cml_value::Tid;
use std::alloc::{AllocError, Global};

// What a turn came to: how many steps it took, and what becomes of the thread. The memory for that is there.
#[derive(Drop)]
pub(crate) struct TurnMade {
    pub(crate) steps: u32,
    pub(crate) prepared: Prepared,
}

// Runs a slice of the thread's machine where it stands, writes what it asks into `ask` (`Nothing` before), and has the book do that.
// Where memory runs out the undo puts the machine back to what it was. In the end the undo holds no value.
pub(crate) fn take_turn(
    alloc: Global,
    program: &Prog,
    book: &mut RunBook,
    output: &mut String,
    thread: Tid,
    machine: &mut Machine,
    undo: &mut Undo,
    ask: &mut Ask,
) -> Result<TurnMade, AllocError>
    requires running { slice_get book.old.threads thread.0 ≡ Some running }
    requires goes { GoesOn program.now machine.old }
    requires nothing { ask.old ≡ Ask.Nothing }
    ensures slice { IfOk result (λ r. IsSlice (record {
      program = program.now;
      start = machine.old;
      end = machine.new;
      ask = plain_ask ask.new;
      steps = r.steps;
    })) }
    ensures done { IfOk result (λ r. IsPrepared program.now thread.0 (plain_ask ask.new) machine.new book.old book.new r.prepared) }
    ensures err { OnErr result ((machine.new ≡ machine.old) × (book.new ≡ book.old)) }
    ensures bytes { string_bytes output.new ≡ string_bytes output.old }
    ensures room { IfOk result (λ r. string_len output.new + length (string_bytes r.prepared.line) ≤ string_capacity output.new) }
{
    let steps = machine.run_undoing(alloc, program, undo, ask)?;
    match prepare(alloc, program, book, output, thread, machine, ask) {
        Ok(prepared) => {
            undo.rest();
            Ok(TurnMade { steps, prepared })
        }
        Err(error) => {
            undo.put_back(machine);
            Err(error)
        }
    }
}
