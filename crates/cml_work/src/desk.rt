//! Where a worker gets slices to run, and gives them back.

ghost use Rattle.std.specs.Prelude.{◌≡◌, ℕ, List, IfOk, IfSome, IfNone, OnErr};
ghost use Rattle.cml_check.specs.Syntax.{PlainItem};
ghost use Rattle.cml_step.specs.{Answers.{top_await, nothing}, Machines.{PlainMachine, machine_term, Fits}};
ghost use Rattle.cml_work.specs.Desks.{WantedMemory};

use cml_check::Prog;
use cml_hub::GiveFault;
use cml_step::{Machine, Ran};
use cml_value::Tid;
use std::alloc::{AllocError, Global};
use std::sync::Wait;

/// What is told of each slice that is handed out, before it runs, by the worker that runs it, while it holds no lock.
pub trait Gate {
    /// Whether it was told that a slice of this thread begins.
    ghost told: { Self → ℕ → Type 0 };

    /// Is told that a slice of this thread begins.
    fn enter(&self, thread: Tid)
        ensures { told self.now thread.0 };
}

/// Where workers get their jobs and give the slices back.
pub trait Desk {
    /// Whether it may hand out a slice of this program that begins with this machine.
    ghost hands: { Self → List (PlainItem ℕ) → PlainMachine → Type 0 };

    /// Whether a slice that began with this machine was given back to it.
    ghost back: { Self → PlainMachine → Type 0 };

    /// Whether it has said that there is nothing more to hand out.
    ghost over: { Self → Type 0 };

    /// Whether it was asked for a job and found no memory for it.
    ghost lacks: { Self → Type 0 };

    /// Whether it was stopped.
    ghost stopped: { Self → Type 0 };

    /// The machine of a thread to run, with its program; `None` where there is nothing more to hand out. It may wait.
    ///
    /// # Errors
    /// Out of memory.
    fn next<R: Wait>(&self, rt: &R, alloc: Global) -> Result<Option<(Prog, Machine)>, AllocError>
        ensures fits { IfOk result (λ job. IfSome job (λ j. Fits j.0 j.1)) }
        ensures awaits { IfOk result (λ job. IfSome job (λ j. top_await (machine_term j.0 j.1) ≡ nothing)) }
        ensures hands { IfOk result (λ job. IfSome job (λ j. hands self.now j.0 j.1)) }
        ensures over { IfOk result (λ job. IfNone job (over self.now)) }
        ensures lacks { OnErr result (lacks self.now) };

    /// Takes a slice back that it handed out. It may wait.
    ///
    /// # Errors
    /// A slice that began with a machine that no running thread has any more; or out of memory. The slice comes back.
    fn give<R: Wait>(&self, rt: &R, alloc: Global, ran: Ran) -> Result<(), GiveFault>
        requires { hands self.now ran.program ran.start }
        ensures { back self.now ran.start };

    /// Takes a slice back that it handed out, as [`Desk::give`] does, and says what there is to do next, as [`Desk::next`] does. A slice that
    /// is refused as a stranger is dropped. It may wait.
    ///
    /// # Errors
    /// Out of memory, for the slice or for the next job.
    fn next_after<R: Wait>(
        &self,
        rt: &R,
        alloc: Global,
        ran: Ran,
    ) -> Result<Option<(Prog, Machine)>, AllocError>
        requires { hands self.now ran.program ran.start }
        ensures fits { IfOk result (λ job. IfSome job (λ j. Fits j.0 j.1)) }
        ensures awaits { IfOk result (λ job. IfSome job (λ j. top_await (machine_term j.0 j.1) ≡ nothing)) }
        ensures hands { IfOk result (λ job. IfSome job (λ j. hands self.now j.0 j.1)) }
        ensures over { IfOk result (λ job. IfNone job (over self.now)) }
        ensures lacks { OnErr result (WantedMemory (lacks self.now) (hands self.now)) }
        ensures back { back self.now ran.start }
    {
        match self.give(rt, alloc, ran) {
            Ok(()) => {}
            Err(fault) => refused(fault)?,
        }
        self.next(rt, alloc)
    }

    /// Has no job handed out from now on. It may wait.
    fn stop<R: Wait>(&self, rt: &R)
        ensures { stopped self.now };
}

// A slice that is refused is dropped. One that is a stranger by now does no harm.
#[inline(never)]
pub(crate) fn refused(fault: GiveFault) -> Result<(), AllocError> {
    match fault {
        GiveFault::Stranger(ran) => {
            drop(ran);
            Ok(())
        }
        GiveFault::Memory(ran) => {
            drop(ran);
            Err(AllocError)
        }
    }
}
