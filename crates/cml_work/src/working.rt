//! One worker.

ghost use Rattle.std.specs.Prelude.{◌≡◌, IfOk, IfSome, IfNone, OnOk, OnErr};
ghost use Rattle.cml_step.specs.{Answers.{top_await, nothing}, Machines.{machine_term, Fits}};
ghost use Rattle.cml_work.specs.Desks.{WantedMemory};

use crate::desk::{Desk, Gate};
use cml_check::Prog;
use cml_step::{Machine, SliceFault, slice};
use std::alloc::{AllocError, Global};
use std::sync::Wait;

// Why a slice could not be run, which is dropped.
#[inline(never)]
fn lost(fault: SliceFault) -> AllocError {
    drop(fault);
    AllocError
}

// Runs one slice, of which the gate was told, gives it back, and returns the next job.
#[tactic(auto, using(crate::proofs::Handing::of_same))]
fn work_once<R: Wait, D: Desk, G: Gate>(
    rt: &R,
    alloc: Global,
    desk: &D,
    gate: &G,
    job: (Prog, Machine),
) -> Result<Option<(Prog, Machine)>, AllocError>
    requires fits { Fits job.0 job.1 }
    requires awaits { top_await (machine_term job.0 job.1) ≡ nothing }
    requires hands { D.hands desk.now job.0 job.1 }
    requires told { G.told gate.now job.1.thread }
    ensures fits { IfOk result (λ next. IfSome next (λ j. Fits j.0 j.1)) }
    ensures awaits { IfOk result (λ next. IfSome next (λ j. top_await (machine_term j.0 j.1) ≡ nothing)) }
    ensures hands { IfOk result (λ next. IfSome next (λ j. D.hands desk.now j.0 j.1)) }
    ensures over { IfOk result (λ next. IfNone next (D.over desk.now)) }
    ensures lacks { OnErr result (WantedMemory (D.lacks desk.now) (D.hands desk.now)) }
    ensures back { OnOk result (D.back desk.now job.1) }
{
    let _ = gate;
    let (program, machine) = job;
    let answer = slice(alloc, &program, machine);
    drop(program);
    match answer {
        Ok(ran) => desk.next_after(rt, alloc, ran),
        Err(fault) => Err(lost(fault)),
    }
}

// Runs slices, one after another, until none is left.
fn work_on<R: Wait, D: Desk, G: Gate>(
    rt: &R,
    alloc: Global,
    desk: &D,
    gate: &G,
) -> Result<(), AllocError>
    ensures ok { OnOk result (D.over desk.now) }
    ensures err { OnErr result (WantedMemory (D.lacks desk.now) (D.hands desk.now)) }
{
    let Some(mut job) = desk.next(rt, alloc)? else {
        return Ok(());
    };
    for _ in rt.forever() {
        gate.enter(job.1.thread());
        match work_once(rt, alloc, desk, gate, job) {
            Ok(Some(next)) => job = next,
            Ok(None) => return Ok(()),
            Err(error) => return Err(error),
        }
    }
    unreachable!()
}

/// Runs slices, one after another, until the desk says that there is nothing more. It tells the gate before each, and gives back only slices
/// of what it was handed. A slice that is a stranger when it comes back is dropped.
///
/// # Errors
/// Out of memory: for a job, or after one was handed out. The desk is stopped then.
pub fn worker<R: Wait, D: Desk, G: Gate>(
    rt: &R,
    alloc: Global,
    desk: &D,
    gate: &G,
) -> Result<(), AllocError>
    ensures ok { OnOk result (D.over desk.now) }
    ensures err { OnErr result (WantedMemory (D.lacks desk.now) (D.hands desk.now)) }
    ensures stopped { OnErr result (D.stopped desk.now) }
{
    match work_on(rt, alloc, desk, gate) {
        Ok(()) => Ok(()),
        Err(error) => {
            desk.stop(rt);
            Err(error)
        }
    }
}
