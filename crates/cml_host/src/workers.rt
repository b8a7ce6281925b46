//! How a script's threads are run: one after another, or by workers side by side.

ghost use Rattle.std.specs.Prelude.{◌≡◌, ◌≢◌, ◌<◌, [], None, IfOk, IfErr};
ghost use Rattle.cml_hub.specs.{Kept.{NoneOut}, Playing.{PlaysSoFar}};
ghost use Rattle.cml_host.specs.{Between.{between}, Running.{HasRun, IsStopped, IsCounted, Plays, PlaysChosen, PlaysPart, hub_of, cause_of}};
ghost use Rattle.cml_host.specs.declared.workers.Cause.TheVariants.{Memory};
ghost use Rattle.cml_work.specs.Works.{IsWorkerCount, IsWorked, GoesOnFrom};

use crate::reports::send_reports;
use crate::tell::hub_is_a_run;
use cml_arguments::RunOptions;
use cml_hub::{Chooser, First, Hub, Seeded};
use cml_stream::Counting;
use cml_value::Tid;
use cml_work::{Gate, WorkFault, run_watched, run_workers};
use std::alloc::Global;
use std::fmt;
use std::io::Write;
use std::sync::Wait;
use std::thread::Threads;
use thiserror::Error;

/// Why a run is not told as one that has come to its end.
#[derive(Clone, Copy, Debug, Error)]
pub enum Cause {
    /// Out of memory, or no thread could be started.
    #[error("out of memory")]
    Memory,
    /// A write of the reports failed.
    #[error("a write of the reports failed")]
    Write,
    /// The reports that were written are not those of the run.
    #[error("the reports are not those of the run")]
    Foreign,
}

/// A run that is not told as one that has come to its end.
#[derive(Drop, Error)]
#[error("{cause}")]
pub struct Stopped {
    /// The hub, as far as it has gone on.
    pub hub: Hub,
    /// Why it is not told as one that has come to its end.
    pub cause: Cause,
}

// The hub itself is not shown.
impl fmt::Debug for Stopped {
    fn fmt<W: fmt::Write>(&self, f: &mut fmt::Formatter<W>) -> fmt::Result {
        write!(f, "{self}")
    }
}

/// The gate through which every slice may go.
#[derive(Clone, Copy)]
pub struct Open;

impl Gate for Open {
    ghost told = { λ gate thread. Unit {0} };

    fn enter(&self, _thread: Tid) {}
}

/// Runs the hub to its end, and writes its reports to the errors: after the run, or, with more workers than one, each as soon as it is
/// made. With a seed it chooses by that, else always the first. More workers than one go through the gate with each slice.
///
/// # Errors
/// Memory ran out, a write of the reports failed, or the reports that were written are not those of the run.
pub fn run_hub<R, G, E>(
    rt: &R,
    alloc: Global,
    gate: &G,
    hub: Hub,
    options: &RunOptions<'_>,
    err: &mut Counting<'_, E>,
) -> Result<Hub, Stopped>
where
    R: Threads + Wait + Sync,
    G: Gate + Sync,
    E: Write + Send,
    requires fresh { err.old.failed ≡ 0 }
    requires none_out { NoneOut hub }
    requires count { IsWorkerCount options.now.workers }
    requires watch { hub.watch ≡ options.now.watch }
    ensures ok { let errors = between E.contents err.old err.new in
        IfOk result (λ new. HasRun hub new errors) }
    ensures err { let errors = between E.contents err.old err.new in
        IfErr result (λ stopped. IsStopped options.now hub stopped errors) }
    ensures chosen { options.now.workers ≡ 1 → IfOk result (λ new. PlaysChosen options.now.seed hub new) }
    ensures so_far { options.now.workers ≡ 1 → IfErr result (λ stopped. PlaysPart options.now.seed hub stopped.hub) }
    ensures same_err { err.new.stream.ghost_name ≡ err.old.stream.ghost_name }
{
    match options.seed {
        Some(seed) => run_by(rt, alloc, gate, hub, options, Seeded::new(seed), err),
        None => run_by(rt, alloc, gate, hub, options, First, err),
    }
}

// The same, by this chooser.
fn run_by<R, G, C, E>(
    rt: &R,
    alloc: Global,
    gate: &G,
    hub: Hub,
    options: &RunOptions<'_>,
    chooser: C,
    err: &mut Counting<'_, E>,
) -> Result<Hub, Stopped>
where
    R: Threads + Wait + Sync,
    G: Gate + Sync,
    C: Chooser + Drop + Send,
    E: Write + Send,
    requires fresh { err.old.failed ≡ 0 }
    requires none_out { NoneOut hub }
    requires count { IsWorkerCount options.now.workers }
    requires watch { hub.watch ≡ options.now.watch }
    ensures ok { let errors = between E.contents err.old err.new in
        IfOk result (λ new. HasRun hub new errors) }
    ensures err { let errors = between E.contents err.old err.new in
        IfErr result (λ stopped. IsStopped options.now hub stopped errors) }
    ensures plays { options.now.workers ≡ 1 → IfOk result (λ new. Plays (record { picks = C.picks; next = C.next }) chooser hub new) }
    ensures so_far { options.now.workers ≡ 1 → IfErr result (λ stopped. PlaysSoFar (record { picks = C.picks; next = C.next }) hub chooser stopped.hub) }
    ensures same_err { err.new.stream.ghost_name ≡ err.old.stream.ghost_name }
{
    if options.workers == 1 {
        run_alone(alloc, hub, options, chooser, err)
    } else if options.watch.is_some() {
        run_live(rt, alloc, gate, hub, options, chooser, err)
    } else {
        run_silent(rt, alloc, gate, hub, options.workers, chooser)
    }
}

// By one thread, and then its reports.
fn run_alone<C: Chooser + Drop, E: Write>(
    alloc: Global,
    mut hub: Hub,
    options: &RunOptions<'_>,
    mut chooser: C,
    err: &mut Counting<'_, E>,
) -> Result<Hub, Stopped>
    requires fresh { err.old.failed ≡ 0 }
    ensures ok { let errors = between E.contents err.old err.new in
        IfOk result (λ new. HasRun hub new errors) }
    ensures err { let errors = between E.contents err.old err.new in
        IfErr result (λ stopped. IsStopped options.now hub stopped errors) }
    ensures plays { IfOk result (λ new. Plays (record { picks = C.picks; next = C.next }) chooser hub new) }
    ensures so_far { IfErr result (λ stopped. PlaysSoFar (record { picks = C.picks; next = C.next }) hub chooser stopped.hub) }
    ensures same_err { err.new.stream.ghost_name ≡ err.old.stream.ghost_name }
{
    let ended = hub.run_alone(alloc, &mut chooser);
    match send_reports(hub.reports(), err) {
        Ok(()) => {}
        Err(_) => return Err(Stopped {
            hub,
            cause: Cause::Write,
        }),
    }
    match ended {
        Ok(_) => Ok(hub),
        Err(_) => Err(Stopped {
            hub,
            cause: Cause::Memory,
        }),
    }
}

// By workers, where no reports are asked for.
fn run_silent<R, G, C>(
    rt: &R,
    alloc: Global,
    gate: &G,
    hub: Hub,
    workers: usize,
    chooser: C,
) -> Result<Hub, Stopped>
where
    R: Threads + Wait + Sync,
    G: Gate + Sync,
    C: Chooser + Drop + Send,
    requires none_out { NoneOut hub }
    requires count { IsWorkerCount workers }
    requires watch { hub.watch ≡ None }
    ensures ok { IfOk result (λ new. IsWorked hub new × (new.reports ≡ [])) }
    ensures err { IfErr result (λ stopped. GoesOnFrom hub stopped.hub × (stopped.hub.reports ≡ []) × (stopped.cause ≡ Memory)) }
{
    match run_workers(rt, alloc, hub, workers, chooser, gate) {
        Ok(hub) => {
            hub_is_a_run(&hub);
            Ok(hub)
        }
        Err(fault) => {
            let stopped = stopped_by(fault);
            hub_is_a_run(&stopped.hub);
            Err(stopped)
        }
    }
}

// By workers, while a watcher writes the reports.
fn run_live<R, G, C, E>(
    rt: &R,
    alloc: Global,
    gate: &G,
    hub: Hub,
    options: &RunOptions<'_>,
    chooser: C,
    err: &mut Counting<'_, E>,
) -> Result<Hub, Stopped>
where
    R: Threads + Wait + Sync,
    G: Gate + Sync,
    C: Chooser + Drop + Send,
    E: Write + Send,
    requires fresh { err.old.failed ≡ 0 }
    requires none_out { NoneOut hub }
    requires count { IsWorkerCount options.now.workers × (1 < options.now.workers) }
    requires watch { options.now.watch ≢ None }
    ensures ok { let errors = between E.contents err.old err.new in
        IfOk result (λ new. HasRun hub new errors) }
    ensures err { let errors = between E.contents err.old err.new in
        IfErr result (λ stopped. IsStopped options.now hub stopped errors) }
    ensures same_err { err.new.stream.ghost_name ≡ err.old.stream.ghost_name }
{
    match run_watched(rt, alloc, hub, options.workers, chooser, gate, err) {
        Ok((hub, seen)) => {
            drop(seen);
            Ok(hub)
        }
        Err(fault) => Err(stopped_by(fault)),
    }
}

// The hub that the fault carries, with why it does.
fn stopped_by(fault: WorkFault) -> Stopped
    requires { IsCounted fault }
    ensures hub { result.hub ≡ hub_of fault }
    ensures cause { result.cause ≡ cause_of fault }
{
    match fault {
        WorkFault::Count(_) => unreachable!(),
        WorkFault::Memory(hub) | WorkFault::Start(hub) => Stopped {
            hub,
            cause: Cause::Memory,
        },
        WorkFault::Write(hub) => Stopped {
            hub,
            cause: Cause::Write,
        },
        WorkFault::Foreign(hub, seen) => {
            drop(seen);
            Stopped {
                hub,
                cause: Cause::Foreign,
            }
        }
    }
}
