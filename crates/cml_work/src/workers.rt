//! Runs of a hub with many workers.

ghost use Rattle.std.specs.Prelude.{◌≡◌, ◌↔◌, [], IfOk, IfErr, IsTrue};
ghost use Rattle.cml_hub.specs.Kept.{NoneOut};
ghost use Rattle.cml_stream.specs.Streams.{stream, Takes};
ghost use Rattle.cml_work.specs.Marks.{BeginsWith, IsKeeper, WasShown, shown_of};
ghost use Rattle.cml_work.specs.Seen.{texts_of, IsWatched, FaultWrites, failed_watching, failed_after_all};
ghost use Rattle.cml_work.specs.Picks.{PicksRows, TakenBy, picker, hub_of_run, hub_of_end, hub_of_watched};
ghost use Rattle.cml_work.specs.Works.{Works, IsWorkerCount, IsWorked, GoesOnFrom, WatchBreaks, WatchFails, opening_of};

use crate::desk::Gate;
use crate::ending::{end_alone, finished, is_still, out_of_memory};
use crate::fault::WorkFault;
use crate::marks::{Board, Mark, new_board};
use crate::opening::Opening;
use crate::shared::Shared;
use crate::started::Started;
use crate::watching::{Watched, watch_marked};
use crate::working::worker;
use cml_hub::{Chooser, Hub};
use cml_schedule::Report;
use cml_stream::Counting;
use std::alloc::Global;
use std::io::Write;
use std::marker::Brand;
use std::sync::Wait;
use std::thread;
use std::thread::{Threads, join_mut};

// The most workers.
const MAX_WORKERS: usize = 64;

// Whether there may be this many workers.
fn is_count(workers: usize) -> bool
    ensures { IsTrue result ↔ IsWorkerCount workers }
{
    (1..=MAX_WORKERS).contains(&workers)
}

// Runs the workers, each in a thread of its own. Returns which were started, once all have ended.
fn work_together<'x, R, O, C, G>(
    rt: &'x R,
    alloc: Global,
    shared: &'x Shared<O, C>,
    gate: &'x G,
    workers: usize,
) -> Started
where
    R: Threads + Wait + Sync,
    O: Opening + Send + Sync,
    C: Chooser + Drop + Send,
    G: Gate + Sync,
{
    thread::scope(thread::scope_env(), rt, |scope| {
        let mut started = Started::none();
        for _ in 0..workers {
            if let Ok(handle) = scope.spawn(move || worker(rt, alloc, shared, gate)) {
                started.add(&handle);
                drop(handle);
            }
        }
        started
    })
}

// The hub once the workers have run it and one thread has run it to its end; or as far as it has gone on, where memory ran out.
fn run_over<O, R, C, G>(
    rt: &R,
    alloc: Global,
    hub: Hub,
    board: Board,
    keeper: Mark,
    workers: usize,
    chooser: C,
    gate: &G,
) -> Result<Hub, Hub>
where
    O: Opening + Send + Sync,
    R: Threads + Wait + Sync,
    C: Chooser + Drop + Send,
    G: Gate + Sync,
    requires hub { opening_of hub ≡ O.opening }
    requires board { board.table.shared.table_id ≡ O.board }
    requires keeper { IsKeeper O.board [] keeper }
    requires picks { O.picks ≡ picker (record { picks = C.picks; next = C.next }) chooser }
    ensures chosen { TakenBy O.opening O.picks (hub_of_end result) }
    ensures ok { IfOk result (λ new. IsWorked hub new) }
    ensures err { IfErr result (λ new. GoesOnFrom hub new) }
{
    let shared: Shared<O, C> = Shared::new(hub, chooser, board, keeper);
    let _started = work_together(rt, alloc, &shared, gate, workers);
    let (hub, chooser, is_stopped) = shared.into_parts();
    end_alone(alloc, hub, chooser, is_stopped)
}

/// Runs the hub, of which no slice is out, with this many workers, 1 to 64, until nothing is left to do or the budget is used. The chooser
/// picks each row that is taken, where it is taken; what can be taken then depends on who comes first to the lock. Where no thread can be
/// started it runs alone.
///
/// # Errors
/// Another number of workers; or out of memory. Both hand over a hub.
pub fn run_workers<R, C, G>(
    rt: &R,
    alloc: Global,
    hub: Hub,
    workers: usize,
    chooser: C,
    gate: &G,
) -> Result<Hub, WorkFault>
where
    R: Threads + Wait + Sync,
    C: Chooser + Drop + Send,
    G: Gate + Sync,
    requires { NoneOut hub }
    ensures works { Works hub workers result }
    ensures picks { PicksRows (record { picks = C.picks; next = C.next }) chooser hub (hub_of_run result) }
{
    if !is_count(workers) {
        return Err(WorkFault::Count(hub));
    }
    let Ok((board, keeper)) = new_board(alloc) else {
        return Err(WorkFault::Memory(hub));
    };
    match run_over::<Brand, R, C, G>(rt, alloc, hub, board, keeper, workers, chooser, gate) {
        Ok(hub) => Ok(hub),
        Err(hub) => Err(WorkFault::Memory(hub)),
    }
}

// Runs the watcher in a thread of its own, beside the workers; where none can be started for it, once the workers have ended. Returns what
// the watcher saw, and which workers were started.
fn watched<R, O, C, G, W>(
    rt: &R,
    alloc: Global,
    shared: &Shared<O, C>,
    gate: &G,
    workers: usize,
    writer: &mut Counting<'_, W>,
) -> (Watched, Started)
where
    R: Threads + Wait + Sync,
    O: Opening + Send + Sync,
    C: Chooser + Drop + Send,
    G: Gate + Sync,
    W: Write + Send,
    ensures watched { let output = stream (W.contents writer.old.stream.now) (W.contents writer.new.stream.now) in
        IsWatched output result.0.seen.items result.0.fault }
    ensures mark { WasShown O.board (shown_of result.0.mark) result.0.mark }
    ensures shown { BeginsWith (shown_of result.0.mark) result.0.seen.items }
    ensures same_reference { writer.new.stream.ghost_name ≡ writer.old.stream.ghost_name }
    ensures failed { writer.new.failed ≡ failed_watching result.0.fault writer.old.failed }
{
    let of_workers = alloc;
    join_mut(
        rt,
        &mut || -> Watched
            ensures watched { let output = stream (W.contents writer.entry.now.stream.now) (W.contents writer.exit.now.stream.now) in
                IsWatched output result.seen.items result.fault }
            ensures mark { WasShown O.board (shown_of result.mark) result.mark }
            ensures shown { BeginsWith (shown_of result.mark) result.seen.items }
            ensures same_reference { writer.exit.now.stream.ghost_name ≡ writer.entry.now.stream.ghost_name }
            ensures failed { writer.exit.now.failed ≡ failed_watching result.fault writer.entry.now.failed }
        { watch_marked(rt, alloc, shared, writer) },
        &mut || {
            let started = work_together(rt, of_workers, shared, gate, workers);
            shared.close(rt);
            started
        },
    )
}

// The hub with the reports that were seen, once the workers and the watcher have ended and one thread has run it to its end.
fn watch_over<O, R, C, G, W>(
    rt: &R,
    alloc: Global,
    hub: Hub,
    board: Board,
    keeper: Mark,
    workers: usize,
    chooser: C,
    gate: &G,
    writer: &mut Counting<'_, W>,
) -> Result<(Hub, Vec<Report>), WorkFault>
where
    O: Opening + Send + Sync,
    R: Threads + Wait + Sync,
    C: Chooser + Drop + Send,
    G: Gate + Sync,
    W: Write + Send,
    requires hub { opening_of hub ≡ O.opening }
    requires board { board.table.shared.table_id ≡ O.board }
    requires keeper { IsKeeper O.board [] keeper }
    requires picks { O.picks ≡ picker (record { picks = C.picks; next = C.next }) chooser }
    ensures chosen { TakenBy O.opening O.picks (hub_of_watched result) }
    ensures works { IfOk result (λ r. IsWorked hub r.0 × (r.1.items ≡ r.0.reports)) }
    ensures fails { IfErr result (λ fault. WatchBreaks hub fault) }
    ensures written { let output = stream (W.contents writer.old.stream.now) (W.contents writer.new.stream.now) in
        IfOk result (λ r. Takes output (texts_of r.0.reports)) }
    ensures written_err { let output = stream (W.contents writer.old.stream.now) (W.contents writer.new.stream.now) in
        IfErr result (λ fault. FaultWrites output fault) }
    ensures same_reference { writer.new.stream.ghost_name ≡ writer.old.stream.ghost_name }
    ensures failed { writer.new.failed ≡ failed_after_all result writer.old.failed }
{
    let before = hub.schedule().len();
    let shared: Shared<O, C> = Shared::new(hub, chooser, board, keeper);
    let (watched, started) = watched(rt, alloc, &shared, gate, workers, writer);
    let Watched { seen, fault, mark } = watched;
    let (hub, chooser, is_stopped) = shared.into_parts_with(rt, mark);
    let is_still = is_still(&started, &hub, before);
    finished(
        alloc, hub, chooser, is_stopped, is_still, seen, fault, writer,
    )
}

/// Runs the hub as [`run_workers`] does, and writes each report as soon as it is made. It returns the reports that were written too.
///
/// # Errors
/// Another number of workers; out of memory; no thread that could be started; a write that failed or took nothing; or reports that are not
/// those of the hub. All hand over a hub.
pub fn run_watched<R, C, G, W>(
    rt: &R,
    alloc: Global,
    hub: Hub,
    workers: usize,
    chooser: C,
    gate: &G,
    writer: &mut Counting<'_, W>,
) -> Result<(Hub, Vec<Report>), WorkFault>
where
    R: Threads + Wait + Sync,
    C: Chooser + Drop + Send,
    G: Gate + Sync,
    W: Write + Send,
    requires { NoneOut hub }
    ensures picks { PicksRows (record { picks = C.picks; next = C.next }) chooser hub (hub_of_watched result) }
    ensures works { IfOk result (λ r. IsWorkerCount workers × IsWorked hub r.0 × (r.1.items ≡ r.0.reports)) }
    ensures fails { IfErr result (λ fault. WatchFails hub workers fault) }
    ensures written { let output = stream (W.contents writer.old.stream.now) (W.contents writer.new.stream.now) in
        IfOk result (λ r. Takes output (texts_of r.0.reports)) }
    ensures written_err { let output = stream (W.contents writer.old.stream.now) (W.contents writer.new.stream.now) in
        IfErr result (λ fault. FaultWrites output fault) }
    ensures same_reference { writer.new.stream.ghost_name ≡ writer.old.stream.ghost_name }
    ensures failed { writer.new.failed ≡ failed_after_all result writer.old.failed }
{
    if !is_count(workers) {
        return Err(WorkFault::Count(hub));
    }
    let Ok((board, keeper)) = new_board(alloc) else {
        return Err(out_of_memory(hub, Vec::new(alloc), writer));
    };
    watch_over::<Brand, R, C, G, W>(
        rt, alloc, hub, board, keeper, workers, chooser, gate, writer,
    )
}
