//! The command `run`: a script runs to its end, and its schedule is saved where that is asked for.

ghost use Rattle.std.specs.Prelude.{◌≡◌, ◌⊎◌, IfErr, IfOk, IfSome, is_some, option_map};
ghost use Rattle.cml_arguments.specs.Words.{IsDepth};
ghost use Rattle.cml_hub.specs.Kept.{IsAtStart, IsBudget, IsWatch};
ghost use Rattle.cml_host.specs.{Closed.{plain_asked}, Replies.{Replies, behind, passage, plain_of, runs_out}, Scripts.{plain_script}, Stores.{Shelf}};
ghost use Rattle.cml_host.specs.Running.{BegunOutcome, EndTold, IsEnded, IsStoppedIf, OrderedOutcome, PlainSaving, ProgramOutcome, RunOutcome, ScriptOutcome, SomehowOutcome, WantedOutcome, plain_saving, wanted_of};
ghost use Rattle.cml_host.specs.declared.refusal.Refusal.TheVariants.{Memory};
ghost use Rattle.cml_work.specs.Works.{IsWorkerCount};

use crate::close::{Asked, ask, is_explained};
use crate::order::order_said;
use crate::picture::{Wanted, wanted_from, with_picture};
use crate::refusal::Refusal;
use crate::reply::{Reply, carry_out};
use crate::script::{Script, open_script};
use crate::servers::find_servers;
use crate::store::Store;
use crate::tell::{close_reply, hub_is_a_run, let_go, stop};
use crate::wanted::{ALONE, find_properties};
use crate::workers::run_hub;
use cml_arguments::RunOptions;
use cml_check::Prog;
use cml_explore::Order;
use cml_explore::seed::seed_run;
use cml_hub::Hub;
use cml_judge::stopped_hub;
use cml_properties::Property;
use cml_stream::Counting;
use cml_work::Gate;
use std::alloc::{AllocError, Global};
use std::io::Write;
use std::sync::Wait;
use std::thread::Threads;

/// What is to be saved of a run.
#[derive(Clone, Copy)]
pub struct Saving<'a> {
    /// The name of its schedule, where it is asked for.
    pub schedule: Option<&'a str>,
    /// Its picture, where it is asked for.
    pub picture: Option<Wanted<'a>>,
}

/// Runs the script that lies under the name, and explains what is wrong with it and how its run ended, where that is asked for.
pub fn run_file<R, G, O, E, S>(
    rt: &R,
    alloc: Global,
    gate: &G,
    options: &RunOptions<'_>,
    explains: bool,
    out: &mut Counting<'_, O>,
    err: &mut Counting<'_, E>,
    store: &mut S,
) -> u8
where
    R: Threads + Wait + Sync,
    G: Gate + Sync,
    O: Write,
    E: Write + Send,
    S: Store,
    requires counts { IsWorkerCount options.now.workers × IsBudget options.now.steps × IsWatch options.now.watch }
    requires depth { IfSome options.now.priority IsDepth }
    requires fresh { err.old.failed ≡ 0 }
    ensures ran { let output = passage O.contents out.old out.new in
        let errors = passage E.contents err.old err.new in
        let shelf : Shelf = record { before = S.holds store.old; after = S.holds store.new } in
        RunOutcome options.now explains output errors shelf result }
    ensures same_out { out.new.stream.ghost_name ≡ out.old.stream.ghost_name }
    ensures same_err { err.new.stream.ghost_name ≡ err.old.stream.ghost_name }
{
    match open_script(alloc, options.file, explains, store) {
        Ok(script) => run_wanted(rt, alloc, gate, script, options, explains, out, err, store),
        Err(why) => carry_out(alloc, "", &Err(why), out, err, store),
    }
}

// Runs the script, where it is known what must hold of its run.
fn run_wanted<R, G, O, E, S>(
    rt: &R,
    alloc: Global,
    gate: &G,
    script: Script,
    options: &RunOptions<'_>,
    explains: bool,
    out: &mut Counting<'_, O>,
    err: &mut Counting<'_, E>,
    store: &mut S,
) -> u8
where
    R: Threads + Wait + Sync,
    G: Gate + Sync,
    O: Write,
    E: Write + Send,
    S: Store,
    requires counts { IsWorkerCount options.now.workers × IsBudget options.now.steps × IsWatch options.now.watch }
    requires depth { IfSome options.now.priority IsDepth }
    requires fresh { err.old.failed ≡ 0 }
    ensures ran { let output = passage O.contents out.old out.new in
        let errors = passage E.contents err.old err.new in
        let shelf : Shelf = record { before = S.holds store.old; after = S.holds store.new } in
        WantedOutcome explains (plain_script script) options.now output errors shelf result }
    ensures same_out { out.new.stream.ghost_name ≡ out.old.stream.ghost_name }
    ensures same_err { err.new.stream.ghost_name ≡ err.old.stream.ghost_name }
{
    match find_properties(alloc, &options.properties, ALONE, explains, store) {
        Ok(wanted) => run_script(
            rt, alloc, gate, script, wanted, options, explains, out, err, store,
        ),
        Err(why) => {
            drop(script);
            carry_out(alloc, "", &Err(why), out, err, store)
        }
    }
}

// Runs the script, where it has the functions that are named as those of servers.
fn run_script<R, G, O, E, S>(
    rt: &R,
    alloc: Global,
    gate: &G,
    script: Script,
    wanted: Vec<Property>,
    options: &RunOptions<'_>,
    explains: bool,
    out: &mut Counting<'_, O>,
    err: &mut Counting<'_, E>,
    store: &mut S,
) -> u8
where
    R: Threads + Wait + Sync,
    G: Gate + Sync,
    O: Write,
    E: Write + Send,
    S: Store,
    requires counts { IsWorkerCount options.now.workers × IsBudget options.now.steps × IsWatch options.now.watch }
    requires depth { IfSome options.now.priority IsDepth }
    requires fresh { err.old.failed ≡ 0 }
    ensures ran { let output = passage O.contents out.old out.new in
        let errors = passage E.contents err.old err.new in
        let shelf : Shelf = record { before = S.holds store.old; after = S.holds store.new } in
        ScriptOutcome explains (plain_script script) wanted.items options.now output errors shelf result }
    ensures same_out { out.new.stream.ghost_name ≡ out.old.stream.ghost_name }
    ensures same_err { err.new.stream.ghost_name ≡ err.old.stream.ghost_name }
{
    match find_servers(alloc, &script, options.end.servers.as_slice()) {
        Ok(servers) => {
            let draws = options.draw.is_some();
            let strict = options.end.strict;
            let (program, asked) = ask(
                options.file,
                script,
                explains,
                draws,
                strict,
                servers,
                wanted,
                options.stop,
            );
            let saving = saving_for(&asked, options.record, options.draw);
            run_so(
                rt, alloc, gate, program, &asked, &saving, options, out, err, store,
            )
        }
        Err(why) => {
            drop(script);
            drop(wanted);
            carry_out(alloc, "", &Err(why), out, err, store)
        }
    }
}

// What is to be saved, under these names.
fn saving_for<'a>(
    asked: &'a Asked<'a>,
    schedule: Option<&'a str>,
    draw: Option<&'a str>,
) -> Saving<'a>
    ensures { let saving : PlainSaving = record { schedule = option_map (λ name. name.now) schedule.entry; picture = wanted_of (option_map (λ name. name.now) draw.entry) (is_some asked.now.subject) } in
        plain_saving result ≡ saving }
{
    let picture = wanted_from(asked, draw);
    Saving { schedule, picture }
}

// Runs the program, as the arguments say what decides what happens next.
fn run_so<R, G, O, E, S>(
    rt: &R,
    alloc: Global,
    gate: &G,
    program: Prog,
    asked: &Asked<'_>,
    saving: &Saving<'_>,
    options: &RunOptions<'_>,
    out: &mut Counting<'_, O>,
    err: &mut Counting<'_, E>,
    store: &mut S,
) -> u8
where
    R: Threads + Wait + Sync,
    G: Gate + Sync,
    O: Write,
    E: Write + Send,
    S: Store,
    requires counts { IsWorkerCount options.now.workers × IsBudget options.now.steps × IsWatch options.now.watch }
    requires depth { IfSome options.now.priority IsDepth }
    requires fresh { err.old.failed ≡ 0 }
    ensures ran { let output = passage O.contents out.old out.new in
        let errors = passage E.contents err.old err.new in
        let shelf : Shelf = record { before = S.holds store.old; after = S.holds store.new } in
        SomehowOutcome (plain_asked asked.now) (plain_saving saving.now) program options.now output errors shelf result }
    ensures same_out { out.new.stream.ghost_name ≡ out.old.stream.ghost_name }
    ensures same_err { err.new.stream.ghost_name ≡ err.old.stream.ghost_name }
{
    match order_said(options.turns, options.priority) {
        Some(order) => run_ordered(
            alloc, program, asked, saving, options, order, out, err, store,
        ),
        None => run_program(
            rt, alloc, gate, program, asked, saving, options, out, err, store,
        ),
    }
}

// Makes the run of the program by the seed in this order, and tells it.
fn run_ordered<O, E, S>(
    alloc: Global,
    program: Prog,
    asked: &Asked<'_>,
    saving: &Saving<'_>,
    options: &RunOptions<'_>,
    order: Order,
    out: &mut Counting<'_, O>,
    err: &mut Counting<'_, E>,
    store: &mut S,
) -> u8
where
    O: Write,
    E: Write,
    S: Store,
    requires budget { IsBudget options.now.steps }
    ensures ran { let output = passage O.contents out.old out.new in
        let errors = passage E.contents err.old err.new in
        let shelf : Shelf = record { before = S.holds store.old; after = S.holds store.new } in
        OrderedOutcome (plain_asked asked.now) (plain_saving saving.now) program options.now order output errors shelf result }
    ensures same_out { out.new.stream.ghost_name ≡ out.old.stream.ghost_name }
    ensures same_err { err.new.stream.ghost_name ≡ err.old.stream.ghost_name }
{
    let seed = options.seed.unwrap_or(0);
    match seed_run(alloc, &program, options.steps, order, seed) {
        Ok(hub) => {
            let status = tell_end(alloc, &hub, asked, saving, out, err, store);
            let_go(hub);
            status
        }
        Err(AllocError) => carry_out(alloc, "", &Err(Refusal::Memory), out, err, store),
    }
}

// Runs the program.
fn run_program<R, G, O, E, S>(
    rt: &R,
    alloc: Global,
    gate: &G,
    program: Prog,
    asked: &Asked<'_>,
    saving: &Saving<'_>,
    options: &RunOptions<'_>,
    out: &mut Counting<'_, O>,
    err: &mut Counting<'_, E>,
    store: &mut S,
) -> u8
where
    R: Threads + Wait + Sync,
    G: Gate + Sync,
    O: Write,
    E: Write + Send,
    S: Store,
    requires counts { IsWorkerCount options.now.workers × IsBudget options.now.steps × IsWatch options.now.watch }
    requires fresh { err.old.failed ≡ 0 }
    ensures ran { let output = passage O.contents out.old out.new in
        let errors = passage E.contents err.old err.new in
        let shelf : Shelf = record { before = S.holds store.old; after = S.holds store.new } in
        BegunOutcome (plain_asked asked.now) (plain_saving saving.now) program options.now output errors shelf result }
    ensures same_out { out.new.stream.ghost_name ≡ out.old.stream.ghost_name }
    ensures same_err { err.new.stream.ghost_name ≡ err.old.stream.ghost_name }
{
    match Hub::begin(alloc, program, options.steps, options.watch) {
        Ok(hub) => run_begun(
            rt, alloc, gate, hub, asked, saving, options, out, err, store,
        ),
        Err(back) => {
            drop(back.value);
            carry_out(alloc, "", &Err(Refusal::Memory), out, err, store)
        }
    }
}

// Runs the hub from its beginning on, and tells the run.
fn run_begun<R, G, O, E, S>(
    rt: &R,
    alloc: Global,
    gate: &G,
    hub: Hub,
    asked: &Asked<'_>,
    saving: &Saving<'_>,
    options: &RunOptions<'_>,
    out: &mut Counting<'_, O>,
    err: &mut Counting<'_, E>,
    store: &mut S,
) -> u8
where
    R: Threads + Wait + Sync,
    G: Gate + Sync,
    O: Write,
    E: Write + Send,
    S: Store,
    requires counts { IsWorkerCount options.now.workers }
    requires begun { IsAtStart hub.course.program options.now.steps options.now.watch hub }
    requires fresh { err.old.failed ≡ 0 }
    ensures ran { let output = passage O.contents out.old out.new in
        let errors = passage E.contents err.old err.new in
        let shelf : Shelf = record { before = S.holds store.old; after = S.holds store.new } in
        ProgramOutcome (plain_asked asked.now) (plain_saving saving.now) hub.course.program options.now output errors shelf result }
    ensures same_out { out.new.stream.ghost_name ≡ out.old.stream.ghost_name }
    ensures same_err { err.new.stream.ghost_name ≡ err.old.stream.ghost_name }
{
    hub_is_a_run(&hub);
    match run_hub(rt, alloc, gate, hub, options, err) {
        Ok(hub) => {
            hub_is_a_run(&hub);
            let status = tell_end(alloc, &hub, asked, saving, out, err, store);
            let_go(hub);
            status
        }
        Err(stopped) => {
            hub_is_a_run(&stopped.hub);
            let status = stop(alloc, &stopped, out, err, store);
            let_go(stopped.hub);
            status
        }
    }
}

/// Tells the run of this hub, which is over; where it is to stop, as far as it goes until it does. It returns the status.
pub fn tell_end<O: Write, E: Write, S: Store>(
    alloc: Global,
    hub: &Hub,
    asked: &Asked<'_>,
    saving: &Saving<'_>,
    out: &mut Counting<'_, O>,
    err: &mut Counting<'_, E>,
    store: &mut S,
) -> u8
    ensures told { let output = passage O.contents out.old out.new in
        let errors = passage E.contents err.old err.new in
        let shelf : Shelf = record { before = S.holds store.old; after = S.holds store.new } in
        EndTold (plain_asked asked.now) (plain_saving saving.now) hub.now output errors shelf result }
    ensures same_out { out.new.stream.ghost_name ≡ out.old.stream.ghost_name }
    ensures same_err { err.new.stream.ghost_name ≡ err.old.stream.ghost_name }
{
    match stopped(alloc, hub, asked) {
        Ok(Some(other)) => {
            hub_is_a_run(&other);
            let status = tell_whole(alloc, &other, asked, saving, out, err, store);
            let_go(other);
            status
        }
        Ok(None) => {
            hub_is_a_run(hub);
            tell_whole(alloc, hub, asked, saving, out, err, store)
        }
        Err(AllocError) => carry_out(alloc, hub.out(), &Err(Refusal::Memory), out, err, store),
    }
}

// A hub that stands where the run of this one stops, where it is to stop and does.
fn stopped(alloc: Global, hub: &Hub, asked: &Asked<'_>) -> Result<Option<Hub>, AllocError>
    ensures { IfOk result (IsStoppedIf (plain_asked asked.now) hub.now) }
{
    if asked.stops {
        stopped_hub(alloc, asked.properties.as_slice(), hub)
    } else {
        Ok(None)
    }
}

// Tells the whole run of this hub.
fn tell_whole<O: Write, E: Write, S: Store>(
    alloc: Global,
    hub: &Hub,
    asked: &Asked<'_>,
    saving: &Saving<'_>,
    out: &mut Counting<'_, O>,
    err: &mut Counting<'_, E>,
    store: &mut S,
) -> u8
    ensures told { let output = passage O.contents out.old out.new in
        let errors = passage E.contents err.old err.new in
        let shelf : Shelf = record { before = S.holds store.old; after = S.holds store.new } in
        Replies (λ reply. IsEnded (plain_asked asked.now) (plain_saving saving.now) hub.now reply ⊎ (reply ≡ runs_out hub.now.course.output)) output errors shelf result }
    ensures same_out { out.new.stream.ghost_name ≡ out.old.stream.ghost_name }
    ensures same_err { err.new.stream.ghost_name ≡ err.old.stream.ghost_name }
{
    let made = end(alloc, hub, asked, saving);
    let status = carry_out(alloc, hub.out(), &made, out, err, store);
    drop(made);
    status
}

// What is told of a run that is over: how it is closed, with its picture, where that is asked for.
fn end(alloc: Global, hub: &Hub, asked: &Asked<'_>, saving: &Saving<'_>) -> Result<Reply, Refusal>
    ensures ok { IfOk result (λ reply. IsEnded (plain_asked asked.now) (plain_saving saving.now) hub.now (behind hub.now.course.output (plain_of reply))) }
    ensures err { IfErr result (λ why. why ≡ Memory) }
{
    let bare = close_reply(alloc, hub, asked, saving.schedule)?;
    let explains = is_explained(asked);
    let reply = with_picture(alloc, hub, explains, &saving.picture, bare)?;
    Ok(reply)
}
