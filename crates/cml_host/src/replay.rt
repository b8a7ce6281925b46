//! The command `replay`: a script runs again, by a schedule that was saved.

ghost use Rattle.std.specs.Prelude.{◌≡◌, ◌≤◌, length, IfOk, IfErr, is_some, true};
ghost use Rattle.cml_hub.specs.Kept.{IsBudget, IsWatch, IsReplayed};
ghost use Rattle.cml_host.specs.{Closed.{plain_asked}, Plans.{IsItemTold}, Refused.{RefusesAs}, Replies.{passage}, Scripts.{plain_script}};
ghost use Rattle.cml_host.specs.Replaying.{HasBadItem, IsHubOf, IsNotFollowed, ReplayOutcome, ReplayTold, ScheduleOutcome, ScriptReplayed, WantedReplayed};
ghost use Rattle.cml_host.specs.Stores.{Shelf, IsUnchanged};

use crate::close::{Asked, Subject, ask};
use crate::item::{explain_item, tell_item};
use crate::opening::{REFUSED, open_plan};
use crate::refusal::Refusal;
use crate::reply::carry_out;
use crate::reports::send_reports;
use crate::run::{Saving, tell_end};
use crate::script::{Script, open_script};
use crate::servers::find_servers;
use crate::store::Store;
use crate::tell::{hub_is_a_run, let_go};
use crate::wanted::{ALONE, find_properties};
use cml_arguments::ReplayOptions;
use cml_check::Prog;
use cml_hub::{Hub, Plan, ReplayFault};
use cml_properties::Property;
use cml_stream::Counting;
use std::alloc::{AllocError, Global};
use std::io::Write;

/// Runs the script that lies under its name again, by the schedule that lies under its own; and explains what is wrong with the script or the
/// schedule and how its run ended, where that is asked for.
pub fn replay_file<O: Write, E: Write, S: Store>(
    alloc: Global,
    options: &ReplayOptions<'_>,
    explains: bool,
    out: &mut Counting<'_, O>,
    err: &mut Counting<'_, E>,
    store: &mut S,
) -> u8
    requires watch { IsWatch options.now.watch }
    requires fresh { err.old.failed ≡ 0 }
    ensures ran { let output = passage O.contents out.old out.new in
        let errors = passage E.contents err.old err.new in
        let shelf : Shelf = record { before = S.holds store.old; after = S.holds store.new } in
        ReplayOutcome options.now explains output errors shelf result }
    ensures same_out { out.new.stream.ghost_name ≡ out.old.stream.ghost_name }
    ensures same_err { err.new.stream.ghost_name ≡ err.old.stream.ghost_name }
{
    match open_script(alloc, options.script, explains, store) {
        Ok(script) => replay_wanted(alloc, script, options, explains, out, err, store),
        Err(why) => carry_out(alloc, "", &Err(why), out, err, store),
    }
}

// Runs the script by the schedule, where it is known what must hold of the run.
fn replay_wanted<O: Write, E: Write, S: Store>(
    alloc: Global,
    script: Script,
    options: &ReplayOptions<'_>,
    explains: bool,
    out: &mut Counting<'_, O>,
    err: &mut Counting<'_, E>,
    store: &mut S,
) -> u8
    requires watch { IsWatch options.now.watch }
    requires fresh { err.old.failed ≡ 0 }
    ensures ran { let output = passage O.contents out.old out.new in
        let errors = passage E.contents err.old err.new in
        let shelf : Shelf = record { before = S.holds store.old; after = S.holds store.new } in
        WantedReplayed explains (plain_script script) options.now output errors shelf result }
    ensures same_out { out.new.stream.ghost_name ≡ out.old.stream.ghost_name }
    ensures same_err { err.new.stream.ghost_name ≡ err.old.stream.ghost_name }
{
    match find_properties(alloc, &options.properties, ALONE, explains, store) {
        Ok(wanted) => replay_script(alloc, script, wanted, options, explains, out, err, store),
        Err(why) => {
            drop(script);
            carry_out(alloc, "", &Err(why), out, err, store)
        }
    }
}

// Runs the script by the schedule, where it has the functions that are named as those of servers.
fn replay_script<O: Write, E: Write, S: Store>(
    alloc: Global,
    script: Script,
    wanted: Vec<Property>,
    options: &ReplayOptions<'_>,
    explains: bool,
    out: &mut Counting<'_, O>,
    err: &mut Counting<'_, E>,
    store: &mut S,
) -> u8
    requires watch { IsWatch options.now.watch }
    requires fresh { err.old.failed ≡ 0 }
    ensures ran { let output = passage O.contents out.old out.new in
        let errors = passage E.contents err.old err.new in
        let shelf : Shelf = record { before = S.holds store.old; after = S.holds store.new } in
        ScriptReplayed explains (plain_script script) wanted.items options.now (S.holds store.old options.now.schedule.now) output errors shelf result }
    ensures same_out { out.new.stream.ghost_name ≡ out.old.stream.ghost_name }
    ensures same_err { err.new.stream.ghost_name ≡ err.old.stream.ghost_name }
{
    match find_servers(alloc, &script, options.end.servers.as_slice()) {
        Ok(servers) => {
            let (program, asked) = ask(
                options.script,
                script,
                explains,
                false,
                options.end.strict,
                servers,
                wanted,
                options.stop,
            );
            replay_program(alloc, program, &asked, options, out, err, store)
        }
        Err(why) => {
            drop(script);
            drop(wanted);
            carry_out(alloc, "", &Err(why), out, err, store)
        }
    }
}

// Runs the program by the schedule.
fn replay_program<O: Write, E: Write, S: Store>(
    alloc: Global,
    program: Prog,
    asked: &Asked<'_>,
    options: &ReplayOptions<'_>,
    out: &mut Counting<'_, O>,
    err: &mut Counting<'_, E>,
    store: &mut S,
) -> u8
    requires watch { IsWatch options.now.watch }
    requires fresh { err.old.failed ≡ 0 }
    ensures ran { let output = passage O.contents out.old out.new in
        let errors = passage E.contents err.old err.new in
        let shelf : Shelf = record { before = S.holds store.old; after = S.holds store.new } in
        ScheduleOutcome (plain_asked asked.now) program options.now.watch options.now.schedule.now (S.holds store.old options.now.schedule.now) output errors shelf result }
    ensures same_out { out.new.stream.ghost_name ≡ out.old.stream.ghost_name }
    ensures same_err { err.new.stream.ghost_name ≡ err.old.stream.ghost_name }
{
    match replayed(alloc, program, asked, options, store) {
        Ok(hub) => {
            let status = tell_run(alloc, &hub, asked, out, err, store);
            let_go(hub);
            status
        }
        Err(why) => carry_out(alloc, "", &Err(why), out, err, store),
    }
}

// Tells where the schedule has led: the reports, and then how the run is closed.
fn tell_run<O: Write, E: Write, S: Store>(
    alloc: Global,
    hub: &Hub,
    asked: &Asked<'_>,
    out: &mut Counting<'_, O>,
    err: &mut Counting<'_, E>,
    store: &mut S,
) -> u8
    requires fresh { err.old.failed ≡ 0 }
    ensures told { let output = passage O.contents out.old out.new in
        let errors = passage E.contents err.old err.new in
        let shelf : Shelf = record { before = S.holds store.old; after = S.holds store.new } in
        ReplayTold (plain_asked asked.now) hub.now output errors shelf result }
    ensures same_out { out.new.stream.ghost_name ≡ out.old.stream.ghost_name }
    ensures same_err { err.new.stream.ghost_name ≡ err.old.stream.ghost_name }
{
    hub_is_a_run(hub);
    match send_reports(hub.reports(), err) {
        Ok(()) => {
            let saving = Saving {
                schedule: None,
                picture: None,
            };
            tell_end(alloc, hub, asked, &saving, out, err, store)
        }
        Err(_) => {
            let why = Refusal::Line("cannot write output\n", 1);
            carry_out(alloc, "", &Err(why), out, err, store)
        }
    }
}

// The hub that has gone through the schedule.
fn replayed<S: Store>(
    alloc: Global,
    program: Prog,
    asked: &Asked<'_>,
    options: &ReplayOptions<'_>,
    store: &mut S,
) -> Result<Hub, Refusal>
    requires watch { IsWatch options.now.watch }
    ensures ok { IfOk result (IsHubOf program options.now.watch (S.holds store.old options.now.schedule.now)) }
    ensures err { IfErr result (RefusesAs (IsNotFollowed (plain_asked asked.now).explains options.now.schedule.now (S.holds store.old options.now.schedule.now) program)) }
    ensures same { IsUnchanged (S.holds store.old) (S.holds store.new) }
{
    let subject = spoken_of(asked);
    match open_plan(alloc, options.schedule, subject.is_some(), &program, store) {
        Ok((text, plan)) => follow(
            alloc,
            program,
            subject,
            text.as_slice(),
            &plan,
            options.watch,
        ),
        Err(why) => {
            drop(program);
            Err(why)
        }
    }
}

// The script, where what is wrong is explained.
fn spoken_of<'a>(asked: &'a Asked<'_>) -> Option<&'a Subject<'a>>
    ensures { is_some result ≡ (plain_asked asked.now).explains }
{
    match &asked.subject {
        Some(subject) if asked.explains => Some(subject),
        _ => None,
    }
}

// The hub of the program that has gone through the plan, which this text is.
fn follow(
    alloc: Global,
    program: Prog,
    subject: Option<&Subject<'_>>,
    text: &[u8],
    plan: &Plan,
    watch: Option<u64>,
) -> Result<Hub, Refusal>
    requires budget { IsBudget plan.now.budget }
    requires watch { IsWatch watch }
    ensures ok { IfOk result (IsReplayed program plan.now.budget watch plan.now.items) }
    ensures err { IfErr result (RefusesAs (HasBadItem (is_some subject.entry) program plan.now)) }
{
    match Hub::replay(alloc, program, plan.budget, watch, plan.items.as_slice()) {
        Ok(hub) => Ok(hub),
        Err(ReplayFault::BadItem(number, program)) => {
            let told = tell_bad(alloc, program, subject, text, plan, number)?;
            Err(Refusal::Told(told, REFUSED))
        }
        Err(ReplayFault::Memory(program)) => {
            drop(program);
            Err(Refusal::Memory)
        }
    }
}

/// What is told of the item of this number, the first that is not allowed where it stands: its number, and why it is not, where a script is
/// spoken of.
///
/// # Errors
/// Out of memory.
#[inline(never)]
pub fn tell_bad(
    alloc: Global,
    program: Prog,
    subject: Option<&Subject<'_>>,
    text: &[u8],
    plan: &Plan,
    number: usize,
) -> Result<Vec<u8>, AllocError>
    requires budget { IsBudget plan.now.budget }
    requires there { (1 ≤ number) × (number ≤ length plan.now.items) }
    ensures { IfOk result (λ told. IsItemTold (is_some subject.entry) number told.items) }
{
    match subject {
        Some(subject) => explain_bad(alloc, program, subject, text, plan, number),
        None => {
            drop(program);
            tell_item(alloc, number, false, b"")
        }
    }
}

// The same where a script is spoken of: the items before it happen again.
fn explain_bad(
    alloc: Global,
    program: Prog,
    subject: &Subject<'_>,
    text: &[u8],
    plan: &Plan,
    number: usize,
) -> Result<Vec<u8>, AllocError>
    requires budget { IsBudget plan.now.budget }
    requires there { (1 ≤ number) × (number ≤ length plan.now.items) }
    ensures { IfOk result (λ told. IsItemTold true number told.items) }
{
    let (before, from) = plan.items.as_slice().split_at(number - 1);
    match Hub::replay(alloc, program, plan.budget, None, before) {
        Ok(hub) => {
            let forms = subject.forms.as_slice();
            let told = explain_item(alloc, forms, text, &hub, number, &from[0]);
            let_go(hub);
            told
        }
        Err(fault) => {
            drop(fault);
            Err(AllocError)
        }
    }
}
