//! The command that the arguments name, with what they give it.
#![tactic(auto, using(crate::proofs::Served::file_given, crate::proofs::Served::flag_served, crate::proofs::Served::number_served, crate::proofs::Named::named_complete, crate::proofs::Named::named_task))]

ghost use Rattle.std.specs.Prelude.{◌≡◌, ◌<◌, ◌-◌, [], true, is_some, map, IfOk, IsSomeAnd, Some};
ghost use Rattle.clap.specs.Words.{first_of, found_of, rows_of, subcommand_rows_of};
ghost use Rattle.cml_arguments.specs.Words.{any_rule, commands, end_rules, explain_rules, explanation, explore_command, file_command, flag_rule, is_complete, is_flagged, is_served, option_number, option_texts, part_command, property_rules, replay_command, run_command, shrink_command, step_command, trace_command, verify_command, AreServed, IsEnd, IsExplore, IsFile, IsPart, IsProperties, IsReplay, IsRun, IsShrink, IsStepping, IsTrace, IsVerify, Names};

use crate::{
    EndOptions, Explain, ExploreOptions, FileOptions, PartOptions, PropertyOptions, ReplayOptions,
    RunOptions, ShrinkOptions, StepOptions, Task, TraceOptions, VerifyOptions,
};
use clap::ArgMatches;
use std::alloc::{AllocError, Global};

// What was given, or out of memory.
type Given<T> = Result<T, AllocError>;

// How many steps a script may take where no number is given.
const DEFAULT_STEPS: u64 = 1_000_000;

// How many runs are made where no number is given.
const DEFAULT_RUNS: u64 = 100;

// How many states are kept where no number is given.
const DEFAULT_STATES: u64 = 20_000;

// How many replays a search may take where no number is given.
const DEFAULT_TRIES: u64 = 10_000;

/// The command that the arguments named, with what it was given.
///
/// # Errors
/// Out of memory.
pub fn task_of<'a>(alloc: Global, matches: &ArgMatches<'a>) -> Result<Task<'a>, AllocError>
    requires { is_complete commands (subcommand_rows_of matches.now) ≡ true }
    ensures { IfOk result (λ task. IsSomeAnd (subcommand_rows_of matches.now) (λ named. Names named task)) }
{
    let Some((name, below)) = matches.subcommand() else {
        unreachable!()
    };
    match name {
        "trace" => Ok(Task::Trace(trace_options(below))),
        "check" => Ok(Task::Check(file_options(below))),
        "fmt" => Ok(Task::Fmt(file_options(below))),
        "run" => Ok(Task::Run(run_options(alloc, below)?)),
        "replay" => Ok(Task::Replay(replay_options(alloc, below)?)),
        "explain" => Ok(Task::Explain(part_options(below))),
        "explore" => Ok(Task::Explore(explore_options(alloc, below)?)),
        "verify" => Ok(Task::Verify(verify_options(alloc, below)?)),
        "shrink" => Ok(Task::Shrink(shrink_options(alloc, below)?)),
        "draw" => Ok(Task::Draw(part_options(below))),
        "step" => Ok(Task::Step(step_options(below))),
        _ => unreachable!(),
    }
}

// What `trace` was given.
fn trace_options(matches: &ArgMatches<'_>) -> TraceOptions
    requires { AreServed (rows_of (found_of matches.now)) trace_command.rules }
    ensures { IsTrace (rows_of (found_of matches.now)) result }
{
    TraceOptions {
        live: flag(matches, "live"),
        explain: explain_option(matches),
    }
}

// What a command was given that takes a file alone.
fn file_options<'a>(matches: &ArgMatches<'a>) -> FileOptions<'a>
    requires { AreServed (rows_of (found_of matches.now)) (file_command []).rules }
    ensures { IsFile (rows_of (found_of matches.now)) result }
{
    FileOptions {
        file: given(matches, "FILE"),
        explain: explain_option(matches),
    }
}

// What `run` was given.
fn run_options<'a>(alloc: Global, matches: &ArgMatches<'a>) -> Given<RunOptions<'a>>
    requires { AreServed (rows_of (found_of matches.now)) run_command.rules }
    ensures { IfOk result (IsRun (rows_of (found_of matches.now))) }
{
    Ok(RunOptions {
        file: given(matches, "FILE"),
        workers: number(matches, "workers").unwrap_or(1) as usize,
        steps: number(matches, "steps").unwrap_or(DEFAULT_STEPS),
        seed: number(matches, "seed"),
        turns: flag(matches, "turns"),
        priority: number(matches, "priority"),
        watch: number(matches, "watch"),
        record: matches.get_str("record"),
        draw: matches.get_str("draw"),
        end: end_options(alloc, matches)?,
        properties: property_options(alloc, matches)?,
        stop: flag(matches, "stop"),
        explain: explain_option(matches),
    })
}

// What `replay` was given.
fn replay_options<'a>(alloc: Global, matches: &ArgMatches<'a>) -> Given<ReplayOptions<'a>>
    requires { AreServed (rows_of (found_of matches.now)) replay_command.rules }
    ensures { IfOk result (IsReplay (rows_of (found_of matches.now))) }
{
    Ok(ReplayOptions {
        script: given(matches, "FILE"),
        schedule: given(matches, "SCHEDULE"),
        watch: number(matches, "watch"),
        end: end_options(alloc, matches)?,
        properties: property_options(alloc, matches)?,
        stop: flag(matches, "stop"),
        explain: explain_option(matches),
    })
}

// What a command was given that takes a part of a schedule.
fn part_options<'a>(matches: &ArgMatches<'a>) -> PartOptions<'a>
    requires { AreServed (rows_of (found_of matches.now)) (part_command []).rules }
    ensures { IsPart (rows_of (found_of matches.now)) result }
{
    let schedule = given(matches, "SCHEDULE");
    PartOptions {
        script: given(matches, "FILE"),
        schedule,
        from: number(matches, "from").unwrap_or(1),
        to: number(matches, "to"),
    }
}

// What `explore` was given.
fn explore_options<'a>(alloc: Global, matches: &ArgMatches<'a>) -> Given<ExploreOptions<'a>>
    requires { AreServed (rows_of (found_of matches.now)) explore_command.rules }
    ensures { IfOk result (IsExplore (rows_of (found_of matches.now))) }
{
    let servers = texts(alloc, matches, "servers")?;
    let until = texts(alloc, matches, "until")?;
    let properties = property_options(alloc, matches)?;
    Ok(ExploreOptions {
        script: given(matches, "FILE"),
        runs: number(matches, "runs").unwrap_or(DEFAULT_RUNS),
        seed: number(matches, "seed").unwrap_or(0),
        steps: number(matches, "steps").unwrap_or(DEFAULT_STEPS),
        workers: number(matches, "workers"),
        picks: flag(matches, "picks"),
        turns: flag(matches, "turns"),
        priority: number(matches, "priority"),
        save: matches.get_str("save"),
        servers,
        until,
        properties,
        same_lines: flag(matches, "same-lines"),
        same_order: flag(matches, "same-order"),
        json: flag(matches, "json"),
    })
}

// What `verify` was given.
fn verify_options<'a>(alloc: Global, matches: &ArgMatches<'a>) -> Given<VerifyOptions<'a>>
    requires { AreServed (rows_of (found_of matches.now)) verify_command.rules }
    ensures { IfOk result (IsVerify (rows_of (found_of matches.now))) }
{
    let servers = texts(alloc, matches, "servers")?;
    Ok(VerifyOptions {
        script: given(matches, "FILE"),
        states: number(matches, "states").unwrap_or(DEFAULT_STATES),
        outcomes: flag(matches, "outcomes"),
        endless: flag(matches, "endless"),
        save: matches.get_str("save"),
        servers,
        json: flag(matches, "json"),
    })
}

// What `shrink` was given.
fn shrink_options<'a>(alloc: Global, matches: &ArgMatches<'a>) -> Given<ShrinkOptions<'a>>
    requires { AreServed (rows_of (found_of matches.now)) shrink_command.rules }
    ensures { IfOk result (IsShrink (rows_of (found_of matches.now))) }
{
    let schedule = given(matches, "SCHEDULE");
    let properties = property_options(alloc, matches)?;
    Ok(ShrinkOptions {
        script: given(matches, "FILE"),
        schedule,
        tries: number(matches, "tries").unwrap_or(DEFAULT_TRIES),
        properties,
        stop: flag(matches, "stop"),
    })
}

// What `step` was given.
fn step_options<'a>(matches: &ArgMatches<'a>) -> StepOptions<'a>
    requires { AreServed (rows_of (found_of matches.now)) step_command.rules }
    ensures { IsStepping (rows_of (found_of matches.now)) result }
{
    StepOptions {
        script: given(matches, "FILE"),
        record: matches.get_str("record"),
    }
}

// What is said of threads that are left at the end.
fn end_options<'a>(alloc: Global, matches: &ArgMatches<'a>) -> Given<EndOptions<'a>>
    requires { AreServed (rows_of (found_of matches.now)) end_rules }
    ensures { IfOk result (IsEnd (rows_of (found_of matches.now))) }
{
    let servers = texts(alloc, matches, "servers")?;
    Ok(EndOptions {
        strict: flag(matches, "strict"),
        servers,
    })
}

// What is said of what must hold of a run.
fn property_options<'a>(alloc: Global, matches: &ArgMatches<'a>) -> Given<PropertyOptions<'a>>
    requires { AreServed (rows_of (found_of matches.now)) property_rules }
    ensures { IfOk result (IsProperties (rows_of (found_of matches.now))) }
{
    let never = texts(alloc, matches, "never")?;
    let always = texts(alloc, matches, "always")?;
    let once = texts(alloc, matches, "once")?;
    let before = texts(alloc, matches, "before")?;
    Ok(PropertyOptions {
        never,
        always,
        once,
        before,
        empty: flag(matches, "empty"),
        file: matches.get_str("properties"),
    })
}

// What is said of explaining what is wrong: `--plain` turns it off, also where `--explain` asks for it.
fn explain_option(matches: &ArgMatches<'_>) -> Explain
    requires { AreServed (rows_of (found_of matches.now)) explain_rules }
    ensures { result ≡ explanation (rows_of (found_of matches.now)) }
{
    if flag(matches, "plain") {
        Explain::Off
    } else if flag(matches, "explain") {
        Explain::Asked
    } else {
        Explain::Unsaid
    }
}

// The text that an argument was given.
fn given<'a>(matches: &ArgMatches<'a>, id: &str) -> &'a str
    requires { is_some (first_of id.now (rows_of (found_of matches.now))) ≡ true }
    ensures { first_of id.now (rows_of (found_of matches.now)) ≡ Some result.now }
{
    let Some(text) = matches.get_str(id) else {
        unreachable!()
    };
    text
}

// All that an option was given.
fn texts<'a>(alloc: Global, matches: &ArgMatches<'a>, id: &str) -> Result<Vec<&'a str>, AllocError>
    ensures { IfOk result (λ all. map (λ text. text.now) all.items ≡ option_texts id.now (rows_of (found_of matches.now))) }
{
    match matches.get_strs(id) {
        Some(all) => Vec::from_slice(alloc, all),
        None => Ok(Vec::new(alloc)),
    }
}

// The number that an option was given.
fn number(matches: &ArgMatches<'_>, id: &str) -> Option<u64>
    requires { is_served (rows_of (found_of matches.now)) (any_rule id.now) ≡ true }
    ensures { result ≡ option_number id.now (rows_of (found_of matches.now)) }
{
    matches.get_one(id)
}

// Whether a flag was given.
fn flag(matches: &ArgMatches<'_>, id: &str) -> bool
    requires { is_served (rows_of (found_of matches.now)) (flag_rule id.now) ≡ true }
    ensures { result ≡ is_flagged id.now (rows_of (found_of matches.now)) }
{
    matches.get_flag(id)
}
