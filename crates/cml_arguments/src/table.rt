//! The commands of the program and their arguments, as clap is told of them.

ghost use Rattle.std.specs.Prelude.{◌≡◌, ◌<◌, ◌-◌, [], ◌∷◌, codes, false, true, IfOk};
ghost use Rattle.clap.specs.Words.{app_of, with_subcommand, App, Rule, Shape};
ghost use Rattle.cml_arguments.specs.Words.{any_rule, command_of, commands, count_rule, depth_rule, explains, explore_command, file_command, file_rule, flag_rule, list_rule, option_rule, part_command, replay_command, run_command, runs_rule, shrink_command, states_rule, step_command, trace_command, verify_command, with_alike, with_end, with_explain, with_finding, with_order, with_others, with_properties, with_rule, with_stop, workers_rule, FollowsRule, IsShapedAs};

use clap::{Arg, ArgAction, Command, value_parser};
use std::alloc::{AllocError, Global};

// A command, where there was memory to make it.
type Made<'a> = Result<Command<'a>, AllocError>;

// The day of the newest entry of CHANGELOG.md.
const VERSION: &str = "2026-12-01";

// The most steps or items that an option counts.
const MOST: i64 = 1_000_000_000;

// The most workers.
const MOST_WORKERS: i64 = 64;

// The largest depth of priorities.
const MOST_DEPTH: i64 = 64;

// The most runs that one command makes.
const MOST_RUNS: i64 = 1_000_000;

// The most states that one command keeps.
const MOST_STATES: i64 = 100_000_000;

/// The commands of the program.
///
/// # Errors
/// Out of memory.
pub fn command<'a>(alloc: Global) -> Result<Command<'a>, AllocError>
    ensures { IfOk result (λ command. app_of command ≡ commands) }
{
    let program = Command::new(alloc, "cml")
        .about("Events of Concurrent ML: answers traces of commands, and checks and runs scripts")
        .version(VERSION)
        .subcommand_required(true);
    let program = with_command(Ok(program), trace(alloc));
    let program = with_command(program, file_alone(alloc, "check", "Checks a script"));
    let program = with_command(
        program,
        file_alone(alloc, "fmt", "Prints the forms of a text, each on a line"),
    );
    let program = with_command(program, run(alloc));
    let program = with_command(program, replay(alloc));
    let program = with_command(program, explain_run(alloc));
    others(alloc, program)
}

// The program, with the commands that make a run again and again, or by hand.
fn others<'a>(alloc: Global, program: Made<'a>) -> Made<'a>
    ensures { (app : App) → IfOk program.entry (λ old. app_of old ≡ app) → IfOk result (λ new. app_of new ≡ with_others app) }
{
    let program = with_command(program, explore(alloc));
    let program = with_command(program, verify(alloc));
    let program = with_command(program, shrink(alloc));
    let program = with_command(program, draw(alloc));
    with_command(program, step(alloc))
}

// The program, with one command more.
fn with_command<'a>(program: Made<'a>, command: Made<'a>) -> Made<'a>
    ensures { (app : App) (shape : Shape) → IfOk program.entry (λ old. app_of old ≡ app) → IfOk command.entry (IsShapedAs shape)
        → IfOk result (λ new. app_of new ≡ with_subcommand app shape) }
{
    program?.subcommand(command?)
}

// The command, with one argument more.
fn with_arg<'a>(command: Made<'a>, arg: Arg<'a>) -> Made<'a>
    ensures { (rule : Rule) (shape : Shape) → FollowsRule rule arg.entry → IfOk command.entry (IsShapedAs shape) → IfOk result (IsShapedAs (with_rule rule shape)) }
{
    command?.arg(arg)
}

// The command that answers a trace.
fn trace<'a>(alloc: Global) -> Made<'a>
    ensures { IfOk result (IsShapedAs trace_command) }
{
    let command = Command::new(alloc, "trace").about("Answers the commands on standard input");
    let live = flag_of(alloc, "live").help("Answers each line as soon as it has been read");
    explaining(alloc, with_arg(Ok(command), live))
}

// The command that runs a script.
fn run<'a>(alloc: Global) -> Made<'a>
    ensures { IfOk result (IsShapedAs run_command) }
{
    let steps = count(alloc, "steps", "B").help(
        "How many steps it may take, 1 to 1000000000 [default: 1000000]",
    );
    let workers = workers(alloc).help("How many workers run its threads, 1 to 64 [default: 1]");
    let seed = seed(alloc).help("Makes its choices by this number");
    let draw = option(alloc, "draw", "FILE").help("Saves a picture of the run");
    let command = on_file(alloc, "run", "Runs a script");
    let command = with_arg(command, workers);
    let command = with_arg(command, steps);
    let command = with_arg(command, seed);
    let command = with_arg(command, watch(alloc));
    let command = with_arg(command, record(alloc));
    let command = with_arg(command, draw);
    let command = ending(alloc, ordering(alloc, command));
    explaining(alloc, stopping(alloc, holding(alloc, command)))
}

// The command that runs a script again.
fn replay<'a>(alloc: Global) -> Made<'a>
    ensures { IfOk result (IsShapedAs replay_command) }
{
    let about = "Runs a script by a schedule that was saved";
    let command = with_arg(on_file(alloc, "replay", about), file(alloc, "SCHEDULE"));
    let command = ending(alloc, with_arg(command, watch(alloc)));
    explaining(alloc, stopping(alloc, holding(alloc, command)))
}

// The command that says what happens in a run.
fn explain_run<'a>(alloc: Global) -> Made<'a>
    ensures { IfOk result (IsShapedAs (part_command (codes "explain"))) }
{
    part_of_run(
        alloc,
        "explain",
        "Says what happens in a run, by a schedule that was saved",
        "The first item that is explained, 1 to 1000000000 [default: 1]",
        "The last item that is explained, 1 to 1000000000 [default: all]",
    )
}

// The command that draws what happens in a run.
fn draw<'a>(alloc: Global) -> Made<'a>
    ensures { IfOk result (IsShapedAs (part_command (codes "draw"))) }
{
    part_of_run(
        alloc,
        "draw",
        "Draws what happens in a run, by a schedule that was saved, as an SVG picture",
        "The first item that is drawn, 1 to 1000000000 [default: 1]",
        "The last item that is drawn, 1 to 1000000000 [default: all]",
    )
}

// A command that takes a part of a schedule.
fn part_of_run<'a>(
    alloc: Global,
    name: &'a str,
    about: &'a str,
    first: &'a str,
    last: &'a str,
) -> Made<'a>
    ensures { IfOk result (IsShapedAs (part_command name.now)) }
{
    let command = with_arg(on_file(alloc, name, about), file(alloc, "SCHEDULE"));
    let command = with_arg(command, count(alloc, "from", "I").help(first));
    with_arg(command, count(alloc, "to", "J").help(last))
}

// The command that runs a script many times.
fn explore<'a>(alloc: Global) -> Made<'a>
    ensures { IfOk result (IsShapedAs explore_command) }
{
    let runs = runs(alloc).help("How many runs, 1 to 1000000 [default: 100]");
    let seed = seed(alloc).help(
        "The seed of the first run; each further one has the next [default: 0]",
    );
    let steps = count(alloc, "steps", "B").help(
        "How many steps each may take, 1 to 1000000000 [default: 1000000]",
    );
    let workers = workers(alloc).help(
        "How many workers make the runs, 1 to 64 [default: one for each processor]",
    );
    let picks = flag_of(alloc, "picks").help(
        "Gives the turns in order, and picks what else happens [default: all orders go round]",
    );
    let about = "Runs a script many times, and says how the runs end";
    let command = with_arg(on_file(alloc, "explore", about), runs);
    let command = with_arg(command, seed);
    let command = with_arg(command, steps);
    let command = with_arg(command, workers);
    let command = with_arg(command, picks);
    let command = with_arg(command, json(alloc));
    let command = finding(alloc, ordering(alloc, command));
    printing_alike(alloc, holding(alloc, command))
}

// The command, which says too how the order of the turns comes about.
fn ordering<'a>(alloc: Global, command: Made<'a>) -> Made<'a>
    ensures { (shape : Shape) → IfOk command.entry (IsShapedAs shape) → IfOk result (IsShapedAs (with_order shape)) }
{
    let turns = flag_of(alloc, "turns").help("Chooses the order of the threads' turns too");
    let priority = priority(alloc).help(
        "Gives the turns by priorities, which are drawn and change at D - 1 points, 1 to 64",
    );
    with_arg(with_arg(command, turns), priority)
}

// The command, which says too what is made of the runs.
fn finding<'a>(alloc: Global, command: Made<'a>) -> Made<'a>
    ensures { (shape : Shape) → IfOk command.entry (IsShapedAs shape) → IfOk result (IsShapedAs (with_finding shape)) }
{
    let save = option(alloc, "save", "PREFIX").help(
        "Saves the shortest schedule of each kind of end, as PREFIX-bad-1.schedule, PREFIX-good-1.schedule and so on",
    );
    let until = list(alloc, "until", "WORD").help(
        "Stops at the first run of this kind: waits, deadlock, fault, budget or bad; may be given again",
    );
    with_arg(with_arg(with_arg(command, save), servers(alloc)), until)
}

// The command that examines every schedule of a script.
fn verify<'a>(alloc: Global) -> Made<'a>
    ensures { IfOk result (IsShapedAs verify_command) }
{
    let about = "Examines every schedule of a script, and says how they end";
    let states = states(alloc).help("How many states it may keep, 1 to 100000000 [default: 20000]");
    let save = option(alloc, "save", "PREFIX").help(
        "Saves the shortest schedule of each kind of end or outcome, as PREFIX-1.schedule and so on",
    );
    let outcomes = flag_of(alloc, "outcomes").help(
        "Writes each outcome once, with what is printed and how each thread ends, as a line of JSON",
    );
    let command = with_arg(on_file(alloc, "verify", about), states);
    let endless = flag_of(alloc, "endless").help(
        "It is no mistake that a schedule can't go on to an end",
    );
    let command = with_arg(command, outcomes);
    let command = with_arg(command, endless);
    with_arg(
        with_arg(with_arg(command, save), servers(alloc)),
        json(alloc),
    )
}

// The command that looks for a shorter schedule.
fn shrink<'a>(alloc: Global) -> Made<'a>
    ensures { IfOk result (IsShapedAs shrink_command) }
{
    let about = "Looks for a shorter schedule of a run that ends alike";
    let tries = count(alloc, "tries", "N").help(
        "How many replays it may take, 1 to 1000000000 [default: 10000]",
    );
    let command = with_arg(on_file(alloc, "shrink", about), file(alloc, "SCHEDULE"));
    stopping(alloc, holding(alloc, with_arg(command, tries)))
}

// The command that runs a script by hand.
fn step<'a>(alloc: Global) -> Made<'a>
    ensures { IfOk result (IsShapedAs step_command) }
{
    let about = "Runs a script by hand: shows what can happen, and asks what does";
    with_arg(on_file(alloc, "step", about), record(alloc))
}

// A command that takes a file alone.
fn file_alone<'a>(alloc: Global, name: &'a str, about: &'a str) -> Made<'a>
    ensures { IfOk result (IsShapedAs (file_command name.now)) }
{
    explaining(alloc, on_file(alloc, name, about))
}

// The command, which says too whether it explains what is wrong.
fn explaining<'a>(alloc: Global, command: Made<'a>) -> Made<'a>
    ensures { (shape : Shape) → IfOk command.entry (IsShapedAs shape) → IfOk result (IsShapedAs (with_explain shape)) }
{
    let explain = flag_of(alloc, "explain").help(
        "Explains what is wrong, and where [default: on a terminal]",
    );
    let plain = flag_of(alloc, "plain").help("Explains nothing, on a terminal too");
    with_arg(with_arg(command, explain), plain)
}

// The command, which says too which threads may be left at the end.
fn ending<'a>(alloc: Global, command: Made<'a>) -> Made<'a>
    ensures { (shape : Shape) → IfOk command.entry (IsShapedAs shape) → IfOk result (IsShapedAs (with_end shape)) }
{
    let strict = flag_of(alloc, "strict").help(
        "Ends with status 6 where a thread is left waiting, or ended at a fault",
    );
    with_arg(with_arg(command, strict), servers(alloc))
}

// The command, which says too what must hold of a run.
fn holding<'a>(alloc: Global, command: Made<'a>) -> Made<'a>
    ensures { (shape : Shape) → IfOk command.entry (IsShapedAs shape) → IfOk result (IsShapedAs (with_properties shape)) }
{
    let never = list(alloc, "never", "P").help("No line may match pattern P; may be given again");
    let always = list(alloc, "always", "P").help(
        "A line must match pattern P once a run has ended; may be given again",
    );
    let once = list(alloc, "once", "P").help(
        "At most one line may match pattern P; may be given again",
    );
    let before = list(alloc, "before", "P Q").help(
        "No line may match Q before the first that matches P; may be given again",
    );
    let empty = flag_of(alloc, "empty").help(
        "No mailbox and no port may hold an item once a run has ended",
    );
    let more = option(alloc, "properties", "FILE").help(
        "Reads more of what must hold from a file, one on a line: never P",
    );
    let command = with_arg(command, never);
    let command = with_arg(command, always);
    let command = with_arg(command, once);
    let command = with_arg(command, before);
    let command = with_arg(command, empty);
    with_arg(command, more)
}

// The command, which says too to stop where that does not hold.
fn stopping<'a>(alloc: Global, command: Made<'a>) -> Made<'a>
    ensures { (shape : Shape) → IfOk command.entry (IsShapedAs shape) → IfOk result (IsShapedAs (with_stop shape)) }
{
    let stop = flag_of(alloc, "stop").help(
        "Ends the run at the item that breaks what must hold, or at the first fault of a thread",
    );
    with_arg(command, stop)
}

// The command, which says too that runs must print alike.
fn printing_alike<'a>(alloc: Global, command: Made<'a>) -> Made<'a>
    ensures { (shape : Shape) → IfOk command.entry (IsShapedAs shape) → IfOk result (IsShapedAs (with_alike shape)) }
{
    let lines = flag_of(alloc, "same-lines").help(
        "All runs must print the same lines, in any order",
    );
    let order = flag_of(alloc, "same-order").help(
        "All runs must print the same lines, in the same order",
    );
    with_arg(with_arg(command, lines), order)
}

// A command on a file.
fn on_file<'a>(alloc: Global, name: &'a str, about: &'a str) -> Made<'a>
    ensures { IfOk result (IsShapedAs (command_of name.now (file_rule (codes "FILE") ∷ []))) }
{
    let file = file(alloc, "FILE");
    Command::new(alloc, name).about(about).arg(file)
}

// The name of a file, which must be given.
fn file<'a>(alloc: Global, name: &'a str) -> Arg<'a>
    ensures { FollowsRule (file_rule name.now) result }
{
    Arg::new(alloc, name).required(true).action(ArgAction::Set)
}

// The flag by which a command tells what it found to programs.
fn json<'a>(alloc: Global) -> Arg<'a>
    ensures { FollowsRule (flag_rule (codes "json")) result }
{
    flag_of(alloc, "json").help("Writes what is told as one object of JSON")
}

// A flag.
fn flag_of<'a>(alloc: Global, name: &'a str) -> Arg<'a>
    ensures { FollowsRule (flag_rule name.now) result }
{
    Arg::new(alloc, name)
        .long(name)
        .action(ArgAction::SetTrue)
        .value_parser(value_parser!(bool))
}

// An option that takes a value.
fn option<'a>(alloc: Global, name: &'a str, value: &'a str) -> Arg<'a>
    ensures { FollowsRule (option_rule name.now) result }
{
    Arg::new(alloc, name)
        .long(name)
        .value_name(value)
        .action(ArgAction::Set)
}

// An option that counts steps or items.
fn count<'a>(alloc: Global, name: &'a str, value: &'a str) -> Arg<'a>
    ensures { FollowsRule (count_rule name.now) result }
{
    option(alloc, name, value).value_parser(value_parser!(u64).range(1..=MOST))
}

// An option that may be given again, each time with a value.
fn list<'a>(alloc: Global, name: &'a str, value: &'a str) -> Arg<'a>
    ensures { FollowsRule (list_rule name.now) result }
{
    option(alloc, name, value).action(ArgAction::Append)
}

// The option that names functions of servers.
fn servers<'a>(alloc: Global) -> Arg<'a>
    ensures { FollowsRule (list_rule (codes "servers")) result }
{
    list(alloc, "servers", "F").help(
        "Lets threads that began with function F wait; may be given again",
    )
}

// The option that asks for the schedule of a run.
fn record<'a>(alloc: Global) -> Arg<'a>
    ensures { FollowsRule (option_rule (codes "record")) result }
{
    option(alloc, "record", "FILE").help("Saves the schedule of the run")
}

// The option that says how many runs are made.
fn runs<'a>(alloc: Global) -> Arg<'a>
    ensures { FollowsRule (runs_rule (codes "runs")) result }
{
    option(alloc, "runs", "N").value_parser(value_parser!(u64).range(1..=MOST_RUNS))
}

// The option that says how many states are kept.
fn states<'a>(alloc: Global) -> Arg<'a>
    ensures { FollowsRule (states_rule (codes "states")) result }
{
    option(alloc, "states", "N").value_parser(value_parser!(u64).range(1..=MOST_STATES))
}

// The option that says how many workers there are.
fn workers<'a>(alloc: Global) -> Arg<'a>
    ensures { FollowsRule (workers_rule (codes "workers")) result }
{
    option(alloc, "workers", "N").value_parser(value_parser!(u64).range(1..=MOST_WORKERS))
}

// The option that gives the depth of priorities.
fn priority<'a>(alloc: Global) -> Arg<'a>
    ensures { FollowsRule (depth_rule (codes "priority")) result }
{
    option(alloc, "priority", "D").value_parser(value_parser!(u64).range(1..=MOST_DEPTH))
}

// The option that asks for reports.
fn watch<'a>(alloc: Global) -> Arg<'a>
    ensures { FollowsRule (count_rule (codes "watch")) result }
{
    count(alloc, "watch", "K").help("Reports after every K items of the schedule, 1 to 1000000000")
}

// The option that gives the seed.
fn seed<'a>(alloc: Global) -> Arg<'a>
    ensures { FollowsRule (any_rule (codes "seed")) result }
{
    option(alloc, "seed", "S").value_parser(value_parser!(u64))
}
