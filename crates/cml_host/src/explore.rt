//! The command `explore`: a script runs many times, and it is told how the runs end.

ghost use Rattle.std.specs.{Prelude.{◌≡◌, [], ◌+◌, ◌++◌, ◌-◌, ◌≤◌, ◌<◌, ◌^◌, IfOk, IfErr, IfSome, OnErr, OnOk, filter, length, map, option_map, true}, Fmt.{decimal}};
ghost use Rattle.std.specs.{List.{All, list_any}, String.{string_bytes}};
ghost use Rattle.cml_check.specs.Sizes.{size_of};
ghost use Rattle.cml_explore.specs.Explored.{HasMade, IsExplored, SoFar};
ghost use Rattle.cml_host.specs.Behind.{bytes_of};
ghost use Rattle.cml_host.specs.Exploring.{AsksForRuns, ExploreOutcome, ExploresSo, IsBeside, ProgramExplored, RunsWritten, ScriptExplored, ShowsMarks, StopsShowing, TellsRuns, WantedExplored, explored_until, file_told, files_behind, files_from, files_told, judged, none_seen, saved_start, stop_in, stops_of};
ghost use Rattle.cml_host.specs.{Narrated.{IsCutBy, Writes}, Replies.{file, passage, plain_file, plain_of, plain_reply}, Scripts.{plain_script}, Stores.{IsUnchanged, Shelf}};
ghost use Rattle.cml_host.specs.Exploring as spec;
ghost use Rattle.cml_host.specs.declared.explain.Halt.TheVariants.{Write};
ghost use Rattle.cml_hub.specs.Kept.{IsBudget};
ghost use Rattle.cml_schedule.specs.Written.{schedule_text};
ghost use Rattle.cml_stream.specs.{Counts.{counted}, Streams.{stream}};
ghost use Rattle.cml_arguments.specs.Words.{IsDepth, IsRuns, saved_name, start_of, until_named};
ghost use Rattle.cml_explore.specs.{Stops.{is_saved}, Told.{IsToldOfRuns}};
ghost use Rattle.cml_phrase.specs.Spots.{all_places};

use crate::explain::Halt;
use crate::order::{order_said, orders_said};
use crate::output::write_words;
use crate::refusal::Refusal;
use crate::reply::{File, Reply, carry_out, new_file};
use crate::script::{Script, open_script};
use crate::servers::find_servers;
use crate::store::Store;
use crate::wanted::{Alike, find_properties};
use cml_arguments::{ExploreOptions, Until as Word};
use cml_check::Prog;
use cml_explore::{
    Asked, ClassTold, Classes, Explored, RunsTold, Until, first_output, tell_runs, write_runs,
};
use cml_json::explore_json;
use cml_judge::Wanted;
use cml_properties::Property;
use cml_schedule::{Item, schedule_text};
use cml_stream::Counting;
use std::alloc::{AllocError, Global};
use std::io::Write;
use std::thread::{Threads, available_parallelism};

// The status where a run did not end well.
const UNWELL: u8 = 6;

/// How many bad and how many good classes there were.
#[derive(Clone, Copy)]
struct Seen {
    bad: usize,
    good: usize,
}

/// Makes the runs of the script that lies under its name that are asked for, tells how they ended, and saves a schedule of each kind of end, where
/// that is asked for. Where the errors go to a terminal it is shown meanwhile how far it is. What is wrong with the script is explained.
pub fn explore_file<R: Threads + Sync, O: Write, E: Write, S: Store>(
    rt: &R,
    alloc: Global,
    options: &ExploreOptions<'_>,
    terminal: bool,
    out: &mut Counting<'_, O>,
    err: &mut Counting<'_, E>,
    store: &mut S,
) -> u8
    requires counts { IsRuns options.now.runs × IsBudget options.now.steps }
    requires depth { IfSome options.now.priority IsDepth }
    requires seeds { options.now.seed + options.now.runs ≤ 2 ^ 64 }
    ensures ran { let output = passage O.contents out.old out.new in
        let errors = passage E.contents err.old err.new in
        let shelf : Shelf = record { before = S.holds store.old; after = S.holds store.new } in
        ExploreOutcome options.now terminal output errors shelf result }
    ensures same_out { out.new.stream.ghost_name ≡ out.old.stream.ghost_name }
    ensures same_err { err.new.stream.ghost_name ≡ err.old.stream.ghost_name }
{
    let made = explore_there(rt, alloc, options, terminal, err, store);
    carry_out(alloc, "", &made, out, err, store)
}

// Makes the runs, shows how far it is, and returns what is told of them.
fn explore_there<R: Threads + Sync, E: Write, S: Store>(
    rt: &R,
    alloc: Global,
    options: &ExploreOptions<'_>,
    shows: bool,
    err: &mut Counting<'_, E>,
    store: &mut S,
) -> Result<Reply, Refusal>
    requires counts { IsRuns options.now.runs × IsBudget options.now.steps }
    requires depth { IfSome options.now.priority IsDepth }
    requires seeds { options.now.seed + options.now.runs ≤ 2 ^ 64 }
    ensures told { ExploresSo options.now shows (S.holds store.old) (passage E.contents err.old err.new) (plain_reply [] result) }
    ensures same { IsUnchanged (S.holds store.old) (S.holds store.new) }
    ensures same_err { err.new.stream.ghost_name ≡ err.old.stream.ghost_name }
{
    match open_script(alloc, options.script, true, store) {
        Ok(script) => explore_wanted(rt, alloc, &script, options, shows, err, store),
        Err(why) => Err(why),
    }
}

// The same of the script, where it is known what must hold of each run.
fn explore_wanted<R: Threads + Sync, E: Write, S: Store>(
    rt: &R,
    alloc: Global,
    script: &Script,
    options: &ExploreOptions<'_>,
    shows: bool,
    err: &mut Counting<'_, E>,
    store: &mut S,
) -> Result<Reply, Refusal>
    requires counts { IsRuns options.now.runs × IsBudget options.now.steps }
    requires depth { IfSome options.now.priority IsDepth }
    requires seeds { options.now.seed + options.now.runs ≤ 2 ^ 64 }
    ensures told { WantedExplored options.now shows (plain_script script.now) (S.holds store.old) (passage E.contents err.old err.new) (plain_reply [] result) }
    ensures same { IsUnchanged (S.holds store.old) (S.holds store.new) }
    ensures same_err { err.new.stream.ghost_name ≡ err.old.stream.ghost_name }
{
    let alike = Alike {
        lines: options.same_lines,
        order: options.same_order,
    };
    match find_properties(alloc, &options.properties, alike, true, store) {
        Ok(properties) => explore_opened(
            rt,
            alloc,
            script,
            properties.as_slice(),
            options,
            shows,
            err,
        ),
        Err(why) => Err(why),
    }
}

// The same of the script, where it has the functions that are named as those of servers.
fn explore_opened<R: Threads + Sync, E: Write>(
    rt: &R,
    alloc: Global,
    script: &Script,
    properties: &[Property],
    options: &ExploreOptions<'_>,
    shows: bool,
    err: &mut Counting<'_, E>,
) -> Result<Reply, Refusal>
    requires counts { IsRuns options.now.runs × IsBudget options.now.steps }
    requires depth { IfSome options.now.priority IsDepth }
    requires seeds { options.now.seed + options.now.runs ≤ 2 ^ 64 }
    ensures told { ScriptExplored options.now shows (plain_script script.now) properties.now (passage E.contents err.old err.new) (plain_reply [] result) }
    ensures same_err { err.new.stream.ghost_name ≡ err.old.stream.ghost_name }
{
    match find_servers(alloc, script, options.servers.as_slice()) {
        Ok(servers) => {
            let numbers = servers.as_slice();
            explore_with(rt, alloc, script, properties, options, numbers, shows, err)
        }
        Err(why) => Err(why),
    }
}

// The same of its runs, where the functions of servers have these numbers.
fn explore_with<R: Threads + Sync, E: Write>(
    rt: &R,
    alloc: Global,
    script: &Script,
    properties: &[Property],
    options: &ExploreOptions<'_>,
    servers: &[u32],
    shows: bool,
    err: &mut Counting<'_, E>,
) -> Result<Reply, Refusal>
    requires counts { IsRuns options.now.runs × IsBudget options.now.steps }
    requires depth { IfSome options.now.priority IsDepth }
    requires seeds { options.now.seed + options.now.runs ≤ 2 ^ 64 }
    ensures told { ProgramExplored options.now shows (plain_script script.now) properties.now servers.now (passage E.contents err.old err.new) (plain_reply [] result) }
    ensures same_err { err.new.stream.ghost_name ≡ err.old.stream.ghost_name }
{
    match stops_named(alloc, options.until.as_slice()) {
        Ok(until) => {
            let wanted = Wanted {
                properties,
                first: &[],
            };
            let asked = asked_for(options, servers, wanted, until.as_slice());
            explore_beside(rt, alloc, script, options, &asked, shows, err)
        }
        Err(AllocError) => Err(Refusal::Memory),
    }
}

// The same beside the first run, where runs are compared.
fn explore_beside<R: Threads + Sync, E: Write>(
    rt: &R,
    alloc: Global,
    script: &Script,
    options: &ExploreOptions<'_>,
    asked: &Asked<'_>,
    shows: bool,
    err: &mut Counting<'_, E>,
) -> Result<Reply, Refusal>
    requires counts { IsRuns asked.now.runs × IsBudget asked.now.budget }
    requires seeds { asked.now.first + asked.now.runs ≤ 2 ^ 64 }
    requires asks { AsksForRuns options.now asked.now.wanted.properties.now asked.now.servers.now asked.now }
    ensures told { ProgramExplored options.now shows (plain_script script.now) asked.now.wanted.properties.now asked.now.servers.now (passage E.contents err.old err.new) (plain_reply [] result) }
    ensures same_err { err.new.stream.ghost_name ≡ err.old.stream.ghost_name }
{
    let compare = some_compare(asked.wanted.properties);
    if compare {
        explore_compared(rt, alloc, script, options, asked, shows, err)
    } else {
        explore_program(rt, alloc, script, options, asked, shows, err)
    }
}

// The same where runs are compared.
fn explore_compared<R: Threads + Sync, E: Write>(
    rt: &R,
    alloc: Global,
    script: &Script,
    options: &ExploreOptions<'_>,
    asked: &Asked<'_>,
    shows: bool,
    err: &mut Counting<'_, E>,
) -> Result<Reply, Refusal>
    requires counts { IsRuns asked.now.runs × IsBudget asked.now.budget }
    requires seeds { asked.now.first + asked.now.runs ≤ 2 ^ 64 }
    requires asks { AsksForRuns options.now asked.now.wanted.properties.now asked.now.servers.now asked.now }
    ensures told { ProgramExplored options.now shows (plain_script script.now) asked.now.wanted.properties.now asked.now.servers.now (passage E.contents err.old err.new) (plain_reply [] result) }
    ensures same_err { err.new.stream.ghost_name ≡ err.old.stream.ghost_name }
{
    match first_output(alloc, &script.program, asked) {
        Ok(first) => {
            let beside = Asked {
                budget: asked.budget,
                first: asked.first,
                runs: asked.runs,
                orders: asked.orders,
                servers: asked.servers,
                wanted: Wanted {
                    properties: asked.wanted.properties,
                    first: first.as_slice(),
                },
                until: asked.until,
            };
            explore_program(rt, alloc, script, options, &beside, shows, err)
        }
        Err(AllocError) => Err(Refusal::Memory),
    }
}

// Whether one of these properties compares runs.
fn some_compare(properties: &[Property]) -> bool
    ensures { result ≡ list_any spec.compares properties.now }
{
    properties.iter().any(is_comparison)
}

// Whether it compares runs.
fn is_comparison(property: &Property) -> bool
    ensures { result ≡ spec.compares property.now }
{
    match property {
        Property::SameLines | Property::SameOrder => true,
        Property::Never(_)
        | Property::Always(_)
        | Property::Once(_)
        | Property::Before { .. }
        | Property::Empty => false,
    }
}

// What the arguments ask for, where the functions of servers have these numbers.
fn asked_for<'a>(
    options: &ExploreOptions<'_>,
    servers: &'a [u32],
    wanted: Wanted<'a>,
    until: &'a [Until],
) -> Asked<'a>
    requires depth { IfSome options.now.priority IsDepth }
    requires until { until.now ≡ stops_of (explored_until options.now) }
    ensures asks { AsksForRuns options.now wanted.entry.properties.now servers.now result }
    ensures wanted { result.wanted ≡ wanted.entry }
{
    Asked {
        budget: options.steps,
        first: options.seed,
        runs: options.runs,
        orders: orders_said(options.picks, order_said(options.turns, options.priority)),
        servers,
        wanted,
        until,
    }
}

// The runs at which to stop, as these words say it.
fn stops_named(alloc: Global, words: &[&str]) -> Result<Vec<Until>, AllocError>
    ensures { IfOk result (λ stops. stops.items ≡ stops_of (map (λ word. word.now) words.now)) }
{
    let mut stops = Vec::new(alloc);
    for word in words {
        push_stop(&mut stops, word)?;
    }
    Ok(stops)
}

// Appends the run at which to stop, if the word means one.
fn push_stop(stops: &mut Vec<Until>, word: &str) -> Result<(), AllocError>
    ensures { OnOk result (stops.new.items ≡ stops.old.items ++ stop_in (until_named word.now)) }
{
    match Word::named(word) {
        Some(word) => Ok(stops.push(stop(word))?),
        None => Ok(()),
    }
}

// The run at which to stop.
fn stop(word: Word) -> Until
    ensures { result ≡ spec.stop_of word }
{
    match word {
        Word::Waits => Until::Waits,
        Word::Deadlock => Until::Deadlock,
        Word::Fault => Until::Fault,
        Word::Budget => Until::Budget,
        Word::Bad => Until::Bad,
    }
}

// How many workers make the runs: as many as are asked for; or one for each processor, where that is known; and else one. What is told is the
// same for any number.
fn worker_count<R: Threads>(rt: &R, asked: Option<u64>) -> usize {
    match asked {
        Some(count) => count as usize,
        None => match available_parallelism(rt) {
            Ok(count) => count.get(),
            Err(_) => 1,
        },
    }
}

// Makes the runs, and returns what is told of them.
fn explore_program<R: Threads + Sync, E: Write>(
    rt: &R,
    alloc: Global,
    script: &Script,
    options: &ExploreOptions<'_>,
    asked: &Asked<'_>,
    shows: bool,
    err: &mut Counting<'_, E>,
) -> Result<Reply, Refusal>
    requires counts { IsRuns asked.now.runs × IsBudget asked.now.budget }
    requires seeds { asked.now.first + asked.now.runs ≤ 2 ^ 64 }
    requires asks { AsksForRuns options.now asked.now.wanted.properties.now asked.now.servers.now asked.now }
    requires beside { IsBeside script.now.program asked.now }
    ensures told { ProgramExplored options.now shows (plain_script script.now) asked.now.wanted.properties.now asked.now.servers.now (passage E.contents err.old err.new) (plain_reply [] result) }
    ensures same_err { err.new.stream.ghost_name ≡ err.old.stream.ghost_name }
{
    let workers = worker_count(rt, options.workers);
    match explored(rt, alloc, &script.program, asked, workers, shows, err) {
        Ok(made) => Ok(told_made(alloc, script, options, asked, &made)?),
        Err(Halt::Memory) => Err(Refusal::Memory),
        Err(Halt::Write) => Err(Refusal::Line("", 1)),
    }
}

// The runs that are asked for. What is shown meanwhile is taken away.
fn explored<R: Threads + Sync, E: Write>(
    rt: &R,
    alloc: Global,
    program: &Prog,
    asked: &Asked<'_>,
    workers: usize,
    shows: bool,
    err: &mut Counting<'_, E>,
) -> Result<Explored, Halt>
    requires counts { IsRuns asked.now.runs × IsBudget asked.now.budget }
    requires seeds { asked.now.first + asked.now.runs ≤ 2 ^ 64 }
    ensures made { IfOk result (IsExplored program.now asked.now) }
    ensures ok { let errors = passage E.contents err.old err.new in
        OnOk result (ShowsMarks shows (bytes_of errors) × (err.new.failed ≡ err.old.failed)) }
    ensures err { IfErr result (λ why. StopsShowing shows why (passage E.contents err.old err.new)) }
    ensures same_err { err.new.stream.ghost_name ≡ err.old.stream.ghost_name }
{
    match make_runs(rt, alloc, program, asked, workers, shows, err) {
        Ok(made) => {
            erase(shows, err)?;
            Ok(made)
        }
        Err(Halt::Memory) => {
            erase(shows, err)?;
            Err(Halt::Memory)
        }
        Err(Halt::Write) => Err(Halt::Write),
    }
}

// Makes one run after another, and shows how far it is.
fn make_runs<R: Threads + Sync, E: Write>(
    rt: &R,
    alloc: Global,
    program: &Prog,
    asked: &Asked<'_>,
    workers: usize,
    shows: bool,
    err: &mut Counting<'_, E>,
) -> Result<Explored, Halt>
    requires counts { IsRuns asked.now.runs × IsBudget asked.now.budget }
    requires seeds { asked.now.first + asked.now.runs ≤ 2 ^ 64 }
    ensures made { IfOk result (IsExplored program.now asked.now) }
    ensures ok { let errors = passage E.contents err.old err.new in
        OnOk result (ShowsMarks shows (bytes_of errors) × (err.new.failed ≡ err.old.failed)) }
    ensures err { IfErr result (λ why. StopsShowing shows why (passage E.contents err.old err.new)) }
    ensures same_err { err.new.stream.ghost_name ≡ err.old.stream.ghost_name }
{
    let mut made = Explored::new(alloc);
    'runs: while made.runs() < asked.runs {
        let before = made.runs();
        let last = go_on(rt, alloc, program, asked, workers, &mut made)?;
        show_round(alloc, shows, asked.runs, before, made.runs(), err)?;
        if last {
            return Ok(made);
        }
    }
    Ok(made)
}

// Makes one run more, or with more workers than one some. Returns whether these were the last.
fn go_on<R: Threads + Sync>(
    rt: &R,
    alloc: Global,
    program: &Prog,
    asked: &Asked<'_>,
    workers: usize,
    made: &mut Explored,
) -> Result<bool, AllocError>
    requires budget { IsBudget asked.now.budget }
    requires seeds { asked.now.first + asked.now.runs ≤ 2 ^ 64 }
    requires so_far { SoFar program.now asked.now made.old }
    requires left { made.old.runs < asked.now.runs }
    ensures more { OnOk result (made.old.runs < made.new.runs) }
    ensures goes { IfOk result (λ last. HasMade program.now asked.now last made.new) }
{
    if workers == 1 {
        made.go(alloc, program, asked)
    } else {
        made.go_beside(rt, alloc, program, asked, workers)
    }
}

// Shows that the runs behind the first so many were made, up to that many, where that is shown.
fn show_round<E: Write>(
    alloc: Global,
    shows: bool,
    runs: u64,
    before: u64,
    count: u64,
    err: &mut Counting<'_, E>,
) -> Result<(), Halt>
    requires few { (before ≤ count) × (count ≤ runs) × (runs ≤ 1000000) }
    ensures ok { let errors = passage E.contents err.old err.new in
        OnOk result (ShowsMarks shows (bytes_of errors) × (err.new.failed ≡ err.old.failed)) }
    ensures err { IfErr result (λ why. StopsShowing shows why (passage E.contents err.old err.new)) }
    ensures same_err { err.new.stream.ghost_name ≡ err.old.stream.ghost_name }
{
    if shows {
        show_from(alloc, runs, before, count, err)
    } else {
        Ok(())
    }
}

// The same, where it is shown: a line where they are a percent more.
fn show_from<E: Write>(
    alloc: Global,
    runs: u64,
    before: u64,
    count: u64,
    err: &mut Counting<'_, E>,
) -> Result<(), Halt>
    requires few { (before ≤ count) × (count ≤ runs) × (runs ≤ 1000000) }
    ensures ok { let errors = passage E.contents err.old err.new in
        OnOk result (Writes (bytes_of errors) × (err.new.failed ≡ err.old.failed)) }
    ensures err { IfErr result (λ why. IsCutBy why (passage E.contents err.old err.new)) }
    ensures same_err { err.new.stream.ghost_name ≡ err.old.stream.ghost_name }
{
    for made in before..count {
        show_next(alloc, runs, made, err)?;
    }
    Ok(())
}

// Shows that one run more than so many was made, where they are a percent more.
fn show_next<E: Write>(
    alloc: Global,
    runs: u64,
    made: u64,
    err: &mut Counting<'_, E>,
) -> Result<(), Halt>
    requires few { (made < runs) × (runs ≤ 1000000) }
    ensures ok { let errors = passage E.contents err.old err.new in
        OnOk result (Writes (bytes_of errors) × (err.new.failed ≡ err.old.failed)) }
    ensures err { IfErr result (λ why. IsCutBy why (passage E.contents err.old err.new)) }
    ensures same_err { err.new.stream.ghost_name ≡ err.old.stream.ghost_name }
{
    let now = percent(runs, made);
    let next = percent(runs, made + 1);
    if now == next {
        Ok(())
    } else {
        show_line(alloc, runs, made + 1, err)
    }
}

// How many of a hundred so many of the runs are.
fn percent(runs: u64, count: u64) -> u64
    requires few { count ≤ 1000000 }
    requires some { 1 ≤ runs }
    ensures { result ≡ spec.percent runs count }
{
    count * 100 / runs
}

// Writes how far it is.
fn show_line<E: Write>(
    alloc: Global,
    runs: u64,
    count: u64,
    err: &mut Counting<'_, E>,
) -> Result<(), Halt>
    ensures ok { let errors = passage E.contents err.old err.new in
        OnOk result (Writes (bytes_of errors) × (err.new.failed ≡ err.old.failed)) }
    ensures err { IfErr result (λ why. IsCutBy why (passage E.contents err.old err.new)) }
    ensures same_err { err.new.stream.ghost_name ≡ err.old.stream.ghost_name }
{
    let line = format!(in alloc; "\r{count} of {runs} runs")?;
    write_words(err, line.as_bytes())?;
    Ok(())
}

// Takes away what is shown, where anything is.
fn erase<E: Write>(shows: bool, err: &mut Counting<'_, E>) -> Result<(), Halt>
    ensures shows { ShowsMarks shows (stream (E.contents err.old.stream.now) (E.contents err.new.stream.now)) }
    ensures ok { OnOk result (err.new.failed ≡ err.old.failed) }
    ensures err { IfErr result (λ why. (why ≡ Write) × (err.new.failed ≡ counted err.old.failed)) }
    ensures same_err { err.new.stream.ghost_name ≡ err.old.stream.ghost_name }
{
    if shows {
        write_words(err, b"\r\x1b[K")?;
        Ok(())
    } else {
        Ok(())
    }
}

// What is told of the runs, and the files that are saved of them.
fn told_made(
    alloc: Global,
    script: &Script,
    options: &ExploreOptions<'_>,
    asked: &Asked<'_>,
    made: &Explored,
) -> Result<Reply, AllocError>
    requires budget { IsBudget asked.now.budget }
    requires seeds { asked.now.first + made.now.runs ≤ 2 ^ 64 }
    ensures { IfOk result (λ reply. TellsRuns options.now (plain_script script.now) asked.now made.now (plain_of reply)) }
{
    let told = told_of(alloc, script, asked, made)?;
    let output = written(alloc, script, options, asked.wanted.properties, &told)?;
    let program = &script.program;
    let files = asked_files(
        alloc,
        program,
        options.steps,
        options.save,
        made.classes(),
        &told,
    )?;
    drop(told);
    Ok(Reply {
        output,
        files,
        words: Vec::new(alloc),
        status: judge(made),
    })
}

// What is told of the runs.
fn told_of(
    alloc: Global,
    script: &Script,
    asked: &Asked<'_>,
    made: &Explored,
) -> Result<RunsTold, AllocError>
    requires budget { IsBudget asked.now.budget }
    requires seeds { asked.now.first + made.now.runs ≤ 2 ^ 64 }
    ensures { IfOk result (λ told. IsToldOfRuns (all_places script.now.text.items script.now.forms.items) script.now.program asked.now made.now told) }
{
    let text = script.text.as_slice();
    let forms = script.forms.as_slice();
    tell_runs(alloc, text, forms, &script.program, *asked, made)
}

// The same as an object, where that is asked for, and else in words.
fn written(
    alloc: Global,
    script: &Script,
    options: &ExploreOptions<'_>,
    properties: &[Property],
    told: &RunsTold,
) -> Result<Vec<u8>, AllocError>
    ensures { IfOk result (λ text. RunsWritten options.now (plain_script script.now) properties.now told.now text.items) }
{
    if options.json {
        let forms = script.forms.as_slice();
        explore_json(alloc, options.script, forms, properties, told)
    } else {
        words_of(alloc, script, options, properties, told)
    }
}

// The same in words.
fn words_of(
    alloc: Global,
    script: &Script,
    options: &ExploreOptions<'_>,
    properties: &[Property],
    told: &RunsTold,
) -> Result<Vec<u8>, AllocError> {
    let mut words = Vec::new(alloc);
    let forms = script.forms.as_slice();
    write_runs(
        alloc,
        &mut words,
        options.script,
        forms,
        properties,
        told,
        options.save,
    )?;
    Ok(words)
}

// The status of the runs.
fn judge(made: &Explored) -> u8
    ensures { result ≡ judged made.now.well }
{
    if made.is_well() { 0 } else { UNWELL }
}

// A file for each class that is saved, in the order in which they are told, where that is asked for.
fn asked_files(
    alloc: Global,
    program: &Prog,
    budget: u64,
    start: Option<&str>,
    classes: &Classes,
    told: &RunsTold,
) -> Result<Vec<File>, AllocError>
    requires below { All (λ c. c.number < length classes.now) told.now.classes.items }
    ensures { IfOk result (λ files. map plain_file files.items ≡ files_told (option_map (λ start. start.now) start.entry) budget program.now classes.now told.now) }
{
    match start {
        Some(start) => {
            let each = told.classes.as_slice();
            told_files(alloc, program, budget, start, classes, told, each)
        }
        None => Ok(Vec::new(alloc)),
    }
}

// A file for each of these classes that is saved.
fn told_files(
    alloc: Global,
    program: &Prog,
    budget: u64,
    start: &str,
    classes: &Classes,
    runs: &RunsTold,
    told: &[ClassTold],
) -> Result<Vec<File>, AllocError>
    requires below { All (λ c. c.number < length classes.now) told.now }
    ensures { IfOk result (λ files. map plain_file files.items
        ≡ files_behind start.now budget program.now classes.now none_seen (filter (is_saved runs.now) told.now)) }
{
    let mut files = Vec::new(alloc);
    let mut seen = Seen { bad: 0, good: 0 };
    for class in told {
        if runs.saves(class) {
            seen = and_one(seen, class.well);
            let file = told_file(alloc, program, budget, start, classes, class, seen)?;
            files.push(file)?;
        }
    }
    Ok(files)
}

// One class more that is good, or not.
fn and_one(seen: Seen, well: bool) -> Seen
    requires { (seen.bad < 2 ^ 64 - 1) × (seen.good < 2 ^ 64 - 1) }
    ensures { result ≡ spec.and_one seen well }
{
    if well {
        Seen {
            bad: seen.bad,
            good: seen.good + 1,
        }
    } else {
        Seen {
            bad: seen.bad + 1,
            good: seen.good,
        }
    }
}

// The file of a class, the last of its kind so far.
fn told_file(
    alloc: Global,
    program: &Prog,
    budget: u64,
    start: &str,
    classes: &Classes,
    class: &ClassTold,
    seen: Seen,
) -> Result<File, AllocError>
    requires below { class.now.number < length classes.now }
    ensures { IfOk result (λ f. plain_file f ≡ file_told start.now budget program.now classes.now seen class.now) }
{
    let name = kind_start(alloc, start, class.well)?;
    let known = classes.class(class.number);
    let items = known.summary.shortest();
    class_file(
        alloc,
        program,
        budget,
        name.as_str(),
        seen_of(seen, class.well),
        items,
    )
}

// How many of this kind there are.
fn seen_of(seen: Seen, well: bool) -> usize
    ensures { result ≡ spec.seen_of seen well }
{
    if well { seen.good } else { seen.bad }
}

// What the names of the files of good or of bad classes begin with.
fn kind_start(alloc: Global, start: &str, well: bool) -> Result<String, AllocError>
    ensures { IfOk result (λ name. string_bytes name ≡ start_of start.now well) }
{
    if well {
        format!(in alloc; "{start}-good")
    } else {
        format!(in alloc; "{start}-bad")
    }
}

/// A file with a schedule of each of the classes of these numbers.
///
/// # Errors
/// Out of memory.
pub fn class_files(
    alloc: Global,
    program: &Prog,
    budget: u64,
    start: &str,
    classes: &Classes,
    numbers: &[usize],
) -> Result<Vec<File>, AllocError>
    requires below { All (λ n. n < length classes.now) numbers.now }
    ensures { IfOk result (λ files. map plain_file files.items ≡ files_from start.now budget program.now classes.now 1 numbers.now) }
{
    let mut files = Vec::new(alloc);
    for index in 0..numbers.len() {
        let class = classes.class(numbers[index]);
        let items = class.summary.shortest();
        let file = class_file(alloc, program, budget, start, index + 1, items)?;
        files.push(file)?;
    }
    Ok(files)
}

/// The file of the class that comes in this place in the answer, counted from 1, with this schedule.
///
/// # Errors
/// Out of memory.
pub fn class_file(
    alloc: Global,
    program: &Prog,
    budget: u64,
    start: &str,
    place: usize,
    items: &[Item],
) -> Result<File, AllocError>
    ensures { IfOk result (λ f. plain_file f ≡ file true (saved_name start.now (decimal place)) (schedule_text budget (size_of program.now) items.now)) }
{
    let text = schedule_text(alloc, budget, program.size(), items)?;
    let name = name_of(alloc, start, place)?;
    new_file(alloc, true, name.as_str(), text.into_bytes())
}

// The name of the file of the class that comes in this place.
fn name_of(alloc: Global, start: &str, place: usize) -> Result<String, AllocError>
    ensures { IfOk result (λ name. string_bytes name ≡ saved_name start.now (decimal place)) }
{
    format!(in alloc; "{start}-{place}.schedule")
}
