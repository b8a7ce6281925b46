//! What is said of the options of a command that can't be used together.

ghost use Rattle.std.specs.{Prelude.{◌≡◌, ◌↔◌, ◌<◌, ◌-◌, codes, false, true, is_some, option_map, IfOk, IsTrue, List, MatchOption, Some, ℕ}, Char.{is_ascii_digit}};
ghost use Rattle.std.specs.{List.{list_all, list_any}, String.{string_bytes}};
ghost use Rattle.cml_arguments.specs.Words.{saved_end, saved_name, start_of, AreOdds, Clash, DepthOdds, DrawnOdds, ExplainsLive, ExploreOdds, InputOdds, KindsOdds, LastOdds, OrderOdds, OverOdds, OrElse, OverRecord, PassesTheLast, PicksOdds, ReplacedOdds, Replaces, RunOdds, SaveOdds, SavedOdds, SavesOver, SeedsOdds, StepOdds, ToldOdds, TraceOdds, TurnsOdds, UntilOdds, VerifyOdds, VerifySaveOdds, WatchOdds, WorkersOdds, StopOdds, StopWatchOdds};
ghost use Rattle.cml_arguments.specs.Words as spec;

use crate::{
    Explain, ExploreOptions, ReplayOptions, RunOptions, StepOptions, Task, TraceOptions, Until,
    VerifyOptions,
};
use std::alloc::{AllocError, Global};

/// What is said of the options of the task, where they are at odds.
///
/// # Errors
/// Out of memory.
pub fn told_odds(alloc: Global, task: &Task<'_>) -> Result<Option<String>, AllocError>
    ensures { IfOk result (λ told. AreOdds task.now (option_map (λ text. string_bytes text) told)) }
{
    match task {
        Task::Trace(options) => trace_odds(alloc, *options),
        Task::Run(options) => run_odds(alloc, options),
        Task::Replay(options) => replay_odds(alloc, options),
        Task::Explain(options) => input_odds(alloc, options.script, options.schedule),
        Task::Explore(options) => explore_odds(alloc, options),
        Task::Verify(options) => verify_odds(alloc, options),
        Task::Shrink(options) => input_odds(alloc, options.script, options.schedule),
        Task::Draw(options) => input_odds(alloc, options.script, options.schedule),
        Task::Step(options) => step_odds(alloc, *options),
        _ => Ok(None),
    }
}

// What is said of the options of `trace`, where they are at odds.
fn trace_odds(alloc: Global, options: TraceOptions) -> Result<Option<String>, AllocError>
    ensures { IfOk result (λ told. ToldOdds (TraceOdds options) (option_map (λ text. string_bytes text) told)) }
{
    if explains_live(options) {
        Ok(Some(format!(in alloc; "--explain can't be used with --live\n")?))
    } else {
        Ok(None)
    }
}

// And of those of `run`.
fn run_odds(alloc: Global, options: &RunOptions<'_>) -> Result<Option<String>, AllocError>
    ensures { IfOk result (λ told. ToldOdds (RunOdds options.now) (option_map (λ text. string_bytes text) told)) }
{
    match told_replaced(alloc, "--record", options.record, options.file)? {
        Some(told) => Ok(Some(told)),
        None => drawn_odds(alloc, options),
    }
}

// And of its picture.
fn drawn_odds(alloc: Global, options: &RunOptions<'_>) -> Result<Option<String>, AllocError>
    ensures { IfOk result (λ told. ToldOdds (DrawnOdds options.now) (option_map (λ text. string_bytes text) told)) }
{
    match told_replaced(alloc, "--draw", options.draw, options.file)? {
        Some(told) => Ok(Some(told)),
        None => over_odds(alloc, options),
    }
}

// And of the record, which its picture would replace.
fn over_odds(alloc: Global, options: &RunOptions<'_>) -> Result<Option<String>, AllocError>
    ensures { IfOk result (λ told. ToldOdds (OverOdds options.now) (option_map (λ text. string_bytes text) told)) }
{
    match over_record(alloc, options)? {
        Some(told) => Ok(Some(told)),
        None => turns_odds(alloc, options),
    }
}

// What is said where the picture would replace the record.
fn over_record(alloc: Global, options: &RunOptions<'_>) -> Result<Option<String>, AllocError>
    ensures { IfOk result (λ told. ToldOdds (OverRecord options.now) (option_map (λ text. string_bytes text) told)) }
{
    match options.record {
        Some(record) => told_replaced(alloc, "--draw", options.draw, record),
        None => Ok(None),
    }
}

// And of the order of its turns.
fn turns_odds(alloc: Global, options: &RunOptions<'_>) -> Result<Option<String>, AllocError>
    ensures { IfOk result (λ told. ToldOdds (TurnsOdds options.now) (option_map (λ text. string_bytes text) told)) }
{
    let priority = options.priority.is_some();
    match clash(alloc, "--turns", options.turns, "--priority", priority)? {
        Some(told) => Ok(Some(told)),
        None => workers_odds(alloc, options),
    }
}

// And of its workers, where the order of its turns is said.
fn workers_odds(alloc: Global, options: &RunOptions<'_>) -> Result<Option<String>, AllocError>
    ensures { IfOk result (λ told. ToldOdds (WorkersOdds options.now) (option_map (λ text. string_bytes text) told)) }
{
    let order = order_word(options.turns);
    let many = options.workers > 1;
    match clash(alloc, order, is_ordered(options), "--workers", many)? {
        Some(told) => Ok(Some(told)),
        None => watch_odds(alloc, options),
    }
}

// And of its reports, where it is said.
fn watch_odds(alloc: Global, options: &RunOptions<'_>) -> Result<Option<String>, AllocError>
    ensures { IfOk result (λ told. ToldOdds (WatchOdds options.now) (option_map (λ text. string_bytes text) told)) }
{
    let order = order_word(options.turns);
    let watch = options.watch.is_some();
    match clash(alloc, order, is_ordered(options), "--watch", watch)? {
        Some(told) => Ok(Some(told)),
        None => stop_odds(alloc, options),
    }
}

// And of its workers, where it is to stop.
fn stop_odds(alloc: Global, options: &RunOptions<'_>) -> Result<Option<String>, AllocError>
    ensures { IfOk result (λ told. ToldOdds (StopOdds options.now) (option_map (λ text. string_bytes text) told)) }
{
    let several = 1 < options.workers;
    match clash(alloc, "--stop", options.stop, "--workers", several)? {
        Some(told) => Ok(Some(told)),
        None => stop_watch_odds(alloc, options.stop, options.watch),
    }
}

// And of the reports of a run that is to stop.
fn stop_watch_odds(
    alloc: Global,
    stop: bool,
    watch: Option<u64>,
) -> Result<Option<String>, AllocError>
    ensures { IfOk result (λ told. ToldOdds (StopWatchOdds stop watch) (option_map (λ text. string_bytes text) told)) }
{
    clash(alloc, "--stop", stop, "--watch", watch.is_some())
}

// What is said of the options of `replay`.
fn replay_odds(alloc: Global, options: &ReplayOptions<'_>) -> Result<Option<String>, AllocError>
    ensures { IfOk result (λ told. ToldOdds (OrElse (StopWatchOdds options.now.stop options.now.watch) (InputOdds options.now.script.now options.now.schedule.now)) (option_map (λ text. string_bytes text) told)) }
{
    match stop_watch_odds(alloc, options.stop, options.watch)? {
        Some(told) => Ok(Some(told)),
        None => input_odds(alloc, options.script, options.schedule),
    }
}

// Whether the order of the turns of a run is said.
fn is_ordered(options: &RunOptions<'_>) -> bool
    ensures { result ≡ spec.is_ordered options.now }
{
    options.turns || options.priority.is_some()
}

// The option that says it.
fn order_word(turns: bool) -> &'static str
    ensures { result.now ≡ spec.order_word turns }
{
    if turns { "--turns" } else { "--priority" }
}

// And of those of `explore`.
fn explore_odds(alloc: Global, options: &ExploreOptions<'_>) -> Result<Option<String>, AllocError>
    ensures { IfOk result (λ told. ToldOdds (ExploreOdds options.now) (option_map (λ text. string_bytes text) told)) }
{
    match until_odds(alloc, options.until.as_slice())? {
        Some(told) => Ok(Some(told)),
        None => order_odds(alloc, options),
    }
}

// And of the order of the turns.
fn order_odds(alloc: Global, options: &ExploreOptions<'_>) -> Result<Option<String>, AllocError>
    ensures { IfOk result (λ told. ToldOdds (OrderOdds options.now) (option_map (λ text. string_bytes text) told)) }
{
    let priority = options.priority.is_some();
    match clash(alloc, "--turns", options.turns, "--priority", priority)? {
        Some(told) => Ok(Some(told)),
        None => picks_odds(alloc, options),
    }
}

// And where it is to be as it is without the option that draws it.
fn picks_odds(alloc: Global, options: &ExploreOptions<'_>) -> Result<Option<String>, AllocError>
    ensures { IfOk result (λ told. ToldOdds (PicksOdds options.now) (option_map (λ text. string_bytes text) told)) }
{
    match clash(alloc, "--picks", options.picks, "--turns", options.turns)? {
        Some(told) => Ok(Some(told)),
        None => depth_odds(alloc, options),
    }
}

// And as it is without priorities.
fn depth_odds(alloc: Global, options: &ExploreOptions<'_>) -> Result<Option<String>, AllocError>
    ensures { IfOk result (λ told. ToldOdds (DepthOdds options.now) (option_map (λ text. string_bytes text) told)) }
{
    let priority = options.priority.is_some();
    match clash(alloc, "--picks", options.picks, "--priority", priority)? {
        Some(told) => Ok(Some(told)),
        None => seeds_odds(alloc, options),
    }
}

// And of the seeds.
fn seeds_odds(alloc: Global, options: &ExploreOptions<'_>) -> Result<Option<String>, AllocError>
    ensures { IfOk result (λ told. ToldOdds (SeedsOdds options.now) (option_map (λ text. string_bytes text) told)) }
{
    match last_odds(alloc, options.seed, options.runs)? {
        Some(told) => Ok(Some(told)),
        None => save_odds(alloc, options.save, options.script),
    }
}

// What is said where a word of `--until` means nothing.
fn until_odds(alloc: Global, until: &[&str]) -> Result<Option<String>, AllocError>
    ensures { IfOk result (λ told. ToldOdds (UntilOdds until.now) (option_map (λ text. string_bytes text) told)) }
{
    if some_unknown(until) {
        let told = format!(in alloc; "--until takes waits, deadlock, fault, budget or bad\n")?;
        Ok(Some(told))
    } else {
        Ok(None)
    }
}

// What is said where there are fewer seeds from this one on than runs.
fn last_odds(alloc: Global, seed: u64, runs: u64) -> Result<Option<String>, AllocError>
    ensures { IfOk result (λ told. ToldOdds (LastOdds seed runs) (option_map (λ text. string_bytes text) told)) }
{
    if passes_the_last(seed, runs) {
        let told = format!(in alloc; "--runs goes past the last seed, 18446744073709551615\n")?;
        Ok(Some(told))
    } else {
        Ok(None)
    }
}

// What is said where the file of a class would replace the script.
fn save_odds(alloc: Global, save: Option<&str>, script: &str) -> Result<Option<String>, AllocError>
    ensures { IfOk result (λ told. ToldOdds (SaveOdds (option_map (λ start. start.now) save.entry) script.now) (option_map (λ text. string_bytes text) told)) }
{
    match save {
        Some(start) => kinds_odds(alloc, start, script),
        None => Ok(None),
    }
}

// The same, where the names begin so.
fn kinds_odds(alloc: Global, start: &str, script: &str) -> Result<Option<String>, AllocError>
    ensures { IfOk result (λ told. ToldOdds (KindsOdds start.now script.now) (option_map (λ text. string_bytes text) told)) }
{
    match bad_odds(alloc, start, script)? {
        Some(told) => Ok(Some(told)),
        None => good_odds(alloc, start, script),
    }
}

// The same of bad classes alone.
fn bad_odds(alloc: Global, start: &str, script: &str) -> Result<Option<String>, AllocError>
    ensures { IfOk result (λ told. ToldOdds (SavedOdds (start_of start.now false) script.now) (option_map (λ text. string_bytes text) told)) }
{
    let bad = format!(in alloc; "{start}-bad")?;
    saved_odds(alloc, bad.as_str(), script)
}

// And of good classes alone.
fn good_odds(alloc: Global, start: &str, script: &str) -> Result<Option<String>, AllocError>
    ensures { IfOk result (λ told. ToldOdds (SavedOdds (start_of start.now true) script.now) (option_map (λ text. string_bytes text) told)) }
{
    let good = format!(in alloc; "{start}-good")?;
    saved_odds(alloc, good.as_str(), script)
}

// The same of files whose names begin so.
fn saved_odds(alloc: Global, start: &str, script: &str) -> Result<Option<String>, AllocError>
    ensures { IfOk result (λ told. ToldOdds (SavedOdds start.now script.now) (option_map (λ text. string_bytes text) told)) }
{
    if saves_over(start, script) {
        Ok(Some(would_replace(alloc, "--save", script)?))
    } else {
        Ok(None)
    }
}

// What is said where two options are both given that can't be.
fn clash(
    alloc: Global,
    one: &str,
    given: bool,
    other: &str,
    also: bool,
) -> Result<Option<String>, AllocError>
    ensures { IfOk result (λ told. ToldOdds (Clash one.now given other.now also) (option_map (λ text. string_bytes text) told)) }
{
    if given && also {
        Ok(Some(format!(in alloc; "{one} can't be used with {other}\n")?))
    } else {
        Ok(None)
    }
}

// And of those of `verify`.
fn verify_odds(alloc: Global, options: &VerifyOptions<'_>) -> Result<Option<String>, AllocError>
    ensures { IfOk result (λ told. ToldOdds (VerifyOdds options.now) (option_map (λ text. string_bytes text) told)) }
{
    match clash(
        alloc,
        "--json",
        options.json,
        "--outcomes",
        options.outcomes,
    )? {
        Some(told) => Ok(Some(told)),
        None => verify_save_odds(alloc, options),
    }
}

// And of the files that it saves.
fn verify_save_odds(
    alloc: Global,
    options: &VerifyOptions<'_>,
) -> Result<Option<String>, AllocError>
    ensures { IfOk result (λ told. ToldOdds (VerifySaveOdds options.now) (option_map (λ text. string_bytes text) told)) }
{
    match options.save {
        Some(start) if saves_over(start, options.script) => {
            Ok(Some(would_replace(alloc, "--save", options.script)?))
        }
        _ => Ok(None),
    }
}

// And of those of `step`.
fn step_odds(alloc: Global, options: StepOptions<'_>) -> Result<Option<String>, AllocError>
    ensures { IfOk result (λ told. ToldOdds (StepOdds options.entry) (option_map (λ text. string_bytes text) told)) }
{
    told_replaced(alloc, "--record", options.record, options.script)
}

// And of a script and its schedule: standard input can't be both.
fn input_odds(alloc: Global, script: &str, schedule: &str) -> Result<Option<String>, AllocError>
    ensures { IfOk result (λ told. ToldOdds (InputOdds script.now schedule.now) (option_map (λ text. string_bytes text) told)) }
{
    if is_input(script) && is_input(schedule) {
        Ok(Some(format!(in alloc; "FILE and SCHEDULE can't both be -\n")?))
    } else {
        Ok(None)
    }
}

// Whether this names standard input.
fn is_input(name: &str) -> bool
    ensures { IsTrue result ↔ (name.now ≡ codes "-") }
{
    name == "-"
}

// What is said of the file that this option saves, where it would replace the one of this name.
fn told_replaced(
    alloc: Global,
    option: &str,
    saved: Option<&str>,
    name: &str,
) -> Result<Option<String>, AllocError>
    ensures { IfOk result (λ told. ToldOdds (ReplacedOdds option.now (option_map (λ saved. saved.now) saved.entry) name.now) (option_map (λ text. string_bytes text) told)) }
{
    if replaces(saved, name) {
        Ok(Some(would_replace(alloc, option, name)?))
    } else {
        Ok(None)
    }
}

// Whether what is saved so would replace the file of this name.
fn replaces(saved: Option<&str>, name: &str) -> bool
    ensures { IsTrue result ↔ Replaces (option_map (λ saved. saved.now) saved.entry) name.now }
{
    match saved {
        Some(saved) => saved == name,
        None => false,
    }
}

// That what this option saves would replace the file of this name.
fn would_replace(alloc: Global, option: &str, name: &str) -> Result<String, AllocError>
    ensures { IfOk result (λ told. string_bytes told ≡ spec.would_replace option.now name.now) }
{
    format!(in alloc; "{option} would replace {name}\n")
}

// Whether one of these words means nothing.
fn some_unknown(until: &[&str]) -> bool
    ensures { result ≡ list_any (λ word. spec.is_unknown word.now) until.now }
{
    until.iter().any(|word| is_unknown(word))
}

// Whether this word means nothing.
fn is_unknown(word: &str) -> bool
    ensures { result ≡ spec.is_unknown word.now }
{
    Until::named(word).is_none()
}

// Whether there are fewer seeds from this one on than runs.
fn passes_the_last(seed: u64, runs: u64) -> bool
    ensures { IsTrue result ↔ PassesTheLast seed runs }
{
    u64::MAX - seed < runs.saturating_sub(1)
}

// Whether a file whose name begins so may be saved under this name.
fn saves_over(start: &str, name: &str) -> bool
    ensures { IsTrue result ↔ SavesOver start.now name.now }
{
    match number_after(start.as_bytes(), name.as_bytes()) {
        Some(digits) => are_digits(digits),
        None => false,
    }
}

// Whether the text has decimal digits alone.
fn are_digits(text: &[u8]) -> bool
    ensures { result ≡ list_all is_ascii_digit text.now }
{
    text.iter().all(|digit| digit.is_ascii_digit())
}

// What stands in the name of a file that is saved in place of its number, where the names begin so.
fn number_after<'a>(start: &[u8], name: &'a [u8]) -> Option<&'a [u8]>
    ensures { MatchOption result ((digits : List ℕ) → name.now ≡ saved_name start.now digits → ⊥) (λ digits. name.now ≡ saved_name start.now digits.now) }
{
    match name.strip_prefix(start) {
        Some(rest) => number_in(rest),
        None => None,
    }
}

// The same of the rest of the name.
fn number_in(rest: &[u8]) -> Option<&[u8]>
    ensures { MatchOption result ((digits : List ℕ) → rest.now ≡ saved_end digits → ⊥) (λ digits. rest.now ≡ saved_end digits.now) }
{
    match rest.strip_prefix(b"-") {
        Some(number) => number.strip_suffix(b".schedule"),
        None => None,
    }
}

// Whether a trace is to be explained whose lines are answered at once.
fn explains_live(options: TraceOptions) -> bool
    ensures { IsTrue result ↔ ExplainsLive options }
{
    options.live && options.explain == Explain::Asked
}
