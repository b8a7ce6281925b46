//! What the arguments of the program's command line ask for.
#![tactic(auto)]

mod odds;
mod options;
mod table;

ghost use Rattle.std.specs.{Prelude.{◌≡◌, ◌<◌, ◌-◌, false, true, map, IfOk, Some}, String.{string_bytes}};
ghost use Rattle.clap.specs.Words.{kind_of};
ghost use Rattle.cml_arguments.specs.Words.{explains, until_named, AnswersError, AnswersTask, IsAnswer};

use crate::odds::told_odds;
use crate::options::task_of;
use crate::table::command;
use clap::Error;
use clap::error::ErrorKind;
use std::alloc::{AllocError, Global};

/// What the arguments say of explaining what is wrong.
#[derive(Clone, Copy, PartialEq, Eq)]
pub enum Explain {
    /// It is asked for.
    Asked,
    /// It is turned off.
    Off,
    /// Nothing.
    Unsaid,
}

impl Explain {
    /// Whether what is wrong is explained: as the arguments say, and where they say nothing, where the errors go to a terminal.
    pub fn is_on(self, terminal: bool) -> bool
        ensures { result ≡ explains self terminal }
    {
        match self {
            Explain::Asked => true,
            Explain::Off => false,
            Explain::Unsaid => terminal,
        }
    }
}

/// A command of the program.
#[derive(Drop)]
pub enum Task<'a> {
    /// Answers a trace.
    Trace(TraceOptions),
    /// Checks the script in a file.
    Check(FileOptions<'a>),
    /// Prints the forms of the text in a file.
    Fmt(FileOptions<'a>),
    /// Runs a script.
    Run(RunOptions<'a>),
    /// Runs a script again, by the schedule that a run recorded.
    Replay(ReplayOptions<'a>),
    /// Says what happens in a run, by its schedule.
    Explain(PartOptions<'a>),
    /// Runs a script many times, and says how the runs end.
    Explore(ExploreOptions<'a>),
    /// Examines every schedule of a script, and says how they end.
    Verify(VerifyOptions<'a>),
    /// Looks for a shorter schedule of a run that ends alike.
    Shrink(ShrinkOptions<'a>),
    /// Draws what happens in a run, by its schedule.
    Draw(PartOptions<'a>),
    /// Runs a script by hand.
    Step(StepOptions<'a>),
}

/// How a trace is answered.
#[derive(Clone, Copy, PartialEq, Eq)]
pub struct TraceOptions {
    /// Whether each line is answered as soon as it has been read.
    pub live: bool,
    /// Whether what is wrong with it is explained.
    pub explain: Explain,
}

/// How a file is read.
#[derive(Clone, Copy, PartialEq, Eq)]
pub struct FileOptions<'a> {
    /// The file.
    pub file: &'a str,
    /// Whether what is wrong with it is explained.
    pub explain: Explain,
}

/// Which threads may be left at the end of a run.
#[derive(Drop)]
pub struct EndOptions<'a> {
    /// Whether none may but servers, and none may have ended at a fault.
    pub strict: bool,
    /// The functions of servers: threads that began with one of them may wait.
    pub servers: Vec<&'a str>,
}

/// What must hold of a run.
#[derive(Drop)]
pub struct PropertyOptions<'a> {
    /// The patterns that no line may match.
    pub never: Vec<&'a str>,
    /// Those of which a line must match each, once the run has ended.
    pub always: Vec<&'a str>,
    /// Those of which one line at most may match each.
    pub once: Vec<&'a str>,
    /// Two patterns in each text: no line that matches the second may come before the first that matches the first.
    pub before: Vec<&'a str>,
    /// Whether no item may be left in a mailbox or at a port once the run has ended.
    pub empty: bool,
    /// The file that has more of it.
    pub file: Option<&'a str>,
}

/// How a script is run.
#[derive(Drop)]
pub struct RunOptions<'a> {
    /// The file of the script.
    pub file: &'a str,
    /// How many workers run its threads, from 1 to 64; where the arguments give no number, 1.
    pub workers: usize,
    /// How many steps the run may take, from 1 to 1,000,000,000; where the arguments give no number, 1,000,000.
    pub steps: u64,
    /// What choices are drawn from; without it the first that can be taken is chosen.
    pub seed: Option<u64>,
    /// Whether the order in which threads have their turns is drawn as well.
    pub turns: bool,
    /// The depth of the priorities by which they have them, from 1 to 64; without it they have none.
    pub priority: Option<u64>,
    /// After how many items of the schedule each report comes, from 1 to 1,000,000,000; without it there is none.
    pub watch: Option<u64>,
    /// The file that gets the schedule of the run.
    pub record: Option<&'a str>,
    /// The file that gets a picture of the run.
    pub draw: Option<&'a str>,
    /// Which threads may be left at its end.
    pub end: EndOptions<'a>,
    /// What must hold of it.
    pub properties: PropertyOptions<'a>,
    /// Whether it stops where that does not hold, or where a thread ends at a fault.
    pub stop: bool,
    /// Whether what is wrong with the script is explained.
    pub explain: Explain,
}

/// How a script is run again.
#[derive(Drop)]
pub struct ReplayOptions<'a> {
    /// The file of the script.
    pub script: &'a str,
    /// The file of the schedule.
    pub schedule: &'a str,
    /// After how many items of the schedule each report comes, from 1 to 1,000,000,000; without it there is none.
    pub watch: Option<u64>,
    /// Which threads may be left at its end.
    pub end: EndOptions<'a>,
    /// What must hold of it.
    pub properties: PropertyOptions<'a>,
    /// Whether it stops where that does not hold, or where a thread ends at a fault.
    pub stop: bool,
    /// Whether what is wrong with the script is explained.
    pub explain: Explain,
}

/// Of which items of a schedule it is said, or drawn, what happens.
#[derive(Clone, Copy, PartialEq, Eq)]
pub struct PartOptions<'a> {
    /// The file of the script.
    pub script: &'a str,
    /// The file of the schedule.
    pub schedule: &'a str,
    /// The first item, from 1 to 1,000,000,000; where the arguments give no number, 1.
    pub from: u64,
    /// The last item, from 1 to 1,000,000,000; without it that of the schedule.
    pub to: Option<u64>,
}

/// How a script is run many times.
#[derive(Drop)]
pub struct ExploreOptions<'a> {
    /// The file of the script.
    pub script: &'a str,
    /// How many runs are made, from 1 to 1,000,000; where the arguments give no number, 100.
    pub runs: u64,
    /// The seed of the first run, where the arguments give none 0; each further run has the next one.
    pub seed: u64,
    /// How many steps each run may take, from 1 to 1,000,000,000; where the arguments give no number, 1,000,000.
    pub steps: u64,
    /// How many workers make the runs, from 1 to 64, where the arguments give a number.
    pub workers: Option<u64>,
    /// Whether in each run threads have their turns in order, and rows alone are picked.
    pub picks: bool,
    /// Whether in each the order in which threads have their turns is drawn as well.
    pub turns: bool,
    /// The depth of the priorities by which they have them in each, from 1 to 64; without it they have none.
    pub priority: Option<u64>,
    /// What the name of each file begins with that gets a schedule; without it none is saved.
    pub save: Option<&'a str>,
    /// The functions of servers: threads that began with one of them may wait.
    pub servers: Vec<&'a str>,
    /// The words that say at which runs to stop; without one all are made.
    pub until: Vec<&'a str>,
    /// What must hold of each run.
    pub properties: PropertyOptions<'a>,
    /// Whether all runs must print the same lines, in any order.
    pub same_lines: bool,
    /// Whether they must print the same lines in the same order.
    pub same_order: bool,
    /// Whether what is told of them is an object of JSON.
    pub json: bool,
}

/// At which run to stop.
#[derive(Clone, Copy, PartialEq, Eq)]
pub enum Until {
    /// The first at whose end a thread waits that is no server.
    Waits,
    /// The first at whose end, moreover, nothing is left to do.
    Deadlock,
    /// The first in which a thread ends at a fault.
    Fault,
    /// The first that ends because its steps are used up.
    Budget,
    /// The first that does not end well.
    Bad,
}

impl Until {
    /// What the word of `--until` means, if anything.
    pub fn named(word: &str) -> Option<Until>
        ensures { result ≡ until_named word.now }
    {
        match word {
            "waits" => Some(Until::Waits),
            "deadlock" => Some(Until::Deadlock),
            "fault" => Some(Until::Fault),
            "budget" => Some(Until::Budget),
            "bad" => Some(Until::Bad),
            _ => None,
        }
    }
}

/// How every schedule of a script is examined.
#[derive(Drop)]
pub struct VerifyOptions<'a> {
    /// The file of the script.
    pub script: &'a str,
    /// How many states may be kept, from 1 to 100,000,000; where the arguments give no number, 20,000.
    pub states: u64,
    /// Whether what every schedule gives is told, in a form that a program reads, in place of how they end.
    pub outcomes: bool,
    /// Whether it is no mistake that some schedule can't go on to an end.
    pub endless: bool,
    /// What the name of each file begins with that gets a schedule; without it none is saved.
    pub save: Option<&'a str>,
    /// The functions of servers: threads that began with one of them may wait.
    pub servers: Vec<&'a str>,
    /// Whether what is found is told as an object of JSON.
    pub json: bool,
}

/// How a shorter schedule is looked for.
#[derive(Drop)]
pub struct ShrinkOptions<'a> {
    /// The file of the script.
    pub script: &'a str,
    /// The file of the schedule.
    pub schedule: &'a str,
    /// How many replays the search may take, from 1 to 1,000,000,000; where the arguments give no number, 10,000.
    pub tries: u64,
    /// What must hold of a run: the shorter schedule breaks of it what the given one breaks.
    pub properties: PropertyOptions<'a>,
    /// Whether the schedule is to end where the run breaks something of it, or a thread ends at a fault.
    pub stop: bool,
}

/// How a script is run by hand.
#[derive(Clone, Copy, PartialEq, Eq)]
pub struct StepOptions<'a> {
    /// The file of the script.
    pub script: &'a str,
    /// The file that gets the schedule of the run.
    pub record: Option<&'a str>,
}

/// What the arguments ask for.
#[derive(Drop)]
pub enum Answer<'a> {
    /// They name this command.
    Task(Task<'a>),
    /// They ask for this text.
    Help(String),
    /// Something is wrong with them, as this text says.
    Fault(String),
}

/// Reads the arguments, the first of which is the program's name.
///
/// # Errors
/// Out of memory.
pub fn read_arguments<'a>(alloc: Global, words: &'a [String]) -> Result<Answer<'a>, AllocError>
    ensures { IfOk result (IsAnswer (map string_bytes words.now)) }
{
    match command(alloc)?.try_get_matches_from(words) {
        Ok(matches) => {
            let task = task_of(alloc, &matches)?;
            answer_to_task(alloc, task)
        }
        Err(error) => answer_to_error(alloc, &error),
    }
}

// The task, unless its options are at odds, which is the last of the faults that arguments can have.
fn answer_to_task<'a>(alloc: Global, task: Task<'a>) -> Result<Answer<'a>, AllocError>
    ensures { IfOk result (AnswersTask task.entry) }
{
    match told_odds(alloc, &task)? {
        Some(told) => Ok(Answer::Fault(told)),
        None => Ok(Answer::Task(task)),
    }
}

// The text of the error, as what it is: that something is wrong, or help that was asked for.
fn answer_to_error<'a>(alloc: Global, error: &Error) -> Result<Answer<'a>, AllocError>
    ensures { IfOk result (AnswersError (kind_of error.now)) }
{
    let kind = error.kind();
    if kind == ErrorKind::OutOfMemory {
        return Err(AllocError);
    }
    let text = format!(in alloc; "{error}")?;
    match kind {
        ErrorKind::DisplayHelp => Ok(Answer::Help(text)),
        ErrorKind::DisplayVersion => Ok(Answer::Help(text)),
        _ => Ok(Answer::Fault(text)),
    }
}
