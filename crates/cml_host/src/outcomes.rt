//! What every schedule gives, in a form that a program reads.

ghost use Rattle.std.specs.{Prelude.{◌≡◌, ◌++◌, ◌∷◌, [], IfOk, List, OnOk, map, option_map, ℕ}, BTreeMap.{IsOrdered}, Cmp.Lexicographic.{slice_cmp}, Ordering.{nat_cmp}, String.{string_bytes}};
ghost use Rattle.cml_explore.specs.Outcomes.{plain_outcome};
ghost use Rattle.cml_json.specs.Json as json;
ghost use Rattle.cml_host.specs.Outcomes.{AreFound, AreOutcomes, GivesText, Notes, plain_outcome_told, entry_told};
ghost use Rattle.cml_host.specs.Outcomes as spec;
ghost use Rattle.cml_host.specs.Replies.{plain_file};
ghost use Rattle.cml_text.specs.Lines.{lines};

use crate::explore::class_file;
use crate::reply::File;
use cml_check::Prog;
use cml_explore::{Outcome, ThreadEnd, outcome_by};
use cml_hub::Item;
use cml_json::{array, json_string};
use cml_text::Lines;
use std::alloc::{AllocError, Global};
use std::collections::BTreeMap;

// The budget that a schedule says that is saved. A replay goes on behind it, and an end is the same under any.
const BUDGET: u64 = 1_000_000;

/// An outcome, and a schedule that gives it.
#[derive(Drop)]
pub struct OutcomeTold {
    /// What is printed and how the threads are left, as two members of an object.
    pub text: Vec<u8>,
    /// The schedule.
    pub schedule: Vec<Item>,
}

// Schedules by the text of what they give.
type ByText = BTreeMap<Vec<u8>, Vec<Item>>;

// The name of an end.
fn end_name(end: ThreadEnd) -> &'static str
    ensures { result.now ≡ spec.end_name end }
{
    match end {
        ThreadEnd::Ended => "ended",
        ThreadEnd::Waits => "waits",
        ThreadEnd::Fault => "fault",
    }
}

// Appends the text of a string.
fn push_string(alloc: Global, texts: &mut Vec<Vec<u8>>, bytes: &[u8]) -> Result<(), AllocError>
    ensures { OnOk result (map (λ one. one.items) texts.new.items ≡ map (λ one. one.items) texts.old.items ++ json.json_string bytes.now ∷ []) }
{
    let text = json_string(alloc, bytes)?;
    texts.push(text)?;
    Ok(())
}

// The texts of the lines of an output.
fn line_texts(alloc: Global, output: &[u8]) -> Result<Vec<Vec<u8>>, AllocError>
    ensures { IfOk result (λ texts. map (λ one. one.items) texts.items ≡ map json.json_string (lines output.now)) }
{
    let mut texts = Vec::new(alloc);
    let mut all = Lines::new(output);
    while let Some((_, line)) = all.next() {
        push_string(alloc, &mut texts, line)?;
    }
    Ok(texts)
}

// The texts of the ends of threads.
fn end_texts(alloc: Global, ends: &[ThreadEnd]) -> Result<Vec<Vec<u8>>, AllocError>
    ensures { IfOk result (λ texts. map (λ one. one.items) texts.items ≡ map (λ end. json.json_string (spec.end_name end)) ends.now) }
{
    let mut texts = Vec::new(alloc);
    for end in ends {
        push_string(alloc, &mut texts, end_name(*end).as_bytes())?;
    }
    Ok(texts)
}

// The list of the lines of an output.
fn lines_text(alloc: Global, output: &[u8]) -> Result<Vec<u8>, AllocError>
    ensures { IfOk result (λ text. text.items ≡ spec.lines_text output.now) }
{
    let texts = line_texts(alloc, output)?;
    array(alloc, texts.as_slice())
}

// The list of the ends of threads.
fn ends_text(alloc: Global, ends: &[ThreadEnd]) -> Result<Vec<u8>, AllocError>
    ensures { IfOk result (λ text. text.items ≡ spec.ends_text ends.now) }
{
    let texts = end_texts(alloc, ends)?;
    array(alloc, texts.as_slice())
}

// The text of what a schedule gives.
fn outcome_text(alloc: Global, outcome: &Outcome) -> Result<Vec<u8>, AllocError>
    ensures { IfOk result (λ text. text.items ≡ spec.outcome_text (plain_outcome outcome.now)) }
{
    let lines = lines_text(alloc, outcome.output.as_slice())?;
    let threads = ends_text(alloc, outcome.threads.as_slice())?;
    let mut text = Vec::new(alloc);
    text.extend_from_slice(b"\"lines\":")?;
    text.extend_from_slice(lines.as_slice())?;
    text.extend_from_slice(b",\"threads\":")?;
    text.extend_from_slice(threads.as_slice())?;
    Ok(text)
}

// Whether this schedule, if there is one, has no more items than so many.
fn is_as_short(known: Option<&Vec<Item>>, items: usize) -> bool
    ensures { result ≡ spec.is_as_short (option_map (λ schedule. schedule.now.items) known.entry) items }
{
    match known {
        Some(schedule) => schedule.len() <= items,
        None => false,
    }
}

// Keeps the schedule by what it gives, unless one is kept that gives that and has no more items.
fn note(alloc: Global, found: &mut ByText, text: Vec<u8>, items: &[Item]) -> Result<(), AllocError>
    ensures { OnOk result (Notes found.old text.items items.now found.new) }
{
    if is_as_short(found.get(&text), items.len()) {
        return Ok(());
    }
    let schedule = Vec::from_slice(alloc, items)?;
    found.insert(text, schedule)?;
    Ok(())
}

// Keeps the schedule by what it gives.
fn add(alloc: Global, found: &mut ByText, program: &Prog, items: &[Item]) -> Result<(), AllocError>
    ensures { OnOk result ((text : List ℕ) × GivesText program.now items.now text × Notes found.old text items.now found.new) }
{
    let outcome = outcome_by(alloc, program, items)?;
    let text = outcome_text(alloc, &outcome)?;
    drop(outcome);
    note(alloc, found, text, items)
}

// A schedule for all that these give.
fn find(alloc: Global, program: &Prog, schedules: &[Vec<Item>]) -> Result<ByText, AllocError>
    ensures { IfOk result (AreFound program.now (map (λ schedule. schedule.items) schedules.now)) }
{
    let mut found = BTreeMap::new(alloc);
    for schedule in schedules {
        add(alloc, &mut found, program, schedule.as_slice())?;
    }
    Ok(found)
}

// Those that were found, as a list.
fn listed(alloc: Global, found: ByText) -> Result<Vec<OutcomeTold>, AllocError>
    ensures told { IfOk result (λ told. map plain_outcome_told told.items ≡ map entry_told found.entries) }
    ensures ordered { IsOrdered (λ x y. slice_cmp nat_cmp x.items y.items) found }
{
    let mut told = Vec::new(alloc);
    for (text, schedule) in found {
        told.push(OutcomeTold { text, schedule })?;
    }
    Ok(told)
}

/// What these schedules of the program give, each once, in order, with a schedule that has no more items than any other of these that gives the
/// same.
///
/// # Errors
/// Out of memory; or one of the schedules leads nowhere.
pub fn gather_outcomes(
    alloc: Global,
    program: &Prog,
    schedules: &[Vec<Item>],
) -> Result<Vec<OutcomeTold>, AllocError>
    ensures { IfOk result (λ told. AreOutcomes program.now (map (λ schedule. schedule.items) schedules.now) (map plain_outcome_told told.items)) }
{
    let found = find(alloc, program, schedules)?;
    listed(alloc, found)
}

// Appends the line of an outcome.
fn push_told(alloc: Global, text: &mut Vec<u8>, told: &OutcomeTold) -> Result<(), AllocError>
    ensures { OnOk result (text.new.items ≡ text.old.items ++ spec.told_line (plain_outcome_told told.now)) }
{
    let items = told.schedule.len();
    let behind = format!(in alloc; ",\"items\":{items}}}\n")?;
    text.push(b'{')?;
    text.extend_from_slice(told.text.as_slice())?;
    text.extend_from_slice(behind.as_bytes())
}

// The last line: how many states there are, and whether every schedule was examined.
fn search_line(alloc: Global, states: usize, reach: Option<usize>) -> Result<String, AllocError>
    ensures { IfOk result (λ line. string_bytes line ≡ spec.search_line states reach) }
{
    match reach {
        None => format!(in alloc; "{{\"states\":{states},\"whole\":true}}\n"),
        Some(items) => {
            format!(in alloc; "{{\"states\":{states},\"whole\":false,\"items\":{items}}}\n")
        }
    }
}

/// A line for each of these outcomes, and one for the search.
///
/// # Errors
/// Out of memory.
pub fn outcomes_text(
    alloc: Global,
    told: &[OutcomeTold],
    states: usize,
    reach: Option<usize>,
) -> Result<Vec<u8>, AllocError>
    ensures { IfOk result (λ text. text.items ≡ spec.outcomes_text (map plain_outcome_told told.now) states reach) }
{
    let mut text = Vec::new(alloc);
    for one in told {
        push_told(alloc, &mut text, one)?;
    }
    let last = search_line(alloc, states, reach)?;
    text.extend_from_slice(last.as_bytes())?;
    Ok(text)
}

// A file of the schedule of each of these outcomes.
fn files_of(
    alloc: Global,
    program: &Prog,
    start: &str,
    told: &[OutcomeTold],
) -> Result<Vec<File>, AllocError>
    ensures { IfOk result (λ files. map plain_file files.items ≡ spec.files_of start.now program.now 1 (map plain_outcome_told told.now)) }
{
    let mut files = Vec::new(alloc);
    for index in 0..told.len() {
        let items = told[index].schedule.as_slice();
        let file = class_file(alloc, program, BUDGET, start, index + 1, items)?;
        files.push(file)?;
    }
    Ok(files)
}

/// The same, where that is asked for.
///
/// # Errors
/// Out of memory.
pub fn outcome_files(
    alloc: Global,
    program: &Prog,
    start: Option<&str>,
    told: &[OutcomeTold],
) -> Result<Vec<File>, AllocError>
    ensures { let start = option_map (λ start. start.now) start.entry in
        IfOk result (λ files. map plain_file files.items ≡ spec.outcome_files start program.now (map plain_outcome_told told.now)) }
{
    match start {
        Some(start) => files_of(alloc, program, start, told),
        None => Ok(Vec::new(alloc)),
    }
}
