//! The command `verify`: every schedule of a script is examined, and it is told how they end.

ghost use Rattle.std.specs.{Prelude.{◌≡◌, ◌<◌, [], IfErr, IfOk, Some, length, map, option_map, true}, List.{All}};
ghost use Rattle.cml_explore.specs.{Ends.{AreEndsTold}, FaultsTold.{AreFaultsTold}};
ghost use Rattle.cml_host.specs.{Refused.{RefusesAs}, Replies.{plain_file, plain_of, plain_reply}, Scripts.{plain_script}, Stores.{IsUnchanged}};
ghost use Rattle.cml_host.specs.Outcomes.{PlainOutcomeTold, plain_outcome_told};
ghost use Rattle.cml_host.specs.Verified.{IsAstray, IsExamined, IsSearched, ProgramVerified, ScriptVerified, TellsOutcomes, VerdictTold, VerifyOutcome, end_files, ends_of, ends_start, faults_of, unending_of};
ghost use Rattle.cml_host.specs.Verified as spec;
ghost use Rattle.cml_json.specs.Verdicts.{verify_json as found_json};
ghost use Rattle.cml_phrase.specs.Spots.{all_places};
ghost use Rattle.cml_step.specs.Calls.{text_of};
ghost use Rattle.cml_verify.specs.{Verdicts.{IsVerdict}, Faults.{AreFaults, IsUnending}};

use crate::explore::class_files;
use crate::outcomes::{OutcomeTold, gather_outcomes, outcome_files, outcomes_text};
use crate::refusal::Refusal;
use crate::reply::{File, Reply};
use crate::script::{Script, open_script};
use crate::servers::find_servers;
use crate::store::Store;
use cml_arguments::VerifyOptions;
use cml_check::Prog;
use cml_explore::{
    Classes, EndsTold, Explored, FaultTold, gather_ends, tell_ends, tell_faults, write_ends,
    write_faulted,
};
use cml_facts::ending::push_many;
use cml_json::{Verified, verify_json};
use cml_verify::{Gap, Verdict, outcomes, verify};
use std::alloc::{AllocError, Global};

// The status where something bad was found.
const UNWELL: u8 = 6;

// The status where the bound was reached.
const BOUNDED: u8 = 4;

// The budget that a schedule says that is saved. A replay goes on behind it, and an end is the same under any.
const BUDGET: u64 = 1_000_000;

// What was found of every schedule.
#[derive(Drop)]
struct Examined {
    // Up to how many items the schedules were examined, if not all were.
    reach: Option<usize>,
    // Whether nothing bad was found.
    clean: bool,
    // The runs to the ends, in classes of those that ended alike.
    made: Explored,
    // What is told of the classes.
    told: EndsTold,
    // What is written.
    said: Vec<u8>,
}

/// Examines every schedule of the script that lies under its name, up to so many states, and tells how they end, or what they give, with a file of
/// a shortest schedule to each kind of end, or each outcome, where that is asked for.
///
/// # Errors
/// What is wrong with the script, which is explained; a thread does not stand in the script, which does not come about; or out of memory.
pub fn verify_file<S: Store>(
    alloc: Global,
    options: &VerifyOptions<'_>,
    store: &mut S,
) -> Result<Reply, Refusal>
    requires { 0 < options.now.states }
    ensures told { VerifyOutcome options.now (S.holds store.old) (plain_reply [] result) }
    ensures same { IsUnchanged (S.holds store.old) (S.holds store.new) }
{
    match open_script(alloc, options.script, true, store) {
        Ok(script) => verify_opened(alloc, &script, options),
        Err(why) => Err(why),
    }
}

// Examines the script, where it has the functions that are named as those of servers.
fn verify_opened(
    alloc: Global,
    script: &Script,
    options: &VerifyOptions<'_>,
) -> Result<Reply, Refusal>
    requires { 0 < options.now.states }
    ensures { ScriptVerified options.now (plain_script script.now) (plain_reply [] result) }
{
    match find_servers(alloc, script, options.servers.as_slice()) {
        Ok(servers) => {
            let numbers = servers.as_slice();
            verify_program(alloc, script, options, numbers)
        }
        Err(why) => Err(why),
    }
}

// Examines its program, and tells what was found.
fn verify_program(
    alloc: Global,
    script: &Script,
    options: &VerifyOptions<'_>,
    servers: &[u32],
) -> Result<Reply, Refusal>
    requires bound { 0 < options.now.states }
    ensures told { IfOk result (λ reply. ProgramVerified options.now (plain_script script.now) servers.now (plain_of reply)) }
    ensures err { IfErr result (RefusesAs IsAstray) }
{
    if options.outcomes {
        return tell_outcomes(alloc, script, options, servers);
    }
    let found = examine(alloc, script, options, servers)?;
    Ok(tell_found(alloc, &script.program, options, found)?)
}

// A search of every schedule of the program, which looks at what was printed, or not.
fn search(alloc: Global, program: &Prog, bound: usize, with_output: bool) -> Result<Verdict, Gap>
    requires { 0 < bound }
    ensures ends { IfOk result (λ v. IsVerdict program.now with_output bound v.reach (ends_of v) v.states) }
    ensures faults { IfOk result (λ v. AreFaults (text_of program.now) v.reach (faults_of v)) }
    ensures unending { IfOk result (λ v. IsUnending (text_of program.now) v.reach (unending_of v)) }
{
    if with_output {
        outcomes(alloc, program, bound)
    } else {
        verify(alloc, program, bound)
    }
}

// Why there is no verdict.
fn why_none(gap: Gap) -> Refusal
    ensures { RefusesAs IsAstray result }
{
    match gap {
        Gap::Memory => Refusal::Memory,
        Gap::Unkept => Refusal::Line("foreign thread\n", 1),
    }
}

// A verdict on the program.
fn verdict_on(
    alloc: Global,
    program: &Prog,
    bound: u64,
    with_output: bool,
) -> Result<Verdict, Refusal>
    requires bound { 0 < bound }
    ensures found { IfOk result (IsSearched program.now with_output bound) }
    ensures err { IfErr result (RefusesAs IsAstray) }
{
    match search(alloc, program, bound as usize, with_output) {
        Ok(verdict) => Ok(verdict),
        Err(gap) => Err(why_none(gap)),
    }
}

// Examines every schedule, and tells what each gives.
fn tell_outcomes(
    alloc: Global,
    script: &Script,
    options: &VerifyOptions<'_>,
    servers: &[u32],
) -> Result<Reply, Refusal>
    requires bound { 0 < options.now.states }
    ensures told { IfOk result (λ reply. TellsOutcomes options.now (plain_script script.now) servers.now (plain_of reply)) }
    ensures err { IfErr result (RefusesAs IsAstray) }
{
    let program = &script.program;
    let verdict = verdict_on(alloc, program, options.states, true)?;
    let schedules = verdict.ends.as_slice();
    let made = gather_ends(alloc, program, servers, schedules)?;
    let told = gather_outcomes(alloc, program, schedules)?;
    let clean = is_clean(options.endless, made.is_well(), &verdict);
    let status = verdict_status(verdict.reach, clean);
    drop(made);
    Ok(reply_outcomes(
        alloc,
        program,
        options.save,
        &verdict,
        told.as_slice(),
        status,
    )?)
}

// What is replied of these outcomes, with a schedule of each, where that is asked for.
fn reply_outcomes(
    alloc: Global,
    program: &Prog,
    start: Option<&str>,
    verdict: &Verdict,
    told: &[OutcomeTold],
    status: u8,
) -> Result<Reply, AllocError>
    ensures { let start = option_map (λ start. start.now) start.entry in
        IfOk result (λ reply. plain_of reply ≡ spec.outcomes_reply start program.now verdict.now.states verdict.now.reach (map plain_outcome_told told.now) status) }
{
    let output = outcomes_text(alloc, told, verdict.states, verdict.reach)?;
    let files = outcome_files(alloc, program, start, told)?;
    Ok(Reply {
        output,
        files,
        words: Vec::new(alloc),
        status,
    })
}

// Examines every schedule. What is told is made before anything is written.
fn examine(
    alloc: Global,
    script: &Script,
    options: &VerifyOptions<'_>,
    servers: &[u32],
) -> Result<Examined, Refusal>
    requires bound { 0 < options.now.states }
    ensures found { IfOk result (λ found. IsExamined (plain_script script.now) options.now servers.now found.reach found.clean found.made found.told found.said.items) }
    ensures below { IfOk result (λ found. All (λ n. n < length found.made.classes) found.told.order.items) }
    ensures err { IfErr result (RefusesAs IsAstray) }
{
    let verdict = verdict_on(alloc, &script.program, options.states, false)?;
    let made = gather_ends(alloc, &script.program, servers, verdict.ends.as_slice())?;
    let told = ends_told(alloc, script, servers, &made)?;
    let faults = faults_told(alloc, script, &verdict)?;
    let clean = is_clean(options.endless, made.is_well(), &verdict);
    let found = Verified {
        name: options.script,
        forms: script.forms.as_slice(),
        servers,
        states: verdict.states,
        reach: verdict.reach,
        ends: &told,
        faults: faults.as_slice(),
        unending: unending_items(&verdict),
        clean,
    };
    let said = written(alloc, options, &found)?;
    Ok(Examined {
        reach: verdict.reach,
        clean,
        made,
        told,
        said,
    })
}

// What is told of the ends.
fn ends_told(
    alloc: Global,
    script: &Script,
    servers: &[u32],
    made: &Explored,
) -> Result<EndsTold, AllocError>
    ensures told { IfOk result (AreEndsTold (all_places script.now.text.items script.now.forms.items) script.now.program servers.now made.now.classes) }
    ensures below { IfOk result (λ told. All (λ n. n < length made.now.classes) told.order.items) }
{
    let text = script.text.as_slice();
    let forms = script.forms.as_slice();
    tell_ends(alloc, text, forms, &script.program, servers, made.classes())
}

// What is told of the faults.
fn faults_told(
    alloc: Global,
    script: &Script,
    verdict: &Verdict,
) -> Result<Vec<FaultTold>, AllocError>
    ensures { IfOk result (λ told. AreFaultsTold (all_places script.now.text.items script.now.forms.items) script.now.program (faults_of verdict.now) told.items) }
{
    let text = script.text.as_slice();
    let forms = script.forms.as_slice();
    tell_faults(
        alloc,
        text,
        forms,
        &script.program,
        verdict.faults.as_slice(),
    )
}

// How many items the schedule has that can't go on to an end, if there is one.
fn unending_items(verdict: &Verdict) -> Option<usize>
    ensures { result ≡ option_map length (unending_of verdict.now) }
{
    match &verdict.unending {
        Some(schedule) => Some(schedule.len()),
        None => None,
    }
}

// What was found, as an object, where that is asked for, and else in words.
fn written(
    alloc: Global,
    options: &VerifyOptions<'_>,
    found: &Verified<'_>,
) -> Result<Vec<u8>, AllocError>
    ensures { let v = found.now in
        IfOk result (λ said. options.now.json ≡ true → said.items ≡ found_json v.name.now v.forms.now v.servers.now v.states v.reach v.ends.now v.faults.now v.unending v.clean) }
{
    if options.json {
        verify_json(alloc, found)
    } else {
        say_found(alloc, options.states, found)
    }
}

// The words for what was found, up to so many states.
fn say_found(alloc: Global, bound: u64, found: &Verified<'_>) -> Result<Vec<u8>, AllocError> {
    let mut said = Vec::new(alloc);
    match found.reach {
        None => push_whole(alloc, &mut said, found.name, found.states, found.ends)?,
        Some(most) => push_bound(alloc, &mut said, bound, most)?,
    }
    write_ends(alloc, &mut said, found.forms, found.ends)?;
    write_faulted(alloc, &mut said, found.forms, found.faults)?;
    push_unending(alloc, &mut said, found.unending)?;
    Ok(said)
}

// Appends how many items the schedule has that can't go on to an end, if there is one.
fn push_unending(
    alloc: Global,
    said: &mut Vec<u8>,
    unending: Option<usize>,
) -> Result<(), AllocError> {
    match unending {
        Some(items) => {
            said.extend_from_slice(b"no end   after ")?;
            push_many(alloc, said, " item", " items", items as u64)?;
            said.extend_from_slice(b"\n")
        }
        None => Ok(()),
    }
}

// Appends that every schedule was examined, and how many states there are.
fn push_whole(
    alloc: Global,
    said: &mut Vec<u8>,
    name: &str,
    states: usize,
    told: &EndsTold,
) -> Result<(), AllocError> {
    said.extend_from_slice(b"every schedule of ")?;
    said.extend_from_slice(name.as_bytes())?;
    said.extend_from_slice(b": ")?;
    push_many(alloc, said, " state", " states", states as u64)?;
    if told.classes.is_empty() {
        said.extend_from_slice(b"; none ends")?;
    }
    said.extend_from_slice(b"\n")
}

// Appends that the bound was reached, and which ends are told then.
fn push_bound(
    alloc: Global,
    said: &mut Vec<u8>,
    bound: u64,
    most: usize,
) -> Result<(), AllocError> {
    said.extend_from_slice(b"the bound of ")?;
    push_many(alloc, said, " state", " states", bound)?;
    said.extend_from_slice(b" is reached: ends with schedules of up to ")?;
    push_many(alloc, said, " item", " items", most as u64)?;
    said.extend_from_slice(b" are told; others may be missing\n")
}

// What is told of what was found.
fn tell_found(
    alloc: Global,
    program: &Prog,
    options: &VerifyOptions<'_>,
    found: Examined,
) -> Result<Reply, AllocError>
    requires { All (λ n. n < length found.made.classes) found.told.order.items }
    ensures { IfOk result (λ reply. VerdictTold options.now program.now found.reach found.clean found.made found.told found.said.items (plain_of reply)) }
{
    let status = verdict_status(found.reach, found.clean);
    let Examined {
        reach: _,
        clean: _,
        made,
        told,
        said,
    } = found;
    let files = files_of(
        alloc,
        program,
        options.save,
        made.classes(),
        told.order.as_slice(),
    )?;
    drop(made);
    drop(told);
    Ok(Reply {
        output: said,
        files,
        words: Vec::new(alloc),
        status,
    })
}

// A file of a schedule to each class of ends, where that is asked for.
fn files_of(
    alloc: Global,
    program: &Prog,
    start: Option<&str>,
    classes: &Classes,
    order: &[usize],
) -> Result<Vec<File>, AllocError>
    requires { All (λ n. n < length classes.now) order.now }
    ensures { IfOk result (λ files. map plain_file files.items ≡ end_files (option_map (λ start. start.now) start.entry) program.now classes.now order.now) }
{
    match start {
        Some(start) => class_files(alloc, program, BUDGET, start, classes, order),
        None => Ok(Vec::new(alloc)),
    }
}

// Whether nothing bad was found, where all ends are good, or not.
fn is_clean(endless: bool, well: bool, verdict: &Verdict) -> bool
    ensures { result ≡ spec.is_clean endless well verdict.now }
{
    well && verdict.faults.is_empty() && (endless || verdict.unending.is_none())
}

// The status of what was found.
fn verdict_status(reach: Option<usize>, clean: bool) -> u8
    ensures { result ≡ spec.verdict_status reach clean }
{
    if !clean {
        UNWELL
    } else if reach.is_some() {
        BOUNDED
    } else {
        0
    }
}
