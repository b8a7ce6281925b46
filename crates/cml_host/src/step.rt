//! The command `step`: a run that is gone through by hand.

ghost use Rattle.std.specs.Prelude.{◌≡◌, ◌≤◌, ◌∷◌, [], IfOk, IfErr, OnOk, OnErr, IsTrue, None, Some, map, option_map};
ghost use Rattle.cml_check.specs.Sizes.{size_of};
ghost use Rattle.cml_host.specs.{Between.{between}, Narrated.{Writes}, Replies.{passage, plain_file, plain_of, plain_reply}, Scripts.{plain_script}};
ghost use Rattle.cml_host.specs.Stepped.{HasTalkCause, HubStepped, IsAnsweredBy, IsNotHeld, IsAtHand, IsSaving, IsTurnLost, IsTurnTaken, IsUnanswered, ScriptStepped, StepOutcome, StepsSo, TalkIsCut, TalksOut};
ghost use Rattle.cml_host.specs.Stores.{IsUnchanged, Shelf};
ghost use Rattle.cml_host.specs.Stepped as spec;
ghost use Rattle.cml_hub.specs.{Courses.{run_of}, Kept.{IsAtStart, NoneOut}, Runs.{stands}};
ghost use Rattle.cml_phrase.specs.Spots.{all_places};
ghost use Rattle.cml_schedule.specs.Written.{schedule_text};
ghost use Rattle.cml_step.specs.Calls.{text_of};
ghost use Rattle.cml_stepper.specs.Steppers.{places_known, FollowsTo};
ghost use Rattle.cml_stream.specs.{Counts.{Calls, counted}, Streams.{Stream, stream, IsSpent, Supplies}};
ghost use Rattle.cml_trace.specs.{Faults.{IsWriteFailure}, Live.{max_turns, HasTurnCause, IsFlushed}};

use crate::close::{Subject, subject_of};
use crate::output::write_words;
use crate::refusal::Refusal;
use crate::reply::{File, Reply, carry_out};
use crate::script::{Script, open_script};
use crate::store::Store;
use crate::tell::{let_go, schedule_file};
use crate::trace::faulted;
use cml_arguments::StepOptions;
use cml_hub::Hub;
use cml_stepper::{Reply as Answer, Run, Stepper, push_question, push_reply};
use cml_stream::Counting;
use cml_stream::input_output::WriteFault;
use cml_trace::{MAX_TURNS, TraceFault};
use std::alloc::{AllocError, Global};
use std::io::{ErrorKind, Read, Write};

// How many steps the run may take by the schedule that is saved.
const STEPS: u64 = 1_000_000;

/// Goes through a run of the script that lies under its name, by hand: each question is written and flushed, and a line is read and answered,
/// up to the one that ends it or the end of the input. Nothing behind that line is read. Then the schedule is saved, where that is asked for.
pub fn step_file<I: Read, O: Write, E: Write, S: Store>(
    alloc: Global,
    options: &StepOptions<'_>,
    input: &mut Counting<'_, I>,
    out: &mut Counting<'_, O>,
    err: &mut Counting<'_, E>,
    store: &mut S,
) -> u8
    requires given { (input.old.calls ≡ 0) × (input.old.failed ≡ 0) }
    requires fresh { (out.old.calls ≡ 0) × (out.old.failed ≡ 0) }
    ensures ran { let given = between I.remaining input.old input.new in
        let output = passage O.contents out.old out.new in
        let errors = passage E.contents err.old err.new in
        let shelf : Shelf = record { before = S.holds store.old; after = S.holds store.new } in
        StepOutcome options.now given output errors shelf result }
    ensures most { input.new.calls ≤ max_turns }
    ensures same_in { input.new.stream.ghost_name ≡ input.old.stream.ghost_name }
    ensures same_out { out.new.stream.ghost_name ≡ out.old.stream.ghost_name }
    ensures same_err { err.new.stream.ghost_name ≡ err.old.stream.ghost_name }
{
    let made = step_there(alloc, options, input, out, store);
    carry_out(alloc, "", &made, out, err, store)
}

// Goes through it, and returns what is left to save and to say.
fn step_there<I: Read, O: Write, S: Store>(
    alloc: Global,
    options: &StepOptions<'_>,
    input: &mut Counting<'_, I>,
    out: &mut Counting<'_, O>,
    store: &mut S,
) -> Result<Reply, Refusal>
    requires given { (input.old.calls ≡ 0) × (input.old.failed ≡ 0) }
    requires fresh { (out.old.calls ≡ 0) × (out.old.failed ≡ 0) }
    ensures told { let given = between I.remaining input.old input.new in
        StepsSo options.now (S.holds store.old) given (passage O.contents out.old out.new) (plain_reply [] result) }
    ensures same { IsUnchanged (S.holds store.old) (S.holds store.new) }
    ensures most { input.new.calls ≤ max_turns }
    ensures same_in { input.new.stream.ghost_name ≡ input.old.stream.ghost_name }
    ensures same_out { out.new.stream.ghost_name ≡ out.old.stream.ghost_name }
{
    match open_script(alloc, options.script, true, store) {
        Ok(script) => step_script(alloc, script, options, input, out),
        Err(why) => Err(why),
    }
}

// The same of the script.
fn step_script<I: Read, O: Write>(
    alloc: Global,
    script: Script,
    options: &StepOptions<'_>,
    input: &mut Counting<'_, I>,
    out: &mut Counting<'_, O>,
) -> Result<Reply, Refusal>
    requires given { (input.old.calls ≡ 0) × (input.old.failed ≡ 0) }
    requires fresh { (out.old.calls ≡ 0) × (out.old.failed ≡ 0) }
    ensures told { let given = between I.remaining input.old input.new in
        ScriptStepped options.now (plain_script script) given (passage O.contents out.old out.new) (plain_reply [] result) }
    ensures most { input.new.calls ≤ max_turns }
    ensures same_in { input.new.stream.ghost_name ≡ input.old.stream.ghost_name }
    ensures same_out { out.new.stream.ghost_name ≡ out.old.stream.ghost_name }
{
    let (program, subject) = subject_of(options.script, script);
    match Hub::begin(alloc, program, STEPS, None) {
        Ok(mut hub) => {
            let made = step_hub(alloc, &mut hub, &subject, options.record, input, out);
            let_go(hub);
            made
        }
        Err(back) => {
            drop(back.value);
            Err(Refusal::Memory)
        }
    }
}

// Goes through the run of the hub by hand, and returns its schedule, where it is to be saved.
fn step_hub<I: Read, O: Write>(
    alloc: Global,
    hub: &mut Hub,
    subject: &Subject<'_>,
    save_as: Option<&str>,
    input: &mut Counting<'_, I>,
    out: &mut Counting<'_, O>,
) -> Result<Reply, Refusal>
    requires start { IsAtStart hub.old.course.program spec.stepped_budget None hub.old }
    requires given { (input.old.calls ≡ 0) × (input.old.failed ≡ 0) }
    requires fresh { out.old.failed ≡ 0 }
    ensures stepped { let given = between I.remaining input.old input.new in
        let output = passage O.contents out.old out.new in
        let name = option_map (λ name. name.now) save_as.entry in
        HubStepped (all_places subject.now.text.items subject.now.forms.items) hub.old.course.program name hub.old given output (plain_reply [] result) }
    ensures most { input.new.calls ≤ max_turns }
    ensures same_in { input.new.stream.ghost_name ≡ input.old.stream.ghost_name }
    ensures same_out { out.new.stream.ghost_name ≡ out.old.stream.ghost_name }
{
    match hold(alloc, hub, subject, input, out) {
        Ok(()) => saved(alloc, hub, save_as),
        Err(why) => Err(faulted(why)),
    }
}

// The schedule of the hub, where it is to be saved.
fn saved(alloc: Global, hub: &Hub, save_as: Option<&str>) -> Result<Reply, Refusal>
    ensures { let schedule = schedule_text hub.now.budget (size_of hub.now.course.program) hub.now.course.items in
        IsSaving (option_map (λ name. name.now) save_as.entry) schedule (plain_reply [] result) }
{
    let files = schedule_file(alloc, hub, true, save_as)?;
    Ok(saving(alloc, files))
}

// A reply by which these files are saved, and nothing is said.
fn saving(alloc: Global, files: Vec<File>) -> Reply
    ensures { plain_of result ≡ spec.saves (map plain_file files.items) }
{
    Reply {
        output: Vec::new(alloc),
        files,
        words: Vec::new(alloc),
        status: 0,
    }
}

// The run of the hub is gone through by hand, from its beginning on.
fn hold<I: Read, O: Write>(
    alloc: Global,
    hub: &mut Hub,
    subject: &Subject<'_>,
    input: &mut Counting<'_, I>,
    out: &mut Counting<'_, O>,
) -> Result<(), TraceFault>
    requires start { hub.old.course.items ≡ [] }
    requires none_out { NoneOut hub.old }
    requires uncalled { (input.old.calls ≡ 0) × (input.old.failed ≡ 0) × (out.old.failed ≡ 0) }
    ensures ok { let given = stream (I.remaining input.old.stream.now) (I.remaining input.new.stream.now) in
        let output = stream (O.contents out.old.stream.now) (O.contents out.new.stream.now) in
        OnOk result (TalksOut (all_places subject.now.text.items subject.now.forms.items) hub.old [] hub.new given output) }
    ensures err { let given = stream (I.remaining input.old.stream.now) (I.remaining input.new.stream.now) in
        let output = stream (O.contents out.old.stream.now) (O.contents out.new.stream.now) in
        IfErr result (IsNotHeld (all_places subject.now.text.items subject.now.forms.items) hub.old given output) }
    ensures cause { let reads : Calls = record { calls = input.new.calls; failed = input.new.failed } in
        let writes : Calls = record { calls = out.new.calls; failed = out.new.failed } in
        HasTalkCause max_turns result reads writes }
    ensures leads { OnOk result (stands (text_of hub.new.course.program) hub.new.course.items ≡ Some (run_of hub.new.course)) }
    ensures most { input.new.calls ≤ max_turns }
    ensures same { (input.new.stream.ghost_name ≡ input.old.stream.ghost_name) × (out.new.stream.ghost_name ≡ out.old.stream.ghost_name) }
{
    let text = subject.text.as_slice();
    let forms = subject.forms.as_slice();
    let mut stepper = Stepper::new(alloc, text, forms)?;
    let result = talk(alloc, MAX_TURNS, &mut stepper, hub, subject, input, out);
    drop(stepper);
    let _led = hub.schedule();
    result
}

// The question is written, and lines are read and answered, up to one at which it ends or the end of the input. The input is asked at most
// this often.
fn talk<I: Read, O: Write>(
    alloc: Global,
    turns: u64,
    stepper: &mut Stepper<'_>,
    hub: &mut Hub,
    subject: &Subject<'_>,
    input: &mut Counting<'_, I>,
    out: &mut Counting<'_, O>,
) -> Result<(), TraceFault>
    requires none_out { NoneOut hub.old }
    requires there { FollowsTo hub.old.course stepper.old }
    requires turns { turns ≤ max_turns }
    requires uncalled { (input.old.calls ≡ 0) × (input.old.failed ≡ 0) × (out.old.failed ≡ 0) }
    ensures ok { let given = stream (I.remaining input.old.stream.now) (I.remaining input.new.stream.now) in
        let output = stream (O.contents out.old.stream.now) (O.contents out.new.stream.now) in
        OnOk result (TalksOut (places_known stepper.old) hub.old [] hub.new given output) }
    ensures err { let given = stream (I.remaining input.old.stream.now) (I.remaining input.new.stream.now) in
        let output = stream (O.contents out.old.stream.now) (O.contents out.new.stream.now) in
        IfErr result (IsNotHeld (places_known stepper.old) hub.old given output) }
    ensures cause { let reads : Calls = record { calls = input.new.calls; failed = input.new.failed } in
        let writes : Calls = record { calls = out.new.calls; failed = out.new.failed } in
        HasTalkCause turns result reads writes }
    ensures most { input.new.calls ≤ turns }
    ensures flushed { IsFlushed result out.new.flushed }
    ensures same { (input.new.stream.ghost_name ≡ input.old.stream.ghost_name) × (out.new.stream.ghost_name ≡ out.old.stream.ghost_name) }
{
    let asked = ask(alloc, stepper, hub, subject)?;
    send(asked.as_slice(), out)?;
    drop(asked);
    let mut typed = Vec::new(alloc);
    for _ in 0..turns {
        if take_turn(alloc, stepper, hub, subject, &mut typed, input, out)? {
            return Ok(());
        }
    }
    Err(TraceFault::Turns)
}

// The input is asked once: a line feed ends the line of which this was typed, and it is answered. Returns whether it is over.
fn take_turn<I: Read, O: Write>(
    alloc: Global,
    stepper: &mut Stepper<'_>,
    hub: &mut Hub,
    subject: &Subject<'_>,
    typed: &mut Vec<u8>,
    input: &mut Counting<'_, I>,
    out: &mut Counting<'_, O>,
) -> Result<bool, TraceFault>
    requires none_out { NoneOut hub.old }
    requires there { FollowsTo hub.old.course stepper.old }
    requires fresh { (input.old.failed ≡ 0) × (out.old.failed ≡ 0) }
    ensures ok { let given = stream (I.remaining input.old.stream.now) (I.remaining input.new.stream.now) in
        let output = stream (O.contents out.old.stream.now) (O.contents out.new.stream.now) in
        IfOk result (λ over. IsTurnTaken (places_known stepper.old) hub.old typed.old.items over typed.new.items hub.new given output) }
    ensures err { let given = stream (I.remaining input.old.stream.now) (I.remaining input.new.stream.now) in
        let output = stream (O.contents out.old.stream.now) (O.contents out.new.stream.now) in
        IfErr result (IsTurnLost (places_known stepper.old) hub.old typed.old.items given output) }
    ensures asked { input.new.calls ≡ counted input.old.calls }
    ensures ready { OnOk result (IsAtHand (places_known stepper.old) hub.new stepper.new) }
    ensures flushed { IsTrue out.old.flushed → IsFlushed result out.new.flushed }
    ensures cause { HasTurnCause result input.new.failed out.new.failed }
    ensures same { (input.new.stream.ghost_name ≡ input.old.stream.ghost_name) × (out.new.stream.ghost_name ≡ out.old.stream.ghost_name) }
{
    let mut byte = [0u8; 1];
    match input.read(&mut byte) {
        Ok(0) => finish(alloc, stepper, hub, subject, typed.as_slice(), out),
        Ok(_) => type_byte(alloc, stepper, hub, subject, typed, byte[0], out),
        Err(error) => {
            if error.kind() == ErrorKind::Interrupted {
                Ok(false)
            } else {
                Err(TraceFault::Read)
            }
        }
    }
}

// One byte more is typed: at a line feed the line is answered. Returns whether it is over.
fn type_byte<O: Write>(
    alloc: Global,
    stepper: &mut Stepper<'_>,
    hub: &mut Hub,
    subject: &Subject<'_>,
    typed: &mut Vec<u8>,
    byte: u8,
    out: &mut Counting<'_, O>,
) -> Result<bool, TraceFault>
    requires none_out { NoneOut hub.old }
    requires there { FollowsTo hub.old.course stepper.old }
    requires fresh { out.old.failed ≡ 0 }
    ensures ok { let output = stream (O.contents out.old.stream.now) (O.contents out.new.stream.now) in
        (given : Stream) → Supplies given (byte ∷ []) → IfOk result (λ over. IsTurnTaken (places_known stepper.old) hub.old typed.old.items over typed.new.items hub.new given output) }
    ensures err { let output = stream (O.contents out.old.stream.now) (O.contents out.new.stream.now) in
        (given : Stream) → Supplies given (byte ∷ []) → OnErr result (TalkIsCut (places_known stepper.old) hub.old typed.old.items given output) }
    ensures ready { OnOk result (IsAtHand (places_known stepper.old) hub.new stepper.new) }
    ensures flushed { IsTrue out.old.flushed → IsFlushed result out.new.flushed }
    ensures failed { IsWriteFailure result out.new.failed }
    ensures same_out { out.new.stream.ghost_name ≡ out.old.stream.ghost_name }
{
    if byte != b'\n' {
        typed.extend_from_slice(&[byte])?;
        return Ok(false);
    }
    let ends = reply(alloc, stepper, hub, subject, typed.as_slice(), out)?;
    typed.clear();
    Ok(ends)
}

// The input has ended: what was typed of a line is answered, if something was. It is over.
fn finish<O: Write>(
    alloc: Global,
    stepper: &mut Stepper<'_>,
    hub: &mut Hub,
    subject: &Subject<'_>,
    typed: &[u8],
    out: &mut Counting<'_, O>,
) -> Result<bool, TraceFault>
    requires none_out { NoneOut hub.old }
    requires there { FollowsTo hub.old.course stepper.old }
    requires fresh { out.old.failed ≡ 0 }
    ensures ok { let output = stream (O.contents out.old.stream.now) (O.contents out.new.stream.now) in
        (given : Stream) → Supplies given [] → IsSpent given → IfOk result (λ over. IsTurnTaken (places_known stepper.old) hub.old typed.now over typed.now hub.new given output) }
    ensures err { let output = stream (O.contents out.old.stream.now) (O.contents out.new.stream.now) in
        (given : Stream) → Supplies given [] → OnErr result (TalkIsCut (places_known stepper.old) hub.old typed.now given output) }
    ensures ready { OnOk result (IsAtHand (places_known stepper.old) hub.new stepper.new) }
    ensures flushed { IsTrue out.old.flushed → IsFlushed result out.new.flushed }
    ensures failed { IsWriteFailure result out.new.failed }
    ensures same_out { out.new.stream.ghost_name ≡ out.old.stream.ghost_name }
{
    if typed.is_empty() {
        return Ok(true);
    }
    let _ends = reply(alloc, stepper, hub, subject, typed, out)?;
    Ok(true)
}

// Answers a line, and writes the answer. Returns whether it is the end.
fn reply<O: Write>(
    alloc: Global,
    stepper: &mut Stepper<'_>,
    hub: &mut Hub,
    subject: &Subject<'_>,
    line: &[u8],
    out: &mut Counting<'_, O>,
) -> Result<bool, TraceFault>
    requires none_out { NoneOut hub.old }
    requires there { FollowsTo hub.old.course stepper.old }
    requires fresh { out.old.failed ≡ 0 }
    ensures ok { let output = stream (O.contents out.old.stream.now) (O.contents out.new.stream.now) in
        IfOk result (λ ends. IsAnsweredBy (places_known stepper.old) hub.old line.now ends hub.new × Writes output) }
    ensures err { let output = stream (O.contents out.old.stream.now) (O.contents out.new.stream.now) in
        OnErr result (IsUnanswered (places_known stepper.old) hub.old line.now output) }
    ensures ready { OnOk result (IsAtHand (places_known stepper.old) hub.new stepper.new) }
    ensures flushed { OnOk result (IsTrue out.new.flushed) }
    ensures failed { IsWriteFailure result out.new.failed }
    ensures same_out { out.new.stream.ghost_name ≡ out.old.stream.ghost_name }
{
    let answer = stepper.answer(alloc, hub, line)?;
    let ends = answer.ends();
    let text = words_of(alloc, stepper, hub, subject, answer)?;
    send(text.as_slice(), out)?;
    Ok(ends)
}

// The words of an answer, after which the run stands here.
fn words_of(
    alloc: Global,
    stepper: &Stepper<'_>,
    hub: &Hub,
    subject: &Subject<'_>,
    answer: Answer,
) -> Result<Vec<u8>, AllocError> {
    let name = subject.name;
    let mut text = Vec::new(alloc);
    push_reply(alloc, &mut text, Run { name, stepper, hub }, &answer)?;
    Ok(text)
}

// The question: what can happen next.
fn ask(
    alloc: Global,
    stepper: &Stepper<'_>,
    hub: &Hub,
    subject: &Subject<'_>,
) -> Result<Vec<u8>, AllocError> {
    let name = subject.name;
    let question = stepper.ask(alloc, hub)?;
    let mut text = Vec::new(alloc);
    push_question(alloc, &mut text, Run { name, stepper, hub }, &question)?;
    Ok(text)
}

// Writes a text, and flushes it.
fn send<O: Write>(text: &[u8], out: &mut Counting<'_, O>) -> Result<(), WriteFault>
    requires fresh { out.old.failed ≡ 0 }
    ensures wrote { Writes (stream (O.contents out.old.stream.now) (O.contents out.new.stream.now)) }
    ensures flushed { OnOk result (IsTrue out.new.flushed) }
    ensures fine { OnOk result (out.new.failed ≡ 0) }
    ensures failed { OnErr result (out.new.failed ≡ 1) }
    ensures same_out { out.new.stream.ghost_name ≡ out.old.stream.ghost_name }
{
    write_words(out, text)?;
    match out.flush() {
        Ok(()) => Ok(()),
        Err(_) => Err(WriteFault),
    }
}
