//! The command `explain`: what happened in a run, item by item, and how it ended.

ghost use Rattle.std.specs.Prelude.{◌≡◌, [], ◌+◌, ◌<◌, ◌^◌, IfOk, IfErr, OnOk, OnErr, IsTrue, None, is_some};
ghost use Rattle.cml_hub.specs.Kept.{IsAtStart, IsFollowed, NoneOut};
ghost use Rattle.cml_host.specs.{Plans.{AreNotBoth}, Refused.{RefusesAs}, Replies.{passage, plain_refusal, plain_reply}, Stores.{IsUnchanged, Shelf}};
ghost use Rattle.cml_host.specs.Narrated.{EndReplied, ExplainOutcome, ExplainsSo, HasToldFirst, IsCutBy, IsCutReply, IsPlanBegun, ItemRefused, PlanTold, Writes};
ghost use Rattle.cml_host.specs.Narrated as spec;
ghost use Rattle.cml_facts.specs.Narrators.{Knows};
ghost use Rattle.cml_stream.specs.{Counts.{counted}, Streams.{stream}};

use crate::close::{Subject, end_words};
use crate::item::explain_item;
use crate::opening::{Opened, REFUSED, begin, open_both};
use crate::output::write_words;
use crate::refusal::Refusal;
use crate::reply::{Reply, carry_out, text_reply};
use crate::store::Store;
use crate::tell::let_go;
use cml_arguments::PartOptions;
use cml_facts::narrative::{Happened, Narrator, push_happened};
use cml_hub::{Hub, Item, Plan};
use cml_stream::Counting;
use cml_stream::input_output::WriteFault;
use cml_text::Sexpr;
use std::alloc::{AllocError, Global};
use std::io::Write;
use thiserror::Error;

// So many bytes of a story are written at once, or a few more.
const PIECE: usize = 65_536;

// A run that is told.
#[derive(Drop)]
struct Story<'a> {
    hub: Hub,
    subject: Subject<'a>,
    plan: Plan,
    text: Vec<u8>,
}

// What is told of it: the items that are asked for, of so many, in words of these forms.
#[derive(Clone, Copy)]
struct Telling<'a> {
    forms: &'a [Sexpr],
    options: &'a PartOptions<'a>,
    count: usize,
}

/// Why a command is cut off.
#[derive(Clone, Copy, Debug, Error)]
pub enum Halt {
    /// Out of memory.
    #[error("out of memory")]
    Memory,
    /// A write failed.
    #[error("a write failed")]
    Write,
}

impl From<AllocError> for Halt {
    ghost use Rattle.std.specs.Prelude.{◌≡◌};
    ghost use Rattle.cml_host.specs.declared.explain.Halt.TheVariants.{Memory};

    ghost from_gives = { λ _ e. e ≡ Memory };

    fn from(_error: AllocError) -> Halt {
        Halt::Memory
    }
}

impl From<WriteFault> for Halt {
    ghost use Rattle.std.specs.Prelude.{◌≡◌};
    ghost use Rattle.cml_host.specs.declared.explain.Halt.TheVariants.{Write};

    ghost from_gives = { λ _ e. e ≡ Write };

    fn from(_error: WriteFault) -> Halt {
        Halt::Write
    }
}

/// Tells what happened in the run of the script that lies under its name, by the schedule that lies under its own, and how it ended. What is
/// wrong with either is explained.
pub fn explain_file<O: Write, E: Write, S: Store>(
    alloc: Global,
    options: &PartOptions<'_>,
    out: &mut Counting<'_, O>,
    err: &mut Counting<'_, E>,
    store: &mut S,
) -> u8
    ensures ran { let output = passage O.contents out.old out.new in
        let errors = passage E.contents err.old err.new in
        let shelf : Shelf = record { before = S.holds store.old; after = S.holds store.new } in
        ExplainOutcome options.now output errors shelf result }
    ensures same_out { out.new.stream.ghost_name ≡ out.old.stream.ghost_name }
    ensures same_err { err.new.stream.ghost_name ≡ err.old.stream.ghost_name }
{
    let made = explain_there(alloc, options, out, store);
    carry_out(alloc, "", &made, out, err, store)
}

// Tells the items, and returns what is left to say.
fn explain_there<O: Write, S: Store>(
    alloc: Global,
    options: &PartOptions<'_>,
    out: &mut Counting<'_, O>,
    store: &mut S,
) -> Result<Reply, Refusal>
    ensures told { ExplainsSo options.now (S.holds store.old) (passage O.contents out.old out.new) (plain_reply [] result) }
    ensures same { IsUnchanged (S.holds store.old) (S.holds store.new) }
    ensures same_out { out.new.stream.ghost_name ≡ out.old.stream.ghost_name }
{
    match begin_there(alloc, options, store) {
        Ok(story) => tell_story(alloc, story, options, out),
        Err(why) => Err(why),
    }
}

// The script and the schedule that lie under their names, and a hub at the beginning of a run.
fn begin_there<'a, S: Store>(
    alloc: Global,
    options: &PartOptions<'a>,
    store: &mut S,
) -> Result<Story<'a>, Refusal>
    ensures ok { IfOk result (λ story. IsPlanBegun options.now (S.holds store.old) story.plan story.hub) }
    ensures err { IfErr result (RefusesAs (AreNotBoth options.now.script.now options.now.schedule.now (S.holds store.old))) }
    ensures same { IsUnchanged (S.holds store.old) (S.holds store.new) }
{
    let Opened {
        program,
        subject,
        plan,
        text,
    } = open_both(alloc, options.script, options.schedule, store)?;
    let hub = begin(alloc, program, plan.budget)?;
    Ok(Story {
        hub,
        subject,
        plan,
        text,
    })
}

// The same of a story that was begun.
fn tell_story<O: Write>(
    alloc: Global,
    story: Story<'_>,
    options: &PartOptions<'_>,
    out: &mut Counting<'_, O>,
) -> Result<Reply, Refusal>
    requires { IsAtStart story.hub.course.program story.hub.budget None story.hub }
    ensures told { PlanTold story.entry.plan.items story.entry.hub (passage O.contents out.old out.new) (plain_reply [] result) }
    ensures same_out { out.new.stream.ghost_name ≡ out.old.stream.ghost_name }
{
    let Story {
        mut hub,
        subject,
        plan,
        text,
    } = story;
    let text = text.as_slice();
    let items = plan.items.as_slice();
    let made = explain_items(alloc, &mut hub, &subject, text, items, options, out);
    let_go(hub);
    made
}

// Tells the items, from the beginning on, as far as they can happen, and returns how the run ended, or why the next one can't.
fn explain_items<O: Write>(
    alloc: Global,
    hub: &mut Hub,
    subject: &Subject<'_>,
    text: &[u8],
    items: &[Item],
    options: &PartOptions<'_>,
    out: &mut Counting<'_, O>,
) -> Result<Reply, Refusal>
    requires start { IsAtStart hub.old.course.program hub.old.budget None hub.old }
    ensures told { PlanTold items.now hub.old (passage O.contents out.old out.new) (plain_reply [] result) }
    ensures same_out { out.new.stream.ghost_name ≡ out.old.stream.ghost_name }
{
    match tell_items(alloc, hub, subject, items, options, out) {
        Ok(count) => {
            if count < items.len() {
                Err(refuse_item(alloc, hub, subject, text, count, &items[count]))
            } else {
                told_end(alloc, hub, subject)
            }
        }
        Err(why) => Err(cut_by(why)),
    }
}

// How the run ended, for the output behind its story.
fn told_end(alloc: Global, hub: &Hub, subject: &Subject<'_>) -> Result<Reply, Refusal>
    ensures { EndReplied (plain_reply [] result) }
{
    let words = end_words(alloc, hub, subject, &[])?;
    Ok(text_reply(alloc, words))
}

// Why the item, before which so many happened, can't happen next.
fn refuse_item(
    alloc: Global,
    hub: &Hub,
    subject: &Subject<'_>,
    text: &[u8],
    count: usize,
    item: &Item,
) -> Refusal
    requires few { count + 1 < 2 ^ 64 }
    ensures { ItemRefused (count + 1) (plain_refusal [] result) }
{
    let forms = subject.forms.as_slice();
    match explain_item(alloc, forms, text, hub, count + 1, item) {
        Ok(told) => Refusal::Told(told, REFUSED),
        Err(AllocError) => Refusal::Memory,
    }
}

// What is said where a story was cut off.
fn cut_by(why: Halt) -> Refusal
    ensures { IsCutReply why (plain_refusal [] result) }
{
    match why {
        Halt::Memory => Refusal::Memory,
        Halt::Write => Refusal::Line("cannot write output\n", 1),
    }
}

// Tells the items until one can't happen, writes what was told, and returns how many happened.
fn tell_items<O: Write>(
    alloc: Global,
    hub: &mut Hub,
    subject: &Subject<'_>,
    items: &[Item],
    options: &PartOptions<'_>,
    out: &mut Counting<'_, O>,
) -> Result<usize, Halt>
    requires start { IsAtStart hub.old.course.program hub.old.budget None hub.old }
    ensures ok { IfOk result (λ count. HasToldFirst hub.old items.now count hub.new (passage O.contents out.old out.new)) }
    ensures err { IfErr result (λ why. IsCutBy why (passage O.contents out.old out.new)) }
    ensures same_out { out.new.stream.ghost_name ≡ out.old.stream.ghost_name }
{
    let text = subject.text.as_slice();
    let forms = subject.forms.as_slice();
    let telling = Telling {
        forms,
        options,
        count: items.len(),
    };
    let mut narrator = Narrator::new(alloc, text, forms)?;
    let mut piece = Vec::new(alloc);
    let count = tell_until(alloc, hub, &mut narrator, &mut piece, items, &telling, out)?;
    spill(&mut piece, out)?;
    Ok(count)
}

// Tells the items until one can't happen, and returns how many happened. What was told is written, but for the last piece.
fn tell_until<O: Write>(
    alloc: Global,
    hub: &mut Hub,
    narrator: &mut Narrator,
    piece: &mut Vec<u8>,
    items: &[Item],
    telling: &Telling<'_>,
    out: &mut Counting<'_, O>,
) -> Result<usize, Halt>
    requires none_out { NoneOut hub.old }
    requires knows { Knows hub.old.course narrator.old }
    ensures ok { IfOk result (λ count. HasToldFirst hub.old items.now count hub.new (passage O.contents out.old out.new)) }
    ensures err { IfErr result (λ why. IsCutBy why (passage O.contents out.old out.new)) }
    ensures same_out { out.new.stream.ghost_name ≡ out.old.stream.ghost_name }
{
    for count in 0..items.len() {
        let item = items[count];
        let came = tell_item(alloc, hub, narrator, piece, telling, item)?;
        if !came {
            return Ok(count);
        }
        spill_full(piece, out)?;
    }
    Ok(items.len())
}

// The next item happens, where it may, and its line is appended, where it is told. Returns whether it happened.
fn tell_item(
    alloc: Global,
    hub: &mut Hub,
    narrator: &mut Narrator,
    piece: &mut Vec<u8>,
    telling: &Telling<'_>,
    item: Item,
) -> Result<bool, AllocError>
    requires none_out { NoneOut hub.old }
    requires knows { Knows hub.old.course narrator.old }
    ensures follows { IfOk result (λ came. IsFollowed hub.old item came hub.new) }
    ensures none_out { NoneOut hub.new }
    ensures knows { IfOk result (λ came. IsTrue came → Knows hub.new.course narrator.new) }
{
    if !is_asked_for(telling.options, hub.schedule().len() + 1) {
        return narrator.follow(alloc, hub, item);
    }
    let told = narrator.tell(alloc, hub, item)?;
    let came = push_told(alloc, piece, telling, &told);
    drop(told);
    came
}

// Appends the line of what happened, if anything did. Returns whether it did.
fn push_told(
    alloc: Global,
    piece: &mut Vec<u8>,
    telling: &Telling<'_>,
    told: &Option<Happened>,
) -> Result<bool, AllocError>
    ensures { IfOk result (λ came. came ≡ is_some told.now) }
{
    match told {
        Some(happened) => {
            push_happened(alloc, piece, telling.forms, telling.count, happened)?;
            Ok(true)
        }
        None => Ok(false),
    }
}

// Whether the item of this number is told.
fn is_asked_for(options: &PartOptions<'_>, number: usize) -> bool
    ensures { result ≡ spec.is_asked_for options.now number }
{
    let number = number as u64;
    let is_late = match options.to {
        Some(last) => number > last,
        None => false,
    };
    number >= options.from && !is_late
}

// Writes what was told and is not written yet, where that is a piece.
fn spill_full<O: Write>(piece: &mut Vec<u8>, out: &mut Counting<'_, O>) -> Result<(), WriteFault>
    ensures wrote { Writes (stream (O.contents out.old.stream.now) (O.contents out.new.stream.now)) }
    ensures fine { OnOk result (out.new.failed ≡ out.old.failed) }
    ensures failed { OnErr result (out.new.failed ≡ counted out.old.failed) }
    ensures same_out { out.new.stream.ghost_name ≡ out.old.stream.ghost_name }
{
    if piece.len() < PIECE {
        Ok(())
    } else {
        spill(piece, out)
    }
}

// Writes what was told and is not written yet.
fn spill<O: Write>(piece: &mut Vec<u8>, out: &mut Counting<'_, O>) -> Result<(), WriteFault>
    ensures wrote { Writes (stream (O.contents out.old.stream.now) (O.contents out.new.stream.now)) }
    ensures fine { OnOk result (out.new.failed ≡ out.old.failed) }
    ensures failed { OnErr result (out.new.failed ≡ counted out.old.failed) }
    ensures same_out { out.new.stream.ghost_name ≡ out.old.stream.ghost_name }
{
    write_words(out, piece.as_slice())?;
    piece.clear();
    Ok(())
}
