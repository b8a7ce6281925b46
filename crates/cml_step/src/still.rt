//! The first steps of a slice, as long as they stay in the call on top: what they change is noted, so nothing is copied.

ghost use Rattle.std.specs.Prelude.{◌≡◌, ◌<◌, ◌≤◌, ℕ, List, [], ◌∷◌, ◌++◌, true, false, None, OnErr, IfOk, IfSome, length};
ghost use Rattle.cml_check.specs.{Syntax.{PlainItem}, InOrder.{arities}};
ghost use Rattle.cml_step.specs.{Agrees.{ask_agrees}, AskViews.{plain_ask}, Begins.{RunsStill, BeginsSlice}, Calls.{text_of}};
ghost use Rattle.cml_step.specs.{Machines.{PlainHeld, wraps as plain_wraps}, Shared.{topped, HasNoCall}, Slices.{GoesIn}};
ghost use Rattle.cml_step.specs.{Stacks.{StackFits, term_of}, Steps.{next, asks}};
ghost use Rattle.cml_step.specs.Undone.{stood, stack_before, wrapped, HasHead, HasSlotsOf, HasNotes, IsNotedStack};

use crate::ask::Ask;
use crate::asking::ask_step;
use crate::call::Call;
use crate::entries::{Frames, Stack};
use crate::entry::{Entry, Wraps};
use crate::journal::Journal;
use crate::plain::{deliver_noted, plain_run};
use crate::stack::MAX_ENTRIES;
use crate::steps::{MAX_STEPS, are_done};
use crate::sync::{asks_group, at_sync, sync_step};
use cml_check::Prog;
use cml_group::Forced;
use cml_value::Value;
use std::alloc::{AllocError, Global};

// The value of wraps of which no function is left.
#[inline(always)]
fn value_over(over: &Option<Entry>) -> Option<&Value>
    ensures { IfSome result (λ v. (hs : List PlainHeld) →
        topped hs over.now ≡ hs ++ plain_wraps [] v.now ∷ []) }
{
    if !are_done(over) {
        return None;
    }
    match over {
        Some(Entry::Wraps(wraps)) => Some(&wraps.value),
        _ => None,
    }
}

// The wraps that stand there, taken away.
fn taken(over: &mut Option<Entry>) -> Option<Wraps>
    requires { (w : Wraps) × (over.old ≡ Some (Entry.Wraps w)) }
    ensures wraps { wrapped result ≡ over.old }
    ensures none { over.new ≡ None }
{
    match over.take() {
        Some(Entry::Wraps(wraps)) => Some(wraps),
        // Wraps stand there.
        other => {
            drop(other);
            None
        }
    }
}

// Where wraps of which no function is left stand over the call, their value is delivered to it, and the journal has them. Returns
// how many steps that was; where another entry stands over the call nothing has changed.
fn deliver_over(
    program: &Prog,
    below: &Frames,
    over: &mut Option<Entry>,
    call: &mut Call,
    journal: &mut Journal,
) -> Option<u32>
    requires fits { StackFits program.now (stood below.now call.old over.old) }
    requires head { HasHead journal.old call.old }
    requires empty { journal.old.sets.items ≡ [] }
    ensures fits { IfSome result (λ _. StackFits program.now (stood below.now call.new over.new)) }
    ensures none { IfSome result (λ _. over.new ≡ None) }
    ensures goes { IfSome result (λ n. (n ≤ 1) × ((self : ℕ) → GoesIn (text_of program.now) self n
        (term_of program.now (stood below.now call.old over.old))
        (term_of program.now (stood below.now call.new over.new)))) }
    ensures head { IfSome result (λ _. HasHead journal.new call.old
        × (wrapped journal.new.over ≡ over.old)) }
    ensures noted { IfSome result (λ _. HasNotes [] call.old journal.new.sets.items call.new) }
    ensures stays { result ≡ None → (call.new ≡ call.old) × (over.new ≡ over.old) }
{
    let value = value_over(over)?;
    if !deliver_noted(program, call, value, &mut journal.sets) {
        return None;
    }
    journal.over = taken(over);
    Some(1)
}

// The same, where the journal begins with the call, and maybe nothing stands over that.
fn begin_noted(
    program: &Prog,
    below: &Frames,
    over: &mut Option<Entry>,
    call: &mut Call,
    journal: &mut Journal,
) -> Option<u32>
    requires { StackFits program.now (stood below.now call.old over.old) }
    ensures fits { IfSome result (λ _. StackFits program.now (stood below.now call.new over.new)) }
    ensures none { IfSome result (λ _. over.new ≡ None) }
    ensures goes { IfSome result (λ n. (n ≤ 1) × ((self : ℕ) → GoesIn (text_of program.now) self n
        (term_of program.now (stood below.now call.old over.old))
        (term_of program.now (stood below.now call.new over.new)))) }
    ensures head { IfSome result (λ _. HasHead journal.new call.old
        × (wrapped journal.new.over ≡ over.old)) }
    ensures noted { IfSome result (λ _. HasNotes [] call.old journal.new.sets.items call.new) }
    ensures stays { result ≡ None → (call.new ≡ call.old) × (over.new ≡ over.old) }
{
    journal.begin(call);
    if over.is_some() {
        return deliver_over(program, below, over, call, journal);
    }
    Some(0)
}

// Where the call is at a synchronization on an event that can be found without a value made of it, the event is put over it. Returns how
// many steps that was.
#[tactic(auto, using(crate::proofs::UndoLemmas::same_had))]
fn put_over(
    alloc: Global,
    program: &Prog,
    below: &Frames,
    over: &mut Option<Entry>,
    call: &mut Call,
    forced: &mut Forced,
) -> u32
    requires none { over.old ≡ None }
    requires fits { StackFits program.now (stood below.now call.old over.old) }
    ensures fits { StackFits program.now (stood below.now call.new over.new) }
    ensures within { result ≤ 1 }
    ensures goes { (self : ℕ) → GoesIn (text_of program.now) self result
        (term_of program.now (stood below.now call.old over.old))
        (term_of program.now (stood below.now call.new over.new)) }
    ensures had { HasSlotsOf call.old call.new }
    ensures no_call { HasNoCall over.new }
{
    if below.len() >= MAX_ENTRIES - 1 {
        return 0;
    }
    if !at_sync(program, call) {
        return 0;
    }
    if sync_step(alloc, program, call, over, forced) {
        return 1;
    }
    0
}

// Takes the first steps, at most this many, as long as they stay in the call on top of these entries, and the journal has what they change.
// Returns how many they were; where another entry than wraps that are done stands over the call nothing has changed.
fn still_steps(
    alloc: Global,
    program: &Prog,
    below: &Frames,
    over: &mut Option<Entry>,
    call: &mut Call,
    journal: &mut Journal,
    most: u32,
) -> Option<u32>
    requires fits { StackFits program.now (stood below.now call.old over.old) }
    requires some { 0 < most }
    ensures fits { IfSome result (λ _. StackFits program.now (stood below.now call.new over.new)) }
    ensures within { IfSome result (λ n. n ≤ most) }
    ensures goes { IfSome result (λ n. (self : ℕ) → GoesIn (text_of program.now) self n
        (term_of program.now (stood below.now call.old over.old))
        (term_of program.now (stood below.now call.new over.new))) }
    ensures undone { IfSome result (λ _. stack_before below.now journal.new call.new
        ≡ stood below.now call.old over.old) }
    ensures no_call { HasNoCall over.old → HasNoCall over.new }
    ensures stays { result ≡ None → (call.new ≡ call.old) × (over.new ≡ over.old) }
{
    let first = begin_noted(program, below, over, call, journal)?;
    let set = plain_run(alloc, program, call, &mut journal.sets, true, most - first);
    let done = first + set;
    if done == most {
        return Some(done);
    }
    let put = put_over(alloc, program, below, over, call, &mut journal.forced);
    Some(done + put)
}

// Whether the event over a call has nothing left to be forced, and its group was not asked for yet, and is now. Else nothing has changed.
#[inline(always)]
fn asks_over(over: &mut Option<Entry>, asked: &mut Ask) -> bool
    ensures asks { result ≡ true → (p : List (PlainItem ℕ)) (self : ℕ) (hs : List PlainHeld) →
        next (text_of p) self (term_of p (topped hs over.old))
        ≡ asks (plain_ask asked.new) (term_of p (topped hs over.new)) }
    ensures fits { result ≡ true → (p : List (PlainItem ℕ)) (hs : List PlainHeld) →
        StackFits p (topped hs over.old)
        → StackFits p (topped hs over.new) × (ask_agrees (arities p) (plain_ask asked.new) ≡ true) }
    ensures no_call { HasNoCall over.old → HasNoCall over.new }
    ensures something { result ≡ true → asked.new ≡ Ask.Nothing → ⊥ }
    ensures stays { result ≡ false → (over.new ≡ over.old) × (asked.new ≡ asked.old) }
{
    if let Some(entry) = over {
        if let Entry::Force(forcing, waits) = entry {
            return asks_group(forcing, waits, asked);
        }
    }
    false
}

// Whether nothing stands over the call, which asks something where it stands. Else nothing has changed.
#[inline(always)]
fn asks_call(
    program: &Prog,
    below: &Frames,
    over: &Option<Entry>,
    call: &mut Call,
    asked: &mut Ask,
) -> bool
    requires { StackFits program.now (stood below.now call.old over.now) }
    ensures asks { result ≡ true → (self : ℕ) →
        next (text_of program.now) self (term_of program.now (stood below.now call.old over.now))
        ≡ asks (plain_ask asked.new) (term_of program.now (stood below.now call.new over.now)) }
    ensures fits { result ≡ true → StackFits program.now (stood below.now call.new over.now) }
    ensures agrees { result ≡ true → ask_agrees (arities program.now) (plain_ask asked.new) ≡ true }
    ensures something { result ≡ true → asked.new ≡ Ask.Nothing → ⊥ }
    ensures kept { (call.new.func ≡ call.old.func) × (call.new.slots ≡ call.old.slots) }
    ensures stays { result ≡ false → (call.new ≡ call.old) × (asked.new ≡ asked.old) }
{
    if over.is_some() {
        return false;
    }
    ask_step(program, call, asked)
}

/// Steps that were taken: so many, of which the last asks; or so many that go on.
#[derive(Clone, Copy)]
pub(crate) enum Begun {
    Asks(u32),
    Goes(u32),
}

// Whether something stands there that is not done.
#[inline(always)]
fn is_forced(over: &Option<Entry>) -> bool {
    over.is_some() && !are_done(over)
}

/// Takes the first steps of a stack, at most this many, as long as they stay in the call on top, up to the first that asks. The journal has
/// what they change. Where none is taken so nothing may have changed.
#[inline(never)]
pub(crate) fn still(
    alloc: Global,
    program: &Prog,
    stack: &mut Stack,
    journal: &mut Journal,
    most: u32,
    asked: &mut Ask,
) -> Option<Begun>
    requires fits { StackFits program.now stack.old }
    requires nothing { asked.old ≡ Ask.Nothing }
    requires some { 0 < most }
    ensures begun { IfSome result (λ b.
        RunsStill program.now most b journal.new asked.new stack.old stack.new) }
    ensures stays { result ≡ None → (stack.new ≡ stack.old) × (asked.new ≡ asked.old) }
{
    if is_forced(&stack.over) {
        return None;
    }
    let Some(call) = &mut stack.call else {
        return None;
    };
    let Some(done) = still_steps(
        alloc,
        program,
        &stack.below,
        &mut stack.over,
        call,
        journal,
        most,
    ) else {
        return None;
    };
    if done == most {
        return Some(Begun::Goes(done));
    }
    if asks_over(&mut stack.over, asked) {
        return Some(Begun::Asks(done + 1));
    }
    if asks_call(program, &stack.below, &stack.over, call, asked) {
        return Some(Begun::Asks(done + 1));
    }
    Some(Begun::Goes(done))
}

// Makes the spare what the stack was before what the journal has of it. Where memory runs out the journal is as it was.
fn copy_noted(
    alloc: Global,
    stack: &Stack,
    spare: &mut Stack,
    journal: &mut Journal,
) -> Result<(), AllocError>
    ensures ok { (before : List PlainHeld) → IsNotedStack journal.old stack.now before
        → IfOk result (λ _. spare.new ≡ before) }
    ensures err { OnErr result (journal.new ≡ journal.old) }
{
    match &stack.call {
        Some(call) => spare.copy_before(alloc, call, &stack.below, journal),
        // The journal has what the call on top was, so that is there.
        None => Err(AllocError),
    }
}

// Makes the spare a copy of the stack, of which no step was taken.
fn copy_whole(alloc: Global, stack: &Stack, spare: &mut Stack) -> Result<Begun, AllocError>
    ensures { IfOk result (λ b. (b ≡ Begun.Goes 0) × (spare.new ≡ stack.now)) }
{
    spare.copy_from(alloc, stack)?;
    Ok(Begun::Goes(0))
}

/// Takes the first steps of a slice. Where they come to an ask in the call on top, the journal has what they changed; else the spare becomes
/// a copy of the stack as it was.
///
/// # Errors
/// Out of memory; the stack is as it was.
pub(crate) fn begin_slice(
    alloc: Global,
    program: &Prog,
    stack: &mut Stack,
    spare: &mut Stack,
    journal: &mut Journal,
    asked: &mut Ask,
) -> Result<Begun, AllocError>
    requires fits { StackFits program.now stack.old }
    requires nothing { asked.old ≡ Ask.Nothing }
    ensures begins { IfOk result (λ b.
        BeginsSlice program.now b journal.new asked.new stack.old stack.new spare.new) }
    ensures err { OnErr result ((stack.new ≡ stack.old) × (asked.new ≡ Ask.Nothing)) }
{
    match still(alloc, program, stack, journal, MAX_STEPS, asked) {
        Some(begun) => match begun {
            Begun::Asks(steps) => Ok(Begun::Asks(steps)),
            Begun::Goes(done) => match copy_noted(alloc, stack, spare, journal) {
                Ok(()) => Ok(Begun::Goes(done)),
                Err(error) => {
                    undo_noted(stack, journal);
                    Err(error)
                }
            },
        },
        None => copy_whole(alloc, stack, spare),
    }
}

/// Undoes what the journal has of the call on top. It takes no memory.
pub(crate) fn undo_noted(stack: &mut Stack, journal: &mut Journal)
    ensures { (before : List PlainHeld) → IsNotedStack journal.old stack.old before
        → stack.new ≡ before }
{
    match &mut stack.call {
        Some(call) => journal.put_back(&mut stack.over, call),
        // The journal has what the call on top was, so that is there.
        None => {}
    }
}
