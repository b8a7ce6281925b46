//! Steps of a stack.

ghost use Rattle.std.specs.Prelude.{◌≡◌, ℕ, ◌+◌, List, [], ◌∷◌, ◌++◌, length, true, false, Some, None, Ok, IfOk, IfErr};
ghost use Rattle.cml_value.specs.Value.{function, values};
ghost use Rattle.cml_check.specs.{Syntax.{PlainItem}, InOrder.{arities}};
ghost use Rattle.cml_step.specs.{Agrees.{value_agrees, function_agrees, event_agrees}, Terms.{Term, call_of, force}, Forced.{group_of}, Steps.{PlainStep}};
ghost use Rattle.cml_step.specs.{Calls.{text_of, entry_of, MovesTo, ActionAgrees}, Machines.{PlainHeld, force as plain_force, plain_held, held_entry}};
ghost use Rattle.cml_step.specs.Shared.{IsNoCall};
ghost use Rattle.cml_step.specs.Stacks.{entry_view, term_of, EntryFits, BeneathFits, EachBeneath, StackFits, IsStep, StepFits, CallFits, WrapsFit, IsDelivered, EntryStands, TopStands};
ghost use Rattle.cml_step.specs.Steps as steps;
ghost use Rattle.cml_group.specs.Force.{AwaitsEvent, unforced, event_of as plain_event_of};

use crate::ask::Ask;
use crate::call::{Action, Call, Wait, call_step, fill};
use crate::entries::Stack;
use crate::entry::{Entry, Wraps, copies};
use crate::fault::{Fault, Stop};
use crate::kind::event_of;
use cml_check::Prog;
use cml_group::{ForceFault, Forcing, Next};
use cml_value::{Event, Group, Tid, Value, ValueKind};
use std::alloc::Global;
use std::mem::replace;

// The most entries of a stack.
pub(crate) const MAX_ENTRIES: usize = 1024;

// The entry on top, if there is room.
#[tactic(auto, using(crate::proofs::StackLemmas::term_pushed, crate::proofs::StackLemmas::term_length, crate::proofs::StackLemmas::fits_pushed))]
fn push(alloc: Global, entry: Entry, below: &mut Stack) -> Result<(), Stop>
    ensures meant { (p : List (PlainItem ℕ)) → IsStep p result Ask.Nothing
        (steps.pushed (entry_view p entry) (term_of p below.old)) below.new }
    ensures fits { (p : List (PlainItem ℕ)) → EntryFits p entry
        → EachBeneath p below.old → StepFits p result Ask.Nothing below.new }
{
    if below.len() >= MAX_ENTRIES {
        return Err(Stop::Fault(Fault::Stack));
    }
    below.push(alloc, entry)?;
    Ok(())
}

// A call of the function with these values, on top.
#[inline(never)]
#[tactic(auto, using(crate::proofs::StackLemmas::begun, crate::proofs::StackLemmas::begun_fits, crate::proofs::StackLemmas::term_pushed, crate::proofs::StackLemmas::term_length, crate::proofs::StackLemmas::fits_pushed))]
fn push_call(
    alloc: Global,
    program: &Prog,
    func: u32,
    args: Vec<Value>,
    below: &mut Stack,
) -> Result<(), Stop>
    requires agrees { let f = function func (values args.items) in
        function_agrees (arities program.now) 0 f ≡ true }
    requires beneath { EachBeneath program.now below.old }
    ensures meant { let f = function func (values args.items) in
        let entry = call_of (text_of program.now) f in
        IsStep program.now result Ask.Nothing
        (steps.pushed entry (term_of program.now below.old)) below.new }
    ensures fits { StepFits program.now result Ask.Nothing below.new }
{
    let call = Call {
        func,
        at: 0,
        slots: args,
        wait: Wait::Runs,
        asked: 0,
    };
    push(alloc, Entry::Call(call), below)
}

// Puts the event that a guard's function returned in the guard's place.
#[inline(never)]
#[tactic(auto, using(crate::proofs::ForceLemmas::replaced_agrees, crate::proofs::AgreeLemmas::event_of_agrees))]
fn deliver_to_force(
    alloc: Global,
    program: &Prog,
    forcing: &mut Forcing,
    asked: &mut bool,
    value: Value,
) -> Result<(), Stop>
    requires fits { event_agrees (arities program.now) forcing.old ≡ true }
    requires awaits { AwaitsEvent forcing.old }
    requires agrees { value_agrees (arities program.now) value ≡ true }
    ensures meant { (below : Term) → IsDelivered result
        (force forcing.new asked.new) below
        (steps.delivered value (force forcing.old asked.old ∷ below)) }
    ensures fits { IfOk result (λ _. event_agrees (arities program.now) forcing.new ≡ true) }
{
    let answer = event_of(&value)?;
    drop(value);
    match forcing.answer_event(alloc, answer) {
        Ok(()) => {
            *asked = false;
            Ok(())
        }
        Err(ForceFault::Deep(back)) => {
            drop(back);
            Err(Stop::Fault(Fault::Deep))
        }
        Err(ForceFault::Memory(back)) => {
            drop(back);
            Err(Stop::Memory)
        }
    }
}

// Gives the value to a call that waits for it.
#[tactic(auto, using(crate::proofs::StackLemmas::filled_fits, crate::proofs::StackLemmas::filled_room))]
pub(crate) fn deliver_to_call(program: &Prog, call: &mut Call, value: Value)
    requires fits { CallFits program.now call.old }
    requires agrees { value_agrees (arities program.now) value ≡ true }
    ensures meant { (below : Term) →
        steps.delivered value (entry_of program.now call.old ∷ below)
        ≡ steps.goes_on (entry_of program.now call.new ∷ below) }
    ensures fits { CallFits program.now call.new }
{
    // No effect: named here so that the prover knows what holds of it.
    let _f = program.function(call.func);
    fill(call, value);
}

// Delivers the value to an entry that waits for it.
#[inline(never)]
fn deliver_to(alloc: Global, program: &Prog, entry: &mut Entry, value: Value) -> Result<(), Stop>
    requires fits { BeneathFits program.now entry.old }
    requires agrees { value_agrees (arities program.now) value ≡ true }
    ensures meant { (below : Term) → IsDelivered result
        (entry_view program.now entry.new) below
        (steps.delivered value (entry_view program.now entry.old ∷ below)) }
    ensures fits { IfOk result (λ _. EntryFits program.now entry.new) }
    ensures no_call { IsNoCall entry.old → IsNoCall entry.new }
{
    match entry {
        Entry::Call(call) => {
            deliver_to_call(program, call, value);
            Ok(())
        }
        Entry::Force(forcing, asked) => deliver_to_force(alloc, program, forcing, asked, value),
        Entry::Wraps(wraps) => {
            wraps.value = value;
            Ok(())
        }
    }
}

// Delivers the value to what waits on top.
fn deliver(
    alloc: Global,
    program: &Prog,
    value: Value,
    stack: &mut Stack,
    asked: &mut Ask,
) -> Result<(), Stop>
    requires agrees { value_agrees (arities program.now) value ≡ true }
    requires beneath { EachBeneath program.now stack.old }
    requires nothing { asked.old ≡ Ask.Nothing }
    ensures meant { IsStep program.now result asked.new
        (steps.delivered value (term_of program.now stack.old)) stack.new }
    ensures fits { StepFits program.now result asked.new stack.new }
{
    if let Some(entry) = &mut stack.over {
        return deliver_to(alloc, program, entry, value);
    }
    if let Some(call) = &mut stack.call {
        deliver_to_call(program, call, value);
        return Ok(());
    }
    drop(value);
    *asked = Ask::End;
    Ok(())
}

// Puts the event on top, to be forced.
#[inline(never)]
fn push_force(alloc: Global, program: &Prog, event: Event, stack: &mut Stack) -> Result<(), Stop>
    requires agrees { event_agrees (arities program.now) event ≡ true }
    requires beneath { EachBeneath program.now stack.old }
    ensures meant { IsStep program.now result Ask.Nothing
        (steps.pushed (force event false) (term_of program.now stack.old)) stack.new }
    ensures fits { StepFits program.now result Ask.Nothing stack.new }
{
    let forcing = Forcing::start(alloc, event)?;
    push(alloc, Entry::Force(forcing, false), stack)
}

// Takes the entry on top off, and delivers the value to what waits beneath.
#[inline(never)]
fn leave(
    alloc: Global,
    program: &Prog,
    value: Value,
    stack: &mut Stack,
    asked: &mut Ask,
) -> Result<(), Stop>
    requires agrees { value_agrees (arities program.now) value ≡ true }
    requires stands { TopStands program.now (Action.Returns value) stack.old }
    requires nothing { asked.old ≡ Ask.Nothing }
    ensures meant { (hs : List PlainHeld) (h : PlainHeld) → stack.old ≡ hs ++ h ∷ [] →
        IsStep program.now result asked.new (steps.delivered value (term_of program.now hs)) stack.new }
    ensures fits { StepFits program.now result asked.new stack.new }
{
    stack.drop_top(alloc)?;
    deliver(alloc, program, value, stack, asked)
}

// Does to the stack what the entry on top did. What that asks, if it does, is put where nothing was asked yet.
fn after(
    alloc: Global,
    program: &Prog,
    did: Action,
    stack: &mut Stack,
    asked: &mut Ask,
) -> Result<(), Stop>
    requires stands { TopStands program.now did stack.old }
    requires did { ActionAgrees (arities program.now) (Ok did) }
    requires nothing { asked.old ≡ Ask.Nothing }
    ensures meant { (hs : List PlainHeld) (h : PlainHeld) (step : PlainStep) →
        stack.old ≡ hs ++ h ∷ []
        → MovesTo program.now (Ok did) (held_entry program.now h) (term_of program.now hs) step
        → IsStep program.now result asked.new step stack.new }
    ensures fits { StepFits program.now result asked.new stack.new }
{
    match did {
        Action::Goes => Ok(()),
        Action::Asks(ask) => {
            *asked = ask;
            Ok(())
        }
        Action::Forces(event) => push_force(alloc, program, event, stack),
        Action::Calls(func, args) => push_call(alloc, program, func, args, stack),
        Action::Returns(value) => leave(alloc, program, value, stack, asked),
        Action::Ends => {
            stack.clear();
            *asked = Ask::End;
            Ok(())
        }
    }
}

// What a call does in its step, if it runs.
#[tactic(auto, using(crate::proofs::StackLemmas::waiting))]
fn step_of_call(alloc: Global, thread: Tid, program: &Prog, call: &mut Call) -> Result<Action, Stop>
    requires fits { CallFits program.now call.old }
    ensures moves { (below : Term) →
        MovesTo program.now result (entry_of program.now call.new) below
        (steps.next (text_of program.now) thread.0
        (entry_of program.now call.old ∷ below)) }
    ensures fits { CallFits program.now call.new }
    ensures did { ActionAgrees (arities program.now) result }
{
    if call.wait != Wait::Runs {
        return Ok(Action::Goes);
    }
    let f = program.function(call.func);
    call_step(alloc, thread, program, f, call)
}

// The group that the event was forced to, of which the event is kept.
#[tactic(auto, using(crate::proofs::ForceLemmas::group_of_event))]
pub(crate) fn group_ready(forcing: &Forcing) -> Result<Group, Stop>
    requires { unforced forcing.now ≡ None }
    ensures group { IfOk result (λ g. g ≡ group_of forcing.now) }
    ensures event { IfOk result (λ g. plain_event_of g ≡ forcing.now) }
    ensures memory { IfErr result (λ e. e ≡ Stop.Memory) }
{
    Ok(forcing.group()?)
}

// What an event that is being forced does in its step, where this many entries are on the stack.
#[inline(never)]
#[tactic(auto, using(crate::proofs::ForceLemmas::guard_agrees))]
fn step_of_force(
    alloc: Global,
    program: &Prog,
    forcing: &Forcing,
    asked: &mut bool,
    entries: usize,
) -> Result<Action, Stop>
    requires fits { event_agrees (arities program.now) forcing.now ≡ true }
    ensures moves { (self : ℕ) (below : Term) → length below + 1 ≡ entries →
        MovesTo program.now result (force forcing.now asked.new) below
        (steps.next (text_of program.now) self (force forcing.now asked.old ∷ below)) }
    ensures stands { IfOk result (λ did. EntryStands program.now did
        (plain_force forcing.now asked.new)) }
    ensures did { ActionAgrees (arities program.now) result }
{
    if *asked {
        return Ok(Action::Goes);
    }
    match forcing.next()? {
        Next::Call(f) => {
            let args = copies(alloc, f.args())?;
            Ok(Action::Calls(f.func(), args))
        }
        Next::NeedNack => {
            if entries >= MAX_ENTRIES {
                return Err(Stop::Fault(Fault::Stack));
            }
            *asked = true;
            Ok(Action::Asks(Ask::Nack))
        }
        Next::Ready => {
            let group = group_ready(forcing)?;
            *asked = true;
            Ok(Action::Asks(Ask::Sync(group)))
        }
    }
}

// What wraps in progress do in their step: the next function is called, with the value that has come so far as its last argument.
#[inline(never)]
#[tactic(auto, using(crate::proofs::StackLemmas::last_next, crate::proofs::StackLemmas::wraps_popped))]
fn step_of_wraps(alloc: Global, program: &Prog, wraps: &mut Wraps) -> Result<Action, Stop>
    requires fits { WrapsFit program.now wraps.old }
    ensures moves { (self : ℕ) (below : Term) →
        MovesTo program.now result (entry_view program.now (Entry.Wraps wraps.new)) below
        (steps.next (text_of program.now) self
        (entry_view program.now (Entry.Wraps wraps.old) ∷ below)) }
    ensures stands { IfOk result (λ _. WrapsFit program.now wraps.new) }
    ensures did { ActionAgrees (arities program.now) result }
{
    match wraps.left.pop() {
        None => {
            let value = replace(&mut wraps.value, Value::new(ValueKind::Unit));
            Ok(Action::Returns(value))
        }
        Some(f) => {
            let mut args = copies(alloc, f.args())?;
            args.push(wraps.value.copy()?)?;
            Ok(Action::Calls(f.func(), args))
        }
    }
}

// What an entry does in its step, where this many entries are on the stack.
#[inline(never)]
fn step_of_entry(
    alloc: Global,
    thread: Tid,
    program: &Prog,
    entry: &mut Entry,
    entries: usize,
) -> Result<Action, Stop>
    requires fits { EntryFits program.now entry.old }
    ensures moves { (below : Term) → length below + 1 ≡ entries →
        MovesTo program.now result (entry_view program.now entry.new) below
        (steps.next (text_of program.now) thread.0
        (entry_view program.now entry.old ∷ below)) }
    ensures stands { IfOk result (λ did. EntryStands program.now did (plain_held entry.new)) }
    ensures did { ActionAgrees (arities program.now) result }
    ensures no_call { IsNoCall entry.old → IsNoCall entry.new }
{
    match entry {
        Entry::Call(call) => step_of_call(alloc, thread, program, call),
        Entry::Force(forcing, asked) => step_of_force(alloc, program, forcing, asked, entries),
        Entry::Wraps(wraps) => step_of_wraps(alloc, program, wraps),
    }
}

// Nothing is on the stack: the thread has ended.
fn ended(asked: &mut Ask) -> Result<(), Stop>
    ensures end { asked.new ≡ Ask.End }
    ensures ok { result ≡ Ok tt }
{
    *asked = Ask::End;
    Ok(())
}

/// One step of a thread. The entry on top takes it where it stands. What it asks, if it does, is put where nothing was asked yet.
pub(crate) fn step(
    alloc: Global,
    thread: Tid,
    program: &Prog,
    stack: &mut Stack,
    asked: &mut Ask,
) -> Result<(), Stop>
    requires fits { StackFits program.now stack.old }
    requires nothing { asked.old ≡ Ask.Nothing }
    ensures meant { IsStep program.now result asked.new
        (steps.next (text_of program.now) thread.0 (term_of program.now stack.old))
        stack.new }
    ensures fits { StepFits program.now result asked.new stack.new }
{
    let entries = stack.len();
    match &mut stack.over {
        Some(entry) => {
            let did = step_of_entry(alloc, thread, program, entry, entries)?;
            after(alloc, program, did, stack, asked)
        }
        None => match &mut stack.call {
            Some(call) => {
                let did = step_of_call(alloc, thread, program, call)?;
                after(alloc, program, did, stack, asked)
            }
            None => ended(asked),
        },
    }
}
