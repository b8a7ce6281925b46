//! Slices of a thread's steps.

ghost use Rattle.std.specs.Prelude.{◌≡◌, ◌<◌, ◌≤◌, ℕ, List, [], true, false, Some, IfOk, OnOk};
ghost use Rattle.cml_check.specs.{Syntax.{PlainItem}, InOrder.{arities}};
ghost use Rattle.cml_step.specs.{AskViews.{plain_ask}, Agrees.{ask_agrees}, Begins.{Advances}, Steps.{next, asks}, Slices.{sliced_from, GoesIn}, Calls.{text_of}};
ghost use Rattle.cml_step.specs.{Callers.{calls_on, AllCallsFit}};
ghost use Rattle.cml_step.specs.Stacks.{term_of, EachBeneath, StackFits};
ghost use Rattle.cml_step.specs.declared.entry.Wraps.{Wraps};

use crate::ask::Ask;
use crate::call::Call;
use crate::entries::{Frames, Stack};
use crate::entry::Entry;
use crate::fault::{Fault, Stop};
use crate::journal::{Journal, Noted};
use crate::quick::{quick_run, room_above};
use crate::stack::step;
use crate::still::{Begun, still};
use cml_check::Prog;
use cml_value::Tid;
use std::alloc::{AllocError, Global};
use std::mem::replace;

/// The most steps of a slice.
pub const MAX_STEPS: u32 = 1000;

// One step, where a fault is an ask of a thread that has ended.
fn step_or_fault(
    alloc: Global,
    thread: Tid,
    program: &Prog,
    stack: &mut Stack,
    asked: &mut Ask,
) -> Result<(), AllocError>
    requires fits { StackFits program.now stack.old }
    requires nothing { asked.old ≡ Ask.Nothing }
    ensures meant { OnOk result (
        next (text_of program.now) thread.0 (term_of program.now stack.old)
        ≡ asks (plain_ask asked.new) (term_of program.now stack.new)) }
    ensures fits { OnOk result (StackFits program.now stack.new) }
    ensures agrees { OnOk result (ask_agrees (arities program.now) (plain_ask asked.new) ≡ true) }
{
    match step(alloc, thread, program, stack, asked) {
        Ok(()) => Ok(()),
        Err(Stop::Memory) => Err(AllocError),
        Err(Stop::Fault(fault)) => {
            failed(fault, stack, asked);
            Ok(())
        }
    }
}

// The fault ends the thread: nothing is on its stack.
#[inline(never)]
fn failed(fault: Fault, stack: &mut Stack, asked: &mut Ask)
    ensures ask { asked.new ≡ Ask.Fault fault }
    ensures stack { stack.new ≡ [] }
{
    stack.clear();
    *asked = Ask::Fault(fault);
}

// Whether nothing is asked.
fn asks_nothing(ask: &Ask) -> bool
    ensures nothing { result ≡ true → ask.now ≡ Ask.Nothing }
    ensures something { result ≡ false → ask.now ≡ Ask.Nothing → ⊥ }
{
    matches!(ask, Ask::Nothing)
}

// Puts these calls, of which the last is the top one, among the entries below.
fn lay_down(alloc: Global, calls: Vec<Call>, below: &mut Frames) -> Result<(), AllocError>
    ensures term { IfOk result (λ _. (p : List (PlainItem ℕ)) →
        term_of p below.new ≡ calls_on p calls.items (term_of p below.old)) }
    ensures fits { IfOk result (λ _. (p : List (PlainItem ℕ)) → EachBeneath p below.old
        → AllCallsFit p calls.items → EachBeneath p below.new) }
{
    let mut left = calls;
    left.reverse();
    while let Some(call) = left.pop() {
        let all = replace(below, Frames::new());
        let more = all.with(alloc, Entry::Call(call))?;
        *below = more;
    }
    Ok(())
}

// Takes the first steps of a stack that only set variables, choose places, make calls and return from those, at most this many, where
// the call on top stands. Returns how many they were.
fn quick_steps(
    alloc: Global,
    program: &Prog,
    stack: &mut Stack,
    sets: &mut Vec<Noted>,
    most: u32,
) -> Result<u32, AllocError>
    requires { StackFits program.now stack.old }
    ensures fits { IfOk result (λ _. StackFits program.now stack.new) }
    ensures within { IfOk result (λ n. n ≤ most) }
    ensures goes { IfOk result (λ n. (self : ℕ) → GoesIn (text_of program.now) self n
        (term_of program.now stack.old) (term_of program.now stack.new)) }
{
    if stack.over.is_some() {
        return Ok(0);
    }
    let beneath = stack.below.len();
    if let Some(call) = &mut stack.call {
        let mut callers = Vec::new(alloc);
        let room = room_above(beneath);
        let done = quick_run(alloc, program, call, &mut callers, sets, room, most);
        lay_down(alloc, callers, &mut stack.below)?;
        return Ok(done);
    }
    Ok(0)
}

/// Whether these are wraps of which no function is left.
pub(crate) fn are_done(over: &Option<Entry>) -> bool
    ensures { result ≡ true → (w : Wraps) → over.now ≡ Some (Entry.Wraps w)
        → w.left.items ≡ [] }
{
    match over {
        Some(Entry::Wraps(wraps)) => {
            let count = wraps.left.as_slice().len();
            count == 0
        }
        _ => false,
    }
}

// One step. Returns that it was one.
fn one_step(
    alloc: Global,
    thread: Tid,
    program: &Prog,
    stack: &mut Stack,
    most: u32,
    asked: &mut Ask,
) -> Result<u32, AllocError>
    requires fits { StackFits program.now stack.old }
    requires nothing { asked.old ≡ Ask.Nothing }
    requires some { 0 < most }
    ensures meant { IfOk result (λ n. Advances (text_of program.now) thread.0 most n asked.new
        (term_of program.now stack.old) (term_of program.now stack.new)) }
    ensures fits { OnOk result (StackFits program.now stack.new) }
    ensures agrees { OnOk result (ask_agrees (arities program.now) (plain_ask asked.new) ≡ true) }
{
    step_or_fault(alloc, thread, program, stack, asked)?;
    Ok(1)
}

// Takes the next steps, at least one and at most this many: those that stay in the call on top, or else one step. Returns how many they were.
fn go_on(
    alloc: Global,
    thread: Tid,
    program: &Prog,
    stack: &mut Stack,
    journal: &mut Journal,
    most: u32,
    asked: &mut Ask,
) -> Result<u32, AllocError>
    requires fits { StackFits program.now stack.old }
    requires nothing { asked.old ≡ Ask.Nothing }
    requires some { 0 < most }
    ensures meant { IfOk result (λ n. Advances (text_of program.now) thread.0 most n asked.new
        (term_of program.now stack.old) (term_of program.now stack.new)) }
    ensures fits { OnOk result (StackFits program.now stack.new) }
    ensures agrees { OnOk result (ask_agrees (arities program.now) (plain_ask asked.new) ≡ true) }
{
    match still(alloc, program, stack, journal, most, asked) {
        Some(begun) => match begun {
            Begun::Asks(steps) => Ok(steps),
            Begun::Goes(steps) => {
                if steps == 0 {
                    return one_step(alloc, thread, program, stack, most, asked);
                }
                Ok(steps)
            }
        },
        None => one_step(alloc, thread, program, stack, most, asked),
    }
}

// Takes at most this many steps of the thread, up to the first that asks, ends or is at fault. Returns how many steps there were. What it
// asks is put where nothing was asked yet. What the journal has afterwards does not matter.
#[tactic(auto, using(crate::proofs::SliceLemmas::slice_over))]
fn run_noting(
    alloc: Global,
    thread: Tid,
    program: &Prog,
    stack: &mut Stack,
    journal: &mut Journal,
    most: u32,
    asked: &mut Ask,
) -> Result<u32, AllocError>
    requires fits { StackFits program.now stack.old }
    requires nothing { asked.old ≡ Ask.Nothing }
    ensures meant { IfOk result (λ steps.
        sliced_from (text_of program.now) thread.0 most 0 (term_of program.now stack.old)
        ≡ record {
          ask = plain_ask asked.new;
          end = term_of program.now stack.new;
          steps = steps;
        }) }
    ensures fits { OnOk result (StackFits program.now stack.new) }
    ensures agrees { OnOk result (ask_agrees (arities program.now) (plain_ask asked.new) ≡ true) }
{
    let mut done = 0u32;
    while done < most {
        let quick = quick_steps(alloc, program, stack, &mut journal.sets, most - done)?;
        done += quick;
        if done == most {
            return Ok(done);
        }
        let more = go_on(alloc, thread, program, stack, journal, most - done, asked)?;
        done += more;
        if !asks_nothing(asked) {
            return Ok(done);
        }
    }
    Ok(done)
}

/// Takes at most this many steps of the thread, up to the first that asks, ends or is at fault. Returns how many steps there were. What it
/// asks is put where nothing was asked yet.
pub(crate) fn run(
    alloc: Global,
    thread: Tid,
    program: &Prog,
    stack: &mut Stack,
    most: u32,
    asked: &mut Ask,
) -> Result<u32, AllocError>
    requires fits { StackFits program.now stack.old }
    requires nothing { asked.old ≡ Ask.Nothing }
    ensures meant { IfOk result (λ steps.
        sliced_from (text_of program.now) thread.0 most 0 (term_of program.now stack.old)
        ≡ record {
          ask = plain_ask asked.new;
          end = term_of program.now stack.new;
          steps = steps;
        }) }
    ensures fits { OnOk result (StackFits program.now stack.new) }
    ensures agrees { OnOk result (ask_agrees (arities program.now) (plain_ask asked.new) ≡ true) }
{
    let mut journal = Journal::new(alloc);
    run_noting(alloc, thread, program, stack, &mut journal, most, asked)
}
