//! Runs of steps that only set variables, choose places, make calls and return from those: what a slice takes first.

ghost use Rattle.std.specs.Prelude.{◌≡◌, ◌<◌, ◌≤◌, ℕ, ◌∷◌, length, true, false, Some, slice_get, IfOk};
ghost use Rattle.cml_check.specs.Syntax.{PlainStmts, Name, return_with, effect, call as plain_call, name_at, expr_map, exprs_map};
ghost use Rattle.cml_check.specs.{InOrder.{FunctionFits, arities, expr_fits, exprs_fit, exprs_count}, Heads.{takes}, Layout.{left}};
ghost use Rattle.cml_check.specs.{Follows.{Follows, instr_fits}, InstrViews.{plain_instr}};
ghost use Rattle.cml_step.specs.{Agrees.{value_agrees, all_agree}, Variables.{bound}, Terms.{Term}};
ghost use Rattle.cml_step.specs.{Calls.{entry_of, call_at, text_of, variables_of, statements_at, WaitFits}, Callers.{calls_on, AllCallsFit, HasRoomAbove}};
ghost use Rattle.cml_step.specs.{Steps.{goes_on, delivered, is_below_limit}, Slices.{GoesIn}, Stacks.{CallFits}};
ghost use Rattle.cml_step.specs.Steps as steps;

use crate::call::{Call, Wait, number_value_in, pad, value_in, values_in};
use crate::fault::Stop;
use crate::journal::Noted;
use crate::plain::plain_run;
use crate::stack::{MAX_ENTRIES, deliver_to_call};
use cml_check::{Effect, Expr, Exprs, Function, Instr, Prog, Source};
use cml_value::{Value, ValueKind};
use std::alloc::Global;
use std::mem::replace;

// A list for the values of a call: one of a call that has returned, if there is one.
fn taken(alloc: Global, idle: &mut Vec<Vec<Value>>) -> Vec<Value> {
    match idle.pop() {
        Some(list) => list,
        None => Vec::new(alloc),
    }
}

// Keeps the list of a call that has returned, without its values.
fn kept(call: Call, idle: &mut Vec<Vec<Value>>) {
    let Call {
        func: _,
        at: _,
        slots,
        wait: _,
        asked: _,
    } = call;
    let mut list = slots;
    list.clear();
    if let Err(back) = idle.push(list) {
        drop(back);
    }
}

// A call of this function at its beginning. The values of its arguments are put into `list`, in place of what that has.
#[tactic(auto, using(crate::proofs::QuickLemmas::call_made, crate::proofs::QuickLemmas::made_fits))]
fn begun(
    alloc: Global,
    program: &Prog,
    f: &Function,
    func: u32,
    es: &Exprs,
    slots: &[Value],
    list: Vec<Value>,
) -> Result<Call, Stop>
    requires fits { exprs_fit (arities program.now) (length f.now.names) es.now ≡ true }
    requires takes { takes (arities program.now) func (exprs_count es.now) ≡ true }
    requires distinct { FunctionFits (arities program.now) f.now }
    requires agree { all_agree (arities program.now) slots.now ≡ true }
    ensures made { (self : ℕ) (below : Term) → is_below_limit below ≡ true → IfOk result (λ new.
        steps.effect_step (text_of program.now) self (bound f.now.names slots.now)
        (plain_call func (exprs_map (name_at f.now.names) es.now)) below
        ≡ goes_on (entry_of program.now new ∷ below)) }
    ensures fits { IfOk result (λ new. CallFits program.now new) }
{
    let slots = values_in(alloc, program, f, slots, es, list)?;
    Ok(Call {
        func,
        at: 0,
        slots,
        wait: Wait::Runs,
        asked: 0,
    })
}

// A call of another function is made, for which this one waits; then it goes on at `next`. Where it is not made nothing has changed.
fn entered(
    alloc: Global,
    program: &Prog,
    f: &Function,
    func: u32,
    es: &Exprs,
    wait: Wait,
    next: usize,
    call: &mut Call,
    callers: &mut Vec<Call>,
    idle: &mut Vec<Vec<Value>>,
    room: usize,
) -> bool
    requires fits { exprs_fit (arities program.now) (length f.now.names) es.now ≡ true }
    requires takes { takes (arities program.now) func (exprs_count es.now) ≡ true }
    requires function { (FunctionFits (arities program.now) f.now)
        × (slice_get program.now call.old.func ≡ Some f.now) }
    requires call { (CallFits program.now call.old) × (call.old.wait ≡ Wait.Runs) }
    requires waits { WaitFits wait (length f.now.names) (length call.old.slots.items) }
    requires callers { AllCallsFit program.now callers.old.items }
    ensures goes { result ≡ true → (self : ℕ) (below : Term) → HasRoomAbove room below →
        let waiting = call_at f.now next call.old.slots.items wait in
        let effect = plain_call func (exprs_map (name_at f.now.names) es.now) in
        steps.effect_step (text_of program.now) self (variables_of f.now call.old) effect
        (waiting ∷ calls_on program.now callers.old.items below)
        ≡ goes_on (entry_of program.now call.new
        ∷ calls_on program.now callers.new.items below) }
    ensures stays { result ≡ false → (call.new ≡ call.old)
        × (callers.new.items ≡ callers.old.items) }
    ensures fits { CallFits program.now call.new }
    ensures callers { AllCallsFit program.now callers.new.items }
{
    let count = callers.as_slice().len();
    if count >= room {
        return false;
    }
    let Ok(()) = callers.reserve(1) else {
        return false;
    };
    let list = taken(alloc, idle);
    let Ok(new) = begun(alloc, program, f, func, es, call.slots.as_slice(), list) else {
        return false;
    };
    call.asked = call.at;
    call.at = next;
    call.wait = wait;
    let waiting = replace(call, new);
    callers.push_reserved(waiting);
    true
}

// The value is returned to the last of the callers, if there is one. Else nothing has changed.
fn returned(
    program: &Prog,
    value: Value,
    call: &mut Call,
    callers: &mut Vec<Call>,
    idle: &mut Vec<Vec<Value>>,
) -> bool
    requires agrees { value_agrees (arities program.now) value ≡ true }
    requires call { CallFits program.now call.old }
    requires callers { AllCallsFit program.now callers.old.items }
    ensures goes { result ≡ true → (below : Term) →
        delivered value (calls_on program.now callers.old.items below)
        ≡ goes_on (entry_of program.now call.new
        ∷ calls_on program.now callers.new.items below) }
    ensures stays { result ≡ false → (call.new ≡ call.old)
        × (callers.new.items ≡ callers.old.items) }
    ensures fits { CallFits program.now call.new }
    ensures callers { AllCallsFit program.now callers.new.items }
{
    match callers.pop() {
        Some(mut caller) => {
            deliver_to_call(program, &mut caller, value);
            let callee = replace(call, caller);
            kept(callee, idle);
            true
        }
        None => {
            drop(value);
            false
        }
    }
}

// The call returns the value of an expression to the last of the callers, if there is one. Where it does not nothing has changed.
fn gave_back(
    alloc: Global,
    program: &Prog,
    f: &Function,
    e: &Expr,
    call: &mut Call,
    callers: &mut Vec<Call>,
    idle: &mut Vec<Vec<Value>>,
) -> bool
    requires fits { expr_fits (arities program.now) (length f.now.names) e.now ≡ true }
    requires function { FunctionFits (arities program.now) f.now }
    requires call { CallFits program.now call.old }
    requires callers { AllCallsFit program.now callers.old.items }
    ensures goes { result ≡ true → (self : ℕ) (left : PlainStmts Name) (below : Term) →
        let statement = return_with (expr_map (name_at f.now.names) e.now) in
        steps.statement_step (text_of program.now) self statement left
        (variables_of f.now call.old) (calls_on program.now callers.old.items below)
        ≡ goes_on (entry_of program.now call.new
        ∷ calls_on program.now callers.new.items below) }
    ensures stays { result ≡ false → (call.new ≡ call.old)
        × (callers.new.items ≡ callers.old.items) }
    ensures fits { CallFits program.now call.new }
    ensures callers { AllCallsFit program.now callers.new.items }
{
    if callers.is_empty() {
        return false;
    }
    if let Some(value) = number_value_in(program, f, call.slots.as_slice(), e) {
        return returned(program, value, call, callers, idle);
    }
    match value_in(alloc, program, f, call.slots.as_slice(), e) {
        Ok(value) => returned(program, value, call, callers, idle),
        Err(_) => false,
    }
}

// The same of a call whose value a slot is given. Where it is not made nothing has changed but that slots may have been added.
fn let_call(
    alloc: Global,
    program: &Prog,
    f: &Function,
    slot: usize,
    func: u32,
    es: &Exprs,
    next: usize,
    call: &mut Call,
    callers: &mut Vec<Call>,
    idle: &mut Vec<Vec<Value>>,
    room: usize,
) -> bool
    requires slot { slot < length f.now.names }
    requires fits { exprs_fit (arities program.now) (length f.now.names) es.now ≡ true }
    requires takes { takes (arities program.now) func (exprs_count es.now) ≡ true }
    requires function { (FunctionFits (arities program.now) f.now)
        × (slice_get program.now call.old.func ≡ Some f.now) }
    requires call { (CallFits program.now call.old) × (call.old.wait ≡ Wait.Runs) }
    requires callers { AllCallsFit program.now callers.old.items }
    ensures goes { result ≡ true → (self : ℕ) (below : Term) → HasRoomAbove room below →
        let source = effect (plain_call func (exprs_map (name_at f.now.names) es.now)) in
        steps.source_step (text_of program.now) self (name_at f.now.names slot) source
        (statements_at f.now next) (variables_of f.now call.old)
        (calls_on program.now callers.old.items below)
        ≡ goes_on (entry_of program.now call.new
        ∷ calls_on program.now callers.new.items below) }
    ensures stays { result ≡ false → (entry_of program.now call.new
        ≡ entry_of program.now call.old) × (callers.new.items ≡ callers.old.items) }
    ensures fits { CallFits program.now call.new }
    ensures callers { AllCallsFit program.now callers.new.items }
{
    let Ok(()) = pad(&mut call.slots, slot) else {
        return false;
    };
    let wait = Wait::Gives(slot);
    entered(
        alloc, program, f, func, es, wait, next, call, callers, idle, room,
    )
}

// Whether the instruction makes a call, or returns to one of the callers, and was done. Else nothing has changed but that slots may have
// been added.
fn cross(
    alloc: Global,
    program: &Prog,
    f: &Function,
    instr: &Instr,
    call: &mut Call,
    callers: &mut Vec<Call>,
    idle: &mut Vec<Vec<Value>>,
    room: usize,
) -> bool
    requires here { let left_at = left f.now.body in
        Follows left_at (plain_instr instr.now) (left_at call.old.at) }
    requires fits { let slots = length f.now.names in
        instr_fits (arities program.now) slots (plain_instr instr.now) ≡ true }
    requires function { (FunctionFits (arities program.now) f.now)
        × (slice_get program.now call.old.func ≡ Some f.now) }
    requires call { (CallFits program.now call.old) × (call.old.wait ≡ Wait.Runs) }
    requires callers { AllCallsFit program.now callers.old.items }
    ensures goes { result ≡ true → (self : ℕ) (below : Term) → HasRoomAbove room below →
        let here = statements_at f.now call.old.at in
        let variables = variables_of f.now call.old in
        steps.call_step (text_of program.now) self here variables
        (calls_on program.now callers.old.items below)
        ≡ goes_on (entry_of program.now call.new
        ∷ calls_on program.now callers.new.items below) }
    ensures stays { result ≡ false → (entry_of program.now call.new
        ≡ entry_of program.now call.old) × (callers.new.items ≡ callers.old.items) }
    ensures fits { CallFits program.now call.new }
    ensures callers { AllCallsFit program.now callers.new.items }
{
    match instr {
        Instr::Let(slot, source, next) => match source {
            Source::Effect(effect) => match effect {
                Effect::Call(func, es) => let_call(
                    alloc, program, f, *slot, *func, es, *next, call, callers, idle, room,
                ),
                _ => false,
            },
            Source::Value(_) => false,
        },
        Instr::Do(effect, next) => match effect {
            Effect::Call(func, es) => entered(
                alloc,
                program,
                f,
                *func,
                es,
                Wait::Drops,
                *next,
                call,
                callers,
                idle,
                room,
            ),
            _ => false,
        },
        Instr::Return(e) => gave_back(alloc, program, f, e, call, callers, idle),
        _ => false,
    }
}

// The same of the instruction at the call's place, or of the end of its function.
fn cross_step(
    alloc: Global,
    program: &Prog,
    call: &mut Call,
    callers: &mut Vec<Call>,
    idle: &mut Vec<Vec<Value>>,
    room: usize,
) -> bool
    requires call { CallFits program.now call.old }
    requires callers { AllCallsFit program.now callers.old.items }
    ensures goes { result ≡ true → (self : ℕ) (below : Term) → HasRoomAbove room below →
        steps.next (text_of program.now) self
        (entry_of program.now call.old ∷ calls_on program.now callers.old.items below)
        ≡ goes_on (entry_of program.now call.new
        ∷ calls_on program.now callers.new.items below) }
    ensures stays { result ≡ false → (entry_of program.now call.new
        ≡ entry_of program.now call.old) × (callers.new.items ≡ callers.old.items) }
    ensures fits { CallFits program.now call.new }
    ensures callers { AllCallsFit program.now callers.new.items }
{
    if call.wait != Wait::Runs {
        return false;
    }
    let f = program.function(call.func);
    match f.instr(call.at) {
        Some(instr) => cross(alloc, program, f, instr, call, callers, idle, room),
        None => returned(program, Value::new(ValueKind::Unit), call, callers, idle),
    }
}

/// How many calls may wait above this many entries, below one that runs and one more.
pub(crate) fn room_above(beneath: usize) -> usize
    ensures { (below : Term) → length below ≡ beneath → HasRoomAbove result below }
{
    (MAX_ENTRIES - 1).saturating_sub(beneath)
}

/// Takes the first steps of the call that do only this, at most this many: `room` calls at most may wait for others on the way. Those that
/// still do are the callers. Returns how many steps there were.
pub(crate) fn quick_run(
    alloc: Global,
    program: &Prog,
    call: &mut Call,
    callers: &mut Vec<Call>,
    sets: &mut Vec<Noted>,
    room: usize,
    most: u32,
) -> u32
    requires call { CallFits program.now call.old }
    requires callers { AllCallsFit program.now callers.old.items }
    ensures fits { CallFits program.now call.new }
    ensures callers { AllCallsFit program.now callers.new.items }
    ensures within { result ≤ most }
    ensures goes { (self : ℕ) (below : Term) → HasRoomAbove room below →
        GoesIn (text_of program.now) self result
        (entry_of program.now call.old ∷ calls_on program.now callers.old.items below)
        (entry_of program.now call.new ∷ calls_on program.now callers.new.items below) }
{
    let mut idle = Vec::new(alloc);
    let mut done = 0u32;
    while done < most {
        done += plain_run(alloc, program, call, sets, false, most - done);
        if done == most {
            return done;
        }
        if !cross_step(alloc, program, call, callers, &mut idle, room) {
            return done;
        }
        done += 1;
    }
    done
}
