//! Steps that only set variables and choose places. What the variables had may be noted.

ghost use Rattle.std.specs.Prelude.{◌≡◌, ◌<◌, ◌≤◌, ℕ, List, ◌∷◌, length, true, false, None, Ok, slice_set, IfSome};
ghost use Rattle.cml_check.specs.{Syntax.{name_at, expr_map, value as plain_source_value}, Names.{AreDistinct}, InOrder.{FunctionFits, arities, expr_fits}};
ghost use Rattle.cml_check.specs.{Layout.{left}, Ops.{flat_expr, Sets, Tests, OpFollows, op_fits}};
ghost use Rattle.cml_check.specs.{Follows.{Follows, instr_fits}, InstrViews.{plain_instr}};
ghost use Rattle.cml_step.specs.{Agrees.{value_agrees, all_agree}, Variables.{bound, value_of, slot_value}, Terms.{Program, Term}, Plain.{PassesTo, RunsTo}};
ghost use Rattle.cml_step.specs.{Calls.{entry_for, entry_of, text_of, variables_of, statements_at, IsReady, RunsOn}, Steps.{goes_on}, Slices.{GoesIn}};
ghost use Rattle.cml_step.specs.{Stacks.{CallFits}, Undone.{unset, HasNotes}};
ghost use Rattle.cml_step.specs.Evaluate as meaning;
ghost use Rattle.cml_step.specs.Steps as steps;

use crate::call::{Call, Wait, assign, choose, value_in};
use crate::journal::{Noted, fill_noted, set_in, set_slot};
use crate::number::{flat_int, flat_truth, number_in};
use cml_check::{Expr, Flat, Function, Instr, Op, Prog, Source};
use cml_value::{Value, ValueKind};
use std::alloc::Global;

// Sets a slot that has a number to the value. Where that is not done nothing has changed.
#[inline(always)]
fn set_number(
    slots: &mut [Value],
    slot: usize,
    value: Value,
    sets: &mut Vec<Noted>,
    noting: bool,
) -> bool
    ensures set { result ≡ true → slots.new ≡ slice_set slots.old slot value }
    ensures there { result ≡ true → slot < length slots.old }
    ensures noted { noting ≡ true → unset sets.new.items slots.new
        ≡ unset sets.old.items slots.old }
    ensures stays { result ≡ false → slots.new ≡ slots.old }
{
    let Some(_) = number_in(slots, slot) else {
        drop(value);
        return false;
    };
    if noting {
        return set_in(slots, slot, value, sets);
    }
    slots[slot] = value;
    true
}

// The number that a short expression is, as a value, where it is one and has no fault.
#[inline(always)]
fn flat_value(slots: &[Value], e: &Flat) -> Option<Value>
    ensures gives { IfSome result (λ v.
        meaning.evaluate (slot_value slots.now) (flat_expr e.now) ≡ Ok v) }
    ensures agrees { IfSome result (λ v. (fs : List ℕ) → value_agrees fs v ≡ true) }
{
    let z = flat_int(slots, e)?;
    Some(Value::new(ValueKind::Int(z)))
}

// The slot is given the number that the expression is. Returns the place after that; where that is not done nothing has changed.
#[inline(always)]
fn flat_set(
    program: &Prog,
    f: &Function,
    at: usize,
    slot: usize,
    e: &Flat,
    next: usize,
    slots: &mut [Value],
    sets: &mut Vec<Noted>,
    noting: bool,
) -> Option<usize>
    requires here { let left_at = left f.now.body in
        Sets left_at slot (flat_expr e.now) next (left_at at) }
    requires slot { slot < length f.now.names }
    requires fits { expr_fits (arities program.now) (length f.now.names) (flat_expr e.now) ≡ true }
    requires distinct { AreDistinct f.now.names }
    ensures goes { IfSome result (λ to. PassesTo f.now at slots.old to slots.new) }
    ensures agree { (fs : List ℕ) → all_agree fs slots.old ≡ true
        → all_agree fs slots.new ≡ true }
    ensures noted { noting ≡ true → unset sets.new.items slots.new
        ≡ unset sets.old.items slots.old }
    ensures stays { result ≡ None → slots.new ≡ slots.old }
{
    let value = flat_value(slots, e)?;
    if !set_number(slots, slot, value, sets, noting) {
        return None;
    }
    Some(next)
}

// The place where the call goes on after the test.
#[inline(always)]
fn flat_test(
    program: &Prog,
    f: &Function,
    at: usize,
    e: &Flat,
    first: usize,
    second: usize,
    slots: &[Value],
) -> Option<usize>
    requires here { let left_at = left f.now.body in
        Tests left_at (flat_expr e.now) first second (left_at at) }
    requires fits { expr_fits (arities program.now) (length f.now.names) (flat_expr e.now) ≡ true }
    requires distinct { AreDistinct f.now.names }
    ensures { IfSome result (λ to. PassesTo f.now at slots.now to slots.now) }
{
    let holds = flat_truth(slots, e)?;
    if holds {
        return Some(first);
    }
    Some(second)
}

// What the short form says is done, if it sets a slot to a number or tests numbers. Returns the place after that; where that is not done
// nothing has changed.
#[inline(always)]
fn op_step(
    program: &Prog,
    f: &Function,
    at: usize,
    op: &Op,
    slots: &mut [Value],
    sets: &mut Vec<Noted>,
    noting: bool,
) -> Option<usize>
    requires here { let left_at = left f.now.body in OpFollows left_at op.now (left_at at) }
    requires fits { op_fits (arities program.now) (length f.now.names) op.now ≡ true }
    requires distinct { AreDistinct f.now.names }
    ensures goes { IfSome result (λ to. PassesTo f.now at slots.old to slots.new) }
    ensures agree { (fs : List ℕ) → all_agree fs slots.old ≡ true
        → all_agree fs slots.new ≡ true }
    ensures noted { noting ≡ true → unset sets.new.items slots.new
        ≡ unset sets.old.items slots.old }
    ensures stays { result ≡ None → slots.new ≡ slots.old }
{
    match op {
        Op::Set(slot, e, next) => { flat_set(program, f, at, *slot, e, *next, slots, sets, noting) }
        Op::Test(e, first, second) => flat_test(program, f, at, e, *first, *second, slots),
        _ => None,
    }
}

// Takes the first steps from this place on that only set variables to numbers and test numbers, at most this many. Returns the place after
// them, and how many they were.
#[inline(always)]
fn flat_run(
    program: &Prog,
    f: &Function,
    from: usize,
    slots: &mut [Value],
    sets: &mut Vec<Noted>,
    noting: bool,
    most: u32,
) -> (usize, u32)
    requires { FunctionFits (arities program.now) f.now }
    ensures within { result.1 ≤ most }
    ensures count { length slots.new ≡ length slots.old }
    ensures goes { RunsTo result.1 f.now from slots.old result.0 slots.new }
    ensures agree { (fs : List ℕ) → all_agree fs slots.old ≡ true
        → all_agree fs slots.new ≡ true }
    ensures noted { noting ≡ true → unset sets.new.items slots.new
        ≡ unset sets.old.items slots.old }
{
    let mut at = from;
    let mut done = 0u32;
    while done < most {
        let Some(op) = f.op(at) else {
            return (at, done);
        };
        let Some(next) = op_step(program, f, at, op, slots, sets, noting) else {
            return (at, done);
        };
        at = next;
        done += 1;
    }
    (at, done)
}

// The same of a call that runs, which goes on behind them.
#[inline(always)]
fn flat_steps(
    program: &Prog,
    f: &Function,
    call: &mut Call,
    sets: &mut Vec<Noted>,
    noting: bool,
    most: u32,
) -> u32
    requires fits { FunctionFits (arities program.now) f.now }
    requires agree { all_agree (arities program.now) call.old.slots.items ≡ true }
    requires runs { call.old.wait ≡ Wait.Runs }
    ensures within { result ≤ most }
    ensures goes { (p : Program) (self : ℕ) (below : Term) → GoesIn p self result
        (entry_for f.now call.old ∷ below) (entry_for f.now call.new ∷ below) }
    ensures kept { RunsOn (arities program.now) call.old call.new }
    ensures noted { noting ≡ true → HasNotes sets.old.items call.old sets.new.items call.new }
{
    let (at, done) = flat_run(
        program,
        f,
        call.at,
        call.slots.as_mut_slice(),
        sets,
        noting,
        most,
    );
    call.at = at;
    done
}

// The value of an expression in a call, if it is found.
#[inline(always)]
fn found_in(alloc: Global, program: &Prog, f: &Function, slots: &[Value], e: &Expr) -> Option<Value>
    requires fits { expr_fits (arities program.now) (length f.now.names) e.now ≡ true }
    requires distinct { AreDistinct f.now.names }
    requires agree { all_agree (arities program.now) slots.now ≡ true }
    ensures gives { let of = value_of (bound f.now.names slots.now) in
        IfSome result (λ v.
        meaning.evaluate of (expr_map (name_at f.now.names) e.now) ≡ Ok v) }
    ensures agrees { IfSome result (λ v. value_agrees (arities program.now) v ≡ true) }
{
    match value_in(alloc, program, f, slots, e) {
        Ok(value) => Some(value),
        Err(_) => None,
    }
}

// Sets a variable to the value of an expression, goes on at `next`, and notes what the variable had. Where that is not done nothing has
// changed.
#[inline(never)]
#[tactic(auto, using(crate::proofs::VariableLemmas::bound_set, crate::proofs::CallLemmas::agree_set))]
fn assign_noted(
    alloc: Global,
    program: &Prog,
    f: &Function,
    slot: usize,
    e: &Expr,
    next: usize,
    call: &mut Call,
    sets: &mut Vec<Noted>,
) -> bool
    requires slot { slot < length f.now.names }
    requires fits { expr_fits (arities program.now) (length f.now.names) e.now ≡ true }
    requires ready { IsReady (arities program.now) f.now call.old }
    ensures goes { result ≡ true → (self : ℕ) (below : Term) →
        let x = name_at f.now.names slot in
        let source = plain_source_value (expr_map (name_at f.now.names) e.now) in
        let after = statements_at f.now next in
        let variables = variables_of f.now call.old in
        steps.source_step (text_of program.now) self x source after variables below
        ≡ goes_on (entry_for f.now call.new ∷ below) }
    ensures stays { result ≡ false → entry_for f.now call.new ≡ entry_for f.now call.old }
    ensures kept { RunsOn (arities program.now) call.old call.new }
    ensures noted { HasNotes sets.old.items call.old sets.new.items call.new }
{
    if slot >= call.slots.len() {
        return false;
    }
    let Some(value) = found_in(alloc, program, f, call.slots.as_slice(), e) else {
        return false;
    };
    if !set_slot(&mut call.slots, slot, value, sets) {
        return false;
    }
    call.at = next;
    true
}

// The same, where what the variable had may be noted or not.
fn assigned(
    alloc: Global,
    program: &Prog,
    f: &Function,
    slot: usize,
    e: &Expr,
    next: usize,
    call: &mut Call,
    sets: &mut Vec<Noted>,
    noting: bool,
) -> bool
    requires slot { slot < length f.now.names }
    requires fits { expr_fits (arities program.now) (length f.now.names) e.now ≡ true }
    requires ready { IsReady (arities program.now) f.now call.old }
    ensures goes { result ≡ true → (self : ℕ) (below : Term) →
        let x = name_at f.now.names slot in
        let source = plain_source_value (expr_map (name_at f.now.names) e.now) in
        let after = statements_at f.now next in
        let variables = variables_of f.now call.old in
        steps.source_step (text_of program.now) self x source after variables below
        ≡ goes_on (entry_for f.now call.new ∷ below) }
    ensures stays { result ≡ false → entry_for f.now call.new ≡ entry_for f.now call.old }
    ensures kept { RunsOn (arities program.now) call.old call.new }
    ensures noted { noting ≡ true → HasNotes sets.old.items call.old sets.new.items call.new }
{
    if noting {
        return assign_noted(alloc, program, f, slot, e, next, call, sets);
    }
    assign(alloc, program, f, slot, e, next, call).is_ok()
}

// Whether the instruction only sets a variable or chooses a place, and was done. Else nothing has changed.
#[inline(always)]
fn instr_done(
    alloc: Global,
    program: &Prog,
    f: &Function,
    instr: &Instr,
    call: &mut Call,
    sets: &mut Vec<Noted>,
    noting: bool,
) -> bool
    requires here { let left_at = left f.now.body in
        Follows left_at (plain_instr instr.now) (left_at call.old.at) }
    requires fits { let slots = length f.now.names in
        instr_fits (arities program.now) slots (plain_instr instr.now) ≡ true }
    requires ready { IsReady (arities program.now) f.now call.old }
    ensures goes { result ≡ true → (self : ℕ) (below : Term) →
        let here = statements_at f.now call.old.at in
        let variables = variables_of f.now call.old in
        steps.call_step (text_of program.now) self here variables below
        ≡ goes_on (entry_for f.now call.new ∷ below) }
    ensures stays { result ≡ false → entry_for f.now call.new ≡ entry_for f.now call.old }
    ensures kept { RunsOn (arities program.now) call.old call.new }
    ensures noted { noting ≡ true → HasNotes sets.old.items call.old sets.new.items call.new }
{
    match instr {
        Instr::Let(slot, source, next) => match source {
            Source::Value(e) => assigned(alloc, program, f, *slot, e, *next, call, sets, noting),
            Source::Effect(_) => false,
        },
        Instr::Set(slot, e, next) => {
            assigned(alloc, program, f, *slot, e, *next, call, sets, noting)
        }
        Instr::If(e, yes, no) => choose(alloc, program, f, e, *yes, *no, call).is_ok(),
        Instr::While(e, body, next) => choose(alloc, program, f, e, *body, *next, call).is_ok(),
        _ => false,
    }
}

// The same of the instruction at the call's place, if there is one.
#[inline(never)]
fn instr_step(
    alloc: Global,
    program: &Prog,
    f: &Function,
    call: &mut Call,
    sets: &mut Vec<Noted>,
    noting: bool,
) -> bool
    requires fits { FunctionFits (arities program.now) f.now }
    requires agree { all_agree (arities program.now) call.old.slots.items ≡ true }
    requires runs { call.old.wait ≡ Wait.Runs }
    ensures goes { result ≡ true → (self : ℕ) (below : Term) →
        let before = entry_for f.now call.old in
        steps.next (text_of program.now) self (before ∷ below)
        ≡ goes_on (entry_for f.now call.new ∷ below) }
    ensures stays { result ≡ false → entry_for f.now call.new ≡ entry_for f.now call.old }
    ensures kept { RunsOn (arities program.now) call.old call.new }
    ensures noted { noting ≡ true → HasNotes sets.old.items call.old sets.new.items call.new }
{
    match f.instr(call.at) {
        Some(instr) => instr_done(alloc, program, f, instr, call, sets, noting),
        None => false,
    }
}

// Whether the instruction at this place may be one that only sets a variable or chooses a place.
#[inline(always)]
fn may_be_plain(f: &Function, at: usize) -> bool {
    match f.op(at) {
        Some(op) => matches!(op, Op::Set(_, _, _) | Op::Test(_, _, _) | Op::Other),
        None => false,
    }
}

// Takes the first steps of a call of f that only set variables and choose places, at most this many. Returns how many they were.
#[inline(always)]
fn steps_of(
    alloc: Global,
    program: &Prog,
    f: &Function,
    call: &mut Call,
    sets: &mut Vec<Noted>,
    noting: bool,
    most: u32,
) -> u32
    requires fits { FunctionFits (arities program.now) f.now }
    requires agree { all_agree (arities program.now) call.old.slots.items ≡ true }
    requires runs { call.old.wait ≡ Wait.Runs }
    ensures within { result ≤ most }
    ensures goes { (self : ℕ) (below : Term) → GoesIn (text_of program.now) self result
        (entry_for f.now call.old ∷ below) (entry_for f.now call.new ∷ below) }
    ensures kept { RunsOn (arities program.now) call.old call.new }
    ensures noted { noting ≡ true → HasNotes sets.old.items call.old sets.new.items call.new }
{
    let mut done = 0u32;
    while done < most {
        done += flat_steps(program, f, call, sets, noting, most - done);
        if done == most {
            return done;
        }
        if !may_be_plain(f, call.at) {
            return done;
        }
        if !instr_step(alloc, program, f, call, sets, noting) {
            return done;
        }
        done += 1;
    }
    done
}

/// Takes the first steps of a call that only set variables and choose places, at most this many. Returns how many they were. Where it is
/// to be noted what the variables had, they end where there is no room for that.
#[inline(always)]
pub(crate) fn plain_run(
    alloc: Global,
    program: &Prog,
    call: &mut Call,
    sets: &mut Vec<Noted>,
    noting: bool,
    most: u32,
) -> u32
    requires { CallFits program.now call.old }
    ensures fits { CallFits program.now call.new }
    ensures within { result ≤ most }
    ensures goes { (self : ℕ) (below : Term) → GoesIn (text_of program.now) self result
        (entry_of program.now call.old ∷ below) (entry_of program.now call.new ∷ below) }
    ensures noted { noting ≡ true → HasNotes sets.old.items call.old sets.new.items call.new }
{
    if call.wait != Wait::Runs {
        return 0;
    }
    let f = program.function(call.func);
    steps_of(alloc, program, f, call, sets, noting, most)
}

/// Delivers a copy of the value to the call, if a slot is given it, and notes what its slot had. Without memory nothing has changed.
pub(crate) fn deliver_noted(
    program: &Prog,
    call: &mut Call,
    value: &Value,
    sets: &mut Vec<Noted>,
) -> bool
    requires fits { CallFits program.now call.old }
    requires agrees { value_agrees (arities program.now) value.now ≡ true }
    ensures meant { result ≡ true → (below : Term) →
        steps.delivered value.now (entry_of program.now call.old ∷ below)
        ≡ goes_on (entry_of program.now call.new ∷ below) }
    ensures fits { CallFits program.now call.new }
    ensures noted { HasNotes sets.old.items call.old sets.new.items call.new }
    ensures stays { result ≡ false → call.new ≡ call.old }
{
    // No effect: named here so that the prover knows what holds of it.
    let _f = program.function(call.func);
    fill_noted(call, value, sets)
}
