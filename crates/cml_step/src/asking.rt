//! Asks that are made where the call stands: of others to go first, and what is mailed or put into an M-variable. `None` and `false` say
//! nothing: then the step is to be made in full, where each fault is told.

ghost use Rattle.std.specs.Prelude.{◌≡◌, ℕ, ◌∷◌, length, true, false, Some, Ok, slice_get, IfSome};
ghost use Rattle.cml_check.specs.{Syntax.{variable, effect_map, expr_map, name_at}, Ops.{flat_expr, told_effect}, Names.{AreDistinct}};
ghost use Rattle.cml_check.specs.InOrder.{FunctionFits, arities, effect_fits, expr_fits};
ghost use Rattle.cml_step.specs.{Agrees.{value_agrees, all_agree, ask_agrees}, AskViews.{plain_ask}, Variables.{bound, value_of}, Terms.{Term}};
ghost use Rattle.cml_step.specs.{Calls.{entry_of, call_at, text_of, variables_of}, Stacks.{CallFits}};
ghost use Rattle.cml_step.specs.Evaluate as meaning;
ghost use Rattle.cml_step.specs.Steps as steps;

use crate::ask::Ask;
use crate::call::{Call, Wait};
use crate::offer::{mailbox_at, message, mvar_at};
use cml_check::{Flat, Function, Op, Prog, Told};
use cml_value::Value;

// The value of a short expression in a call, where it is what a slot has, or a number.
#[inline(always)]
#[tactic(auto, using(crate::proofs::VariableLemmas::evaluate_named))]
fn message_of_call(program: &Prog, f: &Function, slots: &[Value], e: &Flat) -> Option<Value>
    requires fits { expr_fits (arities program.now) (length f.now.names) (flat_expr e.now) ≡ true }
    requires distinct { AreDistinct f.now.names }
    requires agree { all_agree (arities program.now) slots.now ≡ true }
    ensures gives { let of = value_of (bound f.now.names slots.now) in
        IfSome result (λ v.
        meaning.evaluate of (expr_map (name_at f.now.names) (flat_expr e.now)) ≡ Ok v) }
    ensures agrees { IfSome result (λ v. value_agrees (arities program.now) v ≡ true) }
{
    message(slots, e)
}

// What is asked where an item is mailed.
#[inline(always)]
fn mail_asked(program: &Prog, f: &Function, at: usize, e: &Flat, slots: &[Value]) -> Option<Ask>
    requires place { expr_fits (arities program.now) (length f.now.names) (variable at) ≡ true }
    requires item { expr_fits (arities program.now) (length f.now.names) (flat_expr e.now) ≡ true }
    requires distinct { AreDistinct f.now.names }
    requires agree { all_agree (arities program.now) slots.now ≡ true }
    ensures gives { (self : ℕ) (term : Term) → IfSome result (λ a.
        steps.effect_step (text_of program.now) self (bound f.now.names slots.now)
        (effect_map (name_at f.now.names) (told_effect (Told.Mail at e.now))) term
        ≡ steps.asks (plain_ask a) term) }
    ensures agrees { IfSome result (λ a. ask_agrees (arities program.now) (plain_ask a) ≡ true) }
    ensures something { IfSome result (λ a. a ≡ Ask.Nothing → ⊥) }
{
    let place = mailbox_at(slots, at)?;
    let item = message_of_call(program, f, slots, e)?;
    Some(Ask::Mail(place, item))
}

// What is asked where an item is put into an M-variable.
#[inline(always)]
fn put_asked(program: &Prog, f: &Function, at: usize, e: &Flat, slots: &[Value]) -> Option<Ask>
    requires place { expr_fits (arities program.now) (length f.now.names) (variable at) ≡ true }
    requires item { expr_fits (arities program.now) (length f.now.names) (flat_expr e.now) ≡ true }
    requires distinct { AreDistinct f.now.names }
    requires agree { all_agree (arities program.now) slots.now ≡ true }
    ensures gives { (self : ℕ) (term : Term) → IfSome result (λ a.
        steps.effect_step (text_of program.now) self (bound f.now.names slots.now)
        (effect_map (name_at f.now.names) (told_effect (Told.MPut at e.now))) term
        ≡ steps.asks (plain_ask a) term) }
    ensures agrees { IfSome result (λ a. ask_agrees (arities program.now) (plain_ask a) ≡ true) }
    ensures something { IfSome result (λ a. a ≡ Ask.Nothing → ⊥) }
{
    let place = mvar_at(slots, at)?;
    let item = message_of_call(program, f, slots, e)?;
    Some(Ask::MPut(place, item))
}

// What an effect asks, where that can be found so.
#[inline(never)]
fn told_asked(program: &Prog, f: &Function, told: &Told, slots: &[Value]) -> Option<Ask>
    requires fits { effect_fits (arities program.now) (length f.now.names)
        (told_effect told.now) ≡ true }
    requires function { FunctionFits (arities program.now) f.now }
    requires agree { all_agree (arities program.now) slots.now ≡ true }
    ensures gives { (self : ℕ) (term : Term) → IfSome result (λ a.
        steps.effect_step (text_of program.now) self (bound f.now.names slots.now)
        (effect_map (name_at f.now.names) (told_effect told.now)) term
        ≡ steps.asks (plain_ask a) term) }
    ensures agrees { IfSome result (λ a. ask_agrees (arities program.now) (plain_ask a) ≡ true) }
    ensures something { IfSome result (λ a. a ≡ Ask.Nothing → ⊥) }
{
    match told {
        Told::Yield => Some(Ask::Yield),
        Told::Mail(at, e) => mail_asked(program, f, *at, e, slots),
        Told::MPut(at, e) => put_asked(program, f, *at, e, slots),
    }
}

// The call asks what the effect asks, waits for its answer, drops it, and goes on at `next`. Where that can't be found so nothing has changed.
#[inline(never)]
fn ask_waits(
    program: &Prog,
    f: &Function,
    told: &Told,
    next: usize,
    call: &mut Call,
    asked: &mut Ask,
) -> bool
    requires fits { effect_fits (arities program.now) (length f.now.names)
        (told_effect told.now) ≡ true }
    requires function { (FunctionFits (arities program.now) f.now)
        × (slice_get program.now call.old.func ≡ Some f.now) }
    requires call { CallFits program.now call.old }
    ensures meant { result ≡ true → (self : ℕ) (below : Term) →
        steps.effect_step (text_of program.now) self (variables_of f.now call.old)
        (effect_map (name_at f.now.names) (told_effect told.now))
        (call_at f.now next call.old.slots.items Wait.Drops ∷ below)
        ≡ steps.asks (plain_ask asked.new) (entry_of program.now call.new ∷ below) }
    ensures agrees { result ≡ true → ask_agrees (arities program.now) (plain_ask asked.new) ≡ true }
    ensures something { result ≡ true → asked.new ≡ Ask.Nothing → ⊥ }
    ensures stays { result ≡ false → (call.new ≡ call.old) × (asked.new ≡ asked.old) }
    ensures kept { (call.new.func ≡ call.old.func) × (call.new.slots ≡ call.old.slots) }
    ensures fits { CallFits program.now call.new }
{
    match told_asked(program, f, told, call.slots.as_slice()) {
        Some(ask) => {
            *asked = ask;
            call.asked = call.at;
            call.at = next;
            call.wait = Wait::Drops;
            true
        }
        None => false,
    }
}

/// Where the call stands at such an effect, whose answer is dropped, it asks that. Else nothing has changed.
#[inline(always)]
pub(crate) fn ask_step(program: &Prog, call: &mut Call, asked: &mut Ask) -> bool
    requires { CallFits program.now call.old }
    ensures meant { result ≡ true → (self : ℕ) (below : Term) →
        steps.next (text_of program.now) self (entry_of program.now call.old ∷ below)
        ≡ steps.asks (plain_ask asked.new) (entry_of program.now call.new ∷ below) }
    ensures agrees { result ≡ true → ask_agrees (arities program.now) (plain_ask asked.new) ≡ true }
    ensures something { result ≡ true → asked.new ≡ Ask.Nothing → ⊥ }
    ensures stays { result ≡ false → (call.new ≡ call.old) × (asked.new ≡ asked.old) }
    ensures kept { (call.new.func ≡ call.old.func) × (call.new.slots ≡ call.old.slots) }
    ensures fits { CallFits program.now call.new }
{
    if call.wait != Wait::Runs {
        return false;
    }
    let f = program.function(call.func);
    match f.op(call.at) {
        Some(op) => match op {
            Op::Tell(told, next) => ask_waits(program, f, told, *next, call, asked),
            _ => false,
        },
        None => false,
    }
}
