//! The values of expressions.

ghost use Rattle.std.specs.{Prelude.{◌≡◌, Ok}, Arc.{arc_str_bytes}};
ghost use Rattle.cml_check.specs.Syntax.{unary, binary, choose, wrap};
ghost use Rattle.cml_value.specs.Value.{function, values, text as plain_text};
ghost use Rattle.cml_step.specs.{Faults.{ComesTo}, Variables.{slot_value}};
ghost use Rattle.cml_step.specs.Operators as operators;
ghost use Rattle.cml_step.specs.Evaluate as spec;

use crate::fault::Stop;
use crate::kind::event_of;
use crate::number::{quick_int, quick_truth};
use crate::operator::{binary_value, constant_value, event_value, unary_value};
use cml_check::{Binary, Expr, ExprKind, Exprs, Unary};
use cml_value::{Event, EventKind, FnRef, Value, ValueKind};
use std::alloc::Global;
use std::sync::ArcStr;

// The value of a slot: unit where it was not given one.
fn slot(values: &[Value], slot: usize) -> Result<Value, Stop>
    ensures { ComesTo (λ v. v) result (Ok (slot_value values.now slot)) }
{
    match values.get(slot) {
        Some(value) => Ok(value.copy()?),
        None => Ok(Value::new(ValueKind::Unit)),
    }
}

// The choice of the events that these values are.
#[tactic(auto, using(crate::proofs::Prefixes::events_start, crate::proofs::Prefixes::events_next, crate::proofs::Prefixes::events_fault))]
fn choose_value(alloc: Global, members: Vec<Value>) -> Result<Value, Stop>
    ensures { ComesTo (λ v. v) result (operators.choose_value members.items) }
{
    let mut events = Vec::with_capacity(alloc, members.len())?;
    for member in &members {
        events.push(event_of(member)?)?;
    }
    event_value(alloc, Event::choose(alloc, events)?)
}

fn wrap_value(alloc: Global, inner: Value, func: u32, args: Vec<Value>) -> Result<Value, Stop>
    ensures { let wrap = function func (values args.items) in
        ComesTo (λ v. v) result (operators.wrap_value inner wrap) }
{
    let event = event_of(&inner)?;
    let function = FnRef::new(alloc, func, args)?;
    event_value(alloc, event.wrap(alloc, function)?)
}

fn guard_value(alloc: Global, func: u32, args: Vec<Value>) -> Result<Value, Stop>
    ensures { let guard = function func (values args.items) in
        ComesTo (λ v. v) result (operators.guard_value guard) }
{
    let function = FnRef::new(alloc, func, args)?;
    event_value(alloc, Event::new(EventKind::Guard(function)))
}

fn nack_value(alloc: Global, func: u32, args: Vec<Value>) -> Result<Value, Stop>
    ensures { let with_nack = function func (values args.items) in
        ComesTo (λ v. v) result (operators.nack_value with_nack) }
{
    let function = FnRef::new(alloc, func, args)?;
    event_value(alloc, Event::new(EventKind::WithNack(function)))
}

// The value of a text.
#[inline(never)]
fn text_value(text: &ArcStr) -> Result<Value, Stop>
    ensures { ComesTo (λ v. v) result (Ok (plain_text (arc_str_bytes text.now))) }
{
    Ok(Value::new(ValueKind::Text(text.clone()?)))
}

/// The value of an expression, where the slots have these values; a slot that was given none is unit. Its parts are evaluated from the
/// left, and all of them before what is made of them.
///
/// # Errors
/// What ends the thread, as where a value is of the wrong kind; or out of memory.
#[cycle(evaluate)]
pub fn evaluate(alloc: Global, slots: &[Value], expression: &Expr) -> Result<Value, Stop>
    ensures { ComesTo (λ v. v) result (spec.evaluate (slot_value slots.now) expression.now) }
{
    match &expression.kind {
        ExprKind::Number(z) => Ok(Value::new(ValueKind::Int(*z))),
        ExprKind::Variable(at) => slot(slots, *at),
        ExprKind::Binary(_, _, _) => computed(alloc, slots, expression),
        _ => in_full(alloc, slots, expression),
    }
}

// The same, by numbers alone where that is enough.
#[cycle(evaluate)]
fn computed(alloc: Global, slots: &[Value], expression: &Expr) -> Result<Value, Stop>
    ensures { ComesTo (λ v. v) result (spec.evaluate (slot_value slots.now) expression.now) }
{
    if let Some(z) = quick_int(slots, expression) {
        return Ok(Value::new(ValueKind::Int(z)));
    }
    if let Some(b) = quick_truth(slots, expression) {
        return Ok(Value::new(ValueKind::Bool(b)));
    }
    in_full(alloc, slots, expression)
}

// The same, with a value made of each part.
#[cycle(evaluate)]
#[inline(never)]
fn in_full(alloc: Global, slots: &[Value], expression: &Expr) -> Result<Value, Stop>
    ensures { ComesTo (λ v. v) result (spec.evaluate (slot_value slots.now) expression.now) }
{
    match &expression.kind {
        ExprKind::Constant(constant) => constant_value(alloc, *constant),
        ExprKind::Number(z) => Ok(Value::new(ValueKind::Int(*z))),
        ExprKind::Text(text) => text_value(text),
        ExprKind::Variable(at) => slot(slots, *at),
        ExprKind::Unary(operator, e) => unary_in_full(alloc, slots, *operator, e),
        ExprKind::Binary(operator, d, e) => binary_in_full(alloc, slots, *operator, d, e),
        ExprKind::Choose(es) => choose_in_full(alloc, slots, es),
        ExprKind::Wrap(e, func, es) => wrap_in_full(alloc, slots, e, *func, es),
        ExprKind::Guard(func, es) => {
            let args = evaluate_all(alloc, slots, es)?;
            guard_value(alloc, *func, args)
        }
        ExprKind::WithNack(func, es) => {
            let args = evaluate_all(alloc, slots, es)?;
            nack_value(alloc, *func, args)
        }
    }
}

#[cycle(evaluate)]
fn unary_in_full(alloc: Global, slots: &[Value], operator: Unary, e: &Expr) -> Result<Value, Stop>
    ensures { let expression = unary operator e.now in
        ComesTo (λ v. v) result (spec.evaluate (slot_value slots.now) expression) }
{
    let value = evaluate(alloc, slots, e)?;
    unary_value(alloc, operator, value)
}

// A part of an operation on two values. Numbers alone were not enough for the whole, so they are not tried again for a part.
#[cycle(evaluate)]
fn part_in_full(alloc: Global, slots: &[Value], operator: Binary, e: &Expr) -> Result<Value, Stop>
    ensures { ComesTo (λ v. v) result (spec.evaluate (slot_value slots.now) e.now) }
{
    match operator {
        Binary::Plus | Binary::Minus | Binary::Times | Binary::Less | Binary::Equal => {
            in_full(alloc, slots, e)
        }
        _ => evaluate(alloc, slots, e),
    }
}

#[cycle(evaluate)]
fn binary_in_full(
    alloc: Global,
    slots: &[Value],
    operator: Binary,
    d: &Expr,
    e: &Expr,
) -> Result<Value, Stop>
    ensures { let expression = binary operator d.now e.now in
        ComesTo (λ v. v) result (spec.evaluate (slot_value slots.now) expression) }
{
    let first = part_in_full(alloc, slots, operator, d)?;
    let second = part_in_full(alloc, slots, operator, e)?;
    binary_value(alloc, operator, first, second)
}

#[cycle(evaluate)]
#[inline(never)]
fn choose_in_full(alloc: Global, slots: &[Value], es: &Exprs) -> Result<Value, Stop>
    ensures { let expression = choose es.now in
        ComesTo (λ v. v) result (spec.evaluate (slot_value slots.now) expression) }
{
    let members = evaluate_all(alloc, slots, es)?;
    choose_value(alloc, members)
}

#[cycle(evaluate)]
#[inline(never)]
fn wrap_in_full(
    alloc: Global,
    slots: &[Value],
    e: &Expr,
    func: u32,
    es: &Exprs,
) -> Result<Value, Stop>
    ensures { let expression = wrap e.now func es.now in
        ComesTo (λ v. v) result (spec.evaluate (slot_value slots.now) expression) }
{
    let inner = evaluate(alloc, slots, e)?;
    let args = evaluate_all(alloc, slots, es)?;
    wrap_value(alloc, inner, func, args)
}

/// The values of expressions, from the left.
#[cycle(evaluate)]
#[tactic(auto, using(crate::proofs::Prefixes::all_start, crate::proofs::Prefixes::all_next, crate::proofs::Prefixes::all_fault))]
pub(crate) fn evaluate_all(
    alloc: Global,
    slots: &[Value],
    expressions: &Exprs,
) -> Result<Vec<Value>, Stop>
    ensures { let found = spec.evaluate_all (slot_value slots.now) expressions.now in
        ComesTo (λ vs. vs.items) result found }
{
    let mut found = Vec::with_capacity(alloc, expressions.items.len())?;
    for e in &expressions.items {
        found.push(evaluate(alloc, slots, e)?)?;
    }
    Ok(found)
}

/// The same, in this list in place of what it has.
#[tactic(auto, using(crate::proofs::Prefixes::all_start, crate::proofs::Prefixes::all_next, crate::proofs::Prefixes::all_fault))]
pub(crate) fn evaluate_in(
    alloc: Global,
    slots: &[Value],
    expressions: &Exprs,
    list: Vec<Value>,
) -> Result<Vec<Value>, Stop>
    ensures { let found = spec.evaluate_all (slot_value slots.now) expressions.now in
        ComesTo (λ vs. vs.items) result found }
{
    let mut found = list;
    found.clear();
    for e in &expressions.items {
        match quick_int(slots, e) {
            Some(z) => found.push(Value::new(ValueKind::Int(z)))?,
            None => found.push(evaluate(alloc, slots, e)?)?,
        }
    }
    Ok(found)
}
