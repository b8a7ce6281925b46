//! The part of a step that is at fault.

ghost use Rattle.std.specs.Prelude.{◌≡◌, IfOk};
ghost use Rattle.cml_check.specs.{Syntax.{act_on_one, act_on_two, call}, StmtViews.{plain_effect, plain_source}, InstrViews.{plain_instr}, Layout.{left}};
ghost use Rattle.cml_step.specs.Variables.{slot_value};
ghost use Rattle.cml_facts.specs.FaultViews.{part_of_instr};
ghost use Rattle.cml_facts.specs.Parts as spec;

use crate::fault::blame::{part_of, part_of_first};
use crate::fault::choice::valued;
use crate::fault::part::Part;
use cml_check::{ActOnOne, ActOnTwo, Effect, Expr, Exprs, Function, Instr, Source};
use cml_value::{Value, ValueKind};
use std::alloc::{AllocError, Global};

// That of an effect on one value.
fn part_on_one(alloc: Global, slots: &[Value], act: ActOnOne, e: &Expr) -> Result<Part, AllocError>
    ensures { IfOk result (λ part. part ≡ spec.part_of_effect (slot_value slots.now) (act_on_one act e.now)) }
{
    match valued(alloc, slots, e)? {
        Some(value) => Ok(Part::ActOnOne(act, value)),
        None => part_of(alloc, slots, e),
    }
}

// That of one on two values.
fn part_on_two(
    alloc: Global,
    slots: &[Value],
    act: ActOnTwo,
    d: &Expr,
    e: &Expr,
) -> Result<Part, AllocError>
    ensures { IfOk result (λ part. part ≡ spec.part_of_effect (slot_value slots.now) (act_on_two act d.now e.now)) }
{
    let Some(first) = valued(alloc, slots, d)? else {
        return part_of(alloc, slots, d);
    };
    match valued(alloc, slots, e)? {
        Some(second) => Ok(Part::ActOnTwo(act, first, second)),
        None => part_of(alloc, slots, e),
    }
}

// That of one that is given a function, whichever that is, and values.
fn part_on_all(alloc: Global, slots: &[Value], es: &Exprs) -> Result<Part, AllocError>
    ensures { IfOk result (λ part. part ≡ spec.part_of_effect (slot_value slots.now) (call 0 es.now)) }
{
    match part_of_first(alloc, slots, es)? {
        Some(part) => Ok(part),
        None => Ok(Part::Other),
    }
}

// That of an effect.
fn part_of_effect(alloc: Global, slots: &[Value], effect: &Effect) -> Result<Part, AllocError>
    ensures { IfOk result (λ part. part ≡ spec.part_of_effect (slot_value slots.now) (plain_effect effect.now)) }
{
    match effect {
        Effect::Act(_) => Ok(Part::Other),
        Effect::ActOnOne(act, e) => part_on_one(alloc, slots, *act, e),
        Effect::ActOnTwo(act, d, e) => part_on_two(alloc, slots, *act, d, e),
        Effect::Call(_, es) => part_on_all(alloc, slots, es),
        Effect::Spawn(_, es) => part_on_all(alloc, slots, es),
    }
}

// That of a `let`.
fn part_of_source(alloc: Global, slots: &[Value], source: &Source) -> Result<Part, AllocError>
    ensures { IfOk result (λ part. part ≡ spec.part_of_source (slot_value slots.now) (plain_source source.now)) }
{
    match source {
        Source::Value(e) => part_of(alloc, slots, e),
        Source::Effect(effect) => part_of_effect(alloc, slots, effect),
    }
}

// That of an `if`.
fn part_of_if(alloc: Global, slots: &[Value], e: &Expr) -> Result<Part, AllocError>
    ensures { IfOk result (λ part. part ≡ spec.part_of_if (slot_value slots.now) e.now) }
{
    match valued(alloc, slots, e)? {
        Some(value) => Ok(Part::If(value)),
        None => part_of(alloc, slots, e),
    }
}

// That of a `while`.
fn part_of_while(alloc: Global, slots: &[Value], e: &Expr) -> Result<Part, AllocError>
    ensures { IfOk result (λ part. part ≡ spec.part_of_while (slot_value slots.now) e.now) }
{
    match valued(alloc, slots, e)? {
        Some(value) => Ok(Part::While(value)),
        None => part_of(alloc, slots, e),
    }
}

// That of a `return`.
fn part_of_return(alloc: Global, slots: &[Value], e: &Expr) -> Result<Part, AllocError>
    ensures { IfOk result (λ part. part ≡ spec.part_of_return (slot_value slots.now) e.now) }
{
    match valued(alloc, slots, e)? {
        Some(value) => Ok(Part::Returned(value)),
        None => part_of(alloc, slots, e),
    }
}

// That of an instruction.
fn part_of_instr(alloc: Global, slots: &[Value], instr: &Instr) -> Result<Part, AllocError>
    ensures { IfOk result (λ part. part ≡ part_of_instr (slot_value slots.now) (plain_instr instr.now)) }
{
    match instr {
        Instr::Let(_, source, _) => part_of_source(alloc, slots, source),
        Instr::Set(_, e, _) => part_of(alloc, slots, e),
        Instr::Do(effect, _) => part_of_effect(alloc, slots, effect),
        Instr::If(e, _, _) => part_of_if(alloc, slots, e),
        Instr::While(e, _, _) => part_of_while(alloc, slots, e),
        Instr::Return(e) => part_of_return(alloc, slots, e),
    }
}

/// The part that is at fault of a step of a call of f at this place, where its slots have these values.
///
/// # Errors
/// Out of memory.
#[tactic(auto, using(crate::proofs::StepLemmas::part_of_here, crate::proofs::StepLemmas::part_of_end))]
pub(crate) fn part_of_step(
    alloc: Global,
    f: &Function,
    at: usize,
    slots: &[Value],
) -> Result<Part, AllocError>
    ensures { IfOk result (λ part. part ≡ spec.part_of_step (slot_value slots.now) (left f.now.body at)) }
{
    match f.instr(at) {
        Some(instr) => part_of_instr(alloc, slots, instr),
        None => Ok(Part::Returned(Value::new(ValueKind::Unit))),
    }
}
