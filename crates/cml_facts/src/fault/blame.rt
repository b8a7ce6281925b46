//! Which part of an expression has no value.

ghost use Rattle.std.specs.Prelude.{◌≡◌, IfOk};
ghost use Rattle.cml_check.specs.Syntax.{unary, binary, choose, wrap, guard};
ghost use Rattle.cml_step.specs.Variables.{slot_value};
ghost use Rattle.cml_facts.specs.Parts as spec;

use crate::fault::choice::{first_no_event, valued};
use crate::fault::part::Part;
use cml_check::{Binary, Expr, ExprKind, Exprs, Unary};
use cml_value::Value;
use std::alloc::{AllocError, Global};

/// Of an expression that has no value the first part that has none; or it itself, where all parts in it have values.
///
/// # Errors
/// Out of memory.
#[cycle(blame)]
pub(crate) fn part_of(alloc: Global, slots: &[Value], e: &Expr) -> Result<Part, AllocError>
    ensures { IfOk result (λ part. part ≡ spec.part_of (slot_value slots.now) e.now) }
{
    match &e.kind {
        ExprKind::Constant(_) => Ok(Part::Other),
        ExprKind::Number(_) => Ok(Part::Other),
        ExprKind::Text(_) => Ok(Part::Other),
        ExprKind::Variable(_) => Ok(Part::Other),
        ExprKind::Unary(operator, d) => part_of_unary(alloc, slots, *operator, d),
        ExprKind::Binary(operator, c, d) => part_of_binary(alloc, slots, *operator, c, d),
        ExprKind::Choose(es) => part_of_choice(alloc, slots, es),
        ExprKind::Wrap(d, _, es) => part_of_wrap(alloc, slots, d, es),
        ExprKind::Guard(_, es) => part_of_made(alloc, slots, es),
        ExprKind::WithNack(_, es) => part_of_made(alloc, slots, es),
    }
}

#[cycle(blame)]
fn part_of_unary(
    alloc: Global,
    slots: &[Value],
    operator: Unary,
    e: &Expr,
) -> Result<Part, AllocError>
    ensures { IfOk result (λ part. part ≡ spec.part_of (slot_value slots.now) (unary operator e.now)) }
{
    match valued(alloc, slots, e)? {
        Some(value) => Ok(Part::Unary(operator, value)),
        None => part_of(alloc, slots, e),
    }
}

#[cycle(blame)]
fn part_of_binary(
    alloc: Global,
    slots: &[Value],
    operator: Binary,
    d: &Expr,
    e: &Expr,
) -> Result<Part, AllocError>
    ensures { IfOk result (λ part. part ≡ spec.part_of (slot_value slots.now) (binary operator d.now e.now)) }
{
    let Some(first) = valued(alloc, slots, d)? else {
        return part_of(alloc, slots, d);
    };
    match valued(alloc, slots, e)? {
        Some(second) => Ok(Part::Binary(operator, first, second)),
        None => part_of(alloc, slots, e),
    }
}

/// That of the first of the expressions that has no value, if there is one.
///
/// # Errors
/// Out of memory.
#[cycle(blame)]
#[tactic(auto, using(crate::proofs::PartLemmas::found_here, crate::proofs::PartLemmas::not_here, crate::proofs::PartLemmas::not_at_all))]
pub(crate) fn part_of_first(
    alloc: Global,
    slots: &[Value],
    es: &Exprs,
) -> Result<Option<Part>, AllocError>
    ensures { IfOk result (λ found. found ≡ spec.part_of_first (slot_value slots.now) es.now) }
{
    for e in &es.items {
        if valued(alloc, slots, e)?.is_none() {
            return Ok(Some(part_of(alloc, slots, e)?));
        }
    }
    Ok(None)
}

#[cycle(blame)]
fn part_of_choice(alloc: Global, slots: &[Value], es: &Exprs) -> Result<Part, AllocError>
    ensures { IfOk result (λ part. part ≡ spec.part_of (slot_value slots.now) (choose es.now)) }
{
    match part_of_first(alloc, slots, es)? {
        Some(part) => Ok(part),
        None => Ok(Part::Choose(first_no_event(alloc, slots, es)?)),
    }
}

// That of a wrap by a function, whichever that is.
#[cycle(blame)]
fn part_of_wrap(alloc: Global, slots: &[Value], e: &Expr, es: &Exprs) -> Result<Part, AllocError>
    ensures { IfOk result (λ part. part ≡ spec.part_of (slot_value slots.now) (wrap e.now 0 es.now)) }
{
    let Some(value) = valued(alloc, slots, e)? else {
        return part_of(alloc, slots, e);
    };
    match part_of_first(alloc, slots, es)? {
        Some(part) => Ok(part),
        None => Ok(Part::Wrap(value)),
    }
}

// That of an event that a function makes, whichever that is.
#[cycle(blame)]
fn part_of_made(alloc: Global, slots: &[Value], es: &Exprs) -> Result<Part, AllocError>
    ensures { IfOk result (λ part. part ≡ spec.part_of (slot_value slots.now) (guard 0 es.now)) }
{
    match part_of_first(alloc, slots, es)? {
        Some(part) => Ok(part),
        None => Ok(Part::Made),
    }
}
