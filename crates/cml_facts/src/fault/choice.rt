//! The values of expressions, one after another.

ghost use Rattle.std.specs.Prelude.{◌≡◌, IfOk, None};
ghost use Rattle.cml_step.specs.Variables.{slot_value};
ghost use Rattle.cml_facts.specs.Parts as spec;

use cml_check::{Expr, Exprs};
use cml_step::{Stop, evaluate};
use cml_value::{Value, ValueKind};
use std::alloc::{AllocError, Global};

/// The value of an expression, if it has one.
pub(crate) fn valued(alloc: Global, slots: &[Value], e: &Expr) -> Result<Option<Value>, AllocError>
    ensures { IfOk result (λ v. v ≡ spec.valued (slot_value slots.now) e.now) }
{
    match evaluate(alloc, slots, e) {
        Ok(value) => Ok(Some(value)),
        Err(Stop::Fault(_)) => Ok(None),
        Err(Stop::Memory) => Err(AllocError),
    }
}

// Whether the value is an event.
fn is_event(value: &Value) -> bool
    ensures { result ≡ spec.is_an_event value.now }
{
    matches!(value.kind(), ValueKind::Event(_))
}

// The value of an expression, if it has one that is no event.
fn no_event(alloc: Global, slots: &[Value], e: &Expr) -> Result<Option<Value>, AllocError>
    ensures { IfOk result (λ v. v ≡ spec.no_event_or (spec.valued (slot_value slots.now) e.now) None) }
{
    match valued(alloc, slots, e)? {
        Some(value) => {
            if is_event(&value) {
                return Ok(None);
            }
            Ok(Some(value))
        }
        None => Ok(None),
    }
}

/// The first value of the expressions that is no event.
#[tactic(auto, using(crate::proofs::ChoiceLemmas::found_here, crate::proofs::ChoiceLemmas::not_here, crate::proofs::ChoiceLemmas::not_at_all))]
pub(crate) fn first_no_event(
    alloc: Global,
    slots: &[Value],
    es: &Exprs,
) -> Result<Option<Value>, AllocError>
    ensures { IfOk result (λ found. found ≡ spec.first_no_event (slot_value slots.now) es.now) }
{
    for e in &es.items {
        if let Some(value) = no_event(alloc, slots, e)? {
            return Ok(Some(value));
        }
    }
    Ok(None)
}
