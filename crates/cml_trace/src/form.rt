//! The numbers and values that forms of a trace are.

ghost use Rattle.std.specs.Prelude.{◌≡◌, map, IfOk, option_map};
ghost use Rattle.cml_trace.specs.Given.{all_of};
ghost use Rattle.cml_trace.specs.ValueForms as spec;

use crate::keyword::{Keyword, keyword_from, keyword_of};
use cml_text::{Sexpr, Shape, number_from};
use cml_value::{ChanId, IVarId, MVarId, MboxId, McastId, PortId, SwapId, Tid, Value, ValueKind};
use std::alloc::{AllocError, Global};

/// The value that the form is, if it is one.
pub fn value_from(alloc: Global, form: &Sexpr) -> Result<Option<Value>, AllocError>
    ensures { IfOk result (λ value. value ≡ spec.value_from form.now) }
{
    let parts = match form.shape() {
        Shape::Name(name) => return Ok(truth_of(keyword_of(name.as_str()))),
        Shape::Int(z) => return Ok(Some(Value::new(ValueKind::Int(z)))),
        Shape::Text(text) => return Ok(Some(Value::text(alloc, text)?)),
        Shape::List(parts) => parts,
    };
    if parts.is_empty() {
        return Ok(Some(Value::new(ValueKind::Unit)));
    }
    match parts {
        [kind, number] => Ok(object_from(keyword_from(kind), number_from(number))),
        [kind, first, second] => {
            let first = value_from(alloc, first)?;
            let second = value_from(alloc, second)?;
            pair_from(alloc, keyword_from(kind), first, second)
        }
        _ => Ok(None),
    }
}

/// The number and the value that these two forms are, if they are.
pub fn number_and_value(alloc: Global, forms: &[Sexpr]) -> Result<Option<(u32, Value)>, AllocError>
    ensures { IfOk result (λ given. given ≡ spec.number_and_value forms.now) }
{
    let [number, form] = forms else {
        return Ok(None);
    };
    let Some(number) = number_from(number) else {
        return Ok(None);
    };
    match value_from(alloc, form)? {
        Some(value) => Ok(Some((number, value))),
        None => Ok(None),
    }
}

/// The values that the forms are, if each is one.
pub fn values_from(alloc: Global, forms: &[Sexpr]) -> Result<Option<Vec<Value>>, AllocError>
    ensures { let values = all_of (map spec.value_from forms.now) in
        IfOk result (λ found. option_map (λ vs. vs.items) found ≡ values) }
{
    let mut values = Vec::new(alloc);
    for form in forms {
        let Some(value) = value_from(alloc, form)? else {
            return Ok(None);
        };
        values.push(value)?;
    }
    Ok(Some(values))
}

fn truth_of(keyword: Option<Keyword>) -> Option<Value>
    ensures { result ≡ spec.truth_of keyword }
{
    match keyword {
        Some(Keyword::True) => Some(Value::new(ValueKind::Bool(true))),
        Some(Keyword::False) => Some(Value::new(ValueKind::Bool(false))),
        _ => None,
    }
}

// The pair of two values, if they are there, after the keyword for pairs.
fn pair_from(
    alloc: Global,
    kind: Option<Keyword>,
    first: Option<Value>,
    second: Option<Value>,
) -> Result<Option<Value>, AllocError>
    ensures { IfOk result (λ value. value ≡ spec.pair_value kind first second) }
{
    if kind != Some(Keyword::Pair) {
        drop(first);
        drop(second);
        return Ok(None);
    }
    match first.zip(second) {
        Some((first, second)) => Ok(Some(Value::pair(alloc, first, second)?)),
        None => Ok(None),
    }
}

// The thread or object of this kind and number.
fn object_from(kind: Option<Keyword>, number: Option<u32>) -> Option<Value>
    ensures { result ≡ spec.object_from kind number }
{
    let n = number?;
    let kind = match kind? {
        Keyword::Thread => ValueKind::Thread(Tid(n)),
        Keyword::Chan => ValueKind::Chan(ChanId(n)),
        Keyword::SwapChan => ValueKind::Swap(SwapId(n)),
        Keyword::IVar => ValueKind::IVar(IVarId(n)),
        Keyword::MVar => ValueKind::MVar(MVarId(n)),
        Keyword::Mailbox => ValueKind::Mailbox(MboxId(n)),
        Keyword::Mchan => ValueKind::Mchan(McastId(n)),
        Keyword::Port => ValueKind::Port(PortId(n)),
        _ => return None,
    };
    Some(Value::new(kind))
}
