//! Threads, values and places.

ghost use Rattle.std.specs.Prelude.{◌≡◌, ◌++◌, OnOk, map, option_map};
ghost use Rattle.cml_json.specs.Json.{array, optional};
ghost use Rattle.cml_json.specs.Runs as spec;
ghost use Rattle.cml_step.specs.Terms.{list_of};
ghost use Rattle.cml_value.specs.Value.{args_of};

use crate::text::{push_comma, push_null, push_number, push_string};
use cml_facts::ending::Named;
use cml_phrase::{Place, function_name};
use cml_text::Sexpr;
use cml_value::{FnRef, Value};
use std::alloc::{AllocError, Global};

/// Appends these bytes, and a place, or `null`.
///
/// # Errors
/// Out of memory.
#[tactic(auto, unfolding(crate::specs::Json::optional, crate::specs::Runs::place_json))]
pub(crate) fn push_place(
    alloc: Global,
    text: &mut Vec<u8>,
    before: &[u8],
    place: Option<Place>,
) -> Result<(), AllocError>
    ensures { OnOk result (text.new.items ≡ text.old.items ++ (before.now ++ optional spec.place_json place)) }
{
    let Some(place) = place else {
        return push_null(text, before);
    };
    text.extend_from_slice(before)?;
    push_number(alloc, text, b"{\"line\":", place.line as u64)?;
    push_number(alloc, text, b",\"column\":", place.column as u64)?;
    text.extend_from_slice(b"}")
}

/// Appends these bytes, and a value.
///
/// # Errors
/// Out of memory.
#[tactic(auto, unfolding(crate::specs::Runs::value_json))]
pub(crate) fn push_value(
    alloc: Global,
    text: &mut Vec<u8>,
    before: &[u8],
    value: &Value,
) -> Result<(), AllocError>
    ensures { OnOk result (text.new.items ≡ text.old.items ++ (before.now ++ spec.value_json value.now)) }
{
    let shown = value.show(alloc)?;
    push_string(text, before, shown.as_bytes())
}

/// Appends these bytes, and a value, or `null`.
///
/// # Errors
/// Out of memory.
#[tactic(auto, unfolding(crate::specs::Json::optional))]
pub(crate) fn push_optional_value(
    alloc: Global,
    text: &mut Vec<u8>,
    before: &[u8],
    value: Option<&Value>,
) -> Result<(), AllocError>
    ensures { OnOk result (text.new.items ≡ text.old.items ++ (before.now ++ optional spec.value_json (option_map (λ v. v.now) value.entry))) }
{
    match value {
        Some(value) => push_value(alloc, text, before, value),
        None => push_null(text, before),
    }
}

// Appends a list of values.
#[tactic(auto, unfolding(crate::specs::Json::array))]
fn push_values(alloc: Global, text: &mut Vec<u8>, values: &[Value]) -> Result<(), AllocError>
    ensures { OnOk result (text.new.items ≡ text.old.items ++ array (map spec.value_json values.now)) }
{
    text.extend_from_slice(b"[")?;
    for place in 0..values.len() {
        push_comma(text, place)?;
        push_value(alloc, text, b"", &values[place])?;
    }
    text.extend_from_slice(b"]")
}

// Appends what this function was given.
fn push_own(alloc: Global, text: &mut Vec<u8>, function: &FnRef) -> Result<(), AllocError>
    ensures { OnOk result (text.new.items ≡ text.old.items ++ array (map spec.value_json (list_of (args_of function.now)))) }
{
    let values = function.args();
    push_values(alloc, text, values)
}

// Appends what a function was given.
#[tactic(auto, unfolding(crate::specs::Runs::given_json, crate::specs::Json::array))]
fn push_given(alloc: Global, text: &mut Vec<u8>, began: Option<&FnRef>) -> Result<(), AllocError>
    ensures { OnOk result (text.new.items ≡ text.old.items ++ spec.given_json (option_map (λ f. f.now) began.entry)) }
{
    match began {
        Some(function) => push_own(alloc, text, function),
        None => text.extend_from_slice(b"[]"),
    }
}

// Appends these bytes, and the name of a function, or `null`.
#[tactic(auto, unfolding(crate::specs::Runs::function_json, crate::specs::Json::optional))]
fn push_function(
    text: &mut Vec<u8>,
    before: &[u8],
    forms: &[Sexpr],
    began: Option<&FnRef>,
) -> Result<(), AllocError>
    ensures { OnOk result (text.new.items ≡ text.old.items ++ (before.now ++ spec.function_json forms.now (option_map (λ f. f.now) began.entry))) }
{
    match began {
        Some(function) => {
            push_string(
                text,
                before,
                function_name(forms, function.func()).as_bytes(),
            )
        }
        None => push_null(text, before),
    }
}

// Appends the function with which a thread began, and what that was given.
#[tactic(auto, unfolding(crate::specs::Runs::began_members))]
fn push_began(
    alloc: Global,
    text: &mut Vec<u8>,
    forms: &[Sexpr],
    began: Option<&FnRef>,
) -> Result<(), AllocError>
    ensures { OnOk result (text.new.items ≡ text.old.items ++ spec.began_members forms.now (option_map (λ f. f.now) began.entry)) }
{
    push_function(text, b",\"function\":", forms, began)?;
    text.extend_from_slice(b",\"arguments\":")?;
    push_given(alloc, text, began)
}

/// Appends these bytes, and a thread.
///
/// # Errors
/// Out of memory.
#[tactic(auto, unfolding(crate::specs::Runs::named_json, crate::specs::Runs::began_members))]
pub(crate) fn push_named(
    alloc: Global,
    text: &mut Vec<u8>,
    before: &[u8],
    forms: &[Sexpr],
    named: &Named,
) -> Result<(), AllocError>
    ensures { OnOk result (text.new.items ≡ text.old.items ++ (before.now ++ spec.named_json forms.now named.now)) }
{
    text.extend_from_slice(before)?;
    push_number(alloc, text, b"{\"number\":", u64::from(named.thread))?;
    push_began(alloc, text, forms, named.began.as_ref())?;
    text.extend_from_slice(b"}")
}

/// Appends these bytes, and a thread, or `null`.
///
/// # Errors
/// Out of memory.
#[tactic(auto, unfolding(crate::specs::Json::optional))]
pub(crate) fn push_optional_named(
    alloc: Global,
    text: &mut Vec<u8>,
    before: &[u8],
    forms: &[Sexpr],
    named: Option<&Named>,
) -> Result<(), AllocError>
    ensures { OnOk result (text.new.items ≡ text.old.items ++ (before.now ++ optional (spec.named_json forms.now) (option_map (λ n. n.now) named.entry))) }
{
    match named {
        Some(named) => push_named(alloc, text, before, forms, named),
        None => push_null(text, before),
    }
}
