//! What the forms of a script are called.

ghost use Rattle.std.specs.{Prelude.{◌≡◌, find}, Option.{option_map}};
ghost use Rattle.cml_explain.specs.Names as spec;

use crate::near::{is_close, is_next};
use cml_text::{Sexpr, Shape};

/// The forms of a list; none where it is no list.
#[tactic(auto, using(crate::proofs::PieceLemmas::forms_back))]
pub fn members(form: &Sexpr) -> &[Sexpr]
    ensures { result.now ≡ spec.members form.now }
{
    match form.shape() {
        Shape::List(forms) => forms,
        Shape::Name(_) => &[],
        Shape::Int(_) => &[],
        Shape::Text(_) => &[],
    }
}

/// How a name is spelled; nothing where it is no name.
pub fn name_spelled(form: &Sexpr) -> &str
    ensures { result.now ≡ spec.name_spelled form.now }
{
    match form.shape() {
        Shape::Name(name) => name.as_str(),
        Shape::Int(_) => "",
        Shape::Text(_) => "",
        Shape::List(_) => "",
    }
}

// How a name is spelled, if there is one.
fn spelled_in(form: Option<&Sexpr>) -> &str
    ensures { result.now ≡ spec.spelled_in (option_map (λ form. form.now) form.entry) }
{
    match form {
        Some(form) => name_spelled(form),
        None => "",
    }
}

/// The part of this number of a list, if it has one.
pub fn part(number: usize, form: &Sexpr) -> Option<&Sexpr>
    ensures { option_map (λ part. part.now) result ≡ spec.part number form.now }
{
    members(form).get(number)
}

// The name with which a list begins.
fn first_name(form: &Sexpr) -> &str
    ensures { result.now ≡ spec.spelled_in (spec.part 0 form.now) }
{
    spelled_in(part(0, form))
}

/// The name that a form is, or that a list begins with.
pub fn name_said(form: &Sexpr) -> &str
    ensures { result.now ≡ spec.name_said form.now }
{
    match form.shape() {
        Shape::Name(name) => name.as_str(),
        Shape::List(_) => first_name(form),
        Shape::Int(_) => "",
        Shape::Text(_) => "",
    }
}

/// The name of the function that an item is.
pub fn item_name(item: &Sexpr) -> &str
    ensures { result.now ≡ spec.item_name item.now }
{
    spelled_in(part(1, item))
}

/// The parameters of the function.
pub fn item_parameters(item: &Sexpr) -> &[Sexpr]
    ensures { result.now ≡ spec.item_parameters item.now }
{
    match part(2, item) {
        Some(list) => members(list),
        None => &[],
    }
}

/// The first item of this name.
pub fn item_named<'a>(name: &str, items: &'a [Sexpr]) -> Option<&'a Sexpr>
    ensures { option_map (λ item. item.now) result
        ≡ spec.first_named spec.item_name name.now items.now }
{
    items.iter().find(|item| item_name(item) == name)
}

/// The first of these forms that is this name.
pub fn form_named<'a>(name: &str, forms: &'a [Sexpr]) -> Option<&'a Sexpr>
    ensures { option_map (λ form. form.now) result
        ≡ spec.first_named spec.name_spelled name.now forms.now }
{
    forms.iter().find(|form| name_spelled(form) == name)
}

// The first item whose name differs from this one by one letter.
fn next_item<'a>(name: &str, items: &'a [Sexpr]) -> Option<&'a Sexpr>
    ensures { option_map (λ item. item.now) result
        ≡ find (λ item. spec.is_next name.now (spec.item_name item)) items.now }
{
    items.iter().find(|item| is_next(name, item_name(item)))
}

// The first item whose name differs from this one by two letters at most.
fn close_item<'a>(name: &str, items: &'a [Sexpr]) -> Option<&'a Sexpr>
    ensures { option_map (λ item. item.now) result
        ≡ find (λ item. spec.is_close name.now (spec.item_name item)) items.now }
{
    items.iter().find(|item| is_close(name, item_name(item)))
}

/// The item whose name is nearest, if one is near.
#[tactic(auto, using(crate::proofs::OptionLemmas::or_first, crate::proofs::OptionLemmas::or_second))]
pub fn nearest_item<'a>(name: &str, items: &'a [Sexpr]) -> Option<&'a Sexpr>
    ensures { option_map (λ item. item.now) result
        ≡ spec.nearest spec.item_name name.now items.now }
{
    match next_item(name, items) {
        Some(item) => Some(item),
        None => close_item(name, items),
    }
}
