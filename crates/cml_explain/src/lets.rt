//! The names that a function declares.

ghost use Rattle.std.specs.{Prelude.{◌≡◌, ◌++◌, IfOk, OnOk, find, map}, Option.{option_map, option_to_list}, Str.{bytes_eq}};
ghost use Rattle.cml_text.specs.Forms.{plain_forms};
ghost use Rattle.cml_explain.specs.Views.{plain_declared, all_declared};
ghost use Rattle.cml_explain.specs.Names as spec;

use crate::near::{is_close, is_next};
use crate::piece::{item_parameters, name_spelled};
use cml_text::{Sexpr, Shape, Span};
use std::alloc::{AllocError, Global};

/// A name that a function declares, and the byte from which on it is known.
#[derive(Clone, Copy)]
pub struct Declared<'a> {
    pub form: &'a Sexpr,
    pub known_from: usize,
}

// What a list of this span declares itself.
#[tactic(auto, using(crate::proofs::LetLemmas::short_let))]
fn let_declared(span: Span, forms: &[Sexpr]) -> Option<Declared<'_>>
    ensures { option_to_list (option_map plain_declared result) ≡ spec.let_declared span forms.now }
{
    match forms {
        [first, name, ..] => {
            if name_spelled(first) == "let" {
                return Some(Declared {
                    form: name,
                    known_from: span.end,
                });
            }
            None
        }
        _ => None,
    }
}

// Appends what a list of this span declares itself.
fn push_let<'a>(
    span: Span,
    forms: &'a [Sexpr],
    found: &mut Vec<Declared<'a>>,
) -> Result<(), AllocError>
    ensures { let own = spec.let_declared span forms.now in
        OnOk result (all_declared found.new.items ≡ all_declared found.old.items ++ own) }
{
    match let_declared(span, forms) {
        Some(declared) => Ok(found.push(declared)?),
        None => Ok(()),
    }
}

// Appends what is declared in a form.
#[cycle(lets)]
fn push_lets<'a>(form: &'a Sexpr, found: &mut Vec<Declared<'a>>) -> Result<(), AllocError>
    ensures { OnOk result
        (all_declared found.new.items ≡ all_declared found.old.items ++ spec.lets_in form.now) }
{
    match form.shape() {
        Shape::List(forms) => {
            push_let(form.span(), forms, found)?;
            push_lets_among(forms, found)?;
            Ok(())
        }
        Shape::Name(_) => Ok(()),
        Shape::Int(_) => Ok(()),
        Shape::Text(_) => Ok(()),
    }
}

// Appends what is declared in these forms.
#[cycle(lets)]
fn push_lets_among<'a>(forms: &'a [Sexpr], found: &mut Vec<Declared<'a>>) -> Result<(), AllocError>
    ensures { let all = spec.lets_among (plain_forms forms.now) in
        OnOk result (all_declared found.new.items ≡ all_declared found.old.items ++ all) }
{
    for form in forms {
        push_lets(form, found)?;
    }
    Ok(())
}

// The parameters of an item.
fn parameters(alloc: Global, item: &Sexpr) -> Result<Vec<Declared<'_>>, AllocError>
    ensures { IfOk result (λ found.
        all_declared found.items ≡ map spec.parameter_declared (spec.item_parameters item.now)) }
{
    let mut found = Vec::new(alloc);
    for form in item_parameters(item) {
        found.push(Declared {
            form,
            known_from: form.span().end,
        })?;
    }
    Ok(found)
}

/// What an item declares: its parameters, and then what is declared in it.
pub fn declared_in(alloc: Global, item: &Sexpr) -> Result<Vec<Declared<'_>>, AllocError>
    ensures { IfOk result (λ found. all_declared found.items ≡ spec.declared_in item.now) }
{
    let mut found = parameters(alloc, item)?;
    push_lets(item, &mut found)?;
    Ok(found)
}

// The first of these of this name.
fn first_named<'a>(name: &str, found: &[Declared<'a>]) -> Option<Declared<'a>>
    ensures { result ≡ find (λ d. bytes_eq (spec.declared_name (plain_declared d)) name.now) found.now }
{
    found
        .iter()
        .copied()
        .find(|declared| name_spelled(declared.form) == name)
}

/// The first of these of this name.
pub fn declared_named<'a>(name: &str, found: &[Declared<'a>]) -> Option<Declared<'a>>
    ensures { option_map plain_declared result
        ≡ spec.first_named spec.declared_name name.now (all_declared found.now) }
{
    first_named(name, found)
}

// The name, where it is known at a byte; else nothing.
fn known_name<'a>(at: usize, declared: Declared<'a>) -> &'a str
    ensures { result.now ≡ spec.known_name at (plain_declared declared.entry) }
{
    if declared.known_from <= at {
        name_spelled(declared.form)
    } else {
        ""
    }
}

// The first that is known at a byte and differs by one letter.
fn first_next<'a>(at: usize, name: &str, found: &[Declared<'a>]) -> Option<Declared<'a>>
    ensures { result ≡ find (λ d. spec.is_next name.now (spec.known_name at (plain_declared d))) found.now }
{
    found
        .iter()
        .copied()
        .find(|declared| is_next(name, known_name(at, *declared)))
}

// The first that is known at a byte and differs by two letters at most.
fn first_close<'a>(at: usize, name: &str, found: &[Declared<'a>]) -> Option<Declared<'a>>
    ensures { result ≡ find (λ d. spec.is_close name.now (spec.known_name at (plain_declared d))) found.now }
{
    found
        .iter()
        .copied()
        .find(|declared| is_close(name, known_name(at, *declared)))
}

// The same by what the names are.
fn known_next<'a>(at: usize, name: &str, found: &[Declared<'a>]) -> Option<Declared<'a>>
    ensures { option_map plain_declared result
        ≡ find (λ d. spec.is_next name.now (spec.known_name at d)) (all_declared found.now) }
{
    first_next(at, name, found)
}

// The same by what the names are.
fn known_close<'a>(at: usize, name: &str, found: &[Declared<'a>]) -> Option<Declared<'a>>
    ensures { option_map plain_declared result
        ≡ find (λ d. spec.is_close name.now (spec.known_name at d)) (all_declared found.now) }
{
    first_close(at, name, found)
}

/// Of those that are known at a byte, the one whose name is nearest to this one, if one is near.
#[tactic(auto, using(crate::proofs::OptionLemmas::or_first, crate::proofs::OptionLemmas::or_second))]
pub fn nearest_known<'a>(at: usize, name: &str, found: &[Declared<'a>]) -> Option<Declared<'a>>
    ensures { option_map plain_declared result
        ≡ spec.nearest (spec.known_name at) name.now (all_declared found.now) }
{
    match known_next(at, name, found) {
        Some(declared) => Some(declared),
        None => known_close(at, name, found),
    }
}
