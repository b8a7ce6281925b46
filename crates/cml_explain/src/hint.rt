//! What helps where something is wrong with a script: the name that is nearest, or where that stands of which is spoken.

ghost use Rattle.std.specs.{Prelude.{◌≡◌, IfOk}, Option.{option_map}};
ghost use Rattle.cml_explain.specs.{Names.{nearest, item_name, keyword_near}, Stands.{item_over}};
ghost use Rattle.cml_explain.specs.Views.{plain_hint, plain_declared, all_declared};
ghost use Rattle.cml_explain.specs.Troubles as spec;

use crate::keyword::keyword_entry;
use crate::lets::{Declared, declared_in, declared_named, nearest_known};
use crate::near::nearest_keyword;
use crate::piece::{
    form_named, item_named, item_parameters, members, name_spelled, nearest_item, part,
};
use crate::stand::item_over;
use crate::trouble::Trouble;
use cml_text::Sexpr;
use std::alloc::{AllocError, Global};

/// What is said of a name or a form that helps.
#[derive(Clone, Copy, PartialEq, Eq)]
pub enum HintKind {
    /// It is the keyword that is nearest.
    Nearest,
    /// It is declared.
    Declared,
    /// It is the first function of its name.
    First,
    /// It is a function, where a variable is wanted.
    NoVariable,
    /// It is a function, where a keyword is wanted.
    NoKeyword,
    /// It is known only behind its `let`.
    KnownLater,
    /// It is the first that is one too many.
    Surplus,
    /// It is the first parameter of its name.
    FirstParameter,
}

/// What helps: of what kind it is, the name of which it speaks, and where that stands.
#[derive(Clone, Copy)]
pub struct Hint<'a> {
    pub kind: HintKind,
    pub name: &'a str,
    pub at: Option<usize>,
}

// A form.
fn form_hint(kind: HintKind, form: &Sexpr) -> Hint<'_>
    ensures { plain_hint result ≡ spec.form_hint kind form.now }
{
    Hint {
        kind,
        name: name_spelled(form),
        at: Some(form.span().start),
    }
}

// A form, if there is one.
fn hint_at(kind: HintKind, form: Option<&Sexpr>) -> Option<Hint<'_>>
    ensures { option_map plain_hint result
        ≡ option_map (spec.form_hint kind) (option_map (λ form. form.now) form.entry) }
{
    match form {
        Some(form) => Some(form_hint(kind, form)),
        None => None,
    }
}

// The name of the function that an item is.
fn item_hint(kind: HintKind, item: Option<&Sexpr>) -> Option<Hint<'_>>
    ensures { option_map plain_hint result
        ≡ spec.item_hint kind (option_map (λ item. item.now) item.entry) }
{
    match item {
        Some(item) => hint_at(kind, part(1, item)),
        None => None,
    }
}

// A name that a function declares, if there is one.
fn declared_hint(kind: HintKind, declared: Option<Declared<'_>>) -> Option<Hint<'_>>
    ensures { option_map plain_hint result
        ≡ option_map (spec.declared_hint kind) (option_map plain_declared declared.entry) }
{
    match declared {
        Some(declared) => Some(form_hint(kind, declared.form)),
        None => None,
    }
}

// The keyword that is nearest to a name, if one is near.
fn keyword_hint(name: &str) -> Option<Hint<'static>>
    ensures { option_map plain_hint result ≡ option_map spec.keyword_hint (keyword_near name.now) }
{
    match nearest_keyword(name) {
        Some(spelling) => Some(Hint {
            kind: HintKind::Nearest,
            name: spelling,
            at: None,
        }),
        None => None,
    }
}

// What helps where a list begins with a name that is no keyword.
#[tactic(auto, using(crate::proofs::OptionLemmas::or_first, crate::proofs::OptionLemmas::or_second))]
fn unknown_hint<'a>(name: &str, items: &'a [Sexpr]) -> Option<Hint<'a>>
    ensures { option_map plain_hint result ≡ spec.unknown_hint name.now items.now }
{
    match item_hint(HintKind::NoKeyword, item_named(name, items)) {
        Some(hint) => Some(hint),
        None => keyword_hint(name),
    }
}

// The first of the parts behind a keyword that is one too many.
fn surplus(most: Option<usize>, form: &Sexpr) -> Option<&Sexpr>
    ensures { option_map (λ part. part.now) result ≡ spec.surplus most form.now }
{
    let most = most?;
    match members(form) {
        [] => None,
        [_, behind @ ..] => behind.get(most),
    }
}

// The first parameter of this name, of the function in which a byte stands.
fn parameter_over<'a>(at: usize, name: &str, items: &'a [Sexpr]) -> Option<&'a Sexpr>
    ensures { option_map (λ form. form.now) result ≡ spec.parameter_over at name.now items.now }
{
    let item = item_over(at, items)?;
    form_named(name, item_parameters(item))
}

// What a function declares, if it is one.
fn declared_over(alloc: Global, item: Option<&Sexpr>) -> Result<Vec<Declared<'_>>, AllocError>
    ensures { IfOk result (λ found. all_declared found.items
        ≡ spec.declared_over (option_map (λ item. item.now) item.entry)) }
{
    match item {
        Some(item) => declared_in(alloc, item),
        None => Ok(Vec::new(alloc)),
    }
}

// What helps where a variable is wanted, and the function in which it stands declares no such name: a function of this name, or one that is near.
#[tactic(auto, using(crate::proofs::OptionLemmas::or_first, crate::proofs::OptionLemmas::or_second))]
fn other_hint<'a>(
    at: usize,
    name: &str,
    items: &'a [Sexpr],
    found: &[Declared<'a>],
) -> Option<Hint<'a>>
    ensures { option_map plain_hint result
        ≡ spec.other_hint at name.now items.now (all_declared found.now) }
{
    match item_hint(HintKind::NoVariable, item_named(name, items)) {
        Some(hint) => Some(hint),
        None => declared_hint(HintKind::Declared, nearest_known(at, name, found)),
    }
}

// What helps where a name is not declared by what is known of these.
#[tactic(auto, using(crate::proofs::OptionLemmas::or_first, crate::proofs::OptionLemmas::or_second))]
fn undeclared_among<'a>(
    at: usize,
    name: &str,
    items: &'a [Sexpr],
    found: &[Declared<'a>],
) -> Option<Hint<'a>>
    ensures { option_map plain_hint result
        ≡ spec.undeclared_hint at name.now items.now (all_declared found.now) }
{
    match declared_hint(HintKind::KnownLater, declared_named(name, found)) {
        Some(hint) => Some(hint),
        None => other_hint(at, name, items, found),
    }
}

// What helps where a name is not declared.
fn undeclared_hint<'a>(
    alloc: Global,
    at: usize,
    name: &str,
    items: &'a [Sexpr],
) -> Result<Option<Hint<'a>>, AllocError>
    ensures { let found = spec.declared_over (item_over at items.now) in
        IfOk result (λ hint. option_map plain_hint hint
        ≡ spec.undeclared_hint at name.now items.now found) }
{
    let found = declared_over(alloc, item_over(at, items))?;
    Ok(undeclared_among(at, name, items, found.as_slice()))
}

/// The function whose name is nearest to this one, if one is near.
pub fn nearest_hint<'a>(name: &str, items: &'a [Sexpr]) -> Option<Hint<'a>>
    ensures { option_map plain_hint result
        ≡ spec.item_hint HintKind.Declared (nearest item_name name.now items.now) }
{
    item_hint(HintKind::Declared, nearest_item(name, items))
}

/// What helps where a trouble is met at a byte, of this name, with this form of a script.
///
/// # Errors
/// Out of memory.
pub fn hint_of<'a>(
    alloc: Global,
    trouble: Trouble,
    at: usize,
    name: &str,
    form: &'a Sexpr,
    items: &'a [Sexpr],
) -> Result<Option<Hint<'a>>, AllocError>
    ensures { IfOk result (λ hint. option_map plain_hint hint
        ≡ spec.hint_of trouble at name.now form.now items.now) }
{
    match trouble {
        Trouble::Unknown(_) => Ok(unknown_hint(name, items)),
        Trouble::Exceeds(word, _) => Ok(hint_at(
            HintKind::Surplus,
            surplus(keyword_entry(word).most, form),
        )),
        Trouble::Twice => Ok(hint_at(HintKind::FirstParameter, parameter_over(at, name, items))),
        Trouble::Undeclared => undeclared_hint(alloc, at, name, items),
        Trouble::NoFunction => Ok(nearest_hint(name, items)),
        Trouble::Again => Ok(item_hint(HintKind::First, item_named(name, items))),
        Trouble::Given(_, _) => Ok(item_hint(HintKind::Declared, item_named(name, items))),
        _ => Ok(None),
    }
}
