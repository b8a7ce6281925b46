//! What is wrong with a script.

ghost use Rattle.std.specs.{Prelude.{◌≡◌, IfOk}, Option.{option_map}};
ghost use Rattle.cml_explain.specs.{Names.{name_said}, Stands.{standing_at}, Views.{plain_stand, plain_script_trouble}};
ghost use Rattle.cml_explain.specs.Troubles as spec;

use crate::hint::{Hint, hint_of, nearest_hint};
use crate::keyword::Role;
use crate::piece::{item_named, item_parameters, name_said};
use crate::stand::{Stand, stand_at};
use crate::trouble::{Trouble, trouble_of};
use cml_check::CheckKind;
use cml_text::Sexpr;
use std::alloc::{AllocError, Global};

// The name of the function with which a program begins.
const MAIN: &str = "main";

/// What is wrong with a script.
#[derive(Clone, Copy)]
pub struct ScriptTrouble<'a> {
    pub trouble: Trouble,
    /// The byte at which it is met.
    pub at: usize,
    /// Up to which byte the text is marked from there, where it is shown.
    pub marked_to: Option<usize>,
    /// The name that is spoken of.
    pub name: &'a str,
    /// The parameters of the function of this name, where there is one.
    pub parameters: Option<&'a [Sexpr]>,
    pub hint: Option<Hint<'a>>,
}

// The parameters of the function of this name, if there is one.
fn parameters_of<'a>(name: &str, items: &'a [Sexpr]) -> Option<&'a [Sexpr]>
    ensures { option_map (λ forms. forms.now) result ≡ spec.parameters_of name.now items.now }
{
    match item_named(name, items) {
        Some(item) => Some(item_parameters(item)),
        None => None,
    }
}

// What is wrong with a form, where it stands.
fn stand_trouble<'a>(
    alloc: Global,
    kind: CheckKind,
    at: usize,
    stand: Stand<'a>,
    items: &'a [Sexpr],
) -> Result<ScriptTrouble<'a>, AllocError>
    ensures { let stood = plain_stand stand.entry in let name = name_said stood.form in
        IfOk result (λ trouble. plain_script_trouble trouble ≡ spec.stand_trouble kind at stood name items.now) }
{
    let name = name_said(stand.form);
    let trouble = trouble_of(kind, stand);
    let hint = hint_of(alloc, trouble, at, name, stand.form, items)?;
    Ok(ScriptTrouble {
        trouble,
        at,
        marked_to: Some(stand.form.span().end),
        name,
        parameters: parameters_of(name, items),
        hint,
    })
}

// What is wrong where no form starts.
fn lost_trouble(at: usize) -> ScriptTrouble<'static>
    ensures { plain_script_trouble result ≡ spec.lost_trouble at }
{
    ScriptTrouble {
        trouble: Trouble::Wanted(Role::Keyword),
        at,
        marked_to: None,
        name: "",
        parameters: None,
        hint: None,
    }
}

// What is wrong with the form that starts at a byte, if one does.
fn form_trouble<'a>(
    alloc: Global,
    kind: CheckKind,
    at: usize,
    items: &'a [Sexpr],
) -> Result<ScriptTrouble<'a>, AllocError>
    ensures { IfOk result (λ trouble. plain_script_trouble trouble
        ≡ spec.standing_trouble kind at (standing_at at items.now) items.now) }
{
    match stand_at(at, items) {
        Some(stand) => stand_trouble(alloc, kind, at, stand, items),
        None => Ok(lost_trouble(at)),
    }
}

// There is no `main`.
fn main_trouble(at: usize, items: &[Sexpr]) -> ScriptTrouble<'_>
    ensures { plain_script_trouble result ≡ spec.main_trouble at items.now }
{
    ScriptTrouble {
        trouble: Trouble::NoFunction,
        at,
        marked_to: None,
        name: MAIN,
        parameters: None,
        hint: nearest_hint(MAIN, items),
    }
}

/// What is wrong with a script of these forms, whose fault of this kind stands at this byte.
///
/// # Errors
/// Out of memory.
pub fn script_trouble(
    alloc: Global,
    forms: &[Sexpr],
    kind: CheckKind,
    at: usize,
) -> Result<ScriptTrouble<'_>, AllocError>
    ensures { IfOk result (λ trouble. plain_script_trouble trouble
        ≡ spec.script_trouble forms.now (record { kind = kind; at = at })) }
{
    match kind {
        CheckKind::Main => Ok(main_trouble(at, forms)),
        CheckKind::Form
        | CheckKind::Double
        | CheckKind::Function
        | CheckKind::Unbound
        | CheckKind::Arity
        | CheckKind::Limit => form_trouble(alloc, kind, at, forms),
    }
}
