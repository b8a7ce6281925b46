//! The names that the forms of a script give its functions and their variables.
ghost use Rattle.std.specs.{Prelude.{◌≡◌, ◌++◌, ◌∷◌, [], IfOk, OnOk, map}, List.{flat_map, fold}};
ghost use Rattle.cml_text.specs.Forms.{plain_forms, forms_list};
ghost use Rattle.cml_check.specs.Names.{with_name};
ghost use Rattle.cml_phrase.specs.Statements.{parts_of};
ghost use Rattle.cml_phrase.specs.declared.keyword.Keyword.TheVariants as keywords;
ghost use Rattle.cml_phrase.specs.Names as spec;

use crate::keyword::{Keyword, keyword_of};
use crate::parts::{form_name, headed, parts};
use crate::statement::statements;
use cml_text::Sexpr;
use indexmap::IndexSet;
use std::alloc::{AllocError, Global};

/// The name of the function of this number; empty where the forms have none.
pub fn function_name(forms: &[Sexpr], func: u32) -> &str
    ensures { result.now ≡ spec.function_name forms.now func }
{
    match forms.get(func as usize) {
        Some(item) => name_among(parts(item)),
        None => "",
    }
}

// The name of the function whose parts these are.
#[tactic(auto, using(crate::proofs::NameLemmas::no_name))]
fn name_among(forms: &[Sexpr]) -> &str
    ensures { result.now ≡ spec.name_among (plain_forms forms.now) }
{
    let [_, name, ..] = forms else {
        return "";
    };
    form_name(name)
}

/// The names that a function declares, each at the number of its slot: its parameters, then those of its `let`s as they come, none
/// twice.
///
/// # Errors
/// Out of memory.
pub fn slot_names(alloc: Global, forms: &[Sexpr], func: u32) -> Result<Vec<&str>, AllocError>
    ensures { IfOk result (λ names. map (λ name. name.now) names.items
        ≡ spec.slot_names forms.now func) }
{
    match forms.get(func as usize) {
        Some(item) => declared_names(alloc, item),
        None => Ok(Vec::new(alloc)),
    }
}

// The names that an item declares, each once.
fn declared_names(alloc: Global, item: &Sexpr) -> Result<Vec<&str>, AllocError>
    ensures { IfOk result (λ names. map (λ name. name.now) names.items
        ≡ spec.declared_names item.now) }
{
    let mut names = Vec::new(alloc);
    push_parameters(&mut names, parts(item))?;
    let found = statements(alloc, item)?;
    push_lets(&mut names, found.as_slice())?;
    each_once(alloc, names.as_slice())
}

// Appends the parameters of the function whose parts these are.
#[tactic(auto, using(crate::proofs::NameLemmas::no_parameters))]
fn push_parameters<'a>(names: &mut Vec<&'a str>, forms: &'a [Sexpr]) -> Result<(), AllocError>
    ensures { let parameters = forms_list (spec.parameters_among (plain_forms forms.now)) in
        OnOk result (map (λ name. name.now) names.new.items
        ≡ map (λ name. name.now) names.old.items ++ map spec.form_name parameters) }
{
    let [_, _, list, ..] = forms else {
        return Ok(());
    };
    push_names(names, parts(list))?;
    Ok(())
}

// Appends how each of these forms is spelled.
fn push_names<'a>(names: &mut Vec<&'a str>, forms: &'a [Sexpr]) -> Result<(), AllocError>
    ensures { OnOk result (map (λ name. name.now) names.new.items
        ≡ map (λ name. name.now) names.old.items ++ map spec.form_name forms.now) }
{
    for form in forms {
        names.push(form_name(form))?;
    }
    Ok(())
}

// Appends what each of these statements declares.
fn push_lets<'a>(names: &mut Vec<&'a str>, found: &[&'a Sexpr]) -> Result<(), AllocError>
    ensures { OnOk result (map (λ name. name.now) names.new.items
        ≡ map (λ name. name.now) names.old.items ++ flat_map spec.let_name (map (λ s. s.now) found.now)) }
{
    for form in found {
        push_let(names, form)?;
    }
    Ok(())
}

// Appends what a statement declares.
fn push_let<'a>(names: &mut Vec<&'a str>, form: &'a Sexpr) -> Result<(), AllocError>
    ensures { OnOk result (map (λ name. name.now) names.new.items
        ≡ map (λ name. name.now) names.old.items ++ spec.let_name form.now) }
{
    match headed(form) {
        Some((first, behind)) => push_let_by(names, keyword_of(first), behind),
        None => Ok(()),
    }
}

// Appends the same, by its keyword and the forms after it.
fn push_let_by<'a>(
    names: &mut Vec<&'a str>,
    keyword: Keyword,
    behind: &'a [Sexpr],
) -> Result<(), AllocError>
    ensures { OnOk result (map (λ name. name.now) names.new.items
        ≡ map (λ name. name.now) names.old.items ++ spec.let_by keyword (plain_forms behind.now)) }
{
    match keyword {
        Keyword::Let => push_variable(names, behind),
        _ => Ok(()),
    }
}

// Appends a name.
fn push_name<'a>(names: &mut Vec<&'a str>, name: &'a str) -> Result<(), AllocError>
    ensures { OnOk result (map (λ name. name.now) names.new.items
        ≡ map (λ name. name.now) names.old.items ++ name.now ∷ []) }
{
    Ok(names.push(name)?)
}

// Appends the variable of a `let`, by the forms after its keyword.
#[tactic(auto, using(crate::proofs::NameLemmas::no_let))]
fn push_variable<'a>(names: &mut Vec<&'a str>, behind: &'a [Sexpr]) -> Result<(), AllocError>
    ensures { OnOk result (map (λ name. name.now) names.new.items
        ≡ map (λ name. name.now) names.old.items ++ spec.let_by keywords.Let (plain_forms behind.now)) }
{
    let [name, _] = behind else {
        return Ok(());
    };
    push_name(names, form_name(name))?;
    Ok(())
}

// Each of these names once, where it stands first.
#[tactic(auto, using(crate::proofs::NameLemmas::each_next))]
fn each_once<'a>(alloc: Global, names: &[&'a str]) -> Result<Vec<&'a str>, AllocError>
    ensures { IfOk result (λ once. map (λ name. name.now) once.items
        ≡ fold with_name [] (map (λ name. name.now) names.now)) }
{
    let mut seen = IndexSet::new(alloc);
    for name in names {
        declare(&mut seen, name)?;
    }
    Vec::from_slice(alloc, seen.as_slice())
}

// Adds a name, unless it is there.
fn declare<'a>(seen: &mut IndexSet<&'a str>, name: &'a str) -> Result<(), AllocError>
    ensures { OnOk result (map (λ name. name.now) seen.new.keys
        ≡ with_name (map (λ name. name.now) seen.old.keys) name.now) }
{
    let (_slot, _added) = seen.insert_full(name)?;
    Ok(())
}
