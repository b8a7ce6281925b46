//! The heads of a script's items: which functions there are.

ghost use Rattle.std.specs.Prelude.{◌≡◌, ◌<◌, ◌≤◌, List, [], codes, length, IfSome, IfOk, true, Some};
ghost use Rattle.cml_text.specs.Forms.{plain_forms, span_of};
ghost use Rattle.cml_check.specs.{Checked.{Finds}, Heads.{arities_of, function_limit, function_number, takes, name_place, heads_from}};
ghost use Rattle.cml_check.specs.HeadViews.{plain_head, plain_heads};
ghost use Rattle.cml_check.specs.Heads as spec;
ghost use Rattle.cml_check.specs.declared.word.Word.TheVariants as words;

use crate::fault::{CheckFault, CheckKind, fault_at};
use crate::names::{Names, free_name};
use crate::parts::{headed, parts};
use crate::word::{Word, word_from};
use cml_text::Sexpr;
use std::alloc::Global;
use std::marker::Model;

// The most functions of a script.
const FUNCTION_LIMIT: usize = 1024;

/// The head of an item: the function's name and where it stands, its parameters, and the forms of its statements.
#[derive(Drop)]
pub struct Head<'a> {
    pub name: &'a str,
    pub at: usize,
    pub parameters: Names<'a>,
    pub body: &'a [Sexpr],
}

/// The heads of a script's items. Each function is found by its name.
#[derive(Drop)]
pub struct Heads<'a> {
    names: Names<'a>,
    items: Vec<Head<'a>>,
}

impl<'a> Model for Heads<'a> {
    ghost use Rattle.std.specs.{Prelude.{List}, Coded.{coded_list}};
    ghost use Rattle.cml_check.specs.{Heads.{PlainHead}, HeadViews.{plain_heads, head_code, AreHeads}};

    ghost Value = { List PlainHead };

    ghost coded = { coded_list head_code };

    ghost view = { λ a. plain_heads a.items.items };

    ghost invariant = { λ a. AreHeads a.names (plain_heads a.items.items) };
}

impl<'a> Heads<'a> {
    /// The number of the first function of this name.
    pub fn number(&self, name: &str) -> Option<u32>
        ensures { result ≡ function_number self.now name.now }
    {
        let at = self.names.position(name)?;
        Some(at as u32)
    }

    /// Whether the function of this number takes that many values.
    pub fn takes(&self, number: u32, count: usize) -> bool
        ensures { result ≡ takes (arities_of self.now) number count }
    {
        match self.items.get(number as usize) {
            Some(head) => head.parameters.len() == count,
            None => false,
        }
    }

    /// The heads, in the order of the items.
    pub fn as_slice(&self) -> &[Head<'a>]
        ensures heads { plain_heads result.now ≡ self.now }
        ensures few { length self.now ≤ function_limit }
    {
        self.items.as_slice()
    }

    // Where the name of the function of this number stands.
    fn place(&self, number: u32) -> usize
        ensures { result ≡ name_place self.now number }
    {
        match self.items.get(number as usize) {
            Some(head) => head.at,
            None => 0,
        }
    }
}

/// The number of the function that the form names, if it takes that many values.
#[tactic(auto, unfolding(crate::specs::Heads::function_in))]
pub fn function(heads: &Heads<'_>, form: &Sexpr, count: usize) -> Result<u32, CheckFault>
    ensures gives { Finds (λ number. number) result (spec.function_in heads.now count form.now) }
    ensures takes { IfOk result (λ number. takes (arities_of heads.now) number count ≡ true) }
{
    let name = free_name(form)?;
    let Some(number) = heads.number(name) else {
        return Err(fault_at(CheckKind::Function, form));
    };
    if !heads.takes(number, count) {
        return Err(fault_at(CheckKind::Arity, form));
    }
    Ok(number)
}

// The parameters of a list of names.
#[tactic(auto, unfolding(crate::specs::Heads::parameters_in), using(crate::proofs::HeadLemmas::no_parameters, crate::proofs::HeadLemmas::list_parameters))]
fn parameters(alloc: Global, form: &Sexpr) -> Result<Names<'_>, CheckFault>
    ensures { Finds (λ names. names) result (spec.parameters_in form.now) }
{
    match parts(form) {
        Some(forms) => parameters_of(alloc, forms),
        None => Err(fault_at(CheckKind::Form, form)),
    }
}

// The names that these forms are, none twice.
fn parameters_of(alloc: Global, forms: &[Sexpr]) -> Result<Names<'_>, CheckFault>
    ensures { Finds (λ names. names) result (spec.parameters_from [] (plain_forms forms.now)) }
{
    let mut names = Names::new(alloc);
    for form in forms {
        let name = free_name(form)?;
        if names.has(name) {
            return Err(fault_at(CheckKind::Form, form));
        }
        names.declare(name)?;
    }
    Ok(names)
}

// The head of an item.
#[tactic(auto, using(crate::proofs::HeadLemmas::no_head, crate::proofs::HeadLemmas::headed_head))]
fn head_of(alloc: Global, form: &Sexpr) -> Result<Head<'_>, CheckFault>
    ensures { Finds plain_head result (spec.head_in form.now) }
{
    match headed(form) {
        Some((first, behind)) => head_by(alloc, form, word_from(first), behind),
        None => Err(fault_at(CheckKind::Form, form)),
    }
}

// The head of an item whose parts are these, by the keyword that it begins with.
#[tactic(auto, unfolding(crate::specs::Heads::head_by))]
fn head_by<'a>(
    alloc: Global,
    form: &Sexpr,
    word: Option<Word>,
    behind: &'a [Sexpr],
) -> Result<Head<'a>, CheckFault>
    ensures { Finds plain_head result
        (spec.head_by (span_of form.now) word (plain_forms behind.now)) }
{
    match word {
        Some(Word::Fn) => fn_head(alloc, form, behind),
        _ => Err(fault_at(CheckKind::Form, form)),
    }
}

// The head of an item whose parts after the keyword `fn` are these.
#[tactic(auto, unfolding(crate::specs::Heads::head_by), using(crate::proofs::HeadLemmas::short_head))]
fn fn_head<'a>(alloc: Global, form: &Sexpr, behind: &'a [Sexpr]) -> Result<Head<'a>, CheckFault>
    ensures { Finds plain_head result
        (spec.head_by (span_of form.now) (Some words.Fn) (plain_forms behind.now)) }
{
    match behind {
        [name, list, body @ ..] => {
            let at = name.span().start;
            let name = free_name(name)?;
            let parameters = parameters(alloc, list)?;
            Ok(Head {
                name,
                at,
                parameters,
                body,
            })
        }
        _ => Err(fault_at(CheckKind::Form, form)),
    }
}

/// The heads of these items.
pub fn heads_of(alloc: Global, forms: &[Sexpr]) -> Result<Heads<'_>, CheckFault>
    ensures { Finds (λ heads. heads) result (heads_from [] forms.now) }
{
    let mut names = Names::new(alloc);
    let mut items = Vec::new(alloc);
    for form in forms {
        if items.len() >= FUNCTION_LIMIT {
            return Err(fault_at(CheckKind::Limit, form));
        }
        let head = head_of(alloc, form)?;
        if names.has(head.name) {
            return Err(CheckFault::At {
                kind: CheckKind::Double,
                at: head.at,
            });
        }
        names.declare(head.name)?;
        items.push(head)?;
    }
    Ok(Heads { names, items })
}

/// The number of `main`, which is there and has no parameter.
#[tactic(auto, unfolding(crate::specs::Heads::main_in))]
pub fn main_function(heads: &Heads<'_>) -> Result<u32, CheckFault>
    ensures gives { Finds (λ _. Prim.tt) result (spec.main_in heads.now) }
    ensures found { IfOk result (λ number. function_number heads.now (codes "main") ≡ Some number) }
    ensures takes { IfOk result (λ number. takes (arities_of heads.now) number 0 ≡ true) }
{
    let Some(number) = heads.number("main") else {
        return Err(CheckFault::At {
            kind: CheckKind::Main,
            at: 0,
        });
    };
    if !heads.takes(number, 0) {
        return Err(CheckFault::At {
            kind: CheckKind::Arity,
            at: heads.place(number),
        });
    }
    Ok(number)
}
