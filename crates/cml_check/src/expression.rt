//! The expressions that forms are.

ghost use Rattle.std.specs.Prelude.{◌≡◌, ℕ, ◌+◌, ◌≤◌, IfOk, List, Some, length, true};
ghost use Rattle.cml_text.specs.Forms.{plain_forms, span_of};
ghost use Rattle.cml_check.specs.{Syntax.{exprs_map, call_map, name_at}, Checked.{Finds}, Heads.{arities_of, takes, function_in}};
ghost use Rattle.cml_check.specs.Expressions.{count, name_in, expr_in, list_in, exprs_in, called_in};
ghost use Rattle.cml_check.specs.{ExpressionParts.{unary_in, binary_in, wrap_in, choose_in, guard_in, nack_in}, InOrder.{expr_fits, exprs_fit, exprs_count}};
ghost use Rattle.cml_check.specs.{Returned.{FindsExpr, ExprIsInOrder}, Words.{word_of as word_spelled}};
ghost use Rattle.cml_check.specs.declared.word.Word.TheVariants as words;

use crate::compound;
use crate::fault::{CheckFault, CheckKind, fault_at};
use crate::head::{Heads, function};
use crate::names::Names;
use crate::parts::headed;
use crate::syntax::{Binary, Expr, ExprKind, Exprs, Unary};
use crate::word::{Word, word_from, word_of};
use cml_text::{Sexpr, Shape};
use std::alloc::Global;
use std::sync::ArcStr;

/// The expression that the form is, among these functions and where these names are declared.
#[cycle(expression)]
#[tactic(auto, using(crate::proofs::ExpressionLemmas::number_form, crate::proofs::ExpressionLemmas::text_form, crate::proofs::ExpressionLemmas::name_form, crate::proofs::ExpressionLemmas::empty_form, crate::proofs::ExpressionLemmas::list_form))]
pub fn expression(
    alloc: Global,
    heads: &Heads<'_>,
    names: &Names<'_>,
    form: &Sexpr,
) -> Result<Expr, CheckFault>
    ensures gives { FindsExpr names.now result (expr_in heads.now names.now form.now) }
    ensures fits { ExprIsInOrder heads.now names.now result }
{
    if let Some((first, behind)) = headed(form) {
        return list_expression(alloc, heads, names, form, word_from(first), behind);
    }
    match form.shape() {
        Shape::Int(z) => Ok(Expr {
            kind: ExprKind::Number(z),
        }),
        Shape::Text(text) => {
            let text = ArcStr::from_str(alloc, text)?;
            Ok(Expr {
                kind: ExprKind::Text(text),
            })
        }
        Shape::Name(name) => named(names, form, name.as_str()),
        Shape::List(_) => Err(fault_at(CheckKind::Form, form)),
    }
}

// The constant or the variable that a name is.
#[tactic(auto, using(crate::proofs::NameLemmas::positioned, crate::proofs::NameLemmas::unpositioned))]
fn named(names: &Names<'_>, form: &Sexpr, name: &str) -> Result<Expr, CheckFault>
    ensures gives { let word = word_spelled name.now in
        FindsExpr names.now result (name_in names.now (span_of form.now) name.now word) }
    ensures fits { (arities : List ℕ) →
        IfOk result (λ e. expr_fits arities (length names.now) e ≡ true) }
{
    match word_of(name) {
        Some(Word::Constant(constant)) => Ok(Expr {
            kind: ExprKind::Constant(constant),
        }),
        Some(_) => Err(fault_at(CheckKind::Form, form)),
        None => match names.position(name) {
            Some(slot) => Ok(Expr {
                kind: ExprKind::Variable(slot),
            }),
            None => Err(fault_at(CheckKind::Unbound, form)),
        },
    }
}

/// The expression of a list, by the keyword at its head and the forms after it.
#[cycle(expression)]
#[tactic(auto, using(crate::proofs::ExpressionLemmas::list_unary, crate::proofs::ExpressionLemmas::list_binary, crate::proofs::ExpressionLemmas::list_choose, crate::proofs::ExpressionLemmas::list_wrap, crate::proofs::ExpressionLemmas::list_guard, crate::proofs::ExpressionLemmas::list_nack))]
pub fn list_expression(
    alloc: Global,
    heads: &Heads<'_>,
    names: &Names<'_>,
    form: &Sexpr,
    word: Option<Word>,
    behind: &[Sexpr],
) -> Result<Expr, CheckFault>
    ensures gives { let behind = plain_forms behind.now in
        FindsExpr names.now result (list_in heads.now names.now (span_of form.now) word behind) }
    ensures fits { ExprIsInOrder heads.now names.now result }
{
    match word {
        Some(Word::Unary(operator)) => unary(alloc, heads, names, form, operator, behind),
        Some(Word::Binary(operator)) => binary(alloc, heads, names, form, operator, behind),
        Some(Word::Choose) => choose(alloc, heads, names, behind),
        Some(Word::Wrap) => wrap(alloc, heads, names, form, behind),
        Some(Word::Guard) => guard(alloc, heads, names, form, behind),
        Some(Word::WithNack) => with_nack(alloc, heads, names, form, behind),
        _ => Err(fault_at(CheckKind::Form, form)),
    }
}

// An operation on one value.
#[cycle(expression)]
#[tactic(auto, unfolding(crate::specs::ExpressionParts::unary_in), using(crate::proofs::ExpressionLemmas::no_unary))]
fn unary(
    alloc: Global,
    heads: &Heads<'_>,
    names: &Names<'_>,
    form: &Sexpr,
    operator: Unary,
    behind: &[Sexpr],
) -> Result<Expr, CheckFault>
    ensures gives { let behind = plain_forms behind.now in
        FindsExpr names.now result (unary_in heads.now names.now (span_of form.now) operator behind) }
    ensures fits { ExprIsInOrder heads.now names.now result }
{
    let [p] = behind else {
        return Err(fault_at(CheckKind::Form, form));
    };
    Ok(compound::unary(alloc, operator, expression(alloc, heads, names, p)?)?)
}

// An operation on two values.
#[cycle(expression)]
#[tactic(auto, unfolding(crate::specs::ExpressionParts::binary_in), using(crate::proofs::ExpressionLemmas::no_binary, std::proofs::lemmas::Bool::and_from))]
fn binary(
    alloc: Global,
    heads: &Heads<'_>,
    names: &Names<'_>,
    form: &Sexpr,
    operator: Binary,
    behind: &[Sexpr],
) -> Result<Expr, CheckFault>
    ensures gives { let behind = plain_forms behind.now in
        FindsExpr names.now result (binary_in heads.now names.now (span_of form.now) operator behind) }
    ensures fits { ExprIsInOrder heads.now names.now result }
{
    let [p, q] = behind else {
        return Err(fault_at(CheckKind::Form, form));
    };
    let first = expression(alloc, heads, names, p)?;
    let second = expression(alloc, heads, names, q)?;
    Ok(compound::binary(alloc, operator, first, second)?)
}

// A choice of events.
#[cycle(expression)]
#[tactic(auto, unfolding(crate::specs::ExpressionParts::choose_in))]
fn choose(
    alloc: Global,
    heads: &Heads<'_>,
    names: &Names<'_>,
    behind: &[Sexpr],
) -> Result<Expr, CheckFault>
    ensures gives { FindsExpr names.now result (choose_in heads.now names.now (plain_forms behind.now)) }
    ensures fits { ExprIsInOrder heads.now names.now result }
{
    let members = expressions(alloc, heads, names, behind)?;
    Ok(Expr {
        kind: ExprKind::Choose(members),
    })
}

// An event that is wrapped by a function.
#[cycle(expression)]
#[tactic(auto, unfolding(crate::specs::ExpressionParts::wrap_in), using(crate::proofs::ExpressionLemmas::no_wrap, std::proofs::lemmas::Bool::and_from))]
fn wrap(
    alloc: Global,
    heads: &Heads<'_>,
    names: &Names<'_>,
    form: &Sexpr,
    behind: &[Sexpr],
) -> Result<Expr, CheckFault>
    ensures gives { let behind = plain_forms behind.now in
        FindsExpr names.now result (wrap_in heads.now names.now (span_of form.now) behind) }
    ensures fits { ExprIsInOrder heads.now names.now result }
{
    let [event, name, captured @ ..] = behind else {
        return Err(fault_at(CheckKind::Form, form));
    };
    let event = expression(alloc, heads, names, event)?;
    let number = function_for(heads, name, captured, 1)?;
    let captured = expressions(alloc, heads, names, captured)?;
    Ok(compound::wrap(alloc, event, number, captured)?)
}

// An event that a function makes.
#[cycle(expression)]
#[tactic(auto, unfolding(crate::specs::ExpressionParts::guard_in), using(std::proofs::lemmas::Bool::and_from))]
fn guard(
    alloc: Global,
    heads: &Heads<'_>,
    names: &Names<'_>,
    form: &Sexpr,
    behind: &[Sexpr],
) -> Result<Expr, CheckFault>
    ensures gives { let behind = plain_forms behind.now in
        FindsExpr names.now result (guard_in heads.now names.now (span_of form.now) behind) }
    ensures fits { ExprIsInOrder heads.now names.now result }
{
    let (number, values) = function_call(alloc, heads, names, form, 0, behind)?;
    Ok(Expr {
        kind: ExprKind::Guard(number, values),
    })
}

// An event that a function makes from a nack.
#[cycle(expression)]
#[tactic(auto, unfolding(crate::specs::ExpressionParts::nack_in), using(std::proofs::lemmas::Bool::and_from))]
fn with_nack(
    alloc: Global,
    heads: &Heads<'_>,
    names: &Names<'_>,
    form: &Sexpr,
    behind: &[Sexpr],
) -> Result<Expr, CheckFault>
    ensures gives { let behind = plain_forms behind.now in
        FindsExpr names.now result (nack_in heads.now names.now (span_of form.now) behind) }
    ensures fits { ExprIsInOrder heads.now names.now result }
{
    let (number, values) = function_call(alloc, heads, names, form, 1, behind)?;
    Ok(Expr {
        kind: ExprKind::WithNack(number, values),
    })
}

/// A function by its name and what it is given: these values, and that many more, which it gets later.
#[cycle(expression)]
#[tactic(auto, unfolding(crate::specs::Expressions::called_in))]
pub fn function_call(
    alloc: Global,
    heads: &Heads<'_>,
    names: &Names<'_>,
    form: &Sexpr,
    more: usize,
    behind: &[Sexpr],
) -> Result<(u32, Exprs), CheckFault>
    requires few { more ≤ 1 }
    ensures gives { let behind = plain_forms behind.now in
        Finds (call_map (name_at names.now)) result (called_in heads.now names.now (span_of form.now) more behind) }
    ensures fits { let arities = arities_of heads.now in
        IfOk result (λ call. exprs_fit arities (length names.now) call.1 ≡ true) }
    ensures takes { let arities = arities_of heads.now in
        IfOk result (λ call. takes arities call.0 (exprs_count call.1 + more) ≡ true) }
{
    let [name, values @ ..] = behind else {
        return Err(fault_at(CheckKind::Form, form));
    };
    let number = function_for(heads, name, values, more)?;
    let values = expressions(alloc, heads, names, values)?;
    Ok((number, values))
}

// The number of the function that the form names, if it takes these values and that many more.
#[tactic(auto, using(crate::proofs::ExpressionLemmas::count_forms))]
fn function_for(
    heads: &Heads<'_>,
    form: &Sexpr,
    values: &[Sexpr],
    more: usize,
) -> Result<u32, CheckFault>
    requires few { more ≤ 1 }
    ensures gives { let values = count (plain_forms values.now) in
        Finds (λ number. number) result (function_in heads.now (values + more) form.now) }
    ensures takes { let values = count (plain_forms values.now) in
        IfOk result (λ number. takes (arities_of heads.now) number (values + more) ≡ true) }
{
    function(heads, form, values.len() + more)
}

// The expressions that the forms are.
#[cycle(expression)]
fn expressions(
    alloc: Global,
    heads: &Heads<'_>,
    names: &Names<'_>,
    forms: &[Sexpr],
) -> Result<Exprs, CheckFault>
    ensures gives { let found = exprs_in heads.now names.now (plain_forms forms.now) in
        Finds (exprs_map (name_at names.now)) result found }
    ensures fits { let arities = arities_of heads.now in
        IfOk result (λ es. exprs_fit arities (length names.now) es ≡ true) }
    ensures count { IfOk result (λ es. exprs_count es ≡ count (plain_forms forms.now)) }
{
    let mut items = Vec::new(alloc);
    for form in forms {
        items.push(expression(alloc, heads, names, form)?)?;
    }
    Ok(Exprs { items })
}
