//! The effects that forms are, and what a `let` gives its variable.

ghost use Rattle.std.specs.Prelude.{◌≡◌, Some};
ghost use Rattle.cml_text.specs.Forms.{plain_forms, span_of};
ghost use Rattle.cml_check.specs.Statements.{effect_in, source_by, source_in, form_source};
ghost use Rattle.cml_check.specs.Returned.{FindsEffect, EffectIsInOrder, FindsSource, SourceIsInOrder};
ghost use Rattle.cml_check.specs.Statements as spec;
ghost use Rattle.cml_check.specs.declared.word.Word.TheVariants as words;

use crate::expression::{expression, function_call, list_expression};
use crate::fault::{CheckFault, CheckKind, fault_at};
use crate::head::Heads;
use crate::names::Names;
use crate::parts::headed;
use crate::syntax::{Act, ActOnOne, ActOnTwo, Effect, Source};
use crate::word::{Word, word_from};
use cml_text::Sexpr;
use std::alloc::Global;

/// The effect of a list, by the keyword at its head and the forms after it.
#[tactic(auto, unfolding(crate::specs::Statements::effect_in))]
pub fn effect(
    alloc: Global,
    heads: &Heads<'_>,
    names: &Names<'_>,
    form: &Sexpr,
    word: Option<Word>,
    behind: &[Sexpr],
) -> Result<Effect, CheckFault>
    ensures gives { let behind = plain_forms behind.now in
        FindsEffect names.now result (effect_in heads.now names.now (span_of form.now) word behind) }
    ensures fits { EffectIsInOrder heads.now names.now result }
{
    match word {
        Some(Word::Act(act)) => simple(heads, names, form, act, behind),
        Some(Word::MVar) => mvar(alloc, heads, names, form, behind),
        Some(Word::ActOnOne(act)) => on_one(alloc, heads, names, form, act, behind),
        Some(Word::ActOnTwo(act)) => on_two(alloc, heads, names, form, act, behind),
        Some(Word::Call) => call(alloc, heads, names, form, behind),
        Some(Word::Spawn) => spawn(alloc, heads, names, form, behind),
        _ => Err(fault_at(CheckKind::Form, form)),
    }
}

// An effect that takes no value.
#[tactic(auto, unfolding(crate::specs::Statements::effect_in), using(crate::proofs::StatementLemmas::no_act))]
fn simple(
    heads: &Heads<'_>,
    names: &Names<'_>,
    form: &Sexpr,
    act: Act,
    behind: &[Sexpr],
) -> Result<Effect, CheckFault>
    ensures gives { let behind = plain_forms behind.now in
        FindsEffect names.now result (effect_in heads.now names.now (span_of form.now) (Some (words.Act act)) behind) }
    ensures fits { EffectIsInOrder heads.now names.now result }
{
    match behind {
        [] => Ok(Effect::Act(act)),
        _ => Err(fault_at(CheckKind::Form, form)),
    }
}

// An M-variable that is empty, or holds a value.
#[tactic(auto, unfolding(crate::specs::Statements::effect_in), using(crate::proofs::StatementLemmas::no_mvar))]
fn mvar(
    alloc: Global,
    heads: &Heads<'_>,
    names: &Names<'_>,
    form: &Sexpr,
    behind: &[Sexpr],
) -> Result<Effect, CheckFault>
    ensures gives { let behind = plain_forms behind.now in
        FindsEffect names.now result (effect_in heads.now names.now (span_of form.now) (Some words.MVar) behind) }
    ensures fits { EffectIsInOrder heads.now names.now result }
{
    if behind.is_empty() {
        return Ok(Effect::Act(Act::MVar));
    }
    let [p] = behind else {
        return Err(fault_at(CheckKind::Form, form));
    };
    let value = expression(alloc, heads, names, p)?;
    Ok(Effect::ActOnOne(ActOnOne::MVar, value))
}

// An effect that takes one value.
#[tactic(auto, unfolding(crate::specs::Statements::effect_in), using(crate::proofs::StatementLemmas::no_act_on_one))]
fn on_one(
    alloc: Global,
    heads: &Heads<'_>,
    names: &Names<'_>,
    form: &Sexpr,
    act: ActOnOne,
    behind: &[Sexpr],
) -> Result<Effect, CheckFault>
    ensures gives { let behind = plain_forms behind.now in
        FindsEffect names.now result (effect_in heads.now names.now (span_of form.now) (Some (words.ActOnOne act)) behind) }
    ensures fits { EffectIsInOrder heads.now names.now result }
{
    let [p] = behind else {
        return Err(fault_at(CheckKind::Form, form));
    };
    let value = expression(alloc, heads, names, p)?;
    Ok(Effect::ActOnOne(act, value))
}

// An effect that takes two values.
#[tactic(auto, unfolding(crate::specs::Statements::effect_in), using(crate::proofs::StatementLemmas::no_act_on_two))]
fn on_two(
    alloc: Global,
    heads: &Heads<'_>,
    names: &Names<'_>,
    form: &Sexpr,
    act: ActOnTwo,
    behind: &[Sexpr],
) -> Result<Effect, CheckFault>
    ensures gives { let behind = plain_forms behind.now in
        FindsEffect names.now result (effect_in heads.now names.now (span_of form.now) (Some (words.ActOnTwo act)) behind) }
    ensures fits { EffectIsInOrder heads.now names.now result }
{
    let [p, q] = behind else {
        return Err(fault_at(CheckKind::Form, form));
    };
    let first = expression(alloc, heads, names, p)?;
    let second = expression(alloc, heads, names, q)?;
    Ok(Effect::ActOnTwo(act, first, second))
}

// A call of a function.
#[tactic(auto, unfolding(crate::specs::Statements::effect_in))]
fn call(
    alloc: Global,
    heads: &Heads<'_>,
    names: &Names<'_>,
    form: &Sexpr,
    behind: &[Sexpr],
) -> Result<Effect, CheckFault>
    ensures gives { let behind = plain_forms behind.now in
        FindsEffect names.now result (effect_in heads.now names.now (span_of form.now) (Some words.Call) behind) }
    ensures fits { EffectIsInOrder heads.now names.now result }
{
    let (number, values) = function_call(alloc, heads, names, form, 0, behind)?;
    Ok(Effect::Call(number, values))
}

// A thread that runs a function.
#[tactic(auto, unfolding(crate::specs::Statements::effect_in))]
fn spawn(
    alloc: Global,
    heads: &Heads<'_>,
    names: &Names<'_>,
    form: &Sexpr,
    behind: &[Sexpr],
) -> Result<Effect, CheckFault>
    ensures gives { let behind = plain_forms behind.now in
        FindsEffect names.now result (effect_in heads.now names.now (span_of form.now) (Some words.Spawn) behind) }
    ensures fits { EffectIsInOrder heads.now names.now result }
{
    let (number, values) = function_call(alloc, heads, names, form, 0, behind)?;
    Ok(Effect::Spawn(number, values))
}

// Whether the keyword begins an effect.
fn is_effect(word: Option<Word>) -> bool
    ensures { result ≡ spec.is_effect word }
{
    match word {
        Some(Word::Act(_)) => true,
        Some(Word::ActOnOne(_)) => true,
        Some(Word::ActOnTwo(_)) => true,
        Some(Word::MVar) => true,
        Some(Word::Call) => true,
        Some(Word::Spawn) => true,
        _ => false,
    }
}

/// What a `let` gives its variable, by its form.
#[tactic(auto, using(crate::proofs::StatementLemmas::headed_source, crate::proofs::StatementLemmas::plain_form_source))]
pub fn source(
    alloc: Global,
    heads: &Heads<'_>,
    names: &Names<'_>,
    form: &Sexpr,
) -> Result<Source, CheckFault>
    ensures gives { FindsSource names.now result (source_in heads.now names.now form.now) }
    ensures fits { SourceIsInOrder heads.now names.now result }
{
    match headed(form) {
        Some((first, behind)) => list_source(alloc, heads, names, form, word_from(first), behind),
        None => form_value(alloc, heads, names, form),
    }
}

// The value of a form that is no list, or an empty one.
fn form_value(
    alloc: Global,
    heads: &Heads<'_>,
    names: &Names<'_>,
    form: &Sexpr,
) -> Result<Source, CheckFault>
    ensures gives { FindsSource names.now result (form_source heads.now names.now form.now) }
    ensures fits { SourceIsInOrder heads.now names.now result }
{
    let value = expression(alloc, heads, names, form)?;
    Ok(Source::Value(value))
}

// The same of a list, by the keyword at its head and the forms after it.
#[tactic(auto, unfolding(crate::specs::Statements::source_by))]
fn list_source(
    alloc: Global,
    heads: &Heads<'_>,
    names: &Names<'_>,
    form: &Sexpr,
    word: Option<Word>,
    behind: &[Sexpr],
) -> Result<Source, CheckFault>
    ensures gives { let behind = plain_forms behind.now in
        FindsSource names.now result (source_by heads.now names.now (span_of form.now) word behind) }
    ensures fits { SourceIsInOrder heads.now names.now result }
{
    if is_effect(word) {
        let done = effect(alloc, heads, names, form, word, behind)?;
        return Ok(Source::Effect(done));
    }
    let value = list_expression(alloc, heads, names, form, word, behind)?;
    Ok(Source::Value(value))
}
