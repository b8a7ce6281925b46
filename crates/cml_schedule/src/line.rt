//! What the forms of a line say in a schedule.

ghost use Rattle.std.specs.Prelude.{◌≡◌, IfOk};
ghost use Rattle.cml_schedule.specs.Lines as spec;

use crate::item::{Item, Plan};
use crate::word::{Word, word_of};
use cml_check::Size;
use cml_scan::Meet;
use cml_text::{Sexpr, number_from, tick_from};
use cml_value::Tid;
use std::alloc::{AllocError, Global};

/// How far a schedule was read.
#[derive(Drop)]
pub enum State {
    /// Its head comes next.
    Opening,
    /// So far it is this plan.
    Reading(Plan),
    /// It is this plan, and nothing follows.
    Closed(Plan),
}

/// How far it was read after a line of these forms, if the line fits.
pub fn after_line(alloc: Global, state: State, forms: &[Sexpr]) -> Result<Option<State>, AllocError>
    ensures { IfOk result (λ next. next ≡ spec.after_line state forms.now) }
{
    let [first, behind @ ..] = forms else {
        return Ok(Some(state));
    };
    let word = word_of(first);
    match state {
        State::Opening => Ok(opened(alloc, word, behind)),
        State::Reading(plan) => after_head(plan, word, behind),
        State::Closed(_) => Ok(None),
    }
}

// What was read after the head.
fn opened(alloc: Global, word: Option<Word>, forms: &[Sexpr]) -> Option<State>
    ensures { result ≡ spec.opened word forms.now }
{
    let (budget, size) = head_from(word, forms)?;
    Some(State::Reading(Plan {
        budget,
        size,
        items: Vec::new(alloc),
    }))
}

// What has been read once a line that follows the head was read too.
fn after_head(
    mut plan: Plan,
    word: Option<Word>,
    forms: &[Sexpr],
) -> Result<Option<State>, AllocError>
    ensures { IfOk result (λ next. next ≡ spec.after_head plan word forms.now) }
{
    if word == Some(Word::End) && forms.is_empty() {
        return Ok(Some(State::Closed(plan)));
    }
    match item_from(plan.size.is_some(), word, forms) {
        Some(item) => {
            plan.items.push(item)?;
            Ok(Some(State::Reading(plan)))
        }
        None => Ok(None),
    }
}

// The budget and the size that a head says.
fn head_from(word: Option<Word>, forms: &[Sexpr]) -> Option<(u64, Option<Size>)>
    ensures { result ≡ spec.head_from word forms.now }
{
    if word != Some(Word::Schedule) {
        return None;
    }
    match forms {
        [version, budget] => {
            let budget = budget_from(1, version, budget)?;
            Some((budget, None))
        }
        [version, budget, functions, statements] => {
            let budget = budget_from(2, version, budget)?;
            let size = size_from(functions, statements)?;
            Some((budget, Some(size)))
        }
        _ => None,
    }
}

// The budget of a head of this version.
fn budget_from(expected: u32, version: &Sexpr, budget: &Sexpr) -> Option<u64>
    ensures { result ≡ spec.budget_from expected version.now budget.now }
{
    if number_from(version) != Some(expected) {
        return None;
    }
    let budget = number_within(1, 1_000_000_000, budget)?;
    Some(u64::from(budget))
}

fn size_from(functions: &Sexpr, statements: &Sexpr) -> Option<Size>
    ensures { result ≡ spec.size_from functions.now statements.now }
{
    let functions = number_within(1, 1024, functions)?;
    let statements = number_within(0, 4096, statements)?;
    Some(Size {
        functions,
        statements,
    })
}

// The number that the form is, if it is one from the least to the most.
fn number_within(least: u32, most: u32, form: &Sexpr) -> Option<u32>
    ensures { result ≡ spec.number_within least most form.now }
{
    let number = number_from(form)?;
    if least <= number && number <= most {
        Some(number)
    } else {
        None
    }
}

// The item that a line says. Exchanges are named in a schedule that says the size of its program.
fn item_from(names_swaps: bool, word: Option<Word>, forms: &[Sexpr]) -> Option<Item>
    ensures { result ≡ spec.item_from names_swaps word forms.now }
{
    match word? {
        Word::Turn => turn_from(forms),
        Word::Commit => commit_from(forms),
        Word::Swap => swap_from(names_swaps, forms),
        Word::Clock => clock_from(forms),
        Word::Schedule | Word::End => None,
    }
}

fn turn_from(forms: &[Sexpr]) -> Option<Item>
    ensures { result ≡ spec.turn_from forms.now }
{
    let [thread] = forms else {
        return None;
    };
    let thread = number_from(thread)?;
    Some(Item::Turn(Tid(thread)))
}

fn commit_from(forms: &[Sexpr]) -> Option<Item>
    ensures { result ≡ spec.commit_from forms.now }
{
    let row = match forms {
        [thread, leaf] => single_from(thread, leaf),
        [head, head_leaf, other, other_leaf] => pair_from(head, head_leaf, other, other_leaf),
        _ => None,
    };
    row.map(Item::Meet)
}

fn swap_from(names_swaps: bool, forms: &[Sexpr]) -> Option<Item>
    ensures { result ≡ spec.swap_from names_swaps forms.now }
{
    if !names_swaps {
        return None;
    }
    let [head, head_leaf, other, other_leaf] = forms else {
        return None;
    };
    pair_from(head, head_leaf, other, other_leaf).map(Item::Exchange)
}

fn clock_from(forms: &[Sexpr]) -> Option<Item>
    ensures { result ≡ spec.clock_from forms.now }
{
    let [tick] = forms else {
        return None;
    };
    tick_from(tick).map(Item::Clock)
}

fn single_from(thread: &Sexpr, leaf: &Sexpr) -> Option<Meet>
    ensures { result ≡ spec.single_from thread.now leaf.now }
{
    let tid = Tid(number_from(thread)?);
    let leaf = number_from(leaf)?;
    Some(Meet::Single { tid, leaf })
}

fn pair_from(head: &Sexpr, head_leaf: &Sexpr, other: &Sexpr, other_leaf: &Sexpr) -> Option<Meet>
    ensures { result ≡ spec.pair_from head.now head_leaf.now other.now other_leaf.now }
{
    let head = Tid(number_from(head)?);
    let head_leaf = number_from(head_leaf)?;
    let other = Tid(number_from(other)?);
    let other_leaf = number_from(other_leaf)?;
    Some(Meet::Pair {
        head,
        head_leaf,
        other,
        other_leaf,
    })
}
