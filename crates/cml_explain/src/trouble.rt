//! What is wrong with a form.

ghost use Rattle.std.specs.Prelude.{◌≡◌, None};
ghost use Rattle.cml_explain.specs.Views.{plain_stand};
ghost use Rattle.cml_explain.specs.Troubles as spec;

use crate::keyword::{Role, Sort, keyword_entry};
use crate::stand::Stand;
use cml_check::{CheckKind, Word, word_from};
use cml_text::{Sexpr, Shape};

/// What is wrong.
#[derive(Clone, Copy, PartialEq, Eq)]
pub enum Trouble {
    /// A form of this role is wanted, and this is none.
    Wanted(Role),
    /// A list without forms where a value is wanted.
    Hollow,
    /// A list of this role begins with a name that is no keyword.
    Unknown(Role),
    /// A keyword where another name must stand.
    Reserved,
    /// A parameter that stands twice.
    Twice,
    /// A keyword's list outside of every function.
    Outside,
    /// A function inside another one.
    Nested,
    /// A block where none stands.
    Loose,
    /// A constant in parentheses.
    Bare,
    /// An effect where a value is wanted.
    Acts,
    /// An effect that a variable is set to.
    ActsInSet,
    /// A statement where a value is wanted.
    Commands,
    /// A value where a statement is wanted.
    Unused,
    /// Too few parts: the keyword is given as many as this, so that the part of this number is missing.
    Lacks(Word, usize),
    /// Too many parts: the keyword is given as many as this.
    Exceeds(Word, usize),
    Undeclared,
    NoFunction,
    /// A second function of a name.
    Again,
    /// Too few values for a function, or too many: it is given as many as this, and the last of them may come later.
    Given(usize, Later),
    /// A `main` with parameters.
    MainTakes,
    ManyFunctions,
    ManyStatements,
}

/// What a function is given later than the rest.
#[derive(Clone, Copy, PartialEq, Eq)]
pub enum Later {
    Nothing,
    /// The value of the event, as the last.
    EventValue,
    /// The nack, as the last.
    Nack,
}

// A keyword that is given that many parts.
fn count_trouble(word: Word, given: usize) -> Trouble
    ensures { result ≡ spec.count_trouble word given }
{
    if given < keyword_entry(word).needed {
        Trouble::Lacks(word, given)
    } else {
        Trouble::Exceeds(word, given)
    }
}

// What is wrong where a value is wanted with a list that begins with a keyword of this sort, and has that many parts behind it.
fn value_trouble(sort: Sort, word: Word, given: usize) -> Trouble
    ensures { result ≡ spec.value_trouble sort word given }
{
    match sort {
        Sort::Item => Trouble::Nested,
        Sort::Block => Trouble::Loose,
        Sort::Constant => Trouble::Bare,
        Sort::Statement => Trouble::Commands,
        Sort::Value | Sort::Effect => count_trouble(word, given),
    }
}

// The same where a statement is wanted.
fn statement_trouble(sort: Sort, word: Word, given: usize) -> Trouble
    ensures { result ≡ spec.statement_trouble sort word given }
{
    match sort {
        Sort::Statement => count_trouble(word, given),
        Sort::Value => Trouble::Unused,
        _ => value_trouble(sort, word, given),
    }
}

// The same by the role of the list.
fn known_trouble(role: Role, sort: Sort, word: Word, given: usize) -> Trouble
    ensures { result ≡ spec.known_trouble role sort word given }
{
    match role {
        Role::Item => match sort {
            Sort::Item => count_trouble(word, given),
            _ => Trouble::Outside,
        },
        Role::Statement => statement_trouble(sort, word, given),
        Role::Source => value_trouble(sort, word, given),
        Role::SetValue => match sort {
            Sort::Effect => Trouble::ActsInSet,
            _ => value_trouble(sort, word, given),
        },
        Role::Value => match sort {
            Sort::Effect => Trouble::Acts,
            _ => value_trouble(sort, word, given),
        },
        _ => Trouble::Wanted(role),
    }
}

// What is wrong with a list that begins with a name that is no keyword.
fn strange_trouble(role: Role) -> Trouble
    ensures { result ≡ spec.strange_trouble role }
{
    match role {
        Role::Item | Role::Statement | Role::Source | Role::SetValue | Role::Value => {
            Trouble::Unknown(role)
        }
        _ => Trouble::Wanted(role),
    }
}

// What is wrong with a list without forms.
fn empty_trouble(role: Role) -> Trouble
    ensures { result ≡ spec.empty_trouble role }
{
    match role {
        Role::Source | Role::SetValue | Role::Value => Trouble::Hollow,
        _ => Trouble::Wanted(role),
    }
}

// What is wrong with a list that begins with a form that is no keyword.
fn unknown_trouble(role: Role, given: usize, first: &Sexpr) -> Trouble
    ensures { result ≡ spec.first_trouble role given None first.now }
{
    match first.shape() {
        Shape::Name(_) => strange_trouble(role),
        Shape::List(_) => Trouble::Wanted(role),
        Shape::Int(_) => Trouble::Wanted(role),
        Shape::Text(_) => Trouble::Wanted(role),
    }
}

// What is wrong with a list, by its first form.
fn first_trouble(role: Role, given: usize, word: Option<Word>, first: &Sexpr) -> Trouble
    ensures { result ≡ spec.first_trouble role given word first.now }
{
    match word {
        Some(word) => known_trouble(role, keyword_entry(word).sort, word, given),
        None => unknown_trouble(role, given, first),
    }
}

// What is wrong with a list of these forms.
fn list_trouble(role: Role, given: usize, forms: &[Sexpr]) -> Trouble
    ensures { result ≡ spec.list_trouble role given forms.now }
{
    match forms {
        [] => empty_trouble(role),
        [first, ..] => first_trouble(role, given, word_from(first), first),
    }
}

// What is wrong with a name, by the keyword that it is.
fn name_trouble(role: Role, word: Option<Word>) -> Trouble
    ensures { result ≡ spec.name_trouble role word }
{
    match role {
        Role::Item | Role::Parameters | Role::Statement | Role::Block | Role::Keyword => {
            Trouble::Wanted(role)
        }
        Role::Parameter => match word {
            Some(_) => Trouble::Reserved,
            None => Trouble::Twice,
        },
        _ => Trouble::Reserved,
    }
}

// What is wrong with a form that does not fit.
#[tactic(auto, using(crate::proofs::PieceLemmas::forms_back))]
fn form_trouble(role: Role, form: &Sexpr) -> Trouble
    ensures { result ≡ spec.form_trouble role form.now }
{
    match form.shape() {
        Shape::Name(_) => name_trouble(role, word_from(form)),
        Shape::List(forms) => list_trouble(role, forms.len().saturating_sub(1), forms),
        Shape::Int(_) => Trouble::Wanted(role),
        Shape::Text(_) => Trouble::Wanted(role),
    }
}

// What is wrong where a function is given another number of values, in a list that begins with this keyword and has that many parts behind it.
fn given_trouble(word: Option<Word>, given: usize) -> Trouble
    ensures { result ≡ spec.given_trouble word given }
{
    match word {
        Some(Word::Wrap) => Trouble::Given(given.saturating_sub(2) + 1, Later::EventValue),
        Some(Word::WithNack) => Trouble::Given(given.saturating_sub(1) + 1, Later::Nack),
        _ => Trouble::Given(given.saturating_sub(1), Later::Nothing),
    }
}

// The same by the role of the form.
fn arity_trouble(role: Role, word: Option<Word>, given: usize) -> Trouble
    ensures { result ≡ spec.arity_trouble role word given }
{
    match role {
        Role::FunctionName => Trouble::MainTakes,
        _ => given_trouble(word, given),
    }
}

// What there is too much of.
fn limit_trouble(role: Role) -> Trouble
    ensures { result ≡ spec.limit_trouble role }
{
    match role {
        Role::Item => Trouble::ManyFunctions,
        _ => Trouble::ManyStatements,
    }
}

/// What is wrong, by the kind of the fault and by where the form stands.
pub fn trouble_of(kind: CheckKind, stand: Stand<'_>) -> Trouble
    ensures { result ≡ spec.trouble_of kind (plain_stand stand.entry) }
{
    match kind {
        CheckKind::Form => form_trouble(stand.role, stand.form),
        CheckKind::Double => Trouble::Again,
        CheckKind::Function => Trouble::NoFunction,
        CheckKind::Unbound => Trouble::Undeclared,
        CheckKind::Arity => arity_trouble(stand.role, stand.word, stand.given),
        CheckKind::Main => Trouble::NoFunction,
        CheckKind::Limit => limit_trouble(stand.role),
    }
}
