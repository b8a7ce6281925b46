//! What a line says that is typed.

ghost use Rattle.std.specs.Prelude.{◌≡◌, IfOk};
ghost use Rattle.cml_stepper.specs.Typings as spec;

use cml_text::law::spelled_or_faulty;
use cml_text::{Sexpr, Shape, TextFault, number_from, read, tick_from};
use cml_value::Tid;
use std::alloc::{AllocError, Global};

/// What a line says.
#[derive(Clone, Copy, PartialEq, Eq)]
pub(crate) enum Typed {
    /// The row of this number is taken.
    Row(u64),
    /// This thread has its turn.
    Turn(Tid),
    /// The run goes on.
    Next,
    /// The rows from this number on are listed.
    List(u64),
    /// It is asked who waits.
    Waits,
    /// The last item is undone.
    Undo,
    /// It is the end.
    Quit,
    /// Nothing that is known.
    Unknown,
}

// What a word by itself says.
fn word_typed(word: &str) -> Typed
    ensures { result ≡ spec.word_typed word.now }
{
    if word == "w" {
        Typed::Waits
    } else if word == "u" {
        Typed::Undo
    } else if word == "q" {
        Typed::Quit
    } else {
        Typed::Unknown
    }
}

// What a number by itself says.
fn number_typed(number: Option<u64>) -> Typed
    ensures { result ≡ spec.number_typed number }
{
    match number {
        Some(n) => Typed::Row(n),
        None => Typed::Unknown,
    }
}

// What a form by itself says.
fn alone_typed(form: &Sexpr) -> Typed
    ensures { result ≡ spec.alone_typed form.now }
{
    match form.shape() {
        Shape::Name(name) => word_typed(name.as_str()),
        Shape::Int(_) => number_typed(tick_from(form)),
        Shape::Text(_) => Typed::Unknown,
        Shape::List(_) => Typed::Unknown,
    }
}

// What the number of a thread says.
fn turn_typed(number: Option<u32>) -> Typed
    ensures { result ≡ spec.turn_typed number }
{
    match number {
        Some(n) => Typed::Turn(Tid(n)),
        None => Typed::Unknown,
    }
}

// What the number of a row says from which on rows are listed.
fn list_typed(number: Option<u64>) -> Typed
    ensures { result ≡ spec.list_typed number }
{
    match number {
        Some(n) => Typed::List(n),
        None => Typed::Unknown,
    }
}

// What a word says with a form behind it.
fn named_typed(word: &str, second: &Sexpr) -> Typed
    ensures { result ≡ spec.named_typed word.now second.now }
{
    if word == "t" {
        turn_typed(number_from(second))
    } else if word == "l" {
        list_typed(tick_from(second))
    } else {
        Typed::Unknown
    }
}

// What a form says with another behind it.
fn both_typed(form: &Sexpr, second: &Sexpr) -> Typed
    ensures { result ≡ spec.both_typed form.now second.now }
{
    match form.shape() {
        Shape::Name(name) => named_typed(name.as_str(), second),
        Shape::Int(_) => Typed::Unknown,
        Shape::Text(_) => Typed::Unknown,
        Shape::List(_) => Typed::Unknown,
    }
}

// What these forms say.
fn typed_by(forms: &[Sexpr]) -> Typed
    ensures { result ≡ spec.typed_by forms.now }
{
    match forms {
        [] => Typed::Next,
        [form] => alone_typed(form),
        [form, second] => both_typed(form, second),
        _ => Typed::Unknown,
    }
}

/// What the line says.
///
/// # Errors
/// Out of memory.
pub(crate) fn typed_from(alloc: Global, line: &[u8]) -> Result<Typed, AllocError>
    ensures { IfOk result (spec.IsTyped line.now) }
{
    spelled_or_faulty();
    match read(alloc, line) {
        Ok(forms) => Ok(typed_by(forms.as_slice())),
        Err(TextFault::At { .. }) => Ok(Typed::Unknown),
        Err(TextFault::Memory) => Err(AllocError),
    }
}
