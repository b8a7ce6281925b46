//! The keywords of a schedule.

ghost use Rattle.std.specs.Prelude.{◌≡◌};
ghost use Rattle.cml_schedule.specs.Words as spec;

use cml_text::{Sexpr, Shape};

/// A keyword with which a line of a schedule begins.
#[derive(Clone, Copy, PartialEq, Eq)]
pub enum Word {
    Schedule,
    Turn,
    Commit,
    Swap,
    Clock,
    End,
}

/// The keyword that the form is, if it is one.
pub fn word_of(form: &Sexpr) -> Option<Word>
    ensures { result ≡ spec.line_word form.now }
{
    match form.shape() {
        Shape::Name(name) => word_named(name.as_str()),
        _ => None,
    }
}

fn word_named(name: &str) -> Option<Word>
    ensures { result ≡ spec.word_named name.now }
{
    if name == "schedule" {
        Some(Word::Schedule)
    } else if name == "turn" {
        Some(Word::Turn)
    } else if name == "commit" {
        Some(Word::Commit)
    } else if name == "swap" {
        Some(Word::Swap)
    } else if name == "clock" {
        Some(Word::Clock)
    } else if name == "end" {
        Some(Word::End)
    } else {
        None
    }
}
