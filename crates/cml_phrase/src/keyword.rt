//! The keywords by which statements are told apart here.
ghost use Rattle.std.specs.Prelude.{◌≡◌};
ghost use Rattle.cml_check.specs.Words.{word_from};
ghost use Rattle.cml_phrase.specs.Keywords.{keyword_for};

use cml_check::{Word, word_from};
use cml_text::Sexpr;

/// What a list begins with, as far as it is told apart here.
#[derive(Clone, Copy, PartialEq, Eq)]
pub enum Keyword {
    Let,
    If,
    /// One with a condition and statements.
    Tested,
    /// Another keyword, or none.
    Other,
}

/// Which of these a form is.
pub fn keyword_of(form: &Sexpr) -> Keyword
    ensures { result ≡ keyword_for (word_from form.now) }
{
    match word_from(form) {
        Some(Word::Let) => Keyword::Let,
        Some(Word::If) => Keyword::If,
        Some(Word::Tested(_)) => Keyword::Tested,
        _ => Keyword::Other,
    }
}
