//! The lists that are open while a text is read.
ghost use Rattle.std.specs.Prelude.{◌≡◌, ◌+◌, ◌<◌, ◌≤◌, ◌^◌, List, [], ◌∷◌, ◌++◌, IfErr, OnOk, length};
ghost use Rattle.cml_text.specs.{Lexemes.{opening, closing}, Nests.{TakesWord, FaultsAt}, Steps.{lexeme_of, IsLeafWord}};

use crate::fault::{FaultKind, TextFault};
use crate::sexpr::{Sexpr, Span};
use crate::word::Word;
use std::alloc::{AllocError, Global};
use std::mem;

// The most lists that stand inside one another.
const NESTING_LIMIT: usize = 256;

/// A list that is open: where it starts, and the forms that stand before it in the list around it.
#[derive(Drop)]
pub struct OpenList {
    pub start: usize,
    before: Vec<Sexpr>,
}

// Takes a parenthesis that opens a list. From then on `forms` are those of the new list.
fn open_list(
    alloc: Global,
    lists: &mut Vec<OpenList>,
    forms: &mut Vec<Sexpr>,
    at: usize,
) -> Result<(), TextFault>
    ensures ok { OnOk result
        (TakesWord (opening at) lists.old.items forms.old.items lists.new.items forms.new.items) }
    ensures err { IfErr result (FaultsAt (opening at) lists.old.items) }
{
    if lists.len() >= NESTING_LIMIT {
        return Err(TextFault::At {
            kind: FaultKind::Deep,
            at,
        });
    }
    let before = mem::replace(forms, Vec::new(alloc));
    lists.push(OpenList { start: at, before })?;
    Ok(())
}

// Takes a parenthesis that closes the innermost list, which becomes a form of the list around it.
fn close_list(lists: &mut Vec<OpenList>, forms: &mut Vec<Sexpr>, at: usize) -> Result<(), TextFault>
    requires fits { at < 2 ^ 63 }
    ensures ok { OnOk result
        (TakesWord (closing (at + 1)) lists.old.items forms.old.items lists.new.items forms.new.items) }
    ensures err { IfErr result (FaultsAt (closing (at + 1)) lists.old.items) }
{
    match lists.pop() {
        Some(OpenList { start, before }) => {
            let inner = mem::replace(forms, before);
            forms.push(Sexpr::list(Span { start, end: at + 1 }, inner))?;
            Ok(())
        }
        None => Err(TextFault::At {
            kind: FaultKind::Stray,
            at,
        }),
    }
}

/// Takes the lexeme that stands at a place.
pub fn take_word(
    alloc: Global,
    lists: &mut Vec<OpenList>,
    forms: &mut Vec<Sexpr>,
    at: usize,
    word: Word,
) -> Result<(), TextFault>
    requires fits { at < 2 ^ 63 }
    requires leaf { IsLeafWord (Some word) }
    ensures ok { OnOk result
        (TakesWord (lexeme_of at word) lists.old.items forms.old.items lists.new.items forms.new.items) }
    ensures err { IfErr result (FaultsAt (lexeme_of at word) lists.old.items) }
{
    match word {
        Word::Open => open_list(alloc, lists, forms, at),
        Word::Close => close_list(lists, forms, at),
        Word::Leaf(form) => {
            forms.push(form)?;
            Ok(())
        }
    }
}
