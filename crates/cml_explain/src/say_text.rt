//! What is said of what is wrong with a text.

use crate::text::{Found, TextTrouble, text_trouble};
use cml_phrase::{Diagnosis, Note, push_first, render};
use cml_text::FaultKind;
use std::alloc::{AllocError, Global};

// How many characters of a token are said again.
const TOKEN_LIMIT: usize = 40;

/// What is wrong with a text, which has this name, in words: its fault of this kind at this byte, with its line and a mark.
///
/// # Errors
/// Out of memory.
pub fn explain_text(
    alloc: Global,
    name: &str,
    text: &[u8],
    kind: FaultKind,
    at: usize,
) -> Result<Vec<u8>, AllocError> {
    write_text(alloc, name, &text_trouble(text, kind, at))
}

/// Says what is wrong with a text of this name.
///
/// # Errors
/// Out of memory.
pub fn write_text(
    alloc: Global,
    name: &str,
    trouble: &TextTrouble<'_>,
) -> Result<Vec<u8>, AllocError> {
    let diagnosis = Diagnosis {
        at: trouble.at,
        marked_to: trouble.marked_to,
        message: message(alloc, trouble)?,
        notes: notes(alloc, trouble)?,
    };
    render(alloc, name, trouble.shown, &diagnosis)
}

// The sentence on what was found.
fn message(alloc: Global, trouble: &TextTrouble<'_>) -> Result<Vec<u8>, AllocError> {
    let mut message = Vec::new(alloc);
    if trouble.found == Found::Token {
        message.extend_from_slice(b"`")?;
        push_first(&mut message, trouble.piece, TOKEN_LIMIT)?;
    }
    message.extend_from_slice(sentence(trouble.found).as_bytes())?;
    Ok(message)
}

// The same, where it does not begin with the token.
fn sentence(found: Found) -> &'static str {
    match found {
        Found::OpenList => "this list is not closed",
        Found::OpenLiteral => "this text literal is not closed",
        Found::Stray => "this parenthesis closes nothing",
        Found::Token => "` is neither a number nor a name",
        Found::Escape => "after a backslash stands `\"`, `\\` or `n`",
        Found::Number => "this number is out of range",
        Found::Deep => "this list stands inside 256 others",
        Found::LongText => "the text is too long",
        Found::LongLiteral => "this text literal is too long",
        Found::Utf8 => "the text is not UTF-8 from here on",
    }
}

// What is added.
fn notes(alloc: Global, trouble: &TextTrouble<'_>) -> Result<Vec<Note>, AllocError> {
    let mut notes = Vec::new(alloc);
    if let Some(words) = remark(trouble) {
        notes.push(Note {
            words: Vec::from_slice(alloc, words.as_bytes())?,
            at: trouble.next_function,
        })?;
    }
    Ok(notes)
}

// The sentence that is added, if one is: behind one on the next function stands where that begins.
fn remark(trouble: &TextTrouble<'_>) -> Option<&'static str> {
    match trouble.found {
        Found::OpenList if trouble.next_function.is_some() => {
            Some("a `)` is most likely missing before the function")
        }
        Found::Number => Some("a number is from -9223372036854775808 to 9223372036854775807"),
        Found::Deep => Some("at most 256 lists stand inside one another"),
        Found::LongText => Some("a text has at most 1048576 bytes"),
        Found::LongLiteral => Some("a text literal has at most 4096 bytes"),
        _ => None,
    }
}
