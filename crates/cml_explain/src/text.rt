//! What is wrong with a text.

ghost use Rattle.std.specs.{Prelude.{◌≡◌, ◌+◌, ◌^◌, ◌<◌, length}, List.{prefix_len}};
ghost use Rattle.cml_text.specs.Lexemes as lexemes;
ghost use Rattle.cml_explain.specs.Views.{plain_text_trouble};
ghost use Rattle.cml_explain.specs.Texts as spec;

use cml_phrase::{first_characters, split_place};
use cml_text::FaultKind;

// The most bytes of a text.
const TEXT_LIMIT: usize = 1_048_576;

/// What was found in a text.
#[derive(Clone, Copy, PartialEq, Eq)]
pub enum Found {
    /// A list that is not closed.
    OpenList,
    /// A text literal that is not closed.
    OpenLiteral,
    /// A parenthesis that closes nothing.
    Stray,
    /// A token that is neither a number nor a name.
    Token,
    /// A backslash that makes no escape.
    Escape,
    /// A number that is out of range.
    Number,
    /// A list inside too many others.
    Deep,
    /// A text that is too long.
    LongText,
    /// A text literal that is too long.
    LongLiteral,
    /// Bytes that are not UTF-8.
    Utf8,
}

/// What is wrong with a text.
#[derive(Clone, Copy)]
pub struct TextTrouble<'a> {
    pub found: Found,
    /// The byte at which it stands.
    pub at: usize,
    /// Up to which byte the text is marked from there, where it is shown.
    pub marked_to: Option<usize>,
    /// The piece of the text that is at fault: a token, or an escape.
    pub piece: &'a [u8],
    /// Where the next function begins behind a list that is not closed.
    pub next_function: Option<usize>,
    /// What of the text is shown.
    pub shown: &'a [u8],
}

/// What is wrong with a text whose fault of this kind stands at this byte.
pub fn text_trouble(text: &[u8], kind: FaultKind, at: usize) -> TextTrouble<'_>
    ensures { plain_text_trouble result
        ≡ spec.text_trouble text.now (record { kind = kind; at = at }) }
{
    let found = found_by(text, kind, at);
    let piece = piece_by(found, text, at);
    TextTrouble {
        found,
        at,
        marked_to: marked_by(found, at, piece),
        piece,
        next_function: function_behind(found, text, at),
        shown: shown_by(found, text, at),
    }
}

// What was found, by the kind of the fault.
fn found_by(text: &[u8], kind: FaultKind, at: usize) -> Found
    ensures { result ≡ spec.found_by text.now kind at }
{
    match kind {
        FaultKind::Unclosed => open_at(text, at),
        FaultKind::Stray => Found::Stray,
        FaultKind::Character => Found::Token,
        FaultKind::Escape => Found::Escape,
        FaultKind::Number => Found::Number,
        FaultKind::Deep => Found::Deep,
        FaultKind::Long => long_in(text),
        FaultKind::Utf8 => Found::Utf8,
    }
}

// What does not end there.
fn open_at(text: &[u8], at: usize) -> Found
    ensures { result ≡ spec.found_by text.now FaultKind.Unclosed at }
{
    if at < text.len() && text[at] == b'"' {
        Found::OpenLiteral
    } else {
        Found::OpenList
    }
}

// What is too long.
fn long_in(text: &[u8]) -> Found
    ensures { result ≡ spec.found_by text.now FaultKind.Long 0 }
{
    if text.len() > TEXT_LIMIT {
        Found::LongText
    } else {
        Found::LongLiteral
    }
}

// The piece of the text that is at fault.
fn piece_by(found: Found, text: &[u8], at: usize) -> &[u8]
    ensures piece { result.now ≡ spec.piece_by found text.now at }
    ensures fits { at + length result.now < 2 ^ 64 }
{
    match found {
        Found::Token | Found::Number => token_at(text, at),
        Found::Escape => escape_at(text, at),
        _ => &[],
    }
}

// The token that stands there.
fn token_at(text: &[u8], at: usize) -> &[u8]
    ensures token { result.now ≡ spec.token_at text.now at }
    ensures fits { at + length result.now < 2 ^ 64 }
{
    let (_, behind) = split_place(text, at);
    let (token, _) = split_place(behind, token_len(behind));
    token
}

// How many bytes come before the first that is of no token.
fn token_len(bytes: &[u8]) -> usize
    ensures { result ≡ prefix_len lexemes.is_token_byte bytes.now }
{
    bytes
        .iter()
        .take_while(|byte| is_token_byte(**byte))
        .count()
}

// Whether a token may have the byte.
fn is_token_byte(byte: u8) -> bool
    ensures { result ≡ lexemes.is_token_byte byte }
{
    !matches!(
        byte,
        b' ' | b'\t' | b'\r' | b'\n' | b'(' | b')' | b'"' | b';'
    )
}

// The backslash that stands there, and the character behind it.
fn escape_at(text: &[u8], at: usize) -> &[u8]
    ensures escape { result.now ≡ spec.piece_by Found.Escape text.now at }
    ensures fits { at + length result.now < 2 ^ 64 }
{
    let (_, behind) = split_place(text, at);
    first_characters(behind, 2)
}

// Up to which byte the text is marked.
fn marked_by(found: Found, at: usize, piece: &[u8]) -> Option<usize>
    requires { at + length piece.now < 2 ^ 64 }
    ensures { result ≡ spec.marked_by found at (length piece.now) }
{
    match found {
        Found::LongText => None,
        _ => Some(at + piece.len()),
    }
}

// Where the next function begins, behind a list that does not end.
fn function_behind(found: Found, text: &[u8], at: usize) -> Option<usize>
    ensures { result ≡ spec.function_behind found text.now at }
{
    match found {
        Found::OpenList => {
            let (_, behind) = split_place(text, at);
            next_function(at, behind)
        }
        _ => None,
    }
}

// Where the first line begins, among those that begin in the bytes, that has `(fn` at the left margin.
fn next_function(at: usize, bytes: &[u8]) -> Option<usize>
    requires { at + length bytes.now < 2 ^ 64 }
    ensures { result ≡ spec.next_function at bytes.now }
{
    for (i, byte) in bytes.iter().enumerate() {
        if is_before_function(*byte, &bytes[i + 1..]) {
            return Some(at + i + 1);
        }
    }
    None
}

// Whether the byte is a line feed, and the line behind it begins with `(fn`.
fn is_before_function(byte: u8, behind: &[u8]) -> bool
    ensures { result ≡ spec.is_before_function byte behind.now }
{
    byte == b'\n' && behind.starts_with(b"(fn")
}

// What of the text is shown.
fn shown_by(found: Found, text: &[u8], at: usize) -> &[u8]
    ensures { result.now ≡ spec.shown_by found text.now at }
{
    match found {
        Found::Utf8 => {
            let (before, _) = split_place(text, at);
            before
        }
        _ => text,
    }
}
