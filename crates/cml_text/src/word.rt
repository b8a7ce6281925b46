//! The lexemes of a text, one at a time.
ghost use Rattle.std.specs.Prelude.{◌≡◌, ℕ, ◌+◌, ◌<◌, ◌^◌, IsTrue, IfOk, IfErr, MatchOption, ◌||◌, ◌==◌, [], ◌∷◌, length, drop, slice_index};
ghost use Rattle.std.specs.{List.{prefix_len, list_all}, Char.{is_ascii_digit}, Str.{chars}};
ghost use Rattle.unicode_ident.specs.Ident.{is_xid_start, is_xid_continue};
ghost use Rattle.cml_text.specs.Lexemes.{is_separator, is_delimiter, is_token_byte, is_comment_byte, is_plain, are_digits, is_number, is_name, is_word, is_operator, number_value, unescaped, token_lexeme, leaf};
ghost use Rattle.cml_text.specs.Steps.{lexemes_of, StepsTo, BeginsWithFault, IsQuoted, IsLexeme, IsLeaf, IsLeafWord};

use crate::fault::{FaultKind, TextFault};
use crate::sexpr::{Name, Sexpr, Span};
use std::alloc::{AllocError, Global};
use unicode_ident::{is_xid_continue, is_xid_start};

// The most bytes of a text literal, after its escapes.
const LITERAL_LIMIT: usize = 4096;

/// A lexeme of a text.
#[derive(Drop)]
pub enum Word {
    Open,
    Close,
    Leaf(Sexpr),
}

// What stands after an opening quote.
#[derive(Drop)]
enum Quoted<'a> {
    Closed { content: String, rest: &'a str },
    Endless,
    NoEscape(usize),
}

/// The lexeme at the front of a text that stands at a place, if a lexeme begins there, and the text after it.
pub fn word_at(alloc: Global, at: usize, text: &str) -> Result<(Option<Word>, &str), TextFault>
    requires begins { 0 < length text.now }
    requires fits { at + length text.now < 2 ^ 63 }
    ensures ok { IfOk result (λ found. StepsTo at text.now (lexemes_of at found.0) found.1.now) }
    ensures leaf { IfOk result (λ found. IsLeafWord found.0) }
    ensures err { IfErr result (BeginsWithFault at text.now) }
{
    let first = text.as_bytes()[0];
    if is_separator(first) {
        return Ok((None, past_ascii(text)));
    }
    match first {
        b';' => Ok((None, past_comment(text))),
        b'(' => Ok((Some(Word::Open), past_ascii(text))),
        b')' => Ok((Some(Word::Close), past_ascii(text))),
        b'"' => {
            let (form, rest) = text_form(alloc, at, text)?;
            Ok((Some(Word::Leaf(form)), rest))
        }
        _ => {
            let (token, rest) = text.split_at(token_len(text.as_bytes()));
            let form = token_form(alloc, at, token)?;
            Ok((Some(Word::Leaf(form)), rest))
        }
    }
}

// Whether the byte is a space, a tab, a carriage return or a line feed.
fn is_separator(byte: u8) -> bool
    ensures { result ≡ is_separator byte }
{
    matches!(byte, b' ' | b'\t' | b'\r' | b'\n')
}

/// The text after its first character, which is ASCII.
pub fn past_ascii(text: &str) -> &str
    requires begins { 0 < length text.now }
    requires ascii { slice_index text.now 0 < 128 }
    ensures { result.now ≡ drop 1 text.now }
{
    let (_first, rest) = text.split_at(1);
    rest
}

// The text from the end of its first line on.
fn past_comment(text: &str) -> &str
    ensures { result.now ≡ drop (prefix_len is_comment_byte text.now) text.now }
{
    let (_comment, rest) = text.split_at(comment_len(text.as_bytes()));
    rest
}

// How many bytes come before the first line feed.
fn comment_len(bytes: &[u8]) -> usize
    ensures { result ≡ prefix_len is_comment_byte bytes.now }
{
    bytes.iter().take_while(|byte| **byte != b'\n').count()
}

// How many bytes come before the first delimiter.
fn token_len(bytes: &[u8]) -> usize
    ensures { result ≡ prefix_len is_token_byte bytes.now }
{
    bytes
        .iter()
        .take_while(|byte| !is_delimiter(**byte))
        .count()
}

// Whether the byte ends a token.
fn is_delimiter(byte: u8) -> bool
    ensures { result ≡ is_delimiter byte }
{
    is_separator(byte) || matches!(byte, b'(' | b')' | b'"' | b';')
}

// How many bytes come before the first quote or backslash.
fn plain_len(bytes: &[u8]) -> usize
    ensures { result ≡ prefix_len is_plain bytes.now }
{
    bytes
        .iter()
        .take_while(|byte| **byte != b'"' && **byte != b'\\')
        .count()
}

// What a backslash and the byte stand for, if they are an escape.
fn unescaped(byte: u8) -> Option<char>
    ensures { result ≡ unescaped byte }
{
    match byte {
        b'"' => Some('"'),
        b'\\' => Some('\\'),
        b'n' => Some('\n'),
        _ => None,
    }
}

// The text that begins the text with its opening quote, at a place, and the text after it.
fn text_form(alloc: Global, at: usize, text: &str) -> Result<(Sexpr, &str), TextFault>
    requires begins { 0 < length text.now }
    requires quote { slice_index text.now 0 ≡ 34 }
    requires fits { at + length text.now < 2 ^ 63 }
    ensures ok { IfOk result (λ found. StepsTo at text.now (leaf found.0 ∷ []) found.1.now) }
    ensures leaf { IfOk result (λ found. IsLeaf found.0) }
    ensures err { IfErr result (BeginsWithFault at text.now) }
{
    let behind = past_ascii(text);
    match read_quoted(alloc, behind)? {
        Quoted::Closed { content, rest } => {
            if content.len() > LITERAL_LIMIT {
                return Err(TextFault::At {
                    kind: FaultKind::Long,
                    at,
                });
            }
            let span = Span {
                start: at,
                end: at + (text.len() - rest.len()),
            };
            Ok((Sexpr::text(span, content), rest))
        }
        Quoted::Endless => Err(TextFault::At {
            kind: FaultKind::Unclosed,
            at,
        }),
        Quoted::NoEscape(place) => Err(TextFault::At {
            kind: FaultKind::Escape,
            at: at + 1 + place,
        }),
    }
}

// What stands after an opening quote.
fn read_quoted(alloc: Global, text: &str) -> Result<Quoted<'_>, AllocError>
    ensures { IfOk result (IsQuoted text.now) }
{
    let mut content = String::new(alloc);
    let mut rest = text;
    while !rest.is_empty() {
        let (plain, special) = rest.split_at(plain_len(rest.as_bytes()));
        content.push_str(plain)?;
        if special.is_empty() {
            return Ok(Quoted::Endless);
        }
        if special.as_bytes()[0] == b'"' {
            let rest = past_ascii(special);
            return Ok(Quoted::Closed { content, rest });
        }
        if special.len() == 1 {
            return Ok(Quoted::Endless);
        }
        match unescaped(special.as_bytes()[1]) {
            Some(character) => content.push(character)?,
            None => return Ok(Quoted::NoEscape(text.len() - special.len())),
        }
        rest = past_ascii(past_ascii(special));
    }
    Ok(Quoted::Endless)
}

// The number or the name that a token spells.
#[tactic(auto, unfolding(crate::specs::Lexemes::token_lexeme))]
fn token_form(alloc: Global, at: usize, token: &str) -> Result<Sexpr, TextFault>
    requires fits { at + length token.now < 2 ^ 63 }
    ensures lexeme { IsLexeme result (token_lexeme at token.now) }
    ensures leaf { IfOk result IsLeaf }
{
    let span = Span {
        start: at,
        end: at + token.len(),
    };
    if is_number(token.as_bytes()) {
        return match number_value(token) {
            Some(value) => Ok(Sexpr::int(span, value)),
            None => Err(TextFault::At {
                kind: FaultKind::Number,
                at,
            }),
        };
    }
    if !is_name(token) {
        return Err(TextFault::At {
            kind: FaultKind::Character,
            at,
        });
    }
    let name = Name::new(String::from_str(alloc, token)?);
    Ok(Sexpr::name(span, name))
}

// Whether the token is digits, with a minus before them or none.
fn is_number(token: &[u8]) -> bool
    ensures { result ≡ is_number token.now }
{
    match token {
        [b'-', digits @ ..] => are_digits(digits),
        digits => are_digits(digits),
    }
}

// Whether there are digits and nothing else.
fn are_digits(bytes: &[u8]) -> bool
    ensures { result ≡ are_digits bytes.now }
{
    !bytes.is_empty() && all_digits(bytes)
}

// Whether each byte is a digit.
fn all_digits(bytes: &[u8]) -> bool
    ensures { result ≡ list_all is_ascii_digit bytes.now }
{
    bytes.iter().all(|byte| byte.is_ascii_digit())
}

// The value of a number, if it is in range.
fn number_value(token: &str) -> Option<i64>
    requires { IsTrue (is_number token.now) }
    ensures { result ≡ number_value token.now }
{
    token.parse::<i64>().ok()
}

// Whether the token is the spelling of a name.
#[tactic(auto, unfolding(crate::specs::Lexemes::is_name))]
fn is_name(token: &str) -> bool
    ensures { result ≡ is_name token.now }
{
    is_operator(token.as_bytes()) || is_word(token)
}

// Whether the token is an operator.
fn is_operator(token: &[u8]) -> bool
    ensures { result ≡ is_operator token.now }
{
    matches!(token, [b'+' | b'-' | b'*' | b'<' | b'='])
}

// Whether the token is a character that may start a name, and then such as may continue one.
fn is_word(token: &str) -> bool
    ensures { result ≡ is_word (chars token.now) }
{
    match split_first(token) {
        Some((first, rest)) => starts_name(first) && continues_name(rest),
        None => false,
    }
}

// The first character, and the text after it.
fn split_first(text: &str) -> Option<(char, &str)>
    ensures { MatchOption result (chars text.now ≡ [])
        (λ found. chars text.now ≡ found.0 ∷ chars found.1.now) }
{
    let first = text.chars().next()?;
    let (_first, rest) = text.split_at(first.len_utf8());
    Some((first, rest))
}

// Whether a name may go on with each of the characters.
fn continues_name(text: &str) -> bool
    ensures { result ≡ list_all is_xid_continue (chars text.now) }
{
    text.chars().all(|character| is_xid_continue(character))
}

// Whether a name may start with the character.
fn starts_name(character: char) -> bool
    ensures { result ≡ ((character == 95) || is_xid_start character) }
{
    character == '_' || is_xid_start(character)
}
