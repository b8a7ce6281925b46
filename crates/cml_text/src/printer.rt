//! Printing forms.
ghost use Rattle.std.specs.{Prelude.{◌≡◌, ◌<◌, ◌≤◌, ◌++◌, List, [], ◌∷◌, IfOk, IsFalse, OnOk, flat_map, slice_index, length}, List.{prefix_len}};
ghost use Rattle.std.specs.String.{string_bytes};
ghost use Rattle.cml_text.specs.Printed.{escaped, quoted, printed, needs_no_escape};

use crate::sexpr::Sexpr;
use crate::word::past_ascii;
use std::alloc::{AllocError, Global};

/// The canonical text of the forms: each is followed by a line feed.
pub fn print(alloc: Global, forms: &[Sexpr]) -> Result<String, AllocError>
    ensures { IfOk result (λ text. string_bytes text ≡ printed forms.now) }
{
    let mut text = String::new(alloc);
    for form in forms {
        form.push_to(&mut text)?;
        text.push('\n')?;
    }
    Ok(text)
}

/// Appends a text literal that stands for the content.
pub fn push_quoted(text: &mut String, content: &str) -> Result<(), AllocError>
    ensures { OnOk result (string_bytes text.new ≡ string_bytes text.old ++ quoted content.now) }
{
    text.push('"')?;
    let mut rest = content;
    while !rest.is_empty() {
        let (plain, special) = rest.split_at(plain_len(rest.as_bytes()));
        text.push_str(plain)?;
        rest = push_first(text, special)?;
    }
    text.push('"')
}

// Appends the escape for the first character, if there is one, and returns the text after it.
fn push_first<'a>(text: &mut String, special: &'a str) -> Result<&'a str, AllocError>
    requires { 0 < length special.now → IsFalse (needs_no_escape (slice_index special.now 0)) }
    ensures appended { IfOk result (λ rest. string_bytes text.new ++ flat_map escaped rest.now
        ≡ string_bytes text.old ++ flat_map escaped special.now) }
    ensures shorter { IfOk result
        (λ rest. 0 < length special.now → length rest.now < length special.now) }
    ensures none { IfOk result (λ rest. length rest.now ≤ length special.now) }
{
    if special.is_empty() {
        return Ok(special);
    }
    push_escaped(text, special.as_bytes()[0])?;
    Ok(past_ascii(special))
}

// How many bytes come before the first that is printed by an escape.
fn plain_len(bytes: &[u8]) -> usize
    ensures { result ≡ prefix_len needs_no_escape bytes.now }
{
    bytes
        .iter()
        .take_while(|byte| !matches!(**byte, b'"' | b'\\' | b'\n'))
        .count()
}

// Appends the escape for a byte that needs one.
fn push_escaped(text: &mut String, byte: u8) -> Result<(), AllocError>
    requires { IsFalse (needs_no_escape byte) }
    ensures { OnOk result (string_bytes text.new ≡ string_bytes text.old ++ escaped byte) }
{
    match byte {
        b'"' => text.push_str("\\\""),
        b'\\' => text.push_str("\\\\"),
        _ => text.push_str("\\n"),
    }
}
