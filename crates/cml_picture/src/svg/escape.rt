//! How texts are written in XML.

ghost use Rattle.std.specs.{Prelude.{◌≡◌, ◌++◌, IfOk, OnOk}, String.{string_bytes}};
ghost use Rattle.cml_picture.specs.Xml as spec;

use std::alloc::{AllocError, Global};

// Whether XML has the character.
fn is_character(character: char) -> bool
    ensures { result ≡ spec.is_character character }
{
    let code = u32::from(character);
    code == 9
        || code == 10
        || code == 13
        || (31 < code && code < 55_296)
        || (57_343 < code && code < 65_534)
        || (65_535 < code && code < 1_114_112)
}

// Appends a character as it is written.
fn push_character(out: &mut String, character: char) -> Result<(), AllocError>
    ensures { OnOk result (string_bytes out.new ≡ string_bytes out.old ++ spec.escaped_character character) }
{
    match character {
        '&' => out.push_str("&amp;"),
        '<' => out.push_str("&lt;"),
        '>' => out.push_str("&gt;"),
        '"' => out.push_str("&quot;"),
        '\'' => out.push_str("&apos;"),
        _ => push_plain(out, character),
    }
}

// Appends a character, or a question mark where XML has none.
fn push_plain(out: &mut String, character: char) -> Result<(), AllocError>
    ensures { OnOk result (string_bytes out.new ≡ string_bytes out.old ++ spec.plain_character character) }
{
    if is_character(character) {
        out.push(character)
    } else {
        out.push_str("?")
    }
}

// Appends the characters of a text as they are written.
fn push_characters(out: &mut String, text: &str) -> Result<(), AllocError>
    ensures { OnOk result (string_bytes out.new ≡ string_bytes out.old ++ spec.escaped_characters text.now) }
{
    for character in text.chars() {
        push_character(out, character)?;
    }
    Ok(())
}

// A text as it is written.
fn escaped_words(alloc: Global, bytes: &[u8]) -> Result<String, AllocError>
    ensures { IfOk result (λ text. string_bytes text ≡ spec.escaped_words bytes.now) }
{
    let text = String::from_utf8_lossy(alloc, bytes)?;
    let mut out = String::new(alloc);
    push_characters(&mut out, text.as_str())?;
    Ok(out)
}

/// Appends a text as it is written.
pub(crate) fn push_escaped(alloc: Global, out: &mut Vec<u8>, bytes: &[u8]) -> Result<(), AllocError>
    ensures { OnOk result (out.new.items ≡ out.old.items ++ spec.escaped_words bytes.now) }
{
    let text = escaped_words(alloc, bytes)?;
    out.extend_from_slice(text.as_bytes())
}
