//! Texts of JSON.

ghost use Rattle.std.specs.{Prelude.{◌≡◌, ◌<◌, ◌++◌, IfOk, OnOk, codes, map, option_map}, Fmt.{decimal}, List.{flat_map}};
ghost use Rattle.cml_json.specs.Json as spec;

use std::alloc::{AllocError, Global};

// The digit of a number below 16.
fn hex_digit(number: u8) -> u8
    requires { number < 16 }
    ensures { result ≡ spec.hex_digit number }
{
    if number < 10 {
        number + b'0'
    } else {
        number + (b'a' - 10)
    }
}

// Appends a byte of a string.
fn push_byte(text: &mut Vec<u8>, byte: u8) -> Result<(), AllocError>
    ensures { OnOk result (text.new.items ≡ text.old.items ++ spec.byte_in_string byte) }
{
    if byte == b'"' || byte == b'\\' {
        text.push(b'\\')?;
        text.push(byte)?;
        return Ok(());
    }
    if byte < 32 {
        return push_by_number(text, byte);
    }
    text.push(byte)?;
    Ok(())
}

// Appends a byte by its number.
fn push_by_number(text: &mut Vec<u8>, byte: u8) -> Result<(), AllocError>
    ensures { OnOk result (text.new.items ≡ text.old.items ++ spec.by_number byte) }
{
    text.extend_from_slice(b"\\u00")?;
    text.push(hex_digit(byte / 16))?;
    text.push(hex_digit(byte % 16))?;
    Ok(())
}

// Appends the bytes of a string.
fn push_bytes(text: &mut Vec<u8>, bytes: &[u8]) -> Result<(), AllocError>
    ensures { OnOk result (text.new.items ≡ text.old.items ++ flat_map spec.byte_in_string bytes.now) }
{
    for byte in bytes {
        push_byte(text, *byte)?;
    }
    Ok(())
}

/// Appends these bytes, and a string.
///
/// # Errors
/// Out of memory.
pub(crate) fn push_string(text: &mut Vec<u8>, before: &[u8], bytes: &[u8]) -> Result<(), AllocError>
    ensures { OnOk result (text.new.items ≡ text.old.items ++ (before.now ++ spec.json_string bytes.now)) }
{
    text.extend_from_slice(before)?;
    text.push(b'"')?;
    push_bytes(text, bytes)?;
    text.push(b'"')?;
    Ok(())
}

/// The text of a string.
///
/// # Errors
/// Out of memory.
pub fn json_string(alloc: Global, bytes: &[u8]) -> Result<Vec<u8>, AllocError>
    ensures { IfOk result (λ text. text.items ≡ spec.json_string bytes.now) }
{
    let mut text = Vec::new(alloc);
    push_string(&mut text, b"", bytes)?;
    Ok(text)
}

/// Appends these bytes, and a string, or `null`.
///
/// # Errors
/// Out of memory.
#[tactic(auto, unfolding(crate::specs::Json::optional))]
pub(crate) fn push_optional_string(
    text: &mut Vec<u8>,
    before: &[u8],
    bytes: Option<&str>,
) -> Result<(), AllocError>
    ensures { OnOk result (text.new.items ≡ text.old.items ++ (before.now ++ spec.optional spec.json_string (option_map (λ b. b.now) bytes.entry))) }
{
    match bytes {
        Some(bytes) => push_string(text, before, bytes.as_bytes()),
        None => push_null(text, before),
    }
}

/// Appends these bytes, and `null`.
///
/// # Errors
/// Out of memory.
pub(crate) fn push_null(text: &mut Vec<u8>, before: &[u8]) -> Result<(), AllocError>
    ensures { OnOk result (text.new.items ≡ text.old.items ++ (before.now ++ codes "null")) }
{
    text.extend_from_slice(before)?;
    text.extend_from_slice(b"null")
}

/// Appends these bytes, and a truth value.
///
/// # Errors
/// Out of memory.
#[tactic(auto, unfolding(crate::specs::Json::truth))]
pub(crate) fn push_truth(text: &mut Vec<u8>, before: &[u8], value: bool) -> Result<(), AllocError>
    ensures { OnOk result (text.new.items ≡ text.old.items ++ (before.now ++ spec.truth value)) }
{
    text.extend_from_slice(before)?;
    if value {
        text.extend_from_slice(b"true")
    } else {
        text.extend_from_slice(b"false")
    }
}

/// Appends these bytes, and a number.
///
/// # Errors
/// Out of memory.
pub(crate) fn push_number(
    alloc: Global,
    text: &mut Vec<u8>,
    before: &[u8],
    number: u64,
) -> Result<(), AllocError>
    ensures { OnOk result (text.new.items ≡ text.old.items ++ (before.now ++ decimal number)) }
{
    text.extend_from_slice(before)?;
    let digits = format!(in alloc; "{number}")?;
    text.extend_from_slice(digits.as_bytes())
}

/// Appends these bytes, and a number, or `null`.
///
/// # Errors
/// Out of memory.
#[tactic(auto, unfolding(crate::specs::Json::optional))]
pub(crate) fn push_optional_number(
    alloc: Global,
    text: &mut Vec<u8>,
    before: &[u8],
    number: Option<u64>,
) -> Result<(), AllocError>
    ensures { OnOk result (text.new.items ≡ text.old.items ++ (before.now ++ spec.optional decimal number)) }
{
    match number {
        Some(number) => push_number(alloc, text, before, number),
        None => push_null(text, before),
    }
}

/// Appends the comma before a text that comes in this place, if it is not the first.
///
/// # Errors
/// Out of memory.
pub(crate) fn push_comma(text: &mut Vec<u8>, place: usize) -> Result<(), AllocError>
    ensures { OnOk result (text.new.items ≡ text.old.items ++ spec.comma_before place) }
{
    if place == 0 {
        return Ok(());
    }
    Ok(text.push(b',')?)
}

/// The text of a list of what has these texts.
///
/// # Errors
/// Out of memory.
#[tactic(auto, unfolding(crate::specs::Json::array))]
pub fn array(alloc: Global, texts: &[Vec<u8>]) -> Result<Vec<u8>, AllocError>
    ensures { IfOk result (λ text. text.items ≡ spec.array (map (λ one. one.items) texts.now)) }
{
    let mut text = Vec::new(alloc);
    text.push(b'[')?;
    for place in 0..texts.len() {
        push_comma(&mut text, place)?;
        text.extend_from_slice(texts[place].as_slice())?;
    }
    text.push(b']')?;
    Ok(text)
}
