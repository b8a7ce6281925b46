//! Bytes of a text as they are shown, and parts of them by characters.
ghost use Rattle.std.specs.Prelude.{◌≡◌, ◌<◌, ◌≤◌, ◌+◌, ◌++◌, IfOk, OnOk, length};
ghost use Rattle.cml_phrase.specs.Shown as spec;

use crate::position::{begins_character, characters};
use std::alloc::AllocError;

/// Appends bytes of a text as they are shown: a question mark for each control character but the tab.
///
/// # Errors
/// Out of memory.
pub fn push_shown(out: &mut Vec<u8>, bytes: &[u8]) -> Result<(), AllocError>
    ensures { OnOk result (out.new.items ≡ out.old.items ++ spec.shown_bytes bytes.now) }
{
    let mut rest = bytes;
    while !rest.is_empty() {
        rest = push_character(out, rest)?;
    }
    Ok(())
}

// Appends what stands first, and returns what stands behind it.
fn push_character<'a>(out: &mut Vec<u8>, bytes: &'a [u8]) -> Result<&'a [u8], AllocError>
    requires { 0 < length bytes.now }
    ensures shown { IfOk result
        (λ rest. out.new.items ++ spec.shown_bytes rest.now ≡ out.old.items ++ spec.shown_bytes bytes.now) }
    ensures shorter { IfOk result (λ rest. length rest.now < length bytes.now) }
{
    let first = bytes[0];
    if bytes.len() > 1 && is_wide_control(first, bytes[1]) {
        out.push(b'?')?;
        return Ok(&bytes[2..]);
    }
    out.push(if is_control(first) { b'?' } else { first })?;
    Ok(&bytes[1..])
}

// Whether the byte is a control character but the tab.
fn is_control(byte: u8) -> bool
    ensures { result ≡ spec.is_control byte }
{
    byte < 32 && byte != b'\t' || byte == 127
}

// Whether the two bytes are a control character.
fn is_wide_control(first: u8, second: u8) -> bool
    ensures { result ≡ spec.is_wide_control first second }
{
    first == 194 && second > 127 && second < 160
}

/// Appends the first characters as they are shown, at most so many, and two dots where there are more.
///
/// # Errors
/// Out of memory.
pub fn push_first(out: &mut Vec<u8>, bytes: &[u8], limit: usize) -> Result<(), AllocError>
    ensures { OnOk result (out.new.items ≡ out.old.items ++ spec.shown_first limit bytes.now) }
{
    push_shown(out, first_characters(bytes, limit))?;
    push_dots(out, characters(bytes) > limit)
}

/// Appends the last characters as they are shown, at most so many, and two dots before them where there are more.
pub(crate) fn push_last(out: &mut Vec<u8>, bytes: &[u8], limit: usize) -> Result<(), AllocError>
    ensures { OnOk result (out.new.items ≡ out.old.items ++ spec.shown_last limit bytes.now) }
{
    push_dots(out, characters(bytes) > limit)?;
    push_shown(out, last_characters(bytes, limit))
}

// Appends two dots, or nothing.
fn push_dots(out: &mut Vec<u8>, are_more: bool) -> Result<(), AllocError>
    ensures { OnOk result (out.new.items ≡ out.old.items ++ spec.dots_if are_more) }
{
    if are_more {
        out.extend_from_slice(b"..")?;
    }
    Ok(())
}

/// The first characters, at most so many.
pub fn first_characters(bytes: &[u8], limit: usize) -> &[u8]
    ensures { result.now ≡ spec.first_characters limit bytes.now }
{
    &bytes[..bytes_of_first(bytes, limit)]
}

/// The last characters, at most so many.
pub(crate) fn last_characters(bytes: &[u8], limit: usize) -> &[u8]
    ensures { result.now ≡ spec.last_characters limit bytes.now }
{
    &bytes[bytes_of_first(bytes, characters(bytes).saturating_sub(limit))..]
}

// How many bytes the first characters take, at most so many of them.
fn bytes_of_first(bytes: &[u8], limit: usize) -> usize
    ensures count { result ≡ spec.bytes_of_first limit bytes.now }
    ensures within { result ≤ length bytes.now }
{
    let mut left = limit;
    for (i, byte) in bytes.iter().enumerate() {
        if begins_character(*byte) {
            if left == 0 {
                return i;
            }
            left -= 1;
        }
    }
    bytes.len()
}
