//! How values are spoken of.

use crate::push_first;
use cml_value::Value;
use std::alloc::{AllocError, Global};

// How many characters of values are said.
const VALUE_LIMIT: usize = 40;

/// Appends a value as it is printed, cut at 40 characters.
///
/// # Errors
/// Out of memory.
pub fn push_value(alloc: Global, out: &mut Vec<u8>, value: &Value) -> Result<(), AllocError> {
    let text = value.show(alloc)?;
    push_first(out, text.as_bytes(), VALUE_LIMIT)
}

/// Appends a variable and its value: `r = (pair 0 0)`.
///
/// # Errors
/// Out of memory.
pub fn push_variable(
    alloc: Global,
    out: &mut Vec<u8>,
    name: &str,
    value: &Value,
) -> Result<(), AllocError> {
    out.extend_from_slice(name.as_bytes())?;
    out.extend_from_slice(b" = ")?;
    push_value(alloc, out, value)
}

/// Appends words and a number: `receive on channel 2`.
///
/// # Errors
/// Out of memory.
pub fn push_numbered(
    alloc: Global,
    out: &mut Vec<u8>,
    words: &[u8],
    number: u64,
) -> Result<(), AllocError> {
    out.extend_from_slice(words)?;
    let digits = format!(in alloc; "{number}")?;
    out.extend_from_slice(digits.as_bytes())
}

/// Appends words, a value, words and a number: `send 7 on channel 2`.
///
/// # Errors
/// Out of memory.
pub fn push_giving(
    alloc: Global,
    out: &mut Vec<u8>,
    words: &[u8],
    value: &Value,
    object: &[u8],
    number: u32,
) -> Result<(), AllocError> {
    out.extend_from_slice(words)?;
    push_value(alloc, out, value)?;
    push_numbered(alloc, out, object, u64::from(number))
}

/// Appends what a function is given, in parentheses; nothing where it is given nothing.
pub(crate) fn push_given(
    alloc: Global,
    out: &mut Vec<u8>,
    values: &[Value],
) -> Result<(), AllocError> {
    match values {
        [] => Ok(()),
        [first, more @ ..] => {
            let text = listed(alloc, first, more)?;
            out.extend_from_slice(b"(")?;
            push_first(out, text.as_bytes(), VALUE_LIMIT)?;
            out.extend_from_slice(b")")
        }
    }
}

// The values as they are printed, with a space between two.
fn listed(alloc: Global, first: &Value, more: &[Value]) -> Result<String, AllocError> {
    let mut text = first.show(alloc)?;
    for value in more {
        text.push_str(" ")?;
        let own = value.show(alloc)?;
        text.push_str(own.as_str())?;
    }
    Ok(text)
}
