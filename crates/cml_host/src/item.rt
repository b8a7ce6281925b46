//! What is told of an item of a schedule that can't happen where it stands.

ghost use Rattle.std.specs.Prelude.{◌≡◌, ◌<◌, ◌^◌, length, IfOk, MatchBool, [], IsTrue, true};
ghost use Rattle.cml_host.specs.Plans.{IsItemTold, IsLineBehind, SaysSomething};
ghost use Rattle.cml_text.specs.{Lines.{lines}, Texts.{Spells}};

use crate::reason::explained;
use cml_facts::narrative::{push_why, why_not};
use cml_hub::{Hub, Item};
use cml_text::{Lines, Sexpr, TextFault, read};
use std::alloc::{AllocError, Global};

/// What is told of the item of this number, counted from 1, of the schedule that this text is, where the item can't happen next in this hub: the
/// line that says it, and why it can't.
///
/// # Errors
/// Out of memory.
#[inline(never)]
pub fn explain_item(
    alloc: Global,
    forms: &[Sexpr],
    text: &[u8],
    hub: &Hub,
    number: usize,
    item: &Item,
) -> Result<Vec<u8>, AllocError>
    ensures { IfOk result (λ told. IsItemTold true number told.items) }
{
    let at = item_line(alloc, text, number)?;
    let mut words = format!(in alloc; "line {at}: ")?.into_bytes();
    push_reason(alloc, &mut words, forms, hub, item)?;
    words.push(b'\n')?;
    tell_item(alloc, number, true, words.as_slice())
}

// Appends why the item can't happen next in this hub.
fn push_reason(
    alloc: Global,
    words: &mut Vec<u8>,
    forms: &[Sexpr],
    hub: &Hub,
    item: &Item,
) -> Result<(), AllocError> {
    let why = why_not(alloc, hub, item)?;
    push_why(alloc, words, forms, item, &why)
}

/// What is told of the item of this number, and behind it these words, where it is explained.
///
/// # Errors
/// Out of memory.
pub fn tell_item(
    alloc: Global,
    number: usize,
    explains: bool,
    words: &[u8],
) -> Result<Vec<u8>, AllocError>
    ensures { IfOk result (λ told. IsItemTold explains number told.items) }
{
    let line = format!(in alloc; "schedule item {number}\n")?;
    explained(alloc, line.as_bytes(), explains, words)
}

// The number of the first line that says something behind so many others that do; where there is none, one more than there are lines.
fn item_line(alloc: Global, text: &[u8], others: usize) -> Result<u64, AllocError>
    ensures { IfOk result (IsLineBehind others 1 (lines text.now)) }
{
    let mut left = others;
    let mut all = Lines::new(text);
    while let Some((at, line)) = all.next() {
        if says_something(alloc, line)? {
            if left == 0 {
                return Ok(at);
            }
            left -= 1;
        }
    }
    Ok(all.number())
}

// Whether a line says something.
fn says_something(alloc: Global, line: &[u8]) -> Result<bool, AllocError>
    ensures { IfOk result (λ says. MatchBool says (SaysSomething line.now) (Spells line.now [])) }
{
    match read(alloc, line) {
        Ok(forms) => Ok(!forms.is_empty()),
        Err(TextFault::At { .. }) => Ok(true),
        Err(TextFault::Memory) => Err(AllocError),
    }
}
