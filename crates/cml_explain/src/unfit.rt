//! What is wrong with a line of a schedule.

ghost use Rattle.std.specs.{Prelude.{◌≡◌, ◌-◌, ◌<◌, ◌^◌, length, slice_get}, Option.{option_map}};
ghost use Rattle.cml_text.specs.Lines.{lines};

use cml_phrase::push_first;
use cml_text::Lines;
use std::alloc::{AllocError, Global};

// How many characters of a line are said again.
const LINE_LIMIT: usize = 40;

/// What is wrong with the line of this number, from 1, of a text that is no schedule since this line does not fit, in words: what the line
/// says, and that nothing is written so; or, where it is the one after the last, that the last line is missing.
///
/// # Errors
/// Out of memory.
pub fn explain_unfit(alloc: Global, text: &[u8], number: u64) -> Result<Vec<u8>, AllocError>
    requires { length text.now < 2 ^ 63 }
{
    write_unfit(alloc, number, unfit_line(text, number))
}

/// The line of this number, from 1, if there is one.
pub fn unfit_line(text: &[u8], number: u64) -> Option<&[u8]>
    requires { length text.now < 2 ^ 63 }
    ensures { option_map (λ says. says.now) result ≡ slice_get (lines text.now) (number - 1) }
{
    let mut all = Lines::new(text);
    while let Some((at, says)) = all.next() {
        if at >= number {
            return Some(says);
        }
    }
    None
}

/// Says of the line of this number what it says, and that nothing is written so; or, where there is none, that the last line is missing.
///
/// # Errors
/// Out of memory.
pub fn write_unfit(alloc: Global, number: u64, line: Option<&[u8]>) -> Result<Vec<u8>, AllocError> {
    let mut said = format!(in alloc; "line {number}: ")?.into_bytes();
    match line {
        Some(says) => {
            push_first(&mut said, says, LINE_LIMIT)?;
            said.extend_from_slice(b": no line of a schedule is written so here\n")?;
        }
        None => said.extend_from_slice(b"the last line, `end`, is missing\n")?,
    }
    Ok(said)
}
