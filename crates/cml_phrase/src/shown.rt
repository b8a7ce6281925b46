//! How a diagnosis is shown.
ghost use Rattle.std.specs.{Prelude.{◌≡◌, ◌<◌, ◌≤◌, ◌+◌, ◌++◌, IfOk, OnOk, take, map}, List.{flat_map}, String.{string_bytes}, Fmt.{decimal}};
ghost use Rattle.cml_phrase.specs.Diagnoses.{plain_note, plain_diagnosis};
ghost use Rattle.cml_phrase.specs.Places as places;
ghost use Rattle.cml_phrase.specs.Shown as spec;

use crate::cut::{first_characters, last_characters, push_first, push_last};
use crate::diagnosis::{Diagnosis, Note};
use crate::position::{
    begins_character, characters, column_at, line_at, line_before, line_behind, split_place,
};
use std::alloc::{AllocError, Global};

// How many characters of a line are shown before a place, and from it on.
const BEFORE_LIMIT: usize = 60;

const BEHIND_LIMIT: usize = 100;

/// The text of a diagnosis of a text, which has this name.
///
/// # Errors
/// Out of memory.
pub fn render(
    alloc: Global,
    name: &str,
    text: &[u8],
    diagnosis: &Diagnosis,
) -> Result<Vec<u8>, AllocError>
    ensures { IfOk result
        (λ shown. shown.items ≡ spec.shown_diagnosis name.now text.now (plain_diagnosis diagnosis.now)) }
{
    let number = line_number(alloc, text, diagnosis.at)?;
    let digits = number.as_bytes();
    let mut out = Vec::new(alloc);
    push_head(alloc, &mut out, name, text, diagnosis)?;
    push_marked(&mut out, digits, text, diagnosis.at, diagnosis.marked_to)?;
    push_notes(alloc, &mut out, digits, text, diagnosis.notes.as_slice())?;
    Ok(out)
}

// The digits of the line of a place.
fn line_number(alloc: Global, text: &[u8], at: usize) -> Result<String, AllocError>
    ensures { IfOk result (λ number. string_bytes number ≡ decimal (places.line_at text.now at)) }
{
    format!(in alloc; "{}", line_at(text, at))
}

// Appends the first line.
fn push_head(
    alloc: Global,
    out: &mut Vec<u8>,
    name: &str,
    text: &[u8],
    diagnosis: &Diagnosis,
) -> Result<(), AllocError>
    ensures { OnOk result
        (out.new.items ≡ out.old.items ++ spec.shown_head name.now text.now (plain_diagnosis diagnosis.now)) }
{
    out.extend_from_slice(name.as_bytes())?;
    out.extend_from_slice(b":")?;
    push_place(alloc, out, text, diagnosis.at)?;
    out.extend_from_slice(b": ")?;
    out.extend_from_slice(diagnosis.message.as_slice())?;
    out.extend_from_slice(b"\n")
}

// Appends a place: line and column.
fn push_place(alloc: Global, out: &mut Vec<u8>, text: &[u8], at: usize) -> Result<(), AllocError>
    ensures { OnOk result (out.new.items ≡ out.old.items ++ places.shown_place text.now at) }
{
    let place = format!(in alloc; "{}:{}", line_at(text, at), column_at(text, at))?;
    out.extend_from_slice(place.as_bytes())
}

// Appends the line of a place, marked up to a byte; or nothing.
fn push_marked(
    out: &mut Vec<u8>,
    number: &[u8],
    text: &[u8],
    at: usize,
    marked_to: Option<usize>,
) -> Result<(), AllocError>
    ensures { OnOk result
        (out.new.items ≡ out.old.items ++ spec.shown_marked number.now text.now at marked_to) }
{
    let Some(end) = marked_to else {
        return Ok(());
    };
    let before = line_before(text, at);
    let behind = line_behind(text, at);
    push_line(out, number, before, behind)?;
    push_mark(out, number, before, behind, end.saturating_sub(at))?;
    Ok(())
}

// Appends a line with its number, by its parts before a place and from it on.
fn push_line(
    out: &mut Vec<u8>,
    number: &[u8],
    before: &[u8],
    behind: &[u8],
) -> Result<(), AllocError>
    ensures { OnOk result
        (out.new.items ≡ out.old.items ++ spec.shown_line number.now before.now behind.now) }
{
    out.extend_from_slice(number)?;
    out.extend_from_slice(b" | ")?;
    push_last(out, before, BEFORE_LIMIT)?;
    push_first(out, behind, BEHIND_LIMIT)?;
    out.extend_from_slice(b"\n")?;
    Ok(())
}

// Appends the mark under that line.
fn push_mark(
    out: &mut Vec<u8>,
    number: &[u8],
    before: &[u8],
    behind: &[u8],
    count: usize,
) -> Result<(), AllocError>
    ensures { OnOk result
        (out.new.items ≡ out.old.items ++ spec.shown_mark number.now before.now behind.now count) }
{
    push_margin(out, number)?;
    out.extend_from_slice(b" | ")?;
    push_blanks(out, before)?;
    push_carets(out, marked(behind, count))?;
    out.extend_from_slice(b"\n")?;
    Ok(())
}

// Appends a space for each digit of the number of a line.
fn push_margin(out: &mut Vec<u8>, number: &[u8]) -> Result<(), AllocError>
    ensures { OnOk result (out.new.items ≡ out.old.items ++ spec.margin_under number.now) }
{
    for _digit in number {
        out.push(b' ')?;
    }
    Ok(())
}

// Appends what stands under the part of a line before a place.
fn push_blanks(out: &mut Vec<u8>, bytes: &[u8]) -> Result<(), AllocError>
    ensures { OnOk result (out.new.items ≡ out.old.items ++ spec.blanks_before bytes.now) }
{
    push_dot_blanks(out, characters(bytes) > BEFORE_LIMIT)?;
    push_blanks_under(out, last_characters(bytes, BEFORE_LIMIT))
}

// Appends what stands under two dots, or nothing.
fn push_dot_blanks(out: &mut Vec<u8>, are_more: bool) -> Result<(), AllocError>
    ensures { OnOk result
        (out.new.items ≡ out.old.items ++ flat_map spec.blank_under (spec.dots_if are_more)) }
{
    if are_more {
        out.extend_from_slice(b"  ")?;
    }
    Ok(())
}

// Appends a tab for each tab, and a space for each other character.
fn push_blanks_under(out: &mut Vec<u8>, bytes: &[u8]) -> Result<(), AllocError>
    ensures { OnOk result (out.new.items ≡ out.old.items ++ flat_map spec.blank_under bytes.now) }
{
    for byte in bytes {
        if *byte == b'\t' {
            out.push(b'\t')?;
        } else if begins_character(*byte) {
            out.push(b' ')?;
        }
    }
    Ok(())
}

// Of the part of a line from a place on, that which is shown, and of this at most so many bytes.
fn marked(bytes: &[u8], count: usize) -> &[u8]
    ensures { result.now ≡ take count (spec.first_characters spec.behind_limit bytes.now) }
{
    let (shown, _) = split_place(first_characters(bytes, BEHIND_LIMIT), count);
    shown
}

// Appends a mark under the bytes, at least one sign.
fn push_carets(out: &mut Vec<u8>, bytes: &[u8]) -> Result<(), AllocError>
    ensures { OnOk result (out.new.items ≡ out.old.items ++ spec.carets_under bytes.now) }
{
    if characters(bytes) == 0 {
        return Ok(out.push(b'^')?);
    }
    push_carets_under(out, bytes)
}

// Appends a sign for each character.
fn push_carets_under(out: &mut Vec<u8>, bytes: &[u8]) -> Result<(), AllocError>
    ensures { OnOk result (out.new.items ≡ out.old.items ++ flat_map spec.caret_under bytes.now) }
{
    for byte in bytes {
        if begins_character(*byte) {
            out.push(b'^')?;
        }
    }
    Ok(())
}

// Appends the notes, each on a line of its own.
fn push_notes(
    alloc: Global,
    out: &mut Vec<u8>,
    number: &[u8],
    text: &[u8],
    notes: &[Note],
) -> Result<(), AllocError>
    ensures { OnOk result
        (out.new.items ≡ out.old.items ++ flat_map (spec.shown_note number.now text.now) (map plain_note notes.now)) }
{
    for note in notes {
        push_note(alloc, out, number, text, note)?;
    }
    Ok(())
}

// Appends a note.
fn push_note(
    alloc: Global,
    out: &mut Vec<u8>,
    number: &[u8],
    text: &[u8],
    note: &Note,
) -> Result<(), AllocError>
    ensures { OnOk result (out.new.items ≡ out.old.items ++ spec.shown_note number.now text.now (plain_note note.now)) }
{
    push_margin(out, number)?;
    out.extend_from_slice(b" = ")?;
    out.extend_from_slice(note.words.as_slice())?;
    if let Some(at) = note.at {
        out.extend_from_slice(b" at ")?;
        push_place(alloc, out, text, at)?;
    }
    out.extend_from_slice(b"\n")
}
