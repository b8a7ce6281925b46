//! Reading properties.

ghost use Rattle.std.specs.Prelude.{◌≡◌, ◌+◌, ◌<◌, ◌^◌, ◌++◌, OnOk, option_to_list, length};
ghost use Rattle.std.specs.List.{prefix_len};
ghost use Rattle.cml_text.specs.Lexemes.{is_separator, is_token_byte};
ghost use Rattle.cml_properties.specs.{Lines.{only}, Reading.{IfTold}, declared.kind.PropertyKind.TheVariants.{Before}};
ghost use Rattle.cml_properties.specs.Reading as spec;

use crate::fault::{PropertyFault, PropertyFaultKind};
use crate::kind::PropertyKind;
use crate::pattern::Pattern;
use crate::property::Property;
use cml_text::{FaultKind, Lines, Sexpr, TextFault, read};
use std::alloc::{AllocError, Global};

// The most bytes of a text of properties.
const TEXT_LIMIT: usize = 1_048_576;

/// The properties of a text: one on a line, by its word and its patterns, `before (pair "asked" 1) (pair "answered" 1)`.
///
/// Comments and blank lines are skipped.
///
/// # Errors
/// The first fault, with its byte in the text; or out of memory.
pub fn properties(alloc: Global, text: &[u8]) -> Result<Vec<Property>, PropertyFault>
    ensures { IfTold result (λ found. spec.TextSays text.now (spec.read_properties found)) }
{
    if text.len() > TEXT_LIMIT {
        return Err(PropertyFault::At {
            kind: PropertyFaultKind::Text(FaultKind::Long),
            at: TEXT_LIMIT,
        });
    }
    let mut found = Vec::new(alloc);
    let mut at = 0;
    let mut lines = Lines::new(text);
    while let Some((_, line)) = lines.next() {
        let said = line_property(alloc, at, line)?;
        push_said(&mut found, said)?;
        at += line.len() + 1;
    }
    Ok(found)
}

/// The property of one kind whose patterns a text spells.
///
/// # Errors
/// What is wrong with the text, with its byte; that the kind takes another number of patterns, at byte 0; or out of memory.
pub fn property_from(
    alloc: Global,
    kind: PropertyKind,
    text: &[u8],
) -> Result<Property, PropertyFault>
    ensures { IfTold result (spec.PatternsGive kind 0 0 text.now) }
{
    given(alloc, kind, 0, 0, text)
}

// Appends the property, if there is one.
fn push_said(found: &mut Vec<Property>, said: Option<Property>) -> Result<(), AllocError>
    ensures { OnOk result (found.new.items ≡ found.old.items ++ option_to_list said) }
{
    if let Some(property) = said {
        found.push(property)?;
    }
    Ok(())
}

// The property that a line says, which stands at a byte, if it is not blank.
fn line_property(alloc: Global, at: usize, line: &[u8]) -> Result<Option<Property>, PropertyFault>
    requires fits { at + length line.now < 2 ^ 63 }
    ensures { IfTold result (spec.LineSays at line.now) }
{
    let begun = past_separators(line);
    if is_empty_or_comment(begun) {
        return Ok(None);
    }
    let start = at + (line.len() - begun.len());
    let end = word_len(begun);
    let (word, behind) = begun.split_at(end);
    match PropertyKind::of_word(word) {
        Some(kind) => {
            let property = given(alloc, kind, start, start + end, behind)?;
            Ok(Some(property))
        }
        None => Err(PropertyFault::At {
            kind: PropertyFaultKind::Word,
            at: start,
        }),
    }
}

// The line without the separators at its front.
fn past_separators(line: &[u8]) -> &[u8]
    ensures { result.now ≡ spec.line_begun line.now }
{
    let count = separators_len(line);
    let (_separators, begun) = line.split_at(count);
    begun
}

// How many separators come first.
fn separators_len(bytes: &[u8]) -> usize
    ensures { result ≡ prefix_len is_separator bytes.now }
{
    bytes.iter().take_while(|byte| is_separator(**byte)).count()
}

// Whether the byte is a space, a tab, a carriage return or a line feed.
fn is_separator(byte: u8) -> bool
    ensures { result ≡ is_separator byte }
{
    matches!(byte, b' ' | b'\t' | b'\r' | b'\n')
}

// How many bytes come before the first that ends a word.
fn word_len(bytes: &[u8]) -> usize
    ensures { result ≡ prefix_len is_token_byte bytes.now }
{
    bytes
        .iter()
        .take_while(|byte| !is_separator(**byte) && !matches!(**byte, b'(' | b')' | b'"' | b';'))
        .count()
}

fn is_empty_or_comment(bytes: &[u8]) -> bool
    ensures { result ≡ spec.is_empty_or_comment bytes.now }
{
    match bytes {
        [] => true,
        [first, ..] => *first == b';',
    }
}

// The property of a kind, which begins at a byte, and whose patterns are the text at another byte.
fn given(
    alloc: Global,
    kind: PropertyKind,
    start: usize,
    at: usize,
    text: &[u8],
) -> Result<Property, PropertyFault>
    requires fits { at + length text.now < 2 ^ 64 }
    ensures { IfTold result (spec.PatternsGive kind start at text.now) }
{
    match read(alloc, text) {
        Ok(forms) => match made(kind, forms) {
            Some(property) => Ok(property),
            None => Err(PropertyFault::At {
                kind: PropertyFaultKind::Count,
                at: start,
            }),
        },
        Err(TextFault::At { kind, at: place }) => Err(PropertyFault::At {
            kind: PropertyFaultKind::Text(kind),
            at: at + place.min(text.len()),
        }),
        Err(TextFault::Memory) => Err(PropertyFault::Memory),
    }
}

// The property of this kind and these patterns, if it takes so many.
fn made(kind: PropertyKind, forms: Vec<Sexpr>) -> Option<Property>
    ensures { result ≡ spec.made kind forms.items }
{
    match kind {
        PropertyKind::Never => Some(Property::Never(only(forms)?)),
        PropertyKind::Always => Some(Property::Always(only(forms)?)),
        PropertyKind::Once => Some(Property::Once(only(forms)?)),
        PropertyKind::Before => both(forms),
        PropertyKind::SameLines => alone(forms, Property::SameLines),
        PropertyKind::SameOrder => alone(forms, Property::SameOrder),
        PropertyKind::Empty => alone(forms, Property::Empty),
    }
}

// The pattern, if there is one alone.
fn only(forms: Vec<Sexpr>) -> Option<Pattern>
    ensures { result ≡ only forms.items }
{
    let mut forms = forms;
    let last = forms.pop()?;
    if forms.is_empty() {
        Some(Pattern::new(last))
    } else {
        None
    }
}

// The property of two patterns, if there are two.
fn both(forms: Vec<Sexpr>) -> Option<Property>
    ensures { result ≡ spec.made Before forms.items }
{
    let mut forms = forms;
    let later = Pattern::new(forms.pop()?);
    let first = only(forms)?;
    Some(Property::Before { first, later })
}

// The property, if there are no patterns.
fn alone(forms: Vec<Sexpr>, property: Property) -> Option<Property>
    ensures { result ≡ spec.if_none forms.items property }
{
    if forms.is_empty() {
        Some(property)
    } else {
        None
    }
}
