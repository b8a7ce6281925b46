//! What must hold of runs, as the arguments give it.

ghost use Rattle.std.specs.Prelude.{◌≡◌, ◌++◌, ◌∷◌, [], IfErr, IfOk, List, Ok, OnOk, Some, map, option_map};
ghost use Rattle.cml_host.specs.{Refused.{IsExplained, RefusesAs}, Stores.{IsUnchanged}};
ghost use Rattle.cml_host.specs.Wanted.{AreGiven, AreWanted, FileSays, FileSaysNone, IsBadPattern, IsNoPattern, IsUnwanted, SaysNone, file_line, option_line, property_if};
ghost use Rattle.cml_properties.specs.Reading.{PatternsGive, TextSays};
ghost use Rattle.cml_properties.specs.declared.property.Property.{Property};

use crate::reason::explained;
use crate::refusal::{Refusal, load};
use crate::source::TEXT_LIMIT;
use crate::store::Store;
use cml_arguments::PropertyOptions;
use cml_explain::explain_text;
use cml_phrase::{Diagnosis, render};
use cml_properties::{
    Property, PropertyFault, PropertyFaultKind, PropertyKind, properties, property_from,
};
use std::alloc::{AllocError, Global};

// The status where an option has no pattern, and where a file has no property.
const NO_PATTERN: u8 = 1;

const NO_PROPERTY: u8 = 2;

/// Whether runs must print alike.
#[derive(Clone, Copy)]
pub struct Alike {
    /// The same lines, in any order.
    pub lines: bool,
    /// The same lines in the same order.
    pub order: bool,
}

/// Of one run nothing can be said that compares it with others.
pub const ALONE: Alike = Alike {
    lines: false,
    order: false,
};

/// The properties that the arguments give: one kind after another, each in the order of its texts, and last those of the file.
///
/// # Errors
/// What is wrong with a text or the file, explained where that is asked for; or out of memory.
pub fn find_properties<S: Store>(
    alloc: Global,
    options: &PropertyOptions<'_>,
    alike: Alike,
    explains: bool,
    store: &mut S,
) -> Result<Vec<Property>, Refusal>
    ensures ok { IfOk result (λ found. AreWanted options.now alike (S.holds store.old) found.items) }
    ensures err { IfErr result (RefusesAs (IsUnwanted explains options.now (S.holds store.old))) }
    ensures same { IsUnchanged (S.holds store.old) (S.holds store.new) }
{
    let mut found = Vec::new(alloc);
    push_given(
        alloc,
        &mut found,
        PropertyKind::Never,
        options.never.as_slice(),
        explains,
    )?;
    push_given(
        alloc,
        &mut found,
        PropertyKind::Always,
        options.always.as_slice(),
        explains,
    )?;
    push_given(
        alloc,
        &mut found,
        PropertyKind::Once,
        options.once.as_slice(),
        explains,
    )?;
    push_given(
        alloc,
        &mut found,
        PropertyKind::Before,
        options.before.as_slice(),
        explains,
    )?;
    push_if(&mut found, alike.lines, Property::SameLines)?;
    push_if(&mut found, alike.order, Property::SameOrder)?;
    push_if(&mut found, options.empty, Property::Empty)?;
    push_file(alloc, &mut found, options.file, explains, store)?;
    Ok(found)
}

// Appends the properties of one kind that these texts give.
fn push_given(
    alloc: Global,
    found: &mut Vec<Property>,
    kind: PropertyKind,
    texts: &[&str],
    explains: bool,
) -> Result<(), Refusal>
    ensures ok { OnOk result ((more : List Property) × AreGiven kind (map (λ text. text.now) texts.now) more × (found.new.items ≡ found.old.items ++ more)) }
    ensures err { IfErr result (RefusesAs (IsNoPattern explains kind (map (λ text. text.now) texts.now))) }
{
    for text in texts {
        let property = given(alloc, kind, text, explains)?;
        push_one(found, property)?;
    }
    Ok(())
}

// Appends a property.
fn push_one(found: &mut Vec<Property>, property: Property) -> Result<(), AllocError>
    ensures { OnOk result (found.new.items ≡ found.old.items ++ property ∷ []) }
{
    Ok(found.push(property)?)
}

// The property of one kind that this text gives.
fn given(alloc: Global, kind: PropertyKind, text: &str, explains: bool) -> Result<Property, Refusal>
    ensures ok { IfOk result (λ found. PatternsGive kind 0 0 text.now (Ok found)) }
    ensures err { IfErr result (RefusesAs (IsBadPattern explains kind text.now)) }
{
    match property_from(alloc, kind, text.as_bytes()) {
        Ok(property) => Ok(property),
        Err(PropertyFault::Memory) => Err(Refusal::Memory),
        Err(PropertyFault::At { kind: why, at }) => {
            let told = told_option(alloc, kind, text, explains, why, at)?;
            Err(Refusal::Told(told, NO_PATTERN))
        }
    }
}

// What is told of the text of an option with this fault.
fn told_option(
    alloc: Global,
    kind: PropertyKind,
    text: &str,
    explains: bool,
    why: PropertyFaultKind,
    at: usize,
) -> Result<Vec<u8>, AllocError>
    ensures { IfOk result (λ told. IsExplained explains (option_line kind why at) told.items) }
{
    let word = kind.word();
    let fault = PropertyFault::At { kind: why, at };
    let line = format!(in alloc; "--{word}: {fault}\n")?;
    let words = option_words(alloc, word, text.as_bytes(), why, at)?;
    explained(alloc, line.as_bytes(), explains, words.as_slice())
}

// What is wrong with the text of the option of this word, in words.
fn option_words(
    alloc: Global,
    word: &str,
    text: &[u8],
    why: PropertyFaultKind,
    at: usize,
) -> Result<Vec<u8>, AllocError> {
    let name = format!(in alloc; "--{word}")?;
    explain_fault(alloc, name.as_str(), text, why, at)
}

// Appends a property, where it is asked for.
fn push_if(found: &mut Vec<Property>, asked: bool, property: Property) -> Result<(), AllocError>
    ensures { OnOk result (found.new.items ≡ found.old.items ++ property_if asked property) }
{
    if asked {
        found.push(property)?;
    }
    Ok(())
}

// Appends the properties of the file, where one is given.
fn push_file<S: Store>(
    alloc: Global,
    found: &mut Vec<Property>,
    file: Option<&str>,
    explains: bool,
    store: &mut S,
) -> Result<(), Refusal>
    ensures ok { OnOk result ((more : List Property) × FileSays (option_map (λ name. name.now) file.entry) (S.holds store.old) more
        × (found.new.items ≡ found.old.items ++ more)) }
    ensures err { IfErr result (RefusesAs (FileSaysNone explains (option_map (λ name. name.now) file.entry) (S.holds store.old))) }
    ensures same { IsUnchanged (S.holds store.old) (S.holds store.new) }
{
    match file {
        Some(name) => {
            let more = read_file(alloc, name, explains, store)?;
            Ok(push_all(found, more)?)
        }
        None => Ok(()),
    }
}

// Appends properties.
fn push_all(found: &mut Vec<Property>, more: Vec<Property>) -> Result<(), AllocError>
    ensures { OnOk result (found.new.items ≡ found.old.items ++ more.items) }
{
    for property in more {
        found.push(property)?;
    }
    Ok(())
}

// The properties of the file of this name.
fn read_file<S: Store>(
    alloc: Global,
    name: &str,
    explains: bool,
    store: &mut S,
) -> Result<Vec<Property>, Refusal>
    ensures ok { IfOk result (λ more. FileSays (Some name.now) (S.holds store.old) more.items) }
    ensures err { IfErr result (RefusesAs (FileSaysNone explains (Some name.now) (S.holds store.old))) }
    ensures same { IsUnchanged (S.holds store.old) (S.holds store.new) }
{
    let text = load(alloc, name, explains, TEXT_LIMIT, store)?;
    said(alloc, name, text.as_slice(), explains)
}

// The properties that this text says.
fn said(alloc: Global, name: &str, text: &[u8], explains: bool) -> Result<Vec<Property>, Refusal>
    ensures ok { IfOk result (λ more. TextSays text.now (Ok more.items)) }
    ensures err { IfErr result (RefusesAs (SaysNone explains text.now)) }
{
    match properties(alloc, text) {
        Ok(found) => Ok(found),
        Err(PropertyFault::Memory) => Err(Refusal::Memory),
        Err(PropertyFault::At { kind, at }) => {
            let told = told_file(alloc, name, text, explains, kind, at)?;
            Err(Refusal::Told(told, NO_PROPERTY))
        }
    }
}

// What is told of a file of properties with this fault.
fn told_file(
    alloc: Global,
    name: &str,
    text: &[u8],
    explains: bool,
    why: PropertyFaultKind,
    at: usize,
) -> Result<Vec<u8>, AllocError>
    ensures { IfOk result (λ told. IsExplained explains (file_line why at) told.items) }
{
    let fault = PropertyFault::At { kind: why, at };
    let line = format!(in alloc; "{fault}\n")?;
    let words = explain_fault(alloc, name, text, why, at)?;
    explained(alloc, line.as_bytes(), explains, words.as_slice())
}

// What is wrong, in words.
#[inline(never)]
fn explain_fault(
    alloc: Global,
    name: &str,
    text: &[u8],
    why: PropertyFaultKind,
    at: usize,
) -> Result<Vec<u8>, AllocError> {
    let said = match why {
        PropertyFaultKind::Text(kind) => return explain_text(alloc, name, text, kind, at),
        PropertyFaultKind::Word => {
            "a line begins with never, always, once, before, same-lines, same-order or empty"
        }
        PropertyFaultKind::Count => {
            "never, always and once take one pattern, before takes two, and the others take none"
        }
    };
    let diagnosis = Diagnosis {
        at,
        marked_to: Some(at),
        message: Vec::from_slice(alloc, said.as_bytes())?,
        notes: Vec::new(alloc),
    };
    render(alloc, name, text, &diagnosis)
}
