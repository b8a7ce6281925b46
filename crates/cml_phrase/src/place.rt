//! Where statements stand, as a person counts lines and columns.
ghost use Rattle.std.specs.Prelude.{◌≡◌, ◌≤◌, ◌<◌, IfOk, OnOk, length, map, take};
ghost use Rattle.cml_text.specs.Forms.{span_of};
ghost use Rattle.cml_phrase.specs.Spots as spec;

use crate::statement::statements;
use crate::{column_at, line_at, split_place};
use cml_text::Sexpr;
use std::alloc::{AllocError, Global};

/// A place in a text, as a person counts it: line and column, from 1, the column in characters.
#[derive(Clone, Copy, PartialEq, Eq)]
pub struct Place {
    pub line: usize,
    pub column: usize,
}

// How far a walk through a text has come.
#[derive(Clone, Copy)]
struct Reached {
    at: usize,
    place: Place,
}

/// Where the statements of each function begin: for each item those of its statements, in the order of the text, which is that of the
/// function's instructions. It goes through the text once where the forms are those of the text.
///
/// # Errors
/// Out of memory.
pub fn statement_places(
    alloc: Global,
    text: &[u8],
    forms: &[Sexpr],
) -> Result<Vec<Vec<Place>>, AllocError>
    ensures { IfOk result (λ all. map (λ places. places.items) all.items
        ≡ spec.all_places text.now forms.now) }
{
    let mut all = Vec::new(alloc);
    let mut reached = Reached {
        at: 0,
        place: Place { line: 1, column: 1 },
    };
    for item in forms {
        all.push(places_in(alloc, text, item, &mut reached)?)?;
    }
    Ok(all)
}

// Where the statements of an item begin.
fn places_in(
    alloc: Global,
    text: &[u8],
    item: &Sexpr,
    reached: &mut Reached,
) -> Result<Vec<Place>, AllocError>
    requires { spec.place_at text.now reached.old.at ≡ reached.old.place }
    ensures reached { OnOk result (spec.place_at text.now reached.new.at ≡ reached.new.place) }
    ensures places { IfOk result (λ places. places.items ≡ spec.item_places text.now item.now) }
{
    let found = statements(alloc, item)?;
    places_of(alloc, text, found.as_slice(), reached)
}

// Where these forms begin.
fn places_of(
    alloc: Global,
    text: &[u8],
    forms: &[&Sexpr],
    reached: &mut Reached,
) -> Result<Vec<Place>, AllocError>
    requires { spec.place_at text.now reached.old.at ≡ reached.old.place }
    ensures reached { OnOk result (spec.place_at text.now reached.new.at ≡ reached.new.place) }
    ensures places { IfOk result (λ places. places.items
        ≡ map (λ form. spec.place_at text.now (span_of form).start) (map (λ s. s.now) forms.now)) }
{
    let mut places = Vec::new(alloc);
    for form in forms {
        *reached = gone_on(text, *reached, form.span().start);
        places.push(reached.place)?;
    }
    Ok(places)
}

// The walk, gone on to this byte: from where it stands if that is before it, else from the start of the text.
fn gone_on(text: &[u8], reached: Reached, at: usize) -> Reached
    requires { spec.place_at text.now reached.at ≡ reached.place }
    ensures at { result.at ≡ at }
    ensures place { spec.place_at text.now result.at ≡ result.place }
{
    if at < reached.at || text.len() < at {
        let place = Place {
            line: line_at(text, at),
            column: column_at(text, at),
        };
        return Reached { at, place };
    }
    Reached {
        at,
        place: place_behind(text, reached, at),
    }
}

// The place at a byte behind the one that the walk has reached.
#[tactic(auto, using(crate::proofs::PlaceLemmas::place_step, crate::proofs::PlaceLemmas::line_small, crate::proofs::PlaceLemmas::column_small))]
fn place_behind(text: &[u8], reached: Reached, at: usize) -> Place
    requires reached { spec.place_at text.now reached.at ≡ reached.place }
    requires behind { reached.at ≤ at }
    requires within { at ≤ length text.now }
    ensures { result ≡ spec.place_at text.now at }
{
    let mut place = reached.place;
    for i in reached.at..at {
        place = past(place, text[i]);
    }
    place
}

// The place behind a byte.
fn past(place: Place, byte: u8) -> Place
    requires line { place.line < usize.MAX }
    requires column { place.column < usize.MAX }
    ensures { result ≡ spec.place_past place byte }
{
    if byte == b'\n' {
        return Place {
            line: place.line + 1,
            column: 1,
        };
    }
    if byte < 128 || byte > 191 {
        return Place {
            line: place.line,
            column: place.column + 1,
        };
    }
    place
}

/// Of the places of all statements, that of a statement of a function, by the numbers of both.
pub fn statement_place(places: &[Vec<Place>], func: u32, at: usize) -> Option<Place>
    ensures { result ≡ spec.statement_place (map (λ own. own.items) places.now) func at }
{
    let own = places.get(func as usize)?;
    own.get(at).copied()
}

/// Appends a place: `LINE:COLUMN`.
///
/// # Errors
/// Out of memory.
pub fn push_line(alloc: Global, out: &mut Vec<u8>, place: Place) -> Result<(), AllocError> {
    let text = format!(in alloc; "{}:{}", place.line, place.column)?;
    out.extend_from_slice(text.as_bytes())
}

/// Appends a place in a file: `FILE:LINE:COLUMN`.
///
/// # Errors
/// Out of memory.
pub fn push_place(
    alloc: Global,
    out: &mut Vec<u8>,
    name: &str,
    place: Place,
) -> Result<(), AllocError> {
    out.extend_from_slice(name.as_bytes())?;
    out.extend_from_slice(b":")?;
    push_line(alloc, out, place)
}
