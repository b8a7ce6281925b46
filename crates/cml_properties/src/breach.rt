//! Which of several runs break a property.

ghost use Rattle.std.specs.Prelude.{◌≡◌, ◌++◌, IfOk, OnOk, MatchOption};
ghost use Rattle.cml_text.specs.Lines.{lines};
ghost use Rattle.cml_properties.specs.Agreements.{texts};
ghost use Rattle.cml_properties.specs.Breaches.{AreLinesOf, AreBreaches, BreaksBeside, KeepsBeside, breach_told};

use crate::agreement::agree;
use crate::line::Line;
use crate::property::{Finish, Property};
use crate::watch::broken;
use cml_text::Lines;
use std::alloc::{AllocError, Global};

/// A run: what it printed, and how far it came.
#[derive(Clone, Copy)]
pub struct Run<'a> {
    /// What it printed, a line feed behind each line.
    pub output: &'a [u8],
    /// How far it came.
    pub finish: Finish,
}

/// That a run breaks a property.
#[derive(Clone, Copy, Debug, PartialEq, Eq)]
pub struct Breach {
    /// The run, by its place among the runs.
    pub run: usize,
    /// The line at which it breaks the property, counted from 0; at its end, as many as it has lines.
    pub line: usize,
}

/// Each of the runs that breaks the property, in their order, and where. A run that does not print what the first one does, as the
/// property asks of all runs, breaks it at its end.
///
/// # Errors
/// Out of memory.
pub fn breaches(
    alloc: Global,
    property: &Property,
    runs: &[Run<'_>],
) -> Result<Vec<Breach>, AllocError>
    ensures { IfOk result (λ found. AreBreaches property.now runs.now found.items) }
{
    let mut found = Vec::new(alloc);
    let [first, ..] = runs else {
        return Ok(found);
    };
    let first_lines = lines_of(alloc, first.output)?;
    for (index, run) in runs.iter().enumerate() {
        let line = line_broken(alloc, property, first_lines.as_slice(), run)?;
        push_breach(&mut found, index, line)?;
    }
    Ok(found)
}

// Appends that the run breaks the property at this line, if it does.
fn push_breach(found: &mut Vec<Breach>, run: usize, line: Option<usize>) -> Result<(), AllocError>
    ensures { OnOk result (found.new.items ≡ found.old.items ++ breach_told run line) }
{
    if let Some(line) = line {
        found.push(Breach { run, line })?;
    }
    Ok(())
}

// Where the run breaks the property, beside a run that printed the first lines.
fn line_broken(
    alloc: Global,
    property: &Property,
    first: &[&[u8]],
    run: &Run<'_>,
) -> Result<Option<usize>, AllocError>
    ensures { IfOk result (λ line. MatchOption line
        (KeepsBeside property.now (texts first.now) run.now)
        (BreaksBeside property.now (texts first.now) run.now)) }
{
    let lines = lines_of(alloc, run.output)?;
    let is_like_first = agree(alloc, property, first, lines.as_slice())?;
    if !is_like_first {
        return Ok(Some(lines.len()));
    }
    let printed = printed_of(alloc, lines.as_slice())?;
    Ok(broken(property, printed.as_slice(), run.finish))
}

// The lines of an output.
pub(crate) fn lines_of(alloc: Global, output: &[u8]) -> Result<Vec<&[u8]>, AllocError>
    ensures { IfOk result (λ found. texts found.items ≡ lines output.now) }
{
    let mut found = Vec::new(alloc);
    let mut all = Lines::new(output);
    while let Some((_, line)) = all.next() {
        found.push(line)?;
    }
    Ok(found)
}

// The lines, each with the value that it spells.
pub(crate) fn printed_of<'a>(alloc: Global, lines: &[&'a [u8]]) -> Result<Vec<Line<'a>>, AllocError>
    ensures { IfOk result (λ found. AreLinesOf (texts lines.now) found.items) }
{
    let mut found = Vec::new(alloc);
    for line in lines {
        let printed = Line::new(alloc, *line)?;
        found.push(printed)?;
    }
    Ok(found)
}
