//! Where a run breaks each of several properties.

ghost use Rattle.std.specs.Prelude.{◌≡◌, IfOk};
ghost use Rattle.cml_text.specs.Lines as text;
ghost use Rattle.cml_properties.specs.{Agreements.{texts}, Breaches.{AreLinesOf}, Judged.{AreJudged, IsJudged}};

use crate::agreement::agree;
use crate::breach::{Run, lines_of, printed_of};
use crate::line::Line;
use crate::property::Property;
use crate::watch::broken;
use std::alloc::{AllocError, Global};

/// Of each of these properties, in their order, the line at which the run breaks it, if it does, counted from 0; at its end, as many as it has
/// lines. It is held beside a run that printed `first`, by a property that compares runs.
///
/// # Errors
/// Out of memory.
pub fn judge(
    alloc: Global,
    properties: &[Property],
    first: &[u8],
    run: &Run<'_>,
) -> Result<Vec<Option<usize>>, AllocError>
    ensures { IfOk result (λ judged. AreJudged (text.lines first.now) run.now properties.now judged.items) }
{
    let mut judged = Vec::new(alloc);
    if properties.is_empty() {
        return Ok(judged);
    }
    let beside = lines_of(alloc, first)?;
    let own = lines_of(alloc, run.output)?;
    let printed = printed_of(alloc, own.as_slice())?;
    for property in properties {
        let line = judge_one(
            alloc,
            property,
            beside.as_slice(),
            own.as_slice(),
            printed.as_slice(),
            run,
        )?;
        judged.push(line)?;
    }
    Ok(judged)
}

// The line at which the run, which printed these lines, breaks the property, if it does.
pub(crate) fn judge_one(
    alloc: Global,
    property: &Property,
    first: &[&[u8]],
    own: &[&[u8]],
    printed: &[Line<'_>],
    run: &Run<'_>,
) -> Result<Option<usize>, AllocError>
    requires own { texts own.now ≡ text.lines run.now.output.now }
    requires printed { AreLinesOf (texts own.now) printed.now }
    ensures { IfOk result (IsJudged (texts first.now) run.now property.now) }
{
    let is_like_first = agree(alloc, property, first, own)?;
    if !is_like_first {
        return Ok(Some(own.len()));
    }
    Ok(broken(property, printed, run.finish))
}
