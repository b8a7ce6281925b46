//! What is said of many runs.

ghost use Rattle.std.specs.Prelude.{◌≤◌, ◌+◌, ◌^◌};
ghost use Rattle.cml_hub.specs.Kept.{IsBudget};

use crate::explored::{Asked, Explored};
use crate::tell::tell_runs;
use crate::words::write_runs;
use cml_check::Prog;
use cml_text::Sexpr;
use std::alloc::{AllocError, Global};

/// What is told of the runs that were asked for ([`tell_runs`]), in words ([`write_runs`]), where no schedule is saved. The script has this name,
/// text and forms, and is this program.
///
/// # Errors
/// Out of memory.
pub fn explain_runs(
    alloc: Global,
    name: &str,
    text: &[u8],
    forms: &[Sexpr],
    program: &Prog,
    asked: Asked<'_>,
    made: &Explored,
) -> Result<Vec<u8>, AllocError>
    requires budget { IsBudget asked.budget }
    requires seeds { asked.first + made.now.runs ≤ 2 ^ 64 }
{
    let told = tell_runs(alloc, text, forms, program, asked, made)?;
    let mut said = Vec::new(alloc);
    write_runs(
        alloc,
        &mut said,
        name,
        forms,
        asked.wanted.properties,
        &told,
        None,
    )?;
    Ok(said)
}
