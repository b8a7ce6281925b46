//! Runs.

ghost use Rattle.std.specs.Prelude.{◌≡◌, ◌++◌, OnOk};
ghost use Rattle.cml_json.specs.Named as names;
ghost use Rattle.cml_json.specs.Runs as spec;

use crate::left::push_threads;
use crate::text::{push_number, push_string};
use cml_explore::RunTold;
use cml_hub::End;
use cml_text::Sexpr;
use std::alloc::{AllocError, Global};

// How a run ended.
#[tactic(auto, unfolding(crate::specs::Named::ending_name))]
fn ending_name(end: End) -> &'static str
    ensures { result.now ≡ names.ending_name end }
{
    match end {
        End::Quiet => "quiet",
        End::Budget => "budget",
        End::Partial => "partial",
    }
}

// Appends how many threads wait, run, and ended at a fault.
#[tactic(auto, unfolding(crate::specs::Runs::count_members))]
fn push_counts(alloc: Global, text: &mut Vec<u8>, run: &RunTold) -> Result<(), AllocError>
    ensures { OnOk result (text.new.items ≡ text.old.items ++ spec.count_members run.now) }
{
    push_number(alloc, text, b",\"waits\":", run.waits as u64)?;
    push_number(alloc, text, b",\"runs\":", run.runs as u64)?;
    push_number(alloc, text, b",\"faults\":", run.faults as u64)
}

/// Appends these bytes, and a run, where these are the functions of servers.
///
/// # Errors
/// Out of memory.
#[tactic(auto, unfolding(crate::specs::Runs::run_json, crate::specs::Runs::count_members))]
pub(crate) fn push_run(
    alloc: Global,
    text: &mut Vec<u8>,
    before: &[u8],
    forms: &[Sexpr],
    servers: &[u32],
    run: &RunTold,
) -> Result<(), AllocError>
    ensures { OnOk result (text.new.items ≡ text.old.items ++ (before.now ++ spec.run_json forms.now servers.now run.now)) }
{
    text.extend_from_slice(before)?;
    push_string(text, b"{\"end\":", ending_name(run.end).as_bytes())?;
    push_counts(alloc, text, run)?;
    text.extend_from_slice(b",\"threads\":")?;
    push_threads(alloc, text, forms, servers, run.threads.as_slice())?;
    text.extend_from_slice(b"}")?;
    Ok(())
}
