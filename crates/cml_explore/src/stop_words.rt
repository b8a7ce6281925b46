//! What is said of the number of runs, and of those at which to stop.

use crate::explored::Until;
use crate::told::{RunsTold, Stopped};
use crate::words::push_option;
use cml_facts::ending::{push_many, push_number};
use std::alloc::{AllocError, Global};

// The word by which a kind of run is asked for.
fn until_word(kind: Until) -> &'static str {
    match kind {
        Until::Waits => "waits",
        Until::Deadlock => "deadlock",
        Until::Fault => "fault",
        Until::Budget => "budget",
        Until::Bad => "bad",
    }
}

// Appends the words of these kinds: `waits, fault`.
fn push_kinds(out: &mut Vec<u8>, kinds: &[Until]) -> Result<(), AllocError> {
    for (number, kind) in kinds.iter().enumerate() {
        if number != 0 {
            out.extend_from_slice(b", ")?;
        }
        out.extend_from_slice(until_word(*kind).as_bytes())?;
    }
    Ok(())
}

/// Appends how many runs there are; and how many were asked for, where those are more: `5 of 100 runs`.
///
/// # Errors
/// Out of memory.
pub(crate) fn push_count(
    alloc: Global,
    out: &mut Vec<u8>,
    told: &RunsTold,
) -> Result<(), AllocError> {
    if told.runs != told.asked {
        push_number(alloc, out, told.runs)?;
        out.extend_from_slice(b" of ")?;
    }
    push_many(alloc, out, " run", " runs", told.asked)
}

// Appends that this run is the first at which to stop: `--until deadlock: met by run 5, --seed 4 --priority 5`.
fn push_met(alloc: Global, out: &mut Vec<u8>, first: u64, stop: Stopped) -> Result<(), AllocError> {
    out.extend_from_slice(b"--until ")?;
    out.extend_from_slice(until_word(stop.kind).as_bytes())?;
    out.extend_from_slice(b": met by run ")?;
    let number = stop.seed.saturating_sub(first).saturating_add(1);
    push_number(alloc, out, number)?;
    out.extend_from_slice(b", --seed ")?;
    push_number(alloc, out, stop.seed)?;
    push_option(alloc, out, stop.order)?;
    out.extend_from_slice(b"\n")
}

// Appends that none of the runs is one at which to stop, and that no schedule is saved therefore, where some are to be.
fn push_unmet(
    alloc: Global,
    out: &mut Vec<u8>,
    told: &RunsTold,
    saves: bool,
) -> Result<(), AllocError> {
    out.extend_from_slice(b"--until ")?;
    push_kinds(out, told.until.as_slice())?;
    out.extend_from_slice(b": not met in ")?;
    push_many(alloc, out, " run", " runs", told.runs)?;
    if saves {
        out.extend_from_slice(b"; no schedule is saved")?;
    }
    out.extend_from_slice(b"\n")
}

/// Appends which run is the first at which to stop, or that none is, where it was said at which.
///
/// # Errors
/// Out of memory.
pub(crate) fn push_stop(
    alloc: Global,
    out: &mut Vec<u8>,
    told: &RunsTold,
    saves: bool,
) -> Result<(), AllocError> {
    if told.goes_through() {
        return Ok(());
    }
    match told.stop {
        Some(stop) => push_met(alloc, out, told.first, stop),
        None => push_unmet(alloc, out, told, saves),
    }
}
