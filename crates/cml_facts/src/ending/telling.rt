//! The words for how a run ended.

use crate::ending::ending::{Ending, ending_of};
use crate::ending::left::{Left, Stands};
use crate::ending::stuck::is_stuck;
use crate::ending::words::{push_awaited, push_many, push_named, push_number};
use cml_hub::{End, Hub, Item};
use cml_phrase::{function_name, push_place, statement_places};
use cml_scan::Meet;
use cml_text::Sexpr;
use std::alloc::{AllocError, Global};

// Appends how many threads wait, and how many run.
fn push_counts(
    alloc: Global,
    out: &mut Vec<u8>,
    waits: usize,
    runs: usize,
) -> Result<(), AllocError> {
    if runs == 0 {
        return push_many(alloc, out, " thread waits", " threads wait", waits as u64);
    }
    if waits == 0 {
        return push_many(alloc, out, " thread runs", " threads run", runs as u64);
    }
    push_many(
        alloc,
        out,
        " thread waits and ",
        " threads wait and ",
        waits as u64,
    )?;
    push_many(alloc, out, " runs", " run", runs as u64)
}

// A row after its keyword.
fn row_line(alloc: Global, word: &str, row: &Meet) -> Result<String, AllocError> {
    let mut line = String::from_str(alloc, word)?;
    row.push_numbers(&mut line)?;
    line.push_str("\n")?;
    Ok(line)
}

// An item, as it is written in a schedule.
fn item_line(alloc: Global, item: &Item) -> Result<String, AllocError> {
    match item {
        Item::Turn(thread) => format!(in alloc; "turn {}\n", thread.0),
        Item::Meet(row) => row_line(alloc, "commit", row),
        Item::Exchange(row) => row_line(alloc, "swap", row),
        Item::Clock(tick) => format!(in alloc; "clock {tick}\n"),
    }
}

// Appends where the schedule ends.
fn push_last(alloc: Global, out: &mut Vec<u8>, ending: &Ending) -> Result<(), AllocError> {
    match &ending.last {
        None => out.extend_from_slice(b"the schedule has no items\n"),
        Some(item) => {
            out.extend_from_slice(b"the schedule ends after item ")?;
            push_number(alloc, out, ending.items as u64)?;
            out.extend_from_slice(b": ")?;
            let line = item_line(alloc, item)?;
            out.extend_from_slice(line.as_bytes())
        }
    }
}

// Appends why the run has ended where it stands.
fn push_why(alloc: Global, out: &mut Vec<u8>, ending: &Ending) -> Result<(), AllocError> {
    match ending.end {
        End::Quiet => out.extend_from_slice(b"nothing can happen: a deadlock\n"),
        End::Budget => {
            out.extend_from_slice(b"the budget of ")?;
            push_many(alloc, out, " step", " steps", ending.budget)?;
            out.extend_from_slice(b" is used\n")
        }
        End::Partial => push_last(alloc, out, ending),
    }
}

// Appends how a thread is left.
fn push_stands(
    alloc: Global,
    out: &mut Vec<u8>,
    forms: &[Sexpr],
    left: &Left,
) -> Result<(), AllocError> {
    match &left.stands {
        Stands::Runs => {
            out.extend_from_slice(b" runs, ")?;
            push_many(alloc, out, " turn", " turns", left.turns as u64)
        }
        Stands::Waits(awaited) => {
            if let Some(spot) = left.spot {
                out.extend_from_slice(b", in ")?;
                out.extend_from_slice(function_name(forms, spot.function).as_bytes())?;
            }
            out.extend_from_slice(b": ")?;
            push_awaited(alloc, out, forms, awaited)
        }
    }
}

// Appends the line of a thread that is left.
fn push_left(
    alloc: Global,
    out: &mut Vec<u8>,
    name: &str,
    forms: &[Sexpr],
    left: &Left,
) -> Result<(), AllocError> {
    out.extend_from_slice(b"  ")?;
    push_named(alloc, out, forms, &left.thread)?;
    if let Some(place) = left.place {
        out.extend_from_slice(b" at ")?;
        push_place(alloc, out, name, place)?;
    }
    push_stands(alloc, out, forms, left)?;
    out.extend_from_slice(b"\n")
}

// Appends the line of a ring: its first thread, and each other one behind an arrow.
fn push_ring(alloc: Global, out: &mut Vec<u8>, ring: &[u32]) -> Result<(), AllocError> {
    out.extend_from_slice(b"a ring: ")?;
    let mut is_first = true;
    for thread in ring {
        if !is_first {
            out.extend_from_slice(b" -> ")?;
        }
        push_number(alloc, out, u64::from(*thread))?;
        is_first = false;
    }
    out.extend_from_slice(b"\n")
}

// Appends how many threads are left, and why the run has ended; or how many servers wait, where all is well.
fn push_first(
    alloc: Global,
    out: &mut Vec<u8>,
    ending: &Ending,
    served: bool,
) -> Result<(), AllocError> {
    if served {
        let waits = ending.waits as u64;
        push_many(alloc, out, " server waits", " servers wait", waits)?;
        return out.extend_from_slice(b", and nothing more can happen\n");
    }
    push_counts(alloc, out, ending.waits, ending.runs)?;
    out.extend_from_slice(b", and ")?;
    push_why(alloc, out, ending)
}

// Appends what is said of the threads that are left: the first line, a line for each, and the ring.
fn push_all_left(
    alloc: Global,
    out: &mut Vec<u8>,
    name: &str,
    forms: &[Sexpr],
    ending: &Ending,
    served: bool,
) -> Result<(), AllocError> {
    push_first(alloc, out, ending, served)?;
    for left in &ending.left {
        push_left(alloc, out, name, forms, left)?;
    }
    match &ending.ring {
        Some(ring) => push_ring(alloc, out, ring.as_slice()),
        None => Ok(()),
    }
}

/// Appends how a run ended: the threads that are left, the ring in which they wait, and how many threads ended at a fault. Nothing, where no
/// thread is left and none was at fault. The script's file has this name and these forms.
///
/// # Errors
/// Out of memory.
pub fn write_ending(
    alloc: Global,
    out: &mut Vec<u8>,
    name: &str,
    forms: &[Sexpr],
    ending: &Ending,
) -> Result<(), AllocError> {
    write_end(alloc, out, name, forms, ending, false)
}

// Appends the same; or that servers alone wait.
fn write_end(
    alloc: Global,
    out: &mut Vec<u8>,
    name: &str,
    forms: &[Sexpr],
    ending: &Ending,
    served: bool,
) -> Result<(), AllocError> {
    if ending.waits != 0 || ending.runs != 0 {
        push_all_left(alloc, out, name, forms, ending, served)?;
    }
    if ending.faults == 0 {
        return Ok(());
    }
    push_many(alloc, out, " thread", " threads", ending.faults as u64)?;
    out.extend_from_slice(b" ended at a fault\n")
}

// Whether threads wait at the end, and each is a server.
fn is_served(hub: &Hub, servers: &[u32], ending: &Ending) -> bool {
    hub.end() == End::Quiet && ending.waits != 0 && !is_stuck(hub, servers)
}

/// How the run of this hub ended, in words. The script has this name, text and forms; threads that began with one of these functions are
/// servers.
///
/// # Errors
/// Out of memory.
pub fn explain_end(
    alloc: Global,
    name: &str,
    text: &[u8],
    forms: &[Sexpr],
    hub: &Hub,
    servers: &[u32],
) -> Result<Vec<u8>, AllocError> {
    let places = statement_places(alloc, text, forms)?;
    let ending = ending_of(alloc, hub, places.as_slice())?;
    let mut out = Vec::new(alloc);
    let served = is_served(hub, servers, &ending);
    write_end(alloc, &mut out, name, forms, &ending, served)?;
    Ok(out)
}
