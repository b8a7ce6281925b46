//! Threads that are left when a run has ended, or ended at a fault.

ghost use Rattle.std.specs.{Prelude.{◌≡◌, ◌++◌, ◌==◌, OnOk, map, option_map}, List.{list_any}};
ghost use Rattle.cml_explore.specs.Told as told;
ghost use Rattle.cml_facts.specs.Stuck.{is_server as began_as_server};
ghost use Rattle.cml_json.specs.Json.{array};
ghost use Rattle.cml_json.specs.Runs as spec;

use crate::event::push_awaited;
use crate::fault::push_reason;
use crate::named::{push_named, push_place};
use crate::text::{push_comma, push_string, push_truth};
use cml_explore::{ThreadLeft, ThreadState};
use cml_facts::ending::{Awaited, Named, Stands};
use cml_facts::fault::Reason;
use cml_text::Sexpr;
use std::alloc::{AllocError, Global};

// How a thread is left.
#[tactic(auto, unfolding(crate::specs::Runs::left_name))]
fn left_name(state: &ThreadState) -> &'static str
    ensures { result.now ≡ spec.left_name state.now }
{
    match state {
        ThreadState::Stands(Stands::Waits(_)) => "waits",
        ThreadState::Stands(Stands::Runs) => "runs",
        ThreadState::AtFault(_) => "fault",
    }
}

// What it waits for.
#[tactic(auto, unfolding(crate::specs::Runs::waits_for))]
fn waits_for(state: &ThreadState) -> Option<&Awaited>
    ensures { option_map (λ a. a.now) result ≡ spec.waits_for state.now }
{
    match state {
        ThreadState::Stands(Stands::Waits(awaited)) => Some(awaited),
        ThreadState::Stands(Stands::Runs) => None,
        ThreadState::AtFault(_) => None,
    }
}

// At which fault it ended.
#[tactic(auto, unfolding(crate::specs::Runs::fault_left))]
fn fault_left(state: &ThreadState) -> Option<&Reason>
    ensures { option_map (λ r. r.now) result ≡ spec.fault_left state.now }
{
    match state {
        ThreadState::Stands(_) => None,
        ThreadState::AtFault(reason) => Some(reason),
    }
}

// Whether the function of this number is among these.
fn is_among(servers: &[u32], func: u32) -> bool
    ensures { result ≡ list_any (λ g. g == func) servers.now }
{
    servers.iter().any(|server| *server == func)
}

// Whether the thread began with one of these functions.
fn is_server(servers: &[u32], thread: &Named) -> bool
    ensures { result ≡ began_as_server servers.now thread.now.began }
{
    match &thread.began {
        Some(function) => is_among(servers, function.func()),
        None => false,
    }
}

// Whether the thread waits.
fn is_waiting(left: &ThreadLeft) -> bool
    ensures { result ≡ told.is_wait left.now.state }
{
    matches!(left.state, ThreadState::Stands(Stands::Waits(_)))
}

// Whether the thread may wait as it is left.
fn may_wait(servers: &[u32], left: &ThreadLeft) -> bool
    ensures { result ≡ told.may_wait servers.now left.now }
{
    is_waiting(left) && is_server(servers, &left.thread)
}

// Appends a thread, where these are the functions of servers.
#[tactic(auto, unfolding(crate::specs::Runs::left_json))]
fn push_left(
    alloc: Global,
    text: &mut Vec<u8>,
    forms: &[Sexpr],
    servers: &[u32],
    left: &ThreadLeft,
) -> Result<(), AllocError>
    ensures { OnOk result (text.new.items ≡ text.old.items ++ spec.left_json forms.now servers.now left.now) }
{
    let state = &left.state;
    push_named(alloc, text, b"{\"thread\":", forms, &left.thread)?;
    push_place(alloc, text, b",\"place\":", left.place)?;
    push_string(text, b",\"state\":", left_name(state).as_bytes())?;
    push_awaited(alloc, text, b",\"waits_for\":", forms, waits_for(state))?;
    push_reason(alloc, text, b",\"fault\":", fault_left(state))?;
    push_truth(text, b",\"may_wait\":", may_wait(servers, left))?;
    text.extend_from_slice(b"}")?;
    Ok(())
}

/// Appends a list of threads, where these are the functions of servers.
///
/// # Errors
/// Out of memory.
#[tactic(auto, unfolding(crate::specs::Json::array))]
pub(crate) fn push_threads(
    alloc: Global,
    text: &mut Vec<u8>,
    forms: &[Sexpr],
    servers: &[u32],
    threads: &[ThreadLeft],
) -> Result<(), AllocError>
    ensures { OnOk result (text.new.items ≡ text.old.items ++ array (map (spec.left_json forms.now servers.now) threads.now)) }
{
    text.extend_from_slice(b"[")?;
    for place in 0..threads.len() {
        push_comma(text, place)?;
        push_left(alloc, text, forms, servers, &threads[place])?;
    }
    text.extend_from_slice(b"]")
}
