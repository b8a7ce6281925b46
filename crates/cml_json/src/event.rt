//! What a thread waits for.

ghost use Rattle.std.specs.Prelude.{◌≡◌, ◌++◌, OnOk, map, option_map};
ghost use Rattle.cml_json.specs.Json.{array, optional};
ghost use Rattle.cml_json.specs.Named as names;
ghost use Rattle.cml_json.specs.Runs as spec;

use crate::named::{push_optional_named, push_optional_value};
use crate::text::{
    push_comma, push_null, push_number, push_optional_number, push_optional_string, push_string,
};
use cml_facts::ending::{Awaited, AwaitedEvent};
use cml_phrase::ObjectState;
use cml_text::Sexpr;
use cml_value::{Base, BaseKind, Value};
use std::alloc::{AllocError, Global};

// A base event by the word with which a script makes it.
#[tactic(auto, unfolding(crate::specs::Named::event_name))]
fn event_name(base: &Base) -> &'static str
    ensures { result.now ≡ names.event_name base.now }
{
    match base.kind() {
        BaseKind::Always(_) => "always",
        BaseKind::Send(_, _) => "send",
        BaseKind::Recv(_) => "recv",
        BaseKind::Swap(_, _) => "swap",
        BaseKind::IGet(_) => "iget",
        BaseKind::MTake(_) => "mtake",
        BaseKind::MGet(_) => "mget",
        BaseKind::MSwap(_, _) => "mswap",
        BaseKind::MailRecv(_) => "mailrecv",
        BaseKind::PortRecv(_) => "portrecv",
        BaseKind::Join(_) => "join",
        BaseKind::At(_) => "at",
        BaseKind::After(_) => "after",
        BaseKind::Nack(_) => "nack",
    }
}

// The number of its object or thread, or of its ticks.
#[tactic(auto, unfolding(crate::specs::Named::event_number))]
fn event_number(base: &Base) -> Option<u64>
    ensures { result ≡ names.event_number base.now }
{
    match base.kind() {
        BaseKind::Always(_) => None,
        BaseKind::Send(c, _) => Some(u64::from(c.0)),
        BaseKind::Recv(c) => Some(u64::from(c.0)),
        BaseKind::Swap(s, _) => Some(u64::from(s.0)),
        BaseKind::IGet(i) => Some(u64::from(i.0)),
        BaseKind::MTake(m) => Some(u64::from(m.0)),
        BaseKind::MGet(m) => Some(u64::from(m.0)),
        BaseKind::MSwap(m, _) => Some(u64::from(m.0)),
        BaseKind::MailRecv(b) => Some(u64::from(b.0)),
        BaseKind::PortRecv(p) => Some(u64::from(p.0)),
        BaseKind::Join(t) => Some(u64::from(t.0)),
        BaseKind::At(tick) => Some(*tick),
        BaseKind::After(delay) => Some(*delay),
        BaseKind::Nack(k) => Some(u64::from(k.0)),
    }
}

// The value that it gives.
#[tactic(auto, unfolding(crate::specs::Named::event_value))]
fn event_value(base: &Base) -> Option<&Value>
    ensures { option_map (λ v. v.now) result ≡ names.event_value base.now }
{
    match base.kind() {
        BaseKind::Always(v) => Some(v),
        BaseKind::Send(_, v) => Some(v),
        BaseKind::Swap(_, v) => Some(v),
        BaseKind::MSwap(_, v) => Some(v),
        BaseKind::Recv(_) => None,
        BaseKind::IGet(_) => None,
        BaseKind::MTake(_) => None,
        BaseKind::MGet(_) => None,
        BaseKind::MailRecv(_) => None,
        BaseKind::PortRecv(_) => None,
        BaseKind::Join(_) => None,
        BaseKind::At(_) => None,
        BaseKind::After(_) => None,
        BaseKind::Nack(_) => None,
    }
}

// The state of what is waited for.
#[tactic(auto, unfolding(crate::specs::Named::state_name))]
fn state_name(state: ObjectState) -> Option<&'static str>
    ensures { option_map (λ name. name.now) result ≡ names.state_name state }
{
    match state {
        ObjectState::Unsaid => None,
        ObjectState::Empty => Some("empty"),
        ObjectState::Full => Some("full"),
        ObjectState::Holds(_) => Some("holds"),
        ObjectState::Waits => Some("waits"),
        ObjectState::Runs => Some("runs"),
        ObjectState::Ended => Some("ended"),
        ObjectState::Fresh => Some("fresh"),
        ObjectState::Live => Some("live"),
        ObjectState::Held => Some("held"),
        ObjectState::Fired => Some("fired"),
    }
}

// How many items it holds.
#[tactic(auto, unfolding(crate::specs::Named::state_items))]
fn state_items(state: ObjectState) -> Option<u64>
    ensures { result ≡ names.state_items state }
{
    match state {
        ObjectState::Holds(items) => Some(items as u64),
        ObjectState::Unsaid => None,
        ObjectState::Empty => None,
        ObjectState::Full => None,
        ObjectState::Waits => None,
        ObjectState::Runs => None,
        ObjectState::Ended => None,
        ObjectState::Fresh => None,
        ObjectState::Live => None,
        ObjectState::Held => None,
        ObjectState::Fired => None,
    }
}

// Appends a base event.
#[tactic(auto, unfolding(crate::specs::Runs::event_json))]
fn push_event(
    alloc: Global,
    text: &mut Vec<u8>,
    forms: &[Sexpr],
    event: &AwaitedEvent,
) -> Result<(), AllocError>
    ensures { OnOk result (text.new.items ≡ text.old.items ++ spec.event_json forms.now event.now) }
{
    let base = &event.base;
    let state = event.state;
    push_string(text, b"{\"event\":", event_name(base).as_bytes())?;
    push_optional_number(alloc, text, b",\"number\":", event_number(base))?;
    push_optional_value(alloc, text, b",\"value\":", event_value(base))?;
    push_optional_string(text, b",\"state\":", state_name(state))?;
    push_optional_number(alloc, text, b",\"items\":", state_items(state))?;
    push_optional_named(alloc, text, b",\"thread\":", forms, event.behind.as_ref())?;
    text.extend_from_slice(b"}")
}

// Appends a list of base events.
#[tactic(auto, unfolding(crate::specs::Json::array))]
fn push_events(
    alloc: Global,
    text: &mut Vec<u8>,
    forms: &[Sexpr],
    events: &[AwaitedEvent],
) -> Result<(), AllocError>
    ensures { OnOk result (text.new.items ≡ text.old.items ++ array (map (spec.event_json forms.now) events.now)) }
{
    text.extend_from_slice(b"[")?;
    for place in 0..events.len() {
        push_comma(text, place)?;
        push_event(alloc, text, forms, &events[place])?;
    }
    text.extend_from_slice(b"]")
}

/// Appends these bytes, and what a thread waits for, or `null`.
///
/// # Errors
/// Out of memory.
#[tactic(auto, unfolding(crate::specs::Runs::awaited_json, crate::specs::Json::optional))]
pub(crate) fn push_awaited(
    alloc: Global,
    text: &mut Vec<u8>,
    before: &[u8],
    forms: &[Sexpr],
    awaited: Option<&Awaited>,
) -> Result<(), AllocError>
    ensures { OnOk result (text.new.items ≡ text.old.items ++ (before.now ++ optional (spec.awaited_json forms.now) (option_map (λ a. a.now) awaited.entry))) }
{
    let Some(awaited) = awaited else {
        return push_null(text, before);
    };
    text.extend_from_slice(before)?;
    push_number(alloc, text, b"{\"count\":", awaited.count as u64)?;
    text.extend_from_slice(b",\"events\":")?;
    push_events(alloc, text, forms, awaited.events.as_slice())?;
    text.extend_from_slice(b"}")
}
