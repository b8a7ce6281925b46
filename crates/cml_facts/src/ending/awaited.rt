//! What a thread waits for.

ghost use Rattle.std.specs.Prelude.{◌≡◌, IfOk, map, take};
ghost use Rattle.cml_hub.specs.Deeds.{origins};
ghost use Rattle.cml_step.specs.Calls.{text_of};
ghost use Rattle.cml_phrase.specs.Events.{event_limit};
ghost use Rattle.cml_facts.specs.Takes.{taker_in};
ghost use Rattle.cml_facts.specs.Waits as spec;

use crate::ending::state::{object_state, thread_behind};
use crate::ending::takers::Takers;
use cml_hub::Hub;
use cml_phrase::{ObjectState, Who};
use cml_scan::leaf_bases;
use cml_value::{Base, FnRef, Group, Tid};
use std::alloc::{AllocError, Global};
use std::marker::Model;

// How many base events are kept of those that a thread waits for.
const EVENT_LIMIT: usize = 6;

/// A thread, with the function with which it began, where that is known.
#[derive(Drop)]
pub struct Named {
    pub thread: u32,
    pub began: Option<FnRef>,
}

impl Named {
    /// The same, as words are made of it.
    pub fn who(&self) -> Who<'_> {
        Who {
            thread: Tid(self.thread),
            began: self.began.as_ref(),
        }
    }
}

/// A base event for which a thread waits, the state of what it waits for, and the thread behind it: of an M-variable the one that took from
/// it last, of a join the one whose end it waits for.
#[derive(Drop)]
pub struct AwaitedEvent {
    pub base: Base,
    pub state: ObjectState,
    pub behind: Option<Named>,
}

/// What a thread waits for: the first 6 of its base events, from the left, and how many it has.
#[derive(Drop)]
pub struct Awaited {
    pub events: Vec<AwaitedEvent>,
    pub count: usize,
}

impl Model for Awaited {
    ghost use Rattle.cml_facts.specs.{Waits.{PlainAwaited}, Codes.{awaited_code}};

    ghost Value = { PlainAwaited };

    ghost coded = { awaited_code };

    ghost view = { λ a. record { events = a.events.items; count = a.count } };
}

/// A thread, with the function with which it began.
///
/// # Errors
/// Out of memory.
pub fn who_is(hub: &Hub, thread: u32) -> Result<Named, AllocError>
    ensures { IfOk result (λ named. named
        ≡ spec.who_is (origins (text_of hub.now.course.program) hub.now.course.items) thread) }
{
    match hub.origin(Tid(thread)) {
        Some(function) => Ok(Named {
            thread,
            began: Some(function.copy()?),
        }),
        None => Ok(Named {
            thread,
            began: None,
        }),
    }
}

// The thread behind a base event.
fn named_behind(hub: &Hub, takers: &Takers, base: &Base) -> Result<Option<Named>, AllocError>
    ensures { IfOk result (λ behind. behind ≡ spec.named_behind (origins (text_of hub.now.course.program) hub.now.course.items) (taker_in takers.now) base.now) }
{
    match thread_behind(takers, base) {
        Some(thread) => Ok(Some(who_is(hub, thread)?)),
        None => Ok(None),
    }
}

/// A base event, with the state of what it waits for and the thread behind it.
///
/// # Errors
/// Out of memory.
pub fn awaited_event(hub: &Hub, takers: &Takers, base: &Base) -> Result<AwaitedEvent, AllocError>
    ensures { IfOk result (λ event. event
        ≡ spec.awaited_event hub.now.course.world (origins (text_of hub.now.course.program) hub.now.course.items) (taker_in takers.now) base.now) }
{
    let behind = named_behind(hub, takers, base)?;
    Ok(AwaitedEvent {
        base: base.copy()?,
        state: object_state(hub.book(), base),
        behind,
    })
}

// The first ones of these.
fn first_of(bases: &[Base]) -> &[Base]
    ensures { result.now ≡ take event_limit bases.now }
{
    if bases.len() > EVENT_LIMIT {
        &bases[..EVENT_LIMIT]
    } else {
        bases
    }
}

// Each of these base events, with what it waits for.
fn awaited_events(
    alloc: Global,
    hub: &Hub,
    takers: &Takers,
    bases: &[Base],
) -> Result<Vec<AwaitedEvent>, AllocError>
    ensures { IfOk result (λ events. events.items
        ≡ map (spec.awaited_event hub.now.course.world (origins (text_of hub.now.course.program) hub.now.course.items) (taker_in takers.now)) bases.now) }
{
    let mut events = Vec::new(alloc);
    for base in bases {
        events.push(awaited_event(hub, takers, base)?)?;
    }
    Ok(events)
}

/// What a thread waits for that waits on this group.
///
/// # Errors
/// Out of memory.
pub fn awaited_of(
    alloc: Global,
    hub: &Hub,
    takers: &Takers,
    group: &Group,
) -> Result<Awaited, AllocError>
    ensures { IfOk result (λ awaited. awaited
        ≡ spec.awaited_of hub.now.course.world (origins (text_of hub.now.course.program) hub.now.course.items) (taker_in takers.now) group.now) }
{
    let bases = leaf_bases(alloc, group)?;
    let events = awaited_events(alloc, hub, takers, first_of(bases.as_slice()))?;
    Ok(Awaited {
        events,
        count: bases.len(),
    })
}
