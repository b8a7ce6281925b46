//! Rows that can be taken, as values.

ghost use Rattle.std.specs.Prelude.{◌≡◌, IfOk, map, take};
ghost use Rattle.cml_facts.specs.Takes.{leaf_waited};
ghost use Rattle.cml_facts.specs.Waits as waits;
ghost use Rattle.cml_facts.specs.Turns.{began_in};
ghost use Rattle.cml_stepper.specs.Offers.{AreRows};
ghost use Rattle.cml_stepper.specs.Offers as spec;

use cml_facts::ending::{AwaitedEvent, Named, Takers, awaited_event, who_is};
use cml_facts::narrative::leaves_of;
use cml_hub::Hub;
use cml_scan::{Meet, Place, leaf_bases};
use cml_value::Base;
use std::alloc::{AllocError, Global};

/// How many threads, and how many rows, are listed at once.
pub(crate) const LISTED: usize = 20;

/// A thread, and the event at one of its leaves, with the state of its object. Who took last from an M-variable is not told of it.
#[derive(Drop)]
pub struct Offer {
    pub thread: Named,
    pub event: Option<AwaitedEvent>,
}

/// A row: its head, and the other thread, if it is a pair.
#[derive(Drop)]
pub struct Row {
    pub head: Offer,
    pub other: Option<Offer>,
}

/// The first 20 of some rows, the number of the first of them, and whether there are more.
#[derive(Drop)]
pub struct Rows {
    pub first: u64,
    pub rows: Vec<Row>,
    pub more: bool,
}

// A base event, with the state of its object.
fn event_of(alloc: Global, hub: &Hub, base: &Base) -> Result<AwaitedEvent, AllocError>
    ensures { let c = hub.now.course in
        IfOk result (λ event. event ≡ waits.awaited_event c.world (began_in c) spec.no_taker base.now) }
{
    let takers = Takers::new(alloc);
    let event = awaited_event(hub, &takers, base)?;
    Ok(event)
}

// The event at a leaf of a thread.
fn event_at(alloc: Global, hub: &Hub, place: Place) -> Result<Option<AwaitedEvent>, AllocError>
    ensures { let c = hub.now.course in
        IfOk result (λ event. event ≡ spec.event_in c.world (began_in c) (leaf_waited c.world place.tid.0 place.leaf)) }
{
    let Some(group) = hub.book().waiting(place.tid) else {
        return Ok(None);
    };
    let bases = leaf_bases(alloc, group)?;
    match bases.get(place.leaf as usize) {
        Some(base) => Ok(Some(event_of(alloc, hub, base)?)),
        None => Ok(None),
    }
}

// A thread, and the event at one of its leaves.
fn offer_of(alloc: Global, hub: &Hub, place: Place) -> Result<Offer, AllocError>
    ensures { let c = hub.now.course in
        IfOk result (λ offer. offer ≡ spec.offered_at c.world (began_in c) place.tid.0 place.leaf) }
{
    let event = event_at(alloc, hub, place)?;
    let thread = who_is(hub, place.tid.0)?;
    Ok(Offer { thread, event })
}

// A row as a value.
fn row_of(alloc: Global, hub: &Hub, meet: Meet) -> Result<Row, AllocError>
    ensures { let c = hub.now.course in
        IfOk result (λ row. row ≡ spec.offered_row c.world (began_in c) meet) }
{
    let (first, second) = leaves_of(meet);
    let head = offer_of(alloc, hub, first)?;
    match second {
        Some(place) => {
            let other = offer_of(alloc, hub, place)?;
            Ok(Row {
                head,
                other: Some(other),
            })
        }
        None => Ok(Row { head, other: None }),
    }
}

// These rows as values.
fn each_row(alloc: Global, hub: &Hub, meets: &[Meet]) -> Result<Vec<Row>, AllocError>
    ensures { let c = hub.now.course in
        IfOk result (λ rows. rows.items ≡ map (spec.offered_row c.world (began_in c)) meets.now) }
{
    let mut rows = Vec::new(alloc);
    for meet in meets {
        rows.push(row_of(alloc, hub, *meet)?)?;
    }
    Ok(rows)
}

// Those of these rows that are listed.
fn listed(meets: &[Meet]) -> &[Meet]
    ensures { result.now ≡ take spec.listed_limit meets.now }
{
    if meets.len() > LISTED {
        &meets[..LISTED]
    } else {
        meets
    }
}

/// Those of these rows that are listed, of which the first has this number.
///
/// # Errors
/// Out of memory.
pub(crate) fn rows_of(
    alloc: Global,
    hub: &Hub,
    first: u64,
    meets: &[Meet],
) -> Result<Rows, AllocError>
    ensures { let c = hub.now.course in
        IfOk result (AreRows c.world (began_in c) first meets.now) }
{
    let rows = each_row(alloc, hub, listed(meets))?;
    Ok(Rows {
        first,
        rows,
        more: meets.len() > LISTED,
    })
}
