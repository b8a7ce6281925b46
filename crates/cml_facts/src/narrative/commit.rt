//! What a commit does.

ghost use Rattle.std.specs.Prelude.{◌≡◌, IfOk, MatchOption, unwrap_or, option_copied};
ghost use Rattle.std.specs.Option.{option_map};
ghost use Rattle.cml_value.specs.Value.{unit};
ghost use Rattle.cml_objects.specs.Handed.{handed};
ghost use Rattle.cml_book.specs.Commit.{given};
ghost use Rattle.cml_facts.specs.{Commits.{TakesPart, IsTook, IsMet, IsRowDeed}, Turns.{began_in}, NarrativeViews.{plain_taken}};
ghost use Rattle.cml_facts.specs.Commits as spec;

use crate::ending::{Named, who_is};
use crate::narrative::deed::{Deed, Met, Party, Took};
use cml_book::Book;
use cml_group::{Chosen, flatten};
use cml_hub::Hub;
use cml_index::OfferIndex;
use cml_scan::{Light, Meet, Place};
use cml_value::{Base, BaseKind, Tid, Value, ValueKind};
use std::alloc::{AllocError, Global};

/// What a thread that waits takes at a leaf of its group, if that is there: the base event, and the nacks that fire.
///
/// # Errors
/// Out of memory.
pub fn taken_at(
    alloc: Global,
    book: &Book<OfferIndex>,
    thread: Tid,
    leaf: u32,
) -> Result<Option<Chosen>, AllocError>
    ensures { IfOk result (λ taken. option_map plain_taken taken ≡ spec.taken_at book.now thread.0 leaf) }
{
    let Some(group) = book.waiting(thread) else {
        return Ok(None);
    };
    match flatten(alloc, group.copy()?) {
        Ok(flat) => {
            if leaf as usize >= flat.len() {
                drop(flat);
                return Ok(None);
            }
            Ok(Some(flat.choose(leaf as usize)))
        }
        Err(fault) => {
            drop(fault);
            Err(AllocError)
        }
    }
}

/// The leaf of a row that comes first; and the other one, if the row is a pair.
pub fn leaves_of(row: Meet) -> (Place, Option<Place>)
    ensures { let head = result.0 in MatchOption result.1
        (row ≡ Meet.Single head.tid head.leaf)
        (λ other. row ≡ Meet.Pair head.tid head.leaf other.tid other.leaf) }
{
    match row {
        Meet::Single { tid, leaf } => (Place { tid, leaf }, None),
        Meet::Pair {
            other,
            other_leaf,
            ..
        } => {
            let second = Place {
                tid: other,
                leaf: other_leaf,
            };
            (row.place(), Some(second))
        }
    }
}

/// What a base event gives that is taken alone; none stands for unit.
pub fn given_value<'a>(book: &'a Book<OfferIndex>, base: &'a Base) -> Option<&'a Value>
    ensures { unwrap_or (option_copied result) unit ≡ given book.now base.now }
{
    match base.kind() {
        BaseKind::Always(v) => Some(v),
        BaseKind::IGet(i) => book.value(Light::IVar(*i)),
        BaseKind::MTake(m) => book.value(Light::MVar(*m)),
        BaseKind::MGet(m) => book.value(Light::MVar(*m)),
        BaseKind::MSwap(m, _) => book.value(Light::MVar(*m)),
        BaseKind::MailRecv(b) => book.value(Light::Mbox(*b)),
        BaseKind::PortRecv(p) => book.value(Light::Port(*p)),
        _ => None,
    }
}

/// What a party of a pair hands over by this base event; none stands for unit.
pub fn handed_value(base: &Base) -> Option<&Value>
    ensures { unwrap_or (option_copied result) unit ≡ handed base.now }
{
    match base.kind() {
        BaseKind::Send(_, v) => Some(v),
        BaseKind::Swap(_, v) => Some(v),
        _ => None,
    }
}

// A copy of the value, or unit where there is none.
fn value_or_unit(value: Option<&Value>) -> Result<Value, AllocError>
    ensures { IfOk result (λ v. v ≡ unwrap_or (option_copied value.entry) unit) }
{
    match value {
        Some(value) => value.copy(),
        None => Ok(Value::new(ValueKind::Unit)),
    }
}

// What a base event gave that was taken alone.
fn value_taken(book: &Book<OfferIndex>, taken: &Option<Chosen>) -> Result<Value, AllocError>
    ensures { IfOk result (λ v. v ≡ spec.value_taken book.now (option_map plain_taken taken.now)) }
{
    match taken {
        Some(chosen) => value_or_unit(given_value(book, &chosen.base)),
        None => Ok(Value::new(ValueKind::Unit)),
    }
}

// The thread whose end this base event waits for.
fn joined_by(base: &Base) -> Option<Tid>
    ensures { result ≡ spec.joined_by base.now }
{
    match base.kind() {
        BaseKind::Join(thread) => Some(*thread),
        _ => None,
    }
}

// The thread whose end was waited for, where a join was taken.
fn joined_thread(hub: &Hub, taken: &Option<Chosen>) -> Result<Option<Named>, AllocError>
    ensures { IfOk result (λ joined. joined
        ≡ spec.joined_in (began_in hub.now.course) (option_map plain_taken taken.now)) }
{
    let Some(chosen) = taken else {
        return Ok(None);
    };
    match joined_by(&chosen.base) {
        Some(thread) => Ok(Some(who_is(hub, thread.0)?)),
        None => Ok(None),
    }
}

// A party of a row.
fn party_of(alloc: Global, hub: &Hub, place: Place) -> Result<Party, AllocError>
    ensures { let c = hub.now.course in
        IfOk result (TakesPart (began_in c) c.world place.tid.0 place.leaf) }
{
    let chosen = taken_at(alloc, hub.book(), place.tid, place.leaf)?;
    let thread = who_is(hub, place.tid.0)?;
    Ok(Party { thread, chosen })
}

// The commit of one leaf.
fn single_commit(alloc: Global, hub: &Hub, place: Place) -> Result<Took, AllocError>
    ensures { let c = hub.now.course in
        IfOk result (IsTook (began_in c) c.world place.tid.0 place.leaf) }
{
    let taker = party_of(alloc, hub, place)?;
    let value = value_taken(hub.book(), &taker.chosen)?;
    let joined = joined_thread(hub, &taker.chosen)?;
    Ok(Took {
        taker,
        value,
        joined,
    })
}

// The commit of two leaves.
fn pair_commit(alloc: Global, hub: &Hub, head: Place, other: Place) -> Result<Met, AllocError>
    ensures { let c = hub.now.course in
        IfOk result (IsMet (began_in c) c.world head.tid.0 head.leaf other.tid.0 other.leaf) }
{
    let first = party_of(alloc, hub, head)?;
    let second = party_of(alloc, hub, other)?;
    Ok(Met {
        head: first,
        other: second,
    })
}

/// What the commit of this row does that comes next in this hub.
///
/// # Errors
/// Out of memory.
pub(crate) fn row_deed(alloc: Global, hub: &Hub, row: Meet) -> Result<Deed, AllocError>
    ensures { let c = hub.now.course in
        IfOk result (IsRowDeed (began_in c) c.world row) }
{
    let (head, other) = leaves_of(row);
    match other {
        None => Ok(Deed::Took(single_commit(alloc, hub, head)?)),
        Some(other) => Ok(Deed::Met(pair_commit(alloc, hub, head, other)?)),
    }
}
