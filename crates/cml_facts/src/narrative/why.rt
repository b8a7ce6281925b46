//! Why an item can't happen.

ghost use Rattle.std.specs.Prelude.{◌≡◌, None, IfOk, drop};
ghost use Rattle.cml_scan.specs.Scan.{has_row, scan};
ghost use Rattle.cml_hub.specs.Runs.{next_alarm};
ghost use Rattle.cml_facts.specs.Turns.{waits_on};
ghost use Rattle.cml_facts.specs.Whys as spec;

use crate::narrative::commit::leaves_of;
use cml_book::Book;
use cml_hub::{Hub, Item};
use cml_index::OfferIndex;
use cml_scan::{Light, Meet, Place, Table, leaf_bases};
use cml_value::{Base, BaseKind, Tid};
use std::alloc::{AllocError, Global};

/// What a thread does that an item can't have take part.
#[derive(Clone, Copy, PartialEq, Eq)]
pub enum ThreadState {
    Runs,
    Waits,
    /// It has ended.
    Ended,
    /// There is no such thread.
    Missing,
}

/// Why an item can't happen next.
#[derive(Drop)]
pub enum Why {
    /// The thread of a turn does not run.
    NoTurn(Tid, ThreadState),
    /// A party of a row does not wait.
    NoParty(Tid, ThreadState),
    /// The thread waits for no event of this number.
    NoLeaf(Tid, u32),
    /// The event takes another thread.
    NotAlone(Base),
    /// The event can't happen now.
    NotNow(Base),
    /// This thread comes first in the pair.
    ComesFirst(Tid),
    /// Both parties are this thread.
    MeetsItself(Tid),
    /// The first of these events does not meet the second.
    NoMatch(Base, Base),
    /// The row is no swap, and can happen as a commit.
    NoSwap,
    /// The thread runs, so the time stands still.
    Runs(Tid),
    /// Something else can happen, so the time stands still.
    Busy,
    /// This is the next tick for which a thread waits, if one does.
    NextTick(Option<u64>),
}

// Whether the event takes another thread.
fn takes_two(base: &Base) -> bool
    ensures { result ≡ spec.takes_two base.now }
{
    match base.kind() {
        BaseKind::Send(_, _) | BaseKind::Recv(_) | BaseKind::Swap(_, _) => true,
        _ => false,
    }
}

/// The number of the first thread that runs, from this number on, if one does.
#[tactic(auto, using(crate::proofs::WhyLemmas::runs_first, crate::proofs::WhyLemmas::none_first))]
pub fn first_running(book: &Book<OfferIndex>, from: u32) -> Option<u32>
    ensures { result ≡ spec.first_running from (drop from book.now.threads) }
{
    for t in from..book.next_thread().0 {
        if book.is_running(Tid(t)) {
            return Some(t);
        }
    }
    None
}

/// The next tick for which a thread waits.
pub fn next_tick(book: &Book<OfferIndex>) -> Option<u64>
    ensures { result ≡ next_alarm book.now }
{
    book.next_alarm()
}

// What a thread does that neither runs nor waits.
fn gone_state(book: &Book<OfferIndex>, thread: Tid) -> ThreadState
    ensures { result ≡ spec.gone_state book.now thread }
{
    if book.is_lit(Light::Joined(thread)) {
        ThreadState::Ended
    } else {
        ThreadState::Missing
    }
}

// Why a thread has no turn.
fn turn_why(book: &Book<OfferIndex>, thread: Tid) -> Why
    ensures { result ≡ spec.turn_why book.now thread (waits_on book.now thread.0) }
{
    match book.waiting(thread) {
        Some(_) => Why::NoTurn(thread, ThreadState::Waits),
        None => Why::NoTurn(thread, gone_state(book, thread)),
    }
}

// What a thread that does not run waits for at a leaf, or why it takes no part.
fn waiting_at(
    alloc: Global,
    book: &Book<OfferIndex>,
    place: Place,
) -> Result<Result<Base, Why>, AllocError>
    ensures { IfOk result (λ found. found ≡ spec.waiting_at book.now place.tid place.leaf (waits_on book.now place.tid.0)) }
{
    let thread = place.tid;
    let Some(group) = book.waiting(thread) else {
        return Ok(Err(Why::NoParty(thread, gone_state(book, thread))));
    };
    let bases = leaf_bases(alloc, group)?;
    match bases.get(place.leaf as usize) {
        Some(base) => Ok(Ok(base.copy()?)),
        None => Ok(Err(Why::NoLeaf(thread, place.leaf))),
    }
}

// What a thread waits for at a leaf, or why it takes no part, whatever else happens.
fn party_at(
    alloc: Global,
    book: &Book<OfferIndex>,
    place: Place,
) -> Result<Result<Base, Why>, AllocError>
    ensures { IfOk result (λ found. found ≡ spec.party_at book.now place.tid place.leaf) }
{
    if book.is_running(place.tid) {
        Ok(Err(Why::NoParty(place.tid, ThreadState::Runs)))
    } else {
        waiting_at(alloc, book, place)
    }
}

// Why one leaf is not taken alone.
fn single_why(base: Base) -> Why
    ensures { result ≡ spec.single_why base }
{
    if takes_two(&base) {
        Why::NotAlone(base)
    } else {
        Why::NotNow(base)
    }
}

// Why the row of one leaf can't be taken.
fn single_row_why(alloc: Global, book: &Book<OfferIndex>, place: Place) -> Result<Why, AllocError>
    ensures { IfOk result (λ why. why ≡ spec.row_reason book.now (Meet.Single place.tid place.leaf)) }
{
    match party_at(alloc, book, place)? {
        Ok(base) => Ok(single_why(base)),
        Err(why) => Ok(why),
    }
}

// Why two leaves of threads that wait do not meet, where these are their events.
fn pair_why(book: &Book<OfferIndex>, head: Place, other: Place, ours: Base, theirs: Base) -> Why
    ensures { result ≡ spec.pair_why book.now head.tid head.leaf other.tid other.leaf ours theirs }
{
    let turned = Meet::Pair {
        head: other.tid,
        head_leaf: other.leaf,
        other: head.tid,
        other_leaf: head.leaf,
    };
    if book.table().has(&turned) {
        drop(ours);
        drop(theirs);
        Why::ComesFirst(other.tid)
    } else if head.tid.0 == other.tid.0 {
        drop(ours);
        drop(theirs);
        Why::MeetsItself(head.tid)
    } else {
        Why::NoMatch(ours, theirs)
    }
}

// Why the row of two leaves can't be taken, where this is the event of the first.
fn second_row_why(
    alloc: Global,
    book: &Book<OfferIndex>,
    head: Place,
    other: Place,
    ours: Base,
) -> Result<Why, AllocError>
    ensures { let theirs = spec.party_at book.now other.tid other.leaf in
        IfOk result (λ why. why ≡ spec.pair_row_why (Ok ours) theirs (spec.pair_why book.now head.tid head.leaf other.tid other.leaf)) }
{
    match party_at(alloc, book, other)? {
        Ok(theirs) => Ok(pair_why(book, head, other, ours, theirs)),
        Err(why) => {
            drop(ours);
            Ok(why)
        }
    }
}

// Why the row of two leaves can't be taken.
fn pair_row_why(
    alloc: Global,
    book: &Book<OfferIndex>,
    head: Place,
    other: Place,
) -> Result<Why, AllocError>
    ensures { IfOk result (λ why. why ≡ spec.row_reason book.now (Meet.Pair head.tid head.leaf other.tid other.leaf)) }
{
    match party_at(alloc, book, head)? {
        Ok(ours) => second_row_why(alloc, book, head, other, ours),
        Err(why) => Ok(why),
    }
}

// Why a row can't be taken.
fn row_why(alloc: Global, book: &Book<OfferIndex>, row: &Meet) -> Result<Why, AllocError>
    ensures { IfOk result (λ why. why ≡ spec.row_reason book.now row.now) }
{
    let (head, other) = leaves_of(*row);
    match other {
        None => single_row_why(alloc, book, head),
        Some(other) => pair_row_why(alloc, book, head, other),
    }
}

// Whether the row can be taken.
fn can_happen(book: &Book<OfferIndex>, row: &Meet) -> bool
    ensures { result ≡ has_row (scan book.now) row.now }
{
    book.table().has(row)
}

// Why a row is not taken as an exchange.
fn swap_why(alloc: Global, book: &Book<OfferIndex>, row: &Meet) -> Result<Why, AllocError>
    ensures { IfOk result (λ why. why ≡ spec.swap_why book.now row.now) }
{
    if can_happen(book, row) {
        Ok(Why::NoSwap)
    } else {
        row_why(alloc, book, row)
    }
}

// Why the time does not move, where no thread runs.
fn idle_why(book: &Book<OfferIndex>) -> Why
    ensures { result ≡ spec.still_why book.now None }
{
    if book.table().head_count() == 0 {
        Why::NextTick(next_tick(book))
    } else {
        Why::Busy
    }
}

// Why the time does not move to a tick.
fn clock_why(book: &Book<OfferIndex>) -> Why
    ensures { result ≡ spec.still_why book.now (spec.first_running 0 book.now.threads) }
{
    match first_running(book, 0) {
        Some(thread) => Why::Runs(Tid(thread)),
        None => idle_why(book),
    }
}

/// Why an item can't happen next in this hub, which it can't.
///
/// # Errors
/// Out of memory.
pub fn why_not(alloc: Global, hub: &Hub, item: &Item) -> Result<Why, AllocError>
    ensures { IfOk result (λ why. why ≡ spec.item_why hub.now.course.world item.now) }
{
    let book = hub.book();
    match item {
        Item::Turn(thread) => Ok(turn_why(book, *thread)),
        Item::Meet(row) => row_why(alloc, book, row),
        Item::Exchange(row) => swap_why(alloc, book, row),
        Item::Clock(_) => Ok(clock_why(book)),
    }
}
