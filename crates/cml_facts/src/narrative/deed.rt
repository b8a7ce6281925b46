//! What an item did, as a value.

use crate::ending::{Awaited, Named};
use cml_group::Chosen;
use cml_phrase::Place;
use cml_step::Ask;
use cml_value::Value;

/// An item that happened.
#[derive(Drop)]
pub struct Happened {
    /// Its number in the schedule, counted from 1.
    pub number: usize,
    /// How many events could happen: before a commit; after any other item, where none could before it, else 0.
    pub could: usize,
    pub deed: Deed,
}

/// What an item did.
#[derive(Drop)]
pub enum Deed {
    /// A thread had its turn.
    Turned(Turned),
    /// A thread took an event alone.
    Took(Took),
    /// Two threads met.
    Met(Met),
    /// The time moved to this tick.
    Moved(u64),
}

/// The turn of a thread.
#[derive(Drop)]
pub struct Turned {
    pub thread: Named,
    /// Where it stood as it asked, if that is known.
    pub place: Option<Place>,
    pub ask: Ask,
    pub came: Came,
}

/// What came of what a thread asked.
#[derive(Drop)]
pub enum Came {
    /// It was done. The number is that of the thread, object or nack that was made, or the tick that was read; of any other ask it is 0.
    Done(u64),
    /// The thread waits for this.
    Waits(Awaited),
    /// The thread ended at a fault of this name.
    Failed(Vec<u8>),
}

/// A thread that goes on from a leaf of the group that it waited on, and what it takes there, if the leaf is there: the base event, and the
/// nacks that fire.
#[derive(Drop)]
pub struct Party {
    pub thread: Named,
    pub chosen: Option<Chosen>,
}

/// A commit of one leaf.
#[derive(Drop)]
pub struct Took {
    pub taker: Party,
    /// What the base event gave.
    pub value: Value,
    /// Of a join, the thread whose end was waited for.
    pub joined: Option<Named>,
}

/// A commit of two leaves.
#[derive(Drop)]
pub struct Met {
    pub head: Party,
    pub other: Party,
}
