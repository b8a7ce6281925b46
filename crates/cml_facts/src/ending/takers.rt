//! Which thread took from an M-variable last.

ghost use Rattle.std.specs.{Prelude.{◌≡◌, ℕ, None, ◌∷◌, ◌++◌, [], IfOk, OnOk, OnErr}, Option.{option_and_then, option_or}};
ghost use Rattle.cml_step.specs.Calls.{text_of};
ghost use Rattle.cml_facts.specs.Takes.{taker_in, KnowsTakers};
ghost use Rattle.cml_facts.specs.Takes as spec;

use crate::ending::room::make_room;
use cml_hub::{Hub, Item};
use cml_scan::{Meet, leaf_bases};
use cml_value::{Base, BaseKind, MVarId, Tid};
use std::alloc::{AllocError, Global};

/// A thread takes from an M-variable, by the numbers of both.
#[derive(Clone, Copy, PartialEq, Eq)]
pub struct Take {
    pub variable: u32,
    pub thread: u32,
}

/// The thread that took from each M-variable last.
#[derive(Drop)]
pub struct Takers {
    last: Vec<Option<u32>>,
}

// What the thread takes from by this base event.
fn take_through(thread: Tid, base: &Base) -> Option<Take>
    ensures { result ≡ spec.take_through thread.0 base.now }
{
    match base.kind() {
        BaseKind::MTake(m) => Some(Take {
            variable: m.0,
            thread: thread.0,
        }),
        _ => None,
    }
}

// What the thread takes from by this leaf of what it waits for.
fn take_by_leaf(
    alloc: Global,
    hub: &Hub,
    thread: Tid,
    leaf: u32,
) -> Result<Option<Take>, AllocError>
    ensures { IfOk result (λ take. take
        ≡ option_and_then (spec.take_through thread.0) (spec.leaf_waited hub.now.course.world thread.0 leaf)) }
{
    let Some(group) = hub.book().waiting(thread) else {
        return Ok(None);
    };
    let bases = leaf_bases(alloc, group)?;
    match bases.get(leaf as usize) {
        Some(base) => Ok(take_through(thread, base)),
        None => Ok(None),
    }
}

/// What the item takes from an M-variable, where it comes next in this hub.
///
/// # Errors
/// Out of memory.
fn take_by(alloc: Global, hub: &Hub, item: &Item) -> Result<Option<Take>, AllocError>
    ensures { IfOk result (λ take. take ≡ spec.take_by hub.now.course.world item.now) }
{
    match item {
        Item::Meet(Meet::Single { tid, leaf }) => take_by_leaf(alloc, hub, *tid, *leaf),
        _ => Ok(None),
    }
}

impl Takers {
    /// Nothing was taken yet.
    pub fn new(alloc: Global) -> Takers
        ensures { (m : ℕ) → taker_in result m ≡ None }
    {
        Takers {
            last: Vec::new(alloc),
        }
    }

    /// The thread that took from the M-variable last.
    pub fn last(&self, variable: MVarId) -> Option<u32>
        ensures { result ≡ taker_in self.now variable.0 }
    {
        match self.last.get(variable.0 as usize) {
            Some(taker) => *taker,
            None => None,
        }
    }

    // Keeps the take.
    fn keep(&mut self, take: Take) -> Result<(), AllocError>
        ensures ok { OnOk result ((m : ℕ) → taker_in self.new m ≡ option_or (spec.taker_if m take) (taker_in self.old m)) }
        ensures err { OnErr result ((m : ℕ) → taker_in self.new m ≡ taker_in self.old m) }
    {
        let place = take.variable as usize;
        make_room(&mut self.last, place)?;
        self.last[place] = Some(take.thread);
        Ok(())
    }

    /// Keeps what the item takes, which comes next in this hub: from those of the hub's schedule it goes on to those of one item more.
    ///
    /// # Errors
    /// Out of memory: it knows what it knew.
    pub fn follow(&mut self, alloc: Global, hub: &Hub, item: &Item) -> Result<(), AllocError>
        ensures ok { let p = text_of hub.now.course.program in let items = hub.now.course.items in
            OnOk result (KnowsTakers p items self.old → KnowsTakers p (items ++ item.now ∷ []) self.new) }
        ensures err { OnErr result ((m : ℕ) → taker_in self.new m ≡ taker_in self.old m) }
    {
        // No effect: named here so that the prover knows what holds of it.
        let _so_far = hub.schedule();
        match take_by(alloc, hub, item)? {
            Some(take) => {
                self.keep(take)?;
                Ok(())
            }
            None => Ok(()),
        }
    }
}
