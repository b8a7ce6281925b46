//! The leaves of pending threads.

ghost use Rattle.std.specs.Prelude.{◌≡◌, ◌++◌, length, take, IfOk, OnOk, OnErr};
ghost use Rattle.cml_value.specs.Group.{bases};
ghost use Rattle.cml_scan.specs.{Scan.{offers_of, leaves_from}, World.{pending}};

use crate::world::{ThreadState, World};
use cml_value::{Base, Group, GroupKind, Tid};
use std::alloc::{AllocError, Global};
use std::marker::Model;

/// A leaf of a pending thread, with its base event.
#[derive(Drop)]
pub struct Offer {
    /// The thread.
    pub tid: Tid,
    /// The leaf's number, from the left, from 0.
    pub leaf: u32,
    /// What it waits for.
    pub base: Base,
}

impl Model for Offer {
    ghost use Rattle.cml_scan.specs.{Scan.{PlainOffer}, Codes.{offer_code}};

    ghost Value = { PlainOffer };

    ghost coded = { offer_code };

    ghost view = { λ o. record { thread = o.tid.0; leaf = o.leaf; base = o.base } };
}

// Appends the base events of the group's leaves. Where memory runs out, those that were appended until then stay.
#[tactic(auto, using(crate::proofs::Bases::base_steps))]
fn push_bases(all: &mut Vec<Base>, group: &Group) -> Result<(), AllocError>
    ensures { IfOk result (λ _. all.new.items ≡ all.old.items ++ bases group.now) }
{
    match group.kind() {
        GroupKind::Never => Ok(()),
        GroupKind::Leaf(b) => {
            all.push(b.copy()?)?;
            Ok(())
        }
        GroupKind::Choose(members) => {
            for member in members.iter() {
                push_bases(all, member)?;
            }
            Ok(())
        }
        GroupKind::Wrap(inner, _) => push_bases(all, inner),
        GroupKind::Scope(_, inner) => push_bases(all, inner),
    }
}

/// The base events of the group's leaves, from the left.
///
/// # Errors
/// Out of memory.
pub fn leaf_bases(alloc: Global, group: &Group) -> Result<Vec<Base>, AllocError>
    ensures { IfOk result (λ all. all.items ≡ bases group.now) }
{
    let mut all = Vec::new(alloc);
    push_bases(&mut all, group)?;
    Ok(all)
}

/// Appends the leaves of a thread's group.
///
/// # Errors
/// Out of memory, also where a leaf has no number. Nothing is appended then.
pub fn push_offers(
    alloc: Global,
    offers: &mut Vec<Offer>,
    tid: Tid,
    group: &Group,
) -> Result<(), AllocError>
    ensures ok { OnOk result
        (offers.new.items ≡ offers.old.items ++ leaves_from tid.0 0 (bases group.now)) }
    ensures err { OnErr result (offers.new.items ≡ offers.old.items) }
{
    let bases = leaf_bases(alloc, group)?;
    let before = offers.len();
    let pushed = push_leaves(offers, tid, &bases);
    if pushed.is_err() {
        offers.truncate(before);
    }
    pushed
}

// Appends the leaves of a thread that have these bases. Out of memory is also returned where a leaf has no number; some of the leaves
// may be there then.
fn push_leaves(offers: &mut Vec<Offer>, tid: Tid, bases: &[Base]) -> Result<(), AllocError>
    ensures ok { OnOk result (offers.new.items ≡ offers.old.items ++ leaves_from tid.0 0 bases.now) }
    ensures err { take (length offers.old.items) offers.new.items ≡ offers.old.items }
{
    for (leaf, base) in bases.iter().enumerate() {
        offers.push(Offer {
            tid,
            leaf: number(leaf)?,
            base: base.copy()?,
        })?;
    }
    Ok(())
}

/// The leaves of all pending threads of the world, by thread and leaf.
///
/// # Errors
/// Out of memory, also where a thread or a leaf has no number.
pub fn offers(alloc: Global, world: &World) -> Result<Vec<Offer>, AllocError>
    ensures { IfOk result (λ all. all.items ≡ offers_of (pending world.now)) }
{
    let mut all = Vec::new(alloc);
    for (tid, state) in world.threads.iter().enumerate() {
        if let ThreadState::Pending(group) = state {
            push_offers(alloc, &mut all, Tid(number(tid)?), group)?;
        }
    }
    Ok(all)
}

// A place in a list as the number of a thread or a leaf. There is no memory for a list in which the place is too large for one.
fn number(place: usize) -> Result<u32, AllocError>
    ensures { IfOk result (λ n. n ≡ place) }
{
    u32::try_from(place).map_err(|_| AllocError)
}
