//! How what an item did is seen: the marks of a picture, without their words.

ghost use Rattle.std.specs.Prelude.{◌≡◌, ◌++◌, ◌∷◌, [], IfOk, OnOk};
ghost use Rattle.cml_picture.specs.Feeds.{store_asked};
ghost use Rattle.cml_picture.specs.Signs as spec;

use super::feed::store_asked;
use crate::layout::Shape;
use cml_facts::narrative::{Came, Deed, Party, Took, Turned};
use cml_step::Ask;
use cml_value::{Base, BaseKind, NackId};
use std::alloc::{AllocError, Global};

/// A mark of a picture: what it looks like, its thread, and the thread that it leads to (the same where it leads to none).
#[derive(Clone, Copy)]
pub struct Sign {
    pub shape: Shape,
    pub thread: u64,
    pub other: u64,
}

// A mark of one thread.
fn own_sign(shape: Shape, thread: u32) -> Sign
    ensures { result ≡ spec.own_sign shape thread }
{
    Sign {
        shape,
        thread: u64::from(thread),
        other: u64::from(thread),
    }
}

// What is seen of an ask that feeds something.
fn fed_sign(thread: u32, ask: &Ask) -> Option<Sign>
    ensures { result ≡ spec.fed_sign thread (store_asked ask.now) }
{
    match store_asked(ask) {
        Some(_) => Some(own_sign(Shape::Fed, thread)),
        None => None,
    }
}

// What is seen of an ask that was done.
fn done_sign(thread: u32, ask: &Ask, number: u64) -> Option<Sign>
    ensures { result ≡ spec.done_sign thread ask.now number }
{
    match ask {
        Ask::Spawn(_) => Some(Sign {
            shape: Shape::Spawn,
            thread: u64::from(thread),
            other: number,
        }),
        Ask::Print(_) => Some(own_sign(Shape::Print, thread)),
        Ask::End => Some(own_sign(Shape::End, thread)),
        _ => fed_sign(thread, ask),
    }
}

// What is seen of a turn.
fn turned_sign(turned: &Turned) -> Option<Sign>
    ensures { result ≡ spec.turned_sign turned.now }
{
    let thread = turned.thread.thread;
    match &turned.came {
        Came::Done(number) => done_sign(thread, &turned.ask, *number),
        Came::Waits(_) => None,
        Came::Failed(_) => Some(own_sign(Shape::Fault, thread)),
    }
}

// That alone.
fn turned_signs(alloc: Global, turned: &Turned) -> Result<Vec<Sign>, AllocError>
    ensures { IfOk result (λ signs. signs.items ≡ spec.listed_sign (spec.turned_sign turned.now)) }
{
    let mut signs = Vec::new(alloc);
    if let Some(sign) = turned_sign(turned) {
        signs.push(sign)?;
    }
    Ok(signs)
}

// Adds that a thread fires nacks, if it fires any.
#[tactic(auto, using(crate::proofs::StackLemmas::fires_none, crate::proofs::StackLemmas::fires_some))]
fn add_fires(signs: &mut Vec<Sign>, thread: u32, nacks: &[NackId]) -> Result<(), AllocError>
    ensures { OnOk result (signs.new.items ≡ signs.old.items ++ spec.fired_signs thread nacks.now) }
{
    match nacks {
        [] => Ok(()),
        [_, ..] => Ok(signs.push(own_sign(Shape::Nack, thread))?),
    }
}

// What is seen where a thread takes an event alone.
#[tactic(auto, unfolding(crate::specs::Signs::took_signs))]
fn took_signs(alloc: Global, took: &Took) -> Result<Vec<Sign>, AllocError>
    ensures { IfOk result (λ signs. signs.items ≡ spec.took_signs took.now.taker) }
{
    let mut signs = Vec::new(alloc);
    if let Some(chosen) = &took.taker.chosen {
        let thread = took.taker.thread.thread;
        signs.push(own_sign(Shape::Dot, thread))?;
        add_fires(&mut signs, thread, chosen.lost.as_slice())?;
    }
    Ok(signs)
}

// Whether a thread that takes this gets a value for its own.
fn hands_back(base: &Base) -> bool
    ensures { result ≡ spec.hands_back base.now }
{
    matches!(base.kind(), BaseKind::Swap(_, _))
}

// Adds an arrow from one thread to another, and for a swap one back.
fn add_arrows(signs: &mut Vec<Sign>, head: u32, other: u32, base: &Base) -> Result<(), AllocError>
    ensures { OnOk result (signs.new.items ≡ signs.old.items ++ spec.arrow_signs head other base.now) }
{
    let (from, to) = (u64::from(head), u64::from(other));
    let shape = Shape::Arrow;
    signs.push(Sign {
        shape,
        thread: from,
        other: to,
    })?;
    if hands_back(base) {
        signs.push(Sign {
            shape,
            thread: to,
            other: from,
        })?;
    }
    Ok(())
}

// What is seen where two threads meet.
#[tactic(auto, unfolding(crate::specs::Signs::met_signs))]
fn met_signs(alloc: Global, head: &Party, other: &Party) -> Result<Vec<Sign>, AllocError>
    ensures { IfOk result (λ signs. signs.items ≡ spec.met_signs head.now other.now) }
{
    let mut signs = Vec::new(alloc);
    let Some(ours) = &head.chosen else {
        return Ok(signs);
    };
    let Some(theirs) = &other.chosen else {
        return Ok(signs);
    };
    let (from, to) = (head.thread.thread, other.thread.thread);
    add_arrows(&mut signs, from, to, &ours.base)?;
    add_fires(&mut signs, from, ours.lost.as_slice())?;
    add_fires(&mut signs, to, theirs.lost.as_slice())?;
    Ok(signs)
}

// What is seen of a move of the time.
fn moved_signs(alloc: Global) -> Result<Vec<Sign>, AllocError>
    ensures { IfOk result (λ signs. signs.items ≡ spec.own_sign Shape.Tick 0 ∷ []) }
{
    let mut signs = Vec::new(alloc);
    signs.push(own_sign(Shape::Tick, 0))?;
    Ok(signs)
}

/// How what an item did is seen.
#[tactic(auto, unfolding(crate::specs::Signs::signs_of))]
pub(crate) fn signs_of(alloc: Global, deed: &Deed) -> Result<Vec<Sign>, AllocError>
    ensures { IfOk result (λ signs. signs.items ≡ spec.signs_of deed.now) }
{
    match deed {
        Deed::Turned(turned) => turned_signs(alloc, turned),
        Deed::Took(took) => took_signs(alloc, took),
        Deed::Met(met) => met_signs(alloc, &met.head, &met.other),
        Deed::Moved(_) => moved_signs(alloc),
    }
}
