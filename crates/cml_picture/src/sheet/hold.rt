//! Which M-variables a thread took and put back.

ghost use Rattle.std.specs.{Prelude.{◌≡◌, ◌≤◌, ◌++◌, IfOk, OnOk, drop, length}, Option.{option_to_list}};
ghost use Rattle.cml_picture.specs.Holds as spec;

use cml_facts::narrative::{Came, Deed, Happened, Took, Turned};
use cml_step::Ask;
use cml_value::BaseKind;
use std::alloc::{AllocError, Global};

/// A thread takes from an M-variable and puts into it later: the numbers of both items, or of the first alone where nobody has put anything
/// into it since.
#[derive(Clone, Copy)]
pub struct Held {
    pub from: usize,
    pub until: Option<usize>,
}

// A thread that takes from an M-variable, by the numbers of both.
#[derive(Clone, Copy)]
pub(crate) struct Hand {
    pub(crate) thread: u32,
    pub(crate) variable: u32,
}

// The M-variable that a thread empties, if it does.
fn emptied(took: &Took) -> Option<u32>
    ensures { result ≡ spec.emptied took.now.taker.chosen }
{
    match &took.taker.chosen {
        Some(chosen) => match chosen.base.kind() {
            BaseKind::MTake(mvar) => Some(mvar.0),
            _ => None,
        },
        None => None,
    }
}

// The thread that takes by an item, and from which M-variable.
fn hand_of(deed: &Deed) -> Option<Hand>
    ensures { result ≡ spec.hand_of deed.now }
{
    match deed {
        Deed::Took(took) => match emptied(took) {
            Some(variable) => Some(Hand {
                thread: took.taker.thread.thread,
                variable,
            }),
            None => None,
        },
        _ => None,
    }
}

// Whether a turn fills this M-variable.
fn fills(turned: &Turned, variable: u32) -> bool
    ensures { result ≡ spec.fills variable turned.now.came turned.now.ask }
{
    match (&turned.came, &turned.ask) {
        (Came::Done(_), Ask::MPut(mvar, _)) => mvar.0 == variable,
        _ => false,
    }
}

// The thread that fills this M-variable by an item, if one does.
fn filler(deed: &Deed, variable: u32) -> Option<u32>
    ensures { result ≡ spec.filler variable deed.now }
{
    match deed {
        Deed::Turned(turned) => {
            if fills(turned, variable) {
                Some(turned.thread.thread)
            } else {
                None
            }
        }
        _ => None,
    }
}

// What an item ends in which this thread puts into what it took from by another one.
fn held_until(hand: Hand, from: usize, thread: u32, until: usize) -> Option<Held>
    ensures { result ≡ spec.held_until hand from thread until }
{
    if thread == hand.thread {
        Some(Held {
            from,
            until: Some(until),
        })
    } else {
        None
    }
}

// What is held by this, where these items come behind.
fn held_behind(hand: Hand, from: usize, behind: &[Happened]) -> Option<Held>
    ensures { result ≡ spec.held_behind hand from behind.now }
{
    for happened in behind {
        if let Some(thread) = filler(&happened.deed, hand.variable) {
            return held_until(hand, from, thread, happened.number);
        }
    }
    Some(Held { from, until: None })
}

// What is held by the first of these items.
fn held_first(shown: &[Happened]) -> Option<Held>
    ensures { result ≡ spec.held_first shown.now }
{
    match shown {
        [happened, behind @ ..] => match hand_of(&happened.deed) {
            Some(hand) => held_behind(hand, happened.number, behind),
            None => None,
        },
        [] => None,
    }
}

// What is held by the item at this place.
fn held_at(shown: &[Happened], at: usize) -> Option<Held>
    requires { at ≤ length shown.now }
    ensures { result ≡ spec.held_first (drop at shown.now) }
{
    held_first(&shown[at..])
}

// Adds what is held, if it is.
fn add_held(all: &mut Vec<Held>, held: Option<Held>) -> Result<(), AllocError>
    ensures { OnOk result (all.new.items ≡ all.old.items ++ option_to_list held) }
{
    match held {
        Some(held) => Ok(all.push(held)?),
        None => Ok(()),
    }
}

/// What is held by these items, in the order of those that take.
#[tactic(auto, using(crate::proofs::HoldLemmas::held_end))]
pub(crate) fn holds_of(alloc: Global, shown: &[Happened]) -> Result<Vec<Held>, AllocError>
    ensures { IfOk result (λ all. all.items ≡ spec.all_held shown.now) }
{
    let mut all = Vec::new(alloc);
    for at in 0..shown.len() {
        add_held(&mut all, held_at(shown, at))?;
    }
    Ok(all)
}
