//! The call, and what comes of it.

ghost use Rattle.std.specs.Prelude.{◌≡◌, ◌≤◌, ◌-◌, IfOk, IfErr};
ghost use Rattle.cml_hub.specs.Kept.{IsBudget};
ghost use Rattle.cml_explore.specs.{ShrinkEnds.{IsNotGiven}, Shrinking.{IsShrunk}, Searching.{AlikeTo, SearchFinds}};

use crate::shrink::fault::ShrinkFault;
use crate::shrink::gather::{gather, halve, thin};
use crate::shrink::replay::{Asked, Goal, count_given, end_details};
use crate::shrink::search::{Search, begin};
use cml_check::Prog;
use cml_hub::Item;
use std::alloc::{AllocError, Global};
use std::marker::Model;

/// A schedule that ends as the given one does, and how many others were tried to find it.
#[derive(Drop)]
pub struct Shrunk {
    items: Vec<Item>,
    used: u64,
}

impl Model for Shrunk {
    ghost use Rattle.cml_explore.specs.Shrinking.{PlainShrunk};

    ghost Value = { PlainShrunk };

    ghost view = { λ s. record { items = s.items.items; used = s.used } };
}

impl Shrunk {
    /// The schedule.
    pub fn items(&self) -> &[Item]
        ensures { result.now ≡ self.now.items }
    {
        self.items.as_slice()
    }

    /// How many others were tried.
    pub fn used(&self) -> u64
        ensures { result ≡ self.now.used }
    {
        self.used
    }
}

// What a search has found that began with so many tries.
fn shrunk_by(search: Search, tries: u64) -> Shrunk
    requires { search.left ≤ tries }
    ensures { result ≡ record { items = search.items; used = tries - search.left } }
{
    Shrunk {
        used: tries - search.left,
        items: search.items,
    }
}

// Searches from the given items on.
fn find(alloc: Global, goal: &Goal<'_>, given: &[Item], tries: u64) -> Result<Search, AllocError>
    requires budget { IsBudget goal.now.asked.budget }
    requires alike { AlikeTo goal.now given.now }
    ensures { IfOk result (λ search. SearchFinds goal.now given.now tries search) }
{
    let mut search = begin(alloc, goal, given, tries)?;
    halve(&mut search, alloc, goal)?;
    search.settle(alloc, goal)?;
    gather(&mut search, alloc, goal)?;
    thin(&mut search, alloc, goal)?;
    search.settle(alloc, goal)?;
    Ok(search)
}

/// A schedule of the program that ends as the given one does: it can be followed from the start, it is not longer than the given one, and
/// no single item, and no single thread's items from some point on, can be left out of it, unless all tries were used. A try is a replay of
/// a schedule that is not longer than the shortest so far; the given one is replayed once more at first. Turns of one thread are put
/// together where that makes no difference to how the run ends. Where it is to stop, it breaks what the given one breaks where that stops, and the
/// items behind that are left out from the beginning.
///
/// It makes at most `tries` + 1 replays (twice as many where threads end at faults; and three more where it is to stop), and takes memory for a
/// replay and two schedules.
///
/// # Errors
/// The first of the given items that is not allowed where it stands; that it is to stop, and does not; or out of memory.
pub fn shrink(
    alloc: Global,
    program: &Prog,
    asked: Asked<'_>,
    items: &[Item],
) -> Result<Shrunk, ShrinkFault>
    requires { IsBudget asked.budget }
    ensures ok { IfOk result (λ found. IsShrunk program.now asked.entry items.now found) }
    ensures err { IfErr result (λ why. IsNotGiven program.now asked.entry items.now why) }
{
    let count = count_given(alloc, program, &asked, items)?;
    let given = &items[..count];
    let details = end_details(alloc, program, &asked, given)?;
    let goal = Goal {
        program,
        asked,
        details: details.as_slice(),
    };
    let search = find(alloc, &goal, given, asked.tries)?;
    Ok(shrunk_by(search, asked.tries))
}
