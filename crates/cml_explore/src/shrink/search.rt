//! The search: what may be left out is tried, one after another.

ghost use Rattle.std.specs.Prelude.{◌≡◌, ◌<◌, ◌≤◌, ℕ, true, Some, IfOk, OnOk, ◌==◌, ◌||◌, length, remove, slice_get};
ghost use Rattle.cml_hub.specs.Kept.{IsBudget};
ghost use Rattle.cml_explore.specs.Cuts.{is_in_row, acts_in, without_rest as without_rest_of, IsSelection};
ghost use Rattle.cml_explore.specs.Searching.{AlikeTo, UnlikeTo, NeededBy, MinimalTo, Steps, SearchBegins, Goes, SearchSettles};

use crate::shrink::cut::{without_item, without_rest};
use crate::shrink::replay::{Goal, ends_alike};
use cml_hub::Item;
use cml_scan::Meet;
use cml_value::Tid;
use std::alloc::{AllocError, Global};
use std::marker::Model;

/// A search on its way: the shortest schedule so far, and how many tries are left.
#[derive(Drop)]
pub(crate) struct Search {
    /// The schedule.
    pub(crate) items: Vec<Item>,
    /// How many tries.
    pub(crate) left: u64,
}

impl Model for Search {
    ghost use Rattle.cml_explore.specs.Searching.{PlainSearch};

    ghost Value = { PlainSearch };

    ghost view = { λ s. record { items = s.items.items; left = s.left } };
}

// Whether one of them holds.
fn either(one: bool, other: bool) -> bool
    ensures { result ≡ (one || other) }
{
    one || other
}

/// A search that begins with the given schedule.
///
/// # Errors
/// Out of memory.
pub(crate) fn begin(
    alloc: Global,
    goal: &Goal<'_>,
    given: &[Item],
    tries: u64,
) -> Result<Search, AllocError>
    requires { AlikeTo goal.now given.now }
    ensures { IfOk result (λ search. SearchBegins goal.now given.now tries search) }
{
    Ok(Search {
        items: Vec::from_slice(alloc, given)?,
        left: tries,
    })
}

impl Search {
    // The item of this number.
    fn item_at(&self, number: usize) -> Item
        requires { number < length self.now.items }
        ensures { slice_get self.now.items number ≡ Some result }
    {
        self.items[number]
    }

    /// Tries these items, if a try is left. Where they end alike, they take the place of those that there were. Returns whether they did.
    ///
    /// # Errors
    /// Out of memory.
    pub(crate) fn attempt(
        &mut self,
        alloc: Global,
        goal: &Goal<'_>,
        items: Vec<Item>,
    ) -> Result<bool, AllocError>
        requires budget { IsBudget goal.now.asked.budget }
        requires selects { IsSelection self.old.items items.items }
        ensures { IfOk result (λ came. Steps goal.now (UnlikeTo goal.now items.items) self.old came self.new) }
    {
        if self.left == 0 {
            return Ok(false);
        }
        self.left -= 1;
        let alike = ends_alike(alloc, goal, items.as_slice())?;
        if alike {
            self.items = items;
        }
        Ok(alike)
    }

    /// The same, of items that are tried in place of those of a schedule that ends alike.
    ///
    /// # Errors
    /// Out of memory.
    pub(crate) fn offer(
        &mut self,
        alloc: Global,
        goal: &Goal<'_>,
        items: Vec<Item>,
    ) -> Result<(), AllocError>
        requires budget { IsBudget goal.now.asked.budget }
        requires selects { IsSelection self.old.items items.items }
        requires alike { AlikeTo goal.now self.old.items }
        ensures { OnOk result (Goes goal.now self.old self.new) }
    {
        let _came = self.attempt(alloc, goal, items)?;
        Ok(())
    }

    // Tries to leave out the item of this number.
    fn cut_item(
        &mut self,
        alloc: Global,
        goal: &Goal<'_>,
        number: usize,
    ) -> Result<bool, AllocError>
        requires budget { IsBudget goal.now.asked.budget }
        requires there { number < length self.old.items }
        ensures { IfOk result (λ came. Steps goal.now (UnlikeTo goal.now (remove self.old.items number)) self.old came self.new) }
    {
        let shorter = without_item(alloc, self.items.as_slice(), number)?;
        self.attempt(alloc, goal, shorter)
    }

    // Tries to leave out the thread's items from this number on.
    fn cut_rest(
        &mut self,
        alloc: Global,
        goal: &Goal<'_>,
        number: usize,
        thread: Tid,
    ) -> Result<bool, AllocError>
        requires budget { IsBudget goal.now.asked.budget }
        requires there { number < length self.old.items }
        ensures { IfOk result (λ came. Steps goal.now (UnlikeTo goal.now (without_rest_of self.old.items thread.0 number)) self.old came self.new) }
    {
        let shorter = without_rest(alloc, self.items.as_slice(), thread, number)?;
        self.attempt(alloc, goal, shorter)
    }

    // Tries to leave out the items of one of these two threads from this number on.
    fn cut_either(
        &mut self,
        alloc: Global,
        goal: &Goal<'_>,
        number: usize,
        head: Tid,
        other: Tid,
    ) -> Result<bool, AllocError>
        requires budget { IsBudget goal.now.asked.budget }
        requires there { number < length self.old.items }
        ensures { IfOk result (λ came. Steps goal.now
            ((t : ℕ) → ((head.0 == t) || (other.0 == t)) ≡ true → UnlikeTo goal.now (without_rest_of self.old.items t number)) self.old came self.new) }
    {
        let came = self.cut_rest(alloc, goal, number, head)?;
        if came {
            return Ok(true);
        }
        self.cut_rest(alloc, goal, number, other)
    }

    // Tries to leave out the items of a party to this row from this number on.
    fn cut_parties(
        &mut self,
        alloc: Global,
        goal: &Goal<'_>,
        number: usize,
        row: Meet,
    ) -> Result<bool, AllocError>
        requires budget { IsBudget goal.now.asked.budget }
        requires there { number < length self.old.items }
        ensures { IfOk result (λ came. Steps goal.now
            ((t : ℕ) → is_in_row t row ≡ true → UnlikeTo goal.now (without_rest_of self.old.items t number)) self.old came self.new) }
    {
        match row {
            Meet::Single { tid, .. } => self.cut_rest(alloc, goal, number, tid),
            Meet::Pair { head, other, .. } => self.cut_either(alloc, goal, number, head, other),
        }
    }

    // Tries to leave out the items of a thread that takes part in this item from this number on.
    fn cut_threads(
        &mut self,
        alloc: Global,
        goal: &Goal<'_>,
        number: usize,
        item: Item,
    ) -> Result<bool, AllocError>
        requires budget { IsBudget goal.now.asked.budget }
        requires there { number < length self.old.items }
        ensures { IfOk result (λ came. Steps goal.now
            ((t : ℕ) → acts_in t item ≡ true → UnlikeTo goal.now (without_rest_of self.old.items t number)) self.old came self.new) }
    {
        match item {
            Item::Turn(thread) => self.cut_rest(alloc, goal, number, thread),
            Item::Meet(row) => self.cut_parties(alloc, goal, number, row),
            Item::Exchange(row) => self.cut_parties(alloc, goal, number, row),
            Item::Clock(_) => Ok(false),
        }
    }

    // Tries what may be left out at the item of this number: a thread's items from it on, or it alone.
    fn cut_at(&mut self, alloc: Global, goal: &Goal<'_>, number: usize) -> Result<bool, AllocError>
        requires budget { IsBudget goal.now.asked.budget }
        requires there { number < length self.old.items }
        ensures { IfOk result (λ came. Steps goal.now (NeededBy goal.now self.old.items number) self.old came self.new) }
    {
        let item = self.item_at(number);
        let came = self.cut_threads(alloc, goal, number, item)?;
        if came {
            return Ok(true);
        }
        self.cut_item(alloc, goal, number)
    }

    // The same, if there is an item of this number.
    fn cut_if_there(
        &mut self,
        alloc: Global,
        goal: &Goal<'_>,
        number: usize,
    ) -> Result<bool, AllocError>
        requires { IsBudget goal.now.asked.budget }
        ensures { IfOk result (λ came. Steps goal.now (number < length self.old.items → NeededBy goal.now self.old.items number) self.old came self.new) }
    {
        if number < self.items.len() {
            self.cut_at(alloc, goal, number)
        } else {
            Ok(false)
        }
    }

    // Goes once through the items, from the last to the first, and tries what may be left out at each. Returns whether something was left out.
    fn pass(&mut self, alloc: Global, goal: &Goal<'_>) -> Result<bool, AllocError>
        requires { IsBudget goal.now.asked.budget }
        ensures { IfOk result (λ came. Steps goal.now (MinimalTo goal.now self.old.items) self.old came self.new) }
    {
        let count = self.items.len();
        let mut changed = false;
        for done in 0..count {
            let came = self.cut_if_there(alloc, goal, count - 1 - done)?;
            changed = either(changed, came);
        }
        Ok(changed)
    }

    /// Goes through the items again and again, until no item can be left out by itself, nor a thread's items from some point on, or no try
    /// is left.
    ///
    /// # Errors
    /// Out of memory.
    pub(crate) fn settle(&mut self, alloc: Global, goal: &Goal<'_>) -> Result<(), AllocError>
        requires budget { IsBudget goal.now.asked.budget }
        requires alike { AlikeTo goal.now self.old.items }
        ensures { OnOk result (SearchSettles goal.now self.old self.new) }
    {
        'passes: loop {
            let changed = self.pass(alloc, goal)?;
            if !changed {
                return Ok(());
            }
        }
    }
}
