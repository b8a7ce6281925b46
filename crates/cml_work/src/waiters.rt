//! Which workers wait, and whether more than one of them is of use.
//!
//! To wake a worker takes a call of the system, and what two workers have under the lock in turn goes to and fro between two processors. Both
//! together cost about as much as a slice of a hundred steps. So where slices are short one worker runs them all, and the others wait.

ghost use Rattle.std.specs.Prelude.{◌≡◌, ◌↔◌, ◌*◌, ◌≤◌, ◌<◌, IsTrue, length};

use cml_schedule::Item;

// Of how many slices the mean is taken, about.
const SPAN: u64 = 16;

// The mean of steps per slice from which on more than one worker is of use.
const LONG: u64 = 128;

// How many steps the slices before the first are taken to have had: as many as there may be.
const FIRST: u64 = 1000;

// How many turns come in the schedule after its first so many items.
pub(crate) fn turns_after(schedule: &[Item], items: usize) -> usize
    ensures { result ≤ length schedule.now }
{
    if schedule.len() < items {
        return 0;
    }
    schedule[items..]
        .iter()
        .filter(|item| matches!(item, Item::Turn(_)))
        .count()
}

// The workers that wait, and how long slices are.
#[derive(Drop)]
pub(crate) struct Waiters {
    // How many workers wait.
    count: u64,
    // The mean of the steps of the last slices and turns, the newest counting most, times SPAN.
    steps: u64,
}

impl Waiters {
    // Nobody waits, and slices are taken to be long.
    pub(crate) fn new() -> Waiters
        ensures count { result.count ≡ 0 }
        ensures steps { result.steps ≡ 16 * 1000 }
    {
        Waiters {
            count: 0,
            steps: SPAN * FIRST,
        }
    }

    // Notes that a worker waits.
    pub(crate) fn wait(&mut self)
        ensures { self.new.steps ≡ self.old.steps }
    {
        self.count = self.count.saturating_add(1);
    }

    // Notes that one has been woken.
    pub(crate) fn wake(&mut self)
        ensures { self.new.steps ≡ self.old.steps }
    {
        self.count = self.count.saturating_sub(1);
    }

    // Notes a slice of so many steps that came back.
    pub(crate) fn measure(&mut self, steps: u32)
        ensures { self.new.count ≡ self.old.count }
    {
        self.steps = (self.steps - self.steps / SPAN).saturating_add(u64::from(steps));
    }

    // Notes turns that were run in place, so many, with so many steps: their mean counts as much as that of all slices before.
    pub(crate) fn measure_turns(&mut self, used: u128, turns: usize)
        ensures { self.new.count ≡ self.old.count }
    {
        if turns == 0 {
            return;
        }
        let mean = (used / turns as u128).min(u128::from(FIRST)) as u64;
        self.steps = (self.steps / 2).saturating_add(SPAN / 2 * mean);
    }

    // Whether slices are so long that more than one worker is of use.
    pub(crate) fn are_wanted(&self) -> bool
        ensures { IsTrue result ↔ (128 * 16 ≤ self.now.steps) }
    {
        LONG * SPAN <= self.steps
    }

    // Whether a worker waits that would be of use.
    pub(crate) fn has_wanted(&self) -> bool
        ensures { IsTrue result ↔ (0 < self.now.count) × (128 * 16 ≤ self.now.steps) }
    {
        self.count > 0 && self.are_wanted()
    }
}
