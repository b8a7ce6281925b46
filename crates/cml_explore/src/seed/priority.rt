//! Runs in which priorities say what happens next.

ghost use Rattle.std.specs.Prelude.{◌≡◌, ◌≤◌, ◌<◌, ◌+◌, ◌-◌, ◌^◌, ◌==◌, length, Some, OnOk, IfOk, position};
ghost use Rattle.cml_hub.specs.{Choices.{seeded}, Kept.{NoneOut}};
ghost use Rattle.cml_explore.specs.{Draws.{GoesDrawn, RunsDrawn}, Lots.{ready_from}, Priorities.{by_priority}};
ghost use Rattle.cml_explore.specs.Priorities as spec;

use crate::seed::lot::{alarm_item, is_over, ready_threads, row_choices, row_item_by_lot};
use cml_hub::{Chooser, Hub, Item, Seeded};
use cml_value::Tid;
use std::alloc::{AllocError, Global};
use std::marker::Model;

// How many numbers a word of the generator may be.
const WORDS: usize = 1 << 32;

// Draws numbers behind these, until they are so many.
fn draw(
    numbers: &mut Vec<u64>,
    chooser: &mut Seeded,
    above: u64,
    span: usize,
    count: usize,
) -> Result<(), AllocError>
    requires some { 0 < span }
    requires room { above + span ≤ 2 ^ 64 }
    ensures numbers { OnOk result (numbers.new.items
        ≡ (spec.numbers_drawn above span (count - length numbers.old.items) (record { numbers = numbers.old.items; state = chooser.old })).numbers) }
    ensures state { OnOk result (chooser.new
        ≡ (spec.numbers_drawn above span (count - length numbers.old.items) (record { numbers = numbers.old.items; state = chooser.old })).state) }
{
    'drawing: while numbers.len() < count {
        let number = above + chooser.pick(span) as u64;
        numbers.push(number)?;
    }
    Ok(())
}

// The party of a thread; where there is none, that of the rows.
fn party_of(thread: Option<Tid>) -> usize
    ensures { result ≡ spec.party_of thread }
{
    match thread {
        None => 0,
        Some(thread) => thread.0 as usize + 1,
    }
}

// The item of the one that acts: the turn of this thread; or a row, which is picked; or the time moves.
fn item_of_actor(hub: &Hub, thread: Option<Tid>, chooser: &mut Seeded) -> Option<Item>
    ensures item { result ≡ (spec.item_of_actor hub.now.course.world chooser.old thread).0 }
    ensures state { chooser.new ≡ (spec.item_of_actor hub.now.course.world chooser.old thread).1 }
{
    match thread {
        Some(thread) => Some(Item::Turn(thread)),
        None => {
            if row_choices(hub) == 0 {
                alarm_item(hub)
            } else {
                row_item_by_lot(hub, chooser)
            }
        }
    }
}

/// What draws a run by priorities.
#[derive(Drop)]
pub(crate) struct Priorities {
    depth: u32,
    points: Vec<u64>,
    priorities: Vec<u64>,
    chooser: Seeded,
}

impl Model for Priorities {
    ghost use Rattle.cml_explore.specs.Priorities.{PlainPriorities};

    ghost Value = { PlainPriorities };

    ghost view = { λ g. record { depth = g.depth; points = g.points.items; priorities = g.priorities.items; state = g.chooser } };
}

impl Priorities {
    /// Those of a run by this seed, at its beginning.
    ///
    /// # Errors
    /// Out of memory.
    pub(crate) fn new(
        alloc: Global,
        depth: u32,
        span: usize,
        seed: u64,
    ) -> Result<Priorities, AllocError>
        requires { 0 < span }
        ensures { IfOk result (λ g. g ≡ spec.begun_priorities depth span (seeded seed)) }
    {
        let mut chooser = Seeded::new(seed);
        let mut points = Vec::new(alloc);
        let count = depth.saturating_sub(1) as usize;
        draw(&mut points, &mut chooser, 0, span, count)?;
        Ok(Priorities {
            depth,
            points,
            priorities: Vec::new(alloc),
            chooser,
        })
    }

    // So many parties have begun.
    fn begin_all(&mut self, parties: usize) -> Result<(), AllocError>
        ensures { OnOk result (self.new ≡ spec.all_begun parties self.old) }
    {
        let above = u64::from(self.depth);
        draw(
            &mut self.priorities,
            &mut self.chooser,
            above,
            WORDS,
            parties,
        )
    }

    // The priority of a party.
    fn priority(&self, party: usize) -> u64
        ensures { result ≡ spec.priority_of self.now party }
    {
        match self.priorities.get(party) {
            Some(priority) => *priority,
            None => 0,
        }
    }

    // Of two threads the one whose priority is higher; the first, where they are equal.
    fn higher(&self, thread: Tid, other: Option<Tid>) -> Tid
        ensures { result ≡ spec.higher self.now thread other }
    {
        match other {
            None => thread,
            Some(other) => {
                if self.priority(party_of(Some(thread))) < self.priority(party_of(Some(other))) {
                    other
                } else {
                    thread
                }
            }
        }
    }

    // Of these threads the one whose priority is highest.
    fn highest(&self, threads: &[Tid]) -> Option<Tid>
        ensures { result ≡ spec.highest self.now threads.now }
    {
        let mut best = None;
        let mut left = threads.len();
        'threads: while left > 0 {
            left -= 1;
            best = Some(self.higher(threads[left], best));
        }
        best
    }

    // Whether a row comes before the turn of this thread.
    fn row_is_first(&self, hub: &Hub, thread: Tid) -> bool
        ensures { result ≡ spec.row_is_first hub.now.course.world self.now thread }
    {
        row_choices(hub) != 0 && self.priority(party_of(Some(thread))) < self.priority(0)
    }

    // Who acts, where this thread has the highest priority of those that run.
    fn actor(&self, hub: &Hub, highest: Option<Tid>) -> Option<Tid>
        ensures { result ≡ spec.actor hub.now.course.world self.now highest }
    {
        match highest {
            None => None,
            Some(thread) => {
                if self.row_is_first(hub, thread) {
                    None
                } else {
                    Some(thread)
                }
            }
        }
    }

    // The first of the points that is this item.
    fn point(&self, item: u64) -> Option<usize>
        ensures { result ≡ position (λ p. p == item) self.now.points }
    {
        self.points.iter().position(|p| *p == item)
    }

    // The priority of this party becomes this number.
    fn change(&mut self, party: usize, number: u64)
        ensures { self.new ≡ spec.with_priority self.old party (Some number) }
    {
        if party < self.priorities.len() {
            self.priorities[party] = number;
        }
    }

    // The party has acted by this item: its priority changes, if the item is a point.
    fn lower(&mut self, party: usize, item: u64)
        ensures { self.new ≡ spec.lowered self.old party item }
    {
        if let Some(number) = self.point(item) {
            self.change(party, number as u64);
        }
    }

    // The item of the one that acts; its priority changes, if the item is a point.
    fn act(&mut self, hub: &Hub, thread: Option<Tid>) -> Option<Item>
        ensures item { result ≡ (spec.acted (length hub.now.course.items) hub.now.course.world self.old thread).0 }
        ensures state { self.new ≡ (spec.acted (length hub.now.course.items) hub.now.course.world self.old thread).1 }
    {
        let item = item_of_actor(hub, thread, &mut self.chooser);
        let items = hub.schedule().len() as u64;
        self.lower(party_of(thread), items);
        item
    }

    // The item that comes next, where all that have begun have their priorities, and these threads run.
    fn next_item(&mut self, hub: &Hub, ready: &[Tid]) -> Option<Item>
        requires { ready.now ≡ ready_from 0 hub.now.course.world.threads }
        ensures item { result ≡ (spec.next_of_begun (length hub.now.course.items) hub.now.course.world self.old).0 }
        ensures state { self.new ≡ (spec.next_of_begun (length hub.now.course.items) hub.now.course.world self.old).1 }
    {
        let highest = self.highest(ready);
        let thread = self.actor(hub, highest);
        self.act(hub, thread)
    }
}

// One item more, as the priorities say.
fn go(alloc: Global, hub: &mut Hub, priorities: &mut Priorities) -> Result<(), AllocError>
    requires { NoneOut hub.old }
    ensures ok { OnOk result (GoesDrawn by_priority hub.old priorities.old hub.new priorities.new) }
    ensures none_out { NoneOut hub.new }
{
    let ready = ready_threads(alloc, hub)?;
    priorities.begin_all(hub.book().next_thread().0 as usize + 1)?;
    match priorities.next_item(hub, ready.as_slice()) {
        Some(item) => {
            let _came = hub.follow(alloc, item)?;
            Ok(())
        }
        None => Ok(()),
    }
}

/// The hub runs to its end: priorities say which item comes next.
///
/// # Errors
/// Out of memory.
pub(crate) fn run_by_priority(
    alloc: Global,
    hub: &mut Hub,
    priorities: &mut Priorities,
) -> Result<(), AllocError>
    requires { NoneOut hub.old }
    ensures { OnOk result (RunsDrawn by_priority hub.old priorities.old hub.new priorities.new) }
{
    // Each item uses at least 1 of the budget, so `left` ends no run before `is_over` does; by it the prover sees that the loop ends.
    let mut left = hub.budget();
    'items: while left > 0 {
        if is_over(hub) {
            return Ok(());
        }
        go(alloc, hub, priorities)?;
        left -= 1;
    }
    Ok(())
}
