//! What is told of many runs, as values.

use crate::explored::Until;
use crate::orders::Orders;
use crate::seed::Order;
use cml_facts::ending::{Named, Stands};
use cml_facts::fault::Reason;
use cml_hub::End;
use cml_judge::Break;
use cml_phrase::Place;

/// How a thread is left when a run has ended.
pub enum ThreadState {
    /// It waits or runs.
    Stands(Stands),
    /// It ended at a fault, for this reason.
    AtFault(Reason),
}

// Written out, so that how the parts are dropped is proved once, and whoever drops a state calls this.
impl Drop for ThreadState {
    fn drop(self) {
        match self {
            ThreadState::Stands(stands) => drop(stands),
            ThreadState::AtFault(reason) => drop(reason),
        }
    }
}

/// A thread that is left when a run has ended, or that ended at a fault.
#[derive(Drop)]
pub struct ThreadLeft {
    /// The thread.
    pub thread: Named,
    /// Where it stands in the text, if that is known; at a fault, where it stood before its last step.
    pub place: Option<Place>,
    /// How it is left.
    pub state: ThreadState,
}

/// What is told of one run.
#[derive(Drop)]
pub struct RunTold {
    /// How it ended.
    pub end: End,
    /// How many threads wait.
    pub waits: usize,
    /// How many run.
    pub runs: usize,
    /// How many ended at a fault.
    pub faults: usize,
    /// The threads that are left or ended at a fault, by number.
    pub threads: Vec<ThreadLeft>,
}

/// What is told of a property that a run breaks.
#[derive(Drop)]
pub struct BreakTold {
    /// Which, and where.
    pub one: Break,
    /// The thread by a turn of which it breaks; none, at the end of the run.
    pub who: Option<Named>,
}

/// What is told of a class of runs.
#[derive(Drop)]
pub struct ClassTold {
    /// Its number among the classes.
    pub number: usize,
    /// Whether its first run ended well: nothing was left to do, no thread waits but servers, none ended at a fault, and no property breaks.
    pub well: bool,
    /// The properties that its first run breaks.
    pub breaks: Vec<BreakTold>,
    /// How many runs it has.
    pub runs: u64,
    /// How many different outputs they have.
    pub outputs: usize,
    /// The seed of the first of them.
    pub first: u64,
    /// What decided in the first what happened next.
    pub order: Order,
    /// How many items the schedule of the first has.
    pub items: usize,
    /// The first of them.
    pub run: RunTold,
}

/// A run at which it was to stop.
#[derive(Clone, Copy)]
pub struct Stopped {
    /// Its seed.
    pub seed: u64,
    /// What decided in it what happened next.
    pub order: Order,
    /// Of which kind it is, the first one of those that were said.
    pub kind: Until,
}

/// What is told of many runs.
#[derive(Drop)]
pub struct RunsTold {
    /// How many there are.
    pub runs: u64,
    /// How many were asked for.
    pub asked: u64,
    /// The numbers of the functions of servers.
    pub servers: Vec<u32>,
    /// The kinds of run at which to stop.
    pub until: Vec<Until>,
    /// The last run, if it is one at which to stop.
    pub stop: Option<Stopped>,
    /// The seed of the first.
    pub first: u64,
    /// The seed of the last, where there are more than one.
    pub last: Option<u64>,
    /// What decided in each what happened next.
    pub orders: Orders,
    /// The classes of those that ended alike: those with more runs come first, and of those with as many the one with the lesser first seed.
    pub classes: Vec<ClassTold>,
}
