//! What becomes of a thread that has asked.

ghost use Rattle.std.specs.Prelude.{◌≡◌};
ghost use Rattle.cml_hub.specs.Dones.{gone};

use cml_step::{Machine, NackRoom};
use cml_value::{Tid, Value};

// What becomes of a thread that has asked. The memory that it takes is there already.
#[derive(Drop)]
pub(crate) enum Done {
    // It goes on.
    Goes,
    // It gets this, and goes on.
    Gets(Value),
    // It gets a fresh nack, and goes on. The room lies apart, so that what most turns come to is small.
    Takes(Box<NackRoom>),
    // This thread begins. The one that asked gets the new thread as its answer, and goes on.
    Spawns(Box<Machine>),
    // What it prints is printed, and it goes on.
    Prints,
    // It waits.
    Waits,
    // It has ended.
    Ends,
    // It has ended, with a fault of this name.
    Fails(&'static str),
}

// Whether the thread goes on after its turn.
#[derive(Clone, Copy)]
pub(crate) enum AfterTurn {
    // It goes on.
    On,
    // This thread begins, and the one that had the turn goes on.
    With(Tid),
    // It runs no more.
    Off,
}

impl Done {
    // Whether the thread goes on.
    pub(crate) fn gone(&self) -> AfterTurn
        ensures { result ≡ gone self.now }
    {
        match self {
            Done::Spawns(child) => AfterTurn::With(child.thread()),
            Done::Goes | Done::Gets(_) | Done::Takes(_) | Done::Prints => AfterTurn::On,
            Done::Waits | Done::Ends | Done::Fails(_) => AfterTurn::Off,
        }
    }
}

// What is done once memory is there for all of it: what becomes of the thread, and the line for the output.
#[derive(Drop)]
pub(crate) struct Prepared {
    pub(crate) done: Done,
    pub(crate) line: String,
}
