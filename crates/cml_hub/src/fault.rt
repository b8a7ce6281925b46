//! How a run stands, and why a call of the hub is refused.

use cml_check::Prog;
use cml_step::{Machine, Ran};
use std::fmt;
use thiserror::Error;

/// How a run stands.
#[derive(Clone, Copy, Debug, PartialEq, Eq)]
pub enum End {
    /// Nothing is left to do: no thread runs, no row can be taken, and no alarm is to come. Threads may still wait.
    Quiet,
    /// The budget is used.
    Budget,
    /// Neither.
    Partial,
}

/// What there is to do.
#[derive(Drop)]
pub enum Next {
    /// A slice of this thread.
    Job(Machine),
    /// Nothing, until a slice that is out comes back.
    Wait,
    /// Nothing more: the run has ended.
    Ended,
}

/// Why a slice is not taken. It hands the slice back.
#[derive(Drop, Error)]
pub enum GiveFault {
    /// It is of another program, or no running thread has the machine with which it began.
    #[error("the slice is of another program or of an older machine")]
    Stranger(Ran),
    /// Out of memory.
    #[error("out of memory")]
    Memory(Ran),
}

// The slice itself is not shown.
impl fmt::Debug for GiveFault {
    fn fmt<W: fmt::Write>(&self, f: &mut fmt::Formatter<W>) -> fmt::Result {
        write!(f, "{self}")
    }
}

/// Why a schedule is not replayed. It hands the program back.
#[derive(Drop, Error)]
pub enum ReplayFault {
    /// The item of this number, counted from 1, is not allowed where it stands.
    #[error("item {0} is not allowed where it stands")]
    BadItem(usize, Prog),
    /// Out of memory.
    #[error("out of memory")]
    Memory(Prog),
}

// The program itself is not shown.
impl fmt::Debug for ReplayFault {
    fn fmt<W: fmt::Write>(&self, f: &mut fmt::Formatter<W>) -> fmt::Result {
        write!(f, "{self}")
    }
}
