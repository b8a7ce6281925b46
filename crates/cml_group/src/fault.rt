//! Why a group is not laid flat, and why the answer of a guard's or a withNack's function is refused.

use cml_value::{Event, Group};
use std::fmt;
use thiserror::Error;

/// Why a group is not laid flat. Each hands the group back.
#[derive(Drop, Error)]
pub enum FlatFault {
    /// It has more than [`MAX_LEAVES`](crate::MAX_LEAVES) leaves.
    #[error("the group has more than 256 leaves")]
    Leaves(Group),
    /// It has few enough leaves, and nests too deep or is made of too many nodes.
    #[error("the group nests too deep or has too many nodes")]
    Deep(Group),
    /// Out of memory.
    #[error("out of memory")]
    Memory(Group),
}

// The groups themselves are not shown.
impl fmt::Debug for FlatFault {
    fn fmt<W: fmt::Write>(&self, f: &mut fmt::Formatter<W>) -> fmt::Result {
        write!(f, "{self}")
    }
}

/// Why an answer is not put in. Each hands the answer back.
#[derive(Drop, Error)]
pub enum ForceFault {
    /// The event being forced would nest too deep or have too many nodes, what is still unforced included.
    #[error("the event being forced nests too deep or has too many nodes")]
    Deep(Event),
    /// Out of memory.
    #[error("out of memory")]
    Memory(Event),
}

// The events themselves are not shown.
impl fmt::Debug for ForceFault {
    fn fmt<W: fmt::Write>(&self, f: &mut fmt::Formatter<W>) -> fmt::Result {
        write!(f, "{self}")
    }
}
