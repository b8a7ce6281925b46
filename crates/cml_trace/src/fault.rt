//! How a trace ends, and why it is not answered to its end.

use cml_stream::input_output::{ReadFault, WriteFault};
use std::alloc::AllocError;
use thiserror::Error;

/// How a trace ended.
#[derive(Clone, Copy, PartialEq, Eq)]
pub enum TraceEnd {
    /// Every line was answered.
    Done,
    /// The line of this number, from 1, is bad.
    Bad(u64),
    /// It has more than 1,048,576 bytes, and nothing of it was done.
    TooLong,
}

/// Why a trace was not answered to its end.
#[derive(Clone, Copy, Debug, PartialEq, Eq, Error)]
pub enum TraceFault {
    /// A read failed.
    #[error("cannot read input")]
    Read,
    /// The input did not end in 2,097,152 reads.
    #[error("the input does not end")]
    Turns,
    /// A write failed, or took nothing.
    #[error("cannot write output")]
    Write,
    /// Out of memory.
    #[error("out of memory")]
    Memory,
}

impl From<AllocError> for TraceFault {
    ghost use Rattle.std.specs.Prelude.{◌≡◌};
    ghost use Rattle.cml_trace.specs.declared.fault.TraceFault.TheVariants.{Memory};

    ghost from_gives = { λ _ e. e ≡ Memory };

    fn from(_error: AllocError) -> TraceFault {
        TraceFault::Memory
    }
}

impl From<ReadFault> for TraceFault {
    ghost use Rattle.std.specs.Prelude.{◌≡◌};
    ghost use Rattle.cml_trace.specs.Faults.{read_fault};

    ghost from_gives = { λ fault e. e ≡ read_fault fault };

    fn from(fault: ReadFault) -> TraceFault {
        match fault {
            ReadFault::Read => TraceFault::Read,
            ReadFault::Turns => TraceFault::Turns,
            ReadFault::Memory => TraceFault::Memory,
        }
    }
}

impl From<WriteFault> for TraceFault {
    ghost use Rattle.std.specs.Prelude.{◌≡◌};
    ghost use Rattle.cml_trace.specs.declared.fault.TraceFault.TheVariants.{Write};

    ghost from_gives = { λ _ e. e ≡ Write };

    fn from(_error: WriteFault) -> TraceFault {
        TraceFault::Write
    }
}
