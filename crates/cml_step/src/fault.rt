//! What ends a thread.

ghost use Rattle.std.specs.Prelude.{◌≡◌};
ghost use Rattle.cml_step.specs.Faults.{fault_name};
ghost use Rattle.cml_step.specs.declared.fault.Stop.TheVariants as stop;

use std::alloc::{AllocError, AllocFailed};

/// What is wrong with a step of a thread: it ends the thread.
#[derive(Clone, Copy, PartialEq, Eq)]
pub enum Fault {
    /// A value of the wrong kind.
    Kind,
    /// A sum, difference or product outside the numbers of 64 bits.
    Overflow,
    /// A negative number of ticks.
    Range,
    /// A value or an event that nests too deep or has too many nodes.
    Deep,
    /// More entries on the stack than there may be.
    Stack,
    /// A put on an I-variable or an M-variable that is full.
    Put,
    /// A synchronization on too many leaves.
    Leaves,
    /// A tick that is too far away.
    Far,
    /// More threads, objects, nacks or items than there may be.
    Full,
}

impl Fault {
    /// The name that the line of a fault gives it.
    pub fn name(self) -> &'static str
        ensures { result.now ≡ fault_name self }
    {
        match self {
            Fault::Kind => "kind",
            Fault::Overflow => "overflow",
            Fault::Range => "range",
            Fault::Deep => "deep",
            Fault::Stack => "stack",
            Fault::Put => "put",
            Fault::Leaves => "leaves",
            Fault::Far => "far",
            Fault::Full => "full",
        }
    }
}

/// Why a part of a step has no value.
#[derive(Clone, Copy)]
pub enum Stop {
    /// The thread is at fault.
    Fault(Fault),
    /// Memory ran out.
    Memory,
}

impl From<AllocError> for Stop {
    ghost from_gives = { λ _ e. e ≡ stop.Memory };

    fn from(_error: AllocError) -> Stop {
        Stop::Memory
    }
}

impl<T: Drop> From<AllocFailed<T>> for Stop {
    ghost from_gives = { λ _ e. e ≡ stop.Memory };

    fn from(_error: AllocFailed<T>) -> Stop {
        Stop::Memory
    }
}
