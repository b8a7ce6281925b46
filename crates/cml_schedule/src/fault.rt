//! Why a text is no schedule.

use std::alloc::AllocError;
use thiserror::Error;

/// Why a text is not read as a schedule.
#[derive(Clone, Copy, Debug, PartialEq, Eq, Error)]
pub enum ScheduleFault {
    /// The line of this number, from 1, does not fit; where `end` is missing, the number is one more than the lines there are.
    #[error("schedule line {0}")]
    Line(u64),
    /// The text has more than 67,108,864 bytes.
    #[error("schedule too long")]
    TooLong,
    /// Out of memory.
    #[error("out of memory")]
    Memory,
}

impl From<AllocError> for ScheduleFault {
    ghost use Rattle.std.specs.Prelude.{◌≡◌};
    ghost use Rattle.cml_schedule.specs.declared.fault.ScheduleFault.TheVariants.{Memory};

    ghost from_gives = { λ _ e. e ≡ Memory };

    fn from(_error: AllocError) -> ScheduleFault {
        ScheduleFault::Memory
    }
}
