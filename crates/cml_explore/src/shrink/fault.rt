//! Why a schedule is not made shorter.

use std::alloc::AllocError;
use thiserror::Error;

/// Why a schedule is not made shorter.
#[derive(Clone, Copy, Debug, PartialEq, Eq, Error)]
pub enum ShrinkFault {
    /// The item of this number, counted from 1, is not allowed where it stands.
    #[error("item {0} is not allowed where it stands")]
    BadItem(usize),
    /// The schedule is to end where its run breaks what must hold, and at no item it does.
    #[error("nothing breaks before its end")]
    NoBreak,
    /// Out of memory.
    #[error("out of memory")]
    Memory,
}

impl From<AllocError> for ShrinkFault {
    ghost use Rattle.std.specs.Prelude.{◌≡◌};
    ghost use Rattle.cml_explore.specs.declared.shrink.fault.ShrinkFault.TheVariants.{Memory};

    ghost from_gives = { λ _ e. e ≡ Memory };

    fn from(_error: AllocError) -> ShrinkFault {
        ShrinkFault::Memory
    }
}
