//! Why a schedule is not drawn.

use std::alloc::AllocError;
use thiserror::Error;

/// Why a schedule is not drawn.
#[derive(Debug, Drop, Error)]
pub enum DrawFault {
    /// The item of this number, counted from 1, can't happen where it stands.
    #[error("item {0} can't happen where it stands")]
    BadItem(usize),
    /// There are more than 2,000 rows.
    #[error("too many items to draw, use --from and --to")]
    TooMany,
    /// Out of memory.
    #[error("out of memory")]
    Memory,
}

impl From<AllocError> for DrawFault {
    ghost use Rattle.std.specs.Prelude.{◌≡◌};
    ghost use Rattle.cml_picture.specs.declared.fault.DrawFault.TheVariants.{Memory};

    ghost from_gives = { λ _ e. e ≡ Memory };

    fn from(_error: AllocError) -> DrawFault {
        DrawFault::Memory
    }
}
