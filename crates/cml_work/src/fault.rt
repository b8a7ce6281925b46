//! Why a run of workers does not end as it should.

use cml_hub::Hub;
use cml_schedule::Report;
use std::alloc::AllocError;
use std::fmt;
use thiserror::Error;

/// Why the watcher gave up.
#[derive(Clone, Copy, Debug, PartialEq, Eq, Error)]
pub enum WatchFault {
    /// A write failed, or took nothing.
    #[error("a write of the reports failed")]
    Write,
    /// Out of memory.
    #[error("out of memory")]
    Memory,
}

impl From<AllocError> for WatchFault {
    ghost use Rattle.std.specs.Prelude.{◌≡◌};
    ghost use Rattle.cml_work.specs.declared.fault.WatchFault.TheVariants.{Memory};

    ghost from_gives = { λ _ e. e ≡ Memory };

    fn from(_error: AllocError) -> WatchFault {
        WatchFault::Memory
    }
}

/// Why a run of workers fails. Each hands over a hub.
#[derive(Drop, Error)]
pub enum WorkFault {
    /// The number of workers is not 1 to 64. The hub is the one that was handed in.
    #[error("the number of workers is not 1 to 64")]
    Count(Hub),
    /// Out of memory. The hub goes on from the one that was handed in.
    #[error("out of memory")]
    Memory(Hub),
    /// No worker could be started. The hub has the schedule that was handed in. (Where no thread can be started for the watcher, it writes
    /// once the workers have ended, and that is no fault.)
    #[error("no worker could be started")]
    Start(Hub),
    /// A write of the reports failed. The hub goes on from the one that was handed in.
    #[error("a write of the reports failed")]
    Write(Hub),
    /// The hub has run to its end, but the reports that were seen, which are handed over too, are not those of the hub.
    #[error("the reports that were seen are not those of the hub")]
    Foreign(Hub, Vec<Report>),
}

// The hubs themselves are not shown.
impl fmt::Debug for WorkFault {
    fn fmt<W: fmt::Write>(&self, f: &mut fmt::Formatter<W>) -> fmt::Result {
        write!(f, "{self}")
    }
}
