//! Where scripts and schedules lie.

ghost use Rattle.std.specs.Prelude.{ℕ, List, ◌≡◌, ◌+◌, ◌≤◌, length, IfOk, IfErr, OnOk, OnErr, Option, Some, None};
ghost use Rattle.cml_host.specs.Stores.{Content, IsLoaded, IsSaved, IsUnchanged, MayFail, reason_in};

use crate::reason::Reason;
use std::alloc::Global;
use thiserror::Error;

/// Why a store did not do what was asked.
#[derive(Clone, Copy, Debug, PartialEq, Eq, Error)]
pub enum StoreFault {
    /// It refused: there is no such name, or it can't be read or written. The reason is there where the store knows it.
    #[error("the store refused")]
    Refused(Option<Reason>),
    /// Out of memory.
    #[error("out of memory")]
    Memory,
}

impl StoreFault {
    /// Why it refused, where it knows that.
    pub fn reason(self) -> Option<Reason>
        ensures { result ≡ reason_in self }
    {
        match self {
            StoreFault::Refused(why) => why,
            StoreFault::Memory => None,
        }
    }
}

/// Where scripts and schedules lie, each under its name.
pub trait Store {
    // What lies under a name, where that is known.
    ghost holds: { Self → List ℕ → Content };

    /// The bytes under the name: all of them, or where there are more than the limit, the first of them, one more than the limit. They
    /// are read in at most twice as many reads as the limit, and where that is refused the store may ask once more why. What it holds
    /// stays as it is.
    ///
    /// # Errors
    /// A refusal, also where they do not end in this many reads, or out of memory. Bytes that are known to lie there are not refused.
    fn load(&mut self, alloc: Global, name: &str, limit: usize) -> Result<Vec<u8>, StoreFault>
        ensures bound { IfOk result (λ bs. length bs.items ≤ limit + 1) }
        ensures found { IfOk result (λ bs. IsLoaded (holds self.old name.now) limit bs.items) }
        ensures refused { IfErr result (MayFail (holds self.old name.now)) }
        ensures same { IsUnchanged (holds self.old) (holds self.new) };

    /// Keeps the bytes under the name, in place of what lay there, and touches no other name.
    ///
    /// # Errors
    /// A refusal, or out of memory. What is known to lie under each name then stays the same.
    fn save(&mut self, name: &str, bytes: &[u8]) -> Result<(), StoreFault>
        ensures saved { OnOk result (IsSaved (holds self.old) (holds self.new) name.now bytes.now) }
        ensures same { OnErr result (IsUnchanged (holds self.old) (holds self.new)) };
}
