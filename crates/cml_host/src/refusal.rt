//! Refusals: why a command goes no further.

ghost use Rattle.std.specs.Prelude.{IfErr, IfOk};
ghost use Rattle.cml_host.specs.{Refused.{IsExplained, IsUnread, RefusesAs, TellsUnread, unread_line}, Stores.{IsLoaded, IsUnchanged}};

use crate::reason::{Reason, with_why};
use crate::store::{Store, StoreFault};
use std::alloc::{AllocError, Global};
use thiserror::Error;

/// Why a command goes no further.
#[derive(Debug, Drop, Error)]
pub enum Refusal {
    /// This is for the errors, and this is the status.
    #[error("the file is refused")]
    Told(Vec<u8>, u8),
    /// This line is for the errors, and this is the status.
    #[error("{0}")]
    Line(&'static str, u8),
    /// Out of memory.
    #[error("out of memory")]
    Memory,
}

impl From<AllocError> for Refusal {
    ghost use Rattle.std.specs.Prelude.{◌≡◌};
    ghost use Rattle.cml_host.specs.declared.refusal.Refusal.TheVariants.{Memory};

    ghost from_gives = { λ _ e. e ≡ Memory };

    fn from(_error: AllocError) -> Refusal {
        Refusal::Memory
    }
}

/// The first bytes of what lies under the name, at most one more than the limit.
///
/// # Errors
/// The file can't be read, and why, where that is explained; or out of memory.
pub fn load<S: Store>(
    alloc: Global,
    name: &str,
    explains: bool,
    limit: usize,
    store: &mut S,
) -> Result<Vec<u8>, Refusal>
    ensures ok { IfOk result (λ text. IsLoaded (S.holds store.old name.now) limit text.items) }
    ensures err { IfErr result (RefusesAs (IsUnread explains name.now (S.holds store.old name.now))) }
    ensures same { IsUnchanged (S.holds store.old) (S.holds store.new) }
{
    match store.load(alloc, name, limit) {
        Ok(text) => Ok(text),
        Err(StoreFault::Refused(why)) => Err(unread(alloc, name, explains, why)),
        Err(StoreFault::Memory) => Err(Refusal::Memory),
    }
}

// That the file can't be read, and why, where that is explained.
fn unread(alloc: Global, name: &str, explains: bool, why: Option<Reason>) -> Refusal
    ensures { TellsUnread explains name.now result }
{
    match tell_unread(alloc, name, explains, why) {
        Ok(told) => Refusal::Told(told, 1),
        Err(AllocError) => Refusal::Memory,
    }
}

// What is told of a file that can't be read.
fn tell_unread(
    alloc: Global,
    name: &str,
    explains: bool,
    why: Option<Reason>,
) -> Result<Vec<u8>, AllocError>
    ensures { IfOk result (λ told. IsExplained explains (unread_line name.now) told.items) }
{
    let line = format!(in alloc; "cannot read {name}\n")?;
    with_why(alloc, line.as_bytes(), name, explains, why)
}
