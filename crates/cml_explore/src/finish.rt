//! How one run ended.

ghost use Rattle.std.specs.Prelude.{◌≡◌};
ghost use Rattle.cml_judge.specs.Judgements.{are_all_kept};
ghost use Rattle.sha2.specs.Sha256.{sha256};
ghost use Rattle.cml_explore.specs.Finishes as spec;

use cml_facts::ending::some_held_up;
use cml_hub::{End, Hub};
use cml_judge::are_all_kept;
use sha2::{Digest, Sha256};

/// What is to be told of a run by itself.
#[derive(Clone, Copy)]
pub(crate) struct Fate {
    /// How it ended.
    pub(crate) end: End,
    /// Whether a thread waits that is no server.
    pub(crate) held_up: bool,
    /// How many threads ended at a fault.
    pub(crate) faults: usize,
    /// Whether it keeps all properties that are wanted.
    pub(crate) kept: bool,
}

/// What is to be told of the run of a hub, where the threads that began with these functions are servers, and the properties that are wanted were
/// judged so.
pub(crate) fn fate_of(servers: &[u32], hub: &Hub, judged: &[Option<usize>]) -> Fate
    ensures { result ≡ spec.fate_of servers.now hub.now (are_all_kept judged.now) }
{
    Fate {
        end: hub.end(),
        held_up: some_held_up(servers, hub),
        faults: hub.faults(),
        kept: are_all_kept(judged),
    }
}

/// The digest of what a run printed.
pub(crate) fn digest_of(hub: &Hub) -> [u8; 32]
    ensures { result ≡ sha256 hub.now.course.output }
{
    Sha256::digest(hub.out().as_bytes())
}
