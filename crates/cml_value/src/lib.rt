//! The values, functions, events and forced groups of Concurrent ML.
//!
//! All of them are immutable. What may be large is shared, so a copy adds one owner, and goes through no parts.
#![tactic(auto)]

mod group;
mod number;
mod size;
mod value;

pub use group::{Group, GroupKind};
pub use number::{ChanId, IVarId, MVarId, MboxId, McastId, NackId, PortId, SwapId, Tid};
pub use value::limits::{MAX_DEPTH, MAX_NODES};
pub use value::{Base, BaseKind, Both, Event, EventKind, FnRef, Value, ValueKind};
