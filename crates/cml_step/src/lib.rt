//! The step machine of scripts: what a thread of a checked program does, step by step, up to the next thing that it asks of the world.
#![tactic(auto)]

mod ask;
mod asking;
mod call;
mod calls;
mod entries;
mod entry;
mod expression;
mod fault;
mod journal;
mod kind;
pub mod law;
mod machine;
mod nack;
mod number;
mod offer;
mod operator;
mod plain;
mod quick;
mod ran;
mod slices;
mod stack;
mod steps;
mod still;
mod sync;
mod undo;

pub use ask::Ask;
pub use call::Call;
pub use entries::Walk;
pub use entry::{Seen, Wraps};
pub use expression::evaluate;
pub use fault::{Fault, Stop};
pub use machine::Machine;
pub use nack::NackRoom;
pub use ran::{Ran, SliceFault, slice};
pub use slices::{Slice, run_slice};
pub use steps::MAX_STEPS;
pub use undo::Undo;
