//! The hub of a script's threads: it runs them, keeps the schedule of what happened, and replays one.
#![tactic(auto)]

mod choose;
mod course;
mod deeds;
mod done;
mod fault;
mod hub;
pub mod law;
mod perform;
mod pick;
mod ready_queue;
mod settle;
mod trail;
mod turn;

pub use choose::{Chooser, First, Script, Seeded};
pub use cml_schedule::{Item, Plan, ScheduleFault, read_schedule};
pub use fault::{End, GiveFault, Next, ReplayFault};
pub use hub::{Hub, matches_program};
