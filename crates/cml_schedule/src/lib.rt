//! Schedules: the items of a run in their order, as they are kept, written and read; and reports of what there was to see on the way.
#![tactic(auto)]

mod fault;
mod item;
pub mod law;
mod line;
mod read;
mod report;
mod word;
mod write;

pub use fault::ScheduleFault;
pub use item::{Item, Plan};
pub use read::read_schedule;
pub use report::{Report, render};
pub use write::schedule_text;
