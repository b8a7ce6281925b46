//! Every schedule of a program: which ends and outputs there are, and a shortest schedule to each.
#![tactic(auto)]

mod allowed;
mod digest;
mod ends;
mod every;
mod faults;
mod kept;
mod placed;
mod read;
mod same;
mod schedules;
pub mod search;

pub use crate::search::Gap;
pub use every::{Verdict, outcomes, verify};
