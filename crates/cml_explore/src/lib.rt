//! Many runs of one program, in classes of those that ended alike.
#![tactic(auto)]

mod answer;
mod below;
mod classes;
mod ends;
mod excuse;
mod explored;
mod fault_told;
mod finish;
pub mod law;
mod orders;
mod outcome;
mod rank;
pub mod seed;
mod share;
pub mod shrink;
mod sight;
mod stop;
mod stop_words;
mod summary;
mod tell;
mod told;
mod words;

pub use crate::seed::Order;
pub use answer::explain_runs;
pub use classes::{Class, Classes};
pub use ends::{EndTold, EndsTold, gather_ends, tell_ends};
pub use explored::{Asked, Explored, Until, explore, first_output};
pub use fault_told::{FaultTold, tell_faults};
pub use orders::Orders;
pub use outcome::{Outcome, ThreadEnd, outcome_by};
pub use summary::Summary;
pub use tell::tell_runs;
pub use told::{BreakTold, ClassTold, RunTold, RunsTold, Stopped, ThreadLeft, ThreadState};
pub use words::{write_ends, write_faulted, write_runs};
