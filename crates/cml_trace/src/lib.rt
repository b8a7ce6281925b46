//! Traces: lines of commands, and the lines that answer them.
#![tactic(auto)]

mod bad;
mod batch;
mod engine;
mod explained;
mod fault;
mod form;
mod group;
mod keyword;
pub mod law;
mod line;
mod live;
mod missing;
mod order;
mod page;
mod refused;
mod reply;
mod said;
mod why;

pub use engine::{run_trace, run_trace_explained, run_trace_over};
pub use explained::explain_trace;
pub use fault::{TraceEnd, TraceFault};
pub use live::{Begun, MAX_TURNS, Turn, run_live, take_turn};
pub use said::write_told;
pub use why::{Act, Bad, Cause, Kind, Leaf, Stale, StaleNack, Thing, Told, Why};
