//! The program: what the arguments of its command line ask for, over any input, output and store.
#![tactic(auto)]

mod broken;
mod close;
mod command;
mod draw;
mod explain;
mod explore;
mod file;
mod item;
pub mod law;
mod opening;
mod order;
mod outcomes;
mod output;
mod picture;
mod reason;
mod refusal;
mod replay;
mod reply;
mod reports;
mod run;
mod script;
mod servers;
mod shrink;
mod source;
mod step;
mod store;
mod tell;
mod trace;
mod verify;
mod wanted;
mod workers;

pub use command::{run_command, run_command_counted};
pub use file::{load_from, save_to};
pub use output::say;
pub use reason::Reason;
pub use store::{Store, StoreFault};
pub use workers::Open;
