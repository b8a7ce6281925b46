//! The book of pending threads: what every command of Concurrent ML does, with a table of what can happen next.
#![tactic(auto)]

mod book;
mod command;
mod counted;
mod entering;
mod feeding;
mod fullness;
mod giving;
mod holding;
pub mod law;
mod lights;
mod marks;
mod nacks;
mod object_calls;
mod object_commands;
mod objects;
mod pending;
mod ports;
mod refusal;
mod run;
mod state;
mod swaps;
mod thread;
mod ticks;
mod walk;

pub use book::{Book, MAX_OBJECTS, MAX_THREADS};
pub use command::{Command, Committed, Reply, Resume, Stopped};
pub use holding::NextObjects;
pub use refusal::{Fault, Refusal, Returned};
