//! Workers that run the threads of a hub side by side, and the watcher that writes its reports while they do.
#![tactic(auto)]

mod desk;
mod ending;
mod fault;
mod lines;
mod locked;
mod marks;
mod opening;
mod reports;
mod shared;
mod started;
mod waiters;
mod watching;
mod workers;
mod working;

pub use desk::{Desk, Gate};
pub use fault::{WatchFault, WorkFault};
pub use marks::{Board, Mark, new_board};
pub use opening::Opening;
pub use reports::send_reports;
pub use shared::Shared;
pub use watching::watch;
pub use workers::{run_watched, run_workers};
pub use working::worker;
