//! A complete search over all schedules of a system of threads, and the laws by which it is complete.

mod found;
pub mod law;
mod system;
mod unending;

pub use found::{Found, all_ends, all_states, ends_of, reach, schedule_to};
pub use system::{Gap, System};
pub use unending::cut_off;
