//! What happened in a run, item by item; and why an item can't happen.

mod commit;
mod commit_words;
mod deed;
mod fault;
mod line;
mod narrator;
mod plan;
mod tell;
mod turn_words;
mod why;
mod why_words;

pub use commit::{given_value, handed_value, leaves_of, taken_at};
pub use commit_words::push_more_nacks;
pub use deed::{Came, Deed, Happened, Met, Party, Took, Turned};
pub use line::push_happened;
pub use narrator::Narrator;
pub use why::{ThreadState, Why, first_running, next_tick, why_not};
pub use why_words::push_why;
