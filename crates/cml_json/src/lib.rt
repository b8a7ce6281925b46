//! What commands tell, as objects of JSON, which programs read.
#![tactic(auto)]

mod event;
mod explored;
mod fault;
mod left;
mod named;
mod run;
mod text;
mod verdict;

pub use explored::explore_json;
pub use text::{array, json_string};
pub use verdict::{Verified, verify_json};
