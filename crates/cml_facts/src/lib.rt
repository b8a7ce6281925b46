//! What is told of a run, as values, and the words for them: how it ended, where and why its threads ended at faults, and what happened, item by item.
#![tactic(auto)]

pub mod ending;
pub mod fault;
pub mod narrative;
