//! Concurrent ML's rules for one synchronization, and laws that rows and commits are exactly these.
#![tactic(auto)]

pub mod law;
