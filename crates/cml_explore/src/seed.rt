//! The run of a program that a seed makes.

pub mod law;
mod lot;
mod order;
mod priority;
mod run;

pub use order::Order;
pub use run::seed_run;
