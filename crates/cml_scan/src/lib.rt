//! The world of a Concurrent ML program, the communications that are possible in it, and what a table of them promises.
#![tactic(auto)]

pub mod law;
mod looks;
mod meet;
mod object;
mod offer;
mod plain;
mod table;
mod world;

pub use looks::light;
pub use meet::{Meet, Place};
pub use object::Light;
pub use offer::{Offer, leaf_bases, offers, push_offers};
pub use plain::{Lights, rows, scan};
pub use table::Table;
pub use world::{NackState, ThreadState, World};
