//! A shorter schedule of a program that ends alike.

mod counts;
mod cut;
mod fault;
mod gather;
mod replay;
mod search;
mod shrunk;

pub use counts::{Counts, ShrunkTold, counts_of, push_counts, tell_shrunk, write_shrunk};
pub use fault::ShrinkFault;
pub use replay::Asked;
pub use shrunk::{Shrunk, shrink};
