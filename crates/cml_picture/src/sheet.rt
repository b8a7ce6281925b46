//! What a picture shows: what the items did, and where the lines of threads begin and end, as values.

mod feed;
mod flags;
mod hold;
mod left;
mod made;
mod shown;
mod sign;
mod stack;
mod stacking;

pub use feed::Fed;
pub(crate) use feed::store_asked;
pub use hold::Held;
pub use left::Left;
pub use made::{Sheet, sheet_of};
pub use sign::Sign;
pub(crate) use sign::signs_of;
pub use stack::Stack;
