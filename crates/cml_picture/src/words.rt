//! The marks of a picture, with their words.

mod label;
mod link;
mod mark;

pub(crate) use label::Speaker;
pub(crate) use link::links_of;
