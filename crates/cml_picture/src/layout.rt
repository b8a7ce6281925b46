//! Where each mark stands, in numbers.

mod frame;
mod link;
mod mark;

pub(crate) use frame::{Frame, frame_of, level_of, line_from_left, seat_of};
pub use link::Link;
pub(crate) use link::{fed_link, held_link};
pub use mark::{Mark, Shape};
pub(crate) use mark::{row_drop, row_height};
