//! A picture of a schedule: a sequence chart, as one SVG file.
#![tactic(auto)]

mod fault;
mod layout;
mod sheet;
mod svg;
mod whole;
mod words;

pub use fault::DrawFault;
pub use layout::{Link, Mark, Shape};
pub use sheet::{Fed, Held, Left, Sheet, Sign, Stack, sheet_of};
pub use svg::chart_of;
pub use whole::{draw, picture_of};
