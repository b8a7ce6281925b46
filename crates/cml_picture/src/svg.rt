//! The text of a picture, as an SVG 1.1 file.

mod content;
mod draw;
mod escape;
mod file;
mod xml;

pub use file::chart_of;
