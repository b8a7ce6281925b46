//! Parenthesized text: a reader whose result for every byte string is exact, and a printer whose text is read back.
#![tactic(auto)]

mod fault;
pub mod law;
mod line;
mod nest;
mod number;
mod printer;
mod reader;
mod sexpr;
mod word;

pub use fault::{FaultKind, TextFault};
pub use line::Lines;
pub use number::{number_from, tick_from};
pub use printer::print;
pub use reader::read;
pub use sexpr::{Name, Sexpr, Shape, Span};
