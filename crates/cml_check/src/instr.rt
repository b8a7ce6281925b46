//! Instructions: the statements of a function, laid flat.

use crate::syntax::{Effect, Expr, Source};

/// An instruction: one statement, and the places where its function goes on after it. A place is the number of an instruction.
#[derive(Drop)]
pub enum Instr {
    /// The slot, what it is given, and the place after it.
    Let(usize, Source, usize),
    /// The slot, the expression, and the place after it.
    Set(usize, Expr, usize),
    /// The effect, and the place after it.
    Do(Effect, usize),
    /// The test, the place where it holds, and the place where it does not.
    If(Expr, usize, usize),
    /// The test, the place of the loop's statements, and the place after the loop.
    While(Expr, usize, usize),
    Return(Expr),
}
