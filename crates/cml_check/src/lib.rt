//! The checker of scripts: a program, in which each function and each variable is given by its position, or the first fault.
#![tactic(auto)]

mod checker;
mod compound;
mod copy;
mod effect;
mod expression;
mod fault;
mod flat;
mod head;
mod instr;
pub mod law;
mod lay;
mod names;
mod parts;
mod program;
mod same;
mod size;
mod statement;
mod syntax;
mod word;

pub use checker::check;
pub use fault::{CheckFault, CheckKind};
pub use flat::{Flat, Offer, Op, Told};
pub use instr::Instr;
pub use program::{Function, Prog};
pub use size::Size;
pub use syntax::{
    Act, ActOnOne, ActOnTwo, Binary, Block, Constant, Effect, Expr, ExprKind, Exprs, Source, Stmt,
    StmtKind, Unary,
};
pub use word::{Tested, Word, word_from};
