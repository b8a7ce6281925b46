//! Programs as the checker makes them: where the text has the name of a variable, they have a slot.

ghost use Rattle.std.specs.Prelude.{◌≡◌};

use std::marker::Model;
use std::sync::ArcStr;

/// An expression that is one keyword: a constant.
#[derive(Clone, Copy, PartialEq, Eq)]
pub enum Constant {
    True,
    False,
    Unit,
    /// The event that never happens.
    Never,
}

/// An operation on one value.
#[derive(Clone, Copy, PartialEq, Eq)]
pub enum Unary {
    Not,
    Fst,
    Snd,
    Always,
    Recv,
    IGet,
    MTake,
    MGet,
    MailRecv,
    PortRecv,
    Join,
    At,
    After,
}

/// An operation on two values.
#[derive(Clone, Copy, PartialEq, Eq)]
pub enum Binary {
    Plus,
    Minus,
    Times,
    Less,
    Equal,
    Pair,
    Send,
    Swap,
    MSwap,
}

/// An effect that takes no value.
#[derive(Clone, Copy, PartialEq, Eq)]
pub enum Act {
    Chan,
    SwapChan,
    IVar,
    /// An M-variable that is empty.
    MVar,
    Mailbox,
    Mchan,
    Exit,
    Yield,
    /// The thread itself.
    OwnThread,
    Now,
}

/// An effect that takes one value.
#[derive(Clone, Copy, PartialEq, Eq)]
pub enum ActOnOne {
    Sync,
    /// An M-variable that holds the value.
    MVar,
    Port,
    Copy,
    Print,
}

/// An effect that takes two values.
#[derive(Clone, Copy, PartialEq, Eq)]
pub enum ActOnTwo {
    IPut,
    MPut,
    Mail,
    Multicast,
}

/// What has a value and no effect.
#[cycle(expr)]
#[derive(Drop)]
pub struct Expr {
    pub kind: ExprKind,
}

/// What an expression is. A function stands by its number, a variable by its slot.
#[cycle(expr)]
#[derive(Drop)]
pub enum ExprKind {
    Constant(Constant),
    Number(i64),
    Text(ArcStr),
    Variable(usize),
    Unary(Unary, Box<Expr>),
    Binary(Binary, Box<Expr>, Box<Expr>),
    Choose(Exprs),
    /// The event, the function, and what the function captures.
    Wrap(Box<Expr>, u32, Exprs),
    Guard(u32, Exprs),
    WithNack(u32, Exprs),
}

/// Expressions, one after another.
#[cycle(expr)]
#[derive(Drop)]
pub struct Exprs {
    pub items: Vec<Expr>,
}

/// An effect.
#[derive(Drop)]
pub enum Effect {
    Act(Act),
    ActOnOne(ActOnOne, Expr),
    ActOnTwo(ActOnTwo, Expr, Expr),
    Call(u32, Exprs),
    Spawn(u32, Exprs),
}

/// What a variable is set to: the value of an expression, or what an effect returns.
#[derive(Drop)]
pub enum Source {
    Value(Expr),
    Effect(Effect),
}

/// A statement.
#[cycle(stmt)]
#[derive(Drop)]
pub struct Stmt {
    pub kind: StmtKind,
}

/// What a statement is.
#[cycle(stmt)]
#[derive(Drop)]
pub enum StmtKind {
    Let(usize, Source),
    Set(usize, Expr),
    Do(Effect),
    If(Expr, Block, Block),
    While(Expr, Block),
    Return(Expr),
}

/// Statements, one after another.
#[cycle(stmt)]
#[derive(Drop)]
pub struct Block {
    pub items: Vec<Stmt>,
}

impl Model for Expr {
    ghost use Rattle.std.specs.Prelude.{ℕ};
    ghost use Rattle.cml_check.specs.{Syntax.{PlainExpr, expr_depth}, SyntaxCodes.{expr_code}};

    ghost Value = { PlainExpr ℕ };

    ghost coded = { expr_code };

    ghost use Rattle.cml_check.specs.ExprViews.{plain_expr};

    ghost view = { λ a. plain_expr a.kind };

    ghost size = { expr_depth };

    ghost use Rattle.cml_check.specs.ExprFalls.{deep_le-expr_depth};

    ghost size_decreases = { λ a h. deep_le-expr_depth a.kind };
}

impl Model for Exprs {
    ghost use Rattle.std.specs.Prelude.{ℕ};
    ghost use Rattle.cml_check.specs.{Syntax.{PlainExprs, exprs, exprs_depth}, SyntaxCodes.{exprs_code}};

    ghost Value = { PlainExprs ℕ };

    ghost coded = { exprs_code };

    ghost view = { λ a. exprs a.items.items };

    ghost size = { exprs_depth };

    ghost use Rattle.std.proofs.Common.{arith};
    ghost use Rattle.cml_check.specs.ExprFalls.{most-exprs_depth};

    ghost size_decreases = { λ a h. Prim.omega (arith, most-exprs_depth a.items.items) };
}

impl Model for Stmt {
    ghost use Rattle.std.specs.Prelude.{ℕ};
    ghost use Rattle.cml_check.specs.{Syntax.{PlainStmt, stmt_depth}, SyntaxCodes.{stmt_code}};

    ghost Value = { PlainStmt ℕ };

    ghost coded = { stmt_code };

    ghost use Rattle.cml_check.specs.StmtViews.{plain_stmt};

    ghost view = { λ a. plain_stmt a.kind };

    ghost size = { stmt_depth };

    ghost use Rattle.cml_check.specs.StmtFalls.{deep_le-stmt_depth};

    ghost size_decreases = { λ a h. deep_le-stmt_depth a.kind };
}

impl Model for Block {
    ghost use Rattle.std.specs.Prelude.{ℕ};
    ghost use Rattle.cml_check.specs.{Syntax.{PlainStmts, stmts, stmts_depth}, SyntaxCodes.{stmts_code}};

    ghost Value = { PlainStmts ℕ };

    ghost coded = { stmts_code };

    ghost view = { λ a. stmts a.items.items };

    ghost size = { stmts_depth };

    ghost use Rattle.std.proofs.Common.{arith};
    ghost use Rattle.cml_check.specs.StmtFalls.{most-stmts_depth};

    ghost size_decreases = { λ a h. Prim.omega (arith, most-stmts_depth a.items.items) };
}
