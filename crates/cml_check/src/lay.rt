//! Statements laid flat.

ghost use Rattle.std.specs.Prelude.{◌≡◌, ◌+◌, [], ◌∷◌, ◌++◌, drop, length, map, IfOk};
ghost use Rattle.cml_check.specs.{Sizes.{stmt_count, stmts_count}, Syntax.{stmts}, Layout.{stmt_code, stmts_code, code_of}, InstrViews.{plain_instr}, StmtViews.{plain_effect, plain_source}};
ghost use Rattle.cml_check.specs.Layout as layout;

use crate::instr::Instr;
use crate::syntax::{Block, Effect, Expr, Source, Stmt, StmtKind};
use std::alloc::{AllocError, Global};

// The sum of two places. No text has as many statements as there are places, so it is always one.
fn sum(a: usize, b: usize) -> Result<usize, AllocError>
    ensures { IfOk result (λ n. n ≡ a + b) }
{
    a.checked_add(b).ok_or(AllocError)
}

impl Stmt {
    // How many statements this is, with those of its branches.
    #[cycle(count)]
    fn count(&self) -> Result<usize, AllocError>
        ensures { IfOk result (λ n. n ≡ stmt_count self.now) }
    {
        match &self.kind {
            StmtKind::If(_, yes, no) => sum(sum(yes.count()?, no.count()?)?, 1),
            StmtKind::While(_, body) => sum(body.count()?, 1),
            StmtKind::Let(_, _) | StmtKind::Set(_, _) | StmtKind::Do(_) | StmtKind::Return(_) => {
                Ok(1)
            }
        }
    }
}

impl Block {
    // How many statements these are, with those of their branches.
    #[cycle(count)]
    #[tactic(auto, using(crate::proofs::Laid::counted_next, crate::proofs::Laid::counted_all))]
    fn count(&self) -> Result<usize, AllocError>
        ensures { IfOk result (λ n. n ≡ stmts_count self.now) }
    {
        let mut count = 0;
        for stmt in &self.items {
            count = sum(count, stmt.count()?)?;
        }
        Ok(count)
    }
}

// Where the statements from this one on begin, if they are laid from `base` on and the place after them is `next`.
#[tactic(auto, using(crate::proofs::Laid::entry_some, crate::proofs::Laid::entry_none))]
fn start(base: usize, statements: &[Stmt], at: usize, next: usize) -> usize
    ensures { result ≡ layout.entry base (stmts (drop at statements.now)) next }
{
    if at < statements.len() { base } else { next }
}

// The same of a block.
fn entry(base: usize, block: &Block, next: usize) -> usize
    ensures { result ≡ layout.entry base block.now next }
{
    start(base, block.items.as_slice(), 0, next)
}

// Lays the statements behind the code; the place after them is `next`.
#[cycle(lay)]
#[tactic(auto, using(crate::proofs::Laid::laid_next, crate::proofs::Laid::laid_all))]
fn lay_block(
    alloc: Global,
    code: &mut Vec<Instr>,
    block: &Block,
    next: usize,
) -> Result<(), AllocError>
    ensures { IfOk result (λ _. map plain_instr code.new.items
        ≡ map plain_instr code.old.items
        ++ stmts_code (length code.old.items) block.now next) }
{
    for at in 0..block.items.len() {
        let stmt = &block.items[at];
        let end = sum(code.len(), stmt.count()?)?;
        let after = start(end, block.items.as_slice(), at + 1, next);
        lay_stmt(alloc, code, stmt, after)?;
    }
    Ok(())
}

// Lays a `let` of a slot behind the code.
#[tactic(auto, using(crate::proofs::Laid::laid_one))]
fn lay_let(
    alloc: Global,
    code: &mut Vec<Instr>,
    slot: usize,
    source: &Source,
    next: usize,
) -> Result<(), AllocError>
    ensures { IfOk result (λ _. map plain_instr code.new.items
        ≡ map plain_instr code.old.items ++ layout.let_then slot (plain_source source.now) next ∷ []) }
{
    code.push(Instr::Let(slot, source.copy(alloc)?, next))?;
    Ok(())
}

// Lays a new value for a slot behind the code.
#[tactic(auto, using(crate::proofs::Laid::laid_one))]
fn lay_set(
    alloc: Global,
    code: &mut Vec<Instr>,
    slot: usize,
    e: &Expr,
    next: usize,
) -> Result<(), AllocError>
    ensures { IfOk result (λ _. map plain_instr code.new.items
        ≡ map plain_instr code.old.items ++ layout.set_then slot e.now next ∷ []) }
{
    code.push(Instr::Set(slot, e.copy(alloc)?, next))?;
    Ok(())
}

// Lays an effect behind the code.
#[tactic(auto, using(crate::proofs::Laid::laid_one))]
fn lay_do(
    alloc: Global,
    code: &mut Vec<Instr>,
    effect: &Effect,
    next: usize,
) -> Result<(), AllocError>
    ensures { IfOk result (λ _. map plain_instr code.new.items
        ≡ map plain_instr code.old.items ++ layout.do_then (plain_effect effect.now) next ∷ []) }
{
    code.push(Instr::Do(effect.copy(alloc)?, next))?;
    Ok(())
}

// Lays the test of a choice behind the code, not its branches, which are laid after it.
#[tactic(auto, using(crate::proofs::Laid::laid_one))]
fn lay_if(
    alloc: Global,
    code: &mut Vec<Instr>,
    test: &Expr,
    yes: &Block,
    no: &Block,
    next: usize,
) -> Result<(), AllocError>
    ensures { let base = length code.old.items + 1 in
        let on_yes = layout.entry base yes.now next in
        let on_no = layout.entry (base + stmts_count yes.now) no.now next in
        IfOk result (λ _. map plain_instr code.new.items
        ≡ map plain_instr code.old.items ++ layout.if_then test.now on_yes on_no ∷ []) }
{
    let base = code.len() + 1;
    let on_yes = entry(base, yes, next);
    let on_no = entry(sum(base, yes.count()?)?, no, next);
    code.push(Instr::If(test.copy(alloc)?, on_yes, on_no))?;
    Ok(())
}

// Lays the test of a loop behind the code, not its statements, which are laid after it.
#[tactic(auto, using(crate::proofs::Laid::laid_one))]
fn lay_while(
    alloc: Global,
    code: &mut Vec<Instr>,
    test: &Expr,
    body: &Block,
    next: usize,
) -> Result<(), AllocError>
    ensures { let here = length code.old.items in
        let inside = layout.entry (here + 1) body.now here in
        IfOk result (λ _. map plain_instr code.new.items
        ≡ map plain_instr code.old.items ++ layout.while_then test.now inside next ∷ []) }
{
    let here = code.len();
    let inside = entry(here + 1, body, here);
    code.push(Instr::While(test.copy(alloc)?, inside, next))?;
    Ok(())
}

// Lays the end of a function behind the code.
#[tactic(auto, using(crate::proofs::Laid::laid_one))]
fn lay_return(alloc: Global, code: &mut Vec<Instr>, e: &Expr) -> Result<(), AllocError>
    ensures { IfOk result (λ _. map plain_instr code.new.items
        ≡ map plain_instr code.old.items ++ layout.return_then e.now ∷ []) }
{
    code.push(Instr::Return(e.copy(alloc)?))?;
    Ok(())
}

// Lays the statement behind the code; the place after it is `next`.
#[cycle(lay)]
#[tactic(auto, using(crate::proofs::Laid::laid_if, crate::proofs::Laid::laid_while))]
fn lay_stmt(
    alloc: Global,
    code: &mut Vec<Instr>,
    stmt: &Stmt,
    next: usize,
) -> Result<(), AllocError>
    ensures { IfOk result (λ _. map plain_instr code.new.items
        ≡ map plain_instr code.old.items
        ++ stmt_code (length code.old.items) stmt.now next) }
{
    match &stmt.kind {
        StmtKind::Let(slot, source) => lay_let(alloc, code, *slot, source, next),
        StmtKind::Set(slot, e) => lay_set(alloc, code, *slot, e, next),
        StmtKind::Do(effect) => lay_do(alloc, code, effect, next),
        StmtKind::If(test, yes, no) => {
            lay_if(alloc, code, test, yes, no, next)?;
            lay_block(alloc, code, yes, next)?;
            lay_block(alloc, code, no, next)
        }
        StmtKind::While(test, body) => {
            let here = code.len();
            lay_while(alloc, code, test, body, next)?;
            lay_block(alloc, code, body, here)
        }
        StmtKind::Return(e) => lay_return(alloc, code, e),
    }
}

/// The instructions of a body.
pub(crate) fn lay(alloc: Global, body: &Block) -> Result<Vec<Instr>, AllocError>
    ensures { IfOk result (λ code. map plain_instr code.items ≡ code_of body.now) }
{
    let end = body.count()?;
    let mut code = Vec::with_capacity(alloc, end)?;
    lay_block(alloc, &mut code, body, end)?;
    Ok(code)
}
