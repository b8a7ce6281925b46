//! The statements that forms are.

ghost use Rattle.std.specs.Prelude.{◌≡◌, OnOk};
ghost use Rattle.cml_text.specs.Forms.{plain_forms, span_of};
ghost use Rattle.cml_check.specs.{Checked.{Finds}, Statements.{statement_counted, stmt_in, stmt_by, block_in, behind_do, stmts_in}};
ghost use Rattle.cml_check.specs.Returned.{FindsStmt, FindsStmts, StmtIsInOrder, StmtsAreInOrder};
ghost use Rattle.cml_check.specs.StatementParts.{Grows, let_of, let_in, set_in, if_of, if_in, tested_of, tested_in, return_in, do_in};
ghost use Rattle.cml_check.specs.Statements as spec;

use crate::effect::{effect, source};
use crate::expression::expression;
use crate::fault::{CheckFault, CheckKind, fault_at};
use crate::head::Heads;
use crate::names::{Names, free_name, variable};
use crate::parts::headed;
use crate::syntax::{Block, Expr, Stmt, StmtKind};
use crate::word::{Tested, Word, word_from};
use cml_text::Sexpr;
use std::alloc::Global;

// The most statements of a script.
const STATEMENT_LIMIT: usize = 4096;

/// How far a walk through the statements has come: the names that the function has declared so far, and how many statements the
/// script had so far.
#[derive(Drop)]
pub struct Scope<'a> {
    pub names: Names<'a>,
    pub statements: usize,
}

// The statement that the form is.
#[cycle(statement)]
#[tactic(auto, using(crate::proofs::StatementWalk::headed_stmt, crate::proofs::StatementWalk::no_stmt))]
fn statement<'a>(
    alloc: Global,
    heads: &Heads<'_>,
    scope: &mut Scope<'a>,
    form: &'a Sexpr,
) -> Result<Stmt, CheckFault>
    ensures gives { FindsStmt scope.new result (stmt_in heads.now scope.old form.now) }
    ensures fits { StmtIsInOrder heads.now scope.new result }
    ensures grows { OnOk result (Grows scope.old.names scope.new.names) }
{
    match headed(form) {
        Some((first, behind)) => list_statement(
            alloc,
            heads,
            scope,
            form,
            word_from(first),
            behind,
        ),
        None => Err(fault_at(CheckKind::Form, form)),
    }
}

// The statement of a list, by the keyword at its head and the forms after it.
#[cycle(statement)]
#[tactic(auto, using(crate::proofs::StatementWalk::list_let, crate::proofs::StatementWalk::list_set, crate::proofs::StatementWalk::list_if, crate::proofs::StatementWalk::list_tested, crate::proofs::StatementWalk::list_return))]
fn list_statement<'a>(
    alloc: Global,
    heads: &Heads<'_>,
    scope: &mut Scope<'a>,
    form: &'a Sexpr,
    word: Option<Word>,
    behind: &'a [Sexpr],
) -> Result<Stmt, CheckFault>
    ensures gives { let found = stmt_by heads.now scope.old (span_of form.now) word (plain_forms behind.now) in
        FindsStmt scope.new result found }
    ensures fits { StmtIsInOrder heads.now scope.new result }
    ensures grows { OnOk result (Grows scope.old.names scope.new.names) }
{
    match word {
        Some(Word::Let) => let_statement(alloc, heads, scope, form, behind),
        Some(Word::Set) => set_statement(alloc, heads, scope, form, behind),
        Some(Word::If) => if_statement(alloc, heads, scope, form, behind),
        Some(Word::Tested(word)) => tested_statement(alloc, heads, scope, form, word, behind),
        Some(Word::Return) => return_statement(alloc, heads, scope, form, behind),
        _ => effect_statement(alloc, heads, scope, form, word, behind),
    }
}

// A `let`, which declares its name after what it gives that name.
#[tactic(auto, unfolding(crate::specs::StatementParts::let_in), using(crate::proofs::StatementWalk::no_let))]
fn let_statement<'a>(
    alloc: Global,
    heads: &Heads<'_>,
    scope: &mut Scope<'a>,
    form: &'a Sexpr,
    behind: &'a [Sexpr],
) -> Result<Stmt, CheckFault>
    ensures gives { FindsStmt scope.new result (let_in heads.now scope.old (span_of form.now) (plain_forms behind.now)) }
    ensures fits { StmtIsInOrder heads.now scope.new result }
    ensures grows { OnOk result (Grows scope.old.names scope.new.names) }
{
    let [name, given] = behind else {
        return Err(fault_at(CheckKind::Form, form));
    };
    declare(alloc, heads, scope, name, given)
}

// A `let` of this name, which is given this.
#[tactic(auto, unfolding(crate::specs::StatementParts::let_of))]
fn declare<'a>(
    alloc: Global,
    heads: &Heads<'_>,
    scope: &mut Scope<'a>,
    name: &'a Sexpr,
    given: &'a Sexpr,
) -> Result<Stmt, CheckFault>
    ensures gives { FindsStmt scope.new result (let_of heads.now scope.old name.now given.now) }
    ensures fits { StmtIsInOrder heads.now scope.new result }
    ensures grows { OnOk result (Grows scope.old.names scope.new.names) }
{
    let name = free_name(name)?;
    let given = source(alloc, heads, &scope.names, given)?;
    let slot = scope.names.declare(name)?;
    Ok(Stmt {
        kind: StmtKind::Let(slot, given),
    })
}

// A new value for a variable.
#[tactic(auto, unfolding(crate::specs::StatementParts::set_in), using(crate::proofs::StatementWalk::no_set, std::proofs::lemmas::Bool::and_from, crate::proofs::GrowthLemmas::grows_same))]
fn set_statement<'a>(
    alloc: Global,
    heads: &Heads<'_>,
    scope: &mut Scope<'a>,
    form: &'a Sexpr,
    behind: &'a [Sexpr],
) -> Result<Stmt, CheckFault>
    ensures gives { FindsStmt scope.new result (set_in heads.now scope.old (span_of form.now) (plain_forms behind.now)) }
    ensures fits { StmtIsInOrder heads.now scope.new result }
    ensures grows { OnOk result (Grows scope.old.names scope.new.names) }
{
    let [name, value] = behind else {
        return Err(fault_at(CheckKind::Form, form));
    };
    let slot = variable(&scope.names, name)?;
    let value = expression(alloc, heads, &scope.names, value)?;
    Ok(Stmt {
        kind: StmtKind::Set(slot, value),
    })
}

// One of two branches.
#[cycle(statement)]
#[tactic(auto, unfolding(crate::specs::StatementParts::if_in), using(crate::proofs::StatementWalk::no_if))]
fn if_statement<'a>(
    alloc: Global,
    heads: &Heads<'_>,
    scope: &mut Scope<'a>,
    form: &'a Sexpr,
    behind: &'a [Sexpr],
) -> Result<Stmt, CheckFault>
    ensures gives { FindsStmt scope.new result (if_in heads.now scope.old (span_of form.now) (plain_forms behind.now)) }
    ensures fits { StmtIsInOrder heads.now scope.new result }
    ensures grows { OnOk result (Grows scope.old.names scope.new.names) }
{
    let [condition, then, other] = behind else {
        return Err(fault_at(CheckKind::Form, form));
    };
    branch(alloc, heads, scope, condition, then, other)
}

// The branches of a condition.
#[cycle(statement)]
#[tactic(auto, unfolding(crate::specs::StatementParts::if_of))]
fn branch<'a>(
    alloc: Global,
    heads: &Heads<'_>,
    scope: &mut Scope<'a>,
    condition: &'a Sexpr,
    then: &'a Sexpr,
    other: &'a Sexpr,
) -> Result<Stmt, CheckFault>
    ensures gives { FindsStmt scope.new result (if_of heads.now scope.old condition.now then.now other.now) }
    ensures fits { StmtIsInOrder heads.now scope.new result }
    ensures grows { OnOk result (Grows scope.old.names scope.new.names) }
{
    let condition = expression(alloc, heads, &scope.names, condition)?;
    let then = block(alloc, heads, scope, then)?;
    let other = block(alloc, heads, scope, other)?;
    Ok(Stmt {
        kind: StmtKind::If(condition, then, other),
    })
}

// A statement with a condition and statements, by its keyword.
#[cycle(statement)]
#[tactic(auto, unfolding(crate::specs::StatementParts::tested_in))]
fn tested_statement<'a>(
    alloc: Global,
    heads: &Heads<'_>,
    scope: &mut Scope<'a>,
    form: &'a Sexpr,
    word: Tested,
    behind: &'a [Sexpr],
) -> Result<Stmt, CheckFault>
    ensures gives { let found = tested_in heads.now scope.old (span_of form.now) word (plain_forms behind.now) in
        FindsStmt scope.new result found }
    ensures fits { StmtIsInOrder heads.now scope.new result }
    ensures grows { OnOk result (Grows scope.old.names scope.new.names) }
{
    let [condition, body @ ..] = behind else {
        return Err(fault_at(CheckKind::Form, form));
    };
    tested(alloc, heads, scope, word, condition, body)
}

// The statement of a condition and of statements, by its keyword.
#[cycle(statement)]
#[tactic(auto, unfolding(crate::specs::StatementParts::tested_of))]
fn tested<'a>(
    alloc: Global,
    heads: &Heads<'_>,
    scope: &mut Scope<'a>,
    word: Tested,
    condition: &'a Sexpr,
    body: &'a [Sexpr],
) -> Result<Stmt, CheckFault>
    ensures gives { FindsStmt scope.new result (tested_of heads.now scope.old word condition.now (plain_forms body.now)) }
    ensures fits { StmtIsInOrder heads.now scope.new result }
    ensures grows { OnOk result (Grows scope.old.names scope.new.names) }
{
    let condition = expression(alloc, heads, &scope.names, condition)?;
    let body = statements(alloc, heads, scope, body)?;
    Ok(tested_stmt(word, condition, body))
}

// What this keyword makes of its condition and its statements.
fn tested_stmt(word: Tested, condition: Expr, body: Block) -> Stmt
    ensures { result ≡ spec.tested_stmt word condition body }
{
    let kind = match word {
        Tested::While => StmtKind::While(condition, body),
    };
    Stmt { kind }
}

// The end of a function.
#[tactic(auto, unfolding(crate::specs::StatementParts::return_in), using(crate::proofs::StatementWalk::no_return, crate::proofs::GrowthLemmas::grows_same))]
fn return_statement<'a>(
    alloc: Global,
    heads: &Heads<'_>,
    scope: &mut Scope<'a>,
    form: &'a Sexpr,
    behind: &'a [Sexpr],
) -> Result<Stmt, CheckFault>
    ensures gives { FindsStmt scope.new result (return_in heads.now scope.old (span_of form.now) (plain_forms behind.now)) }
    ensures fits { StmtIsInOrder heads.now scope.new result }
    ensures grows { OnOk result (Grows scope.old.names scope.new.names) }
{
    let [value] = behind else {
        return Err(fault_at(CheckKind::Form, form));
    };
    let value = expression(alloc, heads, &scope.names, value)?;
    Ok(Stmt {
        kind: StmtKind::Return(value),
    })
}

// An effect alone.
#[tactic(auto, unfolding(crate::specs::StatementParts::do_in), using(crate::proofs::GrowthLemmas::grows_same))]
fn effect_statement<'a>(
    alloc: Global,
    heads: &Heads<'_>,
    scope: &mut Scope<'a>,
    form: &'a Sexpr,
    word: Option<Word>,
    behind: &'a [Sexpr],
) -> Result<Stmt, CheckFault>
    ensures gives { FindsStmt scope.new result (do_in heads.now scope.old (span_of form.now) word (plain_forms behind.now)) }
    ensures fits { StmtIsInOrder heads.now scope.new result }
    ensures grows { OnOk result (Grows scope.old.names scope.new.names) }
{
    let done = effect(alloc, heads, &scope.names, form, word, behind)?;
    Ok(Stmt {
        kind: StmtKind::Do(done),
    })
}

// The statements of a branch.
#[cycle(statement)]
#[tactic(auto, using(crate::proofs::StatementWalk::headed_block, crate::proofs::StatementWalk::no_block))]
fn block<'a>(
    alloc: Global,
    heads: &Heads<'_>,
    scope: &mut Scope<'a>,
    form: &'a Sexpr,
) -> Result<Block, CheckFault>
    ensures gives { FindsStmts scope.new result (block_in heads.now scope.old form.now) }
    ensures fits { StmtsAreInOrder heads.now scope.new result }
    ensures grows { OnOk result (Grows scope.old.names scope.new.names) }
{
    match headed(form) {
        Some((first, behind)) => do_block(alloc, heads, scope, form, word_from(first), behind),
        None => Err(fault_at(CheckKind::Form, form)),
    }
}

// The statements after the keyword for a branch.
#[cycle(statement)]
fn do_block<'a>(
    alloc: Global,
    heads: &Heads<'_>,
    scope: &mut Scope<'a>,
    form: &'a Sexpr,
    word: Option<Word>,
    behind: &'a [Sexpr],
) -> Result<Block, CheckFault>
    ensures gives { let found = stmts_in heads.now scope.old (plain_forms behind.now) in
        FindsStmts scope.new result (behind_do (span_of form.now) word found) }
    ensures fits { StmtsAreInOrder heads.now scope.new result }
    ensures grows { OnOk result (Grows scope.old.names scope.new.names) }
{
    match word {
        Some(Word::Do) => statements(alloc, heads, scope, behind),
        _ => Err(fault_at(CheckKind::Form, form)),
    }
}

/// The statements that the forms are. Each is counted before it is looked at.
#[cycle(statement)]
pub fn statements<'a>(
    alloc: Global,
    heads: &Heads<'_>,
    scope: &mut Scope<'a>,
    forms: &'a [Sexpr],
) -> Result<Block, CheckFault>
    ensures gives { FindsStmts scope.new result (stmts_in heads.now scope.old (plain_forms forms.now)) }
    ensures fits { StmtsAreInOrder heads.now scope.new result }
    ensures grows { OnOk result (Grows scope.old.names scope.new.names) }
{
    let mut items = Vec::new(alloc);
    for form in forms {
        count_statement(scope, form)?;
        items.push(statement(alloc, heads, scope, form)?)?;
    }
    Ok(Block { items })
}

// Counts the statement at the form.
fn count_statement(scope: &mut Scope<'_>, form: &Sexpr) -> Result<(), CheckFault>
    ensures gives { let found = statement_counted scope.old (span_of form.now) in
        Finds (λ _. scope.new) result found }
    ensures names { scope.new.names ≡ scope.old.names }
{
    if scope.statements >= STATEMENT_LIMIT {
        return Err(fault_at(CheckKind::Limit, form));
    }
    scope.statements += 1;
    Ok(())
}
