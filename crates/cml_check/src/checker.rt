//! From the forms of a script to its program.

ghost use Rattle.std.specs.Prelude.{◌≡◌, ◌≤◌, IfOk, length, map};
ghost use Rattle.cml_check.specs.{Syntax.{written}, Checked.{Finds}, Heads.{arities_of, function_limit}, HeadViews.{plain_head}};
ghost use Rattle.cml_check.specs.{InOrder.{InOrder, FunctionFits, arities, names_of}, Shape.{shape, function_by, functions_in}, Sizes.{statements_of}};
ghost use Rattle.cml_check.specs.Statements.{statement_limit};

use crate::fault::CheckFault;
use crate::head::{Head, Heads, heads_of, main_function};
use crate::program::{Function, Prog};
use crate::statement::{Scope, statements};
use cml_text::Sexpr;
use std::alloc::Global;

/// The program that the forms of a script are.
///
/// Where they are no program, their first fault is returned: first in the heads of all items, then of `main`, then in the statements
/// of all functions. `CheckFault::Memory` is returned where memory ran out.
#[tactic(auto, unfolding(crate::specs::Shape::shape))]
pub fn check(alloc: Global, forms: &[Sexpr]) -> Result<Prog, CheckFault>
    ensures { Finds (λ program. map written program) result (shape forms.now) }
{
    let heads = heads_of(alloc, forms)?;
    let main = main_function(&heads)?;
    let (functions, statements) = functions(alloc, &heads)?;
    Ok(Prog::new(alloc, functions, main, statements)?)
}

// The functions of these heads, and how many statements they have.
fn functions(alloc: Global, heads: &Heads<'_>) -> Result<(Vec<Function>, u32), CheckFault>
    ensures gives { let found = functions_in heads.now 0 heads.now in
        Finds (λ made. map written made.0.items) result found }
    ensures order { IfOk result (λ made. InOrder made.0.items) }
    ensures arities { IfOk result (λ made. arities made.0.items ≡ arities_of heads.now) }
    ensures names { IfOk result (λ made.
        names_of made.0.items ≡ map (λ head. head.name) heads.now) }
    ensures counted { IfOk result (λ made. made.1 ≡ statements_of made.0.items) }
    ensures functions { IfOk result (λ made. length made.0.items ≤ function_limit) }
    ensures statements { IfOk result (λ made. made.1 ≤ statement_limit) }
{
    let mut items = Vec::new(alloc);
    let mut statements = 0;
    for head in heads.as_slice() {
        items.push(function(alloc, heads, head, &mut statements)?)?;
    }
    Ok((items, statements as u32))
}

// The function of a head, where the script had that many statements so far.
#[tactic(auto, unfolding(crate::specs::Shape::function_by))]
fn function(
    alloc: Global,
    heads: &Heads<'_>,
    head: &Head<'_>,
    count: &mut usize,
) -> Result<Function, CheckFault>
    ensures gives { let found = function_by heads.now count.old (plain_head head.now) in
        Finds (λ function. (written function, count.new)) result found }
    ensures fits { IfOk result (λ function. FunctionFits (arities_of heads.now) function) }
    ensures arity { IfOk result (λ function. function.arity ≡ length head.now.parameters) }
    ensures name { IfOk result (λ function. function.name ≡ head.now.name.now) }
{
    // A function has fewer parameters than a text has bytes, so this never happens.
    let Ok(arity) = u32::try_from(head.parameters.len()) else {
        return Err(CheckFault::Memory);
    };
    let mut scope = Scope {
        names: head.parameters.copy()?,
        statements: *count,
    };
    let body = statements(alloc, heads, &mut scope, head.body)?;
    *count = scope.statements;
    let names = scope.names.to_strings(alloc)?;
    let name = String::from_str(alloc, head.name)?;
    Ok(Function::new(alloc, name, names, arity, body)?)
}
