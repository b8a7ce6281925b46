//! Expressions made of others.

ghost use Rattle.std.specs.Prelude.{◌≡◌, IfOk};
ghost use Rattle.cml_check.specs.Syntax as syntax;

use crate::syntax::{Binary, Expr, ExprKind, Exprs, Unary};
use std::alloc::{AllocError, Global};

/// An operation on this value.
pub(crate) fn unary(alloc: Global, operator: Unary, e: Expr) -> Result<Expr, AllocError>
    ensures { IfOk result (λ made. made ≡ syntax.unary operator e) }
{
    Ok(Expr {
        kind: ExprKind::Unary(operator, Box::new(alloc, e)?),
    })
}

/// An operation on these two values.
pub(crate) fn binary(
    alloc: Global,
    operator: Binary,
    first: Expr,
    second: Expr,
) -> Result<Expr, AllocError>
    ensures { IfOk result (λ made. made ≡ syntax.binary operator first second) }
{
    let first = Box::new(alloc, first)?;
    Ok(Expr {
        kind: ExprKind::Binary(operator, first, Box::new(alloc, second)?),
    })
}

/// The event, wrapped by the function that captures these.
pub(crate) fn wrap(
    alloc: Global,
    event: Expr,
    number: u32,
    captured: Exprs,
) -> Result<Expr, AllocError>
    ensures { IfOk result (λ made. made ≡ syntax.wrap event number captured) }
{
    Ok(Expr {
        kind: ExprKind::Wrap(Box::new(alloc, event)?, number, captured),
    })
}
