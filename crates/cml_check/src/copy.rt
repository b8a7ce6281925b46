//! Copies of expressions and effects.

ghost use Rattle.std.specs.{Prelude.{◌≡◌, IfOk}, Arc.{arc_str_bytes}};
ghost use Rattle.cml_check.specs.StmtViews.{plain_effect, plain_source};
ghost use Rattle.cml_check.specs.Syntax as syntax;

use crate::compound::{binary, unary, wrap};
use crate::syntax::{Effect, Expr, ExprKind, Exprs, Source};
use std::alloc::{AllocError, Global};
use std::sync::ArcStr;

impl Expr {
    // The same expression once more.
    #[cycle(copy_expr)]
    pub(crate) fn copy(&self, alloc: Global) -> Result<Expr, AllocError>
        ensures { IfOk result (λ e. e ≡ self.now) }
    {
        match &self.kind {
            ExprKind::Constant(constant) => Ok(Expr {
                kind: ExprKind::Constant(*constant),
            }),
            ExprKind::Number(number) => Ok(Expr {
                kind: ExprKind::Number(*number),
            }),
            ExprKind::Text(text) => copy_text(text),
            ExprKind::Variable(slot) => Ok(Expr {
                kind: ExprKind::Variable(*slot),
            }),
            ExprKind::Unary(op, e) => unary(alloc, *op, e.copy(alloc)?),
            ExprKind::Binary(op, d, e) => binary(alloc, *op, d.copy(alloc)?, e.copy(alloc)?),
            ExprKind::Choose(es) => Ok(Expr {
                kind: ExprKind::Choose(es.copy(alloc)?),
            }),
            ExprKind::Wrap(e, func, es) => wrap(alloc, e.copy(alloc)?, *func, es.copy(alloc)?),
            ExprKind::Guard(func, es) => Ok(Expr {
                kind: ExprKind::Guard(*func, es.copy(alloc)?),
            }),
            ExprKind::WithNack(func, es) => Ok(Expr {
                kind: ExprKind::WithNack(*func, es.copy(alloc)?),
            }),
        }
    }
}

// The same text once more.
fn copy_text(text: &ArcStr) -> Result<Expr, AllocError>
    ensures { IfOk result (λ e. e ≡ syntax.text (arc_str_bytes text.now)) }
{
    Ok(Expr {
        kind: ExprKind::Text(text.clone()?),
    })
}

impl Exprs {
    // The same expressions once more.
    #[cycle(copy_expr)]
    pub(crate) fn copy(&self, alloc: Global) -> Result<Exprs, AllocError>
        ensures { IfOk result (λ es. es ≡ self.now) }
    {
        let mut items = Vec::with_capacity(alloc, self.items.len())?;
        for e in &self.items {
            items.push(e.copy(alloc)?)?;
        }
        Ok(Exprs { items })
    }
}

impl Effect {
    // The same effect once more.
    pub(crate) fn copy(&self, alloc: Global) -> Result<Effect, AllocError>
        ensures { IfOk result (λ e. plain_effect e ≡ plain_effect self.now) }
    {
        match self {
            Effect::Act(act) => Ok(Effect::Act(*act)),
            Effect::ActOnOne(act, e) => Ok(Effect::ActOnOne(*act, e.copy(alloc)?)),
            Effect::ActOnTwo(act, d, e) => {
                let d = d.copy(alloc)?;
                let e = e.copy(alloc)?;
                Ok(Effect::ActOnTwo(*act, d, e))
            }
            Effect::Call(func, es) => Ok(Effect::Call(*func, es.copy(alloc)?)),
            Effect::Spawn(func, es) => Ok(Effect::Spawn(*func, es.copy(alloc)?)),
        }
    }
}

impl Source {
    // The same once more.
    pub(crate) fn copy(&self, alloc: Global) -> Result<Source, AllocError>
        ensures { IfOk result (λ r. plain_source r ≡ plain_source self.now) }
    {
        match self {
            Source::Value(e) => Ok(Source::Value(e.copy(alloc)?)),
            Source::Effect(effect) => Ok(Source::Effect(effect.copy(alloc)?)),
        }
    }
}
