//! Equality of structure.

ghost use Rattle.std.specs.{Prelude.{◌≡◌, ◌↔◌, IsTrue, map}, String.{string_bytes}};
ghost use Rattle.cml_check.specs.StmtViews.{plain_effect, plain_source};

use crate::program::{Function, Prog};
use crate::syntax::{Block, Effect, Expr, ExprKind, Exprs, Source, Stmt, StmtKind};

impl Expr {
    // Whether the two are the same expression, part for part.
    #[cycle(same_expr)]
    pub(crate) fn same(&self, other: &Expr) -> bool
        ensures { IsTrue result ↔ (self.now ≡ other.now) }
    {
        match (&self.kind, &other.kind) {
            (ExprKind::Constant(a), ExprKind::Constant(b)) => *a == *b,
            (ExprKind::Number(a), ExprKind::Number(b)) => *a == *b,
            (ExprKind::Text(a), ExprKind::Text(b)) => a.as_str() == b.as_str(),
            (ExprKind::Variable(a), ExprKind::Variable(b)) => *a == *b,
            (ExprKind::Unary(o, a), ExprKind::Unary(q, b)) => *o == *q && a.same(b),
            (ExprKind::Binary(o, a, b), ExprKind::Binary(q, c, d)) => *o == *q
                && a.same(c)
                && b.same(d),
            (ExprKind::Choose(a), ExprKind::Choose(b)) => a.same(b),
            (ExprKind::Wrap(a, m, xs), ExprKind::Wrap(b, n, ys)) => *m == *n
                && a.same(b)
                && xs.same(ys),
            (ExprKind::Guard(m, xs), ExprKind::Guard(n, ys)) => *m == *n && xs.same(ys),
            (ExprKind::WithNack(m, xs), ExprKind::WithNack(n, ys)) => *m == *n && xs.same(ys),
            _ => false,
        }
    }
}

impl Exprs {
    // Whether the two are the same expressions, one after another.
    #[cycle(same_expr)]
    #[tactic(auto, using(crate::proofs::SameLemmas::length_exprs))]
    pub(crate) fn same(&self, other: &Exprs) -> bool
        ensures { IsTrue result ↔ (self.now ≡ other.now) }
    {
        if other.items.len() != self.items.len() {
            return false;
        }
        for i in 0..self.items.len() {
            if !self.items[i].same(&other.items[i]) {
                return false;
            }
        }
        true
    }
}

impl Effect {
    // Whether the two are the same effect, part for part.
    pub(crate) fn same(&self, other: &Effect) -> bool
        ensures { IsTrue result ↔ (plain_effect self.now ≡ plain_effect other.now) }
    {
        match (self, other) {
            (Effect::Act(a), Effect::Act(b)) => *a == *b,
            (Effect::ActOnOne(a, d), Effect::ActOnOne(b, e)) => *a == *b && d.same(e),
            (Effect::ActOnTwo(a, c, d), Effect::ActOnTwo(b, e, f)) => *a == *b
                && c.same(e)
                && d.same(f),
            (Effect::Call(m, xs), Effect::Call(n, ys)) => *m == *n && xs.same(ys),
            (Effect::Spawn(m, xs), Effect::Spawn(n, ys)) => *m == *n && xs.same(ys),
            _ => false,
        }
    }
}

impl Source {
    // Whether the two are the same, part for part.
    pub(crate) fn same(&self, other: &Source) -> bool
        ensures { IsTrue result ↔ (plain_source self.now ≡ plain_source other.now) }
    {
        match (self, other) {
            (Source::Value(a), Source::Value(b)) => a.same(b),
            (Source::Effect(a), Source::Effect(b)) => a.same(b),
            _ => false,
        }
    }
}

impl Stmt {
    // Whether the two are the same statement, part for part.
    #[cycle(same_stmt)]
    pub(crate) fn same(&self, other: &Stmt) -> bool
        ensures { IsTrue result ↔ (self.now ≡ other.now) }
    {
        match (&self.kind, &other.kind) {
            (StmtKind::Let(v, a), StmtKind::Let(w, b)) => *v == *w && a.same(b),
            (StmtKind::Set(v, a), StmtKind::Set(w, b)) => *v == *w && a.same(b),
            (StmtKind::Do(a), StmtKind::Do(b)) => a.same(b),
            (StmtKind::If(d, a, b), StmtKind::If(e, x, y)) => d.same(e) && a.same(x) && b.same(y),
            (StmtKind::While(d, a), StmtKind::While(e, b)) => d.same(e) && a.same(b),
            (StmtKind::Return(a), StmtKind::Return(b)) => a.same(b),
            _ => false,
        }
    }
}

impl Block {
    // Whether the two are the same statements, one after another.
    #[cycle(same_stmt)]
    #[tactic(auto, using(crate::proofs::SameLemmas::length_stmts))]
    pub(crate) fn same(&self, other: &Block) -> bool
        ensures { IsTrue result ↔ (self.now ≡ other.now) }
    {
        if self.items.len() != other.items.len() {
            return false;
        }
        for i in 0..self.items.len() {
            if !self.items[i].same(&other.items[i]) {
                return false;
            }
        }
        true
    }
}

impl Function {
    // Whether the two are the same function: in names, in parameters and in statements.
    pub(crate) fn same(&self, other: &Function) -> bool
        ensures { IsTrue result ↔ (self.now ≡ other.now) }
    {
        self.arity == other.arity
            && self.name.as_str() == other.name.as_str()
            && same_names(&self.names, &other.names)
            && self.body.same(&other.body)
    }
}

// Whether the two are the same names, one after another.
fn same_names(names: &[String], others: &[String]) -> bool
    ensures { IsTrue result ↔ (map string_bytes names.now ≡ map string_bytes others.now) }
{
    names == others
}

impl Prog {
    /// Whether the two are the same program: each function of one is that of the other.
    pub fn same(&self, other: &Prog) -> bool
        ensures { IsTrue result ↔ (self.now ≡ other.now) }
    {
        same_functions(self.as_slice(), other.as_slice())
    }
}

// Whether the two are the same functions, one after another.
fn same_functions(functions: &[Function], others: &[Function]) -> bool
    ensures { IsTrue result ↔ (functions.now ≡ others.now) }
{
    if functions.len() != others.len() {
        return false;
    }
    for i in 0..functions.len() {
        if !functions[i].same(&others[i]) {
            return false;
        }
    }
    true
}
