//! Equality of structure.

ghost use Rattle.std.specs.Prelude.{◌≡◌, ◌↔◌, IsTrue};

use crate::value::{Base, BaseKind, Event, EventKind, FnRef, Value, ValueKind};

impl Value {
    /// Whether the two are the same value, part for part.
    #[cycle(same_value)]
    pub fn same(&self, other: &Value) -> bool
        ensures { IsTrue result ↔ (self.now ≡ other.now) }
    {
        match &self.kind {
            ValueKind::Unit => matches!(&other.kind, ValueKind::Unit),
            ValueKind::Int(x) => matches!(&other.kind, ValueKind::Int(y) if *x == *y),
            ValueKind::Bool(x) => matches!(&other.kind, ValueKind::Bool(y) if *x == *y),
            ValueKind::Text(x) =>
                matches!(&other.kind, ValueKind::Text(y) if x.as_str() == y.as_str()),
            ValueKind::Pair(p) =>
                matches!(&other.kind, ValueKind::Pair(q) if p.first().same(q.first()) && p.second().same(q.second())),
            ValueKind::Thread(x) => matches!(&other.kind, ValueKind::Thread(y) if x.0 == y.0),
            ValueKind::Chan(x) => matches!(&other.kind, ValueKind::Chan(y) if x.0 == y.0),
            ValueKind::Swap(x) => matches!(&other.kind, ValueKind::Swap(y) if x.0 == y.0),
            ValueKind::IVar(x) => matches!(&other.kind, ValueKind::IVar(y) if x.0 == y.0),
            ValueKind::MVar(x) => matches!(&other.kind, ValueKind::MVar(y) if x.0 == y.0),
            ValueKind::Mailbox(x) => matches!(&other.kind, ValueKind::Mailbox(y) if x.0 == y.0),
            ValueKind::Mchan(x) => matches!(&other.kind, ValueKind::Mchan(y) if x.0 == y.0),
            ValueKind::Port(x) => matches!(&other.kind, ValueKind::Port(y) if x.0 == y.0),
            ValueKind::Event(e) => matches!(&other.kind, ValueKind::Event(f) if e.same(f)),
        }
    }
}

impl FnRef {
    /// Whether the two are the same function with the same captured values.
    #[cycle(same_value)]
    #[tactic(auto, using(crate::proofs::Counts::part_counts))]
    pub fn same(&self, other: &FnRef) -> bool
        ensures { IsTrue result ↔ (self.now ≡ other.now) }
    {
        if self.func != other.func {
            return false;
        }
        if self.args.all.len() != other.args.all.len() {
            return false;
        }
        for i in 0..self.args.all.len() {
            if !self.args.all[i].same(&other.args.all[i]) {
                return false;
            }
        }
        true
    }
}

impl Base {
    /// Whether the two are the same base event.
    #[cycle(same_value)]
    pub fn same(&self, other: &Base) -> bool
        ensures { IsTrue result ↔ (self.now ≡ other.now) }
    {
        match &self.kind {
            BaseKind::Always(v) => matches!(&other.kind, BaseKind::Always(w) if v.same(w)),
            BaseKind::Send(c, v) =>
                matches!(&other.kind, BaseKind::Send(d, w) if c.0 == d.0 && v.same(w)),
            BaseKind::Recv(c) => matches!(&other.kind, BaseKind::Recv(d) if c.0 == d.0),
            BaseKind::Swap(x, v) =>
                matches!(&other.kind, BaseKind::Swap(y, w) if x.0 == y.0 && v.same(w)),
            BaseKind::IGet(x) => matches!(&other.kind, BaseKind::IGet(y) if x.0 == y.0),
            BaseKind::MTake(x) => matches!(&other.kind, BaseKind::MTake(y) if x.0 == y.0),
            BaseKind::MGet(x) => matches!(&other.kind, BaseKind::MGet(y) if x.0 == y.0),
            BaseKind::MSwap(x, v) =>
                matches!(&other.kind, BaseKind::MSwap(y, w) if x.0 == y.0 && v.same(w)),
            BaseKind::MailRecv(x) => matches!(&other.kind, BaseKind::MailRecv(y) if x.0 == y.0),
            BaseKind::PortRecv(x) => matches!(&other.kind, BaseKind::PortRecv(y) if x.0 == y.0),
            BaseKind::Join(x) => matches!(&other.kind, BaseKind::Join(y) if x.0 == y.0),
            BaseKind::At(x) => matches!(&other.kind, BaseKind::At(y) if *x == *y),
            BaseKind::After(x) => matches!(&other.kind, BaseKind::After(y) if *x == *y),
            BaseKind::Nack(x) => matches!(&other.kind, BaseKind::Nack(y) if x.0 == y.0),
        }
    }
}

impl Event {
    /// Whether the two are the same event, part for part.
    #[cycle(same_value)]
    #[tactic(auto, using(crate::proofs::Counts::part_counts))]
    pub fn same(&self, other: &Event) -> bool
        ensures { IsTrue result ↔ (self.now ≡ other.now) }
    {
        match (&self.kind, &other.kind) {
            (EventKind::Never, EventKind::Never) => true,
            (EventKind::Leaf(a), EventKind::Leaf(b)) => a.same(b),
            (EventKind::Choose(es), EventKind::Choose(fs)) => {
                if es.len() != fs.len() {
                    return false;
                }
                for i in 0..es.len() {
                    if !es[i].same(&fs[i]) {
                        return false;
                    }
                }
                true
            }
            (EventKind::Wrap(e, f), EventKind::Wrap(g, h)) => f.same(h) && e.same(g),
            (EventKind::Guard(f), EventKind::Guard(g)) => f.same(g),
            (EventKind::WithNack(f), EventKind::WithNack(g)) => f.same(g),
            (EventKind::Scope(k, e), EventKind::Scope(l, f)) => k.0 == l.0 && e.same(f),
            _ => false,
        }
    }
}
