//! What the tests are made of, in few words. Running out of memory ends a test.

use cml_check::{Prog, check};
use cml_hub::{Plan, read_schedule};
use cml_text::{Sexpr, read};
use cml_value::{Base, BaseKind, FnRef, Group, GroupKind, Value, ValueKind};
use std::process::Abort;

pub const MEMORY: &str = "memory";

/// One thread sends to another, through a wrap.
pub const ADDITION: &str = "(fn add (a b) (return (+ a b))) \
     (fn give (c) (sync (send c 41))) \
     (fn main () (let c (chan)) (spawn give c) (let x (sync (wrap (recv c) add 1))) (print x))";

/// The forms of a script.
pub fn forms(rt: &(impl Abort + AllocGlobal), script: &str) -> Vec<Sexpr> {
    read(rt.alloc(), script.as_bytes()).expect(rt, "forms")
}

/// The program of these forms.
pub fn program(rt: &(impl Abort + AllocGlobal), forms: &[Sexpr]) -> Prog {
    check(rt.alloc(), forms).expect(rt, "a program")
}

/// The program of the script.
pub fn program_of(rt: &(impl Abort + AllocGlobal), script: &str) -> Prog {
    let forms = forms(rt, script);
    let program = program(rt, forms.as_slice());
    drop(forms);
    program
}

/// The schedule of these items.
pub fn scheduled(rt: &(impl Abort + AllocGlobal), items: &str) -> Plan {
    let text = format!(in rt.alloc(); "schedule 2 1000 1 1\n{items}end\n").expect(rt, MEMORY);
    read_schedule(rt.alloc(), text.as_bytes())
        .ok()
        .expect(rt, items)
}

pub fn int(z: i64) -> Value {
    Value::new(ValueKind::Int(z))
}

/// The function of this number, which has captured one value.
pub fn function(rt: &(impl Abort + AllocGlobal), func: u32, captured: Value) -> FnRef {
    let values = Vec::from_array(rt.alloc(), [captured]).expect(rt, MEMORY);
    FnRef::new(rt.alloc(), func, values).expect(rt, MEMORY)
}

pub fn leaf(kind: BaseKind) -> Group {
    Group::new(GroupKind::Leaf(Base::new(kind)))
}

/// The choice of the two.
pub fn either(rt: &(impl Abort + AllocGlobal), first: Group, second: Group) -> Group {
    let both = Vec::from_array(rt.alloc(), [first, second]).expect(rt, MEMORY);
    Group::choose(rt.alloc(), both).expect(rt, MEMORY)
}

/// A choice of so many leaves that wait in this one way.
pub fn many(rt: &(impl Abort + AllocGlobal), count: u32, kind: BaseKind) -> Group {
    let base = Base::new(kind);
    let mut members = Vec::new(rt.alloc());
    for _ in 0..count {
        let leaf = Group::new(GroupKind::Leaf(base.copy().expect(rt, MEMORY)));
        members.push(leaf).expect(rt, MEMORY);
    }
    drop(base);
    Group::choose(rt.alloc(), members).expect(rt, MEMORY)
}
