//! What is said of faults that no step of a script has, or that take a long run.

use crate::making::MEMORY;
use cml_check::{ActOnOne, Binary, Unary};
use cml_facts::fault::{Part, Reason, push_reason};
use cml_step::Fault;
use cml_value::{Value, ValueKind};
use std::process::Abort;
use std::rt::HostRuntime;

// What is said of this reason.
fn says(rt: &(impl Abort + AllocGlobal), reason: Reason, expected: &str) {
    let mut said = Vec::new(rt.alloc());
    push_reason(rt.alloc(), &mut said, &reason).expect(rt, MEMORY);
    assert!(rt; said.as_slice() == expected.as_bytes(), "{expected}");
    drop(said);
    drop(reason);
}

// What is said of a fault of a step, where no value is told.
fn tells(rt: &(impl Abort + AllocGlobal), why: Fault, expected: &str) {
    says(rt, Reason::Step(why, Part::Other), expected);
}

#[test]
fn says_what_is_at_fault_without_a_value(rt: HostRuntime) {
    let rt = &rt;
    let kind = "a value is not of the kind that is wanted";
    tells(rt, Fault::Kind, kind);
    let overflow = "a sum, difference or product does not fit into 64 bits";
    tells(rt, Fault::Overflow, overflow);
    tells(rt, Fault::Range, "a number of ticks is negative");
    let deep = "a value or an event nests deeper than 64, or has more than 65536 parts";
    tells(rt, Fault::Deep, deep);
    let stack = "calls nest too deep: a stack has at most 1024 entries";
    tells(rt, Fault::Stack, stack);
    tells(rt, Fault::Put, "a variable that is full can't be put");
    let leaves = "an event has more than 256 base events";
    tells(rt, Fault::Leaves, leaves);
    tells(rt, Fault::Far, "a tick is too far away");
    tells(rt, Fault::Full, "there is no room for more");
}

#[test]
fn says_that_there_is_no_room(rt: HostRuntime) {
    says(&rt, Reason::FullMailbox(7), "mailbox 7 is full");
    let port = "a port of multicast channel 8 is full";
    says(&rt, Reason::FullPort(8), port);
    says(&rt, Reason::Nack, "there is no room for one more nack");
    says(&rt, Reason::Object, "there is no room for one more");
}

fn five() -> Value {
    Value::new(ValueKind::Int(5))
}

// A part that takes any value.
fn at_fault(part: Part) -> Reason {
    Reason::Step(Fault::Kind, part)
}

#[test]
fn says_what_takes_any_value(rt: HostRuntime) {
    let always = Part::Unary(Unary::Always, five());
    says(
        &rt,
        at_fault(always),
        "always takes a value, and was given 5",
    );
    let equal = Part::Binary(Binary::Equal, five(), five());
    says(
        &rt,
        at_fault(equal),
        "= takes values, and was given 5 and 5",
    );
    let pair = Part::Binary(Binary::Pair, five(), five());
    says(
        &rt,
        at_fault(pair),
        "pair takes values, and was given 5 and 5",
    );
    let variable = Part::ActOnOne(ActOnOne::MVar, five());
    says(
        &rt,
        at_fault(variable),
        "mvar takes a value, and was given 5",
    );
    let print = Part::ActOnOne(ActOnOne::Print, five());
    says(&rt, at_fault(print), "print takes a value, and was given 5");
}
