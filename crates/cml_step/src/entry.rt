//! The entries of a thread's stack.

ghost use Rattle.std.specs.Prelude.{◌≡◌, ◌↔◌, IsTrue, IfOk, List, ℕ, true};
ghost use Rattle.cml_check.specs.{Syntax.{PlainItem}, InOrder.{arities}};
ghost use Rattle.cml_step.specs.{Agrees.{function_agrees}, Terms.{call_of}, Calls.{text_of, entry_of}, Machines.{plain_held}, Shared.{plain_seen}};
ghost use Rattle.cml_step.specs.Stacks.{CallFits};

use crate::call::{Call, Wait};
use cml_group::Forcing;
use cml_value::{FnRef, Value};
use std::alloc::{AllocError, Global};

/// Wraps in progress: the functions that are left, the next one last, and the value that has come so far.
#[derive(Drop)]
pub struct Wraps {
    pub(crate) left: Vec<FnRef>,
    pub(crate) value: Value,
}

/// An entry of a stack: a call; an event that is being forced, and whether it has asked; or wraps in progress.
#[derive(Drop)]
pub(crate) enum Entry {
    Call(Call),
    Force(Forcing, bool),
    Wraps(Wraps),
}

/// Copies of these values, which share their parts with them.
pub(crate) fn copies(alloc: Global, values: &[Value]) -> Result<Vec<Value>, AllocError>
    ensures { IfOk result (λ vs. vs.items ≡ values.now) }
{
    let mut copies = Vec::new(alloc);
    for value in values {
        copies.push(value.copy()?)?;
    }
    Ok(copies)
}

// Copies of these functions, which share their parts with them.
fn functions(alloc: Global, functions: &[FnRef]) -> Result<Vec<FnRef>, AllocError>
    ensures { IfOk result (λ fs. fs.items ≡ functions.now) }
{
    let mut copies = Vec::new(alloc);
    for function in functions {
        copies.push(function.copy()?)?;
    }
    Ok(copies)
}

/// A call of the function at its first statement.
pub(crate) fn begin(alloc: Global, function: &FnRef) -> Result<Call, AllocError>
    ensures term { IfOk result (λ call. (p : List (PlainItem ℕ)) →
        entry_of p call ≡ call_of (text_of p) function.now) }
    ensures fits { IfOk result (λ call. (p : List (PlainItem ℕ)) →
        function_agrees (arities p) 0 function.now ≡ true → CallFits p call) }
    ensures runs { IfOk result (λ call. call.wait ≡ Wait.Runs) }
{
    Ok(Call {
        func: function.func(),
        at: 0,
        slots: copies(alloc, function.args())?,
        wait: Wait::Runs,
        asked: 0,
    })
}

/// A copy of the call; it shares the parts of its values.
pub(crate) fn copy_call(alloc: Global, call: &Call) -> Result<Call, AllocError>
    ensures { IfOk result (λ copy. plain_held (Entry.Call copy) ≡ plain_held (Entry.Call call.now)) }
{
    Ok(Call {
        func: call.func,
        at: call.at,
        slots: copies(alloc, call.slots.as_slice())?,
        wait: call.wait,
        asked: call.asked,
    })
}

// Puts copies of these values into the list, which share their parts with them.
fn renew_slots(slots: &mut Vec<Value>, values: &[Value]) -> Result<(), AllocError>
    ensures { IfOk result (λ _. slots.new.items ≡ values.now) }
{
    slots.clear();
    for value in values {
        slots.push(value.copy()?)?;
    }
    Ok(())
}

/// Makes this call a copy of the other, in the lists that it has.
pub(crate) fn renew_call(own: &mut Call, call: &Call) -> Result<(), AllocError>
    ensures { IfOk result (λ _. plain_held (Entry.Call own.new)
        ≡ plain_held (Entry.Call call.now)) }
{
    own.func = call.func;
    own.at = call.at;
    own.wait = call.wait;
    own.asked = call.asked;
    renew_slots(&mut own.slots, call.slots.as_slice())
}

/// A copy of the entry; it shares the parts of its values.
pub(crate) fn copy_entry(alloc: Global, entry: &Entry) -> Result<Entry, AllocError>
    ensures { IfOk result (λ copy. plain_held copy ≡ plain_held entry.now) }
{
    match entry {
        Entry::Call(call) => Ok(Entry::Call(copy_call(alloc, call)?)),
        Entry::Force(forcing, asked) => Ok(Entry::Force(forcing.copy(alloc)?, *asked)),
        Entry::Wraps(wraps) => Ok(Entry::Wraps(Wraps {
            left: functions(alloc, wraps.left.as_slice())?,
            value: wraps.value.copy()?,
        })),
    }
}

// Whether two calls are of the same function, at the same place in it.
fn same_place(call: &Call, other: &Call) -> bool
    ensures { IsTrue result ↔ (call.now.func ≡ other.now.func)
        × (call.now.at ≡ other.now.at) × (call.now.wait ≡ other.now.wait) }
{
    call.func == other.func && call.at == other.at && call.wait == other.wait
}

// Whether the two are the same values, one after another.
fn same_values(values: &[Value], others: &[Value]) -> bool
    ensures { IsTrue result ↔ (values.now ≡ others.now) }
{
    if values.len() != others.len() {
        return false;
    }
    for i in 0..values.len() {
        if !values[i].same(&others[i]) {
            return false;
        }
    }
    true
}

// Whether the two are the same functions, one after another.
fn same_functions(functions: &[FnRef], others: &[FnRef]) -> bool
    ensures { IsTrue result ↔ (functions.now ≡ others.now) }
{
    if functions.len() != others.len() {
        return false;
    }
    for i in 0..functions.len() {
        if !functions[i].same(&others[i]) {
            return false;
        }
    }
    true
}

/// An entry of a thread's stack, where it stands.
#[derive(Clone, Copy)]
pub enum Seen<'a> {
    /// A call.
    Call(&'a Call),
    /// An event that is being forced, and whether it has asked.
    Force(&'a Forcing, bool),
    /// Wraps in progress.
    Wraps(&'a Wraps),
}

/// The entry where it stands.
pub(crate) fn as_seen(entry: &Entry) -> Seen<'_>
    ensures { plain_seen result ≡ plain_held entry.now }
{
    match entry {
        Entry::Call(call) => Seen::Call(call),
        Entry::Force(forcing, asked) => Seen::Force(forcing, *asked),
        Entry::Wraps(wraps) => Seen::Wraps(wraps),
    }
}

/// Whether the two may be the same: no value is looked at.
pub(crate) fn may_be_same(entry: Seen<'_>, other: Seen<'_>) -> bool
    ensures { plain_seen entry.entry ≡ plain_seen other.entry → IsTrue result }
{
    match (entry, other) {
        (Seen::Call(call), Seen::Call(second)) => same_place(call, second),
        (Seen::Force(_, asked), Seen::Force(_, second)) => asked == second,
        (Seen::Wraps(_), Seen::Wraps(_)) => true,
        _ => false,
    }
}

/// Whether the two are the same entry.
pub(crate) fn same_entry(entry: Seen<'_>, other: Seen<'_>) -> bool
    ensures { IsTrue result ↔ (plain_seen entry.entry ≡ plain_seen other.entry) }
{
    match (entry, other) {
        (Seen::Call(call), Seen::Call(second)) => same_place(call, second)
            && same_values(call.slots.as_slice(), second.slots.as_slice()),
        (Seen::Force(forcing, asked), Seen::Force(second, had_asked)) => {
            asked == had_asked && forcing.same(second)
        }
        (Seen::Wraps(wraps), Seen::Wraps(second)) => {
            wraps.value.same(&second.value)
                && same_functions(wraps.left.as_slice(), second.left.as_slice())
        }
        _ => false,
    }
}
