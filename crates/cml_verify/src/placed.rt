//! Whether machines stand in the program.

ghost use Rattle.std.specs.Prelude.{◌≡◌, ◌<◌, ◌≤◌, ℕ, List, [], Option, Some, IsTrue, length, slice_get, true};
ghost use Rattle.std.specs.List.{All};
ghost use Rattle.cml_check.specs.{Syntax.{PlainItem}, InOrder.{FunctionFits}, Follows.{instr_fits}, InstrViews.{plain_instr}};
ghost use Rattle.cml_step.specs.Shared.{left_of, plain_seen};
ghost use Rattle.cml_verify.specs.Placed.{IsPlaceOf, IsHeldIn, IsThreadIn, AreThreadsIn};

use cml_check::{Function, Instr, Prog};
use cml_step::{Call, Machine, Seen, Walk};

// Whether it is a place of the function.
fn is_place(function: &Function, at: usize) -> bool
    ensures { IsTrue result → IsPlaceOf function.now at }
{
    if at == 0 {
        return true;
    }
    match function.instr(at - 1) {
        Some(_) => true,
        None => false,
    }
}

// Whether the instruction names the last one of so many slots, or one behind it.
fn names_slot(instr: &Instr, count: usize) -> bool
    requires { 0 < count }
    ensures { (arities : List ℕ) (slots : ℕ) → IsTrue result → instr_fits arities slots (plain_instr instr.now) ≡ true → count ≤ slots }
{
    match instr {
        Instr::Let(slot, _, _) => *slot >= count - 1,
        _ => false,
    }
}

// Whether the function declares so many names beside those of its parameters.
fn has_names(function: &Function, count: usize) -> bool
    requires order { (arities : List ℕ) × FunctionFits arities function.now }
    requires some { 0 < count }
    ensures { IsTrue result → count ≤ length function.now.names }
{
    for at in 0..4096 {
        match function.instr(at) {
            Some(instr) => {
                if names_slot(instr, count) {
                    return true;
                }
            }
            None => return false,
        }
    }
    false
}

// Whether the function of this number declares so many names.
fn has_room(program: &Prog, function: &Function, number: u32, count: usize) -> bool
    requires there { slice_get program.now number ≡ Some function.now }
    requires order { (arities : List ℕ) × FunctionFits arities function.now }
    ensures { IsTrue result → count ≤ length function.now.names }
{
    if count == 0 {
        return true;
    }
    if let Some(arity) = program.arity(number) {
        if count <= arity as usize {
            return true;
        }
    }
    has_names(function, count)
}

// Whether the call stands in the program.
fn is_call_of(program: &Prog, call: &Call) -> bool
    ensures { IsTrue result → (f : PlainItem ℕ) × (slice_get program.now call.now.func ≡ Some f) × IsPlaceOf f call.now.at × (length call.now.slots.items ≤ length f.names) }
{
    let number = call.function();
    if number as usize >= program.functions() {
        return false;
    }
    let function = program.function(number);
    if !is_place(function, call.at()) {
        return false;
    }
    has_room(program, function, number, call.values().len())
}

// Whether the entry stands in the program.
fn is_entry_of(program: &Prog, entry: Seen<'_>) -> bool
    ensures { IsTrue result → IsHeldIn program.now (plain_seen entry.entry) }
{
    match entry {
        Seen::Call(call) => is_call_of(program, call),
        Seen::Force(_, _) => true,
        Seen::Wraps(_) => true,
    }
}

// Whether all entries do that are left of a walk.
fn are_entries_of(program: &Prog, entries: Walk<'_>) -> bool
    ensures { IsTrue result → All (IsHeldIn program.now) (left_of entries.entry) }
{
    let mut left = entries;
    while let Some(entry) = left.step() {
        if !is_entry_of(program, entry) {
            return false;
        }
    }
    true
}

// Whether the machine of the thread of this number stands in the program.
fn is_placed(program: &Prog, thread: usize, machine: &Machine) -> bool
    ensures { IsTrue result → IsThreadIn program.now thread machine.now }
{
    if machine.thread().0 as usize != thread {
        return false;
    }
    are_entries_of(program, machine.entries())
}

/// Whether the machines of threads, by their numbers, stand in the program.
pub(crate) fn are_placed(program: &Prog, machines: &[Machine]) -> bool
    ensures { IsTrue result → AreThreadsIn program.now machines.now }
{
    for t in 0..machines.len() {
        if !is_placed(program, t, &machines[t]) {
            return false;
        }
    }
    true
}
