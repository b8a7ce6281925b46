//! What can be read off a call on the stack of a thread.

ghost use Rattle.std.specs.Prelude.{◌≡◌, ◌<◌, ℕ, true, Some, length, slice_get, IfSome};
ghost use Rattle.cml_check.specs.{Syntax.{PlainItem, PlainEffect, effect}, StmtViews.{plain_source}, Layout.{left}, Follows.{Follows}};
ghost use Rattle.cml_check.specs.InstrViews.{plain_instr};
ghost use Rattle.cml_step.specs.{Calls.{entry_for, entry_of}, Standing.{StandsAt, StandsIn}};

use crate::call::{Call, Wait};
use cml_check::{Function, Instr, Prog, Source};
use cml_value::Value;

// Whether the source is an effect.
fn is_effect(source: &Source) -> bool
    ensures { result ≡ true → (e : PlainEffect ℕ) × (plain_source source.now ≡ effect e) }
{
    match source {
        Source::Value(_) => false,
        Source::Effect(_) => true,
    }
}

// Whether the instruction is a statement with an effect, after which its function goes on where the call is, and which gives to what the
// call waits for.
fn has_asked(instr: &Instr, call: &Call) -> bool
    ensures { (f : PlainItem ℕ) (place : ℕ) → result ≡ true
        → Follows (left f.body) (plain_instr instr.now) (left f.body place)
        → StandsAt f place (entry_for f call.now) }
{
    match call.wait {
        Wait::Runs => false,
        Wait::Drops => match instr {
            Instr::Do(_, next) => *next == call.at,
            _ => false,
        },
        Wait::Gives(given) => match instr {
            Instr::Let(slot, source, next) => {
                if !is_effect(source) {
                    return false;
                }
                *next == call.at && *slot == given
            }
            _ => false,
        },
    }
}

// The place at which the call of f stands.
fn place_in(f: &Function, call: &Call) -> Option<usize>
    ensures place { IfSome result (λ place. StandsAt f.now place (entry_for f.now call.now)) }
    ensures runs { call.now.wait ≡ Wait.Runs → result ≡ Some call.now.at }
{
    if call.wait == Wait::Runs {
        return Some(call.at);
    }
    match f.instr(call.asked) {
        Some(instr) if has_asked(instr, call) => Some(call.asked),
        _ => None,
    }
}

impl Call {
    /// The number of its function.
    pub fn function(&self) -> u32
        ensures { result ≡ self.now.func }
    {
        self.func
    }

    /// The place where it goes on, which is the number of an instruction of its function.
    pub fn at(&self) -> usize
        ensures { result ≡ self.now.at }
    {
        self.at
    }

    /// The values of its slots: those of its parameters, and of the variables that were given one. A variable without a value has none here, or
    /// unit.
    pub fn values(&self) -> &[Value]
        ensures { result.now ≡ self.now.slots.items }
    {
        self.slots.as_slice()
    }

    /// The place of the statement at which it stands: while it runs the next one, and while it waits the one that has it wait.
    pub fn place(&self, program: &Prog) -> Option<usize>
        ensures place { let f = slice_get program.now self.now.func in
            IfSome result (λ place. StandsIn f place (entry_of program.now self.now)) }
        ensures runs { self.now.func < length program.now → self.now.wait ≡ Wait.Runs
            → result ≡ Some self.now.at }
    {
        if self.func as usize >= program.functions() {
            return None;
        }
        place_in(program.function(self.func), self)
    }
}
