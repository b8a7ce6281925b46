//! A thread of a script.

ghost use Rattle.std.specs.Prelude.{◌≡◌, ℕ, List, [], ◌∷◌, ◌≤◌, true, IfOk, IfErr, OnOk, OnErr, ◌↔◌, IsTrue};
ghost use Rattle.cml_check.specs.{Syntax.{PlainItem}, InOrder.{InOrder, arities}};
ghost use Rattle.cml_step.specs.{Agrees.{answer_agrees, function_agrees}, Answers.{top_await, after_answer as plain_answered}};
ghost use Rattle.cml_step.specs.{AnswerViews.{Awaits}, AskViews.{plain_ask}, Asks.{a_value, a_nack, a_commit}, Calls.{text_of}};
ghost use Rattle.cml_step.specs.{Machines.{PlainMachine, machine_term, Fits}, Nacks.{nack_given, IsNackRoom}, Rans.{IsSlice}};
ghost use Rattle.cml_step.specs.{Shared.{HoldsNoValue, left_of}, Slices.{sliced_from, max_steps, GoesIn}, Stacks.{StackFits, term_of}, Terms.{call_of}};
ghost use Rattle.cml_step.specs.Undone.{IsNotedStack};
ghost use Rattle.cml_step.specs.Answers as answers;

use crate::ask::Ask;
use crate::call::fill;
use crate::entries::{Frames, Stack, Walk, same_entries, under};
use crate::entry::{Entry, Wraps, begin};
use crate::journal::Journal;
use crate::nack::{NackRoom, nacked};
use crate::steps::{MAX_STEPS, run};
use crate::still::{Begun, begin_slice, undo_noted};
use crate::undo::Undo;
use cml_check::Prog;
use cml_value::{FnRef, NackId, Tid, Value};
use std::alloc::{AllocError, AllocFailed, Global};
use std::marker::Model;
use std::mem::swap;

/// A thread of a script: its number and its stack. The stack has a meaning only together with a checked program.
pub struct Machine {
    thread: Tid,
    stack: Stack,
}

// Written out, so that how the parts are dropped is proved once, and whoever drops one calls this.
impl Drop for Machine {
    fn drop(self) {
        let Machine { thread: _, stack } = self;
        drop(stack);
    }
}

impl Model for Machine {
    ghost use Rattle.cml_step.specs.{Machines.{PlainMachine}, MachineCodes.{machine_code}};

    ghost Value = { PlainMachine };

    ghost coded = { machine_code };

    ghost view = { λ a. record { thread = a.thread.0; stack = a.stack } };
}

// Gives the value to the call on top, which waits for it.
fn give_value(stack: &mut Stack, value: Value)
    requires { (p : List (PlainItem ℕ)) × StackFits p stack.old
        × (top_await (term_of p stack.old) ≡ answers.value) }
    ensures term { (p : List (PlainItem ℕ)) → InOrder p → StackFits p stack.old
        → term_of p stack.new
        ≡ plain_answered (text_of p) (a_value value) (term_of p stack.old) }
    ensures fits { (p : List (PlainItem ℕ)) → StackFits p stack.old
        → answer_agrees (arities p) (a_value value) ≡ true → StackFits p stack.new }
{
    match &mut stack.over {
        Some(Entry::Call(call)) => fill(call, value),
        // A value is awaited, so a call is on top.
        Some(Entry::Force(_, _)) => drop(value),
        Some(Entry::Wraps(_)) => drop(value),
        None => match &mut stack.call {
            Some(call) => fill(call, value),
            None => drop(value),
        },
    }
}

// The wraps that the value goes through stand in the place of the event, which was committed.
fn give_commit(stack: &mut Stack, value: Value, wraps: Vec<FnRef>)
    requires { (p : List (PlainItem ℕ)) × (top_await (term_of p stack.old) ≡ answers.commit) }
    ensures term { (p : List (PlainItem ℕ)) → term_of p stack.new
        ≡ plain_answered (text_of p) (a_commit value wraps.items) (term_of p stack.old) }
    ensures fits { (p : List (PlainItem ℕ)) → StackFits p stack.old
        → answer_agrees (arities p) (a_commit value wraps.items) ≡ true
        → StackFits p stack.new }
{
    let mut left = wraps;
    left.reverse();
    stack.over = Some(Entry::Wraps(Wraps { left, value }));
}

impl Machine {
    ghost use Rattle.cml_step.specs.Undos.{IsUndone};

    /// The thread of this number at the beginning of a call of the function.
    ///
    /// # Errors
    /// Out of memory; the function comes back.
    pub fn start(
        alloc: Global,
        program: &Prog,
        thread: Tid,
        function: FnRef,
    ) -> Result<Machine, AllocFailed<FnRef>>
        requires { function_agrees (arities program.now) 0 function ≡ true }
        ensures term { IfOk result (λ m. machine_term program.now m
            ≡ call_of (text_of program.now) function ∷ []) }
        ensures thread { IfOk result (λ m. m.thread ≡ thread.0) }
        ensures fits { IfOk result (λ m. Fits program.now m) }
        ensures awaits { IfOk result (λ m.
            top_await (machine_term program.now m) ≡ answers.nothing) }
        ensures err { IfErr result (λ back. back.value ≡ function) }
    {
        // No effect: named here so that the prover knows what holds of it.
        let _count = program.functions();
        match begin(alloc, &function) {
            Ok(call) => {
                drop(function);
                Ok(Machine {
                    thread,
                    stack: Stack::calling(call, Frames::new()),
                })
            }
            Err(_) => Err(AllocFailed { value: function }),
        }
    }

    /// The thread of this number once it has ended. It takes no memory.
    pub fn ended(alloc: Global, thread: Tid) -> Machine
        ensures { result ≡ record { thread = thread.0; stack = [] } }
    {
        let _alloc = alloc;
        Machine {
            thread,
            stack: Stack::new(),
        }
    }

    /// The number of the thread.
    pub fn thread(&self) -> Tid
        ensures { result.0 ≡ self.now.thread }
    {
        self.thread
    }

    /// The entries of its stack, from the top: what stands over a call, the call, and those below it. Nothing is on the stack of a thread
    /// that has ended.
    pub fn entries(&self) -> Walk<'_>
        ensures { left_of result ≡ self.now.stack }
    {
        Walk::through(&self.stack)
    }

    /// The same thread some steps on: where it stands after this many, or after the first that asks, ends or is at fault, if that comes
    /// before.
    ///
    /// # Errors
    /// Out of memory.
    pub fn stepped(&self, alloc: Global, program: &Prog, steps: u32) -> Result<Machine, AllocError>
        requires { Fits program.now self.now }
        ensures meant { let start = machine_term program.now self.now in
            let slice = sliced_from (text_of program.now) self.now.thread steps 0 start in
            IfOk result (λ m. machine_term program.now m ≡ slice.end) }
        ensures thread { IfOk result (λ m. m.thread ≡ self.now.thread) }
    {
        let mut machine = self.copy(alloc)?;
        let thread = machine.thread;
        let mut asked = Ask::Nothing;
        let _ran = run(
            alloc,
            thread,
            program,
            &mut machine.stack,
            steps,
            &mut asked,
        )?;
        drop(asked);
        Ok(machine)
    }

    /// A copy. The values of the topmost call, and of the event or wraps over it, get one more owner each; all below that call is shared as
    /// one, however much it is.
    ///
    /// # Errors
    /// Out of memory.
    pub fn copy(&self, alloc: Global) -> Result<Machine, AllocError>
        ensures { IfOk result (λ m. m ≡ self.now) }
    {
        Ok(Machine {
            thread: self.thread,
            stack: self.stack.copy(alloc)?,
        })
    }

    /// Drops the values of a machine of which only the lists are used again ([`Undo`](crate::Undo)). It takes no memory.
    pub fn rest(&mut self)
        ensures values { HoldsNoValue self.new.stack }
        ensures thread { self.new.thread ≡ self.old.thread }
    {
        self.stack.rest();
    }

    /// Ends the thread. It takes no memory.
    pub fn stop(&mut self)
        ensures { self.new ≡ record { thread = self.old.thread; stack = [] } }
    {
        self.stack.clear();
    }

    /// Whether the two are the same thread at the same place. Functions and places are compared before values.
    pub fn same(&self, other: &Machine) -> bool
        ensures { IsTrue result ↔ (self.now ≡ other.now) }
    {
        self.thread == other.thread
            && same_entries(Walk::through(&self.stack), Walk::through(&other.stack))
    }

    // A slice of steps: how many they were. What it asks in the end is written to `asked`, which must be `Nothing`
    // before.
    pub(crate) fn run(
        &mut self,
        alloc: Global,
        program: &Prog,
        asked: &mut Ask,
    ) -> Result<u32, AllocError>
        requires fits { Fits program.now self.old }
        requires awaits { top_await (machine_term program.now self.old) ≡ answers.nothing }
        requires nothing { asked.old ≡ Ask.Nothing }
        ensures { IfOk result (λ steps. IsSlice (record {
          program = program.now;
          start = self.old;
          end = self.new;
          ask = plain_ask asked.new;
          steps = steps;
        })) }
    {
        run(
            alloc,
            self.thread,
            program,
            &mut self.stack,
            MAX_STEPS,
            asked,
        )
    }

    // The rest of a slice of the machine that the spare is: so many steps went on before.
    fn run_on(
        &mut self,
        alloc: Global,
        program: &Prog,
        spare: &mut Machine,
        done: u32,
        asked: &mut Ask,
    ) -> Result<u32, AllocError>
        requires fits { (Fits program.now spare.old) × (StackFits program.now self.old.stack) }
        requires awaits { top_await (machine_term program.now spare.old) ≡ answers.nothing }
        requires nothing { asked.old ≡ Ask.Nothing }
        requires thread { self.old.thread ≡ spare.old.thread }
        requires goes { (done ≤ max_steps) × GoesIn (text_of program.now) self.old.thread done
            (machine_term program.now spare.old) (machine_term program.now self.old) }
        ensures meant { IfOk result (λ steps. IsSlice (record {
          program = program.now;
          start = spare.old;
          end = self.new;
          ask = plain_ask asked.new;
          steps = steps;
        })) }
        ensures spare { OnOk result (spare.new ≡ spare.old) }
        ensures err { OnErr result (self.new ≡ spare.old) }
        ensures err_ask { OnErr result (asked.new ≡ Ask.Nothing) }
    {
        let left = MAX_STEPS - done;
        match run(alloc, self.thread, program, &mut self.stack, left, asked) {
            Ok(more) => Ok(done + more),
            Err(error) => {
                swap(self, spare);
                *asked = Ask::Nothing;
                Err(error)
            }
        }
    }

    /// Runs a slice of the thread where it stands: its steps up to the first that asks, ends or is at fault, and at most
    /// [`MAX_STEPS`](crate::MAX_STEPS). What the thread asks in the end is written to `asked`, which must be `Nothing` before. Returns how
    /// many steps there were. Where the slice stays in the call on top nothing is copied but what it changes there. The undo puts the
    /// machine back ([`Undo::put_back`](crate::Undo::put_back)); its lists are used again.
    ///
    /// # Errors
    /// Out of memory; the machine is as it was, and nothing is asked.
    pub fn run_undoing(
        &mut self,
        alloc: Global,
        program: &Prog,
        undo: &mut Undo,
        asked: &mut Ask,
    ) -> Result<u32, AllocError>
        requires fits { Fits program.now self.old }
        requires awaits { top_await (machine_term program.now self.old) ≡ answers.nothing }
        requires nothing { asked.old ≡ Ask.Nothing }
        ensures meant { IfOk result (λ steps. IsSlice (record {
          program = program.now;
          start = self.old;
          end = self.new;
          ask = plain_ask asked.new;
          steps = steps;
        })) }
        ensures undo { OnOk result (IsUndone undo.new self.new self.old) }
        ensures err { OnErr result (self.new ≡ self.old) }
        ensures err_ask { OnErr result (asked.new ≡ Ask.Nothing) }
    {
        let begun = begin_slice(
            alloc,
            program,
            &mut self.stack,
            &mut undo.spare.stack,
            &mut undo.journal,
            asked,
        )?;
        match begun {
            Begun::Asks(steps) => {
                undo.filled = false;
                Ok(steps)
            }
            Begun::Goes(done) => {
                undo.filled = true;
                undo.spare.thread = self.thread;
                self.run_on(alloc, program, &mut undo.spare, done, asked)
            }
        }
    }

    // Undoes what the journal has of a slice.
    pub(crate) fn undo(&mut self, journal: &mut Journal)
        ensures { (before : PlainMachine) → before.thread ≡ self.old.thread
            → IsNotedStack journal.old self.old.stack before.stack → self.new ≡ before }
    {
        undo_noted(&mut self.stack, journal);
    }

    /// Room for the answer of this nack, so that [`take_nack`](Machine::take_nack) takes no memory.
    ///
    /// # Errors
    /// Out of memory.
    pub fn reserve_nack(&self, alloc: Global, nack: NackId) -> Result<NackRoom, AllocError>
        requires { Awaits self.now (a_nack nack.0) }
        ensures room { IfOk result (λ r. IsNackRoom self.now r) }
        ensures nack { IfOk result (λ r. r.nack ≡ nack) }
    {
        // A nack is awaited, so an event is on top.
        let stack = &self.stack;
        let Some(top) = &stack.over else {
            return Err(AllocError);
        };
        let Entry::Force(forcing, _) = top else {
            return Err(AllocError);
        };
        let (event, call) = nacked(alloc, forcing, nack)?;
        let others = under(alloc, &stack.call, &stack.below)?;
        let below = others.with(alloc, Entry::Force(event, false))?;
        Ok(NackRoom { nack, call, below })
    }

    /// Answers the thread by the nack that there is room for. It takes no memory.
    pub fn take_nack(&mut self, room: NackRoom)
        requires { IsNackRoom self.old room }
        ensures machine { self.new ≡ nack_given room self.old }
        ensures meant { (p : List (PlainItem ℕ)) → Fits p self.old → machine_term p self.new
            ≡ plain_answered (text_of p) (a_nack room.nack.0) (machine_term p self.old) }
        ensures fits { (p : List (PlainItem ℕ)) → Fits p self.old → Fits p self.new }
        ensures awaits { (p : List (PlainItem ℕ)) → Fits p self.old →
            top_await (machine_term p self.old) ≡ answers.nack
            → top_await (machine_term p self.new) ≡ answers.nothing }
        ensures thread { self.new.thread ≡ self.old.thread }
    {
        self.stack = Stack::calling(room.call, room.below);
    }

    /// Gives the thread the value for which it waits. It takes no memory.
    pub fn take_value(&mut self, value: Value)
        requires { Awaits self.old (a_value value) }
        ensures meant { (p : List (PlainItem ℕ)) → Fits p self.old → machine_term p self.new
            ≡ plain_answered (text_of p) (a_value value) (machine_term p self.old) }
        ensures fits { (p : List (PlainItem ℕ)) → Fits p self.old →
            answer_agrees (arities p) (a_value value) ≡ true → Fits p self.new }
        ensures awaits { (p : List (PlainItem ℕ)) → Fits p self.old →
            top_await (machine_term p self.old) ≡ answers.value
            → top_await (machine_term p self.new) ≡ answers.nothing }
        ensures thread { self.new.thread ≡ self.old.thread }
    {
        give_value(&mut self.stack, value);
    }

    /// Answers the thread, whose event was committed, by the value of its leaf, and the functions of the wraps through which that goes, the
    /// innermost first. It takes no memory.
    pub fn take_commit(&mut self, value: Value, wraps: Vec<FnRef>)
        requires { Awaits self.old (a_commit value wraps.items) }
        ensures meant { (p : List (PlainItem ℕ)) → Fits p self.old → machine_term p self.new
            ≡ plain_answered (text_of p) (a_commit value wraps.items) (machine_term p self.old) }
        ensures fits { (p : List (PlainItem ℕ)) → Fits p self.old →
            answer_agrees (arities p) (a_commit value wraps.items) ≡ true → Fits p self.new }
        ensures awaits { (p : List (PlainItem ℕ)) → Fits p self.old →
            top_await (machine_term p self.old) ≡ answers.commit
            → top_await (machine_term p self.new) ≡ answers.nothing }
        ensures thread { self.new.thread ≡ self.old.thread }
    {
        give_commit(&mut self.stack, value, wraps);
    }
}
