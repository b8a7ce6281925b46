//! What the items so far have left beside the threads and objects, and a turn that is added to it.

ghost use Rattle.std.specs.Prelude.{◌≡◌, ◌+◌, ◌*◌, ◌<◌, ◌≤◌, ◌++◌, Some, IfOk, OnOk, OnErr, length, slice_get};
ghost use Rattle.std.specs.String.{string_bytes, string_len, string_capacity};
ghost use Rattle.cml_scan.specs.World.{running};
ghost use Rattle.cml_step.specs.{AskViews.{plain_ask}, Machines.{PlainMachine}, Rans.{IsSlice}};
ghost use Rattle.cml_hub.specs.{Asking.{IsPrepared}, Deeds.{WasAsked}, Dones.{GoesOn, CanSettle, gone}};
ghost use Rattle.cml_hub.specs.Trails.{KeepsTrail, HasTurnRoom, HasRoomFor, IsTurnMade, AddsTurn};

use crate::deeds::{Deeds, note};
use crate::done::AfterTurn;
use crate::perform::{RunBook, prepare};
use crate::settle::settle;
use crate::turn::{TurnMade, take_turn};
use cml_check::Prog;
use cml_schedule::Item;
use cml_step::{Ask, Machine, Ran, Undo};
use cml_value::Tid;
use std::alloc::{AllocError, Global};

// The schedule so far, the machine of each thread, the output, how much of the budget was used, and what the turns did.
pub(crate) struct Trail {
    pub(crate) items: Vec<Item>,
    pub(crate) machines: Vec<Machine>,
    pub(crate) output: String,
    pub(crate) used: u128,
    pub(crate) deeds: Deeds,
}

// Written out, so that how the parts are dropped is proved once, and whoever drops one calls this.
impl Drop for Trail {
    fn drop(self) {
        let Trail {
            items,
            machines,
            output,
            used,
            deeds,
        } = self;
        drop(items);
        drop(machines);
        drop(output);
        drop(used);
        drop(deeds);
    }
}

// Appends a line to the output, where there is room for it.
fn tell(output: &mut String, line: &str)
    requires { string_len output.old + length line.now ≤ string_capacity output.old }
    ensures { string_bytes output.new ≡ string_bytes output.old ++ line.now }
{
    if line.is_empty() {
        return;
    }
    match output.push_str(line) {
        Ok(()) => {}
        Err(_) => unreachable!(),
    }
}

impl Trail {
    // Makes room for a turn: for its item, and for the machine and the origin of a thread that begins.
    fn reserve(&mut self) -> Result<(), AllocError>
        ensures keeps { KeepsTrail self.old self.old.machines.items self.new }
        ensures room { OnOk result (HasTurnRoom self.new) }
    {
        self.items.reserve(1)?;
        self.machines.reserve(1)?;
        self.deeds.origins.reserve(1)
    }

    // Runs a slice of the thread where its machine stands, writes what it asks into `ask` (`Nothing` before), and has the book do that.
    // The memory for the rest of the turn is there then. Where memory runs out nothing has changed.
    pub(crate) fn take_turn(
        &mut self,
        alloc: Global,
        program: &Prog,
        book: &mut RunBook,
        undo: &mut Undo,
        thread: Tid,
        ask: &mut Ask,
    ) -> Result<TurnMade, AllocError>
        requires running { slice_get book.old.threads thread.0 ≡ Some running }
        requires there { thread.0 < length self.old.machines.items }
        requires goes { (m : PlainMachine) → slice_get self.old.machines.items thread.0 ≡ Some m → GoesOn program.now m }
        requires nothing { ask.old ≡ Ask.Nothing }
        ensures taken { IfOk result (λ made. IsTurnMade program.now thread.0 (plain_ask ask.new) self.old book.old made self.new book.new) }
        ensures room { IfOk result (λ made. HasRoomFor self.new (string_bytes made.prepared.line)) }
        ensures err { OnErr result (KeepsTrail self.old self.old.machines.items self.new × (book.new ≡ book.old)) }
    {
        self.reserve()?;
        take_turn(
            alloc,
            program,
            book,
            &mut self.output,
            thread,
            &mut self.machines[thread.0 as usize],
            undo,
            ask,
        )
    }

    // Has the book do what a slice of this program asks that was run elsewhere. The memory for the rest of its turn is there then. Where
    // memory runs out nothing has changed.
    pub(crate) fn take_slice(
        &mut self,
        alloc: Global,
        program: &Prog,
        book: &mut RunBook,
        ran: &Ran,
    ) -> Result<TurnMade, AllocError>
        requires program { ran.now.program ≡ program.now }
        requires running { slice_get book.old.threads ran.now.start.thread ≡ Some running }
        ensures keeps { KeepsTrail self.old self.old.machines.items self.new }
        ensures slice { OnOk result (IsSlice ran.now) }
        ensures steps { IfOk result (λ made. made.steps ≡ ran.now.steps) }
        ensures done { IfOk result (λ made. IsPrepared program.now ran.now.start.thread ran.now.ask ran.now.end book.old book.new made.prepared) }
        ensures room { IfOk result (λ made. HasRoomFor self.new (string_bytes made.prepared.line)) }
        ensures err { OnErr result (book.new ≡ book.old) }
    {
        self.reserve()?;
        let steps = ran.steps();
        let thread = ran.start().thread();
        let prepared = prepare(
            alloc,
            program,
            book,
            &mut self.output,
            thread,
            ran.end(),
            ran.ask(),
        )?;
        Ok(TurnMade { steps, prepared })
    }

    // Adds the turn of the thread, whose machine stands where its slice ended: the machine is answered, and the item comes after the others.
    pub(crate) fn add_turn(&mut self, thread: Tid, ask: Ask, made: TurnMade) -> AfterTurn
        requires there { thread.0 < length self.old.machines.items }
        requires settles { (end : PlainMachine) → slice_get self.old.machines.items thread.0 ≡ Some end → CanSettle end made.prepared.done }
        requires asked { WasAsked made.prepared.done (plain_ask ask) }
        requires room { HasRoomFor self.old (string_bytes made.prepared.line) }
        requires used { self.old.used ≤ 1000 * length self.old.items.items }
        requires few { self.old.deeds.faults ≤ length self.old.items.items }
        ensures gone { result ≡ gone made.prepared.done }
        ensures adds { (end : PlainMachine) → slice_get self.old.machines.items thread.0 ≡ Some end
            → AddsTurn self.old thread end (plain_ask ask) made self.new }
    {
        let TurnMade { steps, prepared } = made;
        let gone = prepared.done.gone();
        note(&mut self.deeds, ask, &prepared.done);
        tell(&mut self.output, prepared.line.as_str());
        settle(&mut self.machines, thread, prepared.done);
        self.items.push_reserved(Item::Turn(thread));
        self.used += u128::from(steps);
        gone
    }

    // Adds the turn of the slice: its machine comes to stand where the slice ended.
    pub(crate) fn add_slice(&mut self, ran: Ran, made: TurnMade) -> (Tid, AfterTurn)
        requires there { ran.start.thread < length self.old.machines.items }
        requires settles { CanSettle ran.end made.prepared.done }
        requires asked { WasAsked made.prepared.done ran.ask }
        requires room { HasRoomFor self.old (string_bytes made.prepared.line) }
        requires used { self.old.used ≤ 1000 * length self.old.items.items }
        requires few { self.old.deeds.faults ≤ length self.old.items.items }
        ensures thread { result.0.0 ≡ ran.start.thread }
        ensures gone { result.1 ≡ gone made.prepared.done }
        ensures adds { AddsTurn self.old result.0 ran.end ran.ask made self.new }
    {
        let thread = ran.start().thread();
        let (end, ask) = ran.into_end();
        self.machines[thread.0 as usize] = end;
        (thread, self.add_turn(thread, ask, made))
    }
}
