//! What lies under the lock.

ghost use Rattle.std.specs.Prelude.{◌≡◌, ◌≢◌, ◌↔◌, ◌<◌, [], Some, IfOk, OnOk, OnErr, IsTrue, true, false, length};
ghost use Rattle.cml_hub.specs.{Courses.{run_of}, Kept.{TakesSlice, NoneOut}, Runs.{stands}};
ghost use Rattle.cml_step.specs.Calls.{text_of};
ghost use Rattle.cml_work.specs.Finds.{RunsHere, RunsHereOrNot, TakesOnce, LooksOnce, FindsNothing, HaveOneState, TellsReport};
ghost use Rattle.cml_work.specs.{Marks.{BeginsWith, IsKeeper, WasShown, shown_of}, Works.{OpenedBy, GoesOnFrom, IsJob, opening_of}};
ghost use Rattle.cml_work.specs.{Finds.{IsStoppedAt}, Picks.{ChoosesBy, PicksOn, PicksSome, picker}};

use crate::marks::{Board, Mark, learn, show};
use crate::opening::Opening;
use crate::waiters::{Waiters, turns_after};
use cml_check::Prog;
use cml_hub::law::what_is_played_is_picked;
use cml_hub::{Chooser, GiveFault, Hub, Next};
use cml_schedule::Report;
use cml_step::{Machine, Ran};
use std::alloc::{AllocError, Global};
use std::marker::{Brand, Model, PhantomData};
use std::sync::Wait;

// How many steps of the budget turns in place use before the lock is let go.
const BURST: u32 = 4096;

// What lies under the lock: a hub that goes on from the opening; the chooser of its rows, which picked each row that was taken, and is to
// pick the next one, unless the workers are to stop; whether they are, and whether all have ended; of how many reports the watcher was
// told; the workers that wait; and the lock's own mark (`keeper`), which knows a prefix of the hub's reports that has all that the
// watcher was shown.
#[derive(Drop)]
pub(crate) struct Locked<O: Opening, C: Chooser + Drop> {
    hub: Hub,
    chooser: C,
    is_stopped: bool,
    is_done: bool,
    told: usize,
    waiters: Waiters,
    keeper: Mark,
    of: PhantomData<O>,
}

impl<O: Opening, C: Chooser + Drop> Model for Locked<O, C> {
    ghost use Rattle.cml_work.specs.{Held.{Held, locked_code}, Marks.{BeginsWith, IsKeeper, known_of}, Picks.{ChoosesBy, picker}, Works.{OpenedBy}};

    ghost Value = { Held };

    ghost coded = { locked_code };

    ghost view = { λ l. record { hub = l.hub; is_stopped = l.is_stopped; is_done = l.is_done; told = l.told } };

    ghost invariant = { λ l. OpenedBy O.opening l.hub × IsKeeper O.board (known_of l.keeper) l.keeper × BeginsWith l.hub.reports (known_of l.keeper)
        × ChoosesBy O.opening O.picks l.hub (picker (record { picks = C.picks; next = C.next }) l.chooser) l.is_stopped };
}

// What a worker finds under the lock.
#[derive(Drop)]
pub(crate) enum Found {
    // A slice to run, of a thread of this program.
    Job((Prog, Machine)),
    // Nothing until a slice comes back.
    Wait,
    // Nothing more.
    Over,
}

// What the watcher finds under the lock.
#[derive(Drop)]
pub(crate) enum Told {
    // The report for which it asked.
    Report(Report),
    // That one is not made yet.
    Wait,
    // The workers have ended without it.
    Over,
}

// The schedule of the hub leads to where it stands.
pub(crate) fn leads(hub: &Hub)
    ensures { stands (text_of hub.now.course.program) hub.now.course.items ≡ Some (run_of hub.now.course) }
{
    // No effect: named here so that the prover knows what holds of it.
    let _items = hub.schedule();
}

// What there is to do. The copy of the program is made first, so that no job is lost where there is no memory for it.
fn take_job<C: Chooser>(alloc: Global, hub: &mut Hub, chooser: &mut C) -> Result<Found, AllocError>
    ensures job { IfOk result (λ found. IsJob hub.old.course.program found) }
    ensures takes { TakesOnce hub.old result hub.new }
    ensures goes_on { GoesOnFrom hub.old hub.new }
    ensures reports { BeginsWith hub.new.reports hub.old.reports }
    ensures picks { OnOk result (PicksOn (record { picks = C.picks; next = C.next }) hub.old chooser.old hub.new chooser.new) }
    ensures some { OnErr result (PicksSome (record { picks = C.picks; next = C.next }) hub.old chooser.old hub.new) }
{
    leads(hub);
    what_is_played_is_picked::<C>();
    let program = hub.program().copy()?;
    match hub.take(alloc, chooser) {
        Ok(Next::Job(machine)) => Ok(Found::Job((program, machine))),
        Ok(Next::Wait) => {
            drop(program);
            Ok(Found::Wait)
        }
        Ok(Next::Ended) => {
            drop(program);
            Ok(Found::Over)
        }
        Err(error) => {
            drop(program);
            Err(error)
        }
    }
}

impl<O: Opening, C: Chooser + Drop> Locked<O, C> {
    // The hub with the chooser, and the keeper's mark, which stands for no report yet; the workers run.
    pub(crate) fn new(hub: Hub, chooser: C, keeper: Mark) -> Locked<O, C>
        requires hub { opening_of hub ≡ O.opening }
        requires keeper { IsKeeper O.board [] keeper }
        requires picks { O.picks ≡ picker (record { picks = C.picks; next = C.next }) chooser }
        ensures { result ≡ record { hub = hub; is_stopped = false; is_done = false; told = 0 } }
    {
        Locked {
            hub,
            chooser,
            is_stopped: false,
            is_done: false,
            told: 0,
            waiters: Waiters::new(),
            keeper,
            of: PhantomData,
        }
    }

    // The hub, the chooser, and whether the workers were stopped.
    pub(crate) fn into_parts(self) -> (Hub, C, bool)
        ensures follows { OpenedBy O.opening result.0 }
        ensures hub { result.0 ≡ self.hub }
        ensures stopped { result.2 ≡ self.is_stopped }
        ensures chooses { ChoosesBy O.opening O.picks result.0 (picker (record { picks = C.picks; next = C.next }) result.1) result.2 }
    {
        let Locked {
            hub,
            chooser,
            is_stopped,
            is_done: _,
            told: _,
            waiters: _,
            keeper: _,
            of: _,
        } = self;
        (hub, chooser, is_stopped)
    }

    // What there is to do, unless the workers are to stop: what the hub's `take` hands out. Where memory runs out they are to stop, since the
    // chooser may have picked a row that was not taken.
    pub(crate) fn find(&mut self, alloc: Global) -> Result<Found, AllocError>
        ensures job { IfOk result (λ found. IsJob O.opening.program found) }
        ensures flags { OnOk result (HaveOneState self.old self.new) }
        ensures lost { OnErr result (IsStoppedAt self.old self.new) }
        ensures stopped { self.old.is_stopped ≡ true → FindsNothing self.old.hub result self.new.hub }
        ensures finds { self.old.is_stopped ≡ false → TakesOnce self.old.hub result self.new.hub }
    {
        if self.is_stopped {
            return Ok(Found::Over);
        }
        let answer = take_job(alloc, &mut self.hub, &mut self.chooser);
        self.is_stopped = answer.is_err();
        answer
    }

    // Takes back a slice of the program, as the hub's `give` does. The program is not compared.
    pub(crate) fn give(&mut self, alloc: Global, ran: Ran) -> Result<(), GiveFault>
        requires { ran.program ≡ O.opening.program }
        ensures hub { TakesSlice self.old.hub ran result self.new.hub }
        ensures flags { HaveOneState self.old self.new }
    {
        self.waiters.measure(ran.steps());
        self.hub.give_own(alloc, ran)
    }

    // Whether a worker that asks for a job is to wait, though a thread may be ready: slices are short, and one is out, so that another
    // worker comes back for the next.
    pub(crate) fn is_enough(&self) -> bool
        ensures out { IsTrue result → NoneOut self.now.hub → ⊥ }
        ensures stopped { self.now.is_stopped ≡ true → result ≡ false }
    {
        !self.is_stopped && !self.waiters.are_wanted() && self.hub.has_out()
    }

    // Whether slices are short, and none is out, so that turns can be run in place.
    fn is_alone(&self) -> bool
        ensures none_out { IsTrue result → NoneOut self.now.hub }
        ensures stopped { self.now.is_stopped ≡ true → result ≡ false }
        ensures going { IsTrue result → self.now.is_stopped ≡ false }
    {
        !self.is_stopped && !self.waiters.are_wanted() && !self.hub.has_out()
    }

    // Runs turns in place, until about 4,000 steps of the budget are used.
    fn run_here(&mut self, alloc: Global) -> Result<(), AllocError>
        requires none_out { NoneOut self.old.hub }
        requires going { self.old.is_stopped ≡ false }
        ensures flags { OnOk result (HaveOneState self.old self.new) }
        ensures lost { OnErr result (IsStoppedAt self.old self.new) }
        ensures runs { RunsHere self.old.hub self.new.hub }
    {
        leads(&self.hub);
        what_is_played_is_picked::<C>();
        let used = self.hub.used();
        let items = self.hub.schedule().len();
        let answer = self.hub.run_on(alloc, &mut self.chooser, BURST);
        self.waiters.measure_turns(
            self.hub.used().saturating_sub(used),
            turns_after(self.hub.schedule(), items),
        );
        self.is_stopped = answer.is_err();
        answer
    }

    // The same where slices are short and none is out; else nothing.
    fn run_short(&mut self, alloc: Global) -> Result<(), AllocError>
        ensures flags { OnOk result (HaveOneState self.old self.new) }
        ensures lost { OnErr result (IsStoppedAt self.old self.new) }
        ensures well { self.old.is_stopped ≡ true → OnErr result ⊥ }
        ensures stopped { self.old.is_stopped ≡ true → self.new.hub ≡ self.old.hub }
        ensures runs { RunsHereOrNot self.old.hub self.new.hub }
    {
        if !self.is_alone() {
            return Ok(());
        }
        self.run_here(alloc)
    }

    // What a worker finds that asks for a job. Where slices are short, it is to wait while one is out, without a look at whether a thread
    // is ready; where none is out, it runs turns in place first. Then it finds what `find` finds.
    pub(crate) fn look(&mut self, alloc: Global) -> Result<Found, AllocError>
        ensures job { IfOk result (λ found. IsJob O.opening.program found) }
        ensures flags { OnOk result (HaveOneState self.old self.new) }
        ensures lost { OnErr result (IsStoppedAt self.old self.new) }
        ensures stopped { self.old.is_stopped ≡ true → FindsNothing self.old.hub result self.new.hub }
        ensures looks { self.old.is_stopped ≡ false → LooksOnce self.old.hub result self.new.hub }
    {
        if self.is_enough() {
            return Ok(Found::Wait);
        }
        self.run_short(alloc)?;
        self.find(alloc)
    }

    // Whether a worker is to be woken: one waits, slices are long, and a thread is ready.
    pub(crate) fn has_more(&self) -> bool
        ensures { IsTrue result → self.now.hub.queue ≢ [] }
    {
        self.waiters.has_wanted() && self.hub.has_ready()
    }

    // Notes that a worker waits.
    pub(crate) fn wait(&mut self)
        ensures { self.new ≡ self.old }
    {
        self.waiters.wait();
    }

    // Notes that a worker that waited was woken.
    pub(crate) fn wake(&mut self)
        ensures { self.new ≡ self.old }
    {
        self.waiters.wake();
    }

    // Whether reports were made of which the watcher was not told. It is told of them now.
    pub(crate) fn has_news(&mut self) -> bool
        ensures news { IsTrue result ↔ (self.old.told < length self.old.hub.reports) }
        ensures told { self.new ≡ record self.old { told = length self.old.hub.reports } }
    {
        let told = self.told;
        self.told = self.hub.reports().len();
        told < self.told
    }

    // Has the workers stop.
    pub(crate) fn stop(&mut self)
        ensures { self.new ≡ record self.old { is_stopped = true } }
    {
        self.is_stopped = true;
    }

    // Notes that all workers have ended.
    pub(crate) fn close(&mut self)
        ensures { self.new ≡ record self.old { is_done = true } }
    {
        self.is_done = true;
    }

    // A copy of the report of this number, from 0, if it is made, whether the workers go on or not.
    pub(crate) fn report(&self, number: usize) -> Result<Told, AllocError>
        ensures { IfOk result (λ told. TellsReport self.now number told) }
    {
        if let Some(report) = self.hub.reports().get(number) {
            return Ok(Told::Report(report.copy()?));
        }
        if self.is_done {
            Ok(Told::Over)
        } else {
            Ok(Told::Wait)
        }
    }

    // A mark for the watcher, which is shown all that the keeper's mark stands for.
    pub(crate) fn mark(&mut self, board: &Board) -> Mark
        requires { board.now.table.shared.table_id ≡ O.board }
        ensures held { self.new ≡ self.old }
        ensures mark { WasShown O.board (shown_of result) result }
    {
        show(board, &mut self.keeper)
    }

    // Takes the watcher's mark back: the hub's reports begin with what it was shown. Returns one that is shown all reports.
    pub(crate) fn tell<R: Wait>(&mut self, rt: &R, board: &Board, mark: Mark) -> Mark
        requires board { board.now.table.shared.table_id ≡ O.board }
        requires mark { WasShown O.board (shown_of mark) mark }
        ensures held { self.new ≡ self.old }
        ensures mark { WasShown O.board self.old.hub.reports result }
        ensures shown { BeginsWith self.old.hub.reports (shown_of mark) }
    {
        learn::<Brand, R>(rt, board, &mut self.keeper, mark, self.hub.reports());
        show(board, &mut self.keeper)
    }
}
