//! The hub. It hands out the machines of threads that are ready, and takes each back with the slice that was run of it: at most 1,000 steps
//! of the thread. It chooses among the communications that are possible, and keeps the schedule of what happened.

ghost use Rattle.std.specs.Prelude.{◌≡◌, ◌≢◌, ◌↔◌, ◌++◌, ◌+◌, ◌-◌, ◌*◌, ◌≤◌, ◌<◌, [], Some, IfOk, IfErr, IfSome, OnOk, OnErr, IsTrue, MatchOption, Ok, true, nat_le, length, slice_get};
ghost use Rattle.std.specs.{Option.{option_copied}, Vec.{vec_len, vec_capacity}};
ghost use Rattle.cml_scan.specs.World.{PlainThread, pending, running};
ghost use Rattle.cml_check.specs.Sizes.{size_of};
ghost use Rattle.cml_schedule.specs.{Written.{schedule_text}, Reading.{ScheduleReadsAs}};
ghost use Rattle.cml_step.specs.Calls.{text_of};
ghost use Rattle.cml_hub.specs.{Courses.{run_of, TakesRow, MachineStands, IsOurs}, Deeds.{origins, fault_count}, Reports.{AreReports, IsDueReport}};
ghost use Rattle.cml_hub.specs.Kept.{IsBudget, IsWatch, IsAtStart, Continues, Extends, HandsOut, is_ended, NoneDue, NoneOut, AllOut, OnlyRunningOut, NoneOutOrSame, TakesSlice, IsFar, IsOver, IsFollowed, Replays, FitsSize};
ghost use Rattle.cml_hub.specs.{ReadyQueue.{left_by}, Playing.{parties, ready_after, MovesBy, GoesIfLeftBy, PlaysOut, PlaysSoFar, PlaysFurther, PlaysSome, PlaysUpTo}};
ghost use Rattle.cml_hub.specs.Moves.{IsNext, lines_up, marks_after, PartiesAway, marks_met, AddsItem, TakesBack, Reported, HandedOut, LeavesFirst, MovedOn, CalledBack, Happens, GoesIfLeft, with_report};
ghost use Rattle.cml_hub.specs.Runs as spec;

use crate::choose::Chooser;
use crate::course::Course;
use crate::done::AfterTurn;
use crate::fault::{End, GiveFault, Next, ReplayFault};
use crate::ready_queue::ReadyQueue;
use cml_book::Book;
use cml_check::Prog;
use cml_index::OfferIndex;
use cml_scan::Meet;
use cml_schedule::law::written_is_read;
use cml_schedule::{Item, Plan, Report, schedule_text};
use cml_step::{Machine, Ran};
use cml_value::{FnRef, Tid};
use std::alloc::{AllocError, AllocFailed, Global};
use std::marker::Model;

/// The threads of a program, with the schedule that led to where they stand. Whatever is done with a hub, its schedule leads from the
/// beginning of the program to the world, the machines and the output that it has, and its reports show what there was to see on the way.
#[derive(Drop)]
pub struct Hub {
    // the schedule, and the world, the machines and the output to which it leads
    course: Course,
    // the threads that are ready, in their order, and what is known of each other one
    marks: ReadyQueue,
    budget: u64,
    watch: Option<u64>,
    reports: Vec<Report>,
}

impl Model for Hub {
    ghost use Rattle.std.specs.Prelude.{map};
    ghost use Rattle.cml_hub.specs.{ReadyQueue.{is_out}, KeptCodes.{kept_code}, Kept.{Kept, Stands}};

    ghost Value = { Kept };

    ghost coded = { kept_code };

    ghost view = { λ h. record {
      course = h.course;
      budget = h.budget;
      watch = h.watch;
      out = map is_out h.marks.marks;
      queue = h.marks.queue;
      reports = h.reports.items;
    } };

    ghost invariant = { λ h. Stands (record {
      course = h.course;
      budget = h.budget;
      watch = h.watch;
      out = map is_out h.marks.marks;
      queue = h.marks.queue;
      reports = h.reports.items;
    }) h.marks.marks };
}

// Queues the thread after its turn, if it still runs, and notes whether it does. A thread that began by the turn is queued first.
fn place(marks: &mut ReadyQueue, thread: Tid, gone: AfterTurn)
    requires there { thread.0 < length marks.old.marks }
    requires next { IsNext gone marks.old.marks }
    requires room { 2 ≤ marks.old.room }
    requires more { 1 ≤ marks.old.more }
    ensures marks { marks.new.marks ≡ marks_after thread.0 gone marks.old.marks }
    ensures queue { marks.new.queue ≡ left_by thread.0 marks.old.queue ++ lines_up thread gone }
{
    marks.set_not_running(thread);
    match gone {
        AfterTurn::On => marks.make_ready(thread),
        AfterTurn::With(child) => {
            marks.add(child);
            marks.make_ready(thread);
        }
        AfterTurn::Off => {}
    }
}

// Makes the parties of a row ready, the head first.
fn place_all(marks: &mut ReadyQueue, row: Meet)
    requires away { PartiesAway marks.old.marks row }
    requires room { 2 ≤ marks.old.room }
    ensures marks { marks.new.marks ≡ marks_met row marks.old.marks }
    ensures queue { marks.new.queue ≡ marks.old.queue ++ parties row }
{
    match row {
        Meet::Single { tid, .. } => marks.make_ready(tid),
        Meet::Pair { head, other, .. } => {
            marks.make_ready(head);
            marks.make_ready(other);
        }
    }
}

// Whether a report is due after `items` items, where `reports` were made, and one is made after each `every` items.
fn is_due(every: u64, reports: usize, items: usize) -> bool
    ensures { IsTrue result ↔ (items ≡ every * (reports + 1)) }
{
    u128::from(every) * (reports as u128 + 1) == items as u128
}

// The report that is due, with room for it among the others.
fn due(
    alloc: Global,
    course: &Course,
    watch: Option<u64>,
    reports: &mut Vec<Report>,
) -> Result<Option<Report>, AllocError>
    ensures due { IfOk result (λ due. IsDueReport watch (length course.now.items) (length reports.old.items) course.now.world due) }
    ensures leads { spec.stands (text_of course.now.program) course.now.items ≡ Some (run_of course.now) }
    ensures items { reports.new.items ≡ reports.old.items }
    ensures room { IfOk result (λ due. IfSome due (λ _. vec_len reports.new < vec_capacity reports.new)) }
{
    let items = course.items().len();
    let Some(every) = watch else {
        return Ok(None);
    };
    if !is_due(every, reports.len(), items) {
        return Ok(None);
    }
    reports.reserve(1)?;
    Ok(Some(course.report(alloc, items as u64)?))
}

// Appends the report, if there is one.
fn add_report(reports: &mut Vec<Report>, report: Option<Report>)
    requires { IfSome report (λ _. vec_len reports.old < vec_capacity reports.old) }
    ensures { reports.new.items ≡ with_report reports.old.items report }
{
    if let Some(report) = report {
        reports.push_reserved(report);
    }
}

impl Hub {
    /// The hub of a program at its beginning: thread 0 is about to call `main`. It runs until the budget is used; a turn of a thread uses
    /// its steps, and any other item uses 1. With a watch, a report is made each time that many more items have happened. Both are from
    /// 1 to 1,000,000,000.
    ///
    /// # Errors
    /// Out of memory; the program comes back.
    pub fn begin(
        alloc: Global,
        program: Prog,
        budget: u64,
        watch: Option<u64>,
    ) -> Result<Hub, AllocFailed<Prog>>
        requires budget { IsBudget budget }
        requires watch { IsWatch watch }
        ensures ok { IfOk result (λ hub. IsAtStart program budget watch hub) }
        ensures err { IfErr result (λ back. back.value ≡ program) }
    {
        let course = Course::begin(alloc, program)?;
        let mut marks = ReadyQueue::new(alloc);
        match marks.reserve() {
            Ok(()) => {
                marks.add(Tid(0));
                Ok(Hub {
                    course,
                    marks,
                    budget,
                    watch,
                    reports: Vec::new(alloc),
                })
            }
            Err(_) => Err(AllocFailed {
                value: course.into_program(),
            }),
        }
    }

    /// The program.
    pub fn program(&self) -> &Prog
        ensures { result.now ≡ self.now.course.program }
    {
        self.course.program()
    }

    /// The budget: how many steps the run may take.
    pub fn budget(&self) -> u64
        ensures budget { result ≡ self.now.budget }
        ensures range { IsBudget result }
    {
        self.budget
    }

    /// After how many items a report is made, if any is.
    pub fn watch(&self) -> Option<u64>
        ensures watch { result ≡ self.now.watch }
        ensures range { IsWatch result }
    {
        self.watch
    }

    /// What happened, in order. It leads to where the hub stands. Each thread of which a slice is out runs in the world to which it leads.
    pub fn schedule(&self) -> &[Item]
        ensures items { result.now ≡ self.now.course.items }
        ensures leads { spec.stands (text_of self.now.course.program) self.now.course.items ≡ Some (run_of self.now.course) }
        ensures out { OnlyRunningOut self.now }
    {
        self.course.items()
    }

    /// The output: what was printed, with the lines of faults. (The `out` of clauses is something else: which slices are out.)
    pub fn out(&self) -> &str
        ensures { result.now ≡ self.now.course.output }
    {
        self.course.output()
    }

    /// How the run stands.
    pub fn end(&self) -> End
        ensures { result ≡ spec.ending self.now.budget (run_of self.now.course) }
    {
        if self.has_nothing_left() {
            End::Quiet
        } else if u128::from(self.budget) <= self.course.used() {
            End::Budget
        } else {
            End::Partial
        }
    }

    /// How many threads wait.
    pub fn pending(&self) -> usize
        ensures { result ≡ length (pending self.now.course.world) }
    {
        self.course.pending_count()
    }

    /// How much of the budget was used.
    pub fn used(&self) -> u128
        ensures { result ≡ self.now.course.used }
    {
        self.course.used()
    }

    /// The threads and objects where the schedule has led: who waits and for what, what the objects hold, which rows can be taken, and the time.
    pub fn book(&self) -> &Book<OfferIndex>
        ensures { result.now ≡ self.now.course.world }
    {
        self.course.book()
    }

    /// Where the thread of this number stands; each thread has its machine. It fits the program while the thread runs or waits.
    pub fn machine(&self, thread: Tid) -> Option<&Machine>
        ensures machine { option_copied result ≡ slice_get self.now.course.machines thread.0 }
        ensures thread { IfSome result (λ m. m.now.thread ≡ thread.0) }
        ensures stands { (t : PlainThread) → slice_get self.now.course.world.threads thread.0 ≡ Some t →
            MatchOption result ⊥ (λ m. MachineStands self.now.course.program t m.now) }
    {
        self.course.machine_of(thread)
    }

    /// The function with which the thread began, and the values that it was given, if there is such a thread.
    pub fn origin(&self, thread: Tid) -> Option<&FnRef>
        ensures { option_copied result ≡ slice_get (origins (text_of self.now.course.program) self.now.course.items) thread.0 }
    {
        self.course.origin(thread)
    }

    /// How many threads ended at a fault.
    pub fn faults(&self) -> usize
        ensures { result ≡ fault_count (text_of self.now.course.program) self.now.course.items }
    {
        self.course.faults()
    }

    /// The reports that were made.
    pub fn reports(&self) -> &[Report]
        ensures reports { result.now ≡ self.now.reports }
        ensures meant { AreReports (text_of self.now.course.program) self.now.course.items self.now.watch self.now.reports }
    {
        self.reports.as_slice()
    }

    /// Whether a thread is ready, so that its machine can be handed out next.
    pub fn has_ready(&self) -> bool
        ensures { IsTrue result ↔ (self.now.queue ≢ []) }
    {
        self.marks.front().is_some()
    }

    /// Whether a slice is out: a machine was handed out, and what it ran has not come back.
    pub fn has_out(&self) -> bool
        ensures { IsTrue result ↔ (NoneOut self.now → ⊥) }
    {
        self.marks.has_out()
    }

    // Whether nothing is left to do.
    fn has_nothing_left(&self) -> bool
        ensures { result ≡ spec.terminal self.now.course.world }
    {
        self.marks.is_idle() && self.course.is_still() && self.course.next_alarm().is_none()
    }

    // Whether the items so far have used the budget.
    fn is_spent(&self) -> bool
        ensures spent { result ≡ nat_le self.now.budget self.now.course.used }
        ensures leads { spec.stands (text_of self.now.course.program) self.now.course.items ≡ Some (run_of self.now.course) }
    {
        u128::from(self.budget) <= self.course.used()
    }

    // Whether the run is over: nothing is left to do, or the items so far have used the budget.
    fn is_over(&self) -> bool
        ensures over { result ≡ spec.over self.now.budget (run_of self.now.course) }
        ensures leads { spec.stands (text_of self.now.course.program) self.now.course.items ≡ Some (run_of self.now.course) }
    {
        self.is_spent() || self.has_nothing_left()
    }

    // Makes the report that is due.
    fn report(&mut self, alloc: Global) -> Result<(), AllocError>
        ensures ok { OnOk result (Reported self.old self.new) }
        ensures err { OnErr result (self.new ≡ self.old) }
    {
        match self.watch {
            None => Ok(()),
            Some(_) => self.report_watched(alloc),
        }
    }

    // The same, with a watch.
    #[inline(never)]
    fn report_watched(&mut self, alloc: Global) -> Result<(), AllocError>
        ensures ok { OnOk result (Reported self.old self.new) }
        ensures err { OnErr result (self.new ≡ self.old) }
    {
        if let Some(report) = due(alloc, &self.course, self.watch, &mut self.reports)? {
            self.reports.push_reserved(report);
        }
        Ok(())
    }

    // The machine of the thread that is ready and comes next.
    fn hand_out(&mut self, alloc: Global) -> Result<Option<Machine>, AllocError>
        ensures ok { IfOk result (λ job. HandedOut self.old job self.new) }
        ensures first { IfOk result (λ job. LeavesFirst self.old.queue job self.new.queue) }
        ensures err { OnErr result (self.new ≡ self.old) }
    {
        let Some(thread) = self.marks.front() else {
            return Ok(None);
        };
        let machine = self.course.machine(thread).copy(alloc)?;
        self.marks.hand_out(thread);
        Ok(Some(machine))
    }

    // Gives the thread a turn.
    fn turn(&mut self, alloc: Global, thread: Tid) -> Result<(), AllocError>
        requires running { slice_get self.old.course.world.threads thread.0 ≡ Some running }
        requires due { NoneDue self.old }
        ensures moves { OnOk result (AddsItem self.old (Item.Turn thread) self.new) }
        ensures back { OnOk result (TakesBack self.old.out thread.0 self.new.out) }
        ensures queue { OnOk result (self.new.queue ≡ left_by thread.0 self.old.queue ++ ready_after self.old.course.world self.new.course.world thread) }
        ensures err { OnErr result (self.new ≡ self.old) }
    {
        self.marks.reserve()?;
        let gone = self.course.turn(alloc, thread)?;
        place(&mut self.marks, thread, gone);
        Ok(())
    }

    // Takes the row, as this item.
    fn meet(&mut self, alloc: Global, item: Item, row: Meet) -> Result<(), AllocError>
        requires takes { TakesRow item row }
        requires allowed { spec.is_allowed self.old.course.world item ≡ true }
        requires due { NoneDue self.old }
        ensures moves { OnOk result (AddsItem self.old item self.new) }
        ensures out { self.new.out ≡ self.old.out }
        ensures queue { OnOk result (self.new.queue ≡ self.old.queue ++ parties row) }
        ensures err { OnErr result (self.new ≡ self.old) }
    {
        self.marks.reserve()?;
        self.course.meet(alloc, item, row)?;
        place_all(&mut self.marks, row);
        Ok(())
    }

    // Moves the time to the next alarm.
    fn tick(&mut self, alloc: Global, tick: u64) -> Result<(), AllocError>
        requires allowed { spec.is_allowed self.old.course.world (Item.Clock tick) ≡ true }
        requires due { NoneDue self.old }
        ensures moves { OnOk result (AddsItem self.old (Item.Clock tick) self.new) }
        ensures out { self.new.out ≡ self.old.out }
        ensures queue { self.new.queue ≡ self.old.queue }
        ensures err { OnErr result (self.new ≡ self.old) }
    {
        self.course.tick(alloc, tick)?;
        Ok(())
    }

    // Takes a row that the chooser picks. If there is none and no thread runs, moves the time to the next alarm. Returns whether it did one
    // of the two. If it did neither and no thread runs, nothing is left to do.
    fn move_on<C: Chooser>(&mut self, alloc: Global, chooser: &mut C) -> Result<bool, AllocError>
        requires all_out { AllOut self.old }
        requires due { NoneDue self.old }
        ensures ok { IfOk result (λ moved. MovedOn self.old moved self.new) }
        ensures plays { IfOk result (λ moved. MovesBy (record { picks = C.picks; next = C.next }) self.old chooser.old moved self.new chooser.new) }
        ensures err { OnErr result (self.new ≡ self.old) }
    {
        if let Some(row) = self.course.pick(chooser) {
            let item = if self.course.swaps(&row) {
                Item::Exchange(row)
            } else {
                Item::Meet(row)
            };
            self.meet(alloc, item, row)?;
            return Ok(true);
        }
        if !self.marks.is_idle() {
            return Ok(false);
        }
        match self.course.next_alarm() {
            Some(tick) => {
                self.tick(alloc, tick)?;
                Ok(true)
            }
            None => Ok(false),
        }
    }

    /// Returns what there is to do next. It makes the report that is due, takes rows that the chooser picks and moves the time, until a
    /// thread is ready, or there is nothing to do before a slice comes back, or the run is over. The machine of the first thread that is
    /// ready is handed out, for [`cml_step::slice`]; the slice is to be given back by [`Hub::give`].
    ///
    /// # Errors
    /// Out of memory. The items and reports that were made before stay. What the chooser picked for the item that was not made is not taken
    /// back.
    pub fn take<C: Chooser>(&mut self, alloc: Global, chooser: &mut C) -> Result<Next, AllocError>
        ensures more { Extends self.old self.new }
        ensures next { IfOk result (λ next. HandsOut self.old next self.new) }
        ensures ended { IfOk result (λ next. is_ended next ≡ spec.over self.new.budget (run_of self.new.course)) }
        ensures plays { IfOk result (λ next. PlaysUpTo (record { picks = C.picks; next = C.next }) self.old chooser.old next self.new chooser.new) }
        ensures so_far { OnErr result (PlaysSome (record { picks = C.picks; next = C.next }) self.old chooser.old self.new) }
        ensures due { OnOk result (NoneDue self.new) }
        ensures err { OnErr result (self.new.out ≡ self.old.out) }
    {
        self.report(alloc)?;
        'moves: while !self.is_over() {
            if let Some(machine) = self.hand_out(alloc)? {
                return Ok(Next::Job(machine));
            }
            if !self.move_on(alloc, chooser)? {
                return Ok(Next::Wait);
            }
            self.report(alloc)?;
        }
        Ok(Next::Ended)
    }

    /// Takes a slice back: the turn of its thread is added, what the thread asks is done, and if the thread goes on it is ready again,
    /// after the others. The slice need not be of a machine that was handed out: it is taken exactly where it is of this program and
    /// begins where a running thread stands now, whatever the budget.
    ///
    /// # Errors
    /// A slice of another program or of an older machine; or out of memory. The slice comes back, and nothing has changed.
    pub fn give(&mut self, alloc: Global, ran: Ran) -> Result<(), GiveFault>
        ensures { TakesSlice self.old ran result self.new }
    {
        if self.course.is_ours(&ran) {
            self.take_back(alloc, ran)
        } else {
            Err(GiveFault::Stranger(ran))
        }
    }

    /// The same of a slice that is known to be of the hub's own program, which is not compared.
    ///
    /// # Errors
    /// A slice of an older machine; or out of memory. The slice comes back, and nothing has changed.
    pub fn give_own(&mut self, alloc: Global, ran: Ran) -> Result<(), GiveFault>
        requires { ran.program ≡ self.old.course.program }
        ensures { TakesSlice self.old ran result self.new }
    {
        if self.course.is_current(&ran) {
            self.take_back(alloc, ran)
        } else {
            Err(GiveFault::Stranger(ran))
        }
    }

    // Takes back a slice of this program that begins where a running thread stands.
    fn take_back(&mut self, alloc: Global, ran: Ran) -> Result<(), GiveFault>
        requires { IsOurs self.old.course ran }
        ensures { TakesSlice self.old ran result self.new }
    {
        let Ok(report) = due(alloc, &self.course, self.watch, &mut self.reports) else {
            return Err(GiveFault::Memory(ran));
        };
        let Ok(()) = self.marks.reserve() else {
            return Err(GiveFault::Memory(ran));
        };
        match self.course.give(alloc, ran) {
            Ok((thread, gone)) => {
                add_report(&mut self.reports, report);
                place(&mut self.marks, thread, gone);
                Ok(())
            }
            Err(ran) => Err(GiveFault::Memory(ran)),
        }
    }

    // Makes the threads whose slices are out ready again.
    fn call_back(&mut self) -> Result<(), AllocError>
        ensures ok { OnOk result (CalledBack self.old self.new) }
        ensures err { OnErr result (self.new ≡ self.old) }
    {
        self.marks.call_back()
    }

    // Adds an item; no slice is out. The item is a turn of the first ready thread; or, if none is ready, a row or a tick. Returns whether
    // anything was left to do: so a run asks only once whether a row can be taken.
    fn go_alone<C: Chooser>(&mut self, alloc: Global, chooser: &mut C) -> Result<bool, AllocError>
        requires none_out { NoneOut self.old }
        requires due { NoneDue self.old }
        ensures ok { IfOk result (λ went. GoesIfLeft self.old went self.new) }
        ensures plays { IfOk result (λ went. GoesIfLeftBy (record { picks = C.picks; next = C.next }) self.old chooser.old went self.new chooser.new) }
        ensures err { OnErr result (self.new ≡ self.old) }
    {
        if let Some(thread) = self.marks.front() {
            self.turn(alloc, thread)?;
            return Ok(true);
        }
        self.move_on(alloc, chooser)
    }

    /// Runs until nothing is left to do or the budget is used. Before that, the threads whose slices are out are made ready again: they
    /// come after those that are ready, in the order of their numbers.
    ///
    /// # Errors
    /// Out of memory. The items and reports that were made before stay. What the chooser picked for the item that was not made is not taken
    /// back. No slice is out then; or those that are out could not be queued, and nothing has changed.
    pub fn run_alone<C: Chooser>(
        &mut self,
        alloc: Global,
        chooser: &mut C,
    ) -> Result<End, AllocError>
        ensures more { Continues self.old self.new }
        ensures ok { IfOk result (λ end. IsOver end self.new) }
        ensures plays { OnOk result (PlaysOut (record { picks = C.picks; next = C.next }) self.old chooser.old self.new chooser.new) }
        ensures so_far { OnErr result (PlaysSoFar (record { picks = C.picks; next = C.next }) self.old chooser.old self.new) }
        ensures err { OnErr result (NoneOutOrSame self.old self.new) }
    {
        self.call_back()?;
        self.report(alloc)?;
        'turns: while !self.is_spent() {
            if !self.go_alone(alloc, chooser)? {
                return Ok(End::Quiet);
            }
            self.report(alloc)?;
        }
        Ok(self.end())
    }

    // Whether at least `steps` steps of the budget have been used since the moment when `begun` had been.
    fn has_used(&self, begun: u128, steps: u32) -> bool
        ensures { IsTrue result ↔ (steps ≤ self.now.course.used - begun) }
    {
        u128::from(steps) <= self.course.used().saturating_sub(begun)
    }

    /// Goes on as [`Hub::run_alone`] does, until `steps` more steps of the budget are used or the run is over. No slice is out.
    ///
    /// # Errors
    /// Out of memory. The items and reports that were made before stay. What the chooser picked for the item that was not made is not taken
    /// back.
    pub fn run_on<C: Chooser>(
        &mut self,
        alloc: Global,
        chooser: &mut C,
        steps: u32,
    ) -> Result<(), AllocError>
        requires { NoneOut self.old }
        ensures more { Continues self.old self.new }
        ensures none_out { NoneOut self.new }
        ensures far { OnOk result (IsFar self.old steps self.new) }
        ensures plays { OnOk result (PlaysFurther (record { picks = C.picks; next = C.next }) self.old chooser.old self.new chooser.new) }
        ensures so_far { OnErr result (PlaysSome (record { picks = C.picks; next = C.next }) self.old chooser.old self.new) }
    {
        let begun = self.course.used();
        self.report(alloc)?;
        'turns: while !self.is_spent() {
            if self.has_used(begun, steps) {
                return Ok(());
            }
            if !self.go_alone(alloc, chooser)? {
                return Ok(());
            }
            self.report(alloc)?;
        }
        Ok(())
    }

    // Whether the item is allowed now.
    fn is_allowed(&self, item: &Item) -> bool
        ensures { result ≡ spec.is_allowed self.now.course.world item.now }
    {
        match item {
            Item::Turn(thread) => self.course.is_running(*thread),
            Item::Meet(row) => self.course.has(row),
            Item::Exchange(row) => self.course.swaps(row),
            Item::Clock(tick) => self.course.may_tick(*tick, self.marks.is_idle()),
        }
    }

    // Lets the item happen, which is allowed now.
    fn add(&mut self, alloc: Global, item: Item) -> Result<(), AllocError>
        requires allowed { spec.is_allowed self.old.course.world item ≡ true }
        requires due { NoneDue self.old }
        requires none_out { NoneOut self.old }
        ensures moves { OnOk result (AddsItem self.old item self.new) }
        ensures none_out { OnOk result (NoneOut self.new) }
        ensures err { OnErr result (self.new ≡ self.old) }
    {
        match item {
            Item::Turn(thread) => self.turn(alloc, thread),
            Item::Meet(row) => self.meet(alloc, item, row),
            Item::Exchange(row) => self.meet(alloc, item, row),
            Item::Clock(tick) => self.tick(alloc, tick),
        }
    }

    /// The hub that has gone through a schedule. The budget stops nothing here; it only says how the run ends.
    ///
    /// # Errors
    /// The first item that is not allowed where it stands, by its number, counted from 1; or out of memory. Both hand the program back.
    pub fn replay(
        alloc: Global,
        program: Prog,
        budget: u64,
        watch: Option<u64>,
        items: &[Item],
    ) -> Result<Hub, ReplayFault>
        requires budget { IsBudget budget }
        requires watch { IsWatch watch }
        ensures { Replays program budget watch items.now result }
    {
        let mut hub = match Hub::begin(alloc, program, budget, watch) {
            Ok(hub) => hub,
            Err(AllocFailed { value }) => return Err(ReplayFault::Memory(value)),
        };
        for i in 0..items.len() {
            if !hub.is_allowed(&items[i]) {
                return Err(ReplayFault::BadItem(i + 1, hub.course.into_program()));
            }
            match hub.step(alloc, items[i]) {
                Ok(()) => {}
                Err(_) => return Err(ReplayFault::Memory(hub.course.into_program())),
            }
        }
        Ok(hub)
    }

    /// Lets the item happen if it is allowed now; else nothing comes. The report that is due is made first. Returns whether the item came.
    ///
    /// # Errors
    /// Out of memory. No item came; the report may have been made.
    pub fn follow(&mut self, alloc: Global, item: Item) -> Result<bool, AllocError>
        requires { NoneOut self.old }
        ensures ok { IfOk result (λ came. IsFollowed self.old item came self.new) }
        ensures none_out { NoneOut self.new }
        ensures err { OnErr result (self.new.course ≡ self.old.course) }
    {
        self.report(alloc)?;
        if !self.is_allowed(&item) {
            return Ok(false);
        }
        self.add(alloc, item)?;
        Ok(true)
    }

    // Lets the item happen, and makes the report that is due after it.
    fn step(&mut self, alloc: Global, item: Item) -> Result<(), AllocError>
        requires allowed { spec.is_allowed self.old.course.world item ≡ true }
        requires due { NoneDue self.old }
        requires none_out { NoneOut self.old }
        ensures ok { OnOk result (Happens self.old item self.new) }
        ensures program { self.new.course.program ≡ self.old.course.program }
    {
        self.add(alloc, item)?;
        self.report(alloc)
    }

    /// The schedule as a text, in version 2: the budget, the size of the program (how many functions and statements it has), a line for each
    /// item, and `end`. Where the text has at most 67,108,864 bytes, [`cml_schedule::read_schedule`] reads it as this very schedule.
    ///
    /// # Errors
    /// Out of memory.
    pub fn write_schedule(&self, alloc: Global) -> Result<Vec<u8>, AllocError>
        ensures text { IfOk result (λ text. text.items ≡ schedule_text self.now.budget (size_of self.now.course.program) self.now.course.items) }
        ensures read { IfOk result (λ text. ScheduleReadsAs text.items (Ok (record {
          budget = self.now.budget;
          size = Some (size_of self.now.course.program);
          items = self.now.course.items;
        }))) }
    {
        written_is_read();
        let text = schedule_text(
            alloc,
            self.budget,
            self.program().size(),
            self.course.items(),
        )?;
        Ok(text.into_bytes())
    }
}

/// Whether the schedule may be one of this program: it says no size, or the program's.
pub fn matches_program(plan: &Plan, program: &Prog) -> bool
    ensures { IsTrue result ↔ FitsSize plan.now.size program.now }
{
    match plan.size {
        Some(size) => size == program.size(),
        None => true,
    }
}
