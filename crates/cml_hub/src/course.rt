//! The course of a program: its schedule so far, and where that has led.

ghost use Rattle.std.specs.Prelude.{◌≡◌, ◌↔◌, true, [], Some, IfOk, IfErr, IfSome, OnOk, OnErr, IsTrue, MatchOption, slice_get, length, map, not};
ghost use Rattle.std.specs.{List.{All}, Option.{option_copied}};
ghost use Rattle.cml_scan.specs.{World.{PlainThread, running, pending}, Scan.{scan, has_row}};
ghost use Rattle.cml_book.specs.{Walks.{is_running}, Swaps.{swaps}};
ghost use Rattle.cml_schedule.specs.{Laws.{IsWritable}, Laws.{AreNumbers}};
ghost use Rattle.cml_step.specs.Calls.{text_of};
ghost use Rattle.cml_hub.specs.{Dones.{GoesOn}, Courses.{IsOpening, Begins, HasMachine, MachineStands, IsOurs, run_of, Turns, TakesRow, Meets, Ticks}};
ghost use Rattle.cml_hub.specs.{Deeds.{origins, fault_count, IsKnown}, Playing.{picked, spent}, Reports.{report_of}};
ghost use Rattle.cml_hub.specs.Runs as spec;

use crate::choose::Chooser;
use crate::deeds::Deeds;
use crate::done::AfterTurn;
use crate::perform::RunBook;
use crate::pick::pick_row;
use crate::settle::resume_all;
use crate::trail::Trail;
use cml_book::{Book, Fault};
use cml_check::Prog;
use cml_index::OfferIndex;
use cml_scan::law::{no_head_where_no_row, scan_lists_what_is_enabled};
use cml_scan::{Meet, Table};
use cml_schedule::{Item, Report};
use cml_step::{Ask, Machine, Ran, Undo};
use cml_value::{FnRef, Tid};
use std::alloc::{AllocError, AllocFailed, Global};
use std::marker::Model;

// A program, the threads and objects, and what the items so far have left besides. The undo is no thread's: each turn uses its lists again.
// What the turns did is read off the schedule (`specs/Deeds`).
pub(crate) struct Course {
    program: Prog,
    threads: RunBook,
    undo: Undo,
    trail: Trail,
}

impl Model for Course {
    ghost use Rattle.cml_hub.specs.{CourseCodes.{course_code}, Courses.{PlainCourse, Leads}, Deeds.{IsKnown}, Trails.{course_of}};
    ghost use Rattle.cml_step.specs.Calls.{text_of};

    ghost Value = { PlainCourse };

    ghost coded = { course_code };

    ghost view = { λ c. course_of c.program c.threads c.trail };

    ghost invariant = { λ c. Leads (course_of c.program c.threads c.trail)
        × IsKnown (text_of c.program) c.trail.items.items c.trail.deeds.origins.items c.trail.deeds.faults };
}

// Written out, so that how the parts are dropped is proved once, and whoever drops a course calls this.
impl Drop for Course {
    fn drop(self) {
        let Course {
            program,
            threads,
            undo,
            trail,
        } = self;
        drop(program);
        drop(threads);
        drop(undo);
        drop(trail);
    }
}

// The machine of this number, if there is one.
fn machine_at(machines: &[Machine], thread: Tid) -> Option<&Machine>
    ensures { option_copied result ≡ slice_get machines.now thread.0 }
{
    machines.get(thread.0 as usize)
}

// The numbers of a row are in their ranges.
fn read_numbers(row: Meet)
    ensures { AreNumbers row }
{
    match row {
        Meet::Single { tid, leaf } => {
            // No effect: named here so that the prover knows what holds of it.
            let _numbers = (tid.0, leaf);
        }
        Meet::Pair {
            head,
            head_leaf,
            other,
            other_leaf,
        } => {
            // No effect: named here so that the prover knows what holds of it.
            let _numbers = (head.0, head_leaf, other.0, other_leaf);
        }
    }
}

impl Course {
    // The program.
    pub(crate) fn program(&self) -> &Prog
        ensures { result.now ≡ self.now.program }
    {
        &self.program
    }

    // The schedule so far, which leads to where the course stands.
    pub(crate) fn items(&self) -> &[Item]
        ensures items { result.now ≡ self.now.items }
        ensures leads { spec.stands (text_of self.now.program) self.now.items ≡ Some (run_of self.now) }
        ensures writable { All IsWritable self.now.items }
    {
        self.trail.items.as_slice()
    }

    // What was printed, with the lines of faults.
    pub(crate) fn output(&self) -> &str
        ensures { result.now ≡ self.now.output }
    {
        self.trail.output.as_str()
    }

    // How much of the budget was used by the schedule so far, which leads to where the course stands.
    pub(crate) fn used(&self) -> u128
        ensures used { result ≡ self.now.used }
        ensures leads { spec.stands (text_of self.now.program) self.now.items ≡ Some (run_of self.now) }
    {
        self.trail.used
    }

    // How many threads wait.
    pub(crate) fn pending_count(&self) -> usize
        ensures { result ≡ length (pending self.now.world) }
    {
        self.threads.pending_count()
    }

    // Whether the thread of this number runs.
    pub(crate) fn is_running(&self, thread: Tid) -> bool
        ensures { result ≡ is_running self.now.world thread.0 }
    {
        self.threads.is_running(thread)
    }

    // The next alarm, if there is one.
    pub(crate) fn next_alarm(&self) -> Option<u64>
        ensures { result ≡ spec.next_alarm self.now.world }
    {
        self.threads.next_alarm()
    }

    // Whether no row can be taken.
    pub(crate) fn is_still(&self) -> bool
        ensures { result ≡ spec.is_empty (scan self.now.world) }
    {
        no_head_where_no_row();
        self.threads.table().head_count() == 0
    }

    // A row that the chooser picks, if one can be taken.
    pub(crate) fn pick<C: Chooser>(&self, chooser: &mut C) -> Option<Meet>
        ensures row { MatchOption result (scan self.now.world ≡ []) (λ row. has_row (scan self.now.world) row ≡ true) }
        ensures picked { result ≡ picked (record { picks = C.picks; next = C.next }) chooser.old (scan self.now.world) }
        ensures spent { chooser.new ≡ spent (record { picks = C.picks; next = C.next }) chooser.old result }
    {
        pick_row(self.threads.table(), chooser)
    }

    // Whether the row can be taken.
    pub(crate) fn has(&self, row: &Meet) -> bool
        ensures { result ≡ has_row (scan self.now.world) row.now }
    {
        self.threads.table().has(row)
    }

    // Whether the row can be taken, and exchanges two values.
    pub(crate) fn swaps(&self, row: &Meet) -> bool
        ensures { result ≡ swaps self.now.world row.now }
    {
        self.threads.swaps(row)
    }

    // Whether the time may move to this tick: no thread runs, no row can be taken, and it is the next alarm.
    pub(crate) fn may_tick(&self, tick: u64, is_idle: bool) -> bool
        requires { is_idle ≡ not (spec.any_runs self.now.world) }
        ensures { result ≡ spec.is_allowed self.now.world (Item.Clock tick) }
    {
        is_idle && self.is_still() && self.next_alarm() == Some(tick)
    }

    // The report of what there is to see now, after this many items.
    pub(crate) fn report(&self, alloc: Global, at: u64) -> Result<Report, AllocError>
        ensures { IfOk result (λ report. report ≡ report_of at self.now.world) }
    {
        let rows = self.threads.table().rows(alloc)?;
        let waiting = self.threads.pending(alloc)?;
        Ok(Report::new(alloc, at, rows, waiting)?)
    }

    // The machine of a thread that runs.
    pub(crate) fn machine(&self, thread: Tid) -> &Machine
        requires { slice_get self.now.world.threads thread.0 ≡ Some running }
        ensures keeps { HasMachine self.now thread.0 result.now }
        ensures stands { GoesOn self.now.program result.now }
        ensures thread { result.now.thread ≡ thread.0 }
    {
        &self.trail.machines[thread.0 as usize]
    }

    // The threads and objects.
    pub(crate) fn book(&self) -> &RunBook
        ensures { result.now ≡ self.now.world }
    {
        &self.threads
    }

    // The machine of a thread, whatever it does, if there is such a one.
    pub(crate) fn machine_of(&self, thread: Tid) -> Option<&Machine>
        ensures machine { option_copied result ≡ slice_get self.now.machines thread.0 }
        ensures thread { IfSome result (λ m. m.now.thread ≡ thread.0) }
        ensures stands { (t : PlainThread) → slice_get self.now.world.threads thread.0 ≡ Some t →
            MatchOption result ⊥ (λ m. MachineStands self.now.program t m.now) }
    {
        machine_at(self.trail.machines.as_slice(), thread)
    }

    // The function with which the thread began, if there is such a one.
    pub(crate) fn origin(&self, thread: Tid) -> Option<&FnRef>
        ensures { option_copied result ≡ slice_get (origins (text_of self.now.program) self.now.items) thread.0 }
    {
        self.trail.deeds.origins.get(thread.0 as usize)
    }

    // How many threads ended at a fault.
    pub(crate) fn faults(&self) -> usize
        ensures { result ≡ fault_count (text_of self.now.program) self.now.items }
    {
        self.trail.deeds.faults
    }

    // Whether the slice is of this program, and some running thread has the machine with which it began. It compares both.
    pub(crate) fn is_ours(&self, ran: &Ran) -> bool
        ensures { IsTrue result ↔ IsOurs self.now ran.now }
    {
        self.program.same(ran.program()) && self.is_current(ran)
    }

    // The same of a slice that is known to be of this program: some running thread has the machine with which it began.
    pub(crate) fn is_current(&self, ran: &Ran) -> bool
        requires { ran.now.program ≡ self.now.program }
        ensures { IsTrue result ↔ IsOurs self.now ran.now }
    {
        let start = ran.start();
        let thread = start.thread();
        if !self.threads.is_running(thread) {
            return false;
        }
        self.trail.machines[thread.0 as usize].same(start)
    }

    // Gives the thread a turn.
    pub(crate) fn turn(&mut self, alloc: Global, thread: Tid) -> Result<AfterTurn, AllocError>
        requires { slice_get self.old.world.threads thread.0 ≡ Some running }
        ensures ok { IfOk result (λ gone. Turns self.old thread gone self.new) }
        ensures err { OnErr result (self.new ≡ self.old) }
    {
        let mut ask = Ask::Nothing;
        let made = self.trail.take_turn(
            alloc,
            &self.program,
            &mut self.threads,
            &mut self.undo,
            thread,
            &mut ask,
        )?;
        Ok(self.trail.add_turn(thread, ask, made))
    }

    // Adds the slice as a turn of its thread.
    pub(crate) fn give(&mut self, alloc: Global, ran: Ran) -> Result<(Tid, AfterTurn), Ran>
        requires { IsOurs self.old ran }
        ensures ok { IfOk result (λ r. Turns self.old r.0 r.1 self.new × (r.0.0 ≡ ran.start.thread)) }
        ensures err { IfErr result (λ back. (back ≡ ran) × (self.new ≡ self.old)) }
    {
        match self
            .trail
            .take_slice(alloc, &self.program, &mut self.threads, &ran)
        {
            Ok(made) => Ok(self.trail.add_slice(ran, made)),
            Err(_) => Err(ran),
        }
    }

    // Takes the row, as this item.
    pub(crate) fn meet(&mut self, alloc: Global, item: Item, row: Meet) -> Result<(), AllocError>
        requires takes { TakesRow item row }
        requires allowed { spec.is_allowed self.old.world item ≡ true }
        ensures ok { OnOk result (Meets self.old item row self.new) }
        ensures err { OnErr result (self.new ≡ self.old) }
    {
        scan_lists_what_is_enabled();
        read_numbers(row);
        self.trail.items.reserve(1)?;
        match self.threads.commit_known(alloc, row) {
            Ok(committed) => {
                resume_all(&mut self.trail.machines, committed);
                self.trail.items.push_reserved(item);
                self.trail.used += 1;
                Ok(())
            }
            Err(Fault::Memory) => Err(AllocError),
            Err(Fault::Refused(_)) => unreachable!(),
        }
    }

    // Moves the time to the next alarm.
    pub(crate) fn tick(&mut self, alloc: Global, tick: u64) -> Result<(), AllocError>
        requires { spec.is_allowed self.old.world (Item.Clock tick) ≡ true }
        ensures ok { OnOk result (Ticks self.old tick self.new) }
        ensures err { OnErr result (self.new ≡ self.old) }
    {
        self.trail.items.reserve(1)?;
        match self.threads.clock(alloc, tick) {
            Ok(()) => {
                self.trail.items.push_reserved(Item::Clock(tick));
                self.trail.used += 1;
                Ok(())
            }
            Err(Fault::Memory) => Err(AllocError),
            Err(Fault::Refused(_)) => unreachable!(),
        }
    }
}

// The machine that is about to call `main`, alone, and the book in which it begins.
fn opening(alloc: Global, program: &Prog) -> Result<(Vec<Machine>, RunBook), AllocError>
    ensures { IfOk result (λ r. IsOpening program.now r.0.items r.1) }
{
    let Ok(main) = FnRef::new(alloc, program.main(), Vec::new(alloc)) else {
        return Err(AllocError);
    };
    let Ok(machine) = Machine::start(alloc, program, Tid(0), main) else {
        return Err(AllocError);
    };
    let mut machines = Vec::new(alloc);
    machines.push(machine)?;
    let mut threads = Book::new(alloc, OfferIndex::new(alloc));
    match threads.spawn() {
        Ok(_) => Ok((machines, threads)),
        Err(_) => {
            drop(machines);
            drop(threads);
            Err(AllocError)
        }
    }
}

// What is known before the first item: thread 0 has begun with `main`, and nobody ended at a fault.
fn no_deeds(alloc: Global, program: &Prog) -> Result<Deeds, AllocError>
    ensures { IfOk result (λ d. IsKnown (text_of program.now) [] d.origins.items d.faults) }
{
    let Ok(main) = FnRef::new(alloc, program.main(), Vec::new(alloc)) else {
        return Err(AllocError);
    };
    let mut origins = Vec::new(alloc);
    origins.push(main)?;
    Ok(Deeds { origins, faults: 0 })
}

impl Course {
    // The course of a program at its beginning: thread 0 is about to call `main`.
    pub(crate) fn begin(alloc: Global, program: Prog) -> Result<Course, AllocFailed<Prog>>
        ensures ok { IfOk result (λ c. Begins program c) }
        ensures err { IfErr result (λ back. back.value ≡ program) }
    {
        let Ok(deeds) = no_deeds(alloc, &program) else {
            return Err(AllocFailed { value: program });
        };
        match opening(alloc, &program) {
            Ok((machines, threads)) => Ok(Course {
                program,
                threads,
                undo: Undo::new(alloc),
                trail: Trail {
                    items: Vec::new(alloc),
                    machines,
                    output: String::new(alloc),
                    used: 0,
                    deeds,
                },
            }),
            Err(_) => {
                drop(deeds);
                Err(AllocFailed { value: program })
            }
        }
    }

    // The program, and nothing else of the course. The schedule led to where the course stood.
    pub(crate) fn into_program(self) -> Prog
        ensures program { result ≡ self.program }
        ensures leads { spec.stands (text_of self.program) self.items ≡ Some (run_of self) }
    {
        let Course {
            program,
            threads,
            undo,
            trail,
        } = self;
        drop(threads);
        drop(undo);
        drop(trail);
        program
    }
}
