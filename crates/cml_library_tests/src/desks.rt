//! A worker by itself, over a desk in memory.

ghost use Rattle.std.specs.Prelude.{◌≡◌, IfOk};
ghost use Rattle.cml_step.specs.{Answers.{top_await, nothing}, Machines.{machine_term, Fits}};

use crate::making::{MEMORY, program_of};
use cml_check::Prog;
use cml_hub::GiveFault;
use cml_step::{Machine, Ran};
use cml_value::{FnRef, Tid};
use cml_work::{Desk, Gate, worker};
use std::alloc::{AllocError, Global};
use std::process::Abort;
use std::sync::Wait;
use std::sync::atomic::{AtomicU64, Ordering};

// A desk that hands out three machines, of the threads 0 to 2 before `main`. It notes when a slice of each began and when it came back, as
// numbers from 1.
#[derive(Drop)]
struct Bench {
    program: Prog,
    handed: AtomicU64,
    moment: AtomicU64,
    entered: [AtomicU64; 3],
    given: [AtomicU64; 3],
    stopped: AtomicU64,
    refuses: Refuses,
}

// How a desk refuses each slice that comes back, if it does.
#[derive(Clone, Copy, PartialEq, Eq)]
enum Refuses {
    Nothing,
    Strangers,
    ForMemory,
}

// The machine of the thread before `main`.
fn before_main(alloc: Global, program: &Prog, thread: Tid) -> Result<Machine, AllocError>
    ensures fits { IfOk result (λ m. Fits program.now m) }
    ensures awaits { IfOk result (λ m. top_await (machine_term program.now m) ≡ nothing) }
{
    let main = FnRef::new(alloc, program.main(), Vec::new(alloc))?;
    match Machine::start(alloc, program, thread, main) {
        Ok(machine) => Ok(machine),
        Err(back) => {
            drop(back);
            Err(AllocError)
        }
    }
}

// Notes the next moment at the place of the thread.
fn note(moment: &AtomicU64, places: &[AtomicU64; 3], thread: Tid) {
    let now = moment.fetch_add(1, Ordering::SeqCst);
    let place = thread.0 as usize;
    if place < 3 {
        places[place].store(now, Ordering::SeqCst);
    }
}

impl Gate for Bench {
    ghost told = { λ gate thread. Unit {0} };

    fn enter(&self, thread: Tid) {
        note(&self.moment, &self.entered, thread);
    }
}

impl Desk for Bench {
    ghost hands = { λ bench program machine. program ≡ bench.program };

    ghost back = { λ bench machine. Unit {0} };

    ghost over = { λ bench. Unit {0} };

    ghost lacks = { λ bench. Unit {0} };

    ghost stopped = { λ bench. Unit {0} };

    fn next<R: Wait>(&self, _rt: &R, alloc: Global) -> Result<Option<(Prog, Machine)>, AllocError> {
        let thread = self.handed.fetch_add(1, Ordering::SeqCst);
        if thread >= 3 {
            return Ok(None);
        }
        let program = self.program.copy()?;
        match before_main(alloc, &program, Tid(thread as u32)) {
            Ok(machine) => Ok(Some((program, machine))),
            Err(error) => {
                drop(program);
                Err(error)
            }
        }
    }

    fn give<R: Wait>(&self, _rt: &R, alloc: Global, ran: Ran) -> Result<(), GiveFault> {
        match self.refuses {
            Refuses::Nothing => {}
            Refuses::Strangers => return Err(GiveFault::Stranger(ran)),
            Refuses::ForMemory => return Err(GiveFault::Memory(ran)),
        }
        let thread = ran.start().thread();
        let Ok(start) = before_main(alloc, &self.program, thread) else {
            return Err(GiveFault::Memory(ran));
        };
        if ran.start().same(&start) {
            note(&self.moment, &self.given, thread);
        }
        drop(start);
        drop(ran);
        Ok(())
    }

    fn stop<R: Wait>(&self, _rt: &R) {
        self.stopped.store(1, Ordering::SeqCst);
    }
}

// A desk that has handed out nothing yet.
fn bench_that(rt: &(impl Abort + AllocGlobal), refuses: Refuses) -> Bench {
    Bench {
        program: program_of(rt, "(fn main () (let c (chan)) (print 1))"),
        handed: AtomicU64::new(0),
        moment: AtomicU64::new(1),
        entered: [AtomicU64::new(0), AtomicU64::new(0), AtomicU64::new(0)],
        given: [AtomicU64::new(0), AtomicU64::new(0), AtomicU64::new(0)],
        stopped: AtomicU64::new(0),
        refuses,
    }
}

// So often the desk was asked for a machine, and so often it was stopped.
fn is_left(rt: &impl Abort, bench: &Bench, asked: u64, stopped: u64) {
    assert!(rt; bench.handed.load(Ordering::SeqCst) == asked, "asked");
    assert!(rt; bench.stopped.load(Ordering::SeqCst) == stopped, "stopped");
}

#[test]
fn a_stranger_is_dropped_and_the_worker_goes_on(rt: HostRuntime) {
    let bench = bench_that(&rt, Refuses::Strangers);
    worker(&rt, rt.alloc(), &bench, &bench).expect(&rt, MEMORY);
    is_left(&rt, &bench, 4, 0);
}

#[test]
fn a_worker_stops_the_desk_where_memory_is_lost(rt: HostRuntime) {
    let bench = bench_that(&rt, Refuses::ForMemory);
    let answer = worker(&rt, rt.alloc(), &bench, &bench);
    assert!(rt; answer.is_err(), "memory was lost");
    is_left(&rt, &bench, 1, 1);
}

#[test]
fn a_worker_runs_what_it_is_handed(rt: HostRuntime) {
    let bench = bench_that(&rt, Refuses::Nothing);
    worker(&rt, rt.alloc(), &bench, &bench).expect(&rt, MEMORY);
    is_left(&rt, &bench, 4, 0);
    for place in 0..3usize {
        let entered = bench.entered[place].load(Ordering::SeqCst);
        let given = bench.given[place].load(Ordering::SeqCst);
        assert!(rt;
            place < 3 && entered == 1 + 2 * place as u64,
            "when {place} began"
        );
        assert!(rt; given == 2 + 2 * place as u64, "when {place} came back");
    }
}
