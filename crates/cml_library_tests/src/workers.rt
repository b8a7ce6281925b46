//! Workers, with and without a watcher, where no command shows it.
//!
//! Running out of memory ends the test, so that no early return has to drop all that was made.

ghost use Rattle.cml_hub.specs.Kept.{IsBudget, IsWatch, NoneOut};

use crate::making::{MEMORY, program_of};
use cml_hub::{End, First, Hub};
use cml_stream::Counting;
use cml_value::Tid;
use cml_work::{Gate, WorkFault, run_watched, run_workers};
use std::io::{Result as IoResult, Write};
use std::process::Abort;
use std::rt::HostRuntime;
use std::sync::atomic::{AtomicU64, Ordering};
use std::thread;
use std::time::Duration;

// Two threads that never end.
const SPIN: &str = "(fn spin () (while true (yield))) \
     (fn main () (spawn spin) (while true (yield)))";

// Two threads that yield sixty times, and then compute for ever.
const LONG_AFTER_SHORT: &str =
    "(fn work () (let i 0) (while (< i 60) (yield) (set i (+ i 1))) (while true (set i (- i 1)))) \
     (fn main () (spawn work) (call work))";

// An M-variable is a lock around another, to which four threads add.
const TOTAL: &str =
    "(fn add (lock total amount) (sync (mtake lock)) (let old (sync (mget total))) (yield) (sync (mswap total (+ old amount))) (mput lock unit)) \
     (fn main () (let lock (mvar unit)) (let total (mvar 0)) (let a (spawn add lock total 1)) (let b (spawn add lock total 20)) (let c (spawn add lock total 300)) (let d (spawn add lock total 4000)) (sync (join a)) (sync (join b)) (sync (join c)) (sync (join d)) (let sum (sync (mget total))) (print sum))";

// One thread sends to another.
const SENDS: &str = "(fn give (c) (let i 0) (while (< i 20) (sync (send c i)) (set i (+ i 1)))) \
     (fn main () (let c (chan)) (spawn give c) (let i 0) (while (< i 20) (let x (sync (recv c))) (print x) (set i (+ i 1))))";

// A slice of thread 0 and one of thread 1 each wait until the other has come, for ten seconds at most.
#[derive(Drop)]
struct Meeting {
    rt: HostRuntime,
    // after how many slices of each
    after: [u64; 2],
    entered: [AtomicU64; 2],
    met: AtomicU64,
}

impl Gate for Meeting {
    ghost told = { λ gate thread. Unit {0} };

    fn enter(&self, thread: Tid) {
        let own = if thread.0 == 0 { 0 } else { 1 };
        let before = self.entered[own].fetch_add(1, Ordering::SeqCst);
        if before != self.after[own] {
            return;
        }
        let wanted = self.after[1 - own].saturating_add(1);
        for _ in 0..10_000 {
            if self.entered[1 - own].load(Ordering::SeqCst) >= wanted {
                self.met.fetch_add(1, Ordering::SeqCst);
                return;
            }
            thread::sleep(&self.rt, Duration::from_millis(1));
        }
    }
}

// Every slice may begin.
fn open(rt: HostRuntime) -> Meeting {
    meeting_after(rt, [u64::MAX, u64::MAX])
}

fn meeting_after(rt: HostRuntime, after: [u64; 2]) -> Meeting {
    Meeting {
        rt,
        after,
        entered: [AtomicU64::new(0), AtomicU64::new(0)],
        met: AtomicU64::new(0),
    }
}

// Each slice but the first two waits until something was written, for ten seconds at most; where one has waited in vain no other does.
#[derive(Drop)]
struct Patient {
    rt: HostRuntime,
    entered: AtomicU64,
    writes: AtomicU64,
    missed: AtomicU64,
}

impl Gate for Patient {
    ghost told = { λ gate thread. Unit {0} };

    fn enter(&self, _thread: Tid) {
        if self.entered.fetch_add(1, Ordering::SeqCst) < 2
            || self.missed.load(Ordering::SeqCst) > 0
        {
            return;
        }
        for _ in 0..10_000 {
            if self.writes.load(Ordering::SeqCst) > 0 {
                return;
            }
            thread::sleep(&self.rt, Duration::from_millis(1));
        }
        self.missed.fetch_add(1, Ordering::SeqCst);
    }
}

// A writer that tells the gate of each write.
#[derive(Drop)]
struct Telling<'a> {
    gate: &'a Patient,
}

impl Write for Telling<'_> {
    fn write(&mut self, buf: &[u8]) -> IoResult<usize> {
        self.gate.writes.fetch_add(1, Ordering::SeqCst);
        Ok(buf.len())
    }

    fn flush(&mut self) -> IoResult<()> {
        Ok(())
    }
}

// The hub of the script at its beginning.
fn begun(rt: &(impl Abort + AllocGlobal), script: &str, budget: u64, watch: Option<u64>) -> Hub
    requires budget { IsBudget budget }
    requires watch { IsWatch watch }
    ensures none_out { NoneOut result }
{
    let program = program_of(rt, script);
    match Hub::begin(rt.alloc(), program, budget, watch) {
        Ok(hub) => hub,
        Err(_) => rt.panic(MEMORY),
    }
}

// The run has come to this end.
fn is_over(rt: &impl Abort, answer: Result<Hub, WorkFault>, end: End) -> Hub {
    let hub = answer.ok().expect(rt, "no fault");
    assert!(rt; hub.end() == end);
    hub
}

#[test]
fn other_numbers_of_workers_are_refused(rt: HostRuntime) {
    let gate = open(rt);
    for workers in [0usize, 65, usize::MAX] {
        let hub = begun(&rt, TOTAL, 1_000_000, None);
        let answer = run_workers(&rt, rt.alloc(), hub, workers, First, &gate);
        match answer {
            Err(WorkFault::Count(hub)) => {
                assert!(rt; hub.schedule().is_empty());
                drop(hub);
            }
            _ => rt.panic("a number of workers that may not be"),
        }
    }
}

#[test]
fn a_hub_is_continued(rt: HostRuntime) {
    let mut hub = begun(&rt, SENDS, 4, None);
    let _ = hub.run_alone(rt.alloc(), &mut First).expect(&rt, MEMORY);
    let before = hub.schedule().to_vec(rt.alloc()).expect(&rt, MEMORY);
    let program = hub.program().copy().expect(&rt, MEMORY);
    drop(hub);
    let hub = Hub::replay(rt.alloc(), program, 1_000_000, None, before.as_slice());
    match hub {
        Ok(hub) => {
            let gate = open(rt);
            let answer = run_workers(&rt, rt.alloc(), hub, 4, First, &gate);
            let hub = is_over(&rt, answer, End::Quiet);
            assert!(rt; !before.is_empty() && hub.schedule().starts_with(before.as_slice()));
            drop(hub);
        }
        Err(_) => rt.panic("a schedule that leads on"),
    }
    drop(before);
}

#[test]
fn two_workers_are_outside_the_lock_at_once_after_short_slices(rt: HostRuntime) {
    // some fifty short slices are handed out, and the others run in place
    let gate = meeting_after(rt, [40, 40]);
    let hub = begun(&rt, LONG_AFTER_SHORT, 200_000, None);
    let answer = run_workers(&rt, rt.alloc(), hub, 2, First, &gate);
    drop(is_over(&rt, answer, End::Budget));
    assert!(rt; gate.met.load(Ordering::SeqCst) == 2);
}

#[test]
fn a_report_is_written_before_the_workers_go_on(rt: HostRuntime) {
    let gate = Patient {
        rt,
        entered: AtomicU64::new(0),
        writes: AtomicU64::new(0),
        missed: AtomicU64::new(0),
    };
    let hub = begun(&rt, SPIN, 20, Some(1));
    let mut telling = Telling { gate: &gate };
    let mut writer = Counting::new(&mut telling);
    match run_watched(&rt, rt.alloc(), hub, 2, First, &gate, &mut writer) {
        Ok((hub, seen)) => {
            assert!(rt; hub.end() == End::Budget);
            drop(hub);
            drop(seen);
        }
        Err(_) => rt.panic("a fault"),
    }
    assert!(rt;
        gate.entered.load(Ordering::SeqCst) > 2,
        "a slice that waits"
    );
    assert!(rt;
        gate.missed.load(Ordering::SeqCst) == 0,
        "a report was written before it"
    );
}
