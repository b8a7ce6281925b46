//! Scripts that workers run, seen from the gate through which each slice goes: there are as many workers as the arguments say.

use crate::run::{Runtime, filled, words};
use cml_host::run_command_counted;
use cml_stream::Counting;
use cml_value::Tid;
use cml_work::Gate;
use std::rt::HostRuntime;
use std::sync::atomic::{AtomicU64, Ordering};
use std::test::Fail;
use std::thread;
use std::time::Duration;

// Six threads, of which each ends after one turn.
const TURNS: &str = "(fn work () (let i 0) (while (< i 10) (set i (+ i 1)))) \
     (fn main () (let n 0) (while (< n 6) (spawn work) (set n (+ n 1))))";

// The threads 1 to `wanted` each wait until all of them have come, for so many milliseconds at most.
#[derive(Drop)]
struct Meeting {
    rt: HostRuntime,
    wanted: u64,
    patience: u64,
    slices: AtomicU64,
    arrived: AtomicU64,
    missed: AtomicU64,
}

impl Meeting {
    fn new(rt: HostRuntime, wanted: u64, patience: u64) -> Meeting {
        Meeting {
            rt,
            wanted,
            patience,
            slices: AtomicU64::new(0),
            arrived: AtomicU64::new(0),
            missed: AtomicU64::new(0),
        }
    }
}

impl Gate for Meeting {
    ghost told = { λ gate thread. Unit {0} };

    fn enter(&self, thread: Tid) {
        self.slices.fetch_add(1, Ordering::SeqCst);
        if thread.0 == 0 || u64::from(thread.0) > self.wanted {
            return;
        }
        self.arrived.fetch_add(1, Ordering::SeqCst);
        for _ in 0..self.patience {
            if self.arrived.load(Ordering::SeqCst) >= self.wanted {
                return;
            }
            thread::sleep(&self.rt, Duration::from_millis(1));
        }
        self.missed.fetch_add(1, Ordering::SeqCst);
    }
}

// Runs the script through the gate.
fn run_through(rt: &impl Runtime, line: &str, gate: &Meeting) -> Result<(), Fail> {
    let alloc = rt.alloc();
    let words = words(alloc, line)?;
    let mut store = filled(rt, &[("A", TURNS)]);
    let mut input = "".as_bytes();
    let (mut out, mut err) = (Vec::new(alloc), Vec::new(alloc));
    let status = run_command_counted(
        rt,
        alloc,
        gate,
        words.as_slice(),
        &mut Counting::new(&mut input),
        &mut Counting::new(&mut out),
        &mut Counting::new(&mut err),
        false,
        &mut store,
    );
    assert!(rt; status == 0 && out.as_slice() == b"end quiet pending 0\n".as_slice());
    drop(words);
    drop(store);
    drop(out);
    drop(err);
    Ok(())
}

#[test]
fn as_many_slices_are_out_as_there_are_workers(rt: HostRuntime) -> Result<(), Fail> {
    for (line, wanted) in [
        ("run A --workers 2", 2),
        ("run A --workers 4", 4),
        ("run A --workers 4 --watch 1", 4),
        ("run A --workers 6 --seed 7", 6),
    ] {
        let gate = Meeting::new(rt, wanted, 10_000);
        run_through(&rt, line, &gate)?;
        assert!(rt; gate.missed.load(Ordering::SeqCst) == 0, "{line}");
        drop(gate);
    }
    Ok(())
}

#[test]
fn no_more_slices_are_out_than_there_are_workers(rt: HostRuntime) -> Result<(), Fail> {
    for (line, wanted) in [("run A --workers 2", 3), ("run A --workers 3 --watch 1", 4)] {
        let gate = Meeting::new(rt, wanted, 100);
        run_through(&rt, line, &gate)?;
        assert!(rt; gate.missed.load(Ordering::SeqCst) > 0, "{line}");
        drop(gate);
    }
    for line in ["run A", "run A --workers 1 --watch 1"] {
        let gate = Meeting::new(rt, 1, 100);
        run_through(&rt, line, &gate)?;
        assert!(rt; gate.slices.load(Ordering::SeqCst) == 0, "{line}");
        drop(gate);
    }
    Ok(())
}
