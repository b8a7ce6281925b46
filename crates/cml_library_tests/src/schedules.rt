//! Every schedule of small scripts. How many ends each has was found by hand.

use crate::making::{MEMORY, program_of};
use cml_verify::verify;
use std::process::Abort;
use std::rt::HostRuntime;

// Each of two threads takes what the other may want: both end, or each waits for the other.
const LOCKS: &str = "(fn lock (a b) (sync (mtake a)) (sync (mtake b)) (mput b 0) (mput a 0)) \
     (fn main () (let a (mvar 0)) (let b (mvar 0)) (spawn lock a b) (spawn lock b a))";

// Both take the same lock first: both end.
const LOCKS_IN_ORDER: &str =
    "(fn lock (a b) (sync (mtake a)) (sync (mtake b)) (mput b 0) (mput a 0)) \
     (fn main () (let a (mvar 0)) (let b (mvar 0)) (spawn lock a b) (spawn lock a b))";

// The put fails, unless the take comes first.
const PUT: &str = "(fn taker (m) (sync (mtake m))) \
     (fn main () (let m (mvar 0)) (spawn taker m) (mput m 1))";

// Two values lie in one mailbox, in either order.
const MAILS: &str = "(fn give (b v) (mail b v)) \
     (fn main () (let b (mailbox)) (spawn give b 1) (spawn give b 2))";

// Two messages come to a port, in either order.
const MESSAGES: &str = "(fn give (x v) (multicast x v)) \
     (fn main () (let x (mchan)) (let p (port x)) (spawn give x 1) (spawn give x 2))";

// Two threads wait for the same. Which thread began with which function depends on the order of the spawns: first, second, one, two; or
// first, second, two, one; or first, one, second, two.
const TWO_WAITS: &str = "(fn one (c) (sync (recv c))) \
     (fn two (c) (sync (recv c))) \
     (fn first (c) (spawn one c)) \
     (fn second (c) (spawn two c)) \
     (fn main () (let c (chan)) (spawn first c) (spawn second c))";

// So many ends have the schedules of this script, each of which was examined.
fn has_ends(rt: &(impl Abort + AllocGlobal), script: &str, count: usize) {
    let program = program_of(rt, script);
    let verdict = verify(rt.alloc(), &program, 10_000).expect(rt, MEMORY);
    assert!(rt; verdict.ends.len() == count, "{script}");
    assert!(rt; verdict.reach.is_none(), "{script}");
    drop(verdict);
    drop(program);
}

// A thread ends at a fault beside one that goes on without end.
const FAULT_BESIDE: &str =
    "(fn wrong () (let x (+ \"a\" 1))) (fn main () (spawn wrong) (while true (yield)))";

// One choice is followed by no end.
const ROUND: &str =
    "(fn main () (let x (sync (choose (always 0) (always 1)))) (while (= x 1) (yield)))";

// The schedules of this script come to so many faults, the first by so many items (if there is one); and whether each can go on to an end.
fn has_faults(
    rt: &(impl Abort + AllocGlobal),
    script: &str,
    count: usize,
    items: Option<usize>,
    ends: bool,
) {
    let program = program_of(rt, script);
    let verdict = verify(rt.alloc(), &program, 10_000).expect(rt, MEMORY);
    assert!(rt; verdict.faults.len() == count, "{script}");
    let first = match verdict.faults.get(0) {
        Some(schedule) => Some(schedule.len()),
        None => None,
    };
    assert!(rt; first == items, "{script}");
    assert!(rt; verdict.unending.is_none() == ends, "{script}");
    drop(verdict);
    drop(program);
}

#[test]
fn each_fault_is_told(rt: HostRuntime) {
    has_faults(&rt, LOCKS, 0, None, true);
    has_faults(&rt, PUT, 1, Some(3), true);
    has_faults(&rt, FAULT_BESIDE, 1, Some(2), false);
    has_faults(&rt, ROUND, 0, None, false);
}

#[test]
fn each_end_is_told(rt: HostRuntime) {
    has_ends(&rt, "(fn main ())", 1);
    has_ends(&rt, LOCKS, 2);
    has_ends(&rt, LOCKS_IN_ORDER, 1);
    has_ends(&rt, PUT, 2);
    has_ends(&rt, MAILS, 2);
    has_ends(&rt, MESSAGES, 2);
    has_ends(&rt, TWO_WAITS, 3);
}
