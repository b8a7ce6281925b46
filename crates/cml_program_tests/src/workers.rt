//! Scripts that workers run: their schedules lead to the same again.

use crate::run::{Runtime, filled, left_by};
use cml_host::Store;
use std::test::Fail;

// A script on each line: a message through a wrap; a branch that is cancelled, and a thread that waits for its nack; two threads that count
// up in an M-variable; two that exchange values; one that waits for a time; many that work between their synchronizations; many that
// print; four that add to a total under a lock; and twenty messages over one channel.
const SCRIPTS: &str =
    "(fn add (a b) (return (+ a b))) (fn give (c) (sync (send c 41))) (fn main () (let c (chan)) (spawn give c) (let x (sync (wrap (recv c) add 1))) (print x))
(fn watch (n) (sync n) (print \"cancelled\")) (fn branch (c n) (spawn watch n) (return (recv c))) (fn main () (let c (chan)) (let x (sync (choose (withnack branch c) (always 7)))) (print x))
(fn add (m) (let x (sync (mtake m))) (mput m (+ x 1))) (fn main () (let m (mvar 0)) (let a (spawn add m)) (let b (spawn add m)) (sync (join a)) (sync (join b)) (let x (sync (mget m))) (print x))
(fn other (s) (let y (sync (swap s 2))) (print y)) (fn main () (let s (swapchan)) (spawn other s) (let x (sync (swap s 1))) (print x))
(fn main () (sync (after 10)) (let t (now)) (print t))
(fn work (box n) (let i 0) (while (< i 500) (set i (+ i 1))) (sync (always unit)) (mail box n)) (fn main () (let box (mailbox)) (let n 0) (while (< n 8) (spawn work box n) (set n (+ n 1))) (let sum 0) (while (< 0 n) (let x (sync (mailrecv box))) (set sum (+ sum x)) (set n (- n 1))) (print sum))
(fn tell (n) (let i 0) (while (< i 5) (print (pair n i)) (yield) (set i (+ i 1)))) (fn main () (let n 0) (while (< n 8) (spawn tell n) (set n (+ n 1))))
(fn add (lock total amount) (sync (mtake lock)) (let old (sync (mget total))) (yield) (sync (mswap total (+ old amount))) (mput lock unit)) (fn main () (let lock (mvar unit)) (let total (mvar 0)) (let a (spawn add lock total 1)) (let b (spawn add lock total 20)) (let c (spawn add lock total 300)) (let d (spawn add lock total 4000)) (sync (join a)) (sync (join b)) (sync (join c)) (sync (join d)) (let sum (sync (mget total))) (print sum))
(fn give (c) (let i 0) (while (< i 20) (sync (send c i)) (set i (+ i 1)))) (fn main () (let c (chan)) (spawn give c) (let i 0) (while (< i 20) (let x (sync (recv c))) (print x) (set i (+ i 1))))
";

// How many lines begin with this word.
fn lines_with(text: &[u8], word: &[u8]) -> usize {
    let mut count = 0usize;
    for line in text.split(|byte| *byte == b'\n') {
        if line.starts_with(word) {
            count = count.saturating_add(1);
        }
    }
    count
}

// The recorded run and its replay leave the same. Returns how many reports the run wrote, and how many items the schedule has.
fn leads_again(
    rt: &impl Runtime,
    script: &'static str,
    run: &str,
    replay: &str,
) -> Result<(usize, usize), Fail> {
    let mut store = filled(rt, &[("A", script)]);
    let ran = left_by(rt, run, &mut store)?;
    let again = left_by(rt, replay, &mut store)?;
    assert!(rt;
        again.output.as_slice() == ran.output.as_slice(),
        "output of {run}"
    );
    assert!(rt;
        again.errors.as_slice() == ran.errors.as_slice(),
        "errors of {run}"
    );
    assert!(rt; again.status == ran.status, "status of {run}");
    let reports = lines_with(ran.errors.as_slice(), b"report ");
    drop(ran);
    drop(again);
    let saved = store.load(rt.alloc(), "S", 1_000_000).ok();
    let schedule = saved.expect(rt, "a schedule that was saved");
    let items = lines_with(schedule.as_slice(), b"").saturating_sub(3);
    drop(schedule);
    drop(store);
    Ok((reports, items))
}

#[test]
fn schedules_of_workers_lead_to_the_same_again(rt: HostRuntime) -> Result<(), Fail> {
    for script in SCRIPTS.lines() {
        leads_again(&rt, script, "run A --workers 1 --record S", "replay A S")?;
        leads_again(&rt, script, "run A --workers 4 --record S", "replay A S")?;
        leads_again(&rt, script, "run A --workers 64 --record S", "replay A S")?;
        let run = "run A --workers 2 --watch 1 --steps 12 --seed 3 --record S";
        leads_again(&rt, script, run, "replay A S --watch 1")?;
        let run = "run A --workers 4 --watch 5 --record S";
        let (reports, items) = leads_again(&rt, script, run, "replay A S --watch 5")?;
        assert!(rt; reports == items / 5);
    }
    Ok(())
}
