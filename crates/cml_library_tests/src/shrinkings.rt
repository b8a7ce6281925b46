//! How many tries it takes to find a shorter schedule that ends alike, which was worked out by hand, and how long two schedules are, in words.

use crate::making::{MEMORY, program_of, scheduled};
use cml_explore::shrink::{Asked, counts_of, push_counts, shrink};
use cml_hub::Item;
use std::process::Abort;
use std::rt::HostRuntime;

// Each of two threads takes what the other wants: a deadlock where both have taken one.
const LOCKS: &str =
    "(fn lock (a b)\n  (let x (sync (mtake a)))\n  (yield)\n  (let y (sync (mtake b))))\n(fn main ()\n  (let a (mvar 0))\n  (let b (mvar 0))\n  (spawn lock a b)\n  (spawn lock b a))";

// The same, where the main thread prints for ever.
const PRINTS: &str =
    "(fn lock (a b)\n  (let x (sync (mtake a)))\n  (yield)\n  (let y (sync (mtake b))))\n(fn main ()\n  (let a (mvar 0))\n  (let b (mvar 0))\n  (spawn lock a b)\n  (spawn lock b a)\n  (while true (print 1)))";

// Two threads that lock, with three prints between.
const PRINTED: &str =
    "turn 0\nturn 0\nturn 0\nturn 1\nturn 0\nturn 2\nturn 0\ncommit 1 0\nturn 1\nturn 0\ncommit 2 0\nturn 2\nturn 1\nturn 0\nturn 2\n";

// Two threads that lock.
const LOCKED: &str =
    "turn 0\nturn 0\nturn 0\nturn 1\nturn 0\nturn 2\nturn 0\ncommit 1 0\nturn 1\ncommit 2 0\nturn 2\nturn 1\nturn 2\n";

const ONE: &str = "(fn main ()\n  (print 1))";

// How long the two are, in words.
fn counted(rt: &(impl Abort + AllocGlobal), old: &[Item], new: &[Item]) -> Vec<u8> {
    let mut said = Vec::new(rt.alloc());
    push_counts(rt.alloc(), &mut said, counts_of(old), counts_of(new)).expect(rt, MEMORY);
    said
}

// To shorten the schedule of these items takes so many of the tries that there may be.
fn takes(rt: &(impl Abort + AllocGlobal), script: &str, items: &str, tries: u64, used: u64) {
    let program = program_of(rt, script);
    let given = scheduled(rt, items);
    let asked = Asked {
        budget: 1_000,
        tries,
        properties: &[],
        stops: false,
    };
    let found = shrink(rt.alloc(), &program, asked, given.items.as_slice());
    let found = found.ok().expect(rt, MEMORY);
    assert!(rt; found.used() == used);
    drop(found);
    drop(given);
    drop(program);
}

#[test]
fn takes_so_many_tries(rt: HostRuntime) {
    // Nothing can be left out: 26 tries for one pass, 3 for turns that move, 22 for ranges, and 26 for the last pass.
    takes(&rt, LOCKS, LOCKED, 10_000, 77);
    // The prints are left out, in a pass of 27 tries: after each the loop goes on where it began. Then 24 tries for a pass, 2 for turns that
    // move, 18 for ranges, and 24 for the last pass.
    takes(&rt, PRINTS, PRINTED, 10_000, 95);
    takes(&rt, PRINTS, PRINTED, 3, 3);
    takes(&rt, PRINTS, PRINTED, 0, 0);
    // The one item: a thread's items from it on, and it alone. Both times the thread runs where it began.
    takes(&rt, ONE, "turn 0\n", 100, 4);
}

#[test]
fn counts_items_and_commits(rt: HostRuntime) {
    let old = scheduled(
        &rt,
        "turn 0\ncommit 1 0\nswap 1 0 2 0\ncommit 0 0 1 1\nclock 5\n",
    );
    let new = scheduled(&rt, "swap 1 0 2 0\n");
    let said = counted(&rt, old.items.as_slice(), new.items.as_slice());
    assert!(rt; said.as_slice() == b"5 items, 3 commits -> 1 item, 1 commit\n".as_slice());
    drop(said);
    drop(new);
    drop(old);
}
