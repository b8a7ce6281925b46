//! The hub by itself: slices that are handed out, given back or kept, and a run by a list of picks.

use crate::making::{ADDITION, MEMORY, program_of};
use cml_hub::{End, First, GiveFault, Hub, Next, Script};
use cml_step::{Ran, slice};
use cml_value::Tid;
use std::process::Abort;

// The same as the addition, except for the number that is sent: its threads begin with the same machines.
const OTHER_ADDITION: &str = "(fn add (a b) (return (+ a b))) \
     (fn give (c) (sync (send c 40))) \
     (fn main () (let c (chan)) (spawn give c) (let x (sync (wrap (recv c) add 1))) (print x))";

// Two threads want to receive, and one sends.
const WANTED_TWICE: &str = "(fn give (c) (sync (send c 1))) \
     (fn get (c n) (let x (sync (recv c))) (print n)) \
     (fn main () (let c (chan)) (spawn get c 10) (spawn get c 20) (spawn give c))";

// The hub of the script at its beginning.
fn begun(rt: &(impl Abort + AllocGlobal), script: &str) -> Hub {
    let program = program_of(rt, script);
    let hub = Hub::begin(rt.alloc(), program, 1_000_000, None);
    hub.ok().expect(rt, MEMORY)
}

// The slice of the thread that is ready and comes next, which is handed out.
fn next_slice(rt: &(impl Abort + AllocGlobal), hub: &mut Hub) -> Ran {
    match hub.take(rt.alloc(), &mut First).expect(rt, MEMORY) {
        Next::Job(machine) => slice(rt.alloc(), hub.program(), machine).expect(rt, MEMORY),
        Next::Wait | Next::Ended => rt.panic("no job"),
    }
}

fn gives(rt: &(impl Abort + AllocGlobal), hub: &mut Hub, ran: Ran) {
    let given = hub.give(rt.alloc(), ran);
    assert!(rt; given.is_ok());
    drop(given);
}

// The hub takes the slice for a stranger's, gives it back, and is as before.
fn is_stranger(rt: &(impl Abort + AllocGlobal), hub: &mut Hub, ran: Ran) -> Ran {
    let items = hub.schedule().len();
    match hub.give(rt.alloc(), ran) {
        Err(GiveFault::Stranger(back)) => {
            assert!(rt; hub.schedule().len() == items);
            back
        }
        Err(GiveFault::Memory(_)) => rt.panic(MEMORY),
        Ok(()) => rt.panic("a stranger"),
    }
}

fn prints(rt: &(impl Abort + AllocGlobal), hub: &mut Hub, output: &str) {
    let end = hub.run_alone(rt.alloc(), &mut First).expect(rt, MEMORY);
    assert!(rt; end == End::Quiet && hub.out() == output);
}

#[test]
fn a_slice_of_another_program_is_not_taken(rt: HostRuntime) {
    let mut hub = begun(&rt, ADDITION);
    let mut other = begun(&rt, OTHER_ADDITION);
    let own = next_slice(&rt, &mut hub);
    let foreign = next_slice(&rt, &mut other);
    let foreign = is_stranger(&rt, &mut hub, foreign);
    gives(&rt, &mut hub, own);
    gives(&rt, &mut other, foreign);
    drop(other);
    prints(&rt, &mut hub, "42\n");
    drop(hub);
}

// Of two hubs of one program each takes the other's slices.
#[test]
fn a_slice_is_taken_once(rt: HostRuntime) {
    let mut hub = begun(&rt, ADDITION);
    let mut same = begun(&rt, ADDITION);
    let first = next_slice(&rt, &mut hub);
    let second = next_slice(&rt, &mut same);
    gives(&rt, &mut hub, second);
    let first = is_stranger(&rt, &mut hub, first);
    gives(&rt, &mut same, first);
    drop(same);
    prints(&rt, &mut hub, "42\n");
    drop(hub);
}

// Threads 0 and 1 are handed out, and never come back.
#[test]
fn slices_that_stay_out_are_run_again(rt: HostRuntime) {
    let mut hub = begun(&rt, ADDITION);
    for _ in 0..2 {
        assert!(rt; hub.has_ready() && !hub.has_out());
        let ran = next_slice(&rt, &mut hub);
        gives(&rt, &mut hub, ran);
    }
    for thread in [1, 0] {
        let ran = next_slice(&rt, &mut hub);
        assert!(rt; ran.start().thread() == Tid(thread) && hub.has_out());
        drop(ran);
    }
    assert!(rt; !hub.has_ready());
    let next = hub.take(rt.alloc(), &mut First).expect(&rt, MEMORY);
    assert!(rt; matches!(&next, Next::Wait));
    drop(next);
    prints(&rt, &mut hub, "42\n");
    assert!(rt; hub.used() == 14);
    drop(hub);
}

// The second of two rows is taken.
#[test]
fn a_run_goes_by_a_list_of_picks(rt: HostRuntime) {
    let mut hub = begun(&rt, WANTED_TWICE);
    let picks = Vec::from_array(rt.alloc(), [0, 1]).expect(&rt, MEMORY);
    let mut chooser = Script::new(picks);
    let end = hub.run_alone(rt.alloc(), &mut chooser).expect(&rt, MEMORY);
    assert!(rt; end == End::Quiet && hub.out() == "20\n" && hub.pending() == 1);
    drop(chooser);
    drop(hub);
}
