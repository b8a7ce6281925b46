//! What is said of a thread of which little is known.

use crate::making::MEMORY;
use cml_facts::ending::{Awaited, Ending, Left, Named, Stands, write_ending};
use cml_hub::End;
use std::rt::HostRuntime;

#[test]
fn what_is_not_known_of_a_thread_is_not_said(rt: HostRuntime) {
    let nothing = Awaited {
        events: Vec::new(rt.alloc()),
        count: 0,
    };
    let mut left = Vec::new(rt.alloc());
    left.push(Left {
        thread: Named {
            thread: 3,
            began: None,
        },
        turns: 0,
        spot: None,
        place: None,
        stands: Stands::Waits(nothing),
    })
    .expect(&rt, MEMORY);
    let ending = Ending {
        end: End::Partial,
        budget: 1,
        items: 0,
        last: None,
        waits: 1,
        runs: 0,
        left,
        ring: None,
        faults: 0,
    };
    let mut said = Vec::new(rt.alloc());
    write_ending(rt.alloc(), &mut said, "a.cml", &[], &ending).expect(&rt, MEMORY);
    let wanted =
        b"1 thread waits, and the schedule has no items\n  thread 3: nothing: it never happens\n";
    assert!(rt; said.as_slice() == wanted.as_slice());
}
