//! Who waits at an object in a register, and the clock.

use crate::making::{MEMORY, int};
use cml_objects::{Clock, IVar, Joined, Register, Source};
use cml_value::Tid;
use std::process::Abort;

// The object in a register of its own, for which leaf 2 of thread 1 waits: the leaf is told of once the object is fed.
fn fed<K: Source>(rt: &(impl Abort + AllocGlobal), object: K, feed: K::Feed) -> Register<K>
where
    K::Feed: Drop,
{
    let mut register: Register<K> = Register::new(rt.alloc());
    register.room(None).expect(rt, MEMORY);
    assert!(rt; register.make(object).is_ok());
    register.wait(0, Tid(1), 2).expect(rt, MEMORY);
    let waiters = register.lit_waiters(rt.alloc()).expect(rt, MEMORY);
    assert!(rt; waiters.is_empty());
    drop(waiters);
    assert!(rt; register.len() == 1);
    register.room(Some(0)).expect(rt, MEMORY);
    assert!(rt; register.feed(0, feed).is_ok());
    let waiters = register.lit_waiters(rt.alloc()).expect(rt, MEMORY);
    assert!(rt; waiters.len() == 1);
    drop(waiters);
    register.leave(0, Tid(1), 2);
    register
}

#[test]
fn who_waits_is_told(rt: HostRuntime) {
    drop(fed(&rt, Joined::new(), ()));
    drop(fed(&rt, IVar::new(), int(7)));
}

#[test]
fn a_tick_has_come(rt: HostRuntime) {
    let mut clock = Clock::new(rt.alloc());
    clock.advance(5);
    assert!(rt; clock.has_come(5) && !clock.has_come(9));
    drop(clock);
}
