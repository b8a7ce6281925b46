//! Values and events: their sizes by hand, many nodes, and parts that are shared again and again.

use crate::making::{MEMORY, function, int};
use cml_value::{Base, BaseKind, ChanId, Event, EventKind, NackId, Value};
use std::process::Abort;

// A pair of the value and itself, and of that and itself, and so on: 2^(times + 1) - 1 nodes.
fn doubled(rt: &(impl Abort + AllocGlobal), first: i64, times: u32) -> Value {
    let mut value = int(first);
    for _ in 0..times {
        let copy = value.copy().expect(rt, MEMORY);
        value = Value::pair(rt.alloc(), copy, value).expect(rt, MEMORY);
    }
    value
}

#[test]
fn a_value_of_a_million_nodes(rt: HostRuntime) {
    let value = doubled(&rt, 0, 19);
    assert!(rt; value.nodes() == 1_048_575 && value.depth() == 20 && !value.fits());
    // 524,287 pairs of eight characters each, and 524,288 digits
    let shown = value.show(rt.alloc()).expect(&rt, MEMORY);
    assert!(rt; shown.len() == 4_718_584);
    drop(shown);
    let other = doubled(&rt, 1, 19);
    assert!(rt; !value.same(&other));
    drop(other);
    let again = doubled(&rt, 0, 19);
    assert!(rt; value.same(&again));
    drop(again);
    drop(value);
}

// A walk through all of these nodes would not end in our time.
#[test]
fn a_value_of_very_many_nodes_does_not_fit(rt: HostRuntime) {
    let value = doubled(&rt, 0, 60);
    assert!(rt; !value.fits());
    let event = Event::new(EventKind::Leaf(Base::new(BaseKind::Always(value))));
    assert!(rt; !event.fits());
    drop(event);
}

// (wrap (scope 3 (choose never (send 0 1))) 0 7) is five deep, and the 7 is one node more.
#[test]
fn an_event_is_measured(rt: HostRuntime) {
    let send = Base::new(BaseKind::Send(ChanId(0), int(1)));
    assert!(rt; send.depth() == 2 && send.nodes() == 2);
    let leaf = Event::new(EventKind::Leaf(send));
    let never = Event::new(EventKind::Never);
    let members = Vec::from_array(rt.alloc(), [never, leaf]).expect(&rt, MEMORY);
    let choice = Event::choose(rt.alloc(), members).expect(&rt, MEMORY);
    let branch = choice.scope(rt.alloc(), NackId(3)).expect(&rt, MEMORY);
    let wraps = function(&rt, 0, int(7));
    let event = branch.wrap(rt.alloc(), wraps).expect(&rt, MEMORY);
    assert!(rt; event.depth() == 5 && event.nodes() == 7 && event.fits());
    let copy = event.copy().expect(&rt, MEMORY);
    assert!(rt; copy.same(&event));
    drop(event);
    drop(copy);
}
