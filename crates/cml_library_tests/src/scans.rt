//! The rows and the lights of a world, worked by hand.

use crate::making::{MEMORY, either, int, leaf};
use cml_scan::{Light, Lights, Meet, ThreadState, World, light, offers, push_offers, rows, scan};
use cml_value::{BaseKind, ChanId, MVarId, Tid};
use std::process::Abort;

/// Thread 0 gives to thread 1.
pub const EXCHANGE: Meet = Meet::Pair {
    head: Tid(0),
    head_leaf: 0,
    other: Tid(1),
    other_leaf: 0,
};

const TAKE: Meet = Meet::Single {
    tid: Tid(1),
    leaf: 1,
};

// Thread 0 sends, thread 1 receives on the same channel or takes M-variable 0, which is full, and thread 2 has ended.
fn world(rt: &(impl Abort + AllocGlobal)) -> World {
    let mut world = World::new(rt.alloc());
    let send = leaf(BaseKind::Send(ChanId(0), int(5)));
    let receive = leaf(BaseKind::Recv(ChanId(0)));
    let take = leaf(BaseKind::MTake(MVarId(0)));
    let choice = either(rt, receive, take);
    world
        .threads
        .push(ThreadState::Pending(send))
        .expect(rt, MEMORY);
    world
        .threads
        .push(ThreadState::Pending(choice))
        .expect(rt, MEMORY);
    world.threads.push(ThreadState::Ended).expect(rt, MEMORY);
    world.mvars.push(Some(int(8))).expect(rt, MEMORY);
    world.channels = 1;
    world
}

#[test]
fn rows_of_a_world(rt: HostRuntime) {
    let world = world(&rt);
    let found = scan(rt.alloc(), &world).expect(&rt, MEMORY);
    assert!(rt; found.as_slice() == [TAKE, EXCHANGE].as_slice());
    drop(found);
    assert!(rt; world.is_lit(Light::MVar(MVarId(0))) && world.is_lit(Light::Joined(Tid(2))));
    assert!(rt; !world.is_lit(Light::Joined(Tid(0))) && !world.is_lit(Light::Alarm(1)));
    drop(world);
}

// Thread 3 comes to it, and sends on the same channel: the rows are those of all offers.
#[test]
fn rows_of_offers(rt: HostRuntime) {
    let world = world(&rt);
    let mut all = offers(rt.alloc(), &world).expect(&rt, MEMORY);
    let send = leaf(BaseKind::Send(ChanId(0), int(6)));
    push_offers(rt.alloc(), &mut all, Tid(3), &send).expect(&rt, MEMORY);
    drop(send);
    assert!(rt; all.len() == 4);
    assert!(rt; light(&all[2].base) == Some(Light::MVar(MVarId(0))));
    let found = rows(rt.alloc(), &all, &world).expect(&rt, MEMORY);
    drop(all);
    drop(world);
    let more = Meet::Pair {
        head: Tid(3),
        head_leaf: 0,
        other: Tid(1),
        other_leaf: 0,
    };
    assert!(rt; found.as_slice() == [TAKE, EXCHANGE, more].as_slice());
    assert!(rt; !TAKE.place().same(&EXCHANGE.place()) && !more.same(&EXCHANGE));
    drop(found);
}
