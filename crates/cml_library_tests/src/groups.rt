//! A group laid flat, and why groups are refused, in words.

use crate::choosing::chosen;
use crate::making::{MEMORY, either, leaf};
use cml_group::{Flat, FlatFault, flatten};
use cml_value::{BaseKind, ChanId, Group, GroupKind, NackId};
use std::process::Abort;

fn receive_on(channel: u32) -> Group {
    leaf(BaseKind::Recv(ChanId(channel)))
}

// The branch of nack 0 has both leaves, that of nack 1 the second alone.
fn branches(rt: &(impl Abort + AllocGlobal)) -> Flat {
    let inner = receive_on(1).scope(rt.alloc(), NackId(1));
    let choice = either(rt, receive_on(0), inner.expect(rt, MEMORY));
    let group = choice.scope(rt.alloc(), NackId(0)).expect(rt, MEMORY);
    flatten(rt.alloc(), group).expect(rt, "within the limits")
}

#[test]
fn nacks_fire_whose_branch_is_lost(rt: HostRuntime) {
    let flat = branches(&rt);
    assert!(rt; flat.scopes() == [NackId(0), NackId(1)].as_slice());
    assert!(rt; flat.len() == 2);
    let fired = flat.lost(rt.alloc(), 0).expect(&rt, MEMORY);
    assert!(rt; fired.as_slice() == [NackId(1)].as_slice());
    drop(fired);
    let second = chosen(flat, 1).expect(&rt, "a leaf");
    assert!(rt; second.lost.is_empty() && second.wraps.is_empty());
    assert!(rt; matches!(second.base.kind(), BaseKind::Recv(ChanId(1))));
    drop(second);
}

fn refused(rt: &(impl Abort + AllocGlobal), fault: FlatFault, words: &str) {
    let text = format!(in rt.alloc(); "{fault}").expect(rt, MEMORY);
    drop(fault);
    assert!(rt; text.as_str() == words);
    drop(text);
}

fn never() -> Group {
    Group::new(GroupKind::Never)
}

#[test]
fn refusals_in_words(rt: HostRuntime) {
    let leaves = FlatFault::Leaves(never());
    refused(&rt, leaves, "the group has more than 256 leaves");
    let deep = FlatFault::Deep(never());
    let nests = "the group nests too deep or has too many nodes";
    refused(&rt, deep, nests);
    refused(&rt, FlatFault::Memory(never()), "out of memory");
}
