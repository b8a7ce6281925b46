//! What is said of base events in states in which no case of the whole program has them.

use crate::making::{MEMORY, function, int};
use cml_phrase::{ObjectState, Told, Who, push_event};
use cml_text::read;
use cml_value::{Base, BaseKind, MVarId, NackId, Tid};
use std::process::Abort;

// Thread 2, which began with (phil 1), took the object last, or is the thread that is waited for.
fn says(rt: &(impl Abort + AllocGlobal), kind: BaseKind, state: ObjectState, said: &str) {
    let forms = read(rt.alloc(), b"(fn phil (i)) (fn main ())").expect(rt, "forms");
    let began = function(rt, 0, int(1));
    let base = Base::new(kind);
    let who = Who {
        thread: Tid(2),
        began: Some(&began),
    };
    let told = Told {
        base: &base,
        state,
        who: Some(who),
    };
    let mut out = Vec::new(rt.alloc());
    push_event(rt.alloc(), &mut out, forms.as_slice(), told).expect(rt, MEMORY);
    assert!(rt; out.as_slice() == said.as_bytes());
    drop(out);
    drop(base);
    drop(began);
    drop(forms);
}

#[test]
fn what_is_said_of_variables_and_ends(rt: HostRuntime) {
    says(
        &rt,
        BaseKind::MGet(MVarId(0)),
        ObjectState::Full,
        "read M-variable 0, which is full; last taken by thread 2 phil(1)",
    );
    says(
        &rt,
        BaseKind::MSwap(MVarId(0), int(5)),
        ObjectState::Full,
        "swap 5 into M-variable 0, which is full; last taken by thread 2 phil(1)",
    );
    says(
        &rt,
        BaseKind::Join(Tid(2)),
        ObjectState::Ended,
        "the end of thread 2 phil(1), which has ended",
    );
}

#[test]
fn what_is_said_of_nacks(rt: HostRuntime) {
    let nack = NackId(7);
    says(
        &rt,
        BaseKind::Nack(nack),
        ObjectState::Fresh,
        "nack 7, which is fresh",
    );
    says(
        &rt,
        BaseKind::Nack(nack),
        ObjectState::Held,
        "nack 7, which is held",
    );
    says(
        &rt,
        BaseKind::Nack(nack),
        ObjectState::Fired,
        "nack 7, which is fired",
    );
}
