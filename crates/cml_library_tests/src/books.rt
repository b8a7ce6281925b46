//! A book over the plain table, by each call of the table.

use crate::kept::KeptRows;
use crate::making::{MEMORY, int, leaf};
use crate::scans::EXCHANGE;
use cml_book::Book;
use cml_scan::{Meet, Place, Table};
use cml_value::{BaseKind, ChanId, Group, Tid};
use std::process::Abort;

const GIVER: Place = Place {
    tid: Tid(0),
    leaf: 0,
};

const FIRST: Meet = Meet::Single {
    tid: Tid(0),
    leaf: 0,
};

// The thread waits on the group.
fn waits<T: Table>(rt: &(impl Abort + AllocGlobal), book: &mut Book<T>, thread: u32, group: Group) {
    assert!(rt; book.sync(rt.alloc(), Tid(thread), &group) == Ok(()));
    drop(group);
}

// Two threads are made.
fn two_threads<T: Table>(rt: &impl Abort, book: &mut Book<T>) {
    assert!(rt; book.spawn() == Ok(Tid(0)) && book.spawn() == Ok(Tid(1)));
}

// The table has just the exchange, by each of its calls.
fn shows_the_exchange<T: Table>(rt: &(impl Abort + AllocGlobal), table: &T) {
    let rows = table.rows(rt.alloc()).expect(rt, MEMORY);
    assert!(rt; rows.as_slice() == [EXCHANGE].as_slice());
    drop(rows);
    assert!(rt; table.has(&EXCHANGE) && !table.has(&FIRST));
    assert!(rt; table.head_count() == 1);
    assert!(rt; table.head(0).same(&GIVER));
    assert!(rt; table.partner_count(GIVER) == 1);
    assert!(rt; table.partner(GIVER, 0) == EXCHANGE);
}

// A value is handed over.
fn hands_over<T: Table + Drop>(rt: &(impl Abort + AllocGlobal), new: Book<T>) {
    let mut book = new;
    two_threads(rt, &mut book);
    assert!(rt; book.make_chan() == Ok(ChanId(0)));
    waits(rt, &mut book, 0, leaf(BaseKind::Send(ChanId(0), int(5))));
    waits(rt, &mut book, 1, leaf(BaseKind::Recv(ChanId(0))));
    shows_the_exchange(rt, book.table());
    let committed = book.commit(rt.alloc(), EXCHANGE).expect(rt, MEMORY);
    let partner = committed.partner.expect(rt, "a receiver");
    let wanted = int(5);
    assert!(rt; partner.tid == Tid(1) && partner.value.same(&wanted));
    drop(partner);
    drop(wanted);
    assert!(rt; book.table().head_count() == 0);
    drop(book);
}

#[test]
fn a_value_is_handed_over(rt: HostRuntime) {
    hands_over(&rt, Book::new(rt.alloc(), KeptRows::new(rt.alloc())));
}
