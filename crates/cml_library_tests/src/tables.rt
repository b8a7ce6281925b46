//! The index: more rows than a list could hold, and how many offers are looked at.

use crate::making::{int, leaf, many};
use cml_book::Book;
use cml_index::OfferIndex;
use cml_objects::Tally;
use cml_scan::Meet;
use cml_value::{BaseKind, ChanId, Tid};
use std::process::Abort;

// This many threads come that wait on the group.
fn come(rt: &(impl Abort + AllocGlobal), book: &mut Book<OfferIndex>, count: u32, kind: BaseKind) {
    let group = many(rt, 256, kind);
    for _ in 0..count {
        let thread = book.spawn().expect(rt, "a thread");
        book.sync(rt.alloc(), thread, &group).expect(rt, "a wait");
    }
    drop(group);
}

// The last of the heads, and the last of the rows that begin with it.
fn last_row(rt: &impl Abort, table: &OfferIndex) -> Meet {
    let mut tally = Tally::new();
    assert!(rt; table.head_count_tallied(&mut tally) == 65_536);
    let head = table.head_tallied(65_535, &mut tally);
    assert!(rt; table.partner_count_tallied(head, &mut tally) == 65_536);
    let row = table.partner_tallied(head, 65_535, &mut tally);
    assert!(rt; table.has_tallied(&row, &mut tally));
    drop(tally);
    row
}

// 256 threads offer 256 sends each, and as many threads that many receives each, all on one channel.
#[test]
fn four_thousand_million_rows(rt: HostRuntime) {
    let mut book = Book::new(rt.alloc(), OfferIndex::new(rt.alloc()));
    assert!(rt; book.make_chan() == Ok(ChanId(0)));
    come(&rt, &mut book, 256, BaseKind::Send(ChanId(0), int(0)));
    come(&rt, &mut book, 256, BaseKind::Recv(ChanId(0)));
    let row = last_row(&rt, book.table());
    let committed = book.commit(rt.alloc(), row).expect(&rt, "a row");
    assert!(rt; committed.head.tid == Tid(255));
    drop(committed);
    drop(book);
}

#[test]
fn a_change_is_counted(rt: HostRuntime) {
    let mut table = OfferIndex::new(rt.alloc());
    let mut tally = Tally::new();
    let send = leaf(BaseKind::Send(ChanId(0), int(0)));
    let came = Some((Tid(0), &send));
    let changed = table.change_tallied(rt.alloc(), &[], came, &[], &[], &mut tally);
    assert!(rt; changed.is_ok() && tally.looks() <= 2);
    drop(send);
    drop(tally);
    drop(table);
}
