//! How far a run has come, as properties see it.

ghost use Rattle.std.specs.{Prelude.{◌≡◌}, List.{list_any}};
ghost use Rattle.cml_judge.specs.Finishes as spec;

use cml_book::Book;
use cml_hub::{End, Hub};
use cml_index::OfferIndex;
use cml_properties::Finish;
use cml_value::{MboxId, PortId};

// Whether there is an item among so many.
fn are_some(count: Option<usize>) -> bool
    ensures { result ≡ spec.are_some count }
{
    match count {
        Some(count) => count > 0,
        None => false,
    }
}

// Whether some mailbox holds an item.
fn some_mailbox(book: &Book<OfferIndex>) -> bool
    ensures { result ≡ list_any spec.has_an_item book.now.mailboxes }
{
    for mailbox in 0..book.next_objects().mailbox.0 {
        let has = are_some(book.mailbox_len(MboxId(mailbox)));
        if has {
            return true;
        }
    }
    false
}

// Whether some port does.
fn some_port(book: &Book<OfferIndex>) -> bool
    ensures { result ≡ list_any spec.has_an_item book.now.ports }
{
    for port in 0..book.next_objects().port.0 {
        let has = are_some(book.port_len(PortId(port)));
        if has {
            return true;
        }
    }
    false
}

// Whether an item is left that nobody took.
fn has_items_left(book: &Book<OfferIndex>) -> bool
    ensures { result ≡ spec.has_items_left book.now }
{
    some_mailbox(book) || some_port(book)
}

// How far a run has come that stands so, where items are left or not.
fn finish_in(end: End, items: bool) -> Finish
    ensures { result ≡ spec.finish_in end items }
{
    match end {
        End::Quiet if items => Finish::HasItems,
        End::Quiet => Finish::Emptied,
        End::Budget => Finish::GoesOn,
        End::Partial => Finish::GoesOn,
    }
}

/// How far the run of this hub has come: it has ended where nothing is left to do.
pub fn finish_of(hub: &Hub) -> Finish
    ensures { result ≡ spec.finish_at hub.now }
{
    finish_in(hub.end(), has_items_left(hub.book()))
}
