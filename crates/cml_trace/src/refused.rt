//! Why a command was refused.

ghost use Rattle.std.specs.Prelude.{◌≡◌, slice_get};
ghost use Rattle.cml_trace.specs.Whys as spec;

use crate::missing::{missing_in, stale_in};
use crate::why::{Act, Kind, Leaf, Thing, Why};
use cml_book::{Book, Command, Refusal};
use cml_scan::{Meet, Table};
use cml_value::{Group, Tid};

/// Why the command was refused in the world of the book.
pub fn why_of<T: Table>(book: &Book<T>, command: &Command, refusal: Refusal) -> Why
    ensures { result ≡ spec.why_of book.now command.now refusal }
{
    match command {
        Command::Spawn => Why::NoMore(Kind::Thread),
        Command::MakeChan => Why::NoMore(Kind::Channel),
        Command::MakeSwap => Why::NoMore(Kind::SwapChannel),
        Command::MakeIVar => Why::NoMore(Kind::IVar),
        Command::MakeMVar(_) => mvar_why(refusal),
        Command::MakeMailbox => Why::NoMore(Kind::Mailbox),
        Command::MakeMChan => Why::NoMore(Kind::Multicast),
        Command::MakePort(x) => port_why(Kind::Multicast, x.0, refusal),
        Command::CopyPort(p) => port_why(Kind::Port, p.0, refusal),
        Command::IPut(i, _) => put_why(Kind::IVar, i.0, refusal),
        Command::MPut(m, _) => put_why(Kind::MVar, m.0, refusal),
        Command::Mail(b, _) => mail_why(Kind::Mailbox, b.0, refusal),
        Command::Multicast(x, _) => mail_why(Kind::Multicast, x.0, refusal),
        Command::Nack(t) => nack_why(book, *t, refusal),
        Command::Sync(t, g) => sync_why(book, *t, g, refusal),
        Command::Commit(row) => row_why(book, row),
        Command::End(t) => end_why(book, *t, refusal),
        Command::Clock(k) => clock_why(book, *k, refusal),
    }
}

fn absent(kind: Kind, number: u32) -> Why
    ensures { result ≡ spec.absent kind number }
{
    Why::Absent(Thing { kind, number })
}

fn mvar_why(refusal: Refusal) -> Why
    ensures { result ≡ spec.mvar_why refusal }
{
    match refusal {
        Refusal::Deep => Why::DeepValue,
        _ => Why::NoMore(Kind::MVar),
    }
}

fn port_why(kind: Kind, number: u32, refusal: Refusal) -> Why
    ensures { result ≡ spec.port_why kind number refusal }
{
    match refusal {
        Refusal::Object => absent(kind, number),
        _ => Why::NoMore(Kind::Port),
    }
}

fn put_why(kind: Kind, number: u32, refusal: Refusal) -> Why
    ensures { result ≡ spec.put_why kind number refusal }
{
    match refusal {
        Refusal::Object => absent(kind, number),
        Refusal::Put => Why::Filled(Thing { kind, number }),
        _ => Why::DeepValue,
    }
}

fn mail_why(kind: Kind, number: u32, refusal: Refusal) -> Why
    ensures { result ≡ spec.mail_why kind number refusal }
{
    match refusal {
        Refusal::Object => absent(kind, number),
        Refusal::Full => Why::Crowded(Thing { kind, number }),
        _ => Why::DeepValue,
    }
}

// A thread that does not run can't do this: it is pending, or it has ended.
fn idle_why<T: Table>(book: &Book<T>, thread: Tid, act: Act) -> Why
    ensures { result ≡ spec.idle_why (slice_get book.now.threads thread.0) thread.0 act }
{
    match book.waiting(thread) {
        Some(_) => Why::Pending(thread.0, act),
        None => Why::Ended(thread.0, act),
    }
}

fn nack_why<T: Table>(book: &Book<T>, thread: Tid, refusal: Refusal) -> Why
    ensures { result ≡ spec.nack_why book.now thread.0 refusal }
{
    match refusal {
        Refusal::Thread => absent(Kind::Thread, thread.0),
        Refusal::State => idle_why(book, thread, Act::MakeNack),
        _ => Why::NoMore(Kind::Nack),
    }
}

fn end_why<T: Table>(book: &Book<T>, thread: Tid, refusal: Refusal) -> Why
    ensures { result ≡ spec.end_why book.now thread.0 refusal }
{
    match refusal {
        Refusal::Thread => absent(Kind::Thread, thread.0),
        _ => idle_why(book, thread, Act::End),
    }
}

fn sync_why<T: Table>(book: &Book<T>, thread: Tid, group: &Group, refusal: Refusal) -> Why
    ensures { result ≡ spec.sync_why book.now thread.0 group.now refusal }
{
    match refusal {
        Refusal::Thread => absent(Kind::Thread, thread.0),
        Refusal::State => idle_why(book, thread, Act::Wait),
        Refusal::Object => missing_why(book, group),
        Refusal::Leaves => Why::ManyLeaves,
        Refusal::Deep => Why::DeepGroup,
        Refusal::Far => Why::FarTickOfGroup,
        _ => stale_why(book, thread, group),
    }
}

fn missing_why<T: Table>(book: &Book<T>, group: &Group) -> Why
    ensures { result ≡ spec.missing_why (spec.missing_in book.now group.now) }
{
    match missing_in(book, group) {
        Some(thing) => Why::Absent(thing),
        None => Why::AbsentOfGroup,
    }
}

fn stale_why<T: Table>(book: &Book<T>, thread: Tid, group: &Group) -> Why
    ensures { result ≡ spec.stale_why (spec.stale_in book.now thread.0 group.now) }
{
    match stale_in(book, thread, group) {
        Some(nack) => Why::NotOfScope(nack),
        None => Why::SharedNack,
    }
}

// Why none of the thread's leaves can be taken, where that is so.
fn party_why<T: Table>(book: &Book<T>, thread: Tid) -> Option<Why>
    ensures { result ≡ spec.party_why (slice_get book.now.threads thread.0) thread.0 }
{
    if book.waiting(thread).is_some() {
        return None;
    }
    if book.is_running(thread) {
        Some(Why::PartyRuns(thread.0))
    } else if thread.0 < book.next_thread().0 {
        Some(Why::PartyEnded(thread.0))
    } else {
        Some(absent(Kind::Thread, thread.0))
    }
}

fn row_why<T: Table>(book: &Book<T>, row: &Meet) -> Why
    ensures { result ≡ spec.row_why book.now row.now }
{
    match *row {
        Meet::Single { tid, leaf } => match party_why(book, tid) {
            Some(why) => why,
            None => Why::NotAlone(leaf_named(tid, leaf)),
        },
        Meet::Pair {
            head,
            head_leaf,
            other,
            other_leaf,
        } => match party_why(book, head).or(party_why(book, other)) {
            Some(why) => why,
            None => Why::NotTogether(leaf_named(head, head_leaf), leaf_named(other, other_leaf)),
        },
    }
}

fn leaf_named(thread: Tid, leaf: u32) -> Leaf
    ensures { result ≡ spec.leaf_named thread.0 leaf }
{
    Leaf {
        thread: thread.0,
        leaf,
    }
}

fn clock_why<T: Table>(book: &Book<T>, to: u64, refusal: Refusal) -> Why
    ensures { result ≡ spec.clock_why book.now to refusal }
{
    match refusal {
        Refusal::Clock => Why::Back(book.now(), to),
        _ => Why::FarTick,
    }
}
