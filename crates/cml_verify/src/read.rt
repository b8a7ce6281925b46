//! The world of a book, read into lists.

ghost use Rattle.std.specs.Prelude.{◌≡◌, ◌<◌, [], IfOk, Some, length, map, slice_get, unwrap_or};
ghost use Rattle.cml_scan.specs.Views.{thread_of, nack_of, lists_of, port_lists_of};
ghost use Rattle.cml_book.specs.Holding.{value_at};

use cml_book::Book;
use cml_index::OfferIndex;
use cml_scan::{Light, NackState, ThreadState, World};
use cml_value::{IVarId, MVarId, MboxId, McastId, NackId, PortId, Tid, Value};
use std::alloc::{AllocError, Global};

// What the thread does.
fn state_of(book: &Book<OfferIndex>, thread: Tid) -> Result<ThreadState, AllocError>
    requires { thread.0 < length book.now.threads }
    ensures { IfOk result (λ state. slice_get book.now.threads thread.0 ≡ Some (thread_of state)) }
{
    if book.is_running(thread) {
        return Ok(ThreadState::Running);
    }
    match book.waiting(thread) {
        Some(group) => {
            let copy = group.copy()?;
            Ok(ThreadState::Pending(copy))
        }
        None => Ok(ThreadState::Ended),
    }
}

// What all threads do.
fn threads(alloc: Global, book: &Book<OfferIndex>) -> Result<Vec<ThreadState>, AllocError>
    ensures { IfOk result (λ states. map thread_of states.items ≡ book.now.threads) }
{
    let mut states = Vec::new(alloc);
    for t in 0..book.next_thread().0 {
        let state = state_of(book, Tid(t))?;
        states.push(state)?;
    }
    Ok(states)
}

// What the object of the light gives next.
fn held_by(book: &Book<OfferIndex>, light: Light) -> Result<Option<Value>, AllocError>
    ensures { IfOk result (λ value. value ≡ value_at book.now light) }
{
    match book.value(light) {
        Some(value) => {
            let copy = value.copy()?;
            Ok(Some(copy))
        }
        None => Ok(None),
    }
}

// What the first so many I-variables hold.
fn ivars(
    alloc: Global,
    book: &Book<OfferIndex>,
    count: u32,
) -> Result<Vec<Option<Value>>, AllocError>
    requires { count ≡ length book.now.ivars }
    ensures { IfOk result (λ values. values.items ≡ book.now.ivars) }
{
    let mut values = Vec::new(alloc);
    for i in 0..count {
        let held = held_by(book, Light::IVar(IVarId(i)))?;
        values.push(held)?;
    }
    Ok(values)
}

// What the first so many M-variables hold.
fn mvars(
    alloc: Global,
    book: &Book<OfferIndex>,
    count: u32,
) -> Result<Vec<Option<Value>>, AllocError>
    requires { count ≡ length book.now.mvars }
    ensures { IfOk result (λ values. values.items ≡ book.now.mvars) }
{
    let mut values = Vec::new(alloc);
    for m in 0..count {
        let held = held_by(book, Light::MVar(MVarId(m)))?;
        values.push(held)?;
    }
    Ok(values)
}

// How many items the mailbox has. One that is not there has none.
fn mail_count(book: &Book<OfferIndex>, mailbox: MboxId) -> usize
    ensures { result ≡ length (unwrap_or (slice_get book.now.mailboxes mailbox.0) []) }
{
    book.mailbox_len(mailbox).unwrap_or(0)
}

// Item `n` of the mailbox.
fn mail_at(book: &Book<OfferIndex>, mailbox: MboxId, n: usize) -> Result<Value, AllocError>
    requires { n < length (unwrap_or (slice_get book.now.mailboxes mailbox.0) []) }
    ensures { IfOk result (λ item. slice_get (unwrap_or (slice_get book.now.mailboxes mailbox.0) []) n ≡ Some item) }
{
    match book.mailbox_item(mailbox, n) {
        Some(item) => {
            let copy = item.copy()?;
            Ok(copy)
        }
        None => unreachable!(),
    }
}

// The items of the mailbox.
fn mail_in(
    alloc: Global,
    book: &Book<OfferIndex>,
    mailbox: MboxId,
) -> Result<Vec<Value>, AllocError>
    requires { mailbox.0 < length book.now.mailboxes }
    ensures { IfOk result (λ items. slice_get book.now.mailboxes mailbox.0 ≡ Some items.items) }
{
    let mut items = Vec::new(alloc);
    for n in 0..mail_count(book, mailbox) {
        let item = mail_at(book, mailbox, n)?;
        items.push(item)?;
    }
    Ok(items)
}

// The items of the first so many mailboxes.
fn mailboxes(
    alloc: Global,
    book: &Book<OfferIndex>,
    count: u32,
) -> Result<Vec<Vec<Value>>, AllocError>
    requires { count ≡ length book.now.mailboxes }
    ensures { IfOk result (λ queues. lists_of queues.items ≡ book.now.mailboxes) }
{
    let mut queues = Vec::new(alloc);
    for b in 0..count {
        let items = mail_in(alloc, book, MboxId(b))?;
        queues.push(items)?;
    }
    Ok(queues)
}

// How many unread messages the port has. One that is not there has none.
fn message_count(book: &Book<OfferIndex>, port: PortId) -> usize
    ensures { result ≡ length (unwrap_or (slice_get book.now.ports port.0) []) }
{
    book.port_len(port).unwrap_or(0)
}

// Unread message `n` of the port.
fn message_at(book: &Book<OfferIndex>, port: PortId, n: usize) -> Result<Value, AllocError>
    requires { n < length (unwrap_or (slice_get book.now.ports port.0) []) }
    ensures { IfOk result (λ message. slice_get (unwrap_or (slice_get book.now.ports port.0) []) n ≡ Some message) }
{
    match book.port_item(port, n) {
        Some(message) => {
            let copy = message.copy()?;
            Ok(copy)
        }
        None => unreachable!(),
    }
}

// The unread messages of the port.
fn messages_in(
    alloc: Global,
    book: &Book<OfferIndex>,
    port: PortId,
) -> Result<Vec<Value>, AllocError>
    requires { port.0 < length book.now.ports }
    ensures { IfOk result (λ messages. slice_get book.now.ports port.0 ≡ Some messages.items) }
{
    let mut messages = Vec::new(alloc);
    for n in 0..message_count(book, port) {
        let message = message_at(book, port, n)?;
        messages.push(message)?;
    }
    Ok(messages)
}

// The unread messages of the first so many ports.
fn ports(alloc: Global, book: &Book<OfferIndex>, count: u32) -> Result<Vec<Vec<Value>>, AllocError>
    requires { count ≡ length book.now.ports }
    ensures { IfOk result (λ queues. lists_of queues.items ≡ book.now.ports) }
{
    let mut queues = Vec::new(alloc);
    for p in 0..count {
        let messages = messages_in(alloc, book, PortId(p))?;
        queues.push(messages)?;
    }
    Ok(queues)
}

// The ports of the multicast channel.
fn ports_of(
    alloc: Global,
    book: &Book<OfferIndex>,
    channel: McastId,
) -> Result<Vec<PortId>, AllocError>
    requires { channel.0 < length book.now.mchans }
    ensures { IfOk result (λ ports. slice_get book.now.mchans channel.0 ≡ Some (map (λ p. p.0) ports.items)) }
{
    match book.ports(channel) {
        Some(ports) => {
            let copy = Vec::from_slice(alloc, ports)?;
            Ok(copy)
        }
        None => unreachable!(),
    }
}

// The ports of the first so many multicast channels.
fn mchans(
    alloc: Global,
    book: &Book<OfferIndex>,
    count: u32,
) -> Result<Vec<Vec<PortId>>, AllocError>
    requires { count ≡ length book.now.mchans }
    ensures { IfOk result (λ channels. port_lists_of channels.items ≡ book.now.mchans) }
{
    let mut channels = Vec::new(alloc);
    for x in 0..count {
        let ports = ports_of(alloc, book, McastId(x))?;
        channels.push(ports)?;
    }
    Ok(channels)
}

// The state of the nack.
fn state_of_nack(book: &Book<OfferIndex>, nack: NackId) -> NackState
    requires { nack.0 < length book.now.nacks }
    ensures { slice_get book.now.nacks nack.0 ≡ Some (nack_of result) }
{
    match book.nack_state(nack) {
        Some(state) => state,
        None => unreachable!(),
    }
}

// The states of all nacks.
fn nacks(alloc: Global, book: &Book<OfferIndex>) -> Result<Vec<NackState>, AllocError>
    ensures { IfOk result (λ states. map nack_of states.items ≡ book.now.nacks) }
{
    let mut states = Vec::new(alloc);
    for k in 0..book.next_nack().0 {
        let state = state_of_nack(book, NackId(k));
        states.push(state)?;
    }
    Ok(states)
}

// What the variables and the queues hold.
#[derive(Drop)]
struct Objects {
    ivars: Vec<Option<Value>>,
    mvars: Vec<Option<Value>>,
    mailboxes: Vec<Vec<Value>>,
    mchans: Vec<Vec<PortId>>,
    ports: Vec<Vec<Value>>,
}

// What the variables and the queues of the book hold.
fn hold(alloc: Global, book: &Book<OfferIndex>) -> Result<Objects, AllocError>
    ensures variables { IfOk result (λ held. (held.ivars.items ≡ book.now.ivars) × (held.mvars.items ≡ book.now.mvars)) }
    ensures queues { IfOk result (λ held. (lists_of held.mailboxes.items ≡ book.now.mailboxes) × (lists_of held.ports.items ≡ book.now.ports)) }
    ensures channels { IfOk result (λ held. port_lists_of held.mchans.items ≡ book.now.mchans) }
{
    let next = book.next_objects();
    let ivars = ivars(alloc, book, next.ivar.0)?;
    let mvars = mvars(alloc, book, next.mvar.0)?;
    let mailboxes = mailboxes(alloc, book, next.mailbox.0)?;
    let mchans = mchans(alloc, book, next.mchan.0)?;
    let ports = ports(alloc, book, next.port.0)?;
    Ok(Objects {
        ivars,
        mvars,
        mailboxes,
        mchans,
        ports,
    })
}

/// The world of the book.
pub(crate) fn read_world(alloc: Global, book: &Book<OfferIndex>) -> Result<World, AllocError>
    ensures { IfOk result (λ w. w ≡ book.now) }
{
    let next = book.next_objects();
    let threads = threads(alloc, book)?;
    let nacks = nacks(alloc, book)?;
    let held = hold(alloc, book)?;
    Ok(World {
        threads,
        channels: next.channel.0,
        swaps: next.swap.0,
        ivars: held.ivars,
        mvars: held.mvars,
        mailboxes: held.mailboxes,
        mchans: held.mchans,
        ports: held.ports,
        nacks,
        tick: book.now(),
    })
}
