//! A message to every port of a multicast channel.

ghost use Rattle.std.specs.Prelude.{◌≡◌, ◌<◌, ◌≤◌, false, length, replicate, IfOk, OnOk, OnErr, All, AllPairs};
ghost use Rattle.cml_objects.specs.{Feeds.{Feeds}, Registered.{HasRoomAt, KeepsRoom, KeepsOthers}};
ghost use Rattle.cml_objects.specs.Queues.{is_full_at, added_at};
ghost use Rattle.cml_objects.specs.Posts.{port_numbers, unread, port_has_room, KeepsPorts, KeepsMessages, any_is_full as spec_any_is_full, posted, post_outcome, says_full};

use crate::multicast::Multicast;
use crate::port::Port;
use crate::{FeedFault, Register, Source};
use cml_value::{PortId, Value};
use std::alloc::{AllocError, Global};
use thiserror::Error;

/// Puts the message after the unread ones of every port of the channel, or of none. A channel without ports drops it.
///
/// # Errors
/// `Full` where any of the ports is full, or out of memory: the message comes back, and nothing changes. What room there was
/// stays.
pub fn post(
    alloc: Global,
    channel: &Multicast,
    ports: &mut Register<Port>,
    message: Value,
) -> Result<(), FeedFault<Value>>
    requires { All (λ port. port.0 < length ports.old.objects) channel.now.ports }
    ensures states { let old = unread ports.old.objects in
        let outcome = post_outcome (port_numbers channel.now.ports) message old in
        Feeds result outcome message old (unread ports.new.objects) }
    ensures len { length ports.new.objects ≡ length ports.old.objects }
    ensures waits { ports.new.waits ≡ ports.old.waits }
    ensures kept_make { ports.old.room ≤ ports.new.room }
    ensures kept_feed { OnErr result (KeepsRoom port_has_room ports.old.objects ports.new.objects) }
{
    match prepare(alloc, channel, ports, &message) {
        Ok(copies) => {
            deliver(channel, ports, &message, copies);
            Ok(())
        }
        Err(PostFault::Full) => Err(FeedFault::Full(message)),
        Err(PostFault::Memory) => Err(FeedFault::Memory(message)),
    }
}

/// Why a message can't be posted. Nothing has changed.
#[derive(Clone, Copy, Debug, PartialEq, Eq, Error)]
pub enum PostFault {
    /// One of the ports is full.
    #[error("a port is full")]
    Full,
    /// Memory ran out, where none of the ports is full.
    #[error("out of memory")]
    Memory,
}

/// Makes ready what a post of the message takes: a copy of it for every port of the channel, and room in each of them. After it
/// `deliver` takes no memory; so between the two a table can be told which ports get their first message.
///
/// # Errors
/// `Full` exactly where any of the ports is full, or out of memory. What room there was stays.
pub fn prepare(
    alloc: Global,
    channel: &Multicast,
    ports: &mut Register<Port>,
    message: &Value,
) -> Result<Vec<Value>, PostFault>
    requires { All (λ port. port.0 < length ports.old.objects) channel.now.ports }
    ensures copies { IfOk result
        (λ copies. copies.items ≡ replicate (length channel.now.ports) message.now) }
    ensures room { OnOk result
        (All (λ port. HasRoomAt port_has_room ports.new.objects port.0) channel.now.ports) }
    ensures full { let old = unread ports.old.objects in
        says_full result ≡ spec_any_is_full (port_numbers channel.now.ports) old }
    ensures kept { KeepsMessages ports.old ports.new }
{
    let ids = channel.ports();
    if any_is_full(ports, ids) {
        return Err(PostFault::Full);
    }
    let Ok(copies) = copies(alloc, message, ids.len()) else {
        return Err(PostFault::Memory);
    };
    if make_room(ports, ids).is_err() {
        return Err(PostFault::Memory);
    }
    Ok(copies)
}

/// Puts a copy of the message after the unread ones of every port of the channel, as `prepare` made ready. It takes no memory.
pub fn deliver(channel: &Multicast, ports: &mut Register<Port>, message: &Value, copies: Vec<Value>)
    requires there { All (λ port. port.0 < length ports.old.objects) channel.now.ports }
    requires room { All (λ port. HasRoomAt port_has_room ports.old.objects port.0) channel.now.ports }
    requires open { let old = unread ports.old.objects in
        spec_any_is_full (port_numbers channel.now.ports) old ≡ false }
    requires copied { copies.items ≡ replicate (length channel.now.ports) message.now }
    ensures unread { unread ports.new.objects
        ≡ posted message.now (port_numbers channel.now.ports) (unread ports.old.objects) }
    ensures kept { KeepsPorts ports.old ports.new }
{
    feed_all(ports, channel.ports(), message, copies);
}

// Whether there is a port of this number that is full.
fn is_full(ports: &Register<Port>, id: PortId) -> bool
    ensures { result ≡ is_full_at (unread ports.now.objects) id.0 }
{
    match ports.get(id.0) {
        Some(port) => port.is_full(),
        None => false,
    }
}

// Whether one of these ports is full.
fn any_is_full(ports: &Register<Port>, ids: &[PortId]) -> bool
    ensures { result ≡ spec_any_is_full (port_numbers ids.now) (unread ports.now.objects) }
{
    for id in ids {
        if is_full(ports, *id) {
            return true;
        }
    }
    false
}

// This many copies of the message.
fn copies(alloc: Global, message: &Value, count: usize) -> Result<Vec<Value>, AllocError>
    ensures { IfOk result (λ list. list.items ≡ replicate count message.now) }
{
    let mut list = Vec::new(alloc);
    for i in 0..count {
        list.push(message.copy()?)?;
    }
    Ok(list)
}

// Makes room for one more message in each of these ports.
fn make_room(ports: &mut Register<Port>, ids: &[PortId]) -> Result<(), AllocError>
    requires there { All (λ id. id.0 < length ports.old.objects) ids.now }
    requires once { AllPairs (λ a b. a.0 < b.0) ids.now }
    ensures kept { KeepsMessages ports.old ports.new }
    ensures ok { OnOk result (All (λ id. HasRoomAt port_has_room ports.new.objects id.0) ids.now) }
{
    for id in ids {
        ports.room(Some(id.0))?;
    }
    Ok(())
}

// Gives each of these ports, none of which is full, a copy of the message. There is room, so it takes no memory.
fn feed_all(ports: &mut Register<Port>, ids: &[PortId], message: &Value, mut copies: Vec<Value>)
    requires there { All (λ id. id.0 < length ports.old.objects) ids.now }
    requires once { AllPairs (λ a b. a.0 < b.0) ids.now }
    requires room { All (λ id. HasRoomAt port_has_room ports.old.objects id.0) ids.now }
    requires open { All (λ id. is_full_at (unread ports.old.objects) id.0 ≡ false) ids.now }
    requires copied { copies.items ≡ replicate (length ids.now) message.now }
    ensures unread { unread ports.new.objects
        ≡ posted message.now (port_numbers ids.now) (unread ports.old.objects) }
    ensures kept { KeepsPorts ports.old ports.new }
{
    for id in ids {
        let Some(copy) = copies.pop() else {
            unreachable!()
        };
        feed_one(ports, *id, copy);
    }
}

// Gives this port, which is not full, the message. There is room, so it takes no memory.
fn feed_one(ports: &mut Register<Port>, id: PortId, message: Value)
    requires there { id.0 < length ports.old.objects }
    requires room { HasRoomAt port_has_room ports.old.objects id.0 }
    requires open { is_full_at (unread ports.old.objects) id.0 ≡ false }
    ensures unread { unread ports.new.objects ≡ added_at (unread ports.old.objects) id.0 message }
    ensures others { KeepsOthers ports.old.objects ports.new.objects id.0 }
    ensures kept { KeepsPorts ports.old ports.new }
{
    let _ = ports.feed(id.0, message);
}
