//! Multicast channels and their ports.

ghost use Rattle.std.specs.Prelude.{◌≡◌, ◌<◌, Bool, List, not, All, Some, length, IfOk, OnOk, OnErr};
ghost use Rattle.cml_scan.specs.{World.{PlainEntry}, Light.{has_item}, declared.object.Light.{Light}};
ghost use Rattle.cml_objects.specs.Registered.{HasRoomAt};
ghost use Rattle.cml_objects.specs.Posts.{port_numbers, unread, any_is_full, posted, says_full};
ghost use Rattle.cml_book.specs.{Outcomes.{Does, DoesWith, max_objects}, MakeObjects.{make_mchan}, MakePort.{with_port}};
ghost use Rattle.cml_book.specs.Telling.{StaysKept, TurnsOn, newly_lit};
ghost use Rattle.cml_book.specs.{Homes.{AddsPort, ArePorts, AreBelow, StillFew, has_room, port_light, first_lights}, Views.{ports_of}};
ghost use Rattle.cml_book.specs.MakePort as spec;
ghost use Rattle.cml_book.specs.Multicast as multicast_spec;

use crate::book::MAX_OBJECTS;
use crate::feeding::tell_lit;
use crate::fullness::port_has_item;
use crate::refusal::{Fault, Refusal, Returned};
use crate::state::State;
use cml_objects::{Multicast, Port, PostFault, Register, Source, deliver, prepare};
use cml_scan::{Light, Table};
use cml_value::{McastId, PortId, Value};
use std::alloc::{AllocError, Global};

impl State {
    /// Makes a multicast channel without ports.
    pub(crate) fn make_mchan(&mut self, alloc: Global) -> Result<McastId, Fault>
        ensures step { Does result (make_mchan self.old) self.old self.new }
        ensures kept { (entries : List PlainEntry) (told : Light → Bool) →
            StaysKept self.old entries told self.new entries told }
    {
        if self.mchans.len() >= MAX_OBJECTS {
            return Err(Fault::Refused(Refusal::Full));
        }
        let channel = McastId(self.mchans.len() as u32);
        self.mchans.reserve(1)?;
        self.mchans.push_reserved(Multicast::new(alloc));
        Ok(channel)
    }

    /// Makes a port of the channel.
    pub(crate) fn make_port<T: Table>(
        &mut self,
        alloc: Global,
        table: &mut T,
        channel: McastId,
    ) -> Result<PortId, Fault>
        ensures step { Does result (spec.make_port self.old channel.0) self.old self.new }
        ensures kept { StaysKept self.old (T.entries table.old) (T.is_lit table.old)
            self.new (T.entries table.new) (T.is_lit table.new) }
    {
        if channel.0 as usize >= self.mchans.len() {
            return Err(Fault::Refused(Refusal::Object));
        }
        if self.ports.len() >= MAX_OBJECTS {
            return Err(Fault::Refused(Refusal::Full));
        }
        let Ok(port) = add_port(
            alloc,
            table,
            &mut self.mchans,
            &mut self.port_channels,
            &mut self.ports,
            channel,
            Port::new(alloc),
        ) else {
            return Err(Fault::Memory);
        };
        Ok(port)
    }

    /// Makes a port of the same channel and with the same unread messages, and tells the table if there is one.
    pub(crate) fn copy_port<T: Table>(
        &mut self,
        alloc: Global,
        table: &mut T,
        port: PortId,
    ) -> Result<PortId, Fault>
        ensures step { Does result (spec.copy_port self.old port.0) self.old self.new }
        ensures kept { StaysKept self.old (T.entries table.old) (T.is_lit table.old)
            self.new (T.entries table.new) (T.is_lit table.new) }
    {
        let place = port.0 as usize;
        if place >= self.port_channels.len() {
            return Err(Fault::Refused(Refusal::Object));
        }
        let home = self.port_channels[place];
        if self.ports.len() >= MAX_OBJECTS {
            return Err(Fault::Refused(Refusal::Full));
        }
        let Some(original) = self.ports.get(port.0) else {
            unreachable!();
        };
        let Ok(copy) = cml_objects::copy_port(alloc, original) else {
            return Err(Fault::Memory);
        };
        let Ok(made) = add_port(
            alloc,
            table,
            &mut self.mchans,
            &mut self.port_channels,
            &mut self.ports,
            home,
            copy,
        ) else {
            return Err(Fault::Memory);
        };
        Ok(made)
    }

    /// Puts the message behind the unread ones in every port of the channel, or in none. Tells the table of the ports for which it is the
    /// first.
    pub(crate) fn multicast<T: Table>(
        &mut self,
        alloc: Global,
        table: &mut T,
        channel: McastId,
        message: Value,
    ) -> Result<(), Returned<Value>>
        ensures step { DoesWith result message
            (multicast_spec.multicast self.old channel.0 message) self.old self.new }
        ensures kept { StaysKept self.old (T.entries table.old) (T.is_lit table.old)
            self.new (T.entries table.new) (T.is_lit table.new) }
    {
        let place = channel.0 as usize;
        if place >= self.mchans.len() {
            return Err(Returned::refused(message, Refusal::Object));
        }
        if !message.fits() {
            return Err(Returned::refused(message, Refusal::Deep));
        }
        if let Err(fault) = send(alloc, table, &self.mchans[place], &mut self.ports, &message) {
            return Err(Returned {
                value: message,
                fault: post_fault(fault),
            });
        }
        drop(message);
        Ok(())
    }
}

// Why a call did nothing, from the fault of the post.
fn post_fault(fault: PostFault) -> Fault
    ensures { result ≡ multicast_spec.fault_of_post fault }
{
    match fault {
        PostFault::Full => Fault::Refused(Refusal::Full),
        PostFault::Memory => Fault::Memory,
    }
}

// Adds the port to the others and to those of the channel, and tells the table if it has a message. Room is made first, so nothing
// can fail any more once the table is told.
fn add_port<T: Table>(
    alloc: Global,
    table: &mut T,
    channels: &mut Vec<Multicast>,
    port_channels: &mut Vec<McastId>,
    ports: &mut Register<Port>,
    channel: McastId,
    port: Port,
) -> Result<PortId, AllocError>
    requires there { channel.0 < length channels.old.items }
    requires few { length ports.old.objects < max_objects }
    requires housed { ArePorts channels.old.items port_channels.old.items (length ports.old.objects) }
    ensures added { AddsPort result channel.0 port.items channels.old.items channels.new.items
        ports.old.objects ports.new.objects }
    ensures told { TurnsOn result
        (newly_lit (not (has_item (Some port.items))) (port_light (length ports.old.objects)))
        (T.entries table.old) (T.entries table.new) (T.is_lit table.old) (T.is_lit table.new) }
    ensures housed { ArePorts channels.new.items port_channels.new.items (length ports.new.objects) }
    ensures still { StillFew channels.old.items channels.new.items ports.old ports.new }
{
    let id = PortId(ports.len() as u32);
    let Ok(()) = room_at(channels, channel) else {
        drop(port);
        return Err(AllocError);
    };
    let Ok(()) = port_channels.reserve(1) else {
        drop(port);
        return Err(AllocError);
    };
    let Ok(()) = ports.room(None) else {
        drop(port);
        return Err(AllocError);
    };
    let Ok(()) = tell_lit(alloc, table, !port.lit(), Light::Port(id)) else {
        drop(port);
        return Err(AllocError);
    };
    add_at(channels, channel, id);
    port_channels.push_reserved(channel);
    let Ok(_) = ports.make(port) else {
        unreachable!();
    };
    Ok(id)
}

// Makes room for one more port of the channel.
fn room_at(channels: &mut Vec<Multicast>, channel: McastId) -> Result<(), AllocError>
    requires { channel.0 < length channels.old.items }
    ensures ports { ports_of channels.new.items ≡ ports_of channels.old.items }
    ensures len { length channels.new.items ≡ length channels.old.items }
    ensures ok { OnOk result (HasRoomAt has_room channels.new.items channel.0) }
{
    let found = &mut channels[channel.0 as usize];
    found.room()
}

// Adds a port to the channel, with a number above those of its others. There is room, so it takes no memory.
fn add_at(channels: &mut Vec<Multicast>, channel: McastId, port: PortId)
    requires there { channel.0 < length channels.old.items }
    requires room { HasRoomAt has_room channels.old.items channel.0 }
    requires below { AreBelow (ports_of channels.old.items) channel.0 port.0 }
    ensures ports { ports_of channels.new.items
        ≡ with_port (ports_of channels.old.items) channel.0 port.0 }
    ensures len { length channels.new.items ≡ length channels.old.items }
{
    let found = &mut channels[channel.0 as usize];
    let Ok(()) = found.add(port) else {
        unreachable!();
    };
}

// Posts the message to the ports of the channel, or to none, and tells the table of those for which it is the first.
fn send<T: Table>(
    alloc: Global,
    table: &mut T,
    channel: &Multicast,
    ports: &mut Register<Port>,
    message: &Value,
) -> Result<(), PostFault>
    requires there { All (λ port. port.0 < length ports.old.objects) channel.now.ports }
    ensures full { let old = unread ports.old.objects in
        says_full result ≡ any_is_full (port_numbers channel.now.ports) old }
    ensures ok { let new = posted message.now (port_numbers channel.now.ports) (unread ports.old.objects) in
        OnOk result (unread ports.new.objects ≡ new) }
    ensures err { OnErr result (unread ports.new.objects ≡ unread ports.old.objects) }
    ensures told { TurnsOn result
        (first_lights (port_numbers channel.now.ports) (unread ports.old.objects))
        (T.entries table.old) (T.entries table.new) (T.is_lit table.old) (T.is_lit table.new) }
    ensures len { length ports.new.objects ≡ length ports.old.objects }
    ensures waits { ports.new.waits ≡ ports.old.waits }
{
    let copies = prepare(alloc, channel, ports, message)?;
    let Ok(()) = tell_first(alloc, table, ports, channel.ports()) else {
        drop(copies);
        return Err(PostFault::Memory);
    };
    deliver(channel, ports, message, copies);
    Ok(())
}

// Some of these ports have no message yet, and get their first: tells the table that their lights are turned on.
fn tell_first<T: Table>(
    alloc: Global,
    table: &mut T,
    ports: &Register<Port>,
    ids: &[PortId],
) -> Result<(), AllocError>
    ensures { TurnsOn result (first_lights (port_numbers ids.now) (unread ports.now.objects))
        (T.entries table.old) (T.entries table.new) (T.is_lit table.old) (T.is_lit table.new) }
{
    let lights = unlit_ports(alloc, ports, ids)?;
    if lights.is_empty() {
        return Ok(());
    }
    table.change(alloc, &[], None, &lights, &[])
}

// The lights of these ports, but not of those that have a message already.
fn unlit_ports(
    alloc: Global,
    ports: &Register<Port>,
    ids: &[PortId],
) -> Result<Vec<Light>, AllocError>
    ensures { IfOk result
        (λ lights. lights.items ≡ first_lights (port_numbers ids.now) (unread ports.now.objects)) }
{
    let mut lights = Vec::new(alloc);
    for id in ids {
        if !port_has_item(ports, *id) {
            lights.push(Light::Port(*id))?;
        }
    }
    Ok(lights)
}
