//! The values that objects hold, and the numbers of the next ones.

ghost use Rattle.std.specs.{Prelude.{◌≡◌, Some, None, IfSome, IfNone, length, map, slice_get}, Option.{option_copied}};
ghost use Rattle.cml_book.specs.{Commit.{held_in}, Holding.{first_in, item_in, value_at}, Views.{queues_of, ports_of as all_ports_of}};

use crate::state::State;
use cml_objects::{IVar, MVar, Mailbox, Multicast, Port, Register};
use cml_scan::Light;
use cml_value::{ChanId, IVarId, MVarId, MboxId, McastId, PortId, SwapId, Value};

/// The number that the next object of each kind will have, if there is room for one.
#[derive(Clone, Copy, PartialEq, Eq)]
pub struct NextObjects {
    /// The next channel.
    pub channel: ChanId,
    /// The next swap channel.
    pub swap: SwapId,
    /// The next I-variable.
    pub ivar: IVarId,
    /// The next M-variable.
    pub mvar: MVarId,
    /// The next mailbox.
    pub mailbox: MboxId,
    /// The next multicast channel.
    pub mchan: McastId,
    /// The next port.
    pub port: PortId,
}

impl State {
    /// The numbers of the next objects.
    pub fn next_objects(&self) -> NextObjects
        ensures channel { result.channel.0 ≡ self.now.channels }
        ensures swap { result.swap.0 ≡ self.now.swaps }
        ensures ivar { result.ivar.0 ≡ length self.now.ivars }
        ensures mvar { result.mvar.0 ≡ length self.now.mvars }
        ensures mailbox { result.mailbox.0 ≡ length self.now.mailboxes }
        ensures mchan { result.mchan.0 ≡ length self.now.mchans }
        ensures port { result.port.0 ≡ length self.now.ports }
    {
        NextObjects {
            channel: ChanId(self.channels),
            swap: SwapId(self.swaps),
            ivar: IVarId(self.ivars.len() as u32),
            mvar: MVarId(self.mvars.len() as u32),
            mailbox: MboxId(self.mailboxes.len() as u32),
            mchan: McastId(self.mchans.len() as u32),
            port: PortId(self.ports.len() as u32),
        }
    }

    /// The value that the object of the light gives next, if it holds one.
    pub fn value(&self, light: Light) -> Option<&Value>
        ensures { option_copied result ≡ value_at self.now light }
    {
        match light {
            Light::IVar(i) => ivar_value(&self.ivars, i),
            Light::MVar(m) => mvar_value(&self.mvars, m),
            Light::Mbox(b) => first_mail(&self.mailboxes, b),
            Light::Port(p) => first_message(&self.ports, p),
            Light::Joined(_) | Light::Alarm(_) | Light::Nack(_) => None,
        }
    }
}

/// Item `n` of the mailbox, if there is such a one and it has so many.
pub fn mail_item(mailboxes: &Register<Mailbox>, id: MboxId, n: usize) -> Option<&Value>
    ensures { option_copied result ≡ item_in n (slice_get (queues_of mailboxes.now.objects) id.0) }
{
    match mailboxes.get(id.0) {
        Some(mailbox) => mailbox.item(n),
        None => None,
    }
}

/// Unread message `n` of the port, if there is such a one and it has so many.
pub fn message(ports: &Register<Port>, id: PortId, n: usize) -> Option<&Value>
    ensures { option_copied result ≡ item_in n (slice_get (queues_of ports.now.objects) id.0) }
{
    match ports.get(id.0) {
        Some(port) => port.item(n),
        None => None,
    }
}

/// The ports of the multicast channel, if there is such a one.
pub fn ports_of(channels: &[Multicast], id: McastId) -> Option<&[PortId]>
    ensures some { IfSome result (λ ports. slice_get (all_ports_of channels.now) id.0 ≡ Some (map (λ p. p.0) ports.now)) }
    ensures none { IfNone result (slice_get (all_ports_of channels.now) id.0 ≡ None) }
{
    match channels.get(id.0 as usize) {
        Some(channel) => Some(channel.ports()),
        None => None,
    }
}

// The value of the I-variable, if there is such a one and it is full.
fn ivar_value(ivars: &Register<IVar>, id: IVarId) -> Option<&Value>
    ensures { option_copied result ≡ held_in (slice_get ivars.now.objects id.0) }
{
    match ivars.get(id.0) {
        Some(ivar) => ivar.value(),
        None => None,
    }
}

// The value of the M-variable, if there is such a one and it is full.
fn mvar_value(mvars: &Register<MVar>, id: MVarId) -> Option<&Value>
    ensures { option_copied result ≡ held_in (slice_get mvars.now.objects id.0) }
{
    match mvars.get(id.0) {
        Some(mvar) => mvar.value(),
        None => None,
    }
}

// The first item of the mailbox, if there is such a one and it has one.
fn first_mail(mailboxes: &Register<Mailbox>, id: MboxId) -> Option<&Value>
    ensures { option_copied result ≡ first_in (slice_get (queues_of mailboxes.now.objects) id.0) }
{
    match mailboxes.get(id.0) {
        Some(mailbox) => mailbox.first(),
        None => None,
    }
}

// The first unread message of the port, if there is such a one and it has one.
fn first_message(ports: &Register<Port>, id: PortId) -> Option<&Value>
    ensures { option_copied result ≡ first_in (slice_get (queues_of ports.now.objects) id.0) }
{
    match ports.get(id.0) {
        Some(port) => port.first(),
        None => None,
    }
}
