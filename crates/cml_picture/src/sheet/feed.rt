//! What was fed to an object, and which item took it.

ghost use Rattle.std.specs.{Prelude.{◌≡◌, ◌==◌, IfOk}, List.{list_any}};
ghost use Rattle.cml_picture.specs.Feeds as spec;

use cml_facts::narrative::{Came, Deed, Happened};
use cml_hub::Hub;
use cml_step::Ask;
use cml_value::{Base, BaseKind, MboxId, McastId, PortId};
use std::alloc::{AllocError, Global};

/// An item that took what another one had fed, by the numbers of both.
#[derive(Clone, Copy)]
pub struct Fed {
    pub from: usize,
    pub to: usize,
}

/// What items are fed to or taken from, by its number.
#[derive(Clone, Copy)]
pub(crate) enum Store {
    IVar(u32),
    MVar(u32),
    Mailbox(u32),
    Channel(u32),
    Port(u32),
}

/// What an ask feeds.
pub(crate) fn store_asked(ask: &Ask) -> Option<Store>
    ensures { result ≡ spec.store_asked ask.now }
{
    match ask {
        Ask::IPut(ivar, _) => Some(Store::IVar(ivar.0)),
        Ask::MPut(mvar, _) => Some(Store::MVar(mvar.0)),
        Ask::Mail(mailbox, _) => Some(Store::Mailbox(mailbox.0)),
        Ask::Multicast(channel, _) => Some(Store::Channel(channel.0)),
        _ => None,
    }
}

// What an event feeds as it is taken.
fn store_swapped(base: &Base) -> Option<Store>
    ensures { result ≡ spec.store_swapped base.now }
{
    match base.kind() {
        BaseKind::MSwap(mvar, _) => Some(Store::MVar(mvar.0)),
        _ => None,
    }
}

// From what an event takes.
fn store_of(base: &Base) -> Option<Store>
    ensures { result ≡ spec.store_of base.now }
{
    match base.kind() {
        BaseKind::IGet(ivar) => Some(Store::IVar(ivar.0)),
        BaseKind::MTake(mvar) => Some(Store::MVar(mvar.0)),
        BaseKind::MGet(mvar) => Some(Store::MVar(mvar.0)),
        BaseKind::MSwap(mvar, _) => Some(Store::MVar(mvar.0)),
        BaseKind::MailRecv(mailbox) => Some(Store::Mailbox(mailbox.0)),
        BaseKind::PortRecv(port) => Some(Store::Port(port.0)),
        _ => None,
    }
}

// From what an item took.
fn store_taken(deed: &Deed) -> Option<Store>
    ensures { result ≡ spec.store_taken deed.now }
{
    match deed {
        Deed::Took(took) => match &took.taker.chosen {
            Some(chosen) => store_of(&chosen.base),
            None => None,
        },
        _ => None,
    }
}

// What an item fed.
fn store_fed(deed: &Deed) -> Option<Store>
    ensures { result ≡ spec.store_fed deed.now }
{
    match deed {
        Deed::Turned(turned) => match &turned.came {
            Came::Done(_) => store_asked(&turned.ask),
            _ => None,
        },
        Deed::Took(took) => match &took.taker.chosen {
            Some(chosen) => store_swapped(&chosen.base),
            None => None,
        },
        _ => None,
    }
}

// Whether a port of this number is among these.
fn has_port(ports: &[PortId], port: u32) -> bool
    ensures { result ≡ list_any (λ p. p.0 == port) ports.now }
{
    for one in ports {
        if one.0 == port {
            return true;
        }
    }
    false
}

// Whether the channel has the port.
#[tactic(auto, using(crate::proofs::FeedLemmas::any_port))]
fn is_port_of(hub: &Hub, channel: u32, port: u32) -> bool
    ensures { result ≡ spec.is_port_of hub.now.course.world channel port }
{
    match hub.book().ports(McastId(channel)) {
        Some(ports) => has_port(ports, port),
        None => false,
    }
}

// Whether what is fed to the one is taken from the other.
fn reaches(hub: &Hub, fed: Store, taken: Store) -> bool
    ensures { result ≡ spec.reaches hub.now.course.world fed taken }
{
    match (fed, taken) {
        (Store::IVar(n), Store::IVar(m)) => n == m,
        (Store::MVar(n), Store::MVar(m)) => n == m,
        (Store::Mailbox(n), Store::Mailbox(m)) => n == m,
        (Store::Channel(n), Store::Port(m)) => is_port_of(hub, n, m),
        _ => false,
    }
}

// Whether an item fed this.
fn feeds(hub: &Hub, deed: &Deed, taken: Store) -> bool
    ensures { result ≡ spec.feeds hub.now.course.world taken deed.now }
{
    match store_fed(deed) {
        Some(fed) => reaches(hub, fed, taken),
        None => false,
    }
}

// The numbers of the items that fed this.
fn feeders(
    alloc: Global,
    hub: &Hub,
    shown: &[Happened],
    taken: Store,
) -> Result<Vec<usize>, AllocError>
    ensures { IfOk result (λ all. all.items ≡ spec.feeders hub.now.course.world taken shown.now) }
{
    let mut all = Vec::new(alloc);
    for happened in shown {
        if feeds(hub, &happened.deed, taken) {
            all.push(happened.number)?;
        }
    }
    Ok(all)
}

// How many items still stand there.
fn left_in(hub: &Hub, taken: Store) -> usize
    ensures { result ≡ spec.left_in hub.now.course.world taken }
{
    match taken {
        Store::Mailbox(mailbox) => hub.book().mailbox_len(MboxId(mailbox)).unwrap_or(0),
        Store::Port(port) => hub.book().port_len(PortId(port)).unwrap_or(0),
        _ => 0,
    }
}

// The last of these but for so many behind it.
fn last_but(all: &[usize], behind: usize) -> Option<usize>
    ensures { result ≡ spec.last_but behind all.now }
{
    if behind < all.len() {
        all.get(all.len() - 1 - behind).copied()
    } else {
        None
    }
}

// Which item took what another one had fed, if this one did; the hub stands behind it.
pub(crate) fn fed_by(
    alloc: Global,
    hub: &Hub,
    shown: &[Happened],
    happened: &Happened,
) -> Result<Option<Fed>, AllocError>
    ensures { IfOk result (λ fed. fed ≡ spec.fed_by hub.now.course.world shown.now happened.now) }
{
    let Some(taken) = store_taken(&happened.deed) else {
        return Ok(None);
    };
    let all = feeders(alloc, hub, shown, taken)?;
    match last_but(all.as_slice(), left_in(hub, taken)) {
        Some(from) => Ok(Some(Fed {
            from,
            to: happened.number,
        })),
        None => Ok(None),
    }
}
