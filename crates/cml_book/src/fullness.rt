//! What the objects of a register hold, and whether they are lit.

ghost use Rattle.std.specs.Prelude.{◌≡◌, length, option_map, slice_get};
ghost use Rattle.cml_scan.specs.{Light.{is_full, has_item}, Views.{nack_of}};
ghost use Rattle.cml_scan.specs.Light as spec;
ghost use Rattle.cml_book.specs.Views.{queues_of};

use cml_objects::{IVar, MVar, Mailbox, NackCell, Port, Register, Source};
use cml_scan::NackState;
use cml_value::{IVarId, MVarId, MboxId, NackId, PortId};

/// Whether there is such an I-variable, and it is full.
pub fn ivar_is_full(ivars: &Register<IVar>, id: IVarId) -> bool
    ensures { result ≡ is_full (slice_get ivars.now.objects id.0) }
{
    match ivars.get(id.0) {
        Some(ivar) => ivar.lit(),
        None => false,
    }
}

/// Whether there is such an M-variable, and it is full.
pub fn mvar_is_full(mvars: &Register<MVar>, id: MVarId) -> bool
    ensures { result ≡ is_full (slice_get mvars.now.objects id.0) }
{
    match mvars.get(id.0) {
        Some(mvar) => mvar.lit(),
        None => false,
    }
}

/// Whether there is such a mailbox, and it has an item.
pub fn mailbox_has_item(mailboxes: &Register<Mailbox>, id: MboxId) -> bool
    ensures { result ≡ has_item (slice_get (queues_of mailboxes.now.objects) id.0) }
{
    match mailboxes.get(id.0) {
        Some(mailbox) => mailbox.lit(),
        None => false,
    }
}

/// Whether there is such a port, and it has an unread message.
pub fn port_has_item(ports: &Register<Port>, id: PortId) -> bool
    ensures { result ≡ has_item (slice_get (queues_of ports.now.objects) id.0) }
{
    match ports.get(id.0) {
        Some(port) => port.lit(),
        None => false,
    }
}

/// Whether there is such a nack, and it has fired.
pub fn has_fired(nacks: &Register<NackCell>, id: NackId) -> bool
    ensures { result ≡ spec.has_fired (slice_get nacks.now.objects id.0) }
{
    match nacks.get(id.0) {
        Some(cell) => cell.is_fired(),
        None => false,
    }
}

/// How many items the mailbox has, if there is such a one.
pub fn mailbox_len(mailboxes: &Register<Mailbox>, id: MboxId) -> Option<usize>
    ensures { result ≡ option_map length (slice_get (queues_of mailboxes.now.objects) id.0) }
{
    match mailboxes.get(id.0) {
        Some(mailbox) => Some(mailbox.len()),
        None => None,
    }
}

/// How many unread messages the port has, if there is such a one.
pub fn port_len(ports: &Register<Port>, id: PortId) -> Option<usize>
    ensures { result ≡ option_map length (slice_get (queues_of ports.now.objects) id.0) }
{
    match ports.get(id.0) {
        Some(port) => Some(port.len()),
        None => None,
    }
}

// The state of a nack.
#[tactic(auto, using(crate::proofs::NackLemmas::fresh_told, crate::proofs::NackLemmas::live_told, crate::proofs::NackLemmas::fired_told, crate::proofs::NackLemmas::held_told))]
fn state_of(cell: &NackCell) -> NackState
    ensures { nack_of result ≡ cell.now }
{
    if let Some(owner) = cell.owner() {
        return NackState::Fresh(owner);
    }
    if cell.is_live() {
        return NackState::Live;
    }
    if cell.is_fired() {
        NackState::Fired
    } else {
        NackState::Held
    }
}

/// The state of the nack, if there is such a one.
pub fn nack_state(nacks: &Register<NackCell>, id: NackId) -> Option<NackState>
    ensures { option_map nack_of result ≡ slice_get nacks.now.objects id.0 }
{
    match nacks.get(id.0) {
        Some(cell) => Some(state_of(cell)),
        None => None,
    }
}
