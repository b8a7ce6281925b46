//! The objects whose state decides whether a base event can be taken alone.

use cml_value::{IVarId, MVarId, MboxId, NackId, PortId, Tid};

/// An object whose state a base event looks at. It is lit where such a base can be taken alone.
#[derive(Clone, Copy, PartialEq, Eq, Hash)]
pub enum Light {
    /// An I-variable, lit while it is full.
    IVar(IVarId),
    /// An M-variable, lit while it is full.
    MVar(MVarId),
    /// A mailbox, lit while it has an item.
    Mbox(MboxId),
    /// A port, lit while it has an unread message.
    Port(PortId),
    /// A thread, lit once it has ended.
    Joined(Tid),
    /// A tick, lit from then on.
    Alarm(u64),
    /// A nack, lit once it has fired.
    Nack(NackId),
}
