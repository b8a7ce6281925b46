//! What a thread asks of the world.

use crate::fault::Fault;
use cml_value::{FnRef, Group, IVarId, MVarId, MboxId, McastId, PortId, Value};

/// What a thread asks of the world at the end of a slice.
#[derive(Drop)]
pub enum Ask {
    /// Nothing: the thread goes on.
    Nothing,
    /// That others go first.
    Yield,
    /// A thread that begins with a call of this function.
    Spawn(FnRef),
    /// A channel.
    MakeChan,
    /// A swap channel.
    MakeSwap,
    /// An I-variable.
    MakeIVar,
    /// An M-variable, and what it holds from the beginning.
    MakeMVar(Option<Value>),
    /// A mailbox.
    MakeMailbox,
    /// A multicast channel.
    MakeMchan,
    /// A port of the multicast channel.
    MakePort(McastId),
    /// A port with the same unread messages.
    CopyPort(PortId),
    /// That the I-variable is written.
    IPut(IVarId, Value),
    /// That the M-variable is filled.
    MPut(MVarId, Value),
    /// That the mailbox gets the item.
    Mail(MboxId, Value),
    /// That every port of the multicast channel gets the message.
    Multicast(McastId, Value),
    /// That the value is printed.
    Print(Value),
    /// The tick.
    Now,
    /// A fresh nack.
    Nack,
    /// To synchronize on the group.
    Sync(Group),
    /// Nothing any more: the thread has ended.
    End,
    /// Nothing any more: the thread is at fault.
    Fault(Fault),
}
