//! The commands of a book, and the replies to them.

use crate::refusal::Refusal;
use cml_scan::Meet;
use cml_value::{
    ChanId, FnRef, Group, IVarId, MVarId, MboxId, McastId, NackId, PortId, SwapId, Tid, Value,
};
use std::fmt;
use std::marker::Model;
use thiserror::Error;

/// A party of a committed row, which goes on.
#[derive(Drop)]
pub struct Resume {
    /// The thread that goes on.
    pub tid: Tid,
    /// The value of its event.
    pub value: Value,
    /// The functions that the value then goes through, innermost first.
    pub wraps: Vec<FnRef>,
    /// The nacks that fired because their branches lack the chosen leaf, from the left, an outer one before those in it.
    pub fired: Vec<NackId>,
}

impl Model for Resume {
    ghost use Rattle.std.specs.Prelude.{map};
    ghost use Rattle.cml_book.specs.{Resumes.{PlainResume}, Codes.{resume_code}};

    ghost Value = { PlainResume };

    ghost coded = { resume_code };

    ghost view = { λ r. record { thread = r.tid.0; value = r.value; wraps = r.wraps.items; fired = map (λ k. k.0) r.fired.items } };
}

/// What the parties of a committed row get, the head first.
#[derive(Drop)]
pub struct Committed {
    /// The party that begins the row: of a pair the sender, or of two swaps the lower thread.
    pub head: Resume,
    /// The other party of a pair.
    pub partner: Option<Resume>,
}

/// A command.
#[derive(Drop)]
pub enum Command {
    /// Makes a thread, which runs.
    Spawn,
    /// Makes a channel.
    MakeChan,
    /// Makes a swap channel.
    MakeSwap,
    /// Makes an empty I-variable.
    MakeIVar,
    /// Makes an M-variable that holds this value, or an empty one.
    MakeMVar(Option<Value>),
    /// Makes an empty mailbox.
    MakeMailbox,
    /// Makes a multicast channel without ports.
    MakeMChan,
    /// Makes a port of the channel, which sees the messages from now on.
    MakePort(McastId),
    /// Makes a port with the same unread messages.
    CopyPort(PortId),
    /// Writes the value into the empty I-variable.
    IPut(IVarId, Value),
    /// Writes the value into the empty M-variable.
    MPut(MVarId, Value),
    /// Puts the value after the items of the mailbox.
    Mail(MboxId, Value),
    /// Puts the value after the unread messages of every port of the channel.
    Multicast(McastId, Value),
    /// Makes a fresh nack for the thread.
    Nack(Tid),
    /// The thread waits on the group.
    Sync(Tid, Group),
    /// Takes the row.
    Commit(Meet),
    /// The thread ends.
    End(Tid),
    /// The clock moves to this tick.
    Clock(u64),
}

/// The reply to a command.
#[derive(Drop)]
pub enum Reply {
    /// A thread was made.
    Thread(Tid),
    /// A channel was made.
    Chan(ChanId),
    /// A swap channel was made.
    Swap(SwapId),
    /// An I-variable was made.
    IVar(IVarId),
    /// An M-variable was made.
    MVar(MVarId),
    /// A mailbox was made.
    Mailbox(MboxId),
    /// A multicast channel was made.
    Mchan(McastId),
    /// A port was made.
    Port(PortId),
    /// A nack was made.
    Nack(NackId),
    /// It is done.
    Done,
    /// The row was taken.
    Committed(Committed),
    /// The command was refused, and changed nothing.
    Refused(Refusal),
}

/// A run that was stopped since memory ran out: the replies to the commands that were done, and the commands that were not.
#[derive(Drop, Error)]
#[error("out of memory")]
pub struct Stopped {
    /// The replies to the commands that were done, in order.
    pub replies: Vec<Reply>,
    /// The commands that were not done, in order. Memory ran out at the first of them.
    pub left: Vec<Command>,
}

// The replies and the commands themselves are not shown.
impl fmt::Debug for Stopped {
    fn fmt<W: fmt::Write>(&self, f: &mut fmt::Formatter<W>) -> fmt::Result {
        write!(f, "{self}")
    }
}
