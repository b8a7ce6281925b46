//! What is known of a refused command and of a bad line: the facts of which an explained trace tells.

use crate::keyword::Keyword;
use cml_text::FaultKind;

/// A kind of what a trace names by a number.
#[derive(Clone, Copy, PartialEq, Eq)]
pub enum Kind {
    Thread,
    Channel,
    SwapChannel,
    IVar,
    MVar,
    Mailbox,
    Multicast,
    Port,
    Nack,
}

/// One thing of a kind, by its number.
#[derive(Clone, Copy, PartialEq, Eq)]
pub struct Thing {
    pub kind: Kind,
    pub number: u32,
}

/// A leaf of a thread.
#[derive(Clone, Copy, PartialEq, Eq)]
pub struct Leaf {
    pub thread: u32,
    pub leaf: u32,
}

/// What a thread can do only while it runs.
#[derive(Clone, Copy, PartialEq, Eq)]
pub enum Act {
    MakeNack,
    Wait,
    End,
}

/// Why a nack can't be that of a scope on which a thread waits.
#[derive(Clone, Copy, PartialEq, Eq)]
pub enum Stale {
    /// This thread made it.
    OfThread(u32),
    /// Its branch is waited for already.
    Live,
    Fired,
    /// Something in its branch was taken.
    Held,
}

/// A nack that can't be that of a scope.
#[derive(Clone, Copy, PartialEq, Eq)]
pub struct StaleNack {
    pub nack: u32,
    pub state: Stale,
}

/// Why a command was refused.
#[derive(Clone, Copy, PartialEq, Eq)]
pub enum Why {
    /// What is named does not exist.
    Absent(Thing),
    /// There are as many of this kind as there can be.
    NoMore(Kind),
    /// The variable is full.
    Filled(Thing),
    /// The mailbox, or a port of the multicast channel, has as many items as it can hold.
    Crowded(Thing),
    /// The value is too deep or too large.
    DeepValue,
    /// The group is too deep or too large.
    DeepGroup,
    /// The group has too many leaves.
    ManyLeaves,
    /// The time would be too late.
    FarTick,
    /// The group waits for a tick that is too late.
    FarTickOfGroup,
    /// The thread is pending, so it can't do this.
    Pending(u32, Act),
    /// The thread has ended, so it can't do this.
    Ended(u32, Act),
    /// The group names what does not exist.
    AbsentOfGroup,
    /// A scope of the group has a nack that can't be its own.
    NotOfScope(StaleNack),
    /// Two scopes of the group have one nack.
    SharedNack,
    /// The thread runs, so none of its leaves can be taken.
    PartyRuns(u32),
    /// The thread has ended, so none of its leaves can be taken.
    PartyEnded(u32),
    /// The leaf can't be taken alone.
    NotAlone(Leaf),
    /// The two leaves can't be taken together.
    NotTogether(Leaf, Leaf),
    /// The time is later than the tick to which it was to go: the time, and that tick.
    Back(u64, u64),
}

/// Why a line is no command.
#[derive(Clone, Copy, PartialEq, Eq)]
pub enum Bad {
    /// Its text has this fault.
    Text(FaultKind),
    /// It begins with this keyword. That of a command was not given what it takes.
    Begins(Keyword),
    /// It begins with no keyword.
    NoKeyword,
}

/// What is told of a line.
#[derive(Clone, Copy, PartialEq, Eq)]
pub enum Cause {
    /// Its command was refused.
    Refused(Why),
    /// It is no command.
    Bad(Bad),
}

/// A line of which something is told. The first line of a trace has the number 1.
#[derive(Clone, Copy, PartialEq, Eq)]
pub struct Told {
    pub line: u64,
    pub cause: Cause,
}
