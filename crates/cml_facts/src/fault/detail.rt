//! Details of how a run ended.

ghost use Rattle.std.specs.Prelude.{◌≡◌};
ghost use Rattle.cml_step.specs.AskViews.{plain_ask};
ghost use Rattle.cml_facts.specs.Details as spec;

use cml_hub::End;
use cml_step::{Ask, Fault};
use cml_value::{Base, BaseKind};

/// A detail of how a run ended. Two runs that have the same details, in the same order, ended alike.
#[derive(Clone, Copy, PartialEq, Eq, Hash)]
pub enum Detail {
    /// Nothing was left to do.
    Quiet,
    /// The budget was used.
    Budget,
    /// Something was left to do.
    Partial,
    /// A thread waits. What comes next is said of it.
    Waits,
    /// A thread runs. What comes next is said of it.
    Runs,
    /// A thread ended at a fault. What comes next is said of where it stood then.
    Fell,
    /// It began with the function of this number.
    Began(u32),
    /// Its top call is one of the function of this number.
    In(u32),
    /// That call goes on at this place, which is the number of an instruction of its function.
    At(usize),
    /// It waits for what is always ready.
    Always,
    /// It waits to send on a channel.
    Send,
    /// It waits to receive on a channel.
    Recv,
    /// It waits to swap on a swap channel.
    Swap,
    /// It waits for an I-variable.
    IGet,
    /// It waits to take from an M-variable.
    MTake,
    /// It waits to read an M-variable.
    MGet,
    /// It waits to exchange what an M-variable holds.
    MSwap,
    /// It waits for an item of a mailbox.
    MailRecv,
    /// It waits for a message at a port.
    PortRecv,
    /// It waits for the end of a thread.
    Join,
    /// It waits for a tick.
    Tick,
    /// It waits for a nack.
    Nack,
    /// It had a value of the wrong kind.
    Kind,
    /// It came to a number outside those of 64 bits.
    Overflow,
    /// It had a negative number of ticks.
    Range,
    /// It made a value or an event that nests too deep.
    Deep,
    /// Its calls nest too deep.
    Stack,
    /// It put a variable that is full.
    Put,
    /// It asked to wait for too many base events, or for a tick that is too far away.
    Group,
    /// It asked for what there is no room for.
    Full,
    /// So many threads ended at a fault.
    Faults(usize),
    /// It breaks the property of this number. (This crate knows no properties: whoever holds the run against them says so.)
    Breaks(usize),
}

/// How the run ended.
pub(crate) fn end_detail(end: End) -> Detail
    ensures { result ≡ spec.end_detail end }
{
    match end {
        End::Quiet => Detail::Quiet,
        End::Budget => Detail::Budget,
        End::Partial => Detail::Partial,
    }
}

/// What kind of event a base event is.
pub(crate) fn kind_detail(base: &Base) -> Detail
    ensures { result ≡ spec.kind_detail base.now }
{
    match base.kind() {
        BaseKind::Always(_) => Detail::Always,
        BaseKind::Send(_, _) => Detail::Send,
        BaseKind::Recv(_) => Detail::Recv,
        BaseKind::Swap(_, _) => Detail::Swap,
        BaseKind::IGet(_) => Detail::IGet,
        BaseKind::MTake(_) => Detail::MTake,
        BaseKind::MGet(_) => Detail::MGet,
        BaseKind::MSwap(_, _) => Detail::MSwap,
        BaseKind::MailRecv(_) => Detail::MailRecv,
        BaseKind::PortRecv(_) => Detail::PortRecv,
        BaseKind::Join(_) => Detail::Join,
        BaseKind::At(_) => Detail::Tick,
        BaseKind::After(_) => Detail::Tick,
        BaseKind::Nack(_) => Detail::Nack,
    }
}

// What was wrong with a step.
fn fault_detail(why: Fault) -> Detail
    ensures { result ≡ spec.fault_detail why }
{
    match why {
        Fault::Kind => Detail::Kind,
        Fault::Overflow => Detail::Overflow,
        Fault::Range => Detail::Range,
        Fault::Deep => Detail::Deep,
        Fault::Stack => Detail::Stack,
        Fault::Put => Detail::Put,
        Fault::Leaves => Detail::Group,
        Fault::Far => Detail::Group,
        Fault::Full => Detail::Full,
    }
}

/// What was wrong with what a thread asked for at a fault.
pub(crate) fn ask_detail(ask: &Ask) -> Detail
    ensures { result ≡ spec.ask_detail (plain_ask ask.now) }
{
    match ask {
        Ask::Fault(why) => fault_detail(*why),
        Ask::IPut(_, _) => Detail::Put,
        Ask::MPut(_, _) => Detail::Put,
        Ask::Sync(_) => Detail::Group,
        Ask::Nothing => Detail::Full,
        Ask::Yield => Detail::Full,
        Ask::Spawn(_) => Detail::Full,
        Ask::MakeChan => Detail::Full,
        Ask::MakeSwap => Detail::Full,
        Ask::MakeIVar => Detail::Full,
        Ask::MakeMVar(_) => Detail::Full,
        Ask::MakeMailbox => Detail::Full,
        Ask::MakeMchan => Detail::Full,
        Ask::MakePort(_) => Detail::Full,
        Ask::CopyPort(_) => Detail::Full,
        Ask::Mail(_, _) => Detail::Full,
        Ask::Multicast(_, _) => Detail::Full,
        Ask::Print(_) => Detail::Full,
        Ask::Now => Detail::Full,
        Ask::Nack => Detail::Full,
        Ask::End => Detail::Full,
    }
}
