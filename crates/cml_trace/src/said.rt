//! What is told of the lines of a trace, in words.

use crate::keyword::Keyword;
use crate::why::{Act, Bad, Cause, Kind, Leaf, Stale, StaleNack, Thing, Told, Why};
use cml_text::FaultKind;
use std::alloc::AllocError;

/// Appends a line for each line of which something is told.
pub fn write_told(text: &mut String, told: &[Told]) -> Result<(), AllocError> {
    for one in told {
        write!(text, "line {}: ", one.line)?;
        match one.cause {
            Cause::Refused(why) => push_why(text, why)?,
            Cause::Bad(bad) => push_bad(text, bad)?,
        }
        text.push_str("\n")?;
    }
    Ok(())
}

fn push_bad(text: &mut String, bad: Bad) -> Result<(), AllocError> {
    match bad {
        Bad::Text(kind) => text.push_str(text_words(kind)),
        Bad::Begins(keyword) => {
            text.push_str(keyword.spelling())?;
            text.push_str(usage(keyword))
        }
        Bad::NoKeyword => text.push_str("the line begins with no command"),
    }
}

fn text_words(kind: FaultKind) -> &'static str {
    match kind {
        FaultKind::Unclosed => "a list or a text literal is not closed",
        FaultKind::Stray => "a `)` closes no list",
        FaultKind::Character => "a word is neither a number nor a name",
        FaultKind::Escape => "after a backslash stands none of `\"`, `\\` and `n`",
        FaultKind::Number => "a number is out of range",
        FaultKind::Deep => "a list stands inside 256 others",
        FaultKind::Long => "the line or a text literal in it is too long",
        FaultKind::Utf8 => "the line is not UTF-8",
    }
}

// What the command of this keyword takes, or that no command is called so.
fn usage(keyword: Keyword) -> &'static str {
    match keyword {
        Keyword::Spawn
        | Keyword::Chan
        | Keyword::SwapChan
        | Keyword::IVar
        | Keyword::Mailbox
        | Keyword::Mchan
        | Keyword::Rows => " takes nothing",
        Keyword::MVar => " takes a value, or nothing",
        Keyword::Port => " takes the number of a multicast channel",
        Keyword::Copy => " takes the number of a port",
        Keyword::IPut => " takes the number of an I-variable and a value",
        Keyword::MPut => " takes the number of an M-variable and a value",
        Keyword::Mail => " takes the number of a mailbox and a value",
        Keyword::Multicast => " takes the number of a multicast channel and a value",
        Keyword::Nack | Keyword::End => " takes the number of a thread",
        Keyword::Sync => " takes the number of a thread and a group",
        Keyword::Commit => " takes the numbers of a thread and a leaf, or of two of each",
        Keyword::Clock => " takes a tick",
        _ => " is no command",
    }
}

fn push_why(text: &mut String, why: Why) -> Result<(), AllocError> {
    match why {
        Why::Absent(thing) => push_thing(text, "there is no ", thing, ""),
        Why::NoMore(kind) => text.push_str(no_more(kind)),
        Why::Filled(thing) => push_thing(
            text,
            "",
            thing,
            " is full, so nothing can be put into it",
        ),
        Why::Crowded(thing) => push_crowded(text, thing),
        Why::DeepValue => {
            text.push_str("the value is deeper than 64, or has more than 65536 nodes")
        }
        Why::DeepGroup => {
            text.push_str("the group is deeper than 64, or has more than 65536 nodes")
        }
        Why::ManyLeaves => text.push_str("the group has more than 256 events"),
        Why::FarTick => text.push_str("the tick lies above 4611686018427387904"),
        Why::FarTickOfGroup => {
            text.push_str("a tick of the group lies above 4611686018427387904")
        }
        Why::AbsentOfGroup => text.push_str("the group names what does not exist"),
        Why::NotOfScope(nack) => push_stale(text, nack),
        Why::SharedNack => text.push_str("two scopes of the group have one nack"),
        _ => push_why_of_thread(text, why),
    }
}

// Of a thread, of a row that can't be taken, and of the time.
fn push_why_of_thread(text: &mut String, why: Why) -> Result<(), AllocError> {
    match why {
        Why::Pending(thread, act) => {
            push_thread(text, thread, " is pending, so it can't ", pending_act(act))
        }
        Why::Ended(thread, act) => {
            push_thread(text, thread, " has ended, so it can't ", ended_act(act))
        }
        Why::PartyRuns(thread) => push_thread(text, thread, " runs", NONE_TAKEN),
        Why::PartyEnded(thread) => push_thread(text, thread, " has ended", NONE_TAKEN),
        Why::NotAlone(leaf) => push_leaf(text, leaf, " can't be taken alone now"),
        Why::NotTogether(first, second) => {
            push_leaf(text, first, " and ")?;
            push_leaf(text, second, " can't be taken together now")
        }
        Why::Back(now, to) => write!(text, "the time is {now} already, so it can't become {to}"),
        _ => Ok(()),
    }
}

// That nothing of a thread can be taken.
const NONE_TAKEN: &str = ", so none of its events can be taken";

fn push_thread(text: &mut String, thread: u32, is: &str, so: &str) -> Result<(), AllocError> {
    write!(text, "thread {thread}{is}{so}")
}

fn name(kind: Kind) -> &'static str {
    match kind {
        Kind::Thread => "thread",
        Kind::Channel => "channel",
        Kind::SwapChannel => "swap channel",
        Kind::IVar => "I-variable",
        Kind::MVar => "M-variable",
        Kind::Mailbox => "mailbox",
        Kind::Multicast => "multicast channel",
        Kind::Port => "port",
        Kind::Nack => "nack",
    }
}

fn no_more(kind: Kind) -> &'static str {
    match kind {
        Kind::Thread => "there are 4096 threads, and there can't be more",
        Kind::Channel => "there are 65536 channels, and there can't be more",
        Kind::SwapChannel => "there are 65536 swap channels, and there can't be more",
        Kind::IVar => "there are 65536 I-variables, and there can't be more",
        Kind::MVar => "there are 65536 M-variables, and there can't be more",
        Kind::Mailbox => "there are 65536 mailboxes, and there can't be more",
        Kind::Multicast => "there are 65536 multicast channels, and there can't be more",
        Kind::Port => "there are 65536 ports, and there can't be more",
        Kind::Nack => "there are 65536 nacks, and there can't be more",
    }
}

// The thing, between these words.
fn push_thing(
    text: &mut String,
    before: &str,
    thing: Thing,
    after: &str,
) -> Result<(), AllocError> {
    let name = name(thing.kind);
    write!(text, "{before}{name} {}{after}", thing.number)
}

fn push_crowded(text: &mut String, thing: Thing) -> Result<(), AllocError> {
    match thing.kind {
        Kind::Mailbox => push_thing(text, "", thing, " has as many items as it can hold"),
        _ => push_thing(
            text,
            "a port of ",
            thing,
            " has as many messages as it can hold",
        ),
    }
}

fn pending_act(act: Act) -> &'static str {
    match act {
        Act::MakeNack => "make a nack",
        Act::Wait => "wait again",
        Act::End => "end",
    }
}

fn ended_act(act: Act) -> &'static str {
    match act {
        Act::MakeNack => "make a nack",
        Act::Wait => "wait",
        Act::End => "end again",
    }
}

fn push_stale(text: &mut String, stale: StaleNack) -> Result<(), AllocError> {
    match stale.state {
        Stale::OfThread(thread) => write!(text, "nack {} belongs to thread {thread}", stale.nack),
        Stale::Live => push_nack(text, stale.nack, " has its branch already"),
        Stale::Fired => push_nack(text, stale.nack, " has fired already"),
        Stale::Held => push_nack(
            text,
            stale.nack,
            " had its branch, of which an event was taken",
        ),
    }
}

fn push_nack(text: &mut String, nack: u32, after: &str) -> Result<(), AllocError> {
    write!(text, "nack {nack}{after}")
}

fn push_leaf(text: &mut String, leaf: Leaf, after: &str) -> Result<(), AllocError> {
    write!(text, "event {} of thread {}{after}", leaf.leaf, leaf.thread)
}
