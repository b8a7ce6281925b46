//! What the operations and effects of scripts take, in words: tables.

use cml_check::{ActOnOne, ActOnTwo, Binary, Unary};
use cml_step::Fault;

/// What an operation on one value takes.
pub(crate) fn unary_wanted(operator: Unary) -> &'static str {
    match operator {
        Unary::Not => "not takes a truth value",
        Unary::Fst => "fst takes a pair",
        Unary::Snd => "snd takes a pair",
        Unary::Always => "always takes a value",
        Unary::Recv => "recv takes a channel",
        Unary::IGet => "iget takes an I-variable",
        Unary::MTake => "mtake takes an M-variable",
        Unary::MGet => "mget takes an M-variable",
        Unary::MailRecv => "mailrecv takes a mailbox",
        Unary::PortRecv => "portrecv takes a port",
        Unary::Join => "join takes a thread",
        Unary::At => "at takes a tick from 0",
        Unary::After => "after takes a tick count from 0",
    }
}

/// What an operation on two values takes.
pub(crate) fn binary_wanted(operator: Binary) -> &'static str {
    match operator {
        Binary::Plus => "+ takes numbers",
        Binary::Minus => "- takes numbers",
        Binary::Times => "* takes numbers",
        Binary::Less => "< takes numbers",
        Binary::Equal => "= takes values",
        Binary::Pair => "pair takes values",
        Binary::Send => "send takes a channel and a value",
        Binary::Swap => "swap takes a swap channel and a value",
        Binary::MSwap => "mswap takes an M-variable and a value",
    }
}

/// What an effect on one value takes.
pub(crate) fn one_wanted(act: ActOnOne) -> &'static str {
    match act {
        ActOnOne::Sync => "sync takes an event",
        ActOnOne::MVar => "mvar takes a value",
        ActOnOne::Port => "port takes a multicast channel",
        ActOnOne::Copy => "copy takes a port",
        ActOnOne::Print => "print takes a value",
    }
}

/// What an effect on two values takes.
pub(crate) fn two_wanted(act: ActOnTwo) -> &'static str {
    match act {
        ActOnTwo::IPut => "iput takes an I-variable and a value",
        ActOnTwo::MPut => "mput takes an M-variable and a value",
        ActOnTwo::Mail => "mail takes a mailbox and a value",
        ActOnTwo::Multicast => "multicast takes a multicast channel and a value",
    }
}

/// How an operation is written between two values.
pub(crate) fn binary_sign(operator: Binary) -> &'static str {
    match operator {
        Binary::Plus => " + ",
        Binary::Minus => " - ",
        Binary::Times => " * ",
        Binary::Less => " < ",
        Binary::Equal => " = ",
        _ => " and ",
    }
}

/// What an operation on two values makes, where that can nest.
pub(crate) fn binary_made(operator: Binary) -> &'static str {
    match operator {
        Binary::Pair => "the pair",
        _ => "the event",
    }
}

/// Why a step is at fault, where it is not told what it was given.
pub(crate) fn fault_words(why: Fault) -> &'static str {
    match why {
        Fault::Kind => "a value is not of the kind that is wanted",
        Fault::Overflow => "a sum, difference or product does not fit into 64 bits",
        Fault::Range => "a number of ticks is negative",
        Fault::Deep => "a value or an event nests deeper than 64, or has more than 65536 parts",
        Fault::Stack => "calls nest too deep: a stack has at most 1024 entries",
        Fault::Put => "a variable that is full can't be put",
        Fault::Leaves => "an event has more than 256 base events",
        Fault::Far => "a tick is too far away",
        Fault::Full => "there is no room for more",
    }
}
