//! What a keyword takes, in words.

use cml_check::{ActOnOne, ActOnTwo, Binary, Unary, Word};

/// What a keyword takes.
pub fn takes(word: Word) -> &'static str {
    match word {
        Word::Fn => "a name, parameters in parentheses, and statements",
        Word::Do => "statements",
        Word::Let => "a name and a value",
        Word::Set => "a variable and a value",
        Word::If => "a condition and two (do ..) blocks",
        Word::Tested(_) => "a condition and statements",
        Word::Return => "a value",
        Word::Call | Word::Spawn | Word::Guard | Word::WithNack => {
            "a function and the values that it is given"
        }
        Word::Choose => "events",
        Word::Wrap => "an event, a function and the values that it is given",
        Word::MVar => "a value or nothing",
        Word::Constant(_) | Word::Act(_) => "nothing",
        Word::Unary(unary) => taken_by_one(unary),
        Word::Binary(binary) => taken_by_two(binary),
        Word::ActOnOne(act) => acted_on(act),
        Word::ActOnTwo(act) => both_acted_on(act),
    }
}

fn taken_by_one(unary: Unary) -> &'static str {
    match unary {
        Unary::Not => "a truth value",
        Unary::Fst | Unary::Snd => "a pair",
        Unary::Always => "a value",
        Unary::Recv => "a channel",
        Unary::IGet => "an I-variable",
        Unary::MTake | Unary::MGet => "an M-variable",
        Unary::MailRecv => "a mailbox",
        Unary::PortRecv => "a port",
        Unary::Join => "a thread",
        Unary::At => "a tick",
        Unary::After => "a number of ticks",
    }
}

fn taken_by_two(binary: Binary) -> &'static str {
    match binary {
        Binary::Plus | Binary::Minus | Binary::Times | Binary::Less => "two numbers",
        Binary::Equal | Binary::Pair => "two values",
        Binary::Send => "a channel and a value",
        Binary::Swap => "a swap channel and a value",
        Binary::MSwap => "an M-variable and a value",
    }
}

fn acted_on(act: ActOnOne) -> &'static str {
    match act {
        ActOnOne::Sync => "an event",
        ActOnOne::MVar | ActOnOne::Print => "a value",
        ActOnOne::Port => "a multicast channel",
        ActOnOne::Copy => "a port",
    }
}

fn both_acted_on(act: ActOnTwo) -> &'static str {
    match act {
        ActOnTwo::IPut => "an I-variable and a value",
        ActOnTwo::MPut => "an M-variable and a value",
        ActOnTwo::Mail => "a mailbox and a value",
        ActOnTwo::Multicast => "a multicast channel and a value",
    }
}

/// What the parts are called that a keyword needs, where one is missing.
pub fn needs(word: Word) -> &'static [&'static str] {
    match word {
        Word::Fn => &["the name", "the list of parameters"],
        Word::Let => &["the name", "the value"],
        Word::Set => &["the variable", "the value"],
        Word::If => &["the condition", "the first", "the second"],
        Word::Tested(_) => &["the condition"],
        Word::Call | Word::Spawn | Word::Guard | Word::WithNack => &["the function"],
        Word::Wrap => &["the event", "the function"],
        Word::Return | Word::Unary(_) | Word::ActOnOne(_) => &["it"],
        Word::Binary(binary) => needed_by_two(binary),
        Word::ActOnTwo(act) => needed_to_act(act),
        Word::Do | Word::Choose | Word::MVar | Word::Constant(_) | Word::Act(_) => &[],
    }
}

fn needed_by_two(binary: Binary) -> &'static [&'static str] {
    match binary {
        Binary::Send => &["the channel", "the value"],
        Binary::Swap => &["the swap channel", "the value"],
        Binary::MSwap => &["the M-variable", "the value"],
        _ => &["the first", "the second"],
    }
}

fn needed_to_act(act: ActOnTwo) -> &'static [&'static str] {
    match act {
        ActOnTwo::IPut => &["the I-variable", "the value"],
        ActOnTwo::MPut => &["the M-variable", "the value"],
        ActOnTwo::Mail => &["the mailbox", "the value"],
        ActOnTwo::Multicast => &["the multicast channel", "the value"],
    }
}
