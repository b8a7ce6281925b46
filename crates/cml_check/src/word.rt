//! The keywords of a script.

ghost use Rattle.std.specs.{Prelude.{◌≡◌, find}, Str.{bytes_eq}};
ghost use Rattle.cml_check.specs.Words as spec;

use crate::syntax::{Act, ActOnOne, ActOnTwo, Binary, Constant, Unary};
use cml_text::{Sexpr, Shape};

/// A keyword of scripts. None is the name of a function or a variable.
#[derive(Clone, Copy, PartialEq, Eq)]
pub enum Word {
    Fn,
    Do,
    Let,
    Set,
    If,
    Tested(Tested),
    Return,
    Call,
    Spawn,
    Choose,
    Wrap,
    Guard,
    WithNack,
    /// An M-variable: empty, or with a value in it.
    MVar,
    Constant(Constant),
    Unary(Unary),
    Binary(Binary),
    Act(Act),
    ActOnOne(ActOnOne),
    ActOnTwo(ActOnTwo),
}

/// A keyword of a statement that has a condition and statements.
#[derive(Clone, Copy, PartialEq, Eq)]
pub enum Tested {
    While,
}

impl Word {
    // How the keyword is spelled.
    fn spelling(self) -> &'static str
        ensures { result.now ≡ spec.word_spelling self }
    {
        match self {
            Word::Fn => "fn",
            Word::Do => "do",
            Word::Let => "let",
            Word::Set => "set",
            Word::If => "if",
            Word::Tested(tested) => tested_spelling(tested),
            Word::Return => "return",
            Word::Call => "call",
            Word::Spawn => "spawn",
            Word::Choose => "choose",
            Word::Wrap => "wrap",
            Word::Guard => "guard",
            Word::WithNack => "withnack",
            Word::MVar => "mvar",
            Word::Constant(constant) => constant_spelling(constant),
            Word::Unary(unary) => unary_spelling(unary),
            Word::Binary(binary) => binary_spelling(binary),
            Word::Act(act) => act_spelling(act),
            Word::ActOnOne(act) => one_spelling(act),
            Word::ActOnTwo(act) => two_spelling(act),
        }
    }
}

fn tested_spelling(tested: Tested) -> &'static str
    ensures { result.now ≡ spec.tested_spelling tested }
{
    match tested {
        Tested::While => "while",
    }
}

fn constant_spelling(constant: Constant) -> &'static str
    ensures { result.now ≡ spec.constant_spelling constant }
{
    match constant {
        Constant::True => "true",
        Constant::False => "false",
        Constant::Unit => "unit",
        Constant::Never => "never",
    }
}

fn unary_spelling(unary: Unary) -> &'static str
    ensures { result.now ≡ spec.unary_spelling unary }
{
    match unary {
        Unary::Not => "not",
        Unary::Fst => "fst",
        Unary::Snd => "snd",
        Unary::Always => "always",
        Unary::Recv => "recv",
        Unary::IGet => "iget",
        Unary::MTake => "mtake",
        Unary::MGet => "mget",
        Unary::MailRecv => "mailrecv",
        Unary::PortRecv => "portrecv",
        Unary::Join => "join",
        Unary::At => "at",
        Unary::After => "after",
    }
}

fn binary_spelling(binary: Binary) -> &'static str
    ensures { result.now ≡ spec.binary_spelling binary }
{
    match binary {
        Binary::Plus => "+",
        Binary::Minus => "-",
        Binary::Times => "*",
        Binary::Less => "<",
        Binary::Equal => "=",
        Binary::Pair => "pair",
        Binary::Send => "send",
        Binary::Swap => "swap",
        Binary::MSwap => "mswap",
    }
}

fn act_spelling(act: Act) -> &'static str
    ensures { result.now ≡ spec.act_spelling act }
{
    match act {
        Act::Chan => "chan",
        Act::SwapChan => "swapchan",
        Act::IVar => "ivar",
        Act::MVar => "mvar",
        Act::Mailbox => "mailbox",
        Act::Mchan => "mchan",
        Act::Exit => "exit",
        Act::Yield => "yield",
        Act::OwnThread => "self",
        Act::Now => "now",
    }
}

fn one_spelling(act: ActOnOne) -> &'static str
    ensures { result.now ≡ spec.one_spelling act }
{
    match act {
        ActOnOne::Sync => "sync",
        ActOnOne::MVar => "mvar",
        ActOnOne::Port => "port",
        ActOnOne::Copy => "copy",
        ActOnOne::Print => "print",
    }
}

fn two_spelling(act: ActOnTwo) -> &'static str
    ensures { result.now ≡ spec.two_spelling act }
{
    match act {
        ActOnTwo::IPut => "iput",
        ActOnTwo::MPut => "mput",
        ActOnTwo::Mail => "mail",
        ActOnTwo::Multicast => "multicast",
    }
}

// The keywords that start with an `a`.
const STARTING_WITH_A: [Word; 3] = [
    Word::Unary(Unary::Always),
    Word::Unary(Unary::At),
    Word::Unary(Unary::After),
];

// The keywords that start with a `c`.
const STARTING_WITH_C: [Word; 4] = [
    Word::Call,
    Word::Choose,
    Word::Act(Act::Chan),
    Word::ActOnOne(ActOnOne::Copy),
];

// The keywords that start with an `f`.
const STARTING_WITH_F: [Word; 3] = [
    Word::Fn,
    Word::Constant(Constant::False),
    Word::Unary(Unary::Fst),
];

// The keywords that start with an `i`.
const STARTING_WITH_I: [Word; 4] = [
    Word::If,
    Word::Unary(Unary::IGet),
    Word::Act(Act::IVar),
    Word::ActOnTwo(ActOnTwo::IPut),
];

// The keywords that start with an `m`.
const STARTING_WITH_M: [Word; 10] = [
    Word::MVar,
    Word::Unary(Unary::MTake),
    Word::Unary(Unary::MGet),
    Word::Unary(Unary::MailRecv),
    Word::Binary(Binary::MSwap),
    Word::Act(Act::Mailbox),
    Word::Act(Act::Mchan),
    Word::ActOnTwo(ActOnTwo::MPut),
    Word::ActOnTwo(ActOnTwo::Mail),
    Word::ActOnTwo(ActOnTwo::Multicast),
];

// The keywords that start with an `n`.
const STARTING_WITH_N: [Word; 3] = [
    Word::Constant(Constant::Never),
    Word::Unary(Unary::Not),
    Word::Act(Act::Now),
];

// The keywords that start with a `p`.
const STARTING_WITH_P: [Word; 4] = [
    Word::Unary(Unary::PortRecv),
    Word::Binary(Binary::Pair),
    Word::ActOnOne(ActOnOne::Port),
    Word::ActOnOne(ActOnOne::Print),
];

// The keywords that start with an `s`.
const STARTING_WITH_S: [Word; 8] = [
    Word::Set,
    Word::Spawn,
    Word::Unary(Unary::Snd),
    Word::Binary(Binary::Send),
    Word::Binary(Binary::Swap),
    Word::Act(Act::SwapChan),
    Word::Act(Act::OwnThread),
    Word::ActOnOne(ActOnOne::Sync),
];

// The keywords that start with a `w`.
const STARTING_WITH_W: [Word; 3] = [Word::Tested(Tested::While), Word::Wrap, Word::WithNack];

/// The keyword of this spelling, if there is one.
pub fn word_of(name: &str) -> Option<Word>
    ensures { result ≡ spec.word_of name.now }
{
    match name.as_bytes().first().copied() {
        Some(b'*') => among(name, &[Word::Binary(Binary::Times)]),
        Some(b'+') => among(name, &[Word::Binary(Binary::Plus)]),
        Some(b'-') => among(name, &[Word::Binary(Binary::Minus)]),
        Some(b'<') => among(name, &[Word::Binary(Binary::Less)]),
        Some(b'=') => among(name, &[Word::Binary(Binary::Equal)]),
        Some(b'a') => among(name, &STARTING_WITH_A),
        Some(b'c') => among(name, &STARTING_WITH_C),
        Some(b'd') => among(name, &[Word::Do]),
        Some(b'e') => among(name, &[Word::Act(Act::Exit)]),
        Some(b'f') => among(name, &STARTING_WITH_F),
        Some(b'g') => among(name, &[Word::Guard]),
        Some(b'i') => among(name, &STARTING_WITH_I),
        Some(b'j') => among(name, &[Word::Unary(Unary::Join)]),
        Some(b'l') => among(name, &[Word::Let]),
        Some(b'm') => among(name, &STARTING_WITH_M),
        Some(b'n') => among(name, &STARTING_WITH_N),
        Some(b'p') => among(name, &STARTING_WITH_P),
        Some(b'r') => among(name, &[Word::Return, Word::Unary(Unary::Recv)]),
        Some(b's') => among(name, &STARTING_WITH_S),
        Some(b't') => among(name, &[Word::Constant(Constant::True)]),
        Some(b'u') => among(name, &[Word::Constant(Constant::Unit)]),
        Some(b'w') => among(name, &STARTING_WITH_W),
        Some(b'y') => among(name, &[Word::Act(Act::Yield)]),
        _ => None,
    }
}

// The first of these keywords that has this spelling, if there is one.
fn among(name: &str, words: &[Word]) -> Option<Word>
    ensures { result ≡ find (λ word. bytes_eq (spec.word_spelling word) name.now) words.now }
{
    words.iter().copied().find(|word| word.spelling() == name)
}

/// The keyword that the form is, if it is one.
pub fn word_from(form: &Sexpr) -> Option<Word>
    ensures { result ≡ spec.word_from form.now }
{
    match form.shape() {
        Shape::Name(name) => word_of(name.as_str()),
        _ => None,
    }
}
