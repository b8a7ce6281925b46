//! The keywords of a trace.

ghost use Rattle.std.specs.{Prelude.{◌≡◌, find, option_map}, Str.{bytes_eq}};
ghost use Rattle.cml_trace.specs.Keywords as spec;

use cml_text::{Sexpr, Shape};

/// A keyword: a name that means something in a trace.
#[derive(Clone, Copy, PartialEq, Eq)]
pub enum Keyword {
    Spawn,
    Chan,
    SwapChan,
    IVar,
    MVar,
    Mailbox,
    Mchan,
    Port,
    Copy,
    IPut,
    MPut,
    Mail,
    Multicast,
    Nack,
    Sync,
    Rows,
    Commit,
    End,
    Clock,
    Never,
    Choose,
    Wrap,
    Scope,
    Always,
    Send,
    Recv,
    Swap,
    IGet,
    MTake,
    MGet,
    MSwap,
    MailRecv,
    PortRecv,
    Join,
    At,
    After,
    True,
    False,
    Pair,
    Thread,
}

impl Keyword {
    /// How the keyword is spelled.
    pub fn spelling(self) -> &'static str
        ensures { result.now ≡ spec.spelling self }
    {
        match self {
            Keyword::Spawn => "spawn",
            Keyword::Chan => "chan",
            Keyword::SwapChan => "swapchan",
            Keyword::IVar => "ivar",
            Keyword::MVar => "mvar",
            Keyword::Mailbox => "mailbox",
            Keyword::Mchan => "mchan",
            Keyword::Port => "port",
            Keyword::Copy => "copy",
            Keyword::IPut => "iput",
            Keyword::MPut => "mput",
            Keyword::Mail => "mail",
            Keyword::Multicast => "multicast",
            Keyword::Nack => "nack",
            Keyword::Sync => "sync",
            Keyword::Rows => "rows",
            Keyword::Commit => "commit",
            Keyword::End => "end",
            Keyword::Clock => "clock",
            Keyword::Never => "never",
            Keyword::Choose => "choose",
            Keyword::Wrap => "wrap",
            Keyword::Scope => "scope",
            Keyword::Always => "always",
            Keyword::Send => "send",
            Keyword::Recv => "recv",
            Keyword::Swap => "swap",
            Keyword::IGet => "iget",
            Keyword::MTake => "mtake",
            Keyword::MGet => "mget",
            Keyword::MSwap => "mswap",
            Keyword::MailRecv => "mailrecv",
            Keyword::PortRecv => "portrecv",
            Keyword::Join => "join",
            Keyword::At => "at",
            Keyword::After => "after",
            Keyword::True => "true",
            Keyword::False => "false",
            Keyword::Pair => "pair",
            Keyword::Thread => "thread",
        }
    }
}

// The keywords that start with an `m`.
const STARTING_WITH_M: [Keyword; 10] = [
    Keyword::MVar,
    Keyword::Mailbox,
    Keyword::Mchan,
    Keyword::MPut,
    Keyword::Mail,
    Keyword::Multicast,
    Keyword::MTake,
    Keyword::MGet,
    Keyword::MSwap,
    Keyword::MailRecv,
];

/// The keyword of this spelling, if there is one.
pub fn keyword_of(name: &str) -> Option<Keyword>
    ensures { result ≡ spec.keyword_of name.now }
{
    match name.as_bytes().first().copied() {
        Some(b'a') => among(name, &[Keyword::Always, Keyword::At, Keyword::After]),
        Some(b'c') => among(
            name,
            &[
                Keyword::Chan,
                Keyword::Copy,
                Keyword::Commit,
                Keyword::Clock,
                Keyword::Choose,
            ],
        ),
        Some(b'e') => among(name, &[Keyword::End]),
        Some(b'f') => among(name, &[Keyword::False]),
        Some(b'i') => among(name, &[Keyword::IVar, Keyword::IPut, Keyword::IGet]),
        Some(b'j') => among(name, &[Keyword::Join]),
        Some(b'm') => among(name, &STARTING_WITH_M),
        Some(b'n') => among(name, &[Keyword::Nack, Keyword::Never]),
        Some(b'p') => among(name, &[Keyword::Port, Keyword::PortRecv, Keyword::Pair]),
        Some(b'r') => among(name, &[Keyword::Rows, Keyword::Recv]),
        Some(b's') => among(
            name,
            &[
                Keyword::Spawn,
                Keyword::SwapChan,
                Keyword::Sync,
                Keyword::Scope,
                Keyword::Send,
                Keyword::Swap,
            ],
        ),
        Some(b't') => among(name, &[Keyword::True, Keyword::Thread]),
        Some(b'w') => among(name, &[Keyword::Wrap]),
        _ => None,
    }
}

// The first of these keywords that has this spelling, if there is one.
fn among(name: &str, keywords: &[Keyword]) -> Option<Keyword>
    ensures { result ≡ find (λ keyword. bytes_eq (spec.spelling keyword) name.now) keywords.now }
{
    keywords
        .iter()
        .copied()
        .find(|keyword| keyword.spelling() == name)
}

/// The keyword that the form is, if it is one.
pub fn keyword_from(form: &Sexpr) -> Option<Keyword>
    ensures { result ≡ spec.keyword_from form.now }
{
    match form.shape() {
        Shape::Name(name) => keyword_of(name.as_str()),
        _ => None,
    }
}

/// The keyword at the head of a list of forms, and the forms after it.
pub fn head_of(forms: &[Sexpr]) -> Option<(Keyword, &[Sexpr])>
    ensures { option_map (λ head. (head.0, head.1.now)) result ≡ spec.head_of forms.now }
{
    match forms {
        [] => None,
        [first, behind @ ..] => match keyword_from(first) {
            Some(keyword) => Some((keyword, behind)),
            None => None,
        },
    }
}
