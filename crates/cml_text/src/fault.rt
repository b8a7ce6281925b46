//! What is wrong with a text, and where.
ghost use Rattle.std.specs.Prelude.{◌≡◌};
ghost use Rattle.cml_text.specs.{Faults.{kind_number, kind_name}, declared.fault.TextFault.TheVariants.{Memory}};

use std::alloc::{AllocError, AllocFailed};
use std::fmt;
use thiserror::Error;

/// What is wrong at a place of a text.
#[derive(Clone, Copy, Debug, PartialEq, Eq)]
pub enum FaultKind {
    /// A text literal or a list that does not end.
    Unclosed,
    /// A closing parenthesis that closes nothing.
    Stray,
    /// A token that is neither a number nor a name.
    Character,
    /// A backslash in a text literal before a character that it cannot stand before.
    Escape,
    /// A number outside the range of an `i64`.
    Number,
    /// A list inside 256 others.
    Deep,
    /// A text, or a text literal after its escapes, that is longer than its limit.
    Long,
    /// Bytes that are not UTF-8.
    Utf8,
}

impl FaultKind {
    /// The number that fault lines give the kind, from 1.
    pub fn number(self) -> u8
        ensures { result ≡ kind_number self }
    {
        match self {
            FaultKind::Unclosed => 1,
            FaultKind::Stray => 2,
            FaultKind::Character => 3,
            FaultKind::Escape => 4,
            FaultKind::Number => 5,
            FaultKind::Deep => 6,
            FaultKind::Long => 7,
            FaultKind::Utf8 => 8,
        }
    }

    /// The name that fault lines give the kind.
    pub fn name(self) -> &'static str
        ensures { result.now ≡ kind_name self }
    {
        match self {
            FaultKind::Unclosed => "unclosed",
            FaultKind::Stray => "stray",
            FaultKind::Character => "character",
            FaultKind::Escape => "escape",
            FaultKind::Number => "number",
            FaultKind::Deep => "deep",
            FaultKind::Long => "long",
            FaultKind::Utf8 => "utf8",
        }
    }
}

/// Why no forms were read.
#[derive(Clone, Copy, Debug, PartialEq, Eq, Error)]
pub enum TextFault {
    /// The text has this fault at this byte, counted from 0.
    At { kind: FaultKind, at: usize },
    /// Memory ran out.
    Memory,
}

impl fmt::Display for TextFault {
    ghost use Rattle.std.specs.Prelude.{Some};
    ghost use Rattle.cml_text.specs.Faults.{fault_line};

    ghost output = { λ fault. Some (fault_line fault) };

    fn fmt<W: fmt::Write>(&self, f: &mut fmt::Formatter<W>) -> fmt::Result {
        match self {
            TextFault::At { kind, at } => {
                let number = kind.number();
                let name = kind.name();
                write!(f, "text {number} {name} at {at}")
            }
            TextFault::Memory => write!(f, "out of memory"),
        }
    }
}

impl From<AllocError> for TextFault {
    ghost from_gives = { λ _ e. e ≡ Memory };

    fn from(_error: AllocError) -> TextFault {
        TextFault::Memory
    }
}

impl<T: Drop> From<AllocFailed<T>> for TextFault {
    ghost from_gives = { λ _ e. e ≡ Memory };

    fn from(_error: AllocFailed<T>) -> TextFault {
        TextFault::Memory
    }
}
