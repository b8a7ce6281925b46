//! What is wrong with a script, and where.

ghost use Rattle.std.specs.Prelude.{◌≡◌};
ghost use Rattle.cml_text.specs.Forms.{span_of};
ghost use Rattle.cml_check.specs.{Faults.{check_kind_number, check_kind_name}, declared.fault.CheckFault.TheVariants.{At, Memory}};

use cml_text::Sexpr;
use std::alloc::{AllocError, AllocFailed};
use std::fmt;
use thiserror::Error;

/// What is wrong at a place of a script.
#[derive(Clone, Copy, Debug, PartialEq, Eq)]
pub enum CheckKind {
    /// A form that fits no case of its place, a reserved name, or a parameter that stands twice.
    Form,
    /// A function that has the name of an earlier one.
    Double,
    /// A function that is not there.
    Function,
    /// A variable that is not declared.
    Unbound,
    /// Too many or too few values for a function, or a function `main` with parameters.
    Arity,
    /// No function of the name `main`.
    Main,
    /// More than 1,024 functions or 4,096 statements.
    Limit,
}

impl CheckKind {
    /// The number that fault lines give the kind, from 1.
    pub fn number(self) -> u8
        ensures { result ≡ check_kind_number self }
    {
        match self {
            CheckKind::Form => 1,
            CheckKind::Double => 2,
            CheckKind::Function => 3,
            CheckKind::Unbound => 4,
            CheckKind::Arity => 5,
            CheckKind::Main => 6,
            CheckKind::Limit => 7,
        }
    }

    /// The name that fault lines give the kind.
    pub fn name(self) -> &'static str
        ensures { result.now ≡ check_kind_name self }
    {
        match self {
            CheckKind::Form => "form",
            CheckKind::Double => "double",
            CheckKind::Function => "function",
            CheckKind::Unbound => "unbound",
            CheckKind::Arity => "arity",
            CheckKind::Main => "main",
            CheckKind::Limit => "limit",
        }
    }
}

/// Why no program was made.
#[derive(Clone, Copy, Debug, PartialEq, Eq, Error)]
pub enum CheckFault {
    /// The script has this fault at this byte, counted from 0.
    At { kind: CheckKind, at: usize },
    /// Memory ran out.
    Memory,
}

impl fmt::Display for CheckFault {
    ghost use Rattle.std.specs.Prelude.{Some};
    ghost use Rattle.cml_check.specs.Faults.{check_fault_line};

    ghost output = { λ fault. Some (check_fault_line fault) };

    fn fmt<W: fmt::Write>(&self, f: &mut fmt::Formatter<W>) -> fmt::Result {
        match self {
            CheckFault::At { kind, at } => {
                let number = kind.number();
                let name = kind.name();
                write!(f, "check {number} {name} at {at}")
            }
            CheckFault::Memory => write!(f, "out of memory"),
        }
    }
}

impl From<AllocError> for CheckFault {
    ghost from_gives = { λ _ e. e ≡ Memory };

    fn from(_error: AllocError) -> CheckFault {
        CheckFault::Memory
    }
}

impl<T: Drop> From<AllocFailed<T>> for CheckFault {
    ghost from_gives = { λ _ e. e ≡ Memory };

    fn from(_error: AllocFailed<T>) -> CheckFault {
        CheckFault::Memory
    }
}

/// The fault of this kind where the form starts.
pub(crate) fn fault_at(kind: CheckKind, form: &Sexpr) -> CheckFault
    ensures { result ≡ At kind (span_of form.now).start }
{
    CheckFault::At {
        kind,
        at: form.span().start,
    }
}
