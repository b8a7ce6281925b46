//! What is wrong with a text of properties, and where.

use cml_text::FaultKind;
use std::alloc::{AllocError, AllocFailed};
use std::fmt;
use thiserror::Error;

/// What is wrong at a place of a text.
#[derive(Clone, Copy, Debug, PartialEq, Eq)]
pub enum PropertyFaultKind {
    /// The patterns are no text of forms, for this reason.
    Text(FaultKind),
    /// A line begins with no property's word.
    Word,
    /// Behind a property's word stand fewer patterns than it takes, or more.
    Count,
}

/// Why no properties were read.
#[derive(Clone, Copy, Debug, PartialEq, Eq, Error)]
pub enum PropertyFault {
    /// The text has this fault at this byte, counted from 0.
    At { kind: PropertyFaultKind, at: usize },
    /// Out of memory.
    Memory,
}

impl fmt::Display for PropertyFault {
    ghost use Rattle.std.specs.Prelude.{Some};
    ghost use Rattle.cml_properties.specs.Faults.{property_fault_line};

    ghost output = { λ fault. Some (property_fault_line fault) };

    fn fmt<W: fmt::Write>(&self, f: &mut fmt::Formatter<W>) -> fmt::Result {
        match self {
            PropertyFault::At { kind, at } => match kind {
                PropertyFaultKind::Text(kind) => {
                    let number = kind.number();
                    let name = kind.name();
                    write!(f, "text {number} {name} at {at}")
                }
                PropertyFaultKind::Word => write!(f, "property 1 word at {at}"),
                PropertyFaultKind::Count => write!(f, "property 2 count at {at}"),
            },
            PropertyFault::Memory => write!(f, "out of memory"),
        }
    }
}

impl From<AllocError> for PropertyFault {
    ghost use Rattle.std.specs.Prelude.{◌≡◌};
    ghost use Rattle.cml_properties.specs.declared.fault.PropertyFault.TheVariants.{Memory};

    ghost from_gives = { λ _ e. e ≡ Memory };

    fn from(_error: AllocError) -> PropertyFault {
        PropertyFault::Memory
    }
}

impl<T: Drop> From<AllocFailed<T>> for PropertyFault {
    ghost use Rattle.std.specs.Prelude.{◌≡◌};
    ghost use Rattle.cml_properties.specs.declared.fault.PropertyFault.TheVariants.{Memory};

    ghost from_gives = { λ _ e. e ≡ Memory };

    fn from(_error: AllocFailed<T>) -> PropertyFault {
        PropertyFault::Memory
    }
}
