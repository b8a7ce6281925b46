//! Why a command was refused.

ghost use Rattle.std.specs.Prelude.{◌≡◌, codes};
ghost use Rattle.cml_book.specs.Refusals.{number_of, name_of};

use std::alloc::AllocError;
use std::fmt;
use thiserror::Error;

/// Why a command was refused. The first that fits, in this order, is returned, and the command changes nothing.
#[derive(Clone, Copy, Debug, PartialEq, Eq)]
pub enum Refusal {
    /// The thread that does the command does not exist.
    Thread,
    /// That thread does not run.
    State,
    /// An object, a thread or a nack that the command, a base event or a scope names does not exist.
    Object,
    /// A variable is full already.
    Put,
    /// The row is not in the table now.
    Row,
    /// The clock would go backwards.
    Clock,
    /// A group has more than 256 leaves.
    Leaves,
    /// A value or a group is deeper than 64, or has more than 65,536 nodes.
    Deep,
    /// A tick lies above 2^62.
    Far,
    /// There can be no more threads, objects, nacks or items.
    Full,
    /// A scope's nack is not fresh, or another thread's, or named by two scopes.
    Nack,
}

impl Refusal {
    /// The number by which replies name it, from 1.
    pub fn number(self) -> u8
        ensures { result ≡ number_of self }
    {
        match self {
            Refusal::Thread => 1,
            Refusal::State => 2,
            Refusal::Object => 3,
            Refusal::Put => 4,
            Refusal::Row => 5,
            Refusal::Clock => 6,
            Refusal::Leaves => 7,
            Refusal::Deep => 8,
            Refusal::Far => 9,
            Refusal::Full => 10,
            Refusal::Nack => 11,
        }
    }

    /// The name by which replies call it.
    pub fn name(self) -> &'static str
        ensures { result.now ≡ name_of self }
    {
        match self {
            Refusal::Thread => "thread",
            Refusal::State => "state",
            Refusal::Object => "object",
            Refusal::Put => "put",
            Refusal::Row => "row",
            Refusal::Clock => "clock",
            Refusal::Leaves => "leaves",
            Refusal::Deep => "deep",
            Refusal::Far => "far",
            Refusal::Full => "full",
            Refusal::Nack => "nack",
        }
    }
}

/// Why a call did nothing.
#[derive(Clone, Copy, Debug, PartialEq, Eq, Error)]
pub enum Fault {
    /// The rules refuse it.
    #[error("the command is refused")]
    Refused(Refusal),
    /// Memory ran out for a command that the rules accept.
    #[error("out of memory")]
    Memory,
}

/// Why a call that was handed a value did nothing. The value comes back unchanged.
#[derive(Drop, Error)]
#[error("{fault}")]
pub struct Returned<V> {
    /// What was handed in.
    pub value: V,
    /// Why nothing was done.
    pub fault: Fault,
}

// The value itself is not shown.
impl<V> fmt::Debug for Returned<V> {
    fn fmt<W: fmt::Write>(&self, f: &mut fmt::Formatter<W>) -> fmt::Result {
        write!(f, "{self}")
    }
}

impl<V> Returned<V> {
    ghost use Rattle.std.specs.Prelude.{◌≡◌};
    ghost use Rattle.cml_book.specs.declared.refusal.Fault.TheVariants.{Refused, Memory};

    // The rules refuse it.
    pub(crate) fn refused(value: V, why: Refusal) -> Returned<V>
        ensures { result ≡ record { value = value; fault = Refused why } }
    {
        Returned {
            value,
            fault: Fault::Refused(why),
        }
    }

    // Memory ran out.
    pub(crate) fn out_of_memory(value: V) -> Returned<V>
        ensures { result ≡ record { value = value; fault = Memory } }
    {
        Returned {
            value,
            fault: Fault::Memory,
        }
    }
}

impl From<AllocError> for Fault {
    ghost use Rattle.std.specs.Prelude.{◌≡◌};
    ghost use Rattle.cml_book.specs.declared.refusal.Fault.TheVariants.{Memory};

    ghost from_gives = { λ _ e. e ≡ Memory };

    fn from(_error: AllocError) -> Fault {
        Fault::Memory
    }
}
