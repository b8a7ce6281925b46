//! Properties, and how they are kept.

ghost use Rattle.std.specs.Prelude.{◌≡◌};
ghost use Rattle.cml_properties.specs.Properties as spec;

use crate::kind::PropertyKind;
use crate::pattern::Pattern;

/// What must hold of a run, or of all runs.
#[derive(Drop)]
pub enum Property {
    /// No line is printed that matches.
    Never(Pattern),
    /// A run that ends prints a line that matches.
    Always(Pattern),
    /// At most one line is printed that matches.
    Once(Pattern),
    /// No line that matches `later` is printed before the first that matches `first`.
    Before { first: Pattern, later: Pattern },
    /// All runs print the same lines, in any order.
    SameLines,
    /// All runs print the same lines, in the same order.
    SameOrder,
    /// Where a run ends no mailbox and no port holds an item.
    Empty,
}

/// How far a run has come.
#[derive(Clone, Copy, Debug, PartialEq, Eq)]
pub enum Finish {
    /// It goes on, or was cut off.
    GoesOn,
    /// It has ended, and no mailbox and no port holds an item.
    Emptied,
    /// It has ended, and a mailbox or a port holds an item that nobody took.
    HasItems,
}

impl Property {
    /// Of what kind the property is.
    pub fn kind(&self) -> PropertyKind
        ensures { result ≡ spec.kind_of_property self.now }
    {
        match self {
            Property::Never(_) => PropertyKind::Never,
            Property::Always(_) => PropertyKind::Always,
            Property::Once(_) => PropertyKind::Once,
            Property::Before { .. } => PropertyKind::Before,
            Property::SameLines => PropertyKind::SameLines,
            Property::SameOrder => PropertyKind::SameOrder,
            Property::Empty => PropertyKind::Empty,
        }
    }
}
