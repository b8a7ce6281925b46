//! The rows of the table of communications.

ghost use Rattle.std.specs.{Prelude.{◌≡◌, ◌++◌, OnOk}, String.{string_bytes}};
ghost use Rattle.cml_scan.specs.Numbers.{numbers_of};
ghost use Rattle.cml_scan.specs.Scan as spec;

use cml_value::Tid;
use std::alloc::AllocError;

/// A row: a communication that is possible now.
#[derive(Clone, Copy, PartialEq, Eq)]
pub enum Meet {
    /// This leaf alone.
    Single {
        tid: Tid,
        leaf: u32,
    },
    /// Two leaves of two threads, of which the head is the sender, or of two swaps the one in the lower thread.
    Pair {
        head: Tid,
        head_leaf: u32,
        other: Tid,
        other_leaf: u32,
    },
}

/// A leaf of a thread.
#[derive(Clone, Copy, PartialEq, Eq)]
pub struct Place {
    /// The thread.
    pub tid: Tid,
    /// The leaf's number, from the left, from 0.
    pub leaf: u32,
}

impl Meet {
    /// The place that begins the row.
    pub fn place(&self) -> Place
        ensures { result ≡ spec.place_of self.now }
    {
        match *self {
            Meet::Single { tid, leaf } => Place { tid, leaf },
            Meet::Pair {
                head,
                head_leaf,
                ..
            } => Place {
                tid: head,
                leaf: head_leaf,
            },
        }
    }

    /// Whether the two are the same row.
    pub fn same(&self, other: &Meet) -> bool
        ensures { result ≡ spec.same_row self.now other.now }
    {
        self == other
    }

    /// Appends the row's threads and leaves to the text, each after a space; of a pair the head
    /// first.
    ///
    /// # Errors
    /// Out of memory.
    pub fn push_numbers(&self, text: &mut String) -> Result<(), AllocError>
        ensures { let numbers = numbers_of self.now in
            OnOk result (string_bytes text.new ≡ string_bytes text.old ++ numbers) }
    {
        match *self {
            Meet::Single { tid, leaf } => write!(text, " {} {leaf}", tid.0),
            Meet::Pair {
                head,
                head_leaf,
                other,
                other_leaf,
            } => write!(text, " {} {head_leaf} {} {other_leaf}", head.0, other.0),
        }
    }
}

impl Place {
    /// Whether the two are the same place.
    pub fn same(&self, other: &Place) -> bool
        ensures { result ≡ spec.same_place self.now other.now }
    {
        self.tid == other.tid && self.leaf == other.leaf
    }
}
