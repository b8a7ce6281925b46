//! What stands in a picture of a run.

ghost use Rattle.std.specs.Prelude.{◌≡◌, ◌≤◌};
ghost use Rattle.cml_picture.specs.Layouts as spec;

use cml_phrase::push_numbered;
use std::alloc::{AllocError, Global};

/// What a mark looks like.
#[derive(Clone, Copy, PartialEq, Eq)]
pub enum Shape {
    /// The beginning of a line that begins at the top.
    Beginning,
    /// A thread that begins: a thin arrow to the beginning of its line.
    Spawn,
    /// A value that goes from one thread to another.
    Arrow,
    /// An item that a thread feeds to a variable, a mailbox or a multicast channel.
    Fed,
    /// An event that a thread takes alone.
    Dot,
    /// A move of the clock.
    Tick,
    /// What a thread prints.
    Print,
    /// Nacks that fire.
    Nack,
    /// The end of a thread.
    End,
    /// The end of a thread at a fault.
    Fault,
    /// A thread that waits at the end.
    Waits,
    /// The same, where nothing can happen.
    Stuck,
    /// A thread that runs at the end.
    Runs,
    /// An event that a thread waits for.
    Event,
    /// The same, where nothing can happen.
    Lost,
}

/// A mark: what it looks like, the number of the item that it shows (0 where it shows none), its thread, the thread that it leads to (the
/// same where it leads to none), its words, what a mouse shows of it, and how far below the top of the picture its row begins.
#[derive(Drop)]
pub struct Mark {
    pub shape: Shape,
    pub item: usize,
    pub thread: u64,
    pub other: u64,
    pub words: Vec<u8>,
    pub title: Vec<u8>,
    pub at: u32,
}

/// How high the row of a mark is.
pub(crate) fn row_height(shape: Shape) -> u32
    ensures height { result ≡ spec.row_height shape }
    ensures small { result ≤ 26 }
{
    match shape {
        Shape::Beginning => 0,
        Shape::Spawn | Shape::Arrow => 26,
        Shape::Print | Shape::Nack => 15,
        Shape::End => 18,
        Shape::Event | Shape::Lost => 14,
        _ => 22,
    }
}

/// How far below the top of its row a mark stands.
pub(crate) fn row_drop(shape: Shape) -> u32
    ensures drop { result ≡ spec.row_drop shape }
    ensures inside { result ≤ spec.row_height shape }
{
    match shape {
        Shape::Beginning => 0,
        Shape::Spawn | Shape::Arrow => 18,
        Shape::Print | Shape::Nack => 8,
        Shape::End => 9,
        Shape::Event | Shape::Lost => 7,
        _ => 11,
    }
}

impl Mark {
    /// What stands in the margin beside a mark: the number of its item, and of a move of the clock the words.
    pub(crate) fn note(&self, alloc: Global) -> Result<Vec<u8>, AllocError> {
        let mut note = Vec::new(alloc);
        if self.item == 0 {
            return Ok(note);
        }
        push_numbered(alloc, &mut note, b"", self.item as u64)?;
        if self.shape == Shape::Tick {
            note.extend_from_slice(b" ")?;
            note.extend_from_slice(self.words.as_slice())?;
        }
        Ok(note)
    }
}
