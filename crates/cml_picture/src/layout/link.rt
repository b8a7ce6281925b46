//! Lines between marks.

ghost use Rattle.std.specs.{Prelude.{◌≡◌}, Option.{option_copied}};
ghost use Rattle.cml_picture.specs.Links as spec;

use super::frame::level_of;
use super::mark::Mark;
use crate::sheet::{Fed, Held};

/// A line from a mark to another one, or along the line of a thread that holds something: between which threads, and how far below the top
/// of the picture it begins and ends.
#[derive(Clone, Copy)]
pub struct Link {
    pub is_held: bool,
    pub thread: u64,
    pub at: u64,
    pub other: u64,
    pub below: u64,
}

// The first mark of the item of this number.
fn mark_of(marks: &[Mark], item: usize) -> Option<&Mark>
    ensures { option_copied result ≡ spec.mark_of item marks.now }
{
    for mark in marks {
        if mark.item == item {
            return Some(mark);
        }
    }
    None
}

/// The line from an item that was fed to the one that took it.
pub(crate) fn fed_link(marks: &[Mark], fed: Fed) -> Option<Link>
    ensures { result ≡ spec.fed_link marks.now fed }
{
    let from = mark_of(marks, fed.from)?;
    let to = mark_of(marks, fed.to)?;
    Some(Link {
        is_held: false,
        thread: from.thread,
        at: level_of(from),
        other: to.thread,
        below: level_of(to),
    })
}

// How far down an M-variable is held: up to the mark of an item, or to the bottom.
fn held_down(marks: &[Mark], until: Option<usize>, bottom: u32) -> Option<u64>
    ensures { result ≡ spec.held_down marks.now bottom until }
{
    match until {
        Some(item) => Some(level_of(mark_of(marks, item)?)),
        None => Some(u64::from(bottom)),
    }
}

/// The line along which a thread holds an M-variable; it ends here where nobody puts anything into that.
pub(crate) fn held_link(marks: &[Mark], held: Held, bottom: u32) -> Option<Link>
    ensures { result ≡ spec.held_link marks.now bottom held }
{
    let from = mark_of(marks, held.from)?;
    let below = held_down(marks, held.until, bottom)?;
    Some(Link {
        is_held: true,
        thread: from.thread,
        at: level_of(from),
        other: from.thread,
        below,
    })
}
