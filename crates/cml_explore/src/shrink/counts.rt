//! How long schedules are.

ghost use Rattle.std.specs.Prelude.{◌≡◌, length, count_by};
ghost use Rattle.cml_explore.specs.Counts.{IsShrunkTold};
ghost use Rattle.cml_explore.specs.Counts as spec;

use crate::shrink::shrunk::Shrunk;
use cml_facts::ending::push_many;
use cml_hub::Item;
use std::alloc::{AllocError, Global};

/// How many items a schedule has, and how many of them take a row: as any row, or as an exchange.
#[derive(Clone, Copy, PartialEq, Eq)]
pub struct Counts {
    pub items: usize,
    pub commits: usize,
}

/// What is told of the schedule that was found for a given one.
#[derive(Clone, Copy, PartialEq, Eq)]
pub struct ShrunkTold {
    /// How long the given one is.
    pub old: Counts,
    /// How long the one is that was found.
    pub new: Counts,
    /// Whether that has fewer items.
    pub shorter: bool,
    /// How many others were tried.
    pub tried: u64,
    /// Whether these are all tries that there might be. If not, no item can be left out by itself, nor one thread's items from some point on.
    pub all: bool,
}

// Whether the item takes a row.
fn is_commit(item: &Item) -> bool
    ensures { result ≡ spec.is_commit item.now }
{
    match item {
        Item::Meet(_) | Item::Exchange(_) => true,
        Item::Turn(_) | Item::Clock(_) => false,
    }
}

// How many of the items take a row.
fn commit_count(items: &[Item]) -> usize
    ensures { result ≡ count_by spec.is_commit items.now }
{
    let mut count = 0;
    for item in items {
        if is_commit(item) {
            count += 1;
        }
    }
    count
}

/// How long a schedule of these items is.
pub fn counts_of(items: &[Item]) -> Counts
    ensures items { result.items ≡ length items.now }
    ensures commits { result.commits ≡ count_by spec.is_commit items.now }
{
    Counts {
        items: items.len(),
        commits: commit_count(items),
    }
}

// Appends how long one is.
fn push_one(alloc: Global, out: &mut Vec<u8>, counts: Counts) -> Result<(), AllocError> {
    push_many(alloc, out, " item", " items", counts.items as u64)?;
    out.extend_from_slice(b", ")?;
    push_many(alloc, out, " commit", " commits", counts.commits as u64)
}

/// Appends a line that says how long two schedules are: `41 items, 9 commits -> 26 items, 5 commits`.
///
/// # Errors
/// Out of memory.
pub fn push_counts(
    alloc: Global,
    out: &mut Vec<u8>,
    old: Counts,
    new: Counts,
) -> Result<(), AllocError> {
    push_one(alloc, out, old)?;
    out.extend_from_slice(b" -> ")?;
    push_one(alloc, out, new)?;
    out.extend_from_slice(b"\n")
}

/// What is told of what was found for these items, where there might be so many tries.
pub fn tell_shrunk(given: &[Item], found: &Shrunk, tries: u64) -> ShrunkTold
    ensures { IsShrunkTold given.now tries found.now result }
{
    let items = found.items();
    let tried = found.used();
    ShrunkTold {
        old: counts_of(given),
        new: counts_of(items),
        shorter: items.len() < given.len(),
        tried,
        all: tried == tries,
    }
}

// Appends that no shorter one was found, and why there is none, or may be one.
fn push_none(alloc: Global, out: &mut Vec<u8>, told: ShrunkTold) -> Result<(), AllocError> {
    push_one(alloc, out, told.old)?;
    out.extend_from_slice(b": no shorter one was found in ")?;
    push_many(alloc, out, " try", " tries", told.tried)?;
    if told.all {
        return out.extend_from_slice(b", all that --tries allows\n");
    }
    out.extend_from_slice(b"\neach item is needed, and so is what its thread does from there on\n")
}

/// Appends how long the given schedule and the one that was found are, where that is shorter: `41 items, 9 commits -> 26 items, 5 commits`; and
/// else that no shorter one was found, and in how many tries.
///
/// # Errors
/// Out of memory.
pub fn write_shrunk(alloc: Global, out: &mut Vec<u8>, told: ShrunkTold) -> Result<(), AllocError> {
    if told.shorter {
        push_counts(alloc, out, told.old, told.new)
    } else {
        push_none(alloc, out, told)
    }
}
