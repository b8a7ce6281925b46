//! Which threads take part.

ghost use Rattle.std.specs.Prelude.{◌≡◌, ℕ, ◌<◌, true, IfOk, length, slice_get, slice_set};
ghost use Rattle.cml_picture.specs.Parts as spec;

use cml_hub::Item;
use cml_scan::Meet;
use cml_value::Tid;
use std::alloc::{AllocError, Global};

// Sets the flag of a thread, if it is there.
fn set_flag(flags: &mut [bool], thread: Tid)
    ensures { flags.new ≡ slice_set flags.old thread.0 true }
{
    let at = thread.0 as usize;
    if at < flags.len() {
        flags[at] = true;
    }
}

// Sets the flags of the threads of a row.
#[tactic(auto, using(crate::proofs::FlagLemmas::flag_set, crate::proofs::FlagLemmas::flag_both))]
fn set_row(flags: &mut [bool], row: Meet)
    ensures { (t : ℕ) → slice_get flags.new t ≡ spec.flag_or (spec.is_of_row row t) (slice_get flags.old t) }
{
    match row {
        Meet::Single { tid, leaf: _ } => set_flag(flags, tid),
        Meet::Pair {
            head,
            head_leaf: _,
            other,
            other_leaf: _,
        } => {
            set_flag(flags, head);
            set_flag(flags, other);
        }
    }
}

// Sets the flags of the threads of an item.
#[tactic(auto, using(crate::proofs::FlagLemmas::flag_set, crate::proofs::FlagLemmas::flag_both))]
fn set_item(flags: &mut [bool], item: &Item)
    ensures { (t : ℕ) → slice_get flags.new t ≡ spec.flag_or (spec.is_of_item t item.now) (slice_get flags.old t) }
{
    match item {
        Item::Turn(thread) => set_flag(flags, *thread),
        Item::Meet(row) => set_row(flags, *row),
        Item::Exchange(row) => set_row(flags, *row),
        Item::Clock(_) => {}
    }
}

/// A flag for each of so many threads: whether one of these items is of it.
pub(crate) fn flags_of(alloc: Global, threads: u32, items: &[Item]) -> Result<Vec<bool>, AllocError>
    ensures { IfOk result (λ flags. (t : ℕ) → t < threads → spec.flag_at flags.items t ≡ spec.acts items.now t) }
{
    let mut flags = vec![in alloc; false; threads as usize]?;
    for item in items {
        set_item(flags.as_mut_slice(), item);
    }
    Ok(flags)
}

/// Whether the flag of a thread is set.
pub(crate) fn is_set(flags: &[bool], thread: u32) -> bool
    ensures { result ≡ spec.flag_at flags.now thread }
{
    flags.get(thread as usize).copied().unwrap_or(false)
}
