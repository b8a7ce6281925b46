//! How many turns each thread had.

ghost use Rattle.std.specs.Prelude.{◌≡◌, ◌+◌, ◌<◌, ℕ, if◌then◌else◌, length, slice_index, IfOk};
ghost use Rattle.cml_facts.specs.Lefts as spec;

use cml_hub::Item;
use std::alloc::{AllocError, Global};

// The item is counted, if it is a turn of a thread that has a count.
fn count_turn(counts: &mut Vec<usize>, item: &Item)
    requires { (t : ℕ) → t < length counts.old.items → slice_index counts.old.items t < usize.MAX }
    ensures same { length counts.new.items ≡ length counts.old.items }
    ensures counted { (t : ℕ) → t < length counts.old.items → slice_index counts.new.items t
        ≡ slice_index counts.old.items t + (if spec.is_turn_of t item.now then 1 else 0) }
{
    match item {
        Item::Turn(thread) => {
            let place = thread.0 as usize;
            if place < counts.len() {
                counts[place] += 1;
            }
        }
        Item::Meet(_) => {}
        Item::Exchange(_) => {}
        Item::Clock(_) => {}
    }
}

/// How many turns each of so many threads had in a schedule.
///
/// # Errors
/// Out of memory.
pub(crate) fn turn_counts(
    alloc: Global,
    items: &[Item],
    threads: usize,
) -> Result<Vec<usize>, AllocError>
    ensures { IfOk result (λ counts. counts.items ≡ spec.turn_counts items.now threads) }
{
    let mut counts = vec![in alloc; 0; threads]?;
    for item in items {
        count_turn(&mut counts, item);
    }
    Ok(counts)
}
