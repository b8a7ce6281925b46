//! Room for what has a number.

ghost use Rattle.std.specs.Prelude.{◌≡◌, ◌<◌, ℕ, None, length, slice_index_or, OnOk};

use std::alloc::AllocError;

/// Makes room at this number: what has none there has none still.
///
/// # Errors
/// Out of memory. Each number has what it had.
pub fn make_room<T: Drop>(places: &mut Vec<Option<T>>, number: usize) -> Result<(), AllocError>
    ensures same { (n : ℕ) → slice_index_or places.new.items n None ≡ slice_index_or places.old.items n None }
    ensures room { OnOk result (number < length places.new.items) }
{
    'growing: while places.len() <= number {
        places.push(None)?;
    }
    Ok(())
}
