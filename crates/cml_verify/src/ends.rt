//! The ends among what is kept.

ghost use Rattle.std.specs.Prelude.{◌≡◌, ◌<◌, ℕ, IfOk, Some, length, slice_get};
ghost use Rattle.std.specs.List.{All};
ghost use Rattle.cml_verify.specs.Ends.{IsEndAt, EachEndIsAmong};

use crate::kept::Kept;
use std::alloc::{AllocError, Global};

/// The places at which an end is kept.
pub(crate) fn places_of_ends(alloc: Global, kept: &[Kept]) -> Result<Vec<usize>, AllocError>
    ensures within { IfOk result (λ places. All (λ k. k < length kept.now) places.items) }
    ensures each { IfOk result (λ places. All (IsEndAt kept.now) places.items) }
    ensures all { IfOk result (λ places. EachEndIsAmong kept.now places.items (length kept.now)) }
    ensures apart { IfOk result (λ places. (i j k : ℕ) → slice_get places.items i ≡ Some k → slice_get places.items j ≡ Some k → i ≡ j) }
{
    let mut places = Vec::new(alloc);
    for k in 0..kept.len() {
        if kept[k].ends() {
            places.push(k)?;
        }
    }
    Ok(places)
}
