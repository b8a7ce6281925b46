//! Choosing a leaf by its number.

ghost use Rattle.std.specs.Prelude.{◌<◌, ◌↔◌, IsSome};
ghost use Rattle.cml_value.specs.Group.{leaf_count};

use cml_group::{Chosen, Flat};

/// The leaf of this number, chosen, if there is one.
pub fn chosen(flat: Flat, n: usize) -> Option<Chosen>
    ensures { IsSome result ↔ (n < leaf_count flat) }
{
    if n < flat.len() {
        Some(flat.choose(n))
    } else {
        None
    }
}
