//! Whether runs print alike.

ghost use Rattle.std.specs.Prelude.{◌≡◌, ◌↔◌, IsTrue, IfOk, IsPermutation, IsSorted};
ghost use Rattle.std.specs.{Ordering.{nat_cmp}, Cmp.Lexicographic.{slice_cmp}};
ghost use Rattle.cml_properties.specs.Agreements.{Agree, texts};

use crate::property::Property;
use std::alloc::{AllocError, Global};

/// Whether two runs that printed these lines agree, as the property asks of all runs.
///
/// All runs agree if each agrees with the first.
///
/// # Errors
/// Out of memory.
pub fn agree(
    alloc: Global,
    property: &Property,
    these: &[&[u8]],
    those: &[&[u8]],
) -> Result<bool, AllocError>
    ensures { IfOk result (λ agree. IsTrue agree ↔ Agree property.now (texts these.now) (texts those.now)) }
{
    match property {
        Property::SameLines => have_same_lines(alloc, these, those),
        Property::SameOrder => Ok(are_same(these, those)),
        _ => Ok(true),
    }
}

// Whether the lines are the same in some order.
fn have_same_lines(alloc: Global, these: &[&[u8]], those: &[&[u8]]) -> Result<bool, AllocError>
    ensures { IfOk result (λ are. IsTrue are ↔ IsPermutation (texts these.now) (texts those.now)) }
{
    let these = in_order(alloc, these)?;
    let those = in_order(alloc, those)?;
    Ok(are_same(these.as_slice(), those.as_slice()))
}

// Whether the lines are the same as they stand.
fn are_same(these: &[&[u8]], those: &[&[u8]]) -> bool
    ensures { IsTrue result ↔ (texts these.now ≡ texts those.now) }
{
    these == those
}

// The lines in the order of their bytes.
fn in_order<'a>(alloc: Global, lines: &[&'a [u8]]) -> Result<Vec<&'a [u8]>, AllocError>
    ensures lines { IfOk result (λ found. IsPermutation (texts lines.now) (texts found.items)) }
    ensures order { IfOk result (λ found. IsSorted (slice_cmp nat_cmp) (texts found.items)) }
{
    let mut found = lines.to_vec(alloc)?;
    found.sort_unstable();
    Ok(found)
}
