//! Classes by size.

ghost use Rattle.std.specs.{Prelude.{◌≡◌, ◌<◌, IfOk, length, map}, List.{All}};
ghost use Rattle.cml_explore.specs.Ranks.{AreRanked, AreInRank};
ghost use Rattle.cml_explore.specs.Ranks as spec;

use crate::classes::Classes;
use std::alloc::{AllocError, Global};
use std::cmp::Reverse;

/// How many runs a class has, and its number: in the order of these, more runs come first.
pub(crate) type Rank = (Reverse<u64>, usize);

// The ranks of the classes, in the order of the classes.
fn unsorted(alloc: Global, classes: &Classes) -> Result<Vec<Rank>, AllocError>
    ensures { IfOk result (λ ranks. ranks.items ≡ spec.ranks_from 0 classes.now) }
{
    let mut ranks = Vec::new(alloc);
    for k in 0..classes.len() {
        ranks.push((Reverse(classes.class(k).summary.runs()), k))?;
    }
    Ok(ranks)
}

/// The classes by size: of two that have as many runs, the one with the lesser first seed comes first.
///
/// # Errors
/// Out of memory.
pub(crate) fn ranks_of(alloc: Global, classes: &Classes) -> Result<Vec<Rank>, AllocError>
    ensures { IfOk result (λ ranks. AreRanked classes.now ranks.items) }
{
    let mut ranks = unsorted(alloc, classes)?;
    ranks.sort()?;
    Ok(ranks)
}

// The numbers of the classes of these ranks.
fn numbers_of(alloc: Global, ranks: &[Rank]) -> Result<Vec<usize>, AllocError>
    ensures { IfOk result (λ numbers. numbers.items ≡ map (λ rank. rank.1) ranks.now) }
{
    let mut numbers = Vec::new(alloc);
    for rank in ranks {
        numbers.push(rank.1)?;
    }
    Ok(numbers)
}

impl Classes {
    /// The numbers of the classes by size: of two that have as many runs, the one with the lesser first seed comes first. That is the order in
    /// which [`explain_runs`](crate::explain_runs) tells of them.
    ///
    /// # Errors
    /// Out of memory.
    pub fn ranking(&self, alloc: Global) -> Result<Vec<usize>, AllocError>
        ensures ranked { IfOk result (λ numbers. AreInRank self.now numbers.items) }
        ensures below { IfOk result (λ numbers. All (λ n. n < length self.now) numbers.items) }
    {
        let ranks = ranks_of(alloc, self)?;
        numbers_of(alloc, ranks.as_slice())
    }
}
