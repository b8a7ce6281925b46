//! States from which none of some states can be reached.

ghost use Rattle.std.specs.Prelude.{Contains, ◌≡◌, ◌<◌, ◌+◌, ℕ, Bool, true, false, [], Some, not, count_by, length, map, slice_get, slice_set, IfNone, IfOk, IfSome, IsTrue};
ghost use Rattle.std.specs.List.{All};
ghost use Rattle.cml_verify.specs.Systems.{IsReached, CanReach};
ghost use Rattle.cml_verify.specs.Searches.{IsSearch, IsEdge, AreEdges};
ghost use Rattle.cml_verify.specs.Marks.{IsMarked, IsBackClosed, ArePlacesOf, AllCanReach};

use crate::search::found::Found;
use crate::search::system::System;
use std::alloc::{AllocError, Global};

// A mark at each of these places, and at no other.
fn marks_at(alloc: Global, count: usize, places: &[usize]) -> Result<Vec<bool>, AllocError>
    requires { All (λ k. k < count) places.now }
    ensures length { IfOk result (λ marks. length marks.items ≡ count) }
    ensures each { IfOk result (λ marks. All (IsMarked marks.items) places.now) }
    ensures only { IfOk result (λ marks. (k : ℕ) → IsMarked marks.items k → Contains places.now k) }
{
    let mut marks = vec![in alloc; false; count]?;
    for place in places {
        marks[*place] = true;
    }
    Ok(marks)
}

// Marks the one place, if the other is marked and it is not. Answers whether it did.
fn mark_edge(marks: &mut Vec<bool>, from: usize, to: usize) -> bool
    requires from { from < length marks.old.items }
    requires to { to < length marks.old.items }
    ensures marked { IsTrue result → IsMarked marks.old.items to × (slice_get marks.old.items from ≡ Some false) × (marks.new.items ≡ slice_set marks.old.items from true) }
    ensures same { result ≡ false → (marks.new.items ≡ marks.old.items) × (IsMarked marks.old.items to → IsMarked marks.old.items from) }
{
    if !marks[to] {
        return false;
    }
    if marks[from] {
        return false;
    }
    marks[from] = true;
    true
}

// Marks each place from which an edge leads to a marked one, the last edge first. Answers how many places were not marked before.
fn mark_back<Y: System>(
    _system: &Y,
    found: &Found<Y::Kept, Y::Item>,
    marks: &mut Vec<bool>,
) -> usize
    requires edges { All (IsEdge (Y.rules _system.now) (map (Y.state_of _system.now) found.now.kept.keys)) found.now.edges.items }
    requires length { length marks.old.items ≡ length found.now.kept.keys }
    ensures length { length marks.new.items ≡ length marks.old.items }
    ensures keeps { (k : ℕ) → IsMarked marks.old.items k → IsMarked marks.new.items k }
    ensures only { (over : Y.State → Bool) → AllCanReach (Y.rules _system.now) over (map (Y.state_of _system.now) found.now.kept.keys) marks.old.items
        → AllCanReach (Y.rules _system.now) over (map (Y.state_of _system.now) found.now.kept.keys) marks.new.items }
    ensures fewer { count_by not marks.new.items + result ≡ count_by not marks.old.items }
    ensures closed { result ≡ 0 → IsBackClosed found.now.edges.items marks.new.items }
{
    let mut count = 0;
    let mut at = found.edges().len();
    while at > 0 {
        at -= 1;
        let (from, _, to) = found.edges()[at];
        if mark_edge(marks, from, to) {
            count += 1;
        }
    }
    count
}

// Marks the places from whose states one at these places can be reached.
fn marked<Y: System>(
    alloc: Global,
    system: &Y,
    found: &Found<Y::Kept, Y::Item>,
    places: &[usize],
) -> Result<Vec<bool>, AllocError>
    requires edges { All (IsEdge (Y.rules system.now) (map (Y.state_of system.now) found.now.kept.keys)) found.now.edges.items }
    requires within { All (λ k. k < length found.now.kept.keys) places.now }
    ensures length { IfOk result (λ marks. length marks.items ≡ length found.now.kept.keys) }
    ensures places { IfOk result (λ marks. All (IsMarked marks.items) places.now) }
    ensures can { IfOk result (λ marks. (over : Y.State → Bool) → ArePlacesOf over (map (Y.state_of system.now) found.now.kept.keys) places.now
        → AllCanReach (Y.rules system.now) over (map (Y.state_of system.now) found.now.kept.keys) marks.items) }
    ensures closed { IfOk result (λ marks. IsBackClosed found.now.edges.items marks.items) }
{
    let mut marks = marks_at(alloc, found.kept().len(), places)?;
    let mut more = 1;
    while more > 0 {
        more = mark_back(system, found, &mut marks);
    }
    Ok(marks)
}

// The first place that is not marked, if there is one.
fn first_unmarked(marks: &[bool]) -> Option<usize>
    ensures some { IfSome result (λ k. slice_get marks.now k ≡ Some false) }
    ensures first { IfSome result (λ k. (j : ℕ) → j < k → IsMarked marks.now j) }
    ensures none { IfNone result ((k : ℕ) → k < length marks.now → IsMarked marks.now k) }
{
    for k in 0..marks.len() {
        if !marks[k] {
            return Some(k);
        }
    }
    None
}

/// The first place of a state from which none of the states at these places can be reached, if there is one; where the search went through all
/// states.
///
/// # Errors
/// Out of memory.
pub fn cut_off<Y: System>(
    alloc: Global,
    system: &Y,
    found: &Found<Y::Kept, Y::Item>,
    places: &[usize],
) -> Result<Option<usize>, AllocError>
    requires search { IsSearch (Y.rules system.now) false (length found.now.kept.keys) (map (Y.state_of system.now) found.now.kept.keys) found.now.origins.items }
    requires edges { AreEdges (Y.rules system.now) false (length found.now.kept.keys) (map (Y.state_of system.now) found.now.kept.keys) found.now.edges.items [] }
    requires within { All (λ k. k < length found.now.kept.keys) places.now }
    ensures some { IfOk result (λ place. IfSome place (λ k. (k < length found.now.kept.keys)
        × ((over : Y.State → Bool) → ArePlacesOf over (map (Y.state_of system.now) found.now.kept.keys) places.now
        → IfSome (slice_get (map (Y.state_of system.now) found.now.kept.keys) k) (λ s. CanReach (Y.rules system.now) over s → ⊥)))) }
    ensures first { IfOk result (λ place. IfSome place (λ k. (over : Y.State → Bool) → ArePlacesOf over (map (Y.state_of system.now) found.now.kept.keys) places.now
        → (j : ℕ) (s : Y.State) → j < k → slice_get (map (Y.state_of system.now) found.now.kept.keys) j ≡ Some s → CanReach (Y.rules system.now) over s)) }
    ensures none { IfOk result (λ place. IfNone place ((over : Y.State → Bool) → ArePlacesOf over (map (Y.state_of system.now) found.now.kept.keys) places.now
        → (s : Y.State) → IsReached (Y.rules system.now) s → CanReach (Y.rules system.now) over s)) }
{
    let marks = marked(alloc, system, found, places)?;
    Ok(first_unmarked(marks.as_slice()))
}
