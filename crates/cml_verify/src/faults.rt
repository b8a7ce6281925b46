//! The faults at which threads end.

ghost use Rattle.std.specs.Prelude.{◌≡◌, ◌<◌, ◌≤◌, ◌++◌, ◌∷◌, [], ◌⊎◌, ℕ, Option, IfOk, IsTrue, OnOk, Some, false, length, map, slice_get};
ghost use Rattle.std.specs.{List.{All}, Option.{option_copied}};
ghost use Rattle.cml_verify.specs.Searches.{IsLonger, IsSearch, IsEdge, AreEdges};
ghost use Rattle.cml_step.specs.Calls.{text_of};
ghost use Rattle.cml_verify.specs.{Cores.{program_system}, Kept.{PlainKept, core_kept}, Faults.{AreFaults}, Falling.{FallsFrom, stood_at, IsFallNoted, EdgeIsNoted, IsScheduleBy, AreSchedulesBy, AreFollowed}};

use crate::kept::Kept;
use crate::schedules::Schedules;
use crate::search::{Found, Gap, schedule_to};
use cml_hub::Item;
use cml_step::Machine;
use cml_value::Tid;
use std::alloc::{AllocError, Global};

// The machine of the thread among those of all threads.
fn machine_of(machines: &[Machine], thread: Tid) -> Option<&Machine>
    ensures { option_copied result ≡ slice_get machines.now thread.0 }
{
    machines.get(thread.0 as usize)
}

// The machine of the thread in the state at this place.
fn machine_at(kept: &[Kept], place: usize, thread: Tid) -> Option<&Machine>
    requires { place < length kept.now }
    ensures { option_copied result ≡ stood_at kept.now place thread }
{
    machine_of(kept[place].machines(), thread)
}

// Whether both are there, and the same.
fn are_the_same(first: Option<&Machine>, second: Option<&Machine>) -> bool
    ensures { IsTrue result → option_copied first.entry ≡ option_copied second.entry }
{
    match (first, second) {
        (Some(machine), Some(other)) => machine.same(other),
        _ => false,
    }
}

// Whether the thread stands the same in the states at both places.
fn stands_the_same(kept: &[Kept], place: usize, other: usize, thread: Tid) -> bool
    requires place { place < length kept.now }
    requires other { other < length kept.now }
    ensures { IsTrue result → stood_at kept.now place thread ≡ stood_at kept.now other thread }
{
    let first = machine_at(kept, place, thread);
    let second = machine_at(kept, other, thread);
    are_the_same(first, second)
}

// Whether it is the same thread, and stands the same at the one place, which is no later.
fn is_like(kept: &[Kept], before: usize, other: Tid, place: usize, thread: Tid) -> bool
    requires { place < length kept.now }
    ensures { IsTrue result → (other ≡ thread) × (before ≤ place) × (stood_at kept.now before thread ≡ stood_at kept.now place thread) }
{
    if other.0 != thread.0 {
        return false;
    }
    if before > place {
        return false;
    }
    stands_the_same(kept, before, place, thread)
}

// Whether the thread was told with this place, or with one before it at which it stands the same.
fn is_told(kept: &[Kept], told: &[(usize, Tid)], place: usize, thread: Tid) -> bool
    requires { place < length kept.now }
    ensures { IsTrue result → IsFallNoted kept.now told.now place thread }
{
    for one in told {
        let (before, other) = *one;
        if is_like(kept, before, other, place, thread) {
            return true;
        }
    }
    false
}

// Tells the thread with this place, if it was not told with one before it at which it stands the same.
fn note(
    kept: &[Kept],
    told: &mut Vec<(usize, Tid)>,
    place: usize,
    thread: Tid,
) -> Result<(), AllocError>
    requires { place < length kept.now }
    ensures more { OnOk result ((told.new.items ≡ told.old.items) ⊎ (told.new.items ≡ told.old.items ++ (place, thread) ∷ [])) }
    ensures noted { OnOk result (IsFallNoted kept.now told.new.items place thread) }
{
    if is_told(kept, told.as_slice(), place, thread) {
        return Ok(());
    }
    told.push((place, thread))?;
    Ok(())
}

// How many threads have ended at a fault in the state at this place.
fn faults_at(kept: &[Kept], place: usize) -> usize
    requires { place < length kept.now }
    ensures { (one : PlainKept) → slice_get kept.now place ≡ Some one → result ≡ one.faults }
{
    kept[place].faults()
}

// Tells the thread that ends at a fault by this edge, if one does.
fn note_edge(
    system: &Schedules,
    found: &Found<Kept, Item>,
    told: &mut Vec<(usize, Tid)>,
    edge: (usize, Item, usize),
) -> Result<(), AllocError>
    requires edge { IsEdge (program_system (text_of system.now.program) system.now.with_output) (map (core_kept system.now.program) found.now.kept.keys) edge }
    requires each { All (FallsFrom system.now.program system.now.with_output found.now.kept.keys) told.old.items }
    ensures each { OnOk result (All (FallsFrom system.now.program system.now.with_output found.now.kept.keys) told.new.items) }
    ensures longer { OnOk result (IsLonger told.old.items told.new.items) }
    ensures noted { OnOk result (EdgeIsNoted system.now.program system.now.with_output found.now.kept.keys told.new.items edge) }
{
    let (from, item, to) = edge;
    let kept = found.kept();
    let few = faults_at(kept, from);
    let many = faults_at(kept, to);
    if few >= many {
        return Ok(());
    }
    match item {
        Item::Turn(thread) => {
            note(kept, told, from, thread)?;
            Ok(())
        }
        Item::Meet(_) => Ok(()),
        Item::Exchange(_) => Ok(()),
        Item::Clock(_) => Ok(()),
    }
}

// The threads that end at faults by the items that were followed, each with the place before it.
fn places_of_faults(
    alloc: Global,
    system: &Schedules,
    found: &Found<Kept, Item>,
) -> Result<Vec<(usize, Tid)>, AllocError>
    requires { All (IsEdge (program_system (text_of system.now.program) system.now.with_output) (map (core_kept system.now.program) found.now.kept.keys)) found.now.edges.items }
    ensures each { IfOk result (λ told. All (FallsFrom system.now.program system.now.with_output found.now.kept.keys) told.items) }
    ensures noted { IfOk result (λ told. All (EdgeIsNoted system.now.program system.now.with_output found.now.kept.keys told.items) found.now.edges.items) }
{
    let mut told = Vec::new(alloc);
    let edges = found.edges();
    for edge in edges {
        note_edge(system, found, &mut told, *edge)?;
    }
    Ok(told)
}

// A schedule to the state at this place, and then the turn of the thread.
fn schedule_by(
    alloc: Global,
    system: &Schedules,
    found: &Found<Kept, Item>,
    place: usize,
    thread: Tid,
) -> Result<Vec<Item>, Gap>
    requires search { IsSearch (program_system (text_of system.now.program) system.now.with_output) false found.now.followed (map (core_kept system.now.program) found.now.kept.keys) found.now.origins.items }
    requires any { found.now.quietly ≡ false }
    requires within { place < length found.now.kept.keys }
    ensures { IfOk result (λ schedule. IsScheduleBy (program_system (text_of system.now.program) system.now.with_output) (map (core_kept system.now.program) found.now.kept.keys) (place, thread) schedule.items) }
{
    let mut schedule = schedule_to(alloc, system, found, place)?;
    schedule.push(Item::Turn(thread))?;
    Ok(schedule)
}

// Such a schedule for each of these.
fn schedules_by(
    alloc: Global,
    system: &Schedules,
    found: &Found<Kept, Item>,
    told: &[(usize, Tid)],
) -> Result<Vec<Vec<Item>>, Gap>
    requires search { IsSearch (program_system (text_of system.now.program) system.now.with_output) false found.now.followed (map (core_kept system.now.program) found.now.kept.keys) found.now.origins.items }
    requires any { found.now.quietly ≡ false }
    requires each { All (FallsFrom system.now.program system.now.with_output found.now.kept.keys) told.now }
    ensures { IfOk result (λ schedules. AreSchedulesBy (program_system (text_of system.now.program) system.now.with_output) (map (core_kept system.now.program) found.now.kept.keys) told.now (length told.now)
        (map (λ schedule. schedule.items) schedules.items)) }
{
    let mut schedules = Vec::new(alloc);
    for one in told {
        let (place, thread) = *one;
        let schedule = schedule_by(alloc, system, found, place, thread)?;
        schedules.push(schedule)?;
    }
    Ok(schedules)
}

/// For each thread that ends at a fault, and from each place where it can stand before that, a shortest schedule whose last item is that turn.
pub(crate) fn all_faults(
    alloc: Global,
    system: &Schedules,
    found: &Found<Kept, Item>,
) -> Result<Vec<Vec<Item>>, Gap>
    requires search { IsSearch (program_system (text_of system.now.program) system.now.with_output) false found.now.followed (map (core_kept system.now.program) found.now.kept.keys) found.now.origins.items }
    requires any { found.now.quietly ≡ false }
    requires edges { AreEdges (program_system (text_of system.now.program) system.now.with_output) false found.now.followed (map (core_kept system.now.program) found.now.kept.keys) found.now.edges.items [] }
    ensures { IfOk result (λ told. (most : Option ℕ) → AreFollowed (program_system (text_of system.now.program) system.now.with_output) (map (core_kept system.now.program) found.now.kept.keys) found.now.followed most
        → AreFaults (text_of system.now.program) most (map (λ schedule. schedule.items) told.items)) }
{
    let told = places_of_faults(alloc, system, found)?;
    let schedules = schedules_by(alloc, system, found, told.as_slice())?;
    Ok(schedules)
}
