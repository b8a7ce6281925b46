//! Every schedule of a program.

ghost use Rattle.std.specs.Prelude.{◌≡◌, ◌<◌, ◌≤◌, ◌+◌, [], ℕ, List, Some, IfNone, IfOk, IfSome, IsTrue, true, false, Contains, length, map, option_map, slice_get};
ghost use Rattle.std.specs.List.{All};
ghost use Rattle.cml_schedule.specs.declared.item.Item.{Item};
ghost use Rattle.cml_verify.specs.{Systems.{run, IsReached}, Searches.{IsSearch, IsSought, AreEdges}, Marks.{ArePlacesOf}};
ghost use Rattle.cml_hub.specs.Runs.{terminal};
ghost use Rattle.cml_step.specs.Calls.{text_of};
ghost use Rattle.cml_verify.specs.{Cores.{Core, program_system}, Ends.{AreSchedulesTo}, Kept.{core_kept}, Placed.{AreThreadsIn}, Verdicts.{IsWithin, IsVerdict}, Faults.{AreFaults, NeverEnds, CanAlwaysEnd, IsUnending}, Falling.{AreFollowed}};

use crate::ends::places_of_ends;
use crate::faults::all_faults;
use crate::kept::Kept;
use crate::placed::are_placed;
use crate::schedules::Schedules;
use crate::search::{Found, Gap, all_states, cut_off, reach, schedule_to};
use cml_check::Prog;
use cml_hub::Item;
use std::alloc::Global;

/// What a search of every schedule found.
#[derive(Drop)]
pub struct Verdict {
    /// Schedules that end, among them a shortest one to each end: to each world in which nothing is left to do, where threads stand so, began so,
    /// as many ended at faults, and, if the output counts, this was printed.
    pub ends: Vec<Vec<Item>>,
    /// How many states were found, no two of them the same.
    pub states: usize,
    /// Schedules by whose last items threads end at faults, among them a shortest one for each thread that does so and each place where it can
    /// stand before that.
    pub faults: Vec<Vec<Item>>,
    /// A shortest schedule that never ends, whatever comes behind it, if every schedule was examined and there is one.
    pub unending: Option<Vec<Item>>,
    /// Nothing, if every schedule was examined. Else the search stopped at the first state beyond the bound, and the schedules of at most so many
    /// items were examined.
    pub reach: Option<usize>,
}

// A schedule to the state at each of these places.
fn schedules_to(
    alloc: Global,
    system: &Schedules,
    found: &Found<Kept, Item>,
    places: &[usize],
) -> Result<Vec<Vec<Item>>, Gap>
    requires search { IsSearch (program_system (text_of system.now.program) system.now.with_output) false found.now.followed (map (core_kept system.now.program) found.now.kept.keys) found.now.origins.items }
    requires any { found.now.quietly ≡ false }
    requires within { All (λ k. k < length found.now.kept.keys) places.now }
    ensures { IfOk result (λ schedules. AreSchedulesTo (program_system (text_of system.now.program) system.now.with_output) (map (core_kept system.now.program) found.now.kept.keys) places.now (length places.now)
        (map (λ schedule. schedule.items) schedules.items)) }
{
    let mut schedules = Vec::new(alloc);
    for place in places {
        let schedule = schedule_to(alloc, system, found, *place)?;
        schedules.push(schedule)?;
    }
    Ok(schedules)
}

// How far the search came, if it did not come to its end.
fn reach_of(system: &Schedules, found: &Found<Kept, Item>) -> Option<usize>
    requires search { IsSearch (program_system (text_of system.now.program) system.now.with_output) false found.now.followed (map (core_kept system.now.program) found.now.kept.keys) found.now.origins.items }
    requires any { found.now.quietly ≡ false }
    requires stopped { found.now.whole ≡ false → found.now.followed < length found.now.kept.keys }
    requires whole { IsTrue found.now.whole → found.now.followed ≡ length found.now.kept.keys }
    requires all { IsTrue found.now.whole → (c : Core) → IsReached (program_system (text_of system.now.program) system.now.with_output) c → Contains (map (core_kept system.now.program) found.now.kept.keys) c }
    ensures all { (items : List Item) (c : Core) → IsWithin result items → IsSought (program_system (text_of system.now.program) system.now.with_output) false items c
        → Contains (map (core_kept system.now.program) found.now.kept.keys) c }
    ensures led { (k : ℕ) (c : Core) → slice_get (map (core_kept system.now.program) found.now.kept.keys) k ≡ Some c → (items : List Item)
        × (run (program_system (text_of system.now.program) system.now.with_output) (program_system (text_of system.now.program) system.now.with_output).start items ≡ Some c)
        × IsWithin (option_map (λ m. m + 1) result) items }
    ensures followed { AreFollowed (program_system (text_of system.now.program) system.now.with_output) (map (core_kept system.now.program) found.now.kept.keys) found.now.followed result }
    ensures stopped { IfSome result (λ most. found.now.whole ≡ false) }
    ensures whole { IfNone result (IsTrue found.now.whole) }
{
    if found.is_whole() {
        return None;
    }
    Some(reach(system, found))
}

// Whether the machines of all that is kept stand in the program.
fn all_placed(program: &Prog, kept: &[Kept]) -> bool
    ensures { IsTrue result → All (λ one. AreThreadsIn program.now one.machines) kept.now }
{
    for one in kept {
        if !are_placed(program, one.machines()) {
            return false;
        }
    }
    true
}

// A schedule to a state from which no end is reached, if every schedule was examined and there is one.
fn unending_of(
    alloc: Global,
    system: &Schedules,
    found: &Found<Kept, Item>,
    ends: &[usize],
) -> Result<Option<Vec<Item>>, Gap>
    requires search { IsSearch (program_system (text_of system.now.program) system.now.with_output) false found.now.followed (map (core_kept system.now.program) found.now.kept.keys) found.now.origins.items }
    requires edges { AreEdges (program_system (text_of system.now.program) system.now.with_output) false found.now.followed (map (core_kept system.now.program) found.now.kept.keys) found.now.edges.items [] }
    requires any { found.now.quietly ≡ false }
    requires whole { IsTrue found.now.whole → found.now.followed ≡ length found.now.kept.keys }
    requires within { All (λ k. k < length found.now.kept.keys) ends.now }
    requires are { ArePlacesOf (λ c. terminal c.world) (map (core_kept system.now.program) found.now.kept.keys) ends.now }
    ensures some { IfOk result (λ told. IfSome told (λ schedule. NeverEnds (text_of system.now.program) schedule.items
        × ((others : List Item) → NeverEnds (text_of system.now.program) others → length schedule.items ≤ length others))) }
    ensures none { IfOk result (λ told. IsTrue found.now.whole → IfNone told (CanAlwaysEnd (text_of system.now.program))) }
{
    if !found.is_whole() {
        return Ok(None);
    }
    match cut_off(alloc, system, found, ends)? {
        Some(place) => {
            let schedule = schedule_to(alloc, system, found, place)?;
            Ok(Some(schedule))
        }
        None => Ok(None),
    }
}

// How many states were found.
fn count_of(found: &Found<Kept, Item>) -> usize
    ensures { result ≡ length found.now.kept.keys }
{
    found.kept().len()
}

// Examines every schedule of the program, up to so many states. The output counts, or not.
fn examine(alloc: Global, program: &Prog, with_output: bool, bound: usize) -> Result<Verdict, Gap>
    requires { 0 < bound }
    ensures verdict { IfOk result (λ v. IsVerdict program.now with_output bound v.reach (map (λ schedule. schedule.items) v.ends.items) v.states) }
    ensures faults { IfOk result (λ v. AreFaults (text_of program.now) v.reach (map (λ schedule. schedule.items) v.faults.items)) }
    ensures unending { IfOk result (λ v. IsUnending (text_of program.now) v.reach (option_map (λ schedule. schedule.items) v.unending)) }
{
    let again = program.copy()?;
    let system = Schedules {
        program: again,
        with_output,
    };
    let found = all_states(alloc, &system, bound)?;
    let kept = found.kept();
    if !all_placed(program, kept) {
        return Err(Gap::Unkept);
    }
    let places = places_of_ends(alloc, kept)?;
    let told = places.as_slice();
    let ends = schedules_to(alloc, &system, &found, told)?;
    let states = count_of(&found);
    let reach = reach_of(&system, &found);
    let faults = all_faults(alloc, &system, &found)?;
    let unending = unending_of(alloc, &system, &found, told)?;
    Ok(Verdict {
        ends,
        states,
        faults,
        unending,
        reach,
    })
}

/// Examines every schedule of the program, up to so many states. What was printed does not count.
///
/// # Errors
/// Out of memory; or a thread does not stand in the program, which does not come about.
pub fn verify(alloc: Global, program: &Prog, bound: usize) -> Result<Verdict, Gap>
    requires { 0 < bound }
    ensures verdict { IfOk result (λ v. IsVerdict program.now false bound v.reach (map (λ schedule. schedule.items) v.ends.items) v.states) }
    ensures faults { IfOk result (λ v. AreFaults (text_of program.now) v.reach (map (λ schedule. schedule.items) v.faults.items)) }
    ensures unending { IfOk result (λ v. IsUnending (text_of program.now) v.reach (option_map (λ schedule. schedule.items) v.unending)) }
{
    examine(alloc, program, false, bound)
}

/// Examines every schedule of the program, up to so many states. Two states are different also where other things were printed before them; so
/// there is a schedule to each list of lines with which a schedule ends.
///
/// # Errors
/// Out of memory; or a thread does not stand in the program, which does not come about.
pub fn outcomes(alloc: Global, program: &Prog, bound: usize) -> Result<Verdict, Gap>
    requires { 0 < bound }
    ensures verdict { IfOk result (λ v. IsVerdict program.now true bound v.reach (map (λ schedule. schedule.items) v.ends.items) v.states) }
    ensures faults { IfOk result (λ v. AreFaults (text_of program.now) v.reach (map (λ schedule. schedule.items) v.faults.items)) }
    ensures unending { IfOk result (λ v. IsUnending (text_of program.now) v.reach (option_map (λ schedule. schedule.items) v.unending)) }
{
    examine(alloc, program, true, bound)
}
