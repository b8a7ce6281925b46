//! The states that a search finds.

ghost use Rattle.std.specs.Prelude.{Contains, ◌≡◌, ◌<◌, ◌≤◌, ◌+◌, ◌++◌, ℕ, Bool, List, [], ◌∷◌, Some, length, map, slice_get, false, true, IfOk, OnOk, IfSome, IsSome, IsTrue};
ghost use Rattle.std.specs.List.{All};
ghost use Rattle.cml_verify.specs.Systems.{run, IsReached, IsTerminal, IsSchedule, LeadsTo, LeadsInto};
ghost use Rattle.indexmap.specs.IndexSet.{IsUnique};
ghost use Rattle.cml_verify.specs.Searches.{Depths, IsTrail, Keeps, AreEnough, WasFollowed, IsLonger, IsBroad, IsSearch, IsSought, IsFoundBefore, AreFewest, AreEdges};

use crate::search::system::{Gap, System};
use indexmap::IndexSet;
use std::alloc::Global;
use std::hash::Hash;

/// What is kept of states, each once, and of each but the first the place of a state before it and the item that leads from there to it.
#[derive(Drop)]
pub struct Found<K: Eq + Hash, I> {
    kept: IndexSet<K>,
    origins: Vec<(usize, I)>,
    // The items that were followed: from the state at which place, and to which.
    edges: Vec<(usize, I, usize)>,
    // Whether a quiet turn was followed alone.
    quietly: bool,
    // How many of the first states were followed.
    followed: usize,
    whole: bool,
}

impl<K: Eq + Hash, I> Found<K, I> {
    /// What is kept of the states, the start first.
    pub fn kept(&self) -> &[K]
        ensures kept { result.now ≡ self.now.kept.keys }
        ensures once { IsUnique K.eq self.now.kept }
    {
        self.kept.as_slice()
    }

    /// The items that were followed: from the state at which place, and to which.
    pub fn edges(&self) -> &[(usize, I, usize)]
        ensures { result.now ≡ self.now.edges.items }
    {
        self.edges.as_slice()
    }

    /// Whether the search went through all states, and did not stop at its bound.
    pub fn is_whole(&self) -> bool
        ensures { result ≡ self.now.whole }
    {
        self.whole
    }

    /// How many states were followed: the first ones.
    pub fn followed(&self) -> usize
        ensures { result ≡ self.now.followed }
    {
        self.followed
    }
}

// The start alone.
pub(crate) fn begin<Y: System>(
    alloc: Global,
    system: &Y,
    quietly: bool,
) -> Result<Found<Y::Kept, Y::Item>, Gap>
    ensures search { IfOk result (λ f. IsSearch (Y.rules system.now) quietly 0 (map (Y.state_of system.now) f.kept.keys) f.origins.items) }
    ensures edges { IfOk result (λ f. AreEdges (Y.rules system.now) quietly 0 (map (Y.state_of system.now) f.kept.keys) f.edges.items []) }
    ensures one { IfOk result (λ f. length f.kept.keys ≡ 1) }
    ensures quietly { IfOk result (λ f. f.quietly ≡ quietly) }
{
    let start = system.start(alloc)?;
    let mut kept = IndexSet::new(alloc);
    kept.insert(start)?;
    Ok(Found {
        kept,
        origins: Vec::new(alloc),
        edges: Vec::new(alloc),
        quietly,
        followed: 0,
        whole: true,
    })
}

// The items to follow where this schedule leads.
pub(crate) fn items_of<Y: System>(
    alloc: Global,
    system: &Y,
    quietly: bool,
    schedule: &[Y::Item],
) -> Result<Vec<Y::Item>, Gap>
    requires { IsSchedule (Y.rules system.now) schedule.now }
    ensures { IfOk result (λ items. LeadsTo (Y.rules system.now) schedule.now (λ s. AreEnough (Y.rules system.now) quietly s items.items)) }
{
    if quietly {
        if let Some(turn) = system.quiet(alloc, schedule)? {
            let mut items = Vec::new(alloc);
            items.push(turn)?;
            return Ok(items);
        }
    }
    system.allowed(alloc, schedule)
}

// Adds the state to which an item leads from the one at this place, to which this schedule leads. Answers at which place it stands.
pub(crate) fn follow<Y: System>(
    alloc: Global,
    system: &Y,
    found: &mut Found<Y::Kept, Y::Item>,
    at: usize,
    schedule: &[Y::Item],
    item: Y::Item,
) -> Result<usize, Gap>
    requires keeps { Keeps (Y.rules system.now) (map (Y.state_of system.now) found.old.kept.keys) found.old.origins.items }
    requires leads { run (Y.rules system.now) (Y.rules system.now).start schedule.now ≡ slice_get (map (Y.state_of system.now) found.old.kept.keys) at }
    requires can { LeadsTo (Y.rules system.now) schedule.now (λ s. IsSome ((Y.rules system.now).step s item)) }
    ensures keeps { OnOk result (Keeps (Y.rules system.now) (map (Y.state_of system.now) found.new.kept.keys) found.new.origins.items) }
    ensures longer { OnOk result (IsLonger (map (Y.state_of system.now) found.old.kept.keys) (map (Y.state_of system.now) found.new.kept.keys)) }
    ensures leads { OnOk result (LeadsTo (Y.rules system.now) schedule.now (λ s. LeadsInto (Y.rules system.now) (map (Y.state_of system.now) found.new.kept.keys) s item)) }
    ensures broad { OnOk result ((q : Bool) (begun : List Y.Item) → IsBroad (Y.rules system.now) q at (map (Y.state_of system.now) found.old.kept.keys) found.old.origins.items begun
        → IsBroad (Y.rules system.now) q at (map (Y.state_of system.now) found.new.kept.keys) found.new.origins.items (begun ++ item ∷ [])) }
    ensures place { IfOk result (λ to. LeadsTo (Y.rules system.now) schedule.now (λ s. IsSome ((Y.rules system.now).step s item)
        × ((Y.rules system.now).step s item ≡ slice_get (map (Y.state_of system.now) found.new.kept.keys) to))) }
    ensures one { OnOk result (length found.new.kept.keys ≤ length found.old.kept.keys + 1) }
    ensures edges { found.new.edges.items ≡ found.old.edges.items }
{
    let next = system.step(alloc, schedule, item)?;
    let (to, new) = found.kept.insert_full(next)?;
    if new {
        found.origins.push((at, item))?;
    }
    Ok(to)
}

// The same, and adds that the item leads there.
pub(crate) fn follow_edge<Y: System>(
    alloc: Global,
    system: &Y,
    found: &mut Found<Y::Kept, Y::Item>,
    at: usize,
    schedule: &[Y::Item],
    item: Y::Item,
) -> Result<(), Gap>
    requires keeps { Keeps (Y.rules system.now) (map (Y.state_of system.now) found.old.kept.keys) found.old.origins.items }
    requires leads { run (Y.rules system.now) (Y.rules system.now).start schedule.now ≡ slice_get (map (Y.state_of system.now) found.old.kept.keys) at }
    requires can { LeadsTo (Y.rules system.now) schedule.now (λ s. IsSome ((Y.rules system.now).step s item)) }
    ensures keeps { OnOk result (Keeps (Y.rules system.now) (map (Y.state_of system.now) found.new.kept.keys) found.new.origins.items) }
    ensures longer { OnOk result (IsLonger (map (Y.state_of system.now) found.old.kept.keys) (map (Y.state_of system.now) found.new.kept.keys)) }
    ensures leads { OnOk result (LeadsTo (Y.rules system.now) schedule.now (λ s. LeadsInto (Y.rules system.now) (map (Y.state_of system.now) found.new.kept.keys) s item)) }
    ensures one { OnOk result (length found.new.kept.keys ≤ length found.old.kept.keys + 1) }
    ensures broad { OnOk result ((q : Bool) (begun : List Y.Item) → IsBroad (Y.rules system.now) q at (map (Y.state_of system.now) found.old.kept.keys) found.old.origins.items begun
        → IsBroad (Y.rules system.now) q at (map (Y.state_of system.now) found.new.kept.keys) found.new.origins.items (begun ++ item ∷ [])) }
    ensures edges { OnOk result ((q : Bool) (begun : List Y.Item) → AreEdges (Y.rules system.now) q at (map (Y.state_of system.now) found.old.kept.keys) found.old.edges.items begun
        → AreEdges (Y.rules system.now) q at (map (Y.state_of system.now) found.new.kept.keys) found.new.edges.items (begun ++ item ∷ [])) }
{
    let to = follow(alloc, system, found, at, schedule, item)?;
    found.edges.push((at, item, to))?;
    Ok(())
}

// Follows these items from the state at this place, to which this schedule leads, unless there are more states than the bound; answers
// whether there are not.
pub(crate) fn follow_all<Y: System>(
    alloc: Global,
    system: &Y,
    found: &mut Found<Y::Kept, Y::Item>,
    at: usize,
    schedule: &[Y::Item],
    items: &[Y::Item],
    bound: usize,
) -> Result<bool, Gap>
    requires keeps { Keeps (Y.rules system.now) (map (Y.state_of system.now) found.old.kept.keys) found.old.origins.items }
    requires leads { run (Y.rules system.now) (Y.rules system.now).start schedule.now ≡ slice_get (map (Y.state_of system.now) found.old.kept.keys) at }
    requires can { LeadsTo (Y.rules system.now) schedule.now (λ s. All (λ i. IsSome ((Y.rules system.now).step s i)) items.now) }
    requires bounded { length found.old.kept.keys ≤ bound }
    ensures keeps { OnOk result (Keeps (Y.rules system.now) (map (Y.state_of system.now) found.new.kept.keys) found.new.origins.items) }
    ensures longer { OnOk result (IsLonger (map (Y.state_of system.now) found.old.kept.keys) (map (Y.state_of system.now) found.new.kept.keys)) }
    ensures leads { IfOk result (λ all. IsTrue all → LeadsTo (Y.rules system.now) schedule.now (λ s. All (LeadsInto (Y.rules system.now) (map (Y.state_of system.now) found.new.kept.keys) s) items.now)) }
    ensures bounded { IfOk result (λ all. IsTrue all → length found.new.kept.keys ≤ bound) }
    ensures full { IfOk result (λ all. all ≡ false → bound < length found.new.kept.keys) }
    ensures over { OnOk result (length found.new.kept.keys ≤ bound + 1) }
    ensures broad { IfOk result (λ all. IsTrue all → (q : Bool) → IsBroad (Y.rules system.now) q at (map (Y.state_of system.now) found.old.kept.keys) found.old.origins.items []
        → IsBroad (Y.rules system.now) q at (map (Y.state_of system.now) found.new.kept.keys) found.new.origins.items items.now) }
    ensures edges { IfOk result (λ all. IsTrue all → (q : Bool) → AreEdges (Y.rules system.now) q at (map (Y.state_of system.now) found.old.kept.keys) found.old.edges.items []
        → AreEdges (Y.rules system.now) q at (map (Y.state_of system.now) found.new.kept.keys) found.new.edges.items items.now) }
    ensures some_edges { OnOk result ((q : Bool) → AreEdges (Y.rules system.now) q at (map (Y.state_of system.now) found.old.kept.keys) found.old.edges.items []
        → AreEdges (Y.rules system.now) q at (map (Y.state_of system.now) found.new.kept.keys) found.new.edges.items []) }
    ensures some { OnOk result ((q : Bool) → IsBroad (Y.rules system.now) q at (map (Y.state_of system.now) found.old.kept.keys) found.old.origins.items []
        → IsBroad (Y.rules system.now) q at (map (Y.state_of system.now) found.new.kept.keys) found.new.origins.items []) }
{
    for item in items {
        follow_edge(alloc, system, found, at, schedule, *item)?;
        if found.kept.len() > bound {
            return Ok(false);
        }
    }
    Ok(true)
}

// The items that lead from the start to the state at this place, by the origins.
fn way_to<Y: System>(
    alloc: Global,
    _system: &Y,
    found: &Found<Y::Kept, Y::Item>,
    place: usize,
) -> Result<Vec<Y::Item>, Gap>
    requires trail { IsTrail (Y.rules _system.now) (map (Y.state_of _system.now) found.now.kept.keys) found.now.origins.items }
    requires within { place < length found.now.kept.keys }
    ensures leads { IfOk result (λ items. run (Y.rules _system.now) (Y.rules _system.now).start items.items ≡ slice_get (map (Y.state_of _system.now) found.now.kept.keys) place) }
    ensures counts { IfOk result (λ items. (d : ℕ → ℕ) → Depths found.now.origins.items d → length items.items ≡ d place) }
{
    let mut items = Vec::new(alloc);
    let mut at = place;
    while at > 0 {
        let (parent, item) = found.origins[at - 1];
        items.push(item)?;
        at = parent;
    }
    items.reverse();
    Ok(items)
}

// Follows the state at this place: all that can be taken there, or a quiet turn alone. Answers whether there are not more states than the
// bound.
fn follow_at<Y: System>(
    alloc: Global,
    system: &Y,
    quietly: bool,
    found: &mut Found<Y::Kept, Y::Item>,
    at: usize,
    bound: usize,
) -> Result<bool, Gap>
    requires search { IsSearch (Y.rules system.now) quietly at (map (Y.state_of system.now) found.old.kept.keys) found.old.origins.items }
    requires edges { AreEdges (Y.rules system.now) quietly at (map (Y.state_of system.now) found.old.kept.keys) found.old.edges.items [] }
    requires within { at < length found.old.kept.keys }
    requires bounded { length found.old.kept.keys ≤ bound }
    ensures some_edges { OnOk result (AreEdges (Y.rules system.now) quietly at (map (Y.state_of system.now) found.new.kept.keys) found.new.edges.items []) }
    ensures edges { IfOk result (λ all. IsTrue all → AreEdges (Y.rules system.now) quietly (at + 1) (map (Y.state_of system.now) found.new.kept.keys) found.new.edges.items []) }
    ensures longer { OnOk result (IsLonger (map (Y.state_of system.now) found.old.kept.keys) (map (Y.state_of system.now) found.new.kept.keys)) }
    ensures some { OnOk result (IsSearch (Y.rules system.now) quietly at (map (Y.state_of system.now) found.new.kept.keys) found.new.origins.items) }
    ensures bounded { IfOk result (λ all. IsTrue all → length found.new.kept.keys ≤ bound) }
    ensures full { IfOk result (λ all. all ≡ false → bound < length found.new.kept.keys) }
    ensures over { OnOk result (length found.new.kept.keys ≤ bound + 1) }
    ensures search { IfOk result (λ all. IsTrue all → IsSearch (Y.rules system.now) quietly (at + 1) (map (Y.state_of system.now) found.new.kept.keys) found.new.origins.items) }
    ensures followed { IfOk result (λ all. IsTrue all → IfSome (slice_get (map (Y.state_of system.now) found.old.kept.keys) at)
        (WasFollowed (Y.rules system.now) quietly (map (Y.state_of system.now) found.new.kept.keys))) }
{
    let schedule = way_to(alloc, system, found, at)?;
    let way = schedule.as_slice();
    let items = items_of(alloc, system, quietly, way)?;
    let next = items.as_slice();
    let all = follow_all(alloc, system, found, at, way, next, bound)?;
    Ok(all)
}

// Follows states until each was followed, or there are more than the bound.
fn search<Y: System>(
    alloc: Global,
    system: &Y,
    quietly: bool,
    bound: usize,
) -> Result<Found<Y::Kept, Y::Item>, Gap>
    requires { 0 < bound }
    ensures search { IfOk result (λ f. IsSearch (Y.rules system.now) quietly f.followed (map (Y.state_of system.now) f.kept.keys) f.origins.items) }
    ensures followed { IfOk result (λ f. IsTrue f.whole → All (WasFollowed (Y.rules system.now) quietly (map (Y.state_of system.now) f.kept.keys)) (map (Y.state_of system.now) f.kept.keys)) }
    ensures edges { IfOk result (λ f. AreEdges (Y.rules system.now) quietly f.followed (map (Y.state_of system.now) f.kept.keys) f.edges.items []) }
    ensures whole { IfOk result (λ f. IsTrue f.whole → f.followed ≡ length f.kept.keys) }
    ensures stopped { IfOk result (λ f. f.whole ≡ false → f.followed < length f.kept.keys) }
    ensures full { IfOk result (λ f. f.whole ≡ false → bound < length f.kept.keys) }
    ensures bounded { IfOk result (λ f. IsTrue f.whole → length f.kept.keys ≤ bound) }
    ensures over { IfOk result (λ f. length f.kept.keys ≤ bound + 1) }
    ensures quietly { IfOk result (λ f. f.quietly ≡ quietly) }
{
    let mut found = begin(alloc, system, quietly)?;
    let mut at = 0;
    while at < found.kept.len() {
        if !follow_at(alloc, system, quietly, &mut found, at, bound)? {
            found.quietly = quietly;
            found.followed = at;
            found.whole = false;
            return Ok(found);
        }
        at += 1;
    }
    found.quietly = quietly;
    found.followed = at;
    found.whole = true;
    Ok(found)
}

/// Searches all states to which a schedule leads, up to so many, those to which fewer items lead first.
///
/// # Errors
/// Out of memory, or a state can't be kept.
pub fn all_states<Y: System>(
    alloc: Global,
    system: &Y,
    bound: usize,
) -> Result<Found<Y::Kept, Y::Item>, Gap>
    requires { 0 < bound }
    ensures search { IfOk result (λ f. IsSearch (Y.rules system.now) f.quietly f.followed (map (Y.state_of system.now) f.kept.keys) f.origins.items) }
    ensures edges { IfOk result (λ f. AreEdges (Y.rules system.now) f.quietly f.followed (map (Y.state_of system.now) f.kept.keys) f.edges.items []) }
    ensures any { IfOk result (λ f. f.quietly ≡ false) }
    ensures whole { IfOk result (λ f. IsTrue f.whole → f.followed ≡ length f.kept.keys) }
    ensures stopped { IfOk result (λ f. f.whole ≡ false → f.followed < length f.kept.keys) }
    ensures full { IfOk result (λ f. f.whole ≡ false → bound < length f.kept.keys) }
    ensures bounded { IfOk result (λ f. IsTrue f.whole → length f.kept.keys ≤ bound) }
    ensures over { IfOk result (λ f. length f.kept.keys ≤ bound + 1) }
    ensures all { IfOk result (λ f. IsTrue f.whole → (s : Y.State) → IsReached (Y.rules system.now) s → Contains (map (Y.state_of system.now) f.kept.keys) s) }
{
    search(alloc, system, false, bound)
}

/// Searches all states at which a schedule ends, up to so many states. Where a turn is quiet, it is followed alone.
///
/// # Errors
/// Out of memory, or a state can't be kept.
pub fn all_ends<Y: System>(
    alloc: Global,
    system: &Y,
    bound: usize,
) -> Result<Found<Y::Kept, Y::Item>, Gap>
    requires { 0 < bound }
    ensures search { IfOk result (λ f. IsSearch (Y.rules system.now) f.quietly f.followed (map (Y.state_of system.now) f.kept.keys) f.origins.items) }
    ensures whole { IfOk result (λ f. IsTrue f.whole → f.followed ≡ length f.kept.keys) }
    ensures stopped { IfOk result (λ f. f.whole ≡ false → f.followed < length f.kept.keys) }
    ensures full { IfOk result (λ f. f.whole ≡ false → bound < length f.kept.keys) }
    ensures bounded { IfOk result (λ f. IsTrue f.whole → length f.kept.keys ≤ bound) }
    ensures over { IfOk result (λ f. length f.kept.keys ≤ bound + 1) }
    ensures ends { IfOk result (λ f. IsTrue f.whole → (s : Y.State) → IsReached (Y.rules system.now) s → IsTerminal (Y.rules system.now) s → Contains (map (Y.state_of system.now) f.kept.keys) s) }
{
    search(alloc, system, true, bound)
}

/// A schedule that leads to the state at this place. What fewer items lead to stands before it (of a search of ends: if a schedule ends
/// there); so if the state does not stand before, no schedule that leads to it has fewer items.
///
/// # Errors
/// Out of memory.
pub fn schedule_to<Y: System>(
    alloc: Global,
    _system: &Y,
    found: &Found<Y::Kept, Y::Item>,
    place: usize,
) -> Result<Vec<Y::Item>, Gap>
    requires search { IsSearch (Y.rules _system.now) found.now.quietly found.now.followed (map (Y.state_of _system.now) found.now.kept.keys) found.now.origins.items }
    requires within { place < length found.now.kept.keys }
    ensures leads { IfOk result (λ items. run (Y.rules _system.now) (Y.rules _system.now).start items.items ≡ slice_get (map (Y.state_of _system.now) found.now.kept.keys) place) }
    ensures fewest { IfOk result (λ items. AreFewest (Y.rules _system.now) found.now.quietly (map (Y.state_of _system.now) found.now.kept.keys) place items.items) }
{
    way_to(alloc, _system, found, place)
}

/// How far a search came that stopped at its bound: each state that it seeks, and to which a schedule of at most so many items leads, was
/// found, and if they are fewer items it was followed.
pub fn reach<Y: System>(_system: &Y, found: &Found<Y::Kept, Y::Item>) -> usize
    requires search { IsSearch (Y.rules _system.now) found.now.quietly found.now.followed (map (Y.state_of _system.now) found.now.kept.keys) found.now.origins.items }
    requires stopped { found.now.followed < length found.now.kept.keys }
    ensures depth { (d : ℕ → ℕ) → Depths found.now.origins.items d → result ≡ d found.now.followed }
    ensures near { (k : ℕ) (s : Y.State) → slice_get (map (Y.state_of _system.now) found.now.kept.keys) k ≡ Some s
        → (items : List Y.Item) × (run (Y.rules _system.now) (Y.rules _system.now).start items ≡ Some s) × (length items ≤ result + 1) }
    ensures found { (items : List Y.Item) (s : Y.State) → IsSought (Y.rules _system.now) found.now.quietly items s → length items ≤ result → Contains (map (Y.state_of _system.now) found.now.kept.keys) s }
    ensures followed { (items : List Y.Item) (s : Y.State) → IsSought (Y.rules _system.now) found.now.quietly items s → length items < result
        → IsFoundBefore (map (Y.state_of _system.now) found.now.kept.keys) found.now.followed s }
{
    let mut count = 0;
    let mut at = found.followed;
    while at > 0 {
        let (parent, _) = found.origins[at - 1];
        count += 1;
        at = parent;
    }
    count
}

// Whether nothing can be taken at the state at this place.
fn is_end<Y: System>(
    alloc: Global,
    system: &Y,
    found: &Found<Y::Kept, Y::Item>,
    place: usize,
) -> Result<bool, Gap>
    requires trail { IsTrail (Y.rules system.now) (map (Y.state_of system.now) found.now.kept.keys) found.now.origins.items }
    requires within { place < length found.now.kept.keys }
    ensures yes { IfOk result (λ end. IsTrue end → IfSome (slice_get (map (Y.state_of system.now) found.now.kept.keys) place) (IsTerminal (Y.rules system.now))) }
    ensures no { IfOk result (λ end. end ≡ false → IfSome (slice_get (map (Y.state_of system.now) found.now.kept.keys) place) (λ s. IsTerminal (Y.rules system.now) s → ⊥)) }
{
    let schedule = way_to(alloc, system, found, place)?;
    let way = schedule.as_slice();
    let items = system.allowed(alloc, way)?;
    Ok(items.is_empty())
}

/// The places of the states at which a schedule ends.
///
/// # Errors
/// Out of memory, or a state can't be kept.
pub fn ends_of<Y: System>(
    alloc: Global,
    system: &Y,
    found: &Found<Y::Kept, Y::Item>,
) -> Result<Vec<usize>, Gap>
    requires { IsSearch (Y.rules system.now) found.now.quietly found.now.followed (map (Y.state_of system.now) found.now.kept.keys) found.now.origins.items }
    ensures within { IfOk result (λ ends. All (λ k. k < length found.now.kept.keys) ends.items) }
    ensures each { IfOk result (λ ends. All (λ k. IfSome (slice_get (map (Y.state_of system.now) found.now.kept.keys) k) (IsTerminal (Y.rules system.now))) ends.items) }
    ensures all { IfOk result (λ ends. (k : ℕ) → IfSome (slice_get (map (Y.state_of system.now) found.now.kept.keys) k) (λ s. IsTerminal (Y.rules system.now) s → Contains ends.items k)) }
{
    let mut ends = Vec::new(alloc);
    for k in 0..found.kept.len() {
        if is_end(alloc, system, found, k)? {
            ends.push(k)?;
        }
    }
    Ok(ends)
}
