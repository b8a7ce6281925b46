//! The faults of a run, as its schedule comes to them.

ghost use Rattle.std.specs.Prelude.{◌≡◌, ◌++◌, ◌∷◌, [], true, IfOk, OnOk};
ghost use Rattle.cml_step.specs.Calls.{text_of};
ghost use Rattle.cml_hub.specs.{Kept.{NoneOut}, Runs.{is_allowed}};
ghost use Rattle.cml_facts.specs.Again.{RunsAgain, AddsAlone};
ghost use Rattle.cml_facts.specs.{Failures.{first_failures}, Faulted.{FaultedSo}, ThreadFaults.{AreThreadFaults}, FaultViews.{plain_places, plain_sources}};

use crate::ending::{begin_again, come, let_go};
use crate::fault::fact::{Sources, ThreadFault, next_fault};
use crate::fault::failed::failed_by;
use cml_hub::{Hub, Item};
use cml_phrase::Place;
use cml_text::Sexpr;
use std::alloc::{AllocError, Global};

// How many faults are told.
const FAULT_LIMIT: usize = 20;

/// The threads of a run that ended at faults.
#[derive(Drop)]
pub struct Faults {
    /// The first 20, in the order in which they did.
    pub first: Vec<ThreadFault>,
    /// How many more did.
    pub others: usize,
}

// The item comes, which is allowed now. Where a thread ends at a fault by it, that is kept, unless enough of them are.
fn follow_item(
    first: &mut Vec<ThreadFault>,
    sources: &Sources<'_>,
    second: &mut Hub,
    item: Item,
) -> Result<(), AllocError>
    requires out { NoneOut second.old }
    requires program { second.old.course.program ≡ sources.now.hub.now.course.program }
    requires allowed { is_allowed second.old.course.world item ≡ true }
    ensures came { OnOk result (AddsAlone second.old item second.new) }
    ensures told { let k = plain_sources sources.now in let p = second.old.course.program in let items = second.old.course.items in
        OnOk result (AreThreadFaults k p (first_failures (text_of p) items) first.old.items
        → AreThreadFaults k p (first_failures (text_of p) (items ++ item ∷ [])) first.new.items) }
{
    // No effect: named here so that the prover knows what holds of it.
    let _so_far = second.schedule();
    let before = second.faults();
    if before >= FAULT_LIMIT {
        return come(sources.alloc, second, item);
    }
    let failed = failed_by(sources.alloc, second, item)?;
    match failed {
        Some(machine) => {
            first.push(next_fault(sources, &machine)?)?;
            Ok(())
        }
        None => Ok(()),
    }
}

// The schedule is gone through once more by a hub at its beginning, and the first threads that ended at faults are kept.
fn follow_all(
    first: &mut Vec<ThreadFault>,
    sources: &Sources<'_>,
    second: &mut Hub,
) -> Result<(), AllocError>
    requires begun { RunsAgain sources.now.hub.now second.old 0 }
    requires empty { first.old.items ≡ [] }
    ensures { let c = sources.now.hub.now.course in
        OnOk result (AreThreadFaults (plain_sources sources.now) c.program (first_failures (text_of c.program) c.items) first.new.items) }
{
    let items = sources.hub.schedule();
    for i in 0..items.len() {
        let item = items[i];
        // No effect: named here so that the prover knows what holds of it.
        let _so_far = second.schedule();
        follow_item(first, sources, second, item)?;
    }
    Ok(())
}

// The first threads that ended at faults, for which the schedule is gone through once more.
fn first_faults(sources: &Sources<'_>) -> Result<Vec<ThreadFault>, AllocError>
    ensures { let c = sources.now.hub.now.course in
        IfOk result (λ first. AreThreadFaults (plain_sources sources.now) c.program (first_failures (text_of c.program) c.items) first.items) }
{
    let mut second = begin_again(sources.alloc, sources.hub)?;
    let mut first = Vec::new(sources.alloc);
    let done = follow_all(&mut first, sources, &mut second);
    let_go(second);
    done?;
    Ok(first)
}

/// Where and why threads of a run ended at faults: the first 20, in the order in which they did, and how many more did. The script has these forms,
/// and the statements of each function begin at these places.
///
/// # Errors
/// Out of memory.
pub fn faults_of(
    alloc: Global,
    forms: &[Sexpr],
    places: &[Vec<Place>],
    hub: &Hub,
) -> Result<Faults, AllocError>
    ensures { IfOk result (λ faults. FaultedSo forms.now (plain_places places.now) hub.now.course faults) }
{
    let count = hub.faults();
    if count == 0 {
        return Ok(Faults {
            first: Vec::new(alloc),
            others: 0,
        });
    }
    let sources = Sources {
        alloc,
        forms,
        places,
        hub,
    };
    Ok(Faults {
        first: first_faults(&sources)?,
        others: count.saturating_sub(FAULT_LIMIT),
    })
}
