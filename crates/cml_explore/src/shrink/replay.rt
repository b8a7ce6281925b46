//! One try: a schedule is replayed, to see how it ends.

ghost use Rattle.std.specs.Prelude.{◌≡◌, true, IfOk, MatchResult, None};
ghost use Rattle.cml_hub.specs.Kept.{IsBudget, IsReplayed};
ghost use Rattle.cml_explore.specs.ShrinkEnds.{EndsWith, IsGiven, IsNotGiven, IsRefused, HubEndsWith, IsWhy, IsLikeTheGiven};
ghost use Rattle.cml_explore.specs.ShrinkEnds as spec;

use crate::shrink::fault::ShrinkFault;
use cml_check::Prog;
use cml_facts::fault::Detail;
use cml_hub::{Hub, Item, ReplayFault};
use cml_judge::{goal_details, stop_of};
use cml_properties::Property;
use std::alloc::{AllocError, Global};

/// What a schedule is asked for.
#[derive(Clone, Copy)]
pub struct Asked<'a> {
    /// How much of the budget a run may use.
    pub budget: u64,
    /// How many others may be tried.
    pub tries: u64,
    /// What must hold of a run: the shorter schedule breaks of it what the given one does.
    pub properties: &'a [Property],
    /// Whether it is to end where the run breaks something of it, or a thread ends at a fault.
    pub stops: bool,
}

/// What a schedule is held against: the program, what is asked for, and the details of how the given schedule ends.
#[derive(Clone, Copy)]
pub(crate) struct Goal<'a> {
    /// The program.
    pub(crate) program: &'a Prog,
    /// What is asked for.
    pub(crate) asked: Asked<'a>,
    /// How the given schedule ends.
    pub(crate) details: &'a [Detail],
}

// The hub is used no more.
#[inline(never)]
fn let_go(hub: Hub) {
    drop(hub);
}

// The details of how the run of a hub ended, which is used no more.
fn last_details(alloc: Global, asked: &Asked<'_>, hub: Hub) -> Result<Vec<Detail>, AllocError>
    ensures { IfOk result (λ details. HubEndsWith asked.now hub details.items) }
{
    // No effect: named here so that the prover knows what holds of it.
    let _so_far = hub.schedule();
    let details = goal_details(alloc, asked.properties, asked.stops, &hub);
    let_go(hub);
    details
}

// Why the schedule was not replayed. The program is used no more.
#[inline(never)]
fn fault_of(why: ReplayFault) -> ShrinkFault
    ensures { IsWhy why result }
{
    match why {
        ReplayFault::BadItem(number, _) => ShrinkFault::BadItem(number),
        ReplayFault::Memory(_) => ShrinkFault::Memory,
    }
}

/// The details of how these items end.
///
/// # Errors
/// The first item that is not allowed where it stands, by its number, counted from 1; or out of memory.
pub(crate) fn end_details(
    alloc: Global,
    program: &Prog,
    asked: &Asked<'_>,
    items: &[Item],
) -> Result<Vec<Detail>, ShrinkFault>
    requires { IsBudget asked.now.budget }
    ensures { MatchResult result (λ details. EndsWith program.now asked.now items.now details.items) (λ why. IsRefused program.now items.now why) }
{
    let hub = followed(alloc, program, asked, items)?;
    Ok(last_details(alloc, asked, hub)?)
}

// A hub that has gone through these items.
fn followed(
    alloc: Global,
    program: &Prog,
    asked: &Asked<'_>,
    items: &[Item],
) -> Result<Hub, ShrinkFault>
    requires { IsBudget asked.now.budget }
    ensures { MatchResult result (IsReplayed program.now asked.now.budget None items.now) (λ why. IsRefused program.now items.now why) }
{
    let copy = program.copy()?;
    match Hub::replay(alloc, copy, asked.budget, None, items) {
        Ok(hub) => Ok(hub),
        Err(why) => Err(fault_of(why)),
    }
}

/// How many of these items are to be made shorter: those up to where the run stops, where it is to stop; or all.
///
/// # Errors
/// The first item that is not allowed where it stands; that the run is to stop, and does not; or out of memory.
pub(crate) fn count_given(
    alloc: Global,
    program: &Prog,
    asked: &Asked<'_>,
    items: &[Item],
) -> Result<usize, ShrinkFault>
    requires { IsBudget asked.now.budget }
    ensures { MatchResult result (IsGiven program.now asked.now items.now) (λ why. IsNotGiven program.now asked.now items.now why) }
{
    if asked.stops {
        count_stopped(alloc, program, asked, items)
    } else {
        Ok(items.len())
    }
}

// The same where the run is to stop.
fn count_stopped(
    alloc: Global,
    program: &Prog,
    asked: &Asked<'_>,
    items: &[Item],
) -> Result<usize, ShrinkFault>
    requires budget { IsBudget asked.now.budget }
    requires stops { asked.now.stops ≡ true }
    ensures { MatchResult result (IsGiven program.now asked.now items.now) (λ why. IsNotGiven program.now asked.now items.now why) }
{
    match followed(alloc, program, asked, items) {
        Ok(hub) => {
            let stops = stop_of(alloc, asked.properties, &hub);
            let_go(hub);
            given_by(stops)
        }
        Err(why) => Err(why),
    }
}

// How many items there are where a run stops so, or that it does not.
fn given_by(stops: Result<Option<usize>, AllocError>) -> Result<usize, ShrinkFault>
    ensures { result ≡ spec.given_by stops }
{
    match stops {
        Ok(Some(count)) => Ok(count),
        Ok(None) => Err(ShrinkFault::NoBreak),
        Err(AllocError) => Err(ShrinkFault::Memory),
    }
}

/// Whether these items can be followed from the start, and end alike.
///
/// # Errors
/// Out of memory.
pub(crate) fn ends_alike(alloc: Global, goal: &Goal<'_>, items: &[Item]) -> Result<bool, AllocError>
    requires { IsBudget goal.now.asked.budget }
    ensures { IfOk result (λ alike. IsLikeTheGiven goal.now.program.now goal.now.asked goal.now.details.now items.now alike) }
{
    match end_details(alloc, goal.program, &goal.asked, items) {
        Ok(details) => Ok(details.as_slice() == goal.details),
        Err(ShrinkFault::BadItem(_)) => Ok(false),
        Err(ShrinkFault::NoBreak) => Ok(false),
        Err(ShrinkFault::Memory) => Err(AllocError),
    }
}
