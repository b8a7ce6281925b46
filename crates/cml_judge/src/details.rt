//! The details by which two runs ended alike, with the properties that they break.

ghost use Rattle.std.specs.Prelude.{◌≡◌, ◌++◌, ◌∷◌, [], IfOk, List, MatchBool, OnOk};
ghost use Rattle.cml_facts.specs.Details.{AreDetails, AreFallenDetails};
ghost use Rattle.cml_facts.specs.declared.fault.detail.Detail.{Detail};
ghost use Rattle.cml_judge.specs.Judgements as spec;

use crate::judged::judge_alone;
use cml_facts::fault::{Detail, details_of, fallen_details_of};
use cml_hub::Hub;
use cml_properties::Property;
use std::alloc::{AllocError, Global};

// Appends that the property of this number is broken, if it is.
fn push_break(
    details: &mut Vec<Detail>,
    number: usize,
    line: Option<usize>,
) -> Result<(), AllocError>
    ensures { OnOk result (details.new.items ≡ details.old.items ++ spec.break_details number (line ∷ [])) }
{
    match line {
        Some(_) => Ok(details.push(Detail::Breaks(number))?),
        None => Ok(()),
    }
}

// Appends which properties are broken.
fn push_breaks(details: &mut Vec<Detail>, judged: &[Option<usize>]) -> Result<(), AllocError>
    ensures { OnOk result (details.new.items ≡ details.old.items ++ spec.break_details 0 judged.now) }
{
    for (number, line) in judged.iter().enumerate() {
        push_break(details, number, *line)?;
    }
    Ok(())
}

/// The details of how the run of a hub ended, behind which stand the properties that it breaks, as they were judged.
///
/// # Errors
/// Out of memory.
pub fn details_with(
    alloc: Global,
    hub: &Hub,
    judged: &[Option<usize>],
) -> Result<Vec<Detail>, AllocError>
    ensures { IfOk result (λ details. (own : List Detail) × AreDetails hub.now own × (details.items ≡ own ++ spec.break_details 0 judged.now)) }
{
    let mut details = details_of(alloc, hub)?;
    push_breaks(&mut details, judged)?;
    Ok(details)
}

// The details of how the run of a hub ended; or, where it is to stop, of its threads that ended at faults alone.
fn own_details(alloc: Global, hub: &Hub, stops: bool) -> Result<Vec<Detail>, AllocError>
    ensures { IfOk result (λ details. MatchBool stops (AreFallenDetails hub.now details.items) (AreDetails hub.now details.items)) }
{
    if stops {
        fallen_details_of(alloc, hub)
    } else {
        details_of(alloc, hub)
    }
}

/// The details by which the runs of two schedules are held against one another: how each ended, and which properties it breaks; or, where they are
/// to stop, which threads ended at faults and how, and which properties are broken.
///
/// # Errors
/// Out of memory.
pub fn goal_details(
    alloc: Global,
    properties: &[Property],
    stops: bool,
    hub: &Hub,
) -> Result<Vec<Detail>, AllocError>
    ensures { IfOk result (λ details. MatchBool stops
        (spec.AreStopDetails properties.now hub.now details.items) (spec.AreEndDetails properties.now hub.now details.items)) }
{
    let mut details = own_details(alloc, hub, stops)?;
    let judged = judge_alone(alloc, properties, hub)?;
    push_breaks(&mut details, judged.as_slice())?;
    Ok(details)
}
