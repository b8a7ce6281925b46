//! Whether the run of a hub keeps what is wanted.

ghost use Rattle.std.specs.Prelude.{◌≡◌, IfOk};
ghost use Rattle.cml_judge.specs.Judgements as spec;

use crate::finish::finish_of;
use cml_hub::Hub;
use cml_properties::{Property, Run, judge};
use std::alloc::{AllocError, Global};

/// What must hold of runs.
#[derive(Clone, Copy)]
pub struct Wanted<'a> {
    /// The properties.
    pub properties: &'a [Property],
    /// What the run printed like which all others must print, where a property asks that.
    pub first: &'a [u8],
}

/// Of each property that is wanted, in their order, the line at which the run of the hub breaks it, if it does, counted from 0; at its end, as
/// many as it has lines. Where none is wanted, this takes no memory.
///
/// # Errors
/// Out of memory.
pub fn judge_hub(
    alloc: Global,
    wanted: &Wanted<'_>,
    hub: &Hub,
) -> Result<Vec<Option<usize>>, AllocError>
    ensures { IfOk result (λ judged. spec.IsJudgedAt wanted.now hub.now judged.items) }
{
    let run = Run {
        output: hub.out().as_bytes(),
        finish: finish_of(hub),
    };
    judge(alloc, wanted.properties, wanted.first, &run)
}

/// The same of one run, which is compared with none but itself.
///
/// # Errors
/// Out of memory.
pub fn judge_alone(
    alloc: Global,
    properties: &[Property],
    hub: &Hub,
) -> Result<Vec<Option<usize>>, AllocError>
    ensures { IfOk result (λ judged. spec.IsJudgedAlone properties.now hub.now judged.items) }
{
    let wanted = Wanted {
        properties,
        first: hub.out().as_bytes(),
    };
    judge_hub(alloc, &wanted, hub)
}

/// Whether no property is broken.
pub fn are_all_kept(judged: &[Option<usize>]) -> bool
    ensures { result ≡ spec.are_all_kept judged.now }
{
    judged.iter().all(|line| line.is_none())
}
