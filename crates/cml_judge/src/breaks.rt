//! Where a run breaks what is wanted.

ghost use Rattle.std.specs.Prelude.{◌≡◌, ◌++◌, ◌∷◌, [], ℕ, Option, List, IfOk, OnOk};
ghost use Rattle.cml_judge.specs.Spots.{AreBreaksFrom, IsBreak};
ghost use Rattle.cml_judge.specs.declared.breaks.Break.{Break};

use crate::spot::{Spot, spot_of};
use cml_hub::Hub;
use std::alloc::{AllocError, Global};

/// That a run breaks a property.
#[derive(Clone, Copy, PartialEq, Eq)]
pub struct Break {
    /// The number of the property among those that are wanted, from 0.
    pub property: usize,
    /// The line at which it breaks, from 0; at the end of the run, as many as it has lines.
    pub line: usize,
    /// Where that line was printed; nowhere, at the end of the run.
    pub spot: Option<Spot>,
}

// That the property of this number breaks at this line.
fn break_of(alloc: Global, hub: &Hub, property: usize, line: usize) -> Result<Break, AllocError>
    ensures { IfOk result (IsBreak hub.now property line) }
{
    let spot = spot_of(alloc, hub, line)?;
    Ok(Break {
        property,
        line,
        spot,
    })
}

// Appends that the property of this number breaks, if it does.
fn push_break(
    alloc: Global,
    hub: &Hub,
    told: &mut Vec<Break>,
    property: usize,
    line: Option<usize>,
) -> Result<(), AllocError>
    ensures { OnOk result ((more : List Break) × AreBreaksFrom hub.now property (line ∷ []) more × (told.new.items ≡ told.old.items ++ more)) }
{
    match line {
        Some(line) => {
            let one = break_of(alloc, hub, property, line)?;
            told.push(one)?;
            Ok(())
        }
        None => Ok(()),
    }
}

/// Of each property that the run of the hub breaks, as it was judged, where it does.
///
/// # Errors
/// Out of memory.
pub fn breaks_of(
    alloc: Global,
    hub: &Hub,
    judged: &[Option<usize>],
) -> Result<Vec<Break>, AllocError>
    ensures { IfOk result (λ told. AreBreaksFrom hub.now 0 judged.now told.items) }
{
    let mut told = Vec::new(alloc);
    for (property, line) in judged.iter().enumerate() {
        push_break(alloc, hub, &mut told, property, *line)?;
    }
    Ok(told)
}
