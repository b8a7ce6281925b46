//! Rows, one below the other.

ghost use Rattle.std.specs.{Prelude.{◌≡◌, ◌≤◌, ◌++◌, IfErr, IfOk, OnErr, OnOk}, Option.{option_to_list}};
ghost use Rattle.cml_picture.specs.Views.{plain_stack};
ghost use Rattle.cml_picture.specs.Stacks as spec;

use super::feed::{Fed, fed_by};
use super::sign::{Sign, signs_of};
use super::stack::Stack;
use crate::fault::DrawFault;
use crate::layout::{Shape, row_height};
use cml_facts::narrative::Happened;
use cml_hub::Hub;
use std::alloc::{AllocError, Global};

// How many rows a picture has at most.
const ROW_LIMIT: u32 = 2_000;

// How far down the rows of a picture go at most.
const HEIGHT_LIMIT: u32 = 1_000_000_000;

// How many rows a mark of this shape counts.
fn counted_rows(shape: Shape) -> u32
    ensures counted { result ≡ spec.counted_rows shape }
    ensures one { result ≤ 1 }
{
    match shape {
        Shape::Print | Shape::Nack => 0,
        _ => 1,
    }
}

// How far down these rows go below others, and how many rows are counted then.
fn grown(bottom: u32, count: u32, signs: &[Sign]) -> Result<(u32, u32), DrawFault>
    requires low { bottom ≤ 1000000000 }
    requires few { count ≤ 2000 }
    ensures bottom { IfOk result (λ e. e.0 ≡ spec.bottom_below bottom signs.now) }
    ensures count { IfOk result (λ e. e.1 ≡ spec.count_with count signs.now) }
    ensures low { IfOk result (λ e. e.0 ≤ 1000000000) }
    ensures few { IfOk result (λ e. e.1 ≤ 2000) }
    ensures refused { IfErr result (λ why. spec.RefusesRows (spec.bottom_below bottom signs.now) (spec.count_with count signs.now) why) }
{
    let mut below = bottom;
    let mut counted = count;
    for sign in signs {
        below += row_height(sign.shape);
        counted += counted_rows(sign.shape);
        if counted > ROW_LIMIT || below > HEIGHT_LIMIT {
            return Err(DrawFault::TooMany);
        }
    }
    Ok((below, counted))
}

// Adds what an item did, if it shows anything.
#[tactic(auto, using(crate::proofs::StackLemmas::listed_none, crate::proofs::StackLemmas::listed_some))]
fn list_shown(all: &mut Vec<Happened>, happened: Happened, signs: &[Sign]) -> Result<(), AllocError>
    ensures added { OnOk result (all.new.items ≡ all.old.items ++ spec.listed happened signs.now) }
    ensures kept { OnErr result (all.new.items ≡ all.old.items) }
{
    match signs {
        [] => Ok(()),
        [_, ..] => Ok(all.push(happened)?),
    }
}

// Adds what an item took that another one had fed, if it did.
fn list_fed(all: &mut Vec<Fed>, fed: Option<Fed>) -> Result<(), AllocError>
    ensures { OnOk result (all.new.items ≡ all.old.items ++ option_to_list fed) }
{
    match fed {
        Some(fed) => Ok(all.push(fed)?),
        None => Ok(()),
    }
}

impl Stack {
    /// No rows.
    pub(crate) fn new(alloc: Global) -> Stack
        ensures { plain_stack result ≡ spec.no_rows }
    {
        Stack {
            shown: Vec::new(alloc),
            fed: Vec::new(alloc),
            bottom: 40,
            rows: 0,
        }
    }

    /// Adds what an item did; the hub stands behind it.
    ///
    /// # Errors
    /// There would be too many rows, or they would go too far down; or out of memory.
    #[tactic(auto, using(crate::proofs::StackLemmas::bottom_more), unfolding(crate::specs::Stacks::with_happened))]
    pub(crate) fn add(
        &mut self,
        alloc: Global,
        hub: &Hub,
        happened: Happened,
    ) -> Result<(), DrawFault>
        ensures added { OnOk result (plain_stack self.new
            ≡ spec.with_happened hub.now.course.world (plain_stack self.old) happened) }
        ensures refused { IfErr result (λ why. spec.RefusesShown (spec.with_happened hub.now.course.world (plain_stack self.old) happened) why) }
    {
        let signs = signs_of(alloc, &happened.deed)?;
        let fed = fed_by(alloc, hub, self.shown.as_slice(), &happened)?;
        let (bottom, rows) = grown(self.bottom, self.rows, signs.as_slice())?;
        list_fed(&mut self.fed, fed)?;
        list_shown(&mut self.shown, happened, signs.as_slice())?;
        self.bottom = bottom;
        self.rows = rows;
        Ok(())
    }
}
