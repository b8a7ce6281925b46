//! Runs in classes of those that ended alike.

ghost use Rattle.std.specs.{Prelude.{◌≡◌, ◌<◌, ◌+◌, ◌^◌, ◌++◌, ◌∷◌, ◌==◌, false, [], OnOk, OnErr, Some, map, length, slice_get}, List.{All, list_any}};
ghost use Rattle.cml_facts.specs.Details.{alike};
ghost use Rattle.cml_explore.specs.{ClassViews.{plain_class}, Merges.{runs_of, class_joined, classes_merged}};
ghost use Rattle.cml_explore.specs.Classes as spec;

use crate::summary::Summary;
use cml_facts::fault::Detail;
use cml_hub::Item;
use indexmap::IndexSet;
use std::alloc::{AllocError, Global};
use std::marker::Model;

/// A class: the details that its runs share, and what is kept of them.
#[derive(Clone, Copy)]
pub struct Class<'a> {
    /// How they ended.
    pub details: &'a [Detail],
    /// What is kept of them.
    pub summary: &'a Summary,
}

/// Runs in classes of those that ended alike. What it takes of memory grows with the classes and the different outputs alone.
pub struct Classes {
    details: IndexSet<Vec<Detail>>,
    summaries: Vec<Summary>,
}

impl Model for Classes {
    ghost use Rattle.std.specs.Prelude.{◌≡◌, List, map, length};
    ghost use Rattle.cml_explore.specs.Classes.{PlainClass, with_details};

    ghost Value = { List PlainClass };

    ghost view = { λ c. with_details (map (λ d. d.items) c.details.keys) c.summaries.items };

    ghost invariant = { λ c. length c.details.keys ≡ length c.summaries.items };
}

// Written out, so that how the parts are dropped is proved once, and whoever drops classes calls this.
impl Drop for Classes {
    fn drop(self) {
        let Classes { details, summaries } = self;
        drop(details);
        drop(summaries);
    }
}

// A class more, of these details, which none has.
fn push_class(
    known: &mut IndexSet<Vec<Detail>>,
    summaries: &mut Vec<Summary>,
    details: Vec<Detail>,
    summary: Summary,
) -> Result<(), AllocError>
    requires { list_any (λ d. alike details.items d.items) known.old.keys ≡ false }
    ensures known { OnOk result (map (λ d. d.items) known.new.keys ≡ map (λ d. d.items) known.old.keys ++ details.items ∷ []) }
    ensures summaries { OnOk result (summaries.new.items ≡ summaries.old.items ++ summary ∷ []) }
    ensures err { OnErr result ((known.new.keys ≡ known.old.keys) × (summaries.new.items ≡ summaries.old.items)) }
{
    summaries.reserve(1)?;
    known.insert(details)?;
    summaries.push_reserved(summary);
    Ok(())
}

// A class more, of a run by this seed that ended so, as none did before.
#[inline(never)]
fn begin_class(
    alloc: Global,
    known: &mut IndexSet<Vec<Detail>>,
    summaries: &mut Vec<Summary>,
    seed: u64,
    details: Vec<Detail>,
    digest: [u8; 32],
    items: &[Item],
) -> Result<(), AllocError>
    requires { list_any (λ d. alike details.items d.items) known.old.keys ≡ false }
    ensures known { OnOk result (map (λ d. d.items) known.new.keys ≡ map (λ d. d.items) known.old.keys ++ details.items ∷ []) }
    ensures summaries { OnOk result (summaries.new.items ≡ summaries.old.items
        ++ spec.first_run seed (record { details = details.items; digest = digest; items = items.now }) ∷ []) }
    ensures err { OnErr result ((known.new.keys ≡ known.old.keys) × (summaries.new.items ≡ summaries.old.items)) }
{
    let summary = Summary::new(alloc, seed, digest, items)?;
    push_class(known, summaries, details, summary)
}

impl Classes {
    /// No runs.
    pub fn new(alloc: Global) -> Classes
        ensures { result ≡ [] }
    {
        Classes {
            details: IndexSet::new(alloc),
            summaries: Vec::new(alloc),
        }
    }

    /// How many classes there are.
    pub fn len(&self) -> usize
        ensures { result ≡ length self.now }
    {
        self.summaries.len()
    }

    /// Whether there is none.
    pub fn is_empty(&self) -> bool
        ensures { result ≡ (length self.now == 0) }
    {
        self.summaries.is_empty()
    }

    /// The class of this number; they are numbered from 0 in the order of their first seeds.
    pub fn class(&self, number: usize) -> Class<'_>
        requires { number < length self.now }
        ensures { slice_get self.now number ≡ Some (plain_class result) }
    {
        match self.details.get_index(number) {
            Some(details) => Class {
                details: details.as_slice(),
                summary: &self.summaries[number],
            },
            None => unreachable!(),
        }
    }

    // A class of a later part.
    //
    // On `Err` nothing is known of the classes: the caller lets them go.
    fn absorb_class(&mut self, alloc: Global, class: Class<'_>) -> Result<(), AllocError>
        requires { All (λ c. c.summary.runs + class.summary.now.runs < 2 ^ 64) self.old }
        ensures { OnOk result (self.new ≡ class_joined self.old (plain_class class.entry)) }
    {
        let details = Vec::from_slice(alloc, class.details)?;
        match self.details.get_index_of(&details) {
            Some(known) => self.summaries[known].absorb(class.summary),
            None => {
                let summary = class.summary.copy(alloc)?;
                push_class(&mut self.details, &mut self.summaries, details, summary)
            }
        }
    }

    // The classes of a later part.
    //
    // On `Err` nothing is known of the classes: the caller lets them go.
    pub(crate) fn absorb(&mut self, alloc: Global, later: &Classes) -> Result<(), AllocError>
        requires { runs_of self.old + runs_of later.now < 2 ^ 64 }
        ensures { OnOk result (self.new ≡ classes_merged self.old later.now) }
    {
        for number in 0..later.len() {
            self.absorb_class(alloc, later.class(number))?;
        }
        Ok(())
    }

    // One run more, by this seed, that ended so.
    pub(crate) fn count(
        &mut self,
        alloc: Global,
        seed: u64,
        details: Vec<Detail>,
        digest: [u8; 32],
        items: &[Item],
    ) -> Result<(), AllocError>
        requires { All (λ c. c.summary.runs < u64.MAX) self.old }
        ensures ok { OnOk result (self.new ≡ spec.classed seed (record { details = details.items; digest = digest; items = items.now }) self.old) }
        ensures err { OnErr result (self.new ≡ self.old) }
    {
        match self.details.get_index_of(&details) {
            Some(class) => self.summaries[class].join(digest, items),
            None => begin_class(
                alloc,
                &mut self.details,
                &mut self.summaries,
                seed,
                details,
                digest,
                items,
            ),
        }
    }
}
