//! What is kept of runs that ended alike.

ghost use Rattle.std.specs.{Prelude.{◌≡◌, ◌<◌, ◌+◌, ◌^◌, ℕ, List, IfOk, OnOk, OnErr, length}, List.{fold}};
ghost use Rattle.cml_facts.specs.declared.fault.detail.Detail.{Detail};
ghost use Rattle.cml_explore.specs.{Classes.{Finish}, Merges.{both_summaries, summary_alone}};
ghost use Rattle.cml_explore.specs.Classes as spec;

use cml_hub::Item;
use indexmap::IndexSet;
use std::alloc::{AllocError, Global};
use std::marker::Model;

/// The digest of an output.
pub type Digest = [u8; 32];

/// What is kept of runs that ended alike.
pub struct Summary {
    runs: u64,
    first: u64,
    items: usize,
    outputs: IndexSet<[u8; 32]>,
    shortest: Vec<Item>,
}

impl Model for Summary {
    ghost use Rattle.cml_explore.specs.Classes.{PlainSummary};

    ghost Value = { PlainSummary };

    ghost view = { λ t. record {
      runs = t.runs;
      first = t.first;
      items = t.items;
      outputs = t.outputs.keys;
      shortest = t.shortest.items;
    } };
}

// Written out, so that how the parts are dropped is proved once, and whoever drops a summary calls this.
impl Drop for Summary {
    fn drop(self) {
        let Summary {
            runs: _,
            first: _,
            items: _,
            outputs,
            shortest,
        } = self;
        drop(outputs);
        drop(shortest);
    }
}

// The digests of more outputs.
fn add_digests(outputs: &mut IndexSet<[u8; 32]>, more: &[[u8; 32]]) -> Result<(), AllocError>
    ensures { OnOk result (outputs.new.keys ≡ fold spec.with_digest outputs.old.keys more.now) }
{
    for digest in more {
        outputs.insert(*digest)?;
    }
    Ok(())
}

impl Summary {
    // Of one run, by this seed.
    pub(crate) fn new(
        alloc: Global,
        seed: u64,
        digest: [u8; 32],
        items: &[Item],
    ) -> Result<Summary, AllocError>
        ensures { IfOk result (λ t. (details : List Detail) → t ≡ spec.first_run seed (record { details = details; digest = digest; items = items.now })) }
    {
        let mut outputs = IndexSet::new(alloc);
        outputs.insert(digest)?;
        Ok(Summary {
            runs: 1,
            first: seed,
            items: items.len(),
            outputs,
            shortest: Vec::from_slice(alloc, items)?,
        })
    }

    // The schedule is kept, if it is shorter than the one that is. No memory is taken: it is written over that one.
    fn shorten(&mut self, items: &[Item])
        ensures { self.new ≡ record self.old { shortest = spec.shorter self.old.shortest items.now } }
    {
        if items.len() >= self.shortest.len() {
            return;
        }
        self.shortest.truncate(items.len());
        self.shortest.copy_from_slice(items);
    }

    // One run more.
    pub(crate) fn join(&mut self, digest: [u8; 32], items: &[Item]) -> Result<(), AllocError>
        requires { self.old.runs < u64.MAX }
        ensures ok { OnOk result ((details : List Detail) → self.new ≡ spec.grown self.old (record { details = details; digest = digest; items = items.now })) }
        ensures err { OnErr result (self.new ≡ self.old) }
    {
        self.outputs.insert(digest)?;
        self.shorten(items);
        self.runs += 1;
        Ok(())
    }

    // The same, by itself.
    pub(crate) fn copy(&self, alloc: Global) -> Result<Summary, AllocError>
        ensures { IfOk result (λ copy. copy ≡ summary_alone self.now) }
    {
        let mut outputs = IndexSet::new(alloc);
        add_digests(&mut outputs, self.outputs.as_slice())?;
        Ok(Summary {
            runs: self.runs,
            first: self.first,
            items: self.items,
            outputs,
            shortest: Vec::from_slice(alloc, self.shortest.as_slice())?,
        })
    }

    // The runs of the same class of a later part.
    //
    // On `Err` nothing is known of it: the caller lets it go.
    pub(crate) fn absorb(&mut self, later: &Summary) -> Result<(), AllocError>
        requires { self.old.runs + later.now.runs < 2 ^ 64 }
        ensures { OnOk result (self.new ≡ both_summaries self.old later.now) }
    {
        add_digests(&mut self.outputs, later.outputs.as_slice())?;
        self.shorten(later.shortest());
        self.runs += later.runs;
        Ok(())
    }

    /// How many runs ended so.
    pub fn runs(&self) -> u64
        ensures { result ≡ self.now.runs }
    {
        self.runs
    }

    /// The seed of the first of them.
    pub fn first(&self) -> u64
        ensures { result ≡ self.now.first }
    {
        self.first
    }

    /// How many items the schedule of the first has.
    pub fn items(&self) -> usize
        ensures { result ≡ self.now.items }
    {
        self.items
    }

    /// How many different outputs they have, by their digests.
    pub fn outputs(&self) -> usize
        ensures { result ≡ length self.now.outputs }
    {
        self.outputs.len()
    }

    /// The shortest of their schedules, the first one of those.
    pub fn shortest(&self) -> &[Item]
        ensures { result.now ≡ self.now.shortest }
    {
        self.shortest.as_slice()
    }
}
