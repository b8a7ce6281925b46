//! The index.

ghost use Rattle.std.specs.Prelude.{◌≡◌, ◌≤◌, ◌<◌, ◌+◌, ◌*◌, [], ℕ, length, filter, All, Some, slice_get, OnOk, IfOk, IfErr, IsOk, IsNone};
ghost use Rattle.cml_scan.specs.{Light.{lit_by}, Order.{before, place, is_lit_there, meet_at, base_at}};
ghost use Rattle.cml_scan.specs.{Scan.{scan_of, has_row, offers_of, heads_of, partners_of}, Table.{changed, CanChange, IsNackOf, nacks_among}};
ghost use Rattle.cml_index.specs.Heads.{IsOnlyRow};
ghost use Rattle.cml_index.specs.Posts as spec;

use crate::entries::Entries;
use crate::flags::{Flags, is_lit_by};
use crate::lanes::Lanes;
use crate::live::Live;
use crate::slot::do_meet;
use crate::state::{self, IndexState};
use crate::{heads, partners, rows};
use cml_objects::Tally;
use cml_scan::{Light, Meet, Place};
use cml_value::{Group, Tid};
use std::alloc::{AllocError, Global};
use std::marker::Model;

/// A table of communications that keeps no list of rows. It keeps two lanes of offers for each channel, one for each swap channel, one for
/// each light (the leaves that wait for it), and the pending groups. How long a change takes does not depend on how many rows there are.
pub struct OfferIndex {
    core: IndexState,
}

// Written out, so that how the parts are dropped is proved once, and whoever drops one calls this.
impl Drop for OfferIndex {
    fn drop(self) {
        let OfferIndex { core } = self;
        drop(core);
    }
}

impl Model for OfferIndex {
    ghost use Rattle.cml_index.specs.{Posts.{PlainIndex, index_code}, Cores.{IsIndexed, IsAtRest}};

    ghost Value = { PlainIndex };

    ghost coded = { index_code };

    ghost view = { λ x. record { entries = x.core.entries.items; flags = x.core.flags.entries } };

    ghost invariant = { λ x. IsIndexed x.core × IsAtRest x.core };
}

impl OfferIndex {
    /// A table that was told nothing: no thread is pending, and no light is lit.
    pub fn new(alloc: Global) -> OfferIndex
        ensures { result ≡ record { entries = []; flags = [] } }
    {
        let entries = Entries::new(alloc);
        let lanes = Lanes::new(alloc);
        let live = Live::new(alloc);
        let flags = Flags::new(alloc);
        OfferIndex {
            core: IndexState {
                entries,
                lanes,
                live,
                flags,
                leaves: 0,
                lit: 0,
                crossing: 0,
                spares: Vec::new(alloc),
            },
        }
    }

    /// Makes a change, and adds to the tally how many offers and lights it looks at. Where each lane before it is shorter than 2^d, that is
    /// at most d + 2 for each leaf of the threads that go and of the one that comes, and one for each light.
    ///
    /// # Errors
    /// Out of memory: nothing was told.
    pub fn change_tallied(
        &mut self,
        alloc: Global,
        gone: &[Tid],
        came: Option<(Tid, &Group)>,
        lit: &[Light],
        unlit: &[Light],
        tally: &mut Tally,
    ) -> Result<(), AllocError>
        requires ready { CanChange self.old.entries gone.now came lit.now unlit.now }
        ensures told { spec.HasTold result (changed self.old.entries gone.now came.entry)
            lit.now unlit.now self.old self.new tally.old tally.new }
        ensures sure { IsNone came.entry →
            All (IsNackOf (nacks_among gone.now self.old.entries)) lit.now → IsOk result }
        ensures cost { OnOk result ((digits : ℕ) → spec.HasDigits self.old.entries digits →
            tally.new ≤ tally.old
            + (spec.gone_leaves gone.now self.old.entries + spec.came_leaves came.entry)
            * (2 + digits)
            + (length lit.now + length unlit.now)) }
    {
        match came {
            None => self.core.leave_only(gone, lit, unlit, tally),
            Some(comer) => self
                .core
                .leave_and_come(alloc, gone, comer, lit, unlit, tally),
        }
    }

    // Whether the leaf at the place can be taken alone: it is looked at, and its light.
    fn is_lit_at(&self, place: Place, tally: &mut Tally) -> bool
        ensures value { result ≡ is_lit_there (lit_by (spec.told self.now.flags))
            (base_at place (offers_of self.now.entries)) }
        ensures cost { tally.new ≤ tally.old + 2 }
    {
        match state::wait_at(&self.core.entries, place, tally) {
            Some(wait) => is_lit_by(&self.core.flags, wait, tally),
            None => false,
        }
    }

    // Whether the leaves at the two places meet, and are of two threads: each is looked at.
    fn meet(&self, head: Place, other: Place, tally: &mut Tally) -> bool
        ensures value { result ≡ meet_at head.tid.0 other.tid.0
            (base_at head (offers_of self.now.entries))
            (base_at other (offers_of self.now.entries)) }
        ensures cost { tally.new ≤ tally.old + 2 }
    {
        let first = state::wait_at(&self.core.entries, head, tally);
        let second = state::wait_at(&self.core.entries, other, tally);
        match (first, second) {
            (Some(v), Some(w)) => do_meet(head.tid, v, other.tid, w),
            _ => false,
        }
    }

    /// Whether the row is there. It counts what it looks at: two leaves, or a leaf and its light.
    pub fn has_tallied(&self, row: &Meet, tally: &mut Tally) -> bool
        ensures value { result
            ≡ has_row (scan_of self.now.entries (spec.told self.now.flags)) row.now }
        ensures cost { tally.new ≤ tally.old + 2 }
    {
        // No effect: named here so that the prover knows what holds of it.
        let _ = &self.core;
        match *row {
            Meet::Single { tid, leaf } => self.is_lit_at(Place { tid, leaf }, tally),
            Meet::Pair {
                head,
                head_leaf,
                other,
                other_leaf,
            } => self.meet(
                Place {
                    tid: head,
                    leaf: head_leaf,
                },
                Place {
                    tid: other,
                    leaf: other_leaf,
                },
                tally,
            ),
        }
    }

    /// How many heads there are. It counts what it looks at: at most three for each leaf.
    pub fn head_count_tallied(&self, tally: &mut Tally) -> usize
        ensures count { result
            ≡ length (heads_of (scan_of self.now.entries (spec.told self.now.flags))) }
        ensures cost { tally.new ≤ tally.old + 3 * length (offers_of self.now.entries) }
    {
        heads::head_count(&self.core, tally)
    }

    /// The head at this place in their order. It counts what it looks at: at most three for each leaf, and none for a leaf that stands
    /// after the head.
    pub fn head_tallied(&self, k: usize, tally: &mut Tally) -> Place
        requires { k < length (heads_of (scan_of self.now.entries (spec.told self.now.flags))) }
        ensures value { slice_get
            (heads_of (scan_of self.now.entries (spec.told self.now.flags))) k ≡ Some result }
        ensures cost { tally.new ≤ tally.old + 3 * length (offers_of self.now.entries) }
        ensures early { tally.new
            + 3 * length (filter (λ o. before result (place o)) (offers_of self.now.entries))
            ≤ tally.old + 3 * length (offers_of self.now.entries) }
    {
        heads::head(&self.core, k, tally)
    }

    /// How many rows begin with the head. It counts what it looks at: at most two more than twice the binary digits of the length of
    /// the longest lane.
    pub fn partner_count_tallied(&self, head: Place, tally: &mut Tally) -> usize
        ensures count { result ≡ length
            (partners_of (scan_of self.now.entries (spec.told self.now.flags)) head) }
        ensures cost { (digits : ℕ) → spec.HasDigits self.now.entries digits →
            tally.new ≤ tally.old + (2 * digits + 2) }
    {
        partners::partner_count(&self.core, head, tally)
    }

    /// The row at this place among those that begin with the head. It counts what it looks at: at most two more than twice the binary
    /// digits of the length of the longest lane.
    pub fn partner_tallied(&self, head: Place, j: usize, tally: &mut Tally) -> Meet
        requires { j < length
            (partners_of (scan_of self.now.entries (spec.told self.now.flags)) head) }
        ensures value { slice_get
            (partners_of (scan_of self.now.entries (spec.told self.now.flags)) head) j
            ≡ Some result }
        ensures cost { (digits : ℕ) → spec.HasDigits self.now.entries digits →
            tally.new ≤ tally.old + (2 * digits + 2) }
    {
        partners::partner(&self.core, head, j, tally)
    }

    /// The head at this place in their order; or its row, where it is known at once that no other row begins with it. It counts what it looks
    /// at: at most three for each leaf, and two.
    pub fn head_or_row_tallied(&self, k: usize, tally: &mut Tally) -> Result<Meet, Place>
        requires { k < length (heads_of (scan_of self.now.entries (spec.told self.now.flags))) }
        ensures row { IfOk result (λ row. IsOnlyRow (scan_of self.now.entries (spec.told self.now.flags)) k row) }
        ensures head { IfErr result (λ head. slice_get
            (heads_of (scan_of self.now.entries (spec.told self.now.flags))) k ≡ Some head) }
        ensures cost { tally.new ≤ tally.old + (3 * length (offers_of self.now.entries) + 2) }
    {
        let head = self.head_tallied(k, tally);
        match partners::only_row_of(&self.core, head, tally) {
            Some(row) => Ok(row),
            None => Err(head),
        }
    }

    /// The head at this place in their order; or its row, where it is known at once that no other row begins with it.
    pub fn head_or_row(&self, k: usize) -> Result<Meet, Place>
        requires { k < length (heads_of (scan_of self.now.entries (spec.told self.now.flags))) }
        ensures row { IfOk result (λ row. IsOnlyRow (scan_of self.now.entries (spec.told self.now.flags)) k row) }
        ensures head { IfErr result (λ head. slice_get
            (heads_of (scan_of self.now.entries (spec.told self.now.flags))) k ≡ Some head) }
    {
        self.head_or_row_tallied(k, &mut Tally::new())
    }

    // All rows, in order.
    pub(crate) fn all_rows(&self, alloc: Global) -> Result<Vec<Meet>, AllocError>
        ensures { IfOk result (λ rows. rows.items
            ≡ scan_of self.now.entries (spec.told self.now.flags)) }
    {
        rows::all_rows(alloc, &self.core, &mut Tally::new())
    }
}
