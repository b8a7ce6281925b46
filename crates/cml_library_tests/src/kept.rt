//! A table that keeps every row in a list.

ghost use Rattle.std.specs.{Prelude.{◌≡◌, ◌<◌, ◌++◌, [], false, length, slice_get, Some, IfOk, filter}, List.{list_any}};
ghost use Rattle.cml_scan.specs.Scan as scan_spec;
ghost use Rattle.cml_scan.specs.Table as table_spec;
ghost use Rattle.cml_library_tests.specs.Kept as spec;

use cml_scan::{Light, Lights, Meet, Offer, Place, Table};
use cml_value::{Group, Tid};
use std::alloc::{AllocError, Global};
use std::marker::Model;

// A pending thread, with the group that it waits on.
#[derive(Drop)]
struct Entry {
    tid: Tid,
    group: Group,
}

impl Model for Entry {
    ghost use Rattle.cml_scan.specs.{World.{PlainEntry}, Codes.{entry_code}};

    ghost Value = { PlainEntry };

    ghost coded = { entry_code };

    ghost view = { λ e. record { thread = e.tid.0; group = e.group } };
}

// The lights that are lit. Any other is unlit.
#[derive(Drop)]
struct LitLights {
    lights: Vec<Light>,
}

impl Lights for LitLights {
    ghost is_lit = { λ lit. table_spec.has_light lit.lights.items };

    fn is_lit(&self, light: Light) -> bool {
        has_light(&self.lights, light)
    }
}

/// A table that keeps every row in a list, and builds all of them again at each change.
#[derive(Drop)]
pub struct KeptRows {
    entries: Vec<Entry>,
    lit: LitLights,
    rows: Vec<Meet>,
    heads: Vec<Place>,
}

impl Model for KeptRows {
    ghost use Rattle.std.specs.Prelude.{◌≡◌};
    ghost use Rattle.cml_scan.specs.{Scan.{scan_of, heads_of}, Table.{has_light}};
    ghost use Rattle.cml_library_tests.specs.Kept.{PlainTold, told_code};

    ghost Value = { PlainTold };

    ghost coded = { told_code };

    ghost view = { λ k. record { entries = k.entries.items; lit = k.lit.lights.items } };

    ghost invariant = { λ k. (k.rows.items ≡ scan_of k.entries.items (has_light k.lit.lights.items)) × (k.heads.items ≡ heads_of (scan_of k.entries.items (has_light k.lit.lights.items))) };
}

impl KeptRows {
    /// A table that was told nothing: no thread is pending, and no light is lit.
    pub fn new(alloc: Global) -> KeptRows
        ensures { result ≡ record { entries = []; lit = [] } }
    {
        KeptRows {
            entries: Vec::new(alloc),
            lit: LitLights {
                lights: Vec::new(alloc),
            },
            rows: Vec::new(alloc),
            heads: Vec::new(alloc),
        }
    }
}

impl Table for KeptRows {
    ghost entries = { λ told. told.entries };

    ghost is_lit = { λ told. table_spec.has_light told.lit };

    ghost SURE = { false };

    const SURE: bool = false;

    fn change(
        &mut self,
        alloc: Global,
        gone: &[Tid],
        came: Option<(Tid, &Group)>,
        lit: &[Light],
        unlit: &[Light],
    ) -> Result<(), AllocError> {
        let entries = changed(alloc, &self.entries, gone, came)?;
        let lit = LitLights {
            lights: lit_after(alloc, &self.lit.lights, lit, unlit)?,
        };
        let offers = offers(alloc, &entries)?;
        let rows = cml_scan::rows(alloc, &offers, &lit)?;
        let heads = heads(alloc, &rows)?;
        self.entries = entries;
        self.lit = lit;
        self.rows = rows;
        self.heads = heads;
        Ok(())
    }

    fn rows(&self, alloc: Global) -> Result<Vec<Meet>, AllocError> {
        Vec::from_slice(alloc, &self.rows)
    }

    fn has(&self, row: &Meet) -> bool {
        self.rows.iter().any(|r| row.same(r))
    }

    fn head_count(&self) -> usize {
        self.heads.len()
    }

    fn head(&self, k: usize) -> Place {
        self.heads[k]
    }

    fn partner_count(&self, head: Place) -> usize {
        self.rows.iter().filter(|r| head.same(&r.place())).count()
    }

    fn partner(&self, head: Place, j: usize) -> Meet {
        partner_among(&self.rows, head, j)
    }
}

// Which entries are copied, by their threads.
#[derive(Clone, Copy)]
enum Side {
    All,
    Below(Tid),
    Above(Tid),
}

fn on_side(side: Side, tid: Tid) -> bool
    ensures { result ≡ spec.on_side side tid.0 }
{
    match side {
        Side::All => true,
        Side::Below(t) => tid.0 < t.0,
        Side::Above(t) => t.0 < tid.0,
    }
}

fn is_among(tids: &[Tid], tid: Tid) -> bool
    ensures { result ≡ scan_spec.is_among tids.now tid.0 }
{
    tids.iter().any(|t| t.0 == tid.0)
}

fn is_kept(gone: &[Tid], side: Side, tid: Tid) -> bool
    ensures { result ≡ spec.is_kept gone.now side tid.0 }
{
    !is_among(gone, tid) && on_side(side, tid)
}

// Appends copies of the entries of the threads that stay, on this side.
fn push_kept(
    new: &mut Vec<Entry>,
    entries: &[Entry],
    gone: &[Tid],
    side: Side,
) -> Result<(), AllocError>
    ensures { IfOk result (λ _. new.new.items ≡ new.old.items ++ spec.kept_entries gone.now side entries.now) }
{
    for e in entries {
        if is_kept(gone, side, e.tid) {
            let group = e.group.copy()?;
            new.push(Entry { tid: e.tid, group })?;
        }
    }
    Ok(())
}

// A copy of these entries, with the change.
fn changed(
    alloc: Global,
    entries: &[Entry],
    gone: &[Tid],
    came: Option<(Tid, &Group)>,
) -> Result<Vec<Entry>, AllocError>
    ensures { IfOk result (λ new. new.items ≡ table_spec.changed entries.now gone.now came.entry) }
{
    let mut new: Vec<Entry> = Vec::new(alloc);
    match came {
        None => {
            push_kept(&mut new, entries, gone, Side::All)?;
            Ok(new)
        }
        Some((tid, group)) => {
            push_kept(&mut new, entries, gone, Side::Below(tid))?;
            let group = group.copy()?;
            new.push(Entry { tid, group })?;
            push_kept(&mut new, entries, gone, Side::Above(tid))?;
            Ok(new)
        }
    }
}

fn same_light(a: Light, b: Light) -> bool
    ensures { result ≡ table_spec.same_light a b }
{
    a == b
}

fn has_light(lights: &[Light], light: Light) -> bool
    ensures { result ≡ table_spec.has_light lights.now light }
{
    lights.iter().any(|l| same_light(light, *l))
}

fn is_untold(lit: &[Light], unlit: &[Light], light: Light) -> bool
    ensures { result ≡ spec.is_untold lit.now unlit.now light }
{
    !has_light(lit, light) && !has_light(unlit, light)
}

// The lights that are lit afterwards: the old ones that are neither turned on nor off now, and those that are turned on.
fn lit_after(
    alloc: Global,
    old: &[Light],
    lit: &[Light],
    unlit: &[Light],
) -> Result<Vec<Light>, AllocError>
    ensures { IfOk result (λ new. new.items ≡ filter (spec.is_untold lit.now unlit.now) old.now ++ lit.now) }
{
    let mut new = Vec::new(alloc);
    for light in old {
        if is_untold(lit, unlit, *light) {
            new.push(*light)?;
        }
    }
    for light in lit {
        new.push(*light)?;
    }
    Ok(new)
}

// The leaves of these threads, by thread and leaf.
fn offers(alloc: Global, entries: &[Entry]) -> Result<Vec<Offer>, AllocError>
    ensures { IfOk result (λ offers. offers.items ≡ scan_spec.offers_of entries.now) }
{
    let mut offers = Vec::new(alloc);
    for e in entries {
        cml_scan::push_offers(alloc, &mut offers, e.tid, &e.group)?;
    }
    Ok(offers)
}

// The places that begin these rows.
fn heads(alloc: Global, rows: &[Meet]) -> Result<Vec<Place>, AllocError>
    ensures { IfOk result (λ heads. heads.items ≡ scan_spec.heads_of rows.now) }
{
    let mut heads: Vec<Place> = Vec::new(alloc);
    for row in rows {
        let place = row.place();
        if !is_seen(&heads, place) {
            heads.push(place)?;
        }
    }
    Ok(heads)
}

fn is_seen(seen: &[Place], place: Place) -> bool
    ensures { result ≡ list_any (scan_spec.same_place place) seen.now }
{
    seen.iter().any(|p| place.same(p))
}

// The row at this place among those of these rows that begin with the head.
fn partner_among(rows: &[Meet], head: Place, j: usize) -> Meet
    requires { j < length (scan_spec.partners_of rows.now head) }
    ensures { slice_get (scan_spec.partners_of rows.now head) j ≡ Some result }
{
    let mut left = j;
    for row in rows {
        if head.same(&row.place()) {
            if left == 0 {
                return *row;
            }
            left -= 1;
        }
    }
    unreachable!()
}
