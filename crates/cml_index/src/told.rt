//! What the book told last of each light (whether it is lit), by the number of its object.

ghost use Rattle.indexmap.specs.IndexMap.{get};
ghost use Rattle.std.specs.Prelude.{◌≡◌, ◌≢◌, ◌==◌, ℕ, [], true, false, not, if◌then◌else◌, None, is_some, length, slice_get, OnOk, IsOk};
ghost use Rattle.cml_scan.specs.{declared.object.Light.{Light}, declared.object.Light.TheVariants.{Alarm}, Table.{same_light}};
ghost use Rattle.cml_index.specs.Told as spec;

use cml_scan::Light;
use indexmap::IndexMap;
use std::alloc::{AllocError, Global};

// What was told last of each light that has its place: for each kind of object a list by its number, and the ticks, of which there is
// no end, in a map.
#[derive(Drop)]
pub(crate) struct Told {
    pub(crate) ivars: Vec<bool>,
    pub(crate) mvars: Vec<bool>,
    pub(crate) mailboxes: Vec<bool>,
    pub(crate) ports: Vec<bool>,
    pub(crate) joins: Vec<bool>,
    pub(crate) nacks: Vec<bool>,
    pub(crate) ticks: IndexMap<u64, bool>,
}

// What was told last of the object of this number; where nothing was, it is unlit.
fn read_in(list: &Vec<bool>, number: u32) -> bool
    ensures { result ≡ spec.lit_in (slice_get list.now.items number) }
{
    match list.get(number as usize) {
        Some(lit) => *lit,
        None => false,
    }
}

// Makes the list long enough to have this number. What was told of the others stays.
fn reserve_in(list: &mut Vec<bool>, number: u32) -> Result<(), AllocError>
    ensures kept { spec.AreReserved list.old.items list.new.items }
    ensures there { OnOk result (is_some (slice_get list.new.items number) ≡ true) }
    ensures sure { is_some (slice_get list.old.items number) ≡ true → IsOk result }
{
    while list.len() <= number as usize {
        list.push(false)?;
    }
    Ok(())
}

// Sets whether the object of this number is lit, and returns whether that has changed.
fn flip_in(list: &mut Vec<bool>, number: u32, lit: bool) -> bool
    requires { lit ≡ true → is_some (slice_get list.old.items number) ≡ true }
    ensures here { spec.lit_in (slice_get list.new.items number) ≡ lit }
    ensures elsewhere { (i : ℕ) → i ≢ number → slice_get list.new.items i ≡ slice_get list.old.items i }
    ensures changed { result ≡ (if lit then not (spec.lit_in (slice_get list.old.items number))
        else spec.lit_in (slice_get list.old.items number)) }
    ensures len { length list.new.items ≡ length list.old.items }
{
    let place = number as usize;
    if place >= list.len() {
        return false;
    }
    let changed = list[place] != lit;
    list[place] = lit;
    changed
}

// What was told last of the tick; where nothing was, it is unlit.
fn read_tick(ticks: &IndexMap<u64, bool>, tick: u64) -> bool
    ensures { result ≡ spec.lit_in (get (λ a b. a == b) ticks.now tick) }
{
    match ticks.get(&tick) {
        Some(lit) => *lit,
        None => false,
    }
}

// Reserves the place of the tick. What was told of the others stays.
fn reserve_tick(ticks: &mut IndexMap<u64, bool>, tick: u64) -> Result<(), AllocError>
    ensures told { (t : ℕ) → spec.lit_in (get (λ a b. a == b) ticks.new t) ≡ spec.lit_in (get (λ a b. a == b) ticks.old t) }
    ensures named { (t : ℕ) → is_some (get (λ a b. a == b) ticks.old t) ≡ true → is_some (get (λ a b. a == b) ticks.new t) ≡ true }
    ensures there { OnOk result (is_some (get (λ a b. a == b) ticks.new tick) ≡ true) }
    ensures sure { is_some (get (λ a b. a == b) ticks.old tick) ≡ true → IsOk result }
{
    if ticks.contains_key(&tick) {
        return Ok(());
    }
    ticks.insert(tick, false)?;
    Ok(())
}

// Sets whether the tick is lit, and returns whether that has changed.
fn flip_tick(ticks: &mut IndexMap<u64, bool>, tick: u64, lit: bool) -> bool
    requires { lit ≡ true → is_some (get (λ a b. a == b) ticks.old tick) ≡ true }
    ensures here { spec.lit_in (get (λ a b. a == b) ticks.new tick) ≡ lit }
    ensures elsewhere { (t : ℕ) → (tick == t) ≡ false → get (λ a b. a == b) ticks.new t ≡ get (λ a b. a == b) ticks.old t }
    ensures changed { result ≡ (if lit then not (spec.lit_in (get (λ a b. a == b) ticks.old tick))
        else spec.lit_in (get (λ a b. a == b) ticks.old tick)) }
    ensures named { (t : ℕ) → is_some (get (λ a b. a == b) ticks.old t) ≡ true → is_some (get (λ a b. a == b) ticks.new t) ≡ true }
{
    match ticks.get_mut(&tick) {
        Some(flag) => {
            let changed = *flag != lit;
            *flag = lit;
            changed
        }
        None => false,
    }
}

// Forgets the tick, which is not lit.
fn forget_in(ticks: &mut IndexMap<u64, bool>, tick: u64)
    requires { spec.lit_in (get (λ a b. a == b) ticks.old tick) ≡ false }
    ensures told { (t : ℕ) → spec.lit_in (get (λ a b. a == b) ticks.new t) ≡ spec.lit_in (get (λ a b. a == b) ticks.old t) }
    ensures elsewhere { (t : ℕ) → (tick == t) ≡ false → get (λ a b. a == b) ticks.new t ≡ get (λ a b. a == b) ticks.old t }
{
    ticks.swap_remove(&tick);
}

impl Told {
    // Nothing was told.
    pub(crate) fn new(alloc: Global) -> Told
        ensures { spec.all_told result ≡ [] }
    {
        Told {
            ivars: Vec::new(alloc),
            mvars: Vec::new(alloc),
            mailboxes: Vec::new(alloc),
            ports: Vec::new(alloc),
            joins: Vec::new(alloc),
            nacks: Vec::new(alloc),
            ticks: IndexMap::new(alloc),
        }
    }

    // Whether the light is lit.
    pub(crate) fn is_lit(&self, light: Light) -> bool
        ensures { result ≡ spec.lit_in (spec.flag_of self.now light) }
    {
        match light {
            Light::IVar(ivar) => read_in(&self.ivars, ivar.0),
            Light::MVar(mvar) => read_in(&self.mvars, mvar.0),
            Light::Mbox(mailbox) => read_in(&self.mailboxes, mailbox.0),
            Light::Port(port) => read_in(&self.ports, port.0),
            Light::Joined(thread) => read_in(&self.joins, thread.0),
            Light::Nack(nack) => read_in(&self.nacks, nack.0),
            Light::Alarm(tick) => read_tick(&self.ticks, tick),
        }
    }

    // Reserves the place of a light of which nothing was told. What was told of any light stays.
    pub(crate) fn reserve(&mut self, light: Light) -> Result<(), AllocError>
        ensures kept { spec.IsReserved self.old self.new }
        ensures there { OnOk result (is_some (spec.flag_of self.new light) ≡ true) }
        ensures sure { is_some (spec.flag_of self.old light) ≡ true → IsOk result }
    {
        match light {
            Light::IVar(ivar) => reserve_in(&mut self.ivars, ivar.0),
            Light::MVar(mvar) => reserve_in(&mut self.mvars, mvar.0),
            Light::Mbox(mailbox) => reserve_in(&mut self.mailboxes, mailbox.0),
            Light::Port(port) => reserve_in(&mut self.ports, port.0),
            Light::Joined(thread) => reserve_in(&mut self.joins, thread.0),
            Light::Nack(nack) => reserve_in(&mut self.nacks, nack.0),
            Light::Alarm(tick) => reserve_tick(&mut self.ticks, tick),
        }
    }

    // Tells of the light, and returns whether that was new. A light that is told to be lit has its place.
    pub(crate) fn flip(&mut self, light: Light, lit: bool) -> bool
        requires { lit ≡ true → is_some (spec.flag_of self.old light) ≡ true }
        ensures told { (m : Light) → spec.lit_in (spec.flag_of self.new m)
            ≡ (if same_light light m then lit else spec.lit_in (spec.flag_of self.old m)) }
        ensures changed { result ≡ (if lit then not (spec.lit_in (spec.flag_of self.old light))
            else spec.lit_in (spec.flag_of self.old light)) }
        ensures kept { (m : Light) → is_some (spec.flag_of self.old m) ≡ true → is_some (spec.flag_of self.new m) ≡ true }
    {
        match light {
            Light::IVar(ivar) => flip_in(&mut self.ivars, ivar.0, lit),
            Light::MVar(mvar) => flip_in(&mut self.mvars, mvar.0, lit),
            Light::Mbox(mailbox) => flip_in(&mut self.mailboxes, mailbox.0, lit),
            Light::Port(port) => flip_in(&mut self.ports, port.0, lit),
            Light::Joined(thread) => flip_in(&mut self.joins, thread.0, lit),
            Light::Nack(nack) => flip_in(&mut self.nacks, nack.0, lit),
            Light::Alarm(tick) => flip_tick(&mut self.ticks, tick, lit),
        }
    }

    // Forgets what was told of the tick, which is not lit.
    pub(crate) fn forget(&mut self, tick: u64)
        requires { spec.lit_in (spec.flag_of self.old (Alarm tick)) ≡ false }
        ensures told { (m : Light) → spec.lit_in (spec.flag_of self.new m) ≡ spec.lit_in (spec.flag_of self.old m) }
        ensures kept { (m : Light) → same_light (Alarm tick) m ≡ false →
            spec.flag_of self.new m ≡ spec.flag_of self.old m }
    {
        forget_in(&mut self.ticks, tick);
    }
}
