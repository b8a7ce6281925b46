//! Where offers stand, and what the change in hand does there.

ghost use Rattle.indexmap.specs.IndexMap.{get};
ghost use Rattle.std.specs.Prelude.{◌≡◌, ◌≢◌, ◌≤◌, ◌<◌, ◌==◌, ◌+◌, ◌^◌, ℕ, [], ◌∷◌, ◌++◌, true, false, length, filter, nat_lt, slice_get, is_some, OnOk, OnErr};
ghost use Rattle.cml_scan.specs.Order.{Every, Ascends};
ghost use Rattle.cml_objects.specs.Lanes.{is_own, is_others, others, with_run};
ghost use Rattle.cml_index.specs.Stands as spec;

use cml_objects::{Lane, Tally};
use cml_value::Tid;
use indexmap::IndexMap;
use std::alloc::{AllocError, Global};

// The offers of one side of an object, or of those who wait for one light. During a change: `late`, the leaves of the coming thread that
// are still to be put here, and `going`, how many leaves of a going thread are still to be taken out.
#[derive(Drop)]
pub(crate) struct LaneState {
    pub(crate) lane: Lane,
    pub(crate) late: Vec<u32>,
    pub(crate) going: usize,
}

// The stands of the ticks.
pub(crate) type Ticks = IndexMap<u64, LaneState>;

impl LaneState {
    // Nobody stands there.
    pub(crate) fn new(alloc: Global) -> LaneState
        ensures lane { result.lane.places ≡ [] }
        ensures late { result.late.items ≡ [] }
        ensures going { result.going ≡ 0 }
    {
        LaneState {
            lane: Lane::new(alloc),
            late: Vec::new(alloc),
            going: 0,
        }
    }

    // The leaf is to come, and there is room for it.
    #[inline(always)]
    pub(crate) fn note(&mut self, leaf: u32) -> Result<(), AllocError>
        ensures lane { self.new.lane.places ≡ self.old.lane.places }
        ensures going { self.new.going ≡ self.old.going }
        ensures kept { self.old.lane.room ≤ self.new.lane.room }
        ensures late { OnOk result (self.new.late.items ≡ self.old.late.items ++ leaf ∷ []) }
        ensures room { OnOk result (length self.new.late.items ≤ self.new.lane.room) }
        ensures none { OnErr result (self.new.late.items ≡ self.old.late.items) }
    {
        self.lane.reserve(self.late.len() + 1)?;
        self.late.push(leaf)?;
        Ok(())
    }

    // Puts in the leaves that were noted.
    #[inline(always)]
    pub(crate) fn come(&mut self, tid: Tid, tally: &mut Tally)
        requires room { length self.old.late.items ≤ self.old.lane.room }
        requires new { 0 < length self.old.late.items → Every (is_others tid) self.old.lane.places }
        requires ascend { Ascends nat_lt self.old.late.items }
        ensures lane { self.new.lane.places
            ≡ spec.joined tid self.old.late.items self.old.lane.places }
        ensures late { self.new.late.items ≡ [] }
        ensures going { self.new.going ≡ self.old.going }
        ensures cost { (digits : ℕ) →
            (0 < length self.old.late.items → length self.old.lane.places < 2 ^ digits) →
            tally.new ≤ tally.old + digits }
    {
        if !self.late.is_empty() {
            self.lane.come(tid, &self.late, tally);
            self.late.clear();
        }
    }

    // Forgets the leaves that were noted.
    pub(crate) fn forgo(&mut self)
        ensures lane { self.new.lane ≡ self.old.lane }
        ensures late { self.new.late.items ≡ [] }
        ensures going { self.new.going ≡ self.old.going }
    {
        self.late.clear();
    }

    // Counts one more leaf that is to be taken out.
    pub(crate) fn count(&mut self)
        requires { self.old.going < 18446744073709551615 }
        ensures lane { self.new.lane ≡ self.old.lane }
        ensures late { self.new.late ≡ self.old.late }
        ensures going { self.new.going ≡ self.old.going + 1 }
    {
        self.going += 1;
    }

    // Takes out the leaves that were counted, which are all that the thread has here.
    pub(crate) fn go(&mut self, tid: Tid, tally: &mut Tally)
        requires { 0 < self.old.going →
            self.old.going ≡ length (filter (is_own tid) self.old.lane.places) }
        ensures lane { self.new.lane.places
            ≡ spec.after_going tid self.old.going self.old.lane.places }
        ensures late { self.new.late ≡ self.old.late }
        ensures going { self.new.going ≡ 0 }
        ensures room { self.old.lane.room ≤ self.new.lane.room }
        ensures cost { (digits : ℕ) →
            (0 < self.old.going → length self.old.lane.places < 2 ^ digits) →
            tally.new ≤ tally.old + digits }
    {
        if self.going > 0 {
            self.lane.go(tid, self.going, tally);
            self.going = 0;
        }
    }
}

impl LaneState {
    // Puts in the only leaf of the thread, for which room is made.
    #[inline(always)]
    fn come_lone(&mut self, tid: Tid, tally: &mut Tally) -> Result<(), AllocError>
        requires { Every (is_others tid) self.old.lane.places }
        ensures lane { OnOk result (self.new.lane.places ≡ with_run tid (0 ∷ []) self.old.lane.places) }
        ensures none { OnErr result (self.new.lane.places ≡ self.old.lane.places) }
        ensures kept { OnErr result (self.old.lane.room ≤ self.new.lane.room) }
        ensures late { self.new.late.items ≡ self.old.late.items }
        ensures going { self.new.going ≡ self.old.going }
        ensures cost { (digits : ℕ) → length self.old.lane.places < 2 ^ digits → tally.new ≤ tally.old + digits }
        ensures still { OnErr result (tally.new ≡ tally.old) }
    {
        self.lane.reserve(1)?;
        self.lane.come(tid, &[0], tally);
        Ok(())
    }

    // Takes out the only leaf of the thread.
    #[inline(always)]
    fn go_lone(&mut self, tid: Tid, tally: &mut Tally)
        requires { length (filter (is_own tid) self.old.lane.places) ≡ 1 }
        ensures lane { self.new.lane.places ≡ others tid self.old.lane.places }
        ensures late { self.new.late ≡ self.old.late }
        ensures going { self.new.going ≡ self.old.going }
        ensures room { self.old.lane.room ≤ self.new.lane.room }
        ensures cost { (digits : ℕ) → length self.old.lane.places < 2 ^ digits → tally.new ≤ tally.old + digits }
    {
        self.lane.go(tid, 1, tally);
    }
}

// Makes the stands up to this one, where it was not made. Those that are made are empty.
#[inline(always)]
fn make_in(row: &mut Vec<LaneState>, alloc: Global, number: usize) -> Result<(), AllocError>
    ensures same { (i : ℕ) → spec.IsAlike (slice_get row.new.items i) (slice_get row.old.items i) }
    ensures there { OnOk result (number < length row.new.items) }
{
    if row.len() <= number {
        return make_more(row, alloc, number);
    }
    Ok(())
}

// Makes the stands up to this one. Those that are made are empty.
#[inline(never)]
fn make_more(row: &mut Vec<LaneState>, alloc: Global, number: usize) -> Result<(), AllocError>
    ensures same { (i : ℕ) → spec.IsAlike (slice_get row.new.items i) (slice_get row.old.items i) }
    ensures there { OnOk result (number < length row.new.items) }
{
    while row.len() <= number {
        row.push(LaneState::new(alloc))?;
    }
    Ok(())
}

// The leaf is to come to this stand, which is made if it was not.
#[inline(always)]
pub(crate) fn note_in(
    row: &mut Vec<LaneState>,
    alloc: Global,
    number: usize,
    leaf: u32,
) -> Result<(), AllocError>
    ensures here { spec.IsNoted result leaf (slice_get row.old.items number) (slice_get row.new.items number) }
    ensures elsewhere { (i : ℕ) → i ≢ number → spec.IsAlike (slice_get row.new.items i) (slice_get row.old.items i) }
{
    make_in(row, alloc, number)?;
    note_there(row, number, leaf)
}

// The leaf is to come to this stand, which was made.
#[inline(always)]
fn note_there(row: &mut Vec<LaneState>, number: usize, leaf: u32) -> Result<(), AllocError>
    requires { number < length row.old.items }
    ensures here { spec.IsNoted result leaf (slice_get row.old.items number) (slice_get row.new.items number) }
    ensures elsewhere { (i : ℕ) → i ≢ number → slice_get row.new.items i ≡ slice_get row.old.items i }
{
    let stand = &mut row[number];
    stand.note(leaf)
}

// The same as `LaneState::come`, at this number.
#[inline(always)]
pub(crate) fn come_in(row: &mut Vec<LaneState>, number: usize, tid: Tid, tally: &mut Tally)
    requires { spec.CanCome tid (slice_get row.old.items number) }
    ensures here { spec.HasCome tid (slice_get row.old.items number) (slice_get row.new.items number) }
    ensures elsewhere { (i : ℕ) → i ≢ number → slice_get row.new.items i ≡ slice_get row.old.items i }
    ensures cost { (digits : ℕ) → spec.ComesWithin digits (slice_get row.old.items number) →
        tally.new ≤ tally.old + digits }
{
    if number < row.len() {
        let stand = &mut row[number];
        stand.come(tid, tally);
    }
}

// The same as `LaneState::forgo`, at this number.
pub(crate) fn forgo_in(row: &mut Vec<LaneState>, number: usize)
    ensures here { spec.HasForgone (slice_get row.old.items number) (slice_get row.new.items number) }
    ensures elsewhere { (i : ℕ) → i ≢ number → slice_get row.new.items i ≡ slice_get row.old.items i }
{
    if number < row.len() {
        let stand = &mut row[number];
        stand.forgo();
    }
}

// One more leaf is to go from this stand, if it was made.
#[inline(always)]
pub(crate) fn count_in(row: &mut Vec<LaneState>, number: usize)
    requires { spec.going_in (slice_get row.old.items number) < 18446744073709551615 }
    ensures here { spec.CountsOneMore (slice_get row.old.items number) (slice_get row.new.items number) }
    ensures elsewhere { (i : ℕ) → i ≢ number → slice_get row.new.items i ≡ slice_get row.old.items i }
{
    if number < row.len() {
        let stand = &mut row[number];
        stand.count();
    }
}

// The leaves that were to go from this stand go.
#[inline(always)]
pub(crate) fn go_in(row: &mut Vec<LaneState>, number: usize, tid: Tid, tally: &mut Tally)
    requires { spec.CanGo tid (slice_get row.old.items number) }
    ensures here { spec.HasGone tid (slice_get row.old.items number) (slice_get row.new.items number) }
    ensures elsewhere { (i : ℕ) → i ≢ number → slice_get row.new.items i ≡ slice_get row.old.items i }
    ensures cost { (digits : ℕ) → spec.GoesWithin digits (slice_get row.old.items number) →
        tally.new ≤ tally.old + digits }
{
    if number < row.len() {
        let stand = &mut row[number];
        stand.go(tid, tally);
    }
}

// The only leaf of the thread comes to this stand, which is made if it was not.
#[inline(always)]
pub(crate) fn come_lone_in(
    row: &mut Vec<LaneState>,
    alloc: Global,
    number: usize,
    tid: Tid,
    tally: &mut Tally,
) -> Result<(), AllocError>
    requires { Every (is_others tid) (spec.places_in (slice_get row.old.items number)) }
    ensures here { spec.ComesLone result tid (slice_get row.old.items number) (slice_get row.new.items number) }
    ensures elsewhere { (i : ℕ) → i ≢ number → spec.IsAlike (slice_get row.new.items i) (slice_get row.old.items i) }
    ensures cost { (digits : ℕ) → length (spec.places_in (slice_get row.old.items number)) < 2 ^ digits →
        tally.new ≤ tally.old + digits }
    ensures still { OnErr result (tally.new ≡ tally.old) }
{
    make_in(row, alloc, number)?;
    come_lone_there(row, number, tid, tally)
}

// The same at a stand that was made.
#[inline(always)]
fn come_lone_there(
    row: &mut Vec<LaneState>,
    number: usize,
    tid: Tid,
    tally: &mut Tally,
) -> Result<(), AllocError>
    requires there { number < length row.old.items }
    requires new { Every (is_others tid) (spec.places_in (slice_get row.old.items number)) }
    ensures here { spec.ComesLone result tid (slice_get row.old.items number) (slice_get row.new.items number) }
    ensures elsewhere { (i : ℕ) → i ≢ number → slice_get row.new.items i ≡ slice_get row.old.items i }
    ensures cost { (digits : ℕ) → length (spec.places_in (slice_get row.old.items number)) < 2 ^ digits →
        tally.new ≤ tally.old + digits }
    ensures still { OnErr result (tally.new ≡ tally.old) }
{
    let stand = &mut row[number];
    stand.come_lone(tid, tally)
}

// The only leaf of the thread goes from this stand.
#[inline(always)]
pub(crate) fn go_lone_in(row: &mut Vec<LaneState>, number: usize, tid: Tid, tally: &mut Tally)
    requires { length (filter (is_own tid) (spec.places_in (slice_get row.old.items number))) ≡ 1 }
    ensures here { spec.GoesLone tid (slice_get row.old.items number) (slice_get row.new.items number) }
    ensures elsewhere { (i : ℕ) → i ≢ number → slice_get row.new.items i ≡ slice_get row.old.items i }
    ensures cost { (digits : ℕ) → length (spec.places_in (slice_get row.old.items number)) < 2 ^ digits →
        tally.new ≤ tally.old + digits }
{
    if number < row.len() {
        let stand = &mut row[number];
        stand.go_lone(tid, tally);
    }
}

// The only leaf of the thread comes to the stand of this tick, which is made if it was not.
pub(crate) fn come_lone_tick(
    ticks: &mut Ticks,
    alloc: Global,
    tick: u64,
    tid: Tid,
    tally: &mut Tally,
) -> Result<(), AllocError>
    requires { Every (is_others tid) (spec.places_in (get (λ a b. a == b) ticks.old tick)) }
    ensures here { spec.ComesLone result tid (get (λ a b. a == b) ticks.old tick) (get (λ a b. a == b) ticks.new tick) }
    ensures elsewhere { (t : ℕ) → (tick == t) ≡ false →
        spec.IsAlike (get (λ a b. a == b) ticks.new t) (get (λ a b. a == b) ticks.old t) }
    ensures cost { (digits : ℕ) → length (spec.places_in (get (λ a b. a == b) ticks.old tick)) < 2 ^ digits →
        tally.new ≤ tally.old + digits }
    ensures still { OnErr result (tally.new ≡ tally.old) }
{
    make_tick(ticks, alloc, tick)?;
    come_lone_to(ticks, tick, tid, tally)
}

// The same at the stand of a tick that was made.
fn come_lone_to(ticks: &mut Ticks, tick: u64, tid: Tid, tally: &mut Tally) -> Result<(), AllocError>
    requires there { is_some (get (λ a b. a == b) ticks.old tick) ≡ true }
    requires new { Every (is_others tid) (spec.places_in (get (λ a b. a == b) ticks.old tick)) }
    ensures here { spec.ComesLone result tid (get (λ a b. a == b) ticks.old tick) (get (λ a b. a == b) ticks.new tick) }
    ensures elsewhere { (t : ℕ) → (tick == t) ≡ false →
        get (λ a b. a == b) ticks.new t ≡ get (λ a b. a == b) ticks.old t }
    ensures cost { (digits : ℕ) → length (spec.places_in (get (λ a b. a == b) ticks.old tick)) < 2 ^ digits →
        tally.new ≤ tally.old + digits }
    ensures still { OnErr result (tally.new ≡ tally.old) }
{
    match ticks.get_mut(&tick) {
        Some(stand) => stand.come_lone(tid, tally),
        None => unreachable!(),
    }
}

// The only leaf of the thread goes from the stand of this tick.
pub(crate) fn go_lone_tick(ticks: &mut Ticks, tick: u64, tid: Tid, tally: &mut Tally)
    requires { length (filter (is_own tid) (spec.places_in (get (λ a b. a == b) ticks.old tick))) ≡ 1 }
    ensures here { spec.GoesLone tid (get (λ a b. a == b) ticks.old tick) (get (λ a b. a == b) ticks.new tick) }
    ensures elsewhere { (t : ℕ) → (tick == t) ≡ false →
        get (λ a b. a == b) ticks.new t ≡ get (λ a b. a == b) ticks.old t }
    ensures cost { (digits : ℕ) → length (spec.places_in (get (λ a b. a == b) ticks.old tick)) < 2 ^ digits →
        tally.new ≤ tally.old + digits }
{
    if let Some(stand) = ticks.get_mut(&tick) {
        stand.go_lone(tid, tally);
    }
}

// The leaf is to come to the stand of this tick, which is made if it was not.
pub(crate) fn note_tick(
    ticks: &mut Ticks,
    alloc: Global,
    tick: u64,
    leaf: u32,
) -> Result<(), AllocError>
    ensures here { spec.IsNoted result leaf (get (λ a b. a == b) ticks.old tick) (get (λ a b. a == b) ticks.new tick) }
    ensures elsewhere { (t : ℕ) → (tick == t) ≡ false →
        spec.IsAlike (get (λ a b. a == b) ticks.new t) (get (λ a b. a == b) ticks.old t) }
{
    make_tick(ticks, alloc, tick)?;
    note_tick_there(ticks, tick, leaf)
}

// The leaf is to come to the stand of this tick, which was made.
fn note_tick_there(ticks: &mut Ticks, tick: u64, leaf: u32) -> Result<(), AllocError>
    requires { is_some (get (λ a b. a == b) ticks.old tick) ≡ true }
    ensures here { spec.IsNoted result leaf (get (λ a b. a == b) ticks.old tick) (get (λ a b. a == b) ticks.new tick) }
    ensures elsewhere { (t : ℕ) → (tick == t) ≡ false →
        get (λ a b. a == b) ticks.new t ≡ get (λ a b. a == b) ticks.old t }
{
    match ticks.get_mut(&tick) {
        Some(stand) => stand.note(leaf),
        None => unreachable!(),
    }
}

// The leaves that were to come to the stand of this tick come.
pub(crate) fn come_tick(ticks: &mut Ticks, tick: u64, tid: Tid, tally: &mut Tally)
    requires { spec.CanCome tid (get (λ a b. a == b) ticks.old tick) }
    ensures here { spec.HasCome tid (get (λ a b. a == b) ticks.old tick) (get (λ a b. a == b) ticks.new tick) }
    ensures elsewhere { (t : ℕ) → (tick == t) ≡ false →
        get (λ a b. a == b) ticks.new t ≡ get (λ a b. a == b) ticks.old t }
    ensures cost { (digits : ℕ) → spec.ComesWithin digits (get (λ a b. a == b) ticks.old tick) →
        tally.new ≤ tally.old + digits }
{
    if let Some(stand) = ticks.get_mut(&tick) {
        stand.come(tid, tally);
    }
}

// No leaf is to come to the stand of this tick.
pub(crate) fn forgo_tick(ticks: &mut Ticks, tick: u64)
    ensures here { spec.HasForgone (get (λ a b. a == b) ticks.old tick) (get (λ a b. a == b) ticks.new tick) }
    ensures elsewhere { (t : ℕ) → (tick == t) ≡ false →
        get (λ a b. a == b) ticks.new t ≡ get (λ a b. a == b) ticks.old t }
{
    if let Some(stand) = ticks.get_mut(&tick) {
        stand.forgo();
    }
}

// One more leaf is to go from the stand of this tick, if it was made.
pub(crate) fn count_tick(ticks: &mut Ticks, tick: u64)
    requires { spec.going_in (get (λ a b. a == b) ticks.old tick) < 18446744073709551615 }
    ensures here { spec.CountsOneMore (get (λ a b. a == b) ticks.old tick) (get (λ a b. a == b) ticks.new tick) }
    ensures elsewhere { (t : ℕ) → (tick == t) ≡ false →
        get (λ a b. a == b) ticks.new t ≡ get (λ a b. a == b) ticks.old t }
{
    if let Some(stand) = ticks.get_mut(&tick) {
        stand.count();
    }
}

// The leaves that were to go from the stand of this tick go.
pub(crate) fn go_tick(ticks: &mut Ticks, tick: u64, tid: Tid, tally: &mut Tally)
    requires { spec.CanGo tid (get (λ a b. a == b) ticks.old tick) }
    ensures here { spec.HasGone tid (get (λ a b. a == b) ticks.old tick) (get (λ a b. a == b) ticks.new tick) }
    ensures elsewhere { (t : ℕ) → (tick == t) ≡ false →
        get (λ a b. a == b) ticks.new t ≡ get (λ a b. a == b) ticks.old t }
    ensures cost { (digits : ℕ) → spec.GoesWithin digits (get (λ a b. a == b) ticks.old tick) →
        tally.new ≤ tally.old + digits }
{
    if let Some(stand) = ticks.get_mut(&tick) {
        stand.go(tid, tally);
    }
}

// Makes the stand of this tick, if it is not there yet. What is made is empty.
fn make_tick(ticks: &mut Ticks, alloc: Global, tick: u64) -> Result<(), AllocError>
    ensures same { (t : ℕ) → spec.IsAlike (get (λ a b. a == b) ticks.new t) (get (λ a b. a == b) ticks.old t) }
    ensures there { OnOk result (is_some (get (λ a b. a == b) ticks.new tick) ≡ true) }
{
    if ticks.contains_key(&tick) {
        return Ok(());
    }
    ticks.insert(tick, LaneState::new(alloc))?;
    Ok(())
}

// Removes the stand of this tick, where nobody stands.
pub(crate) fn forget_tick(ticks: &mut Ticks, tick: u64)
    requires { spec.IsEmpty (get (λ a b. a == b) ticks.old tick) }
    ensures { (t : ℕ) → spec.IsLike (get (λ a b. a == b) ticks.new t) (get (λ a b. a == b) ticks.old t) }
{
    ticks.swap_remove(&tick);
}
