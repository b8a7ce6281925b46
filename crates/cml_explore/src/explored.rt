//! Runs of a program by one seed after another.

ghost use Rattle.std.specs.{Prelude.{◌≡◌, ◌≤◌, ◌<◌, ◌+◌, ◌^◌, ◌==◌, ◌&&◌, List, ℕ, IfOk, OnOk, OnErr}, List.{All}};
ghost use Rattle.cml_check.specs.Syntax.{PlainItem};
ghost use Rattle.cml_hub.specs.Kept.{IsBudget};
ghost use Rattle.cml_explore.specs.{declared.explored.Asked.{Asked}, Finishes.{PlainEnded, IsEndOf, EndsSoBy}};
ghost use Rattle.cml_explore.specs.{Explored.{IsExplored, IsFirstOutput, SoFar, HasMade, with_ended}, Merges.{FitBeside, parts_merged}};
ghost use Rattle.cml_explore.specs.Finishes as spec;

use crate::classes::Classes;
use crate::finish::{Fate, digest_of, fate_of};
use crate::orders::Orders;
use crate::seed::seed_run;
use cml_check::Prog;
use cml_facts::ending::let_go;
use cml_hub::{End, Hub};
use cml_judge::{Wanted, details_with, judge_hub};
use std::alloc::{AllocError, Global};
use std::marker::Model;

/// At which run to stop.
#[derive(Clone, Copy)]
pub enum Until {
    /// A thread waits that is no server.
    Waits,
    /// A thread waits that is no server, and nothing was left to do.
    Deadlock,
    /// A thread ended at a fault.
    Fault,
    /// The budget was used.
    Budget,
    /// It did not end well.
    Bad,
}

/// Which runs are asked for.
#[derive(Clone, Copy)]
pub struct Asked<'a> {
    /// The budget: how many steps each may take, from 1 to 1,000,000,000.
    pub budget: u64,
    /// The seed of the first. Each further one has the seed that follows.
    pub first: u64,
    /// How many.
    pub runs: u64,
    /// By what it is settled in each what happens next.
    pub orders: Orders,
    /// The numbers of the functions of servers: a thread that began with one of them may wait.
    pub servers: &'a [u32],
    /// What must hold of each run.
    pub wanted: Wanted<'a>,
    /// The runs at which to stop, before all were made: the first of any of these kinds.
    pub until: &'a [Until],
}

/// Runs of a program, in classes of those that ended alike.
#[derive(Drop)]
pub struct Explored {
    classes: Classes,
    runs: u64,
    well: bool,
}

impl Model for Explored {
    ghost use Rattle.cml_explore.specs.Explored.{PlainExplored};

    ghost Value = { PlainExplored };

    ghost view = { λ e. record { classes = e.classes; runs = e.runs; well = e.well } };
}

// Whether a run of this fate ended well.
pub(crate) fn is_well(fate: Fate) -> bool
    ensures { result ≡ spec.is_good fate }
{
    fate.end == End::Quiet && !fate.held_up && fate.faults == 0 && fate.kept
}

// Whether a run of this fate is one at which this says to stop.
pub(crate) fn stops_at(until: Until, fate: Fate) -> bool
    ensures { result ≡ spec.stops_at until fate }
{
    match until {
        Until::Waits => fate.held_up,
        Until::Deadlock => fate.held_up && fate.end == End::Quiet,
        Until::Fault => fate.faults != 0,
        Until::Budget => fate.end == End::Budget,
        Until::Bad => !is_well(fate),
    }
}

// Whether it is one at which one of these says to stop.
fn stops(until: &[Until], fate: Fate) -> bool
    ensures { result ≡ spec.stops_by until.now fate }
{
    until.iter().any(|one| stops_at(*one, fate))
}

// Whether so many runs are all that were asked for.
pub(crate) fn are_all(made: u64, asked: u64) -> bool
    ensures { result ≡ (made == asked) }
{
    made == asked
}

// Whether both hold.
fn both(one: bool, other: bool) -> bool
    ensures { result ≡ (one && other) }
{
    one && other
}

impl Explored {
    /// No runs yet.
    pub fn new(alloc: Global) -> Explored
        ensures none { result.runs ≡ 0 }
        ensures begins { (p : List (PlainItem ℕ)) (asked : Asked) → SoFar p asked result }
    {
        Explored {
            classes: Classes::new(alloc),
            runs: 0,
            well: true,
        }
    }

    // One run more, by this seed, which has ended where this hub stands. Returns whether it is one at which to stop.
    pub(crate) fn add_hub(
        &mut self,
        alloc: Global,
        asked: &Asked<'_>,
        seed: u64,
        hub: &Hub,
    ) -> Result<bool, AllocError>
        requires few { All (λ c. c.summary.runs < u64.MAX) self.old.classes }
        requires runs { self.old.runs < u64.MAX }
        ensures added { IfOk result (λ stops. (e : PlainEnded) × IsEndOf asked.now.servers.now asked.now.wanted hub.now e
            × (self.new ≡ with_ended seed e self.old) × (stops ≡ spec.stops asked.now.until.now e)) }
        ensures err { OnErr result (self.new ≡ self.old) }
    {
        let judged = judge_hub(alloc, &asked.wanted, hub)?;
        let details = details_with(alloc, hub, judged.as_slice())?;
        let fate = fate_of(asked.servers, hub, judged.as_slice());
        self.classes
            .count(alloc, seed, details, digest_of(hub), hub.schedule())?;
        self.runs += 1;
        self.well = both(self.well, is_well(fate));
        Ok(stops(asked.until, fate))
    }

    // One run more, by this seed. Returns whether it is one at which to stop.
    pub(crate) fn add(
        &mut self,
        alloc: Global,
        program: &Prog,
        asked: &Asked<'_>,
        seed: u64,
    ) -> Result<bool, AllocError>
        requires budget { IsBudget asked.now.budget }
        requires few { All (λ c. c.summary.runs < u64.MAX) self.old.classes }
        requires runs { self.old.runs < u64.MAX }
        ensures added { IfOk result (λ stops. (e : PlainEnded) × EndsSoBy program.now asked.now.budget asked.now.orders asked.now.servers.now asked.now.wanted seed e
            × (self.new ≡ with_ended seed e self.old) × (stops ≡ spec.stops asked.now.until.now e)) }
        ensures err { OnErr result (self.new ≡ self.old) }
    {
        let order = asked.orders.of(seed);
        let hub = seed_run(alloc, program, asked.budget, order, seed)?;
        let added = self.add_hub(alloc, asked, seed, &hub);
        let_go(hub);
        added
    }

    /// One run more, by the seed that follows those of the runs so far. Returns whether it was the last: one at which to stop, or the last one
    /// that was asked for. What one run takes of memory is given back before it returns.
    ///
    /// # Errors
    /// Out of memory. Nothing has changed then.
    pub fn go(
        &mut self,
        alloc: Global,
        program: &Prog,
        asked: &Asked<'_>,
    ) -> Result<bool, AllocError>
        requires budget { IsBudget asked.now.budget }
        requires seeds { asked.now.first + asked.now.runs ≤ 2 ^ 64 }
        requires so_far { SoFar program.now asked.now self.old }
        requires left { self.old.runs < asked.now.runs }
        ensures one { OnOk result (self.new.runs ≡ self.old.runs + 1) }
        ensures made { IfOk result (λ last. HasMade program.now asked.now last self.new) }
        ensures err { OnErr result (self.new ≡ self.old) }
    {
        let seed = asked.first + self.runs;
        let stops = self.add(alloc, program, asked, seed)?;
        if stops {
            return Ok(true);
        }
        let made = self.runs();
        Ok(are_all(made, asked.runs))
    }

    // The runs of another part, by the seeds that follow.
    //
    // On `Err` nothing is known of it: the caller lets it go.
    pub(crate) fn absorb(&mut self, alloc: Global, later: &Explored) -> Result<(), AllocError>
        requires { FitBeside self.old later.now }
        ensures { OnOk result (self.new ≡ parts_merged self.old later.now) }
    {
        self.classes.absorb(alloc, &later.classes)?;
        self.runs += later.runs;
        self.well = both(self.well, later.well);
        Ok(())
    }

    /// The classes, in the order of their first seeds.
    pub fn classes(&self) -> &Classes
        ensures { result.now ≡ self.now.classes }
    {
        &self.classes
    }

    /// How many runs there were.
    pub fn runs(&self) -> u64
        ensures { result ≡ self.now.runs }
    {
        self.runs
    }

    /// Whether each of them ended well: nothing was left to do, no thread waits but servers, none ended at a fault, and no property breaks.
    pub fn is_well(&self) -> bool
        ensures { result ≡ self.now.well }
    {
        self.well
    }
}

/// Runs the program by one seed after another, each to its end, and keeps which of them ended alike. What one run takes of memory is given
/// back before the next begins.
///
/// # Errors
/// Out of memory.
pub fn explore(alloc: Global, program: &Prog, asked: Asked<'_>) -> Result<Explored, AllocError>
    requires budget { IsBudget asked.budget }
    requires seeds { asked.first + asked.runs ≤ 2 ^ 64 }
    ensures explored { IfOk result (λ made. IsExplored program.now asked.entry made) }
    ensures few { IfOk result (λ made. made.runs ≤ asked.entry.runs) }
{
    let mut made = Explored::new(alloc);
    'going: while made.runs() < asked.runs {
        let last = made.go(alloc, program, &asked)?;
        if last {
            return Ok(made);
        }
    }
    Ok(made)
}

/// What the first of the runs that are asked for prints, like which all others print that keep a property which compares runs.
///
/// # Errors
/// Out of memory.
pub fn first_output(alloc: Global, program: &Prog, asked: &Asked<'_>) -> Result<Vec<u8>, AllocError>
    requires budget { IsBudget asked.now.budget }
    ensures { IfOk result (λ output. IsFirstOutput program.now asked.now output.items) }
{
    let order = asked.orders.of(asked.first);
    let hub = seed_run(alloc, program, asked.budget, order, asked.first)?;
    let output = Vec::from_slice(alloc, hub.out().as_bytes());
    let_go(hub);
    output
}
