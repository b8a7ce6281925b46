//! What is told of many runs is made of them.

ghost use Rattle.std.specs.{Prelude.{◌≡◌, ◌<◌, ◌≤◌, ◌+◌, ◌^◌, IfOk, count_by, length, map}, List.{All}};
ghost use Rattle.cml_hub.specs.Kept.{IsBudget};
ghost use Rattle.cml_phrase.specs.Spots.{all_places};
ghost use Rattle.cml_explore.specs.Told.{AreClassesTold, AreEachBreakTold, AreThreadsTold, IsClassTold, IsJudgementTold, IsRunTold, IsSeedTold, IsTeller, IsToldOfRuns};
ghost use Rattle.cml_explore.specs.Told as spec;

use crate::below::spots_below;
use crate::classes::Classes;
use crate::explored::{Asked, Explored, is_well};
use crate::finish::fate_of;
use crate::seed::seed_run;
use crate::sight::{Sighted, spots_of};
use crate::stop::last_stop;
use crate::told::{BreakTold, ClassTold, RunTold, RunsTold, ThreadLeft, ThreadState};
use cml_check::Prog;
use cml_facts::ending::{Named, Stands, let_go, who_is};
use cml_facts::fault::retell;
use cml_hub::Hub;
use cml_judge::{Break, Spot, breaks_of, judge_hub};
use cml_phrase::{Place, statement_places};
use cml_text::Sexpr;
use std::alloc::{AllocError, Global};

// The script of which is told.
#[derive(Clone, Copy)]
struct Script<'a> {
    alloc: Global,
    places: &'a [Vec<Place>],
    program: &'a Prog,
    asked: Asked<'a>,
}

// The threads of this run that are left or ended at a fault.
fn threads_told(
    alloc: Global,
    places: &[Vec<Place>],
    hub: &Hub,
) -> Result<Vec<ThreadLeft>, AllocError>
    ensures { IfOk result (λ threads. AreThreadsTold (map (λ own. own.items) places.now) hub.now.course threads.items) }
{
    let known = retell(alloc, hub)?;
    let spots = spots_of(alloc, hub, &known.falls)?;
    let below = spots_below(alloc, hub, &known.falls)?;
    let sight = Sighted {
        alloc,
        places,
        hub,
        takers: &known.takers,
        falls: &known.falls,
        spots: spots.as_slice(),
        below: below.as_slice(),
    };
    sight.threads()
}

// Whether the thread waits.
pub(crate) fn is_waiting(thread: &ThreadLeft) -> bool
    ensures { result ≡ spec.is_wait thread.now.state }
{
    matches!(thread.state, ThreadState::Stands(Stands::Waits(_)))
}

// Whether it runs.
fn is_running(thread: &ThreadLeft) -> bool
    ensures { result ≡ spec.is_run thread.now.state }
{
    matches!(thread.state, ThreadState::Stands(Stands::Runs))
}

// How many of these threads wait.
fn wait_count(threads: &[ThreadLeft]) -> usize
    ensures { result ≡ count_by (λ t. spec.is_wait t.state) threads.now }
{
    let mut count = 0;
    for thread in threads {
        if is_waiting(thread) {
            count += 1;
        }
    }
    count
}

// How many of them run.
fn run_count(threads: &[ThreadLeft]) -> usize
    ensures { result ≡ count_by (λ t. spec.is_run t.state) threads.now }
{
    let mut count = 0;
    for thread in threads {
        if is_running(thread) {
            count += 1;
        }
    }
    count
}

// What is told of the run of this hub.
pub(crate) fn run_told(
    alloc: Global,
    places: &[Vec<Place>],
    hub: &Hub,
) -> Result<RunTold, AllocError>
    ensures { IfOk result (λ told. IsRunTold (map (λ own. own.items) places.now) hub.now told) }
{
    let threads = threads_told(alloc, places, hub)?;
    Ok(RunTold {
        end: hub.end(),
        waits: wait_count(threads.as_slice()),
        runs: run_count(threads.as_slice()),
        faults: hub.faults(),
        threads,
    })
}

// The thread whose turn it was by which a property broke.
fn teller_of(hub: &Hub, spot: Option<Spot>) -> Result<Option<Named>, AllocError>
    ensures { IfOk result (IsTeller hub.now spot) }
{
    match spot {
        Some(spot) => Ok(Some(who_is(hub, spot.thread.0)?)),
        None => Ok(None),
    }
}

// What is told of the properties that the run of this hub breaks.
fn each_break_told(alloc: Global, hub: &Hub, breaks: &[Break]) -> Result<Vec<BreakTold>, AllocError>
    ensures { IfOk result (λ told. AreEachBreakTold hub.now breaks.now told.items) }
{
    let mut told = Vec::new(alloc);
    for one in breaks {
        let who = teller_of(hub, one.spot)?;
        told.push(BreakTold { one: *one, who })?;
    }
    Ok(told)
}

// Whether the run of this hub ended well, and what is told of the properties that it breaks.
fn judgement_told(
    alloc: Global,
    asked: &Asked<'_>,
    hub: &Hub,
) -> Result<(bool, Vec<BreakTold>), AllocError>
    ensures { IfOk result (λ told. IsJudgementTold asked.now hub.now told.0 told.1.items) }
{
    let judged = judge_hub(alloc, &asked.wanted, hub)?;
    let well = is_well(fate_of(asked.servers, hub, judged.as_slice()));
    let breaks = breaks_of(alloc, hub, judged.as_slice())?;
    let told = each_break_told(alloc, hub, breaks.as_slice())?;
    Ok((well, told))
}

// What is told of the run by a seed.
#[derive(Drop)]
struct SeedTold {
    well: bool,
    breaks: Vec<BreakTold>,
    run: RunTold,
}

impl Script<'_> {
    // What is told of the run of this hub.
    fn hub_told(&self, hub: &Hub) -> Result<SeedTold, AllocError>
        ensures judged { IfOk result (λ told. IsJudgementTold self.now.asked hub.now told.well told.breaks.items) }
        ensures run { IfOk result (λ told. IsRunTold (map (λ own. own.items) self.now.places.now) hub.now told.run) }
    {
        let (well, breaks) = judgement_told(self.alloc, &self.asked, hub)?;
        let run = run_told(self.alloc, self.places, hub)?;
        Ok(SeedTold { well, breaks, run })
    }

    // Whether the run by this seed ended well, what it breaks, and what is told of it. It is made once more.
    fn seed_told(&self, seed: u64) -> Result<SeedTold, AllocError>
        requires { IsBudget self.now.asked.budget }
        ensures { IfOk result (λ told. IsSeedTold (map (λ own. own.items) self.now.places.now) self.now.program.now self.now.asked seed told.well told.breaks.items told.run) }
    {
        let order = self.asked.orders.of(seed);
        let hub = seed_run(self.alloc, self.program, self.asked.budget, order, seed)?;
        let told = self.hub_told(&hub);
        let_go(hub);
        told
    }

    // What is told of the class of this number.
    fn class_told(&self, classes: &Classes, number: usize) -> Result<ClassTold, AllocError>
        requires budget { IsBudget self.now.asked.budget }
        requires number { number < length classes.now }
        ensures told { IfOk result (λ told. IsClassTold (map (λ own. own.items) self.now.places.now) self.now.program.now self.now.asked classes.now told) }
        ensures number { IfOk result (λ told. told.number ≡ number) }
    {
        let summary = classes.class(number).summary;
        let first = summary.first();
        let SeedTold { well, breaks, run } = self.seed_told(first)?;
        Ok(ClassTold {
            number,
            well,
            breaks,
            runs: summary.runs(),
            outputs: summary.outputs(),
            first,
            order: self.asked.orders.of(first),
            items: summary.items(),
            run,
        })
    }

    // What is told of the classes of these numbers.
    fn classes_told(
        &self,
        classes: &Classes,
        numbers: &[usize],
    ) -> Result<Vec<ClassTold>, AllocError>
        requires budget { IsBudget self.now.asked.budget }
        requires numbers { All (λ n. n < length classes.now) numbers.now }
        ensures numbers { IfOk result (λ told. map (λ c. c.number) told.items ≡ numbers.now) }
        ensures each { IfOk result (λ told. All (IsClassTold (map (λ own. own.items) self.now.places.now) self.now.program.now self.now.asked classes.now) told.items) }
    {
        let mut told = Vec::new(self.alloc);
        for index in 0..numbers.len() {
            let class = self.class_told(classes, numbers[index])?;
            told.push(class)?;
        }
        Ok(told)
    }

    // What is told of all classes.
    fn all_told(&self, classes: &Classes) -> Result<Vec<ClassTold>, AllocError>
        requires budget { IsBudget self.now.asked.budget }
        ensures { IfOk result (λ told. AreClassesTold (map (λ own. own.items) self.now.places.now) self.now.program.now self.now.asked classes.now told.items) }
    {
        let numbers = classes.ranking(self.alloc)?;
        self.classes_told(classes, numbers.as_slice())
    }
}

// The seed of the last of so many runs, where there are more than one.
fn last_seed(first: u64, runs: u64) -> Option<u64>
    requires { first + runs ≤ 2 ^ 64 }
    ensures { result ≡ spec.last_seed first runs }
{
    if runs <= 1 {
        None
    } else {
        Some(first + (runs - 1))
    }
}

/// What is told of the runs that were asked for: how many; whether the last is one at which to stop, where that is said, for which it is made once
/// more; and the classes of those that ended alike, by size and then by first seed, each with the threads that are left in its first run, or ended
/// at a fault in it, for which that is made once more. The script has this text and forms,
/// and is this program.
///
/// # Errors
/// Out of memory.
pub fn tell_runs(
    alloc: Global,
    text: &[u8],
    forms: &[Sexpr],
    program: &Prog,
    asked: Asked<'_>,
    made: &Explored,
) -> Result<RunsTold, AllocError>
    requires budget { IsBudget asked.budget }
    requires seeds { asked.first + made.now.runs ≤ 2 ^ 64 }
    ensures { IfOk result (λ told. IsToldOfRuns (all_places text.now forms.now) program.now asked.entry made.now told) }
{
    let places = statement_places(alloc, text, forms)?;
    let script = Script {
        alloc,
        places: places.as_slice(),
        program,
        asked,
    };
    let runs = made.runs();
    let stop = last_stop(alloc, program, &asked, runs)?;
    let servers = Vec::from_slice(alloc, asked.servers)?;
    let until = Vec::from_slice(alloc, asked.until)?;
    let classes = script.all_told(made.classes())?;
    Ok(RunsTold {
        runs,
        asked: asked.runs,
        servers,
        until,
        stop,
        first: asked.first,
        last: last_seed(asked.first, runs),
        orders: asked.orders,
        classes,
    })
}
