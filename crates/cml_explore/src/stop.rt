//! The run at which to stop.

ghost use Rattle.std.specs.Prelude.{◌≡◌, ◌≤◌, ◌+◌, ◌^◌, IfOk, option_map, length, ◌==◌};
ghost use Rattle.cml_hub.specs.Kept.{IsBudget};
ghost use Rattle.cml_explore.specs.Stops.{IsLastStop, IsStopAt, IsStopOf, is_saved};
ghost use Rattle.cml_explore.specs.Stops as spec;

use crate::explored::{Asked, Until, stops_at};
use crate::finish::{Fate, fate_of};
use crate::seed::{Order, seed_run};
use crate::told::{ClassTold, RunsTold, Stopped};
use cml_check::Prog;
use cml_facts::ending::let_go;
use cml_hub::Hub;
use cml_judge::judge_hub;
use std::alloc::{AllocError, Global};

// Which of these kinds of run one of this fate is, the first of them.
fn stop_kind(until: &[Until], fate: Fate) -> Option<Until>
    ensures { result ≡ spec.stop_kind until.now fate }
{
    until.iter().copied().find(|one| stops_at(*one, fate))
}

// The run by this seed in this order, if it is of a kind at which to stop.
fn stopped(seed: u64, order: Order, kind: Option<Until>) -> Option<Stopped>
    ensures { result ≡ option_map (spec.stopped_by seed order) kind }
{
    match kind {
        Some(kind) => Some(Stopped { seed, order, kind }),
        None => None,
    }
}

// The run of this hub, which was made by this seed, if it is one at which to stop.
fn stop_of_hub(
    alloc: Global,
    asked: &Asked<'_>,
    hub: &Hub,
    seed: u64,
) -> Result<Option<Stopped>, AllocError>
    ensures { IfOk result (IsStopOf asked.now seed hub.now) }
{
    let judged = judge_hub(alloc, &asked.wanted, hub)?;
    let kind = stop_kind(asked.until, fate_of(asked.servers, hub, judged.as_slice()));
    Ok(stopped(seed, asked.orders.of(seed), kind))
}

// The run by this seed, if it is one at which to stop. It is made once more.
fn stop_at(
    alloc: Global,
    program: &Prog,
    asked: &Asked<'_>,
    seed: u64,
) -> Result<Option<Stopped>, AllocError>
    requires { IsBudget asked.now.budget }
    ensures { IfOk result (IsStopAt program.now asked.now seed) }
{
    let order = asked.orders.of(seed);
    let hub = seed_run(alloc, program, asked.budget, order, seed)?;
    let told = stop_of_hub(alloc, asked, &hub, seed);
    let_go(hub);
    told
}

// The last of so many runs, if there is one and it is one at which to stop.
fn stop_of_last(
    alloc: Global,
    program: &Prog,
    asked: &Asked<'_>,
    runs: u64,
) -> Result<Option<Stopped>, AllocError>
    requires budget { IsBudget asked.now.budget }
    requires seeds { asked.now.first + runs ≤ 2 ^ 64 }
    ensures { IfOk result (IsLastStop program.now asked.now runs) }
{
    if runs == 0 {
        Ok(None)
    } else {
        stop_at(alloc, program, asked, asked.first + (runs - 1))
    }
}

/// The last of so many runs, if it is one at which to stop. Where it is said at which to stop, that run is made once more.
///
/// # Errors
/// Out of memory.
pub(crate) fn last_stop(
    alloc: Global,
    program: &Prog,
    asked: &Asked<'_>,
    runs: u64,
) -> Result<Option<Stopped>, AllocError>
    requires budget { IsBudget asked.now.budget }
    requires seeds { asked.now.first + runs ≤ 2 ^ 64 }
    ensures { IfOk result (IsLastStop program.now asked.now runs) }
{
    if asked.until.is_empty() {
        Ok(None)
    } else {
        stop_of_last(alloc, program, asked, runs)
    }
}

impl RunsTold {
    // Whether none was said at which to stop.
    pub(crate) fn goes_through(&self) -> bool
        ensures { result ≡ (length self.now.until.items == 0) }
    {
        self.until.is_empty()
    }

    // Whether it stopped at the first run of this class.
    fn begins_with_stop(&self, class: &ClassTold) -> bool
        ensures { result ≡ spec.is_stop self.now class.now }
    {
        match self.stop {
            Some(stop) => class.first == stop.seed,
            None => false,
        }
    }

    /// Whether a schedule of this class is saved, where some are: of each class; or, where it was said at which runs to stop, of the one alone
    /// that begins with the run at which it stopped.
    pub fn saves(&self, class: &ClassTold) -> bool
        ensures { result ≡ is_saved self.now class.now }
    {
        if self.goes_through() {
            true
        } else {
            self.begins_with_stop(class)
        }
    }
}
