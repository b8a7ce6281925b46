//! One run of a program.

ghost use Rattle.std.specs.Prelude.{◌≡◌, ◌<◌, IfOk, OnOk, None};
ghost use Rattle.cml_step.specs.Calls.{text_of};
ghost use Rattle.cml_hub.specs.{Choices.{seeded}, Kept.{IsAtStart, IsBudget, NoneOut}};
ghost use Rattle.cml_explore.specs.{SeedRuns.{IsRunWithin, IsSeedRun, IsSpan, RunsOut}, Priorities.{points_span}};
ghost use Rattle.cml_explore.specs.declared.seed.order.Order.TheVariants as orders;

use crate::seed::lot::run_by_lot;
use crate::seed::order::Order;
use crate::seed::priority::{Priorities, run_by_priority};
use cml_check::Prog;
use cml_hub::{Hub, Seeded};
use std::alloc::{AllocError, AllocFailed, Global};

// The hub is used no more.
#[inline(never)]
fn let_go(hub: Hub) {
    drop(hub);
}

// The hub runs to its end: threads that are ready have their turns in order, and rows are picked.
fn run_out(alloc: Global, hub: &mut Hub, span: usize, seed: u64) -> Result<(), AllocError>
    ensures { OnOk result (RunsOut orders.Queue span seed hub.old hub.new) }
{
    let mut chooser = Seeded::new(seed);
    hub.run_alone(alloc, &mut chooser)?;
    Ok(())
}

// The hub runs to its end: what happens next is drawn by lot.
fn run_out_by_lot(alloc: Global, hub: &mut Hub, span: usize, seed: u64) -> Result<(), AllocError>
    requires { NoneOut hub.old }
    ensures { OnOk result (RunsOut orders.Lot span seed hub.old hub.new) }
{
    let mut chooser = Seeded::new(seed);
    run_by_lot(alloc, hub, &mut chooser)?;
    Ok(())
}

// The hub runs to its end by priorities, which are drawn now.
fn run_out_by_priority(
    alloc: Global,
    hub: &mut Hub,
    depth: u32,
    span: usize,
    seed: u64,
) -> Result<(), AllocError>
    requires none_out { NoneOut hub.old }
    requires span { 0 < span }
    ensures { OnOk result (RunsOut (orders.Priority depth) span seed hub.old hub.new) }
{
    let mut priorities = Priorities::new(alloc, depth, span, seed)?;
    run_by_priority(alloc, hub, &mut priorities)
}

// The hub runs to its end in this order.
fn run_so(
    alloc: Global,
    hub: &mut Hub,
    order: Order,
    span: usize,
    seed: u64,
) -> Result<(), AllocError>
    requires none_out { NoneOut hub.old }
    requires span { 0 < span }
    ensures { OnOk result (RunsOut order span seed hub.old hub.new) }
{
    match order {
        Order::Queue => run_out(alloc, hub, span, seed),
        Order::Lot => run_out_by_lot(alloc, hub, span, seed),
        Order::Priority(depth) => run_out_by_priority(alloc, hub, depth, span, seed),
    }
}

// A hub at the beginning of the program.
fn begin(alloc: Global, program: &Prog, budget: u64) -> Result<Hub, AllocError>
    requires { IsBudget budget }
    ensures { IfOk result (λ hub. IsAtStart program.now budget None hub) }
{
    match Hub::begin(alloc, program.copy()?, budget, None) {
        Ok(hub) => Ok(hub),
        Err(AllocFailed { value }) => {
            drop(value);
            Err(AllocError)
        }
    }
}

// The run of the program by this seed, to its end; points are drawn within this span.
fn run_within(
    alloc: Global,
    program: &Prog,
    budget: u64,
    order: Order,
    span: usize,
    seed: u64,
) -> Result<Hub, AllocError>
    requires budget { IsBudget budget }
    requires span { 0 < span }
    ensures { IfOk result (λ hub. IsRunWithin program.now budget order span seed hub) }
{
    let mut hub = begin(alloc, program, budget)?;
    // No effect: named here so that the prover knows what holds of it.
    let _so_far = hub.schedule();
    match run_so(alloc, &mut hub, order, span, seed) {
        Ok(()) => Ok(hub),
        Err(AllocError) => {
            let_go(hub);
            Err(AllocError)
        }
    }
}

// One more than the run by this seed has items in which threads have their turns in order.
#[inline(never)]
fn run_len(alloc: Global, program: &Prog, budget: u64, seed: u64) -> Result<usize, AllocError>
    requires { IsBudget budget }
    ensures { IfOk result (λ span. span ≡ points_span (text_of program.now) budget (seeded seed)) }
{
    let hub = run_within(alloc, program, budget, Order::Queue, 1, seed)?;
    let span = hub.schedule().len() + 1;
    let_go(hub);
    Ok(span)
}

// The same, where there are points. Where there are none, any span is one.
fn points_len(
    alloc: Global,
    program: &Prog,
    budget: u64,
    depth: u32,
    seed: u64,
) -> Result<usize, AllocError>
    requires { IsBudget budget }
    ensures some { IfOk result (λ span. 0 < span) }
    ensures span { IfOk result (λ span. IsSpan program.now budget (orders.Priority depth) seed span) }
{
    if depth <= 1 {
        return Ok(1);
    }
    run_len(alloc, program, budget, seed)
}

// The span within which the points of the run by this seed are drawn. Where there are none, any is one.
fn span_of(
    alloc: Global,
    program: &Prog,
    budget: u64,
    order: Order,
    seed: u64,
) -> Result<usize, AllocError>
    requires { IsBudget budget }
    ensures some { IfOk result (λ span. 0 < span) }
    ensures span { IfOk result (λ span. IsSpan program.now budget order seed span) }
{
    match order {
        Order::Queue => Ok(1),
        Order::Lot => Ok(1),
        Order::Priority(depth) => points_len(alloc, program, budget, depth, seed),
    }
}

/// The run of the program by this seed, to its end, in this order.
///
/// # Errors
/// Out of memory.
pub fn seed_run(
    alloc: Global,
    program: &Prog,
    budget: u64,
    order: Order,
    seed: u64,
) -> Result<Hub, AllocError>
    requires { IsBudget budget }
    ensures { IfOk result (λ hub. IsSeedRun program.now budget order seed hub) }
{
    let span = span_of(alloc, program, budget, order, seed)?;
    run_within(alloc, program, budget, order, span, seed)
}
