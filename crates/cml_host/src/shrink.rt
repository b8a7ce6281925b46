//! The command `shrink`: a shorter schedule of a script, which ends alike.

ghost use Rattle.std.specs.{Prelude.{◌≡◌, [], IfErr, IfOk, true}};
ghost use Rattle.cml_host.specs.{Refused.{RefusesAs}, Replies.{plain_of}};
ghost use Rattle.cml_host.specs.{Shrunk.{GivesShorter, IsNotShorter, IsShorterFor, IsUnshrunk}, Stores.{IsUnchanged}};
ghost use Rattle.cml_check.specs.Sizes.{size_of};
ghost use Rattle.cml_hub.specs.Kept.{IsBudget};
ghost use Rattle.cml_schedule.specs.Written.{schedule_text};

use crate::opening::{Opened, REFUSED, open_both};
use crate::refusal::Refusal;
use crate::replay::tell_bad;
use crate::reply::Reply;
use crate::store::Store;
use crate::wanted::{ALONE, find_properties};
use cml_arguments::ShrinkOptions;
use cml_check::Prog;
use cml_explore::shrink::{Asked, ShrinkFault, Shrunk, shrink, tell_shrunk, write_shrunk};
use cml_hub::{Item, Plan};
use cml_schedule::schedule_text;
use std::alloc::{AllocError, Global};

/// A shorter schedule of the script that lies under its name for the one that lies under its own, which ends alike; and how long both are.
///
/// # Errors
/// What is wrong with either, which is explained; or out of memory.
pub fn shrink_file<S: Store>(
    alloc: Global,
    options: &ShrinkOptions<'_>,
    store: &mut S,
) -> Result<Reply, Refusal>
    ensures ok { IfOk result (λ reply. IsShorterFor options.now (S.holds store.old) (plain_of reply)) }
    ensures err { IfErr result (RefusesAs (IsUnshrunk options.now (S.holds store.old))) }
    ensures same { IsUnchanged (S.holds store.old) (S.holds store.new) }
{
    let both = open_both(alloc, options.script, options.schedule, store)?;
    let properties = find_properties(alloc, &options.properties, ALONE, true, store)?;
    let asked = Asked {
        budget: budget_of(&both),
        tries: options.tries,
        properties: properties.as_slice(),
        stops: options.stop,
    };
    shrink_plan(alloc, both, asked)
}

// The budget of the schedule that was read.
fn budget_of(both: &Opened<'_>) -> u64
    requires { IsBudget both.now.plan.budget }
    ensures same { result ≡ both.now.plan.budget }
    ensures budget { IsBudget result }
{
    both.plan.budget
}

// For the schedule that was read.
fn shrink_plan(alloc: Global, both: Opened<'_>, asked: Asked<'_>) -> Result<Reply, Refusal>
    requires budget { IsBudget asked.budget }
    requires read { IsBudget both.plan.budget }
    ensures ok { IfOk result (λ reply. GivesShorter both.entry.program asked.entry both.entry.plan (plain_of reply)) }
    ensures err { IfErr result (RefusesAs (IsNotShorter both.entry.program asked.entry both.entry.plan)) }
{
    let Opened {
        program,
        subject,
        plan,
        text,
    } = both;
    let items = plan.items.as_slice();
    let tries = asked.tries;
    match shrink(alloc, &program, asked, items) {
        Ok(found) => {
            let shorter = make_shorter(alloc, &program, plan.budget, items, &found, tries);
            drop(program);
            Ok(shorter?)
        }
        Err(ShrinkFault::BadItem(number)) => {
            let told = tell_bad(
                alloc,
                program,
                Some(&subject),
                text.as_slice(),
                &plan,
                number,
            )?;
            Err(Refusal::Told(told, REFUSED))
        }
        Err(ShrinkFault::NoBreak) => {
            drop(program);
            Err(Refusal::Line("schedule breaks nothing before its end\n", REFUSED))
        }
        Err(ShrinkFault::Memory) => {
            drop(program);
            Err(Refusal::Memory)
        }
    }
}

// What is told of what was found for these items, where there might be so many tries.
fn make_shorter(
    alloc: Global,
    program: &Prog,
    budget: u64,
    given: &[Item],
    found: &Shrunk,
    tries: u64,
) -> Result<Reply, AllocError>
    ensures schedule { IfOk result (λ reply. reply.output.items ≡ schedule_text budget (size_of program.now) found.now.items) }
    ensures alone { IfOk result (λ reply. (reply.files.items ≡ []) × (reply.status ≡ 0)) }
{
    let schedule = schedule_text(alloc, budget, program.size(), found.items())?;
    let mut words = Vec::new(alloc);
    write_shrunk(alloc, &mut words, tell_shrunk(given, found, tries))?;
    Ok(Reply {
        output: schedule.into_bytes(),
        files: Vec::new(alloc),
        words,
        status: 0,
    })
}
