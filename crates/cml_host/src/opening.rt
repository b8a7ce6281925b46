//! What a command begins with that takes a script and a schedule: both are read.

ghost use Rattle.std.specs.{Prelude.{◌≡◌, ◌++◌, IfErr, IfOk, codes}, Fmt.{decimal}};
ghost use Rattle.cml_host.specs.Plans.{AreNotBoth, AreOpened, IsNoPlan, IsNoPlanFor, IsNoSchedule, IsPlan, IsPlanFor, IsSchedule, Opens};
ghost use Rattle.cml_host.specs.{Refused.{IsExplained, RefusesAs}, Stores.{IsUnchanged}};
ghost use Rattle.cml_hub.specs.Kept.{IsBudget};
ghost use Rattle.cml_text.specs.Lines.{line};

use crate::close::{Subject, subject_of};
use crate::reason::explained;
use crate::refusal::{Refusal, load};
use crate::script::open_script;
use crate::store::Store;
use crate::tell::hub_is_a_run;
use cml_check::Prog;
use cml_explain::explain_unfit;
use cml_hub::{Hub, Plan, ScheduleFault, matches_program, read_schedule};
use std::alloc::{AllocError, Global};

/// The status where the schedule is refused.
pub const REFUSED: u8 = 3;

/// The most bytes of a schedule.
pub const SCHEDULE_LIMIT: usize = 67_108_864;

/// A script and a schedule of its program.
#[derive(Drop)]
pub struct Opened<'a> {
    /// The program of the script.
    pub program: Prog,
    /// The script as one that is spoken of.
    pub subject: Subject<'a>,
    /// What the schedule says.
    pub plan: Plan,
    /// Its text.
    pub text: Vec<u8>,
}

/// The script and the schedule that lie under these names.
///
/// # Errors
/// No script lies there, or no schedule of its program, which is explained; or out of memory.
pub fn open_both<'a, S: Store>(
    alloc: Global,
    script_name: &'a str,
    schedule_name: &str,
    store: &mut S,
) -> Result<Opened<'a>, Refusal>
    ensures ok { IfOk result (AreOpened script_name.now schedule_name.now (S.holds store.old)) }
    ensures budget { IfOk result (λ both. IsBudget both.plan.budget) }
    ensures err { IfErr result (RefusesAs (AreNotBoth script_name.now schedule_name.now (S.holds store.old))) }
    ensures same { IsUnchanged (S.holds store.old) (S.holds store.new) }
{
    let script = open_script(alloc, script_name, true, store)?;
    let (program, subject) = subject_of(script_name, script);
    match open_plan(alloc, schedule_name, true, &program, store) {
        Ok((text, plan)) => Ok(Opened {
            program,
            subject,
            plan,
            text,
        }),
        Err(why) => {
            drop(program);
            Err(why)
        }
    }
}

/// The text that lies under the name, and the schedule that it is, which is one of this program.
///
/// # Errors
/// Why it is none, explained where that is asked for; or out of memory.
pub fn open_plan<S: Store>(
    alloc: Global,
    name: &str,
    explains: bool,
    program: &Prog,
    store: &mut S,
) -> Result<(Vec<u8>, Plan), Refusal>
    ensures ok { IfOk result (λ found. IsPlanFor (S.holds store.old name.now) program.now found.1) }
    ensures budget { IfOk result (λ found. IsBudget found.1.budget) }
    ensures err { IfErr result (RefusesAs (IsNoPlanFor explains name.now (S.holds store.old name.now) program.now)) }
    ensures same { IsUnchanged (S.holds store.old) (S.holds store.new) }
{
    let (text, plan) = load_plan(alloc, name, explains, store)?;
    if matches_program(&plan, program) {
        Ok((text, plan))
    } else {
        Err(Refusal::Told(told_size(alloc)?, REFUSED))
    }
}

// The text that lies under the name, and the schedule that it is.
fn load_plan<S: Store>(
    alloc: Global,
    name: &str,
    explains: bool,
    store: &mut S,
) -> Result<(Vec<u8>, Plan), Refusal>
    ensures ok { IfOk result (λ found. IsPlan (S.holds store.old name.now) found.1) }
    ensures budget { IfOk result (λ found. IsBudget found.1.budget) }
    ensures err { IfErr result (RefusesAs (IsNoPlan explains name.now (S.holds store.old name.now))) }
    ensures same { IsUnchanged (S.holds store.old) (S.holds store.new) }
{
    let text = load(alloc, name, explains, SCHEDULE_LIMIT, store)?;
    let plan = read_plan(alloc, explains, text.as_slice())?;
    Ok((text, plan))
}

// The schedule that the text is.
fn read_plan(alloc: Global, explains: bool, text: &[u8]) -> Result<Plan, Refusal>
    ensures ok { IfOk result (IsSchedule text.now) }
    ensures budget { IfOk result (λ plan. IsBudget plan.budget) }
    ensures err { IfErr result (RefusesAs (IsNoSchedule explains text.now)) }
{
    match read_schedule(alloc, text) {
        Ok(plan) => Ok(plan),
        Err(ScheduleFault::Line(number)) => {
            let told = told_line(alloc, explains, text, number)?;
            Err(Refusal::Told(told, REFUSED))
        }
        Err(ScheduleFault::TooLong) => {
            let told = format!(in alloc; "schedule too long\n")?;
            Err(Refusal::Told(told.into_bytes(), REFUSED))
        }
        Err(ScheduleFault::Memory) => Err(Refusal::Memory),
    }
}

// What is told of the line of this number, which does not fit.
fn told_line(alloc: Global, explains: bool, text: &[u8], number: u64) -> Result<Vec<u8>, AllocError>
    ensures { IfOk result (λ told. IsExplained explains (line (codes "schedule line " ++ decimal number)) told.items) }
{
    let line = format!(in alloc; "schedule line {number}\n")?;
    let words = if explains {
        explain_unfit(alloc, text, number)?
    } else {
        Vec::new(alloc)
    };
    explained(alloc, line.as_bytes(), explains, words.as_slice())
}

// What is told of a schedule of a program of another size.
fn told_size(alloc: Global) -> Result<Vec<u8>, AllocError>
    ensures { IfOk result (λ told. told.items ≡ line (codes "schedule program")) }
{
    Ok(format!(in alloc; "schedule program\n")?.into_bytes())
}

/// A hub at the beginning of a run of the program, under this budget.
///
/// # Errors
/// Out of memory.
pub fn begin(alloc: Global, program: Prog, budget: u64) -> Result<Hub, AllocError>
    requires budget { IsBudget budget }
    ensures { IfOk result (Opens program budget) }
{
    match Hub::begin(alloc, program, budget, None) {
        Ok(hub) => {
            hub_is_a_run(&hub);
            Ok(hub)
        }
        Err(back) => {
            drop(back.value);
            Err(AllocError)
        }
    }
}
