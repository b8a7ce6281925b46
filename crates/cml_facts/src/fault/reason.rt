//! Why a thread ended at a fault.

ghost use Rattle.std.specs.Prelude.{◌≡◌, IfOk, Some};
ghost use Rattle.cml_step.specs.{AskViews.{plain_ask}, Machines.{plain_held}, Shared.{plain_seen}};
ghost use Rattle.cml_step.specs.declared.entry.Entry.TheVariants as entry_of;
ghost use Rattle.cml_facts.specs.Reasons as spec;

use crate::fault::part::Part;
use crate::fault::statement::part_of_step;
use cml_check::Prog;
use cml_step::{Ask, Call, Fault, Machine, Seen};
use std::alloc::{AllocError, Global};

/// Why a thread ended at a fault.
#[derive(Drop)]
pub enum Reason {
    /// Its step was at fault so, at this part.
    Step(Fault, Part),
    /// It put the I-variable of this number, which is full.
    FullIVar(u32),
    /// It put the M-variable of this number, which is full.
    FullMVar(u32),
    /// It waits for too many base events, or for a tick that is too far away.
    Group,
    /// It mailed to the mailbox of this number, which is full.
    FullMailbox(u32),
    /// It sent to the multicast channel of this number, of which a port is full.
    FullPort(u32),
    /// It spawned a thread, and there is no room for one more.
    Thread,
    /// It made a nack, and there is no room for one more.
    Nack,
    /// It made something else of which there is no room for one more.
    Object,
}

// The part of a call's step that is at fault.
fn part_of_call(alloc: Global, program: &Prog, call: &Call) -> Result<Part, AllocError>
    ensures { let h = plain_held (entry_of.Call call.now) in
        IfOk result (λ part. part ≡ spec.part_of_entry program.now (Some h)) }
{
    if call.function() as usize >= program.functions() {
        return Ok(Part::Other);
    }
    let f = program.function(call.function());
    part_of_step(alloc, f, call.at(), call.values())
}

// The part of the step of an entry that is at fault.
fn part_of_entry(alloc: Global, program: &Prog, seen: Seen<'_>) -> Result<Part, AllocError>
    ensures { IfOk result (λ part. part ≡ spec.part_of_entry program.now (Some (plain_seen seen.entry))) }
{
    match seen {
        Seen::Call(call) => part_of_call(alloc, program, call),
        Seen::Force(_, _) => Ok(Part::Other),
        Seen::Wraps(_) => Ok(Part::Other),
    }
}

// The part of the next step of a thread that is at fault.
#[tactic(auto, using(crate::proofs::StepLemmas::top_is, crate::proofs::StepLemmas::no_top))]
fn part_of(alloc: Global, program: &Prog, machine: &Machine) -> Result<Part, AllocError>
    ensures { IfOk result (λ part. part ≡ spec.part_of_entry program.now (spec.top_entry machine.now.stack)) }
{
    let mut walk = machine.entries();
    match walk.step() {
        Some(seen) => part_of_entry(alloc, program, seen),
        None => Ok(Part::Other),
    }
}

/// Why a thread ended at a fault, which asked for this by its last step, before which it had this machine.
///
/// # Errors
/// Out of memory.
pub fn reason_of(
    alloc: Global,
    program: &Prog,
    machine: &Machine,
    ask: &Ask,
) -> Result<Reason, AllocError>
    ensures { IfOk result (λ reason. reason ≡ spec.reason_of program.now machine.now (plain_ask ask.now)) }
{
    match ask {
        Ask::Fault(why) => {
            let part = part_of(alloc, program, machine)?;
            Ok(Reason::Step(*why, part))
        }
        Ask::IPut(i, _) => Ok(Reason::FullIVar(i.0)),
        Ask::MPut(m, _) => Ok(Reason::FullMVar(m.0)),
        Ask::Sync(_) => Ok(Reason::Group),
        Ask::Mail(b, _) => Ok(Reason::FullMailbox(b.0)),
        Ask::Multicast(x, _) => Ok(Reason::FullPort(x.0)),
        Ask::Spawn(_) => Ok(Reason::Thread),
        Ask::Nack => Ok(Reason::Nack),
        Ask::Nothing => Ok(Reason::Object),
        Ask::Yield => Ok(Reason::Object),
        Ask::MakeChan => Ok(Reason::Object),
        Ask::MakeSwap => Ok(Reason::Object),
        Ask::MakeIVar => Ok(Reason::Object),
        Ask::MakeMVar(_) => Ok(Reason::Object),
        Ask::MakeMailbox => Ok(Reason::Object),
        Ask::MakeMchan => Ok(Reason::Object),
        Ask::MakePort(_) => Ok(Reason::Object),
        Ask::CopyPort(_) => Ok(Reason::Object),
        Ask::Print(_) => Ok(Reason::Object),
        Ask::Now => Ok(Reason::Object),
        Ask::End => Ok(Reason::Object),
    }
}
