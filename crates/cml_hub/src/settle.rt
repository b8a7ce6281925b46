//! Machines that are answered.

ghost use Rattle.std.specs.{Prelude.{◌≡◌, ◌<◌, ◌++◌, ◌∷◌, [], length, option_map, slice_get, Some}, Option.{option_to_list}, Vec.{vec_len, vec_capacity}};
ghost use Rattle.cml_step.specs.Machines.{PlainMachine};
ghost use Rattle.cml_hub.specs.{Dones.{CanSettle, children}, Settling.{SettlesAll, AllSettled, Resumes, Resumed, AllResume, AllResumed}};

use crate::done::Done;
use cml_book::{Committed, Resume};
use cml_step::Machine;
use cml_value::{Tid, Value, ValueKind};

// Adds, after the others, the machine of a thread that begins. It is not inlined, so that the frame of other turns need not hold a machine.
#[inline(never)]
fn push_child(machines: &mut Vec<Machine>, child: Box<Machine>)
    requires { vec_len machines.old < vec_capacity machines.old }
    ensures { machines.new.items ≡ machines.old.items ++ child.value ∷ [] }
{
    machines.push_reserved(Box::into_inner(child));
}

// Answers the machine where it stands, once what it asked was done. Returns the machine of a thread that begins by that.
fn settle_machine(machine: &mut Machine, done: Done) -> Option<Box<Machine>>
    requires { CanSettle machine.old done }
    ensures machine { SettlesAll machine.old done machine.new }
    ensures child { option_to_list (option_map (λ b. b.value) result) ≡ children done }
{
    match done {
        Done::Goes | Done::Waits => None,
        Done::Gets(value) => {
            machine.take_value(value);
            None
        }
        Done::Takes(room) => {
            machine.take_nack(Box::into_inner(room));
            None
        }
        Done::Spawns(child) => {
            machine.take_value(Value::new(ValueKind::Thread(child.thread())));
            Some(child)
        }
        Done::Prints => {
            machine.take_value(Value::new(ValueKind::Unit));
            None
        }
        Done::Ends | Done::Fails(_) => {
            machine.stop();
            None
        }
    }
}

// Answers the thread's machine where it stands, once what it asked was done; the machine of a thread that begins comes after the others.
pub(crate) fn settle(machines: &mut Vec<Machine>, thread: Tid, done: Done)
    requires there { thread.0 < length machines.old.items }
    requires settles { (end : PlainMachine) → slice_get machines.old.items thread.0 ≡ Some end → CanSettle end done }
    requires room { vec_len machines.old < vec_capacity machines.old }
    ensures { (end : PlainMachine) → slice_get machines.old.items thread.0 ≡ Some end
        → AllSettled machines.old.items thread.0 end done machines.new.items }
{
    let child = settle_machine(&mut machines[thread.0 as usize], done);
    match child {
        Some(child) => push_child(machines, child),
        None => {}
    }
}

// Lets a party of a row go on where its machine stands.
fn resume(machines: &mut Vec<Machine>, resume: Resume)
    requires { Resumes machines.old.items resume }
    ensures { Resumed machines.old.items resume machines.new.items }
{
    let Resume {
        tid,
        value,
        wraps,
        fired,
    } = resume;
    drop(fired);
    let place = tid.0 as usize;
    if place >= machines.len() {
        unreachable!();
    }
    machines[place].take_commit(value, wraps);
}

// Lets the parties of a row go on, the head first.
pub(crate) fn resume_all(machines: &mut Vec<Machine>, committed: Committed)
    requires { AllResume machines.old.items committed }
    ensures { AllResumed machines.old.items committed machines.new.items }
{
    let Committed { head, partner } = committed;
    resume(machines, head);
    if let Some(partner) = partner {
        resume(machines, partner);
    }
}
