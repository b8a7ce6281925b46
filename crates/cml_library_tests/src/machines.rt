//! The slices of a thread, where the answers are put in by hand.

ghost use Rattle.std.specs.Prelude.{◌≡◌, IfSome};
ghost use Rattle.cml_step.specs.{Answers.{top_await}, AskViews.{plain_ask}, Machines.{machine_term, Fits}};
ghost use Rattle.cml_step.specs.Answers as answers;

use crate::making::{MEMORY, program_of};
use cml_check::Prog;
use cml_step::{Ask, Machine, slice};
use cml_value::{FnRef, NackId, Tid, Value, ValueKind};
use std::process::Abort;

// Its first slices have 1 and 2 steps: it gives up its turn, and asks for a nack.
const SCRIPT: &str = "(fn g (n) (return n)) (fn main () (yield) (sync (withnack g)))";

// The thread once it is answered, if it has given up its turn or asks for a nack.
fn go_on(
    rt: &(impl Abort + AllocGlobal),
    program: &Prog,
    end: Machine,
    ask: &Ask,
) -> Option<Machine>
    requires fits { Fits program.now end }
    requires awaits { top_await (machine_term program.now end)
        ≡ answers.await_of (plain_ask ask.now) }
    ensures fits { IfSome result (λ m. Fits program.now m) }
    ensures awaits { IfSome result (λ m.
        top_await (machine_term program.now m) ≡ answers.nothing) }
{
    let mut machine = end;
    match ask {
        Ask::Yield => machine.take_value(Value::new(ValueKind::Unit)),
        Ask::Nack => {
            let room = machine
                .reserve_nack(rt.alloc(), NackId(0))
                .expect(rt, MEMORY);
            machine.take_nack(room);
        }
        _ => {
            drop(machine);
            return None;
        }
    }
    Some(machine)
}

// The slice of the thread, of so many steps: where it ends, and what it asks.
fn slice_of(
    rt: &(impl Abort + AllocGlobal),
    program: &Prog,
    machine: Machine,
    steps: u32,
) -> (Machine, Ask)
    requires fits { Fits program.now machine }
    requires awaits { top_await (machine_term program.now machine) ≡ answers.nothing }
    ensures fits { Fits program.now result.0 }
    ensures awaits { top_await (machine_term program.now result.0)
        ≡ answers.await_of (plain_ask result.1) }
{
    let ran = slice(rt.alloc(), program, machine).expect(rt, MEMORY);
    assert!(rt; ran.steps() == steps);
    ran.into_end()
}

// The thread after such a slice, once it is answered.
fn after(rt: &(impl Abort + AllocGlobal), program: &Prog, machine: Machine, steps: u32) -> Machine
    requires fits { Fits program.now machine }
    requires awaits { top_await (machine_term program.now machine) ≡ answers.nothing }
    ensures fits { Fits program.now result }
    ensures awaits { top_await (machine_term program.now result) ≡ answers.nothing }
{
    let (end, ask) = slice_of(rt, program, machine, steps);
    let next = go_on(rt, program, end, &ask).expect(rt, "a thread that goes on");
    drop(ask);
    next
}

#[test]
fn a_thread_goes_slice_by_slice(rt: HostRuntime) {
    let program = program_of(&rt, SCRIPT);
    let main = FnRef::new(rt.alloc(), program.main(), Vec::new(rt.alloc())).expect(&rt, MEMORY);
    let start = Machine::start(rt.alloc(), &program, Tid(0), main).expect(&rt, MEMORY);
    let first = after(&rt, &program, start, 1);
    let second = after(&rt, &program, first, 2);
    drop(second);
    drop(program);
}
