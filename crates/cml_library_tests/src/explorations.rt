//! Many runs, where no command asks for them. What a seed picks was computed apart, by its generator as it is published.

ghost use Rattle.std.specs.Prelude.{◌≤◌, ◌+◌, ◌^◌};
ghost use Rattle.cml_hub.specs.Kept.{IsBudget};

use crate::making::{MEMORY, forms, program};
use cml_explore::{Asked, Order, Orders, explain_runs, explore};
use cml_judge::Wanted;
use std::process::Abort;
use std::rt::HostRuntime;

// The put fails, unless the take comes first.
const PUT: &str =
    "(fn taker (m)\n  (sync (mtake m)))\n(fn main ()\n  (let m (mvar 0))\n  (spawn taker m)\n  (mput m 1))";

// So many runs in this order, from this seed on.
fn asked(first: u64, runs: u64, order: Order) -> Asked<'static>
    requires { first + runs ≤ 2 ^ 64 }
    ensures budget { IsBudget result.budget }
    ensures seeds { result.first + result.runs ≤ 2 ^ 64 }
{
    Asked {
        budget: 100,
        first,
        runs,
        orders: Orders::Named(order),
        servers: &[],
        wanted: Wanted {
            properties: &[],
            first: &[],
        },
        until: &[],
    }
}

// What is said of the runs that are asked for, which all end well or not.
fn tells(rt: &(impl Abort + AllocGlobal), script: &str, asked: Asked<'_>, is_well: bool, said: &str)
    requires budget { IsBudget asked.budget }
    requires seeds { asked.first + asked.runs ≤ 2 ^ 64 }
{
    let forms = forms(rt, script);
    let program = program(rt, forms.as_slice());
    let made = explore(rt.alloc(), &program, asked).expect(rt, MEMORY);
    assert!(rt; made.is_well() == is_well, "{said}");
    let text = script.as_bytes();
    let told = explain_runs(
        rt.alloc(),
        "a.cml",
        text,
        forms.as_slice(),
        &program,
        asked,
        &made,
    )
    .expect(rt, MEMORY);
    assert!(rt; told.as_slice() == said.as_bytes(), "{said}");
    drop(told);
    drop(made);
    drop(program);
    drop(forms);
}

#[test]
fn tells_of_no_run(rt: HostRuntime) {
    let none = asked(0, 0, Order::Queue);
    let said =
        "0 runs of a.cml, seed 0, by picks\ngood: 0 runs by picks; not all schedules (verify looks at all)\n";
    tells(&rt, "(fn main ()\n  (print 1))", none, true, said);
}

// As where the depth is 1.
#[test]
fn tells_of_priorities_of_no_depth(rt: HostRuntime) {
    let ten = asked(0, 10, Order::Priority(0));
    let said =
        "10 runs of a.cml, seeds 0 to 9, by priorities of depth 0\nbad   5  quiet, none waits, 1 fault   1 output    first: --seed 0 --priority 0, 6 items\n       thread 0 main at 6:3 ends at a fault: M-variable 0 is full: it can be put only where it is empty\ngood  5  quiet, none waits            1 output    first: --seed 3 --priority 0, 7 items\nbad: 5 of 10 runs\n";
    tells(&rt, PUT, ten, false, said);
}
