//! A schedule is gone through once more.

ghost use Rattle.std.specs.{Prelude.{◌≡◌, ℕ, None, false, IfOk, OnOk, Some, slice_get, ◌⊎◌}, List.{list_any}};
ghost use Rattle.cml_scan.specs.World.{PlainThread};
ghost use Rattle.cml_step.specs.Calls.{text_of};
ghost use Rattle.cml_value.specs.Group.{bases};
ghost use Rattle.cml_facts.specs.{Again.{RunsAgain}, Takes.{taker_in, KnowsTakers}};
ghost use Rattle.cml_facts.specs.Waits as waits;

use crate::ending::again::{begin_again, come, let_go};
use crate::ending::takers::Takers;
use cml_hub::Hub;
use cml_scan::leaf_bases;
use cml_value::{Base, BaseKind, Group, Tid};
use std::alloc::{AllocError, Global};

// The other hub's items come one after another in this hub, which stands at its beginning.
fn follow_all(
    alloc: Global,
    hub: &Hub,
    second: &mut Hub,
    takers: &mut Takers,
) -> Result<(), AllocError>
    requires begun { RunsAgain hub.now second.old 0 }
    requires none_taken { (m : ℕ) → taker_in takers.old m ≡ None }
    ensures { OnOk result (KnowsTakers (text_of hub.now.course.program) hub.now.course.items takers.new) }
{
    let items = hub.schedule();
    for i in 0..items.len() {
        let item = items[i];
        // No effect: named here so that the prover knows what holds of it.
        let _so_far = second.schedule();
        takers.follow(alloc, second, &item)?;
        come(alloc, second, item)?;
    }
    Ok(())
}

// Who took from each M-variable last in the hub's schedule, which is gone through once more.
fn replayed(alloc: Global, hub: &Hub) -> Result<Takers, AllocError>
    ensures { IfOk result (λ takers. KnowsTakers (text_of hub.now.course.program) hub.now.course.items takers) }
{
    let mut takers = Takers::new(alloc);
    let mut second = begin_again(alloc, hub)?;
    let followed = follow_all(alloc, hub, &mut second, &mut takers);
    let_go(second);
    followed?;
    Ok(takers)
}

// Whether the base event is one of an M-variable.
fn is_on_mvar(base: &Base) -> bool
    ensures { result ≡ waits.is_on_mvar base.now }
{
    matches!(
        base.kind(),
        BaseKind::MTake(_) | BaseKind::MGet(_) | BaseKind::MSwap(_, _)
    )
}

// Whether a base event of the group is.
fn has_mvar(alloc: Global, group: &Group) -> Result<bool, AllocError>
    ensures { IfOk result (λ has. has ≡ list_any waits.is_on_mvar (bases group.now)) }
{
    let all = leaf_bases(alloc, group)?;
    for base in &all {
        if is_on_mvar(base) {
            return Ok(true);
        }
    }
    Ok(false)
}

// Whether the thread of this number waits for an M-variable.
fn waits_on_mvar(alloc: Global, hub: &Hub, thread: Tid) -> Result<bool, AllocError>
    ensures { IfOk result (λ so. (t : PlainThread) →
        slice_get hub.now.course.world.threads thread.0 ≡ Some t → so ≡ waits.waits_on_mvar t) }
{
    match hub.book().waiting(thread) {
        Some(group) => has_mvar(alloc, group),
        None => Ok(false),
    }
}

// Whether a thread waits for an M-variable.
fn some_wait_on_mvar(alloc: Global, hub: &Hub) -> Result<bool, AllocError>
    ensures { IfOk result (λ some. some ≡ list_any waits.waits_on_mvar hub.now.course.world.threads) }
{
    for t in 0..hub.book().next_thread().0 {
        let asks = waits_on_mvar(alloc, hub, Tid(t))?;
        if asks {
            return Ok(true);
        }
    }
    Ok(false)
}

/// Who took from each M-variable last in the hub's schedule, where a thread waits for one. Where none does, the schedule is not gone through.
pub(crate) fn takers_of(alloc: Global, hub: &Hub) -> Result<Takers, AllocError>
    ensures { IfOk result (λ takers. KnowsTakers (text_of hub.now.course.program) hub.now.course.items takers
        ⊎ (list_any waits.waits_on_mvar hub.now.course.world.threads ≡ false)) }
{
    if some_wait_on_mvar(alloc, hub)? {
        replayed(alloc, hub)
    } else {
        Ok(Takers::new(alloc))
    }
}
