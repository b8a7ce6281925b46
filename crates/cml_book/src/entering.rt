//! How a group enters: an event after some ticks becomes an event at a tick, counted from now.

ghost use Rattle.std.specs.{Prelude.{◌≡◌, false, IfOk}, List.{list_any}};
ghost use Rattle.cml_value.specs.Group.{bases};
ghost use Rattle.cml_book.specs.Entering.{is_far, entered, entered_base};

use cml_value::{Base, BaseKind, Group, GroupKind};
use std::alloc::{AllocError, Global};

// The base event as it enters at this tick.
fn entering_base(base: &Base, tick: u64) -> Result<Base, AllocError>
    requires { is_far tick base.now ≡ false }
    ensures { IfOk result (λ b. b ≡ entered_base tick base.now) }
{
    match base.kind() {
        BaseKind::After(d) => Ok(Base::new(BaseKind::At(tick + *d))),
        _ => base.copy(),
    }
}

/// The group as it enters at this tick: each of its leaves enters in this way. No leaf waits for a tick above the greatest.
///
/// # Errors
/// Out of memory.
#[tactic(auto, using(crate::proofs::Entered::entered_steps))]
pub(crate) fn entering(alloc: Global, group: &Group, tick: u64) -> Result<Group, AllocError>
    requires { list_any (is_far tick) (bases group.now) ≡ false }
    ensures { IfOk result (λ g. g ≡ entered tick group.now) }
{
    match group.kind() {
        GroupKind::Never => Ok(Group::new(GroupKind::Never)),
        GroupKind::Leaf(b) => Ok(Group::new(GroupKind::Leaf(entering_base(b, tick)?))),
        GroupKind::Choose(gs) => {
            let mut members = Vec::with_capacity(alloc, gs.len())?;
            for g in gs.iter() {
                members.push_reserved(entering(alloc, g, tick)?);
            }
            Ok(Group::choose(alloc, members)?)
        }
        GroupKind::Wrap(g, f) => {
            let inner = entering(alloc, g, tick)?;
            Ok(inner.wrap(alloc, f.copy()?)?)
        }
        GroupKind::Scope(k, g) => {
            let inner = entering(alloc, g, tick)?;
            Ok(inner.scope(alloc, *k)?)
        }
    }
}
