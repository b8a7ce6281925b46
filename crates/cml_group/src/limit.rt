//! How many leaves a group has.

ghost use Rattle.std.specs.Prelude.{◌≡◌, ◌+◌, not, nat_lt, nat_le, is_some, IfSome};
ghost use Rattle.cml_value.specs.Group.{leaf_count};
ghost use Rattle.cml_group.specs.LaidOut.{max_leaves};

use cml_value::{Group, GroupKind};

/// The most leaves that a group may have.
pub const MAX_LEAVES: usize = 256;

// What is left of a budget of leaves after the group, where it is enough.
#[tactic(auto, using(std::proofs::lemmas::Bool::Decides::nat_tests, crate::proofs::Leaves::counts))]
fn spend_leaves(group: &Group, budget: usize) -> Option<usize>
    ensures enough { is_some result ≡ nat_le (leaf_count group.now) budget }
    ensures left { IfSome result (λ left. left + leaf_count group.now ≡ budget) }
{
    match group.kind() {
        GroupKind::Never => Some(budget),
        GroupKind::Leaf(_) => budget.checked_sub(1),
        GroupKind::Choose(gs) => {
            let mut left = budget;
            for g in gs.iter() {
                left = spend_leaves(g, left)?;
            }
            Some(left)
        }
        GroupKind::Wrap(g, _) => spend_leaves(g, budget),
        GroupKind::Scope(_, g) => spend_leaves(g, budget),
    }
}

/// Whether the group has at most [`MAX_LEAVES`] leaves. One of no more nodes has no more leaves; else a walk counts them, which
/// stops at the first one above. It takes no memory.
#[tactic(auto, using(std::proofs::lemmas::Bool::Decides::nat_tests, crate::proofs::Leaves::within))]
pub fn has_few_leaves(group: &Group) -> bool
    ensures { result ≡ not (nat_lt max_leaves (leaf_count group.now)) }
{
    if group.nodes() <= MAX_LEAVES as u64 {
        return true;
    }
    spend_leaves(group, MAX_LEAVES).is_some()
}
