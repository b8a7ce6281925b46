//! The walk that lays a group flat.

ghost use Rattle.std.specs.Prelude.{◌≡◌, ◌≤◌, ◌++◌, map, take, drop, length, OnOk};
ghost use Rattle.cml_value.specs.Group.{leaves as leaves_of, scopes_from, wrapped_by};

use cml_value::{Base, FnRef, Group, GroupKind, NackId};
use std::alloc::{AllocError, Global};
use std::marker::Model;

/// A leaf, with the functions that its result goes through, innermost first.
#[derive(Drop)]
pub struct Leaf {
    pub base: Base,
    pub wraps: Vec<FnRef>,
}

impl Model for Leaf {
    ghost use Rattle.cml_value.specs.{Group.{PlainLeaf}, GroupCodes.{leaf_code}};

    ghost Value = { PlainLeaf };

    ghost coded = { leaf_code };

    ghost view = { λ a. record { base = a.base; wraps = a.wraps.items } };
}

impl Leaf {
    // At an error the leaf is as it was.
    fn wrap(&mut self, function: &FnRef) -> Result<(), AllocError>
        ensures { OnOk result (self.new ≡ wrapped_by function.now self.old) }
    {
        let copy = function.copy()?;
        self.wraps.push(copy)?;
        Ok(())
    }
}

/// The branch of a nack: its first leaf, and the number past its last one.
#[derive(Drop)]
pub struct Branch {
    pub nack: NackId,
    pub first: usize,
    pub past: usize,
}

impl Model for Branch {
    ghost use Rattle.cml_value.specs.Group.{PlainScope};
    ghost use Rattle.cml_group.specs.ScopeCodes.{scope_code};

    ghost Value = { PlainScope };

    ghost coded = { scope_code };

    ghost view = { λ a. record { nack = a.nack.0; first = a.first; past = a.past } };
}

/// The branches of a group, of which most groups have none.
pub type Branches = Vec<Branch>;

// Appends the function to those of each leaf from this number on.
fn wrap_from(leaves: &mut Vec<Leaf>, first: usize, function: &FnRef) -> Result<(), AllocError>
    ensures { OnOk result (leaves.new.items
        ≡ take first leaves.old.items ++ map (wrapped_by function.now) (drop first leaves.old.items)) }
{
    for i in first..leaves.len() {
        leaves[i].wrap(function)?;
    }
    Ok(())
}

/// Appends the group's leaves to these leaves, and its scopes to these branches.
///
/// # Errors
/// Out of memory.
pub fn lay(
    group: &Group,
    alloc: Global,
    leaves: &mut Vec<Leaf>,
    branches: &mut Branches,
) -> Result<(), AllocError>
    ensures leaves_added { OnOk result
        (leaves.new.items ≡ leaves.old.items ++ leaves_of group.now) }
    ensures scopes_added { OnOk result
        (branches.new.items ≡ branches.old.items ++ scopes_from (length leaves.old.items) group.now) }
{
    match group.kind() {
        GroupKind::Never => Ok(()),
        GroupKind::Leaf(b) => {
            let base = b.copy()?;
            leaves.push(Leaf {
                base,
                wraps: Vec::new(alloc),
            })?;
            Ok(())
        }
        GroupKind::Choose(gs) => {
            for g in gs.iter() {
                lay(g, alloc, leaves, branches)?;
            }
            Ok(())
        }
        GroupKind::Wrap(g, f) => {
            let first = leaves.len();
            lay(g, alloc, leaves, branches)?;
            wrap_from(leaves, first, f)
        }
        GroupKind::Scope(k, g) => {
            let first = leaves.len();
            let place = branches.len();
            lay(g, alloc, leaves, branches)?;
            let branch = Branch {
                nack: *k,
                first,
                past: leaves.len(),
            };
            branches.insert(place, branch)?;
            Ok(())
        }
    }
}
