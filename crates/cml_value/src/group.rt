//! Forced events.

ghost use Rattle.std.specs.Prelude.{◌≡◌, IfOk, IfErr, IsTrue, ◌↔◌};
ghost use Rattle.cml_value.specs.GroupViews.{plain_group};

mod limits;
mod sizes;

use crate::number::NackId;
use crate::size::Size;
use crate::value::{Base, FnRef};
use std::alloc::{AllocError, AllocFailed, Global};
use std::marker::Model;
use std::sync::Arc;

/// A forced event, which a thread can synchronize on: no guard and no withNack is left in it.
/// It is immutable, and its copies share what is large. Its depth and its nodes are kept with it.
#[cycle(group)]
#[derive(Drop)]
pub struct Group {
    kind: GroupKind,
    size: Size,
}

/// What a group is.
#[cycle(group)]
#[derive(Drop)]
pub enum GroupKind {
    /// Never enabled.
    Never,
    /// A base event.
    Leaf(Base),
    /// Any one of these.
    Choose(Arc<Vec<Group>>),
    /// The group, whose result goes through the function.
    Wrap(Arc<Group>, FnRef),
    /// The branch of this nack.
    Scope(NackId, Arc<Group>),
}

impl Model for Group {
    ghost use Rattle.std.specs.Prelude.{◌≡◌};
    ghost use Rattle.cml_value.specs.{Group.{PlainGroup, group_depth, group_nodes}, Sizes.{kept}, GroupHeights.{group_height}, GroupCodes.{group_code}};

    ghost Value = { PlainGroup };

    ghost coded = { group_code };

    ghost use Rattle.cml_value.specs.GroupViews.{plain_group};

    ghost view = { λ a. plain_group a.kind };

    ghost invariant = { λ a. (a.size.depth ≡ kept (group_depth (plain_group a.kind)))
        × (a.size.nodes ≡ kept (group_nodes (plain_group a.kind))) };

    ghost size = { group_height };

    ghost use Rattle.cml_value.specs.GroupHeightsFall.{deep_le-group_height};

    ghost size_decreases = { λ a h. deep_le-group_height a.kind };
}

impl Group {
    ghost use Rattle.cml_value.specs.Group.{choose, wrap, scope, groups};

    /// The group of this kind.
    #[inline(always)]
    pub fn new(kind: GroupKind) -> Group
        ensures { result ≡ plain_group kind }
    {
        let size = kind.size();
        Group { kind, size }
    }

    /// Any one of these.
    ///
    /// # Errors
    /// Out of memory; the groups come back.
    pub fn choose(alloc: Global, members: Vec<Group>) -> Result<Group, AllocFailed<Vec<Group>>>
        ensures ok { IfOk result (λ g. g ≡ choose (groups members.items)) }
        ensures err { IfErr result (λ back. back.value ≡ members) }
    {
        match Arc::new(alloc, members) {
            Ok(shared) => Ok(Group::new(GroupKind::Choose(shared))),
            Err(back) => Err(back),
        }
    }

    /// This group, whose result goes through the function.
    ///
    /// # Errors
    /// Out of memory; the group and the function come back.
    pub fn wrap(self, alloc: Global, function: FnRef) -> Result<Group, AllocFailed<(Group, FnRef)>>
        ensures ok { IfOk result (λ g. g ≡ wrap self function) }
        ensures err { IfErr result (λ back. back.value ≡ (self, function)) }
    {
        match Arc::new(alloc, self) {
            Ok(shared) => Ok(Group::new(GroupKind::Wrap(shared, function))),
            Err(back) => Err(AllocFailed {
                value: (back.value, function),
            }),
        }
    }

    /// This group as the branch of the nack.
    ///
    /// # Errors
    /// Out of memory; the group comes back.
    pub fn scope(self, alloc: Global, nack: NackId) -> Result<Group, AllocFailed<Group>>
        ensures ok { IfOk result (λ g. g ≡ scope nack.0 self) }
        ensures err { IfErr result (λ back. back.value ≡ self) }
    {
        match Arc::new(alloc, self) {
            Ok(shared) => Ok(Group::new(GroupKind::Scope(nack, shared))),
            Err(back) => Err(back),
        }
    }

    /// What the group is.
    pub fn kind(&self) -> &GroupKind
        ensures { plain_group result.now ≡ self.now }
    {
        &self.kind
    }

    /// What the group is, taken out of it.
    pub fn into_kind(self) -> GroupKind
        ensures { plain_group result ≡ self }
    {
        self.kind
    }

    /// Another owner of the same group.
    ///
    /// # Errors
    /// Out of memory: no more owners can be counted.
    pub fn copy(&self) -> Result<Group, AllocError>
        ensures { IfOk result (λ g. g ≡ self.now) }
    {
        let kind = self.kind.copy()?;
        Ok(Group {
            kind,
            size: self.size,
        })
    }

    /// Whether the two are the same group, part for part.
    #[tactic(auto, using(crate::proofs::Counts::group_counts))]
    pub fn same(&self, other: &Group) -> bool
        ensures { IsTrue result ↔ (self.now ≡ other.now) }
    {
        match (&self.kind, &other.kind) {
            (GroupKind::Never, GroupKind::Never) => true,
            (GroupKind::Leaf(a), GroupKind::Leaf(b)) => a.same(b),
            (GroupKind::Choose(gs), GroupKind::Choose(hs)) => {
                if gs.len() != hs.len() {
                    return false;
                }
                for i in 0..gs.len() {
                    if !gs[i].same(&hs[i]) {
                        return false;
                    }
                }
                true
            }
            (GroupKind::Wrap(g, f), GroupKind::Wrap(h, k)) => f.same(k) && g.same(h),
            (GroupKind::Scope(k, g), GroupKind::Scope(l, h)) => k.0 == l.0 && g.same(h),
            _ => false,
        }
    }
}

impl GroupKind {
    // The same, with another owner of what it shares.
    fn copy(&self) -> Result<GroupKind, AllocError>
        ensures { IfOk result (λ k. plain_group k ≡ plain_group self.now) }
    {
        Ok(match self {
            GroupKind::Never => GroupKind::Never,
            GroupKind::Leaf(b) => GroupKind::Leaf(b.again()?),
            GroupKind::Choose(gs) => GroupKind::Choose(Arc::try_clone(gs)?),
            GroupKind::Wrap(g, f) => {
                let shared = Arc::try_clone(g)?;
                GroupKind::Wrap(shared, f.copy()?)
            }
            GroupKind::Scope(k, g) => {
                let shared = Arc::try_clone(g)?;
                GroupKind::Scope(*k, shared)
            }
        })
    }
}
