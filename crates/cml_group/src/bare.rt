//! Groups that are flat as they stand: base events, and choices among base events that carry no value. No list of leaves is
//! kept for them.

ghost use Rattle.std.specs.Prelude.{◌≡◌, ◌<◌, true, length, slice_get};
ghost use Rattle.cml_value.specs.Group.{groups, leaf, leaf_count};
ghost use Rattle.cml_group.specs.{LaidOut.{is_bare, is_bare_leaf, are_bare_leaves, is_bare_choice, is_flat}, Leaves.{leaf_base}};

use cml_value::{Base, BaseKind, Group, GroupKind};

// Whether the base event carries no value.
fn is_bare(base: &Base) -> bool
    ensures { result ≡ is_bare base.now }
{
    !matches!(
        base.kind(),
        BaseKind::Always(_) | BaseKind::Send(_, _) | BaseKind::Swap(_, _) | BaseKind::MSwap(_, _)
    )
}

// The same base event once more: it takes no memory and counts no owner, since there is no value to share.
#[inline(never)]
fn bare_again(base: &Base) -> Base
    requires { is_bare base.now ≡ true }
    ensures { result ≡ base.now }
{
    let kind = match base.kind() {
        BaseKind::Recv(channel) => BaseKind::Recv(*channel),
        BaseKind::IGet(cell) => BaseKind::IGet(*cell),
        BaseKind::MTake(cell) => BaseKind::MTake(*cell),
        BaseKind::MGet(cell) => BaseKind::MGet(*cell),
        BaseKind::MailRecv(mailbox) => BaseKind::MailRecv(*mailbox),
        BaseKind::PortRecv(port) => BaseKind::PortRecv(*port),
        BaseKind::Join(thread) => BaseKind::Join(*thread),
        BaseKind::At(tick) => BaseKind::At(*tick),
        BaseKind::After(delay) => BaseKind::After(*delay),
        BaseKind::Nack(nack) => BaseKind::Nack(*nack),
        _ => unreachable!(),
    };
    Base::new(kind)
}

// Whether the group is a base event that carries no value.
fn is_bare_leaf(group: &Group) -> bool
    ensures { result ≡ is_bare_leaf group.now }
{
    match group.kind() {
        GroupKind::Leaf(base) => is_bare(base),
        _ => false,
    }
}

// Whether each of the groups is one.
#[inline(never)]
fn are_bare_leaves(members: &[Group]) -> bool
    ensures { result ≡ are_bare_leaves (groups members.now) }
{
    for member in members {
        if !is_bare_leaf(member) {
            return false;
        }
    }
    true
}

// The base event of this number among such groups.
fn bare_member(members: &[Group], n: usize) -> &Base
    requires bare { are_bare_leaves (groups members.now) ≡ true }
    requires n { n < length members.now }
    ensures leaf { slice_get members.now n ≡ Some (leaf result.now) }
    ensures bare { is_bare result.now ≡ true }
{
    match members[n].kind() {
        GroupKind::Leaf(base) => base,
        _ => unreachable!(),
    }
}

/// Whether the group is flat as it stands.
pub fn is_flat(group: &Group) -> bool
    ensures { result ≡ is_flat group.now }
{
    match group.kind() {
        GroupKind::Leaf(_) => true,
        GroupKind::Choose(members) => are_bare_leaves(members),
        _ => false,
    }
}

/// Whether the group is a choice among base events that carry no value.
pub fn is_bare_choice(group: &Group) -> bool
    ensures { result ≡ is_bare_choice group.now }
{
    match group.kind() {
        GroupKind::Choose(members) => are_bare_leaves(members),
        _ => false,
    }
}

/// How many leaves the group has, which is flat as it stands.
pub fn own_count(group: &Group) -> usize
    requires { is_flat group.now ≡ true }
    ensures { result ≡ leaf_count group.now }
{
    match group.kind() {
        GroupKind::Leaf(_) => 1,
        GroupKind::Choose(members) => members.len(),
        _ => unreachable!(),
    }
}

/// The leaf of this number of a group that is flat as it stands.
pub fn own_leaf(group: &Group, n: usize) -> &Base
    requires flat { is_flat group.now ≡ true }
    requires leaf { n < leaf_count group.now }
    ensures { leaf_base group.now n ≡ Some result.now }
{
    match group.kind() {
        GroupKind::Leaf(base) => base,
        GroupKind::Choose(members) => bare_member(members, n),
        _ => unreachable!(),
    }
}

/// The same leaf, for whoever chose it. It takes no memory.
#[inline(always)]
pub fn own_base(group: Group, n: usize) -> Base
    requires flat { is_flat group ≡ true }
    requires leaf { n < leaf_count group }
    ensures { leaf_base group n ≡ Some result }
{
    match group.into_kind() {
        GroupKind::Leaf(base) => base,
        GroupKind::Choose(members) => bare_again(bare_member(&members, n)),
        _ => unreachable!(),
    }
}
