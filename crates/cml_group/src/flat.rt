//! A group laid flat.

ghost use Rattle.std.specs.{Prelude.{◌≡◌, ◌≤◌, ◌<◌, length, map, filter, slice_get, [], OnOk, IfOk, IfErr}, Vec.{vec_capacity}};
ghost use Rattle.cml_value.specs.Group.{PlainGroup, leaf_count, scopes, nacks_of, lies_outside, lost};
ghost use Rattle.cml_group.specs.{Leaves.{pick, leaf_base, leaf_wraps, numbers}, LaidOut.{IsWithinLimits, IsLaidOut}, Faults.{Refuses}};

use crate::bare::{is_flat, own_base, own_count, own_leaf};
use crate::fault::FlatFault;
use crate::lay::{Branch, Branches, Leaf, lay};
use crate::limit::{MAX_LEAVES, has_few_leaves};
use cml_value::{Base, FnRef, Group, GroupKind, NackId};
use std::alloc::{AllocError, Global};
use std::marker::Model;

/// A group laid flat. Its leaves are numbered from the left, from 0.
#[derive(Drop)]
pub struct Flat {
    group: Group,
    // none where the group is flat as it stands: its leaves are read off it
    listed: Option<Box<Lists>>,
    alloc: Global,
}

// The leaves and the branches of a group that is not flat as it stands, and its nacks.
#[derive(Drop)]
struct Lists {
    leaves: Vec<Leaf>,
    branches: Branches,
    nacks: Vec<NackId>,
}

impl Model for Flat {
    ghost use Rattle.std.specs.{Prelude.{◌≡◌, ◌≤◌, true, IfSome, IfNone}, Vec.{vec_capacity}};
    ghost use Rattle.cml_value.specs.{Group.{PlainGroup, leaf_count}, GroupCodes.{group_code}};
    ghost use Rattle.cml_group.specs.LaidOut.{IsLaidOut, is_flat, max_leaves};

    ghost Value = { PlainGroup };

    ghost coded = { group_code };

    ghost view = { λ a. a.group };

    ghost invariant = { λ a. (leaf_count a.group ≤ max_leaves)
        × IfNone a.listed (is_flat a.group ≡ true)
        × IfSome a.listed (λ b. IsLaidOut a.group b.value.leaves.items b.value.branches.items b.value.nacks.items (vec_capacity b.value.nacks)) };
}

/// What choosing a leaf leads to.
#[derive(Drop)]
pub struct Chosen {
    /// What the leaf waited for.
    pub base: Base,
    /// The functions that its result goes through, in the order in which they run.
    pub wraps: Vec<FnRef>,
    /// The nacks that fire.
    pub lost: Vec<NackId>,
}

// Fills the list, which has room, with the nacks of those branches in which the leaf does not lie.
fn fill(nacks: &mut Vec<NackId>, branches: &[Branch], leaf: usize)
    requires { length branches.now ≤ vec_capacity nacks.old }
    ensures { numbers nacks.new.items ≡ nacks_of (filter (lies_outside leaf) branches.now) }
{
    nacks.clear();
    for branch in branches {
        if leaf < branch.first || branch.past <= leaf {
            nacks.push_reserved(branch.nack);
        }
    }
}

// Whether the leaf lies outside the branch at this place.
fn loses_at(branches: &[Branch], leaf: usize, place: usize) -> bool
    requires { place < length branches.now }
    ensures { slice_get (map (lies_outside leaf) branches.now) place ≡ Some result }
{
    let branch = &branches[place];
    leaf < branch.first || branch.past <= leaf
}

// The nacks of those branches in which the leaf does not lie.
fn lost_among(alloc: Global, branches: &[Branch], leaf: usize) -> Result<Vec<NackId>, AllocError>
    ensures { IfOk result (λ ks. numbers ks.items ≡ nacks_of (filter (lies_outside leaf) branches.now)) }
{
    let mut nacks = Vec::with_capacity(alloc, branches.len())?;
    fill(&mut nacks, branches, leaf);
    Ok(nacks)
}

// The nacks of the branches, in a list with room for all of them.
fn nacks_in(alloc: Global, branches: &[Branch]) -> Result<Vec<NackId>, AllocError>
    ensures nacks { IfOk result (λ ks. numbers ks.items ≡ nacks_of branches.now) }
    ensures room { IfOk result (λ ks. length branches.now ≤ vec_capacity ks) }
{
    let mut nacks = Vec::with_capacity(alloc, branches.len())?;
    for branch in branches {
        nacks.push_reserved(branch.nack);
    }
    Ok(nacks)
}

// How many leaves there is to be room for at first: those of a choice among base events.
fn first_room(group: &Group) -> usize {
    match group.kind() {
        GroupKind::Choose(members) => members.len().min(MAX_LEAVES),
        _ => 0,
    }
}

// What is listed of the group.
#[inline(never)]
fn lists_of(group: &Group, alloc: Global) -> Result<Box<Lists>, AllocError>
    ensures { IfOk result (λ b. IsLaidOut group.now b.value.leaves.items b.value.branches.items b.value.nacks.items (vec_capacity b.value.nacks)) }
{
    let mut leaves = Vec::with_capacity(alloc, first_room(group))?;
    let mut branches = Vec::new(alloc);
    lay(group, alloc, &mut leaves, &mut branches)?;
    let nacks = nacks_in(alloc, branches.as_slice())?;
    let lists = Box::new(
        alloc,
        Lists {
            leaves,
            branches,
            nacks,
        },
    )?;
    Ok(lists)
}

/// The group laid flat: a thread offers its leaves. All that [`Flat::choose`] will hand out is reserved here.
///
/// The leaves are counted exactly, up to the limit, as [`has_few_leaves`] does: a walk over the tree, in which a shared part counts
/// each time that it stands there. So a group with few leaves takes as long as it has nodes, also where these are more than 65,536.
///
/// # Errors
/// More than [`MAX_LEAVES`] leaves, then too much depth or too many nodes, then out of memory. Each hands the group back.
pub fn flatten(alloc: Global, group: Group) -> Result<Flat, FlatFault>
    ensures within { IfOk result (λ flat. IsWithinLimits group) }
    ensures ok { IfOk result (λ flat. flat ≡ group) }
    ensures err { IfErr result (λ fault. Refuses fault group) }
{
    if !has_few_leaves(&group) {
        return Err(FlatFault::Leaves(group));
    }
    if !group.fits() {
        return Err(FlatFault::Deep(group));
    }
    if is_flat(&group) {
        return Ok(Flat {
            group,
            listed: None,
            alloc,
        });
    }
    match lists_of(&group, alloc) {
        Ok(lists) => Ok(Flat {
            group,
            listed: Some(lists),
            alloc,
        }),
        Err(_) => Err(FlatFault::Memory(group)),
    }
}

impl Flat {
    /// The group.
    pub fn group(&self) -> &Group
        ensures { result.now ≡ self.now }
    {
        &self.group
    }

    /// How many leaves there are, at most [`MAX_LEAVES`].
    pub fn len(&self) -> usize
        ensures len { result ≡ leaf_count self.now }
        ensures few { result ≤ MAX_LEAVES }
    {
        match &self.listed {
            None => own_count(&self.group),
            Some(listed) => listed.leaves.len(),
        }
    }

    /// What the leaf of this number waits for.
    pub fn leaf(&self, n: usize) -> &Base
        requires { n < leaf_count self.now }
        ensures { leaf_base self.now n ≡ Some result.now }
    {
        match &self.listed {
            None => own_leaf(&self.group, n),
            Some(listed) => &listed.leaves[n].base,
        }
    }

    /// The functions that the result of the leaf goes through, in the order in which they run: innermost first.
    pub fn wraps(&self, n: usize) -> &[FnRef]
        requires { n < leaf_count self.now }
        ensures { leaf_wraps self.now n ≡ Some result.now }
    {
        match &self.listed {
            None => &[],
            Some(listed) => &listed.leaves[n].wraps,
        }
    }

    /// The nacks of all scopes, from the left, an outer one before those in it.
    pub fn scopes(&self) -> &[NackId]
        ensures nacks { numbers result.now ≡ nacks_of (scopes self.now) }
        ensures len { length result.now ≡ length (scopes self.now) }
    {
        match &self.listed {
            None => &[],
            Some(listed) => &listed.nacks,
        }
    }

    /// Whether the nack of the scope at this place fires where the leaf is chosen: the leaf lies outside the scope.
    pub fn loses(&self, n: usize, scope: usize) -> bool
        requires leaf { n < leaf_count self.now }
        requires scope { scope < length (scopes self.now) }
        ensures { slice_get (map (lies_outside n) (scopes self.now)) scope ≡ Some result }
    {
        match &self.listed {
            None => unreachable!(),
            Some(listed) => loses_at(listed.branches.as_slice(), n, scope),
        }
    }

    /// The nacks that fire where the leaf is chosen, in the order of [`Flat::scopes`].
    ///
    /// # Errors
    /// Out of memory.
    pub fn lost(&self, alloc: Global, n: usize) -> Result<Vec<NackId>, AllocError>
        requires { n < leaf_count self.now }
        ensures { IfOk result (λ ks. numbers ks.items ≡ lost self.now n) }
    {
        match &self.listed {
            None => Ok(Vec::new(alloc)),
            Some(listed) => lost_among(alloc, listed.branches.as_slice(), n),
        }
    }

    /// The leaf, chosen. It takes no memory: the lists were reserved by [`flatten`].
    #[inline(always)]
    pub fn choose(self, n: usize) -> Chosen
        requires { n < leaf_count self }
        ensures leaf { pick self n
            ≡ Some (record { base = result.base; wraps = result.wraps.items }) }
        ensures lost { numbers result.lost.items ≡ lost self n }
    {
        let Flat {
            group,
            listed,
            alloc,
        } = self;
        match listed {
            None => Chosen {
                base: own_base(group, n),
                wraps: Vec::new(alloc),
                lost: Vec::new(alloc),
            },
            Some(listed) => choose_listed(Box::into_inner(listed), n),
        }
    }
}

// The leaf of this number among those that are listed, chosen.
#[inline(never)]
fn choose_listed(listed: Lists, n: usize) -> Chosen
    requires leaf { n < length listed.leaves.items }
    requires room { length listed.branches.items ≤ vec_capacity listed.nacks }
    ensures leaf { slice_get listed.leaves.items n ≡ Some (record { base = result.base; wraps = result.wraps.items }) }
    ensures lost { numbers result.lost.items ≡ nacks_of (filter (lies_outside n) listed.branches.items) }
{
    let Lists {
        mut leaves,
        branches,
        mut nacks,
    } = listed;
    fill(&mut nacks, branches.as_slice(), n);
    let Leaf { base, wraps } = leaves.swap_remove(n);
    Chosen {
        base,
        wraps,
        lost: nacks,
    }
}
