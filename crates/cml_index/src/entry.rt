//! A pending thread, and what the index keeps of its group.

ghost use Rattle.std.specs.Prelude.{◌≡◌, ◌≤◌, ◌<◌, ◌^◌, ◌++◌, ◌∷◌, [], length, map, IfOk};
ghost use Rattle.cml_value.specs.Group.{bases, scopes, nacks_of};
ghost use Rattle.cml_index.specs.{Posts.{slot_of}, Slots.{slot_in}, Waits.{leaf_wait, IsLone}};

use crate::slot::Wait;
use cml_scan::Place;
use cml_value::{Group, GroupKind, Tid};
use std::alloc::{AllocError, Global};
use std::marker::Model;
use std::snapshot::Snapshot;

// A pending thread, and what is kept of its group.
#[derive(Drop)]
struct PendingThread {
    tid: Tid,
    // the group, as clauses see it: it has no bytes, and owns nothing
    group: Snapshot<Group>,
    // what its leaves wait for
    waits: Vec<Wait>,
    // the nacks of the group's scopes
    nacks: Vec<u32>,
}

// A pending thread whose group is one leaf, and so has no scope.
#[derive(Drop)]
struct LoneThread {
    tid: Tid,
    // the group, as above
    group: Snapshot<Group>,
    // what its leaf waits for
    waits: [Wait; 1],
}

// What is kept of a pending thread: lies in its seat where the group is one leaf, and apart where it is not.
#[derive(Drop)]
enum Post {
    Lone(LoneThread),
    Listed(Box<PendingThread>),
}

// A pending thread, and what is kept of its group: what its leaves wait for, and the nacks of its scopes.
#[derive(Drop)]
pub(crate) struct Entry {
    post: Post,
}

// The lists of a thread that has gone, for the next that comes.
#[derive(Drop)]
pub(crate) struct Spare {
    post: Box<PendingThread>,
}

impl Model for Entry {
    ghost use Rattle.cml_scan.specs.{World.{PlainEntry}, Codes.{entry_code}};
    ghost use Rattle.cml_index.specs.{Entry.{plain_post, post_waits, post_nacks}, Waits.{IsPost}};
    ghost use Rattle.cml_value.specs.Group.{scopes, nacks_of};
    ghost use Rattle.std.specs.Prelude.{◌≡◌};

    ghost Value = { PlainEntry };

    ghost coded = { entry_code };

    ghost view = { λ e. plain_post e.post };

    ghost invariant = { λ e. (IsPost (plain_post e.post).group (post_waits e.post))
        × (post_nacks e.post ≡ nacks_of (scopes (plain_post e.post).group)) };
}

// An entry is kept for another thread only if its lists have room for at most this many.
const SHORT: usize = 256;

// The count as a u32, as leaves are numbered. A count of 2^32 or more is told as out of memory.
fn number(count: usize) -> Result<u32, AllocError>
    ensures { IfOk result (λ n. (n ≡ count) × (count < 2 ^ 32)) }
{
    u32::try_from(count).map_err(|_| AllocError)
}

// Appends what a leaf waits for.
#[inline(always)]
fn push_wait(all: &mut Vec<Wait>, wait: Wait) -> Result<(), AllocError>
    ensures { IfOk result (λ _. all.new.items ≡ all.old.items ++ wait ∷ []) }
{
    all.reserve(1)?;
    all.push_reserved(wait);
    Ok(())
}

// Appends what the group's leaves wait for, and the nacks of its scopes. Most groups are one leaf.
#[inline(always)]
fn push_group(all: &mut Vec<Wait>, nacks: &mut Vec<u32>, group: &Group) -> Result<(), AllocError>
    ensures waits { IfOk result (λ _. all.new.items ≡ all.old.items ++ map leaf_wait (bases group.now)) }
    ensures nacks { IfOk result (λ _. nacks.new.items ≡ nacks.old.items ++ nacks_of (scopes group.now)) }
{
    match group.kind() {
        GroupKind::Leaf(b) => push_wait(all, Wait::of(b)),
        _ => push_waits(all, nacks, group),
    }
}

// Appends what the group's leaves wait for, and the nacks of its scopes. Where memory runs out, what was appended until then stays.
#[tactic(auto, using(crate::proofs::Waits::wait_steps, crate::proofs::Scopes::nack_steps))]
fn push_waits(all: &mut Vec<Wait>, nacks: &mut Vec<u32>, group: &Group) -> Result<(), AllocError>
    ensures waits { IfOk result (λ _. all.new.items ≡ all.old.items ++ map leaf_wait (bases group.now)) }
    ensures nacks { IfOk result (λ _. nacks.new.items ≡ nacks.old.items ++ nacks_of (scopes group.now)) }
{
    match group.kind() {
        GroupKind::Never => Ok(()),
        GroupKind::Leaf(b) => push_wait(all, Wait::of(b)),
        GroupKind::Choose(members) => {
            for member in members.iter() {
                match member.kind() {
                    GroupKind::Leaf(b) => push_wait(all, Wait::of(b))?,
                    _ => push_waits(all, nacks, member)?,
                }
            }
            Ok(())
        }
        GroupKind::Wrap(inner, _) => push_waits(all, nacks, inner),
        GroupKind::Scope(nack, inner) => {
            nacks.push(nack.0)?;
            push_waits(all, nacks, inner)
        }
    }
}

// What the group's leaves wait for and the nacks of its scopes, in these lists, which were empty.
#[inline(always)]
fn list(waits: &mut Vec<Wait>, nacks: &mut Vec<u32>, group: &Group) -> Result<(), AllocError>
    requires empty { (waits.old.items ≡ []) × (nacks.old.items ≡ []) }
    ensures nacks { IfOk result (λ _. nacks.new.items ≡ nacks_of (scopes group.now)) }
    ensures waits { IfOk result (λ _. waits.new.items ≡ map leaf_wait (bases group.now)) }
    ensures small { IfOk result (λ _. length waits.new.items < 2 ^ 32) }
{
    push_group(waits, nacks, group)?;
    let _count = number(waits.len())?;
    Ok(())
}

// Becomes what is kept of this thread and this group, in the lists that it has.
fn refill(post: &mut PendingThread, tid: Tid, group: &Group) -> Result<(), AllocError>
    ensures tid { IfOk result (λ _. post.new.tid ≡ tid) }
    ensures group { IfOk result (λ _. post.new.group.value ≡ group.now) }
    ensures nacks { IfOk result (λ _. post.new.nacks.items ≡ nacks_of (scopes group.now)) }
    ensures waits { IfOk result (λ _. post.new.waits.items ≡ map leaf_wait (bases group.now)) }
    ensures small { IfOk result (λ _. length post.new.waits.items < 2 ^ 32) }
{
    post.tid = tid;
    post.group = Snapshot::of(group);
    post.waits.clear();
    post.nacks.clear();
    list(&mut post.waits, &mut post.nacks, group)
}

// Keeps the lists for the next thread that comes, where there is room, and they have room for at most `SHORT` leaves and as many nacks. Longer
// lists would hold memory that no thread needs.
#[inline(never)]
fn keep(spares: &mut Vec<Spare>, post: Box<PendingThread>) {
    let is_short = post.waits.capacity() <= SHORT && post.nacks.capacity() <= SHORT;
    if spares.len() < spares.capacity() && is_short {
        spares.push_reserved(Spare { post });
    } else {
        drop(post);
    }
}

impl Spare {
    // The entry of this thread and this group, in these lists.
    pub(crate) fn renew(self, tid: Tid, group: &Group) -> Result<Entry, AllocError>
        ensures { IfOk result (λ e. e ≡ record { thread = tid.0; group = group.now }) }
    {
        let mut post = self.post;
        match refill(&mut post, tid, group) {
            Ok(()) => Ok(Entry {
                post: Post::Listed(post),
            }),
            Err(error) => {
                drop(post);
                Err(error)
            }
        }
    }
}

impl Entry {
    // The entry of this thread and this group, in lists of its own. Most threads take the lists of one that has gone.
    #[inline(never)]
    pub(crate) fn new(alloc: Global, tid: Tid, group: &Group) -> Result<Entry, AllocError>
        ensures { IfOk result (λ e. e ≡ record { thread = tid.0; group = group.now }) }
    {
        let (mut waits, mut nacks) = (Vec::new(alloc), Vec::new(alloc));
        list(&mut waits, &mut nacks, group)?;
        let post = PendingThread {
            tid,
            group: Snapshot::of(group),
            waits,
            nacks,
        };
        Ok(Entry {
            post: Post::Listed(Box::new(alloc, post)?),
        })
    }

    // The entry of this thread and this group, which is one leaf that waits for this. It takes no memory.
    #[inline(always)]
    pub(crate) fn lone(tid: Tid, group: &Group, wait: Wait) -> Entry
        requires { IsLone group.now wait }
        ensures { result ≡ record { thread = tid.0; group = group.now } }
    {
        Entry {
            post: Post::Lone(LoneThread {
                tid,
                group: Snapshot::of(group),
                waits: [wait],
            }),
        }
    }

    // Keeps its lists for the next thread that comes, where it has some, there is room, and they are short.
    #[inline(always)]
    pub(crate) fn rest_in(self, spares: &mut Vec<Spare>) {
        match self.post {
            Post::Lone(lone) => drop(lone),
            Post::Listed(post) => keep(spares, post),
        }
    }

    #[inline(always)]
    pub(crate) fn tid(&self) -> Tid
        ensures { result.0 ≡ self.now.thread }
    {
        match &self.post {
            Post::Lone(lone) => lone.tid,
            Post::Listed(post) => post.tid,
        }
    }

    // The place of the leaf.
    pub(crate) fn place(&self, leaf: usize) -> Place
        requires { leaf < length (bases self.now.group) }
        ensures { result ≡ record { tid = record { 0 = self.now.thread }; leaf = leaf } }
    {
        // No effect: named here so that the prover knows what holds of it.
        let _waits = self.waits();
        Place {
            tid: self.tid(),
            leaf: leaf as u32,
        }
    }

    // The nacks of the group's scopes.
    pub(crate) fn nacks(&self) -> &[u32]
        ensures { result.now ≡ nacks_of (scopes self.now.group) }
    {
        match &self.post {
            Post::Lone(_) => &[],
            Post::Listed(post) => &post.nacks,
        }
    }

    // What the leaves wait for, from the left.
    #[inline(always)]
    pub(crate) fn waits(&self) -> &[Wait]
        ensures same { result.now ≡ map leaf_wait (bases self.now.group) }
        ensures slots { map slot_in result.now ≡ map slot_of (bases self.now.group) }
        ensures many { length result.now ≡ length (bases self.now.group) }
        ensures small { length result.now < 4294967296 }
    {
        match &self.post {
            Post::Lone(lone) => &lone.waits,
            Post::Listed(post) => &post.waits,
        }
    }
}
