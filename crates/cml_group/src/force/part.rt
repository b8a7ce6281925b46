//! An event, forced up to a guard or a withNack.

ghost use Rattle.std.specs.Prelude.{◌≡◌, ◌↔◌, IsTrue, ℕ, true, false, ◌++◌, ◌∷◌, [], drop, map, Option, Some, IfOk};
ghost use Rattle.cml_value.specs.Value.{wrap, scope, choose, events};
ghost use Rattle.cml_group.specs.{Force.{event_of}, Frames.{framed, plug, choice}, FrameViews.{plain_hole, plain_part, hole_ask, IsRoomOf}, Asks.{Asks}};

use crate::force::Next;
use crate::force::done::Done;
use crate::force::frame::{Frame, FrameKind, add_frames, same_frames};
use cml_value::{Event, EventKind, FnRef, Group, GroupKind, NackId};
use std::alloc::{AllocError, Global};
use std::sync::Arc;

/// Where forcing goes on.
#[derive(Drop)]
pub enum Hole {
    /// A guard, or a withNack that was given its nack.
    Guard(FnRef),
    /// A withNack.
    WithNack(FnRef),
}

/// An event, forced up to its first guard or withNack.
#[derive(Drop)]
pub enum Part {
    /// Nothing is left to be forced.
    Whole(Group),
    /// The frames around the first one, the innermost first, and that one.
    Open(Vec<Frame>, Hole),
}

impl Hole {
    // Another owner of the same.
    fn copy(&self) -> Result<Hole, AllocError>
        ensures { IfOk result (λ hole. plain_hole hole ≡ plain_hole self.now) }
    {
        match self {
            Hole::Guard(f) => Ok(Hole::Guard(f.copy()?)),
            Hole::WithNack(f) => Ok(Hole::WithNack(f.copy()?)),
        }
    }

    // Whether the two are the same.
    fn same(&self, other: &Hole) -> bool
        ensures { IsTrue result ↔ (plain_hole self.now ≡ plain_hole other.now) }
    {
        match (self, other) {
            (Hole::Guard(f), Hole::Guard(g)) => f.same(g),
            (Hole::WithNack(f), Hole::WithNack(g)) => f.same(g),
            _ => false,
        }
    }

    /// What is asked for there.
    ///
    /// # Errors
    /// Out of memory: no more owners of the function can be counted.
    pub fn next(&self) -> Result<Next, AllocError>
        ensures { IfOk result (λ next. Asks next (Some (hole_ask self.now))) }
    {
        match self {
            Hole::Guard(f) => Ok(Next::Call(f.copy()?)),
            Hole::WithNack(_) => Ok(Next::NeedNack),
        }
    }
}

impl Part {
    /// Another owner of the same.
    ///
    /// # Errors
    /// Out of memory.
    pub fn copy(&self, alloc: Global) -> Result<Part, AllocError>
        ensures same { IfOk result (λ part. plain_part part ≡ plain_part self.now) }
        ensures room { IfOk result (λ part.
            (room : Option ℕ) → IsRoomOf room self.now → IsRoomOf room part) }
    {
        match self {
            Part::Whole(group) => Ok(Part::Whole(group.copy()?)),
            Part::Open(frames, hole) => {
                let hole = hole.copy()?;
                let mut copies = Vec::new(alloc);
                add_frames(&mut copies, alloc, frames)?;
                Ok(Part::Open(copies, hole))
            }
        }
    }

    /// Whether the two are the same event. An event has one place where its forcing goes on, so they are the same where the
    /// places and what stands around them are.
    pub fn same(&self, other: &Part) -> bool
        ensures { IsTrue result ↔ (plain_part self.now ≡ plain_part other.now) }
    {
        match (self, other) {
            (Part::Whole(group), Part::Whole(old)) => group.same(old),
            (Part::Open(frames, hole), Part::Open(others, old)) => hole.same(old)
                && same_frames(frames, others),
            (Part::Whole(_), Part::Open(_, _)) => false,
            (Part::Open(_, _), Part::Whole(_)) => false,
        }
    }

    // The event under the wrap.
    #[tactic(auto, using(crate::proofs::Plugs::pushed))]
    fn wrap(self, alloc: Global, function: &FnRef) -> Result<Part, AllocError>
        ensures { IfOk result (λ part. plain_part part ≡ wrap (plain_part self) function.now) }
    {
        let function = function.copy()?;
        match self {
            Part::Whole(group) => Ok(Part::Whole(group.wrap(alloc, function)?)),
            Part::Open(frames, hole) => opened(frames, Frame::new(FrameKind::Wrap(function)), hole),
        }
    }

    // The event as the branch of the nack.
    #[tactic(auto, using(crate::proofs::Plugs::pushed))]
    fn scope(self, alloc: Global, nack: NackId) -> Result<Part, AllocError>
        ensures { IfOk result (λ part. plain_part part ≡ scope nack.0 (plain_part self)) }
    {
        match self {
            Part::Whole(group) => Ok(Part::Whole(group.scope(alloc, nack)?)),
            Part::Open(frames, hole) => opened(frames, Frame::new(FrameKind::Scope(nack)), hole),
        }
    }

    // The event in the frame.
    #[tactic(auto, using(crate::proofs::Plugs::pushed))]
    fn within(self, alloc: Global, frame: &Frame) -> Result<Part, AllocError>
        ensures { IfOk result (λ part. plain_part part ≡ framed frame.now (plain_part self)) }
    {
        match self {
            Part::Whole(group) => match frame.kind() {
                FrameKind::Choose(done, members, next) => {
                    let mut gained = Vec::new(alloc);
                    gained.push(group)?;
                    force_members(alloc, done, members, *next, gained)
                }
                FrameKind::Wrap(f) => Ok(Part::Whole(group.wrap(alloc, f.copy()?)?)),
                FrameKind::Scope(k) => Ok(Part::Whole(group.scope(alloc, *k)?)),
            },
            Part::Open(frames, hole) => opened(frames, frame.copy(alloc)?, hole),
        }
    }
}

// The place in one more frame.
#[tactic(auto, using(crate::proofs::Plugs::pushed))]
fn opened(mut frames: Vec<Frame>, frame: Frame, hole: Hole) -> Result<Part, AllocError>
    ensures { IfOk result (λ part. plain_part part
        ≡ framed frame (plug frames.items (plain_hole hole))) }
{
    frames.push(frame)?;
    Ok(Part::Open(frames, hole))
}

/// The event, forced up to its first guard or withNack.
///
/// # Errors
/// Out of memory.
#[cycle(force)]
#[tactic(auto, using(crate::proofs::Plugs::pushed))]
pub fn force(event: &Event, alloc: Global) -> Result<Part, AllocError>
    ensures { IfOk result (λ part. plain_part part ≡ event.now) }
{
    match event.kind() {
        EventKind::Never => Ok(Part::Whole(Group::new(GroupKind::Never))),
        EventKind::Leaf(b) => Ok(Part::Whole(Group::new(GroupKind::Leaf(b.copy()?)))),
        EventKind::Choose(members) => {
            let gained = Vec::with_capacity(alloc, first_room(members))?;
            force_members(alloc, &Done::new(alloc), members, 0, gained)
        }
        EventKind::Wrap(e, f) => force(e, alloc)?.wrap(alloc, f),
        EventKind::Guard(f) => Ok(Part::Open(Vec::new(alloc), Hole::Guard(f.copy()?))),
        EventKind::WithNack(f) => Ok(Part::Open(Vec::new(alloc), Hole::WithNack(f.copy()?))),
        EventKind::Scope(k, e) => force(e, alloc)?.scope(alloc, *k),
    }
}

// How many members there is to be room for at first: all, where the first is a base event, since then most are.
fn first_room(members: &[Event]) -> usize {
    match members.first() {
        Some(first) => {
            if matches!(first.kind(), EventKind::Leaf(_)) {
                members.len()
            } else {
                0
            }
        }
        None => 0,
    }
}

// Whether the event is a base event, as most members of most choices are; it is then appended, as a group.
fn add_leaf(gained: &mut Vec<Group>, event: &Event) -> Result<bool, AllocError>
    ensures leaf { IfOk result (λ is. is ≡ true →
        map event_of gained.new.items ≡ map event_of gained.old.items ++ event.now ∷ []) }
    ensures other { IfOk result (λ is. is ≡ false → gained.new.items ≡ gained.old.items) }
{
    match event.kind() {
        EventKind::Leaf(b) => {
            gained.push(Group::new(GroupKind::Leaf(b.copy()?)))?;
            Ok(true)
        }
        _ => Ok(false),
    }
}

// The choice of the groups that are done and then gained, and of the members from this number on, forced up to its first
// guard or withNack.
#[cycle(force)]
#[tactic(auto, using(crate::proofs::Plugs::pushed))]
fn force_members(
    alloc: Global,
    done: &Done,
    members: &Arc<Vec<Event>>,
    next: usize,
    gained: Vec<Group>,
) -> Result<Part, AllocError>
    ensures { IfOk result (λ part. plain_part part
        ≡ choice (done.now ++ gained.items) (drop next members.now.value.items)) }
{
    let mut gained = gained;
    for i in next..members.len() {
        let member = &members[i];
        if add_leaf(&mut gained, member)? {
            continue;
        }
        match force(member, alloc)? {
            Part::Whole(group) => gained.push(group)?,
            Part::Open(mut frames, hole) => {
                let done = done.with(alloc, gained)?;
                let members = Arc::try_clone(members)?;
                frames.push(Frame::new(FrameKind::Choose(done, members, i + 1)))?;
                return Ok(Part::Open(frames, hole));
            }
        }
    }
    let all = done.all_with(alloc, gained)?;
    Ok(Part::Whole(Group::choose(alloc, all)?))
}

/// The event in the frames, forced up to its first guard or withNack.
///
/// # Errors
/// Out of memory.
pub fn climb(alloc: Global, frames: &[Frame], part: Part) -> Result<Part, AllocError>
    ensures { IfOk result (λ climbed. plain_part climbed ≡ plug frames.now (plain_part part)) }
{
    let mut part = part;
    for frame in frames {
        part = part.within(alloc, frame)?;
    }
    Ok(part)
}
