//! What stands around the place where a forcing goes on.

ghost use Rattle.std.specs.Prelude.{◌≡◌, ◌↔◌, IsTrue, ℕ, ◌+◌, ◌≤◌, ◌∷◌, ◌++◌, length, drop, IfOk, OnOk, is_some, IfSome};
ghost use Rattle.cml_value.specs.{Value.{events}, Limits.{is_within, events_depth, events_nodes, event_nodes, event_fits, max_depth, max_nodes}};
ghost use Rattle.cml_group.specs.{Frames.{plug, side_depth, side_nodes, sides_depth, sides_nodes, in_scope, IsRoom}, FrameViews.{plain_frame}};

use crate::force::done::Done;
use cml_value::{Event, FnRef, MAX_DEPTH, MAX_NODES, NackId};
use std::alloc::{AllocError, Global};
use std::marker::Model;
use std::sync::Arc;

/// One step out from the place. It is immutable, and its copies share what is large.
#[derive(Drop)]
pub struct Frame {
    kind: FrameKind,
}

/// What the place stands in, or what the frames around it so far stand in.
#[derive(Drop)]
pub enum FrameKind {
    /// A choice: the members before it, forced; all members; and the number of the first one to come.
    Choose(Done, Arc<Vec<Event>>, usize),
    /// A wrap with this function.
    Wrap(FnRef),
    /// The branch of this nack.
    Scope(NackId),
}

impl Model for Frame {
    ghost use Rattle.cml_group.specs.{Frames.{PlainFrame}, FrameCodes.{frame_code}};

    ghost Value = { PlainFrame };

    ghost coded = { frame_code };

    ghost use Rattle.cml_group.specs.FrameViews.{plain_frame};

    ghost view = { λ a. plain_frame a.kind };
}

// What is left of a budget of nodes after the members from this number on, where the budget and the depth are enough for them.
#[tactic(auto, using(std::proofs::lemmas::Bool::Decides::nat_tests))]
fn spend_from(members: &[Event], next: usize, depth: u32, budget: u32) -> Option<u32>
    ensures enough { is_some result
        ≡ is_within depth budget (events_depth (events (drop next members.now)))
        (events_nodes (events (drop next members.now))) }
    ensures left { IfSome result (λ left.
        left + events_nodes (events (drop next members.now)) ≡ budget) }
{
    let mut left = budget;
    for i in next..members.len() {
        left = members[i].spend(depth, left)?;
    }
    Some(left)
}

// The members from this number on.
fn members_from(members: &[Event], next: usize) -> &[Event]
    ensures { result.now ≡ drop next members.now }
{
    &members[next.min(members.len())..]
}

// Whether the two are the same events, one after another.
fn same_events(events: &[Event], others: &[Event]) -> bool
    ensures { IsTrue result ↔ (events.now ≡ others.now) }
{
    if events.len() != others.len() {
        return false;
    }
    for i in 0..events.len() {
        if !events[i].same(&others[i]) {
            return false;
        }
    }
    true
}

/// Whether the two are the same frames, one after another.
pub fn same_frames(frames: &[Frame], others: &[Frame]) -> bool
    ensures { IsTrue result ↔ (frames.now ≡ others.now) }
{
    if frames.len() != others.len() {
        return false;
    }
    for i in 0..frames.len() {
        if !frames[i].same(&others[i]) {
            return false;
        }
    }
    true
}

impl Frame {
    /// The frame of this kind.
    pub fn new(kind: FrameKind) -> Frame
        ensures { result ≡ plain_frame kind }
    {
        Frame { kind }
    }

    /// What the frame is.
    pub fn kind(&self) -> &FrameKind
        ensures { plain_frame result.now ≡ self.now }
    {
        &self.kind
    }

    /// Another owner of the same frame.
    ///
    /// # Errors
    /// Out of memory.
    pub fn copy(&self, alloc: Global) -> Result<Frame, AllocError>
        ensures { IfOk result (λ frame. frame ≡ self.now) }
    {
        let kind = match &self.kind {
            FrameKind::Choose(done, members, next) => {
                let members = Arc::try_clone(members)?;
                FrameKind::Choose(done.copy(alloc)?, members, *next)
            }
            FrameKind::Wrap(f) => FrameKind::Wrap(f.copy()?),
            FrameKind::Scope(k) => FrameKind::Scope(*k),
        };
        Ok(Frame { kind })
    }

    /// Whether the two are the same frame, part for part.
    pub fn same(&self, other: &Frame) -> bool
        ensures { IsTrue result ↔ (self.now ≡ other.now) }
    {
        match (&self.kind, &other.kind) {
            (FrameKind::Choose(done, members, next), FrameKind::Choose(old, others, from)) => {
                done.same(old)
                    && same_events(members_from(members, *next), members_from(others, *from))
            }
            (FrameKind::Wrap(f), FrameKind::Wrap(g)) => f.same(g),
            (FrameKind::Scope(k), FrameKind::Scope(l)) => k.0 == l.0,
            _ => false,
        }
    }

    // What is left of a budget of nodes after the frame without what stands in it, where the budget and the depth are enough.
    #[tactic(auto, using(std::proofs::lemmas::Bool::Decides::nat_tests))]
    fn spend(&self, depth: u32, budget: u32) -> Option<u32>
        ensures enough { is_some result
            ≡ is_within depth budget (side_depth self.now) (side_nodes self.now) }
        ensures left { IfSome result (λ left. left + side_nodes self.now ≡ budget) }
    {
        if let FrameKind::Scope(_) = &self.kind {
            return budget.checked_sub(1);
        }
        if depth == 0 || budget == 0 {
            return None;
        }
        match &self.kind {
            FrameKind::Choose(done, members, next) => {
                let left = done.spend(depth - 1, budget - 1)?;
                spend_from(members, *next, depth - 1, left)
            }
            FrameKind::Wrap(f) => f.spend(depth - 1, budget - 1),
            FrameKind::Scope(_) => Some(budget - 1),
        }
    }
}

// What is left of the budget of nodes after the frames, where the budget and the depth are enough for them.
#[tactic(auto, using(std::proofs::lemmas::Bool::Decides::nat_tests))]
fn spend_frames(frames: &[Frame]) -> Option<u32>
    requires { length frames.now ≤ max_depth }
    ensures enough { is_some result
        ≡ is_within max_depth max_nodes (sides_depth frames.now) (sides_nodes frames.now) }
    ensures left { IfSome result (λ left. left + sides_nodes frames.now ≡ max_nodes) }
{
    let mut depth = MAX_DEPTH - frames.len() as u32;
    let mut left = MAX_NODES;
    for frame in frames {
        depth += 1;
        left = frame.spend(depth, left)?;
    }
    Some(left)
}

/// How many nodes an event in the frames may have, where any event may stand there.
#[tactic(auto, using(std::proofs::lemmas::Bool::Decides::nat_tests, crate::proofs::Plugs::measured))]
pub fn room_of(frames: &[Frame]) -> Option<u32>
    ensures { IsRoom result frames.now }
{
    if frames.len() > MAX_DEPTH as usize {
        return None;
    }
    spend_frames(frames)
}

/// How many nodes an event in a scope in the frames may have.
#[tactic(auto, using(std::proofs::lemmas::Bool::Decides::nat_tests, crate::proofs::Plugs::measured))]
pub fn room_in_scope(room: Option<u32>, frames: &[Frame]) -> Option<u32>
    requires { IsRoom room frames.now }
    ensures { (k : ℕ) → IsRoom result (in_scope k ∷ frames.now) }
{
    let room = room?;
    if frames.len() > MAX_DEPTH as usize {
        return None;
    }
    room.checked_sub(1)
}

/// How many nodes may still be added to the event in the frames, where all of it is within the limits.
#[tactic(auto, using(std::proofs::lemmas::Bool::Decides::nat_tests, crate::proofs::Plugs::measured))]
pub fn spend_within(room: Option<u32>, frames: &[Frame], event: &Event) -> Option<u32>
    requires { IsRoom room frames.now }
    ensures enough { is_some result ≡ event_fits (plug frames.now event.now) }
    ensures left { IfSome result (λ left.
        left + event_nodes (plug frames.now event.now) ≡ max_nodes) }
{
    let room = room?;
    if frames.len() > MAX_DEPTH as usize {
        return None;
    }
    event.spend(MAX_DEPTH - frames.len() as u32, room)
}

/// Appends copies of the frames.
///
/// # Errors
/// Out of memory.
pub fn add_frames(all: &mut Vec<Frame>, alloc: Global, frames: &[Frame]) -> Result<(), AllocError>
    ensures { OnOk result (all.new.items ≡ all.old.items ++ frames.now) }
{
    for frame in frames {
        all.push(frame.copy(alloc)?)?;
    }
    Ok(())
}
