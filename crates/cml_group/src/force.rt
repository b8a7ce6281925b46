//! The forcing of an event.

ghost use Rattle.std.specs.Prelude.{◌≡◌, ◌↔◌, IsTrue, ◌∷◌, ◌+◌, true, Some, IfOk, IfErr, IfSome, OnOk, OnErr, is_some, MatchOption};
ghost use Rattle.cml_value.specs.{Value.{PlainFunction, PlainEvent, leaf, guard, scope}, Limits.{event_nodes, event_fits, max_nodes}};
ghost use Rattle.cml_group.specs.{Force.{calls, needs_nack, unforced, replaced, given_nack, event_of, AwaitsEvent, AwaitsNack}, Asks.{Asks, RefusesAnswer}};
ghost use Rattle.cml_group.specs.{Frames.{in_scope, plug}, FrameViews.{plain_hole, hole_ask, plain_part, IsRoomOf}};

mod done;
mod frame;
mod part;

use crate::fault::ForceFault;
use crate::force::frame::{Frame, FrameKind, room_in_scope, room_of, spend_within};
use crate::force::part::{Hole, Part, climb, force};
use crate::forced::Forced;
use cml_value::{
    Base, BaseKind, Event, EventKind, FnRef, Group, GroupKind, MAX_DEPTH, MAX_NODES, NackId, Value,
};
use std::alloc::{AllocError, AllocFailed, Global};
use std::marker::Model;

/// What a forcing asks for.
#[derive(Drop)]
pub enum Next {
    /// The event that the function returns.
    Call(FnRef),
    /// A fresh nack.
    NeedNack,
    /// Nothing: all is forced.
    Ready,
}

/// An event being forced: its guards and withNacks are replaced by the events that their functions return, one after another.
/// Contracts see of it the event itself.
#[derive(Drop)]
pub struct Forcing {
    part: Part,
    room: Option<u32>,
}

impl Model for Forcing {
    ghost use Rattle.cml_value.specs.{Value.{PlainEvent}, Codes.{event_code}};

    ghost Value = { PlainEvent };

    ghost coded = { event_code };

    ghost use Rattle.cml_group.specs.FrameViews.{plain_part, IsRoomOf};

    ghost view = { λ a. plain_part a.part };

    ghost invariant = { λ a. IsRoomOf a.room a.part };
}

// How many nodes may stand where the forcing of this event goes on.
fn first_room(part: &Part) -> Option<u32>
    ensures { IsRoomOf result part.now }
{
    match part {
        Part::Whole(_) => None,
        Part::Open(frames, _) => room_of(frames),
    }
}

// The same of an event within the limits, to which this many nodes could be added.
#[tactic(auto, using(std::proofs::lemmas::Bool::Decides::nat_tests, crate::proofs::Plugs::measured))]
fn next_room(part: &Part, left: u32) -> Option<u32>
    requires fits { event_fits (plain_part part.now) ≡ true }
    requires left { left + event_nodes (plain_part part.now) ≡ max_nodes }
    ensures { IsRoomOf result part.now }
{
    match part {
        Part::Whole(_) => None,
        Part::Open(_, Hole::Guard(f) | Hole::WithNack(f)) => {
            let beside = f.spend(MAX_DEPTH, MAX_NODES - left)?;
            Some(MAX_NODES - beside + 1)
        }
    }
}

// The answer in the frames, forced up to its first guard or withNack.
fn put_in(alloc: Global, frames: &[Frame], answer: &Event) -> Result<Part, AllocError>
    ensures { IfOk result (λ part. plain_part part ≡ plug frames.now answer.now) }
{
    let part = force(answer, alloc)?;
    climb(alloc, frames, part)
}

// The function, with the event of the nack as its last argument.
#[tactic(auto, using(crate::proofs::Plugs::values_push))]
fn with_nack_event(alloc: Global, function: &FnRef, nack: NackId) -> Result<FnRef, AllocError>
    ensures { IfOk result (λ given. given ≡ given_nack nack.0 function.now) }
{
    let mut args = Vec::new(alloc);
    for argument in function.args() {
        args.push(argument.copy()?)?;
    }
    let event = Event::new(EventKind::Leaf(Base::new(BaseKind::Nack(nack))));
    args.push(Value::event(alloc, event)?)?;
    Ok(FnRef::new(alloc, function.func(), args)?)
}

// Makes the withNack there a guard of its function, given the nack, in one more frame: the scope of the nack. What may fail comes
// first, so all stays as it is where memory runs out.
fn give_nack(
    alloc: Global,
    frames: &mut Vec<Frame>,
    hole: &mut Hole,
    nack: NackId,
) -> Result<FnRef, AllocError>
    ensures function { IfOk result (λ given. (f : PlainFunction) →
        hole_ask hole.old ≡ needs_nack f → given ≡ given_nack nack.0 f) }
    ensures guard { IfOk result (λ given. plain_hole hole.new ≡ guard given) }
    ensures frames { OnOk result (frames.new.items ≡ in_scope nack.0 ∷ frames.old.items) }
    ensures err { OnErr result (frames.new.items ≡ frames.old.items) }
    ensures unchanged { OnErr result (hole.new ≡ hole.old) }
{
    // A nack is awaited, so it is a withNack.
    let Hole::WithNack(f) = &*hole else {
        return Err(AllocError);
    };
    let given = with_nack_event(alloc, f, nack)?;
    let kept = given.copy()?;
    frames.insert(0, Frame::new(FrameKind::Scope(nack)))?;
    *hole = Hole::Guard(kept);
    Ok(given)
}

// The steps. Each makes a forcing of its own: copies share what is large, so the old one stays as it is where memory runs out.
impl Forcing {
    // How many nodes may still be added to the event with this answer in its place, where all of it is within the limits.
    fn spend(&self, answer: &Event) -> Option<u32>
        requires { AwaitsEvent self.now }
        ensures enough { is_some result ≡ event_fits (replaced answer.now self.now) }
        ensures left { IfSome result (λ left.
            left + event_nodes (replaced answer.now self.now) ≡ max_nodes) }
    {
        // An answer is awaited, so there is a place for it.
        let Part::Open(frames, _) = &self.part else {
            return None;
        };
        spend_within(self.room, frames, answer)
    }

    // The forcing with the answer in its place, to which this many nodes may still be added.
    fn with_answer(&self, alloc: Global, answer: &Event, left: u32) -> Result<Forcing, AllocError>
        requires awaits { AwaitsEvent self.now }
        requires fits { event_fits (replaced answer.now self.now) ≡ true }
        requires left { left + event_nodes (replaced answer.now self.now) ≡ max_nodes }
        ensures { IfOk result (λ next. next ≡ replaced answer.now self.now) }
    {
        // The same here.
        let Part::Open(frames, _) = &self.part else {
            return Err(AllocError);
        };
        let part = put_in(alloc, frames, answer)?;
        let room = next_room(&part, left);
        Ok(Forcing { part, room })
    }
}

// The forcing of a choice that was forced before, as one more owner of its group.
fn found(event: &Event, forced: &Forced) -> Option<Forcing>
    ensures { IfSome result (λ forcing. forcing ≡ event.now) }
{
    let group = forced.find(event)?;
    match group.copy() {
        Ok(copy) => Some(Forcing {
            part: Part::Whole(copy),
            room: None,
        }),
        Err(_) => None,
    }
}

// The forcing of this choice: of one that was forced before, or anew.
#[inline(never)]
fn start_choice(
    alloc: Global,
    event: Event,
    forced: &mut Forced,
) -> Result<Forcing, AllocFailed<Event>>
    ensures ok { IfOk result (λ forcing. forcing ≡ event) }
    ensures err { IfErr result (λ back. back.value ≡ event) }
{
    if let Some(forcing) = found(&event, forced) {
        drop(event);
        return Ok(forcing);
    }
    let forcing = Forcing::start(alloc, event)?;
    if let Part::Whole(group) = &forcing.part {
        forced.keep(group);
    }
    Ok(forcing)
}

impl Forcing {
    /// The forcing of this event, up to its first guard or withNack.
    ///
    /// # Errors
    /// Out of memory; the event comes back.
    pub fn start(alloc: Global, event: Event) -> Result<Forcing, AllocFailed<Event>>
        ensures ok { IfOk result (λ forcing. forcing ≡ event) }
        ensures err { IfErr result (λ back. back.value ≡ event) }
    {
        match force(&event, alloc) {
            Ok(part) => {
                let room = first_room(&part);
                Ok(Forcing { part, room })
            }
            Err(_) => Err(AllocFailed { value: event }),
        }
    }

    /// The forcing of this event, as [`Forcing::start`] begins it. A choice among base events that carry no value is shared if it was forced
    /// before, and kept to be shared if it was not.
    ///
    /// # Errors
    /// Out of memory; the event comes back.
    pub fn start_again(
        alloc: Global,
        event: Event,
        forced: &mut Forced,
    ) -> Result<Forcing, AllocFailed<Event>>
        ensures ok { IfOk result (λ forcing. forcing ≡ event) }
        ensures err { IfErr result (λ back. back.value ≡ event) }
    {
        match event.kind() {
            EventKind::Choose(_) => start_choice(alloc, event, forced),
            _ => Forcing::start(alloc, event),
        }
    }

    /// The forcing of a base event, of which nothing is left to be forced. It takes no memory.
    #[inline(always)]
    pub fn of_base(base: Base) -> Forcing
        ensures { result ≡ leaf base }
    {
        Forcing {
            part: Part::Whole(Group::new(GroupKind::Leaf(base))),
            room: None,
        }
    }

    /// The group that the event was forced to, if nothing is asked for.
    #[inline(always)]
    pub fn whole(&self) -> Option<&Group>
        ensures { MatchOption result (unforced self.now ≡ None → ⊥)
            (λ g. (unforced self.now ≡ None) × (event_of g.now ≡ self.now)) }
    {
        match &self.part {
            Part::Whole(group) => Some(group),
            Part::Open(_, _) => None,
        }
    }

    /// What is asked for: the same until it is answered.
    ///
    /// # Errors
    /// Out of memory: no more owners of the function can be counted.
    pub fn next(&self) -> Result<Next, AllocError>
        ensures { IfOk result (λ next. Asks next (unforced self.now)) }
    {
        match &self.part {
            Part::Whole(_) => Ok(Next::Ready),
            Part::Open(_, hole) => hole.next(),
        }
    }

    /// Answers with a fresh nack, where one is asked for. The function that comes back, with the nack's event as its last
    /// argument, is to be called next. The event that it returns will stand in the withNack's place as the branch of the nack.
    ///
    /// # Errors
    /// Out of memory. The forcing is then as it was.
    pub fn answer_nack(&mut self, alloc: Global, nack: NackId) -> Result<FnRef, AllocError>
        requires { AwaitsNack self.old }
        ensures function { IfOk result (λ given. (f : PlainFunction) →
            unforced self.old ≡ Some (needs_nack f) → given ≡ given_nack nack.0 f) }
        ensures ok { IfOk result (λ given.
            self.new ≡ replaced (scope nack.0 (guard given)) self.old) }
        ensures next { IfOk result (λ given. unforced self.new ≡ Some (calls given)) }
        ensures branch { OnOk result ((answer : PlainEvent) →
            replaced answer self.new ≡ replaced (scope nack.0 answer) self.old) }
        ensures err { OnErr result (self.new ≡ self.old) }
    {
        // A nack is awaited, so there is a place for it.
        let Part::Open(frames, hole) = &mut self.part else {
            return Err(AllocError);
        };
        let room = room_in_scope(self.room, frames);
        let given = give_nack(alloc, frames, hole, nack)?;
        self.room = room;
        Ok(given)
    }

    /// Puts the event that the function returned in its place, where one is asked for.
    ///
    /// # Errors
    /// An event that with this answer, and with all that is still unforced, would not be within the limits; then out of
    /// memory. Each hands the answer back, and the forcing is as it was.
    pub fn answer_event(&mut self, alloc: Global, answer: Event) -> Result<(), ForceFault>
        requires { AwaitsEvent self.old }
        ensures ok { OnOk result (self.new ≡ replaced answer self.old) }
        ensures within { OnOk result (event_fits self.new ≡ true) }
        ensures err { IfErr result (λ fault.
            RefusesAnswer fault answer (replaced answer self.old)) }
        ensures unchanged { OnErr result (self.new ≡ self.old) }
    {
        let Some(left) = self.spend(&answer) else {
            return Err(ForceFault::Deep(answer));
        };
        let Ok(next) = self.with_answer(alloc, &answer, left) else {
            return Err(ForceFault::Memory(answer));
        };
        drop(answer);
        *self = next;
        Ok(())
    }

    /// A copy of the event being forced, which shares its parts. Each frame around the place where the forcing goes on gets one more owner;
    /// what is forced already is not gone through.
    ///
    /// # Errors
    /// Out of memory.
    pub fn copy(&self, alloc: Global) -> Result<Forcing, AllocError>
        ensures { IfOk result (λ forcing. forcing ≡ self.now) }
    {
        let part = self.part.copy(alloc)?;
        Ok(Forcing {
            part,
            room: self.room,
        })
    }

    /// Whether the two are the same event being forced, part for part. It takes no memory, and at most the time of a walk
    /// through the event: where the two wait for different things, only these are compared.
    pub fn same(&self, other: &Forcing) -> bool
        ensures { IsTrue result ↔ (self.now ≡ other.now) }
    {
        self.part.same(&other.part)
    }

    /// Another owner of the group that the event was forced to, where nothing is asked for.
    ///
    /// # Errors
    /// Out of memory.
    pub fn group(&self) -> Result<Group, AllocError>
        requires { unforced self.now ≡ None }
        ensures { IfOk result (λ g. event_of g ≡ self.now) }
    {
        match &self.part {
            Part::Whole(group) => group.copy(),
            // Nothing is asked for, so it is whole.
            Part::Open(_, _) => Ok(Group::new(GroupKind::Never)),
        }
    }

    /// The group that the event was forced to, where nothing is asked for.
    pub fn finish(self) -> Group
        requires { unforced self ≡ None }
        ensures { event_of result ≡ self }
    {
        match self.part {
            Part::Whole(group) => group,
            // Nothing is asked for, so it is whole.
            Part::Open(_, _) => Group::new(GroupKind::Never),
        }
    }
}
