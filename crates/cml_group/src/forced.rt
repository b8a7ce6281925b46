//! Choices that were forced before, so that one which comes again is shared and not made anew.

ghost use Rattle.std.specs.Prelude.{◌≡◌, true, [], map, IfSome};
ghost use Rattle.cml_group.specs.{Force.{event_of}, Force.{events_of}};
ghost use Rattle.cml_value.specs.{Value.{events, PlainEvents}, Group.{groups}};

use crate::bare::is_bare_choice;
use crate::limit::MAX_LEAVES;
use cml_value::{Base, BaseKind, Event, EventKind, Group, GroupKind};
use std::alloc::Global;
use std::marker::Model;

// So many choices are kept.
const MOST: usize = 8;

// A choice among base events that carry no value: so no value of a program is held in it.
#[derive(Drop)]
struct Choice {
    group: Group,
}

impl Model for Choice {
    ghost use Rattle.std.specs.Prelude.{◌≡◌, ◌≤◌, true};
    ghost use Rattle.cml_value.specs.{Group.{PlainGroup, group_nodes}, GroupCodes.{group_code}};
    ghost use Rattle.cml_group.specs.LaidOut.{is_bare_choice, max_leaves};

    ghost Value = { PlainGroup };

    ghost coded = { group_code };

    ghost view = { λ a. a.group };

    ghost invariant = { λ a. (is_bare_choice a.group ≡ true) × (group_nodes a.group ≤ max_leaves) };
}

/// The choices that were forced last, at most eight: each has at most 256 nodes, and none of its base events carries a value. A choice
/// that is forced again is shared ([`Forcing::start_again`](crate::Forcing::start_again)).
#[derive(Drop)]
pub struct Forced {
    choices: Vec<Choice>,
    // the place of the one that goes next, once there are so many
    oldest: usize,
}

impl Model for Forced {
    ghost use Rattle.std.specs.{Prelude.{◌≤◌, List, length}, Coded.{coded_list}};
    ghost use Rattle.cml_value.specs.{Group.{PlainGroup}, GroupCodes.{group_code}};
    ghost use Rattle.cml_group.specs.LaidOut.{most_kept};

    ghost Value = { List PlainGroup };

    ghost coded = { coded_list group_code };

    ghost view = { λ f. f.choices.items };

    ghost invariant = { λ f. length f.choices.items ≤ most_kept };
}

// Whether the two base events are the same.
#[inline(always)]
fn is_same(base: &Base, other: &Base) -> bool
    ensures { result ≡ true → base.now ≡ other.now }
{
    match (base.kind(), other.kind()) {
        (BaseKind::Recv(channel), BaseKind::Recv(another)) => channel.0 == another.0,
        _ => base.same(other),
    }
}

// Whether the group is this event, a base event.
#[inline(always)]
fn is_leaf_of(event: &Event, group: &Group) -> bool
    ensures { result ≡ true → event_of group.now ≡ event.now }
{
    match (event.kind(), group.kind()) {
        (EventKind::Leaf(base), GroupKind::Leaf(other)) => is_same(base, other),
        _ => false,
    }
}

// Whether the groups are these events, all of them base events.
#[inline(never)]
fn are_leaves_of(members: &[Event], others: &[Group]) -> bool
    ensures { result ≡ true → events_of (groups others.now) ≡ events members.now }
{
    if members.len() != others.len() {
        return false;
    }
    for i in 0..members.len() {
        if !is_leaf_of(&members[i], &others[i]) {
            return false;
        }
    }
    true
}

impl Choice {
    // The group, if it is such a choice, and not too large to be kept. Without memory it is not kept either.
    fn of(group: &Group) -> Option<Choice>
        ensures { IfSome result (λ choice. choice ≡ group.now) }
    {
        if !is_bare_choice(group) || group.nodes() > MAX_LEAVES as u64 {
            return None;
        }
        match group.copy() {
            Ok(copy) => Some(Choice { group: copy }),
            Err(_) => None,
        }
    }

    // Whether it is this event.
    fn is(&self, event: &Event) -> bool
        ensures { result ≡ true → event_of self.now ≡ event.now }
    {
        match (event.kind(), self.group.kind()) {
            (EventKind::Choose(members), GroupKind::Choose(others)) => {
                are_leaves_of(members, others)
            }
            _ => false,
        }
    }
}

impl Forced {
    /// None yet. It takes no memory.
    pub fn new(alloc: Global) -> Forced
        ensures { result ≡ [] }
    {
        Forced {
            choices: Vec::new(alloc),
            oldest: 0,
        }
    }

    /// The group that the event is forced to, if it is kept.
    pub fn find(&self, event: &Event) -> Option<&Group>
        ensures { IfSome result (λ group. event_of group.now ≡ event.now) }
    {
        for choice in &self.choices {
            if choice.is(event) {
                return Some(&choice.group);
            }
        }
        None
    }

    /// Keeps the group to be found again, if it is such a choice, in place of the oldest. Where memory runs out it is not kept.
    #[inline(never)]
    pub fn keep(&mut self, group: &Group) {
        let Some(choice) = Choice::of(group) else {
            return;
        };
        if self.choices.len() < MOST {
            drop(self.choices.push(choice));
            return;
        }
        let place = if self.oldest < self.choices.len() {
            self.oldest
        } else {
            0
        };
        self.choices[place] = choice;
        self.oldest = place + 1;
    }
}
