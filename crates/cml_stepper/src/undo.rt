//! A run without its last item.

ghost use Rattle.std.specs.Prelude.{◌≡◌, ◌≤◌, ◌∷◌, ◌++◌, IfOk, OnOk, OnErr, [], true, take, length};
ghost use Rattle.cml_hub.specs.{Kept.{NoneOut}, Runs.{is_allowed}};
ghost use Rattle.cml_facts.specs.Narrators.{places_of, Knows};
ghost use Rattle.cml_stepper.specs.{Replies.{LeadsBack}, Steppers.{places_known, FollowsTo}};

use crate::stepper::Stepper;
use cml_facts::narrative::Narrator;
use cml_hub::{Hub, Item};
use std::alloc::{AllocError, AllocFailed, Global};
use std::mem;

// A hub at the beginning of the other's program.
fn beginning(alloc: Global, hub: &Hub) -> Result<Hub, AllocError>
    ensures program { IfOk result (λ new. new.course.program ≡ hub.now.course.program) }
    ensures budget { IfOk result (λ new. new.budget ≡ hub.now.budget) }
    ensures items { IfOk result (λ new. new.course.items ≡ []) }
    ensures none_out { IfOk result (λ new. NoneOut new) }
{
    match Hub::begin(alloc, hub.program().copy()?, hub.budget(), None) {
        Ok(new) => Ok(new),
        Err(AllocFailed { value }) => {
            drop(value);
            Err(AllocError)
        }
    }
}

// The hub is used no more.
#[inline(never)]
fn let_go(hub: Hub) {
    drop(hub);
}

// The item comes, which is allowed now.
fn come(alloc: Global, hub: &mut Hub, narrator: &mut Narrator, item: Item) -> Result<(), AllocError>
    requires out { NoneOut hub.old }
    requires allowed { is_allowed hub.old.course.world item ≡ true }
    requires knows { Knows hub.old.course narrator.old }
    ensures program { OnOk result (hub.new.course.program ≡ hub.old.course.program) }
    ensures budget { OnOk result (hub.new.budget ≡ hub.old.budget) }
    ensures items { OnOk result (hub.new.course.items ≡ hub.old.course.items ++ item ∷ []) }
    ensures none_out { OnOk result (NoneOut hub.new) }
    ensures knows { OnOk result (Knows hub.new.course narrator.new) }
    ensures places { places_of narrator.new ≡ places_of narrator.old }
{
    match narrator.follow(alloc, hub, item)? {
        true => Ok(()),
        false => unreachable!(),
    }
}

// Of the other hub's items so many come one after another in this hub, which stands at its beginning.
fn follow_first(
    alloc: Global,
    hub: &Hub,
    second: &mut Hub,
    narrator: &mut Narrator,
    count: usize,
) -> Result<(), AllocError>
    requires program { second.old.course.program ≡ hub.now.course.program }
    requires items { second.old.course.items ≡ [] }
    requires none_out { NoneOut second.old }
    requires knows { Knows second.old.course narrator.old }
    requires within { count ≤ length hub.now.course.items }
    ensures program { OnOk result (second.new.course.program ≡ hub.now.course.program) }
    ensures budget { OnOk result (second.new.budget ≡ second.old.budget) }
    ensures items { OnOk result (second.new.course.items ≡ take count hub.now.course.items) }
    ensures none_out { OnOk result (NoneOut second.new) }
    ensures knows { OnOk result (Knows second.new.course narrator.new) }
    ensures places { places_of narrator.new ≡ places_of narrator.old }
{
    let items = hub.schedule();
    for i in 0..count {
        let item = items[i];
        // No effect: named here so that the prover knows what holds of it.
        let _so_far = second.schedule();
        come(alloc, second, narrator, item)?;
    }
    Ok(())
}

// The hub stands where the first so many of its items lead.
fn replace(hub: &mut Hub, second: Hub)
    ensures { hub.new ≡ second }
{
    let old = mem::replace(hub, second);
    let_go(old);
}

impl Stepper<'_> {
    /// The last item is undone, of which there is one: the items before it come one after another from the beginning on.
    ///
    /// # Errors
    /// Out of memory: nothing has changed.
    pub(crate) fn undo(&mut self, alloc: Global, hub: &mut Hub) -> Result<(), AllocError>
        requires { NoneOut hub.old }
        ensures back { OnOk result (LeadsBack hub.old hub.new) }
        ensures none_out { NoneOut hub.new }
        ensures there { OnOk result (FollowsTo hub.new.course self.new) }
        ensures places { places_known self.new ≡ places_known self.old }
        ensures err { OnErr result (hub.new ≡ hub.old) }
    {
        let count = hub.schedule().len().saturating_sub(1);
        let mut narrator = Narrator::new(alloc, self.text, self.forms)?;
        let mut second = beginning(alloc, hub)?;
        match follow_first(alloc, hub, &mut second, &mut narrator, count) {
            Ok(()) => {
                // No effect: named here so that the prover knows what holds of it.
                let _led = second.schedule();
                replace(hub, second);
                self.narrator = narrator;
                Ok(())
            }
            Err(AllocError) => {
                let_go(second);
                Err(AllocError)
            }
        }
    }
}
