//! A group as it enters, and the lights that its leaves wait for.

ghost use Rattle.std.specs.{Prelude.{◌≡◌, ◌≤◌, ◌+◌, ◌++◌, ◌∷◌, [], true, false, not, length, IfOk}, Vec.{vec_capacity}, List.{list_any, filter}};
ghost use Rattle.cml_value.specs.Group.{bases, leaf_count, group_fits};
ghost use Rattle.cml_group.specs.LaidOut.{max_leaves};
ghost use Rattle.cml_scan.specs.Light.{light_of};
ghost use Rattle.cml_book.specs.{Entering.{is_far, entered}, Walks.{IsStanding, IsQuiet}, Keeping.{lights_in, is_lightless}};

use crate::counted::Counted;
use crate::entering::entering;
use crate::state::State;
use crate::walk::Standing;
use cml_group::{FlatFault, flatten};
use cml_scan::{Light, Lights, light};
use cml_value::{Base, Group};
use std::alloc::{AllocError, Global};

// The group as it enters at this tick. One that enters as it is is shared.
fn entered_group(alloc: Global, group: &Group, tick: u64, stays: bool) -> Result<Group, AllocError>
    requires near { list_any (is_far tick) (bases group.now) ≡ false }
    requires stays { stays ≡ true → entered tick group.now ≡ group.now }
    ensures { IfOk result (λ g. g ≡ entered tick group.now) }
{
    if stays {
        return group.copy();
    }
    entering(alloc, group, tick)
}

// The same, laid flat.
fn laid_flat(
    alloc: Global,
    group: &Group,
    tick: u64,
    stays: bool,
    lightless: bool,
) -> Result<Counted, AllocError>
    requires near { list_any (is_far tick) (bases group.now) ≡ false }
    requires few { leaf_count group.now ≤ max_leaves }
    requires fits { group_fits group.now ≡ true }
    requires stays { stays ≡ true → entered tick group.now ≡ group.now }
    requires lightless { lightless ≡ true → is_lightless (entered tick group.now) ≡ true }
    ensures { IfOk result (λ flat. flat ≡ entered tick group.now) }
{
    let entered = entered_group(alloc, group, tick, stays)?;
    match flatten(alloc, entered) {
        Ok(flat) => Counted::new(alloc, flat, lightless),
        Err(FlatFault::Memory(_)) => Err(AllocError),
        Err(FlatFault::Leaves(_)) => unreachable!(),
        Err(FlatFault::Deep(_)) => unreachable!(),
    }
}

impl State {
    /// The group as it enters now. How it stands is known.
    pub fn entered(
        &self,
        alloc: Global,
        group: &Group,
        standing: Standing,
    ) -> Result<Counted, AllocError>
        requires near { list_any (is_far self.now.tick) (bases group.now) ≡ false }
        requires few { leaf_count group.now ≤ max_leaves }
        requires fits { group_fits group.now ≡ true }
        requires standing { IsStanding self.now group.now standing.scoped }
        requires quiet { standing.quiet ≡ true → IsQuiet self.now group.now }
        ensures { IfOk result (λ flat. flat ≡ entered self.now.tick group.now) }
    {
        laid_flat(
            alloc,
            group,
            self.now(),
            standing.scoped.is_some(),
            standing.quiet,
        )
    }

    /// Appends the lights that the leaves wait for: those that are lit to the first list, the others to the second. There is room for them.
    pub fn push_awaited(&self, lit: &mut Vec<Light>, unlit: &mut Vec<Light>, flat: &Counted)
        requires lit { length lit.old.items + leaf_count flat.now ≤ vec_capacity lit.old }
        requires unlit { length unlit.old.items + leaf_count flat.now ≤ vec_capacity unlit.old }
        ensures lit { lit.new.items ≡ lit.old.items ++ filter (light_of self.now) (lights_in (bases flat.now)) }
        ensures unlit { unlit.new.items ≡ unlit.old.items ++ filter (λ l. not (light_of self.now l)) (lights_in (bases flat.now)) }
        ensures room { (vec_capacity lit.new ≡ vec_capacity lit.old) × (vec_capacity unlit.new ≡ vec_capacity unlit.old) }
    {
        if flat.is_lightless() {
            return;
        }
        for n in 0..flat.len() {
            self.push_light(lit, unlit, flat.leaf(n));
        }
    }

    // Appends the light that the base event waits for, if there is one: to the first list where it is lit, else to the second. There is room
    // for it.
    fn push_light(&self, lit: &mut Vec<Light>, unlit: &mut Vec<Light>, base: &Base)
        requires lit { length lit.old.items + 1 ≤ vec_capacity lit.old }
        requires unlit { length unlit.old.items + 1 ≤ vec_capacity unlit.old }
        ensures lit { lit.new.items ≡ lit.old.items ++ filter (light_of self.now) (lights_in (base.now ∷ [])) }
        ensures unlit { unlit.new.items ≡ unlit.old.items ++ filter (λ l. not (light_of self.now l)) (lights_in (base.now ∷ [])) }
        ensures room { (vec_capacity lit.new ≡ vec_capacity lit.old) × (vec_capacity unlit.new ≡ vec_capacity unlit.old) }
    {
        let Some(awaited) = light(base) else {
            return;
        };
        if self.is_lit(awaited) {
            lit.push_reserved(awaited);
        } else {
            unlit.push_reserved(awaited);
        }
    }
}
