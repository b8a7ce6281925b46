//! A change as a whole.

ghost use Rattle.std.specs.Prelude.{◌≡◌, ◌≤◌, ◌+◌, ◌*◌, ℕ, true, false, not, ◌≢◌, if◌then◌else◌, Some, None, length, All, OnOk, OnErr, IsOk};
ghost use Rattle.cml_value.specs.Group.{bases};
ghost use Rattle.cml_scan.specs.{declared.object.Light.{Light}, Order.{Every}, Table.{without, with_entry, changed, has_light, lit_after, AreApart, CanChange}};
ghost use Rattle.cml_index.specs.{Cores.{seen, IsIndexed, IsAtRest, AreThere, IsSame, IsStill, HasFreed, HasRoom}, Slots.{HaveDigits}, Waits.{IsLone}};
ghost use Rattle.cml_index.specs.Posts as spec;

use crate::entry::Entry;
use crate::flags::forget_light;
use crate::nacks::reserve_lights;
use crate::slot::Wait;
use crate::state::IndexState;
use cml_objects::Tally;
use cml_scan::Light;
use cml_value::{Group, GroupKind, Tid};
use std::alloc::{AllocError, Global};

impl IndexState {
    // Tells of all these lights that they are lit, or that they are not. It takes no memory.
    #[inline(always)]
    fn tell_all(&mut self, lights: &[Light], lit: bool, tally: &mut Tally)
        requires indexed { IsIndexed self.old }
        requires there { lit ≡ true → spec.HavePlaces self.old.flags.entries lights.now }
        ensures told { (m : Light) → spec.told self.new.flags.entries m
            ≡ (if has_light lights.now m then lit else spec.told self.old.flags.entries m) }
        ensures indexed { IsIndexed self.new }
        ensures still { IsStill self.old self.new }
        ensures kept { spec.KeepsPlaces self.old.flags.entries self.new.flags.entries }
        ensures cost { tally.new ≤ tally.old + length lights.now }
    {
        for light in lights {
            self.tell(*light, lit, tally);
        }
    }

    // Tells of the lights. Those that are told to be lit have their places. It takes no memory.
    #[inline(always)]
    fn tell_both(&mut self, lit: &[Light], unlit: &[Light], tally: &mut Tally)
        requires indexed { IsIndexed self.old }
        requires named { spec.HavePlaces self.old.flags.entries lit.now }
        ensures indexed { IsIndexed self.new }
        ensures still { IsStill self.old self.new }
        ensures lights { (l : Light) → spec.told self.new.flags.entries l
            ≡ lit_after lit.now unlit.now l (spec.told self.old.flags.entries l) }
        ensures kept { spec.KeepsPlaces self.old.flags.entries self.new.flags.entries }
        ensures cost { tally.new ≤ tally.old + (length lit.now + length unlit.now) }
    {
        self.tell_all(unlit, false, tally);
        self.tell_all(lit, true, tally);
    }

    // Tells of the lights, and then takes out the threads that go. Lights that are told to be lit have their places. It takes no memory.
    fn tell_and_leave(&mut self, gone: &[Tid], lit: &[Light], unlit: &[Light], tally: &mut Tally)
        requires indexed { IsIndexed self.old }
        requires there { AreThere self.old.entries.items gone.now }
        requires named { spec.HavePlaces self.old.flags.entries lit.now }
        ensures indexed { IsIndexed self.new }
        ensures left { spec.IsChanged (without gone.now self.old.entries.items)
            lit.now unlit.now (seen self.old) (seen self.new) }
        ensures cost { (digits : ℕ) → HaveDigits self.old.lanes digits →
            tally.new + self.new.leaves * (digits + 2) ≤ tally.old
            + self.old.leaves * (digits + 2) + (length lit.now + length unlit.now) }
        ensures freed { HasFreed self.old self.new }
    {
        self.tell_both(lit, unlit, tally);
        self.leave_all(gone, tally);
    }

    // Forgets a light that was told to be unlit, if it is that of a tick. (There is no end of ticks, so they are not kept.) Its place goes,
    // and its lane too if nobody stands in it.
    #[inline(never)]
    fn forget(&mut self, light: Light)
        requires indexed { IsIndexed self.old }
        requires idle { IsAtRest self.old }
        requires out { spec.told self.old.flags.entries light ≡ false }
        ensures told { (m : Light) →
            spec.told self.new.flags.entries m ≡ spec.told self.old.flags.entries m }
        ensures indexed { IsIndexed self.new }
        ensures idle { IsAtRest self.new }
        ensures entries { self.new.entries ≡ self.old.entries }
        ensures leaves { self.new.leaves ≡ self.old.leaves }
    {
        if let Light::Alarm(tick) = light {
            forget_light(&mut self.flags, light);
            self.lanes.forget(tick);
        }
    }

    // Forgets the ticks among these lights, which were told to be unlit.
    #[inline(always)]
    fn forget_all(&mut self, lights: &[Light])
        requires indexed { IsIndexed self.old }
        requires idle { IsAtRest self.old }
        requires out { Every (λ l. not (spec.told self.old.flags.entries l)) lights.now }
        ensures told { (m : Light) →
            spec.told self.new.flags.entries m ≡ spec.told self.old.flags.entries m }
        ensures indexed { IsIndexed self.new }
        ensures idle { IsAtRest self.new }
        ensures entries { self.new.entries ≡ self.old.entries }
        ensures leaves { self.new.leaves ≡ self.old.leaves }
    {
        for light in lights {
            self.forget(*light);
        }
    }

    // Makes a change in which no thread comes.
    pub(crate) fn leave_only(
        &mut self,
        gone: &[Tid],
        lit: &[Light],
        unlit: &[Light],
        tally: &mut Tally,
    ) -> Result<(), AllocError>
        requires indexed { IsIndexed self.old }
        requires idle { IsAtRest self.old }
        requires ready { CanChange self.old.entries.items gone.now None lit.now unlit.now }
        ensures indexed { IsIndexed self.new }
        ensures idle { IsAtRest self.new }
        ensures told { spec.HasTold result (changed self.old.entries.items gone.now None)
            lit.now unlit.now (seen self.old) (seen self.new) tally.old tally.new }
        ensures sure { spec.HavePlaces self.old.flags.entries lit.now → IsOk result }
        ensures cost { OnOk result ((digits : ℕ) → HaveDigits self.old.lanes digits →
            tally.new + self.new.leaves * (digits + 2) ≤ tally.old
            + self.old.leaves * (digits + 2) + (length lit.now + length unlit.now)) }
    {
        reserve_lights(&mut self.flags, lit)?;
        self.tell_and_leave(gone, lit, unlit, tally);
        self.forget_all(unlit);
        Ok(())
    }

    // Makes a change in which the thread comes, with its group, whatever that is.
    #[inline(never)]
    fn leave_and_enter(
        &mut self,
        alloc: Global,
        gone: &[Tid],
        comer: (Tid, &Group),
        lit: &[Light],
        unlit: &[Light],
        tally: &mut Tally,
    ) -> Result<(), AllocError>
        requires indexed { IsIndexed self.old }
        requires idle { IsAtRest self.old }
        requires ready { CanChange self.old.entries.items gone.now (Some comer) lit.now unlit.now }
        ensures indexed { IsIndexed self.new }
        ensures idle { IsAtRest self.new }
        ensures told { spec.HasTold result
            (changed self.old.entries.items gone.now (Some comer.entry))
            lit.now unlit.now (seen self.old) (seen self.new) tally.old tally.new }
        ensures cost { OnOk result ((digits : ℕ) → HaveDigits self.old.lanes digits →
            tally.new + self.new.leaves * (digits + 2) ≤ tally.old
            + (self.old.leaves + 2 * length (bases comer.entry.1.now)) * (digits + 2)
            + (length lit.now + length unlit.now)) }
    {
        let entry = self.entry(alloc, comer.0, comer.1)?;
        let Ok(()) = self.make_ready(alloc, &entry, lit) else {
            drop(entry);
            return Err(AllocError);
        };
        self.tell_and_leave(gone, lit, unlit, tally);
        self.enter(entry, tally);
        self.forget_all(unlit);
        Ok(())
    }

    // Makes room for the lights that will be told to be lit, and puts in the thread, whose group is one leaf that waits for this. Out of
    // memory: nothing was told, and nothing was looked at.
    #[inline(always)]
    fn place_lone(
        &mut self,
        alloc: Global,
        comer: (Tid, &Group),
        wait: Wait,
        lit: &[Light],
        tally: &mut Tally,
    ) -> Result<(), AllocError>
        requires indexed { IsIndexed self.old }
        requires idle { IsAtRest self.old }
        requires lone { IsLone comer.1.now wait }
        requires new { All (λ e. e.thread ≢ comer.0.0) self.old.entries.items }
        ensures indexed { IsIndexed self.new }
        ensures idle { IsAtRest self.new }
        ensures told { (l : Light) → spec.told self.new.flags.entries l ≡ spec.told self.old.flags.entries l }
        ensures entries { OnOk result (self.new.entries.items ≡ with_entry
            (record { thread = comer.entry.0.0; group = comer.entry.1.now }) self.old.entries.items) }
        ensures leaves { OnOk result (self.new.leaves ≡ self.old.leaves + 1) }
        ensures named { OnOk result (spec.HavePlaces self.new.flags.entries lit.now) }
        ensures none { OnErr result (self.new.entries.items ≡ self.old.entries.items) }
        ensures cost { (digits : ℕ) → HaveDigits self.old.lanes digits → tally.new ≤ tally.old + (digits + 2) }
        ensures still { OnErr result (tally.new ≡ tally.old) }
    {
        reserve_lights(&mut self.flags, lit)?;
        self.make_place(wait)?;
        self.enter_lone(alloc, comer.0, comer.1, wait, tally)
    }

    // Makes a change in which nobody goes, and the thread comes with its group, which is one leaf that waits for this.
    #[inline(always)]
    fn come_lone(
        &mut self,
        alloc: Global,
        comer: (Tid, &Group),
        wait: Wait,
        lit: &[Light],
        unlit: &[Light],
        tally: &mut Tally,
    ) -> Result<(), AllocError>
        requires indexed { IsIndexed self.old }
        requires idle { IsAtRest self.old }
        requires lone { IsLone comer.1.now wait }
        requires new { All (λ e. e.thread ≢ comer.0.0) self.old.entries.items }
        requires apart { AreApart lit.now unlit.now }
        ensures indexed { IsIndexed self.new }
        ensures idle { IsAtRest self.new }
        ensures told { spec.HasTold result
            (with_entry (record { thread = comer.entry.0.0; group = comer.entry.1.now }) self.old.entries.items)
            lit.now unlit.now (seen self.old) (seen self.new) tally.old tally.new }
        ensures cost { OnOk result ((digits : ℕ) → HaveDigits self.old.lanes digits →
            tally.new + self.new.leaves * (digits + 2) ≤ tally.old
            + (self.old.leaves + 2) * (digits + 2) + (length lit.now + length unlit.now)) }
    {
        self.place_lone(alloc, comer, wait, lit, tally)?;
        self.tell_both(lit, unlit, tally);
        self.forget_all(unlit);
        Ok(())
    }

    // Makes a change in which the thread comes, with its group.
    pub(crate) fn leave_and_come(
        &mut self,
        alloc: Global,
        gone: &[Tid],
        comer: (Tid, &Group),
        lit: &[Light],
        unlit: &[Light],
        tally: &mut Tally,
    ) -> Result<(), AllocError>
        requires indexed { IsIndexed self.old }
        requires idle { IsAtRest self.old }
        requires ready { CanChange self.old.entries.items gone.now (Some comer) lit.now unlit.now }
        ensures indexed { IsIndexed self.new }
        ensures idle { IsAtRest self.new }
        ensures told { spec.HasTold result
            (changed self.old.entries.items gone.now (Some comer.entry))
            lit.now unlit.now (seen self.old) (seen self.new) tally.old tally.new }
        ensures cost { OnOk result ((digits : ℕ) → HaveDigits self.old.lanes digits →
            tally.new + self.new.leaves * (digits + 2) ≤ tally.old
            + (self.old.leaves + 2 * length (bases comer.entry.1.now)) * (digits + 2)
            + (length lit.now + length unlit.now)) }
    {
        if gone.is_empty() {
            if let GroupKind::Leaf(base) = comer.1.kind() {
                return self.come_lone(alloc, comer, Wait::of(base), lit, unlit, tally);
            }
        }
        self.leave_and_enter(alloc, gone, comer, lit, unlit, tally)
    }

    // Makes room for the entry that will come, and for the lights that will be told to be lit. Nothing was told.
    fn make_ready(&mut self, alloc: Global, entry: &Entry, lit: &[Light]) -> Result<(), AllocError>
        requires indexed { IsIndexed self.old }
        requires idle { IsAtRest self.old }
        ensures indexed { IsIndexed self.new }
        ensures same { IsSame self.old self.new }
        ensures idle { OnErr result (IsAtRest self.new) }
        ensures room { OnOk result (HasRoom self.new entry.now.group) }
        ensures lights { OnOk result (spec.HavePlaces self.new.flags.entries lit.now) }
    {
        reserve_lights(&mut self.flags, lit)?;
        self.make_room(alloc, entry)
    }
}
