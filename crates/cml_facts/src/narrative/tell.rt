//! How the items of a run are told.

ghost use Rattle.std.specs.Prelude.{◌≡◌, ◌++◌, ◌==◌, [], ℕ, List, IfOk, IfSome, IsTrue, is_some, true, false, length, map, option_and_then, option_map, if◌then◌else◌};
ghost use Rattle.cml_facts.specs.{Standings.{spot_place}, Takes.{taker_in}, Waits.{awaited_of, who_is}};
ghost use Rattle.cml_hub.specs.{Courses.{PlainCourse, TakesRow}, Kept.{NoneOut, IsFollowed}, Performed.{fails}, Runs.{output_of}};
ghost use Rattle.cml_phrase.specs.Spots.{all_places};
ghost use Rattle.cml_facts.specs.{Deeds.{HasHappened}, Narrators.{places_of, Knows}, Turns.{began_in, waits_on, IsOutcome, EndsAtFault, WentOn, Plans}};
ghost use Rattle.cml_facts.specs.Deeds as spec;

use crate::ending::{Spot, Takers, awaited_of, who_is};
use crate::narrative::commit::row_deed;
use crate::narrative::deed::{Came, Deed, Happened, Turned};
use crate::narrative::fault::fault_of;
use crate::narrative::narrator::Narrator;
use crate::narrative::plan::{Planned, next_plan};
use cml_hub::{Hub, Item};
use cml_phrase::{Place, statement_place, statement_places};
use cml_scan::{Meet, Table};
use cml_text::Sexpr;
use cml_value::Tid;
use std::alloc::{AllocError, Global};

// How many events could happen in this hub.
fn could_count(hub: &Hub) -> usize
    ensures { result ≡ spec.could_count hub.now.course.world }
{
    hub.book().table().head_count()
}

// The same, where none could before.
fn new_count(hub: &Hub, before: usize) -> usize
    ensures { result ≡ (if before == 0 then spec.could_count hub.now.course.world else 0) }
{
    if before == 0 { could_count(hub) } else { 0 }
}

// The item that happened last in this hub.
fn happened(hub: &Hub, could: usize, deed: Deed) -> Happened
    ensures number { result.number ≡ length hub.now.course.items }
    ensures could { result.could ≡ could }
    ensures did { result.deed ≡ deed }
{
    Happened {
        number: hub.schedule().len(),
        could,
        deed,
    }
}

impl Narrator {
    /// Tells of a run of the program of this text and these forms, from its first item on.
    ///
    /// # Errors
    /// Out of memory.
    #[tactic(auto, using(crate::proofs::NarratorLemmas::begun_knows))]
    pub fn new(alloc: Global, text: &[u8], forms: &[Sexpr]) -> Result<Narrator, AllocError>
        ensures places { IfOk result (λ n. places_of n ≡ all_places text.now forms.now) }
        ensures knows { IfOk result (λ n. (c : PlainCourse) → c.items ≡ [] → Knows c n) }
    {
        let places = statement_places(alloc, text, forms)?;
        Ok(Narrator {
            places,
            takers: Takers::new(alloc),
        })
    }

    /// Where the statements of the program stand.
    pub fn places(&self) -> &[Vec<Place>]
        ensures { map (λ own. own.items) result.now ≡ places_of self.now }
    {
        self.places.as_slice()
    }

    /// The item happens in the hub, where it may; nothing is told. Returns whether it happened.
    ///
    /// # Errors
    /// Out of memory.
    #[tactic(auto, using(crate::proofs::NarratorLemmas::followed_knows))]
    pub fn follow(&mut self, alloc: Global, hub: &mut Hub, item: Item) -> Result<bool, AllocError>
        requires { NoneOut hub.old }
        ensures follows { IfOk result (λ came. IsFollowed hub.old item came hub.new) }
        ensures none_out { NoneOut hub.new }
        ensures places { places_of self.new ≡ places_of self.old }
        ensures knows { IfOk result (λ came. IsTrue came → Knows hub.old.course self.old → Knows hub.new.course self.new) }
    {
        self.takers.follow(alloc, hub, &item)?;
        let came = hub.follow(alloc, item)?;
        Ok(came)
    }

    /// The item happens in the hub, where it may. Returns what it did, if it happened.
    ///
    /// # Errors
    /// Out of memory.
    pub fn tell(
        &mut self,
        alloc: Global,
        hub: &mut Hub,
        item: Item,
    ) -> Result<Option<Happened>, AllocError>
        requires { NoneOut hub.old }
        ensures told { Knows hub.old.course self.old → IfOk result (λ told. IfSome told (HasHappened (places_of self.old) hub.old.course item hub.new.course)) }
        ensures follows { IfOk result (λ told. IsFollowed hub.old item (is_some told) hub.new) }
        ensures none_out { NoneOut hub.new }
        ensures places { places_of self.new ≡ places_of self.old }
        ensures knows { IfOk result (λ told. IsTrue (is_some told) → Knows hub.old.course self.old → Knows hub.new.course self.new) }
    {
        match item {
            Item::Turn(thread) => self.tell_turn(alloc, hub, thread),
            Item::Meet(row) => self.tell_row(alloc, hub, item, row),
            Item::Exchange(row) => self.tell_row(alloc, hub, item, row),
            Item::Clock(tick) => self.tell_clock(alloc, hub, tick),
        }
    }

    // The place of a spot, if it is known.
    fn place_of(&self, spot: Option<Spot>) -> Option<Place>
        ensures { result ≡ option_and_then (spot_place (places_of self.now)) spot }
    {
        match spot {
            Some(spot) => match spot.statement {
                Some(at) => statement_place(self.places.as_slice(), spot.function, at),
                None => None,
            },
            None => None,
        }
    }

    // What came of an ask of a thread at which it did not end at a fault.
    fn went_on(
        &self,
        alloc: Global,
        hub: &Hub,
        thread: Tid,
        number: u64,
    ) -> Result<Came, AllocError>
        ensures { let c = hub.now.course in
            IfOk result (WentOn (option_map (awaited_of c.world (began_in c) (taker_in self.now.takers)) (waits_on c.world thread.0)) number) }
    {
        match hub.book().waiting(thread) {
            Some(group) => {
                let awaited = awaited_of(alloc, hub, &self.takers, group)?;
                Ok(Came::Waits(awaited))
            }
            None => Ok(Came::Done(number)),
        }
    }

    // What came of an ask of a thread whose turn has come.
    fn came_of(
        &self,
        alloc: Global,
        hub: &Hub,
        thread: Tid,
        number: u64,
        failed: bool,
        printed: usize,
    ) -> Result<Came, AllocError>
        ensures went_on { let c = hub.now.course in
            failed ≡ false → IfOk result (WentOn (option_map (awaited_of c.world (began_in c) (taker_in self.now.takers)) (waits_on c.world thread.0)) number) }
        ensures fault { failed ≡ true → (before name : List ℕ) → length before ≡ printed
            → hub.now.course.output ≡ before ++ output_of thread.0 (fails name)
            → IfOk result (EndsAtFault name) }
    {
        if failed {
            let name = fault_of(alloc, hub, thread, printed)?;
            Ok(Came::Failed(name))
        } else {
            self.went_on(alloc, hub, thread, number)
        }
    }

    // The turn comes, where it may. Returns what came of what was asked, if it did.
    fn turn(
        &mut self,
        alloc: Global,
        hub: &mut Hub,
        thread: Tid,
        number: u64,
    ) -> Result<Option<Came>, AllocError>
        requires { NoneOut hub.old }
        ensures came { Knows hub.old.course self.old → IfOk result (λ came. IfSome came (IsOutcome hub.old.course thread.0 hub.new.course number)) }
        ensures follows { IfOk result (λ came. IsFollowed hub.old (Item.Turn thread) (is_some came) hub.new) }
        ensures none_out { NoneOut hub.new }
        ensures places { places_of self.new ≡ places_of self.old }
        ensures knows { IfOk result (λ came. IsTrue (is_some came) → Knows hub.old.course self.old → Knows hub.new.course self.new) }
    {
        // No effect: named here so that the prover knows what holds of it.
        let _so_far = hub.schedule();
        let faults = hub.faults();
        let printed = hub.out().len();
        if !self.follow(alloc, hub, Item::Turn(thread))? {
            return Ok(None);
        }
        let failed = faults < hub.faults();
        let came = self.came_of(alloc, hub, thread, number, failed, printed)?;
        Ok(Some(came))
    }

    // A turn that was planned so, and has come.
    fn turned(
        &self,
        hub: &Hub,
        thread: Tid,
        plan: Planned,
        came: Came,
    ) -> Result<Turned, AllocError>
        ensures thread { IfOk result (λ x. x.thread ≡ who_is (began_in hub.now.course) thread.0) }
        ensures place { IfOk result (λ x. x.place ≡ option_and_then (spot_place (places_of self.now)) plan.spot) }
        ensures asked { IfOk result (λ x. (x.ask ≡ plan.ask) × (x.came ≡ came)) }
    {
        let thread = who_is(hub, thread.0)?;
        let Planned { spot, ask, number } = plan;
        let _number = number;
        Ok(Turned {
            thread,
            place: self.place_of(spot),
            ask,
            came,
        })
    }

    // Tells of a turn that is planned so.
    fn tell_planned(
        &mut self,
        alloc: Global,
        hub: &mut Hub,
        thread: Tid,
        plan: Planned,
    ) -> Result<Option<Happened>, AllocError>
        requires none_out { NoneOut hub.old }
        requires plan { Plans hub.old.course thread.0 plan }
        ensures told { Knows hub.old.course self.old → IfOk result (λ told. IfSome told (HasHappened (places_of self.old) hub.old.course (Item.Turn thread) hub.new.course)) }
        ensures follows { IfOk result (λ told. IsFollowed hub.old (Item.Turn thread) (is_some told) hub.new) }
        ensures none_out { NoneOut hub.new }
        ensures places { places_of self.new ≡ places_of self.old }
        ensures knows { IfOk result (λ told. IsTrue (is_some told) → Knows hub.old.course self.old → Knows hub.new.course self.new) }
    {
        let before = could_count(hub);
        match self.turn(alloc, hub, thread, plan.number)? {
            Some(came) => {
                let turned = self.turned(hub, thread, plan, came)?;
                Ok(Some(happened(hub, new_count(hub, before), Deed::Turned(turned))))
            }
            None => {
                drop(plan);
                Ok(None)
            }
        }
    }

    // Tells of a turn.
    #[tactic(auto, using(crate::proofs::NarratorLemmas::unfollowed))]
    fn tell_turn(
        &mut self,
        alloc: Global,
        hub: &mut Hub,
        thread: Tid,
    ) -> Result<Option<Happened>, AllocError>
        requires { NoneOut hub.old }
        ensures told { Knows hub.old.course self.old → IfOk result (λ told. IfSome told (HasHappened (places_of self.old) hub.old.course (Item.Turn thread) hub.new.course)) }
        ensures follows { IfOk result (λ told. IsFollowed hub.old (Item.Turn thread) (is_some told) hub.new) }
        ensures none_out { NoneOut hub.new }
        ensures places { places_of self.new ≡ places_of self.old }
        ensures knows { IfOk result (λ told. IsTrue (is_some told) → Knows hub.old.course self.old → Knows hub.new.course self.new) }
    {
        match next_plan(alloc, hub, thread)? {
            Some(plan) => self.tell_planned(alloc, hub, thread, plan),
            None => Ok(None),
        }
    }

    // Tells of a commit.
    fn tell_row(
        &mut self,
        alloc: Global,
        hub: &mut Hub,
        item: Item,
        row: Meet,
    ) -> Result<Option<Happened>, AllocError>
        requires none_out { NoneOut hub.old }
        requires row { TakesRow item row }
        ensures told { Knows hub.old.course self.old → IfOk result (λ told. IfSome told (HasHappened (places_of self.old) hub.old.course item hub.new.course)) }
        ensures follows { IfOk result (λ told. IsFollowed hub.old item (is_some told) hub.new) }
        ensures none_out { NoneOut hub.new }
        ensures places { places_of self.new ≡ places_of self.old }
        ensures knows { IfOk result (λ told. IsTrue (is_some told) → Knows hub.old.course self.old → Knows hub.new.course self.new) }
    {
        let deed = row_deed(alloc, hub, row)?;
        let could = could_count(hub);
        if !self.follow(alloc, hub, item)? {
            drop(deed);
            return Ok(None);
        }
        Ok(Some(happened(hub, could, deed)))
    }

    // Tells of a move of the time.
    fn tell_clock(
        &mut self,
        alloc: Global,
        hub: &mut Hub,
        tick: u64,
    ) -> Result<Option<Happened>, AllocError>
        requires { NoneOut hub.old }
        ensures told { Knows hub.old.course self.old → IfOk result (λ told. IfSome told (HasHappened (places_of self.old) hub.old.course (Item.Clock tick) hub.new.course)) }
        ensures follows { IfOk result (λ told. IsFollowed hub.old (Item.Clock tick) (is_some told) hub.new) }
        ensures none_out { NoneOut hub.new }
        ensures places { places_of self.new ≡ places_of self.old }
        ensures knows { IfOk result (λ told. IsTrue (is_some told) → Knows hub.old.course self.old → Knows hub.new.course self.new) }
    {
        let before = could_count(hub);
        if !self.follow(alloc, hub, Item::Clock(tick))? {
            return Ok(None);
        }
        Ok(Some(happened(hub, new_count(hub, before), Deed::Moved(tick))))
    }
}
