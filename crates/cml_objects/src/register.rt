//! Objects of one kind by their numbers, with those who wait for them.

ghost use Rattle.std.specs.Prelude.{◌≡◌, ◌↔◌, ◌<◌, ◌≤◌, ◌-◌, ◌++◌, ◌∷◌, ℕ, [], vec_capacity, vec_len, length, map, Contains, AllPairs};
ghost use Rattle.std.specs.Prelude.{IfOk, IfErr, OnOk, OnErr, IsOk, IsTrue, IfSome, IsSome, IsNone, None, slice_get};
ghost use Rattle.std.specs.Option.{option_copied, option_map_or};
ghost use Rattle.cml_value.specs.{Value.{unit}, declared.number.Tid.{Tid}};
ghost use Rattle.cml_objects.specs.Feeds.{Feeds, WantsNoMemory};
ghost use Rattle.cml_objects.specs.Registered.{lit_at, fed_at, given_at, HasRoomAt, KeepsRoom, TouchesOne, ChangesOne, MakeKeeps, RoomKeeps, AddsWait, RemovesWait, WaitsForLit, ComesBefore};

use crate::source::{FeedFault, Source};
use cml_value::{Tid, Value};
use std::alloc::{AllocError, AllocFailed, Global};
use std::collections::BTreeSet;
use std::marker::Model;

/// The most objects that a register holds.
pub const MAX_OBJECTS: usize = 65_536;

/// Objects of one kind by their numbers, and the leaves of pending threads that wait for them.
///
/// A wait is a leaf (the thread, and the number of the leaf in it) and the number of the object. To wait and to leave takes time
/// logarithmic in the number of waits.
#[derive(Drop)]
pub struct Register<K: Source> {
    objects: Vec<K>,
    // the leaf, and then the object
    waits: BTreeSet<((u32, u32), u32)>,
}

impl<K: Source> Model for Register<K> {
    ghost use Rattle.std.specs.Prelude.{◌-◌, vec_capacity, vec_len};
    ghost use Rattle.cml_objects.specs.Registered.{Registered};

    ghost Value = { Registered K };

    ghost view = { λ r. record {
      objects = r.objects.items;
      waits = r.waits.keys;
      room = vec_capacity r.objects - vec_len r.objects;
    } };
}

impl<K: Source> Register<K> {
    /// No object, and nobody who waits.
    pub fn new(alloc: Global) -> Register<K>
        ensures objects { result.objects ≡ [] }
        ensures waits { result.waits ≡ [] }
    {
        Register {
            objects: Vec::new(alloc),
            waits: BTreeSet::new(alloc),
        }
    }

    /// How many objects there are.
    pub fn len(&self) -> usize
        ensures { result ≡ length self.now.objects }
    {
        self.objects.len()
    }

    /// Adds an object, which gets the next number. Where it succeeds, the room for one `make` is used up; room for feeds stays.
    ///
    /// # Errors
    /// Out of memory, unless `room` was called before: the object comes back, and nothing changes.
    pub fn make(&mut self, object: K) -> Result<u32, AllocFailed<K>>
        requires { length self.old.objects < MAX_OBJECTS }
        ensures id { IfOk result (λ id. id ≡ length self.old.objects) }
        ensures objects { OnOk result (self.new.objects ≡ self.old.objects ++ object ∷ []) }
        ensures returned { IfErr result (λ fault. fault.value ≡ object) }
        ensures err { OnErr result (self.new.objects ≡ self.old.objects) }
        ensures room { 0 < self.old.room → IsOk result }
        ensures kept { MakeKeeps K.has_room result self.old self.new }
    {
        let id = self.objects.len() as u32;
        self.objects.push(object)?;
        Ok(id)
    }

    /// The object of this number, if there is one.
    pub fn get(&self, id: u32) -> Option<&K>
        ensures { option_copied result ≡ slice_get self.now.objects id }
    {
        self.objects.get(id as usize)
    }

    /// Has the leaf wait for the object from now on. A wait that is there already stays as it is.
    ///
    /// # Errors
    /// Out of memory: nothing changes.
    pub fn wait(&mut self, id: u32, thread: Tid, leaf: u32) -> Result<(), AllocError>
        ensures ok { OnOk result (AddsWait ((thread.0, leaf), id) self.old.waits self.new.waits) }
        ensures err { OnErr result (self.new.waits ≡ self.old.waits) }
        ensures objects { self.new.objects ≡ self.old.objects }
        ensures room { self.new.room ≡ self.old.room }
    {
        self.waits.insert(((thread.0, leaf), id))?;
        Ok(())
    }

    /// Has the leaf wait for the object no more. It takes no memory.
    pub fn leave(&mut self, id: u32, thread: Tid, leaf: u32)
        ensures waits { RemovesWait ((thread.0, leaf), id) self.old.waits self.new.waits }
        ensures objects { self.new.objects ≡ self.old.objects }
        ensures room { self.new.room ≡ self.old.room }
    {
        remove_wait(&mut self.waits, ((thread.0, leaf), id));
    }

    /// Makes room: the next `make`, or with a number the next `feed` of that object, takes no memory. No object changes, and what
    /// room there was stays, also at an error.
    ///
    /// # Errors
    /// Out of memory; with a number never, where the kind is `ROOMY`.
    pub fn room(&mut self, id: Option<u32>) -> Result<(), AllocError>
        requires { IfSome id (λ i. i < length self.old.objects) }
        ensures make { OnOk result (IsNone id → 0 < self.new.room) }
        ensures feed { IfSome id (λ i. OnOk result (HasRoomAt K.has_room self.new.objects i)) }
        ensures roomy { IsTrue K.ROOMY → IsSome id → IsOk result }

        ensures states { map K.state self.new.objects ≡ map K.state self.old.objects }
        ensures len { length self.new.objects ≡ length self.old.objects }
        ensures kept { RoomKeeps K.has_room id self.old self.new }
    {
        match id {
            None => self.objects.reserve(1),
            Some(id) => room_of(&mut self.objects, id),
        }
    }

    /// Feeds the object of this number. The room of a `make` and of each other object stays.
    ///
    /// # Errors
    /// What the object refuses it with: the feed comes back, and nothing changes; its room stays too.
    pub fn feed(&mut self, id: u32, feed: K::Feed) -> Result<(), FeedFault<K::Feed>>
        requires { id < length self.old.objects }
        ensures states { let old = map K.state self.old.objects in
            Feeds result (fed_at K.fed old id feed) feed old (map K.state self.new.objects) }
        ensures room { HasRoomAt K.has_room self.old.objects id → WantsNoMemory result }
        ensures roomy { IsTrue K.ROOMY → WantsNoMemory result }

        ensures one { ChangesOne id self.old self.new }
        ensures kept_make { self.new.room ≡ self.old.room }
        ensures kept_feed { OnErr result (KeepsRoom K.has_room self.old.objects self.new.objects) }
    {
        feed_object(&mut self.objects, id, feed)
    }

    /// Returns what the object of this number gives for the want. The copy is what it spared for that want. It takes no
    /// memory, and what room there was stays.
    pub fn give(&mut self, id: u32, want: K::Want, copy: Option<Value>) -> Value
        requires lit { IsTrue (lit_at K.is_lit (map K.state self.old.objects) id) }
        requires spared { copy ≡
            option_map_or (λ s. K.spared s want) (slice_get (map K.state self.old.objects) id) None }
        ensures value { result ≡
            option_map_or (λ s. K.given s want) (slice_get (map K.state self.old.objects) id) unit }
        ensures states { map K.state self.new.objects ≡
            given_at (λ s. K.after s want) (map K.state self.old.objects) id }

        ensures one { ChangesOne id self.old self.new }
        ensures kept_make { self.new.room ≡ self.old.room }
        ensures kept_feed { KeepsRoom K.has_room self.old.objects self.new.objects }
    {
        give_of(&mut self.objects, id, want, copy)
    }

    /// The leaves that wait for an object that is lit, by thread and then leaf, each once.
    ///
    /// # Errors
    /// Out of memory.
    pub fn lit_waiters(&self, alloc: Global) -> Result<Vec<(Tid, u32)>, AllocError>
        ensures exact { IfOk result (λ list. (leaf : Tid × ℕ) → Contains list.items leaf ↔
            WaitsForLit (lit_at K.is_lit (map K.state self.now.objects)) self.now.waits leaf) }
        ensures order { IfOk result (λ list. AllPairs ComesBefore list.items) }
    {
        let list = lit_leaves(alloc, &self.objects, &self.waits)?;
        Ok(list)
    }
}

// Whether there is an object of this number that is lit.
fn is_lit_at<K: Source>(objects: &[K], id: u32) -> bool
    ensures { result ≡ lit_at K.is_lit (map K.state objects.now) id }
{
    match objects.get(id as usize) {
        Some(object) => object.lit(),
        None => false,
    }
}

// Removes that wait, and no other.
fn remove_wait(waits: &mut BTreeSet<((u32, u32), u32)>, wait: ((u32, u32), u32))
    ensures { RemovesWait wait waits.old.keys waits.new.keys }
{
    let _ = waits.remove(&wait);
}

// The leaves of the waits whose object is lit. The waits of one leaf stand beside each other, so a leaf is listed anew only
// where it is not the one that was listed last.
fn lit_leaves<K: Source>(
    alloc: Global,
    objects: &[K],
    waits: &BTreeSet<((u32, u32), u32)>,
) -> Result<Vec<(Tid, u32)>, AllocError>
    ensures exact { IfOk result (λ list. (leaf : Tid × ℕ) → Contains list.items leaf ↔
        WaitsForLit (lit_at K.is_lit (map K.state objects.now)) waits.now.keys leaf) }
    ensures order { IfOk result (λ list. AllPairs ComesBefore list.items) }
{
    let mut list: Vec<(Tid, u32)> = Vec::new(alloc);
    let mut last: Option<(u32, u32)> = None;
    for (leaf, id) in waits {
        if last != Some(*leaf) && is_lit_at(objects, *id) {
            list.push((Tid(leaf.0), leaf.1))?;
            last = Some(*leaf);
        }
    }
    Ok(list)
}

// Makes room in the object of this number.
fn room_of<K: Source>(objects: &mut Vec<K>, id: u32) -> Result<(), AllocError>
    requires { id < length objects.old.items }
    ensures kept { KeepsRoom K.has_room objects.old.items objects.new.items }
    ensures spare { vec_capacity objects.new - vec_len objects.new ≡ vec_capacity objects.old - vec_len objects.old }
    ensures states { map K.state objects.new.items ≡ map K.state objects.old.items }
    ensures one { TouchesOne id objects.old.items objects.new.items }
    ensures ok { OnOk result (HasRoomAt K.has_room objects.new.items id) }
    ensures roomy { IsTrue K.ROOMY → IsOk result }
{
    let object = &mut objects[id as usize];
    object.room()
}

// Feeds the object of this number.
fn feed_object<K: Source>(
    objects: &mut Vec<K>,
    id: u32,
    feed: K::Feed,
) -> Result<(), FeedFault<K::Feed>>
    requires { id < length objects.old.items }
    ensures states { let old = map K.state objects.old.items in
        Feeds result (fed_at K.fed old id feed) feed old (map K.state objects.new.items) }
    ensures room { HasRoomAt K.has_room objects.old.items id → WantsNoMemory result }
    ensures roomy { IsTrue K.ROOMY → WantsNoMemory result }
    ensures one { TouchesOne id objects.old.items objects.new.items }
    ensures kept { OnErr result (KeepsRoom K.has_room objects.old.items objects.new.items) }
    ensures spare { vec_capacity objects.new - vec_len objects.new ≡ vec_capacity objects.old - vec_len objects.old }
{
    let object = &mut objects[id as usize];
    object.feed(feed)
}

// What the object of this number gives.
fn give_of<K: Source>(objects: &mut Vec<K>, id: u32, want: K::Want, copy: Option<Value>) -> Value
    requires lit { IsTrue (lit_at K.is_lit (map K.state objects.old.items) id) }
    requires spared { copy ≡
        option_map_or (λ s. K.spared s want) (slice_get (map K.state objects.old.items) id) None }
    ensures value { result ≡
        option_map_or (λ s. K.given s want) (slice_get (map K.state objects.old.items) id) unit }
    ensures states { map K.state objects.new.items ≡
        given_at (λ s. K.after s want) (map K.state objects.old.items) id }
    ensures one { TouchesOne id objects.old.items objects.new.items }
    ensures kept { KeepsRoom K.has_room objects.old.items objects.new.items }
    ensures spare { vec_capacity objects.new - vec_len objects.new ≡ vec_capacity objects.old - vec_len objects.old }
{
    let object = &mut objects[id as usize];
    object.give(want, copy)
}
