//! The objects on which two offers may meet: with offers on both sides, or with two where all sides are alike.

ghost use Rattle.std.specs.{Prelude.{◌≡◌, ◌≤◌, ◌<◌, ◌^◌, ◌&&◌, ◌||◌, [], ◌∷◌, true, false, length, map, slice_get, Some, OnOk}, List.{IsDistinct}};
ghost use Rattle.cml_objects.specs.{Pairings.{same_object, one_lane}, declared.pairing.PairedId.{PairedId}};
ghost use Rattle.cml_index.specs.{declared.slot.Slot.{Slot}, Slots.{slot_in}};
ghost use Rattle.cml_index.specs.Live as spec;

use crate::head_counts::HeadCounts;
use crate::lanes::Lanes;
use crate::numbers::Numbers;
use crate::slot::{Slot, Wait};
use cml_objects::{PairedId, PairedKind};
use std::alloc::{AllocError, Global};

// These objects, by their numbers; of each channel it is kept how many offers can stand first there.
#[derive(Drop)]
pub(crate) struct Live {
    pub(crate) channels: HeadCounts,
    pub(crate) swaps: Numbers,
}

// How many offers can stand first on the object.
#[inline(always)]
fn head_len(lanes: &Lanes, object: PairedId) -> usize
    ensures { result ≡ spec.heads_at lanes.now object }
{
    lanes.side_len(object, true)
}

// Whether two offers on the object may meet, on which this many can stand first. Where none can, the other lane is not looked up.
#[inline(always)]
fn is_live(lanes: &Lanes, object: PairedId, heads: usize) -> bool
    requires { heads ≡ spec.heads_at lanes.now object }
    ensures { result ≡ spec.is_live lanes.now object }
{
    if object.kind.one_lane() {
        return 1 < heads;
    }
    0 < heads && 0 < lanes.side_len(object, false)
}

impl Live {
    // There is none.
    pub(crate) fn new(alloc: Global) -> Live
        ensures { spec.objects result ≡ [] }
    {
        Live {
            channels: HeadCounts::new(alloc),
            swaps: Numbers::new(alloc),
        }
    }

    // How many there are. None is there twice.
    pub(crate) fn len(&self) -> usize
        ensures count { result ≡ length (spec.objects self.now) }
        ensures once { IsDistinct same_object (spec.objects self.now) }
    {
        self.channels.len() + self.swaps.len()
    }

    // How many of them are channels, which come first.
    pub(crate) fn channel_len(&self) -> usize
        ensures { result ≡ length self.now.channels.items }
    {
        self.channels.len()
    }

    // How many offers can stand first on the channels among them.
    pub(crate) fn head_sum(&self) -> usize
        requires { spec.kept_heads self.now < 2 ^ 64 }
        ensures { result ≡ spec.kept_heads self.now }
    {
        self.channels.sum()
    }

    // The object at this place among them.
    pub(crate) fn at(&self, i: usize) -> PairedId
        requires { i < length (spec.objects self.now) }
        ensures { slice_get (spec.objects self.now) i ≡ Some result }
    {
        if i < self.channels.len() {
            PairedId {
                kind: PairedKind::Channel,
                number: self.channels.at(i),
            }
        } else {
            PairedId {
                kind: PairedKind::Swap,
                number: self.swaps.at(i - self.channels.len()),
            }
        }
    }

    // Whether the object is in.
    fn has(&self, object: PairedId) -> bool
        ensures value { result ≡ spec.is_in self.now object }
        ensures placed { result ≡ true → spec.HasPlace self.now object }
    {
        match object.kind {
            PairedKind::Channel => self.channels.has(object.number),
            PairedKind::Swap => self.swaps.has(object.number),
        }
    }

    // Reserves a place for the object, so that it can be put in.
    #[inline(always)]
    fn make(&mut self, object: PairedId) -> Result<(), AllocError>
        ensures same { spec.IsAsLive self.old self.new }
        ensures there { OnOk result (spec.HasPlace self.new object) }
    {
        match object.kind {
            PairedKind::Channel => self.channels.make(object.number),
            PairedKind::Swap => self.swaps.make(object.number),
        }
    }

    // Takes the object out.
    fn take_out(&mut self, object: PairedId)
        ensures here { spec.is_in self.new object ≡ false }
        ensures elsewhere { (n : PairedId) → same_object object n ≡ false →
            spec.is_in self.new n ≡ spec.is_in self.old n }
        ensures beside { (n : PairedId) → same_object object n ≡ false →
            spec.count_at self.new n ≡ spec.count_at self.old n }
        ensures places { (n : PairedId) → spec.HasPlace self.old n → spec.HasPlace self.new n }
    {
        match object.kind {
            PairedKind::Channel => self.channels.cut(object.number),
            PairedKind::Swap => self.swaps.cut(object.number),
        }
    }

    // Puts the object in, on which this many offers can stand first; its place is reserved.
    fn put_in(&mut self, object: PairedId, heads: usize)
        requires { spec.HasPlace self.old object }
        ensures here { spec.is_in self.new object ≡ true }
        ensures elsewhere { (n : PairedId) → same_object object n ≡ false →
            spec.is_in self.new n ≡ spec.is_in self.old n }
        ensures heads { one_lane object.kind ≡ false → spec.count_at self.new object ≡ heads }
        ensures beside { (n : PairedId) → same_object object n ≡ false →
            spec.count_at self.new n ≡ spec.count_at self.old n }
        ensures places { (n : PairedId) → spec.HasPlace self.old n → spec.HasPlace self.new n }
    {
        match object.kind {
            PairedKind::Channel => self.channels.put(object.number, heads),
            PairedKind::Swap => self.swaps.put(object.number),
        }
    }

    // Takes the object out if it is live no longer, and counts it anew if it still is. One that is not in stays out, and no lane is looked up.
    #[inline(always)]
    fn cut(&mut self, lanes: &Lanes, object: PairedId)
        ensures here { spec.is_in self.new object
            ≡ (spec.is_in self.old object && spec.is_live lanes.now object) }
        ensures elsewhere { (n : PairedId) → same_object object n ≡ false →
            spec.is_in self.new n ≡ spec.is_in self.old n }
        ensures heads { spec.HasItsCount lanes.now self.new object }
        ensures beside { (n : PairedId) → same_object object n ≡ false →
            spec.count_at self.new n ≡ spec.count_at self.old n }
        ensures places { (n : PairedId) → spec.HasPlace self.old n → spec.HasPlace self.new n }
    {
        if self.has(object) {
            let heads = head_len(lanes, object);
            if is_live(lanes, object, heads) {
                self.put_in(object, heads);
            } else {
                self.take_out(object);
            }
        }
    }

    // Puts the object in where it is live, and counts it; its place is reserved.
    #[inline(always)]
    fn add(&mut self, lanes: &Lanes, object: PairedId)
        requires { spec.HasPlace self.old object }
        ensures here { spec.is_in self.new object
            ≡ (spec.is_in self.old object || spec.is_live lanes.now object) }
        ensures elsewhere { (n : PairedId) → same_object object n ≡ false →
            spec.is_in self.new n ≡ spec.is_in self.old n }
        ensures heads { spec.is_live lanes.now object ≡ true → spec.HasItsCount lanes.now self.new object }
        ensures beside { (n : PairedId) → same_object object n ≡ false →
            spec.count_at self.new n ≡ spec.count_at self.old n }
        ensures places { (n : PairedId) → spec.HasPlace self.old n → spec.HasPlace self.new n }
    {
        let heads = head_len(lanes, object);
        if is_live(lanes, object, heads) {
            self.put_in(object, heads);
        }
    }

    // The same for the object of which the slot is a side: takes it out where it is no longer live.
    #[inline(always)]
    fn cut_at(&mut self, lanes: &Lanes, slot: Option<Slot>)
        ensures here { (n : PairedId) → spec.has_side n slot ≡ true → spec.is_in self.new n
            ≡ (spec.is_in self.old n && spec.is_live lanes.now n) }
        ensures elsewhere { (n : PairedId) → spec.has_side n slot ≡ false →
            spec.is_in self.new n ≡ spec.is_in self.old n }
        ensures heads { (n : PairedId) → spec.has_side n slot ≡ true → spec.HasItsCount lanes.now self.new n }
        ensures beside { (n : PairedId) → spec.has_side n slot ≡ false →
            spec.count_at self.new n ≡ spec.count_at self.old n }
        ensures places { (n : PairedId) → spec.HasPlace self.old n → spec.HasPlace self.new n }
    {
        if let Some(Slot::Side { object, .. }) = slot {
            self.cut(lanes, object);
        }
    }

    // The same for the object of which the slot is a side: puts it in where it is live.
    #[inline(always)]
    fn add_at(&mut self, lanes: &Lanes, slot: Option<Slot>)
        requires { (n : PairedId) → spec.has_side n slot ≡ true → spec.HasPlace self.old n }
        ensures here { (n : PairedId) → spec.has_side n slot ≡ true → spec.is_in self.new n
            ≡ (spec.is_in self.old n || spec.is_live lanes.now n) }
        ensures elsewhere { (n : PairedId) → spec.has_side n slot ≡ false →
            spec.is_in self.new n ≡ spec.is_in self.old n }
        ensures heads { (n : PairedId) → spec.has_side n slot ≡ true → spec.is_live lanes.now n ≡ true →
            spec.HasItsCount lanes.now self.new n }
        ensures beside { (n : PairedId) → spec.has_side n slot ≡ false →
            spec.count_at self.new n ≡ spec.count_at self.old n }
        ensures places { (n : PairedId) → spec.HasPlace self.old n → spec.HasPlace self.new n }
    {
        if let Some(Slot::Side { object, .. }) = slot {
            self.add(lanes, object);
        }
    }

    // Reserves a place for the object of which the slot is a side.
    #[inline(always)]
    fn make_at(&mut self, slot: Option<Slot>) -> Result<(), AllocError>
        ensures same { spec.IsAsLive self.old self.new }
        ensures there { OnOk result ((n : PairedId) → spec.has_side n slot ≡ true → spec.HasPlace self.new n) }
    {
        match slot {
            Some(Slot::Side { object, .. }) => self.make(object),
            _ => Ok(()),
        }
    }

    // Reserves a place for each object of which one of these leaves is a side.
    pub(crate) fn make_all(&mut self, waits: &[Wait]) -> Result<(), AllocError>
        ensures same { spec.IsAsLive self.old self.new }
        ensures there { OnOk result ((n : PairedId) →
            spec.have_side n (map slot_in waits.now) ≡ true → spec.HasPlace self.new n) }
    {
        for wait in waits {
            self.make_at(wait.slot())?;
        }
        Ok(())
    }

    // Brings the live objects up to date once these leaves have gone from their lanes. It takes no memory.
    #[inline(always)]
    pub(crate) fn cut_all(&mut self, lanes: &Lanes, waits: &[Wait])
        requires was { (n : PairedId) → spec.have_side n (map slot_in waits.now) ≡ false →
            spec.is_in self.old n ≡ spec.is_live lanes.now n }
        requires over { (n : PairedId) → spec.is_live lanes.now n ≡ true →
            spec.is_in self.old n ≡ true }
        requires counted { (n : PairedId) → spec.have_side n (map slot_in waits.now) ≡ false →
            spec.HasItsCount lanes.now self.old n }
        ensures live { spec.AreLive lanes.now self.new }
        ensures counted { spec.AreCounted lanes.now self.new }
        ensures places { (n : PairedId) → spec.HasPlace self.old n → spec.HasPlace self.new n }
    {
        match waits {
            [wait] => self.cut_lone(lanes, wait),
            _ => self.cut_many(lanes, waits),
        }
    }

    // The same, however many they are.
    #[inline(never)]
    fn cut_many(&mut self, lanes: &Lanes, waits: &[Wait])
        requires was { (n : PairedId) → spec.have_side n (map slot_in waits.now) ≡ false →
            spec.is_in self.old n ≡ spec.is_live lanes.now n }
        requires over { (n : PairedId) → spec.is_live lanes.now n ≡ true →
            spec.is_in self.old n ≡ true }
        requires counted { (n : PairedId) → spec.have_side n (map slot_in waits.now) ≡ false →
            spec.HasItsCount lanes.now self.old n }
        ensures live { spec.AreLive lanes.now self.new }
        ensures counted { spec.AreCounted lanes.now self.new }
        ensures places { (n : PairedId) → spec.HasPlace self.old n → spec.HasPlace self.new n }
    {
        for wait in waits {
            self.cut_at(lanes, wait.slot());
        }
    }

    // Brings the live objects up to date once these leaves have come to their lanes. Each object of which one is a side
    // has a place. It takes no memory.
    pub(crate) fn add_all(&mut self, lanes: &Lanes, waits: &[Wait])
        requires there { (n : PairedId) → spec.have_side n (map slot_in waits.now) ≡ true →
            spec.HasPlace self.old n }
        requires was { (n : PairedId) → spec.have_side n (map slot_in waits.now) ≡ false →
            spec.is_in self.old n ≡ spec.is_live lanes.now n }
        requires under { (n : PairedId) → spec.is_live lanes.now n ≡ false →
            spec.is_in self.old n ≡ false }
        requires counted { (n : PairedId) → spec.have_side n (map slot_in waits.now) ≡ false →
            spec.HasItsCount lanes.now self.old n }
        ensures live { spec.AreLive lanes.now self.new }
        ensures counted { spec.AreCounted lanes.now self.new }
    {
        for wait in waits {
            self.add_at(lanes, wait.slot());
        }
    }

    // The same as `make_all`, of the one leaf of a group that waits for this.
    #[inline(always)]
    pub(crate) fn make_lone(&mut self, wait: &Wait) -> Result<(), AllocError>
        ensures same { spec.IsAsLive self.old self.new }
        ensures there { OnOk result ((n : PairedId) →
            spec.have_side n (slot_in wait.now ∷ []) ≡ true → spec.HasPlace self.new n) }
    {
        self.make_at(wait.slot())
    }

    // The same as `cut_all`, of the one leaf of a group that waits for this.
    #[inline(always)]
    pub(crate) fn cut_lone(&mut self, lanes: &Lanes, wait: &Wait)
        requires was { (n : PairedId) → spec.have_side n (slot_in wait.now ∷ []) ≡ false →
            spec.is_in self.old n ≡ spec.is_live lanes.now n }
        requires over { (n : PairedId) → spec.is_live lanes.now n ≡ true →
            spec.is_in self.old n ≡ true }
        requires counted { (n : PairedId) → spec.have_side n (slot_in wait.now ∷ []) ≡ false →
            spec.HasItsCount lanes.now self.old n }
        ensures live { spec.AreLive lanes.now self.new }
        ensures counted { spec.AreCounted lanes.now self.new }
        ensures places { (n : PairedId) → spec.HasPlace self.old n → spec.HasPlace self.new n }
    {
        self.cut_at(lanes, wait.slot());
    }

    // The same as `add_all`, of the one leaf of a group that waits for this.
    #[inline(always)]
    pub(crate) fn add_lone(&mut self, lanes: &Lanes, wait: &Wait)
        requires there { (n : PairedId) → spec.have_side n (slot_in wait.now ∷ []) ≡ true →
            spec.HasPlace self.old n }
        requires was { (n : PairedId) → spec.have_side n (slot_in wait.now ∷ []) ≡ false →
            spec.is_in self.old n ≡ spec.is_live lanes.now n }
        requires under { (n : PairedId) → spec.is_live lanes.now n ≡ false →
            spec.is_in self.old n ≡ false }
        requires counted { (n : PairedId) → spec.have_side n (slot_in wait.now ∷ []) ≡ false →
            spec.HasItsCount lanes.now self.old n }
        ensures live { spec.AreLive lanes.now self.new }
        ensures counted { spec.AreCounted lanes.now self.new }
    {
        self.add_at(lanes, wait.slot());
    }
}
