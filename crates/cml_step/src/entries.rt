//! The entries of a thread's stack, of which copies share all but those that lie in the stack itself.

ghost use Rattle.std.specs.Prelude.{◌≡◌, ◌↔◌, ◌++◌, ◌+◌, ◌<◌, ◌≤◌, ◌∷◌, List, [], false, None, length, IfOk, OnErr, IsTrue, MatchOption, option_copied};
ghost use Rattle.cml_step.specs.Machines.{PlainHeld, plain_held};
ghost use Rattle.cml_step.specs.Shared.{TakesOff, frame_entries, left_of, topped, called, plain_seen, entries_left, HoldsNoValue, IsNoCall, HasNoCall, HasNoCallOnTop};
ghost use Rattle.cml_step.specs.Undone.{stack_before};

use crate::call::Call;
use crate::entry::{
    Entry, Seen, as_seen, copy_call, copy_entry, may_be_same, renew_call, same_entry,
};
use crate::journal::Journal;
use std::alloc::{AllocError, Global};
use std::marker::Model;
use std::mem::replace;
use std::sync::Arc;

/// An entry, and those below it.
#[derive(Drop)]
pub(crate) struct Frame {
    entry: Entry,
    below: Option<Arc<Frame>>,
}

impl Model for Frame {
    ghost use Rattle.std.specs.{Prelude.{List, ◌++◌, ◌∷◌, [], length}, Coded.{coded_list}};
    ghost use Rattle.cml_step.specs.{Machines.{PlainHeld}, MachineCodes.{held_code}};

    ghost Value = { List PlainHeld };

    ghost coded = { coded_list held_code };

    ghost use Rattle.cml_step.specs.{Machines.{plain_held}, Shared.{frame_entries}};

    ghost view = { λ a. frame_entries a.below ++ plain_held a.entry ∷ [] };

    ghost size = { length };

    ghost use Rattle.std.proofs.Common.{arith, length-append};

    ghost size_decreases = { λ a h. Prim.grind (arith, length-append) };
}

/// Entries that copies share: a copy is one more owner of the first, whatever stands below it.
pub(crate) struct Frames {
    first: Option<Arc<Frame>>,
    count: usize,
}

// Written out, so that how the parts are dropped is proved once, and whoever drops one calls this.
impl Drop for Frames {
    fn drop(self) {
        let Frames { first, count: _ } = self;
        drop(first);
    }
}

impl Model for Frames {
    ghost use Rattle.std.specs.{Prelude.{List, ◌≡◌, ◌<◌, ◌+◌, length}, Coded.{coded_list}};
    ghost use Rattle.cml_step.specs.{Machines.{PlainHeld}, MachineCodes.{held_code}};

    ghost Value = { List PlainHeld };

    ghost coded = { coded_list held_code };

    ghost use Rattle.std.below.core.specs.declared.int.usize.TheConstants.{MAX};
    ghost use Rattle.cml_step.specs.Shared.{frame_entries};

    ghost view = { λ a. frame_entries a.first };

    ghost invariant = { λ a. (a.count ≡ length (frame_entries a.first)) × (a.count + 1 < MAX) };
}

// Another owner of the frame.
fn shared(first: &Option<Arc<Frame>>) -> Result<Option<Arc<Frame>>, AllocError>
    ensures { IfOk result (λ copy. frame_entries copy ≡ frame_entries first.now) }
{
    match first {
        None => Ok(None),
        Some(frame) => Ok(Some(Arc::try_clone(frame)?)),
    }
}

// The entry of the frame once more, and another owner of what is below it.
fn copied(alloc: Global, frame: &Frame) -> Result<(Entry, Option<Arc<Frame>>), AllocError>
    ensures { IfOk result (λ r. frame.now ≡ frame_entries r.1 ++ plain_held r.0 ∷ []) }
{
    let below = shared(&frame.below)?;
    match copy_entry(alloc, &frame.entry) {
        Ok(entry) => Ok((entry, below)),
        Err(error) => {
            drop(below);
            Err(error)
        }
    }
}

// The same, taken out of the frame where nothing else owns it.
fn opened(alloc: Global, frame: Arc<Frame>) -> Result<(Entry, Option<Arc<Frame>>), AllocError>
    ensures { IfOk result (λ r. frame.value ≡ frame_entries r.1 ++ plain_held r.0 ∷ []) }
{
    match Arc::try_unwrap(frame) {
        Ok(alone) => Ok((alone.entry, alone.below)),
        Err(owned) => {
            let parts = copied(alloc, &owned);
            drop(owned);
            parts
        }
    }
}

// The entry on top of those in the frame.
fn on_top(alloc: Global, entry: Entry, below: Option<Arc<Frame>>) -> Result<Arc<Frame>, AllocError>
    ensures { IfOk result (λ f. f.value ≡ frame_entries below ++ plain_held entry ∷ []) }
{
    match Arc::new(alloc, Frame { entry, below }) {
        Ok(frame) => Ok(frame),
        Err(back) => {
            drop(back);
            Err(AllocError)
        }
    }
}

// Whether the entry is a call.
fn is_call(entry: &Entry) -> bool
    ensures { result ≡ false → (call : Call) → plain_held entry.now
        ≡ plain_held (Entry.Call call) → ⊥ }
{
    match entry {
        Entry::Call(_) => true,
        Entry::Force(_, _) => false,
        Entry::Wraps(_) => false,
    }
}

impl Frames {
    /// No entries.
    pub fn new() -> Frames
        ensures { result ≡ [] }
    {
        Frames {
            first: None,
            count: 0,
        }
    }

    /// How many entries there are.
    pub fn len(&self) -> usize
        ensures len { result ≡ length self.now }
        ensures bounded { result + 1 < usize.MAX }
    {
        self.count
    }

    /// Another owner of the same entries.
    pub fn copy(&self) -> Result<Frames, AllocError>
        ensures { IfOk result (λ copy. copy ≡ self.now) }
    {
        let first = shared(&self.first)?;
        Ok(Frames {
            first,
            count: self.count,
        })
    }

    /// The entry on top of these.
    pub fn with(self, alloc: Global, entry: Entry) -> Result<Frames, AllocError>
        ensures { IfOk result (λ all. all ≡ self ++ plain_held entry ∷ []) }
    {
        let Frames { first, count } = self;
        if count >= usize::MAX - 2 {
            drop(entry);
            drop(first);
            return Err(AllocError);
        }
        let frame = on_top(alloc, entry, first)?;
        Ok(Frames {
            first: Some(frame),
            count: count + 1,
        })
    }

    // Whether a call is on top.
    #[tactic(auto, using(crate::proofs::StackLemmas::no_call_on, crate::proofs::StackLemmas::no_call_in_none))]
    fn tops_call(&self) -> bool
        ensures { result ≡ false → HasNoCallOnTop self.now }
    {
        match &self.first {
            Some(frame) => is_call(&frame.entry),
            None => false,
        }
    }

    /// The top entry and those below it, if there is one.
    pub fn parts(self, alloc: Global) -> Result<(Option<Entry>, Frames), AllocError>
        ensures { IfOk result (λ r. TakesOff r.0 self r.1) }
    {
        let Frames { first, count } = self;
        match first {
            None => Ok((None, Frames::new())),
            Some(frame) => {
                let (entry, first) = opened(alloc, frame)?;
                Ok((
                    Some(entry),
                    Frames {
                        first,
                        count: count - 1,
                    },
                ))
            }
        }
    }
}

/// The entries of a stack that takes steps. What is on top lies in the stack itself: a call, and over it what it waits for, if there is
/// such an entry. No other call stands over it. Where both places are empty nothing is on the stack, and no call lies below an empty place.
pub(crate) struct Stack {
    pub(crate) over: Option<Entry>,
    pub(crate) call: Option<Call>,
    pub(crate) below: Frames,
}

// Written out, so that how the parts are dropped is proved once, and whoever drops one calls this.
impl Drop for Stack {
    fn drop(self) {
        let Stack { over, call, below } = self;
        drop(over);
        drop(call);
        drop(below);
    }
}

impl Model for Stack {
    ghost use Rattle.std.specs.{Prelude.{List, ◌≡◌, None, []}, Coded.{coded_list}};
    ghost use Rattle.cml_step.specs.{Machines.{PlainHeld}, MachineCodes.{held_code}};

    ghost Value = { List PlainHeld };

    ghost coded = { coded_list held_code };

    ghost use Rattle.cml_step.specs.Shared.{topped, called, HasNoCall, HasNoCallOnTop};

    ghost view = { λ a. topped (called a.below a.call) a.over };

    // So an answer that puts nothing on the stack takes no memory, and neither does what is put back into a call.
    ghost invariant = { λ a. (a.over ≡ None → a.call ≡ None → a.below ≡ [])
        × (a.call ≡ None → HasNoCallOnTop a.below) × HasNoCall a.over };
}

// Makes the entry a copy of the other, if there is one.
fn copy_over_into(
    alloc: Global,
    mine: &mut Option<Entry>,
    other: &Option<Entry>,
) -> Result<(), AllocError>
    ensures same { IfOk result (λ _. (hs : List PlainHeld) →
        topped hs mine.new ≡ topped hs other.now) }
    ensures there { IfOk result (λ _. mine.new ≡ None → other.now ≡ None) }
    ensures no_call { HasNoCall mine.old → HasNoCall other.now → HasNoCall mine.new }
{
    match other {
        None => {
            *mine = None;
            Ok(())
        }
        Some(entry) => {
            *mine = Some(copy_entry(alloc, entry)?);
            Ok(())
        }
    }
}

// Makes the call a copy of the other, if there is one, in the lists that it has.
fn copy_call_into(
    alloc: Global,
    mine: &mut Option<Call>,
    other: &Option<Call>,
) -> Result<(), AllocError>
    ensures same { IfOk result (λ _. (hs : List PlainHeld) →
        called hs mine.new ≡ called hs other.now) }
    ensures there { IfOk result (λ _. mine.new ≡ None → other.now ≡ None) }
{
    match other {
        None => {
            *mine = None;
            Ok(())
        }
        Some(call) => match mine {
            Some(own) => renew_call(own, call),
            None => {
                *mine = Some(copy_call(alloc, call)?);
                Ok(())
            }
        },
    }
}

// Puts a copy of the call there, in the lists of the one that is there, if there is one.
fn renew_place(alloc: Global, mine: &mut Option<Call>, call: &Call) -> Result<(), AllocError>
    ensures { IfOk result (λ _. (hs : List PlainHeld) →
        called hs mine.new ≡ hs ++ plain_held (Entry.Call call.now) ∷ []) }
{
    match mine {
        Some(own) => renew_call(own, call),
        None => {
            *mine = Some(copy_call(alloc, call)?);
            Ok(())
        }
    }
}

// The entries with this one on top, if there is one.
fn with_over(alloc: Global, over: Option<Entry>, below: Frames) -> Result<Frames, AllocError>
    ensures { IfOk result (λ all. all ≡ topped below over) }
{
    match over {
        None => Ok(below),
        Some(entry) => below.with(alloc, entry),
    }
}

// The entries with this call on top, if there is one.
fn with_call(alloc: Global, call: Option<Call>, below: Frames) -> Result<Frames, AllocError>
    ensures { IfOk result (λ all. all ≡ called below call) }
{
    match call {
        None => Ok(below),
        Some(call) => below.with(alloc, Entry::Call(call)),
    }
}

/// Another owner of the entries, with another owner of the call, if there is one, on top.
#[inline(never)]
pub(crate) fn under(
    alloc: Global,
    call: &Option<Call>,
    below: &Frames,
) -> Result<Frames, AllocError>
    ensures { IfOk result (λ all. all ≡ called below.now call.now) }
{
    let below = below.copy()?;
    match call {
        None => Ok(below),
        Some(call) => {
            let copy = copy_call(alloc, call)?;
            below.with(alloc, Entry::Call(copy))
        }
    }
}

// The entries with both on top.
fn sunk(
    alloc: Global,
    over: Option<Entry>,
    call: Option<Call>,
    below: Frames,
) -> Result<Frames, AllocError>
    ensures { IfOk result (λ all. all ≡ topped (called below call) over) }
{
    match with_call(alloc, call, below) {
        Ok(all) => with_over(alloc, over, all),
        Err(error) => {
            drop(over);
            Err(error)
        }
    }
}

// Puts what lies in the two places among the entries below.
#[inline(never)]
fn sink(
    alloc: Global,
    over: &mut Option<Entry>,
    call: &mut Option<Call>,
    below: &mut Frames,
) -> Result<(), AllocError>
    ensures all { IfOk result (λ _. below.new ≡ topped (called below.old call.old) over.old) }
    ensures empty { (over.new ≡ None) × (call.new ≡ None) }
    ensures err { OnErr result (below.new ≡ []) }
{
    let stands = over.take();
    let waits = call.take();
    let all = replace(below, Frames::new());
    *below = sunk(alloc, stands, waits, all)?;
    Ok(())
}

// Brings a call on top of the entries up to its place, which is empty.
#[inline(never)]
#[tactic(auto, using(crate::proofs::StackLemmas::no_call_in_none))]
fn raise(alloc: Global, call: &mut Option<Call>, below: &mut Frames) -> Result<(), AllocError>
    requires { call.old ≡ None }
    ensures same { IfOk result (λ _. called below.new call.new ≡ below.old) }
    ensures raised { call.new ≡ None → HasNoCallOnTop below.new }
{
    if !below.tops_call() {
        return Ok(());
    }
    let all = replace(below, Frames::new());
    let (entry, rest) = all.parts(alloc)?;
    match entry {
        Some(Entry::Call(top)) => {
            *call = Some(top);
            *below = rest;
            Ok(())
        }
        // A call is on top.
        other => {
            drop(other);
            drop(rest);
            Err(AllocError)
        }
    }
}

// Brings the top one of the entries up to one of the two places, which are empty, and a call right below it to the other.
#[inline(never)]
#[tactic(auto, using(crate::proofs::StackLemmas::no_call_in_none))]
fn lift(
    alloc: Global,
    over: &mut Option<Entry>,
    call: &mut Option<Call>,
    below: &mut Frames,
) -> Result<(), AllocError>
    requires { (over.old ≡ None) × (call.old ≡ None) }
    ensures same { IfOk result (λ _. topped (called below.new call.new) over.new ≡ below.old) }
    ensures lifted { over.new ≡ None → call.new ≡ None → below.new ≡ [] }
    ensures raised { call.new ≡ None → HasNoCallOnTop below.new }
    ensures no_call { HasNoCall over.new }
{
    let all = replace(below, Frames::new());
    let (entry, rest) = all.parts(alloc)?;
    match entry {
        None => {
            drop(rest);
            Ok(())
        }
        Some(Entry::Call(top)) => {
            *call = Some(top);
            *below = rest;
            Ok(())
        }
        Some(other) => {
            *over = Some(other);
            *below = rest;
            raise(alloc, call, below)?;
            Ok(())
        }
    }
}

// How many entries the place over the call has.
fn over_count(over: &Option<Entry>) -> usize
    ensures count { (hs : List PlainHeld) → length (topped hs over.now) ≡ length hs + result }
    ensures most { result ≤ 1 }
{
    match over {
        None => 0,
        Some(_) => 1,
    }
}

// The same of the call's.
fn call_count(call: &Option<Call>) -> usize
    ensures count { (hs : List PlainHeld) → length (called hs call.now) ≡ length hs + result }
    ensures most { result ≤ 1 }
{
    match call {
        None => 0,
        Some(_) => 1,
    }
}

// Drops the values of the call, if there is one.
fn empty(call: &mut Option<Call>)
    ensures { HoldsNoValue (called [] call.new) }
{
    if let Some(call) = call {
        call.slots.clear();
    }
}

impl Stack {
    /// Nothing.
    #[tactic(auto, using(crate::proofs::StackLemmas::no_call_in_none))]
    pub fn new() -> Stack
        ensures { result ≡ [] }
    {
        Stack {
            over: None,
            call: None,
            below: Frames::new(),
        }
    }

    /// The call alone, on these entries.
    pub fn calling(call: Call, below: Frames) -> Stack
        ensures { result ≡ below ++ plain_held (Entry.Call call) ∷ [] }
    {
        Stack {
            over: None,
            call: Some(call),
            below,
        }
    }

    /// How many entries there are.
    pub fn len(&self) -> usize
        ensures { result ≡ length self.now }
    {
        self.below.len() + call_count(&self.call) + over_count(&self.over)
    }

    /// Takes all entries off.
    #[tactic(auto, using(crate::proofs::StackLemmas::no_call_in_none))]
    pub fn clear(&mut self)
        ensures { self.new ≡ [] }
    {
        self.over = None;
        self.call = None;
        self.below = Frames::new();
    }

    /// Puts a call on top.
    #[tactic(auto, using(crate::proofs::StackLemmas::no_call_in_none))]
    pub fn push_call(&mut self, alloc: Global, call: Call) -> Result<(), AllocError>
        ensures items { IfOk result (λ _.
            self.new ≡ self.old ++ plain_held (Entry.Call call) ∷ []) }
    {
        match sink(alloc, &mut self.over, &mut self.call, &mut self.below) {
            Ok(()) => {
                self.call = Some(call);
                Ok(())
            }
            Err(error) => {
                drop(call);
                Err(error)
            }
        }
    }

    // Puts another entry on top.
    #[tactic(auto, using(crate::proofs::StackLemmas::no_call_in_none))]
    fn push_over(&mut self, alloc: Global, entry: Entry) -> Result<(), AllocError>
        requires { IsNoCall entry }
        ensures items { IfOk result (λ _. self.new ≡ self.old ++ plain_held entry ∷ []) }
    {
        if self.over.is_none() {
            self.over = Some(entry);
            return Ok(());
        }
        match sink(alloc, &mut self.over, &mut self.call, &mut self.below) {
            Ok(()) => {
                self.over = Some(entry);
                raise(alloc, &mut self.call, &mut self.below)?;
                Ok(())
            }
            Err(error) => {
                drop(entry);
                Err(error)
            }
        }
    }

    /// Puts the entry on top.
    pub fn push(&mut self, alloc: Global, entry: Entry) -> Result<(), AllocError>
        ensures items { IfOk result (λ _. self.new ≡ self.old ++ plain_held entry ∷ []) }
    {
        match entry {
            Entry::Call(call) => self.push_call(alloc, call),
            other => self.push_over(alloc, other),
        }
    }

    /// Takes the top entry off and lets it go.
    #[tactic(auto, using(crate::proofs::StackLemmas::no_call_in_none))]
    pub fn drop_top(&mut self, alloc: Global) -> Result<(), AllocError>
        ensures { IfOk result (λ _. (hs : List PlainHeld) (h : PlainHeld) →
            self.old ≡ hs ++ h ∷ [] → self.new ≡ hs) }
    {
        if self.over.is_some() {
            self.over = None;
            if self.call.is_some() {
                return Ok(());
            }
            return lift(alloc, &mut self.over, &mut self.call, &mut self.below);
        }
        self.call = None;
        lift(alloc, &mut self.over, &mut self.call, &mut self.below)
    }

    /// A copy of the entries; it shares the parts of their values.
    pub fn copy(&self, alloc: Global) -> Result<Stack, AllocError>
        ensures { IfOk result (λ copy. copy ≡ self.now) }
    {
        let mut copy = Stack::new();
        match copy.copy_from(alloc, self) {
            Ok(()) => Ok(copy),
            Err(error) => Err(error),
        }
    }

    /// Makes this stack a copy of the other, in the lists that its call has.
    #[tactic(auto, using(crate::proofs::StackLemmas::no_call_in_none))]
    pub fn copy_from(&mut self, alloc: Global, other: &Stack) -> Result<(), AllocError>
        ensures { IfOk result (λ _. self.new ≡ other.now) }
    {
        self.below = Frames::new();
        copy_over_into(alloc, &mut self.over, &other.over)?;
        copy_call_into(alloc, &mut self.call, &other.call)?;
        self.below = other.below.copy()?;
        Ok(())
    }

    /// Makes this stack the one with this call on top of these entries as it was before what the journal has of it, in the lists that its
    /// own call has. Where memory runs out the journal is as it was.
    #[tactic(auto, using(crate::proofs::StackLemmas::no_call_in_none))]
    pub fn copy_before(
        &mut self,
        alloc: Global,
        call: &Call,
        below: &Frames,
        journal: &mut Journal,
    ) -> Result<(), AllocError>
        ensures ok { IfOk result (λ _. self.new ≡ stack_before below.now journal.old call.now) }
        ensures err { OnErr result (journal.new ≡ journal.old) }
    {
        self.over = None;
        self.below = Frames::new();
        renew_place(alloc, &mut self.call, call)?;
        let frames = below.copy()?;
        self.below = frames;
        match &mut self.call {
            Some(own) => {
                journal.put_back(&mut self.over, own);
                Ok(())
            }
            // A call was put there.
            None => Err(AllocError),
        }
    }

    /// Lets go what it shares with others. It keeps the lists of its call.
    #[tactic(auto, using(crate::proofs::StackLemmas::no_call_in_none))]
    pub fn rest(&mut self)
        ensures { HoldsNoValue self.new }
    {
        self.over = None;
        self.below = Frames::new();
        empty(&mut self.call);
    }
}

/// What is left of a walk through the entries of a stack, from the top.
#[derive(Clone, Copy)]
pub struct Walk<'a> {
    over: Option<&'a Entry>,
    call: Option<&'a Call>,
    below: Option<&'a Frame>,
}

// The frame there, if there is one.
fn frame_of(first: &Option<Arc<Frame>>) -> Option<&Frame>
    ensures { entries_left (option_copied result) ≡ frame_entries first.now }
{
    match first {
        Some(frame) => Some(frame),
        None => None,
    }
}

impl<'a> Walk<'a> {
    /// The walk through these entries.
    pub(crate) fn through(stack: &'a Stack) -> Walk<'a>
        ensures { left_of result ≡ stack.now }
    {
        Walk {
            over: stack.over.as_ref(),
            call: stack.call.as_ref(),
            below: frame_of(&stack.below.first),
        }
    }

    /// The next entry down, if there is one.
    pub fn step(&mut self) -> Option<Seen<'a>>
        ensures { MatchOption result ((left_of self.old ≡ []) × (left_of self.new ≡ []))
            (λ e. left_of self.old ≡ left_of self.new ++ plain_seen e ∷ []) }
    {
        if let Some(entry) = self.over.take() {
            return Some(as_seen(entry));
        }
        if let Some(call) = self.call.take() {
            return Some(Seen::Call(call));
        }
        let frame = self.below.take()?;
        self.below = frame_of(&frame.below);
        Some(as_seen(&frame.entry))
    }
}

// Whether the entries may be the same, one after another: no value is looked at.
fn may_all_be_same(entries: Walk<'_>, others: Walk<'_>) -> bool
    ensures { left_of entries.entry ≡ left_of others.entry → IsTrue result }
{
    let (mut entries, mut others) = (entries, others);
    loop {
        match (entries.step(), others.step()) {
            (Some(entry), Some(other)) => {
                if !may_be_same(entry, other) {
                    return false;
                }
            }
            (None, None) => return true,
            _ => return false,
        }
    }
}

// Whether the entries are the same, one after another.
fn all_same(entries: Walk<'_>, others: Walk<'_>) -> bool
    ensures { IsTrue result ↔ (left_of entries.entry ≡ left_of others.entry) }
{
    let (mut entries, mut others) = (entries, others);
    loop {
        match (entries.step(), others.step()) {
            (Some(entry), Some(other)) => {
                if !same_entry(entry, other) {
                    return false;
                }
            }
            (None, None) => return true,
            _ => return false,
        }
    }
}

/// Whether the two are the same entries: functions and places are looked at before values.
pub(crate) fn same_entries(entries: Walk<'_>, others: Walk<'_>) -> bool
    ensures { IsTrue result ↔ (left_of entries.entry ≡ left_of others.entry) }
{
    may_all_be_same(entries, others) && all_same(entries, others)
}
