//! Values in the order in which they came.

ghost use Rattle.std.specs.{Prelude.{◌≡◌, ◌<◌, ◌≤◌, [], drop, length, slice_get, IsTrue, IfOk, OnOk, OnErr}, Option.{option_copied}};
ghost use Rattle.cml_objects.specs.Feeds.{Feeds, WantsNoMemory};
ghost use Rattle.cml_objects.specs.Queues.{is_filled, is_at_limit, first_item, queued};

use crate::FeedFault;
use cml_value::Value;
use std::alloc::{AllocError, Global};
use std::collections::VecDeque;
use std::marker::Model;

/// The most items that a mailbox or a port holds.
pub const MAX_ITEMS: usize = 65_536;

// Items in the order in which they came. Adding one at the end and taking the first take the same time for any number of them.
#[derive(Drop)]
pub(crate) struct Queue {
    items: VecDeque<Value>,
}

impl Model for Queue {
    ghost use Rattle.std.specs.{Prelude.{◌-◌}, VecDeque.{deque_len, deque_capacity}};
    ghost use Rattle.cml_objects.specs.PlainQueue.{PlainQueue, queue_code};

    ghost Value = { PlainQueue };

    ghost coded = { queue_code };

    ghost view = { λ q. record { items = q.items.items; room = deque_capacity q.items - deque_len q.items } };
}

impl Queue {
    // No item.
    pub(crate) fn new(alloc: Global) -> Queue
        ensures { result.items ≡ [] }
    {
        Queue {
            items: VecDeque::new(alloc),
        }
    }

    // How many items there are.
    pub(crate) fn len(&self) -> usize
        ensures { result ≡ length self.now.items }
    {
        self.items.len()
    }

    // The first item, if there is one.
    pub(crate) fn first(&self) -> Option<&Value>
        ensures { option_copied result ≡ slice_get self.now.items 0 }
    {
        self.items.front()
    }

    // Item `n`, the first being 0, if there are so many.
    pub(crate) fn item(&self, n: usize) -> Option<&Value>
        ensures { option_copied result ≡ slice_get self.now.items n }
    {
        self.items.get(n)
    }

    // Whether there is an item.
    pub(crate) fn is_filled(&self) -> bool
        ensures { result ≡ is_filled self.now.items }
    {
        self.items.len() > 0
    }

    // Whether there is an item after the first.
    pub(crate) fn has_second(&self) -> bool
        ensures { result ≡ is_filled (drop 1 self.now.items) }
    {
        self.items.len() > 1
    }

    // Whether no more items are taken.
    pub(crate) fn is_full(&self) -> bool
        ensures { result ≡ is_at_limit self.now.items }
    {
        self.items.len() >= MAX_ITEMS
    }

    // Puts the value after the items.
    pub(crate) fn push(&mut self, value: Value) -> Result<(), FeedFault<Value>>
        ensures items { Feeds result (queued self.old.items value) value self.old.items self.new.items }
        ensures room { 0 < self.old.room → WantsNoMemory result }
        ensures kept { OnErr result (self.old.room ≤ self.new.room) }
    {
        if self.is_full() {
            return Err(FeedFault::Full(value));
        }
        match self.items.push_back(value) {
            Ok(()) => Ok(()),
            Err(failed) => Err(FeedFault::Memory(failed.value)),
        }
    }

    // Takes the first item.
    pub(crate) fn take_first(&mut self) -> Value
        requires { IsTrue (is_filled self.old.items) }
        ensures value { result ≡ first_item self.old.items }
        ensures rest { self.new.items ≡ drop 1 self.old.items }
        ensures kept { self.old.room ≤ self.new.room }
    {
        self.items.pop_front().unwrap()
    }

    // Makes room for one more item.
    pub(crate) fn reserve(&mut self) -> Result<(), AllocError>
        ensures items { self.new.items ≡ self.old.items }
        ensures room { OnOk result (0 < self.new.room) }
        ensures kept { self.old.room ≤ self.new.room }
    {
        self.items.reserve(1)
    }

    // The same items in a queue of their own.
    pub(crate) fn copy(&self, alloc: Global) -> Result<Queue, AllocError>
        ensures { IfOk result (λ copy. copy.items ≡ self.now.items) }
    {
        let mut items = VecDeque::new(alloc);
        for value in self.items.iter() {
            items.push_back(value.copy()?)?;
        }
        Ok(Queue { items })
    }
}
