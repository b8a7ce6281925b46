//! Mailboxes.

ghost use Rattle.std.specs.{Prelude.{◌≡◌, [], length, slice_get}, Option.{option_copied}};
ghost use Rattle.cml_objects.specs.Queues.{is_at_limit};

use crate::queue::Queue;
use crate::{FeedFault, Source};
use cml_value::Value;
use std::alloc::{AllocError, Global};
use std::marker::Model;

/// A queue of values. A sender never waits; a receiver takes the first value.
#[derive(Drop)]
pub struct Mailbox {
    queue: Queue,
}

impl Model for Mailbox {
    ghost use Rattle.cml_objects.specs.PlainQueue.{PlainQueue, queue_code};

    ghost Value = { PlainQueue };

    ghost coded = { queue_code };

    ghost view = { λ mailbox. mailbox.queue };
}

impl Mailbox {
    /// An empty mailbox.
    pub fn new(alloc: Global) -> Mailbox
        ensures { result.items ≡ [] }
    {
        Mailbox {
            queue: Queue::new(alloc),
        }
    }

    /// How many items there are.
    pub fn len(&self) -> usize
        ensures { result ≡ length self.now.items }
    {
        self.queue.len()
    }

    /// The first item, which is the next to be taken, if there is one.
    pub fn first(&self) -> Option<&Value>
        ensures { option_copied result ≡ slice_get self.now.items 0 }
    {
        self.queue.first()
    }

    /// Item `n`, the first being 0, if there are so many.
    pub fn item(&self, n: usize) -> Option<&Value>
        ensures { option_copied result ≡ slice_get self.now.items n }
    {
        self.queue.item(n)
    }

    /// Whether it takes no more items.
    pub fn is_full(&self) -> bool
        ensures { result ≡ is_at_limit self.now.items }
    {
        self.queue.is_full()
    }
}

impl Source for Mailbox {
    ghost use Rattle.std.specs.Prelude.{false, None, List, nat_lt, drop};
    ghost use Rattle.std.proofs.Common.{rules};
    ghost use Rattle.cml_value.specs.Value.{PlainValue};
    ghost use Rattle.cml_objects.specs.{Queues.{is_filled, first_item, queued}, QueueLaws.{queued_stays_lit}};

    type Want = ();

    type Feed = Value;

    ghost State = { List PlainValue };

    ghost state = { λ mailbox. mailbox.items };

    ghost is_lit = { is_filled };

    ghost given = { λ items _. first_item items };

    ghost after = { λ items _. drop 1 items };

    ghost spared = { λ _ _. None };

    ghost fed = { queued };

    ghost has_room = { λ mailbox. nat_lt 0 mailbox.room };

    ghost STICKY = { false };

    const STICKY: bool = false;

    ghost ROOMY = { false };

    const ROOMY: bool = false;

    fn lit(&self) -> bool {
        self.queue.is_filled()
    }

    fn stays_lit_after(&self, _want: &()) -> bool {
        self.queue.has_second()
    }

    fn spare(&self, _want: &()) -> Result<Option<Value>, AllocError> {
        Ok(None)
    }

    fn give(&mut self, _want: (), _copy: Option<Value>) -> Value {
        self.queue.take_first()
    }

    fn feed(&mut self, feed: Value) -> Result<(), FeedFault<Value>> {
        self.queue.push(feed)
    }

    fn room(&mut self) -> Result<(), AllocError> {
        self.queue.reserve()
    }

    ghost stays_lit = { queued_stays_lit };

    ghost sticky = { Prim.search rules };

    ghost roomy = { Prim.search rules };
}
