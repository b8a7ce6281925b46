//! What every kind of object that a thread can wait for alone has to promise.

ghost use Rattle.std.specs.Prelude.{◌≡◌, Bool, Option, Result, Ok, IsTrue, IfOk, OnOk, OnErr, IsOk};
ghost use Rattle.cml_value.specs.Value.{PlainValue};
ghost use Rattle.cml_objects.specs.Feeds.{PlainRefusal, Feeds, WantsNoMemory};

use cml_value::Value;
use std::alloc::AllocError;
use std::fmt;
use thiserror::Error;

/// Why an object did not take what it was fed. The feed comes back, and the object is as it was.
#[derive(Drop, Error)]
pub enum FeedFault<F> {
    /// The object holds a value already.
    #[error("the object holds a value already")]
    Put(F),
    /// The object holds as many items as it may.
    #[error("the object is full")]
    Full(F),
    /// The object takes no such feed any more, or not yet.
    #[error("the object takes no such feed now")]
    Spent(F),
    /// Out of memory.
    #[error("out of memory")]
    Memory(F),
}

// The feed itself is not shown.
impl<F> fmt::Debug for FeedFault<F> {
    fn fmt<W: fmt::Write>(&self, f: &mut fmt::Formatter<W>) -> fmt::Result {
        write!(f, "{self}")
    }
}

/// A kind of object that is lit in some of its states, and gives something to those who wait for it while it is.
///
/// A thread that waits for an object asks it for a want; what changes it from outside is a feed.
pub trait Source: Drop {
    /// What a thread that waits can ask of it.
    type Want;

    /// What changes it from outside.
    type Feed;

    /// What an object holds, apart from how it lies in memory.
    ghost State: { Type 0 };

    ghost state: { Self → State };

    /// Whether an object in this state is lit.
    ghost is_lit: { State → Bool };

    /// The value that a want is given.
    ghost given: { State → Self.Want → PlainValue };

    /// The state after a want was given its value.
    ghost after: { State → Self.Want → State };

    /// The copy that `give` is handed for the want, where it needs one.
    ghost spared: { State → Self.Want → Option PlainValue };

    /// The state after a feed, or why it is refused.
    ghost fed: { State → Self.Feed → Result State PlainRefusal };

    /// Whether the next feed takes no memory.
    ghost has_room: { Self → Bool };

    /// Whether a want leaves every object as it is.
    ghost STICKY: { Bool };

    const STICKY: bool;

    /// Whether no feed ever needs memory.
    ghost ROOMY: { Bool };

    const ROOMY: bool;

    /// Whether a want can be given something now.
    fn lit(&self) -> bool
        ensures { result ≡ is_lit (state self.now) };

    /// Whether it stays lit after it gave its value to this want. A table of communications is told of this beforehand.
    fn stays_lit_after(&self, want: &Self::Want) -> bool
        requires { IsTrue (is_lit (state self.now)) }
        ensures { result ≡ is_lit (after (state self.now) want.now) };

    /// The copy that `give` will need for the want.
    ///
    /// # Errors
    /// Out of memory.
    fn spare(&self, want: &Self::Want) -> Result<Option<Value>, AllocError>
        requires { IsTrue (is_lit (state self.now)) }
        ensures { IfOk result (λ copy. copy ≡ spared (state self.now) want.now) };

    /// Gives the want its value. It takes no memory, and what room there was stays.
    fn give(&mut self, want: Self::Want, copy: Option<Value>) -> Value
        requires lit { IsTrue (is_lit (state self.old)) }
        requires spared { copy ≡ spared (state self.old) want }
        ensures value { result ≡ given (state self.old) want }
        ensures state { state self.new ≡ after (state self.old) want }
        ensures kept { IsTrue (has_room self.old) → IsTrue (has_room self.new) };

    /// Changes the object from outside.
    ///
    /// # Errors
    /// What the kind says, or out of memory; nothing changes, and what room there was stays.
    fn feed(&mut self, feed: Self::Feed) -> Result<(), FeedFault<Self::Feed>>
        ensures state { Feeds result (fed (state self.old) feed) feed (state self.old) (state self.new) }
        ensures room { IsTrue (has_room self.old) → WantsNoMemory result }
        ensures kept { OnErr result (IsTrue (has_room self.old) → IsTrue (has_room self.new)) };

    /// Makes room, so that the next feed takes no memory. What room there was stays, also at an error.
    ///
    /// # Errors
    /// Out of memory; a kind that is `ROOMY` never returns it.
    fn room(&mut self) -> Result<(), AllocError>
        ensures state { state self.new ≡ state self.old }
        ensures ok { OnOk result (IsTrue (has_room self.new)) }
        ensures kept { IsTrue (has_room self.old) → IsTrue (has_room self.new) }
        ensures roomy { IsTrue ROOMY → IsOk result };

    /// A feed never turns a light off.
    ghost stays_lit: { (s t : State) (feed : Self.Feed) → fed s feed ≡ Ok t → IsTrue (is_lit s) → IsTrue (is_lit t) };

    /// An object of a sticky kind is as it was after it gave.
    ghost sticky: { IsTrue STICKY → (s : State) (want : Self.Want) → IsTrue (is_lit s) → after s want ≡ s };

    /// An object of a roomy kind always has room.
    ghost roomy: { IsTrue ROOMY → (x : Self) → IsTrue (has_room x) };
}
