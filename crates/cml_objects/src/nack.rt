//! The state of one nack.

ghost use Rattle.std.specs.Prelude.{◌≡◌};

use crate::{FeedFault, Source};
use cml_value::{Tid, Value, ValueKind};
use std::alloc::AllocError;
use std::marker::Model;
use thiserror::Error;

/// The nack can't do this any more, or can't yet.
#[derive(Clone, Copy, Debug, PartialEq, Eq, Error)]
#[error("the nack is spent")]
pub struct Spent;

#[derive(Clone, Copy)]
enum State {
    Fresh(Tid),
    Live,
    Fired,
    Held,
}

/// A nack. It enters one pending group, and then either fires or is held, once.
#[derive(Drop)]
pub struct NackCell {
    state: State,
}

impl Model for NackCell {
    ghost use Rattle.cml_value.specs.Nack.{PlainNack};
    ghost use Rattle.cml_objects.specs.NackView.{cell_of};

    ghost Value = { PlainNack };

    ghost view = { λ cell. cell_of cell.state };
}

impl NackCell {
    ghost use Rattle.cml_objects.specs.NackCell.{Becomes};
    ghost use Rattle.cml_objects.specs.NackCell as spec;
    ghost use Rattle.cml_value.specs.Nack.{fresh_of};

    /// A fresh nack of this thread.
    pub fn new(owner: Tid) -> NackCell
        ensures { result ≡ fresh_of owner.0 }
    {
        NackCell {
            state: State::Fresh(owner),
        }
    }

    /// Whether it is fresh and this thread's.
    pub fn is_fresh_of(&self, thread: Tid) -> bool
        ensures { result ≡ spec.is_fresh_of thread.0 self.now }
    {
        match self.state {
            State::Fresh(owner) => thread.0 == owner.0,
            State::Live | State::Fired | State::Held => false,
        }
    }

    /// Whose it is, while it is fresh.
    pub fn owner(&self) -> Option<Tid>
        ensures { result ≡ spec.owner_of self.now }
    {
        match self.state {
            State::Fresh(owner) => Some(owner),
            State::Live | State::Fired | State::Held => None,
        }
    }

    /// Whether a pending group has its branch.
    pub fn is_live(&self) -> bool
        ensures { result ≡ spec.is_live_nack self.now }
    {
        match self.state {
            State::Live => true,
            State::Fresh(_) | State::Fired | State::Held => false,
        }
    }

    /// Whether it has fired, so that a wait for it is enabled.
    pub fn is_fired(&self) -> bool
        ensures { result ≡ spec.is_fired self.now }
    {
        match self.state {
            State::Fired => true,
            State::Fresh(_) | State::Live | State::Held => false,
        }
    }

    /// Makes it live: a pending group has its branch from now on.
    ///
    /// # Errors
    /// It is not fresh; nothing changes.
    pub fn enter(&mut self) -> Result<(), Spent>
        ensures { Becomes result (spec.after_enter self.old) self.old self.new }
    {
        match self.state {
            State::Fresh(_) => {
                self.state = State::Live;
                Ok(())
            }
            State::Live | State::Fired | State::Held => Err(Spent),
        }
    }

    /// Fires it: an event outside its branch was chosen.
    ///
    /// # Errors
    /// It is not live; nothing changes.
    pub fn fire(&mut self) -> Result<(), Spent>
        ensures { Becomes result (spec.after_fire self.old) self.old self.new }
    {
        match self.state {
            State::Live => {
                self.state = State::Fired;
                Ok(())
            }
            State::Held | State::Fired | State::Fresh(_) => Err(Spent),
        }
    }

    /// Holds it: an event inside its branch was chosen.
    ///
    /// # Errors
    /// It is not live; nothing changes.
    pub fn hold(&mut self) -> Result<(), Spent>
        ensures { Becomes result (spec.after_hold self.old) self.old self.new }
    {
        match self.state {
            State::Live => {
                self.state = State::Held;
                Ok(())
            }
            State::Fired | State::Held | State::Fresh(_) => Err(Spent),
        }
    }
}

/// What happens to a nack.
#[derive(Drop)]
pub enum NackFeed {
    /// A pending group has its branch from now on.
    Enter,
    /// An event outside its branch was chosen.
    Fire,
    /// An event inside its branch was chosen.
    Hold,
}

impl Source for NackCell {
    ghost use Rattle.std.specs.Prelude.{true, None};
    ghost use Rattle.std.proofs.Common.{rules};
    ghost use Rattle.cml_value.specs.{Value.{unit}, Nack.{PlainNack}};
    ghost use Rattle.cml_objects.specs.NackFeeds.{nack_fed, nack_stays_lit};
    ghost use Rattle.cml_objects.specs.NackCell as spec;

    type Want = ();

    type Feed = NackFeed;

    ghost State = { PlainNack };

    ghost state = { λ nack. nack };

    ghost is_lit = { spec.is_fired };

    ghost given = { λ _ _. unit };

    ghost after = { λ nack _. nack };

    ghost spared = { λ _ _. None };

    ghost fed = { nack_fed };

    ghost has_room = { λ _. true };

    ghost STICKY = { true };

    const STICKY: bool = true;

    ghost ROOMY = { true };

    const ROOMY: bool = true;

    fn lit(&self) -> bool {
        self.is_fired()
    }

    fn stays_lit_after(&self, _want: &()) -> bool {
        true
    }

    fn spare(&self, _want: &()) -> Result<Option<Value>, AllocError> {
        Ok(None)
    }

    fn give(&mut self, _want: (), _copy: Option<Value>) -> Value {
        Value::new(ValueKind::Unit)
    }

    fn feed(&mut self, feed: NackFeed) -> Result<(), FeedFault<NackFeed>> {
        let done = match &feed {
            NackFeed::Enter => self.enter(),
            NackFeed::Fire => self.fire(),
            NackFeed::Hold => self.hold(),
        };
        match done {
            Ok(()) => Ok(()),
            Err(Spent) => Err(FeedFault::Spent(feed)),
        }
    }

    fn room(&mut self) -> Result<(), AllocError> {
        Ok(())
    }

    ghost stays_lit = { nack_stays_lit };

    ghost sticky = { Prim.search rules };

    ghost roomy = { Prim.search rules };
}
