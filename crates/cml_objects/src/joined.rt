//! The end of a thread.

ghost use Rattle.std.specs.Prelude.{◌≡◌, false};

use crate::{FeedFault, Source};
use cml_value::{Value, ValueKind};
use std::alloc::AllocError;
use std::marker::Model;

/// Whether a thread has ended. It is fed once, when the thread ends.
#[derive(Drop)]
pub struct Joined {
    has_ended: bool,
}

impl Model for Joined {
    ghost use Rattle.std.specs.Prelude.{Bool};

    ghost Value = { Bool };

    ghost view = { λ joined. joined.has_ended };
}

impl Joined {
    /// The thread runs, or waits.
    pub fn new() -> Joined
        ensures { result ≡ false }
    {
        Joined { has_ended: false }
    }
}

impl Source for Joined {
    ghost use Rattle.std.specs.Prelude.{true, None, Bool};
    ghost use Rattle.std.proofs.Common.{rules};
    ghost use Rattle.cml_value.specs.Value.{unit};
    ghost use Rattle.cml_objects.specs.{Signals.{ended_once}, SignalLaws.{ended_stays_lit}};

    type Want = ();

    type Feed = ();

    ghost State = { Bool };

    ghost state = { λ joined. joined };

    ghost is_lit = { λ has_ended. has_ended };

    ghost given = { λ _ _. unit };

    ghost after = { λ has_ended _. has_ended };

    ghost spared = { λ _ _. None };

    ghost fed = { λ has_ended _. ended_once has_ended };

    ghost has_room = { λ _. true };

    ghost STICKY = { true };

    const STICKY: bool = true;

    ghost ROOMY = { true };

    const ROOMY: bool = true;

    fn lit(&self) -> bool {
        self.has_ended
    }

    fn stays_lit_after(&self, _want: &()) -> bool {
        true
    }

    fn spare(&self, _want: &()) -> Result<Option<Value>, AllocError> {
        Ok(None)
    }

    fn give(&mut self, _want: (), _copy: Option<Value>) -> Value {
        Value::new(ValueKind::Unit)
    }

    fn feed(&mut self, _feed: ()) -> Result<(), FeedFault<()>> {
        if self.has_ended {
            return Err(FeedFault::Spent(()));
        }
        self.has_ended = true;
        Ok(())
    }

    fn room(&mut self) -> Result<(), AllocError> {
        Ok(())
    }

    ghost stays_lit = { ended_stays_lit };

    ghost sticky = { Prim.search rules };

    ghost roomy = { Prim.search rules };
}
