//! A variable that can be emptied and written again.

ghost use Rattle.std.specs.{Prelude.{◌≡◌}, Option.{option_copied}};

use crate::{FeedFault, Source};
use cml_value::Value;
use std::alloc::AllocError;
use std::marker::Model;
use std::mem;

/// A variable that a take empties, and that can then be written again.
#[derive(Drop)]
pub struct MVar {
    held: Option<Value>,
}

/// What a thread asks of a full `MVar`.
#[derive(Drop)]
pub enum MVarWant {
    /// The value, which leaves the variable.
    Take,
    /// The value, which stays.
    Get,
    /// The value, in whose place this one is left.
    Swap(Value),
}

impl Model for MVar {
    ghost use Rattle.std.specs.{Prelude.{Option}, Coded.{coded_option}};
    ghost use Rattle.cml_value.specs.{Value.{PlainValue}, Codes.{value_code}};

    ghost Value = { Option PlainValue };

    ghost coded = { coded_option value_code };

    ghost view = { λ variable. variable.held };
}

impl MVar {
    /// A variable that holds this value, or an empty one.
    pub fn new(held: Option<Value>) -> MVar
        ensures { result ≡ held }
    {
        MVar { held }
    }

    /// The value, if there is one.
    pub fn value(&self) -> Option<&Value>
        ensures { option_copied result ≡ self.now }
    {
        match &self.held {
            Some(value) => Some(value),
            None => None,
        }
    }
}

impl Source for MVar {
    ghost use Rattle.std.specs.Prelude.{true, false, Option, is_some};
    ghost use Rattle.std.proofs.Common.{rules};
    ghost use Rattle.cml_value.specs.Value.{PlainValue};
    ghost use Rattle.cml_objects.specs.{Variables.{held_by, put_into}, Wants.{left_after, copy_for}, VariableLaws.{put_stays_lit}};

    type Want = MVarWant;

    type Feed = Value;

    ghost State = { Option PlainValue };

    ghost state = { λ variable. variable };

    ghost is_lit = { is_some };

    ghost given = { λ held _. held_by held };

    ghost after = { left_after };

    ghost spared = { copy_for };

    ghost fed = { put_into };

    ghost has_room = { λ _. true };

    ghost STICKY = { false };

    const STICKY: bool = false;

    ghost ROOMY = { true };

    const ROOMY: bool = true;

    fn lit(&self) -> bool {
        self.held.is_some()
    }

    fn stays_lit_after(&self, want: &MVarWant) -> bool {
        match want {
            MVarWant::Take => false,
            MVarWant::Get | MVarWant::Swap(_) => true,
        }
    }

    fn spare(&self, want: &MVarWant) -> Result<Option<Value>, AllocError> {
        match (want, &self.held) {
            (MVarWant::Get, Some(value)) => Ok(Some(value.copy()?)),
            _ => Ok(None),
        }
    }

    fn give(&mut self, want: MVarWant, copy: Option<Value>) -> Value {
        match want {
            MVarWant::Take => self.held.take().unwrap(),
            MVarWant::Get => copy.unwrap(),
            MVarWant::Swap(value) => mem::replace(&mut self.held, Some(value)).unwrap(),
        }
    }

    fn feed(&mut self, feed: Value) -> Result<(), FeedFault<Value>> {
        if self.held.is_some() {
            return Err(FeedFault::Put(feed));
        }
        self.held = Some(feed);
        Ok(())
    }

    fn room(&mut self) -> Result<(), AllocError> {
        Ok(())
    }

    ghost stays_lit = { put_stays_lit };

    ghost sticky = { Prim.search rules };

    ghost roomy = { Prim.search rules };
}
