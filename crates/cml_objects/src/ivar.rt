//! A variable that is written once.

ghost use Rattle.std.specs.{Prelude.{◌≡◌, None}, Option.{option_copied}};

use crate::{FeedFault, Source};
use cml_value::Value;
use std::alloc::AllocError;
use std::marker::Model;

/// A variable that is written once. A get leaves its value there.
#[derive(Drop)]
pub struct IVar {
    held: Option<Value>,
}

// What contracts see of this type: its model, which is plain data.
impl Model for IVar {
    ghost use Rattle.std.specs.{Prelude.{Option}, Coded.{coded_option}};
    ghost use Rattle.cml_value.specs.{Value.{PlainValue}, Codes.{value_code}};

    ghost Value = { Option PlainValue };

    ghost coded = { coded_option value_code };

    ghost view = { λ variable. variable.held };
}

impl IVar {
    /// An empty variable.
    pub fn new() -> IVar
        ensures { result ≡ None }
    {
        IVar { held: None }
    }

    /// The value, if it was written.
    pub fn value(&self) -> Option<&Value>
        ensures { option_copied result ≡ self.now }
    {
        match &self.held {
            Some(value) => Some(value),
            None => None,
        }
    }
}

impl Source for IVar {
    ghost use Rattle.std.specs.Prelude.{true, Option, is_some};
    ghost use Rattle.std.proofs.Common.{rules};
    ghost use Rattle.cml_value.specs.Value.{PlainValue};
    ghost use Rattle.cml_objects.specs.{Variables.{held_by, put_into}, VariableLaws.{put_stays_lit}};

    type Want = ();

    type Feed = Value;

    ghost State = { Option PlainValue };

    ghost state = { λ variable. variable };

    ghost is_lit = { is_some };

    ghost given = { λ held _. held_by held };

    ghost after = { λ held _. held };

    ghost spared = { λ held _. held };

    ghost fed = { put_into };

    ghost has_room = { λ _. true };

    ghost STICKY = { true };

    const STICKY: bool = true;

    ghost ROOMY = { true };

    const ROOMY: bool = true;

    fn lit(&self) -> bool {
        self.held.is_some()
    }

    fn stays_lit_after(&self, _want: &()) -> bool {
        true
    }

    fn spare(&self, _want: &()) -> Result<Option<Value>, AllocError> {
        match &self.held {
            Some(value) => Ok(Some(value.copy()?)),
            None => Ok(None),
        }
    }

    fn give(&mut self, _want: (), copy: Option<Value>) -> Value {
        copy.unwrap()
    }

    fn feed(&mut self, feed: Value) -> Result<(), FeedFault<Value>> {
        if self.held.is_some() {
            return Err(FeedFault::Put(feed));
        }
        self.held = Some(feed);
        Ok(())
    }

    fn room(&mut self) -> Result<(), AllocError> {
        Ok(())
    }

    ghost stays_lit = { put_stays_lit };

    ghost sticky = { Prim.search rules };

    ghost roomy = { Prim.search rules };
}
