//! How a run that is gone through by hand begins.

ghost use Rattle.std.specs.Prelude.{◌≡◌, IfOk, []};
ghost use Rattle.cml_hub.specs.Courses.{PlainCourse};
ghost use Rattle.cml_phrase.specs.Spots.{all_places};
ghost use Rattle.cml_stepper.specs.Steppers.{places_known, FollowsTo};

use crate::stepper::Stepper;
use cml_facts::narrative::Narrator;
use cml_text::Sexpr;
use std::alloc::{AllocError, Global};

impl<'a> Stepper<'a> {
    /// Goes through a run of the script of this text and these forms, from its first item on.
    ///
    /// # Errors
    /// Out of memory.
    pub fn new(alloc: Global, text: &'a [u8], forms: &'a [Sexpr]) -> Result<Stepper<'a>, AllocError>
        ensures places { IfOk result (λ s. places_known s ≡ all_places text.now forms.now) }
        ensures there { IfOk result (λ s. (c : PlainCourse) → c.items ≡ [] → FollowsTo c s) }
    {
        let narrator = Narrator::new(alloc, text, forms)?;
        Ok(Stepper {
            text,
            forms,
            narrator,
        })
    }
}
