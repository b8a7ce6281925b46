//! Room for the answer of a fresh nack.

ghost use Rattle.std.specs.Prelude.{◌≡◌, ℕ, List, true, Some, IfOk};
ghost use Rattle.cml_value.specs.Value.{PlainFunction, guard, scope};
ghost use Rattle.cml_group.specs.Force.{calls, needs_nack, unforced, replaced, given_nack, AwaitsNack};
ghost use Rattle.cml_check.specs.{Syntax.{PlainItem}, InOrder.{arities}};
ghost use Rattle.cml_step.specs.{Agrees.{function_agrees}, Calls.{text_of, entry_of}, Stacks.{CallFits}, Terms.{call_of}};

use crate::call::Call;
use crate::entries::Frames;
use crate::entry::begin;
use cml_group::Forcing;
use cml_value::NackId;
use std::alloc::{AllocError, Global};

/// The memory that the answer of a fresh nack takes, made for one machine before the nack is made.
#[derive(Drop)]
pub struct NackRoom {
    pub(crate) nack: NackId,
    // The call of the withNack's function, and the machine's entries below it: the event under the scope of the nack is the top one.
    pub(crate) call: Call,
    pub(crate) below: Frames,
}

impl NackRoom {
    /// The nack that it is for.
    pub fn nack(&self) -> NackId
        ensures { result ≡ self.now.nack }
    {
        self.nack
    }
}

/// The event with its nack, and the call of the withNack's function.
pub(crate) fn nacked(
    alloc: Global,
    forcing: &Forcing,
    nack: NackId,
) -> Result<(Forcing, Call), AllocError>
    requires { AwaitsNack forcing.now }
    ensures event { IfOk result (λ both. (f : PlainFunction) →
        unforced forcing.now ≡ Some (needs_nack f)
        → both.0 ≡ replaced (scope nack.0 (guard (given_nack nack.0 f))) forcing.now) }
    ensures next { IfOk result (λ both. (f : PlainFunction) →
        unforced forcing.now ≡ Some (needs_nack f)
        → unforced both.0 ≡ Some (calls (given_nack nack.0 f))) }
    ensures term { IfOk result (λ both. (f : PlainFunction) (p : List (PlainItem ℕ)) →
        unforced forcing.now ≡ Some (needs_nack f)
        → entry_of p both.1 ≡ call_of (text_of p) (given_nack nack.0 f)) }
    ensures fits { IfOk result (λ both. (f : PlainFunction) (p : List (PlainItem ℕ)) →
        unforced forcing.now ≡ Some (needs_nack f)
        → function_agrees (arities p) 0 (given_nack nack.0 f) ≡ true → CallFits p both.1) }
{
    let mut next = forcing.copy(alloc)?;
    let function = next.answer_nack(alloc, nack)?;
    let call = begin(alloc, &function)?;
    Ok((next, call))
}
