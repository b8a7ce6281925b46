//! What kind a value is of, where a step asks for one kind.

ghost use Rattle.std.specs.Prelude.{◌≡◌};
ghost use Rattle.cml_step.specs.Faults.{ComesTo};
ghost use Rattle.cml_step.specs.Kinds as spec;

use crate::fault::{Fault, Stop};
use cml_value::{
    ChanId, Event, IVarId, MVarId, MboxId, McastId, PortId, SwapId, Tid, Value, ValueKind,
};

/// The number that a value is.
pub(crate) fn number_of(value: &Value) -> Result<i64, Stop>
    ensures { ComesTo (λ z. z) result (spec.as_number value.now) }
{
    match value.kind() {
        ValueKind::Int(z) => Ok(*z),
        _ => Err(Stop::Fault(Fault::Kind)),
    }
}

/// The truth value that a value is.
pub(crate) fn truth_of(value: &Value) -> Result<bool, Stop>
    ensures { ComesTo (λ b. b) result (spec.as_truth value.now) }
{
    match value.kind() {
        ValueKind::Bool(b) => Ok(*b),
        _ => Err(Stop::Fault(Fault::Kind)),
    }
}

/// A copy of the event that a value is; it shares its parts.
pub(crate) fn event_of(value: &Value) -> Result<Event, Stop>
    ensures { ComesTo (λ e. e) result (spec.as_event value.now) }
{
    match value.kind() {
        ValueKind::Event(e) => Ok(e.copy()?),
        _ => Err(Stop::Fault(Fault::Kind)),
    }
}

/// A copy of the first part of the pair that a value is; it shares its parts.
pub(crate) fn first_of(value: &Value) -> Result<Value, Stop>
    ensures { ComesTo (λ v. v) result (spec.first_part value.now) }
{
    match value.kind() {
        ValueKind::Pair(p) => Ok(p.first().copy()?),
        _ => Err(Stop::Fault(Fault::Kind)),
    }
}

/// A copy of the second part of the pair that a value is; it shares its parts.
pub(crate) fn second_of(value: &Value) -> Result<Value, Stop>
    ensures { ComesTo (λ v. v) result (spec.second_part value.now) }
{
    match value.kind() {
        ValueKind::Pair(p) => Ok(p.second().copy()?),
        _ => Err(Stop::Fault(Fault::Kind)),
    }
}

/// The thread that a value is.
pub(crate) fn thread_of(value: &Value) -> Result<Tid, Stop>
    ensures { ComesTo (λ t. t.0) result (spec.as_thread value.now) }
{
    match value.kind() {
        ValueKind::Thread(t) => Ok(*t),
        _ => Err(Stop::Fault(Fault::Kind)),
    }
}

/// The channel that a value is.
pub(crate) fn chan_of(value: &Value) -> Result<ChanId, Stop>
    ensures { ComesTo (λ c. c.0) result (spec.as_chan value.now) }
{
    match value.kind() {
        ValueKind::Chan(c) => Ok(*c),
        _ => Err(Stop::Fault(Fault::Kind)),
    }
}

/// The swap channel that a value is.
pub(crate) fn swapchan_of(value: &Value) -> Result<SwapId, Stop>
    ensures { ComesTo (λ s. s.0) result (spec.as_swapchan value.now) }
{
    match value.kind() {
        ValueKind::Swap(s) => Ok(*s),
        _ => Err(Stop::Fault(Fault::Kind)),
    }
}

/// The I-variable that a value is.
pub(crate) fn ivar_of(value: &Value) -> Result<IVarId, Stop>
    ensures { ComesTo (λ i. i.0) result (spec.as_ivar value.now) }
{
    match value.kind() {
        ValueKind::IVar(i) => Ok(*i),
        _ => Err(Stop::Fault(Fault::Kind)),
    }
}

/// The M-variable that a value is.
pub(crate) fn mvar_of(value: &Value) -> Result<MVarId, Stop>
    ensures { ComesTo (λ m. m.0) result (spec.as_mvar value.now) }
{
    match value.kind() {
        ValueKind::MVar(m) => Ok(*m),
        _ => Err(Stop::Fault(Fault::Kind)),
    }
}

/// The mailbox that a value is.
pub(crate) fn mailbox_of(value: &Value) -> Result<MboxId, Stop>
    ensures { ComesTo (λ b. b.0) result (spec.as_mailbox value.now) }
{
    match value.kind() {
        ValueKind::Mailbox(b) => Ok(*b),
        _ => Err(Stop::Fault(Fault::Kind)),
    }
}

/// The multicast channel that a value is.
pub(crate) fn mchan_of(value: &Value) -> Result<McastId, Stop>
    ensures { ComesTo (λ x. x.0) result (spec.as_mchan value.now) }
{
    match value.kind() {
        ValueKind::Mchan(x) => Ok(*x),
        _ => Err(Stop::Fault(Fault::Kind)),
    }
}

/// The port that a value is.
pub(crate) fn port_of(value: &Value) -> Result<PortId, Stop>
    ensures { ComesTo (λ p. p.0) result (spec.as_port value.now) }
{
    match value.kind() {
        ValueKind::Port(p) => Ok(*p),
        _ => Err(Stop::Fault(Fault::Kind)),
    }
}
