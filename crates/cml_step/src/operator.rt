//! What the operations make of values.

ghost use Rattle.std.specs.Prelude.{◌≡◌};
ghost use Rattle.cml_value.specs.{Value.{truth, pair, event, leaf}, Views.{plain_base}};
ghost use Rattle.cml_step.specs.{Faults.{ComesTo}, Same.{are_same}};
ghost use Rattle.cml_step.specs.Operators as spec;

use crate::fault::{Fault, Stop};
use crate::kind::{
    chan_of, first_of, ivar_of, mailbox_of, mvar_of, number_of, port_of, second_of, swapchan_of,
    thread_of, truth_of,
};
use cml_check::{Binary, Constant, Unary};
use cml_value::{Base, BaseKind, Event, EventKind, Value, ValueKind};
use std::alloc::Global;

/// The value of a constant.
///
/// # Errors
/// Out of memory.
pub(crate) fn constant_value(alloc: Global, constant: Constant) -> Result<Value, Stop>
    ensures { ComesTo (λ v. v) result (spec.constant_value constant) }
{
    match constant {
        Constant::True => Ok(Value::new(ValueKind::Bool(true))),
        Constant::False => Ok(Value::new(ValueKind::Bool(false))),
        Constant::Unit => Ok(Value::new(ValueKind::Unit)),
        Constant::Never => Ok(Value::event(alloc, Event::new(EventKind::Never))?),
    }
}

/// The event as a value, once it was measured.
pub(crate) fn event_value(alloc: Global, held: Event) -> Result<Value, Stop>
    ensures { ComesTo (λ v. v) result (spec.built (event held)) }
{
    if !held.fits() {
        return Err(Stop::Fault(Fault::Deep));
    }
    Ok(Value::event(alloc, held)?)
}

// The base event as a value.
fn base_value(alloc: Global, kind: BaseKind) -> Result<Value, Stop>
    ensures { ComesTo (λ v. v) result (spec.built (event (leaf (plain_base kind)))) }
{
    event_value(alloc, Event::new(EventKind::Leaf(Base::new(kind))))
}

// The pair as a value, once it was measured.
#[inline(never)]
fn pair_value(alloc: Global, first: Value, second: Value) -> Result<Value, Stop>
    ensures { ComesTo (λ v. v) result (spec.built (pair first second)) }
{
    let both = Value::pair(alloc, first, second)?;
    if !both.fits() {
        return Err(Stop::Fault(Fault::Deep));
    }
    Ok(both)
}

// The number of ticks that a value is.
fn ticks_of(value: &Value) -> Result<u64, Stop>
    ensures { ComesTo (λ n. n) result (spec.ticks_of value.now) }
{
    let number = number_of(value)?;
    if number < 0 {
        return Err(Stop::Fault(Fault::Range));
    }
    Ok(number as u64)
}

// Each operation that makes an event has a function of its own, so that the others do not pay for what it needs.

#[inline(never)]
fn not_value(value: &Value) -> Result<Value, Stop>
    ensures { ComesTo (λ v. v) result (spec.unary_value Unary.Not value.now) }
{
    let b = truth_of(value)?;
    Ok(Value::new(ValueKind::Bool(!b)))
}

#[inline(never)]
fn always_value(alloc: Global, value: Value) -> Result<Value, Stop>
    ensures { ComesTo (λ v. v) result (spec.unary_value Unary.Always value) }
{
    base_value(alloc, BaseKind::Always(value))
}

#[inline(never)]
fn recv_value(alloc: Global, value: &Value) -> Result<Value, Stop>
    ensures { ComesTo (λ v. v) result (spec.unary_value Unary.Recv value.now) }
{
    base_value(alloc, BaseKind::Recv(chan_of(value)?))
}

#[inline(never)]
fn iget_value(alloc: Global, value: &Value) -> Result<Value, Stop>
    ensures { ComesTo (λ v. v) result (spec.unary_value Unary.IGet value.now) }
{
    base_value(alloc, BaseKind::IGet(ivar_of(value)?))
}

#[inline(never)]
fn mtake_value(alloc: Global, value: &Value) -> Result<Value, Stop>
    ensures { ComesTo (λ v. v) result (spec.unary_value Unary.MTake value.now) }
{
    base_value(alloc, BaseKind::MTake(mvar_of(value)?))
}

#[inline(never)]
fn mget_value(alloc: Global, value: &Value) -> Result<Value, Stop>
    ensures { ComesTo (λ v. v) result (spec.unary_value Unary.MGet value.now) }
{
    base_value(alloc, BaseKind::MGet(mvar_of(value)?))
}

#[inline(never)]
fn mailrecv_value(alloc: Global, value: &Value) -> Result<Value, Stop>
    ensures { ComesTo (λ v. v) result (spec.unary_value Unary.MailRecv value.now) }
{
    base_value(alloc, BaseKind::MailRecv(mailbox_of(value)?))
}

#[inline(never)]
fn portrecv_value(alloc: Global, value: &Value) -> Result<Value, Stop>
    ensures { ComesTo (λ v. v) result (spec.unary_value Unary.PortRecv value.now) }
{
    base_value(alloc, BaseKind::PortRecv(port_of(value)?))
}

#[inline(never)]
fn join_value(alloc: Global, value: &Value) -> Result<Value, Stop>
    ensures { ComesTo (λ v. v) result (spec.unary_value Unary.Join value.now) }
{
    base_value(alloc, BaseKind::Join(thread_of(value)?))
}

#[inline(never)]
fn at_value(alloc: Global, value: &Value) -> Result<Value, Stop>
    ensures { ComesTo (λ v. v) result (spec.unary_value Unary.At value.now) }
{
    base_value(alloc, BaseKind::At(ticks_of(value)?))
}

#[inline(never)]
fn after_value(alloc: Global, value: &Value) -> Result<Value, Stop>
    ensures { ComesTo (λ v. v) result (spec.unary_value Unary.After value.now) }
{
    base_value(alloc, BaseKind::After(ticks_of(value)?))
}

/// What an operation makes of one value.
pub(crate) fn unary_value(alloc: Global, operator: Unary, value: Value) -> Result<Value, Stop>
    ensures { ComesTo (λ v. v) result (spec.unary_value operator value) }
{
    match operator {
        Unary::Not => not_value(&value),
        Unary::Fst => first_of(&value),
        Unary::Snd => second_of(&value),
        Unary::Always => always_value(alloc, value),
        Unary::Recv => recv_value(alloc, &value),
        Unary::IGet => iget_value(alloc, &value),
        Unary::MTake => mtake_value(alloc, &value),
        Unary::MGet => mget_value(alloc, &value),
        Unary::MailRecv => mailrecv_value(alloc, &value),
        Unary::PortRecv => portrecv_value(alloc, &value),
        Unary::Join => join_value(alloc, &value),
        Unary::At => at_value(alloc, &value),
        Unary::After => after_value(alloc, &value),
    }
}

// The sum of two numbers.
#[inline(never)]
#[tactic(auto, using(crate::proofs::Numbers::number_fits, crate::proofs::Numbers::number_too_far))]
fn sum_value(first: &Value, second: &Value) -> Result<Value, Stop>
    ensures { ComesTo (λ v. v) result (spec.sum_of first.now second.now) }
{
    let (x, y) = (number_of(first)?, number_of(second)?);
    match x.checked_add(y) {
        Some(z) => Ok(Value::new(ValueKind::Int(z))),
        None => Err(Stop::Fault(Fault::Overflow)),
    }
}

// The difference of two numbers.
#[inline(never)]
#[tactic(auto, using(crate::proofs::Numbers::number_fits, crate::proofs::Numbers::number_too_far))]
fn difference_value(first: &Value, second: &Value) -> Result<Value, Stop>
    ensures { ComesTo (λ v. v) result (spec.difference_of first.now second.now) }
{
    let (x, y) = (number_of(first)?, number_of(second)?);
    match x.checked_sub(y) {
        Some(z) => Ok(Value::new(ValueKind::Int(z))),
        None => Err(Stop::Fault(Fault::Overflow)),
    }
}

// The product of two numbers.
#[inline(never)]
#[tactic(auto, using(crate::proofs::Numbers::number_fits, crate::proofs::Numbers::number_too_far))]
fn product_value(first: &Value, second: &Value) -> Result<Value, Stop>
    ensures { ComesTo (λ v. v) result (spec.product_of first.now second.now) }
{
    let (x, y) = (number_of(first)?, number_of(second)?);
    match x.checked_mul(y) {
        Some(z) => Ok(Value::new(ValueKind::Int(z))),
        None => Err(Stop::Fault(Fault::Overflow)),
    }
}

// Whether one number is less than the other.
#[inline(never)]
fn less_value(first: &Value, second: &Value) -> Result<Value, Stop>
    ensures { ComesTo (λ v. v) result (spec.less_of first.now second.now) }
{
    let (x, y) = (number_of(first)?, number_of(second)?);
    Ok(Value::new(ValueKind::Bool(x < y)))
}

// Whether two values are the same.
#[inline(never)]
fn equal_value(first: &Value, second: &Value) -> Value
    ensures { result ≡ truth (are_same first.now second.now) }
{
    Value::new(ValueKind::Bool(first.same(second)))
}

#[inline(never)]
fn send_value(alloc: Global, first: &Value, second: Value) -> Result<Value, Stop>
    ensures { ComesTo (λ v. v) result (spec.binary_value Binary.Send first.now second) }
{
    let channel = chan_of(first)?;
    base_value(alloc, BaseKind::Send(channel, second))
}

#[inline(never)]
fn swap_value(alloc: Global, first: &Value, second: Value) -> Result<Value, Stop>
    ensures { ComesTo (λ v. v) result (spec.binary_value Binary.Swap first.now second) }
{
    let channel = swapchan_of(first)?;
    base_value(alloc, BaseKind::Swap(channel, second))
}

#[inline(never)]
fn mswap_value(alloc: Global, first: &Value, second: Value) -> Result<Value, Stop>
    ensures { ComesTo (λ v. v) result (spec.binary_value Binary.MSwap first.now second) }
{
    let variable = mvar_of(first)?;
    base_value(alloc, BaseKind::MSwap(variable, second))
}

/// What an operation makes of two values.
pub(crate) fn binary_value(
    alloc: Global,
    operator: Binary,
    first: Value,
    second: Value,
) -> Result<Value, Stop>
    ensures { ComesTo (λ v. v) result (spec.binary_value operator first second) }
{
    match operator {
        Binary::Plus => sum_value(&first, &second),
        Binary::Minus => difference_value(&first, &second),
        Binary::Times => product_value(&first, &second),
        Binary::Less => less_value(&first, &second),
        Binary::Equal => Ok(equal_value(&first, &second)),
        Binary::Pair => pair_value(alloc, first, second),
        Binary::Send => send_value(alloc, &first, second),
        Binary::Swap => swap_value(alloc, &first, second),
        Binary::MSwap => mswap_value(alloc, &first, second),
    }
}
