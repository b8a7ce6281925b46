//! Events that are found without a value made of them. `None` says nothing: then the value is to be found in full, where each fault is told.

ghost use Rattle.std.specs.Prelude.{◌≡◌, true, false, Some, Ok, IfSome};
ghost use Rattle.cml_value.specs.{Value.{chan, mailbox, mvar, event, leaf}, Views.{plain_base}};
ghost use Rattle.cml_step.specs.{Operators.{built}, Variables.{slot_value}, Evaluate.{evaluate}, Puts.{event_over, IsPut}};
ghost use Rattle.cml_check.specs.{Syntax.{variable}, Ops.{flat_expr, offer_expr}};

use crate::entry::Entry;
use crate::number::flat_int;
use cml_check::{Flat, Offer};
use cml_group::{Forced, Forcing};
use cml_value::{Base, BaseKind, ChanId, Event, EventKind, MVarId, MboxId, Value, ValueKind};
use std::alloc::Global;

// The channel that a slot has.
fn channel(slots: &[Value], at: usize) -> Option<ChanId>
    ensures { IfSome result (λ c. evaluate (slot_value slots.now) (variable at) ≡ Ok (chan c.0)) }
{
    match slots.get(at) {
        Some(value) => match value.kind() {
            ValueKind::Chan(c) => Some(*c),
            _ => None,
        },
        None => None,
    }
}

/// The mailbox that a slot has.
pub(crate) fn mailbox_at(slots: &[Value], at: usize) -> Option<MboxId>
    ensures { IfSome result (λ o.
        evaluate (slot_value slots.now) (variable at) ≡ Ok (mailbox o.0)) }
{
    match slots.get(at) {
        Some(value) => match value.kind() {
            ValueKind::Mailbox(o) => Some(*o),
            _ => None,
        },
        None => None,
    }
}

/// The M-variable that a slot has.
pub(crate) fn mvar_at(slots: &[Value], at: usize) -> Option<MVarId>
    ensures { IfSome result (λ o. evaluate (slot_value slots.now) (variable at) ≡ Ok (mvar o.0)) }
{
    match slots.get(at) {
        Some(value) => match value.kind() {
            ValueKind::MVar(o) => Some(*o),
            _ => None,
        },
        None => None,
    }
}

/// The value of a short expression, where it is what a slot has, or a number.
pub(crate) fn message(slots: &[Value], e: &Flat) -> Option<Value>
    ensures { IfSome result (λ v. evaluate (slot_value slots.now) (flat_expr e.now) ≡ Ok v) }
{
    match e {
        Flat::Slot(at) => match slots.get(*at) {
            Some(value) => match value.copy() {
                Ok(copy) => Some(copy),
                Err(_) => None,
            },
            None => None,
        },
        _ => {
            let z = flat_int(slots, e)?;
            Some(Value::new(ValueKind::Int(z)))
        }
    }
}

// Puts the forcing of the base event there.
#[inline(always)]
fn put_base(kind: BaseKind, over: &mut Option<Entry>)
    ensures { over.new ≡ Some (Entry.Force (leaf (plain_base kind)) false) }
{
    *over = Some(Entry::Force(Forcing::of_base(Base::new(kind)), false));
}

// The base event, if it is within the limits.
fn offered(kind: BaseKind) -> Option<Event>
    ensures { IfSome result (λ e. built (event (leaf (plain_base kind))) ≡ Ok (event e)) }
{
    let held = Event::new(EventKind::Leaf(Base::new(kind)));
    if held.fits() {
        Some(held)
    } else {
        drop(held);
        None
    }
}

// A copy of the event that a slot has, if it has one; it shares its parts.
fn event_at(slots: &[Value], at: usize) -> Option<Event>
    ensures { IfSome result (λ x. slot_value slots.now at ≡ event x) }
{
    match slots.get(at) {
        Some(value) => match value.kind() {
            ValueKind::Event(x) => match x.copy() {
                Ok(copy) => Some(copy),
                Err(_) => None,
            },
            _ => None,
        },
        None => None,
    }
}

// Begins to force the event there. Without memory nothing has changed.
fn put_forced(alloc: Global, held: Event, over: &mut Option<Entry>, forced: &mut Forced) -> bool
    ensures put { result ≡ true → over.new ≡ Some (Entry.Force held false) }
    ensures stays { result ≡ false → over.new ≡ over.old }
{
    match Forcing::start_again(alloc, held, forced) {
        Ok(forcing) => {
            *over = Some(Entry::Force(forcing, false));
            true
        }
        Err(back) => {
            drop(back);
            false
        }
    }
}

// Puts the event there that a slot has, if it has one, to be forced. Else nothing has changed.
#[inline(never)]
fn put_variable(
    alloc: Global,
    slots: &[Value],
    at: usize,
    over: &mut Option<Entry>,
    forced: &mut Forced,
) -> bool
    ensures found { result ≡ true → slot_value slots.now at ≡ event (event_over over.new) }
    ensures put { result ≡ true → IsPut over.new }
    ensures stays { result ≡ false → over.new ≡ over.old }
{
    match event_at(slots, at) {
        Some(held) => put_forced(alloc, held, over, forced),
        None => false,
    }
}

// Puts a send of what a variable has there, to be forced, if it can be found so. Else nothing has changed.
#[inline(never)]
fn put_message(
    alloc: Global,
    slots: &[Value],
    at: usize,
    e: &Flat,
    over: &mut Option<Entry>,
    forced: &mut Forced,
) -> bool
    ensures found { result ≡ true →
        evaluate (slot_value slots.now) (offer_expr (Offer.Send at e.now))
        ≡ Ok (event (event_over over.new)) }
    ensures put { result ≡ true → IsPut over.new }
    ensures stays { result ≡ false → over.new ≡ over.old }
{
    let Some(to) = channel(slots, at) else {
        return false;
    };
    let Some(what) = message(slots, e) else {
        return false;
    };
    match offered(BaseKind::Send(to, what)) {
        Some(held) => put_forced(alloc, held, over, forced),
        None => false,
    }
}

// The same, where a number is sent without more ado.
#[inline(always)]
fn put_send(
    alloc: Global,
    slots: &[Value],
    at: usize,
    e: &Flat,
    over: &mut Option<Entry>,
    forced: &mut Forced,
) -> bool
    ensures found { result ≡ true →
        evaluate (slot_value slots.now) (offer_expr (Offer.Send at e.now))
        ≡ Ok (event (event_over over.new)) }
    ensures put { result ≡ true → IsPut over.new }
    ensures stays { result ≡ false → over.new ≡ over.old }
{
    let Some(z) = flat_int(slots, e) else {
        return put_message(alloc, slots, at, e, over, forced);
    };
    let Some(to) = channel(slots, at) else {
        return false;
    };
    put_base(BaseKind::Send(to, Value::new(ValueKind::Int(z))), over);
    true
}

/// Puts the event there, to be forced, where it can be found so and has no fault. Else nothing has changed.
#[inline(always)]
pub(crate) fn put_offer(
    alloc: Global,
    slots: &[Value],
    offer: &Offer,
    over: &mut Option<Entry>,
    forced: &mut Forced,
) -> bool
    ensures found { result ≡ true →
        evaluate (slot_value slots.now) (offer_expr offer.now) ≡ Ok (event (event_over over.new)) }
    ensures put { result ≡ true → IsPut over.new }
    ensures stays { result ≡ false → over.new ≡ over.old }
{
    match offer {
        Offer::Event(at) => put_variable(alloc, slots, *at, over, forced),
        Offer::Recv(at) => {
            let Some(from) = channel(slots, *at) else {
                return false;
            };
            put_base(BaseKind::Recv(from), over);
            true
        }
        Offer::MailRecv(at) => {
            let Some(from) = mailbox_at(slots, *at) else {
                return false;
            };
            put_base(BaseKind::MailRecv(from), over);
            true
        }
        Offer::MTake(at) => {
            let Some(from) = mvar_at(slots, *at) else {
                return false;
            };
            put_base(BaseKind::MTake(from), over);
            true
        }
        Offer::Send(at, e) => put_send(alloc, slots, *at, e, over, forced),
    }
}
