//! A quick way to make a `sync`, for an event that is found without a value made of it. `None` is no refusal: the quick way does not apply.
//! Then the step is made in full, and that tells each fault.

ghost use Rattle.std.specs.Prelude.{◌≡◌, ℕ, ◌<◌, List, ◌∷◌, length, true, false, Some, Ok, slice_get};
ghost use Rattle.cml_value.specs.{Group.{leaf}, Views.{plain_base}};
ghost use Rattle.cml_check.specs.{Syntax.{effect_map, name_at}, Ops.{sync_effect, Acts, given_fits}};
ghost use Rattle.cml_check.specs.{InOrder.{FunctionFits, arities, effect_fits}, Layout.{left}};
ghost use Rattle.cml_check.specs.Syntax as syntax;
ghost use Rattle.cml_step.specs.{Agrees.{all_agree, event_agrees, ask_agrees}, AskViews.{plain_ask}, Variables.{bound}};
ghost use Rattle.cml_step.specs.{Terms.{Program, Term, force}, Calls.{entry_of, call_at, text_of, variables_of, statements_at, WaitFits}};
ghost use Rattle.cml_step.specs.{Steps.{pushed, asks}, Stacks.{CallFits}, Undone.{HasSlotsOf}, Puts.{event_over, IsPut}};
ghost use Rattle.cml_step.specs.Steps as steps;

use crate::ask::Ask;
use crate::call::{Call, Wait, pad};
use crate::entry::Entry;
use crate::offer::put_offer;
use cml_check::{Function, Offer, Op, Prog};
use cml_group::{Forced, Forcing};
use cml_value::{Base, BaseKind, Group, GroupKind, Value, ValueKind};
use std::alloc::Global;

// Puts the event there to synchronize on, to be forced, if it is found without making a `Value` of it. Else nothing has changed.
#[inline(always)]
#[tactic(auto, using(crate::proofs::VariableLemmas::evaluate_named))]
fn sync_in(
    alloc: Global,
    program: &Prog,
    f: &Function,
    offer: &Offer,
    slots: &[Value],
    over: &mut Option<Entry>,
    forced: &mut Forced,
) -> bool
    requires fits { effect_fits (arities program.now) (length f.now.names)
        (sync_effect offer.now) ≡ true }
    requires function { FunctionFits (arities program.now) f.now }
    requires agree { all_agree (arities program.now) slots.now ≡ true }
    ensures gives { result ≡ true → (self : ℕ) (term : Term) →
        steps.effect_step (text_of program.now) self (bound f.now.names slots.now)
        (effect_map (name_at f.now.names) (sync_effect offer.now)) term
        ≡ pushed (force (event_over over.new) false) term }
    ensures agrees { result ≡ true →
        event_agrees (arities program.now) (event_over over.new) ≡ true }
    ensures put { result ≡ true → IsPut over.new }
    ensures stays { result ≡ false → over.new ≡ over.old }
{
    put_offer(alloc, slots, offer, over, forced)
}

// The call waits for what the synchronization gives, and goes on at `next`: the event stands there. Where that is not found so nothing has changed.
fn waits(
    alloc: Global,
    program: &Prog,
    f: &Function,
    offer: &Offer,
    wait: Wait,
    next: usize,
    call: &mut Call,
    over: &mut Option<Entry>,
    forced: &mut Forced,
) -> bool
    requires fits { effect_fits (arities program.now) (length f.now.names)
        (sync_effect offer.now) ≡ true }
    requires function { (FunctionFits (arities program.now) f.now)
        × (slice_get program.now call.old.func ≡ Some f.now) }
    requires call { CallFits program.now call.old }
    requires waits { WaitFits wait (length f.now.names) (length call.old.slots.items) }
    ensures gives { result ≡ true → (self : ℕ) (below : Term) →
        steps.effect_step (text_of program.now) self (variables_of f.now call.old)
        (effect_map (name_at f.now.names) (sync_effect offer.now))
        (call_at f.now next call.old.slots.items wait ∷ below)
        ≡ pushed (force (event_over over.new) false) (entry_of program.now call.new ∷ below) }
    ensures put { result ≡ true → IsPut over.new }
    ensures stays { result ≡ false → (call.new ≡ call.old) × (over.new ≡ over.old) }
    ensures kept { (call.new.slots ≡ call.old.slots) × (call.new.func ≡ call.old.func) }
    ensures fits { CallFits program.now call.new }
    ensures agrees { result ≡ true →
        event_agrees (arities program.now) (event_over over.new) ≡ true }
{
    if !sync_in(
        alloc,
        program,
        f,
        offer,
        call.slots.as_slice(),
        over,
        forced,
    ) {
        return false;
    }
    call.asked = call.at;
    call.at = next;
    call.wait = wait;
    true
}

// The same, where a slot is given what it gives. Where its event is not found so nothing has changed but that slots may have been added.
fn let_waits(
    alloc: Global,
    program: &Prog,
    f: &Function,
    offer: &Offer,
    slot: usize,
    next: usize,
    call: &mut Call,
    over: &mut Option<Entry>,
    forced: &mut Forced,
) -> bool
    requires slot { slot < length f.now.names }
    requires fits { effect_fits (arities program.now) (length f.now.names)
        (sync_effect offer.now) ≡ true }
    requires function { (FunctionFits (arities program.now) f.now)
        × (slice_get program.now call.old.func ≡ Some f.now) }
    requires call { (CallFits program.now call.old) × (call.old.wait ≡ Wait.Runs) }
    ensures gives { result ≡ true → (self : ℕ) (below : Term) →
        let source = syntax.effect (effect_map (name_at f.now.names) (sync_effect offer.now)) in
        steps.source_step (text_of program.now) self (name_at f.now.names slot) source
        (statements_at f.now next) (variables_of f.now call.old) below
        ≡ pushed (force (event_over over.new) false) (entry_of program.now call.new ∷ below) }
    ensures put { result ≡ true → IsPut over.new }
    ensures stays { result ≡ false → (entry_of program.now call.new
        ≡ entry_of program.now call.old) × (over.new ≡ over.old) }
    ensures had { HasSlotsOf call.old call.new }
    ensures fits { CallFits program.now call.new }
    ensures agrees { result ≡ true →
        event_agrees (arities program.now) (event_over over.new) ≡ true }
{
    let Ok(()) = pad(&mut call.slots, slot) else {
        return false;
    };
    let wait = Wait::Gives(slot);
    waits(alloc, program, f, offer, wait, next, call, over, forced)
}

// The same, where the slot is given what it gives, if there is one.
#[tactic(auto, using(crate::proofs::UndoLemmas::kept_had))]
fn synced(
    alloc: Global,
    program: &Prog,
    f: &Function,
    offer: &Offer,
    given: Option<usize>,
    next: usize,
    call: &mut Call,
    over: &mut Option<Entry>,
    forced: &mut Forced,
) -> bool
    requires here { let left_at = left f.now.body in
        Acts left_at (sync_effect offer.now) given next (left_at call.old.at) }
    requires given { given_fits (length f.now.names) given ≡ true }
    requires fits { effect_fits (arities program.now) (length f.now.names)
        (sync_effect offer.now) ≡ true }
    requires function { (FunctionFits (arities program.now) f.now)
        × (slice_get program.now call.old.func ≡ Some f.now) }
    requires call { (CallFits program.now call.old) × (call.old.wait ≡ Wait.Runs) }
    ensures gives { result ≡ true → (self : ℕ) (below : Term) →
        let here = statements_at f.now call.old.at in
        steps.call_step (text_of program.now) self here (variables_of f.now call.old) below
        ≡ pushed (force (event_over over.new) false) (entry_of program.now call.new ∷ below) }
    ensures put { result ≡ true → IsPut over.new }
    ensures stays { result ≡ false → (entry_of program.now call.new
        ≡ entry_of program.now call.old) × (over.new ≡ over.old) }
    ensures had { HasSlotsOf call.old call.new }
    ensures fits { CallFits program.now call.new }
    ensures agrees { result ≡ true →
        event_agrees (arities program.now) (event_over over.new) ≡ true }
{
    match given {
        Some(slot) => let_waits(alloc, program, f, offer, slot, next, call, over, forced),
        None => waits(
            alloc,
            program,
            f,
            offer,
            Wait::Drops,
            next,
            call,
            over,
            forced,
        ),
    }
}

/// Whether the call stands at a synchronization on an event that may be found so.
#[inline(always)]
pub(crate) fn at_sync(program: &Prog, call: &Call) -> bool
    requires { CallFits program.now call.now }
{
    if call.wait != Wait::Runs {
        return false;
    }
    match program.function(call.func).op(call.at) {
        Some(op) => matches!(op, Op::Sync(_, _, _)),
        None => false,
    }
}

/// Where the call is at a synchronization on an event that can be found so, the event stands over it, to be forced, and the call waits. Else
/// nothing has changed but that slots may have been added.
#[tactic(auto, using(crate::proofs::UndoLemmas::same_had))]
pub(crate) fn sync_step(
    alloc: Global,
    program: &Prog,
    call: &mut Call,
    over: &mut Option<Entry>,
    forced: &mut Forced,
) -> bool
    requires { CallFits program.now call.old }
    ensures gives { result ≡ true → (self : ℕ) (below : Term) →
        steps.next (text_of program.now) self (entry_of program.now call.old ∷ below)
        ≡ pushed (force (event_over over.new) false) (entry_of program.now call.new ∷ below) }
    ensures put { result ≡ true → IsPut over.new }
    ensures stays { result ≡ false → (entry_of program.now call.new
        ≡ entry_of program.now call.old) × (over.new ≡ over.old) }
    ensures had { HasSlotsOf call.old call.new }
    ensures fits { CallFits program.now call.new }
    ensures agrees { result ≡ true →
        event_agrees (arities program.now) (event_over over.new) ≡ true }
{
    if call.wait != Wait::Runs {
        return false;
    }
    let f = program.function(call.func);
    match f.op(call.at) {
        Some(op) => match op {
            Op::Sync(offer, given, next) => {
                synced(alloc, program, f, offer, *given, *next, call, over, forced)
            }
            _ => false,
        },
        None => false,
    }
}

// Asks to synchronize on another owner of the group. Without memory nothing has changed.
#[inline(never)]
fn asks_copy(group: &Group, asked: &mut Ask) -> bool
    ensures ask { result ≡ true → asked.new ≡ Ask.Sync group.now }
    ensures stays { result ≡ false → asked.new ≡ asked.old }
{
    match group.copy() {
        Ok(copy) => {
            *asked = Ask::Sync(copy);
            true
        }
        Err(_) => false,
    }
}

// Asks to synchronize on the base event.
#[inline(always)]
fn asks_leaf(kind: BaseKind, asked: &mut Ask)
    ensures { asked.new ≡ Ask.Sync (leaf (plain_base kind)) }
{
    *asked = Ask::Sync(Group::new(GroupKind::Leaf(Base::new(kind))));
}

// Asks to synchronize on the group, which is this base event.
#[inline(always)]
fn asks_base(group: &Group, base: &Base, asked: &mut Ask) -> bool
    requires { group.now ≡ leaf base.now }
    ensures ask { result ≡ true → asked.new ≡ Ask.Sync group.now }
    ensures stays { result ≡ false → asked.new ≡ asked.old }
{
    match base.kind() {
        BaseKind::Recv(from) => {
            asks_leaf(BaseKind::Recv(*from), asked);
            true
        }
        BaseKind::MailRecv(from) => {
            asks_leaf(BaseKind::MailRecv(*from), asked);
            true
        }
        BaseKind::MTake(from) => {
            asks_leaf(BaseKind::MTake(*from), asked);
            true
        }
        BaseKind::Send(to, value) => match value.kind() {
            ValueKind::Int(z) => {
                asks_leaf(BaseKind::Send(*to, Value::new(ValueKind::Int(*z))), asked);
                true
            }
            _ => asks_copy(group, asked),
        },
        _ => asks_copy(group, asked),
    }
}

// Asks to synchronize on the group. Without memory nothing has changed.
#[inline(always)]
fn asks_on(group: &Group, asked: &mut Ask) -> bool
    ensures ask { result ≡ true → asked.new ≡ Ask.Sync group.now }
    ensures stays { result ≡ false → asked.new ≡ asked.old }
{
    match group.kind() {
        GroupKind::Leaf(base) => asks_base(group, base, asked),
        _ => asks_copy(group, asked),
    }
}

/// Where an event that is being forced has nothing left to be forced, and its group is not asked for yet, it is asked for now. Else nothing
/// has changed.
#[inline(never)]
#[tactic(auto, using(crate::proofs::ForceLemmas::group_of_event))]
pub(crate) fn asks_group(forcing: &Forcing, waits: &mut bool, asked: &mut Ask) -> bool
    ensures meant { result ≡ true → (p : Program) (self : ℕ) (below : Term) →
        steps.next p self (force forcing.now waits.old ∷ below)
        ≡ asks (plain_ask asked.new) (force forcing.now waits.new ∷ below) }
    ensures agrees { result ≡ true → (fs : List ℕ) → event_agrees fs forcing.now ≡ true
        → ask_agrees fs (plain_ask asked.new) ≡ true }
    ensures asks { result ≡ true → asked.new ≡ Ask.Nothing → ⊥ }
    ensures stays { result ≡ false → (waits.new ≡ waits.old) × (asked.new ≡ asked.old) }
{
    if *waits {
        return false;
    }
    let Some(group) = forcing.whole() else {
        return false;
    };
    if !asks_on(group, asked) {
        return false;
    }
    *waits = true;
    true
}
