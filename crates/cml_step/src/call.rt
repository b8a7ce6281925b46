//! A call on the stack of a thread, and what it does in a step.

ghost use Rattle.std.specs.Prelude.{◌≡◌, ℕ, ◌<◌, List, ◌∷◌, length, take, true, Ok, IfOk, IfErr, IfSome};
ghost use Rattle.cml_value.specs.Value.{int, event as plain_event, thread as plain_thread};
ghost use Rattle.cml_check.specs.Syntax.{Name, act_on_one, act_on_two, call as plain_call, spawn as plain_spawn, name_at, expr_map, exprs_map, effect_map, source_map, value as plain_source_value};
ghost use Rattle.cml_check.specs.{StmtViews.{plain_effect, plain_source}, Names.{AreDistinct}};
ghost use Rattle.cml_check.specs.{InOrder.{FunctionFits, arities, expr_fits, exprs_fit, exprs_count, effect_fits, source_fits}, Layout.{left}};
ghost use Rattle.cml_check.specs.{Follows.{Follows, instr_fits}, InstrViews.{plain_instr}, Heads.{takes}, Syntax.{PlainItem}};
ghost use Rattle.cml_step.specs.{Faults.{ComesTo}, Agrees.{value_agrees, all_agree, event_agrees, ask_agrees}, Variables.{bound, value_of}};
ghost use Rattle.cml_step.specs.{AskViews.{plain_ask}, Terms.{Term, drops, gives, call as plain_entry}};
ghost use Rattle.cml_step.specs.Calls.{entry_for, text_of, variables_of, statements_at, chosen, slots_with, WaitFits, IsSound, IsReady, Stays, StepsOn, RunsOn, Moves, ActionAgrees, MovesToAsk};
ghost use Rattle.cml_step.specs.Steps.{PlainStep};
ghost use Rattle.cml_step.specs.Evaluate as meaning;
ghost use Rattle.cml_step.specs.Steps as steps;

use crate::ask::Ask;
use crate::expression::{evaluate, evaluate_in};
use crate::fault::Stop;
use crate::kind::{event_of, ivar_of, mailbox_of, mchan_of, mvar_of, port_of, truth_of};
use crate::number::quick_int;
use cml_check::{Act, ActOnOne, ActOnTwo, Effect, Expr, Exprs, Function, Instr, Prog, Source};
use cml_value::{Event, FnRef, Tid, Value, ValueKind};
use std::alloc::Global;

/// What a call waits for: nothing, where it runs; a value that it drops; or one that a slot is given.
#[derive(Clone, Copy, PartialEq, Eq)]
pub(crate) enum Wait {
    Runs,
    Drops,
    Gives(usize),
}

/// A call on the stack of a thread, where it stands: the function, its place there, which is the number of an instruction, the values of
/// its slots, and what it waits for.
#[derive(Drop)]
pub struct Call {
    pub(crate) func: u32,
    pub(crate) at: usize,
    pub(crate) slots: Vec<Value>,
    pub(crate) wait: Wait,
    // the place of the last statement that had it wait
    pub(crate) asked: usize,
}

/// What a call does in its step.
#[derive(Drop)]
pub(crate) enum Action {
    /// It goes on.
    Goes,
    /// It calls this function with these values.
    Calls(u32, Vec<Value>),
    /// It synchronizes on this event, which is to be forced.
    Forces(Event),
    /// It is done, with this value.
    Returns(Value),
    /// It asks this of the world.
    Asks(Ask),
    /// It ends the thread.
    Ends,
}

// The value of an expression in a call.
#[tactic(auto, using(crate::proofs::VariableLemmas::evaluate_named))]
pub(crate) fn value_in(
    alloc: Global,
    program: &Prog,
    f: &Function,
    slots: &[Value],
    e: &Expr,
) -> Result<Value, Stop>
    requires fits { expr_fits (arities program.now) (length f.now.names) e.now ≡ true }
    requires distinct { AreDistinct f.now.names }
    requires agree { all_agree (arities program.now) slots.now ≡ true }
    ensures gives { let of = value_of (bound f.now.names slots.now) in
        ComesTo (λ v. v) result (meaning.evaluate of (expr_map (name_at f.now.names) e.now)) }
    ensures agrees { IfOk result (λ v. value_agrees (arities program.now) v ≡ true) }
{
    evaluate(alloc, slots, e)
}

// The value of an expression in a call, if it is a number that is found without making a `Value`; else `None`.
#[inline(always)]
#[tactic(auto, using(crate::proofs::VariableLemmas::evaluate_named))]
fn number_in(program: &Prog, f: &Function, slots: &[Value], e: &Expr) -> Option<i64>
    requires fits { expr_fits (arities program.now) (length f.now.names) e.now ≡ true }
    requires distinct { AreDistinct f.now.names }
    ensures { let of = value_of (bound f.now.names slots.now) in
        IfSome result (λ z.
        meaning.evaluate of (expr_map (name_at f.now.names) e.now) ≡ Ok (int z)) }
{
    quick_int(slots, e)
}

// The same, as a value.
#[inline(always)]
pub(crate) fn number_value_in(
    program: &Prog,
    f: &Function,
    slots: &[Value],
    e: &Expr,
) -> Option<Value>
    requires fits { expr_fits (arities program.now) (length f.now.names) e.now ≡ true }
    requires distinct { AreDistinct f.now.names }
    ensures gives { let of = value_of (bound f.now.names slots.now) in
        IfSome result (λ v.
        meaning.evaluate of (expr_map (name_at f.now.names) e.now) ≡ Ok v) }
    ensures agrees { IfSome result (λ v. value_agrees (arities program.now) v ≡ true) }
{
    let z = number_in(program, f, slots, e)?;
    Some(Value::new(ValueKind::Int(z)))
}

// Whether a test holds in a call.
#[inline(never)]
#[tactic(auto, using(crate::proofs::CallLemmas::tested, crate::proofs::CallLemmas::not_tested))]
fn truth_in(
    alloc: Global,
    program: &Prog,
    f: &Function,
    slots: &[Value],
    e: &Expr,
) -> Result<bool, Stop>
    requires fits { expr_fits (arities program.now) (length f.now.names) e.now ≡ true }
    requires distinct { AreDistinct f.now.names }
    requires agree { all_agree (arities program.now) slots.now ≡ true }
    ensures { let of = value_of (bound f.now.names slots.now) in
        ComesTo (λ b. b) result (meaning.holds of (expr_map (name_at f.now.names) e.now)) }
{
    let value = value_in(alloc, program, f, slots, e)?;
    truth_of(&value)
}

// The values of expressions in a call, put into `list` in place of what it held.
#[tactic(auto, using(crate::proofs::VariableLemmas::all_named))]
pub(crate) fn values_in(
    alloc: Global,
    program: &Prog,
    f: &Function,
    slots: &[Value],
    es: &Exprs,
    list: Vec<Value>,
) -> Result<Vec<Value>, Stop>
    requires fits { exprs_fit (arities program.now) (length f.now.names) es.now ≡ true }
    requires distinct { AreDistinct f.now.names }
    requires agree { all_agree (arities program.now) slots.now ≡ true }
    ensures gives { let of = value_of (bound f.now.names slots.now) in
        let found = meaning.evaluate_all of (exprs_map (name_at f.now.names) es.now) in
        ComesTo (λ vs. vs.items) result found }
    ensures agree { IfOk result (λ vs. all_agree (arities program.now) vs.items ≡ true) }
    ensures count { IfOk result (λ vs. length vs.items ≡ exprs_count es.now) }
{
    evaluate_in(alloc, slots, es, list)
}

// Makes room for a slot: those that were not given a value yet are unit.
#[inline(never)]
#[tactic(auto, using(crate::proofs::CallLemmas::padded, crate::proofs::CallLemmas::agree_padded, crate::proofs::CallLemmas::take_all, crate::proofs::CallLemmas::had_padded))]
fn pad_in_full(slots: &mut Vec<Value>, slot: usize) -> Result<(), Stop>
    ensures same { (names : List Name) →
        bound names slots.new.items ≡ bound names slots.old.items }
    ensures agree { (fs : List ℕ) → all_agree fs slots.old.items ≡ true
        → all_agree fs slots.new.items ≡ true }
    ensures room { IfOk result (λ _. slot < length slots.new.items) }
    ensures had { take (length slots.old.items) slots.new.items ≡ slots.old.items }
    ensures memory { IfErr result (λ e. e ≡ Stop.Memory) }
{
    while slots.len() <= slot {
        slots.push(Value::new(ValueKind::Unit))?;
    }
    Ok(())
}

// The same, where most often the room is there.
#[inline(always)]
#[tactic(auto, using(crate::proofs::CallLemmas::take_all))]
pub(crate) fn pad(slots: &mut Vec<Value>, slot: usize) -> Result<(), Stop>
    ensures same { (names : List Name) →
        bound names slots.new.items ≡ bound names slots.old.items }
    ensures agree { (fs : List ℕ) → all_agree fs slots.old.items ≡ true
        → all_agree fs slots.new.items ≡ true }
    ensures room { IfOk result (λ _. slot < length slots.new.items) }
    ensures had { take (length slots.old.items) slots.new.items ≡ slots.old.items }
    ensures memory { IfErr result (λ e. e ≡ Stop.Memory) }
{
    if slot < slots.len() {
        return Ok(());
    }
    pad_in_full(slots, slot)
}

/// Sets a variable to the value of an expression, and goes on at `next`.
#[inline(never)]
#[tactic(auto, using(crate::proofs::VariableLemmas::bound_set, crate::proofs::CallLemmas::agree_set))]
pub(crate) fn assign(
    alloc: Global,
    program: &Prog,
    f: &Function,
    slot: usize,
    e: &Expr,
    next: usize,
    call: &mut Call,
) -> Result<(), Stop>
    requires slot { slot < length f.now.names }
    requires fits { expr_fits (arities program.now) (length f.now.names) e.now ≡ true }
    requires ready { IsReady (arities program.now) f.now call.old }
    ensures steps { (self : ℕ) (below : Term) →
        let x = name_at f.now.names slot in
        let source = plain_source_value (expr_map (name_at f.now.names) e.now) in
        let after = statements_at f.now next in
        let variables = variables_of f.now call.old in
        StepsOn f.now result call.old call.new below
        (steps.source_step (text_of program.now) self x source after variables below) }
    ensures kept { RunsOn (arities program.now) call.old call.new }
{
    let value = value_in(alloc, program, f, call.slots.as_slice(), e)?;
    pad(&mut call.slots, slot)?;
    call.slots[slot] = value;
    call.at = next;
    Ok(())
}

/// Goes on at the first of two places where the test holds, else at the second.
#[inline(always)]
pub(crate) fn choose(
    alloc: Global,
    program: &Prog,
    f: &Function,
    test: &Expr,
    first: usize,
    second: usize,
    call: &mut Call,
) -> Result<(), Stop>
    requires fits { expr_fits (arities program.now) (length f.now.names) test.now ≡ true }
    requires ready { IsReady (arities program.now) f.now call.old }
    ensures steps { (below : Term) →
        let variables = variables_of f.now call.old in
        let found = meaning.holds (value_of variables)
        (expr_map (name_at f.now.names) test.now) in
        StepsOn f.now result call.old call.new below
        (chosen f.now found first second variables below) }
    ensures kept { RunsOn (arities program.now) call.old call.new }
    ensures slots { call.new.slots ≡ call.old.slots }
{
    let holds = truth_in(alloc, program, f, call.slots.as_slice(), test)?;
    call.at = if holds { first } else { second };
    Ok(())
}

// Makes an `Action` of a step by which the call only went on.
fn went_on(stepped: Result<(), Stop>) -> Result<Action, Stop>
    ensures moves { (p : List (PlainItem ℕ)) (f : PlainItem ℕ) (old new : Call) (below : Term)
        (step : PlainStep) → StepsOn f stepped old new below step
        → Moves p f result new below step }
    ensures did { (fs : List ℕ) → ActionAgrees fs result }
{
    match stepped {
        Ok(()) => Ok(Action::Goes),
        Err(Stop::Fault(why)) => Err(Stop::Fault(why)),
        Err(Stop::Memory) => Err(Stop::Memory),
    }
}

/// Gives the call the value for which it waits.
pub(crate) fn fill(call: &mut Call, value: Value)
    requires waits { WaitFits call.old.wait (length call.old.slots.items)
        (length call.old.slots.items) }
    ensures slots { call.new.slots.items
        ≡ slots_with call.old.wait value call.old.slots.items }
    ensures runs { call.new.wait ≡ Wait.Runs }
    ensures place { (call.new.func ≡ call.old.func) × (call.new.at ≡ call.old.at) }
{
    match call.wait {
        Wait::Gives(slot) => call.slots[slot] = value,
        Wait::Runs | Wait::Drops => drop(value),
    }
    call.wait = Wait::Runs;
}

// An effect on one value.
fn effect_on_one(
    alloc: Global,
    program: &Prog,
    f: &Function,
    act: ActOnOne,
    e: &Expr,
    call: &Call,
) -> Result<Action, Stop>
    requires fits { expr_fits (arities program.now) (length f.now.names) e.now ≡ true }
    requires sound { IsSound (arities program.now) f.now call.now }
    ensures moves { (self : ℕ) (below : Term) →
        let effect = act_on_one act (expr_map (name_at f.now.names) e.now) in
        let variables = variables_of f.now call.now in
        let waiting = entry_for f.now call.now in
        Moves program.now f.now result call.now below
        (steps.effect_step (text_of program.now) self variables effect
        (waiting ∷ below)) }
    ensures did { ActionAgrees (arities program.now) result }
{
    let value = value_in(alloc, program, f, call.slots.as_slice(), e)?;
    match act {
        ActOnOne::Sync => {
            let event = event_of(&value)?;
            drop(value);
            Ok(Action::Forces(event))
        }
        ActOnOne::MVar => Ok(Action::Asks(Ask::MakeMVar(Some(value)))),
        ActOnOne::Port => {
            let channel = mchan_of(&value)?;
            drop(value);
            Ok(Action::Asks(Ask::MakePort(channel)))
        }
        ActOnOne::Copy => {
            let port = port_of(&value)?;
            drop(value);
            Ok(Action::Asks(Ask::CopyPort(port)))
        }
        ActOnOne::Print => Ok(Action::Asks(Ask::Print(value))),
    }
}

// An effect on two values.
fn effect_on_two(
    alloc: Global,
    program: &Prog,
    f: &Function,
    act: ActOnTwo,
    d: &Expr,
    e: &Expr,
    call: &Call,
) -> Result<Action, Stop>
    requires first { expr_fits (arities program.now) (length f.now.names) d.now ≡ true }
    requires second { expr_fits (arities program.now) (length f.now.names) e.now ≡ true }
    requires sound { IsSound (arities program.now) f.now call.now }
    ensures moves { (self : ℕ) (below : Term) →
        let names = name_at f.now.names in
        let effect = act_on_two act (expr_map names d.now) (expr_map names e.now) in
        let variables = variables_of f.now call.now in
        let waiting = entry_for f.now call.now in
        Moves program.now f.now result call.now below
        (steps.effect_step (text_of program.now) self variables effect
        (waiting ∷ below)) }
    ensures did { ActionAgrees (arities program.now) result }
{
    let first = value_in(alloc, program, f, call.slots.as_slice(), d)?;
    let second = value_in(alloc, program, f, call.slots.as_slice(), e)?;
    let ask = put_ask(act, &first, second)?;
    drop(first);
    Ok(Action::Asks(ask))
}

// What an effect on two values asks.
fn put_ask(act: ActOnTwo, place: &Value, value: Value) -> Result<Ask, Stop>
    ensures asks { (term : Term) →
        MovesToAsk result term (steps.two_step act place.now value term) }
    ensures agrees { (fs : List ℕ) → value_agrees fs value ≡ true →
        IfOk result (λ a. ask_agrees fs (plain_ask a) ≡ true) }
{
    match act {
        ActOnTwo::IPut => Ok(Ask::IPut(ivar_of(place)?, value)),
        ActOnTwo::MPut => Ok(Ask::MPut(mvar_of(place)?, value)),
        ActOnTwo::Mail => Ok(Ask::Mail(mailbox_of(place)?, value)),
        ActOnTwo::Multicast => Ok(Ask::Multicast(mchan_of(place)?, value)),
    }
}

// A call of a function, or a thread that begins with one.
fn call_effect(
    alloc: Global,
    program: &Prog,
    f: &Function,
    func: u32,
    es: &Exprs,
    call: &Call,
) -> Result<Action, Stop>
    requires fits { exprs_fit (arities program.now) (length f.now.names) es.now ≡ true }
    requires takes { takes (arities program.now) func (exprs_count es.now) ≡ true }
    requires sound { IsSound (arities program.now) f.now call.now }
    ensures moves { (self : ℕ) (below : Term) →
        let effect = plain_call func (exprs_map (name_at f.now.names) es.now) in
        let variables = variables_of f.now call.now in
        let waiting = entry_for f.now call.now in
        Moves program.now f.now result call.now below
        (steps.effect_step (text_of program.now) self variables effect
        (waiting ∷ below)) }
    ensures did { ActionAgrees (arities program.now) result }
{
    let list = Vec::with_capacity(alloc, es.items.len())?;
    let args = values_in(alloc, program, f, call.slots.as_slice(), es, list)?;
    Ok(Action::Calls(func, args))
}

fn spawn_effect(
    alloc: Global,
    program: &Prog,
    f: &Function,
    func: u32,
    es: &Exprs,
    call: &Call,
) -> Result<Action, Stop>
    requires fits { exprs_fit (arities program.now) (length f.now.names) es.now ≡ true }
    requires takes { takes (arities program.now) func (exprs_count es.now) ≡ true }
    requires sound { IsSound (arities program.now) f.now call.now }
    ensures moves { (self : ℕ) (below : Term) →
        let effect = plain_spawn func (exprs_map (name_at f.now.names) es.now) in
        let variables = variables_of f.now call.now in
        let waiting = entry_for f.now call.now in
        Moves program.now f.now result call.now below
        (steps.effect_step (text_of program.now) self variables effect
        (waiting ∷ below)) }
    ensures did { ActionAgrees (arities program.now) result }
{
    let list = Vec::with_capacity(alloc, es.items.len())?;
    let args = values_in(alloc, program, f, call.slots.as_slice(), es, list)?;
    let function = FnRef::new(alloc, func, args)?;
    Ok(Action::Asks(Ask::Spawn(function)))
}

// What an effect without a value does, except `self`.
fn effect_alone(act: Act) -> Action
    requires { act ≡ Act.OwnThread → ⊥ }
    ensures moves { (p : List (PlainItem ℕ)) (f : PlainItem ℕ) (call : Call) (self : ℕ)
        (below : Term) → Moves p f (Ok result) call below
        (steps.act_step self act (entry_for f call ∷ below)) }
    ensures did { (fs : List ℕ) → ActionAgrees fs (Ok result) }
{
    match act {
        Act::Chan => Action::Asks(Ask::MakeChan),
        Act::SwapChan => Action::Asks(Ask::MakeSwap),
        Act::IVar => Action::Asks(Ask::MakeIVar),
        Act::MVar => Action::Asks(Ask::MakeMVar(None)),
        Act::Mailbox => Action::Asks(Ask::MakeMailbox),
        Act::Mchan => Action::Asks(Ask::MakeMchan),
        Act::Exit => Action::Ends,
        Act::Yield => Action::Asks(Ask::Yield),
        Act::Now => Action::Asks(Ask::Now),
        Act::OwnThread => unreachable!(),
    }
}

// The thread's own number comes at once.
#[tactic(auto, using(crate::proofs::CallLemmas::filled_is, crate::proofs::CallLemmas::agree_filled, crate::proofs::CallLemmas::wait_room))]
fn own_thread(program: &Prog, f: &Function, thread: Tid, call: &mut Call) -> Action
    requires sound { IsSound (arities program.now) f.now call.old }
    requires waits { WaitFits call.old.wait (length f.now.names)
        (length call.old.slots.items) }
    ensures moves { (below : Term) →
        Moves program.now f.now (Ok result) call.new below
        (steps.act_step thread.0 Act.OwnThread (entry_for f.now call.old ∷ below)) }
    ensures stays { Stays (arities program.now) f.now (Ok result) call.old call.new }
{
    fill(call, Value::new(ValueKind::Thread(thread)));
    Action::Goes
}

// An effect, where the call waits for its answer already.
fn perform(
    alloc: Global,
    thread: Tid,
    program: &Prog,
    f: &Function,
    effect: &Effect,
    call: &mut Call,
) -> Result<Action, Stop>
    requires fits { effect_fits (arities program.now) (length f.now.names)
        (plain_effect effect.now) ≡ true }
    requires sound { IsSound (arities program.now) f.now call.old }
    requires waits { WaitFits call.old.wait (length f.now.names)
        (length call.old.slots.items) }
    ensures moves { (below : Term) →
        let effect = effect_map (name_at f.now.names) (plain_effect effect.now) in
        let variables = variables_of f.now call.old in
        Moves program.now f.now result call.new below
        (steps.effect_step (text_of program.now) thread.0 variables effect
        (entry_for f.now call.old ∷ below)) }
    ensures stays { Stays (arities program.now) f.now result call.old call.new }
{
    match effect {
        Effect::Act(Act::OwnThread) => Ok(own_thread(program, f, thread, call)),
        Effect::Act(act) => Ok(effect_alone(*act)),
        Effect::ActOnOne(act, e) => effect_on_one(alloc, program, f, *act, e, call),
        Effect::ActOnTwo(act, d, e) => effect_on_two(alloc, program, f, *act, d, e, call),
        Effect::Call(func, es) => call_effect(alloc, program, f, *func, es, call),
        Effect::Spawn(func, es) => spawn_effect(alloc, program, f, *func, es, call),
    }
}

// A `let` of an effect: the call waits for its answer, and goes on at `next`.
fn let_effect(
    alloc: Global,
    thread: Tid,
    program: &Prog,
    f: &Function,
    slot: usize,
    effect: &Effect,
    next: usize,
    call: &mut Call,
) -> Result<Action, Stop>
    requires slot { slot < length f.now.names }
    requires fits { effect_fits (arities program.now) (length f.now.names)
        (plain_effect effect.now) ≡ true }
    requires ready { IsReady (arities program.now) f.now call.old }
    ensures moves { (below : Term) →
        let effect = effect_map (name_at f.now.names) (plain_effect effect.now) in
        let variables = variables_of f.now call.old in
        let waits = gives (name_at f.now.names slot) in
        let waiting = plain_entry (statements_at f.now next) variables waits in
        Moves program.now f.now result call.new below
        (steps.effect_step (text_of program.now) thread.0 variables effect
        (waiting ∷ below)) }
    ensures stays { Stays (arities program.now) f.now result call.old call.new }
{
    pad(&mut call.slots, slot)?;
    call.asked = call.at;
    call.at = next;
    call.wait = Wait::Gives(slot);
    perform(alloc, thread, program, f, effect, call)
}

// An effect whose answer is dropped, and which goes on at `next`.
fn drop_effect(
    alloc: Global,
    thread: Tid,
    program: &Prog,
    f: &Function,
    effect: &Effect,
    next: usize,
    call: &mut Call,
) -> Result<Action, Stop>
    requires fits { effect_fits (arities program.now) (length f.now.names)
        (plain_effect effect.now) ≡ true }
    requires sound { IsSound (arities program.now) f.now call.old }
    ensures moves { (below : Term) →
        let effect = effect_map (name_at f.now.names) (plain_effect effect.now) in
        let variables = variables_of f.now call.old in
        let waiting = plain_entry (statements_at f.now next) variables drops in
        Moves program.now f.now result call.new below
        (steps.effect_step (text_of program.now) thread.0 variables effect
        (waiting ∷ below)) }
    ensures stays { Stays (arities program.now) f.now result call.old call.new }
{
    call.asked = call.at;
    call.at = next;
    call.wait = Wait::Drops;
    perform(alloc, thread, program, f, effect, call)
}

// A `let`, which goes on at `next`.
fn let_step(
    alloc: Global,
    thread: Tid,
    program: &Prog,
    f: &Function,
    slot: usize,
    source: &Source,
    next: usize,
    call: &mut Call,
) -> Result<Action, Stop>
    requires slot { slot < length f.now.names }
    requires fits { source_fits (arities program.now) (length f.now.names)
        (plain_source source.now) ≡ true }
    requires ready { IsReady (arities program.now) f.now call.old }
    ensures moves { (below : Term) →
        let x = name_at f.now.names slot in
        let what = source_map (name_at f.now.names) (plain_source source.now) in
        let after = statements_at f.now next in
        let variables = variables_of f.now call.old in
        Moves program.now f.now result call.new below
        (steps.source_step (text_of program.now) thread.0 x what after variables below) }
    ensures stays { Stays (arities program.now) f.now result call.old call.new }
{
    match source {
        Source::Value(e) => went_on(assign(alloc, program, f, slot, e, next, call)),
        Source::Effect(effect) => {
            let_effect(alloc, thread, program, f, slot, effect, next, call)
        }
    }
}

/// What the instruction at the call's place does.
fn instr_step(
    alloc: Global,
    thread: Tid,
    program: &Prog,
    f: &Function,
    instr: &Instr,
    call: &mut Call,
) -> Result<Action, Stop>
    requires here { let left_at = left f.now.body in
        Follows left_at (plain_instr instr.now) (left_at call.old.at) }
    requires fits { let slots = length f.now.names in
        instr_fits (arities program.now) slots (plain_instr instr.now) ≡ true }
    requires ready { IsReady (arities program.now) f.now call.old }
    ensures moves { (below : Term) →
        let here = statements_at f.now call.old.at in
        let variables = variables_of f.now call.old in
        Moves program.now f.now result call.new below
        (steps.call_step (text_of program.now) thread.0 here variables below) }
    ensures stays { Stays (arities program.now) f.now result call.old call.new }
{
    match instr {
        Instr::Let(slot, source, next) => {
            let_step(alloc, thread, program, f, *slot, source, *next, call)
        }
        Instr::Set(slot, e, next) => { went_on(assign(alloc, program, f, *slot, e, *next, call)) }
        Instr::Do(effect, next) => drop_effect(alloc, thread, program, f, effect, *next, call),
        Instr::If(e, yes, no) => went_on(choose(alloc, program, f, e, *yes, *no, call)),
        Instr::While(e, body, next) => { went_on(choose(alloc, program, f, e, *body, *next, call)) }
        Instr::Return(e) => {
            let value = value_in(alloc, program, f, call.slots.as_slice(), e)?;
            Ok(Action::Returns(value))
        }
    }
}

/// One step of a call that runs.
pub(crate) fn call_step(
    alloc: Global,
    thread: Tid,
    program: &Prog,
    f: &Function,
    call: &mut Call,
) -> Result<Action, Stop>
    requires fits { FunctionFits (arities program.now) f.now }
    requires agree { all_agree (arities program.now) call.old.slots.items ≡ true }
    requires runs { call.old.wait ≡ Wait.Runs }
    ensures moves { (below : Term) →
        let before = entry_for f.now call.old in
        Moves program.now f.now result call.new below
        (steps.next (text_of program.now) thread.0 (before ∷ below)) }
    ensures stays { Stays (arities program.now) f.now result call.old call.new }
{
    match f.instr(call.at) {
        Some(instr) => instr_step(alloc, thread, program, f, instr, call),
        None => Ok(Action::Returns(Value::new(ValueKind::Unit))),
    }
}
