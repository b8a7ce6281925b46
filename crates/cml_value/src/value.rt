//! Values, functions with what they captured, base events, and events as a program builds them.

ghost use Rattle.std.specs.Prelude.{◌≡◌, IfOk, IfErr};
ghost use Rattle.cml_value.specs.Views.{plain_value, plain_base, plain_event};

pub mod limits;
mod same;
mod show;
mod sizes;

use crate::number::{ChanId, IVarId, MVarId, MboxId, McastId, NackId, PortId, SwapId, Tid};
use crate::size::Size;
use crate::value::sizes::values_size;
use std::alloc::{AllocError, AllocFailed, Global};
use std::marker::Model;
use std::sync::{Arc, ArcStr};

/// A value of a program. It is immutable, and its copies share what is large. Its depth and its nodes are kept with what has parts.
#[cycle(value)]
#[derive(Drop)]
pub struct Value {
    kind: ValueKind,
}

/// What a value is.
#[cycle(value)]
#[derive(Drop)]
pub enum ValueKind {
    /// The unit value.
    Unit,
    /// A number.
    Int(i64),
    /// A truth value.
    Bool(bool),
    /// A text.
    Text(ArcStr),
    /// A pair.
    Pair(Arc<Both>),
    /// A thread.
    Thread(Tid),
    /// A channel.
    Chan(ChanId),
    /// A swap channel.
    Swap(SwapId),
    /// An I-variable.
    IVar(IVarId),
    /// An M-variable.
    MVar(MVarId),
    /// A mailbox.
    Mailbox(MboxId),
    /// A multicast channel.
    Mchan(McastId),
    /// A port of a multicast channel.
    Port(PortId),
    /// An event.
    Event(Arc<Event>),
}

/// The two values of a pair. Its depth and its nodes are kept with them.
#[cycle(value)]
#[derive(Drop)]
pub struct Both {
    first: Value,
    second: Value,
    size: Size,
}

/// A function by its number, with the values that it has captured: its first arguments.
#[cycle(value)]
#[derive(Drop)]
pub struct FnRef {
    func: u32,
    args: Arc<Captured>,
}

// The values that a function has captured, and what is kept of their depth and nodes.
#[cycle(value)]
#[derive(Drop)]
struct Captured {
    all: Vec<Value>,
    size: Size,
}

/// A base event: what one leaf of an event waits for.
#[cycle(value)]
#[derive(Drop)]
pub struct Base {
    kind: BaseKind,
}

/// What a base event waits for.
#[cycle(value)]
#[derive(Drop)]
pub enum BaseKind {
    /// Nothing: it can always be taken, and gives the value.
    Always(Value),
    /// A receiver of the value on the channel.
    Send(ChanId, Value),
    /// A sender on the channel.
    Recv(ChanId),
    /// Another thread that swaps on the swap channel: it is given the value, and its own is given back.
    Swap(SwapId, Value),
    /// The value of the I-variable, which stays.
    IGet(IVarId),
    /// The value of the M-variable, which it empties.
    MTake(MVarId),
    /// The value of the M-variable, which stays.
    MGet(MVarId),
    /// The value of the M-variable, in whose place it leaves its own.
    MSwap(MVarId, Value),
    /// The first item of the mailbox, which it takes.
    MailRecv(MboxId),
    /// The first unread message of the port, which it takes.
    PortRecv(PortId),
    /// The end of the thread.
    Join(Tid),
    /// The tick.
    At(u64),
    /// This many ticks from the moment at which the synchronization begins.
    After(u64),
    /// The nack's firing: its group has chosen a leaf outside the branch of this nack.
    Nack(NackId),
}

/// An event as a program builds it. Its depth and its nodes are kept with it.
#[cycle(value)]
#[derive(Drop)]
pub struct Event {
    kind: EventKind,
    size: Size,
}

/// What an event is.
#[cycle(value)]
#[derive(Drop)]
pub enum EventKind {
    /// Never enabled.
    Never,
    /// A base event.
    Leaf(Base),
    /// Any one of these.
    Choose(Arc<Vec<Event>>),
    /// The event, whose result goes through the function.
    Wrap(Arc<Event>, FnRef),
    /// The event that the function returns when a synchronization begins.
    Guard(FnRef),
    /// The same, where the function is given a fresh nack event.
    WithNack(FnRef),
    /// The branch of this nack.
    Scope(NackId, Arc<Event>),
}

impl Model for Value {
    ghost use Rattle.cml_value.specs.{Value.{PlainValue}, Heights.{value_height}, Codes.{value_code}};

    ghost Value = { PlainValue };

    ghost coded = { value_code };

    ghost use Rattle.std.specs.Prelude.{◌≡◌};
    ghost use Rattle.cml_value.specs.{Views.{plain_value}, Limits.{value_depth, value_nodes}, Sizes.{kept}};

    ghost view = { λ a. plain_value a.kind };

    ghost size = { value_height };
}

impl Model for Both {
    ghost use Rattle.std.specs.{Prelude.{◌≡◌, ◌+◌, max}, Coded.{coded×}};
    ghost use Rattle.cml_value.specs.{Value.{PlainValue, pair}, Codes.{value_code}, Sizes.{kept}, Limits.{value_depth, value_nodes}, Heights.{value_height}};

    ghost Value = { PlainValue × PlainValue };

    ghost coded = { coded× value_code value_code };

    ghost view = { λ a. (a.first, a.second) };

    ghost invariant = { λ a. (a.size.depth ≡ kept (value_depth (pair a.first a.second)))
        × (a.size.nodes ≡ kept (value_nodes (pair a.first a.second))) };

    ghost size = { λ p. max (value_height p.0 + 1) (value_height p.1 + 1) };
}

impl Both {
    ghost use Rattle.cml_value.specs.{Value.{pair}, Limits.{value_depth, value_nodes}, Sizes.{kept}};

    /// The first.
    pub fn first(&self) -> &Value
        ensures { result.now ≡ self.now.0 }
    {
        &self.first
    }

    /// The second.
    pub fn second(&self) -> &Value
        ensures { result.now ≡ self.now.1 }
    {
        &self.second
    }

    // What is kept with the two.
    pub(crate) fn size(&self) -> Size
        ensures depth { result.depth ≡ kept (value_depth (pair self.now.0 self.now.1)) }
        ensures nodes { result.nodes ≡ kept (value_nodes (pair self.now.0 self.now.1)) }
    {
        self.size
    }
}

impl Model for FnRef {
    ghost use Rattle.cml_value.specs.{Value.{PlainFunction, function, values}, Heights.{function_height}, Codes.{function_code}};

    ghost Value = { PlainFunction };

    ghost coded = { function_code };

    ghost use Rattle.std.specs.Prelude.{◌≡◌};
    ghost use Rattle.cml_value.specs.{Limits.{values_depth, values_nodes}, Sizes.{kept}};

    ghost view = { λ a. function a.func (values a.args.value.all.items) };

    ghost invariant = { λ a. (a.args.value.size.depth
        ≡ kept (values_depth (values a.args.value.all.items)))
        × (a.args.value.size.nodes ≡ kept (values_nodes (values a.args.value.all.items))) };

    ghost size = { function_height };

    ghost use Rattle.std.proofs.Common.{arith};
    ghost use Rattle.cml_value.specs.HeightsFall.{most-values_height};

    ghost size_decreases = { λ a h. Prim.omega (arith, most-values_height a.args.value.all.items) };
}

impl Model for Base {
    ghost use Rattle.cml_value.specs.{Value.{PlainBase}, Heights.{base_height}, Codes.{base_code}};

    ghost Value = { PlainBase };

    ghost coded = { base_code };

    ghost use Rattle.cml_value.specs.Views.{plain_base};

    ghost view = { λ a. plain_base a.kind };

    ghost size = { base_height };
}

impl Model for Event {
    ghost use Rattle.cml_value.specs.{Value.{PlainEvent}, Heights.{event_height}, Codes.{event_code}};

    ghost Value = { PlainEvent };

    ghost coded = { event_code };

    ghost use Rattle.std.specs.Prelude.{◌≡◌};
    ghost use Rattle.cml_value.specs.{Views.{plain_event}, Limits.{event_depth, event_nodes}, Sizes.{kept}};

    ghost view = { λ a. plain_event a.kind };

    ghost invariant = { λ a. (a.size.depth ≡ kept (event_depth (plain_event a.kind)))
        × (a.size.nodes ≡ kept (event_nodes (plain_event a.kind))) };

    ghost size = { event_height };

    ghost use Rattle.cml_value.specs.HeightsFall.{deep_le-event_height};

    ghost size_decreases = { λ a h. deep_le-event_height a.kind };
}

impl Value {
    ghost use Rattle.cml_value.specs.Value.{text, pair, event};

    /// The value of this kind.
    pub fn new(kind: ValueKind) -> Value
        ensures { result ≡ plain_value kind }
    {
        Value { kind }
    }

    /// The text as a value.
    ///
    /// # Errors
    /// Out of memory.
    pub fn text(alloc: Global, characters: &str) -> Result<Value, AllocError>
        ensures { IfOk result (λ v. v ≡ text characters.now) }
    {
        let characters = ArcStr::from_str(alloc, characters)?;
        Ok(Value::new(ValueKind::Text(characters)))
    }

    /// The pair of the two.
    ///
    /// # Errors
    /// Out of memory; both values come back.
    pub fn pair(
        alloc: Global,
        first: Value,
        second: Value,
    ) -> Result<Value, AllocFailed<(Value, Value)>>
        ensures ok { IfOk result (λ v. v ≡ pair first second) }
        ensures err { IfErr result (λ back. back.value ≡ (first, second)) }
    {
        let size = first.size().and(second.size()).under_one();
        let both = Both {
            first,
            second,
            size,
        };
        match Arc::new(alloc, both) {
            Ok(both) => Ok(Value::new(ValueKind::Pair(both))),
            Err(back) => {
                let Both { first, second, .. } = back.value;
                Err(AllocFailed {
                    value: (first, second),
                })
            }
        }
    }

    /// The event as a value.
    ///
    /// # Errors
    /// Out of memory; the event comes back.
    pub fn event(alloc: Global, held: Event) -> Result<Value, AllocFailed<Event>>
        ensures ok { IfOk result (λ v. v ≡ event held) }
        ensures err { IfErr result (λ back. back.value ≡ held) }
    {
        match Arc::new(alloc, held) {
            Ok(shared) => Ok(Value::new(ValueKind::Event(shared))),
            Err(back) => Err(back),
        }
    }

    /// What the value is.
    pub fn kind(&self) -> &ValueKind
        ensures { plain_value result.now ≡ self.now }
    {
        &self.kind
    }

    /// What the value is, taken out of it.
    pub fn into_kind(self) -> ValueKind
        ensures { plain_value result ≡ self }
    {
        self.kind
    }

    /// A copy of the value, which shares its parts.
    ///
    /// # Errors
    /// Out of memory: no more owners can be counted.
    pub fn copy(&self) -> Result<Value, AllocError>
        ensures { IfOk result (λ v. v ≡ self.now) }
    {
        let kind = self.kind.again()?;
        Ok(Value { kind })
    }

    // The same, written out where it is called: a value then goes to its place in registers.
    #[inline(always)]
    fn again(&self) -> Result<Value, AllocError>
        ensures { IfOk result (λ v. v ≡ self.now) }
    {
        let kind = self.kind.again()?;
        Ok(Value { kind })
    }
}

impl ValueKind {
    // The same, with another owner of what it shares.
    #[inline(always)]
    fn again(&self) -> Result<ValueKind, AllocError>
        ensures { IfOk result (λ k. plain_value k ≡ plain_value self.now) }
    {
        Ok(match self {
            ValueKind::Unit => ValueKind::Unit,
            ValueKind::Int(z) => ValueKind::Int(*z),
            ValueKind::Bool(b) => ValueKind::Bool(*b),
            ValueKind::Text(s) => ValueKind::Text(s.clone()?),
            ValueKind::Pair(p) => ValueKind::Pair(Arc::try_clone(p)?),
            ValueKind::Thread(t) => ValueKind::Thread(*t),
            ValueKind::Chan(c) => ValueKind::Chan(*c),
            ValueKind::Swap(s) => ValueKind::Swap(*s),
            ValueKind::IVar(i) => ValueKind::IVar(*i),
            ValueKind::MVar(m) => ValueKind::MVar(*m),
            ValueKind::Mailbox(b) => ValueKind::Mailbox(*b),
            ValueKind::Mchan(x) => ValueKind::Mchan(*x),
            ValueKind::Port(p) => ValueKind::Port(*p),
            ValueKind::Event(e) => ValueKind::Event(Arc::try_clone(e)?),
        })
    }
}

impl FnRef {
    ghost use Rattle.cml_value.specs.Value.{function, values, func_of, args_of};

    /// The function of this number with these captured values.
    ///
    /// # Errors
    /// Out of memory; the values come back.
    pub fn new(alloc: Global, func: u32, args: Vec<Value>) -> Result<FnRef, AllocFailed<Vec<Value>>>
        ensures ok { IfOk result (λ f. f ≡ function func (values args.items)) }
        ensures err { IfErr result (λ back. back.value ≡ args) }
    {
        let size = values_size(&args);
        match Arc::new(alloc, Captured { all: args, size }) {
            Ok(args) => Ok(FnRef { func, args }),
            Err(back) => Err(AllocFailed {
                value: back.value.all,
            }),
        }
    }

    /// The function's number.
    pub fn func(&self) -> u32
        ensures { result ≡ func_of self.now }
    {
        self.func
    }

    /// The captured values, in order.
    pub fn args(&self) -> &[Value]
        ensures { values result.now ≡ args_of self.now }
    {
        &self.args.all
    }

    /// A copy of the function, which shares its parts.
    ///
    /// # Errors
    /// Out of memory: no more owners can be counted.
    pub fn copy(&self) -> Result<FnRef, AllocError>
        ensures { IfOk result (λ f. f ≡ self.now) }
    {
        let args = Arc::try_clone(&self.args)?;
        Ok(FnRef {
            func: self.func,
            args,
        })
    }
}

impl Base {
    /// The base event of this kind.
    pub fn new(kind: BaseKind) -> Base
        ensures { result ≡ plain_base kind }
    {
        Base { kind }
    }

    /// What it waits for.
    pub fn kind(&self) -> &BaseKind
        ensures { plain_base result.now ≡ self.now }
    {
        &self.kind
    }

    /// What it waits for, taken out of it.
    pub fn into_kind(self) -> BaseKind
        ensures { plain_base result ≡ self }
    {
        self.kind
    }

    /// A copy of the base event, which shares its parts.
    ///
    /// # Errors
    /// Out of memory: no more owners can be counted.
    pub fn copy(&self) -> Result<Base, AllocError>
        ensures { IfOk result (λ b. b ≡ self.now) }
    {
        let kind = self.kind.again()?;
        Ok(Base { kind })
    }

    // The same, written out where it is called.
    #[inline(always)]
    pub(crate) fn again(&self) -> Result<Base, AllocError>
        ensures { IfOk result (λ b. b ≡ self.now) }
    {
        let kind = self.kind.again()?;
        Ok(Base { kind })
    }
}

impl BaseKind {
    // The same, with another owner of what it shares.
    #[inline(always)]
    pub(crate) fn again(&self) -> Result<BaseKind, AllocError>
        ensures { IfOk result (λ k. plain_base k ≡ plain_base self.now) }
    {
        Ok(match self {
            BaseKind::Always(v) => BaseKind::Always(v.again()?),
            BaseKind::Send(c, v) => BaseKind::Send(*c, v.again()?),
            BaseKind::Recv(c) => BaseKind::Recv(*c),
            BaseKind::Swap(s, v) => BaseKind::Swap(*s, v.again()?),
            BaseKind::IGet(i) => BaseKind::IGet(*i),
            BaseKind::MTake(m) => BaseKind::MTake(*m),
            BaseKind::MGet(m) => BaseKind::MGet(*m),
            BaseKind::MSwap(m, v) => BaseKind::MSwap(*m, v.again()?),
            BaseKind::MailRecv(b) => BaseKind::MailRecv(*b),
            BaseKind::PortRecv(p) => BaseKind::PortRecv(*p),
            BaseKind::Join(t) => BaseKind::Join(*t),
            BaseKind::At(tick) => BaseKind::At(*tick),
            BaseKind::After(delay) => BaseKind::After(*delay),
            BaseKind::Nack(k) => BaseKind::Nack(*k),
        })
    }
}

impl Event {
    ghost use Rattle.cml_value.specs.Value.{choose, wrap, scope, events};

    /// The event of this kind.
    pub fn new(kind: EventKind) -> Event
        ensures { result ≡ plain_event kind }
    {
        let size = kind.size();
        Event { kind, size }
    }

    /// Any one of these.
    ///
    /// # Errors
    /// Out of memory; the events come back.
    pub fn choose(alloc: Global, members: Vec<Event>) -> Result<Event, AllocFailed<Vec<Event>>>
        ensures ok { IfOk result (λ e. e ≡ choose (events members.items)) }
        ensures err { IfErr result (λ back. back.value ≡ members) }
    {
        match Arc::new(alloc, members) {
            Ok(shared) => Ok(Event::new(EventKind::Choose(shared))),
            Err(back) => Err(back),
        }
    }

    /// This event, whose result goes through the function.
    ///
    /// # Errors
    /// Out of memory; the event and the function come back.
    pub fn wrap(self, alloc: Global, function: FnRef) -> Result<Event, AllocFailed<(Event, FnRef)>>
        ensures ok { IfOk result (λ e. e ≡ wrap self function) }
        ensures err { IfErr result (λ back. back.value ≡ (self, function)) }
    {
        match Arc::new(alloc, self) {
            Ok(shared) => Ok(Event::new(EventKind::Wrap(shared, function))),
            Err(back) => Err(AllocFailed {
                value: (back.value, function),
            }),
        }
    }

    /// This event as the branch of the nack.
    ///
    /// # Errors
    /// Out of memory; the event comes back.
    pub fn scope(self, alloc: Global, nack: NackId) -> Result<Event, AllocFailed<Event>>
        ensures ok { IfOk result (λ e. e ≡ scope nack.0 self) }
        ensures err { IfErr result (λ back. back.value ≡ self) }
    {
        match Arc::new(alloc, self) {
            Ok(shared) => Ok(Event::new(EventKind::Scope(nack, shared))),
            Err(back) => Err(back),
        }
    }

    /// What the event is.
    pub fn kind(&self) -> &EventKind
        ensures { plain_event result.now ≡ self.now }
    {
        &self.kind
    }

    /// A copy of the event, which shares its parts.
    ///
    /// # Errors
    /// Out of memory: no more owners can be counted.
    pub fn copy(&self) -> Result<Event, AllocError>
        ensures { IfOk result (λ e. e ≡ self.now) }
    {
        let kind = self.kind.copy()?;
        Ok(Event {
            kind,
            size: self.size,
        })
    }
}

impl EventKind {
    // The same, with another owner of what it shares.
    fn copy(&self) -> Result<EventKind, AllocError>
        ensures { IfOk result (λ k. plain_event k ≡ plain_event self.now) }
    {
        Ok(match self {
            EventKind::Never => EventKind::Never,
            EventKind::Leaf(b) => EventKind::Leaf(b.copy()?),
            EventKind::Choose(es) => EventKind::Choose(Arc::try_clone(es)?),
            EventKind::Wrap(e, f) => {
                let shared = Arc::try_clone(e)?;
                EventKind::Wrap(shared, f.copy()?)
            }
            EventKind::Guard(f) => EventKind::Guard(f.copy()?),
            EventKind::WithNack(f) => EventKind::WithNack(f.copy()?),
            EventKind::Scope(k, e) => {
                let shared = Arc::try_clone(e)?;
                EventKind::Scope(*k, shared)
            }
        })
    }
}
