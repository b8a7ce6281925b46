//! The depth and the nodes that are kept with values and events, computed from those that their parts keep.

ghost use Rattle.std.specs.Prelude.{◌≡◌};
ghost use Rattle.cml_value.specs.Value.{values, events};
ghost use Rattle.cml_value.specs.Limits.{value_depth, values_depth, base_depth, function_depth, event_depth, events_depth, value_nodes, values_nodes, base_nodes, function_nodes, event_nodes, events_nodes};
ghost use Rattle.cml_value.specs.{Sizes.{kept}, Views.{plain_value, plain_event}};

use crate::size::Size;
use crate::value::{Base, BaseKind, Event, EventKind, FnRef, Value, ValueKind};

impl Value {
    // What is kept with the value.
    pub(crate) fn size(&self) -> Size
        ensures depth { result.depth ≡ kept (value_depth self.now) }
        ensures nodes { result.nodes ≡ kept (value_nodes self.now) }
    {
        self.kind.size()
    }
}

impl ValueKind {
    // What is to be kept with a value of this kind. It looks at each part once, and no deeper.
    pub(crate) fn size(&self) -> Size
        ensures depth { result.depth ≡ kept (value_depth (plain_value self.now)) }
        ensures nodes { result.nodes ≡ kept (value_nodes (plain_value self.now)) }
    {
        match self {
            ValueKind::Pair(p) => p.size(),
            ValueKind::Event(e) => Event::size(e),
            _ => Size::one(),
        }
    }
}

// The size of the values side by side.
pub(crate) fn values_size(all: &[Value]) -> Size
    ensures depth { result.depth ≡ kept (values_depth (values all.now)) }
    ensures nodes { result.nodes ≡ kept (values_nodes (values all.now)) }
{
    let mut size = Size::none();
    for v in all {
        size = size.and(v.size());
    }
    size
}

impl FnRef {
    // What is kept with the captured values.
    pub(crate) fn size(&self) -> Size
        ensures depth { result.depth ≡ kept (function_depth self.now) }
        ensures nodes { result.nodes ≡ kept (function_nodes self.now) }
    {
        self.args.size
    }
}

impl Base {
    // The size of the base event: one look at the value inside.
    pub(crate) fn size(&self) -> Size
        ensures depth { result.depth ≡ kept (base_depth self.now) }
        ensures nodes { result.nodes ≡ kept (base_nodes self.now) }
    {
        match &self.kind {
            BaseKind::Always(v)
            | BaseKind::Send(_, v)
            | BaseKind::Swap(_, v)
            | BaseKind::MSwap(_, v) => { v.size().under_one() }
            _ => Size::one(),
        }
    }
}

impl Event {
    // What is kept with the event.
    pub(crate) fn size(&self) -> Size
        ensures depth { result.depth ≡ kept (event_depth self.now) }
        ensures nodes { result.nodes ≡ kept (event_nodes self.now) }
    {
        self.size
    }
}

impl EventKind {
    // What is to be kept with an event of this kind. It looks at each part once, and no deeper.
    pub(crate) fn size(&self) -> Size
        ensures depth { result.depth ≡ kept (event_depth (plain_event self.now)) }
        ensures nodes { result.nodes ≡ kept (event_nodes (plain_event self.now)) }
    {
        match self {
            EventKind::Never => Size::one(),
            EventKind::Leaf(b) => b.size(),
            EventKind::Choose(es) => events_size(es).under_one(),
            EventKind::Wrap(e, f) => Event::size(e).and(f.size()).under_one(),
            EventKind::Guard(f) | EventKind::WithNack(f) => f.size().under_one(),
            EventKind::Scope(_, e) => Event::size(e).under_one(),
        }
    }
}

// The size of the events side by side.
fn events_size(all: &[Event]) -> Size
    ensures depth { result.depth ≡ kept (events_depth (events all.now)) }
    ensures nodes { result.nodes ≡ kept (events_nodes (events all.now)) }
{
    let mut size = Size::none();
    for e in all {
        size = size.and(e.size());
    }
    size
}
