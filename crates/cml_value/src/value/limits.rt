//! How deep values and events nest, and of how many nodes they are made. Both are kept with them, so nothing here walks
//! through them.

ghost use Rattle.std.specs.Prelude.{◌≡◌, ◌+◌, min, is_some, IfSome};
ghost use Rattle.cml_value.specs.Limits.{value_depth, base_depth, function_depth, event_depth, value_nodes, base_nodes, function_nodes, event_nodes, value_fits, event_fits, is_within};

use crate::value::{Base, Event, FnRef, Value};

/// The greatest depth of a value, an event or a group that the runtime accepts.
pub const MAX_DEPTH: u32 = 64;

/// The greatest number of nodes of a value, an event or a group that the runtime accepts.
pub const MAX_NODES: u32 = 65_536;

impl Value {
    /// The depth: 1 for a value without parts, else one more than the deeper part. It is kept with the value, saturated at
    /// `u64::MAX`.
    pub fn depth(&self) -> u64
        ensures { result ≡ min (value_depth self.now) u64.MAX }
    {
        let size = self.size();
        size.depth
    }

    /// The number of nodes, where a part that is shared counts as often as it stands there. It is kept with the value,
    /// saturated at `u64::MAX`.
    pub fn nodes(&self) -> u64
        ensures { result ≡ min (value_nodes self.now) u64.MAX }
    {
        let size = self.size();
        size.nodes
    }

    /// Whether the depth is at most [`MAX_DEPTH`] and the nodes are at most [`MAX_NODES`]. It looks at no part.
    #[tactic(auto, using(std::proofs::lemmas::Bool::Decides::nat_tests, crate::proofs::Kept::kept_within))]
    pub fn fits(&self) -> bool
        ensures { result ≡ value_fits self.now }
    {
        let size = self.size();
        size.spend(MAX_DEPTH, MAX_NODES).is_some()
    }
}

impl FnRef {
    /// What is left of a budget of nodes after the captured values, where the budget and the depth are enough for them. It
    /// looks at none of them.
    #[tactic(auto, using(std::proofs::lemmas::Bool::Decides::nat_tests, crate::proofs::Kept::kept_within))]
    pub fn spend(&self, depth: u32, budget: u32) -> Option<u32>
        ensures enough { is_some result
            ≡ is_within depth budget (function_depth self.now) (function_nodes self.now) }
        ensures left { IfSome result (λ left. left + function_nodes self.now ≡ budget) }
    {
        self.size().spend(depth, budget)
    }
}

impl Base {
    /// The depth: one more than the value inside, or 1. It is saturated at `u64::MAX`.
    pub fn depth(&self) -> u64
        ensures { result ≡ min (base_depth self.now) u64.MAX }
    {
        self.size().depth
    }

    /// The number of nodes. It is saturated at `u64::MAX`.
    pub fn nodes(&self) -> u64
        ensures { result ≡ min (base_nodes self.now) u64.MAX }
    {
        self.size().nodes
    }
}

impl Event {
    /// The depth: a leaf as its base event, else one more than the deepest part. It is kept with the event, saturated at
    /// `u64::MAX`.
    pub fn depth(&self) -> u64
        ensures { result ≡ min (event_depth self.now) u64.MAX }
    {
        self.size.depth
    }

    /// The number of nodes. It is kept with the event, saturated at `u64::MAX`.
    pub fn nodes(&self) -> u64
        ensures { result ≡ min (event_nodes self.now) u64.MAX }
    {
        self.size.nodes
    }

    /// Whether the depth is at most [`MAX_DEPTH`] and the nodes are at most [`MAX_NODES`]. It looks at no part.
    pub fn fits(&self) -> bool
        ensures { result ≡ event_fits self.now }
    {
        self.spend(MAX_DEPTH, MAX_NODES).is_some()
    }

    /// What is left of a budget of nodes after the event, where the budget and the depth are enough for it. It looks at no part.
    #[tactic(auto, using(std::proofs::lemmas::Bool::Decides::nat_tests, crate::proofs::Kept::kept_within))]
    pub fn spend(&self, depth: u32, budget: u32) -> Option<u32>
        ensures enough { is_some result
            ≡ is_within depth budget (event_depth self.now) (event_nodes self.now) }
        ensures left { IfSome result (λ left. left + event_nodes self.now ≡ budget) }
    {
        self.size.spend(depth, budget)
    }
}
