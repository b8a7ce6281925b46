//! The depth and the number of nodes of a value or an event, as they are kept with it.

ghost use Rattle.std.specs.Prelude.{◌≡◌, ◌+◌, max, is_some, IfSome};
ghost use Rattle.cml_value.specs.{Limits.{is_within}, Sizes.{kept}};

/// A depth and a number of nodes, both saturated at `u64::MAX`.
#[derive(Clone, Copy)]
pub(crate) struct Size {
    pub(crate) depth: u64,
    pub(crate) nodes: u64,
}

impl Size {
    /// The size of an empty list.
    pub(crate) fn none() -> Size
        ensures depth { result.depth ≡ 0 }
        ensures nodes { result.nodes ≡ 0 }
    {
        Size { depth: 0, nodes: 0 }
    }

    /// The size of what has no parts.
    pub(crate) fn one() -> Size
        ensures depth { result.depth ≡ 1 }
        ensures nodes { result.nodes ≡ 1 }
    {
        Size { depth: 1, nodes: 1 }
    }

    /// The size of the two side by side.
    pub(crate) fn and(self, other: Size) -> Size
        ensures depth { result.depth ≡ max self.depth other.depth }
        ensures nodes { result.nodes ≡ kept (self.nodes + other.nodes) }
    {
        Size {
            depth: self.depth.max(other.depth),
            nodes: self.nodes.saturating_add(other.nodes),
        }
    }

    /// The size of one node with these parts.
    pub(crate) fn under_one(self) -> Size
        ensures depth { result.depth ≡ kept (self.depth + 1) }
        ensures nodes { result.nodes ≡ kept (self.nodes + 1) }
    {
        Size {
            depth: self.depth.saturating_add(1),
            nodes: self.nodes.saturating_add(1),
        }
    }

    /// What is left of a budget of nodes, where the budget and the depth are enough.
    #[tactic(auto, using(std::proofs::lemmas::Bool::Decides::nat_tests))]
    pub(crate) fn spend(self, depth: u32, budget: u32) -> Option<u32>
        ensures enough { is_some result ≡ is_within depth budget self.depth self.nodes }
        ensures left { IfSome result (λ left. left + self.nodes ≡ budget) }
    {
        if self.depth > depth as u64 || self.nodes > budget as u64 {
            return None;
        }
        Some(budget - self.nodes as u32)
    }
}
