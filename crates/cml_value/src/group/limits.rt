//! How deep a group nests, and of how many nodes it is made. Both are kept with it, so nothing here walks through it.

ghost use Rattle.std.specs.Prelude.{◌≡◌, ◌+◌, min, is_some, IfSome};
ghost use Rattle.cml_value.specs.{Group.{group_depth, group_nodes, group_fits}, Limits.{is_within}};

use crate::group::Group;
use crate::value::limits::{MAX_DEPTH, MAX_NODES};

impl Group {
    /// The depth: a leaf as its base event, else one more than the deepest part. It is kept with the group, saturated at
    /// `u64::MAX`.
    pub fn depth(&self) -> u64
        ensures { result ≡ min (group_depth self.now) u64.MAX }
    {
        self.size.depth
    }

    /// The number of nodes. It is kept with the group, saturated at `u64::MAX`.
    pub fn nodes(&self) -> u64
        ensures { result ≡ min (group_nodes self.now) u64.MAX }
    {
        self.size.nodes
    }

    /// Whether the depth is at most [`MAX_DEPTH`] and the nodes are at most [`MAX_NODES`]. It looks at no part.
    pub fn fits(&self) -> bool
        ensures { result ≡ group_fits self.now }
    {
        self.spend(MAX_DEPTH, MAX_NODES).is_some()
    }

    /// What is left of a budget of nodes after the group, where the budget and the depth are enough for it. It looks at no part.
    #[tactic(auto, using(std::proofs::lemmas::Bool::Decides::nat_tests, crate::proofs::Kept::kept_within))]
    pub fn spend(&self, depth: u32, budget: u32) -> Option<u32>
        ensures enough { is_some result
            ≡ is_within depth budget (group_depth self.now) (group_nodes self.now) }
        ensures left { IfSome result (λ left. left + group_nodes self.now ≡ budget) }
    {
        self.size.spend(depth, budget)
    }
}
