//! The depth and the nodes that are kept with groups, computed from those that their parts keep.

ghost use Rattle.std.specs.Prelude.{◌≡◌};
ghost use Rattle.cml_value.specs.{Group.{groups, group_depth, groups_depth, group_nodes, groups_nodes}, GroupViews.{plain_group}, Sizes.{kept}};

use crate::group::{Group, GroupKind};
use crate::size::Size;

impl Group {
    // What is kept with the group.
    pub(crate) fn size(&self) -> Size
        ensures depth { result.depth ≡ kept (group_depth self.now) }
        ensures nodes { result.nodes ≡ kept (group_nodes self.now) }
    {
        self.size
    }
}

impl GroupKind {
    // What is to be kept with a group of this kind. It looks at each part once, and no deeper.
    #[inline(always)]
    pub(crate) fn size(&self) -> Size
        ensures depth { result.depth ≡ kept (group_depth (plain_group self.now)) }
        ensures nodes { result.nodes ≡ kept (group_nodes (plain_group self.now)) }
    {
        match self {
            GroupKind::Never => Size::one(),
            GroupKind::Leaf(b) => b.size(),
            GroupKind::Choose(gs) => groups_size(gs).under_one(),
            GroupKind::Wrap(g, f) => Group::size(g).and(f.size()).under_one(),
            GroupKind::Scope(_, g) => Group::size(g).under_one(),
        }
    }
}

// The size of the groups side by side.
fn groups_size(all: &[Group]) -> Size
    ensures depth { result.depth ≡ kept (groups_depth (groups all.now)) }
    ensures nodes { result.nodes ≡ kept (groups_nodes (groups all.now)) }
{
    let mut size = Size::none();
    for g in all {
        size = size.and(g.size());
    }
    size
}
