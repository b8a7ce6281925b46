//! Which rows are exchanges over a swap channel.

ghost use Rattle.std.specs.Prelude.{◌≡◌};
ghost use Rattle.cml_book.specs.{Commit.{base_awaited}, Swaps.{is_swap, are_swaps}};

use crate::state::State;
use cml_scan::Meet;
use cml_value::{BaseKind, Tid};

impl State {
    /// Whether the row is a pair, and both its leaves are swaps.
    pub fn are_swaps(&self, row: &Meet) -> bool
        ensures { result ≡ are_swaps self.now row.now }
    {
        match row {
            Meet::Single { .. } => false,
            Meet::Pair {
                head,
                head_leaf,
                other,
                other_leaf,
            } => self.swaps_at(*head, *head_leaf) && self.swaps_at(*other, *other_leaf),
        }
    }

    // Whether the thread waits, and swaps at this leaf of its group.
    fn swaps_at(&self, thread: Tid, leaf: u32) -> bool
        ensures { result ≡ is_swap (base_awaited self.now thread.0 leaf) }
    {
        let Some(flat) = self.waiting(thread) else {
            return false;
        };
        let place = leaf as usize;
        place < flat.len() && matches!(flat.leaf(place).kind(), BaseKind::Swap(_, _))
    }
}
