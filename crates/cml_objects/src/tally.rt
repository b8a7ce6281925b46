//! How much a call looks at.

ghost use Rattle.std.specs.Prelude.{◌≡◌, ◌≤◌, ◌<◌, ◌+◌};

use std::marker::Model;

/// A count of looks: a look is one offer or one light examined.
#[derive(Drop)]
pub struct Tally {
    count: u64,
}

impl Model for Tally {
    ghost use Rattle.std.specs.Prelude.{ℕ};

    ghost Value = { ℕ };

    ghost view = { λ t. t.count };
}

impl Tally {
    /// A count of no looks.
    pub fn new() -> Tally
        ensures { result ≡ 0 }
    {
        Tally { count: 0 }
    }

    /// How many looks there were. At `u64::MAX` there may have been more.
    pub fn looks(&self) -> u64
        ensures { result ≡ self.now }
    {
        self.count
    }

    /// Counts one more look, saturating at `u64::MAX`.
    pub fn add(&mut self)
        ensures more { self.old < u64.MAX → self.new ≡ self.old + 1 }
        ensures stays { self.old ≡ u64.MAX → self.new ≡ self.old }
        ensures most { self.new ≤ self.old + 1 }
    {
        *self = Tally {
            count: self.count.saturating_add(1),
        };
    }
}
