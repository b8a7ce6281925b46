//! How many cases there were, and how many things differed.

/// The counts.
#[derive(Clone, Copy)]
pub struct Tally {
    /// The cases.
    pub cases: u64,
    /// What differed, and what could not be read.
    pub differ: u64,
}

impl Tally {
    /// Nothing yet.
    pub fn new() -> Tally {
        Tally {
            cases: 0,
            differ: 0,
        }
    }

    /// One case more.
    pub fn comes(&mut self) {
        self.cases = self.cases.saturating_add(1);
    }

    /// One difference more.
    pub fn differs(&mut self) {
        self.differ = self.differ.saturating_add(1);
    }
}
