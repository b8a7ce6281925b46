//! How many workers were started.

use std::thread::JoinHandle;

// How many workers were started: each is counted by its handle, and no other way.
#[derive(Drop)]
pub(crate) struct Started {
    count: usize,
}

impl Started {
    // None yet.
    pub(crate) fn none() -> Started {
        Started { count: 0 }
    }

    // Counts one more, which has this handle.
    pub(crate) fn add<T>(&mut self, handle: &JoinHandle<T>) {
        let _ = handle;
        self.count = self.count.saturating_add(1);
    }

    // Whether none was started.
    pub(crate) fn is_none(&self) -> bool {
        self.count == 0
    }
}
