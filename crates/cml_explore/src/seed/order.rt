//! What decides what happens next in a run.

/// What decides what happens next in a run.
#[derive(Clone, Copy)]
pub enum Order {
    /// Threads that are ready have their turns one after another, and rows alone are picked.
    Queue,
    /// It is drawn by lot what happens next, the turns of threads that are ready too.
    Lot,
    /// Priorities say it, which are drawn by lot. They change at points, one fewer than this depth: there are none where it is 0 or 1. Points of a
    /// depth from 1 to 64 or so are worth their time.
    Priority(u32),
}
