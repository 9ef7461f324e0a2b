//! Events of a schedule.

/// What a schedule may have happen in a turn. Workers are numbered from 0.
#[derive(Clone, Copy, Debug, PartialEq, Eq)]
pub enum Event {
    /// The worker starts the least ready block.
    Start(u32),
    /// The worker finishes the block that it runs.
    Finish(u32),
    /// All that the worker holds and runs is lost.
    Lose(u32),
    /// The first idle worker starts the least ready block; if no worker is idle or no block is
    /// ready, the first busy worker finishes.
    Next,
}
