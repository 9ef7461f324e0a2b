//! Blocks that are held.

use crate::Shared;

/// The value of a held block, and the worker that holds it.
#[derive(Drop)]
pub struct Held<T> {
    /// The worker, numbered from 0.
    pub worker: u32,
    /// The value.
    pub value: Shared<T>,
}
