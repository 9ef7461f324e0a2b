//! Blocks that run.

use crate::Captured;
use gx_lineage::BlockId;

/// A block that a worker runs, with the inputs that it was started with.
#[derive(Drop)]
pub struct Running<T> {
    /// The block.
    pub block: BlockId,
    /// Its inputs.
    pub inputs: Captured<T>,
}
