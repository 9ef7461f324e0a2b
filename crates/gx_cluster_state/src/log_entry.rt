//! Entries of a cluster's log.

use crate::Cargo;
use gx_lineage::{BlockId, NodeId};

/// What happened in a turn, or that a node was released. Workers are numbered from 0.
#[derive(Drop)]
pub enum LogEntry {
    /// A worker began to run a block.
    Started {
        worker: u32,
        block: BlockId,
    },
    /// A worker finished a block, which it holds from now on.
    Finished {
        worker: u32,
        block: BlockId,
        cargo: Cargo,
    },
    /// All that a worker held and ran is gone.
    Lost {
        worker: u32,
        /// How many blocks it held.
        blocks: u64,
        /// The block that it ran.
        running: Option<BlockId>,
    },
    /// An event that changed nothing.
    Nothing {
        worker: u32,
    },
    /// All blocks of a node are gone. This is not a turn.
    Released {
        node: NodeId,
    },
}
