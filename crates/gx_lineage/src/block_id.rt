//! Identifiers of blocks.

use crate::NodeId;

/// The identifier of a block: one part of one node. Blocks are ordered by node, then by part.
#[derive(Clone, Copy, Debug, PartialEq, Eq, PartialOrd, Ord)]
pub struct BlockId {
    /// The node.
    pub node: NodeId,
    /// The part, counted from 0.
    pub part: u32,
}
