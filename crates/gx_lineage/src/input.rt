//! Inputs of nodes.

use crate::NodeId;

/// The parts of an input from which one part of a node is computed.
#[derive(Clone, Copy, Debug, PartialEq, Eq)]
pub enum Pattern {
    /// The part of the same number.
    Same,
    /// Every part.
    All,
}

/// A node from which another is computed.
#[derive(Clone, Copy, Debug, PartialEq, Eq)]
pub struct Input {
    /// The input node, added before the node that depends on it.
    pub node: NodeId,
    /// Which of its parts each part depends on.
    pub pattern: Pattern,
}
