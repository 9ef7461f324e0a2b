//! Identifiers of nodes.

/// The identifier of a node: its index in the order in which nodes were added, counted from 0.
#[derive(Clone, Copy, Debug, PartialEq, Eq, PartialOrd, Ord)]
pub struct NodeId(pub u64);
