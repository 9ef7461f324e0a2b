//! Kinds of nodes.

/// What the blocks of a node contain.
#[derive(Clone, Copy, Debug, PartialEq, Eq)]
pub enum NodeKind {
    /// Rows of vertices.
    Vertices,
    /// Rows of edges.
    Edges,
    /// For each part of the edges, which rows of vertices it needs.
    Route,
    /// Rows of vertices, sent to the parts that need them.
    Ship,
    /// Rows of edges with the rows of vertices that they need.
    View,
    /// Messages of one part of the edges.
    Sent,
    /// Messages merged at their vertices.
    Gathered,
    /// The vertices that received a message.
    Active,
}
