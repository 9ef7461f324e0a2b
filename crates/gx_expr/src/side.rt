//! The rows that an expression may read.

/// A row that is in scope, by its name in scripts.
#[derive(Clone, Copy, Debug, PartialEq, Eq)]
pub enum Side {
    /// `v`: the row of a vertex, or of the table before a join.
    Vertex,
    /// `src`: the row of an edge's source.
    Src,
    /// `dst`: the row of an edge's destination.
    Dst,
    /// `edge`: the row of an edge.
    Edge,
    /// `o`: the row that is joined.
    Other,
    /// `m`: the merged message of a vertex.
    Message,
}
