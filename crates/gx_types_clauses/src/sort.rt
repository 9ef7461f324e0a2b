//! The sorts of things that names stand for.

/// What a name stands for.
#[derive(Clone, Copy, Debug, PartialEq, Eq)]
pub enum Sort {
    /// A table: rows by identifier.
    Table,
    /// An edge collection: edges without vertices.
    Edges,
    /// A graph: vertices and edges.
    Graph,
}
