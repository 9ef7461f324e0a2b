//! What a name in a statement stands for.

use crate::SharedType;

/// What a name in a statement stands for. A row type that it does not have is lent as one without
/// columns.
#[derive(Clone, Copy)]
pub(crate) struct Operand<'k> {
    /// The number of the statement that defines it, counted from 1; 0 if the statement uses no name
    /// there.
    pub(crate) number: u32,
    /// The row type of the rows of a table, or of the vertices of a graph.
    pub(crate) vertices: &'k SharedType,
    /// The row type of the edges.
    pub(crate) edges: &'k SharedType,
}
