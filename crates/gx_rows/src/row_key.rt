//! Keys of rows, their copies and their order.

ghost use Rattle.std.specs.Prelude.{◌≡◌, IfOk};
ghost use Rattle.gx_rows.specs.Order.{key_cmp};

use crate::{NoMemory, Row, Vid};
use std::cmp::Ordering;

/// The vertex or edge to which a row belongs.
#[derive(Debug, Drop, PartialEq, Eq)]
pub enum RowKey {
    /// The vertex of this identifier.
    Vertex(Vid),
    /// An edge from the first identifier to the second, with its row.
    Edge(Vid, Vid, Row),
}

impl RowKey {
    /// An equal key. It shares the texts and lists of an edge's row.
    ///
    /// # Errors
    ///
    /// `NoMemory` if memory for an edge's row runs out, or if no further copy of a value in it can
    /// be counted.
    pub fn copy(&self) -> Result<RowKey, NoMemory>
        ensures { IfOk result (λ key. key ≡ self.now) }
    {
        match self {
            RowKey::Vertex(v) => Ok(RowKey::Vertex(*v)),
            RowKey::Edge(src, dst, row) => Ok(RowKey::Edge(*src, *dst, row.copy()?)),
        }
    }

    /// Vertices before edges, vertices by identifier, edges by source, then destination, then row.
    pub fn compare(&self, other: &RowKey) -> Ordering
        ensures { result ≡ key_cmp self.now other.now }
    {
        match (self, other) {
            (RowKey::Vertex(v), RowKey::Vertex(w)) => v.cmp(w),
            (RowKey::Vertex(_), RowKey::Edge(_, _, _)) => Ordering::Less,
            (RowKey::Edge(_, _, _), RowKey::Vertex(_)) => Ordering::Greater,
            (RowKey::Edge(src, dst, row), RowKey::Edge(other_src, other_dst, other_row)) => src
                .cmp(other_src)
                .then(dst.cmp(other_dst))
                .then(row.cmp(other_row)),
        }
    }
}
