//! Items of lists in statements, clauses that send messages, and the tests of a subgraph.

use crate::expr::Expr;
use crate::words::{MergeWord, SideWord};
use gx_rows::{Text, ValueKind};
use sqlite_items::Items;

/// A column that is loaded from a file.
#[derive(Drop)]
pub struct ColumnDecl {
    /// The column's name.
    pub name: Text,
    /// The kind of its values.
    pub kind: ValueKind,
}

/// A column that is computed.
#[derive(Drop)]
pub struct ColumnExpr {
    /// The column's name.
    pub name: Text,
    /// The expression for its values.
    pub value: Expr,
}

/// A column whose values are merged.
#[derive(Drop)]
pub struct ColumnMerge {
    /// The column's name.
    pub name: Text,
    /// How its values are merged.
    pub by: MergeWord,
}

/// A message that each edge sends to one of its ends.
#[derive(Drop)]
pub struct SendClause {
    /// The end to which it goes.
    pub to: SideWord,
    /// The values of the message, one for each merged column.
    pub values: Items<Expr>,
    /// The test of the edges that send it: all edges, if there is none.
    pub when: Option<Expr>,
}

/// The tests of a subgraph, of which at least one is given.
#[derive(Drop)]
pub struct SubgraphFilter {
    /// The test of vertices.
    pub vertices: Option<Expr>,
    /// The test of edges.
    pub edges: Option<Expr>,
}
