//! A statement with what it makes.

ghost use Rattle.std.specs.Prelude.{◌≡◌};
ghost use Rattle.gx_types_stmts.specs.Makes as makes;

use crate::{Made, SharedType, TypedStmt};

/// A statement with what it makes.
#[derive(Drop)]
pub(crate) struct TypedBody {
    /// The statement as it is run.
    pub(crate) stmt: TypedStmt,
    /// The row types of what it makes.
    pub(crate) made: Made,
}

impl TypedBody {
    /// A statement that makes a table.
    pub(crate) fn table(stmt: TypedStmt, rows: SharedType) -> TypedBody
        ensures { result ≡ makes.table_stmt stmt rows }
    {
        let made = Made {
            vertices: Some(rows),
            edges: None,
        };
        TypedBody { stmt, made }
    }

    /// A statement that makes an edge collection.
    pub(crate) fn edges(stmt: TypedStmt, edges: SharedType) -> TypedBody
        ensures { result ≡ makes.edges_stmt stmt edges }
    {
        let made = Made {
            vertices: None,
            edges: Some(edges),
        };
        TypedBody { stmt, made }
    }

    /// A statement that makes a graph.
    pub(crate) fn graph(stmt: TypedStmt, vertices: SharedType, edges: SharedType) -> TypedBody
        ensures { result ≡ makes.graph_stmt stmt vertices edges }
    {
        let made = Made {
            vertices: Some(vertices),
            edges: Some(edges),
        };
        TypedBody { stmt, made }
    }

    /// An action, which makes nothing.
    pub(crate) fn action(stmt: TypedStmt) -> TypedBody
        ensures { result ≡ makes.action_stmt stmt }
    {
        let made = Made {
            vertices: None,
            edges: None,
        };
        TypedBody { stmt, made }
    }
}
