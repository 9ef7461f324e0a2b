//! What an expression may read at each place of a script.

ghost use Rattle.std.specs.Prelude.{◌≡◌, []};
ghost use Rattle.std.specs.Option.{option_copied, unwrap_or};
ghost use Rattle.gx_types_exprs.specs.ExprScopes as scopes;
ghost use Rattle.gx_types_exprs.specs.ExprTyping.{column_of};

use gx_expr::Side;
use gx_rows::{RowType, ValueKind};

/// What an expression may read, by the place in which it is written.
#[derive(Clone, Copy)]
pub enum ExprScope<'a> {
    /// `v` alone: the vertices of a graph, or the rows of a table.
    Vertex(&'a RowType),
    /// `src`, `dst` and `edge`, by the row types of the vertices and of the edges.
    Triplet(&'a RowType, &'a RowType),
    /// `edge`, and `src` and `dst` with their identifiers alone.
    Edge(&'a RowType),
    /// `v` and `o`: a row and the one that it is joined with.
    Join(&'a RowType, &'a RowType),
    /// `v`, `o` and `matched`: a row, the one that it is joined with or a default row, and whether
    /// there was one.
    OuterJoin(&'a RowType, &'a RowType),
    /// `v` and `m`: a vertex and its merged message.
    Program(&'a RowType, &'a RowType),
}

impl<'a> ExprScope<'a> {
    /// Whether a side is in scope.
    pub(crate) fn has_side(&self, side: Side) -> bool
        ensures { result ≡ scopes.has_side (scopes.scope_names self.now) side }
    {
        match (*self, side) {
            (ExprScope::Vertex(_), Side::Vertex) => true,
            (ExprScope::Triplet(_, _), Side::Src | Side::Dst | Side::Edge) => true,
            (ExprScope::Edge(_), Side::Src | Side::Dst | Side::Edge) => true,
            (ExprScope::Join(_, _), Side::Vertex | Side::Other) => true,
            (ExprScope::OuterJoin(_, _), Side::Vertex | Side::Other) => true,
            (ExprScope::Program(_, _), Side::Vertex | Side::Message) => true,
            _ => false,
        }
    }

    /// Whether `matched` is in scope.
    pub(crate) fn has_matched(&self) -> bool
        ensures { result ≡ (scopes.scope_names self.now).has_matched }
    {
        match *self {
            ExprScope::OuterJoin(_, _) => true,
            _ => false,
        }
    }

    // The row type of a side; `None` if no column of the side can be read.
    fn row_type(&self, side: Side) -> Option<&'a RowType>
        ensures { unwrap_or (option_copied result) []
            ≡ scopes.readable_columns (scopes.scope_names self.now) side }
    {
        match (*self, side) {
            (ExprScope::Vertex(v), Side::Vertex) => Some(v),
            (ExprScope::Triplet(ends, _), Side::Src | Side::Dst) => Some(ends),
            (ExprScope::Triplet(_, edge), Side::Edge) => Some(edge),
            (ExprScope::Edge(edge), Side::Edge) => Some(edge),
            (ExprScope::Join(v, _), Side::Vertex) => Some(v),
            (ExprScope::Join(_, o), Side::Other) => Some(o),
            (ExprScope::OuterJoin(v, _), Side::Vertex) => Some(v),
            (ExprScope::OuterJoin(_, o), Side::Other) => Some(o),
            (ExprScope::Program(v, _), Side::Vertex) => Some(v),
            (ExprScope::Program(_, m), Side::Message) => Some(m),
            _ => None,
        }
    }

    /// The position and the kind of the column of this name on a side; `None` if there is none.
    pub(crate) fn find(&self, side: Side, name: &str) -> Option<(u32, ValueKind)>
        ensures { result
            ≡ column_of name.now (scopes.readable_columns (scopes.scope_names self.now) side) }
    {
        match self.row_type(side) {
            Some(row_type) => find_column(row_type, name),
            None => None,
        }
    }
}

// The position and the kind of the column of this name.
fn find_column(row_type: &RowType, name: &str) -> Option<(u32, ValueKind)>
    ensures { result ≡ column_of name.now row_type.now }
{
    match row_type.find(name) {
        Some(i) => Some((i, row_type.kind(i))),
        None => None,
    }
}

/// Whether the row of a side has an identifier.
pub(crate) fn side_has_id(side: Side) -> bool
    ensures { result ≡ scopes.side_has_id side }
{
    match side {
        Side::Vertex | Side::Src | Side::Dst => true,
        Side::Edge | Side::Other | Side::Message => false,
    }
}
