//! What an expression reads at a vertex.

use gx_expr::{Scope, Side};
use gx_rows::{Row, Value, Vid};

/// A vertex: the side `v`, with its identifier.
#[derive(Drop)]
pub(crate) struct VertexScope<'a> {
    pub(crate) id: Vid,
    pub(crate) row: &'a Row,
}

impl Scope for VertexScope<'_> {
    ghost use Rattle.gx_vtable.specs.NewRows.{values_at_vertex};

    ghost values = { λ s. values_at_vertex (s.id, s.row.now) };

    fn column(&self, side: Side, i: u32) -> Option<&Value> {
        match side {
            Side::Vertex => self.row.get(i),
            _ => None,
        }
    }

    fn id(&self, side: Side) -> Option<Vid> {
        match side {
            Side::Vertex => Some(self.id),
            _ => None,
        }
    }

    fn matched(&self) -> bool {
        false
    }
}
