//! What an expression reads at a vertex with another row beside it.

use gx_expr::{Scope, Side};
use gx_rows::{Row, Value, Vid};

/// A vertex with another row: the side `v`, with its identifier, and the side `o`.
#[derive(Drop)]
pub(crate) struct JoinScope<'a> {
    pub(crate) id: Vid,
    pub(crate) row: &'a Row,
    pub(crate) other: &'a Row,
    /// Whether the other row is of the other table.
    pub(crate) matched: bool,
}

impl Scope for JoinScope<'_> {
    ghost use Rattle.gx_vtable.specs.NewRows.{values_in_join};

    ghost values = { λ s. values_in_join (s.id, s.row.now) s.other.now s.matched };

    fn column(&self, side: Side, i: u32) -> Option<&Value> {
        match side {
            Side::Vertex => self.row.get(i),
            Side::Other => self.other.get(i),
            _ => None,
        }
    }

    fn id(&self, side: Side) -> Option<Vid> {
        match side {
            Side::Vertex => Some(self.id),
            _ => None,
        }
    }

    fn matched(&self) -> bool {
        self.matched
    }
}
